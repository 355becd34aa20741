//! Edits in work.

ghost use Rattle.std.specs.Prelude.{◌≡◌, false};
ghost use Rattle.adf_tree.specs.Reached.{with_reached};
ghost use Rattle.adf_tree.specs.Files.{IsWorking, state_of};
ghost use Rattle.adf_tree.specs.Steps.{StepEnds};

use crate::edits::do_edit;
use crate::file::AdfFile;
use crate::hints::add_hint;
use crate::names::{above, follow};
use adf_model::{AdfError, Edit, NodeId};
use cg_io::Device;

impl<D: Device> AdfFile<D> {
    /// Does one edit on the tree in work: the serial that it drew. It waits until a commit or an undo.
    ///
    /// Where it is refused, all edits in work are dropped.
    pub fn step(&mut self, edit: &Edit) -> Result<Option<u64>, AdfError>
        requires sound { IsWorking D.state self.old }
        ensures sound { IsWorking D.state self.new }
        ensures ends { StepEnds edit.now result (state_of D.state self.old)
            (state_of D.state self.new) }
    {
        self.step_at(edit, None)
    }

    /// Does one edit of the node that was reached, where it goes through links.
    pub fn step_at(&mut self, edit: &Edit, there: Option<NodeId>) -> Result<Option<u64>, AdfError>
        requires sound { IsWorking D.state self.old }
        ensures sound { IsWorking D.state self.new }
        ensures ends { StepEnds (with_reached edit.now there) result (state_of D.state self.old)
            (state_of D.state self.new) }
    {
        if self.broken {
            return Err(AdfError::Broken);
        }
        match self.know_parent(edit, there) {
            Ok(()) => self.step_there(edit, there),
            Err(error) => {
                self.undo();
                Err(error)
            }
        }
    }

    // The same, once the children of its parent were looked for.
    fn step_there(&mut self, edit: &Edit, there: Option<NodeId>) -> Result<Option<u64>, AdfError>
        requires sound { IsWorking D.state self.old }
        requires live { self.old.broken ≡ false }
        ensures sound { IsWorking D.state self.new }
        ensures ends { StepEnds (with_reached edit.now there) result (state_of D.state self.old)
            (state_of D.state self.new) }
    {
        let above = above(&self.core.rows, edit);
        match do_edit(
            self.alloc,
            &mut self.draft,
            &mut self.core,
            &mut self.hints,
            &self.names,
            edit,
            there,
        ) {
            Ok(serial) => {
                self.steps = self.steps.and(edit, &there);
                follow(&mut self.names, edit, there, above, serial);
                add_hint(&mut self.hints, &self.core.rows, serial);
                Ok(serial)
            }
            Err(error) => {
                self.draft.abandon();
                self.drop_steps();
                Err(error)
            }
        }
    }
}
