//! Groups of edits: all are done, or none.

ghost use Rattle.std.specs.Prelude.{◌≡◌, ◌++◌, [], false, IfErr, IfSome, OnOk};
ghost use Rattle.adf_model.specs.declared.error.AdfError.{AdfError};
ghost use Rattle.adf_tree.specs.Files.{IsFile, IsWorking, state_of, device_of};
ghost use Rattle.adf_tree.specs.Groups.{GroupAnyway, IsGroupOf, IsOfKind, RefusalLeaves, NextEnds, listed, made_of};

use crate::file::AdfFile;
use adf_model::{AdfError, Edit, EditError, NodeId, Serials};
use cg_io::Device;

// The node of a serial that an edit drew, in the file of its parent.
fn made_node(edit: &Edit, serial: Option<u64>) -> Option<NodeId>
    ensures { listed result ≡ made_of edit.now serial }
{
    let serial = match serial {
        Some(serial) => serial,
        None => return None,
    };
    match edit {
        Edit::Create { parent, .. } | Edit::Link { parent, .. } => Some(NodeId {
            file: parent.file,
            serial,
        }),
        _ => None,
    }
}

// Keeps the node that an edit made.
fn keep_made(created: &mut Vec<NodeId>, edit: &Edit, serial: Option<u64>) -> Result<(), AdfError>
    ensures kept { OnOk result
        (created.new.items ≡ created.old.items ++ made_of edit.now serial) }
    ensures memory { IfErr result (λ e. e ≡ AdfError.Memory) }
{
    let node = match made_node(edit, serial) {
        Some(node) => node,
        None => return Ok(()),
    };
    match created.push(node) {
        Ok(()) => Ok(()),
        Err(_) => Err(AdfError::Memory),
    }
}

impl<D: Device> AdfFile<D> {
    // Does the next edit of a group, and keeps the node that it made. Where it is refused the group is dropped.
    fn next_step(&mut self, edit: &Edit, created: &mut Vec<NodeId>) -> Result<(), AdfError>
        requires sound { IsWorking D.state self.old }
        ensures sound { IsWorking D.state self.new }
        ensures ends { NextEnds edit.now result created.old.items created.new.items
            (state_of D.state self.old) (state_of D.state self.new) }
    {
        let serial = match self.step(edit) {
            Ok(serial) => serial,
            Err(error) => return Err(error),
        };
        match keep_made(created, edit, serial) {
            Ok(()) => Ok(()),
            Err(error) => {
                self.undo();
                Err(error)
            }
        }
    }

    /// Does all edits of a group and commits them, or does none: the nodes that were made.
    ///
    /// A refusal names the edit, counted from 0, and leaves the file as it was; that of a failed write stands behind
    /// all edits, and the file is broken.
    pub fn edit(&mut self, edits: &[Edit]) -> Result<Serials, EditError>
        requires sound { IsFile D.state self.old }
        ensures sound { IsFile D.state self.new }
        ensures told { (state_of D.state self.old).broken ≡ false
            → IfSome (device_of D.state self.old).held (IsGroupOf edits.now result
            (state_of D.state self.old) (state_of D.state self.new)) }
        ensures leaves { IfErr result (λ refusal. RefusalLeaves refusal.error
            (state_of D.state self.old) (state_of D.state self.new)) }
        ensures none { edits.now ≡ []
            → state_of D.state self.new ≡ state_of D.state self.old }
        ensures anyway { GroupAnyway edits.now result (state_of D.state self.old)
            (state_of D.state self.new) }
        ensures kind { IfErr result (IsOfKind edits.now) }
    {
        let mut created = Vec::new(self.alloc);
        if edits.is_empty() {
            return Ok(Serials::new(created));
        }
        for (at, edit) in edits.iter().enumerate() {
            match self.next_step(edit, &mut created) {
                Ok(()) => {}
                Err(error) => return Err(EditError { at, error }),
            }
        }
        match self.commit() {
            Ok(()) => Ok(Serials::new(created)),
            Err(error) => Err(EditError {
                at: edits.len(),
                error,
            }),
        }
    }
}
