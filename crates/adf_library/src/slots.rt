//! The files of a library, as links and queries see them.

ghost use Rattle.std.specs.Prelude.{◌≡◌, ◌<◌, ◌^◌, ◌∷◌, [], length, map, IfSome, Ok};
ghost use Rattle.adf_library.specs.Library.{AreReady, are_ready, files_in_work, slots_devices, slots_files, slots_pending};
ghost use Rattle.adf_model.specs.Calls.{tests_at_entry};
ghost use Rattle.adf_model.specs.Slots.{number_of};
ghost use Rattle.adf_model.specs.Tests.{checked};

use crate::edits::{commit_in, step_in, undo_in};
use crate::entries::first_of;
use crate::looks::{answer_in, child_in, enter, open_number, text_in};
use crate::places::Slot;
use crate::shelf::place_in;
use adf_follow::{AskedFiles, EditedFiles, OpenFiles, asked_node};
use adf_model::{AdfError, Edit, NodeId, Query, Reply, Text};
use cg_io::Device;

/// Files under their numbers, with the edits in work of those that are open.
#[derive(Drop)]
pub(crate) struct Slots<D: Device> {
    pub(crate) items: Vec<Slot<D>>,
}

impl<D: Device> Slots<D> {
    // Whether a call of a node enters its file.
    fn enter_node(&self, node: NodeId) -> Result<(), AdfError>
        ensures { result ≡ checked (tests_at_entry (slots_files D.state self.now) (node ∷ []))
            (Ok tt) }
    {
        if node.file as usize >= self.items.len() {
            return Err(AdfError::NoSuchFile);
        }
        enter(&self.items[node.file as usize], node.serial)
    }
}

impl<D: Device> OpenFiles for Slots<D> {
    ghost files = { slots_files D.state };

    ghost devices = { slots_devices D.state };

    ghost pending = { slots_pending D.state };

    ghost is_ready = { are_ready D.state };

    fn linked_file(&self, own: u32, name: &[u8]) -> Result<u32, AdfError> {
        if name.is_empty() {
            return Ok(own);
        }
        match place_in(&self.items, name) {
            Some(number) => open_number(&self.items[number as usize], number),
            None => Err(AdfError::LinkMissing),
        }
    }

    fn link_text(&mut self, node: NodeId) -> Result<Option<Text>, AdfError> {
        if node.file as usize >= self.items.len() {
            return Ok(None);
        }
        text_in(&mut self.items[node.file as usize], node.serial)
    }

    fn child(&mut self, node: NodeId, name: &[u8]) -> Result<Option<u64>, AdfError> {
        if node.file as usize >= self.items.len() {
            return Ok(None);
        }
        child_in(&mut self.items[node.file as usize], node, name)
    }
}

impl<D: Device> AskedFiles for Slots<D> {
    fn enter_query(&self, query: &Query) -> Result<(), AdfError> {
        self.enter_node(asked_node(query))
    }

    fn answer_at(&mut self, at: NodeId, query: &Query) -> Result<Reply, AdfError> {
        if at.file as usize >= self.items.len() {
            unreachable!();
        }
        answer_in(&mut self.items[at.file as usize], at, query)
    }
}

impl<D: Device> EditedFiles for Slots<D> {
    fn enter(&self, edit: &Edit) -> Result<(), AdfError> {
        match edit {
            Edit::Move { node, parent } => {
                first_of(self.enter_node(*node), self.enter_node(*parent))
            }
            Edit::Create { parent, .. } | Edit::Link { parent, .. } => self.enter_node(*parent),
            Edit::Delete { node }
            | Edit::Rename { node, .. }
            | Edit::SetLabel { node, .. }
            | Edit::SetDims { node, .. }
            | Edit::PutAll { node, .. }
            | Edit::PutPart { node, .. } => self.enter_node(*node),
        }
    }

    fn step(
        &mut self,
        number: u32,
        edit: &Edit,
        there: Option<NodeId>,
    ) -> Result<Option<u64>, AdfError> {
        if number as usize >= self.items.len() {
            unreachable!();
        }
        step_in(&mut self.items[number as usize], edit, there)
    }

    fn commit(&mut self, number: u32) -> Result<(), AdfError> {
        if number as usize >= self.items.len() {
            unreachable!();
        }
        commit_in(&mut self.items[number as usize])
    }

    fn undo(&mut self, number: u32) {
        if number as usize >= self.items.len() {
            return;
        }
        undo_in(&mut self.items[number as usize]);
    }
}
