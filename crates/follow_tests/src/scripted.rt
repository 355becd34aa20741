//! Files whose edits are scripted: they change no tree, and their devices tell nothing.

ghost use Rattle.std.specs.Prelude.{◌≡◌, ◌<◌, ◌^◌, not, length};
ghost use Rattle.std.specs.List.{list_any};
ghost use Rattle.adf_model.specs.Answers.{asked_node};
ghost use Rattle.adf_model.specs.Edits.{named_nodes};
ghost use Rattle.adf_format.specs.Tree.{is_live};
ghost use Rattle.adf_model.specs.Slots.{Slot};
ghost use Rattle.follow_tests.specs.Kept.{files_of, tree_of, slot_of};
ghost use Rattle.follow_tests.specs.Scripted.{scripted_files, silent_devices, nothing_waits_in, slot_fails, fails};

use crate::kept::{KeptFile, KeptFiles, KeptNode, State, first_among, linked, text_among};
use adf_follow::{AskedFiles, EditedFiles, OpenFiles};
use adf_model::{AdfError, Edit, NodeId, Query, Reply, Text};

/// How often edits were done or refused, what waited was written, and was dropped.
#[derive(Clone, Copy, Debug, PartialEq, Eq, Drop)]
pub struct Counts {
    pub steps: u64,
    pub commits: u64,
    pub undone: u64,
}

/// Open files of which one step is refused with NoSuchNode, and all others draw their number as the
/// serial.
#[derive(Drop)]
pub struct Scripted {
    pub kept: KeptFiles,
    pub refused: u64,
    pub counts: Counts,
}

/// What is asked of the file of a node at the entry.
#[derive(Clone, Copy, Drop)]
pub enum Test {
    Gone,
    Shut,
    Failed,
    Dead,
}

#[tactic(auto, using(crate::proofs::KeptLaws::node_there, crate::proofs::KeptLaws::no_node))]
fn is_dead(nodes: &[KeptNode], serial: u64) -> bool
    ensures { result ≡ not (is_live (tree_of nodes.now) serial) }
{
    match nodes.get(serial as usize) {
        Some(_) => false,
        None => true,
    }
}

fn file_fails(file: &KeptFile, test: Test, serial: u64) -> bool
    ensures { result ≡ slot_fails test (slot_of file.now.state file.now.nodes.items) serial }
{
    match test {
        Test::Gone => false,
        Test::Shut => match file.state {
            State::Closed => true,
            State::Open | State::Broken => false,
        },
        Test::Failed => match file.state {
            State::Broken => true,
            State::Open | State::Closed => false,
        },
        Test::Dead => match file.state {
            State::Open => is_dead(&file.nodes, serial),
            State::Closed | State::Broken => true,
        },
    }
}

fn none_fails(test: Test, serial: u64) -> bool
    ensures { result ≡ slot_fails test Slot.Gone serial }
{
    match test {
        Test::Failed => false,
        Test::Gone | Test::Shut | Test::Dead => true,
    }
}

#[tactic(auto, using(crate::proofs::ScriptLaws::fails_there, crate::proofs::ScriptLaws::fails_none))]
fn node_fails(kept: &KeptFiles, test: Test, node: NodeId) -> bool
    ensures { result ≡ fails (files_of kept.now) test node }
{
    match kept.files.get(node.file as usize) {
        Some(file) => file_fails(file, test, node.serial),
        None => none_fails(test, node.serial),
    }
}

fn edit_fails(kept: &KeptFiles, test: Test, edit: &Edit) -> bool
    ensures { result ≡ list_any (fails (files_of kept.now) test) (named_nodes edit.now) }
{
    match edit {
        Edit::Move { node, parent } => {
            node_fails(kept, test, *node) || node_fails(kept, test, *parent)
        }
        Edit::Create { parent, .. } | Edit::Link { parent, .. } => node_fails(kept, test, *parent),
        Edit::Delete { node }
        | Edit::Rename { node, .. }
        | Edit::SetLabel { node, .. }
        | Edit::SetDims { node, .. }
        | Edit::PutAll { node, .. }
        | Edit::PutPart { node, .. } => node_fails(kept, test, *node),
    }
}

impl OpenFiles for Scripted {
    ghost files = { scripted_files };

    ghost devices = { silent_devices };

    ghost pending = { nothing_waits_in };

    ghost is_ready = { λ files. length files.kept.files.items < 2 ^ 32 };

    fn linked_file(&self, own: u32, name: &[u8]) -> Result<u32, AdfError> {
        match name {
            [] => Ok(own),
            _ => linked(&self.kept.files, name),
        }
    }

    #[tactic(auto, using(crate::proofs::KeptLaws::asks_none))]
    fn link_text(&mut self, node: NodeId) -> Result<Option<Text>, AdfError> {
        match self.kept.files.get(node.file as usize) {
            Some(file) => match file.state {
                State::Open => text_among(self.kept.alloc, &file.nodes, node.serial),
                _ => Ok(None),
            },
            None => Ok(None),
        }
    }

    #[tactic(auto, using(crate::proofs::KeptLaws::asks_none))]
    fn child(&mut self, node: NodeId, name: &[u8]) -> Result<Option<u64>, AdfError> {
        match self.kept.files.get(node.file as usize) {
            Some(file) => match file.state {
                State::Open => Ok(first_among(&file.nodes, node.serial, name)),
                _ => Ok(None),
            },
            None => Ok(None),
        }
    }
}

// The node of which a query is.
fn asked_node(query: &Query) -> NodeId
    ensures { result ≡ asked_node query.now }
{
    match query {
        Query::Name { node }
        | Query::LabelOf { node }
        | Query::ShapeOf { node }
        | Query::ChildrenOf { node }
        | Query::LinkText { node }
        | Query::ReadAll { node }
        | Query::Next { node }
        | Query::FormatOf { node }
        | Query::Parent { node }
        | Query::Target { node } => *node,
        Query::ReadPart { node, .. } => *node,
        Query::Find { node, .. } => *node,
    }
}

impl AskedFiles for Scripted {
    fn enter_query(&self, query: &Query) -> Result<(), AdfError> {
        let node = asked_node(query);
        if node_fails(&self.kept, Test::Gone, node) {
            return Err(AdfError::NoSuchFile);
        }
        if node_fails(&self.kept, Test::Shut, node) {
            return Err(AdfError::NotOpen);
        }
        if node_fails(&self.kept, Test::Failed, node) {
            return Err(AdfError::Broken);
        }
        if node_fails(&self.kept, Test::Dead, node) {
            return Err(AdfError::NoSuchNode);
        }
        Ok(())
    }

    // The node that is reached, of a query that is answered with a node.
    #[tactic(auto, using(crate::proofs::KeptLaws::asks_none, crate::proofs::ScriptLaws::never_told))]
    fn answer_at(&mut self, at: NodeId, query: &Query) -> Result<Reply, AdfError> {
        match query {
            Query::Next { .. } | Query::Target { .. } => Ok(Reply::Node(at)),
            _ => Err(AdfError::NoSuchNode),
        }
    }
}

impl EditedFiles for Scripted {
    fn enter(&self, edit: &Edit) -> Result<(), AdfError> {
        if edit_fails(&self.kept, Test::Gone, edit) {
            return Err(AdfError::NoSuchFile);
        }
        if edit_fails(&self.kept, Test::Shut, edit) {
            return Err(AdfError::NotOpen);
        }
        if edit_fails(&self.kept, Test::Failed, edit) {
            return Err(AdfError::Broken);
        }
        if edit_fails(&self.kept, Test::Dead, edit) {
            return Err(AdfError::NoSuchNode);
        }
        Ok(())
    }

    #[tactic(auto, using(crate::proofs::ScriptLaws::waits_none, crate::proofs::ScriptLaws::never_told, crate::proofs::ScriptLaws::same_slot, crate::proofs::ScriptLaws::rests, crate::proofs::ScriptLaws::editing))]
    fn step(
        &mut self,
        _number: u32,
        _edit: &Edit,
        _there: Option<NodeId>,
    ) -> Result<Option<u64>, AdfError> {
        self.counts.steps = self.counts.steps.saturating_add(1);
        if self.counts.steps == self.refused {
            return Err(AdfError::NoSuchNode);
        }
        Ok(Some(self.counts.steps))
    }

    #[tactic(auto, using(crate::proofs::ScriptLaws::waits_none, crate::proofs::ScriptLaws::never_told, crate::proofs::ScriptLaws::same_slot, crate::proofs::ScriptLaws::rests))]
    fn commit(&mut self, _number: u32) -> Result<(), AdfError> {
        self.counts.commits = self.counts.commits.saturating_add(1);
        Ok(())
    }

    #[tactic(auto, using(crate::proofs::ScriptLaws::waits_none, crate::proofs::ScriptLaws::same_slot, crate::proofs::ScriptLaws::rests))]
    fn undo(&mut self, _number: u32) {
        self.counts.undone = self.counts.undone.saturating_add(1);
    }
}
