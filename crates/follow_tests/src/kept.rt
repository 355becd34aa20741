//! Files that are made by hand and kept in memory: no device is read.

ghost use Rattle.std.specs.Prelude.{◌≡◌, ◌<◌, ◌^◌, map, IfOk, IfErr, length};
ghost use Rattle.adf_model.specs.Tests.{if_there};
ghost use Rattle.adf_model.specs.Slots.{number_of, slot_at};
ghost use Rattle.adf_model.specs.Follow.{open_file};
ghost use Rattle.adf_model.specs.declared.error.AdfError.{AdfError};
ghost use Rattle.adf_format.specs.Tree.{children_at, child_named};
ghost use Rattle.follow_tests.specs.Kept.{file_of, files_of, tree_of, text_of, name_of_node, told_devices, standing_file, nothing_waits};

use adf_follow::OpenFiles;
use adf_model::{AdfError, NodeId, Text};
use std::alloc::Global;

/// A node: its text where it is a link, and its children.
#[derive(Drop)]
pub struct KeptNode {
    pub name: Text,
    pub text: Option<Text>,
    pub children: Vec<u64>,
}

/// How a file stands.
#[derive(Clone, Copy, Debug, PartialEq, Eq, Drop)]
pub enum State {
    Closed,
    Open,
    Broken,
}

/// A file under its name.
#[derive(Drop)]
pub struct KeptFile {
    pub name: Text,
    pub state: State,
    pub nodes: Vec<KeptNode>,
}

/// Files under numbers.
#[derive(Drop)]
pub struct KeptFiles {
    pub alloc: Global,
    pub files: Vec<KeptFile>,
}

// A copy of the text of a link among the nodes of a file.
#[tactic(auto, using(crate::proofs::KeptLaws::text_there, crate::proofs::KeptLaws::no_text))]
pub(crate) fn text_among(
    alloc: Global,
    nodes: &[KeptNode],
    serial: u64,
) -> Result<Option<Text>, AdfError>
    ensures text { IfOk result (λ text. text ≡ text_of nodes.now serial) }
    ensures memory { IfErr result (λ error. error ≡ AdfError.Memory) }
{
    match nodes.get(serial as usize) {
        Some(node) => copied(alloc, &node.text),
        None => Ok(None),
    }
}

fn copied(alloc: Global, text: &Option<Text>) -> Result<Option<Text>, AdfError>
    ensures text { IfOk result (λ copy. copy ≡ text.now) }
    ensures memory { IfErr result (λ error. error ≡ AdfError.Memory) }
{
    match text {
        Some(text) => Ok(Some(Text::new(
            text.items().to_vec(alloc).map_err(|_| AdfError::Memory)?,
        ))),
        None => Ok(None),
    }
}

// The name of a node: empty where there is none.
#[tactic(auto, using(crate::proofs::KeptLaws::name_there, crate::proofs::KeptLaws::no_name))]
fn name_among(nodes: &[KeptNode], serial: u64) -> &[u8]
    ensures { result.now ≡ name_of_node nodes.now serial }
{
    match nodes.get(serial as usize) {
        Some(node) => node.name.items(),
        None => &[],
    }
}

// The children of a node.
#[tactic(auto, using(crate::proofs::KeptLaws::children_there, crate::proofs::KeptLaws::no_children))]
fn children_among(nodes: &[KeptNode], serial: u64) -> &[u64]
    ensures { result.now ≡ children_at (tree_of nodes.now) serial }
{
    match nodes.get(serial as usize) {
        Some(node) => &node.children,
        None => &[],
    }
}

// The first child of that name.
pub(crate) fn first_among(nodes: &[KeptNode], serial: u64, name: &[u8]) -> Option<u64>
    ensures { result ≡ child_named (tree_of nodes.now) serial name.now }
{
    let children = children_among(nodes, serial);
    'children: for child in children {
        if name_among(nodes, *child) == name {
            return Some(*child);
        }
    }
    None
}

// The open file of a name.
pub(crate) fn linked(files: &[KeptFile], name: &[u8]) -> Result<u32, AdfError>
    requires { length files.now < 2 ^ 32 }
    ensures { result ≡ if_there (number_of (map file_of files.now) name.now) AdfError.LinkMissing
        (λ number. open_file (slot_at (map file_of files.now) number) number) }
{
    'files: for (number, file) in files.iter().enumerate() {
        if file.name.items() == name {
            return opened(file.state, number as u32);
        }
    }
    Err(AdfError::LinkMissing)
}

fn opened(state: State, number: u32) -> Result<u32, AdfError>
    ensures { result ≡ standing_file state number }
{
    match state {
        State::Closed => Err(AdfError::LinkMissing),
        State::Open => Ok(number),
        State::Broken => Err(AdfError::Broken),
    }
}

impl OpenFiles for KeptFiles {
    ghost files = { files_of };

    ghost devices = { told_devices };

    ghost pending = { nothing_waits };

    ghost is_ready = { λ kept. length kept.files.items < 2 ^ 32 };

    fn linked_file(&self, own: u32, name: &[u8]) -> Result<u32, AdfError> {
        match name {
            [] => Ok(own),
            _ => linked(&self.files, name),
        }
    }

    #[tactic(auto, using(crate::proofs::KeptLaws::asks_none))]
    fn link_text(&mut self, node: NodeId) -> Result<Option<Text>, AdfError> {
        match self.files.get(node.file as usize) {
            Some(file) => match file.state {
                State::Open => text_among(self.alloc, &file.nodes, node.serial),
                _ => Ok(None),
            },
            None => Ok(None),
        }
    }

    #[tactic(auto, using(crate::proofs::KeptLaws::asks_none))]
    fn child(&mut self, node: NodeId, name: &[u8]) -> Result<Option<u64>, AdfError> {
        match self.files.get(node.file as usize) {
            Some(file) => match file.state {
                State::Open => Ok(first_among(&file.nodes, node.serial, name)),
                _ => Ok(None),
            },
            None => Ok(None),
        }
    }
}
