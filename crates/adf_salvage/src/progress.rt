//! Where a survey of nodes stands.

ghost use Rattle.std.specs.Prelude.{◌≡◌, ◌++◌, ◌∷◌, [], length, IfErr, OnOk};
ghost use Rattle.layout_lint.specs.Halts.{IsWant};
ghost use Rattle.adf_salvage.specs.Surveys.{IsEmpty, Keeps, Enters, Omits};

use crate::list::Left;
use crate::ways::path_of;
use adf_records::FILE_HEAD_LENGTH;
use layout_lint::NodePlace;
use layout_lint::walking::{Broken, Family, Halt, KeySet, Met, Next};
use std::alloc::Global;

/// The nodes that are kept so far and those that are left out, and which wait.
#[derive(Drop)]
pub struct Progress {
    /// The families of which children wait, the next one last: one for each node on the way to it.
    pub families: Vec<Family>,
    /// The name fields of the nodes on the way, but for the root.
    pub names: Vec<[u8; 32]>,
    /// The nodes that are kept.
    pub nodes: Vec<NodePlace>,
    /// Their places.
    pub places: KeySet<u64>,
    /// The bytes of their extents, and of the head.
    pub used: u64,
    /// The nodes that are left out.
    pub left: Vec<Left>,
}

/// No node is kept or left out yet.
pub fn begin(alloc: Global) -> Progress
    ensures { IsEmpty result }
{
    Progress {
        families: Vec::new(alloc),
        names: Vec::new(alloc),
        nodes: Vec::new(alloc),
        places: KeySet::new(alloc),
        used: FILE_HEAD_LENGTH as u64,
        left: Vec::new(alloc),
    }
}

// Puts the children of the next node above those that wait.
fn open(progress: &mut Progress, met: &Met, next: &Next) -> Result<(), Halt>
    ensures opened { OnOk result (progress.new.families.items
        ≡ progress.old.families.items ++ record {
          number = length progress.old.nodes.items;
          depth = met.now.depth;
          table = next.now.table;
          children = next.now.children;
          next = 0;
        } ∷ []) }
    ensures same { OnOk result ((progress.new.names ≡ progress.old.names)
        × (progress.new.nodes ≡ progress.old.nodes) × (progress.new.places ≡ progress.old.places)
        × (progress.new.used ≡ progress.old.used) × (progress.new.left ≡ progress.old.left)) }
    ensures want { IfErr result IsWant }
{
    let family = Family {
        number: progress.nodes.len() as u64,
        depth: met.depth,
        table: next.table,
        children: next.children,
        next: 0,
    };
    match progress.families.push(family) {
        Ok(()) => Ok(()),
        Err(_) => Err(Halt::Memory),
    }
}

/// Keeps a node: its children wait.
pub fn keep(progress: &mut Progress, met: &Met, next: &Next) -> Result<(), Halt>
    ensures kept { OnOk result (Keeps met.now next.now progress.old progress.new) }
    ensures want { IfErr result IsWant }
{
    open(progress, met, next)?;
    match progress.places.insert(met.place) {
        Ok(()) => {}
        Err(_) => return Err(Halt::Memory),
    }
    let node = NodePlace {
        place: met.place,
        parent: met.parent,
        position: met.position,
        depth: met.depth,
    };
    match progress.nodes.push(node) {
        Ok(()) => {}
        Err(_) => return Err(Halt::Memory),
    }
    progress.used = next.used;
    Ok(())
}

/// Puts the name field of a node behind those on the way.
pub fn enter(progress: &mut Progress, name: &[u8; 32]) -> Result<(), Halt>
    ensures entered { OnOk result (Enters name.now progress.old progress.new) }
    ensures want { IfErr result IsWant }
{
    match progress.names.push(*name) {
        Ok(()) => Ok(()),
        Err(_) => Err(Halt::Memory),
    }
}

/// Leaves out a node that has this name field in its entry.
pub fn omit(
    alloc: Global,
    progress: &mut Progress,
    name: &[u8; 32],
    fault: Broken,
) -> Result<(), Halt>
    ensures omitted { OnOk result (Omits name.now fault progress.old progress.new) }
    ensures want { IfErr result IsWant }
{
    let path = path_of(alloc, &progress.names, name)?;
    let left = Left {
        path,
        rule: fault.rule,
        place: fault.place,
    };
    match progress.left.push(left) {
        Ok(()) => Ok(()),
        Err(_) => Err(Halt::Memory),
    }
}
