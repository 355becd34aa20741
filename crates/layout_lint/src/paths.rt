//! The paths of the nodes of a sound file.

ghost use Rattle.std.specs.Prelude.{◌≡◌, ◌≤◌, ◌<◌, ◌++◌, ◌∷◌, ℕ, List, length, take, map, IfOk, IfErr, OnOk};
ghost use Rattle.std.specs.List.{All};
ghost use Rattle.adf_format.specs.Fields.{trimmed};
ghost use Rattle.adf_format.specs.Verdict.{ListsNodes};
ghost use Rattle.adf_format.specs.Tree.{Tree, IsTree, IsNumbered};
ghost use Rattle.adf_format.specs.Placement.{Placement};
ghost use Rattle.adf_model.specs.Spelling.{spelled};
ghost use Rattle.layout_lint.specs.Walks.{node_place};
ghost use Rattle.layout_lint.specs.Shapes.{AreLinked};
ghost use Rattle.layout_lint.specs.Paths.{AreNames, IsPath, IsWay, IsWayUp, printed_way};

use crate::owners::NodeNames;
use crate::verdict::{NodePlace, NodePlaces};
use adf_format::texts::trimmed;
use adf_model::{AdfError, Text, spell};
use std::alloc::Global;

// The numbers of a node and of those above it, up to the one below the root.
fn numbers_up(alloc: Global, nodes: &[NodePlace], number: u64) -> Result<Vec<u64>, AdfError>
    requires linked { AreLinked (map node_place nodes.now) }
    requires number { number < length nodes.now }
    ensures up { IfOk result (λ up. (tree : Tree) (p : Placement) → IsTree tree → IsNumbered tree
        → ListsNodes tree p (map node_place nodes.now) → IsWayUp tree number up.items) }
    ensures there { IfOk result (λ up. All (λ (k : ℕ). k < length nodes.now) up.items) }
    ensures want { IfErr result (λ e. e ≡ AdfError.Memory) }
{
    let mut up = Vec::new(alloc);
    let mut at = number;
    while at > 0 {
        match up.push(at) {
            Ok(()) => {}
            Err(_) => return Err(AdfError::Memory),
        }
        at = nodes[at as usize].parent;
    }
    Ok(up)
}

// Puts a slash and a name as it is printed behind a text.
fn add_name(alloc: Global, text: &mut Vec<u8>, name: &[u8]) -> Result<(), AdfError>
    ensures added { OnOk result (text.new.items
        ≡ text.old.items ++ 47 ∷ spelled (trimmed name.now)) }
    ensures want { IfErr result (λ e. e ≡ AdfError.Memory) }
{
    let spelling = match spell(alloc, trimmed(name)) {
        Ok(spelling) => spelling,
        Err(_) => return Err(AdfError::Memory),
    };
    match text.push(b'/') {
        Ok(()) => {}
        Err(_) => return Err(AdfError::Memory),
    }
    match text.extend_from_slice(spelling.items()) {
        Ok(()) => Ok(()),
        Err(_) => Err(AdfError::Memory),
    }
}

// The names of these nodes, the last first, each behind a slash.
fn way_down(alloc: Global, names: &[[u8; 32]], up: &[u64]) -> Result<Vec<u8>, AdfError>
    requires there { All (λ (k : ℕ). k < length names.now) up.now }
    ensures way { IfOk result (λ text. (tree : Tree) (number : ℕ) → AreNames tree names.now
        → IsWayUp tree number up.now → IsWay tree number text.items) }
    ensures want { IfErr result (λ e. e ≡ AdfError.Memory) }
{
    let mut text = Vec::new(alloc);
    for k in (0..up.len()).rev() {
        add_name(alloc, &mut text, &names[up[k] as usize])?;
    }
    Ok(text)
}

// A slash alone for the root, which has no name in a path.
fn printed(text: Vec<u8>) -> Result<Text, AdfError>
    ensures printed { IfOk result (λ path. path ≡ printed_way text.items) }
    ensures want { IfErr result (λ e. e ≡ AdfError.Memory) }
{
    let mut text = text;
    if text.is_empty() {
        match text.push(b'/') {
            Ok(()) => {}
            Err(_) => return Err(AdfError::Memory),
        }
    }
    Ok(Text::new(text))
}

/// The path of a node of a sound file as it is printed: `/` for the root, and else the spelled names
/// on the way to the node, each behind a `/`. `nodes` are those of its verdict, `names` their name
/// fields, and `number` is one of theirs. It is refused with Memory alone.
pub fn path_of(
    alloc: Global,
    nodes: &NodePlaces,
    names: &NodeNames,
    number: u64,
) -> Result<Text, AdfError>
    requires linked { AreLinked (map node_place nodes.now) }
    requires number { number < length nodes.now }
    requires named { length names.now ≡ length nodes.now }
    ensures path { IfOk result (λ text. (tree : Tree) (p : Placement) → IsTree tree
        → IsNumbered tree → ListsNodes tree p (map node_place nodes.now) → AreNames tree names.now
        → IsPath tree number text) }
    ensures refused { IfErr result (λ e. e ≡ AdfError.Memory) }
{
    let up = numbers_up(alloc, nodes.items(), number)?;
    match way_down(alloc, names.items(), &up) {
        Ok(way) => printed(way),
        Err(error) => Err(error),
    }
}
