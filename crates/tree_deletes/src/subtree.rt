//! The nodes of a subtree, as the tables of children name them.

ghost use Rattle.std.specs.Prelude.{◌≡◌, ℕ, List, ◌+◌, ◌^◌, ◌≤◌, ◌<◌, ◌++◌, length, Some, IfOk, IsSome, OnOk};
ghost use Rattle.std.specs.List.{All};
ghost use Rattle.std.specs.List.Sorted.{IsNonDecreasingBy, IsPermutation};
ghost use Rattle.adf_format.specs.RecordFields.{table_length};
ghost use Rattle.adf_format.specs.Tree.{children_at};
ghost use Rattle.cg_io.specs.Answers.{AnswersRead, IsRefusal, OnlyReads};
ghost use Rattle.cg_io.specs.Blocks.{ReadsFew};
ghost use Rattle.tree_asks.specs.Told.{OfEach};
ghost use Rattle.tree_edits.specs.Listed.{NamesTable};
ghost use Rattle.tree_edits.specs.Rows.{AreNear, row_of};
ghost use Rattle.tree_deletes.specs.declared.doomed.Doomed.{Doomed};
ghost use Rattle.tree_deletes.specs.Doomed.{IsSane, HaveRows, MeansNone, IsChildAt, AddsChildren, IsLost, IsDoomed, IsWalk, IsSubtree};

use crate::doomed::Doomed;
use adf_data::DataPlace;
use adf_model::AdfError;
use cg_io::Space;
use node_reads::{ChildTable, child_at, child_table, read_header};
use std::alloc::Global;
use tree_asks::Hints;
use tree_edits::{Core, Row};

// Entries that name no node, or more nodes than there are.
fn unlisted(place: u64) -> AdfError
    ensures { result ≡ AdfError.Layout 30 place }
{
    AdfError::Layout { rule: 30, place }
}

// The serial of the child at a position of a table.
fn child_serial<S: Space>(
    space: &mut S,
    core: &Core,
    hints: &Hints,
    table: ChildTable,
    position: u32,
) -> Result<u64, AdfError>
    requires sound { S.is_sound space.old }
    requires within { table.place + table_length table.entries ≤ 2 ^ 44 }
    requires few { table.count ≤ table.entries }
    requires listed { position < table.count }
    ensures child { IfOk result (IsChildAt core.now (S.image space.old) table position) }
    ensures row { IfOk result (λ s. IsSome (row_of core.now.rows.items s)) }
    ensures reads { AnswersRead S.is_sound S.image S.state S.waiting (ReadsFew 2)
        (IsRefusal (IsLost core.now (S.image space.old) table)) space.old space.new result }
{
    let listed = match child_at(space, table, position) {
        Ok(listed) => listed,
        Err(error) => return Err(error),
    };
    match hints.serial_at(&core.rows, listed.place) {
        Some(serial) => Ok(serial),
        None => Err(unlisted(listed.place)),
    }
}

// Adds the serials of the children that a table names.
fn add_children<S: Space>(
    space: &mut S,
    core: &Core,
    hints: &Hints,
    table: ChildTable,
    found: &mut Vec<u64>,
) -> Result<(), AdfError>
    requires sound { S.is_sound space.old }
    requires within { table.place + table_length table.entries ≤ 2 ^ 44 }
    requires few { table.count ≤ table.entries }
    requires rows { HaveRows core.now found.old.items }
    ensures added { OnOk result (AddsChildren core.now (S.image space.old) table found.old.items
        found.new.items) }
    ensures kept { OnOk result ((rest : List ℕ) × (found.new.items ≡ found.old.items ++ rest)
        × (length rest ≡ table.count)) }
    ensures rows { OnOk result (HaveRows core.now found.new.items) }
    ensures reads { AnswersRead S.is_sound S.image S.state S.waiting OnlyReads
        (IsRefusal (IsLost core.now (S.image space.old) table)) space.old space.new result }
{
    for position in 0..table.count {
        let serial = match child_serial(space, core, hints, table, position) {
            Ok(serial) => serial,
            Err(error) => return Err(error),
        };
        match found.push(serial) {
            Ok(()) => {}
            Err(_) => return Err(AdfError::Memory),
        }
    }
    Ok(())
}

// The parts of the node of a serial, but for its children's, and its table.
fn parts_of<S: Space>(space: &mut S, core: &Core, serial: u64, row: Row) -> Result<Doomed, AdfError>
    requires sound { S.is_sound space.old }
    requires near { AreNear core.now.wide core.now.rows.items }
    requires row { row_of core.now.rows.items serial ≡ Some row }
    ensures serial { IfOk result (λ d. d.serial ≡ serial) }
    ensures node { IfOk result (λ d. OfEach core.now (S.image space.old)
        (λ image tree p. IsDoomed image tree p d)) }
    ensures sane { IfOk result (IsSane core.now) }
    ensures table { IfOk result (λ d. NamesTable core.now.wide (S.image space.old) row.place
        d.table) }
    ensures few { IfOk result (λ d. d.table.count ≤ d.table.entries) }
    ensures reads { AnswersRead S.is_sound S.image S.state S.waiting (ReadsFew 2)
        (IsRefusal (MeansNone core.now (S.image space.old))) space.old space.new result }
{
    let header = match read_header(space, core.wide, row.place) {
        Ok(header) => header,
        Err(error) => return Err(error),
    };
    let table = match child_table(&header, row.place) {
        Ok(table) => table,
        Err(error) => return Err(error),
    };
    let chunks = DataPlace {
        count: header.chunks,
        pointer: header.chunk,
    };
    Ok(Doomed {
        serial,
        place: row.place,
        table,
        chunks,
    })
}

// The parts of a node, whose children are added to the nodes that are found, which are not more than there are.
fn visit<S: Space>(
    space: &mut S,
    core: &Core,
    hints: &Hints,
    serial: u64,
    found: &mut Vec<u64>,
) -> Result<Doomed, AdfError>
    requires sound { S.is_sound space.old }
    requires near { AreNear core.now.wide core.now.rows.items }
    requires row { IsSome (row_of core.now.rows.items serial) }
    requires rows { HaveRows core.now found.old.items }
    ensures serial { IfOk result (λ d. d.serial ≡ serial) }
    ensures node { IfOk result (λ d. OfEach core.now (S.image space.old)
        (λ image tree p. IsDoomed image tree p d)) }
    ensures sane { IfOk result (IsSane core.now) }
    ensures added { OnOk result (OfEach core.now (S.image space.old)
        (λ image tree p. found.new.items ≡ found.old.items ++ children_at tree serial)) }
    ensures kept { OnOk result ((rest : List ℕ) × (found.new.items ≡ found.old.items ++ rest)) }
    ensures rows { OnOk result (HaveRows core.now found.new.items) }
    ensures few { OnOk result (length found.new.items ≤ length core.now.rows.items) }
    ensures reads { AnswersRead S.is_sound S.image S.state S.waiting OnlyReads
        (IsRefusal (OfEach core.now (S.image space.old) (λ image tree p.
        length core.now.rows.items < length found.old.items + length (children_at tree serial))))
        space.old space.new result }
{
    let row = match core.rows.get(serial) {
        Some(row) => row,
        None => return Err(unlisted(0)),
    };
    let node = match parts_of(space, core, serial, row) {
        Ok(node) => node,
        Err(error) => return Err(error),
    };
    if found.len() + node.table.count as usize > core.rows.count() {
        return Err(unlisted(node.table.place));
    }
    match add_children(space, core, hints, node.table, found) {
        Ok(()) => Ok(node),
        Err(error) => Err(error),
    }
}

// Visits the nodes that are found and those that they lead to, level by level.
fn walk<S: Space>(
    alloc: Global,
    space: &mut S,
    core: &Core,
    hints: &Hints,
    top: u64,
) -> Result<Vec<Doomed>, AdfError>
    requires sound { S.is_sound space.old }
    requires near { AreNear core.now.wide core.now.rows.items }
    requires row { IsSome (row_of core.now.rows.items top) }
    ensures walked { IfOk result (λ nodes. OfEach core.now (S.image space.old)
        (λ image tree p. (found : List ℕ) × IsWalk image tree p top found nodes.items
        × (length nodes.items ≡ length found))) }
    ensures sane { IfOk result (λ nodes. All (IsSane core.now) nodes.items) }
    ensures reads { AnswersRead S.is_sound S.image S.state S.waiting OnlyReads
        (IsRefusal (MeansNone core.now (S.image space.old))) space.old space.new result }
{
    let mut found: Vec<u64> = Vec::new(alloc);
    let mut nodes: Vec<Doomed> = Vec::new(alloc);
    match found.push(top) {
        Ok(()) => {}
        Err(_) => return Err(AdfError::Memory),
    }
    while nodes.len() < found.len() {
        let serial = found[nodes.len()];
        let node = match visit(space, core, hints, serial, &mut found) {
            Ok(node) => node,
            Err(error) => return Err(error),
        };
        match nodes.push(node) {
            Ok(()) => {}
            Err(_) => return Err(AdfError::Memory),
        }
    }
    Ok(nodes)
}

fn sort_by_serial(nodes: &mut Vec<Doomed>)
    ensures sorted { IsNonDecreasingBy (λ (d : Doomed). d.serial) nodes.new.items }
    ensures same { IsPermutation nodes.old.items nodes.new.items }
{
    nodes.sort_unstable_by_key(|node| node.serial);
}

/// The nodes of the subtree of a node, by serial, each with its parts. It takes memory for one entry a node.
pub(crate) fn list_subtree<S: Space>(
    alloc: Global,
    space: &mut S,
    core: &Core,
    hints: &Hints,
    top: u64,
) -> Result<Vec<Doomed>, AdfError>
    requires sound { S.is_sound space.old }
    requires near { AreNear core.now.wide core.now.rows.items }
    requires row { IsSome (row_of core.now.rows.items top) }
    ensures subtree { IfOk result (λ nodes. IsSubtree core.now (S.image space.old) top
        nodes.items) }
    ensures sane { IfOk result (λ nodes. All (IsSane core.now) nodes.items) }
    ensures reads { AnswersRead S.is_sound S.image S.state S.waiting OnlyReads
        (IsRefusal (MeansNone core.now (S.image space.old))) space.old space.new result }
{
    let mut nodes = match walk(alloc, space, core, hints, top) {
        Ok(nodes) => nodes,
        Err(error) => return Err(error),
    };
    sort_by_serial(&mut nodes);
    Ok(nodes)
}
