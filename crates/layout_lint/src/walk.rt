//! The walk over the nodes of a file, from the root, each before its children.

ghost use Rattle.std.specs.Prelude.{◌≡◌, ◌^◌, ◌+◌, ◌-◌, ◌*◌, ◌++◌, ◌∷◌, [], map, ℕ, Bool, List, ◌≤◌, ◌<◌, length, true, false, IfOk, IfErr, OnOk};
ghost use Rattle.std.specs.List.{All};
ghost use Rattle.cg_io.specs.Blocks.{ReadsFew};
ghost use Rattle.cg_io.specs.Answers.{Told};
ghost use Rattle.cg_io.specs.Pages.{IsReady};
ghost use Rattle.layout_lint.specs.Halts.{MayLackMemory, IsWant};
ghost use Rattle.layout_lint.specs.Heads.{IsHead, IsSpan};
ghost use Rattle.layout_lint.specs.Gaps.{IsSolid};
ghost use Rattle.layout_lint.specs.Walks.{IsSearch, IsFound, EndsWalk, KeepsNode, IsOpen, AreStepped, node_place, waiting_of, waiting_in, left_in, spare, root_waiting};
ghost use Rattle.layout_lint.specs.Shapes.{IsSteady, IsWhole, IsGoing, MayFollow, met_place};

use crate::chunks::add_extent;
use crate::head::Head;
use crate::keys::KeySet;
use crate::look::{Next, look};
use crate::node::Met;
use crate::stack::{Family, child_of, take_next};
use crate::verdict::{Halt, NodePlace, Span};
use adf_format::fields::{FREE_TABLE_LENGTH, FREE_TABLE_PLACE, HEADER_LENGTH};
use adf_format::{Extent, ExtentKind};
use adf_records::FILE_HEAD_LENGTH;
use cg_io::{Blocks, Page};
use std::alloc::Global;

/// Where the walk stands.
#[derive(Drop)]
pub struct Search {
    /// The families of which children wait, the next one last: one for each node on the way to it.
    pub families: Vec<Family>,
    /// The nodes that were looked at.
    pub nodes: Vec<NodePlace>,
    /// Their places.
    pub places: KeySet<u64>,
    /// All extents found so far.
    pub extents: Vec<Extent>,
    /// Their bytes.
    pub used: u64,
}

/// What the walk found.
#[derive(Drop)]
pub struct FoundNodes {
    pub nodes: Vec<NodePlace>,
    pub extents: Vec<Extent>,
    pub used: u64,
}

fn start(alloc: Global) -> Result<Search, Halt>
    ensures begun { IfOk result (λ search. (image : List ℕ)
        → IsSearch image (root_waiting image ∷ []) search) }
    ensures used { IfOk result (λ search. search.used ≡ 266) }
    ensures none { IfOk result (λ search. (search.families.items ≡ [])
        × (search.nodes.items ≡ [])) }
    ensures solid { IfOk result (λ search. (end : ℕ) → 265 ≤ end
        → All (IsSolid end) search.extents.items) }
    ensures steady { IfOk result (λ search. (wide : Bool) (end : ℕ) → IsSteady wide end search) }
    ensures want { IfErr result IsWant }
{
    let mut extents = Vec::new(alloc);
    add_extent(&mut extents, ExtentKind::Header, 0, HEADER_LENGTH as u64)?;
    add_extent(
        &mut extents,
        ExtentKind::FreeTable,
        FREE_TABLE_PLACE as u64,
        FREE_TABLE_LENGTH as u64,
    )?;
    Ok(Search {
        families: Vec::new(alloc),
        nodes: Vec::new(alloc),
        places: KeySet::new(alloc),
        extents,
        used: FILE_HEAD_LENGTH as u64,
    })
}

// Puts a node behind those that were looked at.
fn keep(search: &mut Search, met: &Met) -> Result<(), Halt>
    ensures kept { OnOk result (KeepsNode met.now search.old search.new) }
    ensures want { IfErr result IsWant }
{
    match search.places.insert(met.place) {
        Ok(()) => {}
        Err(_) => return Err(Halt::Memory),
    }
    let node = NodePlace {
        place: met.place,
        parent: met.parent,
        position: met.position,
        depth: met.depth,
    };
    match search.nodes.push(node) {
        Ok(()) => Ok(()),
        Err(_) => Err(Halt::Memory),
    }
}

// Puts the children of a node above those that wait.
fn open(search: &mut Search, met: &Met, number: u64, next: &Next) -> Result<(), Halt>
    ensures opened { OnOk result (search.new.families.items
        ≡ search.old.families.items ++ record {
          number = number;
          depth = met.now.depth;
          table = next.now.table;
          children = next.now.children;
          next = 0;
        } ∷ []) }
    ensures same { OnOk result ((search.new.nodes ≡ search.old.nodes)
        × (search.new.places ≡ search.old.places) × (search.new.extents ≡ search.old.extents)
        × (search.new.used ≡ search.old.used)) }
    ensures want { IfErr result IsWant }
{
    let family = Family {
        number,
        depth: met.depth,
        table: next.table,
        children: next.children,
        next: 0,
    };
    match search.families.push(family) {
        Ok(()) => Ok(()),
        Err(_) => Err(Halt::Memory),
    }
}

// Looks at a node that waits.
fn turn<B: Blocks>(
    alloc: Global,
    blocks: &mut B,
    page: &mut Page,
    span: Span,
    search: &mut Search,
    met: &Met,
) -> Result<(), Halt>
    requires ready { IsReady (B.is_sound blocks.old) (B.state blocks.old).held page.old }
    requires end { span.end < 2 ^ 44 }
    requires solid { All (IsSolid span.end) search.old.extents.items }
    requires readable { All (IsOpen span.end) search.old.families.items }
    requires stepped { AreStepped search.old.families.items }
    requires deep { met.now.depth ≡ length search.old.families.items }
    requires steady { IsSteady span.wide span.end search.old }
    requires follows { MayFollow (map node_place search.old.nodes.items) (met_place met.now) }
    requires left { 2 * left_in search.old.families.items ≤ search.old.used }
    ensures ready { IsReady (B.is_sound blocks.new) (B.state blocks.new).held page.new }
    ensures goes_on { OnOk result (Told (B.state blocks.old).held (λ image. IsSpan image span
        → IsSearch image (waiting_in image search.old.families.items ++ waiting_of met.now
        ∷ []) search.old
        → IsSearch image (waiting_in image search.new.families.items) search.new)) }
    ensures stops { IfErr result (λ h. Told (B.state blocks.old).held (λ image. IsSpan image span
        → IsSearch image (waiting_in image search.old.families.items ++ waiting_of met.now
        ∷ []) search.old → EndsWalk image h)) }
    ensures going { OnOk result (IsGoing span.wide span.end search.new) }
    ensures more { OnOk result (search.old.used < search.new.used) }
    ensures few { OnOk result (ReadsFew (spare search.new - spare search.old) (B.state blocks.old)
        (B.state blocks.new)) }
    ensures spare { OnOk result (spare search.old ≤ spare search.new) }
    ensures effect { ReadsFew (3 * (span.end + 1) + 32) (B.state blocks.old) (B.state blocks.new) }
    ensures cause { IfErr result (MayLackMemory (B.state blocks.old).faults
        (B.state blocks.new).faults) }
{
    let known = search.places.contains(&met.place);
    let extents = &mut search.extents;
    let next = look(alloc, blocks, page, span, known, search.used, met, extents)?;
    let number = search.nodes.len() as u64;
    open(search, met, number, &next)?;
    keep(search, met)?;
    search.used = next.used;
    Ok(())
}

// Looks at the root.
fn look_at_root<B: Blocks>(
    alloc: Global,
    blocks: &mut B,
    page: &mut Page,
    head: &Head,
) -> Result<Search, Halt>
    requires ready { IsReady (B.is_sound blocks.old) (B.state blocks.old).held page.old }
    requires end { head.now.span.end < 2 ^ 44 }
    requires long { 510 < head.now.span.end }
    ensures ready { IsReady (B.is_sound blocks.new) (B.state blocks.new).held page.new }
    ensures begun { IfOk result (λ search. Told (B.state blocks.old).held
        (λ image. IsHead image head.now
        → IsSearch image (waiting_in image search.families.items) search)) }
    ensures stops { IfErr result (λ h. Told (B.state blocks.old).held
        (λ image. IsHead image head.now → EndsWalk image h)) }
    ensures going { IfOk result (IsGoing head.now.span.wide head.now.span.end) }
    ensures few { IfOk result (λ search. ReadsFew (spare search) (B.state blocks.old)
        (B.state blocks.new)) }
    ensures effect { ReadsFew (3 * (head.now.span.end + 1) + 32) (B.state blocks.old)
        (B.state blocks.new) }
    ensures cause { IfErr result (MayLackMemory (B.state blocks.old).faults
        (B.state blocks.new).faults) }
{
    let root = Met {
        place: head.root,
        entry: None,
        parent: 0,
        position: 0,
        depth: 0,
    };
    let mut search = start(alloc)?;
    match turn(alloc, blocks, page, head.span, &mut search, &root) {
        Ok(()) => Ok(search),
        Err(halt) => Err(halt),
    }
}

// Looks at the next child that waits. It says whether there was one.
fn step<B: Blocks>(
    alloc: Global,
    blocks: &mut B,
    page: &mut Page,
    span: Span,
    search: &mut Search,
) -> Result<bool, Halt>
    requires ready { IsReady (B.is_sound blocks.old) (B.state blocks.old).held page.old }
    requires end { span.end < 2 ^ 44 }
    requires going { IsGoing span.wide span.end search.old }
    ensures ready { IsReady (B.is_sound blocks.new) (B.state blocks.new).held page.new }
    ensures goes_on { OnOk result (Told (B.state blocks.old).held (λ image. IsSpan image span
        → IsSearch image (waiting_in image search.old.families.items) search.old
        → IsSearch image (waiting_in image search.new.families.items) search.new)) }
    ensures stops { IfErr result (λ h. Told (B.state blocks.old).held (λ image. IsSpan image span
        → IsSearch image (waiting_in image search.old.families.items) search.old
        → EndsWalk image h)) }
    ensures going { OnOk result (IsGoing span.wide span.end search.new) }
    ensures more { IfOk result (λ more. more ≡ true → search.old.used < search.new.used) }
    ensures last { IfOk result (λ more. more ≡ false → search.new.families.items ≡ []) }
    ensures few { OnOk result (ReadsFew (spare search.new - spare search.old) (B.state blocks.old)
        (B.state blocks.new)) }
    ensures spare { OnOk result (spare search.old ≤ spare search.new) }
    ensures effect { ReadsFew (3 * (span.end + 1) + 34) (B.state blocks.old) (B.state blocks.new) }
    ensures cause { IfErr result (MayLackMemory (B.state blocks.old).faults
        (B.state blocks.new).faults) }
{
    let family = match take_next(&mut search.families) {
        Ok(Some(family)) => family,
        Ok(None) => return Ok(false),
        Err(halt) => return Err(halt),
    };
    let child = child_of(blocks, page, family)?;
    match turn(alloc, blocks, page, span, search, &child) {
        Ok(()) => Ok(true),
        Err(halt) => Err(halt),
    }
}

/// Walks over all nodes of a file: rules 12 to 28.
pub fn look_at_nodes<B: Blocks>(
    alloc: Global,
    blocks: &mut B,
    page: &mut Page,
    head: &Head,
) -> Result<FoundNodes, Halt>
    requires ready { IsReady (B.is_sound blocks.old) (B.state blocks.old).held page.old }
    requires end { head.now.span.end < 2 ^ 44 }
    requires long { 510 < head.now.span.end }
    ensures ready { IsReady (B.is_sound blocks.new) (B.state blocks.new).held page.new }
    ensures found { IfOk result (λ found. Told (B.state blocks.old).held
        (λ image. IsHead image head.now → IsFound image found)) }
    ensures stops { IfErr result (λ h. Told (B.state blocks.old).held
        (λ image. IsHead image head.now → EndsWalk image h)) }
    ensures solid { IfOk result (λ found. All (IsSolid head.now.span.end) found.extents.items) }
    ensures whole { IfOk result (IsWhole head.now.span.wide head.now.span.end) }
    ensures room { IfOk result (λ found. found.used ≤ head.now.span.end + 1) }
    ensures few { IfOk result (λ found. ReadsFew found.used (B.state blocks.old)
        (B.state blocks.new)) }
    ensures effect { ReadsFew (5 * (head.now.span.end + 1)) (B.state blocks.old)
        (B.state blocks.new) }
    ensures cause { IfErr result (MayLackMemory (B.state blocks.old).faults
        (B.state blocks.new).faults) }
{
    let mut search = look_at_root(alloc, blocks, page, head)?;
    'walk: loop {
        match step(alloc, blocks, page, head.span, &mut search) {
            Ok(true) => {}
            Ok(false) => break,
            Err(halt) => return Err(halt),
        }
    }
    let Search {
        families: _,
        nodes,
        places: _,
        extents,
        used,
    } = search;
    Ok(FoundNodes {
        nodes,
        extents,
        used,
    })
}
