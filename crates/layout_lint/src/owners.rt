//! The extents of a sound file by place, each with the node that it is a part of.

ghost use Rattle.std.specs.Prelude.{◌≡◌, ◌^◌, ◌+◌, ◌*◌, ◌<◌, ◌++◌, ℕ, Bool, List, length, map, Option, Some, None, IfOk, IfErr, OnOk, ⊤};
ghost use Rattle.std.specs.List.{All};
ghost use Rattle.std.specs.List.Sorted.{IsPermutation, IsNonDecreasingBy};
ghost use Rattle.cg_io.specs.Answers.{IsRefusal, Told};
ghost use Rattle.cg_io.specs.Blocks.{ReadsFew};
ghost use Rattle.adf_format.specs.Tree.{Tree};
ghost use Rattle.adf_format.specs.Placement.{Placement};
ghost use Rattle.adf_format.specs.declared.types.Format.{Format};
ghost use Rattle.adf_format.specs.Verdict.{IsLaidOutAs, ListsExtents};
ghost use Rattle.cg_io.specs.Pages.{IsReady};
ghost use Rattle.layout_lint.specs.Halts.{IsWant, IsNoFault, MayLackMemory};
ghost use Rattle.layout_lint.specs.Walks.{node_place};
ghost use Rattle.layout_lint.specs.Owners.{extent_of, owned_by, owned_from, IsThere, name_of, KeepRules, place_of_node, IsLaidAt, OwnsPlaces, AreNamesAt, OwnsAll, IsNoLayout, refusal_of};
ghost use Rattle.layout_lint.specs.Paths.{AreNames};

use crate::head::look_at_head;
use crate::look::look;
use crate::node::Met;
use crate::verdict::{Halt, NodePlace, NodePlaces, Span};
use adf_format::fields::{FREE_TABLE_LENGTH, FREE_TABLE_PLACE, HEADER_LENGTH};
use adf_format::{Extent, ExtentKind, Extents, Listing};
use adf_model::AdfError;
use adf_records::FILE_HEAD_LENGTH;
use cg_io::{Blocks, Page};
use std::alloc::{AllocError, Global};

/// An extent of a sound file, and the number of the node that it is a part of, if it is one's.
#[derive(Clone, Copy, Debug, PartialEq, Eq, Drop)]
pub struct Owned {
    pub extent: Extent,
    pub owner: Option<u64>,
}

/// Extents by place, each with its owner.
pub type OwnedExtents = Listing<Owned>;

/// The name fields of nodes, by the numbers of these.
pub type NodeNames = Listing<[u8; 32]>;

/// What a second look at the nodes of a sound file finds: all extents by place, each with its owner,
/// and the name field of each node.
#[derive(Debug, Drop)]
pub struct Surveyed {
    pub extents: OwnedExtents,
    pub names: NodeNames,
}

// The extents and the names found so far.
#[derive(Drop)]
struct Parts {
    owned: Vec<Owned>,
    names: Vec<[u8; 32]>,
}

// Puts some extents of one owner behind those found so far.
fn add_owned(owned: &mut Vec<Owned>, extents: &[Extent], owner: Option<u64>) -> Result<(), Halt>
    ensures added { OnOk result (owned.new.items ≡ owned.old.items ++ owned_by owner extents.now) }
    ensures want { IfErr result IsWant }
{
    for k in 0..extents.len() {
        let part = Owned {
            extent: extents[k],
            owner,
        };
        match owned.push(part) {
            Ok(()) => {}
            Err(_) => return Err(Halt::Memory),
        }
    }
    Ok(())
}

// A node of a sound file, to be looked at by itself.
fn met_at(place: u64) -> Met
    ensures { result ≡ record { place = place; entry = None; parent = 0; position = 0; depth = 0 } }
{
    Met {
        place,
        entry: None,
        parent: 0,
        position: 0,
        depth: 0,
    }
}

// Adds the extents of the nodes at some places, and their names.
fn add_nodes<B: Blocks>(
    alloc: Global,
    blocks: &mut B,
    page: &mut Page,
    span: Span,
    places: &[u64],
    parts: &mut Parts,
) -> Result<(), Halt>
    requires ready { IsReady (B.is_sound blocks.old) (B.state blocks.old).held page.old }
    requires end { span.end < 2 ^ 44 }
    ensures ready { IsReady (B.is_sound blocks.new) (B.state blocks.new).held page.new }
    ensures added { OnOk result (Told (B.state blocks.old).held (λ image. span.end < length image
        → parts.new.owned.items ≡ parts.old.owned.items
        ++ owned_from image span.wide 0 places.now)) }
    ensures there { OnOk result (All (IsThere (length places.now)) parts.old.owned.items
        → All (IsThere (length places.now)) parts.new.owned.items) }
    ensures named { OnOk result (Told (B.state blocks.old).held (λ image. span.end < length image
        → parts.new.names.items ≡ parts.old.names.items ++ map (name_of image) places.now)) }
    ensures count { OnOk result (length parts.new.names.items
        ≡ length parts.old.names.items + length places.now) }
    ensures sound { IfErr result (λ h. Told (B.state blocks.old).held (λ image. span.end
        < length image → KeepRules image span.wide span.end 266 places.now → IsNoFault h)) }
    ensures effect { ReadsFew (4 * (span.end + 1) + 32) (B.state blocks.old) (B.state blocks.new) }
    ensures cause { IfErr result (MayLackMemory (B.state blocks.old).faults
        (B.state blocks.new).faults) }
{
    let mut used = FILE_HEAD_LENGTH as u64;
    for k in 0..places.len() {
        let mut extents = Vec::new(alloc);
        let met = met_at(places[k]);
        let next = look(alloc, blocks, page, span, false, used, &met, &mut extents)?;
        add_owned(&mut parts.owned, &extents, Some(k as u64))?;
        match parts.names.push(next.name) {
            Ok(()) => {}
            Err(_) => return Err(Halt::Memory),
        }
        used = next.used;
    }
    Ok(())
}

const HEAD: [Extent; 2] = [
    Extent {
        place: 0,
        length: HEADER_LENGTH as u64,
        kind: ExtentKind::Header,
    },
    Extent {
        place: FREE_TABLE_PLACE as u64,
        length: FREE_TABLE_LENGTH as u64,
        kind: ExtentKind::FreeTable,
    },
];

fn sort_by_place(owned: &mut Vec<Owned>)
    ensures sorted { IsNonDecreasingBy (λ (o : Owned). o.extent.place) owned.new.items }
    ensures same { IsPermutation owned.old.items owned.new.items }
{
    owned.sort_unstable_by_key(|o| o.extent.place);
}

// The extents of the head, of the nodes at some places, and the gaps, by place; and the names of the nodes.
fn collect<B: Blocks>(
    alloc: Global,
    blocks: &mut B,
    places: &[u64],
    gaps: &[Extent],
) -> Result<Parts, Halt>
    requires { B.is_sound blocks.old }
    ensures layer { B.is_sound blocks.new }
    ensures there { IfOk result (λ parts. All (IsThere (length places.now)) parts.owned.items) }
    ensures all { IfOk result (λ parts. Told (B.state blocks.old).held
        (λ image. (tree : Tree) (p : Placement) → IsLaidAt image tree p places.now gaps.now
        → OwnsPlaces tree p places.now parts.owned.items)) }
    ensures named { IfOk result (λ parts. Told (B.state blocks.old).held
        (λ image. (tree : Tree) (p : Placement) → IsLaidAt image tree p places.now gaps.now
        → AreNamesAt tree p places.now parts.names.items)) }
    ensures count { IfOk result (λ parts. length parts.names.items ≡ length places.now) }
    ensures sound { IfErr result (λ h. Told (B.state blocks.old).held
        (λ image. (tree : Tree) (p : Placement) → IsLaidAt image tree p places.now gaps.now
        → IsNoFault h)) }
    ensures effect { ReadsFew (4 * 2 ^ 44 + 35) (B.state blocks.old) (B.state blocks.new) }
    ensures few { Told (B.state blocks.old).held
        (λ image. ReadsFew (4 * length image + 35) (B.state blocks.old) (B.state blocks.new)) }
    ensures cause { IfErr result (MayLackMemory (B.state blocks.old).faults
        (B.state blocks.new).faults) }
{
    let mut page = Page::new();
    let head = look_at_head(blocks, &mut page)?;
    let mut parts = Parts {
        owned: Vec::new(alloc),
        names: Vec::new(alloc),
    };
    add_owned(&mut parts.owned, &HEAD, None)?;
    add_nodes(alloc, blocks, &mut page, head.span, places, &mut parts)?;
    add_owned(&mut parts.owned, gaps, None)?;
    sort_by_place(&mut parts.owned);
    Ok(parts)
}

// What a call answers where its work ended early.
fn refusal(halt: Halt) -> AdfError
    ensures { result ≡ refusal_of halt }
{
    match halt {
        Halt::Broken(fault) => AdfError::Layout {
            rule: fault.rule,
            place: fault.place,
        },
        Halt::Memory => AdfError::Memory,
        Halt::Read => AdfError::ReadFault,
    }
}

/// All extents of a sound file by place, each with the number of the place of its node, and the names
/// of the nodes. The places are those of the headers of its nodes, in any order, and the gaps are its own.
///
/// It is refused with Memory, or with ReadFault where a read failed. Over blocks that tell no bytes,
/// which may have changed since, it is refused with Layout where a node breaks a rule.
pub fn survey_places<B: Blocks>(
    alloc: Global,
    blocks: &mut B,
    places: &[u64],
    gaps: &[Extent],
) -> Result<Surveyed, AdfError>
    requires { B.is_sound blocks.old }
    ensures layer { B.is_sound blocks.new }
    ensures there { IfOk result (λ found. All (IsThere (length places.now)) found.extents) }
    ensures all { IfOk result (λ found. Told (B.state blocks.old).held
        (λ image. (tree : Tree) (p : Placement) → IsLaidAt image tree p places.now gaps.now
        → OwnsPlaces tree p places.now found.extents)) }
    ensures named { IfOk result (λ found. Told (B.state blocks.old).held
        (λ image. (tree : Tree) (p : Placement) → IsLaidAt image tree p places.now gaps.now
        → AreNamesAt tree p places.now found.names)) }
    ensures count { IfOk result (λ found. length found.names ≡ length places.now) }
    ensures refused { IfErr result (λ e. Told (B.state blocks.old).held
        (λ image. (tree : Tree) (p : Placement) → IsLaidAt image tree p places.now gaps.now
        → IsNoLayout e)) }
    ensures effect { ReadsFew (4 * 2 ^ 44 + 35) (B.state blocks.old) (B.state blocks.new) }
    ensures few { Told (B.state blocks.old).held
        (λ image. ReadsFew (4 * length image + 35) (B.state blocks.old) (B.state blocks.new)) }
    ensures cause { IfErr result (IsRefusal ⊤ (B.state blocks.old).faults
        (B.state blocks.new).faults) }
{
    match collect(alloc, blocks, places, gaps) {
        Ok(parts) => {
            let Parts { owned, names } = parts;
            Ok(Surveyed {
                extents: Listing::new(owned),
                names: Listing::new(names),
            })
        }
        Err(halt) => Err(refusal(halt)),
    }
}

// The places of some nodes.
fn places_of(alloc: Global, nodes: &[NodePlace]) -> Result<Vec<u64>, AdfError>
    ensures places { IfOk result (λ places. places.items ≡ map place_of_node nodes.now) }
    ensures want { IfErr result (λ e. e ≡ AdfError.Memory) }
{
    let mut places = Vec::new(alloc);
    for k in 0..nodes.len() {
        match places.push(nodes[k].place) {
            Ok(()) => {}
            Err(_) => return Err(AdfError::Memory),
        }
    }
    Ok(places)
}

/// The same where the nodes and the gaps are those of a verdict: an extent has the number of its node.
pub fn survey<B: Blocks>(
    alloc: Global,
    blocks: &mut B,
    nodes: &NodePlaces,
    gaps: &Extents,
) -> Result<Surveyed, AdfError>
    requires { B.is_sound blocks.old }
    ensures layer { B.is_sound blocks.new }
    ensures there { IfOk result (λ found. All (IsThere (length nodes.now)) found.extents) }
    ensures all { IfOk result (λ found. Told (B.state blocks.old).held
        (λ image. (end : ℕ) (format : Format) (wide : Bool)
        (laid : IsLaidOutAs image (map node_place nodes.now) gaps.now end format wide)
        → OwnsAll laid.tree laid.placement found.extents)) }
    ensures named { IfOk result (λ found. Told (B.state blocks.old).held
        (λ image. (end : ℕ) (format : Format) (wide : Bool)
        (laid : IsLaidOutAs image (map node_place nodes.now) gaps.now end format wide)
        → AreNames laid.tree found.names)) }
    ensures count { IfOk result (λ found. length found.names ≡ length nodes.now) }
    ensures refused { IfErr result (λ e. Told (B.state blocks.old).held
        (λ image. (end : ℕ) (format : Format) (wide : Bool)
        → IsLaidOutAs image (map node_place nodes.now) gaps.now end format wide → IsNoLayout e)) }
    ensures effect { ReadsFew (4 * 2 ^ 44 + 35) (B.state blocks.old) (B.state blocks.new) }
    ensures few { Told (B.state blocks.old).held
        (λ image. ReadsFew (4 * length image + 35) (B.state blocks.old) (B.state blocks.new)) }
    ensures cause { IfErr result (IsRefusal ⊤ (B.state blocks.old).faults
        (B.state blocks.new).faults) }
{
    match places_of(alloc, nodes.items()) {
        Ok(places) => survey_places(alloc, blocks, &places, gaps.items()),
        Err(error) => Err(error),
    }
}

/// All extents of a sound file by place, each with the number of the node that it is a part of, where
/// the nodes and the gaps are those of its verdict. It is refused as `survey` is.
pub fn owned_extents<B: Blocks>(
    alloc: Global,
    blocks: &mut B,
    nodes: &NodePlaces,
    gaps: &Extents,
) -> Result<OwnedExtents, AdfError>
    requires { B.is_sound blocks.old }
    ensures layer { B.is_sound blocks.new }
    ensures there { IfOk result (λ owned. All (IsThere (length nodes.now)) owned) }
    ensures all { IfOk result (λ owned. Told (B.state blocks.old).held
        (λ image. (end : ℕ) (format : Format) (wide : Bool)
        (laid : IsLaidOutAs image (map node_place nodes.now) gaps.now end format wide)
        → OwnsAll laid.tree laid.placement owned)) }
    ensures refused { IfErr result (λ e. Told (B.state blocks.old).held
        (λ image. (end : ℕ) (format : Format) (wide : Bool)
        → IsLaidOutAs image (map node_place nodes.now) gaps.now end format wide → IsNoLayout e)) }
    ensures effect { ReadsFew (4 * 2 ^ 44 + 35) (B.state blocks.old) (B.state blocks.new) }
    ensures few { Told (B.state blocks.old).held
        (λ image. ReadsFew (4 * length image + 35) (B.state blocks.old) (B.state blocks.new)) }
    ensures cause { IfErr result (IsRefusal ⊤ (B.state blocks.old).faults
        (B.state blocks.new).faults) }
{
    match survey(alloc, blocks, nodes, gaps) {
        Ok(survey) => Ok(survey.extents),
        Err(error) => Err(error),
    }
}

/// The extents without their owners.
pub fn extents_in(alloc: Global, owned: &[Owned]) -> Result<Vec<Extent>, AllocError>
    ensures { IfOk result (λ extents. extents.items ≡ map extent_of owned.now) }
{
    let mut extents = Vec::new(alloc);
    for k in 0..owned.len() {
        extents.push(owned[k].extent)?;
    }
    Ok(extents)
}

/// All extents of a sound file by place, where the nodes and the gaps are those of its verdict. It is
/// refused as `owned_extents` is.
pub fn extents<B: Blocks>(
    alloc: Global,
    blocks: &mut B,
    nodes: &NodePlaces,
    gaps: &Extents,
) -> Result<Extents, AdfError>
    requires { B.is_sound blocks.old }
    ensures layer { B.is_sound blocks.new }
    ensures all { IfOk result (λ extents. Told (B.state blocks.old).held
        (λ image. (end : ℕ) (format : Format) (wide : Bool)
        (laid : IsLaidOutAs image (map node_place nodes.now) gaps.now end format wide)
        → ListsExtents laid.tree.wide laid.placement extents)) }
    ensures refused { IfErr result (λ e. Told (B.state blocks.old).held
        (λ image. (end : ℕ) (format : Format) (wide : Bool)
        → IsLaidOutAs image (map node_place nodes.now) gaps.now end format wide → IsNoLayout e)) }
    ensures effect { ReadsFew (4 * 2 ^ 44 + 35) (B.state blocks.old) (B.state blocks.new) }
    ensures few { Told (B.state blocks.old).held
        (λ image. ReadsFew (4 * length image + 35) (B.state blocks.old) (B.state blocks.new)) }
    ensures cause { IfErr result (IsRefusal ⊤ (B.state blocks.old).faults
        (B.state blocks.new).faults) }
{
    let owned = owned_extents(alloc, blocks, nodes, gaps)?;
    match extents_in(alloc, owned.items()) {
        Ok(extents) => Ok(Listing::new(extents)),
        Err(_) => Err(AdfError::Memory),
    }
}
