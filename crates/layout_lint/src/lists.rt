//! The three lists of free chunks.

ghost use Rattle.std.specs.Prelude.{◌≡◌, ◌^◌, ◌+◌, ◌-◌, ◌≤◌, ◌<◌, ◌==◌, ◌++◌, [], ◌∷◌, ℕ, List, length, cond, true, map, None, Ok, IfOk, IfErr, IfSome, OnOk};
ghost use Rattle.std.specs.List.{All};
ghost use Rattle.std.specs.Ordering.{nat_cmp};
ghost use Rattle.layout_lint.specs.Keys.{contains};
ghost use Rattle.cg_io.specs.Blocks.{ReadsFew};
ghost use Rattle.adf_format.specs.Fields.{field};
ghost use Rattle.adf_format.specs.Checks.{first_broken};
ghost use Rattle.adf_format.specs.declared.types.Extent.{Extent};
ghost use Rattle.adf_format.specs.FirstFault.{Visit, FreeVisit, FreeWalk, chunk_length, free_extent, free_table_rows, found_extents, is_wide, free_rows_at};
ghost use Rattle.adf_format.specs.Tiles.{total_length};
ghost use Rattle.layout_laws.specs.ListPass.{named_place};
ghost use Rattle.cg_io.specs.Answers.{Told};
ghost use Rattle.cg_io.specs.Pages.{IsReady};
ghost use Rattle.layout_lint.specs.Halts.{Finds, HasCount, MayLackMemory, IsWant};
ghost use Rattle.layout_lint.specs.Gaps.{IsSolid};
ghost use Rattle.layout_lint.specs.Shapes.{Adds};
ghost use Rattle.layout_lint.specs.Lists.{HasBegun, HasCome, HasLists, IsListAt, KeepsFree, EndsLists, agrees, first_of, free_byte_rows, tail_said};
ghost use Rattle.layout_lint.specs.Heads.{IsSpan};
ghost use Rattle.adf_format.specs.Records.{free_table_record};
ghost use Rattle.adf_records.specs.View.{pointers_of, HasFreeOffsets};
ghost use Rattle.disk_ptr.specs.View.{HasOffset};

use crate::chunks::add_extent;
use crate::keys::KeySet;
use crate::marks::{Mark, look_at_start, look_at_tail, place_in};
use crate::verdict::{Halt, Span, halt_at};
use adf_chunks::Part;
use adf_format::fields::{FREE_HEAD_LENGTH, FREE_NEXT, HEAD_POINTER, TAG_LENGTH};
use adf_format::{Extent, ExtentKind};
use adf_records::FreeTable;
use cg_io::{Blocks, Page};
use disk_ptr::fields::pointer_at;
use disk_ptr::{DiskPtr, place};
use std::alloc::Global;

/// A list of free chunks: its first and its last chunk, and where the pointer to the last stands.
#[derive(Clone, Copy, Drop)]
struct FreeList {
    first: DiskPtr,
    last: DiskPtr,
    last_at: u64,
}

impl FreeList {
    // Whether a free chunk that names this next one may stand in the list: one that names none is its
    // last.
    fn agrees(self, at: u64, next: Option<u64>) -> bool
        ensures { result ≡ agrees self at next }
    {
        match next {
            Some(_) => true,
            None => match self.last {
                DiskPtr::Blank => false,
                DiskPtr::At { block, offset } => u64::from(block) * 4096 + u64::from(offset) == at,
            },
        }
    }
}

// A free chunk: its length, and the place of the next of its list, if it names one.
#[derive(Clone, Copy, Drop)]
struct FreeChunk {
    length: u64,
    next: Option<u64>,
}

// The free chunks found so far, with all other extents.
#[derive(Drop)]
struct Frees {
    places: KeySet<u64>,
    extents: Vec<Extent>,
    used: u64,
}

const LEAST_FREE: u64 = 32;

// Where the end tag of a free chunk stands, if that is in reach.
fn tail_of(span: Span, at: u64, head: &[u8; FREE_HEAD_LENGTH]) -> Option<u64>
    requires end { span.end < 2 ^ 44 }
    requires place { at < 2 ^ 44 }
    ensures said { result ≡ tail_said span.end at (field head.now 4 12) }
    ensures bounds { IfSome result (λ tail. (at + 28 ≤ tail) × (tail + 3 ≤ span.end)) }
{
    let tail = place_in(head, HEAD_POINTER)?;
    let end = tail + TAG_LENGTH as u64;
    if end < at + LEAST_FREE || span.end + 1 < end {
        return None;
    }
    Some(tail)
}

// Reads a free chunk: rule 29 on its bytes.
fn free_chunk_at<B: Blocks>(
    blocks: &mut B,
    page: &mut Page,
    span: Span,
    at: u64,
) -> Result<FreeChunk, Halt>
    requires ready { IsReady (B.is_sound blocks.old) (B.state blocks.old).held page.old }
    requires end { span.end < 2 ^ 44 }
    requires place { at < 2 ^ 44 }
    ensures ready { IsReady (B.is_sound blocks.new) (B.state blocks.new).held page.new }
    ensures rows { Told (B.state blocks.old).held (λ image. span.end < length image
        → Finds (free_byte_rows image span.end at) result) }
    ensures length { IfOk result (λ chunk. Told (B.state blocks.old).held (λ image. span.end
        < length image → chunk.length ≡ chunk_length image at)) }
    ensures next { IfOk result (λ chunk. Told (B.state blocks.old).held (λ image. span.end
        < length image → chunk.next ≡ named_place (field image (at + 16) 12))) }
    ensures bounds { IfOk result (λ chunk. (32 ≤ chunk.length)
        × (at + chunk.length ≤ span.end + 1)) }
    ensures bound { IfOk result (λ chunk. IfSome chunk.next (λ place. place < 2 ^ 44)) }
    ensures effect { ReadsFew 4 (B.state blocks.old) (B.state blocks.new) }
    ensures cause { IfErr result (HasCount (B.state blocks.old).faults
        (B.state blocks.new).faults) }
{
    let mark = Mark {
        part: Part::Free,
        place: at,
        rule: 29,
        least: LEAST_FREE,
    };
    let head = look_at_start::<B, FREE_HEAD_LENGTH>(blocks, page, span, mark)?;
    let tail = match tail_of(span, at, &head) {
        Some(tail) => tail,
        None => return halt_at(29, at + HEAD_POINTER.offset as u64),
    };
    let next = match pointer_at(&head, FREE_NEXT) {
        Some(next) => next,
        None => return halt_at(29, at + FREE_NEXT.offset as u64),
    };
    match look_at_tail(blocks, page, mark, tail) {
        Ok(()) => Ok(FreeChunk {
            length: tail + TAG_LENGTH as u64 - at,
            next: place(next),
        }),
        Err(halt) => Err(halt),
    }
}

// Puts a free chunk behind those that were met.
fn keep(frees: &mut Frees, at: u64, length: u64) -> Result<(), Halt>
    requires { frees.old.used + length ≤ 2 ^ 44 }
    ensures places { OnOk result ((q : ℕ) → contains nat_cmp frees.new.places q
        ≡ cond (at == q) true (contains nat_cmp frees.old.places q)) }
    ensures extents { OnOk result (frees.new.extents.items
        ≡ frees.old.extents.items ++ record {
          place = at;
          length = length;
          kind = ExtentKind.FreeChunk;
        } ∷ []) }
    ensures used { OnOk result (frees.new.used ≡ frees.old.used + length) }
    ensures want { IfErr result IsWant }
{
    match frees.places.insert(at) {
        Ok(()) => {}
        Err(_) => return Err(Halt::Memory),
    }
    add_extent(&mut frees.extents, ExtentKind::FreeChunk, at, length)?;
    frees.used += length;
    Ok(())
}

// Looks at a free chunk, and adds it to the extents: rules 29 and 14. It says which is the next of
// its list.
fn look_at_free<B: Blocks>(
    blocks: &mut B,
    page: &mut Page,
    span: Span,
    list: FreeList,
    at: u64,
    frees: &mut Frees,
) -> Result<Option<u64>, Halt>
    requires ready { IsReady (B.is_sound blocks.old) (B.state blocks.old).held page.old }
    requires end { span.end < 2 ^ 44 }
    requires place { at < 2 ^ 44 }
    ensures ready { IsReady (B.is_sound blocks.new) (B.state blocks.new).held page.new }
    ensures rows { Told (B.state blocks.old).held (λ image. (number : ℕ) → span.end < length image
        → IsListAt image number list
        → Finds (free_rows_at image span.end (contains nat_cmp frees.old.places at) frees.old.used
        number at) result) }
    ensures kept { OnOk result (Told (B.state blocks.old).held (λ image. span.end < length image
        → KeepsFree image at frees.old frees.new)) }
    ensures next { IfOk result (λ next. Told (B.state blocks.old).held (λ image. span.end
        < length image → next ≡ named_place (field image (at + 16) 12))) }
    ensures bound { IfOk result (λ next. IfSome next (λ place. place < 2 ^ 44)) }
    ensures adds { OnOk result (Adds frees.old.extents.items frees.new.extents.items) }
    ensures more { OnOk result (frees.old.used + 32 ≤ frees.new.used) }
    ensures room { OnOk result (frees.new.used ≤ span.end + 1) }
    ensures solid { OnOk result (All (IsSolid span.end) frees.old.extents.items
        → All (IsSolid span.end) frees.new.extents.items) }
    ensures effect { ReadsFew 4 (B.state blocks.old) (B.state blocks.new) }
    ensures cause { IfErr result (MayLackMemory (B.state blocks.old).faults
        (B.state blocks.new).faults) }
{
    if frees.places.contains(&at) {
        return halt_at(29, at);
    }
    let chunk = free_chunk_at(blocks, page, span, at)?;
    if !span.has_room(frees.used, chunk.length) {
        return halt_at(14, at);
    }
    if !list.agrees(at, chunk.next) {
        return halt_at(29, list.last_at);
    }
    match keep(frees, at, chunk.length) {
        Ok(()) => Ok(chunk.next),
        Err(halt) => Err(halt),
    }
}

// Looks at the free chunks of a list, from its first to its last.
fn look_at_list<B: Blocks>(
    blocks: &mut B,
    page: &mut Page,
    span: Span,
    list: FreeList,
    frees: &mut Frees,
) -> Result<(), Halt>
    requires ready { IsReady (B.is_sound blocks.old) (B.state blocks.old).held page.old }
    requires end { span.end < 2 ^ 44 }
    requires used { frees.old.used ≤ span.end + 1 }
    requires first { HasOffset list.first }
    ensures ready { IsReady (B.is_sound blocks.new) (B.state blocks.new).held page.new }
    ensures goes_on { OnOk result (Told (B.state blocks.old).held
        (λ image. (nodes : List Visit) (base : List Extent) (number : ℕ) (later : List FreeVisit)
        → IsSpan image span → IsListAt image number list
        → HasCome image nodes base number (first_of list) later frees.old
        → HasCome image nodes base number None later frees.new)) }
    ensures stops { IfErr result (λ h. Told (B.state blocks.old).held
        (λ image. (nodes : List Visit) (base : List Extent) (number : ℕ) (later : List FreeVisit)
        → IsSpan image span → IsListAt image number list
        → HasCome image nodes base number (first_of list) later frees.old
        → EndsLists image nodes h)) }
    ensures adds { OnOk result (Adds frees.old.extents.items frees.new.extents.items) }
    ensures room { OnOk result ((frees.old.used ≤ frees.new.used)
        × (frees.new.used ≤ span.end + 1)) }
    ensures solid { OnOk result (All (IsSolid span.end) frees.old.extents.items
        → All (IsSolid span.end) frees.new.extents.items) }
    ensures few { OnOk result (ReadsFew (frees.new.used - frees.old.used) (B.state blocks.old)
        (B.state blocks.new)) }
    ensures effect { ReadsFew (span.end + 1 - frees.old.used + 4) (B.state blocks.old)
        (B.state blocks.new) }
    ensures cause { IfErr result (MayLackMemory (B.state blocks.old).faults
        (B.state blocks.new).faults) }
{
    let mut next = place(list.first);
    while let Some(at) = next {
        match look_at_free(blocks, page, span, list, at, frees) {
            Ok(found) => next = found,
            Err(halt) => return Err(halt),
        }
    }
    Ok(())
}

// Looks at the free chunks of the small, then of the medium, then of the large list.
fn sweep<B: Blocks>(
    blocks: &mut B,
    page: &mut Page,
    span: Span,
    table: &FreeTable,
    frees: &mut Frees,
) -> Result<(), Halt>
    requires ready { IsReady (B.is_sound blocks.old) (B.state blocks.old).held page.old }
    requires end { span.end < 2 ^ 44 }
    requires used { frees.old.used ≤ span.end + 1 }
    requires offsets { HasFreeOffsets table.now }
    ensures ready { IsReady (B.is_sound blocks.new) (B.state blocks.new).held page.new }
    ensures goes_on { OnOk result (Told (B.state blocks.old).held
        (λ image. (nodes : List Visit) (base : List Extent) → IsSpan image span
        → HasLists image table.now
        → HasBegun image nodes base frees.old → HasCome image nodes base 2 None [] frees.new)) }
    ensures stops { IfErr result (λ h. Told (B.state blocks.old).held
        (λ image. (nodes : List Visit) (base : List Extent) → IsSpan image span
        → HasLists image table.now
        → HasBegun image nodes base frees.old → EndsLists image nodes h)) }
    ensures adds { OnOk result (Adds frees.old.extents.items frees.new.extents.items) }
    ensures solid { OnOk result (All (IsSolid span.end) frees.old.extents.items
        → All (IsSolid span.end) frees.new.extents.items) }
    ensures effect { ReadsFew (span.end + 1 - frees.old.used + 4) (B.state blocks.old)
        (B.state blocks.new) }
    ensures cause { IfErr result (MayLackMemory (B.state blocks.old).faults
        (B.state blocks.new).faults) }
{
    let small = FreeList {
        first: table.small_first,
        last: table.small_last,
        last_at: 202,
    };
    look_at_list(blocks, page, span, small, frees)?;
    let medium = FreeList {
        first: table.medium_first,
        last: table.medium_last,
        last_at: 226,
    };
    look_at_list(blocks, page, span, medium, frees)?;
    let large = FreeList {
        first: table.large_first,
        last: table.large_last,
        last_at: 250,
    };
    look_at_list(blocks, page, span, large, frees)
}

/// Looks at the free chunks of the small, the medium and the large list, and adds them to the
/// extents: rules 29 and 14.
pub fn look_at_lists<B: Blocks>(
    alloc: Global,
    blocks: &mut B,
    page: &mut Page,
    span: Span,
    table: &FreeTable,
    used: u64,
    extents: Vec<Extent>,
) -> Result<Vec<Extent>, Halt>
    requires ready { IsReady (B.is_sound blocks.old) (B.state blocks.old).held page.old }
    requires end { span.end < 2 ^ 44 }
    requires used { used ≤ span.end + 1 }
    requires offsets { HasFreeOffsets table.now }
    ensures ready { IsReady (B.is_sound blocks.new) (B.state blocks.new).held page.new }
    ensures found { IfOk result (λ all. Told (B.state blocks.old).held
        (λ image. (nodes : List Visit) → IsSpan image span
        → pointers_of table.now ≡ free_table_record (field image 186 80)
        → first_broken (free_table_rows 186 (field image 186 80)) ≡ None
        → used ≡ 266 + total_length (found_extents image (is_wide image) nodes)
        → (frees : List FreeVisit) × FreeWalk image nodes (Ok frees)
        × (all.items ≡ extents.items ++ map (free_extent image) frees))) }
    ensures stops { IfErr result (λ h. Told (B.state blocks.old).held (λ image. (nodes : List Visit)
        → IsSpan image span → pointers_of table.now ≡ free_table_record (field image 186 80)
        → first_broken (free_table_rows 186 (field image 186 80)) ≡ None
        → used ≡ 266 + total_length (found_extents image (is_wide image) nodes)
        → EndsLists image nodes h)) }
    ensures adds { IfOk result (λ all. Adds extents.items all.items) }
    ensures solid { IfOk result (λ all. All (IsSolid span.end) extents.items
        → All (IsSolid span.end) all.items) }
    ensures effect { ReadsFew (span.end + 1 - used + 4) (B.state blocks.old) (B.state blocks.new) }
    ensures cause { IfErr result (MayLackMemory (B.state blocks.old).faults
        (B.state blocks.new).faults) }
{
    let mut frees = Frees {
        places: KeySet::new(alloc),
        extents,
        used,
    };
    match sweep(blocks, page, span, table, &mut frees) {
        Ok(()) => {
            let Frees {
                places: _,
                extents,
                used: _,
            } = frees;
            Ok(extents)
        }
        Err(halt) => Err(halt),
    }
}
