//! Calls on the data of one node and what is expected after them, as steps of a table.
//!
//! Each helper makes one call, where its condition holds.
ghost use Rattle.std.specs.Prelude.{◌≡◌, ◌≤◌, ◌*◌, ◌^◌, length, IsTrue, IfOk};
ghost use Rattle.std.specs.List.{All};
ghost use Rattle.disk_ptr.specs.View.{HasOffset};
ghost use Rattle.file_heap.specs.Heap.{IsHeap};
ghost use Rattle.adf_data.specs.Runs.{EndsIn, run_bytes};

use adf_chunks::{Extent, ExtentKind, Extents};
use adf_data::{DataPlace, put_part, put_whole, read_runs, release, resize, write_runs};
use adf_model::{AdfError, Listing, Run, Runs};
use disk_ptr::{DiskPtr, encode, from_place, place};
use file_heap::Heap;
use std::alloc::Global;
use std::process::Abort;
use std::test::Fail;
use test_spaces::Bytes;

/// A call, or what is expected where it stands.
#[derive(Clone, Copy)]
pub enum Step {
    Resize {
        old: u64,
        new: u64,
    },
    Full {
        old: u64,
        new: u64,
        asked: u64,
        end: u64,
    },
    Release,
    /// Data are put where there were none.
    Put {
        bytes: &'static [u8],
    },
    /// Elements of data of a size are put where there were none.
    PutPart {
        size: u64,
        element: u64,
        runs: &'static [(u64, u64)],
        bytes: &'static [u8],
    },
    /// Elements from one on are written over with these bytes.
    Write {
        element: u64,
        runs: &'static [(u64, u64)],
        bytes: &'static [u8],
    },
    Read {
        element: u64,
        runs: &'static [(u64, u64)],
        are: &'static [u8],
    },
    /// The place names one chunk, here.
    One {
        place: u64,
    },
    /// The place names so many chunks, by a table, here.
    Many {
        count: u16,
        table: u64,
    },
    /// The place names so many chunks.
    Count {
        is: u16,
    },
    /// The one chunk that the place names is so long.
    Length {
        is: u64,
    },
    None,
    /// Bytes of the space.
    Bytes {
        at: u64,
        are: &'static [u8],
    },
    Gaps {
        are: &'static [(u64, u64, ExtentKind)],
    },
    End {
        is: u64,
    },
}

/// Whether a condition of a call does not hold: no call is made then.
const NOT_CALLED: AdfError = AdfError::NotFound;

/// The heap of a file with no gap, and this last byte.
pub fn new_heap(alloc: Global, space: &mut Bytes, end: u64, limit: u64) -> Result<Heap, AdfError>
    ensures { IfOk result (λ heap. IsHeap heap.work.heap) }
{
    if end < 265 || end >= 1 << 24 || limit == 0 || limit > 1 << 20 {
        return Err(NOT_CALLED);
    }
    let none = Extents::new(Vec::new(alloc));
    Heap::new(alloc, space, &none, end, limit)
}

// Whether all runs end below 2^30 bytes.
fn are_small(runs: &[Run], element: u64) -> bool
    ensures { IsTrue result → All (EndsIn element (2 ^ 30)) runs.now }
{
    if element > 1 << 20 {
        return false;
    }
    match runs {
        [] => true,
        [run, rest @ ..] => {
            if run.first > 1 << 20 || run.count > 1 << 20 {
                return false;
            }
            if (run.first + run.count) * element > 1 << 30 {
                return false;
            }
            are_small(rest, element)
        }
    }
}

// How many bytes the runs name.
fn bytes_of(runs: &[Run], element: u64) -> u64
    requires few { length runs.now ≤ 2 ^ 10 }
    requires small { All (EndsIn element (2 ^ 30)) runs.now }
    ensures few { result ≤ length runs.now * 2 ^ 30 }
    ensures sum { result ≡ run_bytes element runs.now }
{
    match runs {
        [] => 0,
        [run, rest @ ..] => run.count * element + bytes_of(rest, element),
    }
}

fn runs_of(alloc: Global, list: &[(u64, u64)]) -> Result<Runs, AdfError> {
    let mut runs = Vec::new(alloc);
    for (first, count) in list {
        let run = Run {
            first: *first,
            count: *count,
        };
        if runs.push(run).is_err() {
            return Err(AdfError::Memory);
        }
    }
    Ok(Runs::new(runs))
}

// Reads elements, and whether they are these bytes.
fn reads(
    alloc: Global,
    space: &mut Bytes,
    at: &DataPlace,
    element: u64,
    list: &[(u64, u64)],
    wanted: &[u8],
) -> Result<bool, AdfError>
    requires { HasOffset at.now.pointer }
{
    let runs = runs_of(alloc, list)?;
    if !are_small(runs.items(), element) {
        return Err(NOT_CALLED);
    }
    let text = read_runs(alloc, space, at, element, &runs)?;
    Ok(text.items() == wanted)
}

// Writes over elements.
#[tactic(auto, using(adf_data::proofs::WriteLaws::bytes_of_spread))]
fn writes(
    alloc: Global,
    space: &mut Bytes,
    at: &DataPlace,
    element: u64,
    list: &[(u64, u64)],
    bytes: &[u8],
) -> Result<(), AdfError>
    requires { HasOffset at.now.pointer }
{
    let runs = runs_of(alloc, list)?;
    if !are_small(runs.items(), element) || runs.items().len() > 1 << 10 {
        return Err(NOT_CALLED);
    }
    if bytes_of(runs.items(), element) != bytes.len() as u64 {
        return Err(NOT_CALLED);
    }
    write_runs(alloc, space, at, element, &runs, bytes)
}

fn resizes(
    alloc: Global,
    heap: &mut Heap,
    space: &mut Bytes,
    at: &mut DataPlace,
    old: u64,
    new: u64,
) -> Result<(), AdfError>
    requires heap { IsHeap heap.old.work.heap }
    requires offset { HasOffset at.old.pointer }
    ensures heap { IsHeap heap.new.work.heap }
    ensures offset { HasOffset at.new.pointer }
{
    if old > 1 << 30 || new == 0 || new > 1 << 30 {
        return Err(NOT_CALLED);
    }
    resize(alloc, heap, space, at, old, new)
}

fn releases(
    alloc: Global,
    heap: &mut Heap,
    space: &mut Bytes,
    at: &mut DataPlace,
) -> Result<(), AdfError>
    requires heap { IsHeap heap.old.work.heap }
    requires offset { HasOffset at.old.pointer }
    ensures heap { IsHeap heap.new.work.heap }
    ensures offset { HasOffset at.new.pointer }
{
    release(alloc, heap, space, at)
}

// Puts all data.
fn puts(
    heap: &mut Heap,
    space: &mut Bytes,
    at: &mut DataPlace,
    bytes: &[u8],
) -> Result<(), AdfError>
    requires heap { IsHeap heap.old.work.heap }
    requires offset { HasOffset at.old.pointer }
    ensures heap { IsHeap heap.new.work.heap }
    ensures offset { HasOffset at.new.pointer }
{
    if bytes.is_empty() || bytes.len() > 1 << 30 {
        return Err(NOT_CALLED);
    }
    *at = put_whole(heap, space, bytes)?;
    Ok(())
}

// Whether all runs end within data of this size.
fn are_within(runs: &[Run], element: u64, size: u64) -> bool
    ensures { IsTrue result → All (EndsIn element size) runs.now }
{
    if element > 1 << 20 {
        return false;
    }
    match runs {
        [] => true,
        [run, rest @ ..] => {
            if run.first > 1 << 20 || run.count > 1 << 20 {
                return false;
            }
            if (run.first + run.count) * element > size {
                return false;
            }
            are_within(rest, element, size)
        }
    }
}

// Puts elements of data.
#[tactic(auto, using(adf_data::proofs::WriteLaws::bytes_of_spread))]
fn puts_part(
    alloc: Global,
    heap: &mut Heap,
    space: &mut Bytes,
    at: &mut DataPlace,
    size: u64,
    element: u64,
    list: &[(u64, u64)],
    bytes: &[u8],
) -> Result<(), AdfError>
    requires heap { IsHeap heap.old.work.heap }
    requires offset { HasOffset at.old.pointer }
    ensures heap { IsHeap heap.new.work.heap }
    ensures offset { HasOffset at.new.pointer }
{
    let runs = runs_of(alloc, list)?;
    if !are_small(runs.items(), element) || runs.items().len() > 1 << 10 {
        return Err(NOT_CALLED);
    }
    if bytes_of(runs.items(), element) != bytes.len() as u64 {
        return Err(NOT_CALLED);
    }
    if size == 0 || size > 1 << 30 || !are_within(runs.items(), element, size) {
        return Err(NOT_CALLED);
    }
    *at = put_part(heap, space, size, element, &runs, bytes)?;
    Ok(())
}

// Whether the limit refuses a size with these numbers; another refusal is handed on.
fn is_full(answer: Result<(), AdfError>, wanted: AdfError) -> Result<bool, AdfError> {
    match answer {
        Ok(()) => Ok(false),
        Err(AdfError::Full { asked, end }) => Ok(AdfError::Full { asked, end } == wanted),
        Err(error) => Err(error),
    }
}

// Makes a call that changes something, and tells whether it answered as expected.
fn make(
    alloc: Global,
    heap: &mut Heap,
    space: &mut Bytes,
    at: &mut DataPlace,
    step: Step,
) -> Result<bool, AdfError>
    requires heap { IsHeap heap.old.work.heap }
    requires offset { HasOffset at.old.pointer }
    ensures heap { IsHeap heap.new.work.heap }
    ensures offset { HasOffset at.new.pointer }
{
    match step {
        Step::Resize { old, new } => {
            resizes(alloc, heap, space, at, old, new)?;
            Ok(true)
        }
        Step::Full {
            old,
            new,
            asked,
            end,
        } => is_full(
            resizes(alloc, heap, space, at, old, new),
            AdfError::Full { asked, end },
        ),
        Step::Release => {
            releases(alloc, heap, space, at)?;
            Ok(true)
        }
        Step::Put { bytes } => {
            puts(heap, space, at, bytes)?;
            Ok(true)
        }
        Step::PutPart {
            size,
            element,
            runs,
            bytes,
        } => {
            puts_part(alloc, heap, space, at, size, element, runs, bytes)?;
            Ok(true)
        }
        Step::Write {
            element,
            runs,
            bytes,
        } => {
            writes(alloc, space, at, element, runs, bytes)?;
            Ok(true)
        }
        Step::Read { element, runs, are } => reads(alloc, space, at, element, runs, are),
        _ => Ok(true),
    }
}

fn is_at(at: &DataPlace, count: u16, wanted: u64) -> bool {
    at.count == count && place(at.pointer) == Some(wanted)
}

// Whether the one chunk that a place names is so long: its head points to its end tag.
fn is_long(space: &Bytes, at: &DataPlace, length: u64) -> bool {
    let Some(start) = place(at.pointer) else {
        return false;
    };
    if at.count != 1 || start >= 1 << 24 || length < 32 || length >= 1 << 24 {
        return false;
    }
    space.holds(start + 4, &encode(from_place(start + length - 4)))
}

// Whether gaps are these, in this order.
fn are_these(gaps: &[Extent], wanted: &[(u64, u64, ExtentKind)]) -> bool {
    if gaps.len() != wanted.len() {
        return false;
    }
    for (gap, (place, length, kind)) in gaps.iter().zip(wanted) {
        if gap.place != *place || gap.length != *length || gap.kind != *kind {
            return false;
        }
    }
    true
}

fn has_gaps(alloc: Global, heap: &Heap, wanted: &[(u64, u64, ExtentKind)]) -> bool {
    match heap.gaps(alloc) {
        Ok(gaps) => are_these(gaps.items(), wanted),
        Err(_) => false,
    }
}

// Whether what is expected is so.
fn is_so(alloc: Global, heap: &Heap, space: &Bytes, at: &DataPlace, step: Step) -> bool {
    match step {
        Step::One { place } => is_at(at, 1, place),
        Step::Many { count, table } => is_at(at, count, table),
        Step::Count { is } => at.count == is,
        Step::Length { is } => is_long(space, at, is),
        Step::None => at.count == 0 && at.pointer == DiskPtr::Blank,
        Step::Bytes { at, are } => space.holds(at, are),
        Step::Gaps { are } => has_gaps(alloc, heap, are),
        Step::End { is } => heap.end() == is,
        _ => true,
    }
}

/// Takes steps up to the first call that is refused, and stops the test at one that is not as expected.
pub fn run(
    rt: &impl Abort,
    alloc: Global,
    heap: &mut Heap,
    space: &mut Bytes,
    at: &mut DataPlace,
    steps: &[Step],
) -> Result<(), AdfError>
    requires heap { IsHeap heap.old.work.heap }
    requires offset { HasOffset at.old.pointer }
    ensures heap { IsHeap heap.new.work.heap }
    ensures offset { HasOffset at.new.pointer }
{
    match steps {
        [] => Ok(()),
        [step, rest @ ..] => {
            let made = make(alloc, heap, space, at, *step)?;
            assert!(rt; made, "{} steps from the end", rest.len());
            assert!(rt;
                is_so(alloc, heap, space, at, *step),
                "{} steps from the end",
                rest.len()
            );
            run(rt, alloc, heap, space, at, rest)
        }
    }
}

/// Takes steps on the data at a place in a file with this last byte.
pub fn run_at(
    rt: &impl Abort,
    alloc: Global,
    mut space: Bytes,
    mut at: DataPlace,
    end: u64,
    limit: u64,
    steps: &[Step],
) -> Result<(), Fail>
    requires { HasOffset at.pointer }
{
    let mut heap = new_heap(alloc, &mut space, end, limit)?;
    run(rt, alloc, &mut heap, &mut space, &mut at, steps)?;
    Ok(())
}

/// Takes steps on a node without data.
pub fn run_on(
    rt: &impl Abort,
    alloc: Global,
    space: Bytes,
    end: u64,
    limit: u64,
    steps: &[Step],
) -> Result<(), Fail> {
    run_at(rt, alloc, space, DataPlace::none(), end, limit, steps)
}
