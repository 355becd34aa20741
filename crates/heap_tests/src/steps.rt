//! Calls of a heap and what is expected after them, as steps of a table.
//!
//! Each helper makes one call, where its condition holds, and has no clause.
use crate::conditions::are_gaps;
use crate::files::{Gap, extents, holds};
use crate::lists::{has_lists, names};
use adf_chunks::{Extent, Extents};
use adf_model::AdfError;
use file_heap::Heap;
use std::alloc::Global;
use std::process::Abort;
use std::test::Fail;
use test_spaces::Bytes;

/// A call, or what is expected where it stands.
#[derive(Clone, Copy)]
pub enum Step {
    /// The place that a take answers.
    Take {
        n: u64,
        place: u64,
    },
    /// A take that the limit refuses, which names the end.
    Full {
        n: u64,
        end: u64,
    },
    Give {
        place: u64,
        n: u64,
    },
    Undo,
    Accept,
    /// Bytes that are put into the space beside the heap.
    Put {
        at: u64,
        bytes: &'static [u8],
    },
    Gaps {
        are: &'static [Gap],
    },
    /// The last byte of the file, in the heap.
    End {
        is: u64,
    },
    /// The last byte of the file, in the space.
    Last {
        is: u64,
    },
    /// The three lists in the space, as places and lengths.
    Lists {
        small: &'static [(u64, u64)],
        medium: &'static [(u64, u64)],
        large: &'static [(u64, u64)],
    },
    /// The text of a pointer in the space.
    Pointer {
        at: u64,
        is: &'static [u8; 12],
    },
    /// A range of the space, each byte of which is this one.
    Bytes {
        from: u64,
        to: u64,
        are: u8,
    },
}

/// Whether a condition of a call does not hold: no call is made then.
const NOT_CALLED: AdfError = AdfError::NotFound;

/// The heap of a space, under a limit of one block.
pub fn new_heap(
    alloc: Global,
    space: &mut Bytes,
    gaps: &Extents,
    end: u64,
) -> Result<Heap, AdfError> {
    if end < 265 || end >= 1 << 20 || !are_gaps(gaps.items(), end) {
        return Err(NOT_CALLED);
    }
    Heap::new(alloc, space, gaps, end, 1)
}

/// Whether the heap of a space is refused with an error; where it wants memory, that is the answer.
pub fn is_refused_with(
    alloc: Global,
    space: &mut Bytes,
    gaps: &Extents,
    wanted: AdfError,
) -> Result<bool, AdfError> {
    match new_heap(alloc, space, gaps, 9999) {
        Ok(_) => Ok(false),
        Err(error) => is_this(error, wanted),
    }
}

// Whether an error is that which is wanted; where it is want of memory, that is the answer.
fn is_this(error: AdfError, wanted: AdfError) -> Result<bool, AdfError> {
    if error == AdfError::Memory {
        return Err(AdfError::Memory);
    }
    Ok(error == wanted)
}

pub fn take(heap: &mut Heap, space: &mut Bytes, n: u64) -> Result<u64, AdfError> {
    if n == 0 || n >= 1 << 20 {
        return Err(NOT_CALLED);
    }
    heap.take(space, n)
}

pub fn give(heap: &mut Heap, space: &mut Bytes, place: u64, n: u64) -> Result<(), AdfError> {
    if place >= 1 << 20 || n == 0 || n >= 1 << 20 {
        return Err(NOT_CALLED);
    }
    if !heap.may_give(place, n) {
        return Err(NOT_CALLED);
    }
    heap.give(space, place, n)
}

pub fn undo(heap: &mut Heap) {
    heap.undo()
}

pub fn accept(heap: &mut Heap) {
    heap.accept()
}

pub fn ends_at(heap: &Heap, end: u64) -> bool {
    heap.end() == end
}

/// Whether gaps are these, in this order.
pub fn are_these(gaps: &[Extent], wanted: &[Gap]) -> bool {
    if gaps.len() != wanted.len() {
        return false;
    }
    for (gap, (place, length, kind)) in gaps.iter().zip(wanted) {
        if gap.place != *place || gap.length != *length || gap.kind != *kind {
            return false;
        }
    }
    true
}

/// Whether the gaps of a heap are these, in this order.
pub fn has_gaps(alloc: Global, heap: &Heap, wanted: &[Gap]) -> Result<bool, AdfError> {
    let gaps = heap.gaps(alloc)?;
    Ok(are_these(gaps.items(), wanted))
}

/// Whether a call is refused with an error; where it wants memory, that is the answer.
pub fn is_refused(answer: Result<u64, AdfError>, wanted: AdfError) -> Result<bool, AdfError> {
    match answer {
        Ok(_) => Ok(false),
        Err(error) => is_this(error, wanted),
    }
}

// Makes a call, and tells whether it answered as expected.
fn make(heap: &mut Heap, space: &mut Bytes, step: Step) -> Result<bool, AdfError> {
    match step {
        Step::Take { n, place } => Ok(take(heap, space, n)? == place),
        Step::Full { n, end } => {
            is_refused(take(heap, space, n), AdfError::Full { asked: n, end })
        }
        Step::Give { place, n } => {
            give(heap, space, place, n)?;
            Ok(true)
        }
        Step::Undo => {
            undo(heap);
            Ok(true)
        }
        Step::Accept => {
            accept(heap);
            Ok(true)
        }
        _ => Ok(true),
    }
}

// Whether what is expected is so.
fn is_so(alloc: Global, heap: &Heap, space: &mut Bytes, step: Step) -> Result<bool, AdfError> {
    if let Step::Gaps { are } = step {
        return has_gaps(alloc, heap, are);
    }
    Ok(match step {
        Step::End { is } => ends_at(heap, is),
        Step::Last { is } => names(space, 146, Some(is)),
        Step::Lists {
            small,
            medium,
            large,
        } => has_lists(space, [small, medium, large]),
        Step::Pointer { at, is } => space.bytes_at::<12>(at) == Some(*is),
        Step::Bytes { from, to, are } => holds(space, from, to, are),
        _ => true,
    })
}

/// Takes steps up to the first call that is refused, and stops the test at one that is not as expected.
pub fn run(
    rt: &impl Abort,
    alloc: Global,
    heap: &mut Heap,
    space: &mut Bytes,
    steps: &[Step],
) -> Result<(), AdfError> {
    for (i, step) in steps.iter().enumerate() {
        if let Step::Put { at, bytes } = *step {
            assert!(rt; space.put(at, bytes), "at step {i}");
        }
        assert!(rt; make(heap, space, *step)?, "at step {i}");
        assert!(rt; is_so(alloc, heap, space, *step)?, "at step {i}");
    }
    Ok(())
}

/// Takes steps on a file with these gaps and this last byte.
pub fn run_on(
    rt: &impl Abort,
    alloc: Global,
    mut space: Bytes,
    gaps: &[Gap],
    end: u64,
    steps: &[Step],
) -> Result<(), Fail> {
    let gaps = extents(alloc, gaps)?;
    let mut heap = new_heap(alloc, &mut space, &gaps, end)?;
    run(rt, alloc, &mut heap, &mut space, steps)?;
    Ok(())
}
