//! What is answered where a call of the space or an allocation fails.
use crate::files::{CHUNK_GAPS, Gap, chunks, extents, nine_children};
use crate::steps::{Step, accept, ends_at, has_gaps, new_heap, run, undo};
use adf_chunks::ExtentKind::{Filler, FreeChunk};
use adf_chunks::Extents;
use adf_model::AdfError;
use file_heap::Heap;
use std::alloc::Global;
use std::process::Abort;
use std::test::Fail;
use test_spaces::Bytes;

/// A take that reads, takes out of a list and puts into another, and a give.
const CALLS: [Step; 2] = [
    Step::Take {
        n: 101,
        place: 1000,
    },
    Step::Give { place: 7000, n: 50 },
];

// Whether an answer is that of a space whose failing write wants memory, or whose failing call is a fault.
fn is_fault(error: AdfError, space: &Bytes) -> bool {
    if space.memory && error == AdfError::Memory {
        return true;
    }
    error == AdfError::ReadFault && space.faults == 1
}

// Each call of the space in turn fails: the answer is that fault, and the heap is undone as it was accepted.
fn each_call_may_fail(rt: &impl Abort, alloc: Global, memory: bool) -> Result<(), Fail> {
    let before = chunks(alloc)?;
    let mut space = before.copy(alloc)?;
    let gaps = extents(alloc, &CHUNK_GAPS)?;
    let mut heap = new_heap(alloc, &mut space, &gaps, 9999)?;
    for k in 1..40 {
        space = before.copy(alloc)?;
        space.memory = memory;
        space.failing = k;
        match run(rt, alloc, &mut heap, &mut space, &CALLS) {
            Ok(()) => {
                assert!(rt; space.calls < k);
                return Ok(());
            }
            Err(AdfError::Memory) if !memory => return Err(AdfError::Memory)?,
            Err(error) => assert!(rt; is_fault(error, &space)),
        }
        undo(&mut heap);
        assert!(rt; has_gaps(alloc, &heap, &CHUNK_GAPS)?);
        assert!(rt; ends_at(&heap, 9999));
    }
    Err("more calls than were to fail")?
}

#[test]
fn each_call_of_the_space_may_fail(rt: HostRuntime) -> Result<(), Fail> {
    each_call_may_fail(&rt, rt.alloc(), false)?;
    each_call_may_fail(&rt, rt.alloc(), true)
}

/// How often the lists of the file are read: each of the three first pointers, and the one behind each of four chunks.
const POINTERS: u64 = 7;

#[test]
fn each_read_of_the_lists_may_fail(rt: HostRuntime) -> Result<(), Fail> {
    let before = chunks(rt.alloc())?;
    let gaps = extents(rt.alloc(), &CHUNK_GAPS)?;
    for k in 1..=POINTERS + 1 {
        let mut space = before.copy(rt.alloc())?;
        space.failing = k;
        match new_heap(rt.alloc(), &mut space, &gaps, 9999) {
            Ok(_) => assert!(rt; k > POINTERS && space.calls == POINTERS),
            Err(AdfError::Memory) => return Err(AdfError::Memory)?,
            Err(error) => assert!(rt; is_fault(error, &space), "at read {k}"),
        }
    }
    Ok(())
}

// The heap, asked for again where memory is wanting, and then it is not.
fn heap_again(
    rt: &impl Abort,
    alloc: Global,
    space: &mut Bytes,
    gaps: &Extents,
) -> Result<Heap, Fail> {
    let heap = match new_heap(alloc, space, gaps, 3645) {
        Err(AdfError::Memory) => new_heap(alloc, space, gaps, 3645),
        answer => answer,
    };
    assert!(rt; heap.is_ok());
    Ok(heap?)
}

// Makes calls and accepts them. Where memory is wanting they are made again, over the bytes and the heap as they were
// before, and then it is not.
fn run_again(
    rt: &impl Abort,
    alloc: Global,
    heap: &mut Heap,
    space: &mut Bytes,
    steps: &[Step],
) -> Result<(), Fail> {
    let before = space.copy(alloc)?;
    if let Err(error) = run(rt, alloc, heap, space, steps) {
        assert!(rt; error == AdfError::Memory);
        *space = before;
        undo(heap);
        assert!(rt; run(rt, alloc, heap, space, steps).is_ok());
    }
    accept(heap);
    Ok(())
}

/// The one gap of the file with nine children.
const FIRST_TABLE: [Gap; 1] = [(758, 372, FreeChunk)];

const A_CHUNK_WITH_A_REST: [Step; 3] = [
    Step::Take { n: 300, place: 758 },
    Step::Gaps {
        are: &[(1058, 72, FreeChunk)],
    },
    Step::Lists {
        small: &[(1058, 72)],
        medium: &[],
        large: &[],
    },
];

/// The end, and a give within it, for which the space wants memory too.
const THE_END: [Step; 6] = [
    Step::Take {
        n: 450,
        place: 3646,
    },
    Step::Give {
        place: 3700,
        n: 100,
    },
    Step::Gaps {
        are: &[(1058, 72, FreeChunk), (3700, 100, FreeChunk)],
    },
    Step::End { is: 4095 },
    Step::Last { is: 4095 },
    Step::Lists {
        small: &[(3700, 100), (1058, 72)],
        medium: &[],
        large: &[],
    },
];

/// A filler is left, and a give joins it.
const A_CHUNK_WITH_A_FILLER: [Step; 5] = [
    Step::Take { n: 41, place: 1058 },
    Step::Bytes {
        from: 1099,
        to: 1130,
        are: b'z',
    },
    Step::Give { place: 1068, n: 31 },
    Step::Gaps {
        are: &[(1068, 62, FreeChunk), (3700, 100, FreeChunk)],
    },
    Step::Lists {
        small: &[(1068, 62), (3700, 100)],
        medium: &[],
        large: &[],
    },
];

#[test]
fn what_wants_memory_is_done_again(rt: HostRuntime) -> Result<(), Fail> {
    let alloc = rt.alloc();
    let mut space = nine_children(alloc)?;
    let gaps = extents(alloc, &FIRST_TABLE)?;
    let mut heap = heap_again(&rt, alloc, &mut space, &gaps)?;
    for steps in [
        A_CHUNK_WITH_A_REST.as_slice(),
        &THE_END,
        &A_CHUNK_WITH_A_FILLER,
    ] {
        run_again(&rt, alloc, &mut heap, &mut space, steps)?;
    }
    Ok(())
}
