//! What is answered where a call of the space fails.
ghost use Rattle.disk_ptr.specs.View.{HasOffset};

use crate::images::{crowded, front};
use crate::steps::{Step, new_heap, run};
use adf_data::DataPlace;
use adf_model::AdfError;
use std::alloc::Global;
use std::process::Abort;
use std::test::Fail;
use test_spaces::Bytes;

/// Each kind of call: all ways to grow but gathering, a write, a read, a release, and what is put anew.
const CALLS: [Step; 9] = [
    Step::Resize { old: 0, new: 100 },
    Step::Resize { old: 100, new: 150 },
    Step::Resize { old: 150, new: 160 },
    Step::Write {
        element: 8,
        runs: &[(12, 1), (18, 1)],
        bytes: b"abcdefghijklmnop",
    },
    Step::Read {
        element: 8,
        runs: &[(12, 1), (18, 1)],
        are: b"abcdefghijklmnop",
    },
    Step::Release,
    Step::Put { bytes: b"abcde" },
    Step::Release,
    Step::PutPart {
        size: 100,
        element: 4,
        runs: &[(24, 1), (0, 1)],
        bytes: b"abcdwxyz",
    },
];

/// Data in as many chunks as are gathered, which grow.
const GATHERED: [Step; 3] = [
    Step::Resize { old: 64, new: 65 },
    Step::Length { is: 85 },
    Step::Read {
        element: 1,
        runs: &[(0, 2), (63, 2)],
        are: &[0, 1, 63, 0],
    },
];

// Makes a heap and takes steps on the data at a place, up to the first call that is refused.
fn run_all(
    rt: &impl Abort,
    alloc: Global,
    space: &mut Bytes,
    mut at: DataPlace,
    end: u64,
    steps: &[Step],
) -> Result<(), AdfError>
    requires { HasOffset at.pointer }
{
    let mut heap = new_heap(alloc, space, end, 16)?;
    run(rt, alloc, &mut heap, space, &mut at, steps)
}

// Whether no call failed any more; the answer to one that did is that fault.
fn is_through(rt: &impl Abort, space: &Bytes, k: u64, answer: Result<(), AdfError>) -> bool {
    match answer {
        Ok(()) => {
            assert!(rt; space.calls < k);
            true
        }
        Err(error) => {
            assert!(rt;
                error == AdfError::ReadFault && space.faults == 1,
                "at call {k}"
            );
            false
        }
    }
}

// Each call of the space in turn fails.
#[test]
fn each_call_of_the_space_may_fail(rt: HostRuntime) -> Result<(), Fail> {
    let alloc = rt.alloc();
    for k in 1..400 {
        let mut space = front(alloc, 4096)?;
        space.failing = k;
        let answer = run_all(&rt, alloc, &mut space, DataPlace::none(), 1129, &CALLS);
        if is_through(&rt, &space, k, answer) {
            return Ok(());
        }
    }
    Err("more calls than were to fail")?
}

#[test]
fn each_call_of_the_space_may_fail_where_data_are_gathered(rt: HostRuntime) -> Result<(), Fail> {
    let alloc = rt.alloc();
    for k in 1..2000 {
        let mut space = front(alloc, 1 << 16)?;
        let Some(at) = crowded(&mut space, 64) else {
            return Err("the file is not made")?;
        };
        space.failing = k;
        let answer = run_all(&rt, alloc, &mut space, at, 12_999, &GATHERED);
        if is_through(&rt, &space, k, answer) {
            return Ok(());
        }
    }
    Err("more calls than were to fail")?
}
