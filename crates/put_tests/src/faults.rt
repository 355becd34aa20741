//! What is answered where a call of the space fails.
use crate::steps::{Step, run_failing};
use adf_format::DataType;
use std::alloc::Global;
use std::process::Abort;
use std::test::Fail;

/// Data that begin, grow, are written in part and are given back.
const EDITS: [Step; 6] = [
    Step::Dims {
        node: 1,
        dims: (DataType::C1, &[6]),
    },
    Step::All {
        node: 1,
        bytes: b"abcdef",
    },
    Step::Dims {
        node: 2,
        dims: (DataType::I4, &[7]),
    },
    Step::Part {
        node: 4,
        part: (&[1, 2], &[3, 4], &[2, 1]),
        bytes: b"UVWXYZ",
    },
    Step::Dims {
        node: 4,
        dims: (DataType::C1, &[4, 6]),
    },
    Step::Dims {
        node: 4,
        dims: (DataType::R8, &[2]),
    },
];

// Each call of the space in turn fails: the answer is that fault, until no call is left to fail.
fn each_call_may_fail(rt: &impl Abort, alloc: Global, memory: bool) -> Result<(), Fail> {
    for k in 1..400 {
        if !run_failing(rt, alloc, k, memory, &EDITS)? {
            return Ok(());
        }
    }
    Err("more calls than were to fail")?
}

#[test]
fn each_call_of_the_space_may_fail(rt: HostRuntime) -> Result<(), Fail> {
    each_call_may_fail(&rt, rt.alloc(), false)?;
    each_call_may_fail(&rt, rt.alloc(), true)
}
