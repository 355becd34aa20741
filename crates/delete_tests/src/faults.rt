//! What is answered where a call of the space fails.
use crate::steps::{Step, open};
use adf_model::AdfError;
use std::alloc::Global;
use std::process::Abort;
use std::test::Fail;

/// A subtree, and a link.
const DELETIONS: [Step; 2] = [Step::Delete { node: 1 }, Step::Delete { node: 3 }];

const UNDONE: [Step; 3] = [
    Step::Has { node: 1, row: true },
    Step::Has { node: 3, row: true },
    Step::Has { node: 8, row: true },
];

// Takes the steps where the k-th call of the space fails, for want of memory or by a fault: whether it does.
fn run_failing(rt: &impl Abort, alloc: Global, failing: u64, memory: bool) -> Result<bool, Fail> {
    let mut file = open(alloc, false, true)?;
    file.space.calls = 0;
    file.space.failing = failing;
    file.space.memory = memory;
    match file.run(rt, &DELETIONS) {
        Ok(()) => {
            assert!(rt; file.space.calls < failing);
            return Ok(false);
        }
        Err(AdfError::Memory) if memory => {}
        Err(AdfError::ReadFault) => {
            assert!(rt; file.space.faults == 1, "at call {failing}");
        }
        Err(error) => return Err(error)?,
    }
    file.undo();
    file.run(rt, &UNDONE)?;
    Ok(true)
}

// Each call of the space in turn fails: the answer is that fault, until no call is left to fail.
fn each_call_may_fail(rt: &impl Abort, alloc: Global, memory: bool) -> Result<(), Fail> {
    for k in 1..400 {
        if !run_failing(rt, alloc, k, memory)? {
            return Ok(());
        }
    }
    Err("more calls than were to fail")?
}

#[test]
fn each_call_of_the_space_may_fail(rt: HostRuntime) -> Result<(), Fail> {
    each_call_may_fail(&rt, rt.alloc(), false)?;
    each_call_may_fail(&rt, rt.alloc(), true)
}
