//! What is answered where a call of the space fails.
use crate::steps::{Step, run_failing};
use std::alloc::Global;
use std::process::Abort;
use std::test::Fail;

/// Labels and names, a child in an unused entry, a link in a longer table, and one in an unused entry.
const EDITS: [Step; 5] = [
    Step::Label {
        node: 1,
        label: b"CGNSBase_t",
    },
    Step::Name {
        node: 2,
        name: b"Zone",
    },
    Step::Child {
        of: 0,
        name: b"D",
        serial: 6,
    },
    Step::Link {
        of: 0,
        name: b"E",
        file: b"other.cgns",
        path: b"/Base/Zone",
        serial: 7,
    },
    Step::Link {
        of: 1,
        name: b"F",
        file: b"",
        path: b"/",
        serial: 8,
    },
];

// Each call of the space in turn fails: the answer is that fault, until no call is left to fail.
fn each_call_may_fail(rt: &impl Abort, alloc: Global, memory: bool) -> Result<(), Fail> {
    for k in 1..200 {
        if !run_failing(rt, alloc, k, memory, &EDITS)? {
            return Ok(());
        }
    }
    Err("more calls than were to fail")?
}

#[test]
fn each_call_of_the_space_may_fail(rt: HostRuntime) -> Result<(), Fail> {
    each_call_may_fail(&rt, rt.alloc(), false)?;
    each_call_may_fail(&rt, rt.alloc(), true)
}
