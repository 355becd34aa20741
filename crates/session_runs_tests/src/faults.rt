//! The lines of two linked files, where a call fails: each read, each write, each take from the input and each put to the
//! output in turn; and, where a run of the tests lets one fail, each allocation.

use crate::runs::{Fault, Outcome, run_lines};
use std::alloc::Global;
use std::test::Fail;
use tool_commands::Status;

// The calls, each with its reply.
static CALLS: [(&str, &str); 19] = [
    ("open 0 new 16", "ok"),
    ("open 1 new 16", "ok"),
    (
        "edit create 0.0 CoordinateX DataArray_t ; dims 0.1 R4 3 ; put 0.1 000000000000803f00000040",
        "ok 0.1",
    ),
    ("edit link 1.0 X a.adf /CoordinateX", "ok 1.1"),
    ("link 1.1", "ok a.adf /CoordinateX"),
    ("target 1.1", "ok 0.1"),
    ("shape 1.1", "ok R4 3"),
    ("part 1.1 2 3 1", "ok 0000803f00000040"),
    ("edit putpart 1.1 1 1 1 0000803f", "ok"),
    ("read 0.1", "ok 0000803f0000803f00000040"),
    ("find 1.0 /X/Y", "E29 NotFound"),
    (
        "edit create 0.0 Base % ; create 1.0 Base %",
        "E32 OtherFile at 1",
    ),
    ("close 0", "ok"),
    ("read 1.1", "E20 LinkMissing"),
    ("open 0 ro 16", "ok"),
    ("read 1.1", "ok 0000803f0000803f00000040"),
    ("edit setlabel 1.1 Other_t", "E08 ReadOnly at 0"),
    ("close 0", "ok"),
    ("close 1", "ok"),
];

// All calls behind one another but this one, up to a number of them.
fn lines_of(alloc: Global, count: usize, without: Option<usize>) -> Result<String, Fail> {
    let mut lines = String::new(alloc);
    for (at, (call, _)) in CALLS.iter().take(count).enumerate() {
        if without != Some(at) {
            lines.push_str(*call)?;
            lines.push_str("\n")?;
        }
    }
    Ok(lines)
}

// A session of the first of them, but this one, where no call fails.
fn reference(alloc: Global, count: usize, without: Option<usize>) -> Result<Outcome, Fail> {
    let lines = lines_of(alloc, count, without)?;
    run_lines(alloc, lines.as_bytes(), Fault::Nothing)
}

fn faulted(alloc: Global, fault: Fault) -> Result<Outcome, Fail> {
    let lines = lines_of(alloc, CALLS.len(), None)?;
    run_lines(alloc, lines.as_bytes(), fault)
}

// The first reply that begins so.
fn place_of(printed: &str, refusal: &str) -> Option<usize> {
    for (at, line) in printed.split("\n").enumerate() {
        if line.starts_with(refusal) {
            return Some(at);
        }
    }
    None
}

// What is printed, but for one line.
fn without_line(alloc: Global, printed: &str, left_out: Option<usize>) -> Result<String, Fail> {
    let mut kept = String::new(alloc);
    for (at, line) in printed.split("\n").enumerate() {
        if left_out != Some(at) && !line.is_empty() {
            kept.push_str(line)?;
            kept.push_str("\n")?;
        }
    }
    Ok(kept)
}

// Whether both sessions leave the same bytes of this file.
fn leaves_the_same(one: &Outcome, other: &Outcome, file: usize) -> bool {
    match (one.devices.get(file), other.devices.get(file)) {
        (Some(Some(one)), Some(Some(other))) => one.held() == other.held(),
        _ => false,
    }
}

// Whether one call is refused so, and replies and files are those of a session that has not that call.
fn lacks_one_call(alloc: Global, outcome: &Outcome, refusal: &str) -> Result<bool, Fail> {
    let printed = std::str::from_utf8(outcome.output.taken())?;
    let place = place_of(printed, refusal);
    let wanted = reference(alloc, CALLS.len(), place)?;
    let rest = without_line(alloc, printed, place)?;
    Ok(
        place.is_some()
            && outcome.status == Status::Done
            && rest.as_bytes() == wanted.output.taken()
            && leaves_the_same(outcome, &wanted, 0)
            && leaves_the_same(outcome, &wanted, 1),
    )
}

// How often a file is read and written where no call fails.
fn counts_of(alloc: Global, file: usize) -> Result<(u64, u64), Fail> {
    match reference(alloc, CALLS.len(), None)?.devices.get(file) {
        Some(Some(device)) => Ok((device.reads(), device.writes())),
        _ => Ok((0, 0)),
    }
}

#[test]
fn a_failed_read_refuses_its_call_and_leaves_all(rt: HostRuntime) -> Result<(), Fail> {
    let alloc = rt.alloc();
    for file in 0..2 {
        let (reads, _) = counts_of(alloc, file as usize)?;
        assert!(rt; reads > 0);
        for call in 1..reads.saturating_add(1) {
            let outcome = faulted(alloc, Fault::Read(file, call))?;
            assert!(rt;
                lacks_one_call(alloc, &outcome, "E02 ReadFault")?,
                "read {call} of {file}"
            );
        }
    }
    Ok(())
}

// The writes of a file that fail, from one on; the call that is refused for the first of them, counted from 0, and all
// replies.
struct FailedWrite {
    name: &'static str,
    file: u32,
    first: u64,
    call: usize,
    replies: [&'static str; 19],
}

static FAILED_WRITES: [FailedWrite; 5] = [
    FailedWrite {
        name: "the fresh first file",
        file: 0,
        first: 1,
        call: 0,
        replies: [
            "E03 WriteFault",
            "ok",
            "E05 NotOpen at 0",
            "ok 1.1",
            "ok a.adf /CoordinateX",
            "E20 LinkMissing",
            "E20 LinkMissing",
            "E20 LinkMissing",
            "E20 LinkMissing at 0",
            "E05 NotOpen",
            "E20 LinkMissing",
            "E05 NotOpen at 0",
            "E05 NotOpen",
            "E20 LinkMissing",
            "E24 Layout L01 0",
            "E20 LinkMissing",
            "E20 LinkMissing at 0",
            "E05 NotOpen",
            "ok",
        ],
    },
    FailedWrite {
        name: "the array of the first file",
        file: 0,
        first: 2,
        call: 2,
        replies: [
            "ok",
            "ok",
            "E03 WriteFault at 3",
            "ok 1.1",
            "ok a.adf /CoordinateX",
            "E04 Broken",
            "E04 Broken",
            "E04 Broken",
            "E04 Broken at 0",
            "E04 Broken",
            "E04 Broken",
            "E04 Broken at 0",
            "ok",
            "E20 LinkMissing",
            "ok",
            "E20 LinkMissing",
            "E20 LinkMissing at 0",
            "ok",
            "ok",
        ],
    },
    FailedWrite {
        name: "data that are put through the link",
        file: 0,
        first: 3,
        call: 8,
        replies: [
            "ok",
            "ok",
            "ok 0.1",
            "ok 1.1",
            "ok a.adf /CoordinateX",
            "ok 0.1",
            "ok R4 3",
            "ok 0000803f00000040",
            "E03 WriteFault at 1",
            "E04 Broken",
            "E04 Broken",
            "E04 Broken at 0",
            "ok",
            "E20 LinkMissing",
            "ok",
            "ok 000000000000803f00000040",
            "E08 ReadOnly at 0",
            "ok",
            "ok",
        ],
    },
    FailedWrite {
        name: "the fresh second file",
        file: 1,
        first: 1,
        call: 1,
        replies: [
            "ok",
            "E03 WriteFault",
            "ok 0.1",
            "E05 NotOpen at 0",
            "E05 NotOpen",
            "E05 NotOpen",
            "E05 NotOpen",
            "E05 NotOpen",
            "E05 NotOpen at 0",
            "ok 000000000000803f00000040",
            "E05 NotOpen",
            "E05 NotOpen at 1",
            "ok",
            "E05 NotOpen",
            "ok",
            "E05 NotOpen",
            "E05 NotOpen at 0",
            "ok",
            "E05 NotOpen",
        ],
    },
    FailedWrite {
        name: "the link",
        file: 1,
        first: 2,
        call: 3,
        replies: [
            "ok",
            "ok",
            "ok 0.1",
            "E03 WriteFault at 1",
            "E04 Broken",
            "E04 Broken",
            "E04 Broken",
            "E04 Broken",
            "E04 Broken at 0",
            "ok 000000000000803f00000040",
            "E04 Broken",
            "E04 Broken at 1",
            "ok",
            "E04 Broken",
            "ok",
            "E04 Broken",
            "E04 Broken at 0",
            "ok",
            "ok",
        ],
    },
];

// Whether the replies are these, each in a line.
fn are_printed(printed: &[u8], replies: &[&str]) -> Result<bool, Fail> {
    let mut lines = std::str::from_utf8(printed)?.split("\n");
    for reply in replies {
        if lines.next() != Some(*reply) {
            return Ok(false);
        }
    }
    Ok(lines.next() == Some("") && lines.next().is_none())
}

// Whether the replies are those of the case; its file has the bytes that it had before the failed call, and the other file
// those of a session that does not put data through the link.
fn goes_so(alloc: Global, case: &FailedWrite) -> Result<bool, Fail> {
    let outcome = faulted(alloc, Fault::Writes(case.file, case.first))?;
    let before = reference(alloc, case.call, None)?;
    let other = reference(alloc, CALLS.len(), Some(8))?;
    let file = case.file as usize;
    Ok(
        outcome.status == Status::Done
            && are_printed(outcome.output.taken(), &case.replies)?
            && leaves_the_same(&outcome, &before, file)
            && leaves_the_same(&outcome, &other, if file == 0 { 1 } else { 0 }),
    )
}

#[test]
fn a_failed_write_breaks_its_file_and_leaves_what_was_written(rt: HostRuntime) -> Result<(), Fail> {
    let alloc = rt.alloc();
    let (_, first) = counts_of(alloc, 0)?;
    let (_, second) = counts_of(alloc, 1)?;
    assert!(rt; first == 3 && second == 2, "a case for each write");
    for case in &FAILED_WRITES {
        assert!(rt; goes_so(alloc, case)?, "{}", case.name);
    }
    Ok(())
}

// How many whole lines are printed, where these are the first of the replies and nothing follows.
fn printed_lines(printed: &[u8]) -> Result<Option<usize>, Fail> {
    let mut count = 0usize;
    let mut lines = std::str::from_utf8(printed)?.split("\n");
    let mut line = lines.next();
    for (_, reply) in &CALLS {
        if line != Some(*reply) {
            break;
        }
        count = count.saturating_add(1);
        line = lines.next();
    }
    Ok(if line == Some("") && lines.next().is_none() {
        Some(count)
    } else {
        None
    })
}

// Whether a session ends so, with a first part of the replies, and leaves the files as the calls do up to the one whose
// reply was not printed.
fn ends_so(
    alloc: Global,
    outcome: &Outcome,
    status: Status,
    unprinted: usize,
) -> Result<bool, Fail> {
    let Some(count) = printed_lines(outcome.output.taken())? else {
        return Ok(false);
    };
    let wanted = reference(alloc, count.saturating_add(unprinted), None)?;
    Ok(
        outcome.status == status
            && leaves_the_same(outcome, &wanted, 0)
            && leaves_the_same(outcome, &wanted, 1),
    )
}

// How many calls of the output, or of the input, can fail; none, where such a call ends a session otherwise than it has to.
fn ending_calls(alloc: Global, is_output: bool) -> Result<u64, Fail> {
    let (status, unprinted) = if is_output {
        (Status::SinkFault, 1)
    } else {
        (Status::SourceFault, 0)
    };
    let mut count = 0u64;
    for call in 1..100 {
        let fault = if is_output {
            Fault::Put(call)
        } else {
            Fault::Take(call)
        };
        let outcome = faulted(alloc, fault)?;
        if outcome.status == Status::Done {
            break;
        }
        if !ends_so(alloc, &outcome, status, unprinted)? {
            return Ok(0);
        }
        count = call;
    }
    Ok(count)
}

#[test]
fn a_stream_that_fails_ends_the_session(rt: HostRuntime) -> Result<(), Fail> {
    let alloc = rt.alloc();
    assert!(rt; ending_calls(alloc, false)? == 2, "two calls of the input");
    assert!(rt;
        ending_calls(alloc, true)? == 19,
        "a call of the output for each reply"
    );
    Ok(())
}

// Where an allocation fails one call is refused for it, or the session ends.
#[test]
fn the_calls_are_answered_as_they_stand(rt: HostRuntime) -> Result<(), Fail> {
    let alloc = rt.alloc();
    let outcome = faulted(alloc, Fault::Nothing)?;
    if outcome.status == Status::Memory {
        assert!(rt; printed_lines(outcome.output.taken())?.is_some());
        return Ok(());
    }
    let all = printed_lines(outcome.output.taken())? == Some(CALLS.len());
    assert!(rt; all || lacks_one_call(alloc, &outcome, "E01 Memory")?);
    Ok(())
}
