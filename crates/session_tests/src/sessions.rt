//! What sessions print and how they end where a call of a stream fails, and how lines are found.

ghost use Rattle.std.specs.Prelude.{IfOk};
ghost use Rattle.cg_io.specs.Memory.{device_of};
ghost use Rattle.adf_library.specs.Library.{IsLibrary};

use crate::fixtures::source_of;
use adf_library::{Library, Shelf};
use call_script::laws as line_laws;
use cg_io::{MemoryDevice, MemorySink, MemorySource};
use session::{Ended, Found, LineReader, Stopped, laws, run_session};
use std::alloc::Global;
use std::test::Fail;
use tool_laws::quiet_runs_end_as_given;

// A session over some lines: the call of the input and that of the output that fails, from 1, how it ends
// and what it prints.
struct Case {
    lines: &'static [u8],
    failing_take: Option<u64>,
    failing_put: Option<u64>,
    ended: Ended,
    printed: &'static [u8],
}

static CASES: [Case; 10] = [
    Case {
        lines: b"",
        failing_take: None,
        failing_put: None,
        ended: Ended::Done,
        printed: b"",
    },
    Case {
        lines: b"# open 0 new 1\n\n\n#",
        failing_take: None,
        failing_put: None,
        ended: Ended::Done,
        printed: b"",
    },
    Case {
        lines: b"nmae 0.0\n",
        failing_take: None,
        failing_put: None,
        ended: Ended::Done,
        printed: b"E30 Syntax\n",
    },
    Case {
        lines: b"discard 0\nopen 0 rw 1\nname 0.0\nedit delete 0.1\nedit create 0.0 A % ; delete 0.1",
        failing_take: None,
        failing_put: None,
        ended: Ended::Done,
        printed: b"E06 NoSuchFile\nE06 NoSuchFile\nE06 NoSuchFile\nE06 NoSuchFile at 0\nE06 NoSuchFile at 0\n",
    },
    Case {
        lines: b"open 0 new 16\nedit create 0.0 A %\n\nchildren 0.0\nclose 0",
        failing_take: None,
        failing_put: None,
        ended: Ended::Done,
        printed: b"E06 NoSuchFile\nE06 NoSuchFile at 0\nE06 NoSuchFile\nE06 NoSuchFile\n",
    },
    Case {
        lines: b"open 0 new 0\n close 0\nclose 0",
        failing_take: None,
        failing_put: None,
        ended: Ended::Done,
        printed: b"E30 Syntax\nE30 Syntax\nE06 NoSuchFile\n",
    },
    Case {
        lines: b"close 0\nnone\nclo",
        failing_take: Some(1),
        failing_put: None,
        ended: Ended::SourceFault,
        printed: b"",
    },
    Case {
        lines: b"close 0\nnone\nclo",
        failing_take: Some(2),
        failing_put: None,
        ended: Ended::SourceFault,
        printed: b"E06 NoSuchFile\nE30 Syntax\n",
    },
    Case {
        lines: b"close 0\nnone\nclo",
        failing_take: None,
        failing_put: Some(1),
        ended: Ended::SinkFault,
        printed: b"",
    },
    Case {
        lines: b"close 0\nnone\nclo",
        failing_take: None,
        failing_put: Some(2),
        ended: Ended::SinkFault,
        printed: b"E06 NoSuchFile\n",
    },
];

// The files of an empty shelf.
fn no_files(alloc: Global) -> Result<Library<MemoryDevice>, Fail>
    ensures { IfOk result (IsLibrary device_of) }
{
    match Library::new(alloc, Shelf::new(alloc)) {
        Ok(library) => Ok(library),
        Err((error, _)) => Err(Fail::from(error)),
    }
}

fn ends_so(alloc: Global, case: &Case) -> Result<bool, Fail> {
    let mut input = source_of(alloc, case.lines)?;
    if let Some(call) = case.failing_take {
        input.fail_at(call);
    }
    let mut output = MemorySink::new(alloc);
    if let Some(call) = case.failing_put {
        output.fail_at(call);
    }
    let ended = run_session(alloc, &mut no_files(alloc)?, &mut input, &mut output);
    Ok(ended == case.ended && output.taken() == case.printed)
}

#[test]
fn each_line_has_its_reply_until_a_stream_fails(rt: HostRuntime) -> Result<(), Fail> {
    for (at, case) in CASES.iter().enumerate() {
        assert!(rt; ends_so(rt.alloc(), case)?, "case {at}");
    }
    Ok(())
}

// Whether the next line is found, or not, as wanted; where it is, these are its bytes.
fn finds(
    reader: &mut LineReader,
    source: &mut MemorySource,
    wanted: Result<Found, Stopped>,
    line: &[u8],
) -> bool {
    reader.next(source) == wanted && (wanted != Ok(Found::Line) || reader.line() == line)
}

#[test]
fn lines_are_found_one_by_one(rt: HostRuntime) -> Result<(), Fail> {
    let alloc = rt.alloc();
    let mut source = source_of(alloc, b"one\n\ntwo")?;
    source.fail_at(4);
    let mut reader = LineReader::new(alloc);
    for (wanted, line) in [
        (Ok(Found::Line), b"one".as_slice()),
        (Ok(Found::Line), b""),
        (Ok(Found::Line), b"two"),
        (Ok(Found::End), b""),
        (Err(Stopped::Source), b""),
    ] {
        assert!(rt; finds(&mut reader, &mut source, wanted, line), "{wanted:?}");
    }
    Ok(())
}

#[test]
fn laws_are_calls() {
    laws::faults_bound_replies();
    laws::sessions_are_steps();
    quiet_runs_end_as_given();
    line_laws::one_call_a_line();
    line_laws::calls_have_lines();
}
