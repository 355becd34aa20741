//! What checks print and how they end where files are refused, and where a call of a device or of the
//! output fails.

ghost use Rattle.adf_library.specs.Shelf.{IsShelf, IsWhole};
ghost use Rattle.std.specs.Prelude.{IfOk, OnOk};

use crate::fixtures::{device_of, source_of, text_of, words_of};
use adf_library::Shelf;
use adf_model::{AdfError, Text};
use cg_io::{MemoryDevice, MemorySink};
use std::alloc::Global;
use std::test::Fail;
use tool_commands::{Status, run_on};

// The call that fails, counted from 1: none, a read of `a.adf` or of `b.adf`, or a put to the output.
#[derive(Clone, Copy)]
enum Fault {
    Nothing,
    ReadFirst(u64),
    ReadSecond(u64),
    Put(u64),
}

// A base without data, and the type of a zone in place of the zone.
const BASE: &[u8] = b"open 0 new 16\n\
edit create 0.0 Base CGNSBase_t ; create 0.1 Z ZoneType_t\n";

// A flow in `a.adf`, whose coordinates are those of the grid in `b.adf`.
const LINKED: &[u8] = b"open 1 new 16\n\
edit create 1.0 CGNSLibraryVersion CGNSLibraryVersion_t ; dims 1.1 R4 1 ; put 1.1 00004040\n\
edit create 1.0 Base CGNSBase_t ; dims 1.2 I4 2 ; put 1.2 0200000002000000\n\
edit create 1.2 Zone Zone_t ; dims 1.3 I4 2,3 ; put 1.3 030000000200000002000000010000000000000000000000\n\
edit create 1.3 ZoneType ZoneType_t ; dims 1.4 C1 10 ; put 1.4 53747275637475726564\n\
edit create 1.3 GridCoordinates GridCoordinates_t\n\
edit create 1.5 CoordinateX DataArray_t ; dims 1.6 R4 3,2 ; put 1.6 000000000000803f00000040000000000000803f00000040\n\
open 0 new 16\n\
edit create 0.0 CGNSLibraryVersion CGNSLibraryVersion_t ; dims 0.1 R4 1 ; put 0.1 00004040\n\
edit create 0.0 Base CGNSBase_t ; dims 0.2 I4 2 ; put 0.2 0200000002000000\n\
edit create 0.2 Zone Zone_t ; dims 0.3 I4 2,3 ; put 0.3 030000000200000002000000010000000000000000000000\n\
edit link 0.3 ZoneType b.adf /Base/Zone/ZoneType\n\
edit link 0.3 GridCoordinates b.adf /Base/Zone/GridCoordinates\n";

// A section of mixed elements without start offsets, behind a root without a version.
const MIXED: &[u8] = b"open 0 new 16\n\
edit create 0.0 Base CGNSBase_t ; dims 0.1 I4 2 ; put 0.1 0300000003000000\n\
edit create 0.1 Z Zone_t ; dims 0.2 I4 1,3 ; put 0.2 040000000200000000000000\n\
edit create 0.2 ZoneType ZoneType_t ; dims 0.3 C1 12 ; put 0.3 556e73747275637475726564\n\
edit create 0.2 M Elements_t ; dims 0.4 I4 2 ; put 0.4 1400000000000000\n\
edit create 0.4 ElementRange IndexRange_t ; dims 0.5 I4 2 ; put 0.5 0100000001000000\n\
edit create 0.4 ElementConnectivity DataArray_t ; dims 0.6 I4 4 ; put 0.6 05000000010000000200000003000000\n";

// A check: the lines of the session that makes `a.adf` and `b.adf`, the words, how it ends and what it
// prints, and whether the first file is read. The file `c.adf` holds three bytes.
struct Case {
    lines: &'static [u8],
    words: &'static str,
    status: Status,
    printed: &'static [u8],
    is_read: bool,
}

static CASES: [Case; 10] = [
    Case {
        lines: LINKED,
        words: "check b.adf",
        status: Status::Done,
        printed: b"",
        is_read: false,
    },
    Case {
        lines: LINKED,
        words: "check a.adf b.adf",
        status: Status::Done,
        printed: b"",
        is_read: true,
    },
    Case {
        lines: LINKED,
        words: "check4 a.adf b.adf a.adf b.adf",
        status: Status::Done,
        printed: b"",
        is_read: true,
    },
    Case {
        lines: LINKED,
        words: "check a.adf",
        status: Status::No,
        printed: b"/Base/Zone/ZoneType K01 link\n/Base/Zone/GridCoordinates K01 link\n",
        is_read: true,
    },
    Case {
        lines: LINKED,
        words: "check a.adf c.adf b.adf",
        status: Status::No,
        printed: b"closed c.adf\nE24 Layout L01 0\n",
        is_read: true,
    },
    Case {
        lines: LINKED,
        words: "check c.adf a.adf b.adf",
        status: Status::No,
        printed: b"closed c.adf\nE24 Layout L01 0\n",
        is_read: false,
    },
    Case {
        lines: BASE,
        words: "check a.adf b.adf",
        status: Status::No,
        printed: b"closed b.adf\nE24 Layout L01 0\n/ K03 version\n/Base K05 base-data\n/Base/Z K02 place\n/Base/Z K12 zone-type\n",
        is_read: true,
    },
    Case {
        lines: MIXED,
        words: "check a.adf",
        status: Status::No,
        printed: b"/ K03 version\n",
        is_read: true,
    },
    Case {
        lines: MIXED,
        words: "check4 a.adf",
        status: Status::No,
        printed: b"/ K03 version\n/Base/Z/M K35 start-offset\n",
        is_read: true,
    },
    Case {
        lines: BASE,
        words: "check a.adf b.adf d.adf",
        status: Status::Usage,
        printed: b"usage: cgns_tool COMMAND WORD..\n",
        is_read: false,
    },
];

// What a check did: how it ended, what it printed, and how often it read the first two files.
#[derive(Drop)]
struct Done {
    status: Status,
    printed: Vec<u8>,
    reads: [u64; 2],
}

// Puts one more device on a shelf of at most two.
fn add_file(shelf: &mut Shelf<MemoryDevice>, name: Text, device: MemoryDevice) -> Result<(), Fail>
    requires { IsWhole shelf.old }
    ensures whole { IsWhole shelf.new }
    ensures shelf { OnOk result (IsShelf shelf.new) }
{
    if shelf.len() > 2 {
        return Err(Fail::from(AdfError::TooLarge));
    }
    match shelf.add(name, device) {
        Ok(_) => Ok(()),
        Err((error, _)) => Err(Fail::from(error)),
    }
}

// The files `a.adf` and `b.adf` on these devices, and `c.adf`.
fn three_files(
    alloc: Global,
    first: MemoryDevice,
    second: MemoryDevice,
) -> Result<Shelf<MemoryDevice>, Fail>
    ensures whole { IfOk result IsWhole }
    ensures shelf { IfOk result IsShelf }
{
    let mut shelf = Shelf::new(alloc);
    add_file(&mut shelf, text_of(alloc, b"a.adf")?, first)?;
    add_file(&mut shelf, text_of(alloc, b"b.adf")?, second)?;
    add_file(
        &mut shelf,
        text_of(alloc, b"c.adf")?,
        device_of(alloc, b"abc")?,
    )?;
    Ok(shelf)
}

// Devices of the bytes that `a.adf` and `b.adf` hold behind the lines of a session.
fn made(alloc: Global, lines: &[u8]) -> Result<(MemoryDevice, MemoryDevice), Fail> {
    let mut shelf = three_files(alloc, device_of(alloc, b"")?, device_of(alloc, b"")?)?;
    let words = words_of(alloc, "session a.adf b.adf")?;
    let mut input = source_of(alloc, lines)?;
    let mut output = MemorySink::new(alloc);
    let _ = run_on(alloc, &words, &mut shelf, &mut input, &mut output);
    match (shelf.take(0), shelf.take(1)) {
        (Some(first), Some(second)) => Ok((
            device_of(alloc, first.held())?,
            device_of(alloc, second.held())?,
        )),
        _ => Err(Fail::from(AdfError::NoSuchFile)),
    }
}

fn output_of(alloc: Global, fault: Fault) -> MemorySink {
    let mut output = MemorySink::new(alloc);
    if let Fault::Put(call) = fault {
        output.fail_at(call);
    }
    output
}

// Runs a check of files that a session makes. All three devices have to be there afterwards.
fn check_made(alloc: Global, lines: &[u8], line: &str, fault: Fault) -> Result<Done, Fail> {
    let (mut first, mut second) = made(alloc, lines)?;
    match fault {
        Fault::ReadFirst(call) => first.fail_read(call)?,
        Fault::ReadSecond(call) => second.fail_read(call)?,
        Fault::Nothing | Fault::Put(_) => {}
    }
    let mut shelf = three_files(alloc, first, second)?;
    let words = words_of(alloc, line)?;
    let mut input = source_of(alloc, b"open 0 new 1\n")?;
    let mut output = output_of(alloc, fault);
    let status = run_on(alloc, &words, &mut shelf, &mut input, &mut output);
    let printed = output.taken().to_vec(alloc)?;
    match (shelf.take(0), shelf.take(1), shelf.take(2)) {
        (Some(first), Some(second), Some(_)) => Ok(Done {
            status,
            printed,
            reads: [first.reads(), second.reads()],
        }),
        _ => Err(Fail::from(AdfError::NoSuchFile)),
    }
}

fn is_so(alloc: Global, case: &Case) -> Result<bool, Fail> {
    let done = check_made(alloc, case.lines, case.words, Fault::Nothing)?;
    Ok(
        done.status == case.status
            && done.printed.as_slice() == case.printed
            && (done.reads[0] > 0) == case.is_read,
    )
}

#[test]
fn a_check_prints_closed_files_and_what_it_finds_in_the_first(rt: HostRuntime) -> Result<(), Fail> {
    for case in &CASES {
        assert!(rt; is_so(rt.alloc(), case)?, "{}", case.words);
    }
    Ok(())
}

const WORDS: &str = "check a.adf c.adf";

const PRINTED: &[u8] = b"closed c.adf\nE24 Layout L01 0\n\
/ K03 version\n/Base K05 base-data\n/Base/Z K02 place\n/Base/Z K12 zone-type\n";

const UNREAD: &[u8] = b"E02 ReadFault\n";

// Whether this is a number of first lines of the text of a check, and the line of a failed read.
fn is_cut(printed: &[u8], whole: &[u8]) -> bool {
    if printed.len() < UNREAD.len() {
        return false;
    }
    let (lines, last) = printed.split_at(printed.len() - UNREAD.len());
    last == UNREAD && whole.starts_with(lines) && (lines.is_empty() || lines.ends_with(b"\n"))
}

// Whether a check ends so where this read of the first file fails.
fn tells_first(alloc: Global, call: u64) -> Result<bool, Fail> {
    let done = check_made(alloc, BASE, WORDS, Fault::ReadFirst(call))?;
    let printed = done.printed.as_slice();
    Ok(
        done.status == Status::DeviceFault
            && (printed == b"closed a.adf\nE02 ReadFault\n".as_slice() || is_cut(printed, PRINTED)),
    )
}

#[test]
fn a_failed_read_of_the_first_file_cuts_the_lines(rt: HostRuntime) -> Result<(), Fail> {
    let done = check_made(rt.alloc(), BASE, WORDS, Fault::Nothing)?;
    assert!(rt; done.printed.as_slice() == PRINTED && done.reads[0] > 0);
    for call in 0..done.reads[0] {
        assert!(rt; tells_first(rt.alloc(), call + 1)?, "read {}", call + 1);
    }
    Ok(())
}

// Whether a check ends so where this read of the second file fails: at its opening, or behind it.
fn tells_second(alloc: Global, call: u64) -> Result<bool, Fail> {
    let done = check_made(alloc, LINKED, "check a.adf b.adf", Fault::ReadSecond(call))?;
    Ok(
        done.status == Status::DeviceFault
            && (done.printed.as_slice() == UNREAD
                || done.printed.as_slice()
                    == b"closed b.adf\nE02 ReadFault\n\
/Base/Zone/ZoneType K01 link\n/Base/Zone/GridCoordinates K01 link\n"
                        .as_slice()),
    )
}

#[test]
fn a_failed_read_of_a_later_file_is_told(rt: HostRuntime) -> Result<(), Fail> {
    let done = check_made(rt.alloc(), LINKED, "check a.adf b.adf", Fault::Nothing)?;
    assert!(rt; done.printed.is_empty() && done.reads[1] > 0);
    for call in 0..done.reads[1] {
        assert!(rt; tells_second(rt.alloc(), call + 1)?, "read {}", call + 1);
    }
    Ok(())
}

// Whether a check ends so where this call of the output fails: some first bytes are printed.
fn tells_output(alloc: Global, call: u64) -> Result<bool, Fail> {
    let done = check_made(alloc, BASE, WORDS, Fault::Put(call))?;
    Ok(
        done.status == Status::SinkFault
            && done.printed.len() < PRINTED.len()
            && PRINTED.starts_with(&done.printed),
    )
}

#[test]
fn a_failed_output_ends_a_check(rt: HostRuntime) -> Result<(), Fail> {
    for call in 1..5 {
        assert!(rt; tells_output(rt.alloc(), call)?, "call {call}");
    }
    let done = check_made(rt.alloc(), BASE, WORDS, Fault::Put(5))?;
    assert!(rt; done.status == Status::No && done.printed.as_slice() == PRINTED);
    Ok(())
}
