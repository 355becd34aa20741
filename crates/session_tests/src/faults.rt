//! Runs in which a call of the device or of a stream fails, and what runs without a fault leave.

use crate::runs::{Fault, Left, Run, wrong_part};
use std::test::Fail;
use tool_commands::Status;

// The bytes of a fresh file up to its end.
const FRESH_FILE: &[u8; 512] = b"@(#)ADF Database Version A02007>\
AdF0                            AdF1                            \
AdF2LLAdF3000000000000000000000000AdF400000000010A0000000001FF0000000000BA000000001000AdF5\
fCbt000000001000000000001000000000001000000000001000000000001000000000001000Fcte\
NoDeADF MotherNode                  Root Node of ADF File           0000000000000000000000001000\
MT                              00000000000000000000000000\
0000000000000000000000000000000000000000000000000000000000000000000000000000000000001000TaiL";

const UNTOUCHED: Left = Left {
    is_read: false,
    writes: 0,
    length: 0,
    texts: &[],
};

const XYZ_LEFT: Left = Left {
    is_read: false,
    writes: 0,
    length: 3,
    texts: &[(0, b"xyz")],
};

const FRESH_LEFT: Left = Left {
    is_read: true,
    writes: 0,
    length: 512,
    texts: &FRESH,
};

const FRESH_WRITTEN: Left = Left {
    is_read: true,
    writes: 1,
    length: 4096,
    texts: &FRESH,
};

// The second write of this session is that of the first child.
const BREAKING: &[u8] = b"open 0 new 16\nedit create 0.0 A %\nchildren 0.0\nedit create 0.0 B %\n\
open 0 new 16\nclose 0\nchildren 0.0\nopen 0 new 16\n";

const BROKEN: &[u8] = b"ok\nE03 WriteFault at 1\nE04 Broken\nE04 Broken at 0\n\
E07 AlreadyOpen\nok\nE05 NotOpen\nE25 NotEmpty\n";

// The end pointer is that of the fresh file still.
const BROKEN_LEFT: Left = Left {
    is_read: true,
    writes: 2,
    length: 4096,
    texts: &[(146, b"0000000001FF")],
};

// The texts of a fresh file.
const FRESH: [(usize, &[u8]); 4] = [
    (0, b"@(#)ADF Database Version A02007>"),
    (134, b"00000000010A0000000001FF"),
    (266, b"NoDeADF MotherNode"),
    (508, b"TaiL"),
];

// Those of a file with the node `Base` of label `CGNSBase_t` below its root: the end, the children of the
// root, the header of the node and the table of eight.
const FIRST_CHILD: [(usize, &[u8]); 8] = [
    (146, b"000000000469"),
    (334, b"00000001000000080000000002F6"),
    (512, b"NoDeBase      "),
    (548, b"CGNSBase_t  "),
    (758, b"SNTb000000000466"),
    (774, b"Base  "),
    (806, b"000000000200\0\0"),
    (1126, b"snTE\0\0"),
];

// The texts of a fresh file of the wide version.
const FRESH_WIDE: [(usize, &[u8]); 4] = [
    (0, b"@(#)ADF Database Version W02007>"),
    (134, b"00000000010A00000000025F"),
    (266, b"NoDeADF MotherNode"),
    (604, b"TaiL"),
];

static OF_INIT: [Run; 11] = [
    Run {
        name: "an empty device gets the fresh file in one write",
        words: "init a.adf",
        held: b"",
        input: b"",
        fault: Fault::Nothing,
        status: Status::Done,
        printed: b"ok 511\n",
        left: Left {
            is_read: true,
            writes: 1,
            length: 4096,
            texts: &FRESH,
        },
    },
    Run {
        name: "an empty device gets the fresh file of the wide version in one write",
        words: "init-wide a.adf",
        held: b"",
        input: b"",
        fault: Fault::Nothing,
        status: Status::Done,
        printed: b"ok 607\n",
        left: Left {
            is_read: true,
            writes: 1,
            length: 4096,
            texts: &FRESH_WIDE,
        },
    },
    Run {
        name: "a device of three bytes is refused the wide version and stays",
        words: "init-wide a.adf",
        held: b"xyz",
        input: b"",
        fault: Fault::Nothing,
        status: Status::No,
        printed: b"E25 NotEmpty\n",
        left: Left {
            is_read: true,
            writes: 0,
            length: 3,
            texts: &[(0, b"xyz")],
        },
    },
    Run {
        name: "a failed write of the wide version",
        words: "init-wide a.adf",
        held: b"",
        input: b"",
        fault: Fault::Write(1, 0),
        status: Status::DeviceFault,
        printed: b"E03 WriteFault\n",
        left: Left {
            is_read: true,
            writes: 1,
            length: 0,
            texts: &[],
        },
    },
    Run {
        name: "a device of one byte is refused and stays",
        words: "init a.adf",
        held: b"x",
        input: b"",
        fault: Fault::Nothing,
        status: Status::No,
        printed: b"E25 NotEmpty\n",
        left: Left {
            is_read: true,
            writes: 0,
            length: 1,
            texts: &[(0, b"x")],
        },
    },
    Run {
        name: "a failed read is told and writes nothing",
        words: "init a.adf",
        held: b"",
        input: b"",
        fault: Fault::Read(1),
        status: Status::DeviceFault,
        printed: b"E02 ReadFault\n",
        left: Left {
            is_read: true,
            writes: 0,
            length: 0,
            texts: &[],
        },
    },
    Run {
        name: "a failed write that keeps nothing",
        words: "init a.adf",
        held: b"",
        input: b"",
        fault: Fault::Write(1, 0),
        status: Status::DeviceFault,
        printed: b"E03 WriteFault\n",
        left: Left {
            is_read: true,
            writes: 1,
            length: 0,
            texts: &[],
        },
    },
    Run {
        name: "a failed write that keeps a hundred bytes",
        words: "init a.adf",
        held: b"",
        input: b"",
        fault: Fault::Write(1, 100),
        status: Status::DeviceFault,
        printed: b"E03 WriteFault\n",
        left: Left {
            is_read: true,
            writes: 1,
            length: 4096,
            texts: &[],
        },
    },
    Run {
        name: "a failed write that keeps the whole block",
        words: "init a.adf",
        held: b"",
        input: b"",
        fault: Fault::Write(1, 4096),
        status: Status::DeviceFault,
        printed: b"E03 WriteFault\n",
        left: Left {
            is_read: true,
            writes: 1,
            length: 4096,
            texts: &[],
        },
    },
    Run {
        name: "an output that fails behind the fresh file",
        words: "init a.adf",
        held: b"",
        input: b"",
        fault: Fault::Put(1),
        status: Status::SinkFault,
        printed: b"",
        left: Left {
            is_read: true,
            writes: 1,
            length: 4096,
            texts: &FRESH,
        },
    },
    Run {
        name: "an output that fails at the usage line",
        words: "init",
        held: b"",
        input: b"",
        fault: Fault::Put(1),
        status: Status::SinkFault,
        printed: b"",
        left: UNTOUCHED,
    },
];

#[test]
fn init_writes_once_and_tells_its_faults(rt: HostRuntime) -> Result<(), Fail> {
    for run in &OF_INIT {
        let wrong = wrong_part(rt.alloc(), run)?;
        assert!(rt; wrong.is_empty(), "{}: {wrong}", run.name);
    }
    Ok(())
}

static OF_REPORTS: [Run; 7] = [
    Run {
        name: "a fresh file is linted and not written",
        words: "lint a.adf",
        held: FRESH_FILE,
        input: b"",
        fault: Fault::Nothing,
        status: Status::Done,
        printed: b"sound nodes 1 gaps 0 end 511\n",
        left: FRESH_LEFT,
    },
    Run {
        name: "a fresh file is mapped and not written",
        words: "map a.adf",
        held: FRESH_FILE,
        input: b"",
        fault: Fault::Nothing,
        status: Status::Done,
        printed: b"0 186 header\n186 80 free-table\n266 246 node /\nend 511\n",
        left: FRESH_LEFT,
    },
    Run {
        name: "a failed read of the linter",
        words: "lint a.adf",
        held: FRESH_FILE,
        input: b"",
        fault: Fault::Read(1),
        status: Status::DeviceFault,
        printed: b"E02 ReadFault\n",
        left: FRESH_LEFT,
    },
    Run {
        name: "the lines of a fresh file are printed, and it is not written",
        words: "tree a.adf",
        held: FRESH_FILE,
        input: b"",
        fault: Fault::Nothing,
        status: Status::Done,
        printed: b"/ Root%20Node%20of%20ADF%20File MT - none\n",
        left: FRESH_LEFT,
    },
    Run {
        name: "a failed read of the opening for the lines of a tree",
        words: "tree a.adf",
        held: FRESH_FILE,
        input: b"",
        fault: Fault::Read(1),
        status: Status::DeviceFault,
        printed: b"E02 ReadFault\n",
        left: FRESH_LEFT,
    },
    Run {
        name: "three bytes hold no tree, and are not written",
        words: "tree a.adf",
        held: b"xyz",
        input: b"",
        fault: Fault::Nothing,
        status: Status::No,
        printed: b"E24 Layout L01 0\n",
        left: Left {
            is_read: true,
            writes: 0,
            length: 3,
            texts: &[(0, b"xyz")],
        },
    },
    Run {
        name: "an output that fails at the lines of a tree",
        words: "tree a.adf",
        held: FRESH_FILE,
        input: b"",
        fault: Fault::Put(1),
        status: Status::SinkFault,
        printed: b"",
        left: FRESH_LEFT,
    },
];

#[test]
fn reports_write_nothing(rt: HostRuntime) -> Result<(), Fail> {
    for run in &OF_REPORTS {
        let wrong = wrong_part(rt.alloc(), run)?;
        assert!(rt; wrong.is_empty(), "{}: {wrong}", run.name);
    }
    Ok(())
}

static OF_SESSIONS: [Run; 13] = [
    Run {
        name: "an empty input touches no device",
        words: "session a.adf a.adf",
        held: b"xyz",
        input: b"",
        fault: Fault::Nothing,
        status: Status::Done,
        printed: b"",
        left: XYZ_LEFT,
    },
    Run {
        name: "comments and empty lines touch no device",
        words: "session a.adf a.adf",
        held: b"xyz",
        input: b"# nothing\n\n",
        fault: Fault::Nothing,
        status: Status::Done,
        printed: b"",
        left: XYZ_LEFT,
    },
    Run {
        name: "the first child stands behind the root with a table of eight, in two writes",
        words: "session a.adf",
        held: b"",
        input: b"open 0 new 16\nedit create 0.0 Base CGNSBase_t\nchildren 0.0\nclose 0\n",
        fault: Fault::Nothing,
        status: Status::Done,
        printed: b"ok\nok 0.1\nok 1 0.1 Base\nok\n",
        left: Left {
            is_read: true,
            writes: 2,
            length: 4096,
            texts: &FIRST_CHILD,
        },
    },
    Run {
        name: "an output that fails at its first call",
        words: "session a.adf",
        held: b"",
        input: b"close 5\n",
        fault: Fault::Put(1),
        status: Status::SinkFault,
        printed: b"",
        left: UNTOUCHED,
    },
    Run {
        name: "an output that fails behind an edit keeps what was written",
        words: "session a.adf",
        held: b"",
        input: b"open 0 new 16\nedit create 0.0 Base CGNSBase_t\nchildren 0.0\n",
        fault: Fault::Put(2),
        status: Status::SinkFault,
        printed: b"ok\n",
        left: Left {
            is_read: true,
            writes: 2,
            length: 4096,
            texts: &FIRST_CHILD,
        },
    },
    Run {
        name: "an input that fails at its first call",
        words: "session a.adf",
        held: b"",
        input: b"open 0 new 16\n",
        fault: Fault::Take(1),
        status: Status::SourceFault,
        printed: b"",
        left: UNTOUCHED,
    },
    Run {
        name: "an input that fails behind its lines",
        words: "session a.adf",
        held: b"",
        input: b"open 0 new 16\nclose 0\nclose 0",
        fault: Fault::Take(2),
        status: Status::SourceFault,
        printed: b"ok\nok\n",
        left: FRESH_WRITTEN,
    },
    Run {
        name: "a failed write breaks the file until it is closed",
        words: "session a.adf",
        held: b"",
        input: BREAKING,
        fault: Fault::Write(2, 0),
        status: Status::Done,
        printed: BROKEN,
        left: BROKEN_LEFT,
    },
    Run {
        name: "so does one that keeps some bytes",
        words: "session a.adf",
        held: b"",
        input: BREAKING,
        fault: Fault::Write(2, 7),
        status: Status::Done,
        printed: BROKEN,
        left: BROKEN_LEFT,
    },
    Run {
        name: "a failed first write leaves the file closed, and it is opened again",
        words: "session a.adf",
        held: b"",
        input: b"open 0 new 16\nchildren 0.0\nopen 0 new 16\n",
        fault: Fault::Write(1, 0),
        status: Status::Done,
        printed: b"E03 WriteFault\nE05 NotOpen\nok\n",
        left: Left {
            is_read: true,
            writes: 2,
            length: 4096,
            texts: &FRESH,
        },
    },
    Run {
        name: "a failed first write that keeps some bytes leaves the file closed",
        words: "session a.adf",
        held: b"",
        input: b"open 0 new 16\nclose 0\nopen 0 new 16\n",
        fault: Fault::Write(1, 7),
        status: Status::Done,
        printed: b"E03 WriteFault\nE05 NotOpen\nE25 NotEmpty\n",
        left: Left {
            is_read: true,
            writes: 1,
            length: 4096,
            texts: &[(0, b"@(#)ADF\0")],
        },
    },
    Run {
        name: "a failed read is answered and leaves the file closed",
        words: "session a.adf",
        held: b"",
        input: b"open 0 new 1\nclose 0\nopen 0 new 1\n",
        fault: Fault::Read(1),
        status: Status::Done,
        printed: b"E02 ReadFault\nE05 NotOpen\nok\n",
        left: FRESH_WRITTEN,
    },
    Run {
        name: "a file that is open at the end of the input is as it was written",
        words: "session a.adf",
        held: b"",
        input: b"open 0 new 16\n",
        fault: Fault::Nothing,
        status: Status::Done,
        printed: b"ok\n",
        left: FRESH_WRITTEN,
    },
];

#[test]
fn sessions_answer_faults_and_go_on_or_end(rt: HostRuntime) -> Result<(), Fail> {
    for run in &OF_SESSIONS {
        let wrong = wrong_part(rt.alloc(), run)?;
        assert!(rt; wrong.is_empty(), "{}: {wrong}", run.name);
    }
    Ok(())
}
