//! Commands that follow one another on two files, `a.adf` and `b.adf`, which are empty at first: groups, links,
//! data, openings and discards, in both versions.

ghost use Rattle.adf_library.specs.Shelf.{IsShelf, IsWhole};
ghost use Rattle.std.specs.Prelude.{IfOk, OnOk};

use crate::fixtures::{device_of, source_of, text_of, words_of};
use adf_library::Shelf;
use adf_model::AdfError;
use cg_io::{MemoryDevice, MemorySink};
use std::alloc::Global;
use std::test::Fail;
use tool_commands::{Status, run_on};

// A command, and what it prints; it ends well.
struct Step {
    words: &'static str,
    input: &'static [u8],
    printed: &'static [u8],
}

// The write of `a.adf` that fails and keeps nothing, and the commands.
struct Script {
    name: &'static str,
    failing_write: Option<u64>,
    steps: &'static [Step],
}

const LINKED: [Step; 1] = [Step {
    words: "session a.adf b.adf",
    input: b"open 0 new 16\nopen 1 new 16\nedit create 1.0 X Lab\nedit link 0.0 K b.adf /X\nlabel 0.1\n\
target 0.1\nlink 0.1\nclose 1\nlabel 0.1\nopen 1 rw 16\nlabel 0.1\nedit link 0.0 S % /S\nlabel 0.2\n\
edit delete 0.1\nfind 1.0 /X\nedit create 0.0 A % ; create 1.0 B %\n",
    printed: b"ok\nok\nok 1.1\nok 0.1\nok Lab\nok 1.1\nok b.adf /X\nok\nE20 LinkMissing\nok\nok Lab\nok 0.2\n\
E21 LinkChain\nok\nok 1.1\nE32 OtherFile at 1\n",
}];

const DISCARDED: [Step; 1] = [Step {
    words: "session a.adf b.adf",
    input: b"open 0 new 16\nopen 1 new 16\nedit create 1.0 X Lab\nedit link 0.0 K b.adf /X\nlabel 0.1\n\
discard 1\nclose 1\ndiscard 1\nlabel 0.1\nopen 1 rw 16\ndiscard 1\nlink 0.1\n",
    printed: b"ok\nok\nok 1.1\nok 0.1\nok Lab\nE07 AlreadyOpen\nok\nok\nE20 LinkMissing\nE06 NoSuchFile\n\
E06 NoSuchFile\nok b.adf /X\n",
}];

const REFUSED_GROUP: [Step; 2] = [
    Step {
        words: "session a.adf",
        input: b"open 0 new 16\nedit create 0.0 A % ; create 0.0 B % ; create 0.0 A %\nnext 0.0\nchildren 0.0\n",
        printed: b"ok\nE12 Duplicate at 2\nok 0.1\nok 0\n",
    },
    Step {
        words: "lint a.adf",
        input: b"",
        printed: b"sound nodes 1 gaps 0 end 511\n",
    },
];

// Nodes are numbered anew when their file is opened again.
const NUMBERED_ANEW: [Step; 2] = [
    Step {
        words: "session a.adf",
        input: b"open 0 new 16\nedit create 0.0 A % ; create 0.0 B % ; create 0.0 C % ; create 0.1 D %\n\
edit delete 0.2\nedit move 0.3 0.1\nlabel 0.2\nclose 0\nopen 0 rw 16\nchildren 0.0\nchildren 0.1\nparent 0.3\n",
        printed: b"ok\nok 0.1 0.2 0.3 0.4\nok\nok\nE09 NoSuchNode\nok\nok\nok 1 0.1 A\nok 2 0.2 D 0.3 C\nok 0.1\n",
    },
    Step {
        words: "session a.adf",
        input: b"open 0 ro 16\nnext 0.0\nedit delete 0.1\nname 0.3\n",
        printed: b"ok\nok 0.4\nE08 ReadOnly at 0\nok C\n",
    },
];

const DATA: [Step; 1] = [Step {
    words: "session a.adf",
    input: b"open 0 new 16\nedit create 0.0 A %\nedit dims 0.1 C1 6 ; put 0.1 616263646566\nedit dims 0.1 C1 2\n\
read 0.1\nedit dims 0.1 C1 6\nread 0.1\nedit dims 0.1 C1 3,2 ; put 0.1 616263646566\nshape 0.1\n\
part 0.1 1,1 3,2 2,1\npart 0.1 1,1 4,1 1,1\nedit dims 0.1 C1 4\nread 0.1\nedit putpart 0.1 2 3 1 7879\n\
close 0\nopen 0 ro 16\nread 0.1\n",
    printed: b"ok\nok 0.1\nok\nok\nok 6162\nok\nok 616200000000\nok\nok C1 3,2\nok 61636466\nE16 BadRange\nok\n\
E15 NoData\nok\nok\nok\nok 00787900\n",
}];

const VERSIONS: [Step; 4] = [
    Step {
        words: "init-wide a.adf",
        input: b"",
        printed: b"ok 607\n",
    },
    Step {
        words: "session a.adf b.adf",
        input: b"open 0 rw 16\nopen 1 new 16\nedit create 0.0 Base %\nedit create 1.0 Base %\n\
edit dims 0.1 I8 4294967296\nshape 0.1\nread 0.1\nedit putpart 0.1 1 1 1 0000000000000000\n\
edit dims 1.1 I8 4294967296\nedit dims 1.1 I8 4294967295\n",
        printed: b"ok\nok\nok 0.1\nok 1.1\nok\nok I8 4294967296\nE15 NoData\nE26 TooLarge at 0\n\
E14 BadShape at 0\nE26 TooLarge at 0\n",
    },
    Step {
        words: "map a.adf",
        input: b"",
        printed: b"0 186 header\n186 80 free-table\n266 342 node /\n608 342 node /Base\n950 372 subnodes /\nend 1321\n",
    },
    Step {
        words: "map b.adf",
        input: b"",
        printed: b"0 186 header\n186 80 free-table\n266 246 node /\n512 246 node /Base\n758 372 subnodes /\nend 1129\n",
    },
];

const BROKEN: [Step; 1] = [Step {
    words: "session a.adf",
    input: b"open 0 new 16\nedit create 0.0 A %\nedit create 0.0 B %\nname 0.0\nedit create 0.0 B %\nclose 0\n\
open 0 rw 16\nchildren 0.0\n",
    printed: b"ok\nok 0.1\nE03 WriteFault at 1\nE04 Broken\nE04 Broken at 0\nok\nok\nok 1 0.1 A\n",
}];

static SCRIPTS: [Script; 7] = [
    Script {
        name: "a link leads into the other file while that is open",
        failing_write: None,
        steps: &LINKED,
    },
    Script {
        name: "a link into a file that was discarded is missing",
        failing_write: None,
        steps: &DISCARDED,
    },
    Script {
        name: "a group that is refused at its third edit leaves all",
        failing_write: None,
        steps: &REFUSED_GROUP,
    },
    Script {
        name: "a file is numbered anew when it is opened again",
        failing_write: None,
        steps: &NUMBERED_ANEW,
    },
    Script {
        name: "data are put, cut, read in part and kept",
        failing_write: None,
        steps: &DATA,
    },
    Script {
        name: "dimensions of 64 bits stand in the wide version alone",
        failing_write: None,
        steps: &VERSIONS,
    },
    Script {
        name: "a failed write breaks the file, which is opened again as it was",
        failing_write: Some(3),
        steps: &BROKEN,
    },
];

// Adds an empty device to a shelf of at most one.
fn add_file(
    alloc: Global,
    shelf: &mut Shelf<MemoryDevice>,
    name: &[u8],
    failing_write: Option<u64>,
) -> Result<(), Fail>
    requires { IsWhole shelf.old }
    ensures whole { IsWhole shelf.new }
    ensures shelf { OnOk result (IsShelf shelf.new) }
{
    if shelf.len() > 1 {
        return Err(Fail::from(AdfError::TooLarge));
    }
    let mut device = device_of(alloc, b"")?;
    if let Some(call) = failing_write {
        device.fail_write(call, 0)?;
    }
    match shelf.add(text_of(alloc, name)?, device) {
        Ok(_) => Ok(()),
        Err((error, _)) => Err(Fail::from(error)),
    }
}

fn two_files(alloc: Global, failing_write: Option<u64>) -> Result<Shelf<MemoryDevice>, Fail>
    ensures whole { IfOk result IsWhole }
    ensures shelf { IfOk result IsShelf }
{
    let mut shelf = Shelf::new(alloc);
    add_file(alloc, &mut shelf, b"a.adf", failing_write)?;
    add_file(alloc, &mut shelf, b"b.adf", None)?;
    Ok(shelf)
}

// Whether a command prints what it has to, and ends well.
fn goes_so(alloc: Global, shelf: &mut Shelf<MemoryDevice>, step: &Step) -> Result<bool, Fail>
    requires whole { IsWhole shelf.old }
    requires shelf { IsShelf shelf.old }
    ensures whole { IsWhole shelf.new }
    ensures shelf { IsShelf shelf.new }
{
    let words = words_of(alloc, step.words)?;
    let mut input = source_of(alloc, step.input)?;
    let mut output = MemorySink::new(alloc);
    let status = run_on(alloc, &words, shelf, &mut input, &mut output);
    Ok(status == Status::Done && output.taken() == step.printed)
}

// The words of the first command that goes otherwise: none where all go as they have to.
fn wrong_step(alloc: Global, script: &Script) -> Result<&'static str, Fail> {
    let mut shelf = two_files(alloc, script.failing_write)?;
    'going: for step in script.steps {
        if !goes_so(alloc, &mut shelf, step)? {
            return Ok(step.words);
        }
    }
    Ok("")
}

#[test]
fn scripts_are_answered_as_they_stand(rt: HostRuntime) -> Result<(), Fail> {
    for script in &SCRIPTS {
        let wrong = wrong_step(rt.alloc(), script)?;
        assert!(rt; wrong.is_empty(), "{}: {wrong}", script.name);
    }
    Ok(())
}
