//! Call lines, as they are read.

use adf_model::{AdfError, DataType, Edit, NodeId, Query, Selection, Shape};
use call_script::{Call, OpenMode, read_line};
use std::alloc::Global;
use std::test::Fail;

fn opens(alloc: Global, line: &[u8], file: u32, blocks: u64) -> Result<bool, Fail> {
    match read_line(alloc, line)? {
        Call::Open {
            number,
            mode: OpenMode::New,
            limit,
        } => Ok(number == file && limit == blocks),
        _ => Ok(false),
    }
}

fn closes(alloc: Global, line: &[u8], file: u32) -> Result<bool, Fail> {
    match read_line(alloc, line)? {
        Call::Close { number } => Ok(number == file),
        _ => Ok(false),
    }
}

fn asks_children(alloc: Global, line: &[u8], wanted: NodeId) -> Result<bool, Fail> {
    match read_line(alloc, line)? {
        Call::Ask(Query::ChildrenOf { node }) => Ok(node == wanted),
        _ => Ok(false),
    }
}

// A child with an empty label.
fn is_child(edit: &Edit, wanted: NodeId, child: &[u8]) -> bool {
    match edit {
        Edit::Create {
            parent,
            name,
            label,
        } => *parent == wanted && name.items() == child && label.items().is_empty(),
        _ => false,
    }
}

// Whether the line is a group of one create, of this child with an empty label.
fn creates(alloc: Global, line: &[u8], wanted: NodeId, child: &[u8]) -> Result<bool, Fail> {
    match read_line(alloc, line)? {
        Call::Edit(edits) => match edits.items() {
            [edit] => Ok(is_child(edit, wanted, child)),
            _ => Ok(false),
        },
        _ => Ok(false),
    }
}

fn is_syntax(alloc: Global, line: &str) -> Result<bool, Fail> {
    match read_line(alloc, line.as_bytes()) {
        Ok(_) => Ok(false),
        Err(AdfError::Syntax) => Ok(true),
        Err(error) => Err(Fail::from(error)),
    }
}

#[test]
fn calls_are_read(rt: HostRuntime) -> Result<(), Fail> {
    let alloc = rt.alloc();
    let last = NodeId {
        file: 7,
        serial: 18446744073709551615,
    };
    let tenth = NodeId {
        file: 0,
        serial: 10,
    };
    assert!(rt;
        opens(
            alloc,
            b"open 4294967295 new 4294967296",
            4294967295,
            4294967296
        )?
    );
    assert!(rt; closes(alloc, b"close 0", 0)?);
    assert!(rt; asks_children(alloc, b"children 7.18446744073709551615", last)?);
    let escaped = b"edit create 0.10 Root%20%4eo%64e%fF %";
    assert!(rt; creates(alloc, escaped, tenth, b"Root Node\xFF")?);
    Ok(())
}

// Whether the line is a call; want of memory is an error.
fn is_call(alloc: Global, line: &str) -> Result<bool, Fail> {
    Ok(!is_syntax(alloc, line)?)
}

static CALL_LINES: [&str; 38] = [
    "open 1 rw 2",
    "open 1 ro 4294967296",
    "discard 4294967295",
    "name 0.1",
    "label 0.1",
    "shape 0.1",
    "children 0.1",
    "link 0.1",
    "read 0.1",
    "part 0.1 1 2 3",
    "part 0.1 0,0 18446744073709551615,1 1,0",
    "find 0.1 /A/B",
    "find 0.1 %",
    "find 0.1 %3b%20",
    "next 0.1",
    "parent 0.1",
    "target 0.1",
    "format 0.1",
    "edit create 0.1 A %",
    "edit create 0.1 % %",
    "edit delete 0.1",
    "edit rename 0.1 B",
    "edit move 0.1 0.2",
    "edit move 0.1 1.2",
    "edit setlabel 0.1 L",
    "edit dims 0.1 MT -",
    "edit dims 0.1 I4 0",
    "edit dims 0.1 LK 3",
    "edit dims 0.1 X8 18446744073709551615",
    "edit dims 0.1 C1 1,2,3,4,5,6,7,8,9,10,11,12",
    "edit put 0.1 61",
    "edit put 0.1 00ffFFaA",
    "edit putpart 0.1 2 3 1 7879",
    "edit link 0.1 K b.adf /X",
    "edit link 0.1 K % /X",
    "edit create 0.0 A B ; create 0.0 C D",
    "edit delete 0.1 ; delete 0.1 ; delete 0.1",
    "edit create 0.0 A % ; dims 0.1 C1 2 ; put 0.1 4142 ; move 0.1 0.0",
];

#[test]
fn all_lines_of_the_language_are_read(rt: HostRuntime) -> Result<(), Fail> {
    for line in &CALL_LINES {
        assert!(rt; is_call(rt.alloc(), line)?, "{line}");
    }
    Ok(())
}

// Whether the line asks for a part of a node by this selection.
fn selects(alloc: Global, line: &[u8], wanted: Selection) -> Result<bool, Fail> {
    match read_line(alloc, line)? {
        Call::Ask(Query::ReadPart { selection, .. }) => Ok(selection == wanted),
        _ => Ok(false),
    }
}

// Whether the line is a group of three edits: this shape, these bytes, and a link to this file.
fn sets_puts_and_links(
    alloc: Global,
    line: &[u8],
    wanted: Shape,
    data: &[u8],
    name: &[u8],
) -> Result<bool, Fail> {
    match read_line(alloc, line)? {
        Call::Edit(edits) => match edits.items() {
            [
                Edit::SetDims { shape, .. },
                Edit::PutAll { bytes, .. },
                Edit::Link { file, .. },
            ] => Ok(*shape == wanted && bytes.items() == data && file.items() == name),
            _ => Ok(false),
        },
        _ => Ok(false),
    }
}

#[test]
fn fields_are_read(rt: HostRuntime) -> Result<(), Fail> {
    let alloc = rt.alloc();
    let selection = Selection {
        rank: 2,
        start: [1, 2, 0, 0, 0, 0, 0, 0, 0, 0, 0, 0],
        end: [30, 40, 0, 0, 0, 0, 0, 0, 0, 0, 0, 0],
        stride: [5, 6, 0, 0, 0, 0, 0, 0, 0, 0, 0, 0],
    };
    let shape = Shape {
        kind: DataType::C1,
        rank: 2,
        dims: [3, 2, 0, 0, 0, 0, 0, 0, 0, 0, 0, 0],
    };
    let group = b"edit dims 0.1 C1 3,2 ; put 0.1 616263646566 ; link 0.2 K b%20c /X";
    assert!(rt; selects(alloc, b"part 3.7 1,2 30,40 5,6", selection)?);
    assert!(rt; sets_puts_and_links(alloc, group, shape, b"abcdef", b"b c")?);
    Ok(())
}

static OTHER_LINES: [&str; 75] = [
    "",
    "#",
    "# open 0 new 1",
    " ",
    "open",
    "open 0 new",
    "open 0 new 1 2",
    "open 0  new 1",
    " open 0 new 1",
    "open 0 new 1 ",
    "open 00 new 1",
    "open +1 new 1",
    "open 0 new 01",
    "open 0 new 0",
    "open 0 new 4294967297",
    "open 4294967296 new 1",
    "open 0 RW 1",
    "OPEN 0 new 1",
    "close",
    "close 0.1",
    "close 1 2",
    "discard",
    "discard 0 0",
    "nmae 0.0",
    "name",
    "name 0",
    "name 0.0 0",
    "children 1",
    "children 1.2.3",
    "children 1.",
    "children .1",
    "children 0.18446744073709551616",
    "children 0.1\t",
    "part 0.1",
    "part 0.1 1 1",
    "part 0.1 - - -",
    "part 0.1 1,1 1 1",
    "part 0.1 1 1,1 1",
    "part 0.1 1 1 1,1",
    "part 0.1 1 1 1 1",
    "find 0.1",
    "find 0.1 ",
    "edit",
    "edit ",
    "edit create 0.0 A",
    "edit create 0.0 A B C",
    "edit create 0.0 A; B",
    "edit create 0.0  B",
    "edit create 0.0 %4 B",
    "edit create 0.0 %4g B",
    "edit create 0.0 A% B",
    "edit create 0.0 %% B",
    "edit create 0.0 caf\u{e9} B",
    "edit delete 0.1 ;",
    "edit ; delete 0.1",
    "edit delete 0.1 ; ; delete 0.1",
    "edit delete 0.1 delete 0.2",
    "edit delete 0.1; delete 0.2",
    "edit name 0.1",
    "edit dims 0.1 I4",
    "edit dims 0.1 mt -",
    "edit dims 0.1 C1 1,,2",
    "edit dims 0.1 C1 ,1",
    "edit dims 0.1 C1 1,",
    "edit dims 0.1 C1 1,2,3,4,5,6,7,8,9,10,11,12,13",
    "edit dims 0.1 C1 18446744073709551616",
    "edit put 0.1",
    "edit put 0.1 ",
    "edit put 0.1 6",
    "edit put 0.1 6g",
    "edit putpart 0.1 1 1 1",
    "edit link 0.1 K b.adf",
    "count base 0.0",
    "get base 0.0 1",
    "put base 0.0 Base 3 3",
];

#[test]
fn other_lines_are_syntax(rt: HostRuntime) -> Result<(), Fail> {
    for line in &OTHER_LINES {
        assert!(rt; is_syntax(rt.alloc(), line)?, "{line}");
    }
    Ok(())
}
