//! Replies, as they are printed.

ghost use Rattle.call_script.specs.Replies.{HasSpelling};

use adf_model::{
    AdfError, Child, Children, DataType, EditError, Format, NodeId, Serials, Shape, Text,
};
use call_script::{Answer, reply_text};
use std::alloc::Global;
use std::test::Fail;

fn is_printed(alloc: Global, answer: &Answer, line: &[u8]) -> Result<bool, Fail>
    requires { HasSpelling answer.now }
{
    Ok(reply_text(alloc, answer)?.items() == line)
}

// Whether the refusal has this line; a rule in it has to have one or two digits.
fn is_refusal(alloc: Global, error: AdfError, line: &str) -> Result<bool, Fail> {
    let answer = Answer::Refused(error);
    match error {
        AdfError::Layout { rule, .. } => {
            if rule == 0 || rule > 99 {
                return Ok(false);
            }
            is_printed(alloc, &answer, line.as_bytes())
        }
        _ => is_printed(alloc, &answer, line.as_bytes()),
    }
}

// The same for a group of edits, refused at the edit of this place.
fn is_edit_refusal(alloc: Global, at: usize, error: AdfError, line: &str) -> Result<bool, Fail> {
    let answer = Answer::EditRefused(EditError { at, error });
    match error {
        AdfError::Layout { .. } => Ok(false),
        _ => is_printed(alloc, &answer, line.as_bytes()),
    }
}

// Two children of a file: one with a name that is spelled with escapes, and one without a name.
fn two_children(alloc: Global) -> Result<Children, Fail> {
    Ok(Children::new(vec![in alloc;
        Child {
            node: NodeId {
                file: 3,
                serial: 12
            },
            name: Text::new(Vec::from_slice(alloc, b"100%; \xFF")?)
        },
        Child {
            node: NodeId { file: 3, serial: 4 },
            name: Text::new(Vec::new(alloc))
        },
    ]?))
}

fn two_nodes(alloc: Global) -> Result<Serials, Fail> {
    Ok(Serials::new(vec![in alloc;
        NodeId { file: 0, serial: 1 },
        NodeId {
            file: 4294967295,
            serial: 18446744073709551615
        },
    ]?))
}

#[test]
fn answers_are_printed(rt: HostRuntime) -> Result<(), Fail> {
    let alloc = rt.alloc();
    let none = Answer::Children(Children::new(Vec::new(alloc)));
    let children = Answer::Children(two_children(alloc)?);
    let created = Answer::Created(two_nodes(alloc)?);
    assert!(rt; is_printed(alloc, &Answer::Done, b"ok")?);
    assert!(rt; is_printed(alloc, &none, b"ok 0")?);
    assert!(rt; is_printed(alloc, &children, b"ok 2 3.12 100%25%3B%20%FF 3.4 %")?);
    assert!(rt; is_printed(alloc, &created, b"ok 0.1 4294967295.18446744073709551615")?);
    Ok(())
}

fn text_of(alloc: Global, bytes: &[u8]) -> Result<Text, Fail> {
    Ok(Text::new(bytes.to_vec(alloc)?))
}

// Whether a text has this line.
fn is_text(alloc: Global, bytes: &[u8], line: &[u8]) -> Result<bool, Fail> {
    is_printed(alloc, &Answer::Text(text_of(alloc, bytes)?), line)
}

// The same of bytes of data, which are not empty.
fn is_data(alloc: Global, bytes: &[u8], line: &[u8]) -> Result<bool, Fail> {
    let data = text_of(alloc, bytes)?;
    if data.items().is_empty() {
        return Ok(false);
    }
    is_printed(alloc, &Answer::Hex(data), line)
}

// The same of a shape of at most twelve dimensions.
fn is_shape(
    alloc: Global,
    kind: DataType,
    rank: u8,
    dims: [u64; 12],
    line: &[u8],
) -> Result<bool, Fail> {
    if rank > 12 {
        return Ok(false);
    }
    is_printed(alloc, &Answer::Shape(Shape { kind, rank, dims }), line)
}

fn is_link(alloc: Global, file: &[u8], path: &[u8], line: &[u8]) -> Result<bool, Fail> {
    let answer = Answer::Link {
        file: text_of(alloc, file)?,
        path: text_of(alloc, path)?,
    };
    is_printed(alloc, &answer, line)
}

#[test]
fn answers_to_queries_are_printed(rt: HostRuntime) -> Result<(), Fail> {
    let alloc = rt.alloc();
    let node = Answer::Node(NodeId {
        file: 1,
        serial: 20,
    });
    let dims = [3, 18446744073709551615, 0, 0, 0, 0, 0, 0, 0, 0, 0, 0];
    assert!(rt; is_text(alloc, b"", b"ok %")?);
    assert!(rt; is_text(alloc, b"Root Node;", b"ok Root%20Node%3B")?);
    assert!(rt; is_data(alloc, b"\x00\xAB\xfe", b"ok 00abfe")?);
    assert!(rt; is_shape(alloc, DataType::Mt, 0, dims, b"ok MT -")?);
    assert!(rt;
        is_shape(
            alloc,
            DataType::X4,
            2,
            dims,
            b"ok X4 3,18446744073709551615"
        )?
    );
    assert!(rt; is_link(alloc, b"", b"/X Y", b"ok % /X%20Y")?);
    assert!(rt; is_printed(alloc, &node, b"ok 1.20")?);
    assert!(rt; is_printed(alloc, &Answer::Format(Format::Little), b"ok L")?);
    assert!(rt; is_printed(alloc, &Answer::Format(Format::Big), b"ok B")?);
    Ok(())
}

static EDIT_REFUSALS: [(usize, AdfError, &str); 3] = [
    (0, AdfError::BadName, "E11 BadName at 0"),
    (
        12,
        AdfError::Full {
            asked: 520,
            end: 3645,
        },
        "E28 Full 520 3645 at 12",
    ),
    (1, AdfError::LineTooLong, "E31 LineTooLong"),
];

#[test]
fn refused_groups_tell_their_edit(rt: HostRuntime) -> Result<(), Fail> {
    for (at, error, line) in &EDIT_REFUSALS {
        assert!(rt; is_edit_refusal(rt.alloc(), *at, *error, line)?, "{line}");
    }
    Ok(())
}

static REFUSALS: [(AdfError, &str); 33] = [
    (AdfError::Memory, "E01 Memory"),
    (AdfError::ReadFault, "E02 ReadFault"),
    (AdfError::WriteFault, "E03 WriteFault"),
    (AdfError::Broken, "E04 Broken"),
    (AdfError::NotOpen, "E05 NotOpen"),
    (AdfError::NoSuchFile, "E06 NoSuchFile"),
    (AdfError::AlreadyOpen, "E07 AlreadyOpen"),
    (AdfError::ReadOnly, "E08 ReadOnly"),
    (AdfError::NoSuchNode, "E09 NoSuchNode"),
    (AdfError::NotAChild, "E10 NotAChild"),
    (AdfError::BadName, "E11 BadName"),
    (AdfError::Duplicate, "E12 Duplicate"),
    (AdfError::BadLabel, "E13 BadLabel"),
    (AdfError::BadShape, "E14 BadShape"),
    (AdfError::NoData, "E15 NoData"),
    (AdfError::BadRange, "E16 BadRange"),
    (
        AdfError::WrongLength { want: 6, got: 5 },
        "E17 WrongLength 6 5",
    ),
    (AdfError::IntoItself, "E18 IntoItself"),
    (AdfError::TooDeep, "E19 TooDeep"),
    (AdfError::LinkMissing, "E20 LinkMissing"),
    (AdfError::LinkChain, "E21 LinkChain"),
    (AdfError::NotALink, "E22 NotALink"),
    (AdfError::BadLink, "E23 BadLink"),
    (
        AdfError::Layout {
            rule: 22,
            place: 334,
        },
        "E24 Layout L22 334",
    ),
    (AdfError::Layout { rule: 1, place: 0 }, "E24 Layout L01 0"),
    (AdfError::NotEmpty, "E25 NotEmpty"),
    (AdfError::TooLarge, "E26 TooLarge"),
    (AdfError::TooManyChildren, "E27 TooManyChildren"),
    (
        AdfError::Full {
            asked: 520,
            end: 3645,
        },
        "E28 Full 520 3645",
    ),
    (AdfError::NotFound, "E29 NotFound"),
    (AdfError::Syntax, "E30 Syntax"),
    (AdfError::LineTooLong, "E31 LineTooLong"),
    (AdfError::OtherFile, "E32 OtherFile"),
];

#[test]
fn each_refusal_has_its_line(rt: HostRuntime) -> Result<(), Fail> {
    for (error, line) in &REFUSALS {
        assert!(rt; is_refusal(rt.alloc(), *error, line)?, "{line}");
    }
    Ok(())
}
