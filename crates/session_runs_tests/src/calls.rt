//! What a line asks for, and how it is spelled.

use std::alloc::{AllocError, AllocFailed};
use std::fmt::Write;

/// A node, by the number of its file and its serial.
#[derive(Clone, Copy)]
pub struct At {
    pub file: usize,
    pub serial: u64,
}

/// The file that a link names.
#[derive(Clone, Copy)]
pub enum Named {
    Own,
    Number(usize),
    Nowhere,
}

/// The text of a link as it is spelled, whether it is one, and what it says.
pub struct Target {
    pub spelled: &'static str,
    pub is_text: bool,
    pub file: Named,
    pub names: &'static [&'static str],
}

/// A path as it is spelled, and what it says.
pub struct Path {
    pub spelled: &'static str,
    pub is_absolute: bool,
    pub names: &'static [&'static str],
}

/// A type and dimensions as they are spelled, how many they are, the size of the data, at most 8, and how it is refused.
pub struct Form {
    pub kind: &'static str,
    pub dims: &'static str,
    pub rank: u8,
    pub size: usize,
    pub refusal: Option<&'static str>,
}

/// One edit. Data are the first bytes of eight.
#[derive(Clone, Copy)]
pub enum Change {
    Create(At, &'static str, &'static str),
    Delete(At),
    Rename(At, &'static str),
    Move(At, At),
    Label(At, &'static str),
    Dims(At, &'static Form),
    Put(At, [u8; 8], usize),
    Link(At, &'static str, &'static Target),
}

/// One question.
#[derive(Clone, Copy)]
pub enum Question {
    Name,
    Label,
    Shape,
    Children,
    Link,
    Read,
    Next,
    Parent,
    Target,
    Format,
    Find(&'static Path),
}

/// How a call is refused, as it is printed.
#[derive(Clone, Copy, Debug, Drop)]
pub enum Refusal {
    Named(&'static str),
    WrongLength(usize, usize),
    Memory,
}

impl From<AllocError> for Refusal {
    fn from(_error: AllocError) -> Refusal {
        Refusal::Memory
    }
}

impl<T: Drop> From<AllocFailed<T>> for Refusal {
    fn from(_error: AllocFailed<T>) -> Refusal {
        Refusal::Memory
    }
}

/// Writes the first bytes as they are printed.
pub fn write_hex(line: &mut String, bytes: [u8; 8], count: usize) -> Result<(), Refusal> {
    for byte in bytes.iter().take(count) {
        write!(line, "{byte:02x}")?;
    }
    Ok(())
}

/// Writes an edit as it stands in a line.
pub fn write_change(line: &mut String, change: Change) -> Result<(), Refusal> {
    match change {
        Change::Create(At { file, serial }, name, label) => {
            write!(line, "create {file}.{serial} {name} {label}")?;
        }
        Change::Delete(At { file, serial }) => write!(line, "delete {file}.{serial}")?,
        Change::Rename(At { file, serial }, name) => write!(line, "rename {file}.{serial} {name}")?,
        Change::Move(node, parent) => write_move(line, node, parent)?,
        Change::Label(At { file, serial }, label) => {
            write!(line, "setlabel {file}.{serial} {label}")?;
        }
        Change::Dims(At { file, serial }, form) => {
            write!(line, "dims {file}.{serial} {} {}", form.kind, form.dims)?;
        }
        Change::Put(At { file, serial }, bytes, count) => {
            write!(line, "put {file}.{serial} ")?;
            write_hex(line, bytes, count)?;
        }
        Change::Link(At { file, serial }, name, target) => {
            write!(line, "link {file}.{serial} {name} {}", target.spelled)?;
        }
    }
    Ok(())
}

fn write_move(line: &mut String, node: At, parent: At) -> Result<(), Refusal> {
    let At { file, serial } = node;
    write!(line, "move {file}.{serial} ")?;
    let At { file, serial } = parent;
    write!(line, "{file}.{serial}")?;
    Ok(())
}

/// Writes the line of a question.
pub fn write_question(line: &mut String, question: Question, node: At) -> Result<(), Refusal> {
    let At { file, serial } = node;
    let (word, path) = match question {
        Question::Name => ("name", ""),
        Question::Label => ("label", ""),
        Question::Shape => ("shape", ""),
        Question::Children => ("children", ""),
        Question::Link => ("link", ""),
        Question::Read => ("read", ""),
        Question::Next => ("next", ""),
        Question::Parent => ("parent", ""),
        Question::Target => ("target", ""),
        Question::Format => ("format", ""),
        Question::Find(path) => ("find", path.spelled),
    };
    write!(line, "{word} {file}.{serial}")?;
    if !path.is_empty() {
        write!(line, " {path}")?;
    }
    Ok(())
}
