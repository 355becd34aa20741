//! Questions about a tree, and what is answered, as rows of a table.
use crate::changes::{Block, Dims, node, selection_of, shape_of, text};
use adf_format::Format;
use adf_model::{AdfError, Children, Query, Reply};
use std::alloc::Global;

/// A question about a node by its serial.
#[derive(Clone, Copy)]
pub enum Question {
    Name(u64),
    Label(u64),
    Shape(u64),
    Children(u64),
    LinkText(u64),
    All(u64),
    Part(u64, Block),
    Find(u64, &'static [u8]),
    Next(u64),
    Format(u64),
    Parent(u64),
    Target(u64),
}

/// What is answered.
#[derive(Clone, Copy)]
pub enum Answer {
    Bytes(&'static [u8]),
    Shape(Dims),
    /// The children of a node, each with its serial and its name.
    Children(&'static [(u64, &'static [u8])]),
    /// The file and the path of a link.
    LinkText(&'static [u8], &'static [u8]),
    Node(u64),
    Format(Format),
    Refused(AdfError),
}

/// The query of a row.
pub fn query_of(alloc: Global, question: Question) -> Result<Query, AdfError> {
    match question {
        Question::Name(serial) => Ok(Query::Name { node: node(serial) }),
        Question::Label(serial) => Ok(Query::LabelOf { node: node(serial) }),
        Question::Shape(serial) => Ok(Query::ShapeOf { node: node(serial) }),
        Question::Children(serial) => Ok(Query::ChildrenOf { node: node(serial) }),
        Question::LinkText(serial) => Ok(Query::LinkText { node: node(serial) }),
        Question::All(serial) => Ok(Query::ReadAll { node: node(serial) }),
        Question::Part(serial, block) => Ok(Query::ReadPart {
            node: node(serial),
            selection: selection_of(block),
        }),
        Question::Find(serial, path) => Ok(Query::Find {
            node: node(serial),
            path: text(alloc, path)?,
        }),
        Question::Next(serial) => Ok(Query::Next { node: node(serial) }),
        Question::Format(serial) => Ok(Query::FormatOf { node: node(serial) }),
        Question::Parent(serial) => Ok(Query::Parent { node: node(serial) }),
        Question::Target(serial) => Ok(Query::Target { node: node(serial) }),
    }
}

fn are_children(children: &Children, wanted: &[(u64, &'static [u8])]) -> bool {
    if children.items().len() != wanted.len() {
        return false;
    }
    for (child, (serial, name)) in children.items().iter().zip(wanted.iter()) {
        if child.node != node(*serial) || child.name.items() != *name {
            return false;
        }
    }
    true
}

// Whether a reply is the one wanted.
fn is_reply(reply: &Reply, wanted: Answer) -> bool {
    match (reply, wanted) {
        (Reply::Bytes(text), Answer::Bytes(bytes)) => text.items() == bytes,
        (Reply::Shape(shape), Answer::Shape(dims)) => *shape == shape_of(dims),
        (Reply::Children(children), Answer::Children(wanted)) => are_children(children, wanted),
        (Reply::LinkText { file, path }, Answer::LinkText(to_file, to_path)) => {
            file.items() == to_file && path.items() == to_path
        }
        (Reply::Node(found), Answer::Node(serial)) => *found == node(serial),
        (Reply::Format(format), Answer::Format(wanted)) => *format == wanted,
        _ => false,
    }
}

/// Whether an answer is the one wanted. Want of memory and a failed read stop the test, unless they are.
pub fn is_answer(reply: Result<Reply, AdfError>, wanted: Answer) -> Result<bool, AdfError> {
    match reply {
        Ok(reply) => Ok(is_reply(&reply, wanted)),
        Err(AdfError::Memory) => Err(AdfError::Memory),
        Err(error) => match wanted {
            Answer::Refused(refused) => Ok(refused == error),
            _ => Ok(false),
        },
    }
}
