//! The calls that lines make, and what is answered to them.

use adf_model::{
    AdfError, Children, EditError, Edits, Format, NodeId, Query, Serials, Shape, Text,
};

/// How a file is opened.
#[derive(Clone, Copy, Debug, PartialEq, Eq, Drop)]
pub enum OpenMode {
    /// The device is empty, and becomes a fresh file.
    New,
    /// As it stands, for reading and for editing.
    ReadWrite,
    /// As it stands, for reading alone.
    ReadOnly,
}

/// What a line asks for.
#[derive(Drop)]
pub enum Call {
    /// Opens a file; `limit` is its address limit in blocks of 4,096 bytes.
    Open {
        number: u32,
        mode: OpenMode,
        limit: u64,
    },
    /// Closes a file.
    Close {
        number: u32,
    },
    /// Takes a closed file off the list.
    Discard {
        number: u32,
    },
    /// A question about a tree.
    Ask(Query),
    /// A group of edits, all of them or none.
    Edit(Edits),
}

/// What is answered to a call.
#[derive(Drop)]
pub enum Answer {
    /// The call is done, and tells nothing.
    Done,
    /// A name or a label.
    Text(Text),
    /// A type and dimensions.
    Shape(Shape),
    /// The children of a node.
    Children(Children),
    /// The file and the path of a link.
    Link { file: Text, path: Text },
    /// Bytes of data.
    Hex(Text),
    /// A node.
    Node(NodeId),
    /// The byte order of numbers in data.
    Format(Format),
    /// The nodes that a done group of edits created.
    Created(Serials),
    /// The call is refused.
    Refused(AdfError),
    /// The group of edits is refused.
    EditRefused(EditError),
}
