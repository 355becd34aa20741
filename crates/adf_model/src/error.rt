//! The refusals of the core.

use thiserror::Error;

/// Why a call was refused.
#[derive(Clone, Copy, Debug, PartialEq, Eq, Error)]
pub enum AdfError {
    /// Want of memory.
    #[error("Memory")]
    Memory,
    /// A read of a device failed.
    #[error("ReadFault")]
    ReadFault,
    /// A write of the file's device failed.
    #[error("WriteFault")]
    WriteFault,
    /// An earlier write of the open file failed.
    #[error("Broken")]
    Broken,
    /// The file is on the shelf and not open.
    #[error("NotOpen")]
    NotOpen,
    /// No device has this number.
    #[error("NoSuchFile")]
    NoSuchFile,
    /// The file is open, or the name is on the shelf.
    #[error("AlreadyOpen")]
    AlreadyOpen,
    /// An edit of a file that is open for reading alone.
    #[error("ReadOnly")]
    ReadOnly,
    /// The serial names no live node.
    #[error("NoSuchNode")]
    NoSuchNode,
    /// The root has no parent, and cannot be renamed, moved or deleted.
    #[error("NotAChild")]
    NotAChild,
    /// The name is not a name.
    #[error("BadName")]
    BadName,
    /// Another child of that parent has the name.
    #[error("Duplicate")]
    Duplicate,
    /// The label is not a label.
    #[error("BadLabel")]
    BadLabel,
    /// The shape is not a shape, or its type is that of links.
    #[error("BadShape")]
    BadShape,
    /// The node has no data, or its type is the empty one.
    #[error("NoData")]
    NoData,
    /// The selection does not fit the shape.
    #[error("BadRange")]
    BadRange,
    /// The bytes given are not as many as wanted.
    #[error("WrongLength {want} {got}")]
    WrongLength { want: u64, got: u64 },
    /// A move under the node itself or below it.
    #[error("IntoItself")]
    IntoItself,
    /// A node would stand deeper than 255.
    #[error("TooDeep")]
    TooDeep,
    /// The file of a link is not open, or its path is not found.
    #[error("LinkMissing")]
    LinkMissing,
    /// More than a hundred links in one walk.
    #[error("LinkChain")]
    LinkChain,
    /// Link text asked of a node that is no link.
    #[error("NotALink")]
    NotALink,
    /// The file or path of a link is not in the grammar.
    #[error("BadLink")]
    BadLink,
    /// No tree is laid out: the first fault.
    #[error("Layout of rule {rule} at {place}")]
    Layout { rule: u8, place: u64 },
    /// A fresh file on a device that holds bytes.
    #[error("NotEmpty")]
    NotEmpty,
    /// A size, a link text or a serial above its limit.
    #[error("TooLarge")]
    TooLarge,
    /// The parent has as many children as there may be.
    #[error("TooManyChildren")]
    TooManyChildren,
    /// The address limit is reached.
    #[error("Full {asked} {end}")]
    Full { asked: u64, end: u64 },
    /// No child of that name on the path.
    #[error("NotFound")]
    NotFound,
    /// The line is not a call line.
    #[error("Syntax")]
    Syntax,
    /// The line is too long.
    #[error("LineTooLong")]
    LineTooLong,
    /// A group or a move touches a second file.
    #[error("OtherFile")]
    OtherFile,
}

/// The refusal of a group: the index of the refused edit, and why.
#[derive(Clone, Copy, Debug, PartialEq, Eq)]
pub struct EditError {
    pub at: usize,
    pub error: AdfError,
}
