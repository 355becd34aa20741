//! Edits of one file as rows of a table.
use adf_format::DataType;
use adf_model::{AdfError, Edit, NodeId, Selection, Shape, Text};
use std::alloc::Global;

/// A type and dimensions.
pub type Dims = (DataType, &'static [u64]);

/// Where a selection starts and ends in each dimension, and its strides.
pub type Block = (&'static [u64], &'static [u64], &'static [u64]);

/// An edit, of nodes by their serials.
#[derive(Clone, Copy)]
pub enum Change {
    /// A new child of a node, with its name and its label.
    Create(u64, &'static [u8], &'static [u8]),
    Delete(u64),
    Rename(u64, &'static [u8]),
    /// A node, and its new parent.
    Move(u64, u64),
    SetLabel(u64, &'static [u8]),
    SetDims(u64, Dims),
    PutAll(u64, &'static [u8]),
    PutPart(u64, Block, &'static [u8]),
    /// A new child of a node, with its name, and the file and the path that it leads to.
    Link(u64, &'static [u8], &'static [u8], &'static [u8]),
}

/// The node of a serial.
pub fn node(serial: u64) -> NodeId {
    NodeId { file: 0, serial }
}

/// A text of its own.
pub fn text(alloc: Global, bytes: &[u8]) -> Result<Text, AdfError> {
    match bytes.to_vec(alloc) {
        Ok(bytes) => Ok(Text::new(bytes)),
        Err(_) => Err(AdfError::Memory),
    }
}

fn twelve(numbers: &[u64]) -> [u64; 12] {
    let mut all = [0; 12];
    for (i, number) in numbers.iter().enumerate() {
        if i < 12 {
            all[i] = *number;
        }
    }
    all
}

/// The shape of a type and dimensions.
pub fn shape_of(dims: Dims) -> Shape {
    Shape {
        kind: dims.0,
        rank: dims.1.len().min(255) as u8,
        dims: twelve(dims.1),
    }
}

/// The selection of a block.
pub fn selection_of(block: Block) -> Selection {
    Selection {
        rank: block.0.len().min(255) as u8,
        start: twelve(block.0),
        end: twelve(block.1),
        stride: twelve(block.2),
    }
}

fn new_child(alloc: Global, parent: u64, name: &[u8], label: &[u8]) -> Result<Edit, AdfError> {
    let name = text(alloc, name)?;
    Ok(Edit::Create {
        parent: node(parent),
        name,
        label: text(alloc, label)?,
    })
}

fn new_link(
    alloc: Global,
    parent: u64,
    name: &[u8],
    file: &[u8],
    path: &[u8],
) -> Result<Edit, AdfError> {
    let name = text(alloc, name)?;
    let file = text(alloc, file)?;
    Ok(Edit::Link {
        parent: node(parent),
        name,
        file,
        path: text(alloc, path)?,
    })
}

/// The edit of a row.
pub fn edit_of(alloc: Global, change: Change) -> Result<Edit, AdfError> {
    match change {
        Change::Create(parent, name, label) => new_child(alloc, parent, name, label),
        Change::Delete(serial) => Ok(Edit::Delete { node: node(serial) }),
        Change::Rename(serial, name) => Ok(Edit::Rename {
            node: node(serial),
            name: text(alloc, name)?,
        }),
        Change::Move(serial, parent) => Ok(Edit::Move {
            node: node(serial),
            parent: node(parent),
        }),
        Change::SetLabel(serial, label) => Ok(Edit::SetLabel {
            node: node(serial),
            label: text(alloc, label)?,
        }),
        Change::SetDims(serial, dims) => Ok(Edit::SetDims {
            node: node(serial),
            shape: shape_of(dims),
        }),
        Change::PutAll(serial, bytes) => Ok(Edit::PutAll {
            node: node(serial),
            bytes: text(alloc, bytes)?,
        }),
        Change::PutPart(serial, block, bytes) => Ok(Edit::PutPart {
            node: node(serial),
            selection: selection_of(block),
            bytes: text(alloc, bytes)?,
        }),
        Change::Link(parent, name, file, path) => new_link(alloc, parent, name, file, path),
    }
}

/// The edits of some rows.
pub fn edits_of(alloc: Global, changes: &[Change]) -> Result<Vec<Edit>, AdfError> {
    let mut edits = Vec::new(alloc);
    for change in changes {
        let edit = edit_of(alloc, *change)?;
        if edits.push(edit).is_err() {
            return Err(AdfError::Memory);
        }
    }
    Ok(edits)
}
