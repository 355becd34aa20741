//! The nodes of one file as a table, of which any question may be asked.

ghost use Rattle.std.specs.Prelude.{◌≡◌, IfSome};
ghost use Rattle.checker_tests.specs.PlainTrees.{plain_files, plain_devices, IsPlainReply};
ghost use Rattle.adf_model.specs.Answers.{asked_node};

use adf_model::{
    AdfError, Child, Children, DataType, Edit, EditError, Format, NodeId, Query, Reply, Serials,
    Shape, Text, TreeCalls,
};
use std::alloc::Global;

/// A node, by its place in the table: what it is named and is, and the places of its children. A link
/// has the place that it leads to; nowhere where it cannot be followed.
#[derive(Clone, Copy)]
pub struct Row<'a> {
    pub name: &'a [u8],
    pub label: &'a [u8],
    pub kind: DataType,
    pub dims: &'a [u64],
    pub bytes: Option<&'a [u8]>,
    pub children: &'a [u64],
    pub target: Target,
}

#[derive(Clone, Copy)]
pub enum Target {
    Itself,
    Place(u64),
    Nowhere,
}

/// A table of nodes, and the byte order of their numbers. One question may be told to fail.
#[derive(Drop)]
pub struct PlainTrees<'a> {
    alloc: Global,
    rows: &'a [Row<'a>],
    format: Format,
    asked: u64,
    failing: u64,
}

impl<'a> PlainTrees<'a> {
    pub fn new(alloc: Global, rows: &'a [Row<'a>], format: Format) -> PlainTrees<'a> {
        PlainTrees {
            alloc,
            rows,
            format,
            asked: 0,
            failing: 0,
        }
    }

    /// Makes the k-th question, from 1, the one that fails for want of memory.
    pub fn fail_at(&mut self, k: u64) {
        self.failing = k;
    }
}

impl<'a> TreeCalls for PlainTrees<'a> {
    ghost files = { λ _. plain_files };

    ghost devices = { λ _. plain_devices };

    ghost is_ready = { λ _. Unit {0} };

    fn ask(&mut self, query: &Query) -> Result<Reply, AdfError> {
        self.asked = self.asked.saturating_add(1);
        let fails = self.asked == self.failing;
        answer(self.alloc, self.rows, self.format, fails, query)
    }

    fn edit(&mut self, edits: &[Edit]) -> Result<Serials, EditError> {
        if edits.is_empty() {
            Ok(Serials::new(Vec::new(self.alloc)))
        } else {
            Err(EditError {
                at: 0,
                error: AdfError::Memory,
            })
        }
    }
}

fn answer(
    alloc: Global,
    rows: &[Row],
    format: Format,
    fails: bool,
    query: &Query,
) -> Result<Reply, AdfError>
    ensures { IsPlainReply query.now result }
{
    if fails {
        return Err(AdfError::Memory);
    }
    let node = asked_node(query);
    let row = match row_at(rows, node) {
        Some(row) => row,
        None => return Err(AdfError::Memory),
    };
    match query {
        Query::Name { .. } => match text_of(alloc, row.name) {
            Ok(text) => Ok(Reply::Bytes(text)),
            Err(_) => Err(AdfError::Memory),
        },
        Query::LabelOf { .. } => match text_of(alloc, row.label) {
            Ok(text) => Ok(Reply::Bytes(text)),
            Err(_) => Err(AdfError::Memory),
        },
        Query::ShapeOf { .. } => Ok(Reply::Shape(shape_of(row))),
        Query::ChildrenOf { .. } => match children_of(alloc, rows, row) {
            Ok(children) => Ok(Reply::Children(children)),
            Err(_) => Err(AdfError::Memory),
        },
        Query::ReadAll { .. } | Query::ReadPart { .. } => match row.bytes {
            Some(bytes) => match text_of(alloc, bytes) {
                Ok(text) => Ok(Reply::Bytes(text)),
                Err(_) => Err(AdfError::Memory),
            },
            None => Err(AdfError::NoData),
        },
        Query::FormatOf { .. } => Ok(Reply::Format(format)),
        Query::Target { .. } => match row.target {
            Target::Itself => Ok(Reply::Node(node)),
            Target::Place(serial) => Ok(Reply::Node(NodeId { file: 0, serial })),
            Target::Nowhere => Err(AdfError::LinkMissing),
        },
        _ => Err(AdfError::Memory),
    }
}

fn asked_node(query: &Query) -> NodeId
    ensures { result ≡ asked_node query.now }
{
    match query {
        Query::Name { node }
        | Query::LabelOf { node }
        | Query::ShapeOf { node }
        | Query::ChildrenOf { node }
        | Query::LinkText { node }
        | Query::ReadAll { node }
        | Query::ReadPart { node, .. }
        | Query::Find { node, .. }
        | Query::Next { node }
        | Query::FormatOf { node }
        | Query::Parent { node }
        | Query::Target { node } => *node,
    }
}

fn row_at<'r, 'a>(rows: &'r [Row<'a>], node: NodeId) -> Option<&'r Row<'a>>
    ensures { IfSome result (λ _. node.file ≡ 0) }
{
    if node.file == 0 {
        rows.get(node.serial as usize)
    } else {
        None
    }
}

fn text_of(alloc: Global, bytes: &[u8]) -> Result<Text, AdfError> {
    let mut text = Vec::new(alloc);
    match text.extend_from_slice(bytes) {
        Ok(()) => Ok(Text::new(text)),
        Err(_) => Err(AdfError::Memory),
    }
}

fn shape_of(row: &Row) -> Shape {
    let mut dims = [0; 12];
    for (place, dim) in dims.iter_mut().zip(row.dims) {
        *place = *dim;
    }
    Shape {
        kind: row.kind,
        rank: row.dims.len().min(12) as u8,
        dims,
    }
}

fn children_of(alloc: Global, rows: &[Row], row: &Row) -> Result<Children, AdfError> {
    let mut children = Vec::new(alloc);
    for &serial in row.children {
        let name = match rows.get(serial as usize) {
            Some(child) => text_of(alloc, child.name)?,
            None => Text::new(Vec::new(alloc)),
        };
        let node = NodeId { file: 0, serial };
        if children.push(Child { node, name }).is_err() {
            return Err(AdfError::Memory);
        }
    }
    Ok(Children::new(children))
}

/// A row: one without a type, one with data, one with a type and no data, a lost link, and a link to
/// the row of a place. In a form that is laid out in one line.
macro_rules! row {
    ($name:literal : $label:literal $children:tt) => {
        row!($name: $label Mt [] none $children)
    };
    ($name:literal : $label:literal $kind:ident $dims:tt none $children:tt) => {
        Row {
            name: $name,
            label: $label,
            kind: DataType::$kind,
            dims: &$dims,
            bytes: None,
            children: &$children,
            target: Target::Itself,
        }
    };
    ($name:literal : $label:literal $kind:ident $dims:tt $bytes:tt $children:tt) => {
        Row {
            name: $name,
            label: $label,
            kind: DataType::$kind,
            dims: &$dims,
            bytes: Some($bytes),
            children: &$children,
            target: Target::Itself,
        }
    };
    ($name:literal -> nowhere) => {
        Row {
            name: $name,
            label: b"",
            kind: DataType::Lk,
            dims: &[1],
            bytes: Some(b"x"),
            children: &[],
            target: Target::Nowhere,
        }
    };
    ($name:literal -> $place:literal) => {
        Row {
            name: $name,
            label: b"",
            kind: DataType::Lk,
            dims: &[1],
            bytes: Some(b"x"),
            children: &[],
            target: Target::Place($place),
        }
    };
}

pub(crate) use row;
