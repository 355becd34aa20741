//! Looks at single nodes and at all extents, as rows of a table.
ghost use Rattle.cg_io.specs.Memory.{device_of};
ghost use Rattle.adf_tree.specs.Files.{IsWorking};

use crate::changes::node;
use crate::questions::{Answer, Question, is_answer, query_of};
use crate::steps::File;
use adf_format::{DataType, Extent, ExtentKind, Extents};
use adf_model::AdfError;
use std::alloc::Global;

/// What a look sees.
#[derive(Clone, Copy)]
pub enum Look {
    /// The child of a name, if there is one.
    Child(u64, &'static [u8], Option<u64>),
    /// The text of a link, if the node is one.
    Text(u64, Option<&'static [u8]>),
    /// The type of a node, and how many children it has.
    Header(u64, DataType, u32),
    NoHeader(u64, AdfError),
    /// What is answered of a node as it is named.
    Node(u64, Question, Answer),
    /// All extents by place, each with its length and its kind. What is in work is dropped before.
    Map(&'static [(u64, u64, ExtentKind)]),
    NoMap(AdfError),
}

fn child_is(
    file: &mut File,
    parent: u64,
    name: &[u8],
    wanted: Option<u64>,
) -> Result<bool, AdfError>
    requires { IsWorking device_of file.old }
    ensures { IsWorking device_of file.new }
{
    match file.child_at(parent, name) {
        Ok(child) => Ok(child == wanted),
        Err(error) => Err(error),
    }
}

fn text_is(file: &mut File, serial: u64, wanted: Option<&[u8]>) -> Result<bool, AdfError>
    requires { IsWorking device_of file.old }
    ensures { IsWorking device_of file.new }
{
    match file.text_at(serial) {
        Ok(Some(text)) => Ok(wanted == Some(text.items())),
        Ok(None) => Ok(wanted.is_none()),
        Err(error) => Err(error),
    }
}

// Whether the header of a node says this type and so many children, or is refused so.
fn header_is(file: &mut File, serial: u64, wanted: Result<(DataType, u32), AdfError>) -> bool
    requires { IsWorking device_of file.old }
    ensures { IsWorking device_of file.new }
{
    match file.header(serial) {
        Ok(header) => wanted == Ok((header.kind, header.children)),
        Err(error) => wanted == Err(error),
    }
}

fn node_answers(
    alloc: Global,
    file: &mut File,
    serial: u64,
    question: Question,
    wanted: Answer,
) -> Result<bool, AdfError>
    requires { IsWorking device_of file.old }
    ensures { IsWorking device_of file.new }
{
    let query = query_of(alloc, question)?;
    is_answer(file.answer_at(node(serial), &query), wanted)
}

// Drops what is in work, and lists all extents.
fn mapped(file: &mut File) -> Result<Extents, AdfError>
    requires { IsWorking device_of file.old }
    ensures { IsWorking device_of file.new }
{
    file.undo();
    file.map()
}

fn are_extents(extents: &Extents, wanted: &[(u64, u64, ExtentKind)]) -> bool {
    if extents.items().len() != wanted.len() {
        return false;
    }
    for (extent, (place, length, kind)) in extents.items().iter().zip(wanted.iter()) {
        let same = Extent {
            place: *place,
            length: *length,
            kind: *kind,
        };
        if *extent != same {
            return false;
        }
    }
    true
}

fn map_is(
    file: &mut File,
    wanted: Result<&[(u64, u64, ExtentKind)], AdfError>,
) -> Result<bool, AdfError>
    requires { IsWorking device_of file.old }
    ensures { IsWorking device_of file.new }
{
    match (mapped(file), wanted) {
        (Ok(extents), Ok(wanted)) => Ok(are_extents(&extents, wanted)),
        (Err(AdfError::Memory), _) => Err(AdfError::Memory),
        (Err(error), Err(wanted)) => Ok(error == wanted),
        _ => Ok(false),
    }
}

/// Whether a look sees what is expected.
pub fn sees(alloc: Global, file: &mut File, look: Look) -> Result<bool, AdfError>
    requires { IsWorking device_of file.old }
    ensures { IsWorking device_of file.new }
{
    match look {
        Look::Child(parent, name, child) => child_is(file, parent, name, child),
        Look::Text(serial, text) => text_is(file, serial, text),
        Look::Header(serial, kind, children) => Ok(header_is(file, serial, Ok((kind, children)))),
        Look::NoHeader(serial, error) => Ok(header_is(file, serial, Err(error))),
        Look::Node(serial, question, answer) => {
            node_answers(alloc, file, serial, question, answer)
        }
        Look::Map(extents) => map_is(file, Ok(extents)),
        Look::NoMap(error) => map_is(file, Err(error)),
    }
}
