//! Calls of a library one behind another, as tables of script lines and what they answer.

ghost use Rattle.adf_library.specs.Library.{IsLibrary};
ghost use Rattle.cg_io.specs.Memory.{device_of};

use crate::calls::{closes, discards, opens};
use adf_library::Library;
use adf_model::{AdfError, EditError, Mode, NodeId, Reply};
use call_script::{Call, read_line};
use cg_io::MemoryDevice;
use std::alloc::Global;
use std::test::Fail;

/// A call and its answer. Edits and questions are the lines of a script; they make nodes or are refused at an edit, and lead
/// to a node, say bytes or are refused.
pub enum Step {
    Open(u32, Mode, Option<AdfError>),
    Close(u32, Option<AdfError>),
    Discard(u32, Option<AdfError>),
    Makes(&'static str, &'static [NodeId]),
    Stops(&'static str, usize, AdfError),
    Leads(&'static str, NodeId),
    Says(&'static str, &'static [u8]),
    Refuses(&'static str, AdfError),
}

// Whether the group of edits of a line makes these nodes, or is refused so.
fn edits_so(
    alloc: Global,
    library: &mut Library<MemoryDevice>,
    line: &str,
    wanted: Result<&[NodeId], EditError>,
) -> Result<bool, Fail>
    requires { IsLibrary device_of library.old }
    ensures { IsLibrary device_of library.new }
{
    let Call::Edit(edits) = read_line(alloc, line.as_bytes())? else {
        return Ok(false);
    };
    Ok(match (library.edit(edits.items()), wanted) {
        (Ok(made), Ok(nodes)) => made.items() == nodes,
        (Err(refusal), Err(given)) => refusal == given,
        _ => false,
    })
}

// What is answered to a question.
#[derive(Clone, Copy)]
enum Answer {
    Node(NodeId),
    Bytes(&'static [u8]),
    No(AdfError),
}

// Whether the question of a line is answered so.
fn answers_so(
    alloc: Global,
    library: &mut Library<MemoryDevice>,
    line: &str,
    wanted: Answer,
) -> Result<bool, Fail>
    requires { IsLibrary device_of library.old }
    ensures { IsLibrary device_of library.new }
{
    let Call::Ask(query) = read_line(alloc, line.as_bytes())? else {
        return Ok(false);
    };
    Ok(match (library.ask(&query), wanted) {
        (Ok(Reply::Node(node)), Answer::Node(given)) => node == given,
        (Ok(Reply::Bytes(bytes)), Answer::Bytes(given)) => bytes.items() == given,
        (Err(error), Answer::No(given)) => error == given,
        _ => false,
    })
}

fn done_or(refusal: Option<AdfError>) -> Result<(), AdfError> {
    match refusal {
        None => Ok(()),
        Some(error) => Err(error),
    }
}

fn goes_so(alloc: Global, library: &mut Library<MemoryDevice>, step: &Step) -> Result<bool, Fail>
    requires { IsLibrary device_of library.old }
    ensures { IsLibrary device_of library.new }
{
    match step {
        Step::Open(number, mode, refusal) => Ok(opens(library, *number, *mode, done_or(*refusal))),
        Step::Close(number, refusal) => Ok(closes(library, *number, done_or(*refusal))),
        Step::Discard(number, refusal) => Ok(discards(library, *number, done_or(*refusal))),
        Step::Makes(line, nodes) => edits_so(alloc, library, *line, Ok(*nodes)),
        Step::Stops(line, at, error) => {
            let refusal = EditError {
                at: *at,
                error: *error,
            };
            edits_so(alloc, library, *line, Err(refusal))
        }
        Step::Leads(line, node) => answers_so(alloc, library, *line, Answer::Node(*node)),
        Step::Says(line, bytes) => answers_so(alloc, library, *line, Answer::Bytes(*bytes)),
        Step::Refuses(line, error) => answers_so(alloc, library, *line, Answer::No(*error)),
    }
}

/// The number of the first step that is answered otherwise, from 1: none is 0.
pub fn wrong_step(
    alloc: Global,
    library: &mut Library<MemoryDevice>,
    steps: &[Step],
) -> Result<usize, Fail>
    requires { IsLibrary device_of library.old }
    ensures { IsLibrary device_of library.new }
{
    let mut number = 0usize;
    'going: for step in steps {
        number = number.saturating_add(1);
        if !goes_so(alloc, library, step)? {
            return Ok(number);
        }
    }
    Ok(0)
}
