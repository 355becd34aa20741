//! Calls of an open file and what they answer, as steps of a table.
//!
//! Each helper makes one call, and hands on no more than what stands between the calls.
ghost use Rattle.cg_io.specs.Memory.{device_of};
ghost use Rattle.adf_tree.specs.Files.{IsWorking};

use crate::changes::{Change, edit_of, edits_of, node};
use crate::looks::{Look, sees};
use crate::questions::{Answer, Question, is_answer, query_of};
use adf_model::{AdfError, EditError, Serials};
use adf_tree::AdfFile;
use cg_io::MemoryDevice;
use std::alloc::Global;
use std::process::Abort;

/// A call, and what it answers.
#[derive(Clone, Copy)]
pub enum Step {
    /// An edit in work.
    Does(Change),
    /// An edit in work that draws a serial.
    Makes(Change, u64),
    /// An edit that is refused; all that waited is dropped.
    Refuses(Change, AdfError),
    Commit,
    /// A commit that is refused.
    NoCommit(AdfError),
    Undo,
    /// A group of edits, and the serials of the nodes that it makes. What is in work is dropped before.
    Group(&'static [Change], &'static [u64]),
    /// A group that is refused at an edit, counted from 0.
    NoGroup(&'static [Change], usize, AdfError),
    /// A question.
    Asks(Question, Answer),
    /// An edit in work of another node that was reached.
    DoesAt(Change, u64),
    Looks(Look),
}

/// An open file over a device in memory.
pub type File = AdfFile<MemoryDevice>;

// Whether a refusal is the one wanted; want of memory stops the test.
fn is_refusal(error: AdfError, wanted: Option<AdfError>) -> Result<bool, AdfError> {
    match error {
        AdfError::Memory => Err(AdfError::Memory),
        _ => Ok(wanted == Some(error)),
    }
}

// Does an edit in work: whether it draws this serial.
fn does(
    alloc: Global,
    file: &mut File,
    change: Change,
    serial: Option<u64>,
) -> Result<bool, AdfError>
    requires { IsWorking device_of file.old }
    ensures { IsWorking device_of file.new }
{
    let edit = edit_of(alloc, change)?;
    match file.step(&edit) {
        Ok(drawn) => Ok(drawn == serial),
        Err(error) => is_refusal(error, None),
    }
}

// Does an edit in work, of the node that was reached.
fn does_at(alloc: Global, file: &mut File, change: Change, there: u64) -> Result<bool, AdfError>
    requires { IsWorking device_of file.old }
    ensures { IsWorking device_of file.new }
{
    let edit = edit_of(alloc, change)?;
    match file.step_at(&edit, Some(node(there))) {
        Ok(drawn) => Ok(drawn.is_none()),
        Err(error) => is_refusal(error, None),
    }
}

fn refuses(
    alloc: Global,
    file: &mut File,
    change: Change,
    wanted: AdfError,
) -> Result<bool, AdfError>
    requires { IsWorking device_of file.old }
    ensures { IsWorking device_of file.new }
{
    let edit = edit_of(alloc, change)?;
    match file.step(&edit) {
        Ok(_) => Ok(false),
        Err(error) => is_refusal(error, Some(wanted)),
    }
}

// Commits: whether that is refused as wanted, or not at all.
fn commits(file: &mut File, refused: Option<AdfError>) -> bool
    requires { IsWorking device_of file.old }
    ensures { IsWorking device_of file.new }
{
    match file.commit() {
        Ok(()) => refused.is_none(),
        Err(error) => refused == Some(error),
    }
}

fn undoes(file: &mut File)
    requires { IsWorking device_of file.old }
    ensures { IsWorking device_of file.new }
{
    file.undo();
}

// Drops what is in work, and does a group.
fn group(
    alloc: Global,
    file: &mut File,
    changes: &[Change],
) -> Result<Result<Serials, EditError>, AdfError>
    requires { IsWorking device_of file.old }
    ensures { IsWorking device_of file.new }
{
    let edits = edits_of(alloc, changes)?;
    file.undo();
    Ok(file.edit(&edits))
}

fn are_made(made: &Serials, serials: &[u64]) -> bool {
    if made.items().len() != serials.len() {
        return false;
    }
    for (made, serial) in made.items().iter().zip(serials.iter()) {
        if *made != node(*serial) {
            return false;
        }
    }
    true
}

// Does a group: whether it makes these nodes.
fn makes(
    alloc: Global,
    file: &mut File,
    changes: &[Change],
    serials: &[u64],
) -> Result<bool, AdfError>
    requires { IsWorking device_of file.old }
    ensures { IsWorking device_of file.new }
{
    match group(alloc, file, changes)? {
        Ok(made) => Ok(are_made(&made, serials)),
        Err(refusal) => is_refusal(refusal.error, None),
    }
}

// Does a group: whether it is refused so.
fn stops(
    alloc: Global,
    file: &mut File,
    changes: &[Change],
    wanted: EditError,
) -> Result<bool, AdfError>
    requires { IsWorking device_of file.old }
    ensures { IsWorking device_of file.new }
{
    match group(alloc, file, changes)? {
        Ok(_) => Ok(false),
        Err(refusal) if refusal.at == wanted.at => { is_refusal(refusal.error, Some(wanted.error)) }
        Err(refusal) => is_refusal(refusal.error, None),
    }
}

fn asks(
    alloc: Global,
    file: &mut File,
    question: Question,
    wanted: Answer,
) -> Result<bool, AdfError>
    requires { IsWorking device_of file.old }
    ensures { IsWorking device_of file.new }
{
    let query = query_of(alloc, question)?;
    is_answer(file.ask(&query), wanted)
}

/// Takes a step: whether it answers as expected.
pub fn take(alloc: Global, file: &mut File, step: Step) -> Result<bool, AdfError>
    requires { IsWorking device_of file.old }
    ensures { IsWorking device_of file.new }
{
    match step {
        Step::Does(change) => does(alloc, file, change, None),
        Step::Makes(change, serial) => does(alloc, file, change, Some(serial)),
        Step::Refuses(change, error) => refuses(alloc, file, change, error),
        Step::Commit => Ok(commits(file, None)),
        Step::NoCommit(error) => Ok(commits(file, Some(error))),
        Step::Undo => {
            undoes(file);
            Ok(true)
        }
        Step::Group(changes, serials) => makes(alloc, file, changes, serials),
        Step::NoGroup(changes, at, error) => stops(alloc, file, changes, EditError { at, error }),
        Step::Asks(question, answer) => asks(alloc, file, question, answer),
        Step::DoesAt(change, there) => does_at(alloc, file, change, there),
        Step::Looks(look) => sees(alloc, file, look),
    }
}

/// Takes steps, and stops the test at one that does not answer as expected.
pub fn take_all(
    rt: &impl Abort,
    alloc: Global,
    file: &mut File,
    steps: &[Step],
) -> Result<(), AdfError>
    requires { IsWorking device_of file.old }
    ensures { IsWorking device_of file.new }
{
    for (i, step) in steps.iter().enumerate() {
        assert!(rt; take(alloc, file, *step)?, "at step {i}");
    }
    Ok(())
}
