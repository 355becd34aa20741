//! One line of a session.

ghost use Rattle.std.specs.Prelude.{◌≡◌, ◌^◌, ◌≤◌, length, IfOk, IfSome, Ok, Some};
ghost use Rattle.std.specs.Option.{option_map};
ghost use Rattle.adf_model.specs.Answers.{IsReplyTo};
ghost use Rattle.adf_model.specs.declared.tree.Reply.TheVariants as replies;
ghost use Rattle.adf_model.specs.Runs.{Makes};
ghost use Rattle.adf_model.specs.Steps as steps;
ghost use Rattle.call_script.specs.Replies.{HasSpelling, reply_line};
ghost use Rattle.session.specs.Turns as turns;
ghost use Rattle.session.specs.Turns.{HasLimit, Says, call_made, created_of, is_skipped, outcome_of, reads_data, reply_of};

use crate::calls::FileCalls;
use adf_model::{AdfError, EditError, Mode, Query, Reply, Serials, Text};
use call_script::{Answer, Call, OpenMode, read_line};
use std::alloc::Global;

/// Makes the call of one line of at most 2^20 bytes, and gives the answer to be printed: none for an
/// empty line and one that begins with `#`.
pub(crate) fn take_turn<C: FileCalls>(alloc: Global, calls: &mut C, line: &[u8]) -> Option<Answer>
    requires ready { C.is_ready calls.old }
    requires short { length line.now ≤ 2 ^ 20 }
    ensures ready { C.is_ready calls.new }
    ensures turn { (made : steps.Call) × Says line.now made (option_map reply_line result)
        × Makes (C.files calls.old) (C.devices calls.old) made (C.devices calls.new)
        (C.files calls.new) }
    ensures spelling { IfSome result HasSpelling }
{
    if skips(line) {
        return None;
    }
    match read_line(alloc, line) {
        Ok(call) => Some(answer_to(calls, &call)),
        Err(error) => Some(Answer::Refused(error)),
    }
}

// Whether a line is skipped.
fn skips(line: &[u8]) -> bool
    ensures { result ≡ is_skipped line.now }
{
    match line {
        [] => true,
        [first, ..] => *first == b'#',
    }
}

// Makes a call.
fn answer_to<C: FileCalls>(calls: &mut C, call: &Call) -> Answer
    requires ready { C.is_ready calls.old }
    requires limit { HasLimit call.now }
    ensures ready { C.is_ready calls.new }
    ensures step { (made : steps.Call) × (call_made call.now result ≡ Some made)
        × Makes (C.files calls.old) (C.devices calls.old) made (C.devices calls.new)
        (C.files calls.new) }
{
    match call {
        Call::Open {
            number,
            mode,
            limit,
        } => done(calls.open(*number, mode_of(*mode), *limit)),
        Call::Close { number } => done(calls.close(*number)),
        Call::Discard { number } => done(calls.discard(*number)),
        Call::Ask(query) => told(query, calls.ask(query)),
        Call::Edit(edits) => created(calls.edit(edits.items())),
    }
}

// The mode of an opening by a line.
fn mode_of(mode: OpenMode) -> Mode
    ensures { result ≡ turns.mode_of mode }
{
    match mode {
        OpenMode::New => Mode::New,
        OpenMode::ReadWrite => Mode::ReadWrite,
        OpenMode::ReadOnly => Mode::ReadOnly,
    }
}

// The answer to a call that tells nothing.
fn done(outcome: Result<(), AdfError>) -> Answer
    ensures { outcome_of result ≡ Some outcome }
{
    match outcome {
        Ok(()) => Answer::Done,
        Err(error) => Answer::Refused(error),
    }
}

// The answer to a query.
fn told(query: &Query, outcome: Result<Reply, AdfError>) -> Answer
    requires { IfOk outcome (IsReplyTo query.now) }
    ensures { reply_of result query.now ≡ Some outcome }
{
    match outcome {
        Ok(Reply::Bytes(bytes)) => bytes_told(query, bytes),
        Ok(Reply::Shape(shape)) => Answer::Shape(shape),
        Ok(Reply::Children(children)) => Answer::Children(children),
        Ok(Reply::LinkText { file, path }) => Answer::Link { file, path },
        Ok(Reply::Node(node)) => Answer::Node(node),
        Ok(Reply::Format(format)) => Answer::Format(format),
        Err(error) => Answer::Refused(error),
    }
}

// The answer to a query whose reply is bytes.
fn bytes_told(query: &Query, bytes: Text) -> Answer
    requires { IsReplyTo query.now (replies.Bytes bytes) }
    ensures { reply_of result query.now ≡ Some (Ok (replies.Bytes bytes)) }
{
    if is_read(query) {
        Answer::Hex(bytes)
    } else {
        Answer::Text(bytes)
    }
}

// Whether the reply to a query is data.
fn is_read(query: &Query) -> bool
    ensures { result ≡ reads_data query.now }
{
    matches!(query, Query::ReadAll { .. } | Query::ReadPart { .. })
}

// The answer to a group of edits.
fn created(outcome: Result<Serials, EditError>) -> Answer
    ensures { created_of result ≡ Some outcome }
{
    match outcome {
        Ok(nodes) => Answer::Created(nodes),
        Err(refusal) => Answer::EditRefused(refusal),
    }
}
