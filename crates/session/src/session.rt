//! The lines of a session, one after another.

ghost use Rattle.std.specs.Prelude.{◌≡◌, ◌^◌, ◌≤◌, ◌<◌, ◌+◌, ◌-◌, ◌∷◌, ℕ, List, [], length, OnOk, IfErr, IfOk, IfSome, IsOk, Err, Some};
ghost use Rattle.std.specs.Io.KnownBytes.{Appends, Consumes, IsAtEnd, prepend_known};
ghost use Rattle.std.specs.Option.{option_map};
ghost use Rattle.call_script.specs.Replies.{HasSpelling, reply_line};
ghost use Rattle.cg_io.specs.Cause.{Rose};
ghost use Rattle.session.specs.Input.{Uses};
ghost use Rattle.session.specs.Printed.{AppendsPart};
ghost use Rattle.session.specs.Turns.{printed_reply};
ghost use Rattle.session.specs.Session.{Scene, HasGoneOn, HasRun, IsBounded, IsCut, ending};

use crate::calls::FileCalls;
use crate::output::print;
use crate::reader::{Found, LineReader, Stopped};
use crate::turns::take_turn;
use adf_model::AdfError;
use call_script::{Answer, reply_text};
use cg_io::{Sink, Source};
use std::alloc::Global;

/// How a session ends.
#[derive(Clone, Copy, Debug, PartialEq, Eq)]
pub enum Ended {
    /// The input was read to its end.
    Done,
    /// A call of the input failed.
    SourceFault,
    /// A call of the output failed.
    SinkFault,
    /// No memory was left to hold a line or to spell a reply.
    Memory,
    /// 2^40 bytes of the input were taken.
    TooLong,
}

/// Takes the lines of the input, makes their calls, and prints one reply line for each as it goes:
/// none for an empty line and one that begins with `#`. Lines that are no call lines, or longer than
/// 2^20 bytes, are answered, and the session goes on. No file is closed at the end.
pub fn run_session<C: FileCalls, I: Source, O: Sink>(
    alloc: Global,
    calls: &mut C,
    input: &mut I,
    output: &mut O,
) -> Ended
    requires { C.is_ready calls.old }
    ensures ready { C.is_ready calls.new }
    ensures run { HasRun result
        (record {
          files = C.files calls.old;
          devices = C.devices calls.old;
          text = I.left input.old;
          taken = O.taken output.old;
        })
        (record {
          files = C.files calls.new;
          devices = C.devices calls.new;
          text = I.left input.new;
          taken = O.taken output.new;
        }) }
    ensures bound { (bytes : List ℕ) × Consumes (I.left input.old) (I.left input.new) bytes
        × IsBounded result (length bytes) }
    ensures end { result ≡ Ended.Done → IsAtEnd (I.left input.new) }
    ensures source { result ≡ Ended.SourceFault → Rose (I.faults input.old) (I.faults input.new) }
    ensures sink { result ≡ Ended.SinkFault → Rose (O.faults output.old) (O.faults output.new) }
    ensures source_later { I.faults input.old ≤ I.faults input.new }
    ensures sink_later { O.faults output.old ≤ O.faults output.new }
{
    let mut reader = LineReader::new(alloc);
    'turns: loop {
        if let Err(ended) = go_on(alloc, calls, &mut reader, input, output) {
            return ended;
        }
    }
}

// Takes one line, or says how the session ends.
fn go_on<C: FileCalls, I: Source, O: Sink>(
    alloc: Global,
    calls: &mut C,
    reader: &mut LineReader,
    input: &mut I,
    output: &mut O,
) -> Result<(), Ended>
    requires { C.is_ready calls.old }
    ensures ready { C.is_ready calls.new }
    ensures one { OnOk result (HasGoneOn
        (record {
          files = C.files calls.old;
          devices = C.devices calls.old;
          text = prepend_known reader.old.input.pending (I.left input.old);
          taken = O.taken output.old;
        })
        (record {
          files = C.files calls.new;
          devices = C.devices calls.new;
          text = prepend_known reader.new.input.pending (I.left input.new);
          taken = O.taken output.new;
        })) }
    ensures run { IfErr result (λ how. HasRun how
        (record {
          files = C.files calls.old;
          devices = C.devices calls.old;
          text = prepend_known reader.old.input.pending (I.left input.old);
          taken = O.taken output.old;
        })
        (record {
          files = C.files calls.new;
          devices = C.devices calls.new;
          text = I.left input.new;
          taken = O.taken output.new;
        })) }
    ensures uses { (used : List ℕ)
        × Uses reader.old.input reader.new.input (I.left input.old) (I.left input.new) used
        × (IsOk result → 0 < length used) }
    ensures bound { IfErr result (λ how. IsBounded how reader.new.input.taken) }
    ensures limit { reader.new.input.taken ≤ 2 ^ 40 }
    ensures end { result ≡ Err Ended.Done → IsAtEnd (I.left input.new) }
    ensures source { result ≡ Err Ended.SourceFault
        → Rose (I.faults input.old) (I.faults input.new) }
    ensures sink { result ≡ Err Ended.SinkFault → Rose (O.faults output.old) (O.faults output.new) }
    ensures source_later { I.faults input.old ≤ I.faults input.new }
    ensures sink_later { O.faults output.old ≤ O.faults output.new }
{
    match reader.next(input) {
        Ok(Found::Line) => {
            let answer = take_turn(alloc, calls, reader.line());
            reply(alloc, output, answer)
        }
        Ok(Found::TooLong) => reply(alloc, output, Some(Answer::Refused(AdfError::LineTooLong))),
        Ok(Found::End) => Err(Ended::Done),
        Err(why) => Err(ended_by(why)),
    }
}

fn ended_by(why: Stopped) -> Ended
    ensures { result ≡ ending why }
{
    match why {
        Stopped::Source => Ended::SourceFault,
        Stopped::Limit => Ended::TooLong,
        Stopped::Memory => Ended::Memory,
    }
}

// Prints the reply line of an answer, where there is one.
fn reply<O: Sink>(alloc: Global, output: &mut O, answer: Option<Answer>) -> Result<(), Ended>
    requires { IfSome answer HasSpelling }
    ensures whole { OnOk result (Appends (O.taken output.old) (O.taken output.new)
        (printed_reply (option_map reply_line answer))) }
    ensures part { IfErr result (λ how. IsCut how
        × AppendsPart (O.taken output.old) (O.taken output.new)
        (printed_reply (option_map reply_line answer))) }
    ensures sink { result ≡ Err Ended.SinkFault → Rose (O.faults output.old) (O.faults output.new) }
    ensures later { O.faults output.old ≤ O.faults output.new }
{
    match answer {
        Some(answer) => {
            let line = spell_line(alloc, &answer)?;
            print_line(output, &line)
        }
        None => Ok(()),
    }
}

// The reply line of an answer, with its line feed.
fn spell_line(alloc: Global, answer: &Answer) -> Result<Vec<u8>, Ended>
    requires { HasSpelling answer.now }
    ensures line { IfOk result (λ line. line.items ≡ printed_reply (Some (reply_line answer.now))) }
    ensures memory { IfErr result (λ how. how ≡ Ended.Memory) }
{
    let mut line = reply_text(alloc, answer)
        .map_err(|_| Ended::Memory)?
        .into_items();
    line.push(b'\n').map_err(|_| Ended::Memory)?;
    Ok(line)
}

fn print_line<O: Sink>(output: &mut O, line: &[u8]) -> Result<(), Ended>
    ensures whole { OnOk result (Appends (O.taken output.old) (O.taken output.new) line.now) }
    ensures part { IfErr result (λ how. (how ≡ Ended.SinkFault)
        × AppendsPart (O.taken output.old) (O.taken output.new) line.now) }
    ensures sink { IfErr result (λ how. Rose (O.faults output.old) (O.faults output.new)) }
    ensures later { O.faults output.old ≤ O.faults output.new }
{
    match print(output, line) {
        Ok(()) => Ok(()),
        Err(_) => Err(Ended::SinkFault),
    }
}
