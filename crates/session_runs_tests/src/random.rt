//! A session of random lines of a fixed seed: each reply is the one of the model.

use crate::calls::{At, Change, Question, Refusal, write_change, write_question};
use crate::draws::Draws;
use crate::files::{Files, two_files};
use crate::nodes::State;
use crate::runs::{Fault, run_lines};
use crate::tables::TO_ITSELF;
use std::alloc::Global;
use std::fmt::Write;
use std::test::Fail;
use tool_commands::Status;

// The lines of a session, and the replies that the model gives to them.
#[derive(Drop)]
struct Script {
    lines: String,
    replies: String,
}

static QUESTIONS: [Question; 10] = [
    Question::Name,
    Question::Label,
    Question::Shape,
    Question::Children,
    Question::Link,
    Question::Read,
    Question::Next,
    Question::Parent,
    Question::Target,
    Question::Format,
];

impl Script {
    fn refuse(&mut self, refusal: Refusal) -> Result<(), Refusal> {
        let replies = &mut self.replies;
        match refusal {
            Refusal::Named(text) => replies.push_str(text)?,
            Refusal::WrongLength(want, got) => write!(replies, "E17 WrongLength {want} {got}")?,
            Refusal::Memory => return Err(Refusal::Memory),
        }
        Ok(())
    }

    // Ends the line of a call, and its reply: `ok`, or how it is refused.
    fn end_done(&mut self, done: Result<(), Refusal>) -> Result<(), Refusal> {
        match done {
            Ok(()) => self.replies.push_str("ok")?,
            Err(refusal) => self.refuse(refusal)?,
        }
        self.end()
    }

    fn end(&mut self) -> Result<(), Refusal> {
        self.lines.push_str("\n")?;
        self.replies.push_str("\n")?;
        Ok(())
    }

    fn open(&mut self, files: &mut Files, number: usize, mode: u64) -> Result<(), Refusal> {
        let (word, is_new, state) = match mode {
            0 => ("new", true, State::ReadWrite),
            1 => ("ro", false, State::ReadOnly),
            _ => ("rw", false, State::ReadWrite),
        };
        let lines = &mut self.lines;
        write!(lines, "open {number} {word} 1024")?;
        self.end_done(files.open(number, is_new, state))
    }

    fn close(&mut self, files: &mut Files, number: usize) -> Result<(), Refusal> {
        let lines = &mut self.lines;
        write!(lines, "close {number}")?;
        self.end_done(files.close(number))
    }

    fn discard(&mut self, files: &mut Files, number: usize) -> Result<(), Refusal> {
        let lines = &mut self.lines;
        write!(lines, "discard {number}")?;
        self.end_done(files.discard(number))
    }

    fn ask(&mut self, files: &Files, question: Question, node: At) -> Result<(), Refusal> {
        write_question(&mut self.lines, question, node)?;
        if let Err(refusal) = files.answer(&mut self.replies, question, node) {
            self.refuse(refusal)?;
        }
        self.end()
    }

    // All questions but that for a path, of each node of a file.
    fn ask_all(&mut self, files: &Files, file: usize) -> Result<(), Refusal> {
        for serial in 0..files.next_in(file) {
            for question in &QUESTIONS {
                self.ask(files, *question, At { file, serial })?;
            }
        }
        Ok(())
    }

    fn edit(&mut self, files: &mut Files, changes: &[Change]) -> Result<(), Refusal> {
        let lines = &mut self.lines;
        lines.push_str("edit")?;
        for (at, change) in changes.iter().enumerate() {
            lines.push_str(if at > 0 { " ; " } else { " " })?;
            write_change(lines, *change)?;
        }
        match files.edit_all(changes)? {
            Ok(made) => self.tell_made(&made)?,
            Err((at, refusal)) => {
                self.refuse(refusal)?;
                let replies = &mut self.replies;
                write!(replies, " at {at}")?;
            }
        }
        self.end()
    }

    fn tell_made(&mut self, made: &[At]) -> Result<(), Refusal> {
        let replies = &mut self.replies;
        replies.push_str("ok")?;
        for At { file, serial } in made {
            write!(replies, " {file}.{serial}")?;
        }
        Ok(())
    }

    // Makes the first node of a fresh file a link to itself, and asks where it leads.
    fn link_to_itself(&mut self, files: &mut Files, file: usize) -> Result<(), Refusal> {
        let root = At { file, serial: 0 };
        self.edit(files, &[Change::Link(root, "C", &TO_ITSELF)])?;
        self.ask(files, Question::Target, At { file, serial: 1 })
    }

    fn draw(&mut self, draws: &mut Draws, files: &mut Files) -> Result<(), Refusal> {
        match draws.below(80) {
            0 => self.close(files, draws.file()),
            1..=5 => self.open(files, draws.file(), draws.below(4)),
            6..=43 => {
                let changes = draws.group(files.alloc, files)?;
                self.edit(files, &changes)
            }
            _ => {
                let (question, node) = draws.question(files);
                self.ask(files, question, node)
            }
        }
    }
}

// An empty file is refused, both files are made fresh, the second one gets a link to itself, then random lines follow;
// towards the end the second file is discarded, and at last all nodes of the first one are asked for, as they were and
// numbered anew.
fn script_of(alloc: Global, seed: u64) -> Result<Script, Refusal> {
    let mut files = two_files(alloc)?;
    let mut draws = Draws { state: seed };
    let mut script = Script {
        lines: String::new(alloc),
        replies: String::new(alloc),
    };
    for (number, mode) in [(1, 2), (0, 0), (1, 0)] {
        script.open(&mut files, number, mode)?;
    }
    script.link_to_itself(&mut files, 1)?;
    for _ in 0..400 {
        script.draw(&mut draws, &mut files)?;
    }
    script.close(&mut files, 1)?;
    script.discard(&mut files, 1)?;
    for _ in 0..60 {
        script.draw(&mut draws, &mut files)?;
    }
    script.ask_all(&files, 0)?;
    script.close(&mut files, 0)?;
    script.open(&mut files, 0, 1)?;
    script.ask_all(&files, 0)?;
    Ok(script)
}

// The first line that has another reply than the model's, with both: nothing where there is none.
fn wrong_line(alloc: Global, script: &Script, printed: &[u8]) -> Result<String, Fail> {
    let printed = std::str::from_utf8(printed)?;
    let mut replies = script.replies.as_str().split("\n");
    let mut given = printed.split("\n");
    for line in script.lines.as_str().split("\n") {
        let reply = replies.next().unwrap_or("");
        let got = given.next().unwrap_or("no reply");
        if got != reply {
            return Ok(format!(in alloc; "{line}: {got}, and not {reply}")?);
        }
    }
    if given.next().is_some() {
        return Ok(String::from_str(alloc, "more replies than calls")?);
    }
    Ok(String::new(alloc))
}

static SEEDS: [u64; 4] = [1, 20261202, 7777777, 31415926535];

// Refusals that come somewhere among the replies, so that the lines are known to reach them.
static REACHED: [&str; 22] = [
    "E05", "E06", "E07", "E08", "E09", "E10", "E11", "E12", "E13", "E14", "E15", "E17", "E18",
    "E20", "E21", "E22", "E23", "E24", "E25", "E26", "E29", "E32",
];

#[test]
fn random_lines_are_answered_as_the_model_answers(rt: HostRuntime) -> Result<(), Fail> {
    let alloc = rt.alloc();
    let mut replies = String::new(alloc);
    for seed in &SEEDS {
        let script = script_of(alloc, *seed)?;
        let outcome = run_lines(alloc, script.lines.as_bytes(), Fault::Nothing)?;
        assert!(rt; outcome.status == Status::Done, "seed {seed}");
        let wrong = wrong_line(alloc, &script, outcome.output.taken())?;
        assert!(rt; wrong.is_empty(), "seed {seed}: {wrong}");
        replies.push_str(script.replies.as_str())?;
    }
    for refusal in &REACHED {
        assert!(rt; replies.as_str().contains(*refusal), "{refusal}");
    }
    Ok(())
}
