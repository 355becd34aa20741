//! The files of a session in the model: how links are followed, and what is answered to openings, closings and questions.

use crate::calls::{At, Named, Path, Question, Refusal, write_hex};
use crate::nodes::{File, Node, State};
use crate::tables::{NO_DATA, ROOT_LABEL, ROOT_NAME};
use std::alloc::Global;
use std::fmt::Write;

/// The names of the files, as links have them.
pub const NAMES: [&str; 2] = ["a.adf", "b.adf"];

/// Two files.
#[derive(Drop)]
pub struct Files {
    pub alloc: Global,
    pub files: Vec<File>,
}

const fn no(text: &'static str) -> Refusal {
    Refusal::Named(text)
}

/// Two closed files that hold nothing.
pub fn two_files(alloc: Global) -> Result<Files, Refusal> {
    let mut files = Vec::new(alloc);
    for _ in NAMES {
        files.push(File {
            state: State::Closed,
            next: 0,
            nodes: Vec::new(alloc),
        })?;
    }
    Ok(Files { alloc, files })
}

fn write_node(reply: &mut String, at: At) -> Result<(), Refusal> {
    let At { file, serial } = at;
    write!(reply, "ok {file}.{serial}")?;
    Ok(())
}

impl Files {
    pub fn next_in(&self, number: usize) -> u64 {
        match self.files.get(number) {
            Some(file) => file.next,
            None => 1,
        }
    }

    /// A file that is there.
    pub fn there(&self, number: usize) -> Result<&File, Refusal> {
        match self.files.get(number) {
            Some(file) if file.state != State::Discarded => Ok(file),
            _ => Err(no("E06 NoSuchFile")),
        }
    }

    /// A file that is open.
    pub fn opened(&self, number: usize) -> Result<&File, Refusal> {
        let file = self.there(number)?;
        if file.state == State::Closed {
            return Err(no("E05 NotOpen"));
        }
        Ok(file)
    }

    /// A node of a file that is open.
    pub fn node(&self, at: At) -> Result<Node, Refusal> {
        match self.opened(at.file)?.node(at.serial) {
            Some(node) => Ok(node),
            None => Err(no("E09 NoSuchNode")),
        }
    }

    fn child(&self, at: At, name: &str) -> Option<At> {
        let serial = self.opened(at.file).ok()?.child(at.serial, name)?;
        Some(At { serial, ..at })
    }

    // The root of the file that a link of this file names.
    fn linked(&self, own: usize, named: Named) -> Result<At, Refusal> {
        let file = match named {
            Named::Own => own,
            Named::Number(number) => number,
            Named::Nowhere => return Err(no("E20 LinkMissing")),
        };
        match self.opened(file) {
            Ok(_) => Ok(At { file, serial: 0 }),
            Err(_) => Err(no("E20 LinkMissing")),
        }
    }

    /// The node that links lead to from this one; `left` links may be followed.
    pub fn followed(&self, from: At, left: &mut u32) -> Result<At, Refusal> {
        let mut at = from;
        let mut names: Vec<&'static str> = Vec::new(self.alloc);
        for _ in 0..1000 {
            if let Some(target) = self.node(at)?.link {
                if *left == 0 {
                    return Err(no("E21 LinkChain"));
                }
                *left -= 1;
                at = self.linked(at.file, target.file)?;
                for name in target.names.iter().rev() {
                    names.push(*name)?;
                }
            } else if let Some(name) = names.pop() {
                at = self.child(at, name).ok_or(no("E20 LinkMissing"))?;
            } else {
                return Ok(at);
            }
        }
        Err(no("a walk without an end"))
    }

    // The node that a path leads to.
    fn found(&self, from: At, path: &Path) -> Result<At, Refusal> {
        let mut at = from;
        let mut left = 100;
        if path.is_absolute {
            at.serial = 0;
        }
        for name in path.names {
            at = self.followed(at, &mut left)?;
            at = self.child(at, *name).ok_or(no("E29 NotFound"))?;
        }
        Ok(at)
    }

    /// Writes what is answered to a question, where it is not refused.
    pub fn answer(&self, reply: &mut String, question: Question, at: At) -> Result<(), Refusal> {
        let node = self.node(at)?;
        match question {
            Question::Name => write!(reply, "ok {}", node.name)?,
            Question::Parent if at.serial == 0 => return Err(no("E10 NotAChild")),
            Question::Parent => write!(reply, "ok {}.{}", at.file, node.parent)?,
            Question::Link => {
                let target = node.link.ok_or(no("E22 NotALink"))?;
                write!(reply, "ok {}", target.spelled)?;
            }
            Question::Find(path) => write_node(reply, self.found(at, path)?)?,
            _ => {
                let reached = self.followed(at, &mut 100)?;
                self.answer_at(reply, question, reached)?;
            }
        }
        Ok(())
    }

    // The same of a question that goes through links, of the node that they lead to.
    fn answer_at(&self, reply: &mut String, question: Question, at: At) -> Result<(), Refusal> {
        let node = self.node(at)?;
        match question {
            Question::Label => write!(reply, "ok {}", node.label)?,
            Question::Shape => write!(reply, "ok {} {}", node.form.kind, node.form.dims)?,
            Question::Children => self.write_children(reply, at)?,
            Question::Read => {
                let bytes = node.bytes.ok_or(no("E15 NoData"))?;
                write!(reply, "ok ")?;
                write_hex(reply, bytes, node.form.size)?;
            }
            Question::Next => write!(reply, "ok {}.{}", at.file, self.next_in(at.file))?,
            Question::Format => write!(reply, "ok L")?,
            _ => write_node(reply, at)?,
        }
        Ok(())
    }

    fn write_children(&self, reply: &mut String, at: At) -> Result<(), Refusal> {
        let file = self.opened(at.file)?;
        let mut count = 0u64;
        for node in &file.nodes {
            if node.serial != 0 && node.parent == at.serial {
                count = count.saturating_add(1);
            }
        }
        write!(reply, "ok {count}")?;
        for node in &file.nodes {
            if node.serial != 0 && node.parent == at.serial {
                write!(reply, " {}.{} {}", at.file, node.serial, node.name)?;
            }
        }
        Ok(())
    }

    /// Opens a file: a fresh one, or as it stands.
    pub fn open(&mut self, number: usize, is_new: bool, state: State) -> Result<(), Refusal> {
        if self.there(number)?.state != State::Closed {
            return Err(no("E07 AlreadyOpen"));
        }
        let alloc = self.alloc;
        let Some(file) = self.files.get_mut(number) else {
            return Err(no("E06 NoSuchFile"));
        };
        match (is_new, file.nodes.is_empty()) {
            (true, true) => {
                file.add(Node {
                    serial: 0,
                    parent: 0,
                    name: ROOT_NAME,
                    label: ROOT_LABEL,
                    form: &NO_DATA,
                    bytes: None,
                    link: None,
                })?;
            }
            (true, false) => return Err(no("E25 NotEmpty")),
            (false, true) => return Err(no("E24 Layout L01 0")),
            (false, false) => file.number(alloc)?,
        }
        file.state = state;
        Ok(())
    }

    /// Closes a file.
    pub fn close(&mut self, number: usize) -> Result<(), Refusal> {
        self.opened(number)?;
        self.set_state(number, State::Closed)
    }

    /// Takes a closed file off the list.
    pub fn discard(&mut self, number: usize) -> Result<(), Refusal> {
        if self.there(number)?.state != State::Closed {
            return Err(no("E07 AlreadyOpen"));
        }
        self.set_state(number, State::Discarded)
    }

    fn set_state(&mut self, number: usize, state: State) -> Result<(), Refusal> {
        if let Some(file) = self.files.get_mut(number) {
            file.state = state;
        }
        Ok(())
    }
}
