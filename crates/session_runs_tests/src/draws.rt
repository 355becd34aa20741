//! Calls that are drawn at random, from a seed.

use crate::calls::{At, Change, Form, Question};
use crate::files::Files;
use crate::tables::{FORMS, LABELS, NODE_NAMES, PATHS, TARGETS};
use std::alloc::{AllocError, Global};

/// Numbers that follow from a seed.
#[derive(Drop)]
pub struct Draws {
    pub state: u64,
}

impl Draws {
    /// A number below this one, which is not 0.
    pub fn below(&mut self, count: u64) -> u64 {
        self.state = self
            .state
            .wrapping_mul(6364136223846793005)
            .wrapping_add(1442695040888963407);
        if count == 0 {
            return 0;
        }
        (self.state >> 33) % count
    }

    fn text(&mut self, table: &'static [&'static str]) -> &'static str {
        let at = self.below(table.len() as u64) as usize;
        match table.get(at) {
            Some(text) => *text,
            None => "A",
        }
    }

    fn form(&mut self) -> &'static Form {
        let at = self.below(FORMS.len() as u64) as usize;
        FORMS.get(at).unwrap_or(&FORMS[0])
    }

    /// The number of a file, seldom of none.
    pub fn file(&mut self) -> usize {
        match self.below(25) {
            0 => 2,
            drawn if drawn % 2 == 0 => 1,
            _ => 0,
        }
    }

    // A node that was drawn in its file, seldom one that is not there.
    fn node(&mut self, files: &Files) -> At {
        let file = self.file();
        let drawn = files.next_in(file).saturating_add(1);
        let serial = match self.below(6) {
            0 => 0,
            _ => self.below(drawn),
        };
        At { file, serial }
    }

    fn bytes(&mut self) -> [u8; 8] {
        let mut bytes = [0; 8];
        for byte in bytes.iter_mut() {
            *byte = (self.below(256) & 0xff) as u8;
        }
        bytes
    }

    fn change(&mut self, files: &Files) -> Change {
        let node = self.node(files);
        match self.below(20) {
            0..=6 => Change::Create(node, self.text(&NODE_NAMES), self.text(&LABELS)),
            7 => Change::Delete(node),
            8 | 9 => Change::Rename(node, self.text(&NODE_NAMES)),
            10 | 11 => Change::Move(node, self.node(files)),
            12 => Change::Move(node, node),
            13 => Change::Label(node, self.text(&LABELS)),
            14 | 15 => Change::Dims(node, self.form()),
            16 => Change::Put(node, self.bytes(), 6),
            _ => {
                let at = self.below(TARGETS.len() as u64) as usize;
                let target = TARGETS.get(at).unwrap_or(&TARGETS[0]);
                Change::Link(node, self.text(&NODE_NAMES), target)
            }
        }
    }

    /// A group of edits: one edit, data with their shape, or up to four edits.
    pub fn group(&mut self, alloc: Global, files: &Files) -> Result<Vec<Change>, AllocError> {
        let mut changes = Vec::new(alloc);
        let drawn = self.below(8);
        if drawn == 0 {
            let node = self.node(files);
            let form = self.form();
            changes.push(Change::Dims(node, form))?;
            changes.push(Change::Put(node, self.bytes(), form.size.max(1)))?;
        }
        let count = match drawn {
            0 => 0,
            1 | 2 | 3 => self.below(4).saturating_add(1),
            _ => 1,
        };
        for _ in 0..count {
            changes.push(self.change(files))?;
        }
        Ok(changes)
    }

    /// A question of a node.
    pub fn question(&mut self, files: &Files) -> (Question, At) {
        let question = match self.below(16) {
            0 => Question::Name,
            1 => Question::Label,
            2 => Question::Shape,
            3 | 4 => Question::Children,
            5 => Question::Link,
            6 | 7 => Question::Read,
            8 => Question::Next,
            9 => Question::Parent,
            10 | 11 => Question::Target,
            12 => Question::Format,
            _ => {
                let at = self.below(PATHS.len() as u64) as usize;
                Question::Find(PATHS.get(at).unwrap_or(&PATHS[0]))
            }
        };
        (question, self.node(files))
    }
}
