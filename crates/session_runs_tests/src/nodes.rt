//! One file of the model: a list of nodes, in which the children of a node stand in their order.

use crate::calls::{Form, Refusal, Target};
use std::alloc::Global;

/// A node. Of its data the bytes behind their size are zero.
#[derive(Clone, Copy)]
pub struct Node {
    pub serial: u64,
    pub parent: u64,
    pub name: &'static str,
    pub label: &'static str,
    pub form: &'static Form,
    pub bytes: Option<[u8; 8]>,
    pub link: Option<&'static Target>,
}

/// Whether a file is open, and for edits too.
#[derive(Clone, Copy, PartialEq, Eq)]
pub enum State {
    Closed,
    ReadOnly,
    ReadWrite,
    Discarded,
}

/// A file. It has no node where it holds nothing, and else begins with its root, of the serial 0.
#[derive(Drop)]
pub struct File {
    pub state: State,
    pub next: u64,
    pub nodes: Vec<Node>,
}

impl File {
    pub fn copied(&self, alloc: Global) -> Result<File, Refusal> {
        Ok(File {
            state: self.state,
            next: self.next,
            nodes: self.nodes.as_slice().to_vec(alloc)?,
        })
    }

    pub fn node(&self, serial: u64) -> Option<Node> {
        for node in &self.nodes {
            if node.serial == serial {
                return Some(*node);
            }
        }
        None
    }

    /// The child of this name.
    pub fn child(&self, parent: u64, name: &str) -> Option<u64> {
        for node in &self.nodes {
            if node.serial != 0 && node.parent == parent && node.name == name {
                return Some(node.serial);
            }
        }
        None
    }

    /// Whether a node is the other one or stands below it.
    pub fn is_within(&self, serial: u64, other: u64) -> bool {
        let mut at = serial;
        for _ in 0..self.nodes.len() {
            if at == other {
                return true;
            }
            match self.node(at) {
                Some(node) if at != 0 => at = node.parent,
                _ => return false,
            }
        }
        false
    }

    /// Puts a node in the place of the one of its serial.
    pub fn set(&mut self, changed: Node) {
        for node in self.nodes.iter_mut() {
            if node.serial == changed.serial {
                *node = changed;
            }
        }
    }

    /// Puts a new node behind all others.
    pub fn add(&mut self, added: Node) -> Result<u64, Refusal> {
        let serial = self.next;
        self.nodes.push(Node { serial, ..added })?;
        self.next = serial.saturating_add(1);
        Ok(serial)
    }

    /// Takes out a node and all below it.
    pub fn cut(&mut self, alloc: Global, serial: u64) -> Result<(), Refusal> {
        let mut kept = Vec::new(alloc);
        for node in &self.nodes {
            if !self.is_within(node.serial, serial) {
                kept.push(*node)?;
            }
        }
        self.nodes = kept;
        Ok(())
    }

    /// Puts a node behind all others, below this parent.
    pub fn move_last(&mut self, alloc: Global, moved: Node, parent: u64) -> Result<(), Refusal> {
        let mut kept = Vec::new(alloc);
        for node in &self.nodes {
            if node.serial != moved.serial {
                kept.push(*node)?;
            }
        }
        kept.push(Node { parent, ..moved })?;
        self.nodes = kept;
        Ok(())
    }

    /// Numbers the nodes anew, each before those below it.
    pub fn number(&mut self, alloc: Global) -> Result<(), Refusal> {
        let mut numbered = Vec::new(alloc);
        let mut waiting = Vec::new(alloc);
        if let Some(root) = self.node(0) {
            waiting.push((root, 0))?;
        }
        for serial in 0..self.nodes.len() as u64 {
            let Some((node, parent)) = waiting.pop() else {
                break;
            };
            numbered.push(Node {
                serial,
                parent,
                ..node
            })?;
            for child in self.nodes.iter().rev() {
                if child.serial != 0 && child.parent == node.serial {
                    waiting.push((*child, serial))?;
                }
            }
        }
        self.next = numbered.len() as u64;
        self.nodes = numbered;
        Ok(())
    }
}
