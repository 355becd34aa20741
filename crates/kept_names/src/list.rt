//! The children of one node, as they are kept.

ghost use Rattle.std.specs.Prelude.{◌≡◌, ◌+◌, ◌++◌, ◌∷◌, [], ◌≤◌, ◌<◌, ℕ, List, None, Some, true, false, length, slice_get, IfSome, option_map};
ghost use Rattle.kept_names.specs.Lists.{serial_of, position_of, renamed, without};

use indexmap::IndexMap;
use std::alloc::Global;
use std::marker::Model;

/// The children of a node: name fields, each a name and spaces behind it, with serials, in the order of the node's table.
#[derive(Drop)]
pub struct Listed {
    names: IndexMap<[u8; 32], u64>,
}

impl Model for Listed {
    ghost Value = { List (List ℕ × ℕ) };

    ghost view = { λ l. l.names.entries };
}

impl Listed {
    /// No children.
    pub fn new(alloc: Global) -> Listed
        ensures { result ≡ [] }
    {
        Listed {
            names: IndexMap::new(alloc),
        }
    }

    /// How many children there are.
    pub fn len(&self) -> usize
        ensures { result ≡ length self.now }
    {
        self.names.len()
    }

    /// The child at a position: its name field and its serial.
    pub fn get(&self, position: usize) -> Option<([u8; 32], u64)>
        ensures { result ≡ slice_get self.now position }
    {
        match self.names.get_index(position) {
            Some((name, serial)) => Some((*name, *serial)),
            None => None,
        }
    }

    /// The serial of the child of a name.
    pub fn find(&self, name: &[u8; 32]) -> Option<u64>
        ensures { result ≡ serial_of name.now self.now }
    {
        self.names.get(name).copied()
    }

    /// The position of the child of a name.
    pub fn position(&self, name: &[u8; 32]) -> Option<usize>
        ensures value { result ≡ position_of name.now self.now }
        ensures within { IfSome result (λ i. i < length self.now) }
    {
        self.names.get_index_of(name)
    }

    /// Puts a child behind the others, where none has its name; and tells whether it did. It does not where memory is wanting.
    pub fn add(&mut self, name: [u8; 32], serial: u64) -> bool
        ensures added { result ≡ true → self.new ≡ self.old ++ (name, serial) ∷ [] }
        ensures left { result ≡ false → self.new ≡ self.old }
    {
        if self.names.contains_key(&name) {
            return false;
        }
        match self.names.insert(name, serial) {
            Ok(_) => {}
            Err(_) => return false,
        }
        true
    }

    /// Gives the child of a name another, where none has that, at its position; and tells whether it did.
    pub(crate) fn rename(&mut self, name: &[u8; 32], to: [u8; 32]) -> bool
        ensures renamed { result ≡ true → self.new ≡ renamed name.now to self.old }
        ensures long { length self.new ≡ length self.old }
    {
        let (position, serial) = match self.names.get_full(name) {
            Some((position, _, serial)) => (position, *serial),
            None => return true,
        };
        if self.names.contains_key(&to) {
            return false;
        }
        match self.names.insert(to, serial) {
            Ok(_) => {}
            Err(_) => return false,
        }
        self.names.swap_indices(position, self.names.len() - 1);
        self.names.pop();
        true
    }

    /// Takes the child of a name out.
    pub(crate) fn remove(&mut self, name: &[u8; 32])
        ensures list { self.new ≡ without name.now self.old }
        ensures few { length self.new ≤ length self.old }
    {
        self.names.shift_remove(name);
    }
}
