//! The lists of all nodes that are kept.

ghost use Rattle.std.specs.Prelude.{◌≡◌, ◌++◌, ◌∷◌, [], ◌≤◌, ◌<◌, ◌+◌, ◌^◌, ℕ, List, None, Some, true, false, length, option_map, option_copied, nat_eq, nat_lt, IfSome, ◌⊎◌, ◌-◌};
ghost use Rattle.std.specs.HashMap.{values};
ghost use Rattle.std.specs.List.{sum_by};
ghost use Rattle.kept_names.specs.Kept.{Children, NamesState, AreKept, StaysTied, Alters, kept_at, list_at, total, changed};
ghost use Rattle.kept_names.specs.Lists.{renamed, without};

use crate::list::Listed;
use std::alloc::Global;
use std::collections::HashMap;
use std::marker::Model;

/// The most names that are kept.
pub const MOST_NAMES: usize = 1 << 20;

/// What is kept of a node: its children, and the number of the group that changed them last.
#[derive(Drop)]
pub struct Kept {
    list: Listed,
    group: u64,
}

/// Lists of children by the serials of their nodes, at most 2^20 names in all.
///
/// A list that is kept is that of the node's children. Before a list goes beyond the bound all are dropped, and a list is dropped
/// where it finds no memory to grow, or where no child is left, so that there are never more lists than names. An undo drops the
/// lists that were changed since the last accepted group.
#[derive(Drop)]
pub struct Names {
    lists: HashMap<u64, Kept>,
    count: usize,
    group: u64,
}

impl Model for Names {
    ghost use Rattle.std.specs.Prelude.{◌≡◌, ◌≤◌, ◌^◌};
    ghost use Rattle.kept_names.specs.Kept.{NamesState, total};

    ghost Value = { NamesState };

    ghost view = { λ n. record { lists = n.lists.entries; group = n.group } };

    ghost invariant = { λ n. (n.count ≡ total (record { lists = n.lists.entries; group = n.group }))
        × (n.count ≤ 2 ^ 20) };
}

impl Names {
    /// No lists.
    pub fn new(alloc: Global) -> Names
        ensures { result ≡ record { lists = []; group = 0 } }
    {
        Names {
            lists: HashMap::new(alloc),
            count: 0,
            group: 0,
        }
    }

    /// How many names are kept.
    pub fn len(&self) -> usize
        ensures value { result ≡ total self.now }
        ensures few { result ≤ 2 ^ 20 }
    {
        self.count
    }

    /// The children of a node, if they are kept.
    pub fn list(&self, node: u64) -> Option<&Listed>
        ensures { option_copied result ≡ list_at self.now node }
    {
        match self.lists.get(&node) {
            Some(kept) => Some(&kept.list),
            None => None,
        }
    }

    // Takes the list of a node out.
    fn take(&mut self, node: u64) -> Option<Listed>
        ensures list { result ≡ list_at self.old node }
        ensures group { self.new.group ≡ self.old.group }
        ensures others { (q : ℕ) → nat_eq node q ≡ false → kept_at self.new q ≡ kept_at self.old q }
        ensures this { kept_at self.new node ≡ None }
        ensures fewer { IfSome result (λ list. total self.new + length list ≡ total self.old) }
        ensures most { total self.new ≤ total self.old }
        ensures few { total self.old ≤ 2 ^ 20 }
    {
        let kept = match self.lists.remove(&node) {
            Some(kept) => kept,
            None => return None,
        };
        self.count -= kept.list.len();
        Some(kept.list)
    }

    // Keeps the list of a node of which none is kept, where there is memory.
    fn put(&mut self, node: u64, list: Listed)
        requires none { kept_at self.old node ≡ None }
        requires few { total self.old + length list ≤ 2 ^ 20 }
        ensures { Alters node (Some list) self.old self.new }
    {
        let many = list.len();
        let group = self.group;
        match self.lists.insert(node, Kept { list, group }) {
            Ok(_) => {}
            Err(_) => return,
        }
        self.count += many;
    }

    /// Drops all lists.
    pub fn clear(&mut self)
        ensures { self.new ≡ record { lists = []; group = self.old.group } }
    {
        if self.lists.is_empty() {
            return;
        }
        self.lists.clear();
        self.count = 0;
    }

    // Drops all lists where so many names more would be too many.
    fn make_room(&mut self, many: usize)
        requires { many ≤ 2 ^ 20 }
        ensures room { total self.new + many ≤ 2 ^ 20 }
        ensures kept { total self.old + many ≤ 2 ^ 20 → self.new ≡ self.old }
        ensures none { (self.new ≡ self.old)
            ⊎ (self.new ≡ record { lists = []; group = self.old.group }) }
    {
        if many > MOST_NAMES - self.count {
            self.clear();
        }
    }

    /// Drops the list of a node.
    pub fn forget(&mut self, node: u64)
        ensures kept { Alters node None self.old self.new }
        ensures tied { (list : List (List ℕ × ℕ)) → StaysTied (λ now. changed now node list)
            self.old self.new }
    {
        self.take(node);
    }

    /// Keeps the list of a node's children as they were read, where there are any. Where the names would be too many, all others are
    /// dropped before.
    pub fn keep(&mut self, node: u64, list: Listed)
        ensures kept { total self.old + length list ≤ 2 ^ 20
            → Alters node (Some list) self.old self.new }
        ensures none { list ≡ [] → kept_at self.new node ≡ None }
        ensures tied { (now was : Children) → AreKept self.old now was → list ≡ now node
            → AreKept self.new now was }
    {
        self.take(node);
        let many = list.len();
        if many == 0 || many > MOST_NAMES {
            return;
        }
        self.make_room(many);
        self.put(node, list);
    }

    /// Puts a child behind the others of a node.
    pub fn add(&mut self, node: u64, name: [u8; 32], serial: u64)
        ensures kept { total self.old < 2 ^ 20
            → Alters node (option_map (λ l. l ++ (name, serial) ∷ []) (list_at self.old node))
            self.old self.new }
        ensures tied { StaysTied (λ now. changed now node (now node ++ (name, serial) ∷ []))
            self.old self.new }
    {
        if self.count == MOST_NAMES {
            self.clear();
            return;
        }
        let mut list = match self.take(node) {
            Some(list) => list,
            None => return,
        };
        if list.add(name, serial) {
            self.put(node, list);
        }
    }

    /// Gives the child of a name another.
    pub fn rename(&mut self, node: u64, name: &[u8; 32], to: [u8; 32])
        ensures kept { Alters node (option_map (renamed name.now to) (list_at self.old node))
            self.old self.new }
        ensures tied { StaysTied (λ now. changed now node (renamed name.now to (now node)))
            self.old self.new }
    {
        let mut list = match self.take(node) {
            Some(list) => list,
            None => return,
        };
        if list.rename(name, to) {
            self.put(node, list);
        }
    }

    /// Takes the child of a name out of the list of a node.
    pub fn remove(&mut self, node: u64, name: &[u8; 32])
        ensures kept { Alters node (option_map (without name.now) (list_at self.old node))
            self.old self.new }
        ensures none { option_map (without name.now) (list_at self.old node) ≡ Some []
            → kept_at self.new node ≡ None }
        ensures tied { StaysTied (λ now. changed now node (without name.now (now node)))
            self.old self.new }
    {
        let mut list = match self.take(node) {
            Some(list) => list,
            None => return,
        };
        list.remove(name);
        if list.len() == 0 {
            return;
        }
        self.put(node, list);
    }

    /// The edits of the group under way are accepted: the lists are those of an accepted state.
    pub fn accept(&mut self)
        ensures tied { (now was : Children) → AreKept self.old now was → AreKept self.new now now }
        ensures kept { self.old.group < 2 ^ 64 - 1 → self.new.lists ≡ self.old.lists }
    {
        if self.group == u64::MAX {
            self.clear();
        } else {
            self.group += 1;
        }
    }

    /// The edits of the group under way are undone: the lists that they changed are dropped.
    pub fn undo(&mut self)
        ensures tied { (now was : Children) → AreKept self.old now was → AreKept self.new was was }
        ensures kept { (node : ℕ) (kept : Kept) → kept_at self.old node ≡ Some kept
            → nat_lt kept.group self.old.group ≡ true → kept_at self.new node ≡ Some kept }
    {
        let group = self.group;
        self.lists.retain(
            |_node: &u64, kept: &mut Kept| -> bool
                ensures { (result ≡ nat_lt kept.old.group group) × (kept.new ≡ kept.old) }
            { kept.group < group },
        );
        self.count = counted(&self.lists);
    }
}

// How many names some lists have, at most 2^20.
fn counted(lists: &HashMap<u64, Kept>) -> usize
    requires { sum_by (λ k. length k.list) (values lists.now) ≤ 2 ^ 20 }
    ensures { result ≡ sum_by (λ k. length k.list) (values lists.now) }
{
    let mut count = 0;
    for kept in lists.values() {
        count += kept.list.len();
    }
    count
}
