//! The children of a node that wait.

ghost use Rattle.std.specs.Prelude.{◌≡◌, ◌<◌, ◌≤◌, ◌+◌, [], ◌∷◌, length, MatchOption, List};
ghost use Rattle.adf_model.specs.declared.tree.Child.{Child};
ghost use Rattle.cgns_check.specs.Levels.{advanced, stop_of};

use adf_model::{Child, Children, NodeId};
use std::marker::Model;

/// Where a node stands that a walk comes to: the followed parent, base and zone above it, and whether
/// it is below an entered link. The first node has no parent.
#[derive(Clone, Copy, Drop)]
pub struct Stop {
    pub node: NodeId,
    pub parent: Option<NodeId>,
    pub base: Option<NodeId>,
    pub zone: Option<NodeId>,
    pub inside: bool,
}

/// The children of a followed node, of which those from `next` on wait.
#[derive(Drop)]
pub struct Frame {
    at: NodeId,
    base: Option<NodeId>,
    zone: Option<NodeId>,
    inside: bool,
    entries: Children,
    next: usize,
}

impl Model for Frame {
    ghost use Rattle.std.specs.Prelude.{◌-◌, drop};
    ghost use Rattle.cgns_check.specs.Level.{Level, name_at};

    ghost Value = { Level };

    ghost view = { λ f. record {
      at = f.at;
      base = f.base;
      zone = f.zone;
      inside = f.inside;
      given = name_at f.entries (f.next - 1);
      rest = drop f.next f.entries;
    } };
}

impl Frame {
    /// All of these children of a followed node wait. The base, the zone and the place are those of
    /// the children.
    pub fn new(
        at: NodeId,
        base: Option<NodeId>,
        zone: Option<NodeId>,
        inside: bool,
        entries: Children,
    ) -> Frame
        ensures at { result.at ≡ at }
        ensures base { result.base ≡ base }
        ensures zone { result.zone ≡ zone }
        ensures inside { result.inside ≡ inside }
        ensures rest { result.rest ≡ entries }
    {
        Frame {
            at,
            base,
            zone,
            inside,
            entries,
            next: 0,
        }
    }

    /// The next child that waits.
    pub fn first(&self) -> Option<&Child>
        ensures { MatchOption result (self.now.rest ≡ []) (λ child.
            (rest : List Child) × (self.now.rest ≡ child.now ∷ rest)) }
    {
        self.entries.items().get(self.next)
    }

    /// Where that child stands.
    pub fn stop_at(&self, node: NodeId) -> Stop
        ensures { result ≡ stop_of self.now node }
    {
        Stop {
            node,
            parent: Some(self.at),
            base: self.base,
            zone: self.zone,
            inside: self.inside,
        }
    }

    /// The name of the child that was given last.
    pub fn given(&self) -> &[u8]
        ensures { result.now ≡ self.now.given }
    {
        match self.entries.items().get(self.next.saturating_sub(1)) {
            Some(child) => child.name.items(),
            None => &[],
        }
    }

    /// The next child is given, where one waits.
    pub fn advance(&mut self)
        ensures { self.new ≡ advanced self.old }
    {
        self.next = behind(self.entries.items(), self.next);
    }
}

/// The place behind that of a child; the same where there is none.
fn behind(children: &[Child], place: usize) -> usize
    ensures moved { place < length children.now → result ≡ place + 1 }
    ensures stays { length children.now ≤ place → result ≡ place }
{
    if place < children.len() {
        place + 1
    } else {
        place
    }
}
