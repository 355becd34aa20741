//! The walk over the seen nodes of a file.

ghost use Rattle.std.specs.Prelude.{◌≡◌, ◌≤◌, [], ◌∷◌, length, reverse, IfOk, IfErr, OnErr};
ghost use Rattle.adf_model.specs.Causes.{OnlyAsks};
ghost use Rattle.adf_model.specs.Slots.{Files, IsTold, AreTrees};
ghost use Rattle.sids_views.specs.Asks.{HasAskCause};
ghost use Rattle.cgns_check.specs.Levels.{Starts, Goes, root_stop};
ghost use Rattle.cgns_check.specs.Nexts.{LastWaits};
ghost use Rattle.cgns_check.specs.Checked.{MayGoOn, IsMet, IsNext, IsBegun, IsSeenItem, still_to_come};

use crate::frame::{Frame, Stop};
use crate::item::WalkItem;
use crate::look::{Sight, look};
use crate::stack::{drop_done, give, next_of};
use adf_model::{AdfError, NodeId, Query, Text, TreeCalls};
use std::alloc::Global;
use std::marker::Model;

/// The walk over the seen nodes of a file in tree order: a node before its children, and these in
/// their order. Of the nodes to come it keeps the children of the nodes on the path to the next one.
#[derive(Drop)]
pub struct Walk {
    alloc: Global,
    first: Option<u32>,
    frames: Vec<Frame>,
}

impl Model for Walk {
    ghost use Rattle.std.specs.Prelude.{◌≤◌, reverse, length};
    ghost use Rattle.cgns_check.specs.Levels.{Stage, stage_of};

    ghost Value = { Stage };

    ghost view = { λ w. stage_of w.first (reverse w.frames.items) };

    ghost invariant = { λ w. length w.frames.items ≤ 510 };
}

impl Walk {
    /// A walk over a file that is open and not broken. It takes no memory.
    pub fn new(alloc: Global, file: u32) -> Walk
        ensures { result ≡ Starts file }
    {
        Walk {
            alloc,
            first: Some(file),
            frames: Vec::new(alloc),
        }
    }

    /// The next seen node; none after the last. It asks what the node is followed to, for the label of
    /// that and for its children. A refusal leaves the walk before the node.
    pub fn next<C: TreeCalls>(&mut self, calls: &mut C) -> Result<Option<WalkItem>, AdfError>
        requires ready { C.is_ready calls.old }
        requires stands { IsTold (C.files calls.old) (C.devices calls.old)
            → MayGoOn (C.files calls.old) self.old }
        ensures ready { C.is_ready calls.new }
        ensures only { OnlyAsks (C.files calls.old) (C.devices calls.old)
            (C.devices calls.new) (C.files calls.new) }
        ensures stands { IsTold (C.files calls.old) (C.devices calls.old)
            → MayGoOn (C.files calls.old) self.new }
        ensures next { IsTold (C.files calls.old) (C.devices calls.old)
            → IsNext (C.files calls.old) (still_to_come (C.files calls.old) self.old) result
            (still_to_come (C.files calls.old) self.new) }
        ensures item { IsTold (C.files calls.old) (C.devices calls.old)
            → IfOk result (IsSeenItem (C.files calls.old)) }
        ensures refused { OnErr result ((files : Files)
            → still_to_come files self.new ≡ still_to_come files self.old) }
        ensures cause { HasAskCause (C.files calls.old) (C.devices calls.old)
            (C.devices calls.new) result }
    {
        match self.first {
            Some(file) => match begin(self.alloc, calls, file) {
                Ok(Begun { item, frames }) => {
                    self.first = None;
                    self.frames = frames;
                    Ok(Some(item))
                }
                Err(error) => Err(error),
            },
            None => go_on(self.alloc, calls, &mut self.frames),
        }
    }
}

/// The first node, and its children that wait.
#[derive(Drop)]
pub struct Begun {
    item: WalkItem,
    frames: Vec<Frame>,
}

fn begin<C: TreeCalls>(alloc: Global, calls: &mut C, file: u32) -> Result<Begun, AdfError>
    requires ready { C.is_ready calls.old }
    requires stands { IsTold (C.files calls.old) (C.devices calls.old)
        → MayGoOn (C.files calls.old) (Starts file) }
    ensures ready { C.is_ready calls.new }
    ensures only { OnlyAsks (C.files calls.old) (C.devices calls.old)
        (C.devices calls.new) (C.files calls.new) }
    ensures shallow { IfOk result (λ begun. length begun.frames.items ≤ 510) }
    ensures begun { IsTold (C.files calls.old) (C.devices calls.old)
        → IsBegun (C.files calls.old) file result }
    ensures cause { HasAskCause (C.files calls.old) (C.devices calls.old)
        (C.devices calls.new) result }
{
    match meet(calls, file) {
        Ok(()) => {}
        Err(error) => return Err(error),
    }
    let path = match root_path(alloc) {
        Ok(path) => path,
        Err(error) => return Err(error),
    };
    let look = match look(calls, root_stop(file)) {
        Ok(look) => look,
        Err(error) => return Err(error),
    };
    let mut frames = Vec::new(alloc);
    let Sight { seen, note, below } = look;
    match give(&mut frames, below) {
        Ok(()) => Ok(Begun {
            item: WalkItem { seen, path, note },
            frames,
        }),
        Err(error) => Err(error),
    }
}

/// A question about a file: its answer tells that what is open are trees.
fn meet<C: TreeCalls>(calls: &mut C, file: u32) -> Result<(), AdfError>
    requires ready { C.is_ready calls.old }
    requires stands { IsTold (C.files calls.old) (C.devices calls.old)
        → MayGoOn (C.files calls.old) (Starts file) }
    ensures ready { C.is_ready calls.new }
    ensures only { OnlyAsks (C.files calls.old) (C.devices calls.old)
        (C.devices calls.new) (C.files calls.new) }
    ensures trees { IsTold (C.files calls.old) (C.devices calls.old)
        → AreTrees (C.files calls.old) }
    ensures met { IsTold (C.files calls.old) (C.devices calls.old) → IsMet result }
    ensures cause { HasAskCause (C.files calls.old) (C.devices calls.old)
        (C.devices calls.new) result }
{
    match calls.ask(&Query::Name {
        node: NodeId { file, serial: 0 },
    }) {
        Ok(_) => Ok(()),
        Err(error) => Err(error),
    }
}

/// The path of the first node.
fn root_path(alloc: Global) -> Result<Text, AdfError>
    ensures path { IfOk result (λ path. path ≡ 47 ∷ []) }
    ensures want { IfErr result (λ e. e ≡ AdfError.Memory) }
{
    let mut path = Vec::new(alloc);
    match path.push(b'/') {
        Ok(()) => Ok(Text::new(path)),
        Err(_) => Err(AdfError::Memory),
    }
}

fn root_stop(file: u32) -> Stop
    ensures { result ≡ root_stop file }
{
    Stop {
        node: NodeId { file, serial: 0 },
        parent: None,
        base: None,
        zone: None,
        inside: false,
    }
}

/// The next of the nodes that wait on some levels.
fn go_on<C: TreeCalls>(
    alloc: Global,
    calls: &mut C,
    frames: &mut Vec<Frame>,
) -> Result<Option<WalkItem>, AdfError>
    requires ready { C.is_ready calls.old }
    requires shallow { length frames.old.items ≤ 510 }
    requires stands { IsTold (C.files calls.old) (C.devices calls.old)
        → MayGoOn (C.files calls.old) (Goes (reverse frames.old.items)) }
    ensures ready { C.is_ready calls.new }
    ensures only { OnlyAsks (C.files calls.old) (C.devices calls.old)
        (C.devices calls.new) (C.files calls.new) }
    ensures shallow { length frames.new.items ≤ 510 }
    ensures stands { IsTold (C.files calls.old) (C.devices calls.old)
        → MayGoOn (C.files calls.old) (Goes (reverse frames.new.items)) }
    ensures next { IsTold (C.files calls.old) (C.devices calls.old)
        → IsNext (C.files calls.old)
        (still_to_come (C.files calls.old) (Goes (reverse frames.old.items))) result
        (still_to_come (C.files calls.old) (Goes (reverse frames.new.items))) }
    ensures item { IsTold (C.files calls.old) (C.devices calls.old)
        → IfOk result (IsSeenItem (C.files calls.old)) }
    ensures refused { OnErr result ((files : Files)
        → still_to_come files (Goes (reverse frames.new.items))
        ≡ still_to_come files (Goes (reverse frames.old.items))) }
    ensures cause { HasAskCause (C.files calls.old) (C.devices calls.old)
        (C.devices calls.new) result }
{
    drop_done(frames);
    step(alloc, calls, frames)
}

/// The same, where a node waits on the last level.
fn step<C: TreeCalls>(
    alloc: Global,
    calls: &mut C,
    frames: &mut Vec<Frame>,
) -> Result<Option<WalkItem>, AdfError>
    requires ready { C.is_ready calls.old }
    requires shallow { length frames.old.items ≤ 510 }
    requires waits { LastWaits (reverse frames.old.items) }
    requires stands { IsTold (C.files calls.old) (C.devices calls.old)
        → MayGoOn (C.files calls.old) (Goes (reverse frames.old.items)) }
    ensures ready { C.is_ready calls.new }
    ensures only { OnlyAsks (C.files calls.old) (C.devices calls.old)
        (C.devices calls.new) (C.files calls.new) }
    ensures shallow { length frames.new.items ≤ 510 }
    ensures stands { IsTold (C.files calls.old) (C.devices calls.old)
        → MayGoOn (C.files calls.old) (Goes (reverse frames.new.items)) }
    ensures next { IsTold (C.files calls.old) (C.devices calls.old)
        → IsNext (C.files calls.old)
        (still_to_come (C.files calls.old) (Goes (reverse frames.old.items))) result
        (still_to_come (C.files calls.old) (Goes (reverse frames.new.items))) }
    ensures item { IsTold (C.files calls.old) (C.devices calls.old)
        → IfOk result (IsSeenItem (C.files calls.old)) }
    ensures refused { OnErr result (frames.new.items ≡ frames.old.items) }
    ensures cause { HasAskCause (C.files calls.old) (C.devices calls.old)
        (C.devices calls.new) result }
{
    let next = match next_of(alloc, frames) {
        Ok(Some(next)) => next,
        Ok(None) => return Ok(None),
        Err(error) => return Err(error),
    };
    let look = match look(calls, next.stop) {
        Ok(look) => look,
        Err(error) => return Err(error),
    };
    let Sight { seen, note, below } = look;
    match give(frames, below) {
        Ok(()) => Ok(Some(WalkItem {
            seen,
            path: next.path,
            note,
        })),
        Err(error) => Err(error),
    }
}
