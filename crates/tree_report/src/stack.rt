//! The nodes that wait, by levels: the children of the root first, those of the next node last.

ghost use Rattle.std.specs.Prelude.{◌≡◌, ◌≤◌, ◌<◌, ◌+◌, ◌++◌, ◌∷◌, [], length, reverse, IfOk, IfErr, OnOk, vec_len, vec_capacity};
ghost use Rattle.tree_report.specs.Levels.{IsNext, put_below};

use crate::frame::Frame;
use crate::lines::way_to;
use adf_model::{AdfError, Text};
use std::alloc::Global;

/// How many levels there may be: a node stands at most 255 steps below the root.
const LEVELS: usize = 255;

/// A node that a walk comes to, and the way to it.
#[derive(Drop)]
pub struct Stop {
    pub serial: u64,
    pub way: Text,
}

/// Takes the next of the nodes that wait. None waits where none is answered.
pub(crate) fn next(alloc: Global, frames: &mut Vec<Frame>) -> Result<Option<Stop>, AdfError>
    requires few { length frames.old.items ≤ 255 }
    ensures few { length frames.new.items ≤ 255 }
    ensures next { IsNext (reverse frames.old.items) result (reverse frames.new.items) }
{
    while let Some(mut frame) = frames.pop() {
        if let Some(child) = frame.advance() {
            let way = match way_to(alloc, frame.way(), child.name.items()) {
                Ok(way) => way,
                Err(error) => return Err(error),
            };
            put(frames, frame);
            return Ok(Some(Stop {
                serial: child.node.serial,
                way,
            }));
        }
    }
    Ok(None)
}

/// The children of a node wait, on a level below the others. A refusal leaves all.
pub(crate) fn wait(frames: &mut Vec<Frame>, frame: Frame) -> Result<(), AdfError>
    requires few { length frames.old.items ≤ 255 }
    ensures few { length frames.new.items ≤ 255 }
    ensures below { OnOk result (reverse frames.new.items
        ≡ put_below frame (reverse frames.old.items)) }
    ensures want { IfErr result (λ e. e ≡ AdfError.Memory) }
{
    if frames.reserve(1).is_err() {
        return Err(AdfError::Memory);
    }
    if frames.len() < LEVELS {
        put(frames, frame);
    }
    Ok(())
}

/// Puts a level where there is room for it.
fn put(frames: &mut Vec<Frame>, frame: Frame)
    requires { vec_len frames.old < vec_capacity frames.old }
    ensures items { frames.new.items ≡ frames.old.items ++ frame ∷ [] }
    ensures len { vec_len frames.new ≡ vec_len frames.old + 1 }
{
    if frames.push(frame).is_err() {
        unreachable!()
    }
}
