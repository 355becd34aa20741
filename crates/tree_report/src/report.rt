//! The lines of a tree.

ghost use Rattle.std.specs.Prelude.{◌≡◌, ◌≤◌, [], ◌∷◌, length, reverse, true, false, ℕ, List, IfOk, IfErr};
ghost use Rattle.std.specs.Io.KnownBytes.{Appends};
ghost use Rattle.adf_model.specs.Causes.{OnlyAsks};
ghost use Rattle.adf_model.specs.Slots.{IsTold, AreTrees, slot_at, is_open, is_broken};
ghost use Rattle.sids_views.specs.Asks.{IsThere};
ghost use Rattle.tree_report.specs.Levels.{to_come};
ghost use Rattle.tree_report.specs.Lines.{tree_lines, printed_way, fields_text};
ghost use Rattle.tree_report.specs.Sights.{tree_in, MayGoOn};
ghost use Rattle.tree_report.specs.Reports.{Reports, HasTreeCause, Visits, Says, fault_of};

use crate::fault::{TreeFault, fault_of};
use crate::fields::Fields;
use crate::frame::Frame;
use crate::lines::node_text;
use crate::sight::{Sight, look};
use crate::stack::{Stop, next, wait};
use adf_model::{NodeId, Text, TreeCalls};
use cg_io::Sink;
use session::print;
use std::alloc::Global;

/// Prints a line for each node of an open file's own tree in tree order, the root first:
/// `PATH LABEL TYPE DIMS STATE`, where the state is `data` or `none`, or `PATH LK FILE PATH` for a
/// link, which is not followed. Of the nodes to come it keeps the children of the nodes on the path to
/// the next one. After a failed read whole first lines are printed; for want of memory, or where the
/// sink fails, a first part of them. A walk that leaves 64 bits ends as want of memory.
pub fn tree<C: TreeCalls, O: Sink>(
    alloc: Global,
    calls: &mut C,
    file: u32,
    sink: &mut O,
) -> Result<(), TreeFault>
    requires ready { C.is_ready calls.old }
    requires open_file { is_open (slot_at (C.files calls.old) file) ≡ true }
    requires whole { is_broken (slot_at (C.files calls.old) file) ≡ false }
    ensures ready { C.is_ready calls.new }
    ensures only { OnlyAsks (C.files calls.old) (C.devices calls.old)
        (C.devices calls.new) (C.files calls.new) }
    ensures lines { IsTold (C.files calls.old) (C.devices calls.old)
        → Reports (tree_lines (tree_in (C.files calls.old) file)) result
        (O.taken sink.old) (O.taken sink.new) }
    ensures sink { O.faults sink.old ≤ O.faults sink.new }
    ensures cause { HasTreeCause (C.files calls.old) (C.devices calls.old) (C.devices calls.new)
        (O.faults sink.old) (O.faults sink.new) result }
{
    let mut frames = Vec::new(alloc);
    match visit(alloc, calls, file, root_stop(alloc), &mut frames, sink) {
        Ok(()) => {}
        Err(fault) => return Err(fault),
    }
    'nodes: for _ in 0..u64::MAX {
        let stop = match next(alloc, &mut frames) {
            Ok(Some(stop)) => stop,
            Ok(None) => return Ok(()),
            Err(_) => return Err(TreeFault::Memory),
        };
        match visit(alloc, calls, file, stop, &mut frames, sink) {
            Ok(()) => {}
            Err(fault) => return Err(fault),
        }
    }
    Err(TreeFault::Memory)
}

/// Where the root stands: the way to it has no name.
fn root_stop(alloc: Global) -> Stop
    ensures serial { result.serial ≡ 0 }
    ensures way { result.way ≡ [] }
{
    Stop {
        serial: 0,
        way: Text::new(Vec::new(alloc)),
    }
}

/// Prints the line of a node, whose children then wait.
fn visit<C: TreeCalls, O: Sink>(
    alloc: Global,
    calls: &mut C,
    file: u32,
    stop: Stop,
    frames: &mut Vec<Frame>,
    sink: &mut O,
) -> Result<(), TreeFault>
    requires ready { C.is_ready calls.old }
    requires few { length frames.old.items ≤ 255 }
    requires stands { IsTold (C.files calls.old) (C.devices calls.old)
        → AreTrees (C.files calls.old)
        → MayGoOn (C.files calls.old) file stop (reverse frames.old.items) }
    ensures ready { C.is_ready calls.new }
    ensures only { OnlyAsks (C.files calls.old) (C.devices calls.old)
        (C.devices calls.new) (C.files calls.new) }
    ensures few { length frames.new.items ≤ 255 }
    ensures visits { IsTold (C.files calls.old) (C.devices calls.old)
        → (text : List ℕ) × Appends (O.taken sink.old) (O.taken sink.new) text
        × Visits (C.files calls.old) file stop (reverse frames.old.items) result
        (reverse frames.new.items) text }
    ensures sink { O.faults sink.old ≤ O.faults sink.new }
    ensures cause { HasTreeCause (C.files calls.old) (C.devices calls.old) (C.devices calls.new)
        (O.faults sink.old) (O.faults sink.new) result }
{
    let at = NodeId {
        file,
        serial: stop.serial,
    };
    let sight = match look(alloc, calls, at) {
        Ok(sight) => sight,
        Err(error) => return Err(fault_of(error)),
    };
    let Sight { fields, below } = sight;
    match say(alloc, sink, stop.way.items(), fields) {
        Ok(()) => {}
        Err(fault) => return Err(fault),
    }
    match wait(frames, Frame::new(stop.way, below)) {
        Ok(()) => Ok(()),
        Err(_) => Err(TreeFault::Memory),
    }
}

/// Prints the line of a node.
fn say<O: Sink>(alloc: Global, sink: &mut O, way: &[u8], fields: Fields) -> Result<(), TreeFault>
    ensures said { Says way.now fields result (O.taken sink.old) (O.taken sink.new)
        (O.faults sink.old) (O.faults sink.new) }
    ensures sink { O.faults sink.old ≤ O.faults sink.new }
{
    let line = match node_text(alloc, way, fields) {
        Ok(line) => line,
        Err(_) => return Err(TreeFault::Memory),
    };
    match print(sink, &line) {
        Ok(()) => Ok(()),
        Err(_) => Err(TreeFault::Sink),
    }
}
