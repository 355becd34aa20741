//! The check of a file.

ghost use Rattle.std.specs.Prelude.{◌≡◌, ◌≤◌, true, false, ℕ, List};
ghost use Rattle.std.specs.Io.KnownBytes.{Appends};
ghost use Rattle.adf_model.specs.Causes.{OnlyAsks};
ghost use Rattle.adf_model.specs.Slots.{IsTold, slot_at, is_open, is_broken};
ghost use Rattle.cgns_check.specs.Words.{AreWorded};
ghost use Rattle.cgns_check.specs.Checked.{MayGoOn, Checks, HasCheckCause, IsTurn, Says, still_to_come};
ghost use Rattle.cgns_check.specs.Lines.{node_lines};

use crate::fault::{CheckFault, fault_of};
use crate::finder::Finder;
use crate::item::WalkItem;
use crate::lines::node_text;
use crate::walk::Walk;
use adf_model::TreeCalls;
use cg_io::Sink;
use session::print;
use std::alloc::Global;

/// Prints the lines of the nodes of a file that break the rules of a finder, in tree order, and
/// answers the number of findings. A count or a walk that leaves 64 bits ends as want of memory.
pub fn check_by<C: TreeCalls, F: Finder, O: Sink>(
    alloc: Global,
    calls: &mut C,
    file: u32,
    finder: &mut F,
    sink: &mut O,
) -> Result<u64, CheckFault>
    requires ready { C.is_ready calls.old }
    requires open_file { is_open (slot_at (C.files calls.old) file) ≡ true }
    requires whole { is_broken (slot_at (C.files calls.old) file) ≡ false }
    requires worded { AreWorded (F.rules finder.old) }
    requires recalls { IsTold (C.files calls.old) (C.devices calls.old)
        → F.recalls finder.old (C.files calls.old) }
    ensures ready { C.is_ready calls.new }
    ensures only { OnlyAsks (C.files calls.old) (C.devices calls.old)
        (C.devices calls.new) (C.files calls.new) }
    ensures checks { IsTold (C.files calls.old) (C.devices calls.old)
        → Checks (F.rules finder.old) (C.files calls.old) file result
        (O.taken sink.old) (O.taken sink.new) }
    ensures sink { O.faults sink.old ≤ O.faults sink.new }
    ensures cause { HasCheckCause (C.files calls.old) (C.devices calls.old) (C.devices calls.new)
        (O.faults sink.old) (O.faults sink.new) result }
{
    let mut walk = Walk::new(alloc, file);
    let mut found: u64 = 0;
    'nodes: for _ in 0..u64::MAX {
        match turn(alloc, calls, &mut walk, finder, sink) {
            Ok(Some(count)) => match found.checked_add(count) {
                Some(sum) => found = sum,
                None => return Err(CheckFault::Memory),
            },
            Ok(None) => return Ok(found),
            Err(fault) => return Err(fault),
        }
    }
    Err(CheckFault::Memory)
}

/// The lines of the next node of a walk, and how many findings they are; none after the last node.
fn turn<C: TreeCalls, F: Finder, O: Sink>(
    alloc: Global,
    calls: &mut C,
    walk: &mut Walk,
    finder: &mut F,
    sink: &mut O,
) -> Result<Option<u64>, CheckFault>
    requires ready { C.is_ready calls.old }
    requires worded { AreWorded (F.rules finder.old) }
    requires recalls { IsTold (C.files calls.old) (C.devices calls.old)
        → F.recalls finder.old (C.files calls.old) }
    requires stands { IsTold (C.files calls.old) (C.devices calls.old)
        → MayGoOn (C.files calls.old) walk.old }
    ensures ready { C.is_ready calls.new }
    ensures only { OnlyAsks (C.files calls.old) (C.devices calls.old)
        (C.devices calls.new) (C.files calls.new) }
    ensures rules { F.rules finder.new ≡ F.rules finder.old }
    ensures recalls { IsTold (C.files calls.old) (C.devices calls.old)
        → F.recalls finder.new (C.files calls.old) }
    ensures stands { IsTold (C.files calls.old) (C.devices calls.old)
        → MayGoOn (C.files calls.old) walk.new }
    ensures turn { IsTold (C.files calls.old) (C.devices calls.old)
        → (text : List ℕ) × Appends (O.taken sink.old) (O.taken sink.new) text
        × IsTurn (F.rules finder.old) (C.files calls.old)
        (still_to_come (C.files calls.old) walk.old) result
        (still_to_come (C.files calls.old) walk.new) text }
    ensures sink { O.faults sink.old ≤ O.faults sink.new }
    ensures cause { HasCheckCause (C.files calls.old) (C.devices calls.old) (C.devices calls.new)
        (O.faults sink.old) (O.faults sink.new) result }
{
    let item = match walk.next(calls) {
        Ok(Some(item)) => item,
        Ok(None) => return Ok(None),
        Err(error) => return Err(fault_of(error)),
    };
    let numbers = match finder.find(alloc, calls, &item.seen) {
        Ok(numbers) => numbers,
        Err(error) => return Err(fault_of(error)),
    };
    let found = numbers.items();
    match say_node(alloc, sink, &item, found) {
        Ok(()) => Ok(Some(found.len() as u64)),
        Err(fault) => Err(fault),
    }
}

/// Prints the lines of a node.
fn say_node<O: Sink>(
    alloc: Global,
    sink: &mut O,
    item: &WalkItem,
    numbers: &[u8],
) -> Result<(), CheckFault>
    ensures said { Says (node_lines item.now.path item.now.note numbers.now) result
        (O.taken sink.old) (O.taken sink.new) (O.faults sink.old) (O.faults sink.new) }
    ensures sink { O.faults sink.old ≤ O.faults sink.new }
{
    let text = match node_text(alloc, item.path.items(), item.note, numbers) {
        Ok(text) => text,
        Err(_) => return Err(CheckFault::Memory),
    };
    match print(sink, &text) {
        Ok(()) => Ok(()),
        Err(_) => Err(CheckFault::Sink),
    }
}
