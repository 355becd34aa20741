//! The checks of a file by the rules of the checker.

ghost use Rattle.std.specs.Prelude.{◌≡◌, ◌≤◌, true, false};
ghost use Rattle.adf_model.specs.Causes.{OnlyAsks};
ghost use Rattle.adf_model.specs.Slots.{IsTold, slot_at, is_open, is_broken};
ghost use Rattle.sids_rules.specs.Rules.{check_rules};
ghost use Rattle.sids_rules.specs.OffsetRules.{check4_rules};
ghost use Rattle.cgns_check.specs.Checked.{Checks, HasCheckCause};

use crate::fault::CheckFault;
use crate::file_check::check_by;
use crate::rule_finder::RuleFinder;
use adf_model::TreeCalls;
use cg_io::Sink;
use sids_readings::RuleSet;
use std::alloc::Global;

/// Prints a line `PATH Knn WORD` for each rule K01 to K34 that a seen node of an open file breaks, in
/// tree order and then by number, and `PATH N01 link-inside-link` before those of a link inside a link.
/// Answers how many findings there are, notes not counted. After a failed read whole first lines are
/// printed; for want of memory, or where the sink fails, a first part of them. A count or a walk that
/// leaves 64 bits ends as want of memory. Source: SIDS and File Mapping, in the profile.
pub fn check<C: TreeCalls, O: Sink>(
    alloc: Global,
    calls: &mut C,
    file: u32,
    sink: &mut O,
) -> Result<u64, CheckFault>
    requires ready { C.is_ready calls.old }
    requires open_file { is_open (slot_at (C.files calls.old) file) ≡ true }
    requires whole { is_broken (slot_at (C.files calls.old) file) ≡ false }
    ensures ready { C.is_ready calls.new }
    ensures only { OnlyAsks (C.files calls.old) (C.devices calls.old)
        (C.devices calls.new) (C.files calls.new) }
    ensures checks { IsTold (C.files calls.old) (C.devices calls.old)
        → Checks check_rules (C.files calls.old) file result
        (O.taken sink.old) (O.taken sink.new) }
    ensures sink { O.faults sink.old ≤ O.faults sink.new }
    ensures cause { HasCheckCause (C.files calls.old) (C.devices calls.old) (C.devices calls.new)
        (O.faults sink.old) (O.faults sink.new) result }
{
    let mut finder = RuleFinder::new(alloc, RuleSet::Check);
    check_by(alloc, calls, file, &mut finder, sink)
}

/// The same for the rules K01 to K40: those on sections of elements that begin where offsets say too.
pub fn check4<C: TreeCalls, O: Sink>(
    alloc: Global,
    calls: &mut C,
    file: u32,
    sink: &mut O,
) -> Result<u64, CheckFault>
    requires ready { C.is_ready calls.old }
    requires open_file { is_open (slot_at (C.files calls.old) file) ≡ true }
    requires whole { is_broken (slot_at (C.files calls.old) file) ≡ false }
    ensures ready { C.is_ready calls.new }
    ensures only { OnlyAsks (C.files calls.old) (C.devices calls.old)
        (C.devices calls.new) (C.files calls.new) }
    ensures checks { IsTold (C.files calls.old) (C.devices calls.old)
        → Checks check4_rules (C.files calls.old) file result
        (O.taken sink.old) (O.taken sink.new) }
    ensures sink { O.faults sink.old ≤ O.faults sink.new }
    ensures cause { HasCheckCause (C.files calls.old) (C.devices calls.old) (C.devices calls.new)
        (O.faults sink.old) (O.faults sink.new) result }
{
    let mut finder = RuleFinder::new(alloc, RuleSet::Check4);
    check_by(alloc, calls, file, &mut finder, sink)
}
