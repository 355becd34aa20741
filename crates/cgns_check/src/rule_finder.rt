//! What finds the rules of the checker that a node breaks.

ghost use Rattle.std.specs.Prelude.{◌≡◌, ℕ, Some, None, IfSome};
ghost use Rattle.adf_model.specs.Causes.{OnlyAsks};
ghost use Rattle.adf_model.specs.Slots.{IsTold};
ghost use Rattle.element_ranges.specs.Notes.{note_of};
ghost use Rattle.sids_views.specs.Asks.{HasAskCause, IsPlain};
ghost use Rattle.sids_views.specs.Views.{kind_there};
ghost use Rattle.sids_rules.specs.SeenNodes.{IsSeen};
ghost use Rattle.sids_readings.specs.RuleSets.{rules_of};
ghost use Rattle.cgns_check.specs.Kept.{AreDimsKept, AreNotesAround, IsAroundKept, IsBaseKept, IsZoneKept, Recalls, is_same_place, known_dims, known_overlap};

use crate::finder::Finder;
use adf_model::{AdfError, NodeId, Rules, TreeCalls};
use element_ranges::OverlapNotes;
use sids_broken::broken_by;
use sids_node_rules::{ArrayDims, dims_of, holds_arrays};
use sids_readings::{RuleSet, Surroundings, base_around, sizes_around, zone_around};
use sids_rules::Seen;
use sids_section_rules::{is_same_node, overlap_notes};
use sids_tables::LabelKind;
use sids_views::kind_of_node;
use std::alloc::Global;

/// The rules of a set, and what they read of the base and of the zone above the last node, with the
/// sections of the zone that overlap earlier ones, and of the last grid or solution that nodes are
/// children of: a base, a zone, a grid or a solution is read once for the nodes below it that follow one
/// another, and a grid or a solution also for those that stand between nodes below its arrays.
#[derive(Drop)]
pub struct RuleFinder {
    set: RuleSet,
    base: Option<NodeId>,
    zone: Option<NodeId>,
    around: Surroundings,
    notes: OverlapNotes,
    /// The grid or the solution.
    holder: Option<NodeId>,
    /// The dimensions that its arrays are to have, where rules speak of them.
    dims: Option<ArrayDims>,
}

impl RuleFinder {
    /// The rules of a set, before the first node.
    pub fn new(alloc: Global, set: RuleSet) -> RuleFinder
        ensures set { result.set ≡ set }
        ensures base { result.base ≡ None }
        ensures zone { result.zone ≡ None }
        ensures no_base { result.around.base ≡ None }
        ensures no_zone { result.around.zone ≡ None }
        ensures no_notes { (q : ℕ) → note_of result.notes q ≡ None }
        ensures holder { result.holder ≡ None }
        ensures no_dims { result.dims ≡ None }
    {
        RuleFinder {
            set,
            base: None,
            zone: None,
            around: Surroundings {
                base: None,
                zone: None,
            },
            notes: OverlapNotes::new(alloc),
            holder: None,
            dims: None,
        }
    }
}

impl Finder for RuleFinder {
    ghost rules = { λ finder. rules_of finder.set };

    ghost recalls = { λ finder files. Recalls files finder };

    fn find<C: TreeCalls>(
        &mut self,
        alloc: Global,
        calls: &mut C,
        seen: &Seen,
    ) -> Result<Rules, AdfError> {
        match keep_around(alloc, calls, self, seen) {
            Ok(()) => {
                let none = None;
                let dims = known_dims(self, seen.parent, &none);
                let overlaps = known_overlap(&self.notes, seen);
                broken_by(alloc, calls, self.set, seen, &self.around, dims, overlaps)
            }
            Err(error) => Err(error),
        }
    }
}

/// Reads the base and the zone above a node and the node that it is a child of, where they are not those
/// that were read last.
fn keep_around<C: TreeCalls>(
    alloc: Global,
    calls: &mut C,
    finder: &mut RuleFinder,
    seen: &Seen,
) -> Result<(), AdfError>
    requires ready { C.is_ready calls.old }
    requires seen { IsTold (C.files calls.old) (C.devices calls.old)
        → IsSeen (C.files calls.old) seen.now }
    requires recalls { IsTold (C.files calls.old) (C.devices calls.old)
        → Recalls (C.files calls.old) finder.old }
    ensures ready { C.is_ready calls.new }
    ensures only { OnlyAsks (C.files calls.old) (C.devices calls.old)
        (C.devices calls.new) (C.files calls.new) }
    ensures set { finder.new.set ≡ finder.old.set }
    ensures recalls { IsTold (C.files calls.old) (C.devices calls.old)
        → Recalls (C.files calls.old) finder.new }
    ensures kept { IsTold (C.files calls.old) (C.devices calls.old)
        → IsAroundKept (C.files calls.old) seen.now finder.new result }
    ensures cause { HasAskCause (C.files calls.old) (C.devices calls.old)
        (C.devices calls.new) result }
{
    match keep_base(alloc, calls, finder, seen.base) {
        Ok(()) => match keep_zone(alloc, calls, finder, seen.zone) {
            Ok(()) => keep_dims(alloc, calls, finder, seen.parent),
            Err(error) => Err(error),
        },
        Err(error) => Err(error),
    }
}

/// Reads the base above a node, where it is not the one that was read last.
fn keep_base<C: TreeCalls>(
    alloc: Global,
    calls: &mut C,
    finder: &mut RuleFinder,
    base: Option<NodeId>,
) -> Result<(), AdfError>
    requires ready { C.is_ready calls.old }
    requires plain { IsTold (C.files calls.old) (C.devices calls.old)
        → IfSome base (IsPlain (C.files calls.old)) }
    requires recalls { IsTold (C.files calls.old) (C.devices calls.old)
        → Recalls (C.files calls.old) finder.old }
    ensures ready { C.is_ready calls.new }
    ensures only { OnlyAsks (C.files calls.old) (C.devices calls.old)
        (C.devices calls.new) (C.files calls.new) }
    ensures set { finder.new.set ≡ finder.old.set }
    ensures recalls { IsTold (C.files calls.old) (C.devices calls.old)
        → Recalls (C.files calls.old) finder.new }
    ensures kept { IsTold (C.files calls.old) (C.devices calls.old)
        → IsBaseKept (C.files calls.old) base finder.new result }
    ensures cause { HasAskCause (C.files calls.old) (C.devices calls.old)
        (C.devices calls.new) result }
{
    if is_same_place(finder.base, base) {
        return Ok(());
    }
    match base_around(alloc, calls, base) {
        Ok(dimensions) => {
            finder.around.base = dimensions;
            finder.base = base;
            Ok(())
        }
        Err(error) => Err(error),
    }
}

/// Reads the zone above a node, where it is not the one that was read last.
fn keep_zone<C: TreeCalls>(
    alloc: Global,
    calls: &mut C,
    finder: &mut RuleFinder,
    zone: Option<NodeId>,
) -> Result<(), AdfError>
    requires ready { C.is_ready calls.old }
    requires plain { IsTold (C.files calls.old) (C.devices calls.old)
        → IfSome zone (IsPlain (C.files calls.old)) }
    requires recalls { IsTold (C.files calls.old) (C.devices calls.old)
        → Recalls (C.files calls.old) finder.old }
    ensures ready { C.is_ready calls.new }
    ensures only { OnlyAsks (C.files calls.old) (C.devices calls.old)
        (C.devices calls.new) (C.files calls.new) }
    ensures set { finder.new.set ≡ finder.old.set }
    ensures base { finder.new.around.base ≡ finder.old.around.base }
    ensures recalls { IsTold (C.files calls.old) (C.devices calls.old)
        → Recalls (C.files calls.old) finder.new }
    ensures kept { IsTold (C.files calls.old) (C.devices calls.old)
        → IsZoneKept (C.files calls.old) zone finder.new result }
    ensures cause { HasAskCause (C.files calls.old) (C.devices calls.old)
        (C.devices calls.new) result }
{
    if is_same_place(finder.zone, zone) {
        return Ok(());
    }
    match zone_around(alloc, calls, zone) {
        Ok(numbers) => match notes_around(alloc, calls, zone) {
            Ok(notes) => {
                finder.around.zone = numbers;
                finder.notes = notes;
                finder.zone = zone;
                finder.holder = None;
                finder.dims = None;
                Ok(())
            }
            Err(error) => Err(error),
        },
        Err(error) => Err(error),
    }
}

/// Reads the grid or the solution that a node is a child of, where it is not the one that was read last.
fn keep_dims<C: TreeCalls>(
    alloc: Global,
    calls: &mut C,
    finder: &mut RuleFinder,
    parent: Option<NodeId>,
) -> Result<(), AdfError>
    requires ready { C.is_ready calls.old }
    requires plain { IsTold (C.files calls.old) (C.devices calls.old)
        → IfSome parent (IsPlain (C.files calls.old)) }
    requires recalls { IsTold (C.files calls.old) (C.devices calls.old)
        → Recalls (C.files calls.old) finder.old }
    ensures ready { C.is_ready calls.new }
    ensures only { OnlyAsks (C.files calls.old) (C.devices calls.old)
        (C.devices calls.new) (C.files calls.new) }
    ensures set { finder.new.set ≡ finder.old.set }
    ensures around { finder.new.around ≡ finder.old.around }
    ensures notes { finder.new.notes ≡ finder.old.notes }
    ensures recalls { IsTold (C.files calls.old) (C.devices calls.old)
        → Recalls (C.files calls.old) finder.new }
    ensures kept { IsTold (C.files calls.old) (C.devices calls.old)
        → AreDimsKept (C.files calls.old) parent finder.new result }
    ensures cause { HasAskCause (C.files calls.old) (C.devices calls.old)
        (C.devices calls.new) result }
{
    if is_same_place(finder.holder, parent) {
        return Ok(());
    }
    match parent {
        Some(at) => match kind_of_node(calls, at) {
            Ok(kind) => {
                if holds_arrays(kind) {
                    keep_holder(alloc, calls, finder, kind, at)
                } else {
                    Ok(())
                }
            }
            Err(error) => Err(error),
        },
        None => Ok(()),
    }
}

/// Reads a grid or a solution.
fn keep_holder<C: TreeCalls>(
    alloc: Global,
    calls: &mut C,
    finder: &mut RuleFinder,
    kind: LabelKind,
    at: NodeId,
) -> Result<(), AdfError>
    requires ready { C.is_ready calls.old }
    requires plain { IsTold (C.files calls.old) (C.devices calls.old)
        → IsPlain (C.files calls.old) at }
    requires kind { IsTold (C.files calls.old) (C.devices calls.old)
        → kind ≡ kind_there (C.files calls.old) at }
    requires recalls { IsTold (C.files calls.old) (C.devices calls.old)
        → Recalls (C.files calls.old) finder.old }
    ensures ready { C.is_ready calls.new }
    ensures only { OnlyAsks (C.files calls.old) (C.devices calls.old)
        (C.devices calls.new) (C.files calls.new) }
    ensures set { finder.new.set ≡ finder.old.set }
    ensures around { finder.new.around ≡ finder.old.around }
    ensures notes { finder.new.notes ≡ finder.old.notes }
    ensures recalls { IsTold (C.files calls.old) (C.devices calls.old)
        → Recalls (C.files calls.old) finder.new }
    ensures kept { IsTold (C.files calls.old) (C.devices calls.old)
        → AreDimsKept (C.files calls.old) (Some at) finder.new result }
    ensures cause { HasAskCause (C.files calls.old) (C.devices calls.old)
        (C.devices calls.new) result }
{
    let none = None;
    let sizes = sizes_around(&finder.around.zone, &none);
    match dims_of(alloc, calls, kind, at, sizes) {
        Ok(dims) => {
            finder.dims = dims;
            finder.holder = Some(at);
            Ok(())
        }
        Err(error) => Err(error),
    }
}

/// The dimensions that the arrays under a node are to have, where rules speak of them and the node was
/// read: else the second.
fn known_dims<'a>(
    finder: &'a RuleFinder,
    parent: Option<NodeId>,
    none: &'a Option<ArrayDims>,
) -> &'a Option<ArrayDims>
    requires { none.now ≡ None }
    ensures { result.now ≡ known_dims finder.now parent }
{
    if is_same_place(finder.holder, parent) {
        &finder.dims
    } else {
        none
    }
}

/// The sections of the zone above a node that overlap earlier ones.
fn notes_around<C: TreeCalls>(
    alloc: Global,
    calls: &mut C,
    zone: Option<NodeId>,
) -> Result<OverlapNotes, AdfError>
    requires ready { C.is_ready calls.old }
    requires plain { IsTold (C.files calls.old) (C.devices calls.old)
        → IfSome zone (IsPlain (C.files calls.old)) }
    ensures ready { C.is_ready calls.new }
    ensures only { OnlyAsks (C.files calls.old) (C.devices calls.old)
        (C.devices calls.new) (C.files calls.new) }
    ensures notes { IsTold (C.files calls.old) (C.devices calls.old)
        → AreNotesAround (C.files calls.old) zone result }
    ensures cause { HasAskCause (C.files calls.old) (C.devices calls.old)
        (C.devices calls.new) result }
{
    match zone {
        Some(at) => overlap_notes(alloc, calls, at),
        None => Ok(OverlapNotes::new(alloc)),
    }
}

/// Whether a section that is a child of its zone overlaps an earlier one, where that is noted.
fn known_overlap(notes: &OverlapNotes, seen: &Seen) -> Option<bool>
    ensures { result ≡ known_overlap notes.now seen.now }
{
    match (seen.parent, seen.zone) {
        (Some(parent), Some(zone)) => {
            if is_same_node(parent, zone) && seen.node.file == zone.file {
                notes.get(seen.node.serial)
            } else {
                None
            }
        }
        _ => None,
    }
}

/// Whether two are the same node, or both are none.
fn is_same_place(one: Option<NodeId>, other: Option<NodeId>) -> bool
    ensures { result ≡ is_same_place one other }
{
    match (one, other) {
        (Some(one), Some(other)) => is_same_node(one, other),
        (None, None) => true,
        _ => false,
    }
}
