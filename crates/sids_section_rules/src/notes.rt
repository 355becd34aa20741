//! Which sections of a zone have an element number in common with an earlier one, all found at once.

ghost use Rattle.std.specs.Prelude.{◌≡◌, ◌||◌, ℕ, IfErr, OnOk};
ghost use Rattle.std.specs.List.{AllByRecursion, list_any};
ghost use Rattle.adf_model.specs.declared.error.AdfError.{AdfError};
ghost use Rattle.adf_model.specs.Causes.{OnlyAsks};
ghost use Rattle.adf_model.specs.Slots.{IsTold};
ghost use Rattle.element_ranges.specs.Ranges.{touches};
ghost use Rattle.element_ranges.specs.Notes.{note_of, ranges_of};
ghost use Rattle.sids_views.specs.Asks.{IsValueOr, HasAskCause, IsPlain};
ghost use Rattle.sids_views.specs.Views.{children_there, given};
ghost use Rattle.sids_rules.specs.Terms.{good_range};
ghost use Rattle.sids_section_rules.specs.Noted.{good_section, AreNotes, span_of_good, noted_more};

use adf_model::{AdfError, NodeId, TreeCalls};
use element_ranges::{OverlapNotes, Span};
use sids_readings::{ElementRange, section_range};
use sids_tables::LabelKind;
use sids_views::{SeenChild, children_of};
use std::alloc::Global;

/// K30 sections-overlap, of all sections of a zone: for each with a good range, by the serial of its own
/// node, whether the range has an element number in common with that of an earlier one. Each section is
/// read once.
pub fn overlap_notes<C: TreeCalls>(
    alloc: Global,
    calls: &mut C,
    zone: NodeId,
) -> Result<OverlapNotes, AdfError>
    requires ready { C.is_ready calls.old }
    requires plain { IsTold (C.files calls.old) (C.devices calls.old)
        → IsPlain (C.files calls.old) zone }
    ensures ready { C.is_ready calls.new }
    ensures only { OnlyAsks (C.files calls.old) (C.devices calls.old)
        (C.devices calls.new) (C.files calls.new) }
    ensures notes { IsTold (C.files calls.old) (C.devices calls.old)
        → AreNotes (C.files calls.old) (children_there (C.files calls.old) zone) result }
    ensures cause { HasAskCause (C.files calls.old) (C.devices calls.old)
        (C.devices calls.new) result }
{
    match children_of(alloc, calls, zone) {
        Ok(children) => notes_of(alloc, calls, children.items()),
        Err(error) => Err(error),
    }
}

fn notes_of<C: TreeCalls>(
    alloc: Global,
    calls: &mut C,
    children: &[SeenChild],
) -> Result<OverlapNotes, AdfError>
    requires ready { C.is_ready calls.old }
    requires plain { IsTold (C.files calls.old) (C.devices calls.old)
        → AllByRecursion (λ child. IsPlain (C.files calls.old) child.target) children.now }
    ensures ready { C.is_ready calls.new }
    ensures only { OnlyAsks (C.files calls.old) (C.devices calls.old)
        (C.devices calls.new) (C.files calls.new) }
    ensures notes { IsTold (C.files calls.old) (C.devices calls.old)
        → AreNotes (C.files calls.old) children.now result }
    ensures cause { HasAskCause (C.files calls.old) (C.devices calls.old)
        (C.devices calls.new) result }
{
    let mut notes = OverlapNotes::new(alloc);
    for child in children {
        match good_section(alloc, calls, child) {
            Ok(range) => match add_note(&mut notes, child.node.serial, &range) {
                Ok(()) => {}
                Err(error) => return Err(error),
            },
            Err(error) => return Err(error),
        }
    }
    Ok(notes)
}

/// One section more, where it has a good range.
#[tactic(auto, using(crate::proofs::NoteLaws::nothing_noted))]
fn add_note(
    notes: &mut OverlapNotes,
    key: u64,
    range: &Option<ElementRange>,
) -> Result<(), AdfError>
    ensures notes { OnOk result ((q : ℕ)
        → note_of notes.new q ≡ noted_more notes.old key range.now q) }
    ensures ranges { OnOk result ((first last : ℕ)
        → list_any (touches first last) (ranges_of notes.new)
        ≡ (given range.now (λ range. touches first last (span_of_good range))
        || list_any (touches first last) (ranges_of notes.old))) }
    ensures memory { IfErr result (λ error. error ≡ AdfError.Memory) }
{
    match range {
        Some(range) => match notes.add(key, span_of_good(range)) {
            Ok(()) => Ok(()),
            Err(_) => Err(AdfError::Memory),
        },
        None => Ok(()),
    }
}

fn span_of_good(range: &ElementRange) -> Span
    ensures { result ≡ span_of_good range.now }
{
    Span {
        start: range.start().unsigned_abs(),
        end: range.end().unsigned_abs(),
    }
}

/// The range of a child of a zone that is a section, where that is good.
fn good_section<C: TreeCalls>(
    alloc: Global,
    calls: &mut C,
    child: &SeenChild,
) -> Result<Option<ElementRange>, AdfError>
    requires ready { C.is_ready calls.old }
    requires plain { IsTold (C.files calls.old) (C.devices calls.old)
        → IsPlain (C.files calls.old) child.now.target }
    ensures ready { C.is_ready calls.new }
    ensures only { OnlyAsks (C.files calls.old) (C.devices calls.old)
        (C.devices calls.new) (C.files calls.new) }
    ensures value { IsTold (C.files calls.old) (C.devices calls.old)
        → IsValueOr (good_section (C.files calls.old) child.now) result }
    ensures cause { HasAskCause (C.files calls.old) (C.devices calls.old)
        (C.devices calls.new) result }
{
    if child.kind == LabelKind::Elements {
        good_range(alloc, calls, child.target)
    } else {
        Ok(None)
    }
}

/// The range of a section, where that meets K25 and K26.
pub fn good_range<C: TreeCalls>(
    alloc: Global,
    calls: &mut C,
    at: NodeId,
) -> Result<Option<ElementRange>, AdfError>
    requires ready { C.is_ready calls.old }
    requires plain { IsTold (C.files calls.old) (C.devices calls.old)
        → IsPlain (C.files calls.old) at }
    ensures ready { C.is_ready calls.new }
    ensures only { OnlyAsks (C.files calls.old) (C.devices calls.old)
        (C.devices calls.new) (C.files calls.new) }
    ensures value { IsTold (C.files calls.old) (C.devices calls.old)
        → IsValueOr (good_range (C.files calls.old) at) result }
    ensures cause { HasAskCause (C.files calls.old) (C.devices calls.old)
        (C.devices calls.new) result }
{
    match section_range(alloc, calls, at) {
        Ok(Some(range)) => Ok(if range.is_good() { Some(range) } else { None }),
        Ok(None) => Ok(None),
        Err(error) => Err(error),
    }
}
