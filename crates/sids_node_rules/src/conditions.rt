//! Rules on boundary conditions.

ghost use Rattle.std.specs.Prelude.{◌≡◌, ◌&&◌, not, codes, bytes_eq, IfSome};
ghost use Rattle.std.specs.List.{AllByRecursion};
ghost use Rattle.adf_model.specs.Causes.{OnlyAsks};
ghost use Rattle.adf_model.specs.Slots.{IsTold};
ghost use Rattle.sids_views.specs.Asks.{IsValueOr, HasAskCause, IsPlain};
ghost use Rattle.sids_tables.specs.declared.labels.LabelKind.TheVariants.{FamilyName};
ghost use Rattle.sids_views.specs.Views.{node_there, given, first_called};
ghost use Rattle.sids_rules.specs.Values.{text_of, is_word};
ghost use Rattle.sids_rules.specs.Words.{without_padding};
ghost use Rattle.sids_rules.specs.Terms.{has_child};
ghost use Rattle.sids_rules.specs.Rules.{are_points_off, count_points, point_names, is_point_range, is_point_list};
ghost use Rattle.sids_node_rules.specs.NodeRules.{are_points_bad};
ghost use Rattle.sids_readings.specs.Shown.{shows_points};

use adf_model::{AdfError, NodeId, TreeCalls};
use sids_readings::{is_ints, is_ints_of, text_of};
use sids_rules::breaks_k33;
use sids_tables::LabelKind;
use sids_views::{NodeView, SeenChild, children_of, first_called, first_of, view_of};
use std::alloc::Global;

/// K33 bc-family, of a boundary condition: it is specified by a family, and has no family name.
#[tactic(auto, using(sids_readings::proofs::TextLaws::text_is))]
pub fn breaks_bc_family<C: TreeCalls>(
    alloc: Global,
    calls: &mut C,
    at: NodeId,
) -> Result<bool, AdfError>
    requires ready { C.is_ready calls.old }
    requires plain { IsTold (C.files calls.old) (C.devices calls.old)
        → IsPlain (C.files calls.old) at }
    ensures ready { C.is_ready calls.new }
    ensures only { OnlyAsks (C.files calls.old) (C.devices calls.old)
        (C.devices calls.new) (C.files calls.new) }
    ensures value { IsTold (C.files calls.old) (C.devices calls.old)
        → IsValueOr (bytes_eq (text_of (node_there (C.files calls.old) at))
        (codes "FamilySpecified") && not (has_child (C.files calls.old) at FamilyName)) result }
    ensures cause { HasAskCause (C.files calls.old) (C.devices calls.old)
        (C.devices calls.new) result }
{
    match children_of(alloc, calls, at) {
        Ok(children) => {
            let has_family = first_of(LabelKind::FamilyName, children.items()).is_some();
            match text_of(alloc, calls, at) {
                Ok(text) => Ok(lacks_family(text.items(), has_family)),
                Err(error) => Err(error),
            }
        }
        Err(error) => Err(error),
    }
}

fn lacks_family(text: &[u8], has_family: bool) -> bool
    ensures { result ≡ (bytes_eq (without_padding text.now) (codes "FamilySpecified") && not has_family) }
{
    breaks_k33(text, has_family)
}

/// K32 bc-points, of a boundary condition in a zone of so many indices: not exactly one child names
/// points, or a range or a list of points has not the kind and the numbers of one.
pub fn breaks_bc_points<C: TreeCalls>(
    alloc: Global,
    calls: &mut C,
    at: NodeId,
    index: usize,
) -> Result<bool, AdfError>
    requires ready { C.is_ready calls.old }
    requires plain { IsTold (C.files calls.old) (C.devices calls.old)
        → IsPlain (C.files calls.old) at }
    ensures ready { C.is_ready calls.new }
    ensures only { OnlyAsks (C.files calls.old) (C.devices calls.old)
        (C.devices calls.new) (C.files calls.new) }
    ensures value { IsTold (C.files calls.old) (C.devices calls.old)
        → IsValueOr (are_points_off index (C.files calls.old) at) result }
    ensures cause { HasAskCause (C.files calls.old) (C.devices calls.old)
        (C.devices calls.new) result }
{
    match children_of(alloc, calls, at) {
        Ok(children) => are_points_bad(calls, index, children.items()),
        Err(error) => Err(error),
    }
}

fn are_points_bad<C: TreeCalls>(
    calls: &mut C,
    index: usize,
    children: &[SeenChild],
) -> Result<bool, AdfError>
    requires ready { C.is_ready calls.old }
    requires plain { IsTold (C.files calls.old) (C.devices calls.old)
        → AllByRecursion (λ child. IsPlain (C.files calls.old) child.target) children.now }
    ensures ready { C.is_ready calls.new }
    ensures only { OnlyAsks (C.files calls.old) (C.devices calls.old)
        (C.devices calls.new) (C.files calls.new) }
    ensures value { IsTold (C.files calls.old) (C.devices calls.old)
        → IsValueOr (are_points_bad index (C.files calls.old) children.now) result }
    ensures cause { HasAskCause (C.files calls.old) (C.devices calls.old)
        (C.devices calls.new) result }
{
    if count_points(children) != 1 {
        return Ok(true);
    }
    match is_bad_range(calls, index, first_called(b"PointRange", children)) {
        Ok(true) => Ok(true),
        Ok(false) => is_bad_list(calls, index, first_called(b"PointList", children)),
        Err(error) => Err(error),
    }
}

/// How many children name points.
fn count_points(children: &[SeenChild]) -> usize
    ensures { result ≡ count_points children.now }
{
    let mut count = 0;
    for child in children {
        if names_points(child.name.items()) {
            count += 1;
        }
    }
    count
}

#[tactic(auto, using(sids_readings::proofs::TextLaws::or_false))]
fn names_points(name: &[u8]) -> bool
    ensures { result ≡ is_word point_names name.now }
{
    b"PointRange".as_slice() == name
        || b"PointList".as_slice() == name
        || b"ElementRange".as_slice() == name
        || b"ElementList".as_slice() == name
}

/// Whether a range of points, where there is one, has not the kind and the numbers of one.
fn is_bad_range<C: TreeCalls>(
    calls: &mut C,
    index: usize,
    child: Option<(NodeId, LabelKind)>,
) -> Result<bool, AdfError>
    requires ready { C.is_ready calls.old }
    requires plain { IsTold (C.files calls.old) (C.devices calls.old)
        → IfSome child (λ child. IsPlain (C.files calls.old) child.0) }
    ensures ready { C.is_ready calls.new }
    ensures only { OnlyAsks (C.files calls.old) (C.devices calls.old)
        (C.devices calls.new) (C.files calls.new) }
    ensures value { IsTold (C.files calls.old) (C.devices calls.old)
        → IsValueOr (given child (λ child. not (is_point_range index (C.files calls.old) child)))
        result }
    ensures cause { HasAskCause (C.files calls.old) (C.devices calls.old)
        (C.devices calls.new) result }
{
    match child {
        Some((at, kind)) => match view_of(calls, at) {
            Ok(view) => Ok(
                !(kind == LabelKind::IndexRange && is_ints_of(&view, &[index as u64, 2])),
            ),
            Err(error) => Err(error),
        },
        None => Ok(false),
    }
}

/// Whether a list of points, where there is one, has not the kind and the numbers of one.
fn is_bad_list<C: TreeCalls>(
    calls: &mut C,
    index: usize,
    child: Option<(NodeId, LabelKind)>,
) -> Result<bool, AdfError>
    requires ready { C.is_ready calls.old }
    requires plain { IsTold (C.files calls.old) (C.devices calls.old)
        → IfSome child (λ child. IsPlain (C.files calls.old) child.0) }
    ensures ready { C.is_ready calls.new }
    ensures only { OnlyAsks (C.files calls.old) (C.devices calls.old)
        (C.devices calls.new) (C.files calls.new) }
    ensures value { IsTold (C.files calls.old) (C.devices calls.old)
        → IsValueOr (given child (λ child. not (is_point_list index (C.files calls.old) child)))
        result }
    ensures cause { HasAskCause (C.files calls.old) (C.devices calls.old)
        (C.devices calls.new) result }
{
    match child {
        Some((at, kind)) => match view_of(calls, at) {
            Ok(view) => Ok(!(kind == LabelKind::IndexArray && are_points(&view, index))),
            Err(error) => Err(error),
        },
        None => Ok(false),
    }
}

/// Whether it is of whole numbers with data, so many for each point.
fn are_points(view: &NodeView, index: usize) -> bool
    ensures { result ≡ shows_points index view.now }
{
    match view.dims() {
        &[first, _] => is_ints(view) && first == index as u64,
        _ => false,
    }
}
