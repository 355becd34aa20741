//! What is seen at a node that a walk comes to.

ghost use Rattle.std.specs.Prelude.{◌≡◌, ◌&&◌, [], Some, None, IfOk};
ghost use Rattle.std.specs.List.{AllByRecursion};
ghost use Rattle.adf_model.specs.Causes.{OnlyAsks};
ghost use Rattle.adf_model.specs.Slots.{IsTold};
ghost use Rattle.sids_views.specs.Asks.{IsValueOr, HasAskCause, IsThere, IsPlain};
ghost use Rattle.sids_views.specs.Views.{target_of, entries_there};
ghost use Rattle.sids_rules.specs.SeenNodes.{IsSeen};
ghost use Rattle.cgns_check.specs.Levels.{visit_at};
ghost use Rattle.cgns_check.specs.Looks.{is_link_to, is_entered_by, nearest_by, rest_of, IsSight, StandsUnder};

use crate::frame::{Frame, Stop};
use adf_model::{AdfError, NodeId, TreeCalls};
use sids_rules::Seen;
use sids_tables::LabelKind;
use sids_views::{entries_of, kind_of_node, target_of};

/// A seen node, whether it is a link inside a link, and its children where they are entered.
#[derive(Drop)]
pub struct Sight {
    pub seen: Seen,
    pub note: bool,
    pub below: Option<Frame>,
}

/// What is seen at a node. It asks for the node that it is followed to, for the label of that one and
/// for its children.
pub fn look<C: TreeCalls>(calls: &mut C, stop: Stop) -> Result<Sight, AdfError>
    requires ready { C.is_ready calls.old }
    requires seen { IsTold (C.files calls.old) (C.devices calls.old)
        → IsSeen (C.files calls.old) (visit_at (C.files calls.old) [] stop).seen }
    ensures ready { C.is_ready calls.new }
    ensures only { OnlyAsks (C.files calls.old) (C.devices calls.old)
        (C.devices calls.new) (C.files calls.new) }
    ensures look { IsTold (C.files calls.old) (C.devices calls.old)
        → IsSight (C.files calls.old) stop result }
    ensures cause { HasAskCause (C.files calls.old) (C.devices calls.old)
        (C.devices calls.new) result }
{
    match target_of(calls, stop.node) {
        Ok(Some(at)) => look_at(calls, stop, at),
        Ok(None) => Ok(look_alone(stop, None)),
        Err(error) => Err(error),
    }
}

/// A node of which no children are entered.
fn look_alone(stop: Stop, target: Option<NodeId>) -> Sight
    ensures seen { result.seen ≡ record {
      node = stop.node;
      target = target;
      parent = stop.parent;
      base = stop.base;
      zone = stop.zone;
    } }
    ensures note { result.note ≡ (stop.inside && is_link_to stop.node target) }
    ensures below { result.below ≡ None }
{
    Sight {
        seen: Seen {
            node: stop.node,
            target,
            parent: stop.parent,
            base: stop.base,
            zone: stop.zone,
        },
        note: stop.inside && is_link_to(stop.node, target),
        below: None,
    }
}

fn is_link_to(node: NodeId, target: Option<NodeId>) -> bool
    ensures { result ≡ is_link_to node target }
{
    match target {
        Some(at) => !(node.file == at.file && node.serial == at.serial),
        None => true,
    }
}

/// What is seen at a node that is followed to that one.
fn look_at<C: TreeCalls>(calls: &mut C, stop: Stop, at: NodeId) -> Result<Sight, AdfError>
    requires ready { C.is_ready calls.old }
    requires seen { IsTold (C.files calls.old) (C.devices calls.old)
        → IsSeen (C.files calls.old) (visit_at (C.files calls.old) [] stop).seen }
    requires target { IsTold (C.files calls.old) (C.devices calls.old)
        → target_of (C.files calls.old) stop.node ≡ Some at }
    requires plain { IsTold (C.files calls.old) (C.devices calls.old)
        → IsPlain (C.files calls.old) at }
    ensures ready { C.is_ready calls.new }
    ensures only { OnlyAsks (C.files calls.old) (C.devices calls.old)
        (C.devices calls.new) (C.files calls.new) }
    ensures look { IsTold (C.files calls.old) (C.devices calls.old)
        → IsSight (C.files calls.old) stop result }
    ensures cause { HasAskCause (C.files calls.old) (C.devices calls.old)
        (C.devices calls.new) result }
{
    let alone = look_alone(stop, Some(at));
    if alone.note {
        return Ok(alone);
    }
    match kind_of_node(calls, at) {
        Ok(kind) => {
            if !is_entered(stop.parent, kind) {
                return Ok(alone);
            }
            match children_below(calls, stop, at, kind) {
                Ok(frame) => Ok(Sight {
                    below: Some(frame),
                    ..alone
                }),
                Err(error) => Err(error),
            }
        }
        Err(error) => Err(error),
    }
}

/// Whether the children of a node are entered: of the first node, and of those of the profile.
fn is_entered(parent: Option<NodeId>, kind: LabelKind) -> bool
    ensures { result ≡ is_entered_by parent kind }
{
    parent.is_none() || kind != LabelKind::Other
}

/// The children of a followed node of a kind, with what is above them.
fn children_below<C: TreeCalls>(
    calls: &mut C,
    stop: Stop,
    at: NodeId,
    kind: LabelKind,
) -> Result<Frame, AdfError>
    requires ready { C.is_ready calls.old }
    requires plain { IsTold (C.files calls.old) (C.devices calls.old)
        → IsPlain (C.files calls.old) at }
    ensures ready { C.is_ready calls.new }
    ensures only { OnlyAsks (C.files calls.old) (C.devices calls.old)
        (C.devices calls.new) (C.files calls.new) }
    ensures value { IsTold (C.files calls.old) (C.devices calls.old)
        → IsValueOr (entries_there (C.files calls.old) at) (rest_of result) }
    ensures there { IsTold (C.files calls.old) (C.devices calls.old)
        → IfOk result (λ frame. AllByRecursion (λ entry. IsThere (C.files calls.old) entry.node)
        frame.rest) }
    ensures above { IfOk result (StandsUnder stop at kind) }
    ensures cause { HasAskCause (C.files calls.old) (C.devices calls.old)
        (C.devices calls.new) result }
{
    match entries_of(calls, at) {
        Ok(entries) => Ok(Frame::new(
            at,
            nearest(LabelKind::CgnsBase, kind, stop.parent, at, stop.base),
            nearest(LabelKind::Zone, kind, stop.parent, at, stop.zone),
            stop.inside || is_link_to(stop.node, Some(at)),
            entries,
        )),
        Err(error) => Err(error),
    }
}

/// The nearest node of a kind above the children of a node: that node, where it is one and has a
/// parent.
fn nearest(
    wanted: LabelKind,
    kind: LabelKind,
    parent: Option<NodeId>,
    at: NodeId,
    above: Option<NodeId>,
) -> Option<NodeId>
    ensures { result ≡ nearest_by wanted kind parent at above }
{
    if parent.is_some() && kind == wanted {
        Some(at)
    } else {
        above
    }
}
