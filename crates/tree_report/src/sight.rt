//! What is asked of a node: what its line tells, and its children.

ghost use Rattle.std.specs.Prelude.{◌≡◌, IfOk};
ghost use Rattle.std.specs.List.{AllByRecursion};
ghost use Rattle.adf_model.specs.Causes.{OnlyAsks};
ghost use Rattle.adf_model.specs.Slots.{IsTold, AreTrees};
ghost use Rattle.sids_views.specs.Asks.{IsValueOr, HasAskCause, IsThere, IsPlain};
ghost use Rattle.tree_report.specs.Sights.{sight_of, plain_sight, AreThere};

use crate::fields::{Fields, link_of, plain_fields};
use adf_model::{AdfError, Children, NodeId, TreeCalls};
use sids_views::entries_of;
use std::alloc::Global;

/// What the line of a node tells, and the children of the node.
#[derive(Drop)]
pub struct Sight {
    pub fields: Fields,
    pub below: Children,
}

/// Asks for what the line of a node tells, and for its children: five questions at most. No link is
/// followed, and no data are read.
pub(crate) fn look<C: TreeCalls>(
    alloc: Global,
    calls: &mut C,
    at: NodeId,
) -> Result<Sight, AdfError>
    requires ready { C.is_ready calls.old }
    requires there { IsTold (C.files calls.old) (C.devices calls.old)
        → AreTrees (C.files calls.old) → IsThere (C.files calls.old) at }
    ensures ready { C.is_ready calls.new }
    ensures only { OnlyAsks (C.files calls.old) (C.devices calls.old)
        (C.devices calls.new) (C.files calls.new) }
    ensures trees { IsTold (C.files calls.old) (C.devices calls.old)
        → AreTrees (C.files calls.old) }
    ensures value { IsTold (C.files calls.old) (C.devices calls.old)
        → IsValueOr (sight_of (C.files calls.old) at) result }
    ensures there { IsTold (C.files calls.old) (C.devices calls.old)
        → IfOk result (AreThere (C.files calls.old)) }
    ensures cause { HasAskCause (C.files calls.old) (C.devices calls.old)
        (C.devices calls.new) result }
{
    match link_of(calls, at) {
        Ok(Some(link)) => Ok(Sight {
            fields: Fields::Link(link),
            below: Children::new(Vec::new(alloc)),
        }),
        Ok(None) => look_at_node(calls, at),
        Err(error) => Err(error),
    }
}

/// The same of a node that is no link.
fn look_at_node<C: TreeCalls>(calls: &mut C, at: NodeId) -> Result<Sight, AdfError>
    requires ready { C.is_ready calls.old }
    requires plain { IsTold (C.files calls.old) (C.devices calls.old)
        → IsPlain (C.files calls.old) at }
    ensures ready { C.is_ready calls.new }
    ensures only { OnlyAsks (C.files calls.old) (C.devices calls.old)
        (C.devices calls.new) (C.files calls.new) }
    ensures value { IsTold (C.files calls.old) (C.devices calls.old)
        → IsValueOr (plain_sight (C.files calls.old) at) result }
    ensures there { IsTold (C.files calls.old) (C.devices calls.old)
        → IfOk result (AreThere (C.files calls.old)) }
    ensures cause { HasAskCause (C.files calls.old) (C.devices calls.old)
        (C.devices calls.new) result }
{
    let fields = match plain_fields(calls, at) {
        Ok(fields) => fields,
        Err(error) => return Err(error),
    };
    match entries_of(calls, at) {
        Ok(below) => Ok(Sight { fields, below }),
        Err(error) => Err(error),
    }
}
