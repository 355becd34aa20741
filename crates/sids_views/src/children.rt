//! The children of a node.

ghost use Rattle.std.specs.Prelude.{◌≡◌, filter_map, IfOk};
ghost use Rattle.std.specs.List.{AllByRecursion};
ghost use Rattle.adf_model.specs.Causes.{OnlyAsks};
ghost use Rattle.adf_model.specs.Slots.{IsTold};
ghost use Rattle.sids_views.specs.Asks.{IsValueOr, HasAskCause, IsThere, IsPlain};
ghost use Rattle.sids_views.specs.Views.{seen_child, children_there};

use crate::asks::{entries_of, kind_of_node, target_of};
use crate::child::SeenChild;
use adf_model::{AdfError, Child, Children, Listing, NodeId, TreeCalls};
use std::alloc::Global;

/// The children of a node that is no link that count, each with its kind. One whose link cannot be
/// followed does not count.
pub fn children_of<C: TreeCalls>(
    alloc: Global,
    calls: &mut C,
    at: NodeId,
) -> Result<Listing<SeenChild>, AdfError>
    requires ready { C.is_ready calls.old }
    requires plain { IsTold (C.files calls.old) (C.devices calls.old)
        → IsPlain (C.files calls.old) at }
    ensures ready { C.is_ready calls.new }
    ensures only { OnlyAsks (C.files calls.old) (C.devices calls.old)
        (C.devices calls.new) (C.files calls.new) }
    ensures value { IsTold (C.files calls.old) (C.devices calls.old)
        → IsValueOr (children_there (C.files calls.old) at) result }
    ensures plain { IsTold (C.files calls.old) (C.devices calls.old)
        → IfOk result (AllByRecursion (λ child. IsPlain (C.files calls.old) child.target)) }
    ensures cause { HasAskCause (C.files calls.old) (C.devices calls.old)
        (C.devices calls.new) result }
{
    match entries_of(calls, at) {
        Ok(entries) => see_all(alloc, calls, entries),
        Err(error) => Err(error),
    }
}

/// The children that count, of all children.
fn see_all<C: TreeCalls>(
    alloc: Global,
    calls: &mut C,
    entries: Children,
) -> Result<Listing<SeenChild>, AdfError>
    requires ready { C.is_ready calls.old }
    requires there { IsTold (C.files calls.old) (C.devices calls.old)
        → AllByRecursion (λ entry. IsThere (C.files calls.old) entry.node) entries }
    ensures ready { C.is_ready calls.new }
    ensures only { OnlyAsks (C.files calls.old) (C.devices calls.old)
        (C.devices calls.new) (C.files calls.new) }
    ensures value { IsTold (C.files calls.old) (C.devices calls.old)
        → IsValueOr (filter_map (seen_child (C.files calls.old)) entries) result }
    ensures cause { HasAskCause (C.files calls.old) (C.devices calls.old)
        (C.devices calls.new) result }
{
    let mut seen = Vec::new(alloc);
    for entry in entries.into_items() {
        match see(calls, entry) {
            Ok(Some(child)) => {
                if seen.push(child).is_err() {
                    return Err(AdfError::Memory);
                }
            }
            Ok(None) => {}
            Err(error) => return Err(error),
        }
    }
    Ok(Listing::new(seen))
}

/// A child, where it counts.
fn see<C: TreeCalls>(calls: &mut C, entry: Child) -> Result<Option<SeenChild>, AdfError>
    requires ready { C.is_ready calls.old }
    requires there { IsTold (C.files calls.old) (C.devices calls.old)
        → IsThere (C.files calls.old) entry.node }
    ensures ready { C.is_ready calls.new }
    ensures only { OnlyAsks (C.files calls.old) (C.devices calls.old)
        (C.devices calls.new) (C.files calls.new) }
    ensures value { IsTold (C.files calls.old) (C.devices calls.old)
        → IsValueOr (seen_child (C.files calls.old) entry) result }
    ensures cause { HasAskCause (C.files calls.old) (C.devices calls.old)
        (C.devices calls.new) result }
{
    match target_of(calls, entry.node) {
        Ok(Some(target)) => match kind_of_node(calls, target) {
            Ok(kind) => Ok(Some(SeenChild {
                node: entry.node,
                name: entry.name,
                target,
                kind,
            })),
            Err(error) => Err(error),
        },
        Ok(None) => Ok(None),
        Err(error) => Err(error),
    }
}
