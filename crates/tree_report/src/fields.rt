//! What a line tells of a node.

ghost use Rattle.std.specs.Prelude.{◌≡◌, IfOk};
ghost use Rattle.adf_model.specs.Causes.{OnlyAsks};
ghost use Rattle.adf_model.specs.Slots.{IsTold, AreTrees};
ghost use Rattle.sids_views.specs.Asks.{IsValueOr, HasAskCause, IsThere, IsPlain};
ghost use Rattle.sids_views.specs.Views.{node_there};
ghost use Rattle.tree_report.specs.Fields.{link_of, plain_fields, as_link, IsLinkReply};

use adf_model::{AdfError, NodeId, Query, Reply, Shape, Text, TreeCalls};
use sids_views::{has_data, label_of, shape_of_node};

/// The file and the path that a link names. No file is named for the link's own one.
#[derive(Drop)]
pub struct Link {
    pub file: Text,
    pub path: Text,
}

/// What a line tells of a node: where a link leads, or the label, the type and the dimensions of
/// another node, and whether it has data.
#[derive(Drop)]
pub enum Fields {
    Link(Link),
    Node {
        label: Text,
        shape: Shape,
        has_data: bool,
    },
}

/// Where a node leads, if it is a link.
pub(crate) fn link_of<C: TreeCalls>(calls: &mut C, node: NodeId) -> Result<Option<Link>, AdfError>
    requires ready { C.is_ready calls.old }
    requires there { IsTold (C.files calls.old) (C.devices calls.old)
        → AreTrees (C.files calls.old) → IsThere (C.files calls.old) node }
    ensures ready { C.is_ready calls.new }
    ensures only { OnlyAsks (C.files calls.old) (C.devices calls.old)
        (C.devices calls.new) (C.files calls.new) }
    ensures trees { IsTold (C.files calls.old) (C.devices calls.old)
        → AreTrees (C.files calls.old) }
    ensures value { IsTold (C.files calls.old) (C.devices calls.old)
        → IsValueOr (link_of (node_there (C.files calls.old) node)) result }
    ensures cause { HasAskCause (C.files calls.old) (C.devices calls.old)
        (C.devices calls.new) result }
{
    as_link(calls.ask(&Query::LinkText { node }))
}

/// Where a link leads, by the answer to a question for its text: none where it is no link.
fn as_link(answer: Result<Reply, AdfError>) -> Result<Option<Link>, AdfError>
    requires { IfOk answer IsLinkReply }
    ensures { result ≡ as_link answer }
{
    match answer {
        Ok(Reply::LinkText { file, path }) => Ok(Some(Link { file, path })),
        Ok(_) => unreachable!(),
        Err(AdfError::NotALink) => Ok(None),
        Err(error) => Err(error),
    }
}

/// What a line tells of a node that is no link. No data are read for it.
pub(crate) fn plain_fields<C: TreeCalls>(calls: &mut C, at: NodeId) -> Result<Fields, AdfError>
    requires ready { C.is_ready calls.old }
    requires plain { IsTold (C.files calls.old) (C.devices calls.old)
        → IsPlain (C.files calls.old) at }
    ensures ready { C.is_ready calls.new }
    ensures only { OnlyAsks (C.files calls.old) (C.devices calls.old)
        (C.devices calls.new) (C.files calls.new) }
    ensures value { IsTold (C.files calls.old) (C.devices calls.old)
        → IsValueOr (plain_fields (node_there (C.files calls.old) at)) result }
    ensures cause { HasAskCause (C.files calls.old) (C.devices calls.old)
        (C.devices calls.new) result }
{
    let label = match label_of(calls, at) {
        Ok(label) => label,
        Err(error) => return Err(error),
    };
    let shape = match shape_of_node(calls, at) {
        Ok(shape) => shape,
        Err(error) => return Err(error),
    };
    match has_data(calls, at) {
        Ok(has_data) => Ok(Fields::Node {
            label,
            shape,
            has_data,
        }),
        Err(error) => Err(error),
    }
}
