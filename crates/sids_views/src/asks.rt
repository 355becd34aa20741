//! One question about a node.

ghost use Rattle.std.specs.Prelude.{◌≡◌, ◌≤◌, is_some, true, unwrap_or, option_map, length, [], IfOk, IfSome};
ghost use Rattle.std.specs.List.{AllByRecursion};
ghost use Rattle.adf_model.specs.Edits.{size_of, size_limit};
ghost use Rattle.adf_model.specs.Slots.{IsTold, AreTrees};
ghost use Rattle.adf_model.specs.Causes.{OnlyAsks};
ghost use Rattle.sids_views.specs.Asks.{IsValueOr, HasAskCause, IsThere, IsPlain};
ghost use Rattle.adf_model.specs.Answers.{shape_of, IsReplyTo};
ghost use Rattle.adf_model.specs.Steps.{IsAnswer};
ghost use Rattle.sids_views.specs.Views.{node_there, target_of, kind_there, format_there, entries_there};
ghost use Rattle.sids_views.specs.Nodes.{view_of};

use crate::node_view::NodeView;
use crate::replies::{as_bytes, as_children, as_format, as_presence, as_shape, as_target};
use adf_model::{
    AdfError, Children, Format, NodeId, Query, Reply, Selection, Shape, Text, TreeCalls,
};
use sids_tables::{LabelKind, label_kind};

/// One query, with what the questions below need of it.
fn ask<C: TreeCalls>(calls: &mut C, query: &Query) -> Result<Reply, AdfError>
    requires ready { C.is_ready calls.old }
    ensures ready { C.is_ready calls.new }
    ensures only { OnlyAsks (C.files calls.old) (C.devices calls.old)
        (C.devices calls.new) (C.files calls.new) }
    ensures trees { IsTold (C.files calls.old) (C.devices calls.old)
        → AreTrees (C.files calls.old) }
    ensures answer { IsTold (C.files calls.old) (C.devices calls.old)
        → IsAnswer (C.files calls.old) query.now result }
    ensures kind { IfOk result (IsReplyTo query.now) }
    ensures cause { HasAskCause (C.files calls.old) (C.devices calls.old)
        (C.devices calls.new) result }
{
    calls.ask(query)
}

/// The label of a node that is no link.
pub fn label_of<C: TreeCalls>(calls: &mut C, at: NodeId) -> Result<Text, AdfError>
    requires ready { C.is_ready calls.old }
    requires plain { IsTold (C.files calls.old) (C.devices calls.old)
        → IsPlain (C.files calls.old) at }
    ensures ready { C.is_ready calls.new }
    ensures only { OnlyAsks (C.files calls.old) (C.devices calls.old)
        (C.devices calls.new) (C.files calls.new) }
    ensures value { IsTold (C.files calls.old) (C.devices calls.old)
        → IsValueOr (node_there (C.files calls.old) at).label result }
    ensures cause { HasAskCause (C.files calls.old) (C.devices calls.old)
        (C.devices calls.new) result }
{
    as_bytes(ask(calls, &Query::LabelOf { node: at }))
}

/// What the label of a node that is no link says that it is.
pub fn kind_of_node<C: TreeCalls>(calls: &mut C, at: NodeId) -> Result<LabelKind, AdfError>
    requires ready { C.is_ready calls.old }
    requires plain { IsTold (C.files calls.old) (C.devices calls.old)
        → IsPlain (C.files calls.old) at }
    ensures ready { C.is_ready calls.new }
    ensures only { OnlyAsks (C.files calls.old) (C.devices calls.old)
        (C.devices calls.new) (C.files calls.new) }
    ensures value { IsTold (C.files calls.old) (C.devices calls.old)
        → IsValueOr (kind_there (C.files calls.old) at) result }
    ensures cause { HasAskCause (C.files calls.old) (C.devices calls.old)
        (C.devices calls.new) result }
{
    match label_of(calls, at) {
        Ok(label) => Ok(label_kind(label.items())),
        Err(error) => Err(error),
    }
}

/// The type and the dimensions of a node that is no link.
pub fn shape_of_node<C: TreeCalls>(calls: &mut C, at: NodeId) -> Result<Shape, AdfError>
    requires ready { C.is_ready calls.old }
    requires plain { IsTold (C.files calls.old) (C.devices calls.old)
        → IsPlain (C.files calls.old) at }
    ensures ready { C.is_ready calls.new }
    ensures only { OnlyAsks (C.files calls.old) (C.devices calls.old)
        (C.devices calls.new) (C.files calls.new) }
    ensures value { IsTold (C.files calls.old) (C.devices calls.old)
        → IsValueOr (shape_of (node_there (C.files calls.old) at)) result }
    ensures cause { HasAskCause (C.files calls.old) (C.devices calls.old)
        (C.devices calls.new) result }
{
    as_shape(ask(calls, &Query::ShapeOf { node: at }))
}

/// The byte order of the file of a node that is no link.
pub fn format_of<C: TreeCalls>(calls: &mut C, at: NodeId) -> Result<Format, AdfError>
    requires ready { C.is_ready calls.old }
    requires plain { IsTold (C.files calls.old) (C.devices calls.old)
        → IsPlain (C.files calls.old) at }
    ensures ready { C.is_ready calls.new }
    ensures only { OnlyAsks (C.files calls.old) (C.devices calls.old)
        (C.devices calls.new) (C.files calls.new) }
    ensures value { IsTold (C.files calls.old) (C.devices calls.old)
        → IsValueOr (format_there (C.files calls.old) at) result }
    ensures cause { HasAskCause (C.files calls.old) (C.devices calls.old)
        (C.devices calls.new) result }
{
    as_format(ask(calls, &Query::FormatOf { node: at }))
}

/// The children of a node that is no link, each with its name, whether its link can be followed or not.
pub fn entries_of<C: TreeCalls>(calls: &mut C, at: NodeId) -> Result<Children, AdfError>
    requires ready { C.is_ready calls.old }
    requires plain { IsTold (C.files calls.old) (C.devices calls.old)
        → IsPlain (C.files calls.old) at }
    ensures ready { C.is_ready calls.new }
    ensures only { OnlyAsks (C.files calls.old) (C.devices calls.old)
        (C.devices calls.new) (C.files calls.new) }
    ensures value { IsTold (C.files calls.old) (C.devices calls.old)
        → IsValueOr (entries_there (C.files calls.old) at) result }
    ensures there { IsTold (C.files calls.old) (C.devices calls.old)
        → IfOk result (AllByRecursion (λ entry. IsThere (C.files calls.old) entry.node)) }
    ensures trees { IsTold (C.files calls.old) (C.devices calls.old)
        → AreTrees (C.files calls.old) }
    ensures cause { HasAskCause (C.files calls.old) (C.devices calls.old)
        (C.devices calls.new) result }
{
    as_children(ask(calls, &Query::ChildrenOf { node: at }))
}

/// The node that a node is seen as, where its link can be followed.
pub fn target_of<C: TreeCalls>(calls: &mut C, node: NodeId) -> Result<Option<NodeId>, AdfError>
    requires ready { C.is_ready calls.old }
    requires there { IsTold (C.files calls.old) (C.devices calls.old)
        → IsThere (C.files calls.old) node }
    ensures ready { C.is_ready calls.new }
    ensures only { OnlyAsks (C.files calls.old) (C.devices calls.old)
        (C.devices calls.new) (C.files calls.new) }
    ensures value { IsTold (C.files calls.old) (C.devices calls.old)
        → IsValueOr (target_of (C.files calls.old) node) result }
    ensures plain { IsTold (C.files calls.old) (C.devices calls.old)
        → IfOk result (λ target. IfSome target (IsPlain (C.files calls.old))) }
    ensures cause { HasAskCause (C.files calls.old) (C.devices calls.old)
        (C.devices calls.new) result }
{
    as_target(ask(calls, &Query::Target { node }))
}

/// A part of data that none has: of no dimension.
const NO_PART: Selection = Selection {
    rank: 0,
    start: [1; 12],
    end: [1; 12],
    stride: [1; 12],
};

/// Whether a node that is no link has data. No data are read for it.
pub fn has_data<C: TreeCalls>(calls: &mut C, at: NodeId) -> Result<bool, AdfError>
    requires ready { C.is_ready calls.old }
    requires plain { IsTold (C.files calls.old) (C.devices calls.old)
        → IsPlain (C.files calls.old) at }
    ensures ready { C.is_ready calls.new }
    ensures only { OnlyAsks (C.files calls.old) (C.devices calls.old)
        (C.devices calls.new) (C.files calls.new) }
    ensures value { IsTold (C.files calls.old) (C.devices calls.old)
        → IsValueOr (is_some (node_there (C.files calls.old) at).bytes) result }
    ensures cause { HasAskCause (C.files calls.old) (C.devices calls.old)
        (C.devices calls.new) result }
{
    as_presence(ask(
        calls,
        &Query::ReadPart {
            node: at,
            selection: NO_PART,
        },
    ))
}

/// The data of a node that is no link and has some, of at most 2^30 bytes.
pub fn data_of<C: TreeCalls>(calls: &mut C, at: NodeId) -> Result<Text, AdfError>
    requires ready { C.is_ready calls.old }
    requires plain { IsTold (C.files calls.old) (C.devices calls.old)
        → IsPlain (C.files calls.old) at }
    requires there { IsTold (C.files calls.old) (C.devices calls.old)
        → is_some (node_there (C.files calls.old) at).bytes ≡ true }
    requires small { IsTold (C.files calls.old) (C.devices calls.old)
        → size_of (node_there (C.files calls.old) at) ≤ size_limit }
    ensures ready { C.is_ready calls.new }
    ensures only { OnlyAsks (C.files calls.old) (C.devices calls.old)
        (C.devices calls.new) (C.files calls.new) }
    ensures value { IsTold (C.files calls.old) (C.devices calls.old)
        → IsValueOr (unwrap_or (node_there (C.files calls.old) at).bytes []) result }
    ensures size { IsTold (C.files calls.old) (C.devices calls.old)
        → IfOk result (λ bytes. length bytes ≡ size_of (node_there (C.files calls.old) at)) }
    ensures cause { HasAskCause (C.files calls.old) (C.devices calls.old)
        (C.devices calls.new) result }
{
    as_bytes(ask(calls, &Query::ReadAll { node: at }))
}

/// The name of a node, which may be a link.
pub fn name_of<C: TreeCalls>(calls: &mut C, node: NodeId) -> Result<Text, AdfError>
    requires ready { C.is_ready calls.old }
    requires there { IsTold (C.files calls.old) (C.devices calls.old)
        → IsThere (C.files calls.old) node }
    ensures ready { C.is_ready calls.new }
    ensures only { OnlyAsks (C.files calls.old) (C.devices calls.old)
        (C.devices calls.new) (C.files calls.new) }
    ensures value { IsTold (C.files calls.old) (C.devices calls.old)
        → IsValueOr (node_there (C.files calls.old) node).name result }
    ensures cause { HasAskCause (C.files calls.old) (C.devices calls.old)
        (C.devices calls.new) result }
{
    as_bytes(ask(calls, &Query::Name { node }))
}

/// What the label of the node says that a node is seen as, where its link can be followed.
pub fn seen_kind<C: TreeCalls>(calls: &mut C, node: NodeId) -> Result<Option<LabelKind>, AdfError>
    requires ready { C.is_ready calls.old }
    requires there { IsTold (C.files calls.old) (C.devices calls.old)
        → IsThere (C.files calls.old) node }
    ensures ready { C.is_ready calls.new }
    ensures only { OnlyAsks (C.files calls.old) (C.devices calls.old)
        (C.devices calls.new) (C.files calls.new) }
    ensures value { IsTold (C.files calls.old) (C.devices calls.old)
        → IsValueOr (option_map (kind_there (C.files calls.old))
        (target_of (C.files calls.old) node)) result }
    ensures cause { HasAskCause (C.files calls.old) (C.devices calls.old)
        (C.devices calls.new) result }
{
    match target_of(calls, node) {
        Ok(Some(at)) => match kind_of_node(calls, at) {
            Ok(kind) => Ok(Some(kind)),
            Err(error) => Err(error),
        },
        Ok(None) => Ok(None),
        Err(error) => Err(error),
    }
}

/// The view of a node that is no link. No data are read for it.
pub fn view_of<C: TreeCalls>(calls: &mut C, at: NodeId) -> Result<NodeView, AdfError>
    requires ready { C.is_ready calls.old }
    requires plain { IsTold (C.files calls.old) (C.devices calls.old)
        → IsPlain (C.files calls.old) at }
    ensures ready { C.is_ready calls.new }
    ensures only { OnlyAsks (C.files calls.old) (C.devices calls.old)
        (C.devices calls.new) (C.files calls.new) }
    ensures value { IsTold (C.files calls.old) (C.devices calls.old)
        → IsValueOr (view_of (node_there (C.files calls.old) at)) result }
    ensures cause { HasAskCause (C.files calls.old) (C.devices calls.old)
        (C.devices calls.new) result }
{
    match shape_of_node(calls, at) {
        Ok(shape) => match has_data(calls, at) {
            Ok(has_data) => Ok(NodeView::new(shape, has_data)),
            Err(error) => Err(error),
        },
        Err(error) => Err(error),
    }
}
