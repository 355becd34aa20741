//! Queries, through links.

ghost use Rattle.std.specs.Prelude.{◌≡◌, false, None, Some, IfOk, IsSome};
ghost use Rattle.adf_model.specs.declared.tree.Query.TheVariants.{Find};
ghost use Rattle.adf_model.specs.Answers as model;
ghost use Rattle.adf_model.specs.Answers.{asked_node, is_followed, searched, IsReplyTo};
ghost use Rattle.adf_model.specs.Slots.{open_at};
ghost use Rattle.adf_model.specs.Steps.{Asked};
ghost use Rattle.adf_model.specs.Causes.{OnlyAsks};
ghost use Rattle.adf_model.specs.Runs.{Makes};
ghost use Rattle.adf_follow.specs.Looking.{IsFound, IsToldAsked, HasAskCause, as_is};

use crate::lookups::{AskedFiles, OpenFiles};
use crate::walks::{reach, search};
use adf_model::{AdfError, NodeId, Query, Reply};
use std::alloc::Global;

/// Answers a query: through links where its kind goes through them. It changes no tree and writes
/// nothing. First come the refusals of its file and node, then those of the links, then those of the
/// node that is reached.
pub fn ask<F: AskedFiles>(alloc: Global, files: &mut F, query: &Query) -> Result<Reply, AdfError>
    requires { F.is_ready files.old }
    ensures ready { F.is_ready files.new }
    ensures pending { F.pending files.new ≡ F.pending files.old }
    ensures asked { Makes (F.files files.old) (F.devices files.old) (Asked query.now result)
        (F.devices files.new) (F.files files.new) }
{
    match files.enter_query(query) {
        Ok(()) => reply(alloc, files, query),
        Err(error) => Err(error),
    }
}

// What is answered behind the entry.
fn reply<F: AskedFiles>(alloc: Global, files: &mut F, query: &Query) -> Result<Reply, AdfError>
    requires ready { F.is_ready files.old }
    requires opened { IsSome (open_at (F.files files.old) (asked_node query.now).file) }
    ensures ready { F.is_ready files.new }
    ensures pending { F.pending files.new ≡ F.pending files.old }
    ensures leaves { OnlyAsks (F.files files.old) (F.devices files.old) (F.devices files.new)
        (F.files files.new) }
    ensures kind { IfOk result (IsReplyTo query.now) }
    ensures found { IsFound (IsToldAsked (F.files files.old) (F.devices files.old) query.now)
        (HasAskCause (F.files files.old) query.now (F.devices files.old) (F.devices files.new))
        as_is (model.reply_to (F.files files.old) query.now (searched query.now)) result }
{
    match query {
        Query::Find { node, path } => find(alloc, files, *node, path.items()),
        _ => of_node(alloc, files, query),
    }
}

// The node that a path names.
fn find<F: AskedFiles>(
    alloc: Global,
    files: &mut F,
    node: NodeId,
    path: &[u8],
) -> Result<Reply, AdfError>
    requires { F.is_ready files.old }
    ensures ready { F.is_ready files.new }
    ensures pending { F.pending files.new ≡ F.pending files.old }
    ensures leaves { OnlyAsks (F.files files.old) (F.devices files.old) (F.devices files.new)
        (F.files files.new) }
    ensures kind { IfOk result (IsReplyTo (Find node path.now)) }
    ensures found { IsFound (IsToldAsked (F.files files.old) (F.devices files.old)
        (Find node path.now)) (HasAskCause (F.files files.old) (Find node path.now)
        (F.devices files.old) (F.devices files.new)) as_is (model.reply_to (F.files files.old)
        (Find node path.now) (Some path.now)) result }
{
    match search(alloc, files, node, path) {
        Ok(node) => Ok(Reply::Node(node)),
        Err(error) => Err(error),
    }
}

// What is answered of the node that a query names or reaches.
fn of_node<F: AskedFiles>(alloc: Global, files: &mut F, query: &Query) -> Result<Reply, AdfError>
    requires ready { F.is_ready files.old }
    requires opened { IsSome (open_at (F.files files.old) (asked_node query.now).file) }
    ensures ready { F.is_ready files.new }
    ensures pending { F.pending files.new ≡ F.pending files.old }
    ensures leaves { OnlyAsks (F.files files.old) (F.devices files.old) (F.devices files.new)
        (F.files files.new) }
    ensures kind { IfOk result (IsReplyTo query.now) }
    ensures found { IsFound (IsToldAsked (F.files files.old) (F.devices files.old) query.now)
        (HasAskCause (F.files files.old) query.now (F.devices files.old) (F.devices files.new))
        as_is (model.reply_to (F.files files.old) query.now None) result }
{
    let at = match answering(alloc, files, query) {
        Ok(at) => at,
        Err(error) => return Err(error),
    };
    files.answer_at(at, query)
}

// The node that a query is answered of: the one that its links lead to, where they are followed.
fn answering<F: OpenFiles>(alloc: Global, files: &mut F, query: &Query) -> Result<NodeId, AdfError>
    requires { F.is_ready files.old }
    ensures ready { F.is_ready files.new }
    ensures pending { F.pending files.new ≡ F.pending files.old }
    ensures leaves { OnlyAsks (F.files files.old) (F.devices files.old) (F.devices files.new)
        (F.files files.new) }
    ensures opens { IsSome (open_at (F.files files.old) (asked_node query.now).file) → IfOk result
        (λ at. IsSome (open_at (F.files files.old) at.file)) }
    ensures stays { is_followed query.now ≡ false → IfOk result (λ at. at ≡ asked_node query.now) }
    ensures found { IsFound (IsToldAsked (F.files files.old) (F.devices files.old) query.now)
        (HasAskCause (F.files files.old) query.now (F.devices files.old) (F.devices files.new))
        as_is (model.answering_node (F.files files.old) query.now) result }
{
    if is_followed(query) {
        reach(alloc, files, asked_node(query))
    } else {
        Ok(asked_node(query))
    }
}

/// The node that a query names.
pub fn asked_node(query: &Query) -> NodeId
    ensures { result ≡ asked_node query.now }
{
    match query {
        Query::Name { node }
        | Query::LabelOf { node }
        | Query::ShapeOf { node }
        | Query::ChildrenOf { node }
        | Query::LinkText { node }
        | Query::ReadAll { node }
        | Query::Next { node }
        | Query::FormatOf { node }
        | Query::Parent { node }
        | Query::Target { node } => *node,
        Query::ReadPart { node, .. } => *node,
        Query::Find { node, .. } => *node,
    }
}

fn is_followed(query: &Query) -> bool
    ensures { result ≡ is_followed query.now }
{
    match query {
        Query::Name { .. } | Query::Parent { .. } | Query::LinkText { .. } | Query::Find { .. } =>
            false,
        _ => true,
    }
}
