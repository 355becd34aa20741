//! What is answered of the tree in work, over any space and what is kept of the file in memory. No link is followed.

ghost use Rattle.std.specs.Prelude.{◌≡◌, true, false, Ok, IfOk, IfErr, IsSome};
ghost use Rattle.adf_model.specs.declared.error.AdfError.{AdfError};
ghost use Rattle.adf_model.specs.declared.tree.Reply.{Reply};
ghost use Rattle.adf_model.specs.declared.tree.Query.TheVariants.{Find};
ghost use Rattle.adf_model.specs.Answers.{answering_by, asked_node, field_within, file_reply, is_followed, searched, IsReplyTo};
ghost use Rattle.adf_model.specs.Follow.{child_within, search_path, start_of, stay};
ghost use Rattle.adf_model.specs.Steps.{IsFileAnswer};
ghost use Rattle.adf_model.specs.Tests.{and_then, if_there};
ghost use Rattle.cg_io.specs.Answers.{AnswersRead, OnlyReads};
ghost use Rattle.kept_asks.specs.Named.{HasNames, NamesStay};
ghost use Rattle.tree_asks.specs.Known.{IsKnown};
ghost use Rattle.tree_asks.specs.Told.{OfEach, Tells};
ghost use Rattle.tree_edits.specs.Rows.{AreNear, row_of};
ghost use Rattle.adf_tree.specs.Asks.{stays_at, enters_at, next_along, IsAskedCause, IsPathCause, IsStayCause};

use adf_links::components;
use adf_model::{AdfError, NodeId, Query, Reply};
use cg_io::{ReadBytes, Space};
use kept_asks::{answer_at, child_at};
use kept_names::Names;
use node_reads::read_header;
use std::alloc::Global;
use tree_asks::Hints;
use tree_edits::{Core, is_link};

fn asked_node(query: &Query) -> NodeId
    ensures { result ≡ asked_node query.now }
{
    match query {
        Query::Name { node }
        | Query::LabelOf { node }
        | Query::ShapeOf { node }
        | Query::ChildrenOf { node }
        | Query::LinkText { node }
        | Query::ReadAll { node }
        | Query::Next { node }
        | Query::FormatOf { node }
        | Query::Parent { node }
        | Query::Target { node } => *node,
        Query::ReadPart { node, .. } => *node,
        Query::Find { node, .. } => *node,
    }
}

fn is_followed(query: &Query) -> bool
    ensures { result ≡ is_followed query.now }
{
    match query {
        Query::Name { .. } | Query::Parent { .. } | Query::LinkText { .. } | Query::Find { .. } =>
            false,
        _ => true,
    }
}

// A node that is no link stays where it is; a link is refused with LinkMissing. By one read.
fn stay<R: ReadBytes>(bytes: &mut R, core: &Core, serial: u64) -> Result<(), AdfError>
    requires sound { R.is_sound bytes.old }
    requires near { AreNear core.now.wide core.now.rows.items }
    ensures told { Tells core.now (R.image bytes.old) (λ tree. stays_at tree serial) result }
    ensures reads { AnswersRead R.is_sound R.image R.state R.waiting OnlyReads IsStayCause
        bytes.old bytes.new result }
{
    let row = match core.rows.get(serial) {
        Some(row) => row,
        None => return Ok(()),
    };
    let header = match read_header(bytes, core.wide, row.place) {
        Ok(header) => header,
        Err(error) => return Err(error),
    };
    if is_link(&header) {
        Err(AdfError::LinkMissing)
    } else {
        Ok(())
    }
}

// The same, where links would be followed.
fn enter<R: ReadBytes>(
    bytes: &mut R,
    core: &Core,
    serial: u64,
    through: bool,
) -> Result<(), AdfError>
    requires sound { R.is_sound bytes.old }
    requires near { AreNear core.now.wide core.now.rows.items }
    ensures told { Tells core.now (R.image bytes.old) (λ tree. enters_at through tree serial)
        result }
    ensures free { IfErr result (λ e. through ≡ true) }
    ensures reads { AnswersRead R.is_sound R.image R.state R.waiting OnlyReads IsStayCause
        bytes.old bytes.new result }
{
    if through {
        stay(bytes, core, serial)
    } else {
        Ok(())
    }
}

// The child of a name; NotFound where there is none.
fn child_of<R: ReadBytes>(
    bytes: &mut R,
    core: &Core,
    hints: &Hints,
    names: &Names,
    node: NodeId,
    name: &[u8],
) -> Result<NodeId, AdfError>
    requires sound { R.is_sound bytes.old }
    requires near { AreNear core.now.wide core.now.rows.items }
    requires names { HasNames core.now (R.image bytes.old) names.now }
    ensures told { Tells core.now (R.image bytes.old) (λ tree. if_there
        (child_within tree node name.now) AdfError.NotFound (λ next. Ok next)) result }
    ensures reads { AnswersRead R.is_sound R.image R.state R.waiting OnlyReads IsPathCause
        bytes.old bytes.new result }
{
    match child_at(bytes, core, hints, names, node.serial, name) {
        Ok(Some(serial)) => Ok(NodeId {
            file: node.file,
            serial,
        }),
        Ok(None) => Err(AdfError::NotFound),
        Err(error) => Err(error),
    }
}

// The same of a node that is no link.
fn next_along<R: ReadBytes>(
    bytes: &mut R,
    core: &Core,
    hints: &Hints,
    names: &Names,
    node: NodeId,
    name: &[u8],
) -> Result<NodeId, AdfError>
    requires sound { R.is_sound bytes.old }
    requires near { AreNear core.now.wide core.now.rows.items }
    requires names { HasNames core.now (R.image bytes.old) names.now }
    ensures told { Tells core.now (R.image bytes.old) (λ tree. next_along tree node name.now)
        result }
    ensures reads { AnswersRead R.is_sound R.image R.state R.waiting OnlyReads IsPathCause
        bytes.old bytes.new result }
{
    match stay(bytes, core, node.serial) {
        Ok(()) => child_of(bytes, core, hints, names, node, name),
        Err(error) => Err(error),
    }
}

// Where a search begins: at the root of the node's file for an absolute path, else at the node.
fn start_of(node: NodeId, path: &[u8]) -> NodeId
    ensures { result ≡ start_of node path.now }
{
    match path {
        [b'/', ..] => NodeId {
            file: node.file,
            serial: 0,
        },
        _ => node,
    }
}

// The node that a path names, from the root where it begins with `/`, else from a node. The last node is not followed.
fn search<R: ReadBytes>(
    alloc: Global,
    bytes: &mut R,
    core: &Core,
    hints: &Hints,
    names: &Names,
    node: NodeId,
    path: &[u8],
) -> Result<NodeId, AdfError>
    requires sound { R.is_sound bytes.old }
    requires near { AreNear core.now.wide core.now.rows.items }
    requires names { HasNames core.now (R.image bytes.old) names.now }
    ensures told { Tells core.now (R.image bytes.old) (λ tree. search_path (stay tree)
        (child_within tree) AdfError.NotFound node path.now) result }
    ensures reads { AnswersRead R.is_sound R.image R.state R.waiting OnlyReads IsPathCause
        bytes.old bytes.new result }
{
    let parts = match components(alloc, path) {
        Ok(parts) => parts,
        Err(error) => return Err(error),
    };
    let mut at = start_of(node, path);
    'parts: for range in parts.items() {
        at = match next_along(bytes, core, hints, names, at, &path[range.start..range.end]) {
            Ok(next) => next,
            Err(error) => return Err(error),
        };
    }
    Ok(at)
}

// What is answered of the node that a query names: where links would be followed it is none.
fn of_node<S: Space>(
    alloc: Global,
    space: &mut S,
    core: &Core,
    hints: &Hints,
    names: &mut Names,
    query: &Query,
) -> Result<Reply, AdfError>
    requires sound { S.is_sound space.old }
    requires near { AreNear core.now.wide core.now.rows.items }
    requires names { HasNames core.now (S.image space.old) names.old }
    ensures told { Tells core.now (S.image space.old) (λ tree. and_then
        (answering_by (stay tree) query.now) (λ at. field_within tree at query.now)) result }
    ensures kind { IfOk result (IsReplyTo query.now) }
    ensures known { IfOk result (IsKnown core.now (asked_node query.now) query.now) }
    ensures reads { AnswersRead S.is_sound S.image S.state S.waiting OnlyReads
        (IsAskedCause query.now) space.old space.new result }
    ensures names { NamesStay core.now (S.image space.old) names.old names.new }
{
    let at = asked_node(query);
    match enter(space, core, at.serial, is_followed(query)) {
        Ok(()) => answer_at(alloc, space, core, hints, names, at, query),
        Err(error) => Err(error),
    }
}

// The node that a path names, as it is answered.
fn find<S: Space>(
    alloc: Global,
    space: &mut S,
    core: &Core,
    hints: &Hints,
    names: &Names,
    node: NodeId,
    path: &[u8],
) -> Result<Reply, AdfError>
    requires sound { S.is_sound space.old }
    requires near { AreNear core.now.wide core.now.rows.items }
    requires names { HasNames core.now (S.image space.old) names.now }
    ensures told { Tells core.now (S.image space.old) (λ tree. and_then (search_path (stay tree)
        (child_within tree) AdfError.NotFound node path.now) (λ found. Ok (Reply.Node found)))
        result }
    ensures kind { IfOk result (IsReplyTo (Find node path.now)) }
    ensures reads { AnswersRead S.is_sound S.image S.state S.waiting OnlyReads
        (IsAskedCause (Find node path.now)) space.old space.new result }
{
    match search(alloc, space, core, hints, names, node, path) {
        Ok(found) => Ok(Reply::Node(found)),
        Err(error) => Err(error),
    }
}

// What is answered to a query whose node is there.
fn answer_there<S: Space>(
    alloc: Global,
    space: &mut S,
    core: &Core,
    hints: &Hints,
    names: &mut Names,
    query: &Query,
) -> Result<Reply, AdfError>
    requires sound { S.is_sound space.old }
    requires near { AreNear core.now.wide core.now.rows.items }
    requires names { HasNames core.now (S.image space.old) names.old }
    requires there { IsSome (row_of core.now.rows.items (asked_node query.now).serial) }
    ensures told { Tells core.now (S.image space.old)
        (λ tree. file_reply tree query.now (searched query.now)) result }
    ensures kind { IfOk result (IsReplyTo query.now) }
    ensures known { IfOk result (IsKnown core.now (asked_node query.now) query.now) }
    ensures reads { AnswersRead S.is_sound S.image S.state S.waiting OnlyReads
        (IsAskedCause query.now) space.old space.new result }
    ensures names { NamesStay core.now (S.image space.old) names.old names.new }
{
    match query {
        Query::Find { node, path } => find(alloc, space, core, hints, names, *node, path.items()),
        _ => of_node(alloc, space, core, hints, names, query),
    }
}

/// What a file that is not broken answers to a query.
pub(crate) fn answer<S: Space>(
    alloc: Global,
    space: &mut S,
    core: &Core,
    hints: &Hints,
    names: &mut Names,
    query: &Query,
) -> Result<Reply, AdfError>
    requires sound { S.is_sound space.old }
    requires near { AreNear core.now.wide core.now.rows.items }
    requires names { HasNames core.now (S.image space.old) names.old }
    ensures told { OfEach core.now (S.image space.old)
        (λ image tree p. IsFileAnswer false tree query.now result) }
    ensures kind { IfOk result (IsReplyTo query.now) }
    ensures known { IfOk result (IsKnown core.now (asked_node query.now) query.now) }
    ensures reads { AnswersRead S.is_sound S.image S.state S.waiting OnlyReads
        (IsAskedCause query.now) space.old space.new result }
    ensures names { NamesStay core.now (S.image space.old) names.old names.new }
{
    match core.rows.get(asked_node(query).serial) {
        Some(_) => answer_there(alloc, space, core, hints, names, query),
        None => Err(AdfError::NoSuchNode),
    }
}
