//! The child of a name, and the answer to a query on a node.

ghost use Rattle.std.specs.Prelude.{◌≡◌, ◌+◌, ◌≤◌, ◌^◌, List, true, map, Ok, IfOk, IfErr, IsSome, Some};
ghost use Rattle.adf_format.specs.Names.{is_name};
ghost use Rattle.adf_format.specs.RecordFields.{node_length};
ghost use Rattle.adf_format.specs.Tree.{child_named};
ghost use Rattle.adf_model.specs.declared.tree.Child.{Child};
ghost use Rattle.adf_model.specs.declared.tree.NodeId.{NodeId};
ghost use Rattle.adf_model.specs.declared.tree.Query.{Query};
ghost use Rattle.adf_model.specs.declared.tree.Reply.{Reply};
ghost use Rattle.adf_model.specs.Answers.{field_within, IsReplyTo};
ghost use Rattle.cg_io.specs.Answers.{AnswersRead, OnlyReads};
ghost use Rattle.kept_names.specs.Kept.{AreKept, Children, list_at, total};
ghost use Rattle.node_reads.specs.Reads.{IsUnread};
ghost use Rattle.tree_edits.specs.Rows.{AreNear, row_of};
ghost use Rattle.tree_edits.specs.Listed.{IsTableOf, ReadsTable};
ghost use Rattle.tree_asks.specs.Headers.{HeaderSays};
ghost use Rattle.tree_asks.specs.Told.{Tells};
ghost use Rattle.tree_asks.specs.Causes.{AskReads, AtRow, IsChildCause};
ghost use Rattle.tree_asks.specs.Known.{IsKnown};
ghost use Rattle.tree_asks.specs.Refusals.{IsAskRefusal};
ghost use Rattle.kept_asks.specs.Named.{HasNames, NamesStay, kept_child};

use crate::lists::{answered, listed};
use adf_model::{AdfError, Child, Listing, NodeId, Query, Reply, is_name};
use cg_io::{ReadBytes, Space};
use kept_names::{MOST_NAMES, Names};
use node_reads::{name_field, read_header};
use std::alloc::Global;
use tree_asks::{Hints, answer_at as read_answer, child_at as read_child};
use tree_edits::Core;

/// The serial of the child of a name: none where the node has no such child, and where there is no such node.
///
/// Where the names of the node's children are kept, it is answered without a read.
pub fn child_at<R: ReadBytes>(
    bytes: &mut R,
    core: &Core,
    hints: &Hints,
    names: &Names,
    parent: u64,
    name: &[u8],
) -> Result<Option<u64>, AdfError>
    requires sound { R.is_sound bytes.old }
    requires near { AreNear core.now.wide core.now.rows.items }
    requires names { HasNames core.now (R.image bytes.old) names.now }
    ensures told { Tells core.now (R.image bytes.old)
        (λ tree. Ok (child_named tree parent name.now)) result }
    ensures reads { AnswersRead R.is_sound R.image R.state R.waiting
        (ReadsTable (IsTableOf core.now (R.image bytes.old) parent) 1 4)
        (λ before now e. AtRow core.now parent
        (λ row. IsChildCause core.now (R.image bytes.old) row.place before now e))
        bytes.old bytes.new result }
    ensures still { is_name name.now ≡ true → IsSome (list_at names.now parent)
        → bytes.new ≡ bytes.old }
{
    if is_name(name) {
        match names.list(parent) {
            Some(list) => return Ok(list.find(&name_field(name))),
            None => {}
        }
    }
    read_child(bytes, core, hints, parent, name)
}

// Keeps the children of a node that were answered, where there is memory.
fn keep(alloc: Global, names: &mut Names, node: u64, children: &[Child])
    ensures { (now was : Children) → AreKept names.old now was
        → map kept_child children.now ≡ now node → AreKept names.new now was }
{
    match listed(alloc, children) {
        Some(list) => names.keep(node, list),
        None => {}
    }
}

// The same of a reply, where it is one of children.
fn keep_reply(alloc: Global, names: &mut Names, node: u64, reply: &Reply)
    ensures { (now was : Children) → AreKept names.old now was
        → ((children : List Child) → reply.now ≡ Reply.Children children
        → map kept_child children ≡ now node) → AreKept names.new now was }
{
    match reply {
        Reply::Children(children) => keep(alloc, names, node, children.items()),
        _ => {}
    }
}

// And of an answer, where it is no refusal.
fn keep_answer(alloc: Global, names: &mut Names, node: u64, answer: &Result<Reply, AdfError>)
    ensures { (now was : Children) → AreKept names.old now was
        → ((children : List Child) → answer.now ≡ Ok (Reply.Children children)
        → map kept_child children ≡ now node) → AreKept names.new now was }
{
    match answer {
        Ok(reply) => keep_reply(alloc, names, node, reply),
        Err(_) => {}
    }
}

// The children of a node as they are read; their names are kept from then on.
fn read_children<S: Space>(
    alloc: Global,
    space: &mut S,
    core: &Core,
    hints: &Hints,
    names: &mut Names,
    at: NodeId,
    node: NodeId,
) -> Result<Reply, AdfError>
    requires sound { S.is_sound space.old }
    requires near { AreNear core.now.wide core.now.rows.items }
    ensures told { Tells core.now (S.image space.old)
        (λ tree. field_within tree at (Query.ChildrenOf node)) result }
    ensures kind { IfOk result (IsReplyTo (Query.ChildrenOf node)) }
    ensures known { IfOk result (IsKnown core.now at (Query.ChildrenOf node)) }
    ensures reads { AnswersRead S.is_sound S.image S.state S.waiting
        (AskReads core.now (S.image space.old) at (Query.ChildrenOf node))
        (IsAskRefusal (Query.ChildrenOf node)) space.old space.new result }
    ensures names { NamesStay core.now (S.image space.old) names.old names.new }
{
    let query = Query::ChildrenOf { node };
    let result = read_answer(alloc, space, core, hints, at, &query);
    keep_answer(alloc, names, at.serial, &result);
    result
}

// The children of a node from those that are kept, or as they are read.
fn children_at<S: Space>(
    alloc: Global,
    space: &mut S,
    core: &Core,
    hints: &Hints,
    names: &mut Names,
    at: NodeId,
    node: NodeId,
) -> Result<Reply, AdfError>
    requires sound { S.is_sound space.old }
    requires near { AreNear core.now.wide core.now.rows.items }
    requires names { HasNames core.now (S.image space.old) names.old }
    ensures told { Tells core.now (S.image space.old)
        (λ tree. field_within tree at (Query.ChildrenOf node)) result }
    ensures kind { IfOk result (IsReplyTo (Query.ChildrenOf node)) }
    ensures known { IfOk result (IsKnown core.now at (Query.ChildrenOf node)) }
    ensures reads { AnswersRead S.is_sound S.image S.state S.waiting
        (AskReads core.now (S.image space.old) at (Query.ChildrenOf node))
        (IsAskRefusal (Query.ChildrenOf node)) space.old space.new result }
    ensures names { NamesStay core.now (S.image space.old) names.old names.new }
    ensures still { IsSome (list_at names.old at.serial) → space.new ≡ space.old }
{
    let _row = match core.rows.get(at.serial) {
        Some(row) => row,
        None => return Err(AdfError::NoSuchNode),
    };
    match names.list(at.serial) {
        Some(list) => match answered(alloc, at.file, list) {
            Ok(children) => Ok(Reply::Children(Listing::new(children))),
            Err(error) => Err(error),
        },
        None => read_children(alloc, space, core, hints, names, at, node),
    }
}

/// What is answered of a node, as it is named: no link is followed.
///
/// `Find` is answered by a search, and is refused here with NotFound. Where the names of a node's children are kept, its children
/// are answered without a read.
pub fn answer_at<S: Space>(
    alloc: Global,
    space: &mut S,
    core: &Core,
    hints: &Hints,
    names: &mut Names,
    at: NodeId,
    query: &Query,
) -> Result<Reply, AdfError>
    requires sound { S.is_sound space.old }
    requires near { AreNear core.now.wide core.now.rows.items }
    requires names { HasNames core.now (S.image space.old) names.old }
    ensures told { Tells core.now (S.image space.old)
        (λ tree. field_within tree at query.now) result }
    ensures kind { IfOk result (IsReplyTo query.now) }
    ensures known { IfOk result (IsKnown core.now at query.now) }
    ensures reads { AnswersRead S.is_sound S.image S.state S.waiting
        (AskReads core.now (S.image space.old) at query.now)
        (IsAskRefusal query.now) space.old space.new result }
    ensures names { NamesStay core.now (S.image space.old) names.old names.new }
    ensures still { (node : NodeId) → query.now ≡ Query.ChildrenOf node
        → IsSome (list_at names.old at.serial) → space.new ≡ space.old }
{
    match query {
        Query::ChildrenOf { node } => { children_at(alloc, space, core, hints, names, at, *node) }
        _ => read_answer(alloc, space, core, hints, at, query),
    }
}

// Whether the children of the node at a place may be kept beside those of others. Its header is read for their number.
fn is_room<R: ReadBytes>(
    bytes: &mut R,
    core: &Core,
    names: &Names,
    place: u64,
) -> Result<bool, AdfError>
    requires sound { R.is_sound bytes.old }
    requires near { place + node_length core.now.wide ≤ 2 ^ 44 }
    ensures room { IfOk result (λ room. room ≡ true
        → HeaderSays core.now.wide (R.image bytes.old) place
        (λ header. total names.now + header.children ≤ 2 ^ 20)) }
    ensures reads { AnswersRead R.is_sound R.image R.state R.waiting OnlyReads
        (IsUnread (λ rule place. ⊥)) bytes.old bytes.new result }
{
    match read_header(bytes, core.wide, place) {
        Ok(header) => Ok(header.children as usize <= MOST_NAMES - names.len()),
        Err(AdfError::ReadFault) => Err(AdfError::ReadFault),
        Err(_) => Ok(false),
    }
}

/// Keeps the children of a node, where they are not kept yet: its table is read whole.
///
/// It is refused where a read fails. Where memory is wanting, where bytes are no layout, where there is no such node, and where too
/// many names would be kept, nothing more is kept.
pub fn know_children<S: Space>(
    alloc: Global,
    space: &mut S,
    core: &Core,
    hints: &Hints,
    names: &mut Names,
    at: NodeId,
) -> Result<(), AdfError>
    requires sound { S.is_sound space.old }
    requires near { AreNear core.now.wide core.now.rows.items }
    requires names { HasNames core.now (S.image space.old) names.old }
    ensures names { NamesStay core.now (S.image space.old) names.old names.new }
    ensures reads { AnswersRead S.is_sound S.image S.state S.waiting OnlyReads
        (IsUnread (λ rule place. ⊥)) space.old space.new result }
    ensures live { IfErr result (λ e. IsSome (row_of core.now.rows.items at.serial)) }
    ensures still { IsSome (list_at names.old at.serial) → space.new ≡ space.old }
{
    let row = match core.rows.get(at.serial) {
        Some(row) => row,
        None => return Ok(()),
    };
    match names.list(at.serial) {
        Some(_) => return Ok(()),
        None => {}
    }
    match is_room(space, core, names, row.place) {
        Ok(true) => {}
        Ok(false) => return Ok(()),
        Err(error) => return Err(error),
    }
    match read_children(alloc, space, core, hints, names, at, at) {
        Err(AdfError::ReadFault) => Err(AdfError::ReadFault),
        _ => Ok(()),
    }
}
