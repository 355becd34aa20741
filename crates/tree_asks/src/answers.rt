//! The reply to a query about one node, as it is named.

ghost use Rattle.std.specs.Prelude.{◌≡◌, Ok, IfOk};
ghost use Rattle.adf_model.specs.declared.error.AdfError.{AdfError};
ghost use Rattle.adf_model.specs.declared.tree.Reply.{Reply};
ghost use Rattle.adf_model.specs.Answers.{field_within, IsReplyTo};
ghost use Rattle.adf_model.specs.Tests.{if_there};
ghost use Rattle.cg_io.specs.Answers.{AnswersRead};
ghost use Rattle.tree_edits.specs.Rows.{AreNear};
ghost use Rattle.tree_asks.specs.Told.{Tells};
ghost use Rattle.tree_asks.specs.Causes.{IsAskCause, AskReads};
ghost use Rattle.tree_asks.specs.Known.{IsKnown};

use crate::children::children_of;
use crate::data::{all_of, part_of};
use crate::format::format_of;
use crate::headers::{label_of, name_of, shape_of};
use crate::hints::Hints;
use crate::links::link_of;
use adf_model::{AdfError, NodeId, Query, Reply};
use cg_io::Space;
use std::alloc::Global;
use tree_edits::{Core, Row};

// The parent of a node of a file, by its row.
fn parent_of(file: u32, row: Row) -> Result<Reply, AdfError>
    ensures { result ≡ if_there row.parent AdfError.NotAChild
        (λ serial. Ok (Reply.Node (record { file = file; serial = serial }))) }
{
    match row.parent {
        Some(serial) => Ok(Reply::Node(NodeId { file, serial })),
        None => Err(AdfError::NotAChild),
    }
}

/// What is answered of a node, as it is named: no link is followed.
///
/// `Find` is answered by a search, and is refused here with NotFound.
pub fn answer_at<S: Space>(
    alloc: Global,
    space: &mut S,
    core: &Core,
    hints: &Hints,
    at: NodeId,
    query: &Query,
) -> Result<Reply, AdfError>
    requires sound { S.is_sound space.old }
    requires near { AreNear core.now.wide core.now.rows.items }
    ensures told { Tells core.now (S.image space.old)
        (λ tree. field_within tree at query.now) result }
    ensures kind { IfOk result (IsReplyTo query.now) }
    ensures known { IfOk result (IsKnown core.now at query.now) }
    ensures reads { AnswersRead S.is_sound S.image S.state S.waiting
        (AskReads core.now (S.image space.old) at query.now)
        (IsAskCause core.now (S.image space.old) at query.now) space.old space.new result }
{
    let row = match core.rows.get(at.serial) {
        Some(row) => row,
        None => return Err(AdfError::NoSuchNode),
    };
    match query {
        Query::Name { .. } => name_of(alloc, space, core, at, row),
        Query::LabelOf { .. } => label_of(alloc, space, core, at, row),
        Query::ShapeOf { .. } => shape_of(space, core, at, row),
        Query::ChildrenOf { .. } => children_of(alloc, space, core, hints, at, row),
        Query::LinkText { .. } => link_of(alloc, space, core, at, row),
        Query::ReadAll { .. } => all_of(alloc, space, core, at, row),
        Query::ReadPart { selection, .. } => part_of(alloc, space, core, at, row, selection),
        Query::Find { .. } => Err(AdfError::NotFound),
        Query::Next { .. } => Ok(Reply::Node(NodeId {
            file: at.file,
            serial: core.rows.count() as u64,
        })),
        Query::FormatOf { .. } => format_of(space, core, at, row),
        Query::Parent { .. } => parent_of(at.file, row),
        Query::Target { .. } => Ok(Reply::Node(at)),
    }
}
