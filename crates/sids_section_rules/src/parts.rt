//! Parts of a list of whole numbers, read one behind another.

ghost use Rattle.std.specs.Prelude.{◌≡◌, ◌≤◌, ◌<◌, ◌+◌, ◌*◌, [], ◌^◌, true, unwrap_or, length, IfOk};
ghost use Rattle.adf_model.specs.Answers.{IsReplyTo};
ghost use Rattle.adf_model.specs.Causes.{OnlyAsks};
ghost use Rattle.adf_model.specs.Edits.{size_of, size_limit};
ghost use Rattle.adf_model.specs.Selection.{elements};
ghost use Rattle.adf_model.specs.Slots.{IsTold, AreTrees};
ghost use Rattle.adf_model.specs.Steps.{IsAnswer};
ghost use Rattle.adf_model.specs.Tests.{and_then};
ghost use Rattle.sids_views.specs.Asks.{IsValueOr, HasAskCause, IsPlain};
ghost use Rattle.sids_views.specs.Replies.{as_bytes, IsBytes};
ghost use Rattle.sids_views.specs.Views.{node_there};
ghost use Rattle.sids_rules.specs.Rules.{first_dimension};
ghost use Rattle.sids_section_rules.specs.Parts.{part_bytes, IsPart};
ghost use Rattle.sids_readings.specs.Reading.{is_list, is_wide, bytes_of};

use adf_model::{AdfError, NodeId, Query, Reply, Selection, Text, TreeCalls};

/// One query, with what is needed of it below.
fn ask<C: TreeCalls>(calls: &mut C, query: &Query) -> Result<Reply, AdfError>
    requires ready { C.is_ready calls.old }
    ensures ready { C.is_ready calls.new }
    ensures only { OnlyAsks (C.files calls.old) (C.devices calls.old)
        (C.devices calls.new) (C.files calls.new) }
    ensures trees { IsTold (C.files calls.old) (C.devices calls.old)
        → AreTrees (C.files calls.old) }
    ensures answer { IsTold (C.files calls.old) (C.devices calls.old)
        → IsAnswer (C.files calls.old) query.now result }
    ensures kind { IfOk result (IsReplyTo query.now) }
    ensures cause { HasAskCause (C.files calls.old) (C.devices calls.old)
        (C.devices calls.new) result }
{
    calls.ask(query)
}

fn as_bytes(answer: Result<Reply, AdfError>) -> Result<Text, AdfError>
    requires { IfOk answer IsBytes }
    ensures { result ≡ and_then answer as_bytes }
{
    match answer {
        Ok(Reply::Bytes(text)) => Ok(text),
        Ok(_) => unreachable!(),
        Err(error) => Err(error),
    }
}

/// So many elements of a list from one on, counted from 0.
fn part(first: u64, count: u64) -> Selection
    requires bound { first + count < 2 ^ 64 }
    requires some { 1 ≤ count }
    ensures { IsPart first count result }
{
    Selection {
        rank: 1,
        start: [first + 1, 1, 1, 1, 1, 1, 1, 1, 1, 1, 1, 1],
        end: [first + count, 1, 1, 1, 1, 1, 1, 1, 1, 1, 1, 1],
        stride: [1; 12],
    }
}

/// The bytes of so many numbers of a list of whole numbers with data, of at most 2^30 bytes, from one on,
/// counted from 0.
pub(crate) fn part_of<C: TreeCalls>(
    calls: &mut C,
    at: NodeId,
    first: u64,
    count: u64,
) -> Result<Text, AdfError>
    requires ready { C.is_ready calls.old }
    requires bound { first + count < 2 ^ 64 }
    requires some { 1 ≤ count }
    requires plain { IsTold (C.files calls.old) (C.devices calls.old)
        → IsPlain (C.files calls.old) at }
    requires list { IsTold (C.files calls.old) (C.devices calls.old)
        → is_list (node_there (C.files calls.old) at) ≡ true }
    requires small { IsTold (C.files calls.old) (C.devices calls.old)
        → size_of (node_there (C.files calls.old) at) ≤ size_limit }
    requires within { IsTold (C.files calls.old) (C.devices calls.old)
        → first + count ≤ first_dimension (node_there (C.files calls.old) at).dims }
    ensures ready { C.is_ready calls.new }
    ensures only { OnlyAsks (C.files calls.old) (C.devices calls.old)
        (C.devices calls.new) (C.files calls.new) }
    ensures value { IsTold (C.files calls.old) (C.devices calls.old)
        → IsValueOr (part_bytes (is_wide (node_there (C.files calls.old) at)) first count (unwrap_or (node_there (C.files calls.old) at).bytes [])) result }
    ensures size { IsTold (C.files calls.old) (C.devices calls.old)
        → IfOk result (λ bytes. length bytes ≡ count * bytes_of (is_wide (node_there (C.files calls.old) at))) }
    ensures cause { HasAskCause (C.files calls.old) (C.devices calls.old)
        (C.devices calls.new) result }
{
    as_bytes(ask(
        calls,
        &Query::ReadPart {
            node: at,
            selection: part(first, count),
        },
    ))
}
