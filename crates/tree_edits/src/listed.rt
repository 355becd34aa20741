//! Where a node is listed: the table that its parent's header names, and the entry that names the node.

ghost use Rattle.std.specs.Prelude.{◌≡◌, ◌+◌, ◌*◌, ◌^◌, ◌≤◌, ◌<◌, IfOk};
ghost use Rattle.adf_format.specs.RecordFields.{node_length, table_length};
ghost use Rattle.cg_io.specs.Answers.{AnswersRead};
ghost use Rattle.cg_io.specs.Blocks.{ReadsFew};
ghost use Rattle.node_reads.specs.Entries.{pieces_of};
ghost use Rattle.node_reads.specs.Reads.{IsUnread};
ghost use Rattle.tree_edits.specs.Rows.{AreNear};
ghost use Rattle.tree_edits.specs.Listed.{NamesTable, TableBreaks, IsTableOf, IsListed, IsUnlisted, ReadsTable};

use crate::memory::Core;
use adf_model::AdfError;
use cg_io::Space;
use node_reads::{ChildTable, Wanted, child_table, find_entry, read_header};

/// A table of children, and the entry of a child in it.
#[derive(Clone, Copy, Drop)]
pub struct Listed {
    /// The table.
    pub table: ChildTable,
    /// Which of its entries in use is the child's.
    pub position: u32,
}

/// The table of children that the header at a place names. By one read.
pub(crate) fn table_at<S: Space>(
    space: &mut S,
    wide: bool,
    place: u64,
) -> Result<ChildTable, AdfError>
    requires sound { S.is_sound space.old }
    requires within { place + node_length wide ≤ 2 ^ 44 }
    ensures table { IfOk result (NamesTable wide (S.image space.old) place) }
    ensures few { IfOk result (λ t. t.count ≤ t.entries) }
    ensures within { IfOk result (λ t. t.place + table_length t.entries ≤ 2 ^ 44) }
    ensures reads { AnswersRead S.is_sound S.image S.state S.waiting (ReadsFew 2)
        (IsUnread (TableBreaks wide (S.image space.old) place)) space.old space.new result }
{
    let header = match read_header(space, wide, place) {
        Ok(header) => header,
        Err(error) => return Err(error),
    };
    child_table(&header, place)
}

// A child whose header stands at a place, and that no table lists.
fn unlisted(place: u64) -> AdfError
    ensures { result ≡ AdfError.Layout 30 place }
{
    AdfError::Layout { rule: 30, place }
}

/// The table of a parent, and the entry in it that names the header at a place.
pub fn find_listed<S: Space>(
    space: &mut S,
    core: &Core,
    place: u64,
    parent: u64,
) -> Result<Listed, AdfError>
    requires sound { S.is_sound space.old }
    requires near { AreNear core.now.wide core.now.rows.items }
    ensures listed { IfOk result (IsListed core.now (S.image space.old) place parent) }
    ensures within { IfOk result (λ l. l.table.place + table_length l.table.entries ≤ 2 ^ 44) }
    ensures soon { IfOk result (λ l. ReadsFew (2 * pieces_of l.table.count + 2)
        (S.state space.old) (S.state space.new)) }
    ensures reads { AnswersRead S.is_sound S.image S.state S.waiting
        (ReadsTable (IsTableOf core.now (S.image space.old) parent) 1 2)
        (IsUnread (IsUnlisted core.now (S.image space.old) place parent))
        space.old space.new result }
{
    let above = match core.rows.get(parent) {
        Some(above) => above,
        None => return Err(unlisted(place)),
    };
    let table = match table_at(space, core.wide, above.place) {
        Ok(table) => table,
        Err(error) => return Err(error),
    };
    match find_entry(space, table, &Wanted::Place(place)) {
        Ok(Some(position)) => Ok(Listed { table, position }),
        Ok(None) => Err(unlisted(place)),
        Err(_) => Err(AdfError::ReadFault),
    }
}
