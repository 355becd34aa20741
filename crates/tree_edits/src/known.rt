//! The first entry of a table with a name: from the children that are kept, or by a search.

ghost use Rattle.std.specs.Prelude.{◌≡◌, ◌^◌, ◌+◌, ◌*◌, ◌≤◌, ◌<◌, length, IfOk, IfSome};
ghost use Rattle.cg_io.specs.Answers.{AnswersRead, HasRisen};
ghost use Rattle.cg_io.specs.Blocks.{ReadsFew};
ghost use Rattle.kept_names.specs.Lists.{position_of};
ghost use Rattle.node_reads.specs.declared.find.Wanted.{Wanted};
ghost use Rattle.node_reads.specs.Entries.{pieces_of};
ghost use Rattle.tree_edits.specs.Known.{ListsTable};
ghost use Rattle.tree_edits.specs.Listed.{FindsFirst};

use cg_io::{ReadBytes, ReadFault};
use kept_names::Listed;
use node_reads::{ChildTable, Wanted, find_entry};

// The position of a name field among children, of which there are fewer than 2^32.
fn position_in(list: &Listed, name: &[u8; 32]) -> Option<u32>
    requires { length list.now < 2 ^ 32 }
    ensures value { result ≡ position_of name.now list.now }
    ensures below { IfSome result (λ i. i < length list.now) }
{
    match list.position(name) {
        Some(position) => Some(position as u32),
        None => None,
    }
}

/// The position of the first entry in use with a name field.
///
/// Where the children of the table are known, no byte is read.
pub fn find_name<R: ReadBytes>(
    bytes: &mut R,
    table: ChildTable,
    name: &[u8; 32],
    known: Option<&Listed>,
) -> Result<Option<u32>, ReadFault>
    requires sound { R.is_sound bytes.old }
    requires within { table.place + 16 + 44 * table.count ≤ 2 ^ 44 }
    requires known { IfSome known (λ list. ListsTable (R.image bytes.old) table list.now) }
    ensures told { IfOk result (FindsFirst (R.image bytes.old) table (Wanted.Name name.now)) }
    ensures below { IfOk result (λ found. IfSome found (λ i. i < table.count)) }
    ensures reads { AnswersRead R.is_sound R.image R.state R.waiting
        (ReadsFew (2 * pieces_of table.count)) HasRisen bytes.old bytes.new result }
    ensures still { IfSome known.entry (λ list. length list.now ≡ table.count
        → bytes.new ≡ bytes.old) }
{
    match known {
        Some(list) => {
            if list.len() == table.count as usize {
                return Ok(position_in(list, name));
            }
        }
        None => {}
    }
    find_entry(bytes, table, &Wanted::Name(*name))
}
