//! A child leaves the list of its parent.

ghost use Rattle.std.specs.Prelude.{◌^◌, ◌+◌, ◌≤◌, ◌<◌, [], ◌∷◌, length, OnOk};
ghost use Rattle.adf_format.specs.RecordFields.{table_length};
ghost use Rattle.cg_io.specs.Answers.{AnswersWrite, IsRefusal, OnlyReads};
ghost use Rattle.cg_io.specs.Blocks.{Both, blocks_of};
ghost use Rattle.field_access.specs.Fields.{WaitsWithin, range};
ghost use Rattle.tree_edits.specs.Left.{MovesUp, LeavesList, entry_place, length_behind, leave_cost};

use crate::listed::Listed;
use crate::longer::block_rest;
use adf_format::fields::NODE_CHILDREN;
use adf_model::AdfError;
use cg_io::Space;
use field_access::{write_field, write_number};

// Moves as many bytes up to a place as a piece has, which they pass through: both ranges may meet.
fn move_through<S: Space>(
    space: &mut S,
    from: u64,
    to: u64,
    piece: &mut [u8],
) -> Result<(), AdfError>
    requires sound { S.is_sound space.old }
    requires from { from + length piece.old ≤ 2 ^ 44 }
    requires to { to + length piece.old ≤ 2 ^ 44 }
    ensures moved { OnOk result (Both (MovesUp from to (length piece.old)) (S.image space.old)
        (S.image space.new)) }
    ensures waits { OnOk result (WaitsWithin (range to (length piece.old) ∷ [])
        (S.waiting space.old) (S.waiting space.new)) }
    ensures writes { AnswersWrite S.is_sound S.state S.waiting (blocks_of to (length piece.old))
        OnlyReads (IsRefusal ⊥) space.old space.new result }
{
    match space.read(from, piece) {
        Ok(()) => {}
        Err(_) => return Err(AdfError::ReadFault),
    }
    write_field(space, to, piece)
}

// Moves so many bytes up to a place.
fn move_piece<S: Space>(space: &mut S, from: u64, to: u64, count: usize) -> Result<(), AdfError>
    requires sound { S.is_sound space.old }
    requires count { count ≤ 4096 }
    requires from { from + count ≤ 2 ^ 44 }
    requires to { to + count ≤ 2 ^ 44 }
    ensures moved { OnOk result (Both (MovesUp from to count) (S.image space.old)
        (S.image space.new)) }
    ensures waits { OnOk result (WaitsWithin (range to count ∷ []) (S.waiting space.old)
        (S.waiting space.new)) }
    ensures writes { AnswersWrite S.is_sound S.state S.waiting (blocks_of to count) OnlyReads
        (IsRefusal ⊥) space.old space.new result }
{
    let mut piece = [0u8; 4096];
    move_through(space, from, to, &mut piece[..count])
}

/// Moves bytes up to a place before them, a block of the place at a time: a piece is read before it is written over.
pub fn move_up<S: Space>(space: &mut S, from: u64, to: u64, count: u64) -> Result<(), AdfError>
    requires sound { S.is_sound space.old }
    requires up { to ≤ from }
    requires within { from + count ≤ 2 ^ 44 }
    ensures moved { OnOk result (Both (MovesUp from to count) (S.image space.old)
        (S.image space.new)) }
    ensures waits { OnOk result (WaitsWithin (range to count ∷ []) (S.waiting space.old)
        (S.waiting space.new)) }
    ensures writes { AnswersWrite S.is_sound S.state S.waiting (blocks_of to count) OnlyReads
        (IsRefusal ⊥) space.old space.new result }
{
    let mut done: u64 = 0;
    while done < count {
        let length = block_rest(to + done, count - done);
        match move_piece(space, from + done, to + done, length) {
            Ok(()) => {}
            Err(error) => return Err(error),
        }
        done += length as u64;
    }
    Ok(())
}

/// The entry of a child leaves the table of the parent, whose header stands at a place: the entries behind it move up, and
/// the header counts one child less.
pub fn leave_list<S: Space>(space: &mut S, header: u64, listed: Listed) -> Result<(), AdfError>
    requires sound { S.is_sound space.old }
    requires header { header + 246 ≤ 2 ^ 44 }
    requires table { listed.table.place + table_length listed.table.entries ≤ 2 ^ 44 }
    requires listed { listed.position < listed.table.count }
    requires few { listed.table.count ≤ listed.table.entries }
    ensures left { OnOk result (Both (LeavesList header listed) (S.image space.old)
        (S.image space.new)) }
    ensures waits { OnOk result (WaitsWithin (range (entry_place listed) (length_behind listed)
        ∷ range (header + 68) 8 ∷ []) (S.waiting space.old) (S.waiting space.new)) }
    ensures writes { AnswersWrite S.is_sound S.state S.waiting (leave_cost listed) OnlyReads
        (IsRefusal ⊥) space.old space.new result }
{
    let own = listed.table.entry(listed.position);
    let behind = 44 * u64::from(listed.table.count - listed.position - 1);
    match move_up(space, own + 44, own, behind) {
        Ok(()) => {}
        Err(error) => return Err(error),
    }
    write_number::<S, 8>(
        space,
        header + NODE_CHILDREN.offset as u64,
        u64::from(listed.table.count) - 1,
    )
}
