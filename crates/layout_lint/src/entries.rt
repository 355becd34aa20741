//! The table of a node's children.

ghost use Rattle.std.specs.Prelude.{◌≡◌, ◌^◌, ◌+◌, ◌*◌, ◌≤◌, ◌<◌, [], ◌∷◌, length, Some, None, IfOk, IfErr, IfSome, OnOk};
ghost use Rattle.cg_io.specs.Blocks.{ReadsFew};
ghost use Rattle.adf_format.specs.Parts.{table_length};
ghost use Rattle.adf_format.specs.FirstFault.{table_rows, entry_rows};
ghost use Rattle.cg_io.specs.Answers.{Told};
ghost use Rattle.cg_io.specs.Pages.{IsReady};
ghost use Rattle.layout_lint.specs.Halts.{Finds, HasCount, MayLackMemory};
ghost use Rattle.layout_lint.specs.Marks.{name_said};

use crate::keys::KeySet;
use crate::marks::{Mark, look_at_start, look_at_tail};
use crate::pages::field_at;
use crate::verdict::{Halt, Span, halt_at};
use adf_chunks::Part;
use adf_format::fields::{
    ENTRY_CHILD, ENTRY_LENGTH, ENTRY_NAME, HEAD_LENGTH, HEAD_POINTER, TAG_LENGTH,
};
use adf_records::is_name_field;
use cg_io::{Blocks, Page};
use disk_ptr::fields::{copied, is_place, points_to};
use std::alloc::Global;

/// A table of children: where it stands, and its entries.
#[derive(Clone, Copy, Drop)]
pub struct SubNodeTable {
    pub place: u64,
    pub entries: u32,
}

impl SubNodeTable {
    /// Where its end tag stands.
    pub fn tail(self) -> u64
        requires { self.place < 2 ^ 44 }
        ensures { result ≡ self.place + 16 + 44 * self.entries }
    {
        self.place + HEAD_LENGTH as u64 + ENTRY_LENGTH as u64 * u64::from(self.entries)
    }

    /// How many bytes it has.
    pub fn length(self) -> u64
        ensures { result ≡ table_length self.entries }
    {
        (HEAD_LENGTH + TAG_LENGTH) as u64 + ENTRY_LENGTH as u64 * u64::from(self.entries)
    }

    /// Where an entry stands.
    pub fn entry(self, position: u32) -> u64
        requires { self.place < 2 ^ 44 }
        ensures { result ≡ self.place + 16 + 44 * position }
    {
        self.place + HEAD_LENGTH as u64 + ENTRY_LENGTH as u64 * u64::from(position)
    }
}

/// Looks at the frame of a table: rules 23 and 14.
#[tactic(auto, unfolding(adf_format::specs::FirstFault::table_rows))]
pub fn look_at_table<B: Blocks>(
    blocks: &mut B,
    page: &mut Page,
    span: Span,
    used: u64,
    table: SubNodeTable,
) -> Result<(), Halt>
    requires ready { IsReady (B.is_sound blocks.old) (B.state blocks.old).held page.old }
    requires end { span.end < 2 ^ 44 }
    requires place { table.place < 2 ^ 44 }
    ensures ready { IsReady (B.is_sound blocks.new) (B.state blocks.new).held page.new }
    ensures rows { Told (B.state blocks.old).held (λ image. span.end < length image
        → Finds (table_rows image span.end used table.place table.entries) result) }
    ensures fits { OnOk result ((266 ≤ table.place)
        × (table.place + table_length table.entries ≤ span.end + 1)) }
    ensures room { OnOk result (used + table_length table.entries ≤ span.end + 1) }
    ensures effect { ReadsFew 4 (B.state blocks.old) (B.state blocks.new) }
    ensures cause { IfErr result (HasCount (B.state blocks.old).faults
        (B.state blocks.new).faults) }
{
    let length = table.length();
    let tail = table.tail();
    let mark = Mark {
        part: Part::SubNodes,
        place: table.place,
        rule: 23,
        least: length,
    };
    let head = look_at_start::<B, 16>(blocks, page, span, mark)?;
    if !points_to(&head, HEAD_POINTER, tail) {
        return halt_at(23, table.place + HEAD_POINTER.offset as u64);
    }
    look_at_tail(blocks, page, mark, tail)?;
    if !span.has_room(used, length) {
        return halt_at(14, table.place);
    }
    Ok(())
}

// The name in an entry that has a name and points to a child.
fn name_in(bytes: &[u8; 44]) -> Option<[u8; 32]>
    ensures { result ≡ name_said bytes.now }
{
    let name = copied(bytes, ENTRY_NAME);
    if !is_name_field(&name) || !is_place(bytes, ENTRY_CHILD) {
        return None;
    }
    Some(name)
}

/// Looks at the entries in use: rule 24.
pub fn look_at_entries<B: Blocks>(
    alloc: Global,
    blocks: &mut B,
    page: &mut Page,
    table: SubNodeTable,
    children: u32,
) -> Result<(), Halt>
    requires ready { IsReady (B.is_sound blocks.old) (B.state blocks.old).held page.old }
    requires within { table.place + 16 + 44 * children ≤ 2 ^ 44 }
    ensures ready { IsReady (B.is_sound blocks.new) (B.state blocks.new).held page.new }
    ensures rows { Told (B.state blocks.old).held (λ image. table.place + 16 + 44 * children
        ≤ length image → Finds (entry_rows image table.place children) result) }
    ensures effect { ReadsFew (2 * children) (B.state blocks.old) (B.state blocks.new) }
    ensures cause { IfErr result (MayLackMemory (B.state blocks.old).faults
        (B.state blocks.new).faults) }
{
    let mut names: KeySet<[u8; 32]> = KeySet::new(alloc);
    for position in 0..children {
        let at = table.entry(position);
        let bytes = field_at(blocks, page, at)?;
        let name = match name_in(&bytes) {
            Some(name) => name,
            None => return halt_at(24, at),
        };
        if names.contains(&name) {
            return halt_at(24, at);
        }
        match names.insert(name) {
            Ok(()) => {}
            Err(_) => return Err(Halt::Memory),
        }
    }
    Ok(())
}
