//! The header of a node, and the table of children that it names.

ghost use Rattle.std.specs.Prelude.{◌≡◌, ◌^◌, ◌+◌, ◌*◌, ◌≤◌, length, None, IfOk, IfErr, OnOk};
ghost use Rattle.adf_format.specs.declared.fields.TheConstants.{NODE_NAME};
ghost use Rattle.adf_format.specs.Checks.{first_broken};
ghost use Rattle.adf_format.specs.FirstFault.{is_same_name};
ghost use Rattle.adf_format.specs.RecordFields.{field_in, node_length, table_length};
ghost use Rattle.cg_io.specs.Blocks.{ReadsFew, blocks_of};
ghost use Rattle.cg_io.specs.Answers.{AnswersRead};
ghost use Rattle.adf_records.specs.View.{HasOffsets, IsNarrow};
ghost use Rattle.node_reads.specs.Reads.{ReadAt, Breaks, IsUnread, IsFault};
ghost use Rattle.node_reads.specs.Headers.{header_rows, IsHeader, table_of, table_rows, table_named};

use adf_format::fields::{ENTRY_LENGTH, HEAD_LENGTH, NODE_CHILDREN, NODE_NAME, TAG_LENGTH};
use adf_format::limits::MOST_CHILDREN;
use adf_model::AdfError;
use adf_records::{NodeHeader, decode_named};
use cg_io::{ReadBytes, read_bytes};
use disk_ptr::fields::bytes_of;
use disk_ptr::place;

// ---- the header

// Whether the name in a header is that of the entry that led to it.
fn is_named(entry: &Option<[u8; 32]>, header: &[u8]) -> bool
    requires { 36 ≤ length header.now }
    ensures { result ≡ is_same_name entry.now (field_in header.now NODE_NAME) }
{
    match entry {
        None => true,
        Some(name) => name.as_slice() == bytes_of(header, NODE_NAME),
    }
}

// The header of so many bytes.
fn header_at<R: ReadBytes, const N: usize>(
    bytes: &mut R,
    wide: bool,
    place: u64,
    entry: &Option<[u8; 32]>,
) -> Result<NodeHeader, AdfError>
    requires sound { R.is_sound bytes.old }
    requires long { N ≡ node_length wide }
    requires within { place + N ≤ 2 ^ 44 }
    ensures header { IfOk result (λ h. ReadAt (R.image bytes.old) place N
        (IsHeader wide place entry.now h)) }
    ensures offsets { IfOk result HasOffsets }
    ensures narrow { IfOk result IsNarrow }
    ensures wide { IfOk result (λ h. h.wide ≡ wide) }
    ensures reads { AnswersRead R.is_sound R.image R.state R.waiting (ReadsFew (blocks_of place N))
        (IsUnread (Breaks (R.image bytes.old) place N (header_rows wide place entry.now))) bytes.old
        bytes.new result }
{
    let header = match read_bytes::<R, N>(bytes, place) {
        Ok(header) => header,
        Err(_) => return Err(AdfError::ReadFault),
    };
    let named = is_named(entry, &header);
    match decode_named(&header, wide, named) {
        Ok(header) => Ok(header),
        Err(bad) => Err(AdfError::Layout {
            rule: bad.rule,
            place: place + u64::from(bad.offset),
        }),
    }
}

/// The header of the node at a place, to which the entry with this name field led, or none: it breaks none of rules 15 to
/// 21. By one read.
pub fn read_named_header<R: ReadBytes>(
    bytes: &mut R,
    wide: bool,
    place: u64,
    entry: &Option<[u8; 32]>,
) -> Result<NodeHeader, AdfError>
    requires sound { R.is_sound bytes.old }
    requires within { place + node_length wide ≤ 2 ^ 44 }
    ensures header { IfOk result (λ h. ReadAt (R.image bytes.old) place (node_length wide)
        (IsHeader wide place entry.now h)) }
    ensures offsets { IfOk result HasOffsets }
    ensures narrow { IfOk result IsNarrow }
    ensures wide { IfOk result (λ h. h.wide ≡ wide) }
    ensures reads { AnswersRead R.is_sound R.image R.state R.waiting
        (ReadsFew (blocks_of place (node_length wide)))
        (IsUnread (Breaks (R.image bytes.old) place (node_length wide)
        (header_rows wide place entry.now)))
        bytes.old bytes.new result }
{
    if wide {
        header_at::<R, 342>(bytes, true, place, entry)
    } else {
        header_at::<R, 246>(bytes, false, place, entry)
    }
}

/// The header of the node at a place: it breaks none of rules 15 to 21. By one read.
pub fn read_header<R: ReadBytes>(
    bytes: &mut R,
    wide: bool,
    place: u64,
) -> Result<NodeHeader, AdfError>
    requires sound { R.is_sound bytes.old }
    requires within { place + node_length wide ≤ 2 ^ 44 }
    ensures header { IfOk result (λ h. ReadAt (R.image bytes.old) place (node_length wide)
        (IsHeader wide place None h)) }
    ensures offsets { IfOk result HasOffsets }
    ensures narrow { IfOk result IsNarrow }
    ensures wide { IfOk result (λ h. h.wide ≡ wide) }
    ensures reads { AnswersRead R.is_sound R.image R.state R.waiting
        (ReadsFew (blocks_of place (node_length wide)))
        (IsUnread (Breaks (R.image bytes.old) place (node_length wide)
        (header_rows wide place None)))
        bytes.old bytes.new result }
{
    read_named_header(bytes, wide, place, &None)
}

// ---- the table of children

/// A table of children: where it stands, how many entries it has, and how many of them are in use.
#[derive(Clone, Copy, Drop, PartialEq, Eq)]
pub struct ChildTable {
    pub place: u64,
    pub entries: u32,
    pub count: u32,
}

impl ChildTable {
    /// How many bytes the table has.
    pub fn length(self) -> u64
        ensures { result ≡ table_length self.entries }
    {
        (HEAD_LENGTH + TAG_LENGTH) as u64 + ENTRY_LENGTH as u64 * u64::from(self.entries)
    }

    /// Where an entry stands.
    pub fn entry(self, position: u32) -> u64
        requires { self.place ≤ 2 ^ 44 }
        ensures { result ≡ self.place + 16 + 44 * position }
    {
        self.place + HEAD_LENGTH as u64 + ENTRY_LENGTH as u64 * u64::from(position)
    }
}

/// The table that the header at a place names. Its entries in use are not more than all of them, nor more than a node may
/// have children, and all its bytes lie below 2^44.
pub fn child_table(header: &NodeHeader, at: u64) -> Result<ChildTable, AdfError>
    requires offsets { HasOffsets header.now }
    requires near { at ≤ 2 ^ 44 }
    ensures table { IfOk result (λ t. t ≡ table_named header.now) }
    ensures few { IfOk result (λ t. (t.count ≤ t.entries) × (t.count ≤ 2 ^ 20)) }
    ensures within { IfOk result (λ t. t.place + table_length t.entries ≤ 2 ^ 44) }
    ensures kept { OnOk result (first_broken (table_rows header.now at) ≡ None) }
    ensures broken { IfErr result (IsFault (first_broken (table_rows header.now at))) }
{
    if header.children > header.entries || header.children > MOST_CHILDREN {
        return Err(AdfError::Layout {
            rule: 22,
            place: at + NODE_CHILDREN.offset as u64,
        });
    }
    let table = ChildTable {
        place: place(header.table).unwrap_or(0),
        entries: header.entries,
        count: header.children,
    };
    if table.place + table.length() > 1 << 44 {
        return Err(AdfError::Layout {
            rule: 23,
            place: table.place,
        });
    }
    Ok(table)
}
