//! The fixed records of a file, read and written: the file header, the free table, and the header of
//! a node in its narrow and its wide form.
//!
//! A reader answers the record, or the first rule that the bytes break. Letters of hexadecimal fields
//! are read in either case and written in upper case; bytes that mean nothing are kept as found. No
//! call takes memory.

#![tactic(auto)]

ghost use Rattle.std.specs.Prelude.{◌≡◌, ◌<◌, ◌≤◌, length, true, false, Some, None, IfOk, IfErr, OnOk, option_map, unwrap_or, map, take, slice_index_or, []};
ghost use Rattle.adf_format.specs.Checks.{first_broken};
ghost use Rattle.adf_format.specs.FirstFault.{header_rows, free_table_rows, node_rows, is_name_field, count_up};
ghost use Rattle.adf_format.specs.Hex.{hex_value};
ghost use Rattle.adf_format.specs.Parts.{node_length};
ghost use Rattle.adf_format.specs.RecordFields.{dimension_digits};
ghost use Rattle.adf_format.specs.Records.{header_record, header_text, free_table_record, free_table_text, node_record, node_text};
ghost use Rattle.adf_records.specs.View.{fault, header_of, HasHeaderOffsets, pointers_of, HasFreeOffsets, record_of, HasOffsets, IsNarrow};
ghost use Rattle.adf_records.specs.Laws.{HeaderIsReadAgain, FreeIsReadAgain, NodeIsReadAgain, HeaderIsWrittenAgain, FreeIsWrittenAgain, NodeIsWrittenAgain, FreeFaultIsPlaced, NodeFaultIsPlaced};

use adf_format::fields::{FREE_TABLE_LENGTH, FREE_TABLE_PLACE, NODE_TAIL_LENGTH, node_chunks};
use adf_format::texts::{is_name, trimmed};
use adf_format::{DataType, Format};
use disk_ptr::DiskPtr;

mod faults;
mod free_table;
mod header;
mod node;
mod texts;

/// The bytes of the file header and of the free table, which stand in each file.
pub const FILE_HEAD_LENGTH: usize = FREE_TABLE_PLACE + FREE_TABLE_LENGTH;

/// The bytes of the header of a node.
pub fn node_length(wide: bool) -> usize
    ensures { result ≡ node_length wide }
{
    node_chunks(wide).offset + NODE_TAIL_LENGTH
}

/// The header at the start of a file.
#[derive(Clone, Copy, PartialEq, Eq)]
pub struct FileHeader {
    /// What the file is, and its version.
    pub what: [u8; 32],
    pub created: [u8; 28],
    pub modified: [u8; 28],
    pub format: Format,
    pub size_letter: u8,
    /// Twelve sizes of two hexadecimal digits.
    pub sizes: [u8; 24],
    pub root: DiskPtr,
    /// The last byte of the file.
    pub end: DiskPtr,
    pub free_table: DiskPtr,
    pub extra: [u8; 12],
}

/// The first and the last chunk of each list of free chunks: blank where the list is empty.
#[derive(Clone, Copy, PartialEq, Eq)]
pub struct FreeTable {
    pub small_first: DiskPtr,
    pub small_last: DiskPtr,
    pub medium_first: DiskPtr,
    pub medium_last: DiskPtr,
    pub large_first: DiskPtr,
    pub large_last: DiskPtr,
}

/// The header of a node.
#[derive(Clone, Copy, PartialEq, Eq)]
pub struct NodeHeader {
    /// Whether dimensions have sixteen digits.
    pub wide: bool,
    /// The name, and spaces behind it.
    pub name: [u8; 32],
    /// The label, and spaces behind it.
    pub label: [u8; 32],
    /// The number of children.
    pub children: u32,
    /// The entries that the table of children has room for.
    pub entries: u32,
    pub table: DiskPtr,
    pub kind: DataType,
    pub rank: u8,
    /// The hexadecimal digits of each dimension; a narrow header uses the first eight, and has zero bytes behind.
    pub dims: [[u8; 16]; 12],
    /// The number of data chunks.
    pub chunks: u16,
    /// The data chunk, or the table of them if they are several.
    pub chunk: DiskPtr,
}

/// A rule that a record breaks, and where in the record.
#[derive(Clone, Copy, PartialEq, Eq)]
pub struct BadField {
    pub rule: u8,
    pub offset: u16,
}

// ---- the file header

/// The header of a file, or the first of rules 2 to 7 that it breaks.
pub fn decode_header(bytes: &[u8; 186]) -> Result<FileHeader, BadField>
    ensures sound { OnOk result (first_broken (header_rows bytes.now) ≡ None) }
    ensures says { IfOk result (λ h. header_of h ≡ header_record bytes.now) }
    ensures offsets { IfOk result HasHeaderOffsets }
    ensures bad { IfErr result (λ b. first_broken (header_rows bytes.now) ≡ Some (fault b)) }
{
    match header::first_fault(bytes) {
        Some(bad) => Err(bad),
        None => Ok(header::read(bytes)),
    }
}

/// The bytes of a file's header.
pub fn encode_header(header: &FileHeader) -> [u8; 186]
    requires { HasHeaderOffsets header.now }
    ensures { result ≡ header_text (header_of header.now) }
{
    let mut text = [0u8; 186];
    header::write(header, &mut text);
    text
}

// ---- the free table

/// The free table, or the first of rules 9 to 11 that it breaks.
pub fn decode_free(bytes: &[u8; 80]) -> Result<FreeTable, BadField>
    ensures sound { OnOk result (first_broken (free_table_rows 0 bytes.now) ≡ None) }
    ensures says { IfOk result (λ t. pointers_of t ≡ free_table_record bytes.now) }
    ensures offsets { IfOk result HasFreeOffsets }
    ensures bad { IfErr result (λ b. first_broken (free_table_rows 0 bytes.now) ≡ Some (fault b)) }
{
    match free_table::first_fault(bytes) {
        Some(bad) => Err(bad),
        None => Ok(free_table::read(bytes)),
    }
}

/// The bytes of a free table.
pub fn encode_free(table: &FreeTable) -> [u8; 80]
    requires { HasFreeOffsets table.now }
    ensures { result ≡ free_table_text (pointers_of table.now) }
{
    let mut text = [0u8; 80];
    free_table::write(table, &mut text);
    text
}

// ---- the node header

/// The header of a node in either form, or the first of rules 15 to 21 that it breaks; rule 16 is
/// broken too where the name is not the one that the caller wants (`named`).
pub fn decode_named(bytes: &[u8], wide: bool, named: bool) -> Result<NodeHeader, BadField>
    requires { length bytes.now ≡ node_length wide }
    ensures sound { OnOk result (first_broken (node_rows wide 0 named bytes.now) ≡ None) }
    ensures says { IfOk result (λ n. record_of n ≡ node_record wide bytes.now) }
    ensures offsets { IfOk result HasOffsets }
    ensures narrow { IfOk result IsNarrow }
    ensures wide { IfOk result (λ n. n.wide ≡ wide) }
    ensures bad { IfErr result (λ b. first_broken (node_rows wide 0 named bytes.now)
        ≡ Some (fault b)) }
{
    match node::first_fault(bytes, wide, named) {
        Some(bad) => Err(bad),
        None => Ok(node::read(bytes, wide)),
    }
}

/// The header of a node of a narrow file, or the first of rules 15 to 21 that it breaks.
pub fn decode_node(bytes: &[u8; 246]) -> Result<NodeHeader, BadField>
    ensures sound { OnOk result (first_broken (node_rows false 0 true bytes.now) ≡ None) }
    ensures says { IfOk result (λ n. record_of n ≡ node_record false bytes.now) }
    ensures offsets { IfOk result HasOffsets }
    ensures narrow { IfOk result IsNarrow }
    ensures wide { IfOk result (λ n. n.wide ≡ false) }
    ensures bad { IfErr result (λ b. first_broken (node_rows false 0 true bytes.now)
        ≡ Some (fault b)) }
{
    decode_named(bytes, false, true)
}

/// The header of a node of a wide file, or the first of rules 15 to 21 that it breaks.
pub fn decode_wide(bytes: &[u8; 342]) -> Result<NodeHeader, BadField>
    ensures sound { OnOk result (first_broken (node_rows true 0 true bytes.now) ≡ None) }
    ensures says { IfOk result (λ n. record_of n ≡ node_record true bytes.now) }
    ensures offsets { IfOk result HasOffsets }
    ensures wide { IfOk result (λ n. n.wide ≡ true) }
    ensures bad { IfErr result (λ b. first_broken (node_rows true 0 true bytes.now)
        ≡ Some (fault b)) }
{
    decode_named(bytes, true, true)
}

/// The bytes of a node's header in a narrow file.
pub fn encode_node(header: &NodeHeader) -> [u8; 246]
    requires offsets { HasOffsets header.now }
    requires narrow { header.now.wide ≡ false }
    ensures { result ≡ node_text (record_of header.now) }
{
    let mut text = [0u8; 246];
    node::write(header, &mut text);
    text
}

/// The bytes of a node's header in a wide file.
pub fn encode_wide(header: &NodeHeader) -> [u8; 342]
    requires offsets { HasOffsets header.now }
    requires wide { header.now.wide ≡ true }
    ensures { result ≡ node_text (record_of header.now) }
{
    let mut text = [0u8; 342];
    node::write(header, &mut text);
    text
}

// ---- parts of a node header

/// Whether a field of 32 bytes holds a name, with spaces behind it.
pub fn is_name_field(field: &[u8; 32]) -> bool
    ensures { result ≡ is_name_field field.now }
{
    is_name(trimmed(field))
}

/// The dimensions of a node as numbers: 0 where a dimension is not hexadecimal.
pub fn dimensions_of(header: &NodeHeader) -> [u64; 12]
    ensures { result ≡ map (λ i.
        unwrap_or (hex_value (take (dimension_digits header.now.wide)
        (slice_index_or header.now.dims i []))) 0) (count_up 12) }
{
    node::numbers(&header.dims, header.wide)
}

// ---- laws

/// What is written is read again: of the text of a record that breaks no rule a reader answers that
/// record.
pub fn read_again()
    ensures header { HeaderIsReadAgain }
    ensures free { FreeIsReadAgain }
    ensures node { NodeIsReadAgain }
{}

/// What is read is written again, with the letters of numbers and pointers in upper case and all
/// other bytes as they were.
pub fn written_again()
    ensures header { HeaderIsWrittenAgain }
    ensures free { FreeIsWrittenAgain }
    ensures node { NodeIsWrittenAgain }
{}

/// The first rule that a record in a file breaks is the first that its bytes break, at the place of
/// the record and the offset in it.
pub fn faults_are_placed()
    ensures free { FreeFaultIsPlaced }
    ensures node { NodeFaultIsPlaced }
{}
