//! The headers of the file that is copied and of its nodes.

ghost use Rattle.std.specs.Prelude.{◌≡◌, ◌⊎◌, ◌^◌, ◌+◌, ◌*◌, ◌<◌, ◌≤◌, ◌-◌, None, IfOk, IfErr, length, min, take};
ghost use Rattle.adf_format.specs.Names.{data_size};
ghost use Rattle.adf_format.specs.Parts.{node_length};
ghost use Rattle.adf_format.specs.FirstFault.{header_rows as file_rows};
ghost use Rattle.adf_format.specs.Records.{header_record};
ghost use Rattle.adf_model.specs.Counts.{OnlyReads};
ghost use Rattle.adf_records.specs.View.{header_of, HasOffsets};
ghost use Rattle.cg_io.specs.Device.{GivesAt};
ghost use Rattle.layout_lint.specs.Nodes.{numbers_of, table_of};
ghost use Rattle.node_reads.specs.Headers.{header_rows, IsHeader};
ghost use Rattle.node_reads.specs.Reads.{ReadAt, Breaks, IsUnread};
ghost use Rattle.cg_io.specs.Pages.{IsReady};
ghost use Rattle.adf_repack.specs.Sources.{IsUnread as IsReadFault, IsBroken, IsBeyond};

use crate::source::bytes_at;
use adf_format::fields::{ENTRY_LENGTH, HEAD_LENGTH, HEADER_LENGTH};
use adf_model::{AdfError, Shape, size};
use adf_records::{FileHeader, NodeHeader, decode_header, decode_named, dimensions_of};
use cg_io::{Blocks, Page};
use disk_ptr::DiskPtr;

/// The header of the file: it breaks none of rules 2 to 7.
pub fn read_file_header<B: Blocks>(blocks: &mut B, page: &mut Page) -> Result<FileHeader, AdfError>
    requires { IsReady (B.is_sound blocks.old) (B.state blocks.old).held page.old }
    ensures ready { IsReady (B.is_sound blocks.new) (B.state blocks.new).held page.new }
    ensures says { IfOk result (λ h. ReadAt (B.state blocks.old).held 0 186
        (λ bytes. header_of h ≡ header_record bytes)) }
    ensures reads { OnlyReads (B.state blocks.old) (B.state blocks.new) }
    ensures cause { IfErr result (IsUnread (Breaks (B.state blocks.old).held 0 186 file_rows)
        (B.state blocks.old).faults (B.state blocks.new).faults) }
{
    let bytes = match bytes_at::<B, HEADER_LENGTH>(blocks, page, 0) {
        Ok(bytes) => bytes,
        Err(_) => return Err(AdfError::ReadFault),
    };
    match decode_header(&bytes) {
        Ok(header) => Ok(header),
        Err(bad) => Err(AdfError::Layout {
            rule: bad.rule,
            place: u64::from(bad.offset),
        }),
    }
}

// The header of so many bytes.
fn header_at<B: Blocks, const N: usize>(
    blocks: &mut B,
    page: &mut Page,
    wide: bool,
    place: u64,
) -> Result<NodeHeader, AdfError>
    requires ready { IsReady (B.is_sound blocks.old) (B.state blocks.old).held page.old }
    requires long { N ≡ node_length wide }
    requires within { place + N ≤ 2 ^ 44 }
    ensures ready { IsReady (B.is_sound blocks.new) (B.state blocks.new).held page.new }
    ensures header { IfOk result (λ h. ReadAt (B.state blocks.old).held place N
        (IsHeader wide place None h)) }
    ensures offsets { IfOk result HasOffsets }
    ensures wide { IfOk result (λ h. h.wide ≡ wide) }
    ensures reads { OnlyReads (B.state blocks.old) (B.state blocks.new) }
    ensures cause { IfErr result (IsUnread (Breaks (B.state blocks.old).held place N
        (header_rows wide place None)) (B.state blocks.old).faults (B.state blocks.new).faults) }
{
    let bytes = match bytes_at::<B, N>(blocks, page, place) {
        Ok(bytes) => bytes,
        Err(_) => return Err(AdfError::ReadFault),
    };
    match decode_named(&bytes, wide, true) {
        Ok(header) => Ok(header),
        Err(bad) => Err(AdfError::Layout {
            rule: bad.rule,
            place: place + u64::from(bad.offset),
        }),
    }
}

/// The header of the node at a place: it breaks none of rules 15 to 21.
pub fn read_header<B: Blocks>(
    blocks: &mut B,
    page: &mut Page,
    wide: bool,
    place: u64,
) -> Result<NodeHeader, AdfError>
    requires ready { IsReady (B.is_sound blocks.old) (B.state blocks.old).held page.old }
    requires within { place + node_length wide ≤ 2 ^ 44 }
    ensures ready { IsReady (B.is_sound blocks.new) (B.state blocks.new).held page.new }
    ensures header { IfOk result (λ h. ReadAt (B.state blocks.old).held place (node_length wide)
        (IsHeader wide place None h)) }
    ensures offsets { IfOk result HasOffsets }
    ensures wide { IfOk result (λ h. h.wide ≡ wide) }
    ensures reads { OnlyReads (B.state blocks.old) (B.state blocks.new) }
    ensures cause { IfErr result (IsUnread (Breaks (B.state blocks.old).held place
        (node_length wide) (header_rows wide place None)) (B.state blocks.old).faults
        (B.state blocks.new).faults) }
{
    if wide {
        header_at::<B, 342>(blocks, page, true, place)
    } else {
        header_at::<B, 246>(blocks, page, false, place)
    }
}

/// The bytes of a node's data, at most 2^64 - 1.
pub fn size_of_data(header: &NodeHeader) -> u64
    ensures { result ≡ min (data_size header.now.kind
        (take header.now.rank (numbers_of header.now))) (2 ^ 64 - 1) }
{
    size(&Shape {
        kind: header.kind,
        rank: header.rank,
        dims: dimensions_of(header),
    })
}

/// The name field in the entry at a position of the table that a header names.
pub fn read_name<B: Blocks>(
    blocks: &mut B,
    page: &mut Page,
    header: &NodeHeader,
    position: u32,
) -> Result<[u8; 32], AdfError>
    requires ready { IsReady (B.is_sound blocks.old) (B.state blocks.old).held page.old }
    requires offsets { HasOffsets header.now }
    ensures ready { IsReady (B.is_sound blocks.new) (B.state blocks.new).held page.new }
    ensures told { IfOk result (GivesAt (B.state blocks.old).held
        (table_of header.now + 16 + 44 * position)) }
    ensures long { IfOk result (λ name. length name ≡ 32) }
    ensures reads { OnlyReads (B.state blocks.old) (B.state blocks.new) }
    ensures cause { IfErr result (λ e. IsReadFault (B.state blocks.old).faults
        (B.state blocks.new).faults e
        ⊎ IsBroken (IsBeyond (table_of header.now + 16 + 44 * position)) e) }
{
    let table = table_place(header);
    let at = table + HEAD_LENGTH as u64 + ENTRY_LENGTH as u64 * u64::from(position);
    if at + 32 > 1 << 44 {
        return Err(AdfError::Layout {
            rule: 24,
            place: at,
        });
    }
    match bytes_at::<B, 32>(blocks, page, at) {
        Ok(name) => Ok(name),
        Err(_) => Err(AdfError::ReadFault),
    }
}

// Where the table of a header stands; 0 where there is none.
fn table_place(header: &NodeHeader) -> u64
    requires { HasOffsets header.now }
    ensures place { result ≡ table_of header.now }
    ensures near { result < 2 ^ 44 }
{
    match header.table {
        DiskPtr::Blank => 0,
        DiskPtr::At { block, offset } => u64::from(block) * 4096 + u64::from(offset),
    }
}
