//! The payloads of the data chunks of a node.

ghost use Rattle.std.specs.Prelude.{◌≡◌, ◌⊎◌, ◌^◌, ◌+◌, ◌≤◌, ◌<◌, length, false, true, IfOk, IfErr, IfSome, MatchOption};
ghost use Rattle.adf_format.specs.Fields.{field};
ghost use Rattle.adf_format.specs.Pointer.{is_place, place_of};
ghost use Rattle.adf_model.specs.Counts.{OnlyReads};
ghost use Rattle.adf_records.specs.View.{record_of, HasOffsets};
ghost use Rattle.cg_io.specs.Pages.{IsReady};
ghost use Rattle.adf_repack.specs.Sources.{IsUnread, IsBroken};
ghost use Rattle.adf_repack.specs.Payloads.{chunk_of, chunk_at, payload_length, BreaksEntry, BreaksHead};

use crate::source::bytes_at;
use adf_chunks::{Part, begins};
use adf_format::fields::{CHUNK_ENTRY_LENGTH, CHUNK_START, Field, HEAD_LENGTH, HEAD_POINTER};
use adf_model::AdfError;
use adf_records::NodeHeader;
use cg_io::{Blocks, Page};
use disk_ptr::DiskPtr;
use disk_ptr::fields::pointer_at;

/// The payload of a data chunk: where it begins, and how many bytes it has.
#[derive(Clone, Copy, Drop)]
pub struct Payload {
    pub place: u64,
    pub length: u64,
}

// The place that the pointer in a field names, if it names one.
fn place_in(bytes: &[u8], at: Field) -> Option<u64>
    requires { at.offset + 12 ≤ length bytes.now }
    ensures value { MatchOption result (is_place (field bytes.now at.offset 12) ≡ false)
        (λ place. (is_place (field bytes.now at.offset 12) ≡ true)
        × (place_of (field bytes.now at.offset 12) ≡ place)) }
    ensures near { IfSome result (λ place. place < 2 ^ 44) }
{
    match pointer_at(bytes, at) {
        Some(DiskPtr::At { block, offset }) => Some(u64::from(block) * 4096 + u64::from(offset)),
        Some(DiskPtr::Blank) => None,
        None => None,
    }
}

// Where the chunk or the chunk table of a header stands; 0 where there is none.
fn chunk_place(header: &NodeHeader) -> u64
    requires { HasOffsets header.now }
    ensures place { result ≡ chunk_of (record_of header.now) }
    ensures near { result < 2 ^ 44 }
{
    match header.chunk {
        DiskPtr::Blank => 0,
        DiskPtr::At { block, offset } => u64::from(block) * 4096 + u64::from(offset),
    }
}

/// Where a chunk of a node stands: the one that the header names, or one of those in its table.
pub fn read_chunk<B: Blocks>(
    blocks: &mut B,
    page: &mut Page,
    header: &NodeHeader,
    number: u16,
) -> Result<u64, AdfError>
    requires ready { IsReady (B.is_sound blocks.old) (B.state blocks.old).held page.old }
    requires offsets { HasOffsets header.now }
    ensures ready { IsReady (B.is_sound blocks.new) (B.state blocks.new).held page.new }
    ensures told { IfOk result (λ c. IfSome (B.state blocks.old).held
        (λ image. c ≡ chunk_at image (record_of header.now) number)) }
    ensures near { IfOk result (λ c. c < 2 ^ 44) }
    ensures reads { OnlyReads (B.state blocks.old) (B.state blocks.new) }
    ensures cause { IfErr result (λ e. IsUnread (B.state blocks.old).faults
        (B.state blocks.new).faults e
        ⊎ IsBroken (BreaksEntry (B.state blocks.old).held (record_of header.now) number) e) }
{
    let start = chunk_place(header);
    if header.chunks == 1 {
        return Ok(start);
    }
    let at = start + HEAD_LENGTH as u64 + CHUNK_ENTRY_LENGTH as u64 * u64::from(number);
    if at + 24 > 1 << 44 {
        return Err(AdfError::Layout {
            rule: 25,
            place: at,
        });
    }
    let entry = match bytes_at::<B, 24>(blocks, page, at) {
        Ok(entry) => entry,
        Err(_) => return Err(AdfError::ReadFault),
    };
    match place_in(&entry, CHUNK_START) {
        Some(chunk) => Ok(chunk),
        None => Err(AdfError::Layout {
            rule: 25,
            place: at,
        }),
    }
}

/// The payload of the chunk at a place, by its head.
pub fn read_payload<B: Blocks>(
    blocks: &mut B,
    page: &mut Page,
    chunk: u64,
) -> Result<Payload, AdfError>
    requires ready { IsReady (B.is_sound blocks.old) (B.state blocks.old).held page.old }
    requires near { chunk < 2 ^ 44 }
    ensures ready { IsReady (B.is_sound blocks.new) (B.state blocks.new).held page.new }
    ensures place { IfOk result (λ p. p.place ≡ chunk + 16) }
    ensures told { IfOk result (λ p. IfSome (B.state blocks.old).held
        (λ image. p.length ≡ payload_length image chunk)) }
    ensures near { IfOk result (λ p. p.place + p.length ≤ 2 ^ 44) }
    ensures reads { OnlyReads (B.state blocks.old) (B.state blocks.new) }
    ensures cause { IfErr result (λ e. IsUnread (B.state blocks.old).faults
        (B.state blocks.new).faults e
        ⊎ IsBroken (BreaksHead (B.state blocks.old).held chunk) e) }
{
    if chunk + 16 > 1 << 44 {
        return Err(AdfError::Layout {
            rule: 26,
            place: chunk,
        });
    }
    let head = match bytes_at::<B, 16>(blocks, page, chunk) {
        Ok(head) => head,
        Err(_) => return Err(AdfError::ReadFault),
    };
    if !begins(Part::Data, &head) {
        return Err(AdfError::Layout {
            rule: 26,
            place: chunk,
        });
    }
    match place_in(&head, HEAD_POINTER) {
        Some(tail) if tail >= chunk + 17 => Ok(Payload {
            place: chunk + HEAD_LENGTH as u64,
            length: tail - chunk - HEAD_LENGTH as u64,
        }),
        _ => Err(AdfError::Layout {
            rule: 26,
            place: chunk + HEAD_POINTER.offset as u64,
        }),
    }
}
