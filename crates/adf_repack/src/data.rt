//! The data of a node, appended in one chunk.

ghost use Rattle.std.specs.Prelude.{◌≡◌, ◌+◌, ◌^◌, ◌≤◌, length, max, take, IfSome, OnOk};
ghost use Rattle.adf_format.specs.Parts.{node_length};
ghost use Rattle.adf_format.specs.RecordFields.{node_chunks};
ghost use Rattle.adf_records.specs.View.{record_of, HasOffsets};
ghost use Rattle.adf_repack.specs.Writers.{IsWriter, count_in};
ghost use Rattle.adf_repack.specs.Places.{data_room};
ghost use Rattle.cg_io.specs.Pages.{IsReady};
ghost use Rattle.adf_repack.specs.Copies.{Copies};
ghost use Rattle.adf_repack.specs.Payloads.{payloads_of, copied_chunk, copied_data, BreaksData, BreaksContents};

use crate::copies::copy_range;
use crate::payloads::{read_chunk, read_payload};
use crate::puts::{put_chunk_end, put_chunk_head};
use crate::writer::BlockWriter;
use adf_model::AdfError;
use adf_records::NodeHeader;
use cg_io::{Blocks, Device, Page};

/// Appends the data of a node, so many bytes, in a chunk that stands at a place. The header of the node stands at another one.
pub fn copy_data<B: Blocks, E: Device>(
    blocks: &mut B,
    page: &mut Page,
    writer: &mut BlockWriter<E>,
    header: &NodeHeader,
    place: u64,
    size: u64,
    chunk: u64,
) -> Result<(), AdfError>
    requires ready { IsReady (B.is_sound blocks.old) (B.state blocks.old).held page.old }
    requires sound { IsWriter E.state writer.old }
    requires offsets { HasOffsets header.now }
    requires near { place + node_length header.now.wide ≤ 2 ^ 44 }
    requires chunk { chunk + 20 + max 12 size ≤ 2 ^ 44 }
    requires within { count_in writer.old + 20 + max 12 size ≤ 2 ^ 44 }
    ensures copies { Copies B.is_sound B.state E.state
        (BreaksData (B.state blocks.old).held header.now.wide (record_of header.now) place size)
        (20 + max 12 size)
        (λ image. copied_chunk image (record_of header.now) size chunk)
        blocks.old blocks.new page.new writer.old writer.new result }
    ensures enough { OnOk result (IfSome (B.state blocks.old).held
        (λ image. size ≤ length (payloads_of image (record_of header.now)))) }
{
    match put_chunk_head(writer, chunk, size) {
        Ok(()) => {}
        Err(error) => return Err(error),
    }
    match copy_payloads(blocks, page, writer, header, place, size) {
        Ok(()) => {}
        Err(error) => return Err(error),
    }
    put_chunk_end(writer, size)
}

/// Appends the data of a node, where it has data, as `copy_data` does.
pub fn copy_contents<B: Blocks, E: Device>(
    blocks: &mut B,
    page: &mut Page,
    writer: &mut BlockWriter<E>,
    header: &NodeHeader,
    place: u64,
    size: Option<u64>,
    chunk: u64,
) -> Result<(), AdfError>
    requires ready { IsReady (B.is_sound blocks.old) (B.state blocks.old).held page.old }
    requires sound { IsWriter E.state writer.old }
    requires offsets { HasOffsets header.now }
    requires near { place + node_length header.now.wide ≤ 2 ^ 44 }
    requires chunk { chunk + data_room size ≤ 2 ^ 44 }
    requires within { count_in writer.old + data_room size ≤ 2 ^ 44 }
    ensures copies { Copies B.is_sound B.state E.state
        (BreaksContents (B.state blocks.old).held header.now.wide (record_of header.now) place size)
        (data_room size) (λ image. copied_data image (record_of header.now) size chunk)
        blocks.old blocks.new page.new writer.old writer.new result }
    ensures enough { OnOk result (IfSome (B.state blocks.old).held
        (λ image. IfSome size (λ n. n ≤ length (payloads_of image (record_of header.now))))) }
{
    match size {
        None => Ok(()),
        Some(size) => copy_data(blocks, page, writer, header, place, size, chunk),
    }
}

// Appends the first bytes that the chunks of a node hold, so many, chunk by chunk. The header of the node stands at a place.
fn copy_payloads<B: Blocks, E: Device>(
    blocks: &mut B,
    page: &mut Page,
    writer: &mut BlockWriter<E>,
    header: &NodeHeader,
    place: u64,
    size: u64,
) -> Result<(), AdfError>
    requires ready { IsReady (B.is_sound blocks.old) (B.state blocks.old).held page.old }
    requires sound { IsWriter E.state writer.old }
    requires offsets { HasOffsets header.now }
    requires near { place + node_length header.now.wide ≤ 2 ^ 44 }
    requires within { count_in writer.old + size ≤ 2 ^ 44 }
    ensures copies { Copies B.is_sound B.state E.state
        (BreaksData (B.state blocks.old).held header.now.wide (record_of header.now) place size)
        size
        (λ image. take size (payloads_of image (record_of header.now)))
        blocks.old blocks.new page.new writer.old writer.new result }
    ensures enough { OnOk result (IfSome (B.state blocks.old).held
        (λ image. size ≤ length (payloads_of image (record_of header.now)))) }
{
    let mut left = size;
    for number in 0..header.chunks {
        let chunk = match read_chunk(blocks, page, header, number) {
            Ok(chunk) => chunk,
            Err(error) => return Err(error),
        };
        let payload = match read_payload(blocks, page, chunk) {
            Ok(payload) => payload,
            Err(error) => return Err(error),
        };
        let count = left.min(payload.length);
        match copy_range(blocks, page, writer, payload.place, count) {
            Ok(()) => {}
            Err(error) => return Err(error),
        }
        left -= count;
    }
    if left > 0 {
        return Err(AdfError::Layout {
            rule: 27,
            place: place + chunk_count_field(header),
        });
    }
    Ok(())
}

// Where the number of chunks stands in a header.
fn chunk_count_field(header: &NodeHeader) -> u64
    ensures { result ≡ (node_chunks header.now.wide).offset }
{
    if header.wide { 322 } else { 226 }
}
