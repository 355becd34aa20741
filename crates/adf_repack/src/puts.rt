//! Parts of a packed file, appended to it.

ghost use Rattle.std.specs.Prelude.{◌≡◌, ◌+◌, ◌-◌, ◌*◌, ◌^◌, ◌≤◌, ◌<◌, ◌++◌, length, max, replicate, OnOk};
ghost use Rattle.adf_format.specs.Parts.{node_length};
ghost use Rattle.adf_format.specs.Pointer.{Blank, To};
ghost use Rattle.adf_format.specs.Records.{SubNodes, Data, header_text, free_table_text, node_text, head_text, end_tag, entry_text};
ghost use Rattle.adf_records.specs.View.{record_of, HasOffsets};
ghost use Rattle.packed_laws.specs.PackedForm.{packed_header_of};
ghost use Rattle.adf_repack.specs.Writers.{IsWriter, count_in};
ghost use Rattle.adf_repack.specs.Copies.{Appends};

use crate::headers::{file_header, no_lists, pointer_to};
use crate::writer::BlockWriter;
use adf_chunks::{NodeEntry, Part, encode_entry, encode_head, tail};
use adf_format::Format;
use adf_model::AdfError;
use adf_records::{NodeHeader, encode_free, encode_header, encode_node, encode_wide};
use cg_io::Device;

/// Appends bytes.
pub fn put<E: Device>(writer: &mut BlockWriter<E>, bytes: &[u8]) -> Result<(), AdfError>
    requires sound { IsWriter E.state writer.old }
    requires within { count_in writer.old + length bytes.now ≤ 2 ^ 44 }
    ensures { Appends E.state bytes.now writer.old writer.new result }
{
    match writer.append(bytes) {
        Ok(()) => Ok(()),
        Err(_) => Err(AdfError::WriteFault),
    }
}

/// Appends the header of the file and its free table.
pub fn put_head<E: Device>(
    writer: &mut BlockWriter<E>,
    wide: bool,
    format: Format,
    end: u64,
) -> Result<(), AdfError>
    requires sound { IsWriter E.state writer.old }
    requires within { count_in writer.old + 266 ≤ 2 ^ 44 }
    requires near { end < 2 ^ 44 }
    ensures appends { Appends E.state (header_text (packed_header_of wide format end)
        ++ free_table_text (replicate 6 Blank)) writer.old writer.new result }
    ensures long { OnOk result (length (header_text (packed_header_of wide format end)
        ++ free_table_text (replicate 6 Blank)) ≡ 266) }
{
    match put(writer, &encode_header(&file_header(wide, format, end))) {
        Ok(()) => {}
        Err(error) => return Err(error),
    }
    put(writer, &encode_free(&no_lists()))
}

/// Appends the header of a node.
pub fn put_header<E: Device>(
    writer: &mut BlockWriter<E>,
    header: &NodeHeader,
) -> Result<(), AdfError>
    requires sound { IsWriter E.state writer.old }
    requires offsets { HasOffsets header.now }
    requires within { count_in writer.old + node_length header.now.wide ≤ 2 ^ 44 }
    ensures appends { Appends E.state (node_text (record_of header.now)) writer.old writer.new
        result }
    ensures long { length (node_text (record_of header.now)) ≡ node_length header.now.wide }
{
    if header.wide {
        put(writer, &encode_wide(header))
    } else {
        put(writer, &encode_node(header))
    }
}

/// Appends the head of a table of so many children at a place.
pub fn put_table_head<E: Device>(
    writer: &mut BlockWriter<E>,
    place: u64,
    children: u64,
) -> Result<(), AdfError>
    requires sound { IsWriter E.state writer.old }
    requires within { count_in writer.old + 16 ≤ 2 ^ 44 }
    requires near { place + 20 + 44 * children ≤ 2 ^ 44 }
    ensures { Appends E.state (head_text SubNodes (To (place + 16 + 44 * children))) writer.old
        writer.new result }
{
    put(
        writer,
        &encode_head(Part::SubNodes, pointer_to(place + 16 + 44 * children)),
    )
}

/// Appends the entry of a child: a name field, and the place of its header.
pub fn put_entry<E: Device>(
    writer: &mut BlockWriter<E>,
    name: &[u8; 32],
    child: u64,
) -> Result<(), AdfError>
    requires sound { IsWriter E.state writer.old }
    requires within { count_in writer.old + 44 ≤ 2 ^ 44 }
    requires near { child < 2 ^ 44 }
    ensures { Appends E.state (entry_text name.now (To child)) writer.old writer.new result }
{
    let entry = NodeEntry {
        name: *name,
        child: pointer_to(child),
    };
    put(writer, &encode_entry(&entry))
}

/// Appends the end tag of a table of children.
pub fn put_table_end<E: Device>(writer: &mut BlockWriter<E>) -> Result<(), AdfError>
    requires sound { IsWriter E.state writer.old }
    requires within { count_in writer.old + 4 ≤ 2 ^ 44 }
    ensures { Appends E.state (end_tag SubNodes) writer.old writer.new result }
{
    put(writer, &tail(Part::SubNodes))
}

/// Appends the head of a chunk at a place, for data of so many bytes.
pub fn put_chunk_head<E: Device>(
    writer: &mut BlockWriter<E>,
    place: u64,
    size: u64,
) -> Result<(), AdfError>
    requires sound { IsWriter E.state writer.old }
    requires within { count_in writer.old + 16 ≤ 2 ^ 44 }
    requires near { place + 20 + max 12 size ≤ 2 ^ 44 }
    ensures { Appends E.state (head_text Data (To (place + 16 + max 12 size))) writer.old writer.new
        result }
{
    put(
        writer,
        &encode_head(Part::Data, pointer_to(place + 16 + size.max(12))),
    )
}

/// Appends what stands behind data of so many bytes: zeros up to 12 bytes, and the end tag of the chunk.
pub fn put_chunk_end<E: Device>(writer: &mut BlockWriter<E>, size: u64) -> Result<(), AdfError>
    requires sound { IsWriter E.state writer.old }
    requires within { count_in writer.old + (12 - size) + 4 ≤ 2 ^ 44 }
    ensures { Appends E.state (replicate (12 - size) 0 ++ end_tag Data) writer.old writer.new
        result }
{
    match put_zeros(writer, slack(size)) {
        Ok(()) => {}
        Err(error) => return Err(error),
    }
    put(writer, &tail(Part::Data))
}

// How many bytes are wanted behind data of so many.
fn slack(size: u64) -> u64
    ensures { result ≡ 12 - size }
{
    12 - size.min(12)
}

// Appends some zeros.
fn put_zeros<E: Device>(writer: &mut BlockWriter<E>, count: u64) -> Result<(), AdfError>
    requires sound { IsWriter E.state writer.old }
    requires few { count ≤ 12 }
    requires within { count_in writer.old + count ≤ 2 ^ 44 }
    ensures { Appends E.state (replicate count 0) writer.old writer.new result }
{
    let zeros = [0u8; 12];
    put(writer, &zeros[..count as usize])
}
