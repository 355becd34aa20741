//! Parts of a file, written with the encoders.
ghost use Rattle.std.specs.Prelude.{◌≡◌, ◌^◌, ◌<◌};
ghost use Rattle.adf_records.specs.View.{HasOffsets};
ghost use Rattle.disk_ptr.specs.View.{HasOffset};

use adf_chunks::{
    ChunkEntry, NodeEntry, Part, encode_chunk_entry, encode_entry, encode_head, tail,
};
use adf_format::{DataType, Format};
use adf_records::{
    FileHeader, FreeTable, NodeHeader, encode_free, encode_header, encode_node, encode_wide,
};
use disk_ptr::{DiskPtr, from_place};
use test_spaces::Bytes;

const LABEL: &[u8; 32] = b"Zone_t                          ";

/// What a header says of its node.
#[derive(Clone, Copy)]
pub struct Header {
    pub wide: bool,
    /// One letter, which is the name; the root has a name of its own.
    pub name: u8,
    pub children: u32,
    pub entries: u32,
    pub table: u64,
    /// Nine bytes of data in so many chunks: a chunk, or the table of several.
    pub chunks: u16,
    pub chunk: u64,
    pub link: bool,
}

fn near(at: u64) -> DiskPtr
    requires { at < 2 ^ 44 }
    ensures { HasOffset result }
{
    from_place(at)
}

fn to_some(at: u64) -> DiskPtr
    ensures { HasOffset result }
{
    if at == 0 || at >= 1 << 20 {
        DiskPtr::Blank
    } else {
        near(at)
    }
}

/// The name field of a letter.
fn name_of(letter: u8) -> [u8; 32] {
    if letter == b'0' {
        return *b"ADF MotherNode                  ";
    }
    let mut name = [b' '; 32];
    name[0] = letter;
    name
}

fn header_of(header: Header) -> NodeHeader
    ensures offsets { HasOffsets result }
    ensures wide { result.wide ≡ header.wide }
{
    let mut dims = [[b'0'; 16]; 12];
    let digits = if header.wide { 15 } else { 7 };
    let mut kind = DataType::Mt;
    if header.chunks > 0 {
        dims[0][digits] = b'9';
        kind = if header.link {
            DataType::Lk
        } else {
            DataType::C1
        };
    }
    NodeHeader {
        wide: header.wide,
        name: name_of(header.name),
        label: *LABEL,
        children: header.children,
        entries: header.entries,
        table: to_some(header.table),
        kind,
        rank: if header.chunks > 0 { 1 } else { 0 },
        dims,
        chunks: header.chunks,
        chunk: to_some(header.chunk),
    }
}

/// Writes a header.
pub fn put_node(space: &mut Bytes, at: u64, header: Header) -> bool {
    let node = header_of(header);
    if header.wide {
        space.put(at, &encode_wide(&node))
    } else {
        space.put(at, &encode_node(&node))
    }
}

/// Writes the header of the file and an empty free table.
pub fn put_front(space: &mut Bytes, wide: bool, end: u64) -> bool {
    if end >= 1 << 20 {
        return false;
    }
    let what = if wide {
        b"@(#)ADF Database Version W02007>"
    } else {
        b"@(#)ADF Database Version A02007>"
    };
    let header = FileHeader {
        what: *what,
        created: [b' '; 28],
        modified: [b' '; 28],
        format: Format::Little,
        size_letter: b'L',
        sizes: [b'0'; 24],
        root: near(266),
        end: near(end),
        free_table: near(186),
        extra: *b"000000001000",
    };
    let lists = FreeTable {
        small_first: DiskPtr::Blank,
        small_last: DiskPtr::Blank,
        medium_first: DiskPtr::Blank,
        medium_last: DiskPtr::Blank,
        large_first: DiskPtr::Blank,
        large_last: DiskPtr::Blank,
    };
    space.put(0, &encode_header(&header)) && space.put(186, &encode_free(&lists))
}

// Writes the head and the end tag of a part of so many bytes.
fn put_frame(space: &mut Bytes, part: Part, at: u64, length: u64) -> bool {
    if at >= 1 << 20 || length < 20 || length >= 1 << 20 {
        return false;
    }
    let end = at + length - 4;
    space.put(at, &encode_head(part, near(end))) && space.put(end, &tail(part))
}

/// Writes a table whose entries name children by a letter and a place.
pub fn put_table(space: &mut Bytes, at: u64, children: &[(u8, u64)]) -> bool {
    if at >= 1 << 20 || children.len() > 100 {
        return false;
    }
    let count = children.len() as u64;
    if !put_frame(space, Part::SubNodes, at, 20 + 44 * count) {
        return false;
    }
    let mut entry_at = at + 16;
    for (letter, place) in children {
        let entry = NodeEntry {
            name: name_of(*letter),
            child: to_some(*place),
        };
        if !space.put(entry_at, &encode_entry(&entry)) {
            return false;
        }
        entry_at = entry_at.saturating_add(44);
    }
    true
}

/// Writes a chunk of data.
pub fn put_chunk(space: &mut Bytes, at: u64, text: &[u8]) -> bool {
    if at >= 1 << 20 || text.len() > 100 {
        return false;
    }
    put_frame(space, Part::Data, at, 20 + text.len() as u64) && space.put(at + 16, text)
}

/// Writes a table of two chunks, each with its place and its length.
pub fn put_chunk_table(space: &mut Bytes, at: u64, chunks: &[(u64, u64); 2]) -> bool {
    if at >= 1 << 20 || !put_frame(space, Part::Chunks, at, 68) {
        return false;
    }
    let mut entry_at = at + 16;
    for (start, length) in chunks {
        let entry = ChunkEntry {
            start: to_some(*start),
            end_tag: to_some(start.saturating_add(*length).saturating_sub(4)),
        };
        if !space.put(entry_at, &encode_chunk_entry(entry)) {
            return false;
        }
        entry_at = entry_at.saturating_add(24);
    }
    true
}
