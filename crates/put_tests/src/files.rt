//! A file made by hand with the encoders, in both versions: the root with the children `N`, `D`, `L` and `S`.
//!
//! `N` has no data, `D` has 20 bytes in one chunk, `L` is a link, and `S` has 12 bytes in three chunks.
ghost use Rattle.std.specs.Prelude.{◌≡◌, ◌≤◌, ◌^◌, ◌<◌, false};
ghost use Rattle.adf_records.specs.View.{HasOffsets};
ghost use Rattle.disk_ptr.specs.View.{HasOffset};

use adf_chunks::{
    ChunkEntry, NodeEntry, Part, encode_chunk_entry, encode_entry, encode_head, tail,
};
use adf_format::{DataType, Format};
use adf_records::{
    FileHeader, FreeTable, NodeHeader, encode_free, encode_header, encode_node, encode_wide,
};
use disk_ptr::{DiskPtr, from_place};
use std::alloc::Global;
use std::test::Fail;
use test_spaces::Bytes;

/// The root, and where the headers of the others stand.
pub const ROOT: u64 = 266;

pub const NONE: u64 = 2000;

pub const ONE: u64 = 2400;

pub const LINK: u64 = 2800;

pub const MANY: u64 = 4000;

/// Where the one chunk stands, and the table of the several.
pub const ONE_CHUNK: u64 = 3200;

pub const MANY_TABLE: u64 = 4700;

/// The last byte of the file.
pub const END: u64 = 4999;

const ROOT_TABLE: u64 = 1000;

const LABEL: &[u8; 32] = b"DataArray_t                     ";

const ROOT_NAME: &[u8; 32] = b"ADF MotherNode                  ";

const ROOT_LABEL: &[u8; 32] = b"Root Node of ADF File           ";

const NONE_NAME: &[u8; 32] = b"N                               ";

const ONE_NAME: &[u8; 32] = b"D                               ";

const LINK_NAME: &[u8; 32] = b"L                               ";

const MANY_NAME: &[u8; 32] = b"S                               ";

fn near(at: u64) -> DiskPtr
    requires { at < 2 ^ 44 }
    ensures { HasOffset result }
{
    from_place(at)
}

// Dimensions of one digit each, and zeros.
fn dims(wide: bool, digits: &[u8]) -> [[u8; 16]; 12] {
    let last = if wide { 15 } else { 7 };
    let mut dims = [[b'0'; 16]; 12];
    for (i, digit) in digits.iter().enumerate() {
        if i < 12 {
            dims[i][last] = *digit;
        }
    }
    dims
}

// A node without children or data.
fn node(wide: bool, name: &[u8; 32]) -> NodeHeader
    ensures offsets { HasOffsets result }
    ensures wide { result.wide ≡ wide }
{
    NodeHeader {
        wide,
        name: *name,
        label: *LABEL,
        children: 0,
        entries: 0,
        table: DiskPtr::Blank,
        kind: DataType::Mt,
        rank: 0,
        dims: [[b'0'; 16]; 12],
        chunks: 0,
        chunk: DiskPtr::Blank,
    }
}

// Writes a header.
fn put_node(space: &mut Bytes, at: u64, header: &NodeHeader) -> bool
    requires { HasOffsets header.now }
{
    if header.wide {
        space.put(at, &encode_wide(header))
    } else {
        space.put(at, &encode_node(header))
    }
}

// The header and the free table.
fn put_front(space: &mut Bytes, wide: bool) -> bool {
    let what = if wide {
        b"@(#)ADF Database Version W02007>"
    } else {
        b"@(#)ADF Database Version A02007>"
    };
    let header = FileHeader {
        what: *what,
        created: [b' '; 28],
        modified: [b' '; 28],
        format: Format::Little,
        size_letter: b'L',
        sizes: [b'0'; 24],
        root: near(ROOT),
        end: near(END),
        free_table: near(186),
        extra: *b"000000001000",
    };
    let lists = FreeTable {
        small_first: DiskPtr::Blank,
        small_last: DiskPtr::Blank,
        medium_first: DiskPtr::Blank,
        medium_last: DiskPtr::Blank,
        large_first: DiskPtr::Blank,
        large_last: DiskPtr::Blank,
    };
    space.put(0, &encode_header(&header)) && space.put(186, &encode_free(&lists))
}

// Writes an entry of the root's table.
fn put_entry(space: &mut Bytes, position: u64, name: &[u8; 32], child: u64) -> bool {
    if child >= 1 << 20 || position > 4 {
        return false;
    }
    let entry = NodeEntry {
        name: *name,
        child: near(child),
    };
    space.put(ROOT_TABLE + 16 + 44 * position, &encode_entry(&entry))
}

// The root and its table of four entries.
fn put_root(space: &mut Bytes, wide: bool) -> bool {
    let root = NodeHeader {
        label: *ROOT_LABEL,
        children: 4,
        entries: 4,
        table: near(ROOT_TABLE),
        ..node(wide, ROOT_NAME)
    };
    let end = ROOT_TABLE + 16 + 44 * 4;
    put_node(space, ROOT, &root)
        && space.put(ROOT_TABLE, &encode_head(Part::SubNodes, near(end)))
        && space.put(end, &tail(Part::SubNodes))
        && put_entry(space, 0, NONE_NAME, NONE)
        && put_entry(space, 1, ONE_NAME, ONE)
        && put_entry(space, 2, LINK_NAME, LINK)
        && put_entry(space, 3, MANY_NAME, MANY)
}

// Writes a chunk with this payload.
fn put_chunk(space: &mut Bytes, at: u64, payload: &[u8]) -> bool {
    if at >= 1 << 20 || payload.len() >= 1 << 20 {
        return false;
    }
    let end = at + 16 + payload.len() as u64;
    space.put(at, &encode_head(Part::Data, near(end)))
        && space.put(at + 16, payload)
        && space.put(end, &tail(Part::Data))
}

// `N` without data, and `D` with five numbers of four bytes.
fn put_few(space: &mut Bytes, wide: bool) -> bool {
    let one = NodeHeader {
        kind: DataType::I4,
        rank: 1,
        dims: dims(wide, b"5"),
        chunks: 1,
        chunk: near(ONE_CHUNK),
        ..node(wide, ONE_NAME)
    };
    put_node(space, NONE, &node(wide, NONE_NAME))
        && put_node(space, ONE, &one)
        && put_chunk(space, ONE_CHUNK, b"AAAABBBBCCCCDDDDEEEE")
}

// The link and its chunk.
fn put_link(space: &mut Bytes, wide: bool) -> bool {
    let link = NodeHeader {
        kind: DataType::Lk,
        rank: 1,
        dims: dims(wide, b"9"),
        chunks: 1,
        chunk: near(3600),
        ..node(wide, LINK_NAME)
    };
    put_node(space, LINK, &link) && put_chunk(space, 3600, b"b.cgns>/A")
}

// Writes an entry of the table of the several chunks.
fn put_listed(space: &mut Bytes, position: u64, at: u64, length: u64) -> bool {
    if at >= 1 << 20 || length >= 1 << 10 || position > 2 {
        return false;
    }
    let entry = ChunkEntry {
        start: near(at),
        end_tag: near(at + 16 + length),
    };
    space.put(MANY_TABLE + 16 + 24 * position, &encode_chunk_entry(entry))
}

// `S` with three times four letters, in chunks of four, five and six bytes, the last three unused.
fn put_many(space: &mut Bytes, wide: bool) -> bool {
    let many = NodeHeader {
        kind: DataType::C1,
        rank: 2,
        dims: dims(wide, b"34"),
        chunks: 3,
        chunk: near(MANY_TABLE),
        ..node(wide, MANY_NAME)
    };
    let end = MANY_TABLE + 16 + 24 * 3;
    put_node(space, MANY, &many)
        && put_chunk(space, 4400, b"abcd")
        && put_chunk(space, 4500, b"efghi")
        && put_chunk(space, 4600, b"jkl...")
        && space.put(MANY_TABLE, &encode_head(Part::Chunks, near(end)))
        && space.put(end, &tail(Part::Chunks))
        && put_listed(space, 0, 4400, 4)
        && put_listed(space, 1, 4500, 5)
        && put_listed(space, 2, 4600, 6)
}

/// The file, in one of the two versions.
pub fn five_nodes(alloc: Global, wide: bool) -> Result<Bytes, Fail> {
    let mut space = Bytes::with_room(alloc, 5000)?;
    let made = space.put(0, &[b'z'; 5000])
        && put_front(&mut space, wide)
        && put_root(&mut space, wide)
        && put_few(&mut space, wide)
        && put_link(&mut space, wide)
        && put_many(&mut space, wide);
    if made {
        Ok(space)
    } else {
        Err("the file is not made")?
    }
}
