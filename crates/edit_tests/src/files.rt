//! A file made by hand with the encoders, in both versions: the root with the children `A`, `B` and `L`, and `C` under `A`.
//!
//! `L` is a link. The tables have room for more entries than are in use.
ghost use Rattle.std.specs.Prelude.{◌≡◌, ◌≤◌, ◌^◌, ◌<◌, false};
ghost use Rattle.adf_records.specs.View.{HasOffsets};
ghost use Rattle.disk_ptr.specs.View.{HasOffset};

use adf_chunks::{NodeEntry, Part, encode_entry, encode_head, tail};
use adf_format::{DataType, Format};
use adf_records::{
    FileHeader, FreeTable, NodeHeader, encode_free, encode_header, encode_node, encode_wide,
};
use disk_ptr::{DiskPtr, from_place};
use std::alloc::Global;
use std::test::Fail;
use test_spaces::Bytes;

/// The root, and where the headers of the others stand.
pub const ROOT: u64 = 266;

pub const A: u64 = 2000;

pub const B: u64 = 2400;

pub const LINK: u64 = 2800;

pub const C: u64 = 3200;

/// Where the tables of the root and of `A` stand.
pub const ROOT_TABLE: u64 = 1000;

pub const A_TABLE: u64 = 1500;

/// The last byte of the file.
pub const END: u64 = 3999;

const LABEL: &[u8; 32] = b"Zone_t                          ";

const ROOT_NAME: &[u8; 32] = b"ADF MotherNode                  ";

const ROOT_LABEL: &[u8; 32] = b"Root Node of ADF File           ";

pub const A_NAME: &[u8; 32] = b"A                               ";

pub const B_NAME: &[u8; 32] = b"B                               ";

const LINK_NAME: &[u8; 32] = b"L                               ";

const C_NAME: &[u8; 32] = b"C                               ";

const LINK_TEXT: &[u8] = b"b.cgns>/A";

fn near(at: u64) -> DiskPtr
    requires { at < 2 ^ 44 }
    ensures { HasOffset result }
{
    from_place(at)
}

// A node without children or data.
fn node(wide: bool, name: &[u8; 32]) -> NodeHeader
    ensures offsets { HasOffsets result }
    ensures wide { result.wide ≡ wide }
{
    NodeHeader {
        wide,
        name: *name,
        label: *LABEL,
        children: 0,
        entries: 0,
        table: DiskPtr::Blank,
        kind: DataType::Mt,
        rank: 0,
        dims: [[b'0'; 16]; 12],
        chunks: 0,
        chunk: DiskPtr::Blank,
    }
}

// Writes a header.
fn put_node(space: &mut Bytes, at: u64, header: &NodeHeader) -> bool
    requires { HasOffsets header.now }
{
    if header.wide {
        space.put(at, &encode_wide(header))
    } else {
        space.put(at, &encode_node(header))
    }
}

// The header and the free table.
fn put_front(space: &mut Bytes, wide: bool) -> bool {
    let what = if wide {
        b"@(#)ADF Database Version W02012>"
    } else {
        b"@(#)ADF Database Version A02007>"
    };
    let header = FileHeader {
        what: *what,
        created: [b' '; 28],
        modified: [b' '; 28],
        format: Format::Little,
        size_letter: b'L',
        sizes: [b'0'; 24],
        root: near(ROOT),
        end: near(END),
        free_table: near(186),
        extra: *b"000000001000",
    };
    let lists = FreeTable {
        small_first: DiskPtr::Blank,
        small_last: DiskPtr::Blank,
        medium_first: DiskPtr::Blank,
        medium_last: DiskPtr::Blank,
        large_first: DiskPtr::Blank,
        large_last: DiskPtr::Blank,
    };
    space.put(0, &encode_header(&header)) && space.put(186, &encode_free(&lists))
}

// Writes the head and the end tag of a table of so many entries.
fn put_table(space: &mut Bytes, at: u64, entries: u32) -> bool {
    if at >= 1 << 20 {
        return false;
    }
    let end = at + 16 + 44 * u64::from(entries);
    space.put(at, &encode_head(Part::SubNodes, near(end))) && space.put(end, &tail(Part::SubNodes))
}

// Writes an entry.
fn put_entry(space: &mut Bytes, at: u64, name: &[u8; 32], child: u64) -> bool {
    if child >= 1 << 20 {
        return false;
    }
    let entry = NodeEntry {
        name: *name,
        child: near(child),
    };
    space.put(at, &encode_entry(&entry))
}

// The root and its table of four entries.
fn put_root(space: &mut Bytes, wide: bool) -> bool {
    let root = NodeHeader {
        label: *ROOT_LABEL,
        children: 3,
        entries: 4,
        table: near(ROOT_TABLE),
        ..node(wide, ROOT_NAME)
    };
    put_node(space, ROOT, &root)
        && put_table(space, ROOT_TABLE, 4)
        && put_entry(space, ROOT_TABLE + 16, A_NAME, A)
        && put_entry(space, ROOT_TABLE + 60, B_NAME, B)
        && put_entry(space, ROOT_TABLE + 104, LINK_NAME, LINK)
}

// `A` and its table of two entries, `B`, and `C`.
fn put_nodes(space: &mut Bytes, wide: bool) -> bool {
    let a = NodeHeader {
        children: 1,
        entries: 2,
        table: near(A_TABLE),
        ..node(wide, A_NAME)
    };
    put_node(space, A, &a)
        && put_table(space, A_TABLE, 2)
        && put_entry(space, A_TABLE + 16, C_NAME, C)
        && put_node(space, B, &node(wide, B_NAME))
        && put_node(space, C, &node(wide, C_NAME))
}

// The link and its chunk.
fn put_link(space: &mut Bytes, wide: bool) -> bool {
    let mut dims = [[b'0'; 16]; 12];
    let digits = if wide { 15 } else { 7 };
    dims[0][digits] = b'9';
    let link = NodeHeader {
        kind: DataType::Lk,
        rank: 1,
        dims,
        chunks: 1,
        chunk: near(3600),
        ..node(wide, LINK_NAME)
    };
    put_node(space, LINK, &link)
        && space.put(3600, &encode_head(Part::Data, near(3625)))
        && space.put(3616, LINK_TEXT)
        && space.put(3625, &tail(Part::Data))
}

/// The file, in one of the two versions.
pub fn four_nodes(alloc: Global, wide: bool) -> Result<Bytes, Fail> {
    let mut space = Bytes::with_room(alloc, 4000)?;
    let made = space.put(0, &[b'z'; 4000])
        && put_front(&mut space, wide)
        && put_root(&mut space, wide)
        && put_nodes(&mut space, wide)
        && put_link(&mut space, wide);
    if made {
        Ok(space)
    } else {
        Err("the file is not made")?
    }
}
