//! Files made by hand with the encoders.
//!
//! Room for a whole file is asked for before it is made, so that making it allocates once.
ghost use Rattle.std.specs.Prelude.{◌≡◌, ◌^◌, ◌<◌, false};
ghost use Rattle.adf_records.specs.View.{HasOffsets, HasFreeOffsets};
ghost use Rattle.disk_ptr.specs.View.{HasOffset};

use adf_chunks::{
    Extent, ExtentKind, Extents, FreeHead, NodeEntry, Part, encode_entry, encode_free_head,
    encode_head, tail,
};
use adf_format::{DataType, Format};
use adf_records::{FileHeader, FreeTable, NodeHeader, encode_free, encode_header, encode_node};
use disk_ptr::{DiskPtr, from_place};
use std::alloc::{AllocError, Global};
use std::test::Fail;
use test_spaces::Bytes;

fn near(at: u64) -> DiskPtr
    requires { at < 2 ^ 44 }
    ensures { HasOffset result }
{
    from_place(at)
}

fn node(
    name: &[u8; 32],
    label: &[u8; 32],
    children: u32,
    entries: u32,
    table: DiskPtr,
) -> NodeHeader
    requires { HasOffset table }
    ensures offsets { HasOffsets result }
    ensures narrow { result.wide ≡ false }
{
    NodeHeader {
        wide: false,
        name: *name,
        label: *label,
        children,
        entries,
        table,
        kind: DataType::Mt,
        rank: 0,
        dims: [[b'0'; 16]; 12],
        chunks: 0,
        chunk: DiskPtr::Blank,
    }
}

const NAMES: [(u64, &[u8; 32]); 9] = [
    (512, b"N1                              "),
    (1130, b"N2                              "),
    (1376, b"N3                              "),
    (1622, b"N4                              "),
    (1868, b"N5                              "),
    (2114, b"N6                              "),
    (2360, b"N7                              "),
    (2606, b"N8                              "),
    (2852, b"N9                              "),
];

const LABEL: &[u8; 32] = b"DataArray_t                     ";

const NO_LISTS: FreeTable = FreeTable {
    small_first: DiskPtr::Blank,
    small_last: DiskPtr::Blank,
    medium_first: DiskPtr::Blank,
    medium_last: DiskPtr::Blank,
    large_first: DiskPtr::Blank,
    large_last: DiskPtr::Blank,
};

/// A gap: its place, its length and its kind.
pub type Gap = (u64, u64, ExtentKind);

/// Gaps as the heap takes them.
pub fn extents(alloc: Global, gaps: &[Gap]) -> Result<Extents, AllocError> {
    let mut items = Vec::with_capacity(alloc, gaps.len())?;
    for (place, length, kind) in gaps {
        items.push(Extent {
            place: *place,
            length: *length,
            kind: *kind,
        })?;
    }
    Ok(Extents::new(items))
}

/// Whether each byte of a range is this one.
pub fn holds(space: &mut Bytes, from: u64, to: u64, byte: u8) -> bool {
    for at in from..to {
        if space.bytes_at::<1>(at) != Some([byte]) {
            return false;
        }
    }
    true
}

// Writes a free chunk, and what is behind it in its list.
fn put_free(space: &mut Bytes, at: u64, length: u64, next: DiskPtr) -> bool
    requires { HasOffset next }
{
    if at >= 1 << 20 || length < 32 || length >= 1 << 20 {
        return false;
    }
    let end = at + length - 4;
    let head = FreeHead {
        end_tag: near(end),
        next,
    };
    space.put(at, &encode_free_head(head)) && space.put(end, &tail(Part::Free))
}

// The header and the free table.
fn put_front(space: &mut Bytes, end: u64, lists: &FreeTable) -> bool
    requires end { end < 2 ^ 44 }
    requires lists { HasFreeOffsets lists.now }
{
    let header = FileHeader {
        what: *b"@(#)ADF Database Version A02007>",
        created: [b' '; 28],
        modified: [b' '; 28],
        format: Format::Little,
        size_letter: b'L',
        sizes: [b'0'; 24],
        root: near(266),
        end: near(end),
        free_table: near(186),
        extra: *b"000000001000",
    };
    space.put(0, &encode_header(&header)) && space.put(186, &encode_free(lists))
}

// The root, with a table of twelve entries.
fn put_root(space: &mut Bytes) -> bool {
    let root = node(
        b"ADF MotherNode                  ",
        b"Root Node of ADF File           ",
        9,
        12,
        near(3098),
    );
    space.put(266, &encode_node(&root))
        && space.put(3098, &encode_head(Part::SubNodes, near(3642)))
        && space.put(3642, &tail(Part::SubNodes))
}

// A child of the root, and its entry.
fn put_child(space: &mut Bytes, entry_at: u64, place: u64, name: &[u8; 32]) -> bool {
    if place >= 1 << 20 {
        return false;
    }
    let child = node(name, LABEL, 0, 0, DiskPtr::Blank);
    let entry = NodeEntry {
        name: *name,
        child: near(place),
    };
    space.put(place, &encode_node(&child)) && space.put(entry_at, &encode_entry(&entry))
}

fn put_children(space: &mut Bytes) -> bool {
    let mut entry_at: u64 = 3114;
    for (place, name) in NAMES {
        if !put_child(space, entry_at, place, name) {
            return false;
        }
        entry_at = entry_at.saturating_add(44);
    }
    true
}

// A space, where it was made whole.
fn whole(space: Bytes, made: bool) -> Result<Bytes, Fail> {
    if made {
        Ok(space)
    } else {
        Err("the file is not made")?
    }
}

/// The file of a root with nine children, made one by one: their first table is a free chunk.
pub fn nine_children(alloc: Global) -> Result<Bytes, Fail> {
    let mut space = Bytes::with_room(alloc, 3646)?;
    let lists = FreeTable {
        small_first: near(758),
        small_last: near(758),
        ..NO_LISTS
    };
    let made = put_front(&mut space, 3645, &lists)
        && put_root(&mut space)
        && put_children(&mut space)
        && put_free(&mut space, 758, 372, DiskPtr::Blank);
    whole(space, made)
}

/// A file with this last byte and no free chunk.
pub fn blank(alloc: Global, end: u64) -> Result<Bytes, Fail> {
    if end >= 1 << 20 {
        return Err("too long")?;
    }
    let mut space = Bytes::with_room(alloc, end as usize + 1)?;
    let made = put_front(&mut space, end, &NO_LISTS);
    whole(space, made)
}

/// Three free chunks in the small list, of which the last is long, one in the large list that is short, and a filler.
pub fn chunks(alloc: Global) -> Result<Bytes, Fail> {
    let mut space = Bytes::with_room(alloc, 10_000)?;
    let lists = FreeTable {
        small_first: near(2000),
        small_last: near(3000),
        large_first: near(4000),
        large_last: near(4000),
        ..NO_LISTS
    };
    let made = put_front(&mut space, 9999, &lists)
        && put_free(&mut space, 2000, 100, near(1000))
        && put_free(&mut space, 1000, 200, near(3000))
        && put_free(&mut space, 3000, 600, DiskPtr::Blank)
        && put_free(&mut space, 4000, 64, DiskPtr::Blank)
        && space.put(1200, &[b'z'; 40])
        && space.put(9996, b"TaiL");
    whole(space, made)
}

/// The gaps of these.
pub const CHUNK_GAPS: [Gap; 5] = [
    (1000, 200, ExtentKind::FreeChunk),
    (1200, 40, ExtentKind::Filler),
    (2000, 100, ExtentKind::FreeChunk),
    (3000, 600, ExtentKind::FreeChunk),
    (4000, 64, ExtentKind::FreeChunk),
];
