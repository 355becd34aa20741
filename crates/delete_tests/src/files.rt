//! A file in both versions, part behind part and without gaps: under the root `A`, `B`, `L` and `D`, under `A` `C`, `E` and `M`, and
//! under `E` `F`.
//!
//! `C` has data in one chunk and `F` in two; `L` and `M` are links.
use crate::parts::{Header, put_chunk, put_chunk_table, put_front, put_node, put_table};
use std::alloc::Global;
use std::test::Fail;
use test_spaces::Bytes;
use tree_edits::Row;

/// How many bytes the parts have, in their order: none stands for a header.
const LENGTHS: [u64; 18] = [
    0, 196, // the root and its table of four
    0, 152, // A and its table of three
    0, 29, // C and its chunk
    0, 64, // E and its table of one
    0, 68, 25, 24, // F, its chunk table and its chunks
    0, 29, // M and its chunk
    0, // B
    0, 29, // L and its chunk
    0, // D
];

/// Where the parts stand, and the place behind the last.
pub fn places(wide: bool) -> [u64; 19] {
    let mut at: [u64; 19] = [266; 19];
    let mut next: u64 = 266;
    for part in 0..18 {
        at[part] = next;
        let length = if LENGTHS[part] > 0 {
            LENGTHS[part]
        } else if wide {
            342
        } else {
            246
        };
        next = next.saturating_add(length);
    }
    at[18] = next;
    at
}

// The rows of the nodes by their serials: where the header is among the parts, the parent, and the depth.
const NODES: [(usize, Option<u64>, u8); 9] = [
    (0, None, 0),
    (2, Some(0), 1),
    (14, Some(0), 1),
    (15, Some(0), 1),
    (17, Some(0), 1),
    (4, Some(1), 2),
    (6, Some(1), 2),
    (12, Some(1), 2),
    (8, Some(6), 3),
];

/// The rows of the file.
pub fn rows(alloc: Global, wide: bool) -> Result<Vec<Option<Row>>, Fail> {
    let at = places(wide);
    let mut rows = Vec::new(alloc);
    for (part, parent, depth) in NODES {
        if part >= 19 {
            return Err("no such part")?;
        }
        rows.push(Some(Row {
            place: at[part],
            parent,
            depth,
        }))?;
    }
    Ok(rows)
}

// A node without children and data.
fn leaf(wide: bool, name: u8) -> Header {
    Header {
        wide,
        name,
        children: 0,
        entries: 0,
        table: 0,
        chunks: 0,
        chunk: 0,
        link: false,
    }
}

fn with_table(header: Header, count: u32, table: u64) -> Header {
    Header {
        children: count,
        entries: count,
        table,
        ..header
    }
}

fn with_chunks(header: Header, chunks: u16, chunk: u64, link: bool) -> Header {
    Header {
        chunks,
        chunk,
        link,
        ..header
    }
}

fn put_tables(space: &mut Bytes, wide: bool, at: &[u64; 19]) -> bool {
    put_node(space, at[0], with_table(leaf(wide, b'0'), 4, at[1]))
        && put_table(
            space,
            at[1],
            &[
                (b'A', at[2]),
                (b'B', at[14]),
                (b'L', at[15]),
                (b'D', at[17]),
            ],
        )
        && put_node(space, at[2], with_table(leaf(wide, b'A'), 3, at[3]))
        && put_table(
            space,
            at[3],
            &[(b'C', at[4]), (b'E', at[6]), (b'M', at[12])],
        )
        && put_node(space, at[6], with_table(leaf(wide, b'E'), 1, at[7]))
        && put_table(space, at[7], &[(b'F', at[8])])
}

fn put_data(space: &mut Bytes, wide: bool, at: &[u64; 19]) -> bool {
    put_node(space, at[4], with_chunks(leaf(wide, b'C'), 1, at[5], false))
        && put_chunk(space, at[5], b"nine data")
        && put_node(space, at[8], with_chunks(leaf(wide, b'F'), 2, at[9], false))
        && put_chunk_table(space, at[9], &[(at[10], 25), (at[11], 24)])
        && put_chunk(space, at[10], b"nine ")
        && put_chunk(space, at[11], b"data")
}

fn put_links(space: &mut Bytes, wide: bool, at: &[u64; 19]) -> bool {
    put_node(
        space,
        at[12],
        with_chunks(leaf(wide, b'M'), 1, at[13], true),
    ) && put_chunk(space, at[13], b"b.cgns>/A")
        && put_node(space, at[14], leaf(wide, b'B'))
        && put_node(
            space,
            at[15],
            with_chunks(leaf(wide, b'L'), 1, at[16], true),
        )
        && put_chunk(space, at[16], b"b.cgns>/A")
        && put_node(space, at[17], leaf(wide, b'D'))
}

/// The file, in one of the two versions.
pub fn nine_nodes(alloc: Global, wide: bool) -> Result<Bytes, Fail> {
    let at = places(wide);
    let mut space = Bytes::with_room(alloc, 8192)?;
    let made = put_front(&mut space, wide, at[18].saturating_sub(1))
        && put_tables(&mut space, wide, &at)
        && put_data(&mut space, wide, &at)
        && put_links(&mut space, wide, &at);
    if made {
        Ok(space)
    } else {
        Err("the file is not made")?
    }
}
