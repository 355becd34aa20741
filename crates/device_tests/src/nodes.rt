//! Headers of nodes, entries of their tables and heads of chunks, read from pages over files written out as texts.
ghost use Rattle.std.specs.Prelude.{◌≤◌, ◌+◌, ◌*◌, ◌^◌};
ghost use Rattle.adf_format.specs.RecordFields.{node_length};

use crate::plain::Plain;
use adf_format::DataType;
use adf_model::{AdfError, Text};
use cg_io::{MemoryDevice, Pages, ReadBytes};
use disk_ptr::from_place;
use node_reads::{
    ChildTable, ChunkTable, Wanted, child_at, child_in, child_table, chunk_at, chunk_in,
    find_entry, read_children, read_chunk_head, read_chunks, read_header, read_named_header,
};
use std::alloc::Global;
use std::test::Fail;

// ---- files

const NAME: &[u8; 32] = b"Base                            ";

/// A node of type I4 with two children and one chunk, from place 300 on, in a narrow file.
const NARROW: &[(usize, &[u8])] = &[
    (300, b"NoDe"),
    (304, NAME),
    (336, b"CGNSBase_t                      "),
    (368, b"00000002"),
    (376, b"00000003"),
    (384, b"000000000800"),
    (396, b"I4                              "),
    (428, b"01"),
    (430, b"0000000c"),
    (438, &[b'0'; 88]),
    (526, b"0001"),
    (530, b"00000002000a"),
    (542, b"TaiL"),
];

/// The same in a wide file.
const WIDE: &[(usize, &[u8])] = &[
    (300, b"NoDe"),
    (304, NAME),
    (336, b"CGNSBase_t                      "),
    (368, b"00000002"),
    (376, b"00000003"),
    (384, b"000000000800"),
    (396, b"I4                              "),
    (428, b"01"),
    (430, b"000000000000000c"),
    (446, &[b'0'; 176]),
    (622, b"0001"),
    (626, b"00000002000a"),
    (638, b"TaiL"),
];

// Writes a text, where it fits.
fn put(bytes: &mut Vec<u8>, at: usize, text: &[u8]) {
    if at <= bytes.len() && text.len() <= bytes.len() - at {
        bytes[at..at + text.len()].copy_from_slice(text);
    }
}

// A device of these bytes.
fn device_of(alloc: Global, bytes: Vec<u8>) -> Result<MemoryDevice, AdfError> {
    if bytes.len() > 20000 {
        return Err(AdfError::Memory);
    }
    Ok(MemoryDevice::new(alloc, Text::new(bytes)))
}

// A device of 20,000 blank bytes with these texts, and then one more.
fn device_with(
    alloc: Global,
    texts: &[(usize, &[u8])],
    change: (usize, &[u8]),
) -> Result<MemoryDevice, AdfError> {
    let mut bytes = vec![in alloc; b'z'; 20000].map_err(|_| AdfError::Memory)?;
    for (at, text) in texts {
        put(&mut bytes, *at, text);
    }
    put(&mut bytes, change.0, change.1);
    device_of(alloc, bytes)
}

// ---- headers

// The rule and the place that a header breaks; none where it is that of the node, and its table is.
fn header_fault(
    alloc: Global,
    wide: bool,
    entry: Option<[u8; 32]>,
    change: (usize, &[u8]),
) -> Result<Option<(u8, u64)>, AdfError> {
    let texts = if wide { WIDE } else { NARROW };
    let device = device_with(alloc, texts, change)?;
    let mut pages = Pages::new(Plain { device });
    let header = match read_named_header(&mut pages, wide, 300, &entry) {
        Ok(header) => header,
        Err(AdfError::Layout { rule, place }) => return Ok(Some((rule, place))),
        Err(error) => return Err(error),
    };
    match child_table(&header, 300) {
        Ok(table) if table.place == 2048 && table.entries == 3 && table.count == 2 => {}
        Ok(_) => return Ok(Some((0, 0))),
        Err(AdfError::Layout { rule, place }) => return Ok(Some((rule, place))),
        Err(error) => return Err(error),
    }
    if header.wide != wide || header.rank != 1 || header.chunks != 1 {
        return Ok(Some((0, 1)));
    }
    if header.kind != DataType::I4 || header.chunk != from_place(8202) || header.name != *NAME {
        return Ok(Some((0, 2)));
    }
    Ok(None)
}

/// What stands where in a header, and the rule that it breaks, with the place.
const FAULTS: &[(bool, usize, &[u8], u8, u64)] = &[
    (false, 300, b"NoDE", 15, 300),
    (false, 542, b"tail", 15, 542),
    (true, 638, b"tail", 15, 638),
    (false, 304, b"a/b", 16, 304),
    (true, 336, b" ", 17, 336),
    (false, 368, b"0000000g", 18, 368),
    (false, 384, b"000000001000", 19, 384),
    (false, 530, b"000000001000", 19, 530),
    (true, 396, b"I5", 20, 396),
    (false, 428, b"0D", 21, 428),
    (true, 430, b"0000000000000000", 21, 430),
    (false, 368, b"00000004", 22, 368),
    (true, 384, b"ffffffff0fff", 23, 17592186044415),
];

#[test]
fn a_header_is_read_in_both_versions(rt: HostRuntime) -> Result<(), Fail> {
    for wide in [false, true] {
        assert!(rt; header_fault(rt.alloc(), wide, None, (0, b"z"))?.is_none());
        assert!(rt; header_fault(rt.alloc(), wide, Some(*NAME), (0, b"z"))?.is_none());
        assert!(rt; header_fault(rt.alloc(), wide, None, (446, b"free"))?.is_none());
        let other = *b"Zone                            ";
        assert!(rt; header_fault(rt.alloc(), wide, Some(other), (0, b"z"))? == Some((16, 304)));
    }
    Ok(())
}

#[test]
fn a_header_is_refused_by_the_rule_that_it_breaks(rt: HostRuntime) -> Result<(), Fail> {
    for (wide, at, text, rule, place) in FAULTS {
        let fault = header_fault(rt.alloc(), *wide, None, (*at, text))?;
        assert!(rt; fault == Some((*rule, *place)), "rule {rule} at {place}");
    }
    Ok(())
}

// Whether a header is refused since a read fails.
fn fails_to_read(device: MemoryDevice) -> bool {
    let mut pages = Pages::new(Plain { device });
    match read_header(&mut pages, false, 300) {
        Ok(_) => false,
        Err(error) => error == AdfError::ReadFault,
    }
}

#[test]
fn a_failed_read_is_answered(rt: HostRuntime) -> Result<(), Fail> {
    let mut device = device_with(rt.alloc(), NARROW, (0, b"z"))?;
    device.fail_read(1)?;
    assert!(rt; fails_to_read(device));
    Ok(())
}

// ---- entries of children

const DIGITS: &[u8; 16] = b"0123456789ABCDEF";

// The name field of the i-th child of many.
fn name_of(i: usize) -> [u8; 32] {
    let mut name = *b"N000                            ";
    name[1] = DIGITS[i / 256 % 16];
    name[2] = DIGITS[i / 16 % 16];
    name[3] = DIGITS[i % 16];
    name
}

/// A table of 250 entries at place 2048, of which 200 are in use; the i-th child stands at 4096 times i, and the 150th entry
/// is that of the third again.
const TABLE: ChildTable = ChildTable {
    place: 2048,
    entries: 250,
    count: 200,
};

fn many_children(alloc: Global) -> Result<MemoryDevice, AdfError> {
    let mut bytes = vec![in alloc; b'z'; 20000].map_err(|_| AdfError::Memory)?;
    for i in 0..250 {
        let named = if i == 150 { 3 } else { i };
        let name = name_of(named);
        put(&mut bytes, 2064 + 44 * i, &name);
        put(&mut bytes, 2096 + 44 * i, b"00000");
        put(&mut bytes, 2101 + 44 * i, &name[1..4]);
        put(&mut bytes, 2104 + 44 * i, b"0000");
    }
    put(&mut bytes, 2064 + 44 * 7, b"a/b");
    put(&mut bytes, 2096 + 44 * 8, b"000000001000");
    device_of(alloc, bytes)
}

/// What is wanted, and where it is found.
const SEARCHES: &[(Wanted, Option<u32>)] = &[
    (Wanted::Name(*b"N000                            "), Some(0)),
    (Wanted::Name(*b"N003                            "), Some(3)),
    (Wanted::Name(*b"N05C                            "), Some(92)),
    (Wanted::Name(*b"N05D                            "), Some(93)),
    (
        Wanted::Name(*b"N0C7                            "),
        Some(199),
    ),
    (Wanted::Name(*b"N0C8                            "), None),
    (Wanted::Name(*b"N096                            "), None),
    (Wanted::Place(4096 * 92), Some(92)),
    (Wanted::Place(4096 * 199), Some(199)),
    (Wanted::Place(4096 * 200), None),
    (Wanted::Place(4097), None),
];

// Whether the first entry that is wanted is found there.
fn finds<R: ReadBytes>(bytes: &mut R, wanted: &Wanted, position: Option<u32>) -> bool
    requires sound { R.is_sound bytes.old }
    ensures { R.is_sound bytes.new }
{
    find_entry(bytes, TABLE, wanted) == Ok(position)
}

// How many of the searches find what they should, up to the first that does not.
fn run_searches<R: ReadBytes>(bytes: &mut R, searches: &[(Wanted, Option<u32>)]) -> usize
    requires sound { R.is_sound bytes.old }
{
    for (done, search) in searches.iter().enumerate() {
        if !finds(bytes, &search.0, search.1) {
            return done;
        }
    }
    searches.len()
}

#[test]
fn the_first_entry_that_is_wanted_is_found(rt: HostRuntime) -> Result<(), Fail> {
    let mut pages = Pages::new(Plain {
        device: many_children(rt.alloc())?,
    });
    let done = run_searches(&mut pages, SEARCHES);
    assert!(rt; done == SEARCHES.len(), "search {done}");
    Ok(())
}

// Whether the child at a position stands there; none where the entry is refused.
fn has_child<R: ReadBytes>(bytes: &mut R, position: u32, place: Option<u64>) -> bool
    requires sound { R.is_sound bytes.old }
    ensures { R.is_sound bytes.new }
{
    if position >= 200 {
        return false;
    }
    match child_at(bytes, TABLE, position) {
        Ok(child) => place == Some(child.place) && child.name == name_of(position as usize),
        Err(error) => {
            let at = 2064 + 44 * u64::from(position);
            place.is_none()
                && error
                    == AdfError::Layout {
                        rule: 24,
                        place: at,
                    }
        }
    }
}

// How many entries a piece from a position on has, and where the first child stands.
fn piece_at<R: ReadBytes>(bytes: &mut R, from: u32) -> Option<(usize, Option<u64>)>
    requires sound { R.is_sound bytes.old }
    ensures { R.is_sound bytes.new }
{
    let mut piece = [0u8; 4092];
    if from > 200 {
        return None;
    }
    match read_children(bytes, TABLE, from, &mut piece) {
        Ok(n) => Some((n, child_in(&piece, 0).map(|child| child.place))),
        Err(_) => None,
    }
}

#[test]
fn entries_are_read_one_by_one_and_in_pieces(rt: HostRuntime) -> Result<(), Fail> {
    let mut pages = Pages::new(Plain {
        device: many_children(rt.alloc())?,
    });
    assert!(rt; has_child(&mut pages, 0, Some(0)));
    assert!(rt; has_child(&mut pages, 199, Some(199 * 4096)));
    assert!(rt; has_child(&mut pages, 7, None));
    assert!(rt; has_child(&mut pages, 8, None));
    assert!(rt; piece_at(&mut pages, 0) == Some((93, Some(0))));
    assert!(rt; piece_at(&mut pages, 8) == Some((93, None)));
    assert!(rt; piece_at(&mut pages, 190) == Some((10, Some(190 * 4096))));
    Ok(())
}

// ---- chunks

const CHUNKS: &[(usize, &[u8])] = &[
    (1016, b"000000000100000000000110"),
    (1040, b"0000000002000000000003FF"),
    (1064, b"000000001000000000000400"),
    (256, b"DaTa000000000111"),
    (512, b"DaTa000000000210"),
    (600, b"DatA000000000300"),
];

const CHUNK_TABLE: ChunkTable = ChunkTable {
    place: 1000,
    count: 3,
};

// The places of a chunk and of its end tag, or the rule and the place.
fn chunk_of<R: ReadBytes>(bytes: &mut R, position: Option<u16>, at: u64) -> Option<(u64, u64)>
    requires sound { R.is_sound bytes.old }
    ensures { R.is_sound bytes.new }
{
    let chunk = match position {
        Some(position) => chunk_at(bytes, CHUNK_TABLE, position),
        None if at < 20000 => read_chunk_head(bytes, at),
        None => return None,
    };
    match chunk {
        Ok(chunk) => Some((chunk.place, chunk.tail)),
        Err(AdfError::Layout { rule, place }) => Some((u64::from(rule), place)),
        Err(_) => None,
    }
}

// Where the last of the chunks in a piece ends.
fn last_tail<R: ReadBytes>(bytes: &mut R, from: u16) -> Option<u64>
    requires sound { R.is_sound bytes.old }
    ensures { R.is_sound bytes.new }
{
    let mut piece = [0u8; 48];
    if from > 3 {
        return None;
    }
    match read_chunks(bytes, CHUNK_TABLE, from, &mut piece) {
        Ok(2) => chunk_in(&piece, 1).map(|chunk| chunk.tail),
        _ => None,
    }
}

/// The position of an entry, or none and the place of a chunk, and what is answered.
const CHUNK_READS: &[(Option<u16>, u64, u64, u64)] = &[
    (Some(0), 0, 256, 272),
    (Some(1), 0, 512, 1023),
    (Some(2), 0, 25, 1064),
    (None, 256, 256, 273),
    (None, 512, 26, 516),
    (None, 600, 26, 600),
];

// How many of the chunks are read as they should be, up to the first that is not.
fn run_chunks<R: ReadBytes>(bytes: &mut R, reads: &[(Option<u16>, u64, u64, u64)]) -> usize
    requires sound { R.is_sound bytes.old }
{
    for (done, read) in reads.iter().enumerate() {
        if chunk_of(bytes, read.0, read.1) != Some((read.2, read.3)) {
            return done;
        }
    }
    reads.len()
}

#[test]
fn chunks_are_read_by_their_entries_and_their_heads(rt: HostRuntime) -> Result<(), Fail> {
    let mut pages = Pages::new(Plain {
        device: device_with(rt.alloc(), CHUNKS, (0, b"z"))?,
    });
    let done = run_chunks(&mut pages, CHUNK_READS);
    assert!(rt; done == CHUNK_READS.len(), "read {done}");
    Ok(())
}

#[test]
fn entries_of_chunks_are_read_in_pieces(rt: HostRuntime) -> Result<(), Fail> {
    let mut pages = Pages::new(Plain {
        device: device_with(rt.alloc(), CHUNKS, (0, b"z"))?,
    });
    assert!(rt; last_tail(&mut pages, 0) == Some(1023));
    assert!(rt; last_tail(&mut pages, 1).is_none());
    Ok(())
}
