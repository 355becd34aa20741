//! Heads, tails and entries by hand.

use adf_chunks::{
    ChunkEntry, FreeHead, NodeEntry, Part, begins, decode_chunk_entry, decode_entry,
    decode_free_head, decode_head, encode_chunk_entry, encode_entry, encode_free_head, encode_head,
    is_tail, read_again, tail, written_again,
};
use disk_ptr::DiskPtr;

const PARTS: [(Part, [u8; 4], [u8; 4]); 4] = [
    (Part::SubNodes, *b"SNTb", *b"snTE"),
    (Part::Data, *b"DaTa", *b"dEnD"),
    (Part::Chunks, *b"DCtb", *b"dcTE"),
    (Part::Free, *b"FreE", *b"EndC"),
];

const LAST: DiskPtr = DiskPtr::At {
    block: 0xABCDEF01,
    offset: 4095,
};

fn near(offset: u16) -> DiskPtr {
    DiskPtr::At { block: 0, offset }
}

fn head_of(tag: [u8; 4], pointer: &[u8; 12]) -> [u8; 16] {
    let mut bytes = [0u8; 16];
    bytes[..4].copy_from_slice(&tag);
    bytes[4..].copy_from_slice(pointer);
    bytes
}

// ---- tags and heads. Each helper asks one thing and has no clause.

fn head_is(part: Part, bytes: &[u8; 16], wanted: Option<DiskPtr>) -> bool {
    decode_head(part, bytes) == wanted
}

// Whether a head is this pointer, and the pointer is written so.
fn is_head(part: Part, bytes: &[u8; 16], wanted: DiskPtr, written: &[u8; 16]) -> bool {
    match decode_head(part, bytes) {
        Some(end_tag) => end_tag == wanted && encode_head(part, end_tag) == *written,
        None => false,
    }
}

fn begins_with(part: Part, tag: [u8; 4]) -> bool {
    begins(part, &tag)
}

fn has_tail(part: Part, tag: [u8; 4]) -> bool {
    is_tail(part, &tag) && tail(part) == tag
}

fn is_no_tail(part: Part, tag: [u8; 4]) -> bool {
    !is_tail(part, &tag)
}

#[test]
fn each_part_has_its_own_tags(rt: HostRuntime) {
    for (part, start, end) in PARTS {
        let upper = head_of(start, b"ABCDEF010FFF");
        assert!(rt; is_head(part, &upper, LAST, &upper), "of {start:?}");
        assert!(rt;
            is_head(part, &head_of(start, b"abCDef010ffF"), LAST, &upper),
            "of {start:?}"
        );
        assert!(rt;
            begins_with(part, start) && !begins_with(part, end),
            "of {start:?}"
        );
        assert!(rt;
            has_tail(part, end) && is_no_tail(part, start),
            "of {start:?}"
        );
    }
    assert!(rt; is_no_tail(Part::SubNodes, *b"dcTE"));
}

#[test]
fn a_head_is_refused_for_its_tag_or_its_pointer(rt: HostRuntime) {
    for (part, start, end) in PARTS {
        let rows: [([u8; 4], &[u8; 12], Option<DiskPtr>); 3] = [
            (start, b"000000001000", Some(DiskPtr::Blank)),
            (start, b"000000001001", None),
            (end, b"ABCDEF010FFF", None),
        ];
        for (tag, pointer, wanted) in rows {
            assert!(rt; head_is(part, &head_of(tag, pointer), wanted), "of {tag:?}");
        }
    }
    let rows: [(&[u8; 16], Option<DiskPtr>); 5] = [
        (b"DaTA000000000FFF", None),
        (b"DaTa000000000FFF", Some(near(4095))),
        (b"DaTa000000001000", Some(DiskPtr::Blank)),
        (b"DaTa000000001001", None),
        (b"DaTa000000011000", None),
    ];
    for (bytes, wanted) in rows {
        assert!(rt; head_is(Part::Data, bytes, wanted), "of {bytes:?}");
    }
}

// The tag with a byte in one place that no tag has there.
fn with_byte_wrong(tag: [u8; 4], wrong: usize) -> [u8; 4] {
    let mut bytes = tag;
    if let Some(byte) = bytes.get_mut(wrong) {
        *byte = b'_';
    }
    bytes
}

#[test]
fn each_byte_of_a_tag_is_compared(rt: HostRuntime) {
    for (part, start, end) in PARTS {
        for i in 0..4 {
            let head = head_of(with_byte_wrong(start, i), b"ABCDEF010FFF");
            assert!(rt; head_is(part, &head, None), "byte {i} of {start:?}");
            assert!(rt;
                is_no_tail(part, with_byte_wrong(end, i)),
                "byte {i} of {end:?}"
            );
        }
    }
}

// ---- heads of free chunks

fn is_no_free_head(bytes: &[u8; 28]) -> bool {
    decode_free_head(bytes).is_none()
}

fn is_free_head(bytes: &[u8; 28], wanted: FreeHead, written: &[u8; 28]) -> bool {
    match decode_free_head(bytes) {
        Some(head) => head == wanted && encode_free_head(head) == *written,
        None => false,
    }
}

fn free_head(end_tag: DiskPtr, next: DiskPtr) -> FreeHead {
    FreeHead { end_tag, next }
}

// The first row is the free chunk of 372 bytes at place 758, the only one of its list.
#[test]
fn a_free_head_names_its_end_and_the_next(rt: HostRuntime) {
    let next_block = DiskPtr::At {
        block: 1,
        offset: 0,
    };
    let rows: [(&[u8; 28], FreeHead, &[u8; 28]); 3] = [
        (
            b"FreE000000000466000000001000",
            free_head(near(1126), DiskPtr::Blank),
            b"FreE000000000466000000001000",
        ),
        (
            b"FreEabcdef010fff000000010000",
            free_head(LAST, next_block),
            b"FreEABCDEF010FFF000000010000",
        ),
        (
            b"FreE000000001000000000000fFf",
            free_head(DiskPtr::Blank, near(4095)),
            b"FreE000000001000000000000FFF",
        ),
    ];
    for (bytes, wanted, written) in rows {
        assert!(rt; is_free_head(bytes, wanted, written), "of {bytes:?}");
    }
}

#[test]
fn a_free_head_is_refused_for_its_tag_or_a_pointer(rt: HostRuntime) {
    let rows: [&[u8; 28]; 7] = [
        b"_reE000000000466000000001000",
        b"Fre_000000000466000000001000",
        b"FREE000000000466000000001000",
        b"FreE000000001466000000001000",
        b"FreE000000000466000000001001",
        b"FreE000000001001000000000FFF",
        b"FreE000000000FFF000000011000",
    ];
    for bytes in rows {
        assert!(rt; is_no_free_head(bytes), "of {bytes:?}");
    }
}

// ---- entries

fn is_no_entry(bytes: &[u8; 44]) -> bool {
    decode_entry(bytes).is_none()
}

fn is_entry(bytes: &[u8; 44], name: &[u8; 32], child: DiskPtr, written: &[u8; 44]) -> bool {
    let wanted = NodeEntry { name: *name, child };
    match decode_entry(bytes) {
        Some(entry) => entry == wanted && encode_entry(&entry) == *written,
        None => false,
    }
}

#[test]
fn a_child_is_pointed_to_or_not(rt: HostRuntime) {
    assert!(rt;
        is_entry(
            b"Base                            000000001000",
            b"Base                            ",
            DiskPtr::Blank,
            b"Base                            000000001000"
        )
    );
    assert!(rt;
        is_entry(
            b"Base                            aBcDeF010fFf",
            b"Base                            ",
            LAST,
            b"Base                            ABCDEF010FFF"
        )
    );
    assert!(rt; is_no_entry(b"Base                            000000001001"));
    assert!(rt; is_no_entry(b"Base                            000000011000"));
    assert!(rt; is_no_entry(b"Base                            00000000020 "));
}

#[test]
fn an_entry_keeps_all_bytes_of_its_name(rt: HostRuntime) {
    assert!(rt;
        is_entry(
            b"Base/                        ~ 0000000000200",
            b"Base/                        ~ 0",
            near(0x200),
            b"Base/                        ~ 0000000000200"
        )
    );
}

fn is_no_chunk_entry(bytes: &[u8; 24]) -> bool {
    decode_chunk_entry(bytes).is_none()
}

fn is_chunk_entry(bytes: &[u8; 24], wanted: ChunkEntry, written: &[u8; 24]) -> bool {
    match decode_chunk_entry(bytes) {
        Some(entry) => entry == wanted && encode_chunk_entry(entry) == *written,
        None => false,
    }
}

fn chunk_entry(start: DiskPtr, end_tag: DiskPtr) -> ChunkEntry {
    ChunkEntry { start, end_tag }
}

#[test]
fn an_entry_of_a_chunk_table_has_two_pointers(rt: HostRuntime) {
    let start = DiskPtr::At {
        block: 0x0000000A,
        offset: 0x46A,
    };
    let rows: [(&[u8; 24], ChunkEntry, &[u8; 24]); 3] = [
        (
            b"0000000a046aabcdef010fff",
            chunk_entry(start, LAST),
            b"0000000A046AABCDEF010FFF",
        ),
        (
            b"000000001000000000000FFF",
            chunk_entry(DiskPtr::Blank, near(4095)),
            b"000000001000000000000FFF",
        ),
        (
            b"000000000fff000000001000",
            chunk_entry(near(4095), DiskPtr::Blank),
            b"000000000FFF000000001000",
        ),
    ];
    for (bytes, wanted, written) in rows {
        assert!(rt; is_chunk_entry(bytes, wanted, written), "of {bytes:?}");
    }
}

#[test]
fn an_entry_of_a_chunk_table_is_refused_for_a_pointer(rt: HostRuntime) {
    let rows: [&[u8; 24]; 4] = [
        b"000000001001000000000FFF",
        b"000000000FFF000000011000",
        b"0000000a146aabcdef010fff",
        b"0000000a046aabcdef011fff",
    ];
    for bytes in rows {
        assert!(rt; is_no_chunk_entry(bytes), "of {bytes:?}");
    }
}

#[test]
fn laws_are_calls() {
    read_again();
    written_again();
}
