//! Pointers and numbers against spellings written by hand.

use adf_format::fields::{Field, FieldKind};
use disk_ptr::fields::{
    bytes_of, copied, holds, holds_tag, is_blank, is_number, is_place, number, pointer_at,
    pointer_or_blank, points_to, put, put_number, put_pointer, put_tag,
};
use disk_ptr::{
    DiskPtr, decode, encode, from_place, one_spelling, place, read_hex, read_long_hex, write_hex,
    write_long_hex,
};

// A record of a tag, a name, two numbers and three pointers.
const RECORD: &[u8; 52] = b"TagSname00fFxyz1000000001000000000000fFf000000001001";

const TAG: Field = Field {
    offset: 0,
    length: 4,
    kind: FieldKind::Tag(*b"TagS"),
};

const NAME: Field = Field {
    offset: 4,
    length: 4,
    kind: FieldKind::Text,
};

const SIZE: Field = Field {
    offset: 8,
    length: 4,
    kind: FieldKind::Number,
};

const WORD: Field = Field {
    offset: 12,
    length: 4,
    kind: FieldKind::Number,
};

const BLANK: Field = Field {
    offset: 16,
    length: 12,
    kind: FieldKind::Pointer,
};

const PLACE: Field = Field {
    offset: 28,
    length: 12,
    kind: FieldKind::Pointer,
};

const NONE: Field = Field {
    offset: 40,
    length: 12,
    kind: FieldKind::Pointer,
};

// ---- reading fields. Each helper asks one thing and has no clause; it answers false, or what no row wants, where
// the call may not be made.

fn holds_tag_at(offset: usize, text: [u8; 4]) -> bool {
    if offset > 48 {
        return false;
    }
    let tag = Field {
        offset,
        length: 4,
        kind: FieldKind::Tag(text),
    };
    holds_tag(RECORD, tag)
}

fn holds_text(offset: usize, text: &[u8]) -> bool {
    if text.len() > 52 || offset > 52 - text.len() {
        return false;
    }
    holds(RECORD, offset, text)
}

// Whether a field of four bytes is this text, and a copy of it too.
fn is_text(at: Field, text: &[u8; 4]) -> bool {
    if at.length > 52 || at.offset > 48 || at.offset > 52 - at.length {
        return false;
    }
    bytes_of(RECORD, at) == text.as_slice() && copied::<4>(RECORD, at) == *text
}

fn number_of(at: Field) -> (bool, u64) {
    if at.length < 1 || at.length > 16 || at.offset > 52 - at.length {
        return (false, u64::MAX);
    }
    (is_number(RECORD, at), number(RECORD, at))
}

#[test]
fn fields_are_read_where_they_stand(rt: HostRuntime) {
    assert!(rt; holds_tag_at(0, *b"TagS"));
    assert!(rt; !holds_tag_at(0, *b"tagS"));
    assert!(rt; !holds_tag_at(0, *b"Tags"));
    assert!(rt; !holds_tag_at(1, *b"TagS"));
    assert!(rt; holds_text(4, b"name"));
    assert!(rt; !holds_text(4, b"names"));
    assert!(rt; is_text(NAME, b"name"));
    assert!(rt; number_of(SIZE) == (true, 255));
    assert!(rt; number_of(WORD) == (false, 0));
}

fn is_pointer(at: Field, wanted: Option<DiskPtr>, or_blank: DiskPtr) -> bool {
    if at.offset > 40 {
        return false;
    }
    pointer_at(RECORD, at) == wanted && pointer_or_blank(RECORD, at) == or_blank
}

// Whether the field is the blank pointer, and whether it is a place.
fn blank_or_place(at: Field) -> (bool, bool) {
    if at.offset > 40 {
        return (true, true);
    }
    (is_blank(RECORD, at), is_place(RECORD, at))
}

fn points(at: Field, place: u64) -> Option<bool> {
    if at.offset > 40 {
        return None;
    }
    Some(points_to(RECORD, at, place))
}

#[test]
fn a_pointer_field_is_blank_a_place_or_none(rt: HostRuntime) {
    let place = DiskPtr::At {
        block: 0,
        offset: 4095,
    };
    let rows = [
        (BLANK, Some(DiskPtr::Blank), DiskPtr::Blank, (true, false)),
        (PLACE, Some(place), place, (false, true)),
        (NONE, None, DiskPtr::Blank, (false, false)),
    ];
    for (field, wanted, or_blank, kind) in rows {
        assert!(rt; is_pointer(field, wanted, or_blank), "at {}", field.offset);
        assert!(rt; blank_or_place(field) == kind, "at {}", field.offset);
    }
    for (field, place, wanted) in [
        (BLANK, 4096, false),
        (PLACE, 4095, true),
        (PLACE, 4094, false),
        (NONE, 4097, false),
    ] {
        assert!(rt;
            points(field, place) == Some(wanted),
            "at {}, {place}",
            field.offset
        );
    }
}

// ---- writing fields

// What is put behind what is written.
#[derive(Clone, Copy)]
enum Piece {
    Tag(Field),
    Text(&'static [u8; 4]),
    // A number in four digits.
    Number(u16),
    // The pointer to a place of block 0xFE.
    Pointer(u16),
}

// Puts a piece, and answers where it ends: nowhere where it may have no room.
fn put_piece(into: &mut [u8; 36], at: usize, piece: Piece) -> usize {
    if at > 24 {
        return 0;
    }
    match piece {
        Piece::Tag(tag) => put_tag(into, at, tag),
        Piece::Text(text) => put(into, at, text),
        Piece::Number(value) => put_number(into, at, u64::from(value), 4),
        Piece::Pointer(offset) => put_pointer(
            into,
            at,
            DiskPtr::At {
                block: 0xFE,
                offset: offset % 4096,
            },
        ),
    }
}

#[test]
fn fields_are_written_one_behind_the_other(rt: HostRuntime) {
    let rows: [(Piece, usize, &[u8; 36]); 5] = [
        (Piece::Tag(TAG), 4, b"TagS................................"),
        (
            Piece::Text(b"name"),
            8,
            b"TagSname............................",
        ),
        (
            Piece::Number(0xABC),
            12,
            b"TagSname0ABC........................",
        ),
        (
            Piece::Pointer(0xA0),
            24,
            b"TagSname0ABC000000FE00A0............",
        ),
        // Another field has no tag to write.
        (
            Piece::Tag(NAME),
            24,
            b"TagSname0ABC000000FE00A0............",
        ),
    ];
    let mut text = [b'.'; 36];
    let mut at = 0;
    for (piece, end, wanted) in rows {
        at = put_piece(&mut text, at, piece);
        assert!(rt; at == end && text == *wanted, "up to {end}");
    }
}

// ---- pointers and numbers

fn decodes_to(text: &[u8; 12], wanted: Option<DiskPtr>) -> bool {
    decode(text) == wanted
}

fn encodes_to(p: DiskPtr, wanted: &[u8; 12]) -> bool {
    match p {
        DiskPtr::Blank => encode(p) == *wanted,
        DiskPtr::At { offset, .. } => offset <= 4095 && encode(p) == *wanted,
    }
}

#[test]
fn a_pointer_is_a_block_and_an_offset_of_at_most_4095(rt: HostRuntime) {
    let last = DiskPtr::At {
        block: 0xABCDEF01,
        offset: 4095,
    };
    let rows: [(&[u8; 12], Option<DiskPtr>); 7] = [
        (b"ABCDEF010FFF", Some(last)),
        (b"abcdEF010fff", Some(last)),
        (b"000000001000", Some(DiskPtr::Blank)),
        (b"000000011000", None),
        (b"000000001001", None),
        (b"00000000 000", None),
        (b"0000000g0000", None),
    ];
    for (text, wanted) in rows {
        assert!(rt; decodes_to(text, wanted), "of {text:?}");
    }
    assert!(rt; encodes_to(last, b"ABCDEF010FFF"));
    assert!(rt; encodes_to(DiskPtr::Blank, b"000000001000"));
}

// The pointer to a place within reach; blank for others.
fn pointer_to(byte: u64) -> DiskPtr {
    if byte < 1 << 44 {
        from_place(byte)
    } else {
        DiskPtr::Blank
    }
}

fn place_is(p: DiskPtr, wanted: Option<u64>) -> bool {
    place(p) == wanted
}

#[test]
fn a_place_is_its_block_times_4096_and_its_offset(rt: HostRuntime) {
    let rows = [(511, 0, 511), (4096 * 3 + 7, 3, 7)];
    for (byte, block, offset) in rows {
        assert!(rt;
            pointer_to(byte) == DiskPtr::At { block, offset },
            "of {byte}"
        );
    }
    let last = (1 << 44) - 1;
    assert!(rt; place_is(pointer_to(last), Some(last)));
    assert!(rt; place_is(DiskPtr::Blank, None));
}

fn hex(text: &[u8]) -> Option<u32> {
    if text.is_empty() || text.len() > 8 {
        return None;
    }
    read_hex(text)
}

fn long_hex(text: &[u8]) -> Option<u64> {
    if text.is_empty() || text.len() > 16 {
        return None;
    }
    read_long_hex(text)
}

fn four_digits(value: u16) -> [u8; 4] {
    let mut text = [0u8; 4];
    write_hex(u32::from(value), &mut text);
    text
}

fn sixteen_digits(value: u64) -> [u8; 16] {
    let mut text = [0u8; 16];
    write_long_hex(value, &mut text);
    text
}

#[test]
fn numbers_are_read_in_either_case_and_written_in_upper_case(rt: HostRuntime) {
    assert!(rt; hex(b"fF") == Some(255));
    assert!(rt; hex(b"FFFFFFFF") == Some(u32::MAX));
    assert!(rt; hex(b"12x4") == None);
    assert!(rt; long_hex(b"FFFFFFFFFFFFFFFF") == Some(u64::MAX));
    assert!(rt; four_digits(0xAB) == *b"00AB");
    assert!(rt; sixteen_digits(u64::MAX - 1) == *b"FFFFFFFFFFFFFFFE");
}

#[test]
fn laws_are_calls() {
    one_spelling();
}
