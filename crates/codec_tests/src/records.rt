//! Records by hand: the fresh file, each rule, each type, and either case of letters.

use adf_format::{DataType, Format};
use adf_records::{
    BadField, FileHeader, FreeTable, NodeHeader, decode_free, decode_header, decode_named,
    decode_node, decode_wide, dimensions_of, encode_free, encode_header, encode_node, encode_wide,
    faults_are_placed, is_name_field, read_again, written_again,
};
use disk_ptr::DiskPtr;
use std::process::Abort;

const HEADER: &[u8; 186] =
    b"@(#)ADF Database Version A02007>AdF0                            AdF1                            AdF2LLAdF3000000000000000000000000AdF400000000010A0000000001FF0000000000BA000000001000AdF5";

const FREE: &[u8; 80] =
    b"fCbt000000001000000000001000000000001000000000001000000000001000000000001000Fcte";

const ROOT: &[u8; 246] =
    b"NoDeADF MotherNode                  Root Node of ADF File           0000000000000000000000001000MT                              000000000000000000000000000000000000000000000000000000000000000000000000000000000000000000000000000000000000001000TaiL";

// Twelve dimensions of 1.
const FULL: &[u8; 246] =
    b"NoDeZone 1                          Zone_t                          0000000000000000000000001000I4                              0C0000000100000001000000010000000100000001000000010000000100000001000000010000000100000001000000010000000000001000TaiL";

const WIDE: &[u8; 342] =
    b"NoDeZone 1                          Zone_t                          0000000000000000000000001000I4                              0C0000000000000001000000000000000100000000000000010000000000000001000000000000000100000000000000010000000000000001000000000000000100000000000000010000000000000001000000000000000100000000000000010000000000001000TaiL";

const WIDE_ROOT: &[u8; 342] =
    b"NoDeADF MotherNode                  Root Node of ADF File           0000000000000000000000001000MT                              000000000000000000000000000000000000000000000000000000000000000000000000000000000000000000000000000000000000000000000000000000000000000000000000000000000000000000000000000000000000000000000000000000000000001000TaiL";

const FRESH_HEADER: FileHeader = FileHeader {
    what: *b"@(#)ADF Database Version A02007>",
    created: [b' '; 28],
    modified: [b' '; 28],
    format: Format::Little,
    size_letter: b'L',
    sizes: [b'0'; 24],
    root: DiskPtr::At {
        block: 0,
        offset: 266,
    },
    end: DiskPtr::At {
        block: 0,
        offset: 511,
    },
    free_table: DiskPtr::At {
        block: 0,
        offset: 186,
    },
    extra: *b"000000001000",
};

const NONE_FREE: FreeTable = FreeTable {
    small_first: DiskPtr::Blank,
    small_last: DiskPtr::Blank,
    medium_first: DiskPtr::Blank,
    medium_last: DiskPtr::Blank,
    large_first: DiskPtr::Blank,
    large_last: DiskPtr::Blank,
};

fn near(offset: u16) -> DiskPtr {
    DiskPtr::At { block: 0, offset }
}

// The bytes with a text put in at an offset.
fn with<const N: usize>(rt: &impl Abort, bytes: &[u8; N], offset: usize, text: &[u8]) -> [u8; N] {
    assert!(rt; offset <= N && text.len() <= N - offset);
    let mut changed = *bytes;
    let into = &mut changed[..];
    into[offset..offset + text.len()].copy_from_slice(text);
    changed
}

// Each of these asks one thing and has no clause, so a test does not carry what is known of its answer.

// The rule and the offset of what is refused, and zeros where nothing is.
fn fault_of(bad: BadField) -> (u8, u16) {
    (bad.rule, bad.offset)
}

fn header_fault(bytes: &[u8; 186]) -> (u8, u16) {
    match decode_header(bytes) {
        Ok(_) => (0, 0),
        Err(bad) => fault_of(bad),
    }
}

fn free_fault(bytes: &[u8; 80]) -> (u8, u16) {
    match decode_free(bytes) {
        Ok(_) => (0, 0),
        Err(bad) => fault_of(bad),
    }
}

fn node_fault(bytes: &[u8; 246]) -> (u8, u16) {
    match decode_node(bytes) {
        Ok(_) => (0, 0),
        Err(bad) => fault_of(bad),
    }
}

fn wide_fault(bytes: &[u8; 342]) -> (u8, u16) {
    match decode_wide(bytes) {
        Ok(_) => (0, 0),
        Err(bad) => fault_of(bad),
    }
}

// The name is not the wanted one.
fn unnamed_fault(bytes: &[u8; 246]) -> (u8, u16) {
    match decode_named(bytes, false, false) {
        Ok(_) => (0, 0),
        Err(bad) => fault_of(bad),
    }
}

fn unnamed_wide_fault(bytes: &[u8; 342]) -> (u8, u16) {
    match decode_named(bytes, true, false) {
        Ok(_) => (0, 0),
        Err(bad) => fault_of(bad),
    }
}

fn is_read_alike(bytes: &[u8; 246]) -> bool {
    decode_named(bytes, false, true) == decode_node(bytes)
}

// Whether the bytes are read as the record, and the record is written so.
fn is_header(bytes: &[u8; 186], record: &FileHeader, written: &[u8; 186]) -> bool {
    match decode_header(bytes) {
        Ok(header) => header == *record && encode_header(&header) == *written,
        Err(_) => false,
    }
}

fn is_free_table(bytes: &[u8; 80], record: &FreeTable, written: &[u8; 80]) -> bool {
    match decode_free(bytes) {
        Ok(table) => table == *record && encode_free(&table) == *written,
        Err(_) => false,
    }
}

fn is_node(bytes: &[u8; 246], record: &NodeHeader, written: &[u8; 246]) -> bool {
    match decode_node(bytes) {
        Ok(header) => header == *record && encode_node(&header) == *written,
        Err(_) => false,
    }
}

fn is_wide_node(bytes: &[u8; 342], record: &NodeHeader, written: &[u8; 342]) -> bool {
    match decode_wide(bytes) {
        Ok(header) => header == *record && encode_wide(&header) == *written,
        Err(_) => false,
    }
}

// Whether the bytes are a node of this type and of twelve dimensions, and are written as they are.
fn is_full(bytes: &[u8; 246], kind: DataType) -> bool {
    match decode_node(bytes) {
        Ok(header) => header.kind == kind && header.rank == 12 && encode_node(&header) == *bytes,
        Err(_) => false,
    }
}

fn has_dimensions(header: &NodeHeader, each: u64) -> bool {
    dimensions_of(header) == [each; 12]
}

fn check_fault(rt: &impl Abort, offset: usize, found: (u8, u16), wanted: (u8, u16)) {
    assert_eq!(rt; found, wanted, "at {offset}");
}

#[test]
fn a_fresh_file_is_read_and_written(rt: HostRuntime) {
    assert!(rt; is_header(HEADER, &FRESH_HEADER, HEADER));
    assert!(rt; is_free_table(FREE, &NONE_FREE, FREE));
    let root = NodeHeader {
        wide: false,
        name: *b"ADF MotherNode                  ",
        label: *b"Root Node of ADF File           ",
        children: 0,
        entries: 0,
        table: DiskPtr::Blank,
        kind: DataType::Mt,
        rank: 0,
        dims: [*b"00000000\0\0\0\0\0\0\0\0"; 12],
        chunks: 0,
        chunk: DiskPtr::Blank,
    };
    assert!(rt; is_node(ROOT, &root, ROOT));
}

#[test]
fn a_fresh_wide_file_is_read_and_written(rt: HostRuntime) {
    let bytes = with(&rt, HEADER, 25, b"W");
    let bytes = with(&rt, &bytes, 146, b"00000000025F");
    let header = FileHeader {
        what: *b"@(#)ADF Database Version W02007>",
        end: near(607),
        ..FRESH_HEADER
    };
    assert!(rt; is_header(&bytes, &header, &bytes));
    let root = NodeHeader {
        wide: true,
        name: *b"ADF MotherNode                  ",
        label: *b"Root Node of ADF File           ",
        children: 0,
        entries: 0,
        table: DiskPtr::Blank,
        kind: DataType::Mt,
        rank: 0,
        dims: [*b"0000000000000000"; 12],
        chunks: 0,
        chunk: DiskPtr::Blank,
    };
    assert!(rt; is_wide_node(WIDE_ROOT, &root, WIDE_ROOT));
}

#[test]
fn a_header_is_refused_at_its_first_broken_rule(rt: HostRuntime) {
    let rows: [(usize, &[u8], u8, u16); 32] = [
        (0, b"#", 2, 0),
        (24, b"_", 2, 0),
        (25, b"B", 2, 0),
        (31, b" ", 2, 0),
        (32, b"a", 3, 32),
        (67, b"0", 3, 64),
        (96, b"a", 3, 96),
        (105, b"2", 3, 102),
        (130, b"a", 3, 130),
        (182, b"a", 3, 182),
        (185, b"4", 3, 182),
        (100, b"l", 4, 100),
        (106, b"g", 5, 106),
        (107, b"/", 5, 106),
        (128, b"G", 5, 128),
        (129, b" ", 5, 128),
        (134, b"000000001000", 6, 134),
        (134, b"000000001001", 6, 134),
        (134, b"000000011000", 6, 134),
        (145, b"g", 6, 134),
        (146, b"0000000g01FF", 6, 146),
        (146, b"000000001000", 6, 146),
        (146, b"000000001001", 6, 146),
        (157, b" ", 6, 146),
        (158, b"000000001000", 6, 158),
        (158, b"000000001001", 6, 158),
        (169, b"G", 6, 158),
        (158, b"000000000 BA", 6, 158),
        (158, b"0000000000BB", 7, 158),
        (158, b"0000000100BA", 7, 158),
        // An earlier rule comes first, wherever it stands.
        (181, b"0adF5", 3, 182),
        (100, b"lLaDF3", 3, 102),
    ];
    for (offset, text, rule, place) in rows {
        let found = header_fault(&with(&rt, HEADER, offset, text));
        check_fault(&rt, offset, found, (rule, place));
    }
}

#[test]
fn a_header_takes_either_case_and_any_free_byte(rt: HostRuntime) {
    let changes: [(usize, &[u8]); 8] = [
        (25, b"W"),
        (36, b"Tue Dec  1 00:25:48 2026 UTC"),
        (68, b"\0\xFF/"),
        (100, b"B?"),
        (106, b"aFfA"),
        (134, b"abcDEF010fff"),
        (158, b"0000000000bA"),
        (170, b"anything...."),
    ];
    let mut bytes = *HEADER;
    for (offset, text) in changes {
        bytes = with(&rt, &bytes, offset, text);
    }
    let header = FileHeader {
        what: *b"@(#)ADF Database Version W02007>",
        created: *b"Tue Dec  1 00:25:48 2026 UTC",
        modified: *b"\0\xFF/                         ",
        format: Format::Big,
        size_letter: b'?',
        sizes: *b"aFfA00000000000000000000",
        root: DiskPtr::At {
            block: 0xABCDEF01,
            offset: 4095,
        },
        extra: *b"anything....",
        ..FRESH_HEADER
    };
    let upper = with(&rt, &bytes, 134, b"ABCDEF010FFF");
    let upper = with(&rt, &upper, 158, b"0000000000BA");
    assert!(rt; is_header(&bytes, &header, &upper));
}

#[test]
fn a_free_table_is_refused_at_its_first_broken_rule(rt: HostRuntime) {
    let rows: [(usize, &[u8], u8, u16); 18] = [
        (0, b"F", 9, 0),
        (3, b"T", 9, 0),
        (76, b"f", 9, 76),
        (79, b"E", 9, 76),
        (4, b"000000001001", 10, 4),
        (16, b"x", 10, 16),
        (28, b"x", 10, 28),
        (40, b"x", 10, 40),
        (52, b"x", 10, 52),
        (64, b"000000011000", 10, 64),
        (75, b"G", 10, 64),
        (4, b"000000000FFF", 11, 4),
        (16, b"000000000fff", 11, 4),
        (28, b"000000000FFF", 11, 28),
        (40, b"000000000FFF", 11, 28),
        (52, b"000000000FFF", 11, 52),
        (64, b"000000000FFF", 11, 52),
        (4, b"000000000FFF000000001000x", 10, 28),
    ];
    for (offset, text, rule, place) in rows {
        let found = free_fault(&with(&rt, FREE, offset, text));
        check_fault(&rt, offset, found, (rule, place));
    }
}

#[test]
fn a_free_table_takes_either_case(rt: HostRuntime) {
    let table = FreeTable {
        medium_first: near(4095),
        medium_last: DiskPtr::At {
            block: 0xABCDEF01,
            offset: 512,
        },
        ..NONE_FREE
    };
    let bytes = with(&rt, FREE, 28, b"000000000ffFABCDEF010200");
    let upper = with(&rt, FREE, 28, b"000000000FFFABCDEF010200");
    assert!(rt; is_free_table(&bytes, &table, &upper));
}

#[test]
fn a_free_table_has_two_pointers_for_each_list(rt: HostRuntime) {
    let table = FreeTable {
        small_first: near(0x10A),
        small_last: near(4095),
        medium_first: DiskPtr::At {
            block: 1,
            offset: 0,
        },
        medium_last: DiskPtr::At {
            block: 0xA,
            offset: 0xABC,
        },
        large_first: DiskPtr::At {
            block: 0xF,
            offset: 0x200,
        },
        large_last: DiskPtr::At {
            block: 0xABCDEF01,
            offset: 4095,
        },
    };
    assert!(rt;
        is_free_table(
            b"fCbt00000000010A000000000FFF0000000100000000000a0abC0000000F0200ABCDEF010FFFFcte",
            &table,
            b"fCbt00000000010A000000000FFF0000000100000000000A0ABC0000000F0200ABCDEF010FFFFcte"
        )
    );
}

#[test]
fn a_node_is_refused_at_its_first_broken_rule(rt: HostRuntime) {
    let rows: [(usize, &[u8], u8, u16); 43] = [
        (0, b"n", 15, 0),
        (3, b"E", 15, 0),
        (242, b"t", 15, 242),
        (245, b"l", 15, 242),
        (4, b" ", 16, 4),
        (35, b"/", 16, 4),
        (8, b"\x7F", 16, 4),
        (4, b"                                ", 16, 4),
        (4, b".               ", 16, 4),
        (4, b"..              ", 16, 4),
        (36, b" ", 17, 36),
        (67, b"\x1F", 17, 36),
        (68, b"g", 18, 68),
        (75, b"g", 18, 68),
        (76, b"G", 18, 76),
        (83, b" ", 18, 76),
        (128, b"g", 18, 128),
        (129, b"x", 18, 128),
        (226, b"g", 18, 226),
        (229, b" ", 18, 226),
        (84, b"000000001001", 19, 84),
        (84, b"000000000200", 19, 84),
        (76, b"00000001", 19, 84),
        (95, b"g", 19, 84),
        (226, b"0001", 19, 230),
        (230, b"000000000200", 19, 230),
        (230, b"000000011000", 19, 230),
        (230, b"000000001001", 19, 230),
        (241, b"g", 19, 230),
        (96, b"mt", 20, 96),
        (98, b"4", 20, 96),
        (127, b"x", 20, 96),
        (128, b"0D", 21, 128),
        (128, b"0d", 21, 128),
        (128, b"fF", 21, 128),
        (128, b"00", 21, 128),
        (96, b"MT", 21, 128),
        (130, b"00000000", 21, 130),
        (130, b"g", 21, 130),
        (218, b"00000000", 21, 218),
        (225, b"\0", 21, 218),
        // An earlier rule comes first, wherever it stands.
        (225, b"x000g", 18, 226),
        (
            96,
            b"mt                              000000000000000000",
            20,
            96,
        ),
    ];
    for (offset, text, rule, place) in rows {
        let found = node_fault(&with(&rt, FULL, offset, text));
        check_fault(&rt, offset, found, (rule, place));
    }
}

#[test]
fn a_node_of_another_name_is_refused(rt: HostRuntime) {
    assert!(rt; unnamed_fault(FULL) == (16, 4));
    assert!(rt; unnamed_fault(&with(&rt, FULL, 242, b"t")) == (15, 242));
    assert!(rt; is_read_alike(FULL));
    assert!(rt; unnamed_wide_fault(WIDE) == (16, 4));
}

#[test]
fn a_name_may_be_long_and_a_label_blank(rt: HostRuntime) {
    assert!(rt; node_fault(&with(&rt, FULL, 35, b"~")) == (0, 0));
    assert!(rt; node_fault(&with(&rt, FULL, 36, b"                                ")) == (0, 0));
}

#[test]
fn a_wide_node_is_refused_at_its_own_offsets(rt: HostRuntime) {
    let rows: [(usize, &[u8], u8, u16); 17] = [
        (0, b"n", 15, 0),
        (338, b"t", 15, 338),
        (341, b"l", 15, 338),
        (4, b"/", 16, 4),
        (67, b"\x7F", 17, 36),
        (68, b"g", 18, 68),
        (322, b"g", 18, 322),
        (325, b" ", 18, 322),
        (84, b"000000000200", 19, 84),
        (326, b"000000000200", 19, 326),
        (337, b"G", 19, 326),
        (96, b"i4", 20, 96),
        (127, b"4", 20, 96),
        (128, b"0D", 21, 128),
        (130, b"0000000000000000", 21, 130),
        (321, b"0", 21, 306),
        (306, b"g", 21, 306),
    ];
    for (offset, text, rule, place) in rows {
        let found = wide_fault(&with(&rt, WIDE, offset, text));
        check_fault(&rt, offset, found, (rule, place));
    }
}

#[test]
fn a_node_of_each_type_is_read_and_written(rt: HostRuntime) {
    let words: [(&[u8], DataType); 11] = [
        (b"I4", DataType::I4),
        (b"I8", DataType::I8),
        (b"U4", DataType::U4),
        (b"U8", DataType::U8),
        (b"R4", DataType::R4),
        (b"R8", DataType::R8),
        (b"X4", DataType::X4),
        (b"X8", DataType::X8),
        (b"B1", DataType::B1),
        (b"C1", DataType::C1),
        (b"LK", DataType::Lk),
    ];
    for (word, kind) in words {
        let bytes = with(&rt, FULL, 96, word);
        assert!(rt; is_full(&bytes, kind), "of {kind:?}");
    }
}

#[test]
fn a_node_takes_either_case_and_is_written_in_upper_case(rt: HostRuntime) {
    let narrow = NodeHeader {
        wide: false,
        name: *b"Zone 1                          ",
        label: *b"Zone_t                          ",
        children: 0xABCD,
        entries: 0x10ABCD,
        table: DiskPtr::At {
            block: 0xABCDEF01,
            offset: 4095,
        },
        kind: DataType::R8,
        rank: 12,
        dims: [
            *b"0000000A\0\0\0\0\0\0\0\0",
            *b"00abcdf9\0\0\0\0\0\0\0\0",
            *b"01579BE8\0\0\0\0\0\0\0\0",
            *b"020369d7\0\0\0\0\0\0\0\0",
            *b"02AF37C6\0\0\0\0\0\0\0\0",
            *b"035b05b5\0\0\0\0\0\0\0\0",
            *b"0406D3A4\0\0\0\0\0\0\0\0",
            *b"04b2a193\0\0\0\0\0\0\0\0",
            *b"055E6F82\0\0\0\0\0\0\0\0",
            *b"060a3d71\0\0\0\0\0\0\0\0",
            *b"06B60B60\0\0\0\0\0\0\0\0",
            *b"0761d94f\0\0\0\0\0\0\0\0",
        ],
        chunks: 0xFE,
        chunk: DiskPtr::At {
            block: 10,
            offset: 0x46A,
        },
    };
    assert!(rt;
        is_node(
            b"NoDeZone 1                          Zone_t                          0000abCd0010ABcdabcdef010fffR8                              0c0000000A00abcdf901579BE8020369d702AF37C6035b05b50406D3A404b2a193055E6F82060a3d7106B60B600761d94f00fE0000000a046aTaiL",
            &narrow,
            b"NoDeZone 1                          Zone_t                          0000ABCD0010ABCDABCDEF010FFFR8                              0C0000000A00abcdf901579BE8020369d702AF37C6035b05b50406D3A404b2a193055E6F82060a3d7106B60B600761d94f00FE0000000A046ATaiL"
        )
    );
    let wide = NodeHeader {
        wide: true,
        dims: [
            *b"000000000000000a",
            *b"00abcdef01234571",
            *b"01579bde02468ad8",
            *b"020369cd0369d03f",
            *b"02af37bc048d15a6",
            *b"035b05ab05b05b0d",
            *b"0406d39a06d3a074",
            *b"04b2a18907f6e5db",
            *b"055e6f78091a2b42",
            *b"060a3d670a3d70a9",
            *b"06b60b560b60b610",
            *b"0761d9450c83fb77",
        ],
        ..narrow
    };
    assert!(rt;
        is_wide_node(
            b"NoDeZone 1                          Zone_t                          0000abCd0010ABcdabcdef010fffR8                              0c000000000000000a00abcdef0123457101579bde02468ad8020369cd0369d03f02af37bc048d15a6035b05ab05b05b0d0406d39a06d3a07404b2a18907f6e5db055e6f78091a2b42060a3d670a3d70a906b60b560b60b6100761d9450c83fb7700fE0000000a046aTaiL",
            &wide,
            b"NoDeZone 1                          Zone_t                          0000ABCD0010ABCDABCDEF010FFFR8                              0C000000000000000a00abcdef0123457101579bde02468ad8020369cd0369d03f02af37bc048d15a6035b05ab05b05b0d0406d39a06d3a07404b2a18907f6e5db055e6f78091a2b42060a3d670a3d70a906b60b560b60b6100761d9450c83fb7700FE0000000A046ATaiL"
        )
    );
}

#[test]
fn dimensions_are_numbers_of_eight_or_sixteen_digits(rt: HostRuntime) {
    let mut header = NodeHeader {
        wide: false,
        name: [b' '; 32],
        label: [b' '; 32],
        children: 0,
        entries: 0,
        table: DiskPtr::Blank,
        kind: DataType::C1,
        rank: 2,
        dims: [*b"0000001fGGGGGGGG"; 12],
        chunks: 0,
        chunk: DiskPtr::Blank,
    };
    assert!(rt; has_dimensions(&header, 31));
    header.wide = true;
    assert!(rt; has_dimensions(&header, 0));
    header.dims = [*b"0000000100000002"; 12];
    assert!(rt; has_dimensions(&header, 4_294_967_298));
}

#[test]
fn a_name_field_has_spaces_behind_the_name(rt: HostRuntime) {
    assert!(rt; is_name_field(b"Base                            "));
    assert!(rt; !is_name_field(b" Base                           "));
    assert!(rt; !is_name_field(b"                                "));
    assert!(rt; !is_name_field(b"a/b                             "));
}

#[test]
fn laws_are_calls() {
    read_again();
    written_again();
    faults_are_placed();
}
