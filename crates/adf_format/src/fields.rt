//! The fields of each record of a file: where a field stands, how long it is, and what it holds.
//!
//! This is the one table of them: the definitions in `specs/` name its fields, and the codecs read
//! and write by it. Offsets and lengths are in bytes, offsets from the start of the record.

ghost use Rattle.std.specs.Prelude.{◌≡◌, ◌<◌, IsTrue};
ghost use Rattle.adf_format.specs.RecordFields.{is_tag, tag_text, dimension_digits, chunk_count_at, node_dimension, node_chunks, node_chunk, node_end_tag};

/// What a field holds.
#[derive(Clone, Copy, Drop)]
pub enum FieldKind {
    /// This text.
    Tag([u8; 4]),
    /// A text, with spaces behind it.
    Text,
    /// A number in hexadecimal digits.
    Number,
    /// Hexadecimal digits, kept as they are found.
    Digits,
    /// A pointer.
    Pointer,
    /// The word of a type, with spaces behind it.
    TypeWord,
    /// The letter of a byte order.
    FormatLetter,
    /// Any bytes, kept as they are found.
    Free,
}

/// A field of a record.
#[derive(Clone, Copy, Drop)]
pub struct Field {
    pub offset: usize,
    pub length: usize,
    pub kind: FieldKind,
}

/// The text of a tag.
pub fn tag_text(tag: Field) -> [u8; 4]
    requires { IsTrue (is_tag tag) }
    ensures { result ≡ tag_text tag }
{
    match tag.kind {
        FieldKind::Tag(text) => text,
        _ => [0; 4],
    }
}

// ---- the file header

/// What the file is, and its version.
pub const HEADER_WHAT: Field = Field {
    offset: 0,
    length: 32,
    kind: FieldKind::Text,
};

pub const HEADER_TAG_0: Field = Field {
    offset: 32,
    length: 4,
    kind: FieldKind::Tag(*b"AdF0"),
};

pub const HEADER_CREATED: Field = Field {
    offset: 36,
    length: 28,
    kind: FieldKind::Free,
};

pub const HEADER_TAG_1: Field = Field {
    offset: 64,
    length: 4,
    kind: FieldKind::Tag(*b"AdF1"),
};

pub const HEADER_MODIFIED: Field = Field {
    offset: 68,
    length: 28,
    kind: FieldKind::Free,
};

pub const HEADER_TAG_2: Field = Field {
    offset: 96,
    length: 4,
    kind: FieldKind::Tag(*b"AdF2"),
};

pub const HEADER_FORMAT: Field = Field {
    offset: 100,
    length: 1,
    kind: FieldKind::FormatLetter,
};

pub const HEADER_SIZE_LETTER: Field = Field {
    offset: 101,
    length: 1,
    kind: FieldKind::Free,
};

pub const HEADER_TAG_3: Field = Field {
    offset: 102,
    length: 4,
    kind: FieldKind::Tag(*b"AdF3"),
};

/// Twelve sizes.
pub const HEADER_SIZES: Field = Field {
    offset: 106,
    length: 24,
    kind: FieldKind::Digits,
};

pub const HEADER_TAG_4: Field = Field {
    offset: 130,
    length: 4,
    kind: FieldKind::Tag(*b"AdF4"),
};

pub const HEADER_ROOT: Field = Field {
    offset: 134,
    length: 12,
    kind: FieldKind::Pointer,
};

/// The last byte of the file.
pub const HEADER_END: Field = Field {
    offset: 146,
    length: 12,
    kind: FieldKind::Pointer,
};

pub const HEADER_FREE_TABLE: Field = Field {
    offset: 158,
    length: 12,
    kind: FieldKind::Pointer,
};

pub const HEADER_EXTRA: Field = Field {
    offset: 170,
    length: 12,
    kind: FieldKind::Free,
};

pub const HEADER_TAG_5: Field = Field {
    offset: 182,
    length: 4,
    kind: FieldKind::Tag(*b"AdF5"),
};

/// The length of the file header.
pub const HEADER_LENGTH: usize = HEADER_TAG_5.offset + HEADER_TAG_5.length;

/// The first of the sizes.
pub const HEADER_SIZE: Field = Field {
    offset: 106,
    length: 2,
    kind: FieldKind::Digits,
};

// ---- what a file says that it is: the product, the letter of its version, more of the version, and a closing mark

pub const WHAT_PRODUCT: Field = Field {
    offset: 0,
    length: 25,
    kind: FieldKind::Text,
};

pub const WHAT_VERSION: Field = Field {
    offset: 25,
    length: 1,
    kind: FieldKind::Free,
};

pub const WHAT_NUMBER: Field = Field {
    offset: 26,
    length: 5,
    kind: FieldKind::Free,
};

pub const WHAT_CLOSING: Field = Field {
    offset: 31,
    length: 1,
    kind: FieldKind::Text,
};

/// The length of a tag.
pub const TAG_LENGTH: usize = HEADER_TAG_0.length;

/// The name of the product.
pub const PRODUCT: [u8; 25] = *b"@(#)ADF Database Version ";

/// The closing mark.
pub const CLOSING: [u8; 1] = *b">";

// ---- the free table

pub const FREE_TAG: Field = Field {
    offset: 0,
    length: 4,
    kind: FieldKind::Tag(*b"fCbt"),
};

pub const SMALL_FIRST: Field = Field {
    offset: 4,
    length: 12,
    kind: FieldKind::Pointer,
};

pub const SMALL_LAST: Field = Field {
    offset: 16,
    length: 12,
    kind: FieldKind::Pointer,
};

pub const MEDIUM_FIRST: Field = Field {
    offset: 28,
    length: 12,
    kind: FieldKind::Pointer,
};

pub const MEDIUM_LAST: Field = Field {
    offset: 40,
    length: 12,
    kind: FieldKind::Pointer,
};

pub const LARGE_FIRST: Field = Field {
    offset: 52,
    length: 12,
    kind: FieldKind::Pointer,
};

pub const LARGE_LAST: Field = Field {
    offset: 64,
    length: 12,
    kind: FieldKind::Pointer,
};

pub const FREE_END_TAG: Field = Field {
    offset: 76,
    length: 4,
    kind: FieldKind::Tag(*b"Fcte"),
};

/// The length of the free table.
pub const FREE_TABLE_LENGTH: usize = FREE_END_TAG.offset + FREE_END_TAG.length;

/// The place of the free table, right behind the file header.
pub const FREE_TABLE_PLACE: usize = HEADER_LENGTH;

// ---- the header of a node

pub const NODE_TAG: Field = Field {
    offset: 0,
    length: 4,
    kind: FieldKind::Tag(*b"NoDe"),
};

pub const NODE_NAME: Field = Field {
    offset: 4,
    length: 32,
    kind: FieldKind::Text,
};

pub const NODE_LABEL: Field = Field {
    offset: 36,
    length: 32,
    kind: FieldKind::Text,
};

pub const NODE_CHILDREN: Field = Field {
    offset: 68,
    length: 8,
    kind: FieldKind::Number,
};

pub const NODE_ENTRIES: Field = Field {
    offset: 76,
    length: 8,
    kind: FieldKind::Number,
};

pub const NODE_TABLE: Field = Field {
    offset: 84,
    length: 12,
    kind: FieldKind::Pointer,
};

pub const NODE_TYPE: Field = Field {
    offset: 96,
    length: 32,
    kind: FieldKind::TypeWord,
};

pub const NODE_RANK: Field = Field {
    offset: 128,
    length: 2,
    kind: FieldKind::Number,
};

/// The first of the twelve dimensions in a narrow file.
pub const NARROW_DIMENSION: Field = Field {
    offset: 130,
    length: 8,
    kind: FieldKind::Digits,
};

/// The first of the twelve dimensions in a wide file.
pub const WIDE_DIMENSION: Field = Field {
    offset: 130,
    length: 16,
    kind: FieldKind::Digits,
};

// ---- the fields of a node behind its dimensions, with the offsets counted from there

pub const NODE_CHUNKS: Field = Field {
    offset: 0,
    length: 4,
    kind: FieldKind::Number,
};

pub const NODE_CHUNK: Field = Field {
    offset: 4,
    length: 12,
    kind: FieldKind::Pointer,
};

pub const NODE_END_TAG: Field = Field {
    offset: 16,
    length: 4,
    kind: FieldKind::Tag(*b"TaiL"),
};

/// How far a node goes on behind its dimensions.
pub const NODE_TAIL_LENGTH: usize = NODE_END_TAG.offset + NODE_END_TAG.length;

// ---- the other parts: their tags, heads and entries

pub const SUB_NODES_TAG: Field = Field {
    offset: 0,
    length: 4,
    kind: FieldKind::Tag(*b"SNTb"),
};

pub const DATA_TAG: Field = Field {
    offset: 0,
    length: 4,
    kind: FieldKind::Tag(*b"DaTa"),
};

pub const CHUNKS_TAG: Field = Field {
    offset: 0,
    length: 4,
    kind: FieldKind::Tag(*b"DCtb"),
};

pub const FREE_CHUNK_TAG: Field = Field {
    offset: 0,
    length: 4,
    kind: FieldKind::Tag(*b"FreE"),
};

/// The pointer to the end tag.
pub const HEAD_POINTER: Field = Field {
    offset: 4,
    length: 12,
    kind: FieldKind::Pointer,
};

/// The length of a head.
pub const HEAD_LENGTH: usize = HEAD_POINTER.offset + HEAD_POINTER.length;

/// The pointer to the next free chunk, behind the head.
pub const FREE_NEXT: Field = Field {
    offset: 16,
    length: 12,
    kind: FieldKind::Pointer,
};

/// The length of a free chunk's head.
pub const FREE_HEAD_LENGTH: usize = FREE_NEXT.offset + FREE_NEXT.length;

pub const ENTRY_NAME: Field = Field {
    offset: 0,
    length: 32,
    kind: FieldKind::Text,
};

pub const ENTRY_CHILD: Field = Field {
    offset: 32,
    length: 12,
    kind: FieldKind::Pointer,
};

/// The length of an entry of a sub-node table.
pub const ENTRY_LENGTH: usize = ENTRY_CHILD.offset + ENTRY_CHILD.length;

pub const CHUNK_START: Field = Field {
    offset: 0,
    length: 12,
    kind: FieldKind::Pointer,
};

pub const CHUNK_END: Field = Field {
    offset: 12,
    length: 12,
    kind: FieldKind::Pointer,
};

/// The length of an entry of a chunk table.
pub const CHUNK_ENTRY_LENGTH: usize = CHUNK_END.offset + CHUNK_END.length;

// ---- the end tags of these parts, their last four bytes, with the offset counted from there

pub const SUB_NODES_END: Field = Field {
    offset: 0,
    length: 4,
    kind: FieldKind::Tag(*b"snTE"),
};

pub const DATA_END: Field = Field {
    offset: 0,
    length: 4,
    kind: FieldKind::Tag(*b"dEnD"),
};

pub const CHUNKS_END: Field = Field {
    offset: 0,
    length: 4,
    kind: FieldKind::Tag(*b"dcTE"),
};

pub const FREE_CHUNK_END: Field = Field {
    offset: 0,
    length: 4,
    kind: FieldKind::Tag(*b"EndC"),
};

// ---- the fields whose place the version moves

/// The digits of a dimension.
pub fn dimension_digits(wide: bool) -> usize
    ensures { result ≡ dimension_digits wide }
{
    if wide {
        WIDE_DIMENSION.length
    } else {
        NARROW_DIMENSION.length
    }
}

/// The i-th dimension of a node, counted from 0.
pub fn node_dimension(wide: bool, i: usize) -> Field
    requires { i < 12 }
    ensures { result ≡ node_dimension wide 0 i }
{
    let length = dimension_digits(wide);
    Field {
        offset: NARROW_DIMENSION.offset + length * i,
        length,
        kind: FieldKind::Digits,
    }
}

// Where the twelve dimensions end.
fn dimensions_end(wide: bool) -> usize
    ensures { result ≡ chunk_count_at wide }
{
    NARROW_DIMENSION.offset + 12 * dimension_digits(wide)
}

/// The number of data chunks of a node.
pub fn node_chunks(wide: bool) -> Field
    ensures { result ≡ node_chunks wide }
{
    Field {
        offset: dimensions_end(wide),
        length: NODE_CHUNKS.length,
        kind: NODE_CHUNKS.kind,
    }
}

/// The pointer to the data chunk of a node, or to the table of them.
pub fn node_chunk(wide: bool) -> Field
    ensures { result ≡ node_chunk wide }
{
    Field {
        offset: dimensions_end(wide) + NODE_CHUNK.offset,
        length: NODE_CHUNK.length,
        kind: NODE_CHUNK.kind,
    }
}

/// The end tag of a node.
pub fn node_end_tag(wide: bool) -> Field
    ensures { result ≡ node_end_tag wide }
{
    Field {
        offset: dimensions_end(wide) + NODE_END_TAG.offset,
        length: NODE_END_TAG.length,
        kind: NODE_END_TAG.kind,
    }
}
