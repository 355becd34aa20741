//! Files, sound and not, and what packed copies of some of them are.

use crate::images::{Image, Part, chain};
use std::alloc::{AllocError, Global};

/// A file, sound unless it says otherwise.
#[derive(Clone, Copy, Drop)]
pub enum Sample {
    /// The root alone.
    Fresh,
    /// The same of the wide version.
    FreshWide,
    /// One child `Base`, whose table has room for eight.
    OneChild,
    /// The same of the wide version.
    OneChildWide,
    /// The same with a dimension of 2^32, and no data.
    LongDimension,
    /// One child of six bytes in two chunks that a table lists.
    TwoChunks,
    /// The same, a link.
    LinkInChunks,
    /// Nine children, and a free chunk where the table for eight stood.
    NineChildren,
    /// The same with a tenth child where the free chunk began.
    TenChildren,
    /// The root stands at 600: behind a filler, its grandchild `C` and a filler, and before its
    /// children `A b` and `B`.
    MovedRoot,
    /// One child with 5,000 bytes in three chunks, none of which begins with a block.
    ThreeChunks,
    /// Three blocks: the one child is a link whose text has 4,096 bytes, and a filler and a free chunk
    /// follow.
    ThreeBlocks,
    /// Unsound: a node within the table of its parent, as its second child.
    NodeInside,
    /// A chain of so many nodes.
    Chain(u16),
    /// `OneChild`, packed.
    PackedOneChild,
    /// `OneChild`, packed in the wide version.
    PackedWide,
    /// `LinkInChunks`, packed.
    PackedLink,
    /// `ThreeChunks`, packed.
    PackedData,
}

const ROOT: &[u8] = b"ADF MotherNode";

const FRESH: [Part; 2] = [Part::Head(511), Part::Node(266, ROOT, 0, 0, 0)];

const FRESH_WIDE: [Part; 3] = [
    Part::Head(607),
    Part::Bytes(25, b"W"),
    Part::WideNode(266, ROOT, 0, 0, 0),
];

const ONE_CHILD: [Part; 5] = [
    Part::Head(1129),
    Part::Node(266, ROOT, 1, 8, 758),
    Part::Node(512, b"Base", 0, 0, 0),
    Part::Table(758, 8),
    Part::Entry(758, 0, b"Base", 512),
];

const ONE_CHILD_WIDE: [Part; 6] = [
    Part::Head(1321),
    Part::Bytes(25, b"W"),
    Part::WideNode(266, ROOT, 1, 8, 950),
    Part::WideNode(608, b"Base", 0, 0, 0),
    Part::Table(950, 8),
    Part::Entry(950, 0, b"Base", 608),
];

// Over a wide file with one child.
const LONG_DIMENSION: [Part; 2] = [
    Part::Bytes(704, b"C1"),
    Part::Bytes(736, b"010000000100000000"),
];

// Over a file with one child.
const INSIDE: [Part; 3] = [
    Part::Bytes(334, b"00000002"),
    Part::Entry(758, 1, b"Copy", 870),
    Part::Node(870, b"Copy", 0, 0, 0),
];

// Over a file with one child.
const CHUNKS: [Part; 13] = [
    Part::Pointer(146, 1261),
    Part::Bytes(608, b"C1"),
    Part::Bytes(640, b"0100000006"),
    Part::Bytes(738, b"0002"),
    Part::Pointer(742, 1130),
    Part::Framed(1130, 68, b"DCtb", b"dcTE"),
    Part::Pointer(1146, 1198),
    Part::Pointer(1158, 1226),
    Part::Pointer(1170, 1230),
    Part::Pointer(1182, 1258),
    Part::Framed(1198, 32, b"DaTa", b"dEnD"),
    Part::Framed(1230, 32, b"DaTa", b"dEnD"),
    Part::Bytes(1214, b"f>/Xyz"),
];

// Over a file with a child in two chunks.
const LINK: [Part; 1] = [Part::Bytes(608, b"LK")];

// Over a file with one child.
const LONG_CHUNKS: [Part; 18] = [
    Part::Pointer(146, 9999),
    Part::Bytes(190, b"0000000013880000000017E8"),
    Part::Bytes(190, b"000000001000000000001000"),
    Part::Bytes(608, b"C1"),
    Part::Bytes(640, b"0100001388"),
    Part::Bytes(738, b"0003"),
    Part::Pointer(742, 1200),
    Part::Framed(1200, 92, b"DCtb", b"dcTE"),
    Part::Pointer(1216, 7000),
    Part::Pointer(1228, 9016),
    Part::Pointer(1240, 2000),
    Part::Pointer(1252, 4016),
    Part::Pointer(1264, 5000),
    Part::Pointer(1276, 6216),
    Part::Framed(7000, 2020, b"DaTa", b"dEnD"),
    Part::Framed(2000, 2020, b"DaTa", b"dEnD"),
    Part::Framed(5000, 1220, b"DaTa", b"dEnD"),
    Part::Counted(7016, 2000, 0),
];

const LONG_DATA: [Part; 2] = [
    Part::Counted(2016, 2000, 208),
    Part::Counted(5016, 1200, 160),
];

const NINE_CHILDREN: [Part; 24] = [
    Part::Head(3645),
    Part::Bytes(190, b"0000000002F60000000002F6"),
    Part::Node(266, ROOT, 9, 12, 3098),
    Part::Table(3098, 12),
    Part::Node(512, b"N1", 0, 0, 0),
    Part::Node(1130, b"N2", 0, 0, 0),
    Part::Node(1376, b"N3", 0, 0, 0),
    Part::Node(1622, b"N4", 0, 0, 0),
    Part::Node(1868, b"N5", 0, 0, 0),
    Part::Node(2114, b"N6", 0, 0, 0),
    Part::Node(2360, b"N7", 0, 0, 0),
    Part::Node(2606, b"N8", 0, 0, 0),
    Part::Node(2852, b"N9", 0, 0, 0),
    Part::Entry(3098, 0, b"N1", 512),
    Part::Entry(3098, 1, b"N2", 1130),
    Part::Entry(3098, 2, b"N3", 1376),
    Part::Entry(3098, 3, b"N4", 1622),
    Part::Entry(3098, 4, b"N5", 1868),
    Part::Entry(3098, 5, b"N6", 2114),
    Part::Entry(3098, 6, b"N7", 2360),
    Part::Entry(3098, 7, b"N8", 2606),
    Part::Entry(3098, 8, b"N9", 2852),
    Part::Framed(758, 372, b"FreE", b"EndC"),
    Part::Bytes(774, b"000000001000"),
];

// Over a file with nine.
const TENTH_CHILD: [Part; 6] = [
    Part::Bytes(190, b"0000000003EC0000000003EC"),
    Part::Bytes(334, b"0000000A"),
    Part::Node(758, b"N10", 0, 0, 0),
    Part::Entry(3098, 9, b"N10", 758),
    Part::Framed(1004, 126, b"FreE", b"EndC"),
    Part::Bytes(1020, b"000000001000"),
];

const MOVED_ROOT: [Part; 11] = [
    Part::Head(1509),
    Part::Pointer(134, 600),
    Part::Node(300, b"C", 0, 0, 0),
    Part::Node(600, b"Top", 2, 2, 846),
    Part::Table(846, 2),
    Part::Entry(846, 0, b"A b", 1200),
    Part::Entry(846, 1, b"B", 954),
    Part::Node(954, b"B", 0, 0, 0),
    Part::Node(1200, b"A b", 1, 1, 1446),
    Part::Table(1446, 1),
    Part::Entry(1446, 0, b"C", 300),
];

// Over a file with one child.
const LONG_LINK: [Part; 10] = [
    Part::Pointer(146, 9031),
    Part::Bytes(190, b"000000020328000000020328"),
    Part::Bytes(608, b"LK"),
    Part::Bytes(640, b"0100001000"),
    Part::Bytes(738, b"0001"),
    Part::Pointer(742, 1130),
    Part::Framed(1130, 4117, b"DaTa", b"dEnD"),
    Part::Bytes(5239, b">/X"),
    Part::Framed(9000, 32, b"FreE", b"EndC"),
    Part::Bytes(9016, b"000000001000"),
];

// Over blank bytes: a packed header has zeros for its dates.
const NO_DATES: [Part; 2] = [Part::Zeros(36, 28), Part::Zeros(68, 28)];

const PACKED_ONE_CHILD: [Part; 5] = [
    Part::Head(821),
    Part::Node(266, ROOT, 1, 1, 512),
    Part::Table(512, 1),
    Part::Entry(512, 0, b"Base", 576),
    Part::Node(576, b"Base", 0, 0, 0),
];

const PACKED_WIDE: [Part; 6] = [
    Part::Head(1013),
    Part::Bytes(25, b"W"),
    Part::WideNode(266, ROOT, 1, 1, 608),
    Part::Table(608, 1),
    Part::Entry(608, 0, b"Base", 672),
    Part::WideNode(672, b"Base", 0, 0, 0),
];

const PACKED_LINK: [Part; 12] = [
    Part::Head(853),
    Part::Node(266, ROOT, 1, 1, 512),
    Part::Table(512, 1),
    Part::Entry(512, 0, b"Base", 576),
    Part::Node(576, b"Base", 0, 0, 0),
    Part::Bytes(672, b"LK"),
    Part::Bytes(704, b"0100000006"),
    Part::Bytes(802, b"0001"),
    Part::Pointer(806, 822),
    Part::Framed(822, 32, b"DaTa", b"dEnD"),
    Part::Bytes(838, b"f>/Xyz"),
    Part::Zeros(844, 6),
];

const PACKED_DATA: [Part; 11] = [
    Part::Head(5841),
    Part::Node(266, ROOT, 1, 1, 512),
    Part::Table(512, 1),
    Part::Entry(512, 0, b"Base", 576),
    Part::Node(576, b"Base", 0, 0, 0),
    Part::Bytes(672, b"C1"),
    Part::Bytes(704, b"0100001388"),
    Part::Bytes(802, b"0001"),
    Part::Pointer(806, 822),
    Part::Framed(822, 5020, b"DaTa", b"dEnD"),
    Part::Counted(838, 5000, 0),
];

fn drawn(alloc: Global, length: usize, parts: &[&[Part]]) -> Result<Image, AllocError> {
    let mut image = Image::blank(alloc, length)?;
    for some in parts {
        for part in *some {
            image.draw(*part);
        }
    }
    Ok(image)
}

/// The bytes of a file, those of a copy without the bytes behind its end.
pub fn image_of(alloc: Global, sample: Sample) -> Result<Image, AllocError> {
    match sample {
        Sample::Fresh => drawn(alloc, 4096, &[&FRESH]),
        Sample::FreshWide => drawn(alloc, 4096, &[&FRESH_WIDE]),
        Sample::OneChild => drawn(alloc, 4096, &[&ONE_CHILD]),
        Sample::OneChildWide => drawn(alloc, 4096, &[&ONE_CHILD_WIDE]),
        Sample::LongDimension => drawn(alloc, 4096, &[&ONE_CHILD_WIDE, &LONG_DIMENSION]),
        Sample::TwoChunks => drawn(alloc, 4096, &[&ONE_CHILD, &CHUNKS]),
        Sample::LinkInChunks => drawn(alloc, 4096, &[&ONE_CHILD, &CHUNKS, &LINK]),
        Sample::NineChildren => drawn(alloc, 4096, &[&NINE_CHILDREN]),
        Sample::TenChildren => drawn(alloc, 4096, &[&NINE_CHILDREN, &TENTH_CHILD]),
        Sample::MovedRoot => drawn(alloc, 4096, &[&MOVED_ROOT]),
        Sample::ThreeChunks => drawn(alloc, 12288, &[&ONE_CHILD, &LONG_CHUNKS, &LONG_DATA]),
        Sample::ThreeBlocks => drawn(alloc, 12288, &[&ONE_CHILD, &LONG_LINK]),
        Sample::NodeInside => drawn(alloc, 4096, &[&ONE_CHILD, &INSIDE]),
        Sample::Chain(nodes) => chain(alloc, nodes),
        Sample::PackedOneChild => drawn(alloc, 822, &[&PACKED_ONE_CHILD, &NO_DATES]),
        Sample::PackedWide => drawn(alloc, 1014, &[&PACKED_WIDE, &NO_DATES]),
        Sample::PackedLink => drawn(alloc, 854, &[&PACKED_LINK, &NO_DATES]),
        Sample::PackedData => drawn(alloc, 5842, &[&PACKED_DATA, &NO_DATES]),
    }
}
