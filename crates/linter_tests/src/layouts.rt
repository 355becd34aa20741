//! What is said of sound files, and calls over a device whose reads fail.

ghost use Rattle.std.specs.Prelude.{IfOk, map};
ghost use Rattle.cg_io.specs.Memory.{device_of};
ghost use Rattle.block_cache.specs.Cache.{IsCache};
ghost use Rattle.layout_lint.specs.Walks.{node_place};
ghost use Rattle.layout_lint.specs.Shapes.{AreLinked};

use crate::rules::verdict;
use adf_model::{AdfError, Text};
use block_cache::BlockCache;
use cg_io::MemoryDevice;
use layout_lint::{
    ExtentKind, Extents, Format, NodeNames, NodePlace, NodePlaces, Owned, OwnedExtents, Surveyed,
    Verdict, extents, lint, owned_extents, path_of, survey, survey_places,
};
use sample_files::{Image, Sample, image_of};
use std::alloc::Global;
use std::test::Fail;

// The nodes and gaps of a sound file, its end, and whether it is wide and little-endian.
type Sums = (usize, usize, u64, bool, bool);

fn has_sums(
    alloc: Global,
    sample: Sample,
    changes: &[(usize, &'static [u8])],
    wanted: Sums,
) -> bool {
    let Ok(mut image) = image_of(alloc, sample) else {
        return false;
    };
    image.change(changes);
    match verdict(alloc, image, 0) {
        Ok(
            Verdict::Sound {
                nodes,
                gaps,
                end,
                format,
                wide,
            },
        ) => {
            let little = matches!(format, Format::Little);
            (nodes.items().len(), gaps.items().len(), end, wide, little) == wanted
        }
        _ => false,
    }
}

const SUMS: [(Sample, &[(usize, &[u8])], Sums); 11] = [
    (Sample::Fresh, &[], (1, 0, 511, false, true)),
    (Sample::Fresh, &[(100, b"B")], (1, 0, 511, false, false)),
    (Sample::FreshWide, &[], (1, 0, 607, true, true)),
    (Sample::OneChild, &[], (2, 0, 1129, false, true)),
    (Sample::OneChildWide, &[], (2, 0, 1321, true, true)),
    (Sample::TwoChunks, &[], (2, 0, 1261, false, true)),
    (Sample::NineChildren, &[], (10, 1, 3645, false, true)),
    (Sample::TenChildren, &[], (11, 1, 3645, false, true)),
    (Sample::MovedRoot, &[], (4, 2, 1509, false, true)),
    (Sample::ThreeBlocks, &[], (2, 2, 9031, false, true)),
    (Sample::Chain(51), &[], (51, 0, 16011, false, true)),
];

#[test]
fn sums_of_sound_files(rt: HostRuntime) -> Result<(), Fail> {
    for (sample, changes, wanted) in SUMS {
        assert!(rt;
            has_sums(rt.alloc(), sample, changes, wanted),
            "end {}",
            wanted.2
        );
    }
    Ok(())
}

// The place, the parent, the position and the depth of a node.
type Node = (u64, u64, u32, u8);

fn node_of(node: &NodePlace) -> Node {
    (node.place, node.parent, node.position, node.depth)
}

fn are_nodes(nodes: &NodePlaces, wanted: &[Node]) -> bool {
    let mut same = nodes.items().len() == wanted.len();
    for (node, row) in nodes.items().iter().zip(wanted) {
        same = same && node_of(node) == *row;
    }
    same
}

// The place, the length and the kind of a gap.
type Gap = (u64, u64, ExtentKind);

fn are_gaps(gaps: &Extents, wanted: &[Gap]) -> bool {
    let mut same = gaps.items().len() == wanted.len();
    for (gap, row) in gaps.items().iter().zip(wanted) {
        same = same && (gap.place, gap.length, gap.kind) == *row;
    }
    same
}

fn lists(alloc: Global, sample: Sample, nodes_wanted: &[Node], gaps_wanted: &[Gap]) -> bool {
    let Ok(image) = image_of(alloc, sample) else {
        return false;
    };
    match verdict(alloc, image, 0) {
        Ok(Verdict::Sound { nodes, gaps, .. }) => {
            are_nodes(&nodes, nodes_wanted) && are_gaps(&gaps, gaps_wanted)
        }
        _ => false,
    }
}

const LISTED: [(Sample, &[Node], &[Gap]); 3] = [
    (Sample::OneChild, &[(266, 0, 0, 0), (512, 0, 0, 1)], &[]),
    (
        Sample::MovedRoot,
        &[
            (600, 0, 0, 0),
            (1200, 0, 0, 1),
            (300, 1, 0, 2),
            (954, 0, 1, 1),
        ],
        &[(266, 34, ExtentKind::Filler), (546, 54, ExtentKind::Filler)],
    ),
    (
        Sample::ThreeBlocks,
        &[(266, 0, 0, 0), (512, 0, 0, 1)],
        &[
            (5247, 3753, ExtentKind::Filler),
            (9000, 32, ExtentKind::FreeChunk),
        ],
    ),
];

#[test]
fn nodes_and_gaps_of_sound_files(rt: HostRuntime) -> Result<(), Fail> {
    for (sample, nodes, gaps) in LISTED {
        assert!(rt;
            lists(rt.alloc(), sample, nodes, gaps),
            "nodes {}",
            nodes.len()
        );
    }
    let gaps = [(1004, 126, ExtentKind::FreeChunk)];
    assert!(rt; has_gaps(rt.alloc(), Sample::TenChildren, &gaps));
    Ok(())
}

fn has_gaps(alloc: Global, sample: Sample, wanted: &[Gap]) -> bool {
    let Ok(image) = image_of(alloc, sample) else {
        return false;
    };
    match verdict(alloc, image, 0) {
        Ok(Verdict::Sound { gaps, .. }) => are_gaps(&gaps, wanted),
        _ => false,
    }
}

// An extent and the node that it is a part of.
type Piece = (u64, u64, ExtentKind, Option<u64>);

const HEADER: Piece = (0, 186, ExtentKind::Header, None);

const TABLE: Piece = (186, 80, ExtentKind::FreeTable, None);

const ONE_CHILD: [Piece; 5] = [
    HEADER,
    TABLE,
    (266, 246, ExtentKind::Node, Some(0)),
    (512, 246, ExtentKind::Node, Some(1)),
    (758, 372, ExtentKind::SubNodes, Some(0)),
];

const ONE_CHILD_WIDE: [Piece; 5] = [
    HEADER,
    TABLE,
    (266, 342, ExtentKind::Node, Some(0)),
    (608, 342, ExtentKind::Node, Some(1)),
    (950, 372, ExtentKind::SubNodes, Some(0)),
];

const TWO_CHUNKS: [Piece; 8] = [
    HEADER,
    TABLE,
    (266, 246, ExtentKind::Node, Some(0)),
    (512, 246, ExtentKind::Node, Some(1)),
    (758, 372, ExtentKind::SubNodes, Some(0)),
    (1130, 68, ExtentKind::ChunkTable, Some(1)),
    (1198, 32, ExtentKind::DataChunk, Some(1)),
    (1230, 32, ExtentKind::DataChunk, Some(1)),
];

const MOVED_ROOT: [Piece; 10] = [
    HEADER,
    TABLE,
    (266, 34, ExtentKind::Filler, None),
    (300, 246, ExtentKind::Node, Some(2)),
    (546, 54, ExtentKind::Filler, None),
    (600, 246, ExtentKind::Node, Some(0)),
    (846, 108, ExtentKind::SubNodes, Some(0)),
    (954, 246, ExtentKind::Node, Some(3)),
    (1200, 246, ExtentKind::Node, Some(1)),
    (1446, 64, ExtentKind::SubNodes, Some(1)),
];

const THREE_BLOCKS: [Piece; 8] = [
    HEADER,
    TABLE,
    (266, 246, ExtentKind::Node, Some(0)),
    (512, 246, ExtentKind::Node, Some(1)),
    (758, 372, ExtentKind::SubNodes, Some(0)),
    (1130, 4117, ExtentKind::DataChunk, Some(1)),
    (5247, 3753, ExtentKind::Filler, None),
    (9000, 32, ExtentKind::FreeChunk, None),
];

// All that was said of a sound file.
#[derive(Drop)]
struct Said {
    nodes: usize,
    names: usize,
    owned: OwnedExtents,
    plain: Extents,
    path: Text,
}

type Cache = BlockCache<MemoryDevice>;

// The bytes over a device whose read of this number, from 1, is to fail, with one block kept.
fn blocks_over(alloc: Global, image: Image, failing: u64) -> Result<Cache, AdfError>
    ensures { IfOk result (λ c. IsCache device_of c) }
{
    let text = image.text();
    if text.items().len() > 1 << 20 {
        return Err(AdfError::Memory);
    }
    let mut device = MemoryDevice::new(alloc, text);
    match device.fail_read(failing) {
        Ok(()) => {}
        Err(_) => return Err(AdfError::Memory),
    }
    match BlockCache::new(alloc, device, 1) {
        Ok(blocks) => Ok(blocks),
        Err((error, _)) => Err(error),
    }
}

// The path of a node, if there is one with this number.
fn path(alloc: Global, nodes: &NodePlaces, names: &NodeNames, number: u64) -> Result<Text, AdfError>
    requires { AreLinked (map node_place nodes.now) }
{
    if number >= nodes.items().len() as u64 || names.items().len() != nodes.items().len() {
        return Err(AdfError::Memory);
    }
    path_of(alloc, nodes, names, number)
}

// All that can be asked of a sound file, with the path of one node.
fn ask(alloc: Global, blocks: &mut Cache, number: u64) -> Result<Said, AdfError>
    requires { IsCache device_of blocks.old }
    ensures { IsCache device_of blocks.new }
{
    match lint(alloc, blocks)? {
        Verdict::Sound { nodes, gaps, .. } => {
            let found = survey(alloc, blocks, &nodes, &gaps)?;
            let owned = owned_extents(alloc, blocks, &nodes, &gaps)?;
            let plain = extents(alloc, blocks, &nodes, &gaps)?;
            let path = path(alloc, &nodes, &found.names, number)?;
            Ok(Said {
                nodes: nodes.items().len(),
                names: found.names.items().len(),
                owned,
                plain,
                path,
            })
        }
        Verdict::Unsound { rule, place } => Err(AdfError::Layout { rule, place }),
    }
}

// What is asked of a sample.
fn asked(alloc: Global, sample: Sample, number: u64) -> Result<Said, AdfError> {
    match image_of(alloc, sample) {
        Ok(image) => {
            let mut blocks = blocks_over(alloc, image, 0)?;
            ask(alloc, &mut blocks, number)
        }
        Err(_) => Err(AdfError::Memory),
    }
}

fn is_piece(part: &Owned, piece: &Piece) -> bool {
    let extent = part.extent;
    (extent.place, extent.length, extent.kind, part.owner) == *piece
}

fn are_owned(owned: &OwnedExtents, wanted: &[Piece]) -> bool {
    let mut same = owned.items().len() == wanted.len();
    for (part, piece) in owned.items().iter().zip(wanted) {
        same = same && is_piece(part, piece);
    }
    same
}

fn are_pieces(said: &Said, wanted: &[Piece]) -> bool {
    let mut same = are_owned(&said.owned, wanted) && said.plain.items().len() == wanted.len();
    for (plain, piece) in said.plain.items().iter().zip(wanted) {
        same = same && (plain.place, plain.length, plain.kind) == (piece.0, piece.1, piece.2);
    }
    same
}

fn has_pieces(alloc: Global, sample: Sample, wanted: &[Piece]) -> bool {
    match asked(alloc, sample, 0) {
        Ok(said) => are_pieces(&said, wanted),
        Err(_) => false,
    }
}

const PIECES: [(Sample, &[Piece]); 5] = [
    (Sample::OneChild, &ONE_CHILD),
    (Sample::OneChildWide, &ONE_CHILD_WIDE),
    (Sample::TwoChunks, &TWO_CHUNKS),
    (Sample::MovedRoot, &MOVED_ROOT),
    (Sample::ThreeBlocks, &THREE_BLOCKS),
];

#[test]
fn extents_of_sound_files(rt: HostRuntime) -> Result<(), Fail> {
    for (sample, wanted) in PIECES {
        assert!(rt;
            has_pieces(rt.alloc(), sample, wanted),
            "extents {}",
            wanted.len()
        );
    }
    Ok(())
}

// The nodes of a file by other numbers than those of the tree: their places, and what their names begin
// with.
const OTHER_ORDER: [(u64, u8); 4] = [(954, b'B'), (300, b'C'), (1200, b'A'), (600, b'T')];

const IN_OTHER_ORDER: [Piece; 10] = [
    HEADER,
    TABLE,
    (266, 34, ExtentKind::Filler, None),
    (300, 246, ExtentKind::Node, Some(1)),
    (546, 54, ExtentKind::Filler, None),
    (600, 246, ExtentKind::Node, Some(3)),
    (846, 108, ExtentKind::SubNodes, Some(3)),
    (954, 246, ExtentKind::Node, Some(0)),
    (1200, 246, ExtentKind::Node, Some(2)),
    (1446, 64, ExtentKind::SubNodes, Some(2)),
];

// What is found at these places of a sound file.
fn found_at(alloc: Global, blocks: &mut Cache, places: &[u64]) -> Result<Surveyed, AdfError>
    requires { IsCache device_of blocks.old }
{
    match lint(alloc, blocks)? {
        Verdict::Sound { gaps, .. } => survey_places(alloc, blocks, places, gaps.items()),
        Verdict::Unsound { rule, place } => Err(AdfError::Layout { rule, place }),
    }
}

fn begin_with(names: &NodeNames, wanted: &[(u64, u8)]) -> bool {
    let mut same = names.items().len() == wanted.len();
    for (name, row) in names.items().iter().zip(wanted) {
        same = same && name[0] == row.1;
    }
    same
}

#[test]
fn extents_by_places_in_another_order(rt: HostRuntime) -> Result<(), Fail> {
    let mut places = [0u64; 4];
    for (place, row) in places.iter_mut().zip(&OTHER_ORDER) {
        *place = row.0;
    }
    let image = image_of(rt.alloc(), Sample::MovedRoot)?;
    let mut blocks = blocks_over(rt.alloc(), image, 0)?;
    let found = found_at(rt.alloc(), &mut blocks, &places)?;
    assert!(rt; are_owned(&found.extents, &IN_OTHER_ORDER));
    assert!(rt; begin_with(&found.names, &OTHER_ORDER));
    Ok(())
}

fn has_path(alloc: Global, sample: Sample, number: u64, wanted: &[u8]) -> bool {
    match asked(alloc, sample, number) {
        Ok(said) => said.path.items() == wanted,
        Err(_) => false,
    }
}

const PATHS: [(Sample, u64, &[u8]); 8] = [
    (Sample::Fresh, 0, b"/"),
    (Sample::OneChild, 0, b"/"),
    (Sample::OneChild, 1, b"/Base"),
    (Sample::OneChildWide, 1, b"/Base"),
    (Sample::TenChildren, 10, b"/N10"),
    (Sample::MovedRoot, 1, b"/A%20b"),
    (Sample::MovedRoot, 2, b"/A%20b/C"),
    (Sample::MovedRoot, 3, b"/B"),
];

#[test]
fn paths_of_nodes(rt: HostRuntime) -> Result<(), Fail> {
    for (sample, number, wanted) in PATHS {
        assert!(rt; has_path(rt.alloc(), sample, number, wanted), "at {number}");
    }
    Ok(())
}

// The nodes and the extents of a sound file, and whether the path of its last node is one.
fn is_whole(said: &Said, nodes: usize, extents: usize) -> bool {
    said.nodes == nodes
        && said.names == nodes
        && said.owned.items().len() == extents
        && said.plain.items().len() == extents
        && said.path.items().first().copied() == Some(b'/')
}

// How many reads all that is asked takes.
fn reads_of(alloc: Global, sample: Sample, last: u64) -> u64 {
    let Ok(image) = image_of(alloc, sample) else {
        return 0;
    };
    let Ok(mut blocks) = blocks_over(alloc, image, 0) else {
        return 0;
    };
    match ask(alloc, &mut blocks, last) {
        Ok(_) => blocks.into_device().reads(),
        Err(_) => 0,
    }
}

// Whether a failed read is told, and what is asked again is answered.
fn tells_fault(alloc: Global, sample: Sample, failing: u64, nodes: usize, extents: usize) -> bool {
    let last = (nodes as u64).saturating_sub(1);
    let Ok(image) = image_of(alloc, sample) else {
        return false;
    };
    let Ok(mut blocks) = blocks_over(alloc, image, failing) else {
        return false;
    };
    if !matches!(ask(alloc, &mut blocks, last), Err(AdfError::ReadFault)) {
        return false;
    }
    match ask(alloc, &mut blocks, last) {
        Ok(said) => is_whole(&said, nodes, extents),
        Err(_) => false,
    }
}

const READ: [(Sample, usize, usize); 2] = [
    (Sample::ThreeBlocks, 2, 8),
    (Sample::Chain(51), 51, 103),
];

#[test]
fn a_failed_read_is_told(rt: HostRuntime) -> Result<(), Fail> {
    for (sample, nodes, extents) in READ {
        let reads = reads_of(rt.alloc(), sample, nodes as u64 - 1);
        assert!(rt; reads > 10, "{reads}");
        for failing in 1..=reads {
            assert!(rt;
                tells_fault(rt.alloc(), sample, failing, nodes, extents),
                "at {failing}"
            );
        }
    }
    Ok(())
}
