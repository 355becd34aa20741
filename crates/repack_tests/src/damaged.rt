//! The sound parts of damaged files: how many nodes are kept, and which are left out.

use adf_model::{AdfError, Text};
use adf_salvage::{LeftOut, SoundPart, sound_part};
use block_cache::BlockCache;
use cg_io::MemoryDevice;
use sample_files::{Part, Sample, image_of};
use std::alloc::Global;
use std::test::Fail;

/// A node that is left out: its path, the rule that it breaks, and where.
pub type Out = (&'static [u8], u8, u64);

// What a file has: so many nodes that are kept, and these that are left out; or the rule and the place of a refusal.
#[derive(Clone, Copy, Drop)]
enum Wanted {
    Part(usize, &'static [Out]),
    Refused(u8, u64),
    Failed,
}

// A file, what is written over it, and what it has then.
type Row = (Sample, &'static [Part], Wanted);

// In the order of the rules: the head, nodes at several depths, nodes that share bytes, tables, chunks, and what is not tested.
const ROWS: [Row; 19] = [
    (
        Sample::Fresh,
        &[Part::Bytes(0, b"X")],
        Wanted::Refused(2, 0),
    ),
    (
        Sample::Fresh,
        &[Part::Bytes(32, b"X")],
        Wanted::Refused(3, 32),
    ),
    (
        Sample::Fresh,
        &[Part::Pointer(146, 300)],
        Wanted::Refused(12, 266),
    ),
    (
        Sample::Fresh,
        &[Part::Bytes(362, b"XX")],
        Wanted::Refused(20, 362),
    ),
    (
        Sample::OneChild,
        &[Part::Bytes(758, b"XXXX")],
        Wanted::Refused(23, 758),
    ),
    (
        Sample::OneChild,
        &[Part::Bytes(608, b"XX")],
        Wanted::Part(1, &[(b"/Base", 20, 608)]),
    ),
    (
        Sample::OneChildWide,
        &[Part::Bytes(704, b"XX")],
        Wanted::Part(1, &[(b"/Base", 20, 704)]),
    ),
    (
        Sample::MovedRoot,
        &[Part::Bytes(300, b"XXXX")],
        Wanted::Part(3, &[(b"/A%20b/C", 15, 300)]),
    ),
    (
        Sample::Chain(5),
        &[Part::Bytes(886, b"XXXX")],
        Wanted::Part(2, &[(b"/N/N", 15, 886)]),
    ),
    (
        Sample::MovedRoot,
        &[Part::Entry(846, 1, b"B", 1200)],
        Wanted::Part(3, &[(b"/B", 13, 1200)]),
    ),
    (
        Sample::MovedRoot,
        &[
            Part::Entry(846, 0, b"A c", 1200),
            Part::Entry(846, 1, b"A b", 1200),
        ],
        Wanted::Part(3, &[(b"/A%20c", 16, 1204)]),
    ),
    (
        Sample::NodeInside,
        &[],
        Wanted::Part(2, &[(b"/Copy", 14, 870)]),
    ),
    (
        Sample::NodeInside,
        &[Part::Bytes(608, b"XX")],
        Wanted::Part(2, &[(b"/Base", 20, 608)]),
    ),
    (
        Sample::MovedRoot,
        &[Part::Bytes(1446, b"XXXX")],
        Wanted::Part(2, &[(b"/A%20b", 23, 1446)]),
    ),
    (
        Sample::TwoChunks,
        &[Part::Bytes(1130, b"XXXX")],
        Wanted::Part(1, &[(b"/Base", 25, 1130)]),
    ),
    (
        Sample::TwoChunks,
        &[Part::Bytes(1198, b"XXXX")],
        Wanted::Part(1, &[(b"/Base", 26, 1198)]),
    ),
    (
        Sample::OneChild,
        &[Part::Pointer(146, 5000)],
        Wanted::Part(2, &[]),
    ),
    (
        Sample::MovedRoot,
        &[Part::Bytes(186, b"XXXX")],
        Wanted::Part(4, &[]),
    ),
    (
        Sample::NineChildren,
        &[Part::Bytes(758, b"XXXX")],
        Wanted::Part(10, &[]),
    ),
];

// A read of it fails.
const FAILED: Row = (Sample::ThreeChunks, &[], Wanted::Failed);

// The sound part of a text, where a read of it may fail.
fn part_of(alloc: Global, text: Text, read: u64) -> Result<SoundPart, AdfError> {
    if text.items().len() > 1 << 20 {
        return Err(AdfError::Memory);
    }
    let mut device = MemoryDevice::new(alloc, text);
    match device.fail_read(read) {
        Ok(()) => {}
        Err(_) => return Err(AdfError::Memory),
    }
    match BlockCache::new(alloc, device, 4) {
        Ok(mut blocks) => sound_part(alloc, &mut blocks),
        Err((error, _)) => Err(error),
    }
}

/// Whether exactly these nodes are left out, in this order.
pub fn are_left(left: &LeftOut, wanted: &[Out]) -> bool {
    let found = left.items();
    if found.len() != wanted.len() {
        return false;
    }
    for k in 0..found.len() {
        let (path, rule, place) = wanted[k];
        if found[k].path.items() != path || found[k].rule != rule || found[k].place != place {
            return false;
        }
    }
    true
}

fn is_wanted(found: &Result<SoundPart, AdfError>, wanted: Wanted) -> bool {
    match (found, wanted) {
        (Ok(part), Wanted::Part(kept, left)) => {
            part.nodes.items().len() == kept && are_left(&part.left, left)
        }
        (Err(AdfError::Layout { rule, place }), Wanted::Refused(first, at)) => {
            *rule == first && *place == at
        }
        (Err(AdfError::ReadFault), Wanted::Failed) => true,
        _ => false,
    }
}

fn has_part(alloc: Global, row: Row, read: u64) -> bool {
    let (sample, damage, wanted) = row;
    let Ok(mut image) = image_of(alloc, sample) else {
        return false;
    };
    for part in damage {
        image.draw(*part);
    }
    is_wanted(&part_of(alloc, image.text(), read), wanted)
}

#[test]
fn what_is_sound_is_kept_and_the_rest_is_named(rt: HostRuntime) -> Result<(), Fail> {
    for k in 0..ROWS.len() {
        assert!(rt; has_part(rt.alloc(), ROWS[k], 0), "row {k}");
    }
    Ok(())
}

#[test]
fn a_failed_read_is_told(rt: HostRuntime) -> Result<(), Fail> {
    for read in 1..5 {
        assert!(rt; has_part(rt.alloc(), FAILED, read), "read {read}");
    }
    Ok(())
}
