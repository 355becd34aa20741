//! Copies of the sound parts of damaged files: what is left out, what they hold, and what is refused.

use crate::copies::{
    Faults, NO_FAULTS, Outcome, SOUND, copy_sample, device_of, outcome_of, text_of,
};
use crate::damaged::{Out, are_left};
use adf_model::{AdfError, Text};
use adf_repack::Target;
use adf_salvage::{LeftOut, salvage};
use block_cache::BlockCache;
use cg_io::MemoryDevice;
use layout_lint::{Verdict, lint};
use sample_files::{Part, Sample, image_of};
use std::alloc::Global;
use std::test::Fail;

// What came of a salvage: what was left out and the last byte, or the refusal; and what the device holds then.
#[derive(Drop)]
struct Saved {
    left: Option<LeftOut>,
    end: Result<u64, AdfError>,
    device: MemoryDevice,
}

// The sound part of a text, written into a device that holds another one.
fn salvage_text(alloc: Global, from: Text, into: Text, faults: Faults) -> Result<Saved, AdfError> {
    let source = device_of(alloc, from, faults.source, 0)?;
    let device = device_of(alloc, into, faults.read, faults.write)?;
    match BlockCache::new(alloc, source, 4) {
        Ok(mut blocks) => match salvage(alloc, &mut blocks, device) {
            Ok(salvaged) => Ok(Saved {
                left: Some(salvaged.left),
                end: Ok(salvaged.end),
                device: salvaged.device,
            }),
            Err((error, device)) => Ok(Saved {
                left: None,
                end: Err(error),
                device,
            }),
        },
        Err((error, _)) => Err(error),
    }
}

// That of a file over which something is written.
fn salvage_sample(
    alloc: Global,
    sample: Sample,
    damage: &[Part],
    into: Text,
    faults: Faults,
) -> Result<Saved, AdfError> {
    let Ok(mut image) = image_of(alloc, sample) else {
        return Err(AdfError::Memory);
    };
    for part in damage {
        image.draw(*part);
    }
    salvage_text(alloc, image.text(), into, faults)
}

// ---- what is kept and what is left out

// A file, what is written over it, which nodes are left out, how many are kept, and the last byte of the copy.
type Row = (Sample, &'static [Part], &'static [Out], usize, u64);

// Leaves and nodes above others, nodes that share bytes, tables, chunks, and lists, which do not matter.
const ROWS: [Row; 13] = [
    (Sample::OneChild, &[], &[], 2, 821),
    (
        Sample::OneChild,
        &[Part::Bytes(608, b"XX")],
        &[(b"/Base", 20, 608)],
        1,
        511,
    ),
    (
        Sample::OneChildWide,
        &[Part::Bytes(704, b"XX")],
        &[(b"/Base", 20, 704)],
        1,
        607,
    ),
    (
        Sample::MovedRoot,
        &[Part::Bytes(300, b"XXXX")],
        &[(b"/A%20b/C", 15, 300)],
        3,
        1111,
    ),
    (
        Sample::MovedRoot,
        &[Part::Bytes(1446, b"XXXX")],
        &[(b"/A%20b", 23, 1446)],
        2,
        821,
    ),
    (
        Sample::MovedRoot,
        &[Part::Bytes(300, b"XXXX"), Part::Entry(846, 1, b"B", 1200)],
        &[(b"/A%20b/C", 15, 300), (b"/B", 13, 1200)],
        2,
        821,
    ),
    (
        Sample::Chain(5),
        &[Part::Bytes(886, b"XXXX")],
        &[(b"/N/N", 15, 886)],
        2,
        821,
    ),
    (Sample::NodeInside, &[], &[(b"/Copy", 14, 870)], 2, 821),
    (
        Sample::NodeInside,
        &[Part::Bytes(608, b"XX")],
        &[(b"/Base", 20, 608)],
        2,
        821,
    ),
    (
        Sample::TwoChunks,
        &[Part::Bytes(1130, b"XXXX")],
        &[(b"/Base", 25, 1130)],
        1,
        511,
    ),
    (
        Sample::TwoChunks,
        &[Part::Bytes(1198, b"XXXX")],
        &[(b"/Base", 26, 1198)],
        1,
        511,
    ),
    (
        Sample::MovedRoot,
        &[Part::Bytes(186, b"XXXX")],
        &[],
        4,
        1421,
    ),
    (
        Sample::NineChildren,
        &[Part::Bytes(758, b"XXXX")],
        &[],
        10,
        3141,
    ),
];

// Whether the linter finds so many nodes in the file of a device, no gap, and this last byte.
fn is_sound(alloc: Global, device: &MemoryDevice, count: usize, last: u64) -> bool {
    let Ok(text) = text_of(alloc, device) else {
        return false;
    };
    let Ok(device) = device_of(alloc, text, 0, 0) else {
        return false;
    };
    let Ok(mut blocks) = BlockCache::new(alloc, device, 4) else {
        return false;
    };
    match lint(alloc, &mut blocks) {
        Ok(
            Verdict::Sound {
                nodes,
                gaps,
                end,
                ..
            },
        ) => nodes.items().len() == count && gaps.items().is_empty() && end == last,
        _ => false,
    }
}

// Whether these nodes were left out, and what was saved is sound.
fn is_saved_as(alloc: Global, saved: &Saved, row: Row) -> bool {
    let (_, _, left, kept, end) = row;
    match &saved.left {
        Some(found) => {
            are_left(found, left)
                && outcome_of(saved.end) == Outcome::Ends(end)
                && is_sound(alloc, &saved.device, kept, end)
        }
        None => false,
    }
}

fn is_saved_so(alloc: Global, row: Row) -> bool {
    match salvage_sample(alloc, row.0, row.1, Text::new(Vec::new(alloc)), NO_FAULTS) {
        Ok(saved) => is_saved_as(alloc, &saved, row),
        Err(_) => false,
    }
}

#[test]
fn the_sound_part_stands_in_a_sound_file(rt: HostRuntime) -> Result<(), Fail> {
    for k in 0..ROWS.len() {
        assert!(rt; is_saved_so(rt.alloc(), ROWS[k]), "row {k}");
    }
    Ok(())
}

// ---- bytes

// A file, what is written over it, and the file whose copy has the same bytes.
type Alike = (Sample, &'static [Part], Sample);

const ALIKE: [Alike; 6] = [
    (Sample::OneChild, &[Part::Bytes(608, b"XX")], Sample::Fresh),
    (
        Sample::OneChildWide,
        &[Part::Bytes(704, b"XX")],
        Sample::FreshWide,
    ),
    (
        Sample::TwoChunks,
        &[Part::Bytes(1198, b"XXXX")],
        Sample::Fresh,
    ),
    (Sample::NodeInside, &[], Sample::OneChild),
    (
        Sample::Chain(5),
        &[Part::Bytes(886, b"XXXX")],
        Sample::Chain(2),
    ),
    (
        Sample::NineChildren,
        &[Part::Bytes(758, b"XXXX")],
        Sample::NineChildren,
    ),
];

// Whether the sound part of a file is written as a copy of another file.
fn is_alike(alloc: Global, sample: Sample, damage: &[Part], other: Sample) -> bool {
    match (
        salvage_sample(alloc, sample, damage, Text::new(Vec::new(alloc)), NO_FAULTS),
        copy_sample(alloc, other, Target::Same, NO_FAULTS),
    ) {
        (Ok(saved), Ok(copied)) => {
            copied.end.is_ok()
                && saved.end == copied.end
                && saved.device.held() == copied.device.held()
        }
        _ => false,
    }
}

#[test]
fn what_is_left_out_leaves_no_trace(rt: HostRuntime) -> Result<(), Fail> {
    for (sample, damage, other) in ALIKE {
        assert!(rt; is_alike(rt.alloc(), sample, damage, other));
    }
    Ok(())
}

#[test]
fn a_sound_file_is_copied_as_a_whole(rt: HostRuntime) -> Result<(), Fail> {
    for sample in SOUND {
        assert!(rt; is_alike(rt.alloc(), sample, &[], sample));
    }
    Ok(())
}

// ---- refusals and faults

// Whether a salvage into a device of one byte is refused so, and leaves the device as it is.
fn is_refused_so(alloc: Global, sample: Sample, damage: &[Part], outcome: Outcome) -> bool {
    let mut one = Vec::new(alloc);
    if one.push(7).is_err() {
        return false;
    }
    match salvage_sample(alloc, sample, damage, Text::new(one), NO_FAULTS) {
        Ok(saved) => {
            outcome_of(saved.end) == outcome
                && saved.device.held() == [7].as_slice()
                && saved.device.writes() == 0
        }
        Err(_) => false,
    }
}

// A head and a root that are broken are told before the byte of the device.
const REFUSED: [(Sample, &'static [Part], Outcome); 5] = [
    (Sample::OneChild, &[], Outcome::Refused(25)),
    (
        Sample::OneChild,
        &[Part::Bytes(608, b"XX")],
        Outcome::Refused(25),
    ),
    (
        Sample::Fresh,
        &[Part::Bytes(0, b"X")],
        Outcome::Broken(2, 0),
    ),
    (
        Sample::Fresh,
        &[Part::Bytes(362, b"XX")],
        Outcome::Broken(20, 362),
    ),
    (
        Sample::OneChild,
        &[Part::Bytes(758, b"XXXX")],
        Outcome::Broken(23, 758),
    ),
];

#[test]
fn a_refused_salvage_leaves_a_device_that_holds_a_byte(rt: HostRuntime) -> Result<(), Fail> {
    for (sample, damage, outcome) in REFUSED {
        assert!(rt;
            is_refused_so(rt.alloc(), sample, damage, outcome),
            "{outcome:?}"
        );
    }
    Ok(())
}

// What comes of a salvage of data in three chunks with one failing call.
fn outcome_with(alloc: Global, faults: Faults) -> Outcome {
    match salvage_sample(
        alloc,
        Sample::ThreeChunks,
        &[],
        Text::new(Vec::new(alloc)),
        faults,
    ) {
        Ok(saved) => outcome_of(saved.end),
        Err(_) => Outcome::Refused(0),
    }
}

// The read and the write of the device that fail, and what comes of it. The device is read once and written twice.
const FAILING: [(u64, u64, Outcome); 5] = [
    (1, 0, Outcome::Refused(2)),
    (2, 0, Outcome::Ends(5841)),
    (0, 1, Outcome::Refused(3)),
    (0, 2, Outcome::Refused(3)),
    (0, 3, Outcome::Ends(5841)),
];

#[test]
fn each_failing_call_of_a_salvage_is_told(rt: HostRuntime) -> Result<(), Fail> {
    let alloc = rt.alloc();
    for (read, write, outcome) in FAILING {
        let faults = Faults {
            source: 0,
            read,
            write,
        };
        assert!(rt; outcome_with(alloc, faults) == outcome, "{outcome:?}");
    }
    // Behind the last read of the file none fails.
    let mut is_past = false;
    for k in 1..40 {
        let faults = Faults {
            source: k,
            ..NO_FAULTS
        };
        let outcome = outcome_with(alloc, faults);
        assert!(rt;
            outcome == Outcome::Ends(5841) || !is_past && outcome == Outcome::Refused(2),
            "read {k}"
        );
        is_past = outcome == Outcome::Ends(5841);
    }
    assert!(rt; is_past);
    Ok(())
}
