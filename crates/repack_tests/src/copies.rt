//! Copies of files: how long they are, what they hold, and what is refused.

use adf_model::{AdfError, Text};
use adf_repack::{Target, repack, write_packed};
use block_cache::BlockCache;
use cg_io::{Blocks, MemoryDevice};
use layout_lint::{Verdict, lint};
use sample_files::{Sample, image_of};
use std::alloc::{AllocError, Global};
use std::test::Fail;

/// Which calls are to fail, from 1; 0 for none: a read of the file, a read and a write of the device that the copy goes to.
#[derive(Clone, Copy, Drop)]
pub struct Faults {
    pub source: u64,
    pub read: u64,
    pub write: u64,
}

pub const NO_FAULTS: Faults = Faults {
    source: 0,
    read: 0,
    write: 0,
};

/// What came of a copy: the last byte, or the refusal; what the device holds then, and how often it was read and written.
#[derive(Drop)]
pub struct Copied {
    pub end: Result<u64, AdfError>,
    pub device: MemoryDevice,
}

/// A device that holds these bytes, and whose read or write of this number is to fail.
pub fn device_of(
    alloc: Global,
    text: Text,
    read: u64,
    write: u64,
) -> Result<MemoryDevice, AdfError> {
    if text.items().len() > 1 << 20 {
        return Err(AdfError::Memory);
    }
    let mut device = MemoryDevice::new(alloc, text);
    match device.fail_read(read) {
        Ok(()) => {}
        Err(_) => return Err(AdfError::Memory),
    }
    match device.fail_write(write, 100) {
        Ok(()) => Ok(device),
        Err(_) => Err(AdfError::Memory),
    }
}

// A copy of a text into a device that holds another one.
fn copy_text(
    alloc: Global,
    from: Text,
    into: Text,
    target: Target,
    faults: Faults,
) -> Result<Copied, AdfError> {
    let source = device_of(alloc, from, faults.source, 0)?;
    let device = device_of(alloc, into, faults.read, faults.write)?;
    match BlockCache::new(alloc, source, 4) {
        Ok(mut blocks) => match repack(alloc, &mut blocks, device, target) {
            Ok(packed) => Ok(Copied {
                end: Ok(packed.end),
                device: packed.device,
            }),
            Err((error, device)) => Ok(Copied {
                end: Err(error),
                device,
            }),
        },
        Err((error, _)) => Err(error),
    }
}

// The nodes that the linter finds in a file, written into a device.
fn pack_found<B: Blocks>(
    alloc: Global,
    blocks: &mut B,
    device: MemoryDevice,
) -> Result<Copied, AdfError>
    requires { B.is_sound blocks.old }
{
    match lint(alloc, blocks) {
        Ok(Verdict::Sound { nodes, wide, .. }) => {
            match write_packed(alloc, blocks, &nodes, wide, device) {
                Ok(packed) => Ok(Copied {
                    end: Ok(packed.end),
                    device: packed.device,
                }),
                Err((error, _)) => Err(error),
            }
        }
        Ok(Verdict::Unsound { rule, place }) => Err(AdfError::Layout { rule, place }),
        Err(error) => Err(error),
    }
}

// The same for a text and an empty device.
fn pack_text(alloc: Global, from: Text) -> Result<Copied, AdfError> {
    let source = device_of(alloc, from, 0, 0)?;
    let device = device_of(alloc, Text::new(Vec::new(alloc)), 0, 0)?;
    match BlockCache::new(alloc, source, 4) {
        Ok(mut blocks) => pack_found(alloc, &mut blocks, device),
        Err((error, _)) => Err(error),
    }
}

/// A copy of a file into an empty device.
pub fn copy_sample(
    alloc: Global,
    sample: Sample,
    target: Target,
    faults: Faults,
) -> Result<Copied, AdfError> {
    let Ok(image) = image_of(alloc, sample) else {
        return Err(AdfError::Memory);
    };
    copy_text(
        alloc,
        image.text(),
        Text::new(Vec::new(alloc)),
        target,
        faults,
    )
}

/// The bytes of a device as a text.
pub fn text_of(alloc: Global, device: &MemoryDevice) -> Result<Text, AllocError> {
    let mut bytes = Vec::new(alloc);
    bytes.extend_from_slice(device.held())?;
    Ok(Text::new(bytes))
}

// ---- lengths and refusals

/// The last byte of a copy, or the rule and the place of a refusal, or the number of another refusal.
#[derive(Clone, Copy, Debug, PartialEq, Eq, Drop)]
pub enum Outcome {
    Ends(u64),
    Broken(u8, u64),
    Refused(u8),
}

/// The outcome that a result shows.
pub fn outcome_of(end: Result<u64, AdfError>) -> Outcome {
    match end {
        Ok(end) => Outcome::Ends(end),
        Err(AdfError::Layout { rule, place }) => Outcome::Broken(rule, place),
        Err(AdfError::Memory) => Outcome::Refused(1),
        Err(AdfError::ReadFault) => Outcome::Refused(2),
        Err(AdfError::WriteFault) => Outcome::Refused(3),
        Err(AdfError::BadShape) => Outcome::Refused(14),
        Err(AdfError::NotEmpty) => Outcome::Refused(25),
        Err(_) => Outcome::Refused(0),
    }
}

// A file, the version of the copy, and what comes of it.
type Row = (Sample, Target, Outcome);

const ROWS: [Row; 17] = [
    (Sample::Fresh, Target::Same, Outcome::Ends(511)),
    (Sample::Fresh, Target::Wide, Outcome::Ends(607)),
    (Sample::FreshWide, Target::Same, Outcome::Ends(607)),
    (Sample::FreshWide, Target::Narrow, Outcome::Ends(511)),
    (Sample::OneChild, Target::Same, Outcome::Ends(821)),
    (Sample::OneChild, Target::Narrow, Outcome::Ends(821)),
    (Sample::OneChild, Target::Wide, Outcome::Ends(1013)),
    (Sample::OneChildWide, Target::Same, Outcome::Ends(1013)),
    (Sample::OneChildWide, Target::Narrow, Outcome::Ends(821)),
    (Sample::LongDimension, Target::Same, Outcome::Ends(1013)),
    (Sample::LongDimension, Target::Narrow, Outcome::Refused(14)),
    (Sample::LinkInChunks, Target::Same, Outcome::Ends(853)),
    (Sample::NineChildren, Target::Same, Outcome::Ends(3141)),
    (Sample::MovedRoot, Target::Same, Outcome::Ends(1421)),
    (Sample::ThreeChunks, Target::Same, Outcome::Ends(5841)),
    (Sample::Chain(5), Target::Same, Outcome::Ends(1751)),
    (Sample::NodeInside, Target::Same, Outcome::Broken(14, 870)),
];

fn ends_so(alloc: Global, row: Row) -> bool {
    match copy_sample(alloc, row.0, row.1, NO_FAULTS) {
        Ok(copied) => outcome_of(copied.end) == row.2,
        Err(_) => false,
    }
}

#[test]
fn a_copy_has_no_gap_and_ends_where_it_must(rt: HostRuntime) -> Result<(), Fail> {
    for row in ROWS {
        assert!(rt; ends_so(rt.alloc(), row), "{:?}", row.2);
    }
    Ok(())
}

// ---- bytes

// Whether the copy begins with the bytes of another file, behind which there are zeros up to the end of a block.
fn holds_copy(alloc: Global, copied: &Copied, wanted: Sample) -> bool {
    let Ok(image) = image_of(alloc, wanted) else {
        return false;
    };
    let text = image.text();
    let held = copied.device.held();
    let long = text.items().len();
    if held.len() < long || held.len() - long > 4095 || held.len() % 4096 != 0 {
        return false;
    }
    for k in 0..held.len() {
        let byte = if k < long { text.items()[k] } else { 0 };
        if held[k] != byte {
            return false;
        }
    }
    true
}

fn is_copied_as(alloc: Global, sample: Sample, target: Target, wanted: Sample) -> bool {
    match copy_sample(alloc, sample, target, NO_FAULTS) {
        Ok(copied) => copied.end.is_ok() && holds_copy(alloc, &copied, wanted),
        Err(_) => false,
    }
}

const BYTES: [(Sample, Target, Sample); 4] = [
    (Sample::OneChild, Target::Same, Sample::PackedOneChild),
    (Sample::OneChild, Target::Wide, Sample::PackedWide),
    (Sample::LinkInChunks, Target::Same, Sample::PackedLink),
    (Sample::ThreeChunks, Target::Same, Sample::PackedData),
];

#[test]
fn a_copy_has_these_bytes(rt: HostRuntime) -> Result<(), Fail> {
    for (sample, target, wanted) in BYTES {
        assert!(rt;
            is_copied_as(rt.alloc(), sample, target, wanted),
            "{:?}",
            target
        );
    }
    Ok(())
}

// Whether the nodes that the linter finds are written with the bytes of a copy.
fn is_packed_as(alloc: Global, sample: Sample, wanted: Sample) -> bool {
    let Ok(image) = image_of(alloc, sample) else {
        return false;
    };
    match pack_text(alloc, image.text()) {
        Ok(packed) => packed.end.is_ok() && holds_copy(alloc, &packed, wanted),
        Err(_) => false,
    }
}

#[test]
fn nodes_that_were_found_are_written_as_a_copy(rt: HostRuntime) -> Result<(), Fail> {
    for (sample, target, wanted) in BYTES {
        if target == Target::Same {
            assert!(rt; is_packed_as(rt.alloc(), sample, wanted));
        }
    }
    Ok(())
}

// ---- copies of copies

/// Files without a fault.
pub const SOUND: [Sample; 9] = [
    Sample::Fresh,
    Sample::FreshWide,
    Sample::OneChild,
    Sample::OneChildWide,
    Sample::LinkInChunks,
    Sample::NineChildren,
    Sample::MovedRoot,
    Sample::ThreeChunks,
    Sample::Chain(7),
];

// A copy of a copy.
fn copied_twice(
    alloc: Global,
    sample: Sample,
    first: Target,
    second: Target,
) -> Result<Copied, AdfError> {
    let copied = copy_sample(alloc, sample, first, NO_FAULTS)?;
    match text_of(alloc, &copied.device) {
        Ok(text) => copy_text(alloc, text, Text::new(Vec::new(alloc)), second, NO_FAULTS),
        Err(_) => Err(AdfError::Memory),
    }
}

// Whether a copy of a copy has the bytes of a copy.
fn are_same(alloc: Global, sample: Sample, first: Target, second: Target, once: Target) -> bool {
    match (
        copied_twice(alloc, sample, first, second),
        copy_sample(alloc, sample, once, NO_FAULTS),
    ) {
        (Ok(twice), Ok(one)) => {
            one.end.is_ok() && twice.end == one.end && twice.device.held() == one.device.held()
        }
        _ => false,
    }
}

#[test]
fn a_copy_of_a_copy_has_its_bytes(rt: HostRuntime) -> Result<(), Fail> {
    for sample in SOUND {
        let alloc = rt.alloc();
        assert!(rt; are_same(alloc, sample, Target::Same, Target::Same, Target::Same));
        assert!(rt; are_same(alloc, sample, Target::Wide, Target::Narrow, Target::Narrow));
        assert!(rt; are_same(alloc, sample, Target::Narrow, Target::Wide, Target::Wide));
    }
    Ok(())
}

// ---- faults

// Whether a target that holds a byte is refused, and left as it is.
fn is_refused_full(alloc: Global) -> bool {
    let Ok(image) = image_of(alloc, Sample::OneChild) else {
        return false;
    };
    let mut one = Vec::new(alloc);
    if one.push(7).is_err() {
        return false;
    }
    match copy_text(alloc, image.text(), Text::new(one), Target::Same, NO_FAULTS) {
        Ok(copied) => {
            outcome_of(copied.end) == Outcome::Refused(25)
                && copied.device.held() == [7].as_slice()
                && copied.device.writes() == 0
        }
        Err(_) => false,
    }
}

#[test]
fn a_target_that_holds_a_byte_is_left(rt: HostRuntime) -> Result<(), Fail> {
    assert!(rt; is_refused_full(rt.alloc()));
    Ok(())
}

// What comes of a copy of data in three chunks with one failing call.
fn outcome_with(alloc: Global, faults: Faults) -> Outcome {
    match copy_sample(alloc, Sample::ThreeChunks, Target::Same, faults) {
        Ok(copied) => outcome_of(copied.end),
        Err(_) => Outcome::Refused(0),
    }
}

// The read of the file, the read and the write of the device that fail, and what comes of it. The device is read once and
// written twice.
const FAILING: [(u64, u64, u64, Outcome); 6] = [
    (1, 0, 0, Outcome::Refused(2)),
    (0, 1, 0, Outcome::Refused(2)),
    (0, 2, 0, Outcome::Ends(5841)),
    (0, 0, 1, Outcome::Refused(3)),
    (0, 0, 2, Outcome::Refused(3)),
    (0, 0, 3, Outcome::Ends(5841)),
];

#[test]
fn each_failing_call_is_told(rt: HostRuntime) -> Result<(), Fail> {
    let alloc = rt.alloc();
    for (source, read, write, outcome) in FAILING {
        let faults = Faults {
            source,
            read,
            write,
        };
        assert!(rt; outcome_with(alloc, faults) == outcome, "{outcome:?}");
    }
    // Behind the last read that the copy makes, none fails.
    let mut is_past = false;
    for k in 1..40 {
        let faults = Faults {
            source: k,
            ..NO_FAULTS
        };
        let outcome = outcome_with(alloc, faults);
        assert!(rt;
            outcome == Outcome::Ends(5841) || !is_past && outcome == Outcome::Refused(2),
            "read {k}"
        );
        is_past = outcome == Outcome::Ends(5841);
    }
    assert!(rt; is_past);
    Ok(())
}
