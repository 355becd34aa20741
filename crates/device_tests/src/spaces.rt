//! Pages over blocks, and fields that are written to a draft and read from it and from pages.
ghost use Rattle.std.specs.Prelude.{◌≤◌, ◌<◌, ◌+◌, ◌^◌};
ghost use Rattle.cg_io.specs.Pages.{ArePages};

use crate::plain::{Plain, device_of, three_blocks};
use block_draft::Draft;
use cg_io::{Blocks, MemoryDevice, Pages, ReadBytes, Space, read_bytes, write_bytes};
use disk_ptr::{DiskPtr, from_place};
use field_access::{
    has_tag, read_field, read_number, read_pointer, write_field, write_number, write_pointer,
};
use std::alloc::Global;
use std::test::Fail;

const END: u64 = 1 << 44;

// Whether a span of bytes is read, each of which is this one but for the first and the last.
fn reads_span<R: ReadBytes>(bytes: &mut R, place: u64, edges: [u8; 2], byte: u8) -> bool
    requires sound { R.is_sound bytes.old }
    ensures { R.is_sound bytes.new }
{
    if place > END - 5000 {
        return false;
    }
    let mut into = [9u8; 5000];
    if bytes.read(place, &mut into).is_err() {
        return false;
    }
    into[0] == edges[0] && into[4999] == edges[1] && into[1..4999] == [byte; 4998]
}

fn is_long<B: Blocks>(pages: &mut Pages<B>, length: u64) -> bool
    requires sound { ArePages B.is_sound B.state pages.old }
    ensures { ArePages B.is_sound B.state pages.new }
{
    match pages.length() {
        Ok(n) => n == length,
        Err(_) => false,
    }
}

// Whether four bytes are read.
fn reads_four<R: ReadBytes>(bytes: &mut R, place: u64, wanted: [u8; 4]) -> bool
    requires sound { R.is_sound bytes.old }
    ensures { R.is_sound bytes.new }
{
    if place > END - 4 {
        return false;
    }
    match read_bytes::<R, 4>(bytes, place) {
        Ok(read) => read == wanted,
        Err(_) => false,
    }
}

#[test]
fn pages_read_a_block_once_in_a_row(rt: HostRuntime) -> Result<(), Fail> {
    let mut pages = Pages::new(Plain {
        device: three_blocks(rt.alloc())?,
    });
    assert!(rt; reads_four(&mut pages, 0, [1; 4]));
    assert!(rt; reads_four(&mut pages, 4092, [1; 4]));
    assert!(rt; reads_four(&mut pages, 4094, [1, 1, 2, 2]));
    assert!(rt; reads_four(&mut pages, 4096, [2; 4]));
    assert!(rt; reads_four(&mut pages, 12286, [3, 3, 0, 0]));
    assert!(rt; is_long(&mut pages, 12288));
    let Plain { device } = pages.into_blocks();
    assert!(rt; device.reads() == 5);
    Ok(())
}

#[test]
fn a_failed_read_of_a_page_is_made_again(rt: HostRuntime) -> Result<(), Fail> {
    let mut device = three_blocks(rt.alloc())?;
    device.fail_read(2)?;
    let mut pages = Pages::new(Plain { device });
    assert!(rt; reads_four(&mut pages, 0, [1; 4]));
    assert!(rt; !reads_four(&mut pages, 4096, [2; 4]));
    assert!(rt; reads_four(&mut pages, 0, [1; 4]));
    assert!(rt; reads_four(&mut pages, 4096, [2; 4]));
    let Plain { device } = pages.into_blocks();
    assert!(rt; device.reads() == 4);
    Ok(())
}

/// A field that is written, and what is read of it then.
#[derive(Clone, Copy)]
enum Step {
    Text(u64, [u8; 4]),
    Pointer(u64, Option<u64>),
    Number(u64, u64),
    /// Bytes that are no pointer, and no number.
    Nothing(u64),
}

// Writes a field, and tells whether it is read so.
fn holds<S: Space>(space: &mut S, step: Step) -> bool
    requires sound { S.is_sound space.old }
    ensures { S.is_sound space.new }
{
    match step {
        Step::Text(place, text) => holds_text(space, place, text),
        Step::Pointer(place, to) => holds_pointer(space, place, to),
        Step::Number(place, value) => holds_number(space, place, value),
        Step::Nothing(place) => holds_nothing(space, place),
    }
}

fn holds_text<S: Space>(space: &mut S, place: u64, text: [u8; 4]) -> bool
    requires sound { S.is_sound space.old }
    ensures { S.is_sound space.new }
{
    if place > END - 4 || write_field(space, place, &text).is_err() {
        return false;
    }
    has_tag(space, place, &text) == Ok(true) && read_field::<S, 4>(space, place) == Ok(text)
}

fn holds_pointer<S: Space>(space: &mut S, place: u64, to: Option<u64>) -> bool
    requires sound { S.is_sound space.old }
    ensures { S.is_sound space.new }
{
    let pointer = match to {
        Some(to) if to < END => from_place(to),
        _ => DiskPtr::Blank,
    };
    if place > END - 12 || write_pointer(space, place, pointer).is_err() {
        return false;
    }
    read_pointer(space, place) == Ok(Some(pointer))
}

fn holds_number<S: Space>(space: &mut S, place: u64, value: u64) -> bool
    requires sound { S.is_sound space.old }
    ensures { S.is_sound space.new }
{
    if place > END - 8 || value >= 1 << 32 || write_number::<S, 8>(space, place, value).is_err() {
        return false;
    }
    read_number::<S, 8>(space, place) == Ok(Some(value))
}

fn holds_nothing<S: Space>(space: &mut S, place: u64) -> bool
    requires sound { S.is_sound space.old }
    ensures { S.is_sound space.new }
{
    if place > END - 12 || write_bytes(space, place, b"no number at").is_err() {
        return false;
    }
    read_pointer(space, place) == Ok(None) && read_number::<S, 8>(space, place) == Ok(None)
}

const FIELDS: &[Step] = &[
    Step::Text(4094, *b"NoDe"),
    Step::Pointer(4090, Some(17592186044415)),
    Step::Pointer(0, None),
    Step::Number(8190, 0xfffffffe),
    Step::Nothing(5),
];

// How many of the fields are read as they were written, up to the first that is not.
fn run(alloc: Global, device: MemoryDevice, steps: &[Step]) -> usize {
    let mut draft = Draft::new(alloc, Plain { device });
    for (done, step) in steps.iter().enumerate() {
        if !holds(&mut draft, *step) {
            return done;
        }
    }
    steps.len()
}

#[test]
fn a_field_is_read_as_it_was_written(rt: HostRuntime) -> Result<(), Fail> {
    let done = run(rt.alloc(), device_of(rt.alloc(), 1, 10)?, FIELDS);
    assert!(rt; done == FIELDS.len(), "step {done}");
    Ok(())
}

#[test]
fn a_span_of_pages_is_read_whole(rt: HostRuntime) -> Result<(), Fail> {
    let mut pages = Pages::new(Plain {
        device: device_of(rt.alloc(), 1, 9000)?,
    });
    assert!(rt; reads_span(&mut pages, 4000, [1, 1], 1));
    assert!(rt; reads_span(&mut pages, 8999, [1, 0], 0));
    Ok(())
}
