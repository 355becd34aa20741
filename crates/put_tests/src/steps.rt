//! Edits of data and what is expected after them, as steps of a table.
//!
//! Each helper makes one call, where its condition holds.

use crate::files::{END, LINK, MANY, NONE, ONE, ROOT, five_nodes};
use crate::lints::is_sound;
use adf_chunks::Extents;
use adf_data::{DataPlace, read_runs};
use adf_format::DataType;
use adf_model::{AdfError, NodeId, Run, Runs, Selection, Shape};
use data_edits::{put_all, put_part, set_dims};
use file_heap::Heap;
use node_reads::read_header;
use std::alloc::Global;
use std::process::Abort;
use std::test::Fail;
use test_spaces::Bytes;
use tree_edits::{Core, Row, Rows};

/// A type and dimensions.
pub type Dims = (DataType, &'static [u64]);

/// Where a selection starts and ends in each dimension, and its strides.
pub type Steps = (&'static [u64], &'static [u64], &'static [u64]);

/// An edit, or what is expected where it stands.
#[derive(Clone, Copy)]
pub enum Step {
    Dims {
        node: u64,
        dims: Dims,
    },
    /// A shape that is refused.
    NoDims {
        node: u64,
        dims: Dims,
        error: AdfError,
    },
    All {
        node: u64,
        bytes: &'static [u8],
    },
    /// Data that are refused.
    NoAll {
        node: u64,
        bytes: &'static [u8],
        error: AdfError,
    },
    Part {
        node: u64,
        part: Steps,
        bytes: &'static [u8],
    },
    /// A part that is refused.
    NoPart {
        node: u64,
        part: Steps,
        bytes: &'static [u8],
        error: AdfError,
    },
    /// The data of a node, and in how many chunks they stand.
    Reads {
        node: u64,
        chunks: u16,
        are: &'static [u8],
    },
    /// Bytes that are put into the space behind the edits' back.
    Put {
        at: u64,
        bytes: &'static [u8],
    },
    /// The linter finds the file sound.
    Sound,
    /// Bytes of the space.
    Bytes {
        at: u64,
        are: &'static [u8],
    },
}

/// Whether a condition of a call does not hold: no call is made then.
const NOT_CALLED: AdfError = AdfError::NotFound;

/// The rows of the file: serial 3 is the link, serial 5 is not live.
const ROWS: [Option<Row>; 6] = [
    Some(Row {
        place: ROOT,
        parent: None,
        depth: 0,
    }),
    Some(Row {
        place: NONE,
        parent: Some(0),
        depth: 1,
    }),
    Some(Row {
        place: ONE,
        parent: Some(0),
        depth: 1,
    }),
    Some(Row {
        place: LINK,
        parent: Some(0),
        depth: 1,
    }),
    Some(Row {
        place: MANY,
        parent: Some(0),
        depth: 1,
    }),
    None,
];

// The free space of the file, which has no gap.
fn new_heap(alloc: Global, space: &mut Bytes, limit: u64) -> Result<Heap, AdfError> {
    if limit == 0 || limit > 1 << 20 {
        return Err(NOT_CALLED);
    }
    let none = Extents::new(Vec::new(alloc));
    Heap::new(alloc, space, &none, END, limit)
}

// What is kept in memory of the file.
fn new_core(
    alloc: Global,
    space: &mut Bytes,
    wide: bool,
    writable: bool,
    limit: u64,
) -> Result<Core, AdfError> {
    let heap = new_heap(alloc, space, limit)?;
    let mut rows = Vec::new(alloc);
    for row in ROWS {
        if rows.push(row).is_err() {
            return Err(AdfError::Memory);
        }
    }
    Ok(Core {
        heap,
        rows: Rows::new(alloc, rows),
        wide,
        writable,
    })
}

fn twelve(numbers: &[u64]) -> [u64; 12] {
    let mut all = [0; 12];
    for (i, number) in numbers.iter().enumerate() {
        if i < 12 {
            all[i] = *number;
        }
    }
    all
}

fn shapes(
    alloc: Global,
    space: &mut Bytes,
    core: &mut Core,
    serial: u64,
    dims: Dims,
) -> Result<(), AdfError> {
    if !core.rows.are_near(core.wide) || dims.1.len() > 255 {
        return Err(NOT_CALLED);
    }
    let shape = Shape {
        kind: dims.0,
        rank: dims.1.len() as u8,
        dims: twelve(dims.1),
    };
    set_dims(alloc, space, core, NodeId { file: 0, serial }, &shape)
}

fn fills(
    alloc: Global,
    space: &mut Bytes,
    core: &mut Core,
    serial: u64,
    bytes: &[u8],
) -> Result<(), AdfError> {
    if !core.rows.are_near(core.wide) {
        return Err(NOT_CALLED);
    }
    put_all(alloc, space, core, NodeId { file: 0, serial }, bytes)
}

fn parts(
    alloc: Global,
    space: &mut Bytes,
    core: &mut Core,
    serial: u64,
    part: Steps,
    bytes: &[u8],
) -> Result<(), AdfError> {
    if !core.rows.are_near(core.wide) || part.0.len() > 255 {
        return Err(NOT_CALLED);
    }
    let selection = Selection {
        rank: part.0.len() as u8,
        start: twelve(part.0),
        end: twelve(part.1),
        stride: twelve(part.2),
    };
    put_part(
        alloc,
        space,
        core,
        NodeId { file: 0, serial },
        &selection,
        bytes,
    )
}

// Whether an edit is refused with an error; where it wants memory or a read failed otherwise, that is the answer.
fn is_refused(answer: Result<(), AdfError>, wanted: AdfError) -> Result<bool, AdfError> {
    match answer {
        Ok(()) => Ok(false),
        Err(AdfError::Memory) => Err(AdfError::Memory),
        Err(AdfError::ReadFault) => Err(AdfError::ReadFault),
        Err(error) => Ok(error == wanted),
    }
}

// Makes an edit, and tells whether it answered as expected.
fn make(alloc: Global, space: &mut Bytes, core: &mut Core, step: Step) -> Result<bool, AdfError> {
    match step {
        Step::Dims { node, dims } => shapes(alloc, space, core, node, dims).map(|()| true),
        Step::NoDims { node, dims, error } => {
            is_refused(shapes(alloc, space, core, node, dims), error)
        }
        Step::All { node, bytes } => fills(alloc, space, core, node, bytes).map(|()| true),
        Step::NoAll { node, bytes, error } => {
            is_refused(fills(alloc, space, core, node, bytes), error)
        }
        Step::Part { node, part, bytes } => parts(alloc, space, core, node, part, bytes).map(
            |()| true,
        ),
        Step::NoPart {
            node,
            part,
            bytes,
            error,
        } => is_refused(parts(alloc, space, core, node, part, bytes), error),
        Step::Put { at, bytes } => Ok(space.put(at, bytes)),
        _ => Ok(true),
    }
}

// Whether the data of a node are these, in so many chunks.
fn reads(
    alloc: Global,
    space: &mut Bytes,
    core: &Core,
    serial: u64,
    chunks: u16,
    are: &[u8],
) -> Result<bool, AdfError> {
    let row = match core.rows.get(serial) {
        Some(row) => row,
        None => return Ok(false),
    };
    if row.place > 1 << 20 || are.len() > 1 << 20 {
        return Err(NOT_CALLED);
    }
    let header = read_header(space, core.wide, row.place)?;
    if header.chunks != chunks {
        return Ok(false);
    }
    let mut runs = Vec::new(alloc);
    let all = Run {
        first: 0,
        count: are.len() as u64,
    };
    if runs.push(all).is_err() {
        return Err(AdfError::Memory);
    }
    let at = DataPlace {
        count: header.chunks,
        pointer: header.chunk,
    };
    let text = read_runs(alloc, space, &at, 1, &Runs::new(runs))?;
    Ok(text.items() == are)
}

// Whether what is expected is so.
fn is_so(alloc: Global, space: &mut Bytes, core: &Core, step: Step) -> Result<bool, AdfError> {
    match step {
        Step::Sound => is_sound(alloc, space, core.heap.end()),
        Step::Bytes { at, are } => Ok(space.holds(at, are)),
        Step::Reads { node, chunks, are } => reads(alloc, space, core, node, chunks, are),
        _ => Ok(true),
    }
}

/// Takes steps up to the first edit that is refused, and stops the test at one that is not as expected.
fn run(
    rt: &impl Abort,
    alloc: Global,
    space: &mut Bytes,
    core: &mut Core,
    steps: &[Step],
) -> Result<(), AdfError> {
    for (i, step) in steps.iter().enumerate() {
        assert!(rt; make(alloc, space, core, *step)?, "at step {i}");
        assert!(rt; is_so(alloc, space, core, *step)?, "at step {i}");
    }
    Ok(())
}

/// Takes steps on the file in one of the versions, within a limit in blocks.
pub fn run_on(
    rt: &impl Abort,
    alloc: Global,
    wide: bool,
    writable: bool,
    limit: u64,
    steps: &[Step],
) -> Result<(), Fail> {
    let mut space = five_nodes(alloc, wide)?;
    let mut core = new_core(alloc, &mut space, wide, writable, limit)?;
    assert!(rt; is_sound(alloc, &space, core.heap.end())?);
    run(rt, alloc, &mut space, &mut core, steps)?;
    Ok(())
}

/// Takes steps on the file in both versions.
pub fn run_both(rt: &impl Abort, alloc: Global, steps: &[Step]) -> Result<(), Fail> {
    run_on(rt, alloc, false, true, 16, steps)?;
    run_on(rt, alloc, true, true, 16, steps)
}

/// Takes steps where the k-th call of the space fails, for want of memory or by a fault: whether it does, and is answered.
pub fn run_failing(
    rt: &impl Abort,
    alloc: Global,
    failing: u64,
    memory: bool,
    steps: &[Step],
) -> Result<bool, Fail> {
    let mut space = five_nodes(alloc, false)?;
    let mut core = new_core(alloc, &mut space, false, true, 16)?;
    space.calls = 0;
    space.failing = failing;
    space.memory = memory;
    match run(rt, alloc, &mut space, &mut core, steps) {
        Ok(()) => {
            assert!(rt; space.calls < failing);
            Ok(false)
        }
        Err(AdfError::Memory) if memory => Ok(true),
        Err(AdfError::ReadFault) => {
            assert!(rt; space.faults == 1, "at call {failing}");
            Ok(true)
        }
        Err(error) => Err(error)?,
    }
}
