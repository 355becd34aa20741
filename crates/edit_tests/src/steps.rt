//! Edits of a file and what is expected after them, as steps of a table.
//!
//! Each helper makes one call, where its condition holds, and has no clause.
use crate::files::{A, B, C, END, LINK, ROOT, four_nodes};
use adf_chunks::Extents;
use adf_model::{AdfError, NodeId};
use file_heap::Heap;
use std::alloc::Global;
use std::process::Abort;
use std::test::Fail;
use test_spaces::Bytes;
use tree_edits::{Core, Row, Rows, create, link, rename, set_label};
use tree_moves::move_to;

/// An edit, or what is expected where it stands.
#[derive(Clone, Copy)]
pub enum Step {
    Label {
        node: u64,
        label: &'static [u8],
    },
    /// A label that is refused.
    NoLabel {
        node: u64,
        label: &'static [u8],
        error: AdfError,
    },
    Name {
        node: u64,
        name: &'static [u8],
    },
    /// A name that is refused.
    NoName {
        node: u64,
        name: &'static [u8],
        error: AdfError,
    },
    /// A new node, and its serial.
    Child {
        of: u64,
        name: &'static [u8],
        serial: u64,
    },
    /// A new node that is refused.
    NoChild {
        of: u64,
        name: &'static [u8],
        label: &'static [u8],
        error: AdfError,
    },
    /// A new link, and its serial.
    Link {
        of: u64,
        name: &'static [u8],
        file: &'static [u8],
        path: &'static [u8],
        serial: u64,
    },
    /// A new link that is refused.
    NoLink {
        of: u64,
        name: &'static [u8],
        file: &'static [u8],
        path: &'static [u8],
        error: AdfError,
    },
    /// A node that moves below another.
    Move {
        node: u64,
        to: u64,
    },
    /// A move that is refused.
    NoMove {
        node: u64,
        to: u64,
        error: AdfError,
    },
    /// Where a node stands.
    Stands {
        node: u64,
        below: u64,
        depth: u8,
    },
    /// Bytes that are put into the space behind the edits' back.
    Put {
        at: u64,
        bytes: &'static [u8],
    },
    /// Bytes of the space.
    Bytes {
        at: u64,
        are: &'static [u8],
    },
    /// Only bytes in these ranges differ from those of the file as it was made.
    Within {
        ranges: &'static [(u64, u64)],
    },
}

/// Whether a condition of a call does not hold: no call is made then.
const NOT_CALLED: AdfError = AdfError::NotFound;

/// The rows of the file: serial 3 is the link, serial 5 is not live.
const ROWS: [Option<Row>; 6] = [
    Some(Row {
        place: ROOT,
        parent: None,
        depth: 0,
    }),
    Some(Row {
        place: A,
        parent: Some(0),
        depth: 1,
    }),
    Some(Row {
        place: B,
        parent: Some(0),
        depth: 1,
    }),
    Some(Row {
        place: LINK,
        parent: Some(0),
        depth: 1,
    }),
    Some(Row {
        place: C,
        parent: Some(1),
        depth: 2,
    }),
    None,
];

// What is kept in memory of the file.
fn new_core(
    alloc: Global,
    space: &mut Bytes,
    wide: bool,
    writable: bool,
) -> Result<Core, AdfError> {
    let none = Extents::new(Vec::new(alloc));
    let heap = Heap::new(alloc, space, &none, END, 2)?;
    let mut rows = Vec::new(alloc);
    for row in ROWS {
        if rows.push(row).is_err() {
            return Err(AdfError::Memory);
        }
    }
    Ok(Core {
        heap,
        rows: Rows::new(alloc, rows),
        wide,
        writable,
    })
}

fn labels(space: &mut Bytes, core: &Core, serial: u64, label: &[u8]) -> Result<(), AdfError> {
    if !core.rows.are_near(core.wide) {
        return Err(NOT_CALLED);
    }
    set_label(space, core, NodeId { file: 0, serial }, label)
}

fn names(space: &mut Bytes, core: &Core, serial: u64, name: &[u8]) -> Result<(), AdfError> {
    if !core.rows.are_near(core.wide) {
        return Err(NOT_CALLED);
    }
    rename(space, core, NodeId { file: 0, serial }, name, None)
}

fn creates(
    space: &mut Bytes,
    core: &mut Core,
    serial: u64,
    name: &[u8],
    label: &[u8],
) -> Result<u64, AdfError> {
    if !core.rows.are_near(core.wide) {
        return Err(NOT_CALLED);
    }
    create(space, core, NodeId { file: 0, serial }, name, label, None)
}

fn links(
    alloc: Global,
    space: &mut Bytes,
    core: &mut Core,
    serial: u64,
    name: &[u8],
    to: (&[u8], &[u8]),
) -> Result<u64, AdfError> {
    if !core.rows.are_near(core.wide) {
        return Err(NOT_CALLED);
    }
    link(
        alloc,
        space,
        core,
        NodeId { file: 0, serial },
        name,
        to.0,
        to.1,
        None,
    )
}

fn moves(space: &mut Bytes, core: &mut Core, serial: u64, to: u64) -> Result<(), AdfError> {
    if !core.rows.are_near(core.wide) {
        return Err(NOT_CALLED);
    }
    let to = NodeId {
        file: 0,
        serial: to,
    };
    move_to(space, core, NodeId { file: 0, serial }, to, None)
}

// Whether a node stands below another at a depth.
fn stands(core: &Core, serial: u64, below: u64, depth: u8) -> bool {
    match core.rows.get(serial) {
        Some(row) => row.parent == Some(below) && row.depth == depth,
        None => false,
    }
}

// Whether an edit is refused with an error; where it wants memory or a read failed otherwise, that is the answer.
fn is_refused(answer: Result<(), AdfError>, wanted: AdfError) -> Result<bool, AdfError> {
    match answer {
        Ok(()) => Ok(false),
        Err(AdfError::Memory) => Err(AdfError::Memory),
        Err(AdfError::ReadFault) => Err(AdfError::ReadFault),
        Err(error) => Ok(error == wanted),
    }
}

// Makes an edit, and tells whether it answered as expected.
fn make(alloc: Global, space: &mut Bytes, core: &mut Core, step: Step) -> Result<bool, AdfError> {
    match step {
        Step::Label { node, label } => {
            labels(space, core, node, label)?;
            Ok(true)
        }
        Step::NoLabel { node, label, error } => {
            is_refused(labels(space, core, node, label), error)
        }
        Step::Name { node, name } => {
            names(space, core, node, name)?;
            Ok(true)
        }
        Step::NoName { node, name, error } => is_refused(names(space, core, node, name), error),
        Step::Child { of, name, serial } => {
            Ok(creates(space, core, of, name, b"Zone_t")? == serial)
        }
        Step::NoChild {
            of,
            name,
            label,
            error,
        } => match creates(space, core, of, name, label) {
            Ok(_) => Ok(false),
            Err(answer) => is_refused(Err(answer), error),
        },
        Step::Link {
            of,
            name,
            file,
            path,
            serial,
        } => Ok(links(alloc, space, core, of, name, (file, path))? == serial),
        Step::NoLink {
            of,
            name,
            file,
            path,
            error,
        } => match links(alloc, space, core, of, name, (file, path)) {
            Ok(_) => Ok(false),
            Err(answer) => is_refused(Err(answer), error),
        },
        Step::Move { node, to } => {
            moves(space, core, node, to)?;
            Ok(true)
        }
        Step::NoMove { node, to, error } => is_refused(moves(space, core, node, to), error),
        Step::Stands { node, below, depth } => Ok(stands(core, node, below, depth)),
        Step::Put { at, bytes } => Ok(space.put(at, bytes)),
        _ => Ok(true),
    }
}

// Whether what is expected is so.
fn is_so(space: &Bytes, made: &Bytes, step: Step) -> bool {
    match step {
        Step::Bytes { at, are } => space.holds(at, are),
        Step::Within { ranges } => space.differs_within(made, ranges),
        _ => true,
    }
}

/// Takes steps up to the first edit that is refused, and stops the test at one that is not as expected.
fn run(
    rt: &impl Abort,
    alloc: Global,
    space: &mut Bytes,
    made: &Bytes,
    core: &mut Core,
    steps: &[Step],
) -> Result<(), AdfError> {
    for (i, step) in steps.iter().enumerate() {
        assert!(rt; make(alloc, space, core, *step)?, "at step {i}");
        assert!(rt; is_so(space, made, *step), "at step {i}");
    }
    Ok(())
}

/// Takes steps on the file in one of the versions.
pub fn run_on(
    rt: &impl Abort,
    alloc: Global,
    wide: bool,
    writable: bool,
    steps: &[Step],
) -> Result<(), Fail> {
    let mut space = four_nodes(alloc, wide)?;
    let made = space.copy(alloc)?;
    let mut core = new_core(alloc, &mut space, wide, writable)?;
    run(rt, alloc, &mut space, &made, &mut core, steps)?;
    Ok(())
}

/// Takes steps on the file in both versions.
pub fn run_both(rt: &impl Abort, alloc: Global, steps: &[Step]) -> Result<(), Fail> {
    run_on(rt, alloc, false, true, steps)?;
    run_on(rt, alloc, true, true, steps)
}

/// Takes steps where the k-th call of the space fails, for want of memory or by a fault: whether it does, and is answered.
pub fn run_failing(
    rt: &impl Abort,
    alloc: Global,
    failing: u64,
    memory: bool,
    steps: &[Step],
) -> Result<bool, Fail> {
    let mut space = four_nodes(alloc, false)?;
    let made = space.copy(alloc)?;
    let mut core = new_core(alloc, &mut space, false, true)?;
    space.calls = 0;
    space.failing = failing;
    space.memory = memory;
    match run(rt, alloc, &mut space, &made, &mut core, steps) {
        Ok(()) => {
            assert!(rt; space.calls < failing);
            Ok(false)
        }
        Err(AdfError::Memory) if memory => Ok(true),
        Err(AdfError::ReadFault) => {
            assert!(rt; space.faults == 1, "at call {failing}");
            Ok(true)
        }
        Err(error) => Err(error)?,
    }
}
