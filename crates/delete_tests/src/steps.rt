//! Deletions and what is expected after them, as steps of a table.
//!
//! Each helper makes one call, where its condition holds, and has no clause.
use crate::files::{nine_nodes, places, rows};
use adf_chunks::Extents;
use adf_model::{AdfError, Listing, NodeId};
use block_cache::BlockCache;
use cg_io::{MemoryDevice, ReadBytes};
use file_heap::Heap;
use layout_lint::{Verdict, lint};
use std::alloc::Global;
use std::process::Abort;
use std::test::Fail;
use test_spaces::Bytes;
use tree_asks::Hints;
use tree_deletes::delete;
use tree_edits::{Core, Rows};

/// A deletion, or what is expected where it stands.
#[derive(Clone, Copy)]
pub enum Step {
    Delete {
        node: u64,
    },
    /// A deletion that is refused.
    NoDelete {
        node: u64,
        error: AdfError,
    },
    /// Whether the node of a serial has a row.
    Has {
        node: u64,
        row: bool,
    },
    /// Bytes that are put into a part behind the deletions' back.
    Put {
        part: usize,
        offset: u64,
        bytes: &'static [u8],
    },
    /// Bytes of a part.
    Bytes {
        part: usize,
        offset: u64,
        are: &'static [u8],
    },
    /// The file is sound, with so many nodes and gaps.
    Sound {
        nodes: usize,
        gaps: usize,
    },
}

/// A file, what is kept of it in memory, and where its parts stood.
#[derive(Drop)]
pub struct Opened {
    pub space: Bytes,
    core: Core,
    hints: Hints,
    at: [u64; 19],
    alloc: Global,
}

/// Whether a condition of a call does not hold: no call is made then.
const NOT_CALLED: AdfError = AdfError::NotFound;

/// The file in one of the versions.
pub fn open(alloc: Global, wide: bool, writable: bool) -> Result<Opened, Fail> {
    let mut space = nine_nodes(alloc, wide)?;
    let at = places(wide);
    let none = Extents::new(Vec::new(alloc));
    if at[18] < 1000 || at[18] > 8192 {
        return Err("no such file")?;
    }
    let heap = Heap::new(alloc, &mut space, &none, at[18] - 1, 2)?;
    let rows = Rows::new(alloc, rows(alloc, wide)?);
    let hints = Hints::new(alloc, &rows)?;
    let core = Core {
        heap,
        rows,
        wide,
        writable,
    };
    Ok(Opened {
        space,
        core,
        hints,
        at,
        alloc,
    })
}

impl Opened {
    fn deletes(&mut self, serial: u64) -> Result<(), AdfError> {
        if !self.core.rows.are_near(self.core.wide) {
            return Err(NOT_CALLED);
        }
        delete(
            self.alloc,
            &mut self.space,
            &mut self.core,
            &self.hints,
            NodeId { file: 0, serial },
        )
    }

    /// What is in memory is as it was when the file was opened.
    pub fn undo(&mut self) {
        self.core.rows.undo();
        self.core.heap.undo();
    }

    // Where a byte of a part stood.
    fn place(&self, part: usize, offset: u64) -> u64 {
        if part < 19 {
            self.at[part].saturating_add(offset)
        } else {
            0
        }
    }

    // The bytes as they stand, in a device.
    fn device(&mut self) -> Result<MemoryDevice, AdfError> {
        let mut bytes: Vec<u8> = Vec::new(self.alloc);
        if bytes.resize(self.at[18].min(8192) as usize, 0).is_err() {
            return Err(AdfError::Memory);
        }
        match self.space.read(0, &mut bytes) {
            Ok(()) => Ok(MemoryDevice::new(self.alloc, Listing::new(bytes))),
            Err(_) => Err(AdfError::ReadFault),
        }
    }

    // How many nodes and gaps the bytes have.
    fn linted(&mut self) -> Result<(usize, usize), AdfError> {
        let device = self.device()?;
        match BlockCache::new(self.alloc, device, 1) {
            Ok(mut blocks) => match lint(self.alloc, &mut blocks)? {
                Verdict::Sound { nodes, gaps, .. } => {
                    Ok((nodes.items().len(), gaps.items().len()))
                }
                Verdict::Unsound { rule, place } => Err(AdfError::Layout { rule, place }),
            },
            Err((error, _)) => Err(error),
        }
    }

    // Takes a step, and tells whether it is as expected.
    fn take(&mut self, step: Step) -> Result<bool, AdfError> {
        match step {
            Step::Delete { node } => {
                self.deletes(node)?;
                Ok(true)
            }
            Step::NoDelete { node, error } => match self.deletes(node) {
                Ok(()) => Ok(false),
                Err(answer) => Ok(answer == error),
            },
            Step::Has { node, row } => Ok(self.core.rows.get(node).is_some() == row),
            Step::Put {
                part,
                offset,
                bytes,
            } => {
                let at = self.place(part, offset);
                Ok(self.space.put(at, bytes))
            }
            Step::Bytes { part, offset, are } => {
                Ok(self.space.holds(self.place(part, offset), are))
            }
            Step::Sound { nodes, gaps } => Ok(self.linted()? == (nodes, gaps)),
        }
    }

    /// Takes steps up to the first deletion that is refused, and stops the test at one that is not as expected.
    pub fn run(&mut self, rt: &impl Abort, steps: &[Step]) -> Result<(), AdfError> {
        for (i, step) in steps.iter().enumerate() {
            assert!(rt; self.take(*step)?, "at step {i}");
        }
        Ok(())
    }
}

/// Takes steps on the file in both versions.
pub fn run_both(rt: &impl Abort, alloc: Global, steps: &[Step]) -> Result<(), Fail> {
    open(alloc, false, true)?.run(rt, steps)?;
    open(alloc, true, true)?.run(rt, steps)?;
    Ok(())
}
