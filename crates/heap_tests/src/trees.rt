//! The tree of gaps by itself: gaps that are put in, replaced and taken out, and what was kept of it meanwhile.
use crate::files::Gap;
use crate::steps::are_these;
use adf_chunks::ExtentKind::{Filler, FreeChunk};
use adf_chunks::{Extent, ExtentKind};
use gap_tree::{Slot, Tree};
use std::alloc::{AllocError, Global};
use std::rc::Rc;
use std::test::Fail;

/// A change of a tree, or what is expected where it stands.
#[derive(Clone, Copy)]
enum Step {
    Insert { at: usize, gap: Gap },
    Replace { at: usize, gap: Gap },
    Remove { at: usize },
    /// Where the first free chunk of n bytes or more stands.
    Fit { n: u64, at: Option<usize> },
    Gaps { are: &'static [Gap] },
}

fn slot((place, length, kind): Gap) -> Slot {
    Slot {
        gap: Extent {
            place,
            length,
            kind,
        },
        spot: None,
    }
}

fn tree_of(alloc: Global, gaps: &[Gap]) -> Result<Rc<Tree>, AllocError> {
    let mut slots = Vec::with_capacity(alloc, gaps.len())?;
    for gap in gaps {
        slots.push(slot(*gap))?;
    }
    Tree::of(alloc, &slots)
}

fn has(alloc: Global, tree: &Tree, wanted: &[Gap]) -> Result<bool, AllocError> {
    let mut gaps = Vec::new(alloc);
    tree.append_to(&mut gaps)?;
    Ok(are_these(&gaps, wanted))
}

// The tree after a change, where there is such a gap.
fn changed(alloc: Global, tree: &Tree, step: Step) -> Result<Option<Rc<Tree>>, AllocError> {
    let length = tree.len();
    match step {
        Step::Insert { at, gap } if at <= length => Ok(Some(tree.inserted(alloc, at, slot(gap))?)),
        Step::Replace { at, gap } if at < length => Ok(Some(tree.replaced(alloc, at, slot(gap))?)),
        Step::Remove { at } if at < length => Ok(Some(tree.removed(alloc, at)?)),
        _ => Ok(None),
    }
}

// Whether what is expected is so.
fn is_so(alloc: Global, tree: &Tree, step: Step) -> Result<bool, AllocError> {
    match step {
        Step::Fit { n, at } => Ok(n > 0 && tree.first_fit(n) == at),
        Step::Gaps { are } => has(alloc, tree, are),
        _ => Ok(true),
    }
}

const THREE: [Gap; 3] = [(300, 40, FreeChunk), (400, 9, Filler), (500, 80, FreeChunk)];

const CHANGES: [Step; 17] = [
    Step::Gaps { are: &THREE },
    Step::Fit { n: 40, at: Some(0) },
    Step::Fit { n: 41, at: Some(2) },
    Step::Fit { n: 81, at: None },
    Step::Fit { n: 9, at: Some(0) },
    Step::Insert {
        at: 0,
        gap: (266, 34, FreeChunk),
    },
    Step::Insert {
        at: 4,
        gap: (600, 80, FreeChunk),
    },
    Step::Insert {
        at: 2,
        gap: (350, 33, FreeChunk),
    },
    Step::Fit { n: 34, at: Some(0) },
    Step::Fit { n: 35, at: Some(1) },
    Step::Fit { n: 80, at: Some(4) },
    Step::Replace {
        at: 4,
        gap: (500, 79, FreeChunk),
    },
    Step::Fit { n: 80, at: Some(5) },
    Step::Remove { at: 1 },
    Step::Remove { at: 4 },
    Step::Fit { n: 80, at: None },
    Step::Gaps {
        are: &[
            (266, 34, FreeChunk),
            (350, 33, FreeChunk),
            (400, 9, Filler),
            (500, 79, FreeChunk),
        ],
    },
];

#[test]
fn a_tree_is_changed_and_what_was_kept_is_not(rt: HostRuntime) -> Result<(), Fail> {
    let kept = tree_of(rt.alloc(), &THREE)?;
    let mut tree = kept.clone()?;
    for (i, step) in CHANGES.iter().enumerate() {
        if let Some(next) = changed(rt.alloc(), &tree, *step)? {
            tree = next;
        }
        assert!(rt; is_so(rt.alloc(), &tree, *step)?, "at step {i}");
    }
    assert!(rt; has(rt.alloc(), &kept, &THREE)?);
    Ok(())
}

// A tree of so many gaps, each put in front of the others, or behind them.
fn grown(alloc: Global, count: u64, in_front: bool) -> Result<Rc<Tree>, AllocError> {
    let mut tree = Tree::of(alloc, &[])?;
    for i in 0..count {
        let at = if in_front { 0 } else { tree.len() };
        tree = tree.inserted(alloc, at, slot((i, 1, Filler)))?;
    }
    Ok(tree)
}

// Whether the places of a tree are those that it grew by.
fn stands_in_order(tree: &Tree, in_front: bool) -> bool {
    let count = tree.len();
    for i in 0..count {
        let place = tree.get(i).gap.place as usize;
        let wanted = if in_front { count - 1 - i } else { i };
        if place != wanted {
            return false;
        }
    }
    true
}

// Whether nothing is left once the first gap was taken out again and again.
fn is_emptied(alloc: Global, mut tree: Rc<Tree>) -> Result<bool, AllocError> {
    for _ in 0..tree.len() {
        if tree.len() == 0 {
            return Ok(false);
        }
        tree = tree.removed(alloc, 0)?;
    }
    has(alloc, &tree, &[])
}

#[test]
fn a_tree_that_grows_at_one_side_stays_in_order(rt: HostRuntime) -> Result<(), Fail> {
    for in_front in [false, true] {
        let tree = grown(rt.alloc(), 1000, in_front)?;
        assert!(rt; stands_in_order(&tree, in_front));
        assert!(rt; is_emptied(rt.alloc(), tree)?);
    }
    Ok(())
}
