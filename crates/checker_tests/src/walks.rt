//! What a walk over a table of nodes gives, and what a check prints of it.

ghost use Rattle.std.specs.Prelude.{◌≡◌, IfOk, IfErr};
ghost use Rattle.checker_tests.specs.LinkRules.{link_rules, link_numbers};

use crate::plain_trees::{PlainTrees, Row, Target};
use adf_model::{AdfError, DataType, Format, NodeId, Rules, TreeCalls};
use cg_io::MemorySink;
use cgns_check::{CheckFault, Finder, Walk, check_by};
use sids_rules::Seen;
use std::alloc::Global;

macro_rules! node {
    ($name:expr, $label:expr, $children:expr, $target:expr) => {
        Row {
            name: $name,
            label: $label,
            kind: DataType::Mt,
            dims: &[],
            bytes: None,
            children: &$children,
            target: $target,
        }
    };
}

/// A root with a base, a link to the base, a link that leads nowhere, and a node outside the profile.
const ROWS: [Row<'static>; 11] = [
    node!(
        b"Root",
        b"Root Node of ADF File",
        [1, 2, 3, 4],
        Target::Itself
    ),
    node!(b"Base", b"CGNSBase_t", [5, 6, 7], Target::Itself),
    node!(b"Linked", b"", [], Target::Place(1)),
    node!(b"Lost", b"", [], Target::Nowhere),
    node!(b"Own", b"Unknown_t", [8], Target::Itself),
    node!(b"Zone 1", b"Zone_t", [9], Target::Itself),
    node!(b"Again", b"", [], Target::Place(5)),
    node!(b"Gone", b"", [], Target::Nowhere),
    node!(b"Hidden", b"Zone_t", [], Target::Itself),
    node!(b"Flow", b"FlowSolution_t", [10], Target::Itself),
    node!(b"Field", b"DataArray_t", [], Target::Itself),
];

/// The seen nodes of the table: each path, whether it is a link inside a link, and the places of the
/// base and of the zone above it, 0 for none.
const WALKED: [(&[u8], bool, u64, u64); 17] = [
    (b"/", false, 0, 0),
    (b"/Base", false, 0, 0),
    (b"/Base/Zone%201", false, 1, 0),
    (b"/Base/Zone%201/Flow", false, 1, 5),
    (b"/Base/Zone%201/Flow/Field", false, 1, 5),
    (b"/Base/Again", false, 1, 0),
    (b"/Base/Again/Flow", false, 1, 5),
    (b"/Base/Again/Flow/Field", false, 1, 5),
    (b"/Base/Gone", false, 1, 0),
    (b"/Linked", false, 0, 0),
    (b"/Linked/Zone%201", false, 1, 0),
    (b"/Linked/Zone%201/Flow", false, 1, 5),
    (b"/Linked/Zone%201/Flow/Field", false, 1, 5),
    (b"/Linked/Again", true, 1, 0),
    (b"/Linked/Gone", true, 1, 0),
    (b"/Lost", false, 0, 0),
    (b"/Own", false, 0, 0),
];

const LINES: &[u8] = b"/Base/Gone K01 link
/Linked/Again N01 link-inside-link
/Linked/Gone N01 link-inside-link
/Linked/Gone K01 link
/Lost K01 link
";

/// Of all rules the first: a link that cannot be followed.
#[derive(Drop)]
struct LinkFinder;

impl Finder for LinkFinder {
    ghost rules = { λ _. link_rules };

    ghost recalls = { λ _ _. Unit {0} };

    fn find<C: TreeCalls>(
        &mut self,
        alloc: Global,
        _calls: &mut C,
        seen: &Seen,
    ) -> Result<Rules, AdfError> {
        link_numbers(alloc, seen.target)
    }
}

fn link_numbers(alloc: Global, target: Option<NodeId>) -> Result<Rules, AdfError>
    ensures numbers { IfOk result (λ numbers. numbers ≡ link_numbers target) }
    ensures want { IfErr result (λ e. e ≡ AdfError.Memory) }
{
    let mut numbers = Vec::new(alloc);
    match target {
        Some(_) => Ok(Rules::new(numbers)),
        None => match numbers.push(1) {
            Ok(()) => Ok(Rules::new(numbers)),
            Err(_) => Err(AdfError::Memory),
        },
    }
}

fn place_of(node: Option<NodeId>) -> u64 {
    match node {
        Some(node) => node.serial,
        None => 0,
    }
}

/// The next node of a walk as it is wanted.
fn gives(trees: &mut PlainTrees, walk: &mut Walk, wanted: (&[u8], bool, u64, u64)) -> bool {
    let (path, note, base, zone) = wanted;
    match walk.next(trees) {
        Ok(Some(item)) => {
            item.path.items() == path
                && item.note == note
                && place_of(item.seen.base) == base
                && place_of(item.seen.zone) == zone
        }
        Ok(None) | Err(_) => false,
    }
}

/// Whether a walk gives these nodes, and then none.
fn walks_so(alloc: Global, rows: &[Row], wanted: &[(&[u8], bool, u64, u64)]) -> bool {
    let mut trees = PlainTrees::new(alloc, rows, Format::Little);
    let mut walk = Walk::new(alloc, 0);
    for node in wanted {
        if !gives(&mut trees, &mut walk, *node) {
            return false;
        }
    }
    matches!(walk.next(&mut trees), Ok(None))
}

#[test]
fn a_walk_gives_each_seen_node_once_in_tree_order(rt: HostRuntime) {
    assert!(rt; walks_so(rt.alloc(), &ROWS, &WALKED));
}

/// What a check of the table answers and prints. Of the questions and of the calls of the output one
/// may fail, by its number from 1.
fn is_checked(
    alloc: Global,
    rows: &[Row],
    failing: (u64, u64),
    wanted: Result<u64, CheckFault>,
    text: &[u8],
) -> bool {
    let mut trees = PlainTrees::new(alloc, rows, Format::Little);
    trees.fail_at(failing.0);
    let mut sink = MemorySink::new(alloc);
    sink.fail_at(failing.1);
    let answer = check_by(alloc, &mut trees, 0, &mut LinkFinder, &mut sink);
    answer == wanted && sink.taken() == text
}

/// Each row: the question and the call of the output that fail, what is answered, and how many bytes
/// of the lines are printed.
const CHECKS: [(u64, u64, Result<u64, CheckFault>, usize); 11] = [
    (0, 0, Ok(3), 126),
    (1, 0, Err(CheckFault::Memory), 0),
    (2, 0, Err(CheckFault::Memory), 0),
    (24, 0, Err(CheckFault::Memory), 0),
    (27, 0, Err(CheckFault::Memory), 20),
    (43, 0, Err(CheckFault::Memory), 126),
    (44, 0, Ok(3), 126),
    (0, 1, Err(CheckFault::Sink), 0),
    (0, 2, Err(CheckFault::Sink), 20),
    (0, 3, Err(CheckFault::Sink), 55),
    (0, 5, Ok(3), 126),
];

#[test]
fn a_check_prints_notes_and_findings_up_to_a_failed_call(rt: HostRuntime) {
    for (question, put, wanted, length) in CHECKS {
        let text = LINES.get(..length).unwrap_or(LINES);
        assert!(rt;
            is_checked(rt.alloc(), &ROWS, (question, put), wanted, text),
            "at {question} {put}"
        );
    }
}
