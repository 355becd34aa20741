// A balanced search tree whose parts are shared.
ghost use Rattle.std.specs.Prelude.{◌≡◌, ◌^◌, ◌≤◌, [], ◌∷◌, ◌++◌, ◌<◌, ◌+◌, length, slice_get, slice_set, insert, remove, Some, IfOk, IfSome, OnOk};
ghost use Rattle.adf_format.specs.HeapRule.{is_fit};
ghost use Rattle.gap_tree.specs.Slots.{IsByPlace, fit_index, count_before, first_slot, rest_slots, has_none, free_length, longest_of, gaps_of};

use crate::slot::Slot;
use adf_format::{Extent, ExtentKind};
use std::alloc::{AllocError, Global};
use std::marker::Model;
use std::rc::Rc;

/// More gaps than any memory has room for.
const MOST: usize = 1 << 62;

/// Slots in a row.
#[cycle(tree)]
#[derive(Drop)]
pub struct Tree {
    node: Node,
}

#[cycle(tree)]
#[derive(Drop)]
enum Node {
    Leaf,
    // Left, the slot, the length of the longest free chunk, the number of slots, the height, right.
    Fork(Rc<Tree>, Slot, u64, usize, u64, Rc<Tree>),
}

impl Model for Tree {
    ghost use Rattle.std.specs.Prelude.{List, length};
    ghost use Rattle.gap_tree.specs.declared.slot.Slot.{Slot};

    ghost Value = { List Slot };

    ghost use Rattle.gap_tree.specs.Nodes.{slots_of_node, IsNode};

    ghost view = { λ t. slots_of_node t.node };

    ghost invariant = { λ t. IsNode t.node };

    ghost size = { length };

    ghost use Rattle.gap_tree.specs.TreeFalls.{depth_le-length-slots};

    ghost size_decreases = { λ t h. depth_le-length-slots t.node };
}

impl Tree {
    /// No slots.
    pub fn new() -> Tree
        ensures { result ≡ [] }
    {
        Tree { node: Node::Leaf }
    }

    /// These slots.
    pub fn of(alloc: Global, slots: &[Slot]) -> Result<Rc<Tree>, AllocError>
        ensures { IfOk result (λ t. t.value ≡ slots.now) }
    {
        let (before, from) = slots.split_at(slots.len() / 2);
        let Some((slot, behind)) = from.split_first() else {
            return empty(alloc);
        };
        let left = Tree::of(alloc, before)?;
        let right = Tree::of(alloc, behind)?;
        fork(alloc, left, *slot, right)
    }

    fn height(&self) -> u64 {
        match &self.node {
            Node::Leaf => 0,
            Node::Fork(_, _, _, _, height, _) => *height,
        }
    }

    // The length of the longest free chunk.
    fn longest(&self) -> u64
        ensures { result ≡ longest_of self.now }
    {
        match &self.node {
            Node::Leaf => 0,
            Node::Fork(_, _, longest, _, _, _) => *longest,
        }
    }

    /// How many slots there are.
    pub fn len(&self) -> usize
        ensures count { result ≡ length self.now }
        ensures few { result ≤ 2 ^ 62 }
    {
        match &self.node {
            Node::Leaf => 0,
            Node::Fork(_, _, _, count, _, _) => *count,
        }
    }

    /// The slot at an index.
    #[tactic(auto, using(crate::proofs::Places::get_left, crate::proofs::Places::get_middle, crate::proofs::Places::get_right, crate::proofs::Places::fork_length))]
    pub fn get(&self, i: usize) -> Slot
        requires { i < length self.now }
        ensures { slice_get self.now i ≡ Some result }
    {
        match &self.node {
            Node::Leaf => unreachable!(),
            Node::Fork(left, slot, _, _, _, right) => {
                let at = left.len();
                if i < at {
                    return left.get(i);
                }
                if at < i {
                    return right.get(i - at - 1);
                }
                *slot
            }
        }
    }

    /// The index of the first free chunk of n bytes or more.
    #[tactic(auto, using(crate::proofs::Fits::fit_left, crate::proofs::Fits::fit_middle, crate::proofs::Fits::fit_right, crate::proofs::Fits::fit_nowhere, crate::proofs::Fits::fit_within, crate::proofs::Places::fork_length))]
    pub fn first_fit(&self, n: u64) -> Option<usize>
        requires { 1 ≤ n }
        ensures first { result ≡ fit_index n self.now }
        ensures few { IfSome result (λ i. i < 2 ^ 62) }
    {
        match &self.node {
            Node::Leaf => None,
            Node::Fork(left, slot, _, _, _, right) => {
                if n <= left.longest() {
                    return left.first_fit(n);
                }
                let at = left.len();
                if is_fit(n, slot.gap) {
                    return Some(at);
                }
                match right.first_fit(n) {
                    None => None,
                    Some(i) => Some(at + i + 1),
                }
            }
        }
    }

    /// How many slots, which stand by place, begin before a place.
    #[tactic(auto, using(crate::proofs::Places::before_left, crate::proofs::Places::before_right, crate::proofs::Places::left_by_place, crate::proofs::Places::right_by_place, crate::proofs::Places::before_within, crate::proofs::Places::fork_length))]
    pub fn count_before(&self, place: u64) -> usize
        requires { IsByPlace self.now }
        ensures count { result ≡ count_before place self.now }
        ensures within { result ≤ length self.now }
        ensures few { result ≤ 2 ^ 62 }
    {
        match &self.node {
            Node::Leaf => 0,
            Node::Fork(left, slot, _, _, _, right) => {
                if place <= slot.gap.place {
                    return left.count_before(place);
                }
                left.len() + right.count_before(place) + 1
            }
        }
    }

    // The first slot.
    fn first(&self) -> Option<Slot>
        ensures { result ≡ first_slot self.now }
    {
        match &self.node {
            Node::Leaf => None,
            Node::Fork(left, slot, _, _, _, _) => match left.first() {
                None => Some(*slot),
                found => found,
            },
        }
    }

    /// All gaps, behind those that are there.
    pub fn append_to(&self, out: &mut Vec<Extent>) -> Result<(), AllocError>
        ensures { OnOk result (out.new.items ≡ out.old.items ++ gaps_of self.now) }
    {
        match &self.node {
            Node::Leaf => Ok(()),
            Node::Fork(left, slot, _, _, _, right) => {
                left.append_to(out)?;
                out.push(slot.gap)?;
                right.append_to(out)
            }
        }
    }

    /// The slots with one more at an index.
    #[tactic(auto, using(crate::proofs::Places::inserted_left, crate::proofs::Places::inserted_right, crate::proofs::Places::fork_length))]
    pub fn inserted(&self, alloc: Global, i: usize, x: Slot) -> Result<Rc<Tree>, AllocError>
        requires { i ≤ length self.now }
        ensures { IfOk result (λ t. t.value ≡ insert self.now i x) }
    {
        match &self.node {
            Node::Leaf => {
                let leaf = Rc::new(alloc, Tree::new())?;
                fork(alloc, leaf.clone()?, x, leaf)
            }
            Node::Fork(left, slot, _, _, _, right) => {
                let at = left.len();
                if i <= at {
                    let left = left.inserted(alloc, i, x)?;
                    return balanced(alloc, left, *slot, right.clone()?);
                }
                let right = right.inserted(alloc, i - at - 1, x)?;
                balanced(alloc, left.clone()?, *slot, right)
            }
        }
    }

    /// The slots with another at an index.
    #[tactic(auto, using(crate::proofs::Places::replaced_left, crate::proofs::Places::replaced_middle, crate::proofs::Places::replaced_right, crate::proofs::Places::fork_length))]
    pub fn replaced(&self, alloc: Global, i: usize, x: Slot) -> Result<Rc<Tree>, AllocError>
        requires { i < length self.now }
        ensures { IfOk result (λ t. t.value ≡ slice_set self.now i x) }
    {
        match &self.node {
            Node::Leaf => unreachable!(),
            Node::Fork(left, slot, _, _, _, right) => {
                let at = left.len();
                if i < at {
                    let left = left.replaced(alloc, i, x)?;
                    return fork(alloc, left, *slot, right.clone()?);
                }
                if at < i {
                    let right = right.replaced(alloc, i - at - 1, x)?;
                    return fork(alloc, left.clone()?, *slot, right);
                }
                fork(alloc, left.clone()?, x, right.clone()?)
            }
        }
    }

    /// The slots without the one at an index.
    #[tactic(auto, using(crate::proofs::Places::removed_left, crate::proofs::Places::removed_middle, crate::proofs::Places::removed_right, crate::proofs::Places::fork_length))]
    pub fn removed(&self, alloc: Global, i: usize) -> Result<Rc<Tree>, AllocError>
        requires { i < length self.now }
        ensures { IfOk result (λ t. t.value ≡ remove self.now i) }
    {
        match &self.node {
            Node::Leaf => unreachable!(),
            Node::Fork(left, slot, _, _, _, right) => {
                let at = left.len();
                if i < at {
                    let left = left.removed(alloc, i)?;
                    return balanced(alloc, left, *slot, right.clone()?);
                }
                if at < i {
                    let right = right.removed(alloc, i - at - 1)?;
                    return balanced(alloc, left.clone()?, *slot, right);
                }
                joined(alloc, left, right)
            }
        }
    }

    // The slots without the first.
    fn without_first(&self, alloc: Global) -> Result<Rc<Tree>, AllocError>
        ensures { IfOk result (λ t. t.value ≡ rest_slots self.now) }
    {
        match &self.node {
            Node::Leaf => empty(alloc),
            Node::Fork(left, slot, _, _, _, right) => {
                if left.is_empty() {
                    return right.clone();
                }
                let left = left.without_first(alloc)?;
                balanced(alloc, left, *slot, right.clone()?)
            }
        }
    }

    fn is_empty(&self) -> bool
        ensures { result ≡ has_none self.now }
    {
        match &self.node {
            Node::Leaf => true,
            Node::Fork(..) => false,
        }
    }
}

fn empty(alloc: Global) -> Result<Rc<Tree>, AllocError>
    ensures { IfOk result (λ t. t.value ≡ []) }
{
    let tree = Rc::new(alloc, Tree::new())?;
    Ok(tree)
}

fn free_length(gap: Extent) -> u64
    ensures { result ≡ free_length gap }
{
    match gap.kind {
        ExtentKind::FreeChunk => gap.length,
        _ => 0,
    }
}

fn is_fit(n: u64, gap: Extent) -> bool
    ensures { result ≡ is_fit n gap }
{
    match gap.kind {
        ExtentKind::FreeChunk => n <= gap.length,
        _ => false,
    }
}

// A tree of two sides and what stands between them.
#[tactic(auto, using(crate::proofs::Fits::longest_fork, crate::proofs::Places::fork_length))]
fn fork(alloc: Global, left: Rc<Tree>, slot: Slot, right: Rc<Tree>) -> Result<Rc<Tree>, AllocError>
    ensures { IfOk result (λ t. t.value ≡ left.value ++ slot ∷ right.value) }
{
    let count = left.len() + right.len() + 1;
    if count > MOST {
        return Err(AllocError);
    }
    let longest = free_length(slot.gap).max(left.longest().max(right.longest()));
    let height = left.height().max(right.height()).saturating_add(1);
    let tree = Tree {
        node: Node::Fork(left, slot, longest, count, height, right),
    };
    let shared = Rc::new(alloc, tree)?;
    Ok(shared)
}

// The same, where one side may have become higher or lower by one.
fn balanced(
    alloc: Global,
    left: Rc<Tree>,
    slot: Slot,
    right: Rc<Tree>,
) -> Result<Rc<Tree>, AllocError>
    ensures { IfOk result (λ t. t.value ≡ left.value ++ slot ∷ right.value) }
{
    let (l, r) = (left.height(), right.height());
    if l > r.saturating_add(1) {
        return lean_left(alloc, &left, slot, right);
    }
    if r > l.saturating_add(1) {
        return lean_right(alloc, left, slot, &right);
    }
    fork(alloc, left, slot, right)
}

// The same, where the left side is higher by two.
fn lean_left(
    alloc: Global,
    left: &Rc<Tree>,
    slot: Slot,
    right: Rc<Tree>,
) -> Result<Rc<Tree>, AllocError>
    ensures { IfOk result (λ t. t.value ≡ left.now.value ++ slot ∷ right.value) }
{
    match &left.node {
        Node::Leaf => fork(alloc, left.clone()?, slot, right),
        Node::Fork(x, j, _, _, _, y) => {
            if x.height() >= y.height() {
                let inner = fork(alloc, y.clone()?, slot, right)?;
                return fork(alloc, x.clone()?, *j, inner);
            }
            match &y.node {
                Node::Leaf => fork(alloc, left.clone()?, slot, right),
                Node::Fork(u, i, _, _, _, v) => {
                    let low = fork(alloc, x.clone()?, *j, u.clone()?)?;
                    let high = fork(alloc, v.clone()?, slot, right)?;
                    fork(alloc, low, *i, high)
                }
            }
        }
    }
}

// The same, where the right side is higher by two.
fn lean_right(
    alloc: Global,
    left: Rc<Tree>,
    slot: Slot,
    right: &Rc<Tree>,
) -> Result<Rc<Tree>, AllocError>
    ensures { IfOk result (λ t. t.value ≡ left.value ++ slot ∷ right.now.value) }
{
    match &right.node {
        Node::Leaf => fork(alloc, left, slot, right.clone()?),
        Node::Fork(y, j, _, _, _, x) => {
            if x.height() >= y.height() {
                let inner = fork(alloc, left, slot, y.clone()?)?;
                return fork(alloc, inner, *j, x.clone()?);
            }
            match &y.node {
                Node::Leaf => fork(alloc, left, slot, right.clone()?),
                Node::Fork(u, i, _, _, _, v) => {
                    let low = fork(alloc, left, slot, u.clone()?)?;
                    let high = fork(alloc, v.clone()?, *j, x.clone()?)?;
                    fork(alloc, low, *i, high)
                }
            }
        }
    }
}

// The slots of two sides, with nothing between them.
fn joined(alloc: Global, left: &Rc<Tree>, right: &Rc<Tree>) -> Result<Rc<Tree>, AllocError>
    ensures { IfOk result (λ t. t.value ≡ left.now.value ++ right.now.value) }
{
    match right.first() {
        None => left.clone(),
        Some(first) => {
            let rest = right.without_first(alloc)?;
            balanced(alloc, left.clone()?, first, rest)
        }
    }
}
