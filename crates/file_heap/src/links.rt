// Pointers to free chunks in a space.
ghost use Rattle.std.specs.Prelude.{◌≡◌, ℕ, ◌∷◌, [], ◌^◌, ◌+◌, ◌≤◌, IfOk, IfErr, OnOk};
ghost use Rattle.cg_io.specs.Blocks.{Both, ReadsFew};
ghost use Rattle.cg_io.specs.Answers.{IsRefusal};
ghost use Rattle.cg_io.specs.Waits.{how_many};
ghost use Rattle.disk_ptr.specs.View.{view, HasOffset};
ghost use Rattle.adf_format.specs.Pointer.{pointer_text};
ghost use Rattle.adf_format.specs.Spelled.{pointer_to, IsInReach};
ghost use Rattle.adf_format.specs.Changes.{Writes};
ghost use Rattle.field_access.specs.Fields.{WaitsWithin};
ghost use Rattle.file_heap.specs.Links.{link_at, Follows, PointsNowhere, HasHead, range, number_of};
ghost use Rattle.adf_format.specs.RuleNumbers.{IsRule};
ghost use Rattle.file_heap.specs.Heap.{ChangesOnly};

use adf_format::fields::{
    FREE_TABLE_LENGTH, FREE_TABLE_PLACE, LARGE_FIRST, MEDIUM_FIRST, SMALL_FIRST,
};
use adf_model::AdfError;
use cg_io::Space;
use disk_ptr::{DiskPtr, from_place, place as place_named};
use field_access::{read_pointer, write_pointer};
use gap_tree::Class;

/// The pointer to a place, or the blank one.
pub(crate) fn pointer_of(place: Option<u64>) -> DiskPtr
    requires { IsInReach place }
    ensures view { view result ≡ pointer_to place }
    ensures offset { HasOffset result }
{
    match place {
        None => DiskPtr::Blank,
        Some(place) => from_place(place),
    }
}

// The place that a pointer names, or none where it is blank.
fn place_of(pointer: DiskPtr) -> Option<u64>
    requires { HasOffset pointer }
    ensures place { pointer_to result ≡ view pointer }
    ensures reach { IsInReach result }
{
    place_named(pointer)
}

/// Where the pointer to the first of a list stands.
pub(crate) fn first_at(list: Class) -> u64
    ensures place { result ≡ link_at (number_of list) None }
    ensures table { result + 24 ≤ 262 }
{
    match list {
        Class::Small => (FREE_TABLE_PLACE + SMALL_FIRST.offset) as u64,
        Class::Medium => (FREE_TABLE_PLACE + MEDIUM_FIRST.offset) as u64,
        Class::Large => (FREE_TABLE_PLACE + LARGE_FIRST.offset) as u64,
    }
}

/// Where the pointer to the chunk behind another stands, or the pointer to the first of the list.
pub(crate) fn link_at(list: Class, front: Option<u64>) -> u64
    requires { HasHead front }
    ensures place { result ≡ link_at (number_of list) front }
    ensures within { result + 12 ≤ 2 ^ 44 }
{
    match front {
        None => first_at(list),
        Some(front) => front + 16,
    }
}

/// Writes the pointer to a free chunk, or the blank one.
#[tactic(auto, using(crate::proofs::Waiting::few_blocks, crate::proofs::Waiting::one_block))]
pub(crate) fn write_link<S: Space>(
    space: &mut S,
    at: u64,
    next: Option<u64>,
) -> Result<(), AdfError>
    requires sound { S.is_sound space.old }
    requires within { at + 12 ≤ 2 ^ 44 }
    requires reach { IsInReach next }
    ensures sound { S.is_sound space.new }
    ensures written { OnOk result (Both (Writes at (pointer_text (pointer_to next)))
        (S.image space.old) (S.image space.new)) }
    ensures bytes { Both (ChangesOnly (range at 12 ∷ [])) (S.image space.old) (S.image space.new) }
    ensures only { WaitsWithin (range at 12 ∷ []) (S.waiting space.old)
        (S.waiting space.new) }
    ensures effect { ReadsFew 2 (S.state space.old) (S.state space.new) }
    ensures waiting { how_many (S.waiting space.new) ≤ how_many (S.waiting space.old) + 2 }
    ensures near { at + 12 ≤ 4096 → how_many (S.waiting space.new)
        ≤ how_many (S.waiting space.old) + 1 }
    ensures cause { IfErr result (IsRefusal ⊥ (S.state space.old).faults
        (S.state space.new).faults) }
{
    write_pointer(space, at, pointer_of(next))
}

// What stands in the free table or in a free chunk is no pointer.
fn no_pointer(at: u64) -> AdfError
    ensures { (rule : ℕ) × IsRule rule × (result ≡ AdfError.Layout rule at) }
{
    AdfError::Layout {
        rule: if at < (FREE_TABLE_PLACE + FREE_TABLE_LENGTH) as u64 {
            10
        } else {
            29
        },
        place: at,
    }
}

/// The free chunk that a pointer names, or none where it is blank.
#[tactic(auto, using(crate::proofs::Images::follows, crate::proofs::Images::points_nowhere, crate::proofs::Waiting::few_blocks))]
pub(crate) fn read_link<S: Space>(space: &mut S, at: u64) -> Result<Option<u64>, AdfError>
    requires sound { S.is_sound space.old }
    requires within { at + 12 ≤ 2 ^ 44 }
    ensures sound { S.is_sound space.new }
    ensures image { S.image space.new ≡ S.image space.old }
    ensures told { IfOk result (Follows (S.image space.old) at) }
    ensures reach { IfOk result IsInReach }
    ensures effect { ReadsFew 2 (S.state space.old) (S.state space.new) }
    ensures waiting { S.waiting space.new ≡ S.waiting space.old }
    ensures cause { IfErr result (IsRefusal (PointsNowhere (S.image space.old) at)
        (S.state space.old).faults (S.state space.new).faults) }
{
    match read_pointer(space, at) {
        Ok(Some(pointer)) => Ok(place_of(pointer)),
        Ok(None) => Err(no_pointer(at)),
        Err(_) => Err(AdfError::ReadFault),
    }
}
