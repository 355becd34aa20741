// The lists of free chunks are read, once.
ghost use Rattle.std.specs.Prelude.{◌≡◌, ◌+◌, ◌-◌, ◌*◌, ◌≤◌, IfOk, IfErr, IfSome, length};
ghost use Rattle.cg_io.specs.Blocks.{ReadsFew};
ghost use Rattle.cg_io.specs.Answers.{IsRefusal, IsUntold};
ghost use Rattle.adf_format.specs.LaysOut.{ThreadsFreeChunks};
ghost use Rattle.adf_model.specs.declared.error.AdfError.{AdfError};
ghost use Rattle.gap_tree.specs.Slots.{gaps_of};
ghost use Rattle.file_heap.specs.Links.{AreGaps, number_of};
ghost use Rattle.file_heap.specs.Slots.{HasReadBelow};

use crate::links::{first_at, link_at, read_link};
use crate::lists::LAST_HEAD;
use crate::slots::{move_to, or_memory};
use adf_chunks::Extent;
use adf_model::AdfError;
use cg_io::Space;
use gap_tree::{Class, Slot, Spot, Tree};
use std::alloc::Global;
use std::rc::Rc;

/// Slots of which some lists were read, and how many chunks these have.
#[derive(Drop)]
pub(crate) struct Reading {
    pub(crate) slots: Rc<Tree>,
    pub(crate) chunks: usize,
}

/// Gaps of which no list was read.
pub(crate) fn unread(alloc: Global, gaps: &[Extent]) -> Result<Reading, AdfError>
    ensures gaps { IfOk result (λ read. gaps_of read.slots.value ≡ gaps.now) }
    ensures none { IfOk result (λ read. read.chunks ≡ 0) }
    ensures cause { IfErr result (λ e. e ≡ AdfError.Memory) }
{
    let mut slots = Vec::new(alloc);
    for gap in gaps {
        let slot = Slot {
            gap: *gap,
            spot: None,
        };
        if slots.push(slot).is_err() {
            return Err(AdfError::Memory);
        }
    }
    let slots = or_memory(Tree::of(alloc, &slots))?;
    Ok(Reading { slots, chunks: 0 })
}

/// Reads the spots of the chunks of a list: each of its pointers once.
#[tactic(auto, using(crate::proofs::ReadLaws::walk_starts, crate::proofs::ReadLaws::walk_ends, crate::proofs::ReadLaws::walk_reads, crate::proofs::ReadLaws::walk_near, crate::proofs::ReadLaws::walk_finds, crate::proofs::ReadLaws::walk_is_short, crate::proofs::SlotLaws::gaps_length))]
pub(crate) fn read_list<S: Space>(
    space: &mut S,
    alloc: Global,
    read: &Reading,
    list: Class,
) -> Result<Reading, AdfError>
    requires sound { S.is_sound space.old }
    requires gaps { AreGaps (gaps_of read.now.slots.value) }
    requires few { read.now.chunks ≤ length read.now.slots.value }
    requires threads { IfSome (S.image space.old)
        (λ bytes. ThreadsFreeChunks bytes (gaps_of read.now.slots.value)) }
    requires before { IfSome (S.image space.old)
        (HasReadBelow (number_of list) (gaps_of read.now.slots.value) read.now.slots.value
        read.now.chunks) }
    ensures sound { S.is_sound space.new }
    ensures image { S.image space.new ≡ S.image space.old }
    ensures gaps { IfOk result (λ more. gaps_of more.slots.value ≡ gaps_of read.now.slots.value) }
    ensures chunks { IfOk result (λ more. (read.now.chunks ≤ more.chunks)
        × (more.chunks ≤ length read.now.slots.value)) }
    ensures read { IfOk result (λ more. IfSome (S.image space.old)
        (HasReadBelow (number_of list + 1) (gaps_of read.now.slots.value) more.slots.value
        more.chunks)) }
    ensures once { IfOk result (λ more. ReadsFew (2 * (more.chunks - read.now.chunks + 1))
        (S.state space.old) (S.state space.new)) }
    ensures effect { ReadsFew (2 * (length read.now.slots.value - read.now.chunks + 1))
        (S.state space.old) (S.state space.new) }
    ensures waiting { S.waiting space.new ≡ S.waiting space.old }
    ensures cause { IfErr result (IsRefusal (IsUntold (S.image space.old))
        (S.state space.old).faults (S.state space.new).faults) }
{
    let mut slots = or_memory(read.slots.clone())?;
    let mut front = None;
    for chunks in read.chunks..slots.len() + 1 {
        let Some(next) = read_link(space, link_at(list, front))? else {
            return Ok(Reading { slots, chunks });
        };
        if next > LAST_HEAD {
            return Err(AdfError::Layout {
                rule: 29,
                place: next,
            });
        }
        slots = move_to(alloc, &slots, Some(next), Spot { list, front })?;
        front = Some(next);
    }
    Err(AdfError::Layout {
        rule: 30,
        place: first_at(list),
    })
}
