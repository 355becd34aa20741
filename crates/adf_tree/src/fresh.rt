//! The fresh file: what is written, and what is kept of it in memory.

ghost use Rattle.std.specs.Prelude.{◌≡◌, ◌^◌, ◌≤◌, [], ◌∷◌, length, true, false, Some, None, IfErr, IfOk, IfSome, OnOk};
ghost use Rattle.std.specs.Option.{option_map};
ghost use Rattle.adf_format.specs.Fresh.{fresh_text, fresh_block, fresh_end, fresh_placement};
ghost use Rattle.adf_format.specs.LaysOut.{ThreadsFreeChunks};
ghost use Rattle.adf_format.specs.Tree.{fresh_tree};
ghost use Rattle.cg_io.specs.Answers.{AnswersRead, AnswersWrite, IsRefusal, IsUntold};
ghost use Rattle.cg_io.specs.Blocks.{ReadsFew};
ghost use Rattle.file_heap.specs.Heap.{IsThreaded};
ghost use Rattle.tree_edits.specs.Edits.{memory_of};
ghost use Rattle.tree_edits.specs.Rows.{Means};
ghost use Rattle.adf_tree.specs.Fresh.{IsFreshCause, IsFreshCore, fresh_error};

use adf_chunks::Extents;
use adf_model::AdfError;
use cg_io::{Space, write_bytes};
use file_heap::Heap;
use std::alloc::Global;
use tree_edits::{Core, Row, Rows};

#[tactic(auto, unfolding(adf_format::specs::Fresh::fresh_text, adf_format::specs::Records::header_text, adf_format::specs::Records::free_table_text, adf_format::specs::Records::node_text))]
fn narrow_text() -> &'static [u8; 512]
    ensures { result.now ≡ fresh_text false }
{
    b"@(#)ADF Database Version A02007>AdF0                            AdF1                            AdF2LLAdF3000000000000000000000000AdF400000000010A0000000001FF0000000000BA000000001000AdF5fCbt000000001000000000001000000000001000000000001000000000001000000000001000FcteNoDeADF MotherNode                  Root Node of ADF File           0000000000000000000000001000MT                              000000000000000000000000000000000000000000000000000000000000000000000000000000000000000000000000000000000000001000TaiL"
}

#[tactic(auto, unfolding(adf_format::specs::Fresh::fresh_text, adf_format::specs::Records::header_text, adf_format::specs::Records::free_table_text, adf_format::specs::Records::node_text))]
fn wide_text() -> &'static [u8; 608]
    ensures { result.now ≡ fresh_text true }
{
    b"@(#)ADF Database Version W02007>AdF0                            AdF1                            AdF2LLAdF3000000000000000000000000AdF400000000010A00000000025F0000000000BA000000001000AdF5fCbt000000001000000000001000000000001000000000001000000000001000000000001000FcteNoDeADF MotherNode                  Root Node of ADF File           0000000000000000000000001000MT                              000000000000000000000000000000000000000000000000000000000000000000000000000000000000000000000000000000000000000000000000000000000000000000000000000000000000000000000000000000000000000000000000000000000000001000TaiL"
}

#[tactic(auto, unfolding(adf_format::specs::Fresh::fresh_block))]
fn narrow_block() -> [u8; 4096]
    ensures { result ≡ fresh_block false }
{
    let mut block = [0u8; 4096];
    block[..512].copy_from_slice(narrow_text());
    block
}

#[tactic(auto, unfolding(adf_format::specs::Fresh::fresh_block))]
fn wide_block() -> [u8; 4096]
    ensures { result ≡ fresh_block true }
{
    let mut block = [0u8; 4096];
    block[..608].copy_from_slice(wide_text());
    block
}

/// The first block of the fresh file.
pub(crate) fn first_block(wide: bool) -> [u8; 4096]
    ensures { result ≡ fresh_block wide }
{
    if wide { wide_block() } else { narrow_block() }
}

// The last byte of the fresh file.
fn last_byte(wide: bool) -> u64
    ensures { result ≡ fresh_end wide }
{
    if wide { 607 } else { 511 }
}

// The root of the fresh file.
fn fresh_rows(alloc: Global) -> Result<Rows, AdfError>
    ensures rows { IfOk result (λ rows. rows ≡ record {
      items = Some
          (record { place = 266; parent = None; depth = 0 }) ∷ [];
      kept = Some
          (record { place = 266; parent = None; depth = 0 }) ∷ [];
    }) }
    ensures cause { IfErr result (λ e. e ≡ AdfError.Memory) }
{
    let mut rows = Vec::new(alloc);
    let root = Row {
        place: 266,
        parent: None,
        depth: 0,
    };
    match rows.push(Some(root)) {
        Ok(()) => Ok(Rows::new(alloc, rows)),
        Err(_) => Err(AdfError::Memory),
    }
}

// The refusal of the lists of a fresh file: bytes that are not what was written are not those of an empty device.
fn fresh_error(error: AdfError) -> AdfError
    ensures { result ≡ fresh_error error }
{
    match error {
        AdfError::Layout { .. } => AdfError::NotEmpty,
        error => error,
    }
}

fn no_gaps(alloc: Global) -> Extents
    ensures { result ≡ [] }
{
    Extents::new(Vec::new(alloc))
}

// The free space of the fresh file, which has no gap.
fn fresh_heap<S: Space>(
    alloc: Global,
    space: &mut S,
    wide: bool,
    limit: u64,
) -> Result<Heap, AdfError>
    requires sound { S.is_sound space.old }
    requires limit { (1 ≤ limit) × (limit ≤ 2 ^ 32) }
    requires threads { IfSome (S.image space.old) (λ bytes. ThreadsFreeChunks bytes []) }
    ensures heap { IfOk result (λ heap. heap.work.heap
        ≡ record { gaps = []; end = fresh_end wide }) }
    ensures accepted { IfOk result (λ heap. heap.kept ≡ heap.work) }
    ensures limit { IfOk result (λ heap. heap.limit ≡ limit) }
    ensures threads { IfOk result (λ heap. IfSome (S.image space.new) (IsThreaded heap.work)) }
    ensures reads { AnswersRead S.is_sound S.image S.state S.waiting (ReadsFew 6)
        (IsFreshCause (IsUntold (S.image space.old))) space.old space.new result }
{
    let gaps = no_gaps(alloc);
    match Heap::new(alloc, space, &gaps, last_byte(wide), limit) {
        Ok(heap) => Ok(heap),
        Err(error) => Err(fresh_error(error)),
    }
}

// Writes the bytes of the fresh file to a space that is empty.
fn write_fresh<S: Space>(space: &mut S, wide: bool) -> Result<(), AdfError>
    requires sound { S.is_sound space.old }
    requires empty { IfSome (S.image space.old) (λ bytes. bytes ≡ []) }
    ensures image { OnOk result (S.image space.new
        ≡ option_map (λ none. fresh_block wide) (S.image space.old)) }
    ensures writes { AnswersWrite S.is_sound S.state S.waiting 1 (ReadsFew 1) (IsRefusal ⊥)
        space.old space.new result }
{
    let block = first_block(wide);
    write_bytes(space, 0, &block)
}

/// Writes the fresh file to a space that is empty: what is kept of it in memory.
pub(crate) fn fresh_core<S: Space>(
    alloc: Global,
    space: &mut S,
    wide: bool,
    limit: u64,
) -> Result<Core, AdfError>
    requires sound { S.is_sound space.old }
    requires limit { (1 ≤ limit) × (limit ≤ 2 ^ 32) }
    requires empty { IfSome (S.image space.old) (λ bytes. bytes ≡ []) }
    ensures core { IfOk result (IsFreshCore wide limit) }
    ensures image { OnOk result (S.image space.new
        ≡ option_map (λ none. fresh_block wide) (S.image space.old)) }
    ensures means { IfOk result (λ core. IfSome (S.image space.new)
        (λ image. Means image (fresh_tree wide) (fresh_placement wide) (memory_of core))) }
    ensures writes { AnswersWrite S.is_sound S.state S.waiting 1 (ReadsFew 7)
        (IsFreshCause (IsUntold (S.image space.old))) space.old space.new result }
{
    let rows = match fresh_rows(alloc) {
        Ok(rows) => rows,
        Err(error) => return Err(error),
    };
    match write_fresh(space, wide) {
        Ok(()) => {}
        Err(error) => return Err(error),
    }
    match fresh_heap(alloc, space, wide, limit) {
        Ok(heap) => Ok(Core {
            heap,
            rows,
            wide,
            writable: true,
        }),
        Err(error) => Err(error),
    }
}
