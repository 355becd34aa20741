//! The text of a data chunk.

ghost use Rattle.std.specs.Prelude.{◌≡◌, ◌++◌, ◌^◌, ◌+◌, ◌≤◌, length, IfErr, IfOk, OnOk};
ghost use Rattle.adf_format.specs.HeapRule.{chunk_length_for};
ghost use Rattle.adf_model.specs.declared.error.AdfError.{AdfError};
ghost use Rattle.tree_edits.specs.Linked.{chunk_text};

use adf_chunks::{Part, encode_head, tail};
use adf_model::AdfError;
use disk_ptr::from_place;
use std::alloc::Global;

/// How many bytes a chunk has for so many of data.
pub(crate) fn chunk_length(size: usize) -> u64
    requires { size ≤ 4096 }
    ensures { result ≡ chunk_length_for size }
{
    (20 + size as u64).max(32)
}

// More of a text.
fn put(text: &mut Vec<u8>, more: &[u8]) -> Result<(), AdfError>
    ensures text { OnOk result (text.new.items ≡ text.old.items ++ more.now) }
    ensures cause { IfErr result (λ e. e ≡ AdfError.Memory) }
{
    match text.extend_from_slice(more) {
        Ok(()) => Ok(()),
        Err(_) => Err(AdfError::Memory),
    }
}

/// The text of a chunk at a place that has some data, with zeros behind them where they are short.
pub(crate) fn chunk_text(alloc: Global, place: u64, payload: &[u8]) -> Result<Vec<u8>, AdfError>
    requires few { length payload.now ≤ 4096 }
    requires near { place + chunk_length_for (length payload.now) ≤ 2 ^ 44 }
    ensures text { IfOk result (λ text. text.items ≡ chunk_text place payload.now) }
    ensures cause { IfErr result (λ e. e ≡ AdfError.Memory) }
{
    let end = place + chunk_length(payload.len()) - 4;
    let short = 12 - payload.len().min(12);
    let zeros = [0u8; 12];
    let mut text = Vec::new(alloc);
    match put(&mut text, &encode_head(Part::Data, from_place(end))) {
        Ok(()) => {}
        Err(error) => return Err(error),
    }
    match put(&mut text, payload) {
        Ok(()) => {}
        Err(error) => return Err(error),
    }
    match put(&mut text, &zeros[..short]) {
        Ok(()) => {}
        Err(error) => return Err(error),
    }
    match put(&mut text, &tail(Part::Data)) {
        Ok(()) => Ok(text),
        Err(error) => Err(error),
    }
}
