//! Dimensions in a token.

ghost use Rattle.std.specs.Prelude.{IfSome, IsNone};
ghost use Rattle.call_script.specs.declared.dims.Dims.{Dims};
ghost use Rattle.call_script.specs.Tokens.{IsDims, AreSizes, tokens_left};

use crate::fields::read_number;
use crate::tokens::Tokens;

/// A node has so many dimensions at most.
const MOST_DIMS: usize = 12;

/// How many dimensions there are, and the size of each; 0 stands behind them.
#[derive(Drop)]
pub(crate) struct Dims {
    pub(crate) rank: u8,
    pub(crate) sizes: [u64; MOST_DIMS],
}

/// The dimensions that a token spells.
pub(crate) fn read_dims(token: &[u8]) -> Option<Dims>
    ensures found { IfSome result (IsDims token.now) }
    ensures none { IsNone result → (dims : Dims) → ¬ IsDims token.now dims }
{
    if token == b"-".as_slice() {
        return Some(Dims {
            rank: 0,
            sizes: [0; MOST_DIMS],
        });
    }
    read_sizes(Tokens::new(token, b','))
}

// The dimensions of which each piece spells one.
fn read_sizes(mut pieces: Tokens) -> Option<Dims>
    ensures found { IfSome result (AreSizes (tokens_left pieces.entry)) }
    ensures none { IsNone result → (dims : Dims) → ¬ AreSizes (tokens_left pieces.entry) dims }
{
    let mut sizes = [0; MOST_DIMS];
    let mut rank = 0;
    while let Some(piece) = pieces.next() {
        if rank == MOST_DIMS {
            return None;
        }
        let size = read_number(piece)?;
        sizes[rank] = size;
        rank += 1;
    }
    Some(Dims {
        rank: rank as u8,
        sizes,
    })
}
