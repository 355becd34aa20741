//! Rules on the numbers of sections whose elements begin where a list of offsets says.

ghost use Rattle.std.specs.Prelude.{◌≡◌, ◌↔◌, ◌≤◌, ◌<◌, ◌-◌, pos, IsTrue, Some, false, length, slice_get, Any, ◌+◌, slice_index_or, unsigned_abs, drop, take};
ghost use Rattle.sids_rules.specs.Sections.{IsOutside};
ghost use Rattle.sids_rules.specs.Offsets.{BreaksOffsetSize, BreaksOffsetNumbers, BreaksMixedPieces, BreaksPieceNodes, BreaksFaceNumbers, AreOffsets, NeverFall, SomePiece, IsMixedPiece, IsNoFace, LiesIn, piece_at, HasBadNode, offset_at};

use crate::sections::{fixed_nodes, has_outside};

/// The code of mixed elements.
const MIXED: i64 = 20;

/// The code of polygons.
const POLYGONS: i64 = 22;

/// K36 offset-size: the offsets are not one more than the elements.
pub fn breaks_k36(offsets: &[i64], elements: u64) -> bool
    ensures { IsTrue result ↔ BreaksOffsetSize offsets.now elements }
{
    (offsets.len() as u64).checked_sub(1) != Some(elements)
}

/// K37 offset-numbers: the offsets do not begin with 0, or fall somewhere, or do not end with the
/// length of the connectivity.
pub fn breaks_k37(offsets: &[i64], entries: u64) -> bool
    ensures broken { IsTrue result ↔ BreaksOffsetNumbers offsets.now entries }
    ensures met { result ≡ false → AreOffsets offsets.now entries }
{
    !are_offsets(offsets, entries)
}

fn are_offsets(offsets: &[i64], entries: u64) -> bool
    ensures { IsTrue result ↔ AreOffsets offsets.now entries }
{
    begins_at_0(offsets) && never_fall(offsets) && ends_at(offsets, entries)
}

fn begins_at_0(offsets: &[i64]) -> bool
    ensures { IsTrue result ↔ (slice_get offsets.now 0 ≡ Some (pos 0)) }
{
    match offsets.first() {
        Some(&first) => first == 0,
        None => false,
    }
}

fn ends_at(offsets: &[i64], entries: u64) -> bool
    ensures { IsTrue result
        ↔ (slice_get offsets.now (length offsets.now - 1) ≡ Some (pos entries)) }
{
    match offsets.last() {
        Some(&last) => u64::try_from(last) == Ok(entries),
        None => false,
    }
}

fn never_fall(offsets: &[i64]) -> bool
    ensures { IsTrue result ↔ NeverFall offsets.now }
{
    for k in 1..offsets.len() {
        if offsets[k] < offsets[k - 1] {
            return false;
        }
    }
    true
}

/// K38 mixed-pieces: in a section of mixed elements, a piece that does not begin with the code of an
/// element of fixed nodes, or is not as long as 1 and these. False for other codes.
pub fn breaks_k38(code: i64, connectivity: &[i64], offsets: &[i64]) -> bool
    requires { AreOffsets offsets.now (length connectivity.now) }
    ensures { IsTrue result ↔ BreaksMixedPieces code connectivity.now offsets.now }
{
    is_mixed(code) && has_bad_piece(connectivity, offsets)
}

fn has_bad_piece(connectivity: &[i64], offsets: &[i64]) -> bool
    requires { AreOffsets offsets.now (length connectivity.now) }
    ensures { IsTrue result
        ↔ SomePiece (λ piece. ¬ IsMixedPiece piece) connectivity.now offsets.now }
{
    for k in 1..offsets.len() {
        if !is_mixed_piece(piece_at(connectivity, offsets, k - 1)) {
            return true;
        }
    }
    false
}

/// The piece between an offset and the next one.
fn piece_at<'a>(connectivity: &'a [i64], offsets: &[i64], k: usize) -> &'a [i64]
    requires offsets { AreOffsets offsets.now (length connectivity.now) }
    requires within { k + 1 < length offsets.now }
    ensures { result.now ≡ piece_at connectivity.now offsets.now k }
{
    part(connectivity, position(offsets, k), position(offsets, k + 1))
}

fn part(connectivity: &[i64], start: usize, end: usize) -> &[i64]
    requires order { start ≤ end }
    requires within { end ≤ length connectivity.now }
    ensures { result.now ≡ take (end - start) (drop start connectivity.now) }
{
    &connectivity[start..end]
}

/// The amount of an offset; 0 past the end.
fn position(offsets: &[i64], k: usize) -> usize
    ensures { result ≡ unsigned_abs (offset_at offsets.now k) }
{
    match offsets.get(k) {
        Some(&offset) => offset.unsigned_abs() as usize,
        None => 0,
    }
}

fn is_mixed_piece(piece: &[i64]) -> bool
    ensures { IsTrue result ↔ IsMixedPiece piece.now }
{
    match piece.split_first() {
        Some((&code, nodes)) => match fixed_nodes(code) {
            Some(wanted) => nodes.len() == wanted as usize,
            None => false,
        },
        None => false,
    }
}

/// K39 piece-nodes: in a section of mixed elements or of polygons, a node number of a piece under 1,
/// or above the limit where there is one. False for other codes.
pub fn breaks_k39(code: i64, connectivity: &[i64], offsets: &[i64], limit: Option<i64>) -> bool
    requires offsets { AreOffsets offsets.now (length connectivity.now) }
    requires pieces { ¬ BreaksMixedPieces code connectivity.now offsets.now }
    ensures { IsTrue result ↔ BreaksPieceNodes code connectivity.now offsets.now limit }
{
    has_bad_mixed_node(code, connectivity, offsets, limit)
        || has_bad_polygon_node(code, connectivity, offsets, limit)
}

/// For mixed elements, behind the code that each piece begins with.
fn has_bad_mixed_node(code: i64, connectivity: &[i64], offsets: &[i64], limit: Option<i64>) -> bool
    requires { AreOffsets offsets.now (length connectivity.now) }
    ensures { IsTrue result
        ↔ ((code ≡ pos 20) × HasBadNode 1 connectivity.now offsets.now limit) }
{
    is_mixed(code) && has_bad_node(1, connectivity, offsets, limit)
}

fn has_bad_polygon_node(
    code: i64,
    connectivity: &[i64],
    offsets: &[i64],
    limit: Option<i64>,
) -> bool
    requires { AreOffsets offsets.now (length connectivity.now) }
    ensures { IsTrue result
        ↔ ((code ≡ pos 22) × HasBadNode 0 connectivity.now offsets.now limit) }
{
    is_of_polygons(code) && has_bad_node(0, connectivity, offsets, limit)
}

fn is_mixed(code: i64) -> bool
    ensures { IsTrue result ↔ (code ≡ pos 20) }
{
    code == MIXED
}

fn is_of_polygons(code: i64) -> bool
    ensures { IsTrue result ↔ (code ≡ pos 22) }
{
    code == POLYGONS
}

/// Whether some piece, without its first numbers, has a node that is no node of the zone.
fn has_bad_node(skipped: usize, connectivity: &[i64], offsets: &[i64], limit: Option<i64>) -> bool
    requires { AreOffsets offsets.now (length connectivity.now) }
    ensures { IsTrue result ↔ HasBadNode skipped connectivity.now offsets.now limit }
{
    for k in 1..offsets.len() {
        if has_outside(
            limit,
            without_first(skipped, piece_at(connectivity, offsets, k - 1)),
        ) {
            return true;
        }
    }
    false
}

fn without_first(skipped: usize, piece: &[i64]) -> &[i64]
    ensures { result.now ≡ drop skipped piece.now }
{
    match piece.get(skipped..) {
        Some(nodes) => nodes,
        None => &[],
    }
}

/// K40 face-numbers: a number that is 0, or whose amount without sign lies in none of the ranges of
/// faces, each a start and an end.
pub fn breaks_k40(connectivity: &[i64], faces: &[[i64; 2]]) -> bool
    ensures { IsTrue result ↔ BreaksFaceNumbers connectivity.now faces.now }
{
    connectivity.iter().any(|&number| is_no_face(number, faces))
}

fn is_no_face(number: i64, faces: &[[i64; 2]]) -> bool
    ensures { IsTrue result ↔ IsNoFace faces.now number }
{
    number == 0 || !lies_in_some(number, faces)
}

fn lies_in_some(number: i64, faces: &[[i64; 2]]) -> bool
    ensures { IsTrue result
        ↔ Any (λ range. LiesIn number (slice_index_or range 0 (pos 0))
        (slice_index_or range 1 (pos 0)))
        faces.now }
{
    faces
        .iter()
        .any(|&[first, last]| lies_in(number, first, last))
}

fn lies_in(number: i64, first: i64, last: i64) -> bool
    ensures { IsTrue result ↔ LiesIn number first last }
{
    match i64::try_from(number.unsigned_abs()) {
        Ok(amount) => first <= amount && amount <= last,
        Err(_) => false,
    }
}
