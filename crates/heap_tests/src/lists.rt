//! The three lists of free chunks, as a space has them.
use adf_chunks::{Part, decode_free_head, tail};
use disk_ptr::{decode, place};
use test_spaces::Bytes;

/// The place that a pointer in the space names, none where it is blank; nothing where there is no pointer.
fn pointer_at(space: &mut Bytes, at: u64) -> Option<Option<u64>> {
    let pointer = decode(&space.bytes_at::<12>(at)?)?;
    Some(place(pointer))
}

/// Whether a pointer in the space names this place, or is blank.
pub fn names(space: &mut Bytes, at: u64, wanted: Option<u64>) -> bool {
    pointer_at(space, at) == Some(wanted)
}

// The length of the free chunk at a place, which is whole, and the place of the next one.
fn chunk_at(space: &mut Bytes, at: u64) -> Option<(u64, Option<u64>)> {
    let head = decode_free_head(&space.bytes_at::<28>(at)?)?;
    let end = place(head.end_tag)?;
    if space.bytes_at::<4>(end)? != tail(Part::Free) {
        return None;
    }
    Some((end.saturating_add(4).saturating_sub(at), place(head.next)))
}

// Whether a list has these chunks in order, each whole, and its last pointer names the last.
fn has_list(space: &mut Bytes, first_at: u64, wanted: &[(u64, u64)]) -> bool {
    let Some(mut next) = pointer_at(space, first_at) else {
        return false;
    };
    let mut last = None;
    for (wanted_at, wanted_length) in wanted {
        let Some(at) = next else { return false };
        let Some((length, behind)) = chunk_at(space, at) else {
            return false;
        };
        if at != *wanted_at || length != *wanted_length {
            return false;
        }
        last = next;
        next = behind;
    }
    next.is_none() && names(space, first_at.saturating_add(12), last)
}

/// Whether the three lists are these, as places and lengths.
pub fn has_lists(space: &mut Bytes, wanted: [&[(u64, u64)]; 3]) -> bool {
    let [small, medium, large] = wanted;
    has_list(space, 190, small) && has_list(space, 214, medium) && has_list(space, 238, large)
}
