//! The places that pointers name.

ghost use Rattle.std.specs.Prelude.{◌≡◌, ◌^◌, ◌+◌, ◌≤◌, ◌<◌, length, false, true, IfSome, MatchOption};
ghost use Rattle.adf_format.specs.Fields.{field};
ghost use Rattle.adf_format.specs.Pointer.{is_place, place_of};

use adf_format::fields::Field;
use disk_ptr::DiskPtr;
use disk_ptr::fields::pointer_at;

/// The place that the pointer in a field names, if it names one.
pub fn place_in(bytes: &[u8], at: Field) -> Option<u64>
    requires { at.offset + 12 ≤ length bytes.now }
    ensures value { MatchOption result (is_place (field bytes.now at.offset 12) ≡ false)
        (λ place. (is_place (field bytes.now at.offset 12) ≡ true)
        × (place_of (field bytes.now at.offset 12) ≡ place)) }
    ensures near { IfSome result (λ place. place < 2 ^ 44) }
{
    match pointer_at(bytes, at) {
        Some(DiskPtr::At { block, offset }) => Some(u64::from(block) * 4096 + u64::from(offset)),
        Some(DiskPtr::Blank) => None,
        None => None,
    }
}
