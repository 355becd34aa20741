//! The whole numbers in the data of a node.

ghost use Rattle.std.specs.Prelude.{◌≡◌, ◌≤◌, ◌/◌, length, IfOk, IfErr, true};
ghost use Rattle.adf_model.specs.declared.error.AdfError.{AdfError};
ghost use Rattle.adf_model.specs.Causes.{OnlyAsks};
ghost use Rattle.adf_model.specs.Edits.{size_of, size_limit};
ghost use Rattle.adf_model.specs.Slots.{IsTold};
ghost use Rattle.sids_views.specs.Asks.{IsValueOr, HasAskCause, IsPlain};
ghost use Rattle.sids_views.specs.Views.{node_there};
ghost use Rattle.sids_rules.specs.Values.{is_ints, ints_there};
ghost use Rattle.sids_readings.specs.Reading.{bytes_of, first_number, numbers_of, is_wide};

use adf_model::{AdfError, Format, NodeId, Numbers, TreeCalls};
use byteorder::{BigEndian, ByteOrder, LittleEndian};
use sids_views::{data_of, format_of};
use std::alloc::Global;

/// The numbers of a node of whole numbers with data, of at most 2^30 bytes, in the byte order of its
/// file. They are wide where each has 8 bytes.
pub fn ints_of<C: TreeCalls>(
    alloc: Global,
    calls: &mut C,
    at: NodeId,
    wide: bool,
) -> Result<Numbers, AdfError>
    requires ready { C.is_ready calls.old }
    requires plain { IsTold (C.files calls.old) (C.devices calls.old)
        → IsPlain (C.files calls.old) at }
    requires ints { IsTold (C.files calls.old) (C.devices calls.old)
        → is_ints (node_there (C.files calls.old) at) ≡ true }
    requires small { IsTold (C.files calls.old) (C.devices calls.old)
        → size_of (node_there (C.files calls.old) at) ≤ size_limit }
    requires width { IsTold (C.files calls.old) (C.devices calls.old)
        → is_wide (node_there (C.files calls.old) at) ≡ wide }
    ensures ready { C.is_ready calls.new }
    ensures only { OnlyAsks (C.files calls.old) (C.devices calls.old)
        (C.devices calls.new) (C.files calls.new) }
    ensures value { IsTold (C.files calls.old) (C.devices calls.old)
        → IsValueOr (ints_there (C.files calls.old) at) result }
    ensures cause { HasAskCause (C.files calls.old) (C.devices calls.old)
        (C.devices calls.new) result }
{
    match format_of(calls, at) {
        Ok(format) => match data_of(calls, at) {
            Ok(bytes) => numbers_in(alloc, format, wide, bytes.items()),
            Err(error) => Err(error),
        },
        Err(error) => Err(error),
    }
}

/// The numbers in bytes, one behind another.
#[tactic(auto, using(crate::proofs::NumberLaws::first_fits, crate::proofs::NumberLaws::others_fit, crate::proofs::NumberLaws::all_fit, crate::proofs::NumberLaws::one_more, crate::proofs::NumberLaws::none_left))]
fn numbers_in(alloc: Global, format: Format, wide: bool, bytes: &[u8]) -> Result<Numbers, AdfError>
    ensures value { IfOk result (λ numbers.
        numbers ≡ numbers_of format wide (length bytes.now / bytes_of wide) bytes.now) }
    ensures memory { IfErr result (λ error. error ≡ AdfError.Memory) }
{
    let width = bytes_of(wide);
    let mut left = bytes.len() / width;
    let mut rest = bytes;
    let mut numbers = Vec::new(alloc);
    while left > 0 {
        if numbers.push(first_number(format, wide, rest)).is_err() {
            return Err(AdfError::Memory);
        }
        rest = rest.split_at(width).1;
        left -= 1;
    }
    Ok(Numbers::new(numbers))
}

pub fn bytes_of(wide: bool) -> usize
    ensures { result ≡ bytes_of wide }
{
    if wide { 8 } else { 4 }
}

/// The number with a sign in the first bytes.
pub fn first_number(format: Format, wide: bool, bytes: &[u8]) -> i64
    requires { bytes_of wide ≤ length bytes.now }
    ensures { result ≡ first_number format wide bytes.now }
{
    match (format, wide) {
        (Format::Little, false) => i64::from(LittleEndian::read_i32(bytes)),
        (Format::Little, true) => LittleEndian::read_i64(bytes),
        (Format::Big, false) => i64::from(BigEndian::read_i32(bytes)),
        (Format::Big, true) => BigEndian::read_i64(bytes),
    }
}
