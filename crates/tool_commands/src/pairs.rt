//! Two devices of a shelf that are taken together, and put back.

ghost use Rattle.std.specs.Prelude.{◌≡◌, ◌≢◌, Some, IsSome};
ghost use Rattle.adf_library.specs.Shelf.{slots_of, device_at, with_device, IsShelf, IsTaken, IsWhole};
ghost use Rattle.tool_commands.specs.Pairs.{both_taken, IsWholeButBoth};

use adf_library::Shelf;
use cg_io::Device;

/// Takes the devices of two numbers.
pub fn take_both<D: Device>(shelf: &mut Shelf<D>, from: u32, to: u32) -> (D, D)
    requires whole { IsWhole shelf.old }
    requires shelf { IsShelf shelf.old }
    requires apart { from ≢ to }
    requires source { IsSome (device_at (slots_of D.state shelf.old) from) }
    requires target { IsSome (device_at (slots_of D.state shelf.old) to) }
    ensures source { device_at (slots_of D.state shelf.old) from ≡ Some (D.state result.0) }
    ensures target { device_at (slots_of D.state shelf.old) to ≡ Some (D.state result.1) }
    ensures rest { slots_of D.state shelf.new ≡ both_taken (slots_of D.state shelf.old) from to }
    ensures first { IsTaken (slots_of D.state shelf.new) from }
    ensures second { IsTaken (slots_of D.state shelf.new) to }
    ensures whole { IsWholeButBoth from to shelf.new }
    ensures shelf { IsShelf shelf.new }
{
    let Some(source) = shelf.take(from) else {
        unreachable!()
    };
    let Some(target) = shelf.take(to) else {
        unreachable!()
    };
    (source, target)
}

/// Puts devices back under two numbers whose devices were taken. It takes no memory.
pub fn put_both_back<D: Device>(shelf: &mut Shelf<D>, from: u32, source: D, to: u32, target: D)
    requires apart { from ≢ to }
    requires first { IsTaken (slots_of D.state shelf.old) from }
    requires second { IsTaken (slots_of D.state shelf.old) to }
    requires whole { IsWholeButBoth from to shelf.old }
    requires shelf { IsShelf shelf.old }
    ensures back { slots_of D.state shelf.new ≡ with_device
        (with_device (slots_of D.state shelf.old) from (D.state source)) to (D.state target) }
    ensures whole { IsWhole shelf.new }
    ensures shelf { IsShelf shelf.new }
{
    shelf.put_back(from, source);
    shelf.put_back(to, target);
}
