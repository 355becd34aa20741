//! Devices under names and numbers.

ghost use Rattle.std.specs.Prelude.{◌≡◌, ◌<◌, ◌≤◌, ◌-◌, ◌^◌, ◌++◌, ◌↔◌, ◌⊎◌, [], ◌∷◌, length, Some, None, ℕ, IsSome, IsNone, IfSome, IfOk, OnOk, IfErr, IsErrAnd, is_some};
ghost use Rattle.std.specs.Option.{option_map};
ghost use Rattle.std.specs.List.{position_from};
ghost use Rattle.adf_model.specs.Counts.{dropped};
ghost use Rattle.adf_library.specs.Shelf.{There, Gone, place_of, slot_of, slots_of, has_name, number_in, device_in_place, device_at, IsTaken, IsWhole, IsWholeBut, IsShelf, changed_at, taken, discarded, with_device};

use crate::places::{Place, Slot, husk_of};
use adf_model::{AdfError, Text};
use cg_io::Device;
use std::alloc::Global;
use std::mem::replace;

// Whether a slot has the name: that of a discarded device is free.
fn is_of_name<D: Device>(slot: &Slot<D>, name: &[u8]) -> bool
    ensures { result ≡ has_name name.now (slot_of D.state slot.now) }
{
    match &slot.place {
        Place::Gone(_) => false,
        _ => slot.name.items() == name,
    }
}

/// The number of the first slot of this name.
pub(crate) fn place_in<D: Device>(slots: &[Slot<D>], name: &[u8]) -> Option<u32>
    requires { length slots.now < 2 ^ 32 }
    ensures number { result ≡ position_from (λ slot.
        has_name name.now (slot_of D.state slot)) 0 slots.now }
    ensures stands { IfSome result (λ n. n < length slots.now) }
{
    for (i, slot) in slots.iter().enumerate() {
        if is_of_name(slot, name) {
            return Some(i as u32);
        }
    }
    None
}

/// Takes the device, where one stands there.
pub(crate) fn take_device<D: Device>(place: &mut Place<D>) -> Option<D>
    ensures device { option_map D.state result ≡ device_in_place (place_of D.state place.old) }
    ensures rest { place_of D.state place.new ≡ taken (place_of D.state place.old) }
{
    match replace(place, Place::Taken) {
        Place::Closed(device) => Some(device),
        Place::Saved(device, _) => Some(device),
        Place::Open(file) => Some(file.close()),
        Place::Taken => None,
        Place::Gone(husk) => {
            *place = Place::Gone(husk);
            None
        }
    }
}

// Drops the device, where one stands there.
fn drop_device<D: Device>(place: &mut Place<D>) -> bool
    ensures said { result ≡ is_some (device_in_place (place_of D.state place.old)) }
    ensures rest { place_of D.state place.new ≡ discarded (place_of D.state place.old) }
{
    match take_device(place) {
        Some(device) => {
            *place = Place::Gone(husk_of(&device));
            true
        }
        None => false,
    }
}

/// Devices under names and numbers. A number is handed out once and never changes.
#[derive(Drop)]
pub struct Shelf<D: Device> {
    pub slots: Vec<Slot<D>>,
}

impl<D: Device> Shelf<D> {
    /// A shelf with nothing on it. It takes no memory.
    pub fn new(alloc: Global) -> Shelf<D>
        ensures slots { slots_of D.state result ≡ [] }
        ensures whole { IsWhole result }
        ensures shelf { IsShelf result }
    {
        Shelf {
            slots: Vec::new(alloc),
        }
    }

    /// How many numbers were handed out.
    pub fn len(&self) -> usize
        ensures { result ≡ length (slots_of D.state self.now) }
    {
        self.slots.len()
    }

    /// Adds a device under a name, and answers its number. Where the name is there (`AlreadyOpen`)
    /// or no memory is left (`Memory`), the device comes back and the shelf stays.
    pub fn add(&mut self, name: Text, device: D) -> Result<u32, (AdfError, D)>
        requires { length (slots_of D.state self.old) < 2 ^ 32 - 1 }
        ensures number { IfOk result (λ n. n ≡ length (slots_of D.state self.old)) }
        ensures added { OnOk result (slots_of D.state self.new
            ≡ slots_of D.state self.old ++ record { name = name; place = There (D.state device) }
            ∷ []) }
        ensures fresh { OnOk result (IsNone (number_in (slots_of D.state self.old) name)) }
        ensures there { IsSome (number_in (slots_of D.state self.old) name)
            → IsErrAnd result (λ e. e.0 ≡ AdfError.AlreadyOpen) }
        ensures why { IfErr result (λ e. ((e.0 ≡ AdfError.AlreadyOpen)
            × IsSome (number_in (slots_of D.state self.old) name)) ⊎ (e.0 ≡ AdfError.Memory)) }
        ensures refused { IfErr result (λ e. (slots_of D.state self.new ≡ slots_of D.state self.old)
            × (D.state e.1 ≡ D.state device)) }
        ensures whole { IsWhole self.old → IsWhole self.new }
        ensures shelf { IsShelf self.new }
    {
        if self.number_of(name.items()).is_some() {
            return Err((AdfError::AlreadyOpen, device));
        }
        let number = self.slots.len() as u32;
        let slot = Slot {
            name,
            place: Place::Closed(device),
        };
        match self.slots.push(slot) {
            Ok(()) => Ok(number),
            Err(failed) => {
                let slot = failed.value;
                let Slot { name: _, place } = slot;
                match place {
                    Place::Closed(device) => Err((AdfError::Memory, device)),
                    _ => unreachable!(),
                }
            }
        }
    }

    /// Takes the device under a number: none exactly where none stands there. It takes no memory.
    pub fn take(&mut self, number: u32) -> Option<D>
        requires { IsShelf self.old }
        ensures device { option_map D.state result ≡ device_at (slots_of D.state self.old) number }
        ensures rest { slots_of D.state self.new
            ≡ changed_at taken (slots_of D.state self.old) number }
        ensures taken { IsSome result → IsTaken (slots_of D.state self.new) number }
        ensures others { IsWhole self.old → IsWholeBut number self.new }
        ensures shelf { IsShelf self.new }
    {
        let at = number as usize;
        if at >= self.slots.len() {
            return None;
        }
        take_device(&mut self.slots[at].place)
    }

    /// Puts a device back under a number whose device was taken. It takes no memory.
    pub fn put_back(&mut self, number: u32, device: D)
        requires taken { IsTaken (slots_of D.state self.old) number }
        requires shelf { IsShelf self.old }
        ensures back { slots_of D.state self.new
            ≡ with_device (slots_of D.state self.old) number (D.state device) }
        ensures whole { IsWholeBut number self.old → IsWhole self.new }
        ensures shelf { IsShelf self.new }
    {
        self.slots[number as usize].place = Place::Closed(device);
    }

    /// Drops the device under a number, and frees its name; the number is never used again. It is
    /// false exactly where no device stands there. It takes no memory.
    pub fn discard(&mut self, number: u32) -> bool
        requires { IsShelf self.old }
        ensures said { result ≡ is_some (device_at (slots_of D.state self.old) number) }
        ensures rest { slots_of D.state self.new
            ≡ changed_at discarded (slots_of D.state self.old) number }
        ensures whole { IsWhole self.old → IsWhole self.new }
        ensures shelf { IsShelf self.new }
    {
        let at = number as usize;
        if at >= self.slots.len() {
            return false;
        }
        drop_device(&mut self.slots[at].place)
    }

    /// The number of a name: none exactly where it is not there. It takes no memory.
    pub fn number_of(&self, name: &[u8]) -> Option<u32>
        requires { IsShelf self.now }
        ensures number { result ≡ number_in (slots_of D.state self.now) name.now }
        ensures stands { IfSome result (λ n. n < length (slots_of D.state self.now)) }
        ensures there { IsWhole self.now
            → IfSome result (λ n. IsSome (device_at (slots_of D.state self.now) n)) }
    {
        place_in(&self.slots, name)
    }
}
