//! The files of a shelf under their numbers.

ghost use Rattle.std.specs.Prelude.{◌≡◌, ◌≤◌, ◌^◌, map, IfOk, IfErr, IsOk, All};
ghost use Rattle.adf_library.specs.Library.{IsLibrary, IsIdle, devices_of, files_of, shelf_devices, shelf_files, slots_in, unplaced};
ghost use Rattle.adf_library.specs.Shelf.{IsShelf, IsWhole, slot_of, slots_of};
ghost use Rattle.adf_model.specs.Modes.{opening_of};
ghost use Rattle.adf_model.specs.Runs.{Makes};
ghost use Rattle.adf_model.specs.Steps.{Asked, Changed, Closed, Discarded, Opened};

use crate::openings::{close_place, discard_place, open_place};
use crate::places::{Place, Slot};
use crate::shelf::{Shelf, take_device};
use crate::slots::Slots;
use adf_follow::{ask, edit_group};
use adf_model::{AdfError, Edit, EditError, Mode, Query, Reply, Serials};
use cg_io::Device;
use std::alloc::Global;
use std::mem::replace;

/// The files of a shelf, opened, asked, closed and discarded under their numbers, and linked by their names.
#[derive(Drop)]
pub struct Library<D: Device> {
    alloc: Global,
    slots: Slots<D>,
}

// Closes a file, and forgets what it was.
fn shut<D: Device>(slot: &mut Slot<D>)
    ensures stays { slot_of D.state slot.new ≡ slot_of D.state slot.old }
    ensures idle { IsIdle slot.new }
{
    if let Some(device) = take_device(&mut slot.place) {
        slot.place = Place::Closed(device);
    }
}

// Closes all files.
fn close_all<D: Device>(slots: &mut Vec<Slot<D>>)
    ensures slots { map (slot_of D.state) slots.new.items ≡ map (slot_of D.state) slots.old.items }
    ensures idle { All IsIdle slots.new.items }
{
    'closing: for number in 0..slots.len() {
        shut(&mut slots[number]);
    }
}

impl<D: Device> Library<D> {
    /// A library of the files of a shelf, of which no device is taken; all files are closed. It takes no memory.
    pub fn new(alloc: Global, shelf: Shelf<D>) -> Result<Library<D>, (AdfError, Shelf<D>)>
        requires whole { IsWhole shelf }
        requires shelf { IsShelf shelf }
        ensures made { IsOk result }
        ensures library { IfOk result (IsLibrary D.state) }
        ensures files { IfOk result (λ library. files_of D.state library
            ≡ shelf_files (slots_of D.state shelf)) }
        ensures devices { IfOk result (λ library. devices_of D.state library
            ≡ shelf_devices (slots_of D.state shelf)) }
        ensures slots { IfOk result (λ library. slots_in D.state library
            ≡ slots_of D.state shelf) }
    {
        let mut items = shelf.slots;
        close_all(&mut items);
        Ok(Library {
            alloc,
            slots: Slots { items },
        })
    }

    /// Closes all files, and hands the shelf back. It takes no memory.
    pub fn finish(self) -> Shelf<D>
        requires { IsLibrary D.state self }
        ensures whole { IsWhole result }
        ensures shelf { IsShelf result }
        ensures slots { slots_of D.state result ≡ slots_in D.state self }
        ensures devices { shelf_devices (slots_of D.state result)
            ≡ map unplaced (devices_of D.state self) }
    {
        let mut slots = self.slots.items;
        close_all(&mut slots);
        Shelf { slots }
    }

    /// Opens a file, with an address limit in blocks of 4,096 bytes. It is refused with NoSuchFile, with AlreadyOpen,
    /// with Memory, with ReadFault, and with Layout where the bytes lay out no tree; a fresh file with NotEmpty and
    /// with WriteFault. A refusal leaves the file closed.
    pub fn open(&mut self, number: u32, mode: Mode, limit: u64) -> Result<(), AdfError>
        requires library { IsLibrary D.state self.old }
        requires limit { (1 ≤ limit) × (limit ≤ 2 ^ 32) }
        ensures library { IsLibrary D.state self.new }
        ensures makes { Makes (files_of D.state self.old) (devices_of D.state self.old)
            (Opened number (opening_of mode) limit result) (devices_of D.state self.new)
            (files_of D.state self.new) }
    {
        if number as usize >= self.slots.items.len() {
            return Err(AdfError::NoSuchFile);
        }
        let slot = &mut self.slots.items[number as usize];
        let place = replace(&mut slot.place, Place::Taken);
        let (place, result) = open_place(self.alloc, place, mode, limit);
        slot.place = place;
        result
    }

    /// Closes a file, a broken one too. It is refused with NoSuchFile and with NotOpen. It takes no memory.
    pub fn close(&mut self, number: u32) -> Result<(), AdfError>
        requires { IsLibrary D.state self.old }
        ensures library { IsLibrary D.state self.new }
        ensures makes { Makes (files_of D.state self.old) (devices_of D.state self.old)
            (Closed number result) (devices_of D.state self.new) (files_of D.state self.new) }
    {
        if number as usize >= self.slots.items.len() {
            return Err(AdfError::NoSuchFile);
        }
        let slot = &mut self.slots.items[number as usize];
        let place = replace(&mut slot.place, Place::Taken);
        let (place, result) = close_place(place);
        slot.place = place;
        result
    }

    /// Drops the device of a closed file. Its number is never used again, its name is free, and its last counts are
    /// still meant. It is refused with NoSuchFile and with AlreadyOpen. It takes no memory.
    pub fn discard(&mut self, number: u32) -> Result<(), AdfError>
        requires { IsLibrary D.state self.old }
        ensures library { IsLibrary D.state self.new }
        ensures makes { Makes (files_of D.state self.old) (devices_of D.state self.old)
            (Discarded number result) (devices_of D.state self.new) (files_of D.state self.new) }
    {
        if number as usize >= self.slots.items.len() {
            return Err(AdfError::NoSuchFile);
        }
        let slot = &mut self.slots.items[number as usize];
        let place = replace(&mut slot.place, Place::Taken);
        let (place, result) = discard_place(place);
        slot.place = place;
        result
    }

    /// Answers a query, through links where its kind goes through them. It changes no tree and writes nothing.
    pub fn ask(&mut self, query: &Query) -> Result<Reply, AdfError>
        requires { IsLibrary D.state self.old }
        ensures library { IsLibrary D.state self.new }
        ensures makes { Makes (files_of D.state self.old) (devices_of D.state self.old)
            (Asked query.now result) (devices_of D.state self.new) (files_of D.state self.new) }
    {
        ask(self.alloc, &mut self.slots, query)
    }

    /// Does all edits of a group, in the file that its first edit names or reaches, and answers the nodes that were
    /// made; or does none. A refusal names the edit, counted from 0, and leaves all files as they were; that of a
    /// failed write, WriteFault, stands behind all edits, and the file is broken. No memory is taken once a byte is
    /// written.
    pub fn edit(&mut self, edits: &[Edit]) -> Result<Serials, EditError>
        requires { IsLibrary D.state self.old }
        ensures library { IsLibrary D.state self.new }
        ensures makes { Makes (files_of D.state self.old) (devices_of D.state self.old)
            (Changed edits.now result) (devices_of D.state self.new) (files_of D.state self.new) }
    {
        edit_group(self.alloc, &mut self.slots, edits)
    }
}
