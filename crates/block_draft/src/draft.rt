// Changes of blocks that wait for a commit.
ghost use Rattle.std.specs.Prelude.{◌≡◌, ◌^◌, ◌+◌, ◌*◌, ◌≤◌, [], length, false, IfErr, OnOk, OnErr};
ghost use Rattle.std.specs.Borrow.{sem};
ghost use Rattle.adf_model.specs.Counts.{raised_by};
ghost use Rattle.cg_io.specs.Cause.{HasCause, Rose};
ghost use Rattle.cg_io.specs.Device.{Gives, GivesAt};
ghost use Rattle.cg_io.specs.Blocks.{ReadsFew, blocks_of, Both, Wrote, KeepsOutside};
ghost use Rattle.cg_io.specs.Waits.{how_many, IsTouched, WaitsOnly};
ghost use Rattle.block_draft.specs.Changes.{image_of, IsPartWritten, AreChanges, ChangesOnly, ChangesWithin};
ghost use Rattle.block_draft.specs.Draft.{blocks_below, changes_in, waiting_in, shown_in, state_below, is_sound_below};
ghost use Rattle.block_draft.specs.Lends.{LendsBlocks};
ghost use Rattle.cg_io.specs.Answers.{AnswersRead, HasRisen};

use crate::changes::{Block, Changes, patch};
use cg_io::{BlockFault, Blocks, ReadBytes, ReadFault, Space, SpaceFault, overwrite};
use std::alloc::Global;
use std::collections::BTreeMap;

/// Blocks, and changes over them that wait for a commit.
///
/// As a space it shows the bytes of the blocks with its own writes over them. A write takes the room for the blocks that it
/// changes, so that a commit takes no memory.
#[derive(Drop)]
pub struct Draft<B: Blocks> {
    blocks: B,
    changed: Changes,
}

impl<B: Blocks> Draft<B> {
    /// A draft over these blocks that changes nothing.
    pub fn new(alloc: Global, blocks: B) -> Draft<B>
        ensures blocks { blocks_below result ≡ blocks }
        ensures empty { changes_in result ≡ [] }
        ensures image { shown_in B.state result ≡ (B.state blocks).held }
    {
        Draft {
            blocks,
            changed: Changes::new(alloc),
        }
    }

    /// The blocks below. What was changed since the last commit is dropped.
    pub fn into_blocks(self) -> B
        ensures { result ≡ blocks_below self }
    {
        let Draft { blocks, changed: _ } = self;
        blocks
    }

    /// The blocks below, as they were last committed.
    pub fn blocks_mut(&mut self) -> &mut B
        ensures* lends { sem 𝓛 (LendsBlocks B.row self.entry result) }
        ensures blocks { result.now ≡ blocks_below self.old }
    {
        &mut self.blocks
    }

    /// How many blocks are changed.
    pub fn changed(&self) -> usize
        ensures { result ≡ length (changes_in self.now) }
    {
        self.changed.len()
    }

    /// Drops the changes: the draft then shows what the blocks below hold.
    pub fn abandon(&mut self)
        ensures blocks { blocks_below self.new ≡ blocks_below self.old }
        ensures empty { changes_in self.new ≡ [] }
        ensures image { shown_in B.state self.new ≡ (B.state (blocks_below self.old)).held }
    {
        self.changed.clear();
    }

    /// Writes the changed blocks in ascending order, each once, and reads none. Afterwards nothing is changed. So it writes
    /// at most as often as there are blocks that wait, and none waits afterwards.
    ///
    /// Where a write fails it stops: the blocks before that one are written, that one has any bytes, and what was to be
    /// written after it is dropped.
    #[tactic(auto, using(crate::proofs::Waits::many_wait))]
    pub fn commit(&mut self) -> Result<(), BlockFault>
        requires { B.is_sound (blocks_below self.old) }
        ensures sound { B.is_sound (blocks_below self.new) }
        ensures written { OnOk result ((B.state (blocks_below self.new)).held
            ≡ shown_in B.state self.old) }
        ensures count { OnOk result ((B.state (blocks_below self.new)).writes
            ≡ raised_by (length (changes_in self.old)) (B.state (blocks_below self.old)).writes) }
        ensures torn { OnErr result (IsPartWritten (B.state (blocks_below self.old)).held
            (B.state (blocks_below self.old)).writes (changes_in self.old)
            (B.state (blocks_below self.new)).held (B.state (blocks_below self.new)).writes) }
        ensures ascend { AreChanges (changes_in self.old) }
        ensures few { (B.state (blocks_below self.new)).writes
            ≤ (B.state (blocks_below self.old)).writes + how_many (waiting_in self.old) }
        ensures empty { changes_in self.new ≡ [] }
        ensures reads { (B.state (blocks_below self.new)).reads
            ≡ (B.state (blocks_below self.old)).reads }
        ensures cause { HasCause (B.state (blocks_below self.old)).faults
            (B.state (blocks_below self.new)).faults result }
        ensures lost { HasCause (B.state (blocks_below self.old)).lost
            (B.state (blocks_below self.new)).lost result }
        ensures fault { IfErr result (λ e. e ≡ BlockFault.Write) }
    {
        let done = write_all(&mut self.changed.blocks, &mut self.blocks);
        self.changed.blocks.clear();
        done
    }
}

// Takes the blocks in ascending order, and writes them.
fn write_all<B: Blocks>(
    changes: &mut BTreeMap<u32, Block>,
    blocks: &mut B,
) -> Result<(), BlockFault>
    requires { B.is_sound blocks.old }
    ensures sound { B.is_sound blocks.new }
    ensures written { OnOk result ((B.state blocks.new).held
        ≡ image_of (B.state blocks.old).held changes.old.entries) }
    ensures count { OnOk result ((B.state blocks.new).writes
        ≡ raised_by (length changes.old.entries) (B.state blocks.old).writes) }
    ensures torn { OnErr result (IsPartWritten (B.state blocks.old).held
        (B.state blocks.old).writes changes.old.entries (B.state blocks.new).held
        (B.state blocks.new).writes) }
    ensures few { (B.state blocks.new).writes ≤ (B.state blocks.old).writes
        + length changes.old.entries }
    ensures reads { (B.state blocks.new).reads ≡ (B.state blocks.old).reads }
    ensures cause { HasCause (B.state blocks.old).faults (B.state blocks.new).faults result }
    ensures lost { HasCause (B.state blocks.old).lost (B.state blocks.new).lost result }
    ensures fault { IfErr result (λ e. e ≡ BlockFault.Write) }
{
    while let Some((number, block)) = changes.pop_first() {
        blocks.write_block(number, block.bytes())?;
    }
    Ok(())
}

impl<B: Blocks> Draft<B> {
    // Copies a block of the image.
    fn load(&mut self, n: u32, into: &mut [u8; 4096]) -> Result<(), BlockFault>
        requires { B.is_sound self.old.blocks }
        ensures sound { B.is_sound self.new.blocks }
        ensures told { OnOk result (Gives (image_of (B.state self.old.blocks).held self.old.changed)
            n into.new) }
        ensures changed { self.new.changed ≡ self.old.changed }
        ensures effect { ReadsFew 1 (B.state self.old.blocks) (B.state self.new.blocks) }
        ensures cause { HasCause (B.state self.old.blocks).faults
            (B.state self.new.blocks).faults result }
        ensures fault { IfErr result (λ e. e ≡ BlockFault.Read) }
    {
        if self.changed.copy(n, into) {
            return Ok(());
        }
        match self.blocks.read_block(n, into) {
            Ok(()) => Ok(()),
            Err(fault) => Err(fault),
        }
    }

    // Reads a block below, unless all of it is to be written over.
    fn fetch(&mut self, n: u32, whole: bool, into: &mut [u8; 4096]) -> Result<(), BlockFault>
        requires { B.is_sound self.old.blocks }
        ensures sound { B.is_sound self.new.blocks }
        ensures told { OnOk result (whole ≡ false
            → Gives (B.state self.old.blocks).held n into.new) }
        ensures changed { self.new.changed ≡ self.old.changed }
        ensures effect { ReadsFew 1 (B.state self.old.blocks) (B.state self.new.blocks) }
        ensures cause { HasCause (B.state self.old.blocks).faults
            (B.state self.new.blocks).faults result }
    {
        if whole {
            return Ok(());
        }
        self.blocks.read_block(n, into)
    }

    // Changes a part of a block.
    fn change(&mut self, n: u32, start: usize, from: &[u8]) -> Result<(), SpaceFault>
        requires sound { B.is_sound self.old.blocks }
        requires some { 1 ≤ length from.now }
        requires within { start + length from.now ≤ 4096 }
        ensures sound { B.is_sound self.new.blocks }
        ensures written { OnOk result (Both (Wrote (n * 4096 + start) from.now)
            (image_of (B.state self.old.blocks).held self.old.changed)
            (image_of (B.state self.new.blocks).held self.new.changed)) }
        ensures refused { OnErr result (self.new.changed ≡ self.old.changed) }
        ensures only { ChangesOnly n self.old.changed self.new.changed }
        ensures effect { ReadsFew 1 (B.state self.old.blocks) (B.state self.new.blocks) }
        ensures cause { IfErr result (λ e. e ≡ SpaceFault.Read
            → Rose (B.state self.old.blocks).faults (B.state self.new.blocks).faults) }
    {
        if self.changed.patch(n, start, from) {
            return Ok(());
        }
        let mut block = [0; 4096];
        match self.fetch(n, from.len() == 4096, &mut block) {
            Ok(()) => {}
            Err(_) => return Err(SpaceFault::Read),
        }
        patch(&mut block, start, from);
        match self.changed.put(n, &block) {
            Ok(()) => Ok(()),
            Err(_) => Err(SpaceFault::Memory),
        }
    }
}

// Each method has the clauses of the trait, and then those on the changed blocks.
impl<B: Blocks> ReadBytes for Draft<B> {
    ghost image = { λ d. shown_in B.state d };

    ghost state = { λ d. state_below B.state d };

    ghost is_sound = { λ d. is_sound_below B.is_sound d };

    ghost waiting = { λ d. waiting_in d };

    /// The bytes from a place on, zeros past the end, by at most one read below for each block that the range touches.
    fn read(&mut self, place: u64, into: &mut [u8]) -> Result<(), ReadFault>
        requires sound { B.is_sound (blocks_below self.old) }
        requires within { place + length into.old ≤ 2 ^ 44 }
        ensures told { OnOk result (GivesAt (shown_in B.state self.old) place into.new) }
        ensures reads { AnswersRead (is_sound_below B.is_sound) (shown_in B.state)
            (state_below B.state) waiting_in (ReadsFew (blocks_of place (length into.old))) HasRisen
            self.old self.new result }
        ensures changed { changes_in self.new ≡ changes_in self.old }
    {
        let mut block = [0; 4096];
        let mut done = 0;
        while done < into.len() {
            let at = place + done as u64;
            let start = (at % 4096) as usize;
            let count = (4096 - start).min(into.len() - done);
            match self.load((at / 4096) as u32, &mut block) {
                Ok(()) => {}
                Err(_) => return Err(ReadFault),
            }
            overwrite(into, done, &block[start..start + count]);
            done += count;
        }
        Ok(())
    }
}

// Each method has the clauses of the trait, and then those on the changed blocks.
impl<B: Blocks> Space for Draft<B> {
    /// Writes over the bytes from a place on, in the draft alone. It changes no block but those that the range touches, and
    /// takes the room for them.
    #[tactic(auto, using(crate::proofs::Counts::within_more, crate::proofs::Waits::waits_within, crate::proofs::Waits::counts_within))]
    fn write(&mut self, place: u64, from: &[u8]) -> Result<(), SpaceFault>
        requires sound { B.is_sound (blocks_below self.old) }
        requires within { place + length from.now ≤ 2 ^ 44 }
        ensures sound { B.is_sound (blocks_below self.new) }
        ensures written { OnOk result (Both (Wrote place from.now) (shown_in B.state self.old)
            (shown_in B.state self.new)) }
        ensures refused { OnErr result (Both (KeepsOutside place (length from.now))
            (shown_in B.state self.old) (shown_in B.state self.new)) }
        ensures effect { ReadsFew (blocks_of place (length from.now))
            (B.state (blocks_below self.old)) (B.state (blocks_below self.new)) }
        ensures cause { IfErr result (λ e. e ≡ SpaceFault.Read
            → Rose (B.state (blocks_below self.old)).faults
            (B.state (blocks_below self.new)).faults) }
        ensures waiting { how_many (waiting_in self.new) ≤ how_many (waiting_in self.old)
            + blocks_of place (length from.now) }
        ensures only { WaitsOnly (IsTouched place (length from.now)) (waiting_in self.old)
            (waiting_in self.new) }
        ensures changed { ChangesWithin place (length from.now) (changes_in self.old)
            (changes_in self.new) }
    {
        let mut done = 0;
        while done < from.len() {
            let at = place + done as u64;
            let start = (at % 4096) as usize;
            let count = (4096 - start).min(from.len() - done);
            self.change((at / 4096) as u32, start, &from[done..done + count])?;
            done += count;
        }
        Ok(())
    }
}
