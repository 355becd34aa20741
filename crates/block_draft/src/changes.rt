// Changed blocks, with no word of what lies below.
ghost use Rattle.std.specs.Prelude.{◌≡◌, ◌+◌, ◌≤◌, [], length, true, false, Some, None, IfSome, IsSome, OnOk, OnErr};
ghost use Rattle.cg_io.specs.Device.{overwritten};
ghost use Rattle.block_draft.specs.Changes.{block_in, Puts, AreChanges};

use std::alloc::{AllocError, Global};
use std::collections::BTreeMap;
use std::marker::Model;

/// The bytes of a block.
#[derive(Drop)]
pub(crate) struct Block {
    bytes: Box<[u8; 4096]>,
}

impl Model for Block {
    ghost use Rattle.std.specs.Prelude.{ℕ, List};

    ghost Value = { List ℕ };

    ghost view = { λ b. b.bytes.value };
}

impl Block {
    pub(crate) fn bytes(&self) -> &[u8; 4096]
        ensures { result.now ≡ self.now }
    {
        &self.bytes
    }

    // Writes over a part of it.
    fn patch(&mut self, start: usize, from: &[u8])
        requires { start + length from.now ≤ 4096 }
        ensures { self.new ≡ overwritten self.old start from.now }
    {
        patch(&mut self.bytes, start, from);
    }
}

/// Changed blocks by their numbers.
#[derive(Drop)]
pub(crate) struct Changes {
    pub(crate) blocks: BTreeMap<u32, Block>,
    alloc: Global,
}

impl Model for Changes {
    ghost use Rattle.std.specs.Prelude.{ℕ, List};
    ghost use Rattle.block_draft.specs.Changes.{AreChanges};

    ghost Value = { List (ℕ × List ℕ) };

    ghost view = { λ c. c.blocks.entries };

    ghost invariant = { λ c. AreChanges c.blocks.entries };
}

impl Changes {
    pub(crate) fn new(alloc: Global) -> Changes
        ensures { result ≡ [] }
    {
        Changes {
            blocks: BTreeMap::new(alloc),
            alloc,
        }
    }

    pub(crate) fn len(&self) -> usize
        ensures { result ≡ length self.now }
    {
        self.blocks.len()
    }

    pub(crate) fn clear(&mut self)
        ensures { self.new ≡ [] }
    {
        self.blocks.clear();
    }

    /// Copies a changed block, and says whether there is one.
    pub(crate) fn copy(&self, n: u32, into: &mut [u8; 4096]) -> bool
        ensures found { result ≡ true → block_in self.now n ≡ Some into.new }
        ensures missed { result ≡ false → (block_in self.now n ≡ None) × (into.new ≡ into.old) }
        ensures valid { AreChanges self.now }
    {
        match self.blocks.get(&n) {
            Some(block) => {
                *into = *block.bytes();
                true
            }
            None => false,
        }
    }

    /// Writes over a part of a changed block, and says whether there is one.
    pub(crate) fn patch(&mut self, n: u32, start: usize, from: &[u8]) -> bool
        requires { start + length from.now ≤ 4096 }
        ensures found { result ≡ true → IsSome (block_in self.old n) }
        ensures patched { result ≡ true
            → IfSome (block_in self.old n) (λ was.
            Puts n (overwritten was start from.now) self.old self.new) }
        ensures missed { result ≡ false → (block_in self.old n ≡ None) × (self.new ≡ self.old) }
        ensures was { AreChanges self.old }
        ensures valid { AreChanges self.new }
    {
        let Some(block) = self.blocks.get_mut(&n) else {
            return false;
        };
        block.patch(start, from);
        true
    }

    /// Puts a block there.
    pub(crate) fn put(&mut self, n: u32, block: &[u8; 4096]) -> Result<(), AllocError>
        ensures ok { OnOk result (Puts n block.now self.old self.new) }
        ensures err { OnErr result (self.new ≡ self.old) }
        ensures valid { AreChanges self.new }
    {
        let bytes = Box::new(self.alloc, *block)?;
        match self.blocks.insert(n, Block { bytes }) {
            Ok(_) => Ok(()),
            Err(_) => Err(AllocError),
        }
    }
}

/// Writes over a part of a block.
#[tactic(auto, unfolding(cg_io::specs::Device::padded, cg_io::specs::Device::overwritten))]
pub(crate) fn patch(block: &mut [u8; 4096], start: usize, from: &[u8])
    requires { start + length from.now ≤ 4096 }
    ensures { block.new ≡ overwritten block.old start from.now }
{
    block[start..start + from.len()].copy_from_slice(from);
}
