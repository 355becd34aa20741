// The blocks that are kept, with no word of the device.
ghost use Rattle.std.specs.Prelude.{◌≡◌, [], true, false, nat_eq, Some, None, IfOk};
ghost use Rattle.std.specs.NonZero.{non_zero_usize_get};
ghost use Rattle.std.specs.Map.{lookup, remove_entry};
ghost use Rattle.lru.specs.LruCache.{lru_cache};
ghost use Rattle.block_cache.specs.Cache.{IsTouched, touch};

use lru::LruCache;
use std::alloc::{AllocError, Global};
use std::marker::Model;
use std::num::NonZeroUsize;

/// The bytes of a block.
#[derive(Drop)]
struct Block {
    bytes: Box<[u8; 4096]>,
}

impl Model for Block {
    ghost use Rattle.std.specs.Prelude.{ℕ, List};

    ghost Value = { List ℕ };

    ghost view = { λ b. b.bytes.value };
}

impl Block {
    fn new(alloc: Global) -> Result<Block, AllocError> {
        let bytes = Box::new(alloc, [0; 4096])?;
        Ok(Block { bytes })
    }

    fn bytes(&self) -> &[u8; 4096]
        ensures { result.now ≡ self.now }
    {
        &self.bytes
    }

    fn write(&mut self, from: &[u8; 4096])
        ensures { self.new ≡ from.now }
    {
        *self.bytes = *from;
    }
}

/// The blocks that are kept by their numbers, the one that was used last first, and the memory of one more, which the next
/// block takes where there is no room: then the memory of the block that falls out is set aside.
#[derive(Drop)]
pub(crate) struct Kept {
    blocks: LruCache<u32, Block>,
    aside: Option<Block>,
    alloc: Global,
}

impl Model for Kept {
    ghost use Rattle.std.specs.Prelude.{ℕ, List};
    ghost use Rattle.lru.specs.LruCache.{LruCache as Entries};

    ghost Value = { Entries ℕ (List ℕ) };

    ghost view = { λ k. k.blocks };
}

impl Kept {
    /// Room for so many blocks.
    pub(crate) fn new(alloc: Global, capacity: NonZeroUsize) -> Result<Kept, AllocError>
        ensures { IfOk result (λ k. k ≡ lru_cache [] (non_zero_usize_get capacity)) }
    {
        let blocks = LruCache::new(alloc, capacity)?;
        let block = Block::new(alloc)?;
        Ok(Kept {
            blocks,
            aside: Some(block),
            alloc,
        })
    }

    /// Copies a block that is kept, which then goes first, and says whether it is kept.
    pub(crate) fn recall(&mut self, n: u32, into: &mut [u8; 4096]) -> bool
        ensures found { result ≡ true → lookup (nat_eq n) self.old.entries ≡ Some into.new }
        ensures first { result ≡ true → self.new.entries
            ≡ touch self.old.cap (n, into.new) self.old.entries }
        ensures missed { result ≡ false → (lookup (nat_eq n) self.old.entries ≡ None)
            × (self.new ≡ self.old) × (into.new ≡ into.old) }
        ensures cap { self.new.cap ≡ self.old.cap }
    {
        let _ = self.blocks.len();
        match self.blocks.peek(&n) {
            Some(block) => {
                *into = *block.bytes();
                self.blocks.promote(&n)
            }
            None => false,
        }
    }

    /// Keeps a block, unless it is new and there is no memory for it.
    pub(crate) fn keep(&mut self, n: u32, from: &[u8; 4096])
        ensures touched { IsTouched self.old.cap (n, from.now) self.old.entries self.new.entries }
        ensures cap { self.new.cap ≡ self.old.cap }
    {
        if !self.replace(n, from) {
            self.add(n, from);
        }
    }

    // Writes over a block that is kept, which then goes first, and says whether it is kept.
    fn replace(&mut self, n: u32, from: &[u8; 4096]) -> bool
        ensures first { result ≡ true → self.new.entries
            ≡ touch self.old.cap (n, from.now) self.old.entries }
        ensures missed { result ≡ false → (lookup (nat_eq n) self.old.entries ≡ None)
            × (self.new ≡ self.old) }
        ensures cap { self.new.cap ≡ self.old.cap }
    {
        let _ = self.blocks.len();
        let Some(block) = self.blocks.peek_mut(&n) else {
            return false;
        };
        block.write(from);
        let _ = self.blocks.promote(&n);
        true
    }

    // Adds a block, unless there is no memory for it.
    fn add(&mut self, n: u32, from: &[u8; 4096])
        requires { lookup (nat_eq n) self.old.entries ≡ None }
        ensures touched { IsTouched self.old.cap (n, from.now) self.old.entries self.new.entries }
        ensures cap { self.new.cap ≡ self.old.cap }
    {
        let Some(mut block) = self.memory() else {
            return;
        };
        block.write(from);
        let out = put_first(&mut self.blocks, n, block);
        let aside = self.aside.take();
        self.aside = out.or(aside);
    }

    // The memory of a block: new while there is room for one more, and else what was set aside.
    fn memory(&mut self) -> Option<Block>
        ensures { self.new ≡ self.old }
    {
        if self.blocks.len() < self.blocks.cap().get() {
            return Block::new(self.alloc).ok();
        }
        self.aside.take()
    }

    /// Keeps a block no longer.
    pub(crate) fn forget(&mut self, n: u32)
        ensures gone { lookup (nat_eq n) self.new.entries ≡ None }
        ensures others { self.new.entries ≡ remove_entry (nat_eq n) self.old.entries }
        ensures cap { self.new.cap ≡ self.old.cap }
    {
        let _ = self.blocks.len();
        let _ = self.blocks.pop(&n);
    }
}

// Puts a block before the others, and gives back the one that falls out, or the block itself where there is no memory for
// its entry.
fn put_first(blocks: &mut LruCache<u32, Block>, n: u32, block: Block) -> Option<Block>
    requires { lookup (nat_eq n) blocks.old.entries ≡ None }
    ensures touched { IsTouched blocks.old.cap (n, block) blocks.old.entries blocks.new.entries }
    ensures cap { blocks.new.cap ≡ blocks.old.cap }
{
    let _ = blocks.len();
    match blocks.push(n, block) {
        Ok(Some((_, out))) => Some(out),
        Ok(None) => None,
        Err(failed) => Some(failed.value.1),
    }
}
