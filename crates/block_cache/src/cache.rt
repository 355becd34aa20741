// A device with copies of the blocks that were used last.
ghost use Rattle.std.specs.Prelude.{◌≡◌, ◌^◌, ◌≤◌, [], length, nat_eq, None, IfOk, IfErr, IfSome, OnOk, OnErr, IsOk};
ghost use Rattle.std.specs.Map.{lookup, remove_entry};
ghost use Rattle.cg_io.specs.Cause.{HasCause};
ghost use Rattle.cg_io.specs.Device.{Reads, Writes, Gives, with_block, Tears};
ghost use Rattle.cg_io.specs.Blocks.{ReadsFew};
ghost use Rattle.block_cache.specs.Cache.{IsCache, IsTouched, device_in, blocks_in, capacity_of};

use crate::entries::Kept;
use adf_model::AdfError;
use cg_io::{BlockFault, Blocks, Device};
use std::alloc::Global;
use std::num::NonZeroUsize;

/// A device, and copies of at most so many of its blocks, those that were used last.
#[derive(Drop)]
pub struct BlockCache<D: Device> {
    device: D,
    blocks: Kept,
}

impl<D: Device> BlockCache<D> {
    /// A cache of at most `capacity` blocks of 4,096 bytes, none of which is kept at first.
    ///
    /// Where there is no memory for it, it gives the device back with `AdfError::Memory`.
    pub fn new(alloc: Global, device: D, capacity: usize) -> Result<BlockCache<D>, (AdfError, D)>
        requires { 1 ≤ capacity }
        ensures made { IfOk result (λ c. (device_in c ≡ device) × (blocks_in c ≡ [])
            × (capacity_of c ≡ capacity)) }
        ensures sound { IfOk result (λ c. IsCache D.state c) }
        ensures refused { IfErr result (λ e. (e.0 ≡ AdfError.Memory) × (e.1 ≡ device)) }
    {
        match Kept::new(alloc, NonZeroUsize::new(capacity).unwrap()) {
            Ok(blocks) => Ok(BlockCache { device, blocks }),
            Err(_) => Err((AdfError::Memory, device)),
        }
    }

    /// The device below.
    pub fn into_device(self) -> D
        ensures { result ≡ device_in self }
    {
        let BlockCache { device, blocks: _ } = self;
        device
    }
}

// Each method has the clauses of the trait, and then those on the blocks that are kept.
impl<D: Device> Blocks for BlockCache<D> {
    ghost state = { λ c. D.state c.device };

    ghost is_sound = { λ c. IsCache D.state c };

    /// How many bytes the device holds, by one read of it.
    fn length(&mut self) -> Result<u64, BlockFault>
        requires { IsCache D.state self.old }
        ensures sound { IsCache D.state self.new }
        ensures bound { IfOk result (λ n. n ≤ 2 ^ 44) }
        ensures told { IfOk result (λ n. IfSome (D.state (device_in self.old)).held (λ bytes. n
            ≡ length bytes)) }
        ensures effect { ReadsFew 1 (D.state (device_in self.old)) (D.state (device_in self.new)) }
        ensures cause { HasCause (D.state (device_in self.old)).faults
            (D.state (device_in self.new)).faults result }
        ensures fault { IfErr result (λ e. e ≡ BlockFault.Read) }
        ensures read { Reads (D.state (device_in self.old)) (D.state (device_in self.new)) }
        ensures kept { blocks_in self.new ≡ blocks_in self.old }
        ensures capacity { capacity_of self.new ≡ capacity_of self.old }
    {
        self.device.length().map_err(|_| BlockFault::Read)
    }

    /// The bytes of block n, zeros past the end. A block that is kept makes no read of the device, any other makes one.
    fn read_block(&mut self, n: u32, into: &mut [u8; 4096]) -> Result<(), BlockFault>
        requires { IsCache D.state self.old }
        ensures sound { IsCache D.state self.new }
        ensures told { OnOk result (Gives (D.state (device_in self.old)).held n into.new) }
        ensures effect { ReadsFew 1 (D.state (device_in self.old)) (D.state (device_in self.new)) }
        ensures cause { HasCause (D.state (device_in self.old)).faults
            (D.state (device_in self.new)).faults result }
        ensures fault { IfErr result (λ e. e ≡ BlockFault.Read) }
        ensures hit { IfSome (lookup (nat_eq n) (blocks_in self.old)) (λ block. IsOk result
            × (into.new ≡ block) × (D.state (device_in self.new) ≡ D.state (device_in self.old))) }
        ensures miss { lookup (nat_eq n) (blocks_in self.old) ≡ None
            → Reads (D.state (device_in self.old)) (D.state (device_in self.new)) }
        ensures touched { OnOk result (IsTouched (capacity_of self.old) (n, into.new)
            (blocks_in self.old) (blocks_in self.new)) }
        ensures kept { OnErr result (blocks_in self.new ≡ blocks_in self.old) }
        ensures capacity { capacity_of self.new ≡ capacity_of self.old }
    {
        if self.blocks.recall(n, into) {
            return Ok(());
        }
        match self.device.read_block(n, into) {
            Ok(()) => {
                self.blocks.keep(n, into);
                Ok(())
            }
            Err(_) => Err(BlockFault::Read),
        }
    }

    /// Makes block n of the device hold these bytes, and keeps a copy. After a failed write the block is not kept.
    fn write_block(&mut self, n: u32, from: &[u8; 4096]) -> Result<(), BlockFault>
        requires { IsCache D.state self.old }
        ensures sound { IsCache D.state self.new }
        ensures written { OnOk result ((D.state (device_in self.new)).held
            ≡ with_block (D.state (device_in self.old)).held n from.now) }
        ensures torn { OnErr result (Tears (D.state (device_in self.old)).held n
            (D.state (device_in self.new)).held) }
        ensures effect { Writes (D.state (device_in self.old)) (D.state (device_in self.new)) }
        ensures cause { HasCause (D.state (device_in self.old)).faults
            (D.state (device_in self.new)).faults result }
        ensures lost { HasCause (D.state (device_in self.old)).lost
            (D.state (device_in self.new)).lost result }
        ensures fault { IfErr result (λ e. e ≡ BlockFault.Write) }
        ensures touched { OnOk result (IsTouched (capacity_of self.old) (n, from.now)
            (blocks_in self.old) (blocks_in self.new)) }
        ensures gone { OnErr result (lookup (nat_eq n) (blocks_in self.new) ≡ None) }
        ensures others { OnErr result (blocks_in self.new
            ≡ remove_entry (nat_eq n) (blocks_in self.old)) }
        ensures capacity { capacity_of self.new ≡ capacity_of self.old }
    {
        match self.device.write_block(n, from) {
            Ok(()) => {
                self.blocks.keep(n, from);
                Ok(())
            }
            Err(_) => {
                self.blocks.forget(n);
                Err(BlockFault::Write)
            }
        }
    }
}
