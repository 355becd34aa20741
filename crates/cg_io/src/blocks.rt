// Blocks over a device.
ghost use Rattle.std.specs.Prelude.{◌≡◌, ◌^◌, ◌≤◌, length, IfOk, IfErr, IfSome, OnOk, OnErr};
ghost use Rattle.cg_io.specs.Cause.{HasCause};
ghost use Rattle.cg_io.specs.Device.{DeviceState, Writes, Gives, with_block, Tears};
ghost use Rattle.cg_io.specs.Blocks.{ReadsFew};

/// Why a call of blocks failed.
#[derive(Clone, Copy, Debug, PartialEq, Eq)]
pub enum BlockFault {
    /// The device below could not be read.
    Read,
    /// The device below could not be written.
    Write,
}

/// Blocks of 4,096 bytes over a device, as a cache of it. Each call needs what the layer keeps to be sound, as whoever
/// makes the layer ensures, and leaves it so.
pub trait Blocks: Drop {
    /// What the device below holds, and its counts.
    ghost state: { Self → DeviceState };

    /// What it keeps beside the device agrees with it.
    ghost is_sound: { Self → Type 0 };

    /// How many bytes the device holds, at most 2^44, by at most one read of it.
    fn length(&mut self) -> Result<u64, BlockFault>
        requires { is_sound self.old }
        ensures sound { is_sound self.new }
        ensures bound { IfOk result (λ n. n ≤ 2 ^ 44) }
        ensures told { IfOk result (λ n. IfSome (state self.old).held (λ bytes. n ≡ length bytes)) }
        ensures effect { ReadsFew 1 (state self.old) (state self.new) }
        ensures cause { HasCause (state self.old).faults (state self.new).faults result }
        ensures fault { IfErr result (λ e. e ≡ BlockFault.Read) };

    /// The bytes of block n, zeros past the end, by at most one read of the device. After a fault `into` has any bytes.
    fn read_block(&mut self, n: u32, into: &mut [u8; 4096]) -> Result<(), BlockFault>
        requires { is_sound self.old }
        ensures sound { is_sound self.new }
        ensures told { OnOk result (Gives (state self.old).held n into.new) }
        ensures effect { ReadsFew 1 (state self.old) (state self.new) }
        ensures cause { HasCause (state self.old).faults (state self.new).faults result }
        ensures fault { IfErr result (λ e. e ≡ BlockFault.Read) };

    /// Makes block n of the device hold these bytes, by one write and no read of it. After a fault that block has any bytes,
    /// as after a failed write of the device.
    fn write_block(&mut self, n: u32, from: &[u8; 4096]) -> Result<(), BlockFault>
        requires { is_sound self.old }
        ensures sound { is_sound self.new }
        ensures written { OnOk result ((state self.new).held
            ≡ with_block (state self.old).held n from.now) }
        ensures torn { OnErr result (Tears (state self.old).held n (state self.new).held) }
        ensures effect { Writes (state self.old) (state self.new) }
        ensures cause { HasCause (state self.old).faults (state self.new).faults result }
        ensures lost { HasCause (state self.old).lost (state self.new).lost result }
        ensures fault { IfErr result (λ e. e ≡ BlockFault.Write) };
}
