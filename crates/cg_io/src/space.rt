// Bytes by their places, to be read and to be written.
ghost use Rattle.std.specs.Prelude.{◌≡◌, ℕ, List, Option, ◌^◌, ◌+◌, ◌≤◌, length, IfErr, OnOk, OnErr};
ghost use Rattle.cg_io.specs.Cause.{Rose};
ghost use Rattle.cg_io.specs.Device.{DeviceState, GivesAt};
ghost use Rattle.cg_io.specs.Blocks.{ReadsFew, blocks_of, Both, Wrote, KeepsOutside};
ghost use Rattle.cg_io.specs.Waits.{how_many, IsTouched, WaitsOnly};
ghost use Rattle.cg_io.specs.Answers.{AnswersRead, HasRisen};

use adf_model::AdfError;

/// The device below could not be read.
#[derive(Clone, Copy, Debug, PartialEq, Eq)]
pub struct ReadFault;

impl From<ReadFault> for AdfError {
    ghost use Rattle.std.specs.Prelude.{◌≡◌};
    ghost use Rattle.adf_model.specs.declared.error.AdfError.TheVariants.{ReadFault as read};

    ghost from_gives = { λ _ error. error ≡ read };

    fn from(_fault: ReadFault) -> AdfError {
        AdfError::ReadFault
    }
}

/// Bytes by their places, below 2^44, over a device.
pub trait ReadBytes: Drop {
    /// The bytes that it shows, where they are told.
    ghost image: { Self → Option (List ℕ) };

    /// What the device below holds, and its counts.
    ghost state: { Self → DeviceState };

    /// What it keeps beside the device agrees with it.
    ghost is_sound: { Self → Type 0 };

    /// The blocks that wait to be written to the device, by their numbers.
    ghost waiting: { Self → List ℕ };

    /// The bytes from a place on, zeros past the end, by at most one read of the device for each block that the range touches.
    /// After a fault `into` has any bytes.
    fn read(&mut self, place: u64, into: &mut [u8]) -> Result<(), ReadFault>
        requires sound { is_sound self.old }
        requires within { place + length into.old ≤ 2 ^ 44 }
        ensures told { OnOk result (GivesAt (image self.old) place into.new) }
        ensures reads { AnswersRead is_sound image state waiting
            (ReadsFew (blocks_of place (length into.old))) HasRisen self.old self.new result };
}

/// Why a write of a space failed.
#[derive(Clone, Copy, Debug, PartialEq, Eq)]
pub enum SpaceFault {
    /// There was no memory to keep what was to be written.
    Memory,
    /// The device below could not be read.
    Read,
}

/// Bytes that can be written too. What is written shows in the space, and not yet in the device.
pub trait Space: ReadBytes {
    /// Writes over the bytes from a place on, with zeros in a gap before them, and makes as many reads as `read` would. After
    /// a fault the bytes of the range are any. No block waits anew but those that the range touches.
    fn write(&mut self, place: u64, from: &[u8]) -> Result<(), SpaceFault>
        requires sound { Self.is_sound self.old }
        requires within { place + length from.now ≤ 2 ^ 44 }
        ensures sound { Self.is_sound self.new }
        ensures written { OnOk result (Both (Wrote place from.now) (Self.image self.old)
            (Self.image self.new)) }
        ensures refused { OnErr result (Both (KeepsOutside place (length from.now))
            (Self.image self.old) (Self.image self.new)) }
        ensures effect { ReadsFew (blocks_of place (length from.now)) (Self.state self.old)
            (Self.state self.new) }
        ensures cause { IfErr result (λ e. e ≡ SpaceFault.Read
            → Rose (Self.state self.old).faults (Self.state self.new).faults) }
        ensures waiting { how_many (Self.waiting self.new)
            ≤ how_many (Self.waiting self.old) + blocks_of place (length from.now) }
        ensures only { WaitsOnly (IsTouched place (length from.now)) (Self.waiting self.old)
            (Self.waiting self.new) };
}
