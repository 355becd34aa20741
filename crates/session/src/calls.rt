//! The calls that the lines of a session make.

ghost use Rattle.std.specs.Prelude.{◌≤◌, ◌^◌};
ghost use Rattle.adf_model.specs.Steps.{Opened, Closed, Discarded};
ghost use Rattle.adf_model.specs.Modes.{opening_of};
ghost use Rattle.adf_model.specs.Runs.{Makes};

use adf_model::{AdfError, Mode, TreeCalls};

/// Files under numbers, which the lines of a session open, ask, edit, close and discard.
///
/// Where the devices that it touches tell their bytes, a call is a step of the abstract trees; and each
/// tree that is open or was closed in this session is laid out by the bytes of its device. Whether they
/// tell or not, each file that is there stays there under its number and its name until it is
/// discarded, and each refusal has its cause. Where a refusal names a rule of the layout, it is one of
/// the rules.
pub trait FileCalls: TreeCalls {
    /// Opens a file, with an address limit in blocks.
    fn open(&mut self, number: u32, mode: Mode, limit: u64) -> Result<(), AdfError>
        requires ready { Self.is_ready self.old }
        requires limit { (1 ≤ limit) × (limit ≤ 2 ^ 32) }
        ensures ready { Self.is_ready self.new }
        ensures makes { Makes (Self.files self.old) (Self.devices self.old)
            (Opened number (opening_of mode) limit result) (Self.devices self.new)
            (Self.files self.new) };

    /// Closes a file, a broken one too. It takes no memory.
    fn close(&mut self, number: u32) -> Result<(), AdfError>
        requires ready { Self.is_ready self.old }
        ensures ready { Self.is_ready self.new }
        ensures makes { Makes (Self.files self.old) (Self.devices self.old) (Closed number result)
            (Self.devices self.new) (Self.files self.new) };

    /// Drops the device of a closed file. Its number is never used again, and its last counts are still
    /// meant. It takes no memory.
    fn discard(&mut self, number: u32) -> Result<(), AdfError>
        requires ready { Self.is_ready self.old }
        ensures ready { Self.is_ready self.new }
        ensures makes { Makes (Self.files self.old) (Self.devices self.old) (Discarded number result)
            (Self.devices self.new) (Self.files self.new) };
}
