//! Why a check ends early.

ghost use Rattle.std.specs.Prelude.{◌≡◌};
ghost use Rattle.cgns_check.specs.Checked.{fault_of};

use adf_model::AdfError;
use thiserror::Error;

/// Why a check ends early.
#[derive(Clone, Copy, Debug, PartialEq, Eq, Error)]
pub enum CheckFault {
    /// Want of memory.
    #[error("Memory")]
    Memory,
    /// A read of a device failed.
    #[error("Read")]
    Read,
    /// A call of the output failed.
    #[error("Sink")]
    Sink,
    /// A refusal that comes only where devices do not tell what they hold.
    #[error("{0}")]
    Core(AdfError),
}

/// What a refused question is to a check.
pub(crate) fn fault_of(error: AdfError) -> CheckFault
    ensures { result ≡ fault_of error }
{
    match error {
        AdfError::Memory => CheckFault::Memory,
        AdfError::ReadFault => CheckFault::Read,
        other => CheckFault::Core(other),
    }
}
