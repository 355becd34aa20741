//! Why a report ends early.

ghost use Rattle.std.specs.Prelude.{◌≡◌};
ghost use Rattle.tree_report.specs.Reports.{fault_of};

use adf_model::AdfError;
use thiserror::Error;

/// Why the lines of a tree end early.
#[derive(Clone, Copy, Debug, PartialEq, Eq, Error)]
pub enum TreeFault {
    /// Want of memory.
    #[error("Memory")]
    Memory,
    /// A read of a device failed.
    #[error("Read")]
    Read,
    /// A call of the output failed.
    #[error("Sink")]
    Sink,
    /// A refusal that comes only where devices do not tell what they hold.
    #[error("{0}")]
    Core(AdfError),
}

/// What a refused question is to a report.
pub(crate) fn fault_of(error: AdfError) -> TreeFault
    ensures { result ≡ fault_of error }
{
    match error {
        AdfError::Memory => TreeFault::Memory,
        AdfError::ReadFault => TreeFault::Read,
        other => TreeFault::Core(other),
    }
}
