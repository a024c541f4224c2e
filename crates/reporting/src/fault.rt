//! Why a report ends before its end.

ghost use Rattle.std.specs.Prelude.{◌≡◌};
ghost use Rattle.reporting.specs.declared.fault.ReportFault.TheVariants.{Memory};

use std::alloc::AllocError;
use thiserror::Error;

/// Why a report isn't complete. What was written before stays written.
#[derive(Clone, Copy, Debug, PartialEq, Eq, Error)]
pub enum ReportFault {
    /// Out of memory.
    #[error("out of memory")]
    Memory,
    /// The writer failed.
    #[error("cannot write")]
    Write,
}

impl From<AllocError> for ReportFault {
    ghost from_gives = { λ _ fault. fault ≡ Memory };

    fn from(_error: AllocError) -> ReportFault {
        ReportFault::Memory
    }
}
