//! Errors of runs.

ghost use Rattle.std.specs.Prelude.{◌≡◌, false};
ghost use Rattle.script.specs.Faults.{is_line};
ghost use Rattle.script.specs.declared.fault.RunFault.TheVariants.{Memory};

use parser::LineFault;
use reporting::ReportFault;
use std::alloc::{AllocError, AllocFailed};
use thiserror::Error;

/// Why a run ends early. What was written before stays written.
#[derive(Clone, Copy, Debug, PartialEq, Eq, Error)]
pub enum RunFault {
    /// Out of memory.
    #[error("out of memory")]
    Memory,
    /// The writer failed.
    #[error("cannot write")]
    Write,
    /// The script has a command that only a run by threads does.
    #[error(transparent)]
    Line(LineFault),
}

impl From<AllocError> for RunFault {
    ghost from_gives = { λ _ fault. fault ≡ Memory };

    fn from(_error: AllocError) -> RunFault {
        RunFault::Memory
    }
}

impl<T: Drop> From<AllocFailed<T>> for RunFault {
    ghost from_gives = { λ _ fault. fault ≡ Memory };

    fn from(_error: AllocFailed<T>) -> RunFault {
        RunFault::Memory
    }
}

impl From<ReportFault> for RunFault {
    fn from(fault: ReportFault) -> RunFault {
        match fault {
            ReportFault::Memory => RunFault::Memory,
            ReportFault::Write => RunFault::Write,
        }
    }
}

impl RunFault {
    /// Returns the same error, but never that of a line, which is tested before a run.
    pub fn of_run(self) -> RunFault
        ensures { is_line result ≡ false }
    {
        match self {
            RunFault::Write => RunFault::Write,
            _ => RunFault::Memory,
        }
    }
}
