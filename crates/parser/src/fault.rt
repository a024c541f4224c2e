//! Faults of scripts.

ghost use Rattle.std.specs.Prelude.{◌≡◌};
ghost use Rattle.parser.specs.declared.fault.ParseFault.TheVariants.{Memory};

use std::alloc::{AllocError, AllocFailed};
use thiserror::Error;

/// A kind of fault. Of two at one place the first in this list is reported.
#[derive(Clone, Copy, Debug, PartialEq, Eq, Error)]
pub enum FaultKind {
    /// The first line that isn't empty or a comment is no heap line.
    #[error("heap line expected")]
    HeapLineExpected,
    /// No layout line follows the heap line.
    #[error("layout line expected")]
    LayoutLineExpected,
    /// An actor, a register, a keyword or a command's word is missing or malformed.
    #[error("unknown word")]
    UnknownWord,
    /// A number is missing or malformed. Numbers are decimal digits without leading zeros.
    #[error("number expected")]
    NumberExpected,
    /// A number is out of its range.
    #[error("number out of range")]
    NumberOutOfRange,
    /// An object of the layout doesn't fit in a page. The fault is at the number of data words.
    #[error("layout too large")]
    LayoutTooLarge,
    /// The heap has no such thread or worker.
    #[error("no such actor")]
    NoSuchActor,
    /// A thread has no such register.
    #[error("no such register")]
    NoSuchRegister,
    /// A line continues after its last word.
    #[error("end of line expected")]
    EndOfLineExpected,
    /// The last line has no newline.
    #[error("newline expected")]
    NewlineExpected,
    /// A cycle, which only a run by threads does, in another run.
    #[error("cycle needs threads")]
    CycleNeedsThreads,
    /// A line `end` outside a block.
    #[error("end without times")]
    EndWithoutTimes,
    /// A block is open at the end of the text.
    #[error("times without end")]
    TimesWithoutEnd,
    /// The script has more commands than `MOST_COMMANDS`.
    #[error("too many commands")]
    TooManyCommands,
}

/// A fault in a line whose number the caller knows.
#[derive(Clone, Copy, Debug, PartialEq, Eq)]
pub struct Flaw {
    /// The column, in bytes from 1.
    pub column: usize,
    /// What is wrong.
    pub kind: FaultKind,
}

/// The first fault of a script, and its place.
#[derive(Clone, Copy, Debug, PartialEq, Eq, Error)]
#[error("line {line} column {column}: {kind}")]
pub struct LineFault {
    /// The line, from 1. Empty lines and comments count.
    pub line: usize,
    /// The column, in bytes from 1.
    pub column: usize,
    /// What is wrong.
    pub kind: FaultKind,
}

/// Why a script can't be read.
#[derive(Clone, Copy, Debug, PartialEq, Eq, Error)]
pub enum ParseFault {
    /// It has more bytes than `MOST_BYTES`.
    #[error("script too long")]
    TooLong,
    /// It has a fault.
    #[error(transparent)]
    Line(LineFault),
    /// Out of memory.
    #[error("out of memory")]
    Memory,
}

impl From<AllocError> for ParseFault {
    ghost from_gives = { λ _ e. e ≡ Memory };

    fn from(_e: AllocError) -> ParseFault {
        ParseFault::Memory
    }
}

impl<T: Drop> From<AllocFailed<T>> for ParseFault {
    ghost from_gives = { λ _ e. e ≡ Memory };

    fn from(_e: AllocFailed<T>) -> ParseFault {
        ParseFault::Memory
    }
}

/// Why a line is rejected.
#[derive(Drop)]
pub enum Stop {
    Memory,
    Flaw(Flaw),
}

impl From<Flaw> for Stop {
    ghost use Rattle.std.specs.Prelude.{◌≡◌};
    ghost use Rattle.parser.specs.declared.fault.Stop.TheVariants as stops;

    ghost from_gives = { λ f e. e ≡ stops.Flaw f };

    fn from(flaw: Flaw) -> Stop {
        Stop::Flaw(flaw)
    }
}

impl From<AllocError> for Stop {
    ghost use Rattle.std.specs.Prelude.{◌≡◌};
    ghost use Rattle.parser.specs.declared.fault.Stop.TheVariants as stops;

    ghost from_gives = { λ _ e. e ≡ stops.Memory };

    fn from(_e: AllocError) -> Stop {
        Stop::Memory
    }
}

impl<T: Drop> From<AllocFailed<T>> for Stop {
    ghost use Rattle.std.specs.Prelude.{◌≡◌};
    ghost use Rattle.parser.specs.declared.fault.Stop.TheVariants as stops;

    ghost from_gives = { λ _ e. e ≡ stops.Memory };

    fn from(_e: AllocFailed<T>) -> Stop {
        Stop::Memory
    }
}
