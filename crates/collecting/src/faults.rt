//! A few kinds of errors, for a program that alone uses its heap.

ghost use Rattle.std.specs.Prelude.{◌≡◌};
ghost use Rattle.collecting.specs.Faults.{fault_in};

use crate::numbers::{Number, wrong_number};
use crate::policy::PolicyFault;
use heap::Heap;
use model::{Refusal, Step};
use std::error::Error;
use std::fmt;

/// Why a call of a program failed. A program whose heap nobody else collects or shares never meets `Held`.
#[derive(Clone, Copy, Debug, PartialEq, Eq)]
pub enum CallFault {
    /// A register is null.
    Null,
    /// A number names nothing: a thread, a register, a global, a layout, a field or a datum. `CallFault::of_step` says
    /// which.
    Index,
    /// A number of this kind names nothing.
    Wrong(Number),
    /// A field of the policy is out of its range.
    Policy(PolicyFault),
    /// The heap is full.
    Full,
    /// Out of memory.
    Memory,
    /// The limit of births is reached.
    Births,
    /// Something else prevents it: an open barrier, a parked thread, or a collection by steps.
    Held(Refusal),
}

impl From<Refusal> for CallFault {
    ghost use Rattle.std.specs.Prelude.{◌≡◌};
    ghost use Rattle.collecting.specs.Faults.{fault_of};

    ghost from_gives = { λ r f. f ≡ fault_of r };

    fn from(refusal: Refusal) -> CallFault
        ensures { result ≡ fault_of refusal }
    {
        match refusal {
            Refusal::Null => CallFault::Null,
            Refusal::NoActor | Refusal::BadIndex => CallFault::Index,
            Refusal::NoRoom | Refusal::NoFrames { .. } | Refusal::NoPages => CallFault::Full,
            Refusal::Memory => CallFault::Memory,
            Refusal::Births => CallFault::Births,
            other => CallFault::Held(other),
        }
    }
}

impl From<PolicyFault> for CallFault {
    ghost use Rattle.std.specs.Prelude.{◌≡◌};
    ghost use Rattle.collecting.specs.declared.faults.CallFault.TheVariants as faults;

    ghost from_gives = { λ p f. f ≡ faults.Policy p };

    fn from(fault: PolicyFault) -> CallFault
        ensures { result ≡ faults.Policy fault }
    {
        CallFault::Policy(fault)
    }
}

impl CallFault {
    /// Returns the kind of the error of a thread's step on this heap. If the step names a thread, a register, a
    /// global, a layout, a field or a datum that isn't there, `Wrong` says which of these; all else is as by
    /// `CallFault::from`.
    pub fn of_step(heap: &Heap, step: &Step, refusal: Refusal) -> CallFault
        ensures { result ≡ fault_in heap.now step.now refusal }
    {
        match refusal {
            Refusal::NoActor => CallFault::Wrong(Number::Thread),
            Refusal::BadIndex => match wrong_number(heap, step) {
                Some(number) => CallFault::Wrong(number),
                None => CallFault::Index,
            },
            other => CallFault::from(other),
        }
    }
}

impl fmt::Display for CallFault {
    fn fmt<W: fmt::Write>(&self, f: &mut fmt::Formatter<W>) -> fmt::Result {
        match *self {
            CallFault::Null => f.write_str("the register is null"),
            CallFault::Index => f.write_str("a number names nothing"),
            CallFault::Wrong(number) => write!(f, "{number}"),
            CallFault::Policy(fault) => write!(f, "{fault}"),
            CallFault::Full => f.write_str("the heap has no room"),
            CallFault::Memory => f.write_str("memory was refused"),
            CallFault::Births => f.write_str("no more objects may be born"),
            CallFault::Held(refusal) => write!(f, "refused {refusal}"),
        }
    }
}

impl Error for CallFault {}
