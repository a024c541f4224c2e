//! Seats with the contents of their threads' registers.

ghost use Rattle.std.specs.Prelude.{◌≡◌};

use portions::ThreadSeat;
use std::marker::Model;
use tokens::{CellName, ThreadToken};

/// The seat of a thread, with the contents of the thread's registers at the end of its last portion, as a ghost
/// value.
#[derive(Drop)]
pub struct KnowingSeat<N: CellName> {
    pub(crate) seat: ThreadSeat,
    pub(crate) token: ThreadToken<N>,
}

impl<N: CellName> Model for KnowingSeat<N> {
    ghost use Rattle.std.specs.Prelude.{◌≡◌};
    ghost use Rattle.known_registers.specs.Knowing.{KnowingState};

    ghost Value = { KnowingState };

    ghost view = { λ s. record { thread = s.seat; registers = s.token.registers } };

    ghost invariant = { λ s. s.token.thread ≡ s.seat };
}

impl<N: CellName> KnowingSeat<N> {
    /// Returns the number of its thread, from 0.
    pub fn thread(&self) -> u32
        ensures { result ≡ self.now.thread }
    {
        self.seat.thread()
    }
}
