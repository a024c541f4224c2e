//! Pseudorandom numbers, the same for the same seed.

ghost use Rattle.std.specs.Prelude.{◌<◌};

use crate::scatter;

/// A sequence of numbers.
#[derive(Drop)]
pub struct Dice {
    number: u64,
}

impl Dice {
    /// Returns the sequence of a seed.
    pub fn new(seed: u64) -> Dice {
        Dice { number: seed }
    }

    /// Returns the next number, below a limit: the upper 31 bits of the sequence's next number, modulo the limit.
    pub fn roll(&mut self, limit: u64) -> u64
        requires { 0 < limit }
        ensures { result < limit }
    {
        self.number = scatter(self.number);
        (self.number >> 33) % limit
    }

    /// Returns true once in `sides` times on average.
    pub fn hits(&mut self, sides: u64) -> bool
        requires { 0 < sides }
    {
        self.roll(sides) == 0
    }
}
