//! Places for objects that move.

ghost use Rattle.std.specs.Prelude.{◌≡◌, ◌≤◌, length, slice_get, IfOk};
ghost use Rattle.std.specs.Option.{option_copied};
ghost use Rattle.model.specs.Owning.{Each};
ghost use Rattle.model.specs.Plans.{places_from, target_count};
ghost use Rattle.forward.specs.Places.{ArePlanned};

use crate::planning::Planning;
use std::alloc::{AllocError, Global};
use std::marker::Model;

/// The place of an object that moves: a target, and an offset in it, in words.
#[derive(Clone, Copy, Debug, PartialEq, Eq)]
pub struct Slot {
    pub(crate) target: usize,
    pub(crate) offset: u32,
}

impl Model for Slot {
    ghost use Rattle.std.specs.Prelude.{ℕ};

    ghost Value = { ℕ × ℕ };

    ghost view = { λ s. (s.target, s.offset) };

    ghost inverse = { λ v. record { target = v.0; offset = v.1 } };
}

impl Slot {
    /// Returns the place of the first of all objects: the head of the first target.
    pub fn first() -> Slot
        ensures { result ≡ (0, 0) }
    {
        Slot {
            target: 0,
            offset: 0,
        }
    }

    /// Returns the number of the target, from 0.
    pub fn target(self) -> usize
        ensures { result ≡ self.0 }
    {
        self.target
    }

    /// Returns the offset in the target, in words.
    pub fn offset(self) -> u32
        ensures { result ≡ self.1 }
    {
        self.offset
    }
}

/// The places of objects, in their order. A target is an empty page.
#[derive(Debug, Drop)]
pub struct Plan {
    pub(crate) slots: Vec<Slot, Global>,
    /// How many targets the places are in.
    pub(crate) count: usize,
}

impl Model for Plan {
    ghost use Rattle.std.specs.Prelude.{◌≡◌, ℕ, List};
    ghost use Rattle.model.specs.Plans.{target_count};

    ghost Value = { List (ℕ × ℕ) };

    ghost view = { λ p. p.slots.items };

    ghost invariant = { λ p. p.count ≡ target_count p.slots.items };
}

impl Plan {
    /// Plans places for objects of these sizes, in targets of `words` words: the first at the head of the first
    /// target, each other directly after the previous one, or at the head of the next target if it doesn't fit. So
    /// each lies in its target, and no two overlap. A size is 1 to `words`. Fails only if out of memory.
    pub fn new(alloc: Global, words: u32, sizes: &[u32]) -> Result<Plan, AllocError>
        ensures places { IfOk result (λ p. p ≡ places_from words 0 0 sizes.now) }
        ensures planned { IfOk result (λ p. Each sizes.now (λ n. n ≤ words) → ArePlanned words sizes.now p) }
    {
        let mut planning = Planning::new(alloc, sizes.len())?;
        for index in 0..sizes.len() {
            planning.push(words, sizes[index])?;
        }
        Ok(planning.finish())
    }

    /// Returns how many places there are.
    pub fn len(&self) -> usize
        ensures { result ≡ length self.now }
    {
        self.slots.len()
    }

    /// Returns how many targets the places are in.
    pub fn targets(&self) -> usize
        ensures { result ≡ target_count self.now }
    {
        self.count
    }

    /// Returns the place of the object of this number, from 0, or `None`.
    pub fn place(&self, index: usize) -> Option<Slot>
        ensures { result ≡ slice_get self.now index }
    {
        self.slots.get(index).copied()
    }
}
