//! Places that are planned object by object.

ghost use Rattle.std.specs.Prelude.{◌≡◌, ◌∷◌, ℕ, List, IfOk, OnOk};
ghost use Rattle.forward.specs.Planning.{none_planned, planned};

use crate::plan::{Plan, Slot};
use crate::runs::next_place;
use std::alloc::{AllocError, Global};
use std::marker::Model;

/// Places that are planned object by object, and where the next object goes if it fits there.
#[derive(Debug, Drop)]
pub(crate) struct Planning {
    slots: Vec<Slot, Global>,
    /// Where the last object ends.
    end: Slot,
    /// How many targets the places are in.
    count: usize,
}

impl Model for Planning {
    ghost use Rattle.std.specs.Prelude.{◌≡◌, ◌≤◌, length};
    ghost use Rattle.model.specs.Plans.{target_count};
    ghost use Rattle.forward.specs.Planning.{PlanningState};

    ghost Value = { PlanningState };

    ghost view = { λ p. record { places = p.slots.items; target = p.end.0; offset = p.end.1 } };

    ghost invariant = { λ p. (p.count ≡ target_count p.slots.items) × (p.end.0 ≤ length p.slots.items) };
}

impl Planning {
    /// Returns no places, with space for those of `count` objects. Fails only if out of memory.
    pub fn new(alloc: Global, count: usize) -> Result<Planning, AllocError>
        ensures { IfOk result (λ p. p ≡ none_planned) }
    {
        Ok(Planning {
            slots: Vec::with_capacity(alloc, count)?,
            end: Slot::first(),
            count: 0,
        })
    }

    /// Plans the place of one more object, of a size in words: directly after the previous one, or at the head of the
    /// next target, of `words` words, if it doesn't fit. Fails only if out of memory.
    #[inline(always)]
    pub fn push(&mut self, words: u32, size: u32) -> Result<(), AllocError>
        ensures { OnOk result ((ns : List ℕ) → planned words self.new ns ≡ planned words self.old (size ∷ ns)) }
    {
        let place = next_place(words, self.end, size);
        self.slots.push(place)?;
        self.end = Slot {
            target: place.target,
            offset: place.offset + size,
        };
        self.count = place.target + 1;
        Ok(())
    }

    /// Returns the plan with these places.
    pub fn finish(self) -> Plan
        ensures { result ≡ self.places }
    {
        Plan {
            slots: self.slots,
            count: self.count,
        }
    }
}
