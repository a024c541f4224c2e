//! The walk along references that finds all reached objects.

ghost use Rattle.std.specs.Prelude.{◌≡◌, ◌≢◌, ◌<◌, ◌≤◌, ◌++◌, ◌∷◌, [], IfOk, MatchBool, MatchOption};
ghost use Rattle.model.specs.declared.limits.TheConstants.{MOST_WORDS};
ghost use Rattle.verify.specs.Walks.{IsWalk, IsWalkAt, Keeps, spot_at, with_visit, looks_left};
ghost use Rattle.verify.specs.declared.spots.Spot.TheVariants.{Empty, Reached};

use crate::chart::Chart;
use crate::image::Image;
use crate::spots::{Spot, Spots};
use std::alloc::{AllocError, Global};
use std::marker::Model;

/// A walk: its spots, and the addresses that wait for their objects to be scanned. It has space for all that may ever
/// wait.
#[derive(Drop)]
pub(crate) struct Walk {
    spots: Spots,
    waiting: Vec<u64>,
}

impl Model for Walk {
    ghost use Rattle.std.specs.Prelude.{◌≤◌, ◌+◌, count_by, vec_len, vec_capacity};
    ghost use Rattle.verify.specs.Walks.{WalkData, is_unseen};

    ghost Value = { WalkData };

    ghost view = { λ w. record { spots = w.spots; waiting = w.waiting.items } };

    ghost invariant = { λ w. count_by is_unseen w.spots + vec_len w.waiting ≤ vec_capacity w.waiting };
}

impl Walk {
    /// Returns a walk that has met nothing. Fails only if out of memory.
    pub(crate) fn new(alloc: Global, image: &Image) -> Result<Walk, AllocError>
        requires sized { 0 < image.now.words }
        requires page { image.now.words ≤ MOST_WORDS }
        ensures { IfOk result (IsWalk image.now) }
    {
        let spots = Spots::new(alloc, image)?;
        let waiting = Vec::with_capacity(alloc, spots.unseen())?;
        Ok(Walk { spots, waiting })
    }

    /// Meets an object: if it wasn't met before, its address waits.
    #[tactic(auto, unfolding(crate::specs::Walks::with_visit))]
    pub(crate) fn visit(&mut self, address: u64)
        requires { spot_at self.old.spots address ≢ Empty }
        ensures { self.new ≡ with_visit self.old address }
    {
        let is_unseen = self.spots.get(address).is_unseen();
        self.spots.reach(address);
        if is_unseen {
            self.waiting.push(address).unwrap();
        }
    }

    /// Returns the next address whose object is to be scanned.
    fn next(&mut self) -> Option<u64>
        ensures spots { self.new.spots ≡ self.old.spots }
        ensures waiting { MatchOption result ((self.new ≡ self.old) × (self.old.waiting ≡ []))
            (λ a. self.old.waiting ≡ self.new.waiting ++ a ∷ []) }
    {
        self.waiting.pop()
    }

    /// Visits the addresses to which the fields of the object at an address lead.
    fn visit_fields(&mut self, chart: &Chart, address: u64)
        requires sized { 0 < chart.now.words }
        requires walk { IsWalkAt chart.now address 0 self.old }
        ensures walk { IsWalk chart.now self.new }
        ensures kept { Keeps self.old self.new }
        ensures left { looks_left self.new ≡ looks_left self.old }
    {
        for k in 0..chart.image().refs_at(address) {
            if let Some(to) = chart.target(address, k) {
                self.visit(to);
            }
        }
    }

    /// Scans the objects at all waiting addresses, until none waits.
    pub(crate) fn finish(&mut self, chart: &Chart)
        requires sized { 0 < chart.now.words }
        requires walk { IsWalk chart.now self.old }
        ensures walk { IsWalk chart.now self.new }
        ensures kept { Keeps self.old self.new }
        ensures done { self.new.waiting ≡ [] }
    {
        while let Some(address) = self.next() {
            self.visit_fields(chart, address);
        }
    }

    /// Returns its spots.
    pub(crate) fn into_spots(self) -> Spots
        ensures { result ≡ self.spots }
    {
        let Walk { spots, waiting: _ } = self;
        spots
    }
}

/// Returns whether the walk has met an address.
pub(crate) fn is_reached(spots: &Spots, address: u64) -> bool
    ensures { MatchBool result (spot_at spots.now address ≡ Reached) (spot_at spots.now address ≡ Reached → ⊥) }
{
    matches!(spots.get(address), Spot::Reached)
}
