//! The worker that collects, between portions.

ghost use Rattle.std.specs.Prelude.{◌≡◌};
ghost use Rattle.managed.specs.Collecting.{StandsUnseen};
ghost use Rattle.portions.specs.Portions.{CollectsBetween, MutatorState};

use crate::mutator::Mutator;
use crate::seats::CollectorSeat;
use crate::settling::settle;
use crate::shared::SharedHeap;
use collecting::{Collect, Parts, Policy};
use model::Refusal;
use std::alloc::Global;
use std::sync::Wait;
use std::thread;
use std::time::{Clock, Duration};

/// How many milliseconds the collector sleeps when nothing is due.
const PAUSE: u64 = 1;

impl Mutator {
    /// Returns how many frames are free.
    pub(crate) fn free_frames(&self) -> u32 {
        self.heap.heap().memory().free_frames()
    }

    /// Does a part of a collection, while all threads are parked.
    pub(crate) fn collect_part(
        &mut self,
        alloc: Global,
        parts: &mut Parts,
        percent: u32,
        budget: u32,
    ) -> Result<bool, Refusal>
        ensures part { CollectsBetween percent budget parts.old parts.new result self.new }
        ensures same { StandsUnseen self.old.heap self.new.heap }
    {
        self.leave();
        let result = self.heap.collect_some(alloc, parts, percent, budget);
        settle(&mut self.heap, self.thread);
        self.heap.law();
        result
    }
}

impl Mutator {
    /// Does the next part of a collection, as `SharedHeap::collect_some`, for a program that has the heap under its
    /// own lock. A portion that hasn't ended ends before.
    pub fn collect_some(
        &mut self,
        alloc: Global,
        seat: &mut CollectorSeat,
        percent: u32,
        budget: u32,
    ) -> Result<bool, Refusal>
        ensures part { CollectsBetween percent budget seat.old seat.new result self.new }
        ensures same { StandsUnseen self.old.heap self.new.heap }
    {
        self.collect_part(alloc, &mut seat.parts, percent, budget)
    }
}

impl SharedHeap {
    /// Does the next part of a collection between two portions, as `Collect::collect_some` does: all threads are
    /// parked meanwhile, so it waits for none of them. A part takes time in proportion to `budget`, the number of
    /// objects that it scans at most. Pages of which at most `percent` words of a hundred are live are emptied.
    /// Returns whether the collection has ended.
    ///
    /// Fails with `Memory`; another call continues from there.
    pub fn collect_some<R: Wait>(
        &self,
        rt: &R,
        alloc: Global,
        seat: &mut CollectorSeat,
        percent: u32,
        budget: u32,
    ) -> Result<bool, Refusal>
        ensures { (m : MutatorState) × CollectsBetween percent budget seat.old seat.new result m }
    {
        let mut desk = self.hold(rt);
        let mutator = &mut *desk;
        mutator.collect_part(alloc, &mut seat.parts, percent, budget)
    }

    /// Does the next part of a collection if one has begun, or if at most `policy.free` frames are free. Returns
    /// whether the collection has ended, or `None` if nothing was due.
    fn collect_if_due<R: Wait>(
        &self,
        rt: &R,
        alloc: Global,
        seat: &mut CollectorSeat,
        policy: Policy,
        budget: u32,
    ) -> Result<Option<bool>, Refusal> {
        let mut desk = self.hold(rt);
        let mutator = &mut *desk;
        let free = mutator.free_frames();
        if !seat.has_begun && free > policy.free {
            return Ok(None);
        }
        seat.has_begun = true;
        let ended = mutator.collect_part(alloc, &mut seat.parts, policy.percent, budget)?;
        seat.has_begun = !ended;
        self.pace.note_part(free, mutator.free_frames());
        if ended {
            self.pace.note_end(policy.free);
        }
        Ok(Some(ended))
    }

    /// Collects between portions until `close` is called, for a thread that does nothing else. A collection begins
    /// when at most `policy.free` frames are free; it is done in parts as by `collect_some`. After each part waiting
    /// threads get the heap. When nothing is due, or it is out of memory, the thread sleeps for a millisecond.
    /// Returns how many collections have ended.
    pub fn run_collector<R: Wait + Clock>(
        &self,
        rt: &R,
        alloc: Global,
        seat: &mut CollectorSeat,
        policy: Policy,
        budget: u32,
    ) -> u64 {
        let mut collections = 0u64;
        self.pace.begin(policy.free);
        for _ in rt.forever() {
            if self.is_closed() {
                self.pace.end();
                return collections;
            }
            match self.collect_if_due(rt, alloc, seat, policy, budget) {
                Ok(Some(false)) => self.give_way(),
                Ok(Some(true)) => {
                    collections = collections.saturating_add(1);
                    thread::sleep(rt, Duration::from_millis(PAUSE));
                }
                Ok(None) => thread::sleep(rt, Duration::from_millis(PAUSE)),
                Err(_) => {
                    self.pace.end();
                    thread::sleep(rt, Duration::from_millis(PAUSE));
                }
            }
        }
        unreachable!()
    }
}
