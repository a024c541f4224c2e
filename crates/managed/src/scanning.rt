//! Scans of one worker.

ghost use Rattle.std.specs.Prelude.{◌≡◌, ◌<◌, ◌≤◌, None, true, false};
ghost use Rattle.drains.specs.Drains.{IsReady};
ghost use Rattle.model.specs.Scans.{next_drain};
ghost use Rattle.managed.specs.Goings.{EndsDrain, EndsScan, Goes, IsDrain, IsScan, ScansFar, ScansObjects};
ghost use Rattle.managed.specs.Goings.{StandsForSame};
ghost use Rattle.managed.specs.Preparing.{IsPrepared, ScansNothing};

use crate::managed::ManagedHeap;
use cycle::next_drain;
use drains::{Portion, drain, drain_some, is_ready};
use model::{Actor, Refusal};

impl ManagedHeap {
    /// Does up to `most` scan steps of a worker: of the object that it has, then of the globals, then of the object
    /// with the least address that no worker has. Returns true if nothing is left but what other workers have; false
    /// if `most` steps were done. It stops at the first step that fails; the steps before it are done.
    pub fn scan(&mut self, worker: u32, most: u64) -> Result<bool, Refusal>
        ensures goes { Goes (IsScan worker) self.old self.new }
        ensures stands { StandsForSame self.old self.new }
        ensures ends { EndsScan worker result self.new }
        ensures far { ScansFar worker most self.old result self.new }
    {
        self.scan_steps(worker, most)
    }

    fn scan_steps(&mut self, worker: u32, most: u64) -> Result<bool, Refusal>
        ensures goes { Goes (IsScan worker) self.old self.new }
        ensures ends { EndsScan worker result self.new }
        ensures far { ScansFar worker most self.old result self.new }
    {
        for _done in 0..most {
            let Some(step) = next_drain(self.heap(), worker) else {
                return Ok(true);
            };
            match self.step(Actor::Worker(worker), &step) {
                Ok(_) => {}
                Err(refusal) => return Err(refusal),
            }
        }
        Ok(false)
    }

    /// Scans up to `most` complete objects, until nothing is left but what other workers have, as one call; the
    /// worker is ready, as `drains::is_ready` returns. Returns how many objects were scanned; if fewer than `most`,
    /// nothing is left. The time for each object is linear in its references.
    pub fn scan_objects(&mut self, worker: u32, most: u64) -> u64
        requires { IsReady self.old worker }
        ensures objects { ScansObjects worker result self.old self.new }
        ensures stands { StandsForSame self.old self.new }
        ensures few { result ≤ most }
        ensures end { result < most → next_drain self.new worker ≡ None }
    {
        refinement::law();
        drain(&mut self.heap, worker, most)
    }

    /// As `scan_objects`, but also bounds the references: it also stops after the object with which `references`
    /// were scanned. An object has at most 1,023 references. If both bounds are above 0, it scans at least one
    /// object, or nothing is left.
    pub fn scan_portion(&mut self, worker: u32, most: u64, references: u64) -> Portion
        requires { IsReady self.old worker }
        ensures objects { ScansObjects worker result.objects self.old self.new }
        ensures stands { StandsForSame self.old self.new }
        ensures few { result.objects ≤ most }
        ensures end { result.has_ended ≡ true → next_drain self.new worker ≡ None }
        ensures goes { 0 < most → 0 < references → result.has_ended ≡ false → 0 < result.objects }
    {
        refinement::law();
        drain_some(&mut self.heap, worker, most, references)
    }

    /// Does a complete mark drain: copies the uncopied objects of protected pages, and then scans object by object
    /// until nothing is left but what other workers have. If no scan of the worker is accepted, it fails as the next
    /// one would. It fails with `TodoLeft` if 2^64 - 1 objects weren't all.
    pub fn drain(&mut self, worker: u32) -> Result<(), Refusal>
        ensures goes { Goes (IsDrain worker) self.old self.new }
        ensures stands { StandsForSame self.old self.new }
        ensures ends { EndsDrain worker self.old result self.new }
    {
        self.prepare(worker);
        self.drain_prepared(worker)
    }

    fn drain_prepared(&mut self, worker: u32) -> Result<(), Refusal>
        requires { IsPrepared worker self.old }
        ensures goes { Goes (IsDrain worker) self.old self.new }
        ensures ends { EndsDrain worker self.old result self.new }
    {
        if is_ready(self.heap(), worker) {
            self.drain_objects(worker)
        } else {
            self.drain_nothing(worker)
        }
    }

    fn drain_objects(&mut self, worker: u32) -> Result<(), Refusal>
        requires { IsReady self.old worker }
        ensures goes { Goes (IsDrain worker) self.old self.new }
        ensures ends { EndsDrain worker self.old result self.new }
    {
        if self.scan_objects(worker, u64::MAX) < u64::MAX {
            Ok(())
        } else {
            Err(Refusal::TodoLeft)
        }
    }

    pub(crate) fn drain_nothing(&mut self, worker: u32) -> Result<(), Refusal>
        requires { ScansNothing worker self.old }
        ensures goes { Goes (IsDrain worker) self.old self.new }
        ensures ends { EndsDrain worker self.old result self.new }
    {
        match self.scan(worker, 1) {
            Ok(true) => Ok(()),
            Ok(false) => unreachable!(),
            Err(refusal) => Err(refusal),
        }
    }
}
