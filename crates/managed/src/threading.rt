//! Complete marks by one worker, whose scans use threads.

ghost use Rattle.std.specs.Prelude.{◌≡◌, ◌<◌, ◌≤◌, None};
ghost use Rattle.drains.specs.Drains.{IsReady};
ghost use Rattle.model.specs.Scans.{next_drain};
ghost use Rattle.managed.specs.Collecting.{IsCollecting, EndsMark, EndsRest, EndsScanned};
ghost use Rattle.managed.specs.Collecting.{StandsUnseen};
ghost use Rattle.managed.specs.Goings.{EndsDrain, Goes, IsDrain, ScansObjects, StandsForSame};
ghost use Rattle.managed.specs.Preparing.{IsPrepared};

use crate::managed::ManagedHeap;
use drains::is_ready;
use model::{Actor, Refusal, Step};
use std::thread::Threads;
use waves::drain_by;

impl ManagedHeap {
    /// Scans objects as `scan_objects` does, on a number of threads, as `waves::drain_by` does.
    pub fn scan_objects_by<R: Threads + Sync>(
        &mut self,
        rt: &R,
        worker: u32,
        most: u64,
        threads: u32,
    ) -> u64
        requires { IsReady self.old worker }
        ensures objects { ScansObjects worker result self.old self.new }
        ensures stands { StandsForSame self.old self.new }
        ensures few { result ≤ most }
        ensures end { result < most → next_drain self.new worker ≡ None }
    {
        refinement::law();
        drain_by(rt, &mut self.heap, worker, most, threads)
    }

    /// Does a complete mark drain as `drain` does, on a number of threads.
    pub fn drain_by<R: Threads + Sync>(
        &mut self,
        rt: &R,
        worker: u32,
        threads: u32,
    ) -> Result<(), Refusal>
        ensures goes { Goes (IsDrain worker) self.old self.new }
        ensures stands { StandsForSame self.old self.new }
        ensures ends { EndsDrain worker self.old result self.new }
    {
        self.prepare(worker);
        self.drain_prepared_by(rt, worker, threads)
    }

    fn drain_prepared_by<R: Threads + Sync>(
        &mut self,
        rt: &R,
        worker: u32,
        threads: u32,
    ) -> Result<(), Refusal>
        requires { IsPrepared worker self.old }
        ensures goes { Goes (IsDrain worker) self.old self.new }
        ensures ends { EndsDrain worker self.old result self.new }
    {
        if is_ready(self.heap(), worker) {
            self.drain_objects_by(rt, worker, threads)
        } else {
            self.drain_nothing(worker)
        }
    }

    fn drain_objects_by<R: Threads + Sync>(
        &mut self,
        rt: &R,
        worker: u32,
        threads: u32,
    ) -> Result<(), Refusal>
        requires { IsReady self.old worker }
        ensures goes { Goes (IsDrain worker) self.old self.new }
        ensures ends { EndsDrain worker self.old result self.new }
    {
        if self.scan_objects_by(rt, worker, u64::MAX, threads) < u64::MAX {
            Ok(())
        } else {
            Err(Refusal::TodoLeft)
        }
    }

    /// Runs a complete mark as `mark` does, which scans on a number of threads.
    pub fn mark_by<R: Threads + Sync>(
        &mut self,
        rt: &R,
        worker: u32,
        threads: u32,
    ) -> Result<u64, Refusal>
        ensures goes { Goes (IsCollecting worker) self.old self.new }
        ensures stands { StandsUnseen self.old self.new }
        ensures ends { EndsMark worker self.old result self.new }
    {
        self.mark_steps_by(rt, worker, threads)
    }

    fn mark_steps_by<R: Threads + Sync>(
        &mut self,
        rt: &R,
        worker: u32,
        threads: u32,
    ) -> Result<u64, Refusal>
        ensures { EndsMark worker self.old result self.new }
    {
        match self.step(Actor::Worker(worker), &Step::StartMark) {
            Ok(_) => self.finish_steps_by(rt, worker, threads),
            Err(refusal) => Err(refusal),
        }
    }

    /// Runs the rest of a mark that has begun, as `finish_mark` does, which scans on a number of threads.
    pub fn finish_mark_by<R: Threads + Sync>(
        &mut self,
        rt: &R,
        worker: u32,
        threads: u32,
    ) -> Result<u64, Refusal>
        ensures goes { Goes (IsCollecting worker) self.old self.new }
        ensures stands { StandsUnseen self.old self.new }
        ensures ends { EndsRest worker self.old result self.new }
    {
        self.finish_steps_by(rt, worker, threads)
    }

    fn finish_steps_by<R: Threads + Sync>(
        &mut self,
        rt: &R,
        worker: u32,
        threads: u32,
    ) -> Result<u64, Refusal>
        ensures { EndsRest worker self.old result self.new }
    {
        match self.cross_all(worker) {
            Ok(()) => self.drain_and_end_by(rt, worker, threads),
            Err(refusal) => Err(refusal),
        }
    }

    fn drain_and_end_by<R: Threads + Sync>(
        &mut self,
        rt: &R,
        worker: u32,
        threads: u32,
    ) -> Result<u64, Refusal>
        ensures { EndsScanned worker self.old result self.new }
    {
        match self.drain_by(rt, worker, threads) {
            Ok(()) => self.end_mark(worker),
            Err(refusal) => Err(refusal),
        }
    }
}
