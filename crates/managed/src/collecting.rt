//! Complete marks by one worker.

ghost use Rattle.std.specs.Prelude.{◌≡◌};
ghost use Rattle.managed.specs.Collecting.{IsCollecting, EndsMark, EndsRest, EndsScanned, EndsHere};
ghost use Rattle.managed.specs.Collecting.{StandsUnseen, live_told};
ghost use Rattle.managed.specs.Goings.{Goes};

use crate::managed::ManagedHeap;
use model::{Actor, Answer, Refusal, Reply, Step};

impl ManagedHeap {
    /// Runs a complete mark, from its start: all threads cross, one worker scans all, and it ends. Returns how many
    /// objects live.
    ///
    /// If it fails with `NotCrossed` or `Pending`, because of a thread with an open barrier, the mark has begun;
    /// `finish_mark` continues it once that load is done.
    pub fn mark(&mut self, worker: u32) -> Result<u64, Refusal>
        ensures goes { Goes (IsCollecting worker) self.old self.new }
        ensures stands { StandsUnseen self.old self.new }
        ensures ends { EndsMark worker self.old result self.new }
    {
        self.mark_steps(worker)
    }

    fn mark_steps(&mut self, worker: u32) -> Result<u64, Refusal>
        ensures { EndsMark worker self.old result self.new }
    {
        match self.step(Actor::Worker(worker), &Step::StartMark) {
            Ok(_) => self.finish_steps(worker),
            Err(refusal) => Err(refusal),
        }
    }

    /// Runs the rest of a mark that has begun. Returns how many objects live.
    pub fn finish_mark(&mut self, worker: u32) -> Result<u64, Refusal>
        ensures goes { Goes (IsCollecting worker) self.old self.new }
        ensures stands { StandsUnseen self.old self.new }
        ensures ends { EndsRest worker self.old result self.new }
    {
        self.finish_steps(worker)
    }

    fn finish_steps(&mut self, worker: u32) -> Result<u64, Refusal>
        ensures { EndsRest worker self.old result self.new }
    {
        match self.cross_all(worker) {
            Ok(()) => self.drain_and_end(worker),
            Err(refusal) => Err(refusal),
        }
    }

    fn drain_and_end(&mut self, worker: u32) -> Result<u64, Refusal>
        ensures { EndsScanned worker self.old result self.new }
    {
        match self.drain(worker) {
            Ok(()) => self.end_mark(worker),
            Err(refusal) => Err(refusal),
        }
    }

    pub(crate) fn end_mark(&mut self, worker: u32) -> Result<u64, Refusal>
        ensures { EndsHere worker self.old result self.new }
    {
        let reply = self.step(Actor::Worker(worker), &Step::EndMark);
        live_of(reply)
    }
}

/// Returns how many objects live, if a mark has ended.
fn live_of(reply: Reply) -> Result<u64, Refusal>
    ensures { result ≡ live_told reply }
{
    match reply {
        Ok(Answer::Ended { live, .. }) => Ok(live),
        Ok(_) => Ok(0),
        Err(refusal) => Err(refusal),
    }
}
