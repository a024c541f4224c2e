//! Crossings of all threads.

ghost use Rattle.std.specs.Prelude.{◌≡◌, ◌<◌, ℕ};
ghost use Rattle.model.specs.Checkpoints.{all_crossed};
ghost use Rattle.managed.specs.Goings.{AllTried, Goes, HasTried, IsCrossing, StandsForSame};

use crate::managed::ManagedHeap;
use crate::mutating::Mutate;
use model::{Actor, Refusal, Step};

impl ManagedHeap {
    /// Has each thread that hasn't crossed the open checkpoint cross it, if it has no open barrier; for a parked one
    /// the worker does it. Fails with `NotCrossed` and the least thread that hasn't crossed then: it has an open
    /// barrier, or it is parked and there is no such worker.
    pub fn cross_all(&mut self, worker: u32) -> Result<(), Refusal>
        ensures goes { Goes (IsCrossing worker) self.old self.new }
        ensures stands { StandsForSame self.old self.new }
        ensures ends { result ≡ all_crossed self.new }
        ensures behind { AllTried worker result self.new }
    {
        self.heap().law();
        self.cross_each(worker);
        self.heap().all_crossed()
    }

    fn cross_each(&mut self, worker: u32)
        ensures goes { Goes (IsCrossing worker) self.old self.new }
        ensures tried { (t : ℕ) → t < self.old.config.threads → HasTried worker self.new t }
    {
        let threads = self.heap().config().threads;
        for thread in 0..threads {
            self.cross_one(worker, thread);
        }
    }

    fn cross_one(&mut self, worker: u32, thread: u32)
        ensures goes { Goes (IsCrossing worker) self.old self.new }
        ensures tried { HasTried worker self.new thread }
    {
        if self.heap().has_crossed(thread) {
            return;
        }
        if self.heap().is_parked(thread) {
            let _ = self.step(Actor::Worker(worker), &Step::CrossFor(thread));
        } else {
            let _ = self.cross(thread);
        }
    }
}
