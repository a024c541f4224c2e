//! Complete collections that several threads run.

ghost use Rattle.std.specs.Prelude.{◌≡◌, IfOk};
ghost use Rattle.managed.specs.Collecting.{StandsUnseen};
ghost use Rattle.managed.specs.Scrubbing.{AreScrubbed};
ghost use Rattle.collecting.specs.Collections.{Collects, EndsCollecting, IsNotRoom};
ghost use Rattle.collecting.specs.Counting.{counted, seen_in_use};
ghost use Rattle.collecting.specs.Targets.{in_use};
ghost use Rattle.collecting.specs.declared.counting.Cause.TheVariants as causes;
ghost use Rattle.typed.specs.Owning.{ChangesCounted};

use crate::owning::TypedHeap;
use collecting::{Collected, collect_counted_by};
use model::Refusal;
use std::alloc::Global;
use std::thread::Threads;

impl TypedHeap {
    /// Does a complete collection as `HeapCalls::collect`, with the same result and errors. Its mark may scan on
    /// `threads` threads, which also measure the pages; with fewer than two, or while few objects are grey, this
    /// thread scans alone.
    pub fn collect_by<R: Threads + Sync>(
        &mut self,
        rt: &R,
        alloc: Global,
        threads: u32,
    ) -> Result<Collected, Refusal>
        ensures goes { Collects self.old.heap self.new.heap }
        ensures stands { StandsUnseen self.old.heap self.new.heap }
        ensures ends { EndsCollecting self.old.policy.percent self.old.heap result self.new.heap }
        ensures room { IsNotRoom result }
        ensures scrubbed { IfOk result (λ collected. AreScrubbed self.new.heap) }
        ensures counts { self.new.counters ≡ seen_in_use (in_use self.new.heap) (counted causes.Call result
            self.old.counters) }
        ensures kept { ChangesCounted self.old self.new }
    {
        let (counters, percent) = (&mut self.counters, self.policy.percent);
        collect_counted_by(rt, &mut self.heap, alloc, counters, percent, threads)
    }
}
