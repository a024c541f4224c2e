//! Complete collections that several threads run.

ghost use Rattle.collecting.specs.Collections.{EndsCollecting};
ghost use Rattle.portions.specs.Portions.{GoesOn, ThenCrosses};

use crate::mutator::Mutator;
use crate::settling::settle;
use collecting::{Collected, collect_by};
use model::Refusal;
use std::alloc::Global;
use std::thread::Threads;

impl Mutator {
    /// Collects the heap as `MutatorCalls::collect`, with the same result and errors. Its mark may scan on `threads`
    /// threads, which also measure the pages; with fewer than two, or while few objects are grey, this thread scans
    /// alone. The other threads of the shared heap wait for the end of the portion meanwhile.
    pub fn collect_by<R: Threads + Sync>(
        &mut self,
        rt: &R,
        alloc: Global,
        percent: u32,
        threads: u32,
    ) -> Result<Collected, Refusal>
        ensures ends { ThenCrosses (EndsCollecting percent self.old.heap result) self.new.heap }
        ensures on { GoesOn self.old self.new }
    {
        let result = collect_by(rt, &mut self.heap, alloc, percent, threads);
        settle(&mut self.heap, self.thread);
        result
    }
}
