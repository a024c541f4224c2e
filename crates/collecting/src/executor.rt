//! Who runs a mark, and measures and empties pages after it: one thread, or several.

ghost use Rattle.std.specs.Prelude.{◌≡◌, ⊤, IfOk};
ghost use Rattle.std.specs.Thread.{IsSync};
ghost use Rattle.choosing.specs.Measures.{IsFound};
ghost use Rattle.managed.specs.Collecting.{EndsMark, EndsRest};
ghost use Rattle.managed.specs.Emptying.{EndsEmptying};
ghost use Rattle.managed.specs.Scrubbing.{AreScrubbed};
ghost use Rattle.collecting.specs.Collections.{WORKER, Collects};

use choosing::{Found, measure, measure_by};
use heap::Heap;
use managed::ManagedHeap;
use model::Refusal;
use std::alloc::{AllocError, Global};
use std::thread::Threads;

/// Runs marks of a heap, and measures and empties its pages. A mark returns how many objects live.
pub(crate) trait Executor {
    // Holds if marks may be run, and pages measured and emptied: threads may share what they need.
    ghost may_mark: { Self → Type 0 } = { λ _. ⊤ };

    /// Runs a complete mark, as `ManagedHeap::mark` does.
    fn mark(&self, heap: &mut ManagedHeap) -> Result<u64, Refusal>
        requires { may_mark self.now }
        ensures goes { Collects heap.old heap.new }
        ensures ends { EndsMark WORKER heap.old result heap.new };

    /// Runs the rest of a mark that has begun, as `ManagedHeap::finish_mark` does.
    fn finish(&self, heap: &mut ManagedHeap) -> Result<u64, Refusal>
        requires { may_mark self.now }
        ensures goes { Collects heap.old heap.new }
        ensures ends { EndsRest WORKER heap.old result heap.new };

    /// Measures all pages, as `choosing::measure` does. Fails only if out of memory.
    fn measure(&self, alloc: Global, heap: &Heap, percent: u32) -> Result<Found, AllocError>
        requires { may_mark self.now }
        ensures { IfOk result (IsFound heap.now percent) };

    /// Prepares memory for the pages to which `words` words are copied, or does nothing. The state of the heap stays.
    fn prepare(&self, heap: &mut ManagedHeap, words: u64)
        requires { may_mark self.now }
        ensures { heap.new ≡ heap.old };

    /// Empties pages, as `ManagedHeap::empty` does.
    fn empty(&self, heap: &mut ManagedHeap, pages: Vec<u32>) -> Result<(), Refusal>
        requires { may_mark self.now }
        ensures ends { EndsEmptying WORKER heap.old pages.items result heap.new }
        ensures scrubbed { IfOk result (λ done. AreScrubbed heap.new) };
}

/// Marks whose objects this thread scans; it also measures and empties pages alone.
#[derive(Clone, Copy, Debug)]
pub(crate) struct Alone;

impl Executor for Alone {
    fn mark(&self, heap: &mut ManagedHeap) -> Result<u64, Refusal> {
        heap.mark(0)
    }

    fn finish(&self, heap: &mut ManagedHeap) -> Result<u64, Refusal> {
        heap.finish_mark(0)
    }

    fn measure(&self, alloc: Global, heap: &Heap, percent: u32) -> Result<Found, AllocError> {
        measure(alloc, heap, percent)
    }

    fn prepare(&self, _heap: &mut ManagedHeap, _words: u64) {}

    fn empty(&self, heap: &mut ManagedHeap, pages: Vec<u32>) -> Result<(), Refusal> {
        heap.empty(0, pages)
    }
}

/// Marks whose objects a number of threads scan; they also measure pages, and copy the objects of those to be emptied.
#[derive(Drop)]
pub(crate) struct OnThreads<'a, R> {
    pub rt: &'a R,
    pub threads: u32,
}

impl<'a, R: Threads + Sync> Executor for OnThreads<'a, R> {
    ghost may_mark = { λ _. IsSync R.row };

    fn mark(&self, heap: &mut ManagedHeap) -> Result<u64, Refusal> {
        heap.mark_by(self.rt, 0, self.threads)
    }

    fn finish(&self, heap: &mut ManagedHeap) -> Result<u64, Refusal> {
        heap.finish_mark_by(self.rt, 0, self.threads)
    }

    fn measure(&self, alloc: Global, heap: &Heap, percent: u32) -> Result<Found, AllocError> {
        measure_by(self.rt, alloc, heap, percent, self.threads)
    }

    fn prepare(&self, heap: &mut ManagedHeap, words: u64) {
        if self.threads > 1 {
            heap.prepare_frames_by(self.rt, words, self.threads);
        }
    }

    fn empty(&self, heap: &mut ManagedHeap, pages: Vec<u32>) -> Result<(), Refusal> {
        heap.empty_by(self.rt, 0, pages, self.threads)
    }
}
