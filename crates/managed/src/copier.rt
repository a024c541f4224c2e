//! Who copies the objects of protected pages and clears their memory: the thread that empties them, page by page, or
//! several threads, which copy before it and clear after it.

ghost use Rattle.std.specs.Prelude.{◌≡◌, ◌<◌, ⊤, false};
ghost use Rattle.std.specs.Thread.{IsSync};
ghost use Rattle.model.specs.Protections.{has_twice};
ghost use Rattle.managed.specs.Emptying.{CopiesAhead};

use crate::managed::ManagedHeap;
use relocate::copy_pages_by;
use std::thread::Threads;

/// With fewer uncopied objects, threads aren't worth it.
const FEW: u64 = 1 << 11;

/// Copies the objects of protected pages ahead, before these are emptied one after another, and clears their memory
/// afterwards.
pub(crate) trait Copier {
    // Holds if copies may be made: threads may share what they need.
    ghost may_copy: { Self → Type 0 } = { λ _. ⊤ };

    /// Copies the objects of From pages, each named once, or does nothing. Pages count from 1, workers from 0.
    fn copy(&self, heap: &mut ManagedHeap, worker: u32, pages: &[u32])
        requires may { may_copy self.now }
        requires once { has_twice pages.now ≡ false }
        ensures { CopiesAhead worker heap.old heap.new };

    /// Clears the memory that emptied pages have released, if that was put off. The state of the heap stays.
    fn clear(&self, heap: &mut ManagedHeap)
        requires { may_copy self.now }
        ensures { heap.new ≡ heap.old };
}

/// Copies nothing ahead.
#[derive(Clone, Copy, Debug)]
pub(crate) struct Alone;

impl Copier for Alone {
    fn copy(&self, _heap: &mut ManagedHeap, _worker: u32, _pages: &[u32]) {}

    fn clear(&self, _heap: &mut ManagedHeap) {}
}

/// Copies on a number of threads; with fewer than two, or if few objects are uncopied, it copies nothing.
#[derive(Drop)]
pub(crate) struct OnThreads<'a, R> {
    pub rt: &'a R,
    pub threads: u32,
}

impl<'a, R: Threads + Sync> Copier for OnThreads<'a, R> {
    ghost may_copy = { λ _. IsSync R.row };

    fn copy(&self, heap: &mut ManagedHeap, worker: u32, pages: &[u32]) {
        if self.threads > 1 && heap.heap().sides().uncopied() >= FEW {
            heap.copy_ahead(self.rt, worker, pages, self.threads);
        }
    }

    fn clear(&self, heap: &mut ManagedHeap) {
        if self.threads > 0 {
            heap.clear_by(self.rt, self.threads);
        }
    }
}

impl ManagedHeap {
    /// Copies the objects of From pages, each named once, on threads: by a step `CopyPage` for each page in turn. It
    /// does nothing if one would be rejected, or if out of memory. The memory that pages release afterwards isn't
    /// cleared until `clear_by`.
    fn copy_ahead<R: Threads + Sync>(&mut self, rt: &R, worker: u32, pages: &[u32], threads: u32)
        requires { has_twice pages.now ≡ false }
        ensures { CopiesAhead worker self.old self.new }
    {
        refinement::law();
        self.heap.law();
        let _copied = copy_pages_by(rt, &mut self.heap, worker, pages, threads);
        self.heap.put_off_clearing();
    }

    /// Clears the memory that pages have released since `copy_ahead`, on threads.
    fn clear_by<R: Threads + Sync>(&mut self, rt: &R, threads: u32)
        requires { 0 < threads }
        ensures { self.new ≡ self.old }
    {
        self.heap.clear_by(rt, threads);
    }
}
