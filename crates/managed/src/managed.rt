//! The managed heap.

ghost use Rattle.std.specs.Prelude.{◌≡◌, ◌<◌};
ghost use Rattle.model.specs.Refusing.{DoesStep};
ghost use Rattle.model.specs.Outcome.{outcome};
ghost use Rattle.refinement.specs.Standing.{KeepsStanding};
ghost use Rattle.relocate.specs.Drafts.{AreLiveOn};
ghost use Rattle.managed.specs.Managing.{MakesHeap, Promises};

use cycle::Stepping;
use forward::LiveObjects;
use heap::{Config, Heap, NewFault};
use model::{Actor, Reply, Step};
use std::alloc::{AllocError, Global};
use std::marker::Model;
use std::thread::Threads;

/// A heap that represents a reference model, as its type guarantees.
#[derive(Drop)]
pub struct ManagedHeap {
    pub(crate) heap: Heap,
}

impl Model for ManagedHeap {
    ghost use Rattle.model.specs.States.{HeapState};

    ghost Value = { HeapState };

    ghost use Rattle.managed.specs.Managing.{IsManaged};

    ghost view = { λ m. m.heap };

    ghost invariant = { λ m. IsManaged m.heap };
}

/// Less memory than this many words is prepared faster by one thread.
const LITTLE: u64 = 1 << 16;

impl ManagedHeap {
    /// Proves what holds for every managed heap: a history of accepted steps has made it of the first heap of its
    /// configuration; each answer is that of the reference model; the heap represents the reference model that the
    /// history makes; and no register that may be used names a page without memory. It changes nothing and never
    /// fails.
    pub fn law(&self)
        ensures { Promises self.now }
    {
        refinement::law();
        let _ = &self.heap;
    }

    /// Makes the first heap of a configuration. Fails as `Heap::new` does.
    pub fn new(alloc: Global, config: Config) -> Result<ManagedHeap, NewFault>
        ensures { MakesHeap config result }
    {
        refinement::law();
        match Heap::new(alloc, config) {
            Ok(heap) => Ok(ManagedHeap { heap }),
            Err(fault) => Err(fault),
        }
    }

    /// Returns the heap in its current state, for reading.
    pub fn heap(&self) -> &Heap
        ensures { result.now ≡ self.now }
    {
        &self.heap
    }

    /// Returns how many frames' memory is kept for the next pages: of frames that became free, at most as many as
    /// are free, and what `prepare_frame` has added.
    pub fn kept_frames(&self) -> usize {
        self.heap.kept_frames()
    }

    /// Allocates memory for one more frame and keeps it, cleared, for the next pages, unless that of `most` frames or
    /// more is kept. Returns false if so. Fails only if out of memory. The state of the heap stays.
    pub fn prepare_frame(&mut self, most: usize) -> Result<bool, AllocError>
        ensures { self.new ≡ self.old }
    {
        if self.heap.kept_frames() >= most {
            return Ok(false);
        }
        self.heap.prepare_frame()?;
        Ok(true)
    }

    /// Allocates memory for the words of the pages that `words` words fill, less what is kept, and keeps it, cleared,
    /// for the next pages. Each of at most `threads` threads does so for as many pages; those left over are left alone,
    /// and all are if they have fewer than 65,536 words. It does less if out of memory. The state of the heap stays.
    pub fn prepare_frames_by<R: Threads + Sync>(&mut self, rt: &R, words: u64, threads: u32)
        requires { 0 < threads }
        ensures { self.new ≡ self.old }
    {
        let size = u64::from(self.heap.memory().page_words());
        let count = (words / size).saturating_sub(self.heap.kept_frames() as u64);
        if count < (LITTLE / size).max(1) {
            return;
        }
        let threads = u64::from(threads).min(count) as u32;
        let even = count - count % u64::from(threads);
        let _done = self.heap.prepare_frames_by(rt, even as usize, threads);
    }

    /// Keeps the sizes of the live objects of a page, by its number from 1, until a word of the page is written or the
    /// page is protected, so that this needs no headers of its objects. Fails only if out of memory. The state of the
    /// heap stays.
    pub fn keep_sizes(&mut self, page: u32) -> Result<(), AllocError>
        ensures { self.new ≡ self.old }
    {
        self.heap.keep_sizes(page)
    }

    /// Keeps the live objects of a page, by its number from 1, as `keep_sizes` keeps their sizes, but needs no headers.
    /// Fails only if out of memory. The state of the heap stays.
    pub fn keep_objects(&mut self, page: u32, objects: LiveObjects) -> Result<(), AllocError>
        requires { AreLiveOn self.old page objects }
        ensures { self.new ≡ self.old }
    {
        self.heap.keep_objects(page, objects)
    }

    /// Frees the memory of live objects, or of their sizes, that are kept with a page, by its number from 1. The state of
    /// the heap stays.
    pub fn forget_objects(&mut self, page: u32)
        ensures { self.new ≡ self.old }
    {
        self.heap.forget_objects(page);
    }

    /// Releases the memory of free frames to the allocator, except that of `most` frames. Until then, memory of
    /// frames that became free is kept for the next pages. The state of the heap stays.
    pub fn trim(&mut self, most: usize)
        ensures { self.new ≡ self.old }
    {
        self.heap.trim(most);
    }

    /// Does one step of an actor, as `Stepping::step` does. It fails with `Memory` for `Take` and `Protect` alone,
    /// if out of memory for a fresh page or for a growth, and changes nothing then.
    #[inline(always)]
    pub fn step(&mut self, actor: Actor, step: &Step) -> Reply
        ensures does { DoesStep self.old step.now result self.new (outcome self.old actor step.now) }
        ensures stands { KeepsStanding self.old actor step.now result self.new }
    {
        self.heap.step(actor, step)
    }
}
