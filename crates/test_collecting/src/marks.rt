//! Marks that run while objects are uncopied, and while the worker is scanning an object.

use crate::heaps::new_heap;
use crate::same::{done, same};
use collecting::{Collect, Collected, Parts};
use managed::ManagedHeap;
use model::{Actor, PageList, Refusal, Step};
use std::alloc::Global;
use std::process::Abort;

const ME: u32 = 0;

const HEAD: u32 = 0;

const NEXT: u32 = 1;

/// The calls of these tests on a heap besides `Collect`. They have no contracts, so that the proofs of tests are
/// short.
pub trait Marking: Collect {
    /// Does a step of worker 0.
    fn work(&mut self, step: &Step) -> Result<(), Refusal>;

    /// Does at most `most` scans of worker 0.
    fn scan(&mut self, most: u64) -> Result<bool, Refusal>;

    /// Does a complete drain by worker 0.
    fn drain(&mut self) -> Result<(), Refusal>;

    /// Does the rest of a mark, by worker 0.
    fn finish_mark(&mut self) -> Result<u64, Refusal>;

    /// Returns how many objects are uncopied, and whether worker 0 is scanning an object.
    fn progress(&self) -> (u64, bool);
}

impl Marking for ManagedHeap {
    fn work(&mut self, step: &Step) -> Result<(), Refusal> {
        self.step(Actor::Worker(0), step)?;
        Ok(())
    }

    fn scan(&mut self, most: u64) -> Result<bool, Refusal> {
        ManagedHeap::scan(self, 0, most)
    }

    fn drain(&mut self) -> Result<(), Refusal> {
        ManagedHeap::drain(self, 0)
    }

    fn finish_mark(&mut self) -> Result<u64, Refusal> {
        ManagedHeap::finish_mark(self, 0)
    }

    fn progress(&self) -> (u64, bool) {
        let heap = self.heap();
        let busy = heap.workers().iter().any(|scan| scan.is_some());
        (heap.sides().uncopied(), busy)
    }
}

/// A new object with a datum becomes the head of the list in register `HEAD`.
fn push(rt: &impl Abort, heap: &mut impl Marking, value: u64) {
    done(rt, heap.new_object(ME, NEXT, 0));
    done(rt, heap.set_datum(ME, NEXT, 0, value));
    done(rt, heap.store(ME, NEXT, 0, HEAD));
    done(rt, heap.copy_register(ME, HEAD, NEXT));
}

/// A list of ten objects with the data 0 to 9, the last one first, five on each of the pages 1 and 2.
fn fill(rt: &impl Abort, heap: &mut impl Marking) {
    for page in 0..2u64 {
        done(rt, heap.take(ME, 16));
        for value in 0..5u64 {
            push(rt, heap, page.wrapping_mul(5).wrapping_add(value));
        }
        done(rt, heap.give_back(ME));
    }
    done(rt, heap.clear_register(ME, NEXT));
}

/// That list, whose pages were protected, in a mark that the thread has crossed. Worker 0 has marked the 64 globals
/// and is scanning the head of the list, which the crossing has copied; nine objects are uncopied.
fn mark_halfway(rt: &impl Abort, alloc: Global, heap: &mut impl Marking) {
    fill(rt, heap);
    done(rt, heap.work(&Step::StartMark));
    same(rt, heap.finish_mark(), Ok(10));
    let pages = PageList::new(done(rt, vec![in alloc; 1, 2]));
    done(rt, heap.work(&Step::Protect(pages)));
    done(rt, heap.cross(ME));
    done(rt, heap.work(&Step::StartMark));
    done(rt, heap.cross(ME));
    same(rt, heap.progress(), (9, false));
    same(rt, heap.scan(65), Ok(false));
    same(rt, heap.progress(), (9, true));
}

/// The list is as it was made.
fn is_whole(rt: &impl Abort, heap: &mut impl Marking) {
    for value in 0..10u64 {
        same(rt, heap.datum(ME, HEAD, 0), Ok(9u64.wrapping_sub(value)));
        done(rt, heap.read(ME, HEAD, HEAD, 0));
    }
    same(rt, heap.is_null(ME, HEAD), Ok(true));
}

/// A drain copies the uncopied objects, and scans the grey ones.
fn drains(rt: &impl Abort, alloc: Global, heap: &mut impl Marking) {
    mark_halfway(rt, alloc, heap);
    same(rt, heap.drain(), Ok(()));
    same(rt, heap.progress(), (0, false));
    same(rt, heap.finish_mark(), Ok(10));
    is_whole(rt, heap);
}

#[test]
fn drain_copies_first(rt: HostRuntime) {
    let mut heap = new_heap(&rt, rt.alloc(), 8, 16);
    drains(&rt, rt.alloc(), &mut heap);
}

/// Parts do the same, one after another: the object that the worker is scanning, and each page.
fn goes_by_parts(rt: &impl Abort, alloc: Global, heap: &mut impl Marking) {
    mark_halfway(rt, alloc, heap);
    let mut parts = Parts::new(alloc);
    for uncopied in [8, 3, 0] {
        let ended = heap.collect_some(alloc, &mut parts, 50, 1);
        same(rt, ended, Ok(false));
        same(rt, heap.progress(), (uncopied, false));
    }
}

#[test]
fn parts_copy_first(rt: HostRuntime) {
    let mut heap = new_heap(&rt, rt.alloc(), 8, 16);
    goes_by_parts(&rt, rt.alloc(), &mut heap);
}

/// A collection in the middle of that mark ends it.
fn collects(rt: &impl Abort, alloc: Global, heap: &mut impl Marking) {
    mark_halfway(rt, alloc, heap);
    let none = Collected {
        live: 10,
        live_words: 30,
        emptied: 0,
        copied: 0,
    };
    same(rt, heap.collect(alloc, 50), Ok(none));
    is_whole(rt, heap);
}

#[test]
fn collection_ends_mark(rt: HostRuntime) {
    let mut heap = new_heap(&rt, rt.alloc(), 8, 16);
    collects(&rt, rt.alloc(), &mut heap);
}
