//! What the parts of a collection prepare before pages are protected: frames, and sizes of objects.

use crate::heaps::new_heap;
use crate::same::{done, same};
use collecting::{Collect, Parts, Policy};
use heap::Heap;
use managed::ManagedHeap;
use std::alloc::Global;
use std::process::Abort;

const ME: u32 = 0;

/// Registers: the head of a list, and a new object.
const HEAD: u32 = 0;

const NEW: u32 = 1;

/// Buffers of a page, for which the heap is never collected.
const POLICY: Policy = Policy {
    words: 16,
    free: 0,
    percent: 75,
};

/// A heap whose frames are counted, and the pages whose objects' sizes are kept.
trait Framed: Collect {
    fn used_frames(&self) -> usize;

    fn sized_pages(&self) -> usize;
}

/// Returns of how many pages the sizes of the live objects are kept.
fn sized_pages(heap: &Heap) -> usize {
    let mut found = 0usize;
    for index in 0..heap.memory().page_count() {
        if heap.sizes_on(index + 1).is_some() {
            found = found.saturating_add(1);
        }
    }
    found
}

impl Framed for ManagedHeap {
    fn used_frames(&self) -> usize {
        self.heap().memory().used_frames()
    }

    fn sized_pages(&self) -> usize {
        sized_pages(self.heap())
    }
}

/// The effect of the parts of a collection on frames.
#[derive(Clone, Copy, Debug, PartialEq, Eq)]
struct Work {
    /// Frames that were prepared in all, and by one part at most.
    prepared: usize,
    most: usize,
    /// Frames that were opened, and how many of them had their memory allocated then.
    opened: usize,
    allocated: usize,
}

const NOTHING: Work = Work {
    prepared: 0,
    most: 0,
    opened: 0,
    allocated: 0,
};

/// Returns the frames that are used, and those whose memory is kept.
fn frames_of(heap: &impl Framed) -> [usize; 2] {
    [heap.used_frames(), heap.kept_frames()]
}

/// Returns the work after one more part, by the frames before and after it.
fn more(work: Work, before: [usize; 2], after: [usize; 2]) -> Work {
    let opened = after[0].saturating_sub(before[0]);
    let found = before[1].saturating_sub(after[1]);
    let prepared = if before[0] == after[0] {
        after[1].saturating_sub(before[1])
    } else {
        0
    };
    Work {
        prepared: work.prepared.saturating_add(prepared),
        most: work.most.max(prepared),
        opened: work.opened.saturating_add(opened),
        allocated: work.allocated.saturating_add(opened.saturating_sub(found)),
    }
}

/// Returns the work of a collection in parts with this budget.
fn work_of(
    rt: &impl Abort,
    alloc: Global,
    heap: &mut impl Framed,
    parts: &mut Parts,
    budget: u32,
) -> Work {
    let mut work = NOTHING;
    for _ in 0..10_000u32 {
        let before = frames_of(heap);
        let has_ended = done(rt, heap.collect_some(alloc, parts, 75, budget));
        work = more(work, before, frames_of(heap));
        if has_ended {
            return work;
        }
    }
    NOTHING
}

/// Allocates 200 objects, five on each of 40 pages; every second one is kept.
fn fill(rt: &impl Abort, alloc: Global, heap: &mut impl Framed) {
    for _ in 0..100 {
        done(rt, heap.make(alloc, POLICY, ME, NEW, 0));
        done(rt, heap.make(alloc, POLICY, ME, NEW, 0));
        done(rt, heap.store(ME, NEW, 0, HEAD));
        done(rt, heap.copy_register(ME, HEAD, NEW));
    }
    done(rt, heap.clear_register(ME, NEW));
    done(rt, heap.give_back(ME));
}

/// The 300 live words take 19 pages, and one more for what stays free at their ends. So 20 frames are prepared, at
/// most `most` by one part. Of 40 pages all but two are emptied, into 19 frames, none of which is allocated then.
fn prepares(rt: &impl Abort, alloc: Global, heap: &mut impl Framed, budget: u32, most: usize) {
    fill(rt, alloc, heap);
    let mut parts = Parts::new(alloc);
    let wanted = Work {
        prepared: 20,
        most,
        opened: 19,
        allocated: 0,
    };
    same(rt, work_of(rt, alloc, heap, &mut parts, budget), wanted);
}

#[test]
fn frames_are_prepared_by_budget(rt: HostRuntime) {
    for (budget, most) in [(0, 1), (1, 3), (4, 9), (1000, 20)] {
        let mut heap = new_heap(&rt, rt.alloc(), 64, 128);
        prepares(&rt, rt.alloc(), &mut heap, budget, most);
    }
}

/// Memory that is kept from an earlier collection isn't prepared again, nor for more frames than are free.
fn prepares_once(rt: &impl Abort, alloc: Global, heap: &mut impl Framed, wanted: usize) {
    fill(rt, alloc, heap);
    let mut parts = Parts::new(alloc);
    let work = work_of(rt, alloc, heap, &mut parts, 1);
    same(rt, (work.prepared, work.allocated), (wanted, 0));
    done(rt, heap.clear_register(ME, HEAD));
    work_of(rt, alloc, heap, &mut parts, 1);
    fill(rt, alloc, heap);
    let again = work_of(rt, alloc, heap, &mut parts, 1);
    same(rt, (again.prepared, again.allocated), (0, 0));
}

#[test]
fn frames_are_prepared_once(rt: HostRuntime) {
    for (frames, prepared) in [(64, 20), (46, 6)] {
        let mut heap = new_heap(&rt, rt.alloc(), frames, 256);
        prepares_once(&rt, rt.alloc(), &mut heap, prepared);
    }
}

/// Returns of how many pages sizes are kept at most, before each part of a collection.
fn most_sized(rt: &impl Abort, alloc: Global, heap: &mut impl Framed) -> usize {
    let mut parts = Parts::new(alloc);
    let mut most = 0;
    for _ in 0..10_000u32 {
        most = most.max(heap.sized_pages());
        if done(rt, heap.collect_some(alloc, &mut parts, 75, 1)) {
            return most;
        }
    }
    0
}

/// All 40 pages are found, and the sizes of their objects are kept until the pages are protected.
fn keeps_sizes(rt: &impl Abort, alloc: Global, heap: &mut impl Framed) {
    fill(rt, alloc, heap);
    same(rt, heap.sized_pages(), 0);
    same(rt, most_sized(rt, alloc, heap), 40);
}

#[test]
fn sizes_are_kept_of_found_pages(rt: HostRuntime) {
    let mut heap = new_heap(&rt, rt.alloc(), 64, 128);
    keeps_sizes(&rt, rt.alloc(), &mut heap);
}

/// A complete collection keeps nothing with pages that it has found, but for which there are no free frames.
fn keeps_nothing(rt: &impl Abort, alloc: Global, heap: &mut impl Framed) {
    fill(rt, alloc, heap);
    let collected = done(rt, heap.collect(alloc, 75));
    same(rt, (collected.emptied, heap.sized_pages()), (10, 0));
}

#[test]
fn sizes_are_freed_of_other_pages(rt: HostRuntime) {
    let mut heap = new_heap(&rt, rt.alloc(), 44, 128);
    keeps_nothing(&rt, rt.alloc(), &mut heap);
}
