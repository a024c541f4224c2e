//! The pages that parts of a collection choose, and buffers when no page number is free.

use crate::counting::has_ended;
use crate::heaps::{Framed, new_heap};
use crate::same::{done, same};
use collecting::{Collected, Parts, Policy};
use model::Refusal;
use std::alloc::Global;
use std::process::Abort;

const ME: u32 = 0;

/// The pages of the heap, all of which are filled, and the frames, which are as many.
const PAGES: u32 = 8;

/// The register of a new object. Lower ones refer to objects of a page each.
const NEW: u32 = PAGES;

/// Five objects, which fill a page. The last one stays in a register; with `keep_all` it refers to the others.
fn fill(rt: &impl Abort, heap: &mut impl Framed, register: u32, keep_all: bool) {
    done(rt, heap.take(ME, 16));
    for _ in 0..5 {
        done(rt, heap.new_object(ME, NEW, 0));
        if keep_all {
            done(rt, heap.store(ME, NEW, 0, register));
        }
        done(rt, heap.copy_register(ME, register, NEW));
    }
    done(rt, heap.clear_register(ME, NEW));
    done(rt, heap.give_back(ME));
}

/// All pages are filled: the first one has no live object, the last one a single one, and the others are full.
fn fill_all(rt: &impl Abort, heap: &mut impl Framed) {
    fill(rt, heap, 0, false);
    done(rt, heap.clear_register(ME, 0));
    for register in 1..PAGES.wrapping_sub(1) {
        fill(rt, heap, register, true);
    }
    fill(rt, heap, 0, false);
}

/// The first collection empties the first page, as there is no space for an object of another one; the second one
/// empties the last page, into the one frame that is free.
fn empties(rt: &impl Abort, alloc: Global, heap: &mut impl Framed, budget: u32) {
    fill_all(rt, heap);
    same(rt, heap.free_frames(), 0);
    let mut parts = Parts::new(alloc);
    for is_gone in [false, true] {
        same(rt, has_ended(rt, alloc, heap, &mut parts, budget), true);
        same(rt, heap.free_frames(), 1);
        same(rt, heap.is_gone(PAGES), is_gone);
    }
}

#[test]
fn sparse_pages_by_turns(rt: HostRuntime) {
    for budget in [0, 1, 1000] {
        let mut heap = new_heap(&rt, rt.alloc(), PAGES, PAGES);
        empties(&rt, rt.alloc(), &mut heap, budget);
    }
}

/// No page has a live object: one collection in parts empties them all.
fn empties_dead(rt: &impl Abort, alloc: Global, heap: &mut impl Framed, budget: u32) {
    for _ in 0..PAGES {
        fill(rt, heap, 0, false);
    }
    done(rt, heap.clear_register(ME, 0));
    let mut parts = Parts::new(alloc);
    same(rt, has_ended(rt, alloc, heap, &mut parts, budget), true);
    same(rt, heap.free_frames(), PAGES);
}

#[test]
fn dead_pages_by_one_collection(rt: HostRuntime) {
    for budget in [1, 100] {
        let mut heap = new_heap(&rt, rt.alloc(), PAGES, PAGES);
        empties_dead(&rt, rt.alloc(), &mut heap, budget);
    }
}

/// A page has no live object, and each other one a single one. A collection empties the former, and of the others as
/// many as are allowed, whose objects fit into one page; the last collection empties all.
fn empties_few(rt: &impl Abort, alloc: Global, heap: &mut impl Framed, budget: u32) {
    for register in 0..PAGES {
        fill(rt, heap, register, false);
    }
    done(rt, heap.clear_register(ME, 0));
    let mut parts = Parts::new(alloc);
    for (most, free) in [(0, 9), (3, 11), (u32::MAX, 14)] {
        parts.empty_at_most(most);
        same(rt, has_ended(rt, alloc, heap, &mut parts, budget), true);
        same(rt, heap.free_frames(), free);
    }
}

#[test]
fn few_pages_at_once(rt: HostRuntime) {
    for budget in [1, 100] {
        let mut heap = new_heap(&rt, rt.alloc(), 16, 24);
        empties_few(&rt, rt.alloc(), &mut heap, budget);
    }
}

/// After a collection that has emptied all pages no number is free. A buffer can be taken nevertheless, also by a
/// thread that has one.
fn refills(rt: &impl Abort, alloc: Global, heap: &mut impl Framed) {
    let policy = Policy {
        words: 16,
        free: 0,
        percent: 75,
    };
    for _ in 0..PAGES {
        fill(rt, heap, 0, false);
    }
    done(rt, heap.clear_register(ME, 0));
    let all = Collected {
        live: 0,
        live_words: 0,
        emptied: u64::from(PAGES),
        copied: 0,
    };
    same(rt, heap.collect(alloc, 75), Ok(all));
    same(rt, heap.free_frames(), PAGES);
    same(rt, heap.take(ME, 16), Err(Refusal::NoPages));
    same(rt, heap.refill(alloc, policy, ME).is_ok(), true);
    same(rt, heap.refill(alloc, policy, ME).is_ok(), true);
}

#[test]
fn buffers_without_numbers(rt: HostRuntime) {
    let mut heap = new_heap(&rt, rt.alloc(), PAGES, PAGES);
    refills(&rt, rt.alloc(), &mut heap);
}
