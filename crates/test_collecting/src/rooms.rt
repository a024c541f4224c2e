//! Objects that are allocated in small heaps, which are collected for them.

use crate::heaps::new_heap;
use crate::same::{done, same};
use collecting::{Collect, Collected, Object, Policy};
use model::Refusal;
use std::alloc::Global;
use std::process::Abort;

/// The one thread, and registers for what is kept and for what isn't.
const ME: u32 = 0;

const KEPT: u32 = 0;

const LOST: u32 = 1;

/// Garbage objects can be allocated for ever; all but the last one, unless each is cleared.
fn wastes(rt: &impl Abort, alloc: Global, heap: &mut impl Collect, frames: u32, is_cleared: bool) {
    for _ in 0..1000 {
        done(rt, heap.make(alloc, Policy::usual(16, frames), ME, LOST, 0));
        if is_cleared {
            done(rt, heap.clear_register(ME, LOST));
        }
    }
}

#[test]
fn one_frame(rt: HostRuntime) {
    for pages in [1, 2] {
        let mut heap = new_heap(&rt, rt.alloc(), 1, pages);
        wastes(&rt, rt.alloc(), &mut heap, 1, true);
    }
}

#[test]
fn more_frames(rt: HostRuntime) {
    for (frames, pages) in [(2, 2), (3, 6)] {
        let mut heap = new_heap(&rt, rt.alloc(), frames, pages);
        wastes(&rt, rt.alloc(), &mut heap, frames, false);
    }
}

/// An object is kept among garbage, and it moves.
fn keeps(rt: &impl Abort, alloc: Global, heap: &mut impl Collect) {
    same(
        rt,
        heap.make(alloc, Policy::usual(16, 3), ME, KEPT, 0),
        Ok(0),
    );
    done(rt, heap.set_datum(ME, KEPT, 0, 9));
    wastes(rt, alloc, heap, 3, false);
    same(rt, heap.datum(ME, KEPT, 0), Ok(9));
    let seen = Object {
        birth: 0,
        layout: 0,
        refs: 1,
        nums: 1,
    };
    same(rt, heap.object(ME, KEPT), Ok(seen));
    same(rt, heap.object(ME, 2), Err(Refusal::Null));
}

#[test]
fn one_is_kept(rt: HostRuntime) {
    let mut heap = new_heap(&rt, rt.alloc(), 3, 6);
    keeps(&rt, rt.alloc(), &mut heap);
}

/// A list of objects, each of which the next refers to: at last the heap is full, and stays so.
fn fills(rt: &impl Abort, alloc: Global, heap: &mut impl Collect) {
    let policy = Policy::usual(16, 3);
    for _ in 0..15 {
        done(rt, heap.make(alloc, policy, ME, LOST, 0));
        done(rt, heap.store(ME, LOST, 0, KEPT));
        done(rt, heap.copy_register(ME, KEPT, LOST));
    }
    let full = Err(Refusal::NoFrames { need: 1, free: 0 });
    same(rt, heap.make(alloc, policy, ME, LOST, 0), full);
    done(rt, heap.clear_register(ME, LOST));
    let all = Collected {
        live: 15,
        live_words: 45,
        emptied: 0,
        copied: 0,
    };
    same(rt, heap.collect(alloc, 75), Ok(all));
    done(rt, heap.clear_register(ME, KEPT));
    let none = Collected {
        live: 0,
        live_words: 0,
        emptied: 3,
        copied: 0,
    };
    same(rt, heap.collect(alloc, 75), Ok(none));
}

#[test]
fn full(rt: HostRuntime) {
    let mut heap = new_heap(&rt, rt.alloc(), 3, 6);
    fills(&rt, rt.alloc(), &mut heap);
}

/// A thread inside a load prevents the end of a collection; after the load it continues.
fn waits(rt: &impl Abort, alloc: Global, heap: &mut impl Collect) {
    done(rt, heap.make(alloc, Policy::usual(16, 3), ME, KEPT, 0));
    done(rt, heap.load(ME, LOST, KEPT, 0));
    let behind = Err(Refusal::NotCrossed { thread: 0 });
    same(rt, heap.collect(alloc, 50), behind);
    done(rt, heap.trap(ME));
    done(rt, heap.finish(ME));
    let one = Collected {
        live: 1,
        live_words: 3,
        emptied: 0,
        copied: 0,
    };
    same(rt, heap.collect(alloc, 50), Ok(one));
}

#[test]
fn a_load_is_open(rt: HostRuntime) {
    let mut heap = new_heap(&rt, rt.alloc(), 3, 6);
    waits(&rt, rt.alloc(), &mut heap);
}
