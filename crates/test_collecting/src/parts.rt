//! Collections in parts.

use crate::heaps::new_heap;
use crate::same::{done, same};
use collecting::{Collect, Parts, Policy};
use std::alloc::Global;
use std::process::Abort;

const ME: u32 = 0;

const KEPT: u32 = 0;

const LOST: u32 = 1;

/// Objects are allocated between the parts, and one is kept; each collection ends.
fn goes_on(rt: &impl Abort, alloc: Global, heap: &mut impl Collect) {
    let policy = Policy::usual(16, 8);
    let mut parts = Parts::new(alloc);
    done(rt, heap.make(alloc, policy, ME, KEPT, 0));
    done(rt, heap.set_datum(ME, KEPT, 0, 9));
    let mut ended = 0u32;
    for _ in 0..500 {
        done(rt, heap.make(alloc, policy, ME, LOST, 0));
        let has_ended = done(rt, heap.collect_some(alloc, &mut parts, 50, 1));
        ended = ended.wrapping_add(u32::from(has_ended));
    }
    same(rt, heap.datum(ME, KEPT, 0), Ok(9));
    same(rt, ended > 5, true);
    same(rt, collect(rt, alloc, heap, &mut parts, 100) < 100, true);
    same(rt, heap.datum(ME, KEPT, 0), Ok(9));
}

/// Does parts up to the end of a collection, up to a limit. Returns how many they were.
fn collect(
    rt: &impl Abort,
    alloc: Global,
    heap: &mut impl Collect,
    parts: &mut Parts,
    most: u32,
) -> u32 {
    for part in 0..most {
        if done(rt, heap.collect_some(alloc, parts, 50, 1)) {
            return part;
        }
    }
    most
}

#[test]
fn parts_between_steps(rt: HostRuntime) {
    let mut heap = new_heap(&rt, rt.alloc(), 8, 16);
    goes_on(&rt, rt.alloc(), &mut heap);
}
