//! Loads and stores between the parts of a collection.

use crate::listing::{LIVE, check, heap_of, insert, insert_all};
use crate::same::done;
use collecting::{Collect, Parts};
use std::alloc::Global;
use std::process::Abort;

/// More parts than a collection of this heap has.
const PARTS: u32 = 90;

/// Does `count` parts, each of one object or one page.
fn collect(rt: &impl Abort, alloc: Global, heap: &mut impl Collect, parts: &mut Parts, count: u32) {
    for _ in 0..count {
        done(rt, heap.collect_some(alloc, parts, 75, 1));
    }
}

/// After some parts an object is added to the list; after some more collections the list is complete.
fn stays(rt: &impl Abort, alloc: Global, heap: &mut impl Collect, before: u32) {
    let mut parts = Parts::new(alloc);
    insert_all(rt, alloc, heap);
    collect(rt, alloc, heap, &mut parts, before);
    insert(rt, alloc, heap, u64::from(LIVE.wrapping_sub(1)));
    collect(rt, alloc, heap, &mut parts, PARTS);
    check(rt, heap, LIVE.wrapping_add(1));
    collect(rt, alloc, heap, &mut parts, PARTS);
    check(rt, heap, LIVE.wrapping_add(1));
}

#[test]
fn one_load_between(rt: HostRuntime) {
    for before in 0..PARTS {
        let mut heap = heap_of(&rt, rt.alloc(), 48);
        stays(&rt, rt.alloc(), &mut heap, before);
    }
}

/// After each part an object is added to the list, and the list is complete.
fn goes_on(rt: &impl Abort, alloc: Global, heap: &mut impl Collect) {
    let mut parts = Parts::new(alloc);
    insert_all(rt, alloc, heap);
    for turn in LIVE..PARTS {
        collect(rt, alloc, heap, &mut parts, 1);
        insert(rt, alloc, heap, u64::from(turn.wrapping_sub(1)));
        check(rt, heap, turn.wrapping_add(1));
    }
}

#[test]
fn loads_between_all(rt: HostRuntime) {
    let mut heap = heap_of(&rt, rt.alloc(), 120);
    goes_on(&rt, rt.alloc(), &mut heap);
}
