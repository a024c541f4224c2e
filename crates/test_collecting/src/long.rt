//! Scans in parts, of objects with many references.

use crate::counting::count_parts;
use crate::same::{done, same};
use collecting::{Collect, Parts, Policy};
use heap::Config;
use layout::{Layout, Layouts};
use managed::ManagedHeap;
use std::alloc::Global;
use std::process::Abort;

/// The one thread.
const ME: u32 = 0;

/// Registers: the list's head, and a new object.
const HEAD: u32 = 0;

const NEW: u32 = 1;

/// Buffers of a page, which has space for one object.
const POLICY: Policy = Policy {
    words: 1024,
    free: 0,
    percent: 75,
};

/// A heap with pages of 1,024 words, and objects of 1,000 references.
fn heap_of(rt: &impl Abort, alloc: Global) -> ManagedHeap {
    let long = Layout {
        refs: 1000,
        nums: 0,
    };
    let layouts = Layouts::new(done(rt, vec![in alloc; long]));
    done(rt, ManagedHeap::new(alloc, Config::new(1024, 16, layouts)))
}

/// Makes a list of `count` objects, each of which refers to the next one by its first reference.
fn link_all(rt: &impl Abort, alloc: Global, heap: &mut impl Collect, count: u32) {
    for _ in 0..count {
        done(rt, heap.make(alloc, POLICY, ME, NEW, 0));
        done(rt, heap.store(ME, NEW, 0, HEAD));
        done(rt, heap.copy_register(ME, HEAD, NEW));
    }
    done(rt, heap.clear_register(ME, NEW));
    done(rt, heap.give_back(ME));
}

/// A list of 8 objects is collected in exactly this many parts.
fn takes(rt: &impl Abort, alloc: Global, heap: &mut impl Collect, budget: u32, wanted: u32) {
    link_all(rt, alloc, heap, 8);
    let mut parts = Parts::new(alloc);
    let found = count_parts(rt, alloc, heap, &mut parts, budget, 100);
    same(rt, found, wanted);
}

/// With a budget of 20, two objects have the 1,280 references after which a part ends. So there is a part that begins
/// the mark, four of two objects, one that finds none and ends the mark, one for each two of 32 page numbers, one
/// that finds no further one, and one that finds no page to be emptied.
#[test]
fn parts_end_behind_many_references(rt: HostRuntime) {
    let mut heap = heap_of(&rt, rt.alloc());
    takes(&rt, rt.alloc(), &mut heap, 20, 24);
}
