//! A list in a heap of several threads, in which every second object is garbage.

use crate::same::{done, same};
use collecting::{Collect, Policy};
use heap::Config;
use layout::{Layout, Layouts};
use managed::ManagedHeap;
use std::alloc::Global;
use std::process::Abort;

/// The thread that has the list. Others only cross.
const ME: u32 = 0;

/// Registers: the list's head, the object after it, and a new one.
const HEAD: u32 = 0;

const BEHIND: u32 = 1;

const NEW: u32 = 2;

/// The objects of the list, with its head.
pub const LIVE: u32 = 20;

/// The datum of the head.
const HEADS: u64 = 1000;

/// Buffers of a page of 16 words, for which the heap is never collected.
const POLICY: Policy = Policy {
    words: 16,
    free: 0,
    percent: 75,
};

/// A heap of three threads, with pages of 16 words and half as many frames, and objects of a reference and a datum.
pub fn heap_of(rt: &impl Abort, alloc: Global, pages: u32) -> ManagedHeap {
    let layouts = Layouts::new(done(rt, vec![in alloc; Layout { refs: 1, nums: 1 }]));
    let mut config = Config::new(16, pages / 2, layouts);
    config.pages = pages;
    config.threads = 3;
    done(rt, ManagedHeap::new(alloc, config))
}

/// Allocates an object with this datum, in the register `NEW`.
fn make(rt: &impl Abort, alloc: Global, heap: &mut impl Collect, datum: u64) {
    done(rt, heap.make(alloc, POLICY, ME, NEW, 0));
    done(rt, heap.set_datum(ME, NEW, 0, datum));
}

/// Inserts a new object with this datum after the head: a load and two stores.
pub fn insert(rt: &impl Abort, alloc: Global, heap: &mut impl Collect, datum: u64) {
    make(rt, alloc, heap, datum);
    done(rt, heap.read(ME, BEHIND, HEAD, 0));
    done(rt, heap.store(ME, NEW, 0, BEHIND));
    done(rt, heap.store(ME, HEAD, 0, NEW));
    done(rt, heap.clear_register(ME, BEHIND));
    done(rt, heap.clear_register(ME, NEW));
}

/// Makes the list: its head, and the others by rising data, with a garbage object after each.
pub fn insert_all(rt: &impl Abort, alloc: Global, heap: &mut impl Collect) {
    make(rt, alloc, heap, HEADS);
    done(rt, heap.copy_register(ME, HEAD, NEW));
    for datum in 0..LIVE.wrapping_sub(1) {
        insert(rt, alloc, heap, u64::from(datum));
        make(rt, alloc, heap, 0);
    }
    done(rt, heap.clear_register(ME, NEW));
    done(rt, heap.give_back(ME));
}

/// The list has `count` objects, with their data by falling numbers after the head.
pub fn check(rt: &impl Abort, heap: &mut impl Collect, count: u32) {
    same(rt, heap.datum(ME, HEAD, 0), Ok(HEADS));
    done(rt, heap.copy_register(ME, BEHIND, HEAD));
    for turn in 2..count.wrapping_add(1) {
        done(rt, heap.read(ME, BEHIND, BEHIND, 0));
        let wanted = u64::from(count.wrapping_sub(turn));
        same(rt, heap.datum(ME, BEHIND, 0), Ok(wanted));
    }
    done(rt, heap.read(ME, BEHIND, BEHIND, 0));
    same(rt, heap.is_null(ME, BEHIND), Ok(true));
}
