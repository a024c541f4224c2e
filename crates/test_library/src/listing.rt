//! A list that is kept while other objects are dropped, by complete collections and by collections in parts.

use crate::same::{done, same};
use heap::Config;
use layout::{Layout, Layouts};
use std::alloc::Global;
use std::process::Abort;
use typed::{Datum, Field, HeapCalls, LayoutNumber, Register, Thread, TypedHeap};

const ME: Thread = Thread(0);

/// The list's head, a new node, and the current node.
const ROOT: Register = Register(0);

const NODE: Register = Register(1);

const HERE: Register = Register(2);

const NODES: LayoutNumber = LayoutNumber(0);

const NEXT: Field = Field(0);

const KEY: Datum = Datum(0);

/// Allocates a node, by complete collections or during one in parts.
fn make(rt: &impl Abort, alloc: Global, heap: &mut impl HeapCalls, paced: bool, key: u64) {
    let made = if paced {
        heap.make_paced(alloc, ME, NODE, NODES)
    } else {
        heap.make(alloc, ME, NODE, NODES)
    };
    done(rt, made);
    done(rt, heap.set_datum(ME, NODE, KEY, key));
}

/// Pushes the keys below 20, and drops 50 nodes after each.
fn fill(rt: &impl Abort, alloc: Global, heap: &mut impl HeapCalls, paced: bool) {
    for key in 0..20 {
        make(rt, alloc, heap, paced, key);
        done(rt, heap.store(ME, NODE, NEXT, ROOT));
        done(rt, heap.copy_register(ME, ROOT, NODE));
        for _ in 0..50 {
            make(rt, alloc, heap, paced, key);
        }
    }
}

/// Returns the sum of the keys of the list.
fn sum(rt: &impl Abort, heap: &mut impl HeapCalls) -> u64 {
    done(rt, heap.copy_register(ME, HERE, ROOT));
    let mut total = 0u64;
    for _ in 0..20 {
        total = total.wrapping_add(done(rt, heap.datum(ME, HERE, KEY)));
        done(rt, heap.read(ME, HERE, HERE, NEXT));
    }
    total
}

/// The list is kept, and a complete collection finds it and the last node that was dropped.
fn keeps(rt: &impl Abort, alloc: Global, heap: &mut impl HeapCalls, paced: bool) {
    fill(rt, alloc, heap, paced);
    same(rt, sum(rt, heap), 190);
    same(rt, heap.is_null(ME, HERE), Ok(true));
    same(rt, done(rt, heap.collect(alloc)).live, 21);
    same(rt, heap.counters().by_calls, 1);
}

fn new_heap(rt: &impl Abort, alloc: Global) -> TypedHeap {
    let layouts = Layouts::new(done(rt, vec![in alloc; Layout { refs: 1, nums: 1 }]));
    done(rt, TypedHeap::new(alloc, Config::new(64, 8, layouts)))
}

/// Complete collections are counted by their causes.
fn counts(rt: &impl Abort, alloc: Global, heap: &mut impl HeapCalls) {
    keeps(rt, alloc, heap, false);
    same(rt, heap.counters().by_policy > 3, true);
    same(rt, heap.counters().parts, 0);
}

/// Parts are counted.
fn counts_parts(rt: &impl Abort, alloc: Global, heap: &mut impl HeapCalls) {
    keeps(rt, alloc, heap, true);
    same(rt, heap.counters().parts > 3, true);
}

#[test]
fn complete_collections_are_counted(rt: HostRuntime) {
    let mut heap = new_heap(&rt, rt.alloc());
    counts(&rt, rt.alloc(), &mut heap);
}

#[test]
fn parts_are_counted(rt: HostRuntime) {
    let mut heap = new_heap(&rt, rt.alloc());
    counts_parts(&rt, rt.alloc(), &mut heap);
}
