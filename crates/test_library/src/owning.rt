//! What a heap owns: its policy, its budget and its increment.

use crate::same::{done, same};
use collecting::{Policy, PolicyFault};
use heap::Config;
use layout::{Layout, Layouts};
use model::Refusal;
use std::alloc::Global;
use std::process::Abort;
use typed::{HeapCalls, LayoutNumber, Register, Thread, TypedHeap, USUAL_BUDGET};

const ME: Thread = Thread(0);

const NODE: Register = Register(0);

const NODES: LayoutNumber = LayoutNumber(0);

fn new_heap(rt: &impl Abort, alloc: Global) -> TypedHeap {
    let layouts = Layouts::new(done(rt, vec![in alloc; Layout { refs: 1, nums: 1 }]));
    done(rt, TypedHeap::new(alloc, Config::new(64, 16, layouts)))
}

/// A policy is set if it is in its range.
fn sets(rt: &impl Abort, alloc: Global, heap: &mut impl HeapCalls) {
    same(rt, heap.policy(), Policy::usual(64, 16));
    same(rt, heap.budget(), USUAL_BUDGET);
    let mut policy = Policy {
        words: 65,
        free: 2,
        percent: 50,
    };
    same(rt, heap.set_policy(policy), Err(PolicyFault::Words));
    same(rt, heap.policy(), Policy::usual(64, 16));
    policy.words = 3;
    same(rt, heap.set_policy(policy), Ok(()));
    done(rt, heap.make(alloc, ME, NODE, NODES));
    let full = heap.new_object(ME, NODE, NODES);
    same(rt, full, Err(Refusal::NoRoom));
}

#[test]
fn policies_are_set(rt: HostRuntime) {
    let mut heap = new_heap(&rt, rt.alloc());
    sets(&rt, rt.alloc(), &mut heap);
}

/// Continues the parts of a collection until it has ended. Returns how many they are.
fn end(rt: &impl Abort, alloc: Global, heap: &mut impl HeapCalls) -> u32 {
    for part in 0..100 {
        if done(rt, heap.collect_some(alloc)) {
            return part;
        }
    }
    100
}

/// A collection in parts of one object each ends, and is counted.
fn ends(rt: &impl Abort, alloc: Global, heap: &mut impl HeapCalls) {
    heap.set_budget(1);
    for _ in 0..40 {
        done(rt, heap.make(alloc, ME, NODE, NODES));
    }
    let parts = end(rt, alloc, heap);
    same(rt, parts > 2 && parts < 100, true);
    same(rt, heap.counters().ended_in_parts, 1);
}

/// Nothing was counted yet, and the live object is found.
fn begins(rt: &impl Abort, alloc: Global, heap: &mut impl HeapCalls) {
    same(rt, heap.counters().ended_in_parts, 0);
    same(rt, done(rt, heap.collect(alloc)).live, 1);
}

/// The increment of a collection in parts is the heap's own; a managed heap that gets an owner begins with a new one.
#[test]
fn an_increment_is_continued(rt: HostRuntime) {
    let mut heap = new_heap(&rt, rt.alloc());
    ends(&rt, rt.alloc(), &mut heap);
    let mut again = TypedHeap::from_managed(rt.alloc(), heap.into_managed());
    begins(&rt, rt.alloc(), &mut again);
}
