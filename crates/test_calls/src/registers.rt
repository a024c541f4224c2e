//! Registers after each part of a collection, and after a complete one.

use crate::same::{done, same};
use collecting::{Collect, Parts, Policy};
use heap::Config;
use layout::{Layout, Layouts};
use managed::ManagedHeap;
use model::{Refusal, Trap};
use std::alloc::Global;
use std::process::Abort;

const THREADS: u32 = 2;

/// The registers of a thread. All are in use.
const REGISTERS: u32 = 4;

/// Buffers of a page of 16 words, for which the heap is never collected.
const POLICY: Policy = Policy {
    words: 16,
    free: 0,
    percent: 75,
};

/// A heap of two threads, with pages of 16 words, and objects of a reference and a datum.
fn new_heap(rt: &impl Abort, alloc: Global) -> ManagedHeap {
    let layouts = Layouts::new(done(rt, vec![in alloc; Layout { refs: 1, nums: 1 }]));
    let mut config = Config::new(16, 16, layouts);
    config.pages = 32;
    config.threads = THREADS;
    config.registers = REGISTERS;
    done(rt, ManagedHeap::new(alloc, config))
}

/// Returns the datum of a register's object.
fn datum(thread: u32, register: u32) -> u64 {
    u64::from(thread.wrapping_mul(100).wrapping_add(register))
}

/// Allocates an object in each register of each thread, after four garbage ones, with which it fills a page.
fn fill_all(rt: &impl Abort, alloc: Global, heap: &mut impl Collect) {
    for thread in 0..THREADS {
        for register in 0..REGISTERS {
            for _ in 0..5 {
                done(rt, heap.make(alloc, POLICY, thread, register, 0));
            }
            let value = datum(thread, register);
            done(rt, heap.set_datum(thread, register, 0, value));
        }
        done(rt, heap.give_back(thread));
    }
}

/// Each register of a thread can be read.
fn reads(rt: &impl Abort, heap: &impl Collect, thread: u32) {
    for register in 0..REGISTERS {
        same(
            rt,
            heap.datum(thread, register, 0),
            Ok(datum(thread, register)),
        );
    }
}

/// After each part with this budget each register can be read, until two collections have ended.
fn by_parts(rt: &impl Abort, alloc: Global, heap: &mut impl Collect, budget: u32) {
    fill_all(rt, alloc, heap);
    let mut parts = Parts::new(alloc);
    let mut ended = 0u32;
    for _ in 0..200 {
        let has_ended = done(rt, heap.collect_some(alloc, &mut parts, 75, budget));
        ended = ended.wrapping_add(u32::from(has_ended));
        reads(rt, heap, 0);
        reads(rt, heap, 1);
    }
    same(rt, ended > 1, true);
}

/// After a complete collection each register can be read, except those of a thread that was parked: the next part
/// corrects these.
fn whole(rt: &impl Abort, alloc: Global, heap: &mut impl Collect) {
    fill_all(rt, alloc, heap);
    done(rt, heap.park(1));
    same(rt, done(rt, heap.collect(alloc, 75)).emptied, 8);
    reads(rt, heap, 0);
    done(rt, heap.unpark(1));
    same(rt, heap.datum(1, 0, 0), Err(Refusal::Stale));
    done(rt, heap.collect_some(alloc, &mut Parts::new(alloc), 75, 1));
    reads(rt, heap, 1);
}

#[test]
fn registers_behind_parts(rt: HostRuntime) {
    for budget in [1, 1000] {
        let mut heap = new_heap(&rt, rt.alloc());
        by_parts(&rt, rt.alloc(), &mut heap, budget);
    }
    let mut heap = new_heap(&rt, rt.alloc());
    whole(&rt, rt.alloc(), &mut heap);
}

/// Does parts up to the one that fails at an open load of thread 0, up to a limit.
fn until_stopped(
    alloc: Global,
    heap: &mut impl Collect,
    parts: &mut Parts,
    most: u32,
) -> Result<(), Refusal> {
    for _ in 0..most {
        heap.collect_some(alloc, parts, 75, 1)?;
    }
    Ok(())
}

/// Does parts of the mark, and of the measuring of pages, except the last ones.
fn while_marking(rt: &impl Abort, alloc: Global, heap: &mut impl Collect, parts: &mut Parts) {
    for _ in 0..20 {
        same(rt, heap.collect_some(alloc, parts, 75, 1), Ok(false));
    }
}

/// The part that protects pages fails at a load that was opened before it. A collection after that does the rest,
/// once the load has ended.
fn stops(rt: &impl Abort, alloc: Global, heap: &mut impl Collect) {
    fill_all(rt, alloc, heap);
    let mut parts = Parts::new(alloc);
    while_marking(rt, alloc, heap, &mut parts);
    done(rt, heap.load(0, 0, 1, 0));
    let stops = Err(Refusal::NotCrossed { thread: 0 });
    same(rt, until_stopped(alloc, heap, &mut parts, 50), stops);
    same(rt, heap.collect(alloc, 75).is_err(), true);
    same(rt, heap.trap(0), Ok(Trap::Clear));
    done(rt, heap.finish(0));
    same(rt, heap.collect(alloc, 75).is_ok(), true);
    reads(rt, heap, 1);
}

#[test]
fn collection_between_parts(rt: HostRuntime) {
    let mut heap = new_heap(&rt, rt.alloc());
    stops(&rt, rt.alloc(), &mut heap);
}
