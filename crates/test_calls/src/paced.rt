//! A cache whose entries are replaced one by one, and the counters of its collections.

use crate::same::{done, same};
use collecting::{CollectCounted, Counters, Parts, Policy};
use heap::Config;
use layout::{Layout, Layouts};
use managed::ManagedHeap;
use std::alloc::Global;
use std::process::Abort;

const ME: u32 = 0;

/// Registers: the table, a row of it, and a new entry.
const TABLE: u32 = 0;

const ROW: u32 = 1;

const ENTRY: u32 = 2;

/// Layouts of a table or a row of it, and of an entry.
const ROWS: u32 = 0;

const ENTRIES: u32 = 1;

/// The rows of the table, and the entries of a row: 17 rows of 17 words and 256 entries of 8, or 37 pages of 64.
const WIDTH: u32 = 16;

/// Buffers of a page; a heap is collected if at most `free` frames are free.
fn policy(free: u32) -> Policy {
    Policy {
        words: 64,
        free,
        percent: 90,
    }
}

/// A heap for a cache, of this number of frames.
fn heap_of(rt: &impl Abort, alloc: Global, frames: u32) -> ManagedHeap {
    let rows = Layout { refs: 16, nums: 0 };
    let entries = Layout { refs: 1, nums: 6 };
    let layouts = Layouts::new(done(rt, vec![in alloc; rows, entries]));
    done(
        rt,
        ManagedHeap::new(alloc, Config::new(64, frames, layouts)),
    )
}

/// How a cache is collected: its policy's free frames, and the budget of a part; and the counters of its collections.
#[derive(Drop)]
struct Load {
    free: u32,
    budget: u32,
    parts: Parts,
    counters: Counters,
    /// The greatest number of parts for one object.
    most: u64,
}

fn load_of(alloc: Global, free: u32, budget: u32) -> Load {
    Load {
        free,
        budget,
        parts: Parts::new(alloc),
        counters: Counters::new(),
        most: 0,
    }
}

/// Allocates an object of a layout in a register.
fn make(
    rt: &impl Abort,
    alloc: Global,
    heap: &mut impl CollectCounted,
    load: &mut Load,
    target: u32,
    layout: u32,
) {
    let before = load.counters.parts;
    let made = heap.make_paced_counted(
        alloc,
        &mut load.counters,
        &mut load.parts,
        policy(load.free),
        load.budget,
        ME,
        target,
        layout,
    );
    done(rt, made);
    load.most = load.most.max(load.counters.parts.wrapping_sub(before));
}

/// Replaces an entry in a place of the table.
fn replace(
    rt: &impl Abort,
    alloc: Global,
    heap: &mut impl CollectCounted,
    load: &mut Load,
    place: u32,
) {
    make(rt, alloc, heap, load, ENTRY, ENTRIES);
    done(rt, heap.read(ME, ROW, TABLE, (place >> 4) & 15));
    done(rt, heap.store(ME, ROW, place & 15, ENTRY));
    done(rt, heap.clear_register(ME, ENTRY));
}

/// Makes a table, with an entry in each place, and then replaces `count` entries, in pseudorandom places.
fn fill(
    rt: &impl Abort,
    alloc: Global,
    heap: &mut impl CollectCounted,
    load: &mut Load,
    count: u32,
) {
    make(rt, alloc, heap, load, TABLE, ROWS);
    for row in 0..WIDTH {
        make(rt, alloc, heap, load, ROW, ROWS);
        done(rt, heap.store(ME, TABLE, row, ROW));
    }
    for place in 0..256u32 {
        replace(rt, alloc, heap, load, place);
    }
    let mut state = 1u32;
    for _ in 0..count {
        state = state.wrapping_mul(1_103_515_245).wrapping_add(12_345);
        replace(rt, alloc, heap, load, state >> 16);
    }
}

/// A cache in at least one and a half times the frames of its live objects is never collected by one call, and an
/// object takes at most this many parts.
fn is_paced(
    rt: &impl Abort,
    alloc: Global,
    heap: &mut impl CollectCounted,
    load: &mut Load,
    most: u64,
) {
    fill(rt, alloc, heap, load, 2000);
    same(rt, (load.counters.by_policy, load.counters.by_room), (0, 0));
    same(rt, load.counters.ended_in_parts > 5, true);
    same(rt, load.most <= most, true);
}

/// With these numbers of frames and of free frames, and budgets of a part.
#[test]
fn make_never_collects_by_one_call(rt: HostRuntime) {
    for (frames, free, budget, most) in [
        (56, 14, 1, 280),
        (56, 14, 10, 120),
        (56, 14, 10_000, 16),
        (80, 20, 1, 150),
        (80, 20, 10, 60),
        (80, 20, 10_000, 16),
    ] {
        let mut heap = heap_of(&rt, rt.alloc(), frames);
        let mut load = load_of(rt.alloc(), free, budget);
        is_paced(&rt, rt.alloc(), &mut heap, &mut load, most);
    }
}

/// Does all parts of a collection.
fn collect_in_parts(
    rt: &impl Abort,
    alloc: Global,
    heap: &mut impl CollectCounted,
    load: &mut Load,
) {
    for _ in 0..100_000u32 {
        let budget = load.budget;
        let ended = heap.collect_some_counted(
            alloc,
            &mut load.counters,
            &mut load.parts,
            90,
            budget,
        );
        if done(rt, ended) {
            break;
        }
    }
}

/// Returns how many pages a collection of a cache empties: by one call if the budget is 0, else in parts.
fn emptied(rt: &impl Abort, alloc: Global, heap: &mut impl CollectCounted, load: &mut Load) -> u64 {
    fill(rt, alloc, heap, load, 600);
    done(rt, heap.give_back(ME));
    if load.budget == 0 {
        done(rt, heap.collect_counted(alloc, &mut load.counters, 90));
    } else {
        collect_in_parts(rt, alloc, heap, load);
    }
    load.counters.emptied
}

/// A collection in parts frees at least nine tenths of what one call frees.
#[test]
fn parts_free_what_one_call_frees(rt: HostRuntime) {
    let mut whole = 0;
    for budget in [0, 1, 10, 100, 10_000] {
        let mut heap = heap_of(&rt, rt.alloc(), 160);
        let mut load = load_of(rt.alloc(), 0, budget);
        let found = emptied(&rt, rt.alloc(), &mut heap, &mut load);
        if budget == 0 {
            whole = found;
        }
        same(&rt, whole > 60, true);
        same(&rt, found.wrapping_mul(10) >= whole.wrapping_mul(9), true);
    }
}

/// Keeps entries, each by the next one, until no frame is left. Returns how many they are.
fn keep_all(
    rt: &impl Abort,
    alloc: Global,
    heap: &mut impl CollectCounted,
    counters: &mut Counters,
    free: u32,
) -> u32 {
    for count in 0..100_000u32 {
        if heap
            .make_counted(alloc, counters, policy(free), ME, ENTRY, ENTRIES)
            .is_err()
        {
            return count;
        }
        done(rt, heap.store(ME, ENTRY, 0, ROW));
        done(rt, heap.copy_register(ME, ROW, ENTRY));
    }
    0
}

/// While a heap fills with live objects, it is collected a few times, and not for each of its last frames.
fn is_calm(rt: &impl Abort, alloc: Global, heap: &mut impl CollectCounted) {
    let mut counters = Counters::new();
    same(rt, keep_all(rt, alloc, heap, &mut counters, 64), 1024);
    same(rt, counters.by_room, 0);
    same(rt, counters.by_policy < 20, true);
}

#[test]
fn full_heap_is_calm(rt: HostRuntime) {
    let mut heap = heap_of(&rt, rt.alloc(), 128);
    is_calm(&rt, rt.alloc(), &mut heap);
}
