//! Threads between their portions: collections wait for none of them, and change nothing that they keep.

use crate::same::{is_sound, same};
use model::Refusal;
use portions::{CollectorSeat, MutatorCalls, Seats, SharedHeap, ThreadSeat};
use std::alloc::Global;
use std::process::Abort;
use std::sync::Wait;
use std::test::Fail;
use test_support_threads::team::{CELL, POLICY, shared_heap};

/// The greatest number of objects that a part scans.
const BUDGET: u32 = 4;

/// More parts than a collection of this heap has.
const PARTS: u32 = 500;

/// How many objects are allocated; every second one becomes garbage.
const OBJECTS: u64 = 40;

/// Makes a list in register 0, with garbage objects between its objects.
fn fill(alloc: Global, mutator: &mut impl MutatorCalls) -> Result<(), Refusal> {
    for value in 0..OBJECTS {
        mutator.make(alloc, POLICY, 1, CELL)?;
        mutator.set_datum(1, 0, value)?;
        mutator.store(1, 0, 0)?;
        mutator.copy_register(0, 1)?;
        mutator.make(alloc, POLICY, 2, CELL)?;
    }
    mutator.clear_register(1)?;
    mutator.clear_register(2)
}

/// Returns the sum of the list.
fn sum(mutator: &mut impl MutatorCalls) -> Result<u64, Refusal> {
    let mut sum = 0u64;
    mutator.copy_register(1, 0)?;
    for _ in 0..OBJECTS {
        sum = sum.wrapping_add(mutator.datum(1, 0)?);
        mutator.read(1, 1, 0)?;
    }
    Ok(sum)
}

/// Returns the sum of the thread's list, in a portion of its own.
fn sum_by<R: Wait>(rt: &R, shared: &SharedHeap, seat: &mut ThreadSeat) -> Result<u64, Refusal> {
    let mut portion = shared.enter(rt, seat);
    sum(&mut *portion)
}

/// The thread makes its list.
fn fill_by<R: Wait>(
    rt: &R,
    alloc: Global,
    shared: &SharedHeap,
    seat: &mut ThreadSeat,
) -> Result<(), Refusal> {
    let mut portion = shared.enter(rt, seat);
    fill(alloc, &mut *portion)
}

/// Collects while no thread is in a portion; after each part a thread finds its list in its registers. Returns how
/// many collections have ended.
fn collects(
    rt: &(impl Wait + Abort),
    alloc: Global,
    shared: &SharedHeap,
    seat: &mut ThreadSeat,
    collector: &mut CollectorSeat,
) -> Result<u32, Refusal> {
    let mut ended = 0u32;
    for _ in 0..PARTS {
        if shared.collect_some(rt, alloc, collector, 75, BUDGET)? {
            ended = ended.wrapping_add(1);
        }
        same(rt, sum_by(rt, shared, seat), Ok(780));
    }
    Ok(ended)
}

/// All threads have made a list; then the first one reads its own while parts are done.
fn stays(
    rt: &(impl Wait + Abort),
    alloc: Global,
    shared: &SharedHeap,
    seats: Seats,
) -> Result<(), Refusal> {
    let Seats {
        mut threads,
        mut collector,
    } = seats;
    for seat in threads.iter_mut() {
        fill_by(rt, alloc, shared, seat)?;
    }
    if let Some(seat) = threads.first_mut() {
        let ended = collects(rt, alloc, shared, seat, &mut collector)?;
        assert!(rt; ended > 2, "collections have ended {ended} times");
    }
    Ok(())
}

#[test]
fn threads_are_parked_between_portions(rt: HostRuntime) -> Result<(), Fail> {
    let (shared, seats) = shared_heap(rt.alloc(), 3, 32, 1)?;
    same(&rt, stays(&rt, rt.alloc(), &shared, seats), Ok(()));
    is_sound(&rt, rt.alloc(), shared)
}
