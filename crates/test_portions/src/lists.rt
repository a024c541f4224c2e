//! Lists: each thread keeps one in its registers, from portion to portion, while the heap is collected.

use crate::same::{is_sound_then, same};
use model::Refusal;
use portions::{MutatorCalls, Seats, SharedHeap, ThreadSeat};
use std::alloc::Global;
use std::process::Abort;
use std::sync::Wait;
use std::test::Fail;
use std::thread::Threads;
use std::time::Clock;
use test_support_threads::team::{CELL, Job, POLICY, all_work, shared_heap};

/// How many objects a list has.
const LENGTH: u32 = 200;

/// How many lists a thread makes, one after another; all but the last become garbage.
const LISTS: u32 = 20;

/// Puts a number in front of the list in register 0.
fn push(alloc: Global, mutator: &mut impl MutatorCalls, value: u64) -> Result<(), Refusal> {
    mutator.make(alloc, POLICY, 1, CELL)?;
    mutator.set_datum(1, 0, value)?;
    mutator.store(1, 0, 0)?;
    mutator.copy_register(0, 1)
}

/// Returns the sum of the list in register 0, which stays there.
fn sum(mutator: &mut impl MutatorCalls) -> Result<u64, Refusal> {
    let mut sum = 0u64;
    mutator.copy_register(2, 0)?;
    for _ in 0..LENGTH {
        sum = sum.wrapping_add(mutator.datum(2, 0)?);
        mutator.read(2, 2, 0)?;
    }
    Ok(sum)
}

/// A thread that makes lists, each push in a portion of its own.
#[derive(Drop)]
struct Maker {
    alloc: Global,
}

/// Puts a number in front, in a portion of its own.
fn push_by<R: Wait>(
    rt: &R,
    alloc: Global,
    shared: &SharedHeap,
    seat: &mut ThreadSeat,
    value: u32,
) -> Result<(), Refusal> {
    let mut portion = shared.enter(rt, seat);
    if value == 0 {
        portion.clear_register(0)?;
    }
    push(alloc, &mut *portion, u64::from(value))
}

/// Returns the sum of the thread's list.
fn sum_by<R: Wait>(rt: &R, shared: &SharedHeap, seat: &mut ThreadSeat) -> Result<u64, Refusal> {
    shared.with(rt, seat, |mutator| sum(mutator))
}

impl Job for Maker {
    fn work<R: Wait>(&self, rt: &R, shared: &SharedHeap, seat: ThreadSeat) -> Result<u64, Refusal> {
        let mut seat = seat;
        for _ in 0..LISTS {
            for value in 0..LENGTH {
                push_by(rt, self.alloc, shared, &mut seat, value)?;
            }
        }
        sum_by(rt, shared, &mut seat)
    }
}

/// All threads make lists, and each finds its last one complete.
fn all_make<R: Threads + Wait + Clock + Sync + Abort>(
    rt: &R,
    alloc: Global,
    shared: &SharedHeap,
    seats: Seats,
) -> Result<(), Fail> {
    let (found, _collections) = all_work(rt, alloc, shared, seats, &Maker { alloc })?;
    for sum in found {
        same(rt, sum, Ok(19_900));
    }
    Ok(())
}

#[test]
fn four_lists(rt: HostRuntime) -> Result<(), Fail> {
    let (shared, seats) = shared_heap(rt.alloc(), 4, 96, 1)?;
    let made = all_make(&rt, rt.alloc(), &shared, seats);
    is_sound_then(&rt, rt.alloc(), shared, made)
}
