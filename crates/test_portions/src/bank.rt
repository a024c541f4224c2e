//! A bank: threads move money between accounts, and the sum stays.

use crate::same::{is_sound_then, same};
use model::Refusal;
use portions::{MutatorCalls, Seats, SharedHeap, ThreadSeat};
use std::alloc::Global;
use std::process::Abort;
use std::sync::Wait;
use std::test::Fail;
use std::thread::Threads;
use std::time::Clock;
use test_support_threads::team::{CELL, Job, PLACES, POLICY, TABLE, all_work, shared_heap};

/// The coins of each account at first.
const START: u64 = 1000;

/// How often each thread moves money.
const TURNS: u32 = 5000;

/// Makes a bank of accounts, in global 0.
fn found_bank(alloc: Global, mutator: &mut impl MutatorCalls) -> Result<(), Refusal> {
    mutator.make(alloc, POLICY, 0, TABLE)?;
    for account in 0..PLACES {
        mutator.make(alloc, POLICY, 1, CELL)?;
        mutator.set_datum(1, 0, START)?;
        mutator.store(0, account, 1)?;
    }
    mutator.store_global(0, 0)
}

/// Moves one coin, and leaves a garbage object.
fn transfer(
    alloc: Global,
    mutator: &mut impl MutatorCalls,
    from: u32,
    to: u32,
) -> Result<(), Refusal> {
    mutator.read_global(0, 0)?;
    mutator.read(1, 0, from)?;
    let had = mutator.datum(1, 0)?;
    mutator.set_datum(1, 0, had.wrapping_sub(1))?;
    mutator.read(1, 0, to)?;
    let has = mutator.datum(1, 0)?;
    mutator.set_datum(1, 0, has.wrapping_add(1))?;
    mutator.make(alloc, POLICY, 2, CELL)?;
    Ok(())
}

/// Returns the sum of all accounts.
fn total(mutator: &mut impl MutatorCalls) -> Result<u64, Refusal> {
    let mut sum = 0u64;
    mutator.read_global(0, 0)?;
    for account in 0..PLACES {
        mutator.read(1, 0, account)?;
        sum = sum.wrapping_add(mutator.datum(1, 0)?);
    }
    Ok(sum)
}

/// A thread that moves money: it counts how often the sum was wrong.
#[derive(Drop)]
struct Teller {
    alloc: Global,
}

impl Job for Teller {
    fn work<R: Wait>(&self, rt: &R, shared: &SharedHeap, seat: ThreadSeat) -> Result<u64, Refusal> {
        let mut seat = seat;
        let mut wrong = 0u64;
        let mut next = seat.thread();
        let mut portion = shared.enter(rt, &mut seat);
        for turn in 0..TURNS {
            next = next.wrapping_mul(1_103_515_245).wrapping_add(12_345);
            transfer(
                self.alloc,
                &mut *portion,
                (next >> 8) % PLACES,
                (next >> 16) % PLACES,
            )?;
            if turn % 100 == 0 && total(&mut *portion)? != START.wrapping_mul(u64::from(PLACES)) {
                wrong = wrong.wrapping_add(1);
            }
            portion = shared.rest(rt, portion);
        }
        SharedHeap::leave(portion);
        Ok(wrong)
    }
}

/// A thread makes the bank.
fn found_by<R: Wait>(
    rt: &R,
    alloc: Global,
    shared: &SharedHeap,
    seat: &mut ThreadSeat,
) -> Result<(), Refusal> {
    let mut portion = shared.enter(rt, seat);
    found_bank(alloc, &mut *portion)
}

/// The bank is made, if there is a thread.
fn found_first<R: Wait>(
    rt: &R,
    alloc: Global,
    shared: &SharedHeap,
    seats: &mut Seats,
) -> Result<(), Refusal> {
    match seats.threads.first_mut() {
        Some(seat) => found_by(rt, alloc, shared, seat),
        None => Ok(()),
    }
}

/// All threads move money, and none ever reads another sum.
fn all_move<R: Threads + Wait + Clock + Sync + Abort>(
    rt: &R,
    alloc: Global,
    shared: &SharedHeap,
    mut seats: Seats,
) -> Result<(), Fail> {
    same(rt, found_first(rt, alloc, shared, &mut seats), Ok(()));
    let (found, _collections) = all_work(rt, alloc, shared, seats, &Teller { alloc })?;
    for wrong in found {
        same(rt, wrong, Ok(0));
    }
    Ok(())
}

/// This many threads move money; the heap is sound then.
fn the_sum_stays<R: Threads + Wait + Clock + Sync + Abort>(
    rt: &R,
    alloc: Global,
    threads: u32,
    rests: u32,
) -> Result<(), Fail> {
    let (shared, seats) = shared_heap(alloc, threads, 64, rests)?;
    let moved = all_move(rt, alloc, &shared, seats);
    is_sound_then(rt, alloc, shared, moved)
}

#[test]
fn two_tellers(rt: HostRuntime) -> Result<(), Fail> {
    the_sum_stays(&rt, rt.alloc(), 2, 4)
}

#[test]
fn eight_tellers(rt: HostRuntime) -> Result<(), Fail> {
    the_sum_stays(&rt, rt.alloc(), 8, 1)
}
