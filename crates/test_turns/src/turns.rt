//! Which thread has the heap: a thread that rests lets others have it, and the collector takes its turns.

use crate::same::same;
use model::Refusal;
use portions::{Mutator, MutatorCalls, Seats, SharedHeap, ThreadSeat};
use std::alloc::Global;
use std::process::Abort;
use std::sync::Wait;
use std::sync::atomic::{AtomicU64, Ordering};
use std::test::Fail;
use std::thread;
use std::thread::Threads;
use std::time::Clock;
use test_support_threads::team::{CELL, Job, POLICY, all_work, shared_heap};

/// The greatest number of rests of a thread that waits in vain.
const RESTS: u32 = 20_000_000;

/// The frames of the heap. The collector begins when 24 are free.
const FRAMES: u32 = 64;

const LOW: u32 = 20;

/// Thread 0 has the heap, and rests until thread 1 has written a number.
#[derive(Drop)]
struct Meeting {
    alloc: Global,
    begun: AtomicU64,
}

/// Allocates the object of global 0.
fn make(alloc: Global, mutator: &mut impl MutatorCalls) -> Result<(), Refusal> {
    mutator.make(alloc, POLICY, 0, CELL)?;
    mutator.store_global(0, 0)
}

/// Returns the number in the object of global 0.
fn number(mutator: &mut impl MutatorCalls) -> Result<u64, Refusal> {
    mutator.read_global(0, 0)?;
    mutator.datum(0, 0)
}

/// Writes the number.
fn write(mutator: &mut impl MutatorCalls) -> Result<u64, Refusal> {
    mutator.read_global(0, 0)?;
    mutator.set_datum(0, 0, 1)?;
    Ok(1)
}

impl Meeting {
    /// Rests until the number is there, and returns it.
    fn wait<R: Wait>(
        &self,
        rt: &R,
        shared: &SharedHeap,
        seat: &mut ThreadSeat,
    ) -> Result<u64, Refusal> {
        let mut portion = shared.enter(rt, seat);
        make(self.alloc, &mut *portion)?;
        self.begun.store(1, Ordering::SeqCst);
        for _ in 0..RESTS {
            if number(&mut *portion)? == 1 {
                return Ok(1);
            }
            portion = shared.rest(rt, portion);
        }
        Ok(0)
    }

    /// Writes the number, once thread 0 has the heap.
    fn come<R: Wait>(
        &self,
        rt: &R,
        shared: &SharedHeap,
        seat: &mut ThreadSeat,
    ) -> Result<u64, Refusal> {
        for _ in 0..RESTS {
            if self.begun.load(Ordering::SeqCst) == 1 {
                break;
            }
            thread::yield_now();
        }
        let mut portion = shared.enter(rt, seat);
        write(&mut *portion)
    }
}

impl Job for Meeting {
    fn work<R: Wait>(&self, rt: &R, shared: &SharedHeap, seat: ThreadSeat) -> Result<u64, Refusal> {
        let mut seat = seat;
        if seat.thread() == 0 {
            self.wait(rt, shared, &mut seat)
        } else {
            self.come(rt, shared, &mut seat)
        }
    }
}

/// Both threads have met.
fn meet<R: Threads + Wait + Clock + Sync + Abort>(
    rt: &R,
    alloc: Global,
    shared: &SharedHeap,
    seats: Seats,
) -> Result<(), Fail> {
    let meeting = Meeting {
        alloc,
        begun: AtomicU64::new(0),
    };
    let (found, _collections) = all_work(rt, alloc, shared, seats, &meeting)?;
    for number in found {
        same(rt, number, Ok(1));
    }
    Ok(())
}

#[test]
fn a_thread_that_rests_hands_on(rt: HostRuntime) -> Result<(), Fail> {
    let (shared, seats) = shared_heap(rt.alloc(), 2, FRAMES, 4)?;
    let met = meet(&rt, rt.alloc(), &shared, seats);
    drop(shared);
    met
}

/// A thread that leaves few frames free, and waits until there are more.
#[derive(Drop)]
struct Spender {
    alloc: Global,
}

/// Returns how many frames are free.
fn free_frames(mutator: &Mutator) -> u32 {
    mutator.heap().heap().memory().free_frames()
}

/// Allocates garbage objects, until few frames are free.
fn spend(alloc: Global, mutator: &mut Mutator) -> Result<(), Refusal> {
    for _ in 0..FRAMES * 64 {
        if free_frames(mutator) <= LOW {
            break;
        }
        mutator.make(alloc, POLICY, 0, CELL)?;
    }
    Ok(())
}

/// Spends, in a portion.
fn spend_by<R: Wait>(
    rt: &R,
    alloc: Global,
    shared: &SharedHeap,
    seat: &mut ThreadSeat,
) -> Result<(), Refusal> {
    let mut portion = shared.enter(rt, seat);
    spend(alloc, &mut *portion)
}

/// Returns how many frames are free between two portions of other threads.
fn free_by<R: Wait>(rt: &R, shared: &SharedHeap, seat: &mut ThreadSeat) -> u32 {
    let portion = shared.enter(rt, seat);
    free_frames(&*portion)
}

impl Job for Spender {
    fn work<R: Wait>(&self, rt: &R, shared: &SharedHeap, seat: ThreadSeat) -> Result<u64, Refusal> {
        let mut seat = seat;
        spend_by(rt, self.alloc, shared, &mut seat)?;
        for _ in 0..RESTS {
            if free_by(rt, shared, &mut seat) > LOW {
                return Ok(1);
            }
            thread::yield_now();
        }
        Ok(0)
    }
}

/// The collector has freed frames while the thread did nothing.
fn is_collected<R: Threads + Wait + Clock + Sync + Abort>(
    rt: &R,
    alloc: Global,
    shared: &SharedHeap,
    seats: Seats,
) -> Result<(), Fail> {
    let (found, _collections) = all_work(rt, alloc, shared, seats, &Spender { alloc })?;
    for number in found {
        same(rt, number, Ok(1));
    }
    Ok(())
}

#[test]
fn the_collector_frees_frames(rt: HostRuntime) -> Result<(), Fail> {
    let (shared, seats) = shared_heap(rt.alloc(), 1, FRAMES, 4)?;
    let collected = is_collected(&rt, rt.alloc(), &shared, seats);
    drop(shared);
    collected
}

/// A thread that rests waits if fewer frames are free: a quarter of the 24 at which the collector begins.
const RESERVE: u32 = 6;

/// A thread that uses up the frames in one portion, and rests.
#[derive(Drop)]
struct Waster {
    alloc: Global,
}

/// Takes buffers until a single frame is free; no collection is done for them.
fn waste(mutator: &mut Mutator) -> Result<(), Refusal> {
    for _ in 0..FRAMES {
        if free_frames(mutator) <= 1 {
            break;
        }
        mutator.take(64)?;
        mutator.give_back()?;
    }
    Ok(())
}

/// The buffer of the thread is given back.
fn settle_by<R: Wait>(rt: &R, shared: &SharedHeap, seat: &mut ThreadSeat) -> Result<(), Refusal> {
    let mut portion = shared.enter(rt, seat);
    portion.give_back()
}

/// Returns how many frames are free after a thread has used up all but one, and rested.
fn rested_by<R: Wait>(rt: &R, shared: &SharedHeap, seat: &mut ThreadSeat) -> Result<u32, Refusal> {
    let mut portion = shared.enter(rt, seat);
    waste(&mut *portion)?;
    let portion = shared.rest(rt, portion);
    Ok(free_frames(&*portion))
}

impl Job for Waster {
    fn work<R: Wait>(&self, rt: &R, shared: &SharedHeap, seat: ThreadSeat) -> Result<u64, Refusal> {
        let mut seat = seat;
        spend_by(rt, self.alloc, shared, &mut seat)?;
        settle_by(rt, shared, &mut seat)?;
        for _ in 0..RESTS {
            if free_by(rt, shared, &mut seat) > LOW {
                break;
            }
            thread::yield_now();
        }
        Ok(u64::from(rested_by(rt, shared, &mut seat)?.min(RESERVE)))
    }
}

/// The thread has waited until enough frames were free.
fn is_paced<R: Threads + Wait + Clock + Sync + Abort>(
    rt: &R,
    alloc: Global,
    shared: &SharedHeap,
    seats: Seats,
) -> Result<(), Fail> {
    let (found, _collections) = all_work(rt, alloc, shared, seats, &Waster { alloc })?;
    for number in found {
        same(rt, number, Ok(u64::from(RESERVE)));
    }
    Ok(())
}

#[test]
fn a_thread_that_rests_waits_for_frames(rt: HostRuntime) -> Result<(), Fail> {
    let (shared, seats) = shared_heap(rt.alloc(), 1, FRAMES, 0)?;
    let paced = is_paced(&rt, rt.alloc(), &shared, seats);
    drop(shared);
    paced
}
