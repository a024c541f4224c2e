//! Threads that make lists, share them and read them back: the program of `bench/Lists.java`.

use anyhow::Result;
use bench_support::Lap;
use bench_support_threads::{Cells, Job, LENGTH, Shape, Watch, collected, opened, push, rest};
use model::Refusal;
use portions::{Mutator, MutatorCalls, SharedHeap, ThreadSeat};
use std::alloc::Global;
use std::sync::{RwLockWriteGuard, Wait};
use std::thread::Threads;
use std::time::Clock;

/// A thread rests after 20 cells: up to 80 steps.
const PART: u32 = 20;

/// The words of the heap: 32 MiB.
const WORDS: u32 = 1 << 22;

/// The sum of a list's numbers.
const SUM: u64 = 499_500;

/// Each thread makes lists, and reads those of the next thread.
#[derive(Drop)]
struct Maker {
    threads: u32,
    count: u32,
    rests: u32,
}

/// Puts a few cells in front of the list in register 2.
fn push_some(alloc: Global, mutator: &mut Mutator, first: u32) -> Result<(), Refusal> {
    for place in 0..PART {
        push(alloc, mutator, u64::from(first.wrapping_add(place)))?;
    }
    Ok(())
}

/// Adds up a few cells of the list in register 1, and leaves the rest of it there.
fn sum_some(cells: &mut impl Cells, sum: u64) -> Result<u64, Refusal> {
    let mut sum = sum;
    for _ in 0..PART {
        sum = sum.wrapping_add(cells.number(1)?);
        cells.follow(1, 1)?;
    }
    Ok(sum)
}

/// Makes a list, and stores it in the thread's global.
fn make_list<'a, R: Wait + Clock>(
    rt: &R,
    alloc: Global,
    shared: &'a SharedHeap,
    portion: RwLockWriteGuard<'a, Mutator>,
    watch: &mut Watch,
) -> Result<RwLockWriteGuard<'a, Mutator>, Refusal> {
    let mut portion = portion;
    portion.clear_register(2)?;
    for part in 0..LENGTH / PART {
        push_some(alloc, &mut *portion, part.wrapping_mul(PART))?;
        watch.count(PART);
        portion = rest(rt, shared, portion, watch)?;
    }
    let thread = portion.thread();
    portion.store_global(thread, 2)?;
    Ok(portion)
}

/// Returns whether a global has a list; if so, loads it into register 1.
fn load_list(mutator: &mut impl MutatorCalls, global: u32) -> Result<bool, Refusal> {
    mutator.read_global(1, global)?;
    Ok(!mutator.is_null(1)?)
}

/// Reads the list in register 1. Fails if its sum is wrong.
fn read_list<'a, R: Wait + Clock>(
    rt: &R,
    shared: &'a SharedHeap,
    portion: RwLockWriteGuard<'a, Mutator>,
    watch: &mut Watch,
) -> Result<RwLockWriteGuard<'a, Mutator>, Refusal> {
    let mut portion = portion;
    let mut sum = 0u64;
    for _ in 0..LENGTH / PART {
        sum = sum_some(&mut *portion, sum)?;
        portion = rest(rt, shared, portion, watch)?;
    }
    if sum == SUM && portion.is_null(1)? {
        Ok(portion)
    } else {
        Err(Refusal::BadIndex)
    }
}

/// Returns the thread after this one, in a circle of N.
fn next_of(thread: u32, threads: u32) -> u32 {
    let next = thread.wrapping_add(1);
    if next < threads { next } else { 0 }
}

impl Job for Maker {
    fn work<R: Wait + Clock>(
        &self,
        rt: &R,
        alloc: Global,
        shared: &SharedHeap,
        seat: ThreadSeat,
    ) -> Result<Watch, Refusal> {
        let mut seat = seat;
        let mut watch = Watch::new(rt, alloc, self.rests);
        let next = next_of(seat.thread(), self.threads);
        let mut portion = shared.enter(rt, &mut seat);
        watch.begin(rt, shared.is_wanted())?;
        for _ in 0..self.count {
            portion = make_list(rt, alloc, shared, portion, &mut watch)?;
            if load_list(&mut *portion, next)? {
                portion = read_list(rt, shared, portion, &mut watch)?;
            }
        }
        watch.end(rt)?;
        SharedHeap::leave(portion);
        Ok(watch)
    }
}

/// N threads make lists on a shared heap, alongside a collector. The count of the first lap is that of cells. The
/// numbers are those of threads, of the lists of each, of rests, of the words of a page, and the budget.
pub fn lists<R: Threads + Wait + Clock + Sync>(
    rt: &R,
    alloc: Global,
    numbers: [u32; 5],
) -> Result<Vec<Lap>> {
    let [threads, count, rests, words, budget] = numbers;
    let shape = Shape {
        words,
        frames: WORDS.checked_div(words).unwrap_or(0),
        rests,
        budget,
    };
    let (shared, seats) = opened(alloc, threads, shape)?;
    let job = Maker {
        threads,
        count,
        rests,
    };
    let laps = collected(rt, alloc, "lists", &shared, seats, shape, &job);
    drop(shared);
    laps
}
