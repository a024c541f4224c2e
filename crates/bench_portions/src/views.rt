//! Threads that read one heap at the same time, by views.

use anyhow::Result;
use bench_support::{Lap, since};
use bench_support_threads::{Job, LENGTH, Shape, Watch, all_work, laps, opened, push};
use model::Refusal;
use portions::{Mutator, MutatorCalls, Seats, SharedHeap, ThreadSeat, View};
use std::alloc::Global;
use std::sync::Wait;
use std::thread::Threads;
use std::time::{Clock, Instant};

/// The reads of one view: a number and a reference of each cell of a list.
const LOOKS: u32 = 2 * LENGTH;

/// The sum of the list's numbers.
const SUM: u64 = 499_500;

/// Each thread reads the list in global 0 again and again, by a view each time.
#[derive(Drop)]
struct Looker {
    count: u32,
}

/// Makes the list.
fn fill(alloc: Global, mutator: &mut Mutator) -> Result<(), Refusal> {
    for number in 0..LENGTH {
        push(alloc, mutator, u64::from(number))?;
    }
    mutator.store_global(0, 2)
}

/// A thread makes the list, in a portion.
fn fill_by<R: Wait>(
    rt: &R,
    alloc: Global,
    shared: &SharedHeap,
    seats: &mut Seats,
) -> Result<(), Refusal> {
    let Some(seat) = seats.threads.first_mut() else {
        return Err(Refusal::NoActor);
    };
    let mut portion = shared.enter(rt, seat);
    fill(alloc, &mut *portion)
}

/// Adds up the numbers of the list. Fails if the sum is wrong.
fn walk(view: &View<'_>) -> Result<(), Refusal> {
    let mut sum = 0u64;
    let mut next = view.global(0)?;
    for _ in 0..LENGTH {
        let Some(cell) = next else {
            return Err(Refusal::Null);
        };
        sum = sum.wrapping_add(cell.datum(0)?);
        next = cell.load(0)?;
    }
    if sum == SUM {
        Ok(())
    } else {
        Err(Refusal::BadIndex)
    }
}

/// Reads the list by one view.
fn look<R: Wait>(rt: &R, shared: &SharedHeap) -> Result<(), Refusal> {
    let desk = shared.read(rt);
    walk(&desk.view())
}

impl Job for Looker {
    fn work<R: Wait + Clock>(
        &self,
        rt: &R,
        alloc: Global,
        shared: &SharedHeap,
        _seat: ThreadSeat,
    ) -> Result<Watch, Refusal> {
        let mut watch = Watch::new(rt, alloc, 0);
        for _ in 0..self.count / LOOKS {
            look(rt, shared)?;
            watch.count(LOOKS);
        }
        Ok(watch)
    }
}

/// The same on a heap that is shared already.
fn timed<R: Threads + Wait + Clock + Sync>(
    rt: &R,
    alloc: Global,
    shared: &SharedHeap,
    seats: Seats,
    count: u32,
) -> Result<Vec<Lap>> {
    let mut seats = seats;
    fill_by(rt, alloc, shared, &mut seats)?;
    let start = Instant::now(rt)?;
    let all = all_work(rt, alloc, shared, seats.threads, &Looker { count })?;
    let nanos = since(rt, start)?;
    laps(alloc, "views", nanos, &all)
}

/// N threads read the list by `count` views each.
pub fn views<R: Threads + Wait + Clock + Sync>(
    rt: &R,
    alloc: Global,
    threads: u32,
    count: u32,
) -> Result<Vec<Lap>> {
    let (shared, seats) = opened(alloc, threads, Shape::small(0))?;
    let laps = timed(rt, alloc, &shared, seats, count);
    drop(shared);
    laps
}
