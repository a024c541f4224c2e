//! Steps of several threads on one shared heap, by portions, with the waits of each thread or without.

use anyhow::Result;
use bench_support::{Lap, since};
use bench_support_threads::{
    Job, PUSH_STEPS, STEPS, Shape, Watch, all_work, collected, laps, opened, prepare, rest, turn,
    turn_and_push,
};
use model::Refusal;
use portions::{Seats, SharedHeap, ThreadSeat};
use std::alloc::Global;
use std::sync::Wait;
use std::thread::Threads;
use std::time::{Clock, Instant};

/// How many rests a portion lasts at least, while another thread waits: some 5,000 steps.
const RESTS: u32 = 80;

/// Loads, reads and writes only; a thread rests after each turn.
#[derive(Drop)]
struct Unwatched {
    count: u32,
}

impl Job for Unwatched {
    fn work<R: Wait + Clock>(
        &self,
        rt: &R,
        alloc: Global,
        shared: &SharedHeap,
        seat: ThreadSeat,
    ) -> Result<Watch, Refusal> {
        let mut seat = seat;
        let mut watch = Watch::new(rt, alloc, RESTS);
        let mut portion = shared.enter(rt, &mut seat);
        prepare(alloc, &mut *portion)?;
        for _ in 0..self.count / STEPS {
            turn(&mut *portion)?;
            watch.count(STEPS);
            portion = shared.rest(rt, portion);
        }
        SharedHeap::leave(portion);
        Ok(watch)
    }
}

/// The same with one more cell for each turn, watched.
#[derive(Drop)]
struct Watched {
    count: u32,
    rests: u32,
}

impl Job for Watched {
    fn work<R: Wait + Clock>(
        &self,
        rt: &R,
        alloc: Global,
        shared: &SharedHeap,
        seat: ThreadSeat,
    ) -> Result<Watch, Refusal> {
        let mut seat = seat;
        let mut watch = Watch::new(rt, alloc, self.rests);
        let mut portion = shared.enter(rt, &mut seat);
        watch.begin(rt, shared.is_wanted())?;
        prepare(alloc, &mut *portion)?;
        for place in 0..self.count / (STEPS + PUSH_STEPS) {
            turn_and_push(alloc, &mut *portion, place)?;
            watch.count(STEPS + PUSH_STEPS);
            portion = rest(rt, shared, portion, &mut watch)?;
        }
        watch.end(rt)?;
        SharedHeap::leave(portion);
        Ok(watch)
    }
}

/// The threads of a heap's seats do `count` steps each.
fn timed<R: Threads + Wait + Clock + Sync>(
    rt: &R,
    alloc: Global,
    shared: &SharedHeap,
    seats: Seats,
    count: u32,
) -> Result<Vec<Lap>> {
    let start = Instant::now(rt)?;
    let all = all_work(rt, alloc, shared, seats.threads, &Unwatched { count })?;
    let nanos = since(rt, start)?;
    laps(alloc, "portions", nanos, &all)
}

/// N threads do `count` steps each, by portions of a shared heap.
pub fn portions<R: Threads + Wait + Clock + Sync>(
    rt: &R,
    alloc: Global,
    threads: u32,
    count: u32,
) -> Result<Vec<Lap>> {
    let (shared, seats) = opened(alloc, threads, Shape::small(RESTS))?;
    let laps = timed(rt, alloc, &shared, seats, count);
    drop(shared);
    laps
}

/// N threads do `count` steps each alongside a collector, and each wait for a turn is timed.
pub fn turns<R: Threads + Wait + Clock + Sync>(
    rt: &R,
    alloc: Global,
    threads: u32,
    count: u32,
    rests: u32,
) -> Result<Vec<Lap>> {
    let shape = Shape::small(rests);
    let (shared, seats) = opened(alloc, threads, shape)?;
    let job = Watched { count, rests };
    let laps = collected(rt, alloc, "turns", &shared, seats, shape, &job);
    drop(shared);
    laps
}
