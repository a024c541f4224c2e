//! Threads that share a heap, each with its seat, alongside a collector.

use collecting::Policy;
use layout::{Layout, Layouts};
use managed::{Config, ManagedHeap};
use model::Refusal;
use portions::{CollectorSeat, Seats, SharedHeap, ThreadSeat};
use std::alloc::Global;
use std::sync::Wait;
use std::test::Fail;
use std::thread;
use std::thread::Threads;
use std::time::Clock;
use verify::Verdict;
use verifying::verify_held;

/// The layouts: a cell with a reference and a number, and a table of 16 references.
pub const CELL: u32 = 0;

pub const TABLE: u32 = 1;

/// How many references a table has.
pub const PLACES: u32 = 16;

/// Buffers of a page of 64 words; a thread collects only if few frames are free. With none there is no space to copy.
pub const POLICY: Policy = Policy {
    words: 64,
    free: 4,
    percent: 75,
};

/// The collector begins when at most 24 frames are free.
const EARLY: Policy = Policy {
    words: 64,
    free: 24,
    percent: 75,
};

/// The greatest number of objects that the collector scans in a part.
const BUDGET: u32 = 16;

/// Returns a heap of `threads` threads, in pages of 64 words.
pub fn heap_of(alloc: Global, threads: u32, frames: u32) -> Result<ManagedHeap, Fail> {
    let cell = Layout { refs: 1, nums: 1 };
    let table = Layout { refs: 16, nums: 0 };
    let layouts = Layouts::new(vec![in alloc; cell, table]?);
    let mut config = Config::new(64, frames, layouts);
    config.threads = threads;
    config.globals = 2;
    Ok(ManagedHeap::new(alloc, config)?)
}

/// Shares a heap.
pub fn opened(alloc: Global, heap: ManagedHeap, rests: u32) -> Result<(SharedHeap, Seats), Fail> {
    match SharedHeap::open(alloc, heap, rests) {
        Ok(opened) => Ok(opened),
        Err(fault) => Err(Fail::from(fault.refusal)),
    }
}

/// Returns a shared heap of `threads` threads, with its seats.
pub fn shared_heap(
    alloc: Global,
    threads: u32,
    frames: u32,
    rests: u32,
) -> Result<(SharedHeap, Seats), Fail> {
    opened(alloc, heap_of(alloc, threads, frames)?, rests)
}

/// Returns whether a heap that was shared is sound.
pub fn verifies(alloc: Global, shared: SharedHeap) -> Result<bool, Fail> {
    let heap = shared.into_heap();
    Ok(verify_held(alloc, &heap)? == Verdict::Sound)
}

/// The work of one thread.
pub trait Job: Sync {
    /// Works on the heap by a seat, and returns what was found.
    fn work<R: Wait>(&self, rt: &R, shared: &SharedHeap, seat: ThreadSeat) -> Result<u64, Refusal>;
}

/// Does a job in a thread for each seat, and collects meanwhile. Returns what each thread found, and how many
/// collections have ended.
pub fn all_work<R: Threads + Wait + Clock + Sync, J: Job>(
    rt: &R,
    alloc: Global,
    shared: &SharedHeap,
    seats: Seats,
    job: &J,
) -> Result<(Vec<Result<u64, Refusal>>, u64), Fail> {
    let Seats { threads, collector } = seats;
    thread::scope(thread::scope_env(), rt, move |scope| {
        let collecting = scope.spawn(move || collects(rt, alloc, shared, collector))?;
        let mut handles = Vec::with_capacity(alloc, threads.len())?;
        for seat in threads {
            handles.push(scope.spawn(move || job.work(rt, shared, seat))?)?;
        }
        let mut found = Vec::with_capacity(alloc, handles.len())?;
        for handle in handles {
            found.push(handle.join(rt))?;
        }
        shared.close();
        let collections = collecting.join(rt);
        Ok((found, collections))
    })
}

/// The collector's work.
fn collects<R: Wait + Clock>(
    rt: &R,
    alloc: Global,
    shared: &SharedHeap,
    collector: CollectorSeat,
) -> u64 {
    let mut seat = collector;
    shared.run_collector(rt, alloc, &mut seat, EARLY, BUDGET)
}
