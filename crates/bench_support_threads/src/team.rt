//! Threads that share a heap, alongside a collector or not, and heaps for them.

use crate::cells::POLICY;
use crate::watch::Watch;
use anyhow::{Result, bail};
use collecting::Policy;
use layout::{Layout, Layouts};
use managed::ManagedHeap;
use model::{Config, Refusal};
use portions::{CollectorSeat, Seats, SharedHeap, ThreadSeat};
use std::alloc::{AllocError, Global};
use std::sync::Wait;
use std::thread;
use std::thread::Threads;
use std::time::Clock;

/// How a heap is shared.
#[derive(Clone, Copy)]
pub struct Shape {
    /// The words of a page, at least 1,024.
    pub words: u32,
    /// The frames. The collector begins when half of them are in use.
    pub frames: u32,
    /// How many rests a portion lasts at least, while another thread waits.
    pub rests: u32,
    /// The greatest number of objects that the collector scans in a part; it also determines how many pages a
    /// collection empties.
    pub budget: u32,
}

impl Shape {
    /// Returns a heap of 2 MiB with this many rests.
    pub fn small(rests: u32) -> Shape {
        Shape {
            words: 1_024,
            frames: 256,
            rests,
            budget: 1_000,
        }
    }
}

/// Returns a heap of N threads, each of which has a global.
pub fn new_heap(alloc: Global, threads: u32, shape: Shape) -> Result<ManagedHeap> {
    let layouts = Layouts::new(vec![in alloc; Layout { refs: 1, nums: 1 }]?);
    let mut config = Config::new(shape.words, shape.frames, layouts);
    config.threads = threads;
    config.globals = threads;
    Ok(ManagedHeap::new(alloc, config)?)
}

/// Returns a shared heap of N threads, with its seats.
pub fn opened(alloc: Global, threads: u32, shape: Shape) -> Result<(SharedHeap, Seats)> {
    match SharedHeap::open(alloc, new_heap(alloc, threads, shape)?, shape.rests).ok() {
        Some(opened) => Ok(opened),
        None => bail!("there is no memory for seats"),
    }
}

/// The work of one thread.
pub trait Job: Sync {
    /// Works on the heap by a seat, and returns what was done.
    fn work<R: Wait + Clock>(
        &self,
        rt: &R,
        alloc: Global,
        shared: &SharedHeap,
        seat: ThreadSeat,
    ) -> Result<Watch, Refusal>;
}

/// Does a job in a thread for each seat. Returns what each of them did.
pub fn all_work<R: Threads + Wait + Clock + Sync, J: Job>(
    rt: &R,
    alloc: Global,
    shared: &SharedHeap,
    seats: Vec<ThreadSeat>,
    job: &J,
) -> Result<Vec<Result<Watch, Refusal>>, AllocError> {
    thread::scope(thread::scope_env(), rt, move |scope| {
        let mut handles = Vec::with_capacity(alloc, seats.len())?;
        for seat in seats {
            if let Ok(handle) = scope.spawn(move || job.work(rt, alloc, shared, seat)) {
                handles.push(handle)?;
            }
        }
        let mut done = Vec::with_capacity(alloc, handles.len())?;
        for handle in handles {
            done.push(handle.join(rt))?;
        }
        Ok(done)
    })
}

/// Does the collector's work, until the heap is closed. Returns how many collections have ended.
fn collects<R: Wait + Clock>(
    rt: &R,
    alloc: Global,
    shared: &SharedHeap,
    collector: CollectorSeat,
    shape: Shape,
) -> u64 {
    let mut seat = collector;
    let policy = Policy {
        words: POLICY.words,
        free: shape.frames / 2,
        percent: POLICY.percent,
    };
    shared.run_collector(rt, alloc, &mut seat, policy, shape.budget)
}

/// Does a job in a thread for each seat, and closes the heap.
fn work_and_close<R: Threads + Wait + Clock + Sync, J: Job>(
    rt: &R,
    alloc: Global,
    shared: &SharedHeap,
    seats: Vec<ThreadSeat>,
    job: &J,
) -> Result<Vec<Result<Watch, Refusal>>, AllocError> {
    let done = all_work(rt, alloc, shared, seats, job);
    shared.close();
    done
}

/// Does a job in a thread for each seat, alongside a collector. Returns what each of them did, and how many
/// collections have ended.
pub fn all_work_collected<R: Threads + Wait + Clock + Sync, J: Job>(
    rt: &R,
    alloc: Global,
    shared: &SharedHeap,
    seats: Seats,
    shape: Shape,
    job: &J,
) -> Result<(Vec<Result<Watch, Refusal>>, u64), AllocError> {
    let Seats { threads, collector } = seats;
    let (done, collections) = thread::join(
        rt,
        move || work_and_close(rt, alloc, shared, threads, job),
        move || collects(rt, alloc, shared, collector, shape),
    );
    Ok((done?, collections))
}
