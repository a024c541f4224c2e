//! A heap for each thread, which shares nothing.

use crate::locked::plain_heaps;
use crate::own::Own;
use anyhow::Result;
use bench_support::{Lap, since};
use bench_support_threads::{Cells, PUSH_STEPS, STEPS, Shape, new_heap, prepare, turn_and_push};
use model::Refusal;
use std::alloc::{AllocError, Global};
use std::sync::Wait;
use std::thread;
use std::thread::Threads;
use std::time::{Clock, Instant};

/// Does all turns of a thread on its heap, each with one more cell. Returns how many steps were done.
fn turns(alloc: Global, cells: impl Cells + Drop, count: u32) -> Result<u64, Refusal> {
    let mut cells = cells;
    let mut done = 0u64;
    prepare(alloc, &mut cells)?;
    for place in 0..count / (STEPS + PUSH_STEPS) {
        turn_and_push(alloc, &mut cells, place)?;
        done = done.wrapping_add(u64::from(STEPS + PUSH_STEPS));
    }
    Ok(done)
}

/// Does all turns of a thread for each heap. Returns how many steps were done.
fn all<R: Threads + Wait + Sync, C: Cells + Drop + Send>(
    rt: &R,
    alloc: Global,
    heaps: Vec<C>,
    count: u32,
) -> Result<u64, AllocError> {
    thread::scope(thread::scope_env(), rt, move |scope| {
        let mut handles = Vec::with_capacity(alloc, heaps.len())?;
        for heap in heaps {
            if let Ok(handle) = scope.spawn(move || turns(alloc, heap, count)) {
                handles.push(handle)?;
            }
        }
        let mut done = 0u64;
        for handle in handles {
            done = done.wrapping_add(handle.join(rt).unwrap_or(0));
        }
        Ok(done)
    })
}

/// A thread for each heap does `count` steps.
fn timed<R: Threads + Wait + Clock + Sync, C: Cells + Drop + Send>(
    rt: &R,
    alloc: Global,
    name: &'static str,
    heaps: Vec<C>,
    count: u32,
) -> Result<Vec<Lap>> {
    let start = Instant::now(rt)?;
    let done = all(rt, alloc, heaps, count)?;
    let nanos = since(rt, start)?;
    Ok(vec![in alloc; Lap::once(name, done, nanos)]?)
}

/// Returns a heap for each of N threads.
fn own_heaps(alloc: Global, threads: u32) -> Result<Vec<Own>> {
    let mut heaps = Vec::with_capacity(alloc, threads as usize)?;
    for _ in 0..threads {
        let heap = new_heap(alloc, 1, Shape::small(1))?;
        heaps.push(Own { heap })?;
    }
    Ok(heaps)
}

/// N threads do `count` steps each, each on a heap of its own.
pub fn apart<R: Threads + Wait + Clock + Sync>(
    rt: &R,
    alloc: Global,
    threads: u32,
    count: u32,
) -> Result<Vec<Lap>> {
    timed(rt, alloc, "apart", own_heaps(alloc, threads)?, count)
}

/// N threads do `count` steps each, each on a plain heap of its own.
pub fn plain<R: Threads + Wait + Clock + Sync>(
    rt: &R,
    alloc: Global,
    threads: u32,
    count: u32,
) -> Result<Vec<Lap>> {
    timed(rt, alloc, "plain", plain_heaps(alloc, threads)?, count)
}
