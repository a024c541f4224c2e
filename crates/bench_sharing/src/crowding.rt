//! Steps of several threads on one recorded heap.

use crate::acting::{Sharing, config, copy_registers, opened};
use anyhow::Result;
use bench_support::{Lap, since};
use cycle::Actor;
use sharing::{Seat, Shared};
use std::alloc::{AllocError, Global};
use std::sync::Wait;
use std::thread;
use std::thread::Threads;
use std::time::{Clock, Instant};

/// Returns the seats of threads.
fn of_threads(alloc: Global, seats: Vec<Seat>) -> Result<Vec<Seat>, AllocError> {
    let mut found = Vec::with_capacity(alloc, seats.len())?;
    for seat in seats {
        if matches!(seat.actor(), Actor::Thread(_)) {
            found.push(seat)?;
        }
    }
    Ok(found)
}

/// Does `count` steps of each seat, each in a thread of its own. Returns how many were accepted.
fn all<R: Threads + Wait + Sync>(
    rt: &R,
    alloc: Global,
    shared: &Shared,
    seats: Vec<Seat>,
    count: u32,
) -> Result<u64, AllocError> {
    thread::scope(thread::scope_env(), rt, move |scope| {
        let mut handles = Vec::with_capacity(alloc, seats.len())?;
        for seat in seats {
            let mut actor = Sharing { rt, shared, seat };
            if let Ok(handle) = scope.spawn(move || copy_registers(&mut actor, count)) {
                handles.push(handle)?;
            }
        }
        let mut done = 0u64;
        for handle in handles {
            done = done.wrapping_add(handle.join(rt));
        }
        Ok(done)
    })
}

/// Lets the threads of these seats do `count` steps each, timed.
fn timed<R: Threads + Wait + Clock + Sync>(
    rt: &R,
    alloc: Global,
    shared: &Shared,
    seats: Vec<Seat>,
    count: u32,
) -> Result<Lap> {
    let seats = of_threads(alloc, seats)?;
    let start = Instant::now(rt)?;
    let done = all(rt, alloc, shared, seats, count)?;
    let nanos = since(rt, start)?;
    Ok(Lap::once("steps", done, nanos))
}

/// Lets `threads` threads do `count` steps each on a new recorded heap.
fn lap<R: Threads + Wait + Clock + Sync>(
    rt: &R,
    alloc: Global,
    threads: u32,
    count: u32,
) -> Result<Lap> {
    let (shared, seats) = opened(alloc, config(alloc, threads)?)?;
    let lap = timed(rt, alloc, &shared, seats, count);
    drop(shared);
    lap
}

/// Lets `threads` threads do `count` steps each by `Shared::step`.
pub fn steps<R: Threads + Wait + Clock + Sync>(
    rt: &R,
    alloc: Global,
    threads: u32,
    count: u32,
) -> Result<Vec<Lap>> {
    let lap = lap(rt, alloc, threads, count)?;
    Ok(vec![in alloc; lap]?)
}
