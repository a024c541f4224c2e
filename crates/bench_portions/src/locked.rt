//! The same steps on plain heaps under one plain lock, which a thread takes for each turn.

use crate::plain::Plain;
use anyhow::Result;
use bench_support::{Lap, since};
use bench_support_threads::{PUSH_STEPS, STEPS, Watch, laps, prepare, turn, turn_and_push};
use model::Refusal;
use std::alloc::{AllocError, Global};
use std::sync::{Mutex, Wait};
use std::thread;
use std::thread::Threads;
use std::time::{Clock, Instant};

/// The lock and the plain heap of each thread.
type Heaps = Mutex<Vec<Plain>>;

/// The work of each thread.
#[derive(Clone, Copy)]
struct Plan {
    count: u32,
    is_watched: bool,
}

/// Allocates a thread's cell that refers to itself.
fn prepare_of<R: Wait>(rt: &R, alloc: Global, heaps: &Heaps, thread: usize) -> Result<(), Refusal> {
    let mut heaps = heaps.lock(rt);
    match heaps.get_mut(thread) {
        Some(heap) => prepare(alloc, heap),
        None => Err(Refusal::NoActor),
    }
}

/// Does a turn of a thread.
fn turn_of<R: Wait>(rt: &R, heaps: &Heaps, thread: usize) -> Result<(), Refusal> {
    let mut heaps = heaps.lock(rt);
    match heaps.get_mut(thread) {
        Some(heap) => turn(heap),
        None => Err(Refusal::NoActor),
    }
}

/// Does a turn of a thread with one more cell, watched.
fn watched_turn_of<R: Wait + Clock>(
    rt: &R,
    alloc: Global,
    heaps: &Heaps,
    thread: usize,
    place: u32,
    watch: &mut Watch,
) -> Result<(), Refusal> {
    let mut heaps = heaps.lock(rt);
    watch.begin(rt, true)?;
    let Some(heap) = heaps.get_mut(thread) else {
        return Err(Refusal::NoActor);
    };
    turn_and_push(alloc, heap, place)?;
    watch.end(rt)
}

/// Does all turns of a thread.
fn turns_of<R: Wait + Clock>(
    rt: &R,
    alloc: Global,
    heaps: &Heaps,
    thread: usize,
    plan: Plan,
) -> Result<Watch, Refusal> {
    prepare_of(rt, alloc, heaps, thread)?;
    let mut watch = Watch::new(rt, alloc, 0);
    let steps = if plan.is_watched {
        STEPS + PUSH_STEPS
    } else {
        STEPS
    };
    for place in 0..plan.count / steps {
        if plan.is_watched {
            watched_turn_of(rt, alloc, heaps, thread, place, &mut watch)?;
        } else {
            turn_of(rt, heaps, thread)?;
        }
        watch.count(steps);
    }
    Ok(watch)
}

/// Does all turns of all threads. Returns what each of them did.
fn all<R: Threads + Wait + Clock + Sync>(
    rt: &R,
    alloc: Global,
    heaps: &Heaps,
    threads: u32,
    plan: Plan,
) -> Result<Vec<Result<Watch, Refusal>>, AllocError> {
    thread::scope(thread::scope_env(), rt, move |scope| {
        let mut handles = Vec::with_capacity(alloc, threads as usize)?;
        for thread in 0..threads as usize {
            if let Ok(handle) = scope.spawn(move || turns_of(rt, alloc, heaps, thread, plan)) {
                handles.push(handle)?;
            }
        }
        let mut done = Vec::with_capacity(alloc, handles.len())?;
        for handle in handles {
            done.push(handle.join(rt))?;
        }
        Ok(done)
    })
}

/// Returns a plain heap for each of N threads.
pub fn plain_heaps(alloc: Global, threads: u32) -> Result<Vec<Plain>, AllocError> {
    let mut heaps = Vec::with_capacity(alloc, threads as usize)?;
    for _ in 0..threads {
        heaps.push(Plain::new(alloc)?)?;
    }
    Ok(heaps)
}

/// N threads do `count` steps each on plain heaps under a lock; if watched, with one more cell for each turn.
pub fn locked<R: Threads + Wait + Clock + Sync>(
    rt: &R,
    alloc: Global,
    threads: u32,
    count: u32,
    is_watched: bool,
) -> Result<Vec<Lap>> {
    let heaps = Mutex::new(plain_heaps(alloc, threads)?);
    let plan = Plan { count, is_watched };
    let start = Instant::now(rt)?;
    let all = all(rt, alloc, &heaps, threads, plan)?;
    let nanos = since(rt, start)?;
    laps(alloc, "locked", nanos, &all)
}
