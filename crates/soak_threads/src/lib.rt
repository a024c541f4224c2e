//! A soak of threads that share a heap alongside a collector that never rests: they build, share and read lists, and
//! move money between the accounts of a bank.
//!
//! | Words | Effect |
//! |---|---|
//! | `turns THREADS TURNS` | each of 1 to 16 threads does TURNS turns, a transfer and a cell of a list in each |
//!
//! In every 50th turn a thread puts its list on a board, reads one that some thread has put there, and adds up the
//! accounts; in every 10,000th, and at the end, it verifies the heap. A work prints what was done, and after the word
//! `timed` the number of collections too. It fails if a list, a sum or a verdict is wrong, or if a call does. The word
//! `then` separates two works.
#![tactic(auto)]

mod team;
mod turns;
mod working;

use crate::team::{PLACES, collects, opened};
use crate::turns::found_bank;
use crate::working::{Found, work};
use anyhow::{Result, bail};
use bench_support::Work;
use model::Refusal;
use portions::{Seats, SharedHeap, ThreadSeat};
use std::alloc::{AllocError, Global};
use std::sync::Wait;
use std::thread;
use std::thread::Threads;
use std::time::Clock;
use verifying::verify_held;

/// A thread makes the bank and the board.
fn found_by<R: Wait>(
    rt: &R,
    alloc: Global,
    shared: &SharedHeap,
    seats: &mut Seats,
) -> Result<(), Refusal> {
    let Some(seat) = seats.threads.first_mut() else {
        return Err(Refusal::NoActor);
    };
    let mut portion = shared.enter(rt, seat);
    found_bank(alloc, &mut *portion)
}

/// Does `turns` turns of each seat's thread. Returns what each of them found.
fn all_work<R: Threads + Wait + Clock + Sync>(
    rt: &R,
    alloc: Global,
    shared: &SharedHeap,
    seats: Vec<ThreadSeat>,
    turns: u32,
) -> Result<Vec<Result<Found, Refusal>>, AllocError> {
    thread::scope(thread::scope_env(), rt, move |scope| {
        let threads = u32::try_from(seats.len()).unwrap_or(1);
        let mut handles = Vec::with_capacity(alloc, seats.len())?;
        for seat in seats {
            if let Ok(handle) = scope.spawn(move || work(rt, alloc, shared, seat, threads, turns)) {
                handles.push(handle)?;
            }
        }
        let mut all = Vec::with_capacity(alloc, handles.len())?;
        for handle in handles {
            all.push(handle.join(rt))?;
        }
        Ok(all)
    })
}

/// Does the same, and then closes the heap.
fn work_and_close<R: Threads + Wait + Clock + Sync>(
    rt: &R,
    alloc: Global,
    shared: &SharedHeap,
    seats: Vec<ThreadSeat>,
    turns: u32,
) -> Result<Vec<Result<Found, Refusal>>, AllocError> {
    let all = all_work(rt, alloc, shared, seats, turns);
    shared.close();
    all
}

/// Returns what all threads found together, or the first error.
fn total(all: &[Result<Found, Refusal>]) -> Result<Found, Refusal> {
    let mut sum = Found::new();
    for each in all {
        match each {
            Ok(found) => sum = sum.and(*found),
            Err(refusal) => return Err(*refusal),
        }
    }
    Ok(sum)
}

/// Runs all threads alongside the collector. Returns what they found, and how many collections have ended.
fn run_shared<R: Threads + Wait + Clock + Sync>(
    rt: &R,
    alloc: Global,
    shared: &SharedHeap,
    seats: Seats,
    turns: u32,
) -> Result<(Found, u64)> {
    let mut seats = seats;
    found_by(rt, alloc, shared, &mut seats)?;
    let Seats { threads, collector } = seats;
    let (all, collections) = thread::join(
        rt,
        move || work_and_close(rt, alloc, shared, threads, turns),
        move || collects(rt, alloc, shared, collector),
    );
    Ok((total(&all?)?, collections))
}

/// Shares a heap among N threads, and verifies it at the end.
fn run_threads<R: Threads + Wait + Clock + Sync>(
    rt: &R,
    alloc: Global,
    threads: u32,
    turns: u32,
) -> Result<(Found, u64)> {
    if threads == 0 || threads > PLACES {
        bail!("the threads aren't 1 to {PLACES}");
    }
    let (shared, seats) = opened(alloc, threads)?;
    let ran = run_shared(rt, alloc, &shared, seats, turns);
    let heap = shared.into_heap();
    let verdict = verify_held(alloc, &heap);
    drop(heap);
    let (mut found, collections) = ran?;
    found.verify(verdict)?;
    let is_complete = found.turns == u64::from(threads).wrapping_mul(u64::from(turns));
    found.expect(is_complete);
    Ok((found, collections))
}

/// Does a work, and prints what was done. Fails if anything was wrong.
fn soak<R: Threads + Wait + Clock + Print + Sync>(
    rt: &R,
    alloc: Global,
    asked: &Work,
) -> Result<()> {
    let [threads, turns, _, _, _] = asked.numbers;
    if asked.name.as_str() != "turns" {
        bail!("no such work");
    }
    let (found, collections) = run_threads(rt, alloc, threads, turns)?;
    println!(rt;
        "{threads} threads: {} turns, {} verifications",
        found.turns, found.verified
    )?;
    if asked.timed {
        println!(rt; "{collections} collections")?;
    }
    if found.wrong > 0 {
        bail!("{} differences", found.wrong);
    }
    Ok(())
}

/// Does each work.
pub fn run<R: Threads + Wait + Clock + Print + Sync>(
    rt: &R,
    alloc: Global,
    works: &[Work],
) -> Result<()> {
    for each in works {
        soak(rt, alloc, each)?;
    }
    Ok(())
}
