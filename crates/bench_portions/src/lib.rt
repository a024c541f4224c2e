//! Benches of threads that share a heap or have one each, for `bench/crowds.py` and `bench/zgc.py`. Each work prints
//! how many steps it has done, cells it has made, or looks it has done; after the word `timed` it prints nanoseconds
//! too, and the waits for a turn and the holds.
//!
//! | Words | Effect |
//! |---|---|
//! | `portions THREADS STEPS` | loads, reads and writes, STEPS of each thread, in portions of a `SharedHeap` |
//! | `locked THREADS STEPS` | the same on plain heaps under one lock |
//! | `turns THREADS STEPS RESTS` | the same in portions of RESTS rests, alongside a collector; lists grow as well |
//! | `locked-turns THREADS STEPS` | the same on plain heaps under one lock |
//! | `apart THREADS STEPS` | the same, each thread on a heap of its own, without waits |
//! | `plain THREADS STEPS` | the same on plain heaps |
//! | `lists THREADS LISTS RESTS WORDS BUDGET` | lists of 1,000 cells are made and read by the next thread, LISTS each |
//! | `views THREADS LOOKS` | a list is read by views of one heap at the same time, LOOKS of each thread |
//!
//! A heap has 2 MiB. That of `lists` has 32 MiB, in pages of WORDS, and portions of RESTS rests; BUDGET is the
//! collector's. The word `then` separates two works.
#![tactic(auto)]

mod apart;
mod lists;
mod locked;
mod own;
mod plain;
mod steps;
mod views;

use anyhow::{Result, bail};
use bench_support::{Lap, Work, tell};
use std::alloc::Global;
use std::sync::Wait;
use std::thread::Threads;
use std::time::Clock;

/// Does a work by its name.
fn work<R: Threads + Wait + Clock + Sync>(
    rt: &R,
    alloc: Global,
    name: &str,
    numbers: [u32; 5],
) -> Result<Vec<Lap>> {
    let [threads, count, rests, _, _] = numbers;
    match name {
        "portions" => steps::portions(rt, alloc, threads, count),
        "locked" => locked::locked(rt, alloc, threads, count, false),
        "turns" => steps::turns(rt, alloc, threads, count, rests),
        "locked-turns" => locked::locked(rt, alloc, threads, count, true),
        "apart" => apart::apart(rt, alloc, threads, count),
        "plain" => apart::plain(rt, alloc, threads, count),
        "lists" => lists::lists(rt, alloc, numbers),
        "views" => views::views(rt, alloc, threads, count),
        _ => bail!("no such work"),
    }
}

/// Does each work, and prints what it has done: without nanoseconds that is what is the same in each run.
pub fn run<R: Threads + Wait + Clock + Print + Sync>(
    rt: &R,
    alloc: Global,
    works: &[Work],
) -> Result<()> {
    for asked in works {
        let laps = work(rt, alloc, asked.name.as_str(), asked.numbers)?;
        let shown = if asked.timed { laps.len() } else { 1 };
        tell(rt, laps.get(..shown).unwrap_or(&laps), asked.timed)?;
    }
    Ok(())
}
