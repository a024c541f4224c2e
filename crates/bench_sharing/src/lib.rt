//! The costs of threads that share a recorded heap, how long a step keeps its lock, and cycles of several workers, for
//! `bench/crowds.py`. Each work prints what it has done; after the word `timed` it prints nanoseconds too.
//!
//! | Words | Effect |
//! |---|---|
//! | `act STEPS` | steps, each of which copies a register, by `Book::act`, without seats |
//! | `any STEPS` | the same, with the kind of step unknown at the call |
//! | `seat STEPS` | the same by `Seat::act`, which keeps the seat's list too |
//! | `steps THREADS STEPS` | the same by `Shared::step`, STEPS by each of THREADS threads |
//! | `counter THREADS STEPS` | each of THREADS threads adds STEPS times to a number under a lock |
//! | `waits MILLISECONDS` | a thread waits that long for a step that fails with `Stall` |
//! | `holds WORDS FRAMES SIZE PAGES LINKED` | steps of each kind, each alone, on a heap (`holding`) |
//! | `cycle WORKERS LISTS PAIRS LOADS` | a cycle alongside two threads that load LOADS times each (`lists`) |
//!
//! The word `then` separates two works.
#![tactic(auto)]

mod acting;
mod counting;
mod crowding;
mod gate;
mod holding;
mod lists;
mod looking;
mod timing;
mod waiting;

use anyhow::{Result, bail};
use bench_support::{Lap, Work, tell};
use std::alloc::Global;
use std::sync::Wait;
use std::thread::Threads;
use std::time::Clock;

/// Does a work by its name.
fn work<R: Threads + Wait + Clock + Sync>(
    rt: &R,
    alloc: Global,
    name: &str,
    numbers: [u32; 5],
) -> Result<Vec<Lap>> {
    let [first, second, third, fourth, _] = numbers;
    match name {
        "act" => acting::by_book(rt, alloc, first),
        "any" => acting::by_any_kind(rt, alloc, first),
        "seat" => acting::by_seat(rt, alloc, first),
        "steps" => crowding::steps(rt, alloc, first, second),
        "counter" => counting::counts(rt, alloc, first, second),
        "waits" => waiting::waits(rt, alloc, first),
        "holds" => holding::holds(rt, alloc, numbers),
        "cycle" => lists::cycle(rt, alloc, [first, second, third, fourth]),
        _ => bail!("no such work"),
    }
}

/// Does each work, and prints what it has done.
pub fn run<R: Threads + Wait + Clock + Print + Sync>(
    rt: &R,
    alloc: Global,
    works: &[Work],
) -> Result<()> {
    for asked in works {
        let laps = work(rt, alloc, asked.name.as_str(), asked.numbers)?;
        tell(rt, &laps, asked.timed)?;
    }
    Ok(())
}
