//! Drives heaps by random steps, and verifies them: half of the steps are of threads, with random operands, and half
//! of workers, in endless cycles. It can also allocate garbage objects.
//!
//! | Words | Effect |
//! |---|---|
//! | `HEAP SEED STEPS` | STEPS steps of a book, whose heap is verified after each accepted one |
//! | `HEAP SEED STEPS EVERY` | the same without a history, verified after every EVERY accepted steps |
//! | `HEAP SEED STEPS EVERY 1` | also prints how often each kind of step was accepted |
//! | `waste COUNT` | allocates COUNT garbage objects, a quarter in each of the smallest heaps |
//!
//! `setups` has the heaps. A work ends with an error if the verifier finds a fault, if a kind of step was
//! never accepted, if no trap moved a word, or if no heal found its place changed. The word `then` separates
//! two works.
#![tactic(auto)]

mod counts;
mod driven;
mod driving;
mod moves;
mod numbers;
mod setups;
mod telling;
mod tending;
mod wasting;

use crate::counts::Counts;
use crate::driven::Driven;
use crate::driving::{Drive, goes};
use crate::setups::setup;
use crate::telling::{misses, tell};
use crate::wasting::waste_in_each;
use anyhow::{Result, bail};
use bench_support::Work;
use cycle::Book;
use heap::{Config, Heap};
use std::alloc::Global;

/// Drives a heap or a recorded heap.
fn drives(alloc: Global, mut driven: impl Driven + Drop, how: Drive) -> Result<Counts> {
    goes(alloc, &mut driven, how)
}

/// Drives a new recorded heap of a configuration.
fn by_book(alloc: Global, config: Config, how: Drive) -> Result<Counts> {
    drives(alloc, Book::new(alloc, config)?, how)
}

/// Drives a new heap of a configuration.
fn by_heap(alloc: Global, config: Config, how: Drive) -> Result<Counts> {
    drives(alloc, Heap::new(alloc, config)?, how)
}

/// Allocates `objects` garbage objects, and prints the result.
fn waste<R: Print>(rt: &R, alloc: Global, objects: u32) -> Result<()> {
    let count = objects / 4;
    let number = waste_in_each(alloc, u64::from(count))?;
    println!(rt; "{count} in each of 4 heaps, {number} is kept")?;
    Ok(())
}

/// Drives a heap, and prints the counts.
fn drive<R: Print>(rt: &R, alloc: Global, work: &Work) -> Result<()> {
    let [seed, steps, every, all, _] = work.numbers;
    let Some((config, habits)) = setup(alloc, work.name.as_str())? else {
        bail!("no such heap");
    };
    let how = Drive {
        habits,
        seed: u64::from(seed),
        steps,
        every: every.max(1),
    };
    let counts = if every == 0 {
        by_book(alloc, config, how)?
    } else {
        by_heap(alloc, config, how)?
    };
    if all > 0 {
        tell(rt, &counts)?;
    }
    misses(&counts, habits)?;
    println!(rt; "{} {steps}", work.name)?;
    Ok(())
}

/// Does one work.
fn work<R: Print>(rt: &R, alloc: Global, asked: &Work) -> Result<()> {
    if asked.name.as_str() == "waste" {
        let [objects, _, _, _, _] = asked.numbers;
        return waste(rt, alloc, objects);
    }
    drive(rt, alloc, asked)
}

/// Does each work.
pub fn run<R: Print>(rt: &R, alloc: Global, works: &[Work]) -> Result<()> {
    for each in works {
        work(rt, alloc, each)?;
    }
    Ok(())
}
