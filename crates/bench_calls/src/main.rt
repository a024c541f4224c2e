//! Loops over the library's calls, which `bench/calls.py` times from outside. Each prints a number that
//! its work gives.
//!
//! | Words | Effect |
//! |---|---|
//! | `call-MIX TURNS` | turns of a mix of steps (`mixes`) by the calls of `Mutate`, on a heap as a program holds it |
//! | `step-MIX TURNS` | the same by `Heap::step` |
//! | `act-MIX TURNS` | the same by `Book::act` |
//! | `copies WORDS PAGES COPIED` | protects PAGES pages full of objects of WORDS words, and copies the first COPIED, an object a step |
//! | `pages WORDS PAGES COPIED` | the same, a page a step |
//! | `slices WORDS PAGES COPIED` | copies the words of COPIED pages, WORDS at a time, without a heap |
//! | `verified WORDS FRAMES TIMES` | verifies a heap of FRAMES frames of WORDS words TIMES times |
//! | `scan-list OBJECTS MARKS`, `scan-trees TREES MARKS` | marks a list or trees, drained by steps |
//! | `drain-list OBJECTS MARKS`, `drain-trees TREES MARKS` | the same by a call |
//!
//! A missing number is 0. The word `then` separates two works. Two runs that differ in the last number
//! differ in one loop, so the difference of their times is that loop's.
#![tactic(auto)]

mod asking;
mod calling;
mod draining;
mod lists;
mod mixes;
mod moving;
mod stepping;
mod trees;
mod verified;

use anyhow::{Result, bail};
use bench_support::{Work, works};
use draining::{DrainBy, Shape};
use moving::CopyBy;
use std::alloc::Global;

/// Marks of what is named, `list` or `trees`.
fn marks(alloc: Global, by: DrainBy, name: &str, numbers: [u32; 3]) -> Result<u64> {
    let [count, turns, _] = numbers;
    let shape = match name {
        "list" => Shape::List(count),
        "trees" => Shape::Trees(count),
        _ => bail!("nothing of this name is marked"),
    };
    draining::marks(alloc, by, shape, turns)
}

/// Turns of a mix by a form of calls.
fn turns(alloc: Global, form: &str, name: &str, numbers: [u32; 3]) -> Result<u64> {
    let Some(mix) = mixes::named(name) else {
        bail!("no such mix");
    };
    let [count, _, _] = numbers;
    match form {
        "call" => calling::run(alloc, mix, count),
        "step" => stepping::run(alloc, mix, count),
        "act" => stepping::run_book(alloc, mix, count),
        _ => bail!("no such form"),
    }
}

/// A work whose name has two parts, as `step-data`.
fn parted(alloc: Global, name: &str, numbers: [u32; 3]) -> Result<u64> {
    let Some((form, rest)) = name.split_once('-') else {
        bail!("no such work");
    };
    match form {
        "scan" => marks(alloc, DrainBy::Steps, rest, numbers),
        "drain" => marks(alloc, DrainBy::Call, rest, numbers),
        _ => turns(alloc, form, rest, numbers),
    }
}

/// Does a work by its name, and returns its number.
fn work(alloc: Global, name: &str, numbers: [u32; 3]) -> Result<u64> {
    let [first, second, third] = numbers;
    match name {
        "copies" => moving::copies(alloc, CopyBy::Object, first, second, third),
        "pages" => moving::copies(alloc, CopyBy::Page, first, second, third),
        "slices" => moving::slices(alloc, first, second, third),
        "verified" => verified::verifications(alloc, first, second, third),
        _ => parted(alloc, name, numbers),
    }
}

/// Does each work, and prints the number that it gives.
fn run(rt: &HostRuntime, works: &[Work]) -> Result<()> {
    for asked in works {
        let [first, second, third, _, _] = asked.numbers;
        let given = work(rt.alloc(), asked.name.as_str(), [first, second, third])?;
        println!(rt; "{given}")?;
    }
    Ok(())
}

fn main(rt: HostRuntime) -> Result<()> {
    let works = works(&rt)?;
    run(&rt, &works)
}
