//! The benches of a command line, and the works of each. The word `and` separates two benches, `then` two works; the
//! word `timed` before a work requests nanoseconds too.

use crate::laps::Lap;
use anyhow::{Result, bail};
use std::alloc::Global;
use std::env;

/// A work.
#[derive(Drop)]
pub struct Work {
    pub name: String,
    /// The numbers after the name; missing ones are 0.
    pub numbers: [u32; 5],
    /// Whether nanoseconds are printed too.
    pub timed: bool,
}

/// Returns the word at a place as a number; 0 if it is missing.
fn number(words: &[String], place: usize) -> Result<u32> {
    match words.get(place) {
        None => Ok(0),
        Some(word) => Ok(word.parse::<u32>()?),
    }
}

/// Returns the numbers after the name of a work.
fn numbers(words: &[String]) -> Result<[u32; 5]> {
    Ok([
        number(words, 1)?,
        number(words, 2)?,
        number(words, 3)?,
        number(words, 4)?,
        number(words, 5)?,
    ])
}

/// Returns the work of these words.
fn work_of(alloc: Global, words: &[String], timed: bool) -> Result<Work> {
    let Some(name) = words.first() else {
        bail!("no work is named");
    };
    Ok(Work {
        name: String::from_str(alloc, name.as_str())?,
        numbers: numbers(words)?,
        timed,
    })
}

/// Returns the works of these words.
fn works_of(alloc: Global, words: &[String]) -> Result<Vec<Work>> {
    let mut works = Vec::new(alloc);
    for words in words.split(|word| word.as_str() == "then") {
        let timed = words.first().is_some_and(|word| word.as_str() == "timed");
        let rest = if timed {
            words.get(1..).unwrap_or(words)
        } else {
            words
        };
        works.push(work_of(alloc, rest, timed)?)?;
    }
    Ok(works)
}

/// Returns the words of the command line, after the program's name.
fn command_line(rt: &HostRuntime) -> Result<Vec<String>> {
    let mut words = Vec::new(rt.alloc());
    for word in env::args(rt)?.skip(1) {
        words.push(word)?;
    }
    Ok(words)
}

/// Returns the works of the command line, of a program with one bench.
pub fn works(rt: &HostRuntime) -> Result<Vec<Work>> {
    let words = command_line(rt)?;
    works_of(rt.alloc(), &words)
}

/// A bench, and the works that it does.
#[derive(Drop)]
pub struct Bench {
    pub name: String,
    pub works: Vec<Work>,
}

/// Returns the bench of these words, the first of which is its name.
fn bench_of(alloc: Global, words: &[String]) -> Result<Bench> {
    let Some((name, rest)) = words.split_first() else {
        bail!("no bench is named");
    };
    Ok(Bench {
        name: String::from_str(alloc, name.as_str())?,
        works: works_of(alloc, rest)?,
    })
}

/// Returns the benches of the command line.
pub fn benches(rt: &HostRuntime) -> Result<Vec<Bench>> {
    let words = command_line(rt)?;
    let mut benches = Vec::new(rt.alloc());
    for words in words.split(|word| word.as_str() == "and") {
        benches.push(bench_of(rt.alloc(), words)?)?;
    }
    Ok(benches)
}

/// Prints what a work has done, with nanoseconds or without.
pub fn tell<R: Print>(rt: &R, laps: &[Lap], timed: bool) -> Result<()> {
    for lap in laps {
        if timed {
            println!(rt; "{} {} {} {}", lap.name, lap.count, lap.median, lap.longest)?;
        } else {
            println!(rt; "{} {}", lap.name, lap.count)?;
        }
    }
    Ok(())
}
