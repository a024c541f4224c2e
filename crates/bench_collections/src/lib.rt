//! Collections of the heap as a program holds it, which are timed from outside or by their parts.
//!
//! `bench/boehm.py` times marks and collections of shapes of objects, and the allocation of objects one
//! after another, and `bench/boehm.c` does the same on another collector. Such a work prints its result, a number.
//!
//! | Words | Effect |
//! |---|---|
//! | `mark-SHAPE COUNT WORDS HEAPS TIMES` | makes a shape in each of HEAPS heaps, and marks it TIMES times |
//! | `collect-SHAPE COUNT WORDS HEAPS TIMES` | the same with TIMES complete collections |
//! | `waves-SHAPE COUNT WORDS THREADS TIMES` | makes a shape, and marks it TIMES times on THREADS threads, or with 0 on one as `mark-SHAPE` does; prints how often, and after `timed` nanoseconds |
//! | `firsts-SHAPE COUNT WORDS THREADS TIMES` | makes a shape in each of TIMES heaps, and collects it on THREADS threads; prints the same |
//! | `keep WORDS COUNT` | allocates COUNT objects, each of which becomes the head of a list |
//! | `drop WORDS COUNT` | allocates COUNT garbage objects, and collects meanwhile |
//!
//! | Shape | Is |
//! |---|---|
//! | `list` | a list of COUNT objects of WORDS words: a header, a reference, and data |
//! | `half` | the same, with a garbage object after each |
//! | `tree` | COUNT objects of a header and two references, as one tree whose levels are full but for the last |
//! | `forest` | COUNT objects of a header and two references, as trees of 1,023 |
//! | `sparse` | the graph, with a garbage object after each |
//! | `graph` | COUNT objects of a header and two references: one to the next object of a cycle without order through all of them, one to any object; COUNT is a power of two |
//!
//! Objects have at most 257 words. A tree, a forest and a graph have at most 262,144 objects; with `waves` and `firsts`,
//! whose heaps are larger, 1,048,576. Two runs that differ in
//! the last number differ in one loop, so the difference of their times is that loop's.
//!
//! `bench/pauses.py` measures the parts of a collection in parts. Such a work prints how often each kind of
//! part was done; after the word `timed` it prints nanoseconds too.
//!
//! | Words | Effect |
//! |---|---|
//! | `parts WORDS FRAMES SIZE PAGES BUDGET` | fills PAGES pages with objects of SIZE words, every second one live, and collects three times in parts with this budget, then once at once |
//! | `wide WORDS FRAMES SIZE PAGES BUDGET` | the same, with objects of references only |
//! | `few WORDS FRAMES SIZE PAGES BUDGET` | as `parts`, but each collection in parts empties at most 128 pages with live objects, and there are as many collections as it takes |
//!
//! | Kind of part | Does |
//! |---|---|
//! | `begin` | begins a mark, and has all threads cross |
//! | `scan` | scans at most `BUDGET` objects, and 64 times as many references |
//! | `end` | scans what is left, and ends the mark |
//! | `measure` | measures pages |
//! | `prepare` | allocates and clears pages that objects move to |
//! | `protect` | chooses some of the measured pages, protects them, and has all threads cross |
//! | `empty` | empties a page |
//! | `last` | finds that nothing is left |
//! | `whole` | is a collection by one call |
//!
//! A missing number is 0. The word `then` separates two works.
#![tactic(auto)]

mod asking;
mod filling;
mod lists;
mod meshes;
mod parting;
mod turning;

use anyhow::{Result, bail};
use bench_support::{Work, tell};
use filling::{narrow, wide};
use layout::Layout;
use std::alloc::Global;
use std::thread::Threads;
use std::time::Clock;
use turning::{Shape, Task, Turn};

/// How many pages with live objects a collection of the work `few` empties at most.
const FEW: u32 = 128;

/// The shape of a name.
fn shape_of(name: &str) -> Result<Shape> {
    match name {
        "list" => Ok(Shape::List),
        "half" => Ok(Shape::Half),
        "tree" => Ok(Shape::Tree),
        "forest" => Ok(Shape::Forest),
        "sparse" => Ok(Shape::Sparse),
        "graph" => Ok(Shape::Graph),
        _ => bail!("no such shape"),
    }
}

/// What a name says is done with a shape.
fn turn_of(name: &str) -> Result<Turn> {
    match name {
        "mark" => Ok(Turn::Mark),
        "collect" => Ok(Turn::Collect),
        _ => bail!("no such work"),
    }
}

/// A work whose name has two parts, as `mark-list`.
fn shaped(alloc: Global, name: &str, numbers: [u32; 5]) -> Result<u64> {
    let Some((turn, shape)) = name.split_once('-') else {
        bail!("no such work");
    };
    let [count, words, heaps, times, _] = numbers;
    let task = Task {
        shape: shape_of(shape)?,
        count,
        words,
        turn: turn_of(turn)?,
        times,
    };
    turning::run(alloc, task, heaps)
}

/// Does a work by its name, and returns its number.
fn given(alloc: Global, name: &str, numbers: [u32; 5]) -> Result<u64> {
    let [words, count, _, _, _] = numbers;
    match name {
        "keep" => turning::keep(alloc, words, count),
        "drop" => turning::lose(alloc, words, count),
        _ => shaped(alloc, name, numbers),
    }
}

/// Does a work, and prints the number that it gives.
fn give<R: Print>(rt: &R, alloc: Global, asked: &Work) -> Result<()> {
    let number = given(alloc, asked.name.as_str(), asked.numbers)?;
    println!(rt; "{number}")?;
    Ok(())
}

/// Does the parts of collections of objects of this layout, and prints what each took.
fn part<R: Clock + Print>(
    rt: &R,
    alloc: Global,
    asked: &Work,
    layout: Layout,
    most: u32,
) -> Result<()> {
    let laps = parting::timed(rt, alloc, layout, most, asked.numbers)?;
    tell(rt, &laps, asked.timed)
}

/// Does marks or first collections of a shape on threads, and prints what they took.
fn threaded<R: Clock + Print + Threads + Sync>(
    rt: &R,
    alloc: Global,
    asked: &Work,
    turn: Turn,
    shape: &str,
) -> Result<()> {
    let [count, words, threads, times, _] = asked.numbers;
    let task = Task {
        shape: shape_of(shape)?,
        count,
        words,
        turn,
        times,
    };
    let laps = match turn {
        Turn::Mark => turning::waves(rt, alloc, task, threads)?,
        Turn::Collect => turning::firsts(rt, alloc, task, threads)?,
    };
    tell(rt, &laps, asked.timed)
}

/// Does a work by its name, and prints what it has come to.
fn work<R: Clock + Print + Threads + Sync>(rt: &R, alloc: Global, asked: &Work) -> Result<()> {
    let [_, _, size, _, _] = asked.numbers;
    match asked.name.as_str().split_once('-') {
        Some(("waves", shape)) => return threaded(rt, alloc, asked, Turn::Mark, shape),
        Some(("firsts", shape)) => return threaded(rt, alloc, asked, Turn::Collect, shape),
        _ => {}
    }
    match asked.name.as_str() {
        "parts" => part(rt, alloc, asked, narrow(size)?, u32::MAX),
        "few" => part(rt, alloc, asked, narrow(size)?, FEW),
        "wide" => part(rt, alloc, asked, wide(size)?, u32::MAX),
        _ => give(rt, alloc, asked),
    }
}

/// Does each work.
pub fn run<R: Clock + Print + Threads + Sync>(rt: &R, alloc: Global, works: &[Work]) -> Result<()> {
    for asked in works {
        work(rt, alloc, asked)?;
    }
    Ok(())
}
