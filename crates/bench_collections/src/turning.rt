//! Heaps in which a shape is made, and marked or collected some times; and heaps in which objects are allocated.

use crate::asking::{LARGE, Marked, collect_by, framed_heap, mark_by, new_heap, settle};
use crate::{lists, meshes};
use anyhow::Result;
use bench_support::{Lap, Laps, since};
use collecting::Collect;
use heap::Refusal;
use managed::ManagedHeap;
use std::alloc::Global;
use std::thread::Threads;
use std::time::{Clock, Instant};

/// The shape of the objects.
#[derive(Clone, Copy)]
pub enum Shape {
    List,
    Half,
    Tree,
    Forest,
    Graph,
    Sparse,
}

/// What is done with them.
#[derive(Clone, Copy)]
pub enum Turn {
    /// A mark.
    Mark,
    /// A complete collection.
    Collect,
}

/// What is done in each heap.
#[derive(Clone, Copy)]
pub struct Task {
    pub shape: Shape,
    /// The number of objects that are kept.
    pub count: u32,
    /// The words of an object of a list.
    pub words: u32,
    pub turn: Turn,
    /// How often that is done.
    pub times: u32,
}

/// Makes the shape.
fn build(alloc: Global, heap: &mut impl Collect, task: Task) -> Result<()> {
    match task.shape {
        Shape::List => lists::list(alloc, heap, task.count),
        Shape::Half => lists::half(alloc, heap, task.count),
        Shape::Tree => meshes::tree(alloc, heap, task.count),
        Shape::Forest => meshes::forest(alloc, heap, task.count),
        Shape::Graph => meshes::graph(alloc, heap, task.count, 0),
        Shape::Sparse => meshes::graph(alloc, heap, task.count, 1),
    }
}

/// Does one mark, or one collection. Returns how many objects are live.
fn one_turn(alloc: Global, heap: &mut impl Marked, turn: Turn) -> Result<u64, Refusal> {
    match turn {
        Turn::Mark => heap.mark_once(),
        Turn::Collect => heap.collect_once(alloc),
    }
}

/// Does `times` of these. Returns the result of the last one, or 0 if there is none.
fn turns(alloc: Global, heap: &mut impl Marked, task: Task) -> Result<u64, Refusal> {
    let mut live = 0;
    for _ in 0..task.times {
        live = one_turn(alloc, heap, task.turn)?;
    }
    Ok(live)
}

/// Does all work in one heap.
fn work(alloc: Global, mut heap: impl Marked + Drop, task: Task) -> Result<u64> {
    build(alloc, &mut heap, task)?;
    settle(&mut heap)?;
    Ok(turns(alloc, &mut heap, task)?)
}

/// Does the work in each of `heaps` heaps. Returns what the last mark of the last heap found.
pub fn run(alloc: Global, task: Task, heaps: u32) -> Result<u64> {
    let mut live = 0;
    for _ in 0..heaps {
        live = work(alloc, new_heap(alloc, task.words)?, task)?;
    }
    Ok(live)
}

/// Makes a list of `count` objects in a heap.
fn kept(alloc: Global, mut heap: impl Collect + Drop, count: u32) -> Result<u64> {
    lists::list(alloc, &mut heap, count)?;
    Ok(u64::from(count))
}

/// Makes a list of `count` objects. Returns their number.
pub fn keep(alloc: Global, words: u32, count: u32) -> Result<u64> {
    kept(alloc, new_heap(alloc, words)?, count)
}

/// Allocates `count` garbage objects in a heap.
fn lost(alloc: Global, mut heap: impl Collect + Drop, count: u32) -> Result<u64> {
    lists::waste(alloc, &mut heap, count)?;
    Ok(u64::from(count))
}

/// Allocates `count` garbage objects. Returns their number.
pub fn lose(alloc: Global, words: u32, count: u32) -> Result<u64> {
    lost(alloc, new_heap(alloc, words)?, count)
}

/// Marks a heap `times` times on threads, and adds the time of each mark. Returns how many objects are live.
fn timed<R: Clock + Threads + Sync>(
    rt: &R,
    heap: &mut impl Marked,
    task: Task,
    threads: u32,
    laps: &mut Laps,
) -> Result<u64> {
    let mut live = 0;
    for _ in 0..task.times {
        let start = Instant::now(rt)?;
        live = mark_by(rt, heap.managed(), threads)?;
        laps.add("mark", since(rt, start)?)?;
    }
    Ok(live)
}

/// Makes a shape in a heap, and marks it on threads.
fn worked<R: Clock + Threads + Sync>(
    rt: &R,
    alloc: Global,
    mut heap: impl Marked + Drop,
    task: Task,
    threads: u32,
) -> Result<Vec<Lap>> {
    let mut laps = Laps::new(alloc);
    build(alloc, &mut heap, task)?;
    settle(&mut heap)?;
    timed(rt, &mut heap, task, threads, &mut laps)?;
    Ok(laps.all()?)
}

/// Makes a shape, and marks it on threads. Returns the times.
pub fn waves<R: Clock + Threads + Sync>(
    rt: &R,
    alloc: Global,
    task: Task,
    threads: u32,
) -> Result<Vec<Lap>> {
    worked(
        rt,
        alloc,
        framed_heap(alloc, task.words, LARGE)?,
        task,
        threads,
    )
}

/// Makes a shape in a heap, and collects it once on threads. Adds the time.
fn first<R: Clock + Threads + Sync>(
    rt: &R,
    alloc: Global,
    mut heap: impl Marked + Drop,
    task: Task,
    threads: u32,
    laps: &mut Laps,
) -> Result<()> {
    build(alloc, &mut heap, task)?;
    settle(&mut heap)?;
    let start = Instant::now(rt)?;
    collect_by(rt, alloc, heap.managed(), threads)?;
    Ok(laps.add("collect", since(rt, start)?)?)
}

/// Makes a shape in as many heaps as there are times, and collects each once on threads. Returns the times.
pub fn firsts<R: Clock + Threads + Sync>(
    rt: &R,
    alloc: Global,
    task: Task,
    threads: u32,
) -> Result<Vec<Lap>> {
    let mut laps = Laps::new(alloc);
    for _ in 0..task.times {
        let heap = framed_heap(alloc, task.words, LARGE)?;
        first(rt, alloc, heap, task, threads, &mut laps)?;
    }
    Ok(laps.all()?)
}
