//! Marks of a list or of trees, which one worker drains: by steps, or by a call that scans complete objects.

use crate::asking::{Calls, Steps, THREAD, WORKER};
use crate::lists::build;
use crate::mixes::{LAST, OTHER, WORDS};
use crate::trees::trees;
use anyhow::Result;
use cycle::{Step, next_drain};
use drains::{drain, is_ready};
use heap::{Config, Heap, Refusal};
use layout::{Layout, Layouts};
use std::alloc::Global;

/// The number of the worker.
const WORKER_NUMBER: u32 = 0;

/// How a mark is drained.
#[derive(Clone, Copy)]
pub enum DrainBy {
    /// By steps, each of one reference.
    Steps,
    /// By steps up to the last global, and then by one call.
    Call,
}

/// The objects that are marked.
#[derive(Clone, Copy)]
pub enum Shape {
    /// A list of this many objects.
    List(u32),
    /// This many trees, of 16,383 objects each.
    Trees(u32),
}

/// Makes a list of `count` objects of two words, in global 0.
fn list(heap: &mut impl Steps, count: u32) -> Result<(), Refusal> {
    build(heap, count, WORDS / 2)?;
    let (global, source) = (0, LAST);
    heap.step(THREAD, Step::StoreGlobal { global, source })?;
    heap.step(THREAD, Step::ClearReg(LAST))?;
    heap.step(THREAD, Step::ClearReg(OTHER))?;
    Ok(())
}

/// Makes the objects that are marked.
fn make(heap: &mut impl Steps, shape: Shape) -> Result<(), Refusal> {
    match shape {
        Shape::List(count) => list(heap, count),
        Shape::Trees(count) => trees(heap, count),
    }
}

/// Begins a mark, and the thread crosses.
fn start(heap: &mut impl Steps) -> Result<(), Refusal> {
    heap.step(WORKER, Step::StartMark)?;
    heap.step(THREAD, Step::Cross)?;
    Ok(())
}

/// Returns the worker's next step.
fn next(heap: &Heap) -> Option<Step> {
    next_drain(heap, WORKER_NUMBER)
}

/// Drains by steps. Returns how many steps it took.
fn drained(heap: &mut impl Steps) -> Result<u64, Refusal> {
    for turn in 0..u64::MAX {
        let Some(work) = next(heap.heap()) else {
            return Ok(turn);
        };
        heap.step(WORKER, work)?;
    }
    Ok(0)
}

/// Marks the globals.
fn mark_globals(heap: &mut impl Steps) -> Result<(), Refusal> {
    for _ in 0..64 {
        let Some(Step::ScanGlobal(global)) = next(heap.heap()) else {
            break;
        };
        heap.step(WORKER, Step::ScanGlobal(global))?;
    }
    Ok(())
}

/// Does the rest of a drain, by one call; nothing if the worker may not. Returns how many objects were scanned.
fn drain_rest(heap: &mut Heap) -> u64 {
    if !is_ready(heap, WORKER_NUMBER) {
        return 0;
    }
    drain(heap, WORKER_NUMBER, u64::MAX)
}

/// Drains by scanning complete objects. Returns how many there were.
fn drained_whole(heap: &mut impl Calls) -> Result<u64, Refusal> {
    mark_globals(heap)?;
    Ok(drain_rest(heap.heap_mut()))
}

/// Does a mark, from its start to its end. Returns the result of its drain.
fn mark(heap: &mut impl Calls, by: DrainBy) -> Result<u64, Refusal> {
    start(heap)?;
    let count = match by {
        DrainBy::Steps => drained(heap)?,
        DrainBy::Call => drained_whole(heap)?,
    };
    heap.step(WORKER, Step::EndMark)?;
    Ok(count)
}

/// Does `turns` marks. Returns the result of the last drain.
fn mark_all(heap: &mut impl Calls, by: DrainBy, turns: u32) -> Result<u64, Refusal> {
    let mut count = 0;
    for _ in 0..turns {
        count = mark(heap, by)?;
    }
    Ok(count)
}

/// Makes the objects, and marks them `turns` times; if that is 0, begins a mark. Returns the result of the last
/// drain.
fn marked(
    mut heap: impl Calls + Drop,
    by: DrainBy,
    shape: Shape,
    turns: u32,
) -> Result<u64, Refusal> {
    make(&mut heap, shape)?;
    if turns == 0 {
        start(&mut heap)?;
        return Ok(0);
    }
    mark_all(&mut heap, by, turns)
}

/// Returns the heap's configuration: a layout of one reference for lists, and one of two for trees.
fn config(alloc: Global) -> Result<Config> {
    let layouts = Layouts::new(vec![in alloc;
        Layout { refs: 1, nums: 0 },
        Layout { refs: 2, nums: 0 },
    ]?);
    Ok(Config::new(WORDS, 512, layouts))
}

/// Marks a list or trees `turns` times; if that is 0, begins a mark. Returns how many steps the last drain took, or
/// how many complete objects it scanned.
pub fn marks(alloc: Global, by: DrainBy, shape: Shape, turns: u32) -> Result<u64> {
    let heap = Heap::new(alloc, config(alloc)?)?;
    Ok(marked(heap, by, shape, turns)?)
}
