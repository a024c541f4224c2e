//! The mixes by steps, on a heap or on a recorded heap.

use crate::asking::{Steps, THREAD};
use crate::lists::build;
use crate::mixes::{LAST, LIST, Mix, OBJECTS, OTHER, config};
use anyhow::Result;
use cycle::{Answer, Book, Reply, Step};
use heap::{Heap, Refusal};
use std::alloc::Global;

/// Does a step of the thread.
#[inline(always)]
fn step(heap: &mut impl Steps, step: Step) -> Reply {
    heap.step(THREAD, step)
}

/// Writes and reads a datum `count` times. Returns the sum of the read values.
fn data(heap: &mut impl Steps, count: u32) -> Result<u64, Refusal> {
    let (object, index) = (LAST, 0);
    let mut sum = 0u64;
    for turn in 0..count {
        let value = u64::from(turn);
        let set = Step::SetDatum {
            object,
            index,
            value,
        };
        step(heap, set)?;
        if let Answer::Datum(value) = step(heap, Step::Datum { object, index })? {
            sum = sum.wrapping_add(value);
        }
    }
    Ok(sum)
}

/// Does the rest of a load that has begun.
fn end_load(heap: &mut impl Steps) -> Result<(), Refusal> {
    if step(heap, Step::Trap)? != Answer::Clear {
        step(heap, Step::Heal)?;
    }
    step(heap, Step::Finish)?;
    Ok(())
}

/// Returns whether the walk is at the list's end; then it goes back to its head.
fn has_ended(heap: &mut impl Steps) -> Result<bool, Refusal> {
    if step(heap, Step::IsNull(LAST))? != Answer::Truth(true) {
        return Ok(false);
    }
    let (target, source) = (LAST, OTHER);
    step(heap, Step::CopyReg { target, source })?;
    Ok(true)
}

/// Loads `count` references of a list. Returns how often it came to the end.
fn walk(heap: &mut impl Steps, count: u32) -> Result<u64, Refusal> {
    let (target, object, field) = (LAST, LAST, 0);
    let mut ends = 0u64;
    for _ in 0..count {
        let load = Step::Load {
            target,
            object,
            field,
        };
        step(heap, load)?;
        end_load(heap)?;
        ends = ends.wrapping_add(u64::from(has_ended(heap)?));
    }
    Ok(ends)
}

/// Copies, compares, tests and clears a register `count` times. Returns how often it was the same and not null.
fn registers(heap: &mut impl Steps, count: u32) -> Result<u64, Refusal> {
    let (source, target) = (LAST, OTHER);
    let (left, right) = (source, target);
    let mut found = 0u64;
    for _ in 0..count {
        step(heap, Step::CopyReg { target, source })?;
        let same = step(heap, Step::Same { left, right })?;
        let null = step(heap, Step::IsNull(target))?;
        found = found.wrapping_add(u64::from(same != null));
        step(heap, Step::ClearReg(target))?;
    }
    Ok(found)
}

/// Stores and loads a global `count` times. Returns how often it did.
fn globals(heap: &mut impl Steps, count: u32) -> Result<u64, Refusal> {
    let (source, target, global) = (LAST, OTHER, 0);
    let mut loaded = 0u64;
    for _ in 0..count {
        step(heap, Step::StoreGlobal { global, source })?;
        step(heap, Step::LoadGlobal { target, global })?;
        end_load(heap)?;
        loaded = loaded.wrapping_add(1);
    }
    Ok(loaded)
}

/// Does the turns of a mix, on a heap that is prepared for it.
fn turns(heap: &mut impl Steps, mix: Mix, count: u32) -> Result<u64, Refusal> {
    match mix {
        Mix::Data => data(heap, count),
        Mix::Build => {
            build(heap, count, OBJECTS)?;
            Ok(heap.heap().births())
        }
        Mix::Walk => walk(heap, count),
        Mix::Registers => registers(heap, count),
        Mix::Globals => globals(heap, count),
    }
}

/// Makes a list, whose head is in both registers, and does `count` turns of a mix. Returns their result.
fn mixed(mut heap: impl Steps + Drop, mix: Mix, count: u32) -> Result<u64, Refusal> {
    build(&mut heap, LIST, OBJECTS)?;
    turns(&mut heap, mix, count)
}

/// Does `count` turns of a mix by `Heap::step`, on a heap of its own. Returns their result.
pub fn run(alloc: Global, mix: Mix, count: u32) -> Result<u64> {
    let heap = Heap::new(alloc, config(alloc, mix)?)?;
    Ok(mixed(heap, mix, count)?)
}

/// Does the same by `Book::act`, on a recorded heap of its own.
pub fn run_book(alloc: Global, mix: Mix, count: u32) -> Result<u64> {
    let book = Book::new(alloc, config(alloc, mix)?)?;
    Ok(mixed(book, mix, count)?)
}
