//! The mixes by the calls of `Mutate`.

use crate::mixes::{LAST, LIST, Mix, OBJECTS, OTHER, WORDS, config};
use anyhow::Result;
use cycle::Trap;
use heap::Refusal;
use managed::{ManagedHeap, Mutate};
use std::alloc::Global;

const THREAD: u32 = 0;

/// A heap with the calls of `Mutate`, and the number of its births.
trait Counted: Mutate {
    fn births(&self) -> u64;
}

impl Counted for ManagedHeap {
    fn births(&self) -> u64 {
        self.heap().births()
    }
}

/// Writes and reads a datum `count` times. Returns the sum of the read values.
fn data(heap: &mut impl Mutate, count: u32) -> Result<u64, Refusal> {
    let mut sum = 0u64;
    for turn in 0..count {
        heap.set_datum(THREAD, LAST, 0, u64::from(turn))?;
        sum = sum.wrapping_add(heap.datum(THREAD, LAST, 0)?);
    }
    Ok(sum)
}

/// Puts `count` objects in front of a list, in the present buffer.
fn link(heap: &mut impl Mutate, count: u32) -> Result<(), Refusal> {
    for _ in 0..count {
        heap.new_object(THREAD, OTHER, 0)?;
        heap.store(THREAD, OTHER, 0, LAST)?;
        heap.copy_register(THREAD, LAST, OTHER)?;
    }
    Ok(())
}

/// Puts `count` objects in front of a list, in buffers of a page each.
fn build(heap: &mut impl Mutate, count: u32) -> Result<(), Refusal> {
    let mut left = count;
    for _ in 0..count.div_ceil(OBJECTS) {
        heap.take(THREAD, WORDS)?;
        link(heap, left.min(OBJECTS))?;
        heap.give_back(THREAD)?;
        left = left.saturating_sub(OBJECTS);
    }
    Ok(())
}

/// Does the rest of a load that has begun.
fn end_load(heap: &mut impl Mutate) -> Result<(), Refusal> {
    if heap.trap(THREAD)? != Trap::Clear {
        heap.heal(THREAD)?;
    }
    heap.finish(THREAD)
}

/// Returns whether the walk is at the list's end; then it goes back to its head.
fn has_ended(heap: &mut impl Mutate) -> Result<bool, Refusal> {
    if !heap.is_null(THREAD, LAST)? {
        return Ok(false);
    }
    heap.copy_register(THREAD, LAST, OTHER)?;
    Ok(true)
}

/// Loads `count` references of a list. Returns how often it came to the end.
fn walk(heap: &mut impl Mutate, count: u32) -> Result<u64, Refusal> {
    let mut ends = 0u64;
    for _ in 0..count {
        heap.load(THREAD, LAST, LAST, 0)?;
        end_load(heap)?;
        ends = ends.wrapping_add(u64::from(has_ended(heap)?));
    }
    Ok(ends)
}

/// Copies, compares, tests and clears a register `count` times. Returns how often it was the same and not null.
fn registers(heap: &mut impl Mutate, count: u32) -> Result<u64, Refusal> {
    let mut found = 0u64;
    for _ in 0..count {
        heap.copy_register(THREAD, OTHER, LAST)?;
        let same = heap.same(THREAD, LAST, OTHER)?;
        let null = heap.is_null(THREAD, OTHER)?;
        found = found.wrapping_add(u64::from(same != null));
        heap.clear_register(THREAD, OTHER)?;
    }
    Ok(found)
}

/// Stores and loads a global `count` times. Returns how often it did.
fn globals(heap: &mut impl Mutate, count: u32) -> Result<u64, Refusal> {
    let mut loaded = 0u64;
    for _ in 0..count {
        heap.store_global(THREAD, 0, LAST)?;
        heap.load_global(THREAD, OTHER, 0)?;
        end_load(heap)?;
        loaded = loaded.wrapping_add(1);
    }
    Ok(loaded)
}

/// Does the turns of a mix, on a heap that is prepared for it.
fn turns(heap: &mut impl Counted, mix: Mix, count: u32) -> Result<u64, Refusal> {
    match mix {
        Mix::Data => data(heap, count),
        Mix::Build => {
            build(heap, count)?;
            Ok(heap.births())
        }
        Mix::Walk => walk(heap, count),
        Mix::Registers => registers(heap, count),
        Mix::Globals => globals(heap, count),
    }
}

/// Makes a list, whose head is in both registers, and does `count` turns of a mix. Returns their result.
fn mixed(mut heap: impl Counted + Drop, mix: Mix, count: u32) -> Result<u64, Refusal> {
    build(&mut heap, LIST)?;
    turns(&mut heap, mix, count)
}

/// Does `count` turns of a mix on a heap of its own. Returns their result.
pub fn run(alloc: Global, mix: Mix, count: u32) -> Result<u64> {
    let heap = ManagedHeap::new(alloc, config(alloc, mix)?)?;
    Ok(mixed(heap, mix, count)?)
}
