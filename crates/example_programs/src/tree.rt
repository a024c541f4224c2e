//! A search tree that stays live.

use crate::nodes::{CHILD, HERE, KEY, ME, NODE, ROOT, make, new_heap, waste};
use anyhow::Result;
use pauseless::prelude::*;
use std::alloc::Global;

/// The references of a node to the subtree of lesser keys, and to the other one.
const LESS: Field = Field(0);

const MORE: Field = Field(1);

/// Returns the reference of a node under which a key belongs.
fn side(heap: &impl HeapCalls, key: u64) -> Result<Field, Refusal> {
    let here = heap.datum(ME, HERE, KEY)?;
    Ok(if key < here { LESS } else { MORE })
}

/// Hangs a new node below the current node, or continues with one of its children. Returns whether it was hung.
fn hang(heap: &mut impl HeapCalls, key: u64) -> Result<bool, Refusal> {
    let side = side(heap, key)?;
    heap.read(ME, CHILD, HERE, side)?;
    if heap.is_null(ME, CHILD)? {
        heap.store(ME, HERE, side, NODE)?;
        return Ok(true);
    }
    heap.copy_register(ME, HERE, CHILD)?;
    Ok(false)
}

/// Inserts a new node into the tree, of at most `levels` levels.
fn insert(alloc: Global, heap: &mut impl HeapCalls, key: u64, levels: u64) -> Result<()> {
    make(alloc, heap, key)?;
    if heap.is_null(ME, ROOT)? {
        return Ok(heap.copy_register(ME, ROOT, NODE)?);
    }
    heap.copy_register(ME, HERE, ROOT)?;
    for _ in 0..levels {
        if hang(heap, key)? {
            break;
        }
    }
    Ok(())
}

/// Returns whether the tree has a key.
fn has(heap: &mut impl HeapCalls, key: u64, levels: u64) -> Result<bool, Refusal> {
    heap.copy_register(ME, HERE, ROOT)?;
    for _ in 0..levels {
        if heap.is_null(ME, HERE)? {
            break;
        }
        if heap.datum(ME, HERE, KEY)? == key {
            return Ok(true);
        }
        let side = side(heap, key)?;
        heap.read(ME, HERE, HERE, side)?;
    }
    Ok(false)
}

/// Inserts 100 keys below 101, with 100 nodes wasted for each.
fn fill(alloc: Global, heap: &mut impl HeapCalls) -> Result<()> {
    for number in 0..100u64 {
        insert(alloc, heap, number * 37 % 101, 100)?;
        waste(alloc, heap, 100)?;
    }
    Ok(())
}

/// Returns how many of the keys below 101 the tree has.
fn count(heap: &mut impl HeapCalls) -> Result<u64, Refusal> {
    let mut found = 0u64;
    for key in 0..101u64 {
        found = found.wrapping_add(u64::from(has(heap, key, 100)?));
    }
    Ok(found)
}

/// Fills a tree. Returns how many of the keys below 101 it has.
fn fill_and_count(alloc: Global, mut heap: impl HeapCalls + Drop) -> Result<u64> {
    fill(alloc, &mut heap)?;
    Ok(count(&mut heap)?)
}

/// Makes a tree of 100 of the keys below 101. Returns how many of these it has.
pub fn run(alloc: Global) -> Result<u64> {
    fill_and_count(alloc, new_heap(alloc)?)
}
