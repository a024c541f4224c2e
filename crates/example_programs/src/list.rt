//! A list that stays live.

use crate::nodes::{HERE, KEY, ME, NODE, ROOT, make, new_heap, waste};
use anyhow::Result;
use pauseless::prelude::*;
use std::alloc::Global;

/// The reference of a node to the next one.
const NEXT: Field = Field(0);

/// Pushes a node of this key to the list.
fn push(alloc: Global, heap: &mut impl HeapCalls, key: u64) -> Result<()> {
    make(alloc, heap, key)?;
    heap.store(ME, NODE, NEXT, ROOT)?;
    Ok(heap.copy_register(ME, ROOT, NODE)?)
}

/// Returns the sum of the keys of a list, of at most `most` nodes.
fn sum(heap: &mut impl HeapCalls, most: u64) -> Result<u64> {
    let mut total = 0u64;
    heap.copy_register(ME, HERE, ROOT)?;
    for _ in 0..most {
        if heap.is_null(ME, HERE)? {
            break;
        }
        total = total.wrapping_add(heap.datum(ME, HERE, KEY)?);
        heap.read(ME, HERE, HERE, NEXT)?;
    }
    Ok(total)
}

/// Pushes the keys below 100, with 200 nodes wasted for each. Returns the sum of the list.
fn push_and_sum(alloc: Global, mut heap: impl HeapCalls + Drop) -> Result<u64> {
    for key in 0..100 {
        push(alloc, &mut heap, key)?;
        waste(alloc, &mut heap, 200)?;
    }
    sum(&mut heap, 1000)
}

/// Makes a list of the keys below 100, with 200 nodes wasted for each. Returns the sum of its keys.
pub fn run(alloc: Global) -> Result<u64> {
    push_and_sum(alloc, new_heap(alloc)?)
}
