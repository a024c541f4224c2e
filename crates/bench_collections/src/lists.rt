//! Making lists, and garbage objects.

use crate::asking::{HEAD, LINK, ME, NODE, make};
use anyhow::Result;
use collecting::Collect;
use std::alloc::Global;

/// Pushes a new object to the list.
#[inline(always)]
fn push(alloc: Global, heap: &mut impl Collect) -> Result<()> {
    make(alloc, heap, NODE, LINK)?;
    heap.store(ME, NODE, 0, HEAD)?;
    Ok(heap.copy_register(ME, HEAD, NODE)?)
}

/// Makes a list of `count` objects.
pub fn list(alloc: Global, heap: &mut impl Collect, count: u32) -> Result<()> {
    for _ in 0..count {
        push(alloc, heap)?;
    }
    Ok(())
}

/// Makes the same, with a garbage object after each.
pub fn half(alloc: Global, heap: &mut impl Collect, count: u32) -> Result<()> {
    for _ in 0..count {
        push(alloc, heap)?;
        make(alloc, heap, NODE, LINK)?;
    }
    Ok(())
}

/// Allocates `count` garbage objects, except the last one.
pub fn waste(alloc: Global, heap: &mut impl Collect, count: u32) -> Result<()> {
    for _ in 0..count {
        make(alloc, heap, NODE, LINK)?;
    }
    Ok(())
}
