//! Filling pages with objects, of which every second one is live.

use anyhow::Result;
use heap::{Config, Refusal};
use layout::{Layout, Layouts};
use managed::{ManagedHeap, Mutate};
use std::alloc::Global;

/// The one thread.
const ME: u32 = 0;

/// The register of the list of live objects.
const KEPT: u32 = 0;

/// The register of a new object.
const NEW: u32 = 1;

/// Puts a new object in front of the list, to which all its `refs` references refer.
fn keep(heap: &mut impl Mutate, refs: u32) -> Result<(), Refusal> {
    heap.new_object(ME, NEW, 0)?;
    for field in 0..refs {
        heap.store(ME, NEW, field, KEPT)?;
    }
    heap.copy_register(ME, KEPT, NEW)
}

/// Allocates `count` live objects in the present buffer, and as many garbage ones.
fn make(heap: &mut impl Mutate, count: u32, refs: u32) -> Result<(), Refusal> {
    for _ in 0..count {
        keep(heap, refs)?;
        heap.new_object(ME, NEW, 0)?;
    }
    Ok(())
}

/// Fills pages of `words` words, each with `count` live objects, and as many garbage ones. An object has `refs`
/// references.
pub fn fill(
    heap: &mut impl Mutate,
    words: u32,
    pages: u32,
    count: u32,
    refs: u32,
) -> Result<(), Refusal> {
    for _ in 0..pages {
        heap.take(ME, words)?;
        make(heap, count, refs)?;
        heap.give_back(ME)?;
    }
    heap.clear_register(ME, NEW)
}

/// Returns the layout of objects of 2 to 1,025 words, with one reference and data.
pub fn narrow(size: u32) -> Result<Layout> {
    let nums = u16::try_from(size.saturating_sub(2).min(1_023))?;
    Ok(Layout { refs: 1, nums })
}

/// Returns the layout of objects of 2 to 1,024 words, with references only.
pub fn wide(size: u32) -> Result<Layout> {
    let refs = u16::try_from(size.saturating_sub(1).clamp(1, 1_023))?;
    Ok(Layout { refs, nums: 0 })
}

/// Returns a heap of `frames` frames of `words` words, with objects of this layout.
pub fn new_heap(alloc: Global, words: u32, frames: u32, layout: Layout) -> Result<ManagedHeap> {
    let layouts = Layouts::new(vec![in alloc; layout]?);
    Ok(ManagedHeap::new(alloc, Config::new(words, frames, layouts))?)
}
