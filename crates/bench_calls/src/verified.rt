//! Verifying heaps.

use crate::asking::Steps;
use crate::moving::{fill_live, objects_of};
use anyhow::Result;
use heap::{Config, Heap};
use heap_images::verify;
use layout::{Layout, Layouts};
use std::alloc::{AllocError, Global};

/// Verifies a heap once.
fn verify_once(alloc: Global, heap: &Heap) -> Result<(), AllocError> {
    verify(alloc, heap)?;
    Ok(())
}

/// Verifies a heap `times` times.
fn verify_all(alloc: Global, heap: &Heap, times: u32) -> Result<(), AllocError> {
    for _ in 0..times {
        verify_once(alloc, heap)?;
    }
    Ok(())
}

/// Fills pages of `words` words with live objects of 4 words, and verifies the heap `times` times. Returns the number
/// of births.
fn verified(
    alloc: Global,
    mut heap: impl Steps + Drop,
    words: u32,
    pages: u32,
    times: u32,
) -> Result<u64> {
    fill_live(&mut heap, words, pages, objects_of(words, 4))?;
    verify_all(alloc, heap.heap(), times)?;
    Ok(heap.heap().births())
}

/// Returns the configuration of a heap of this many frames of `words` words, with objects of 4 words.
fn config(alloc: Global, words: u32, frames: u32) -> Result<Config> {
    let layouts = Layouts::new(vec![in alloc; Layout { refs: 1, nums: 2 }]?);
    let mut config = Config::new(words, frames, layouts);
    config.globals = 0;
    Ok(config)
}

/// Verifies a heap of `frames` frames of `words` words, half of which are full of live objects of 4 words, `times`
/// times. Returns the number of births.
pub fn verifications(alloc: Global, words: u32, frames: u32, times: u32) -> Result<u64> {
    let heap = Heap::new(alloc, config(alloc, words, frames)?)?;
    verified(alloc, heap, words, frames / 2, times)
}
