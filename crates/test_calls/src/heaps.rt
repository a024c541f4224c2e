//! Small heaps.

use crate::same::done;
use heap::Config;
use layout::{Layout, Layouts};
use managed::ManagedHeap;
use std::alloc::Global;
use std::process::Abort;

/// Returns a heap of pages of 16 words, with this many frames, for objects of one layout.
pub fn heap_of(rt: &impl Abort, alloc: Global, frames: u32, layout: Layout) -> ManagedHeap {
    let layouts = Layouts::new(done(rt, vec![in alloc; layout]));
    done(
        rt,
        ManagedHeap::new(alloc, Config::new(16, frames, layouts)),
    )
}

/// Returns a heap of pages of 16 words, with this many frames and pages, for objects of a reference and a data word.
pub fn new_heap(rt: &impl Abort, alloc: Global, frames: u32, pages: u32) -> ManagedHeap {
    let layouts = Layouts::new(done(rt, vec![in alloc; Layout { refs: 1, nums: 1 }]));
    let mut config = Config::new(16, frames, layouts);
    config.pages = pages;
    done(rt, ManagedHeap::new(alloc, config))
}
