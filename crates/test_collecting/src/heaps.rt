//! Small heaps.

use crate::same::done;
use collecting::Collect;
use heap::Config;
use layout::{Layout, Layouts};
use managed::ManagedHeap;
use model::PageState;
use std::alloc::Global;
use std::process::Abort;

/// Returns a heap of pages of 16 words, with this many frames and pages, for objects of a reference and a data word.
pub fn new_heap(rt: &impl Abort, alloc: Global, frames: u32, pages: u32) -> ManagedHeap {
    let layouts = Layouts::new(done(rt, vec![in alloc; Layout { refs: 1, nums: 1 }]));
    let mut config = Config::new(16, frames, layouts);
    config.pages = pages;
    done(rt, ManagedHeap::new(alloc, config))
}

/// A heap whose frames and pages are read.
pub trait Framed: Collect {
    fn free_frames(&self) -> u32;

    fn used_frames(&self) -> usize;

    /// Returns whether a page, by its number from 1, was emptied.
    fn is_gone(&self, page: u32) -> bool;
}

impl Framed for ManagedHeap {
    fn free_frames(&self) -> u32 {
        self.heap().memory().free_frames()
    }

    fn used_frames(&self) -> usize {
        self.heap().memory().used_frames()
    }

    fn is_gone(&self, page: u32) -> bool {
        matches!(self.heap().memory().state(page), PageState::Gone)
    }
}
