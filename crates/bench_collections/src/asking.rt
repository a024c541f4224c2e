//! The heap of each work, and the calls on it. They have no contracts: the proof of a loop over a `ManagedHeap`
//! itself would include all promises of each call.

use anyhow::Result;
use collecting::{Collect, Policy};
use heap::{Config, Refusal};
use layout::{Layout, Layouts};
use managed::ManagedHeap;
use std::alloc::Global;
use std::thread::Threads;

/// The one thread of each heap.
pub const ME: u32 = 0;

/// Registers: the first reachable object, and a new object.
pub const HEAD: u32 = 0;

pub const NODE: u32 = 1;

/// The registers of a thread.
const REGISTERS: u32 = 16;

/// The layouts: of an object of a list, of one with two references, and of a table.
pub const LINK: u32 = 0;

pub const BRANCH: u32 = 1;

pub const TABLE: u32 = 2;

/// The references of a table.
pub const PLACES: u32 = 512;

/// The words of a page, and the frames.
const WORDS: u32 = 4_096;

const FRAMES: u32 = 1_024;

/// The frames of a heap that is marked on threads.
pub const LARGE: u32 = 4_096;

/// Pages of which at most this percentage of the words is live are emptied.
const PERCENT: u32 = 75;

/// A heap that is marked and collected by one call.
pub trait Marked: Collect {
    /// Does a mark, from its start to its end. Returns how many objects are live.
    fn mark_once(&mut self) -> Result<u64, Refusal>;

    /// Returns the heap.
    fn managed(&mut self) -> &mut ManagedHeap;

    /// Does a complete collection. Returns how many objects are live.
    fn collect_once(&mut self, alloc: Global) -> Result<u64, Refusal>;
}

impl Marked for ManagedHeap {
    fn mark_once(&mut self) -> Result<u64, Refusal> {
        self.mark(0)
    }

    fn managed(&mut self) -> &mut ManagedHeap {
        self
    }

    fn collect_once(&mut self, alloc: Global) -> Result<u64, Refusal> {
        Ok(self.collect(alloc, PERCENT)?.live)
    }
}

/// Does a mark that scans on a number of threads. Returns how many objects are live.
pub fn mark_by<R: Threads + Sync>(
    rt: &R,
    heap: &mut ManagedHeap,
    threads: u32,
) -> Result<u64, Refusal> {
    heap.mark_by(rt, 0, threads)
}

/// Does a complete collection whose mark scans on a number of threads. Returns how many objects are live.
pub fn collect_by<R: Threads + Sync>(
    rt: &R,
    alloc: Global,
    heap: &mut ManagedHeap,
    threads: u32,
) -> Result<u64, Refusal> {
    Ok(collecting::collect_by(rt, heap, alloc, PERCENT, threads)?.live)
}

/// Allocates an object of a layout, in a register.
#[inline(always)]
pub fn make(alloc: Global, heap: &mut impl Collect, target: u32, layout: u32) -> Result<()> {
    heap.make(alloc, Policy::usual(WORDS, FRAMES), ME, target, layout)?;
    Ok(())
}

/// Makes all registers null.
fn clear(heap: &mut impl Collect) -> Result<(), Refusal> {
    for register in 0..REGISTERS {
        heap.clear_register(ME, register)?;
    }
    Ok(())
}

/// Moves the first reachable object from its register to global 0.
pub fn settle(heap: &mut impl Collect) -> Result<(), Refusal> {
    heap.store_global(ME, 0, HEAD)?;
    clear(heap)
}

/// Returns a heap for lists of objects of `words` words: a header, a reference, and data, at most 255 words.
pub fn new_heap(alloc: Global, words: u32) -> Result<ManagedHeap> {
    framed_heap(alloc, words, FRAMES)
}

/// Returns the same of a number of frames.
pub fn framed_heap(alloc: Global, words: u32, frames: u32) -> Result<ManagedHeap> {
    let nums = words.saturating_sub(2).min(255) as u16;
    let layouts = Layouts::new(vec![in alloc;
        Layout { refs: 1, nums },
        Layout { refs: 2, nums: 0 },
        Layout {
            refs: PLACES as u16,
            nums: 0
        },
    ]?);
    Ok(ManagedHeap::new(alloc, Config::new(WORDS, frames, layouts))?)
}
