//! Garbage objects in the smallest heaps, which are collected meanwhile, and are never full.
//!
//! | Frames | Pages | Words of a page | Kept |
//! |---|---|---|---|
//! | 1 | 1 | 16 | nothing |
//! | 1 | 2 | 16 | nothing |
//! | 2 | 2 | 16 | the last object |
//! | 3 | 6 | 16 | the last object, and the first one, whose number is still there at the end |

use anyhow::Result;
use collecting::{Collect, Policy};
use heap::Config;
use layout::{Layout, Layouts};
use managed::ManagedHeap;
use std::alloc::Global;

/// The program's one thread.
const ME: u32 = 0;

/// Registers: what is kept, and what isn't.
const KEPT: u32 = 0;

const LOST: u32 = 1;

/// The words of a page.
const WORDS: u32 = 16;

/// A number that is kept.
const NUMBER: u64 = 4711;

/// Returns a heap of this number of frames and pages.
fn new_heap(alloc: Global, frames: u32, pages: u32) -> Result<ManagedHeap> {
    let layouts = Layouts::new(vec![in alloc; Layout { refs: 1, nums: 1 }]?);
    let mut config = Config::new(WORDS, frames, layouts);
    config.pages = pages;
    Ok(ManagedHeap::new(alloc, config)?)
}

/// Allocates `count` garbage objects, not even kept in a register.
fn waste_all(
    alloc: Global,
    mut heap: impl Collect + Drop,
    policy: Policy,
    count: u64,
) -> Result<()> {
    for _ in 0..count {
        heap.make(alloc, policy, ME, LOST, 0)?;
        heap.clear_register(ME, LOST)?;
    }
    Ok(())
}

/// Allocates `count` garbage objects, except the last one.
fn waste(alloc: Global, heap: &mut impl Collect, policy: Policy, count: u64) -> Result<()> {
    for _ in 0..count {
        heap.make(alloc, policy, ME, LOST, 0)?;
    }
    Ok(())
}

/// Does the same in a heap that is freed then.
fn waste_last(
    alloc: Global,
    mut heap: impl Collect + Drop,
    policy: Policy,
    count: u64,
) -> Result<()> {
    waste(alloc, &mut heap, policy, count)
}

/// Does the same in a heap of one frame and `pages` pages, where not even the last one is kept.
fn waste_in_one(alloc: Global, pages: u32, count: u64) -> Result<()> {
    waste_all(
        alloc,
        new_heap(alloc, 1, pages)?,
        Policy::usual(WORDS, 1),
        count,
    )
}

/// Does the same in a heap of two frames and two pages.
fn waste_in_two(alloc: Global, count: u64) -> Result<()> {
    waste_last(
        alloc,
        new_heap(alloc, 2, 2)?,
        Policy::usual(WORDS, 2),
        count,
    )
}

/// Does the same in a heap that keeps one object. Returns the number in it at the end.
fn keep_one(
    alloc: Global,
    mut heap: impl Collect + Drop,
    policy: Policy,
    count: u64,
) -> Result<u64> {
    heap.make(alloc, policy, ME, KEPT, 0)?;
    heap.set_datum(ME, KEPT, 0, NUMBER)?;
    waste(alloc, &mut heap, policy, count)?;
    Ok(heap.datum(ME, KEPT, 0)?)
}

/// Does the same in a heap of three frames and six pages, which keeps one object.
fn keep_in_three(alloc: Global, count: u64) -> Result<u64> {
    keep_one(
        alloc,
        new_heap(alloc, 3, 6)?,
        Policy::usual(WORDS, 3),
        count,
    )
}

/// Allocates `count` objects in each of the four heaps. Returns the number that one of them keeps.
pub fn waste_in_each(alloc: Global, count: u64) -> Result<u64> {
    waste_in_one(alloc, 1, count)?;
    waste_in_one(alloc, 2, count)?;
    waste_in_two(alloc, count)?;
    keep_in_three(alloc, count)
}
