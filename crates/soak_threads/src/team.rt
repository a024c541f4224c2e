//! A heap that threads share, and a collector that never rests.

use anyhow::{Result, bail};
use collecting::Policy;
use layout::{Layout, Layouts};
use managed::ManagedHeap;
use model::Config;
use portions::{CollectorSeat, Seats, SharedHeap};
use std::alloc::Global;
use std::sync::Wait;
use std::thread;

/// The layouts: a cell with a reference and a number, and a table of `PLACES` references.
pub const CELL: u32 = 0;

pub const TABLE: u32 = 1;

/// How many references a table has.
pub const PLACES: u32 = 16;

/// Buffers of a page. A thread collects by itself if 8 frames are free.
pub const POLICY: Policy = Policy {
    words: 64,
    free: 8,
    percent: 75,
};

/// The greatest number of objects that the collector scans in a part.
const BUDGET: u32 = 16;

/// How many rests a portion lasts at least, while another thread waits.
const RESTS: u32 = 3;

/// The collector lets others run up to N times, until one of them has the heap.
const MOST_YIELDS: u32 = 1_000;

/// Returns a heap of N threads in 192 pages of 64 words, with the globals of the bank and of the board.
fn new_heap(alloc: Global, threads: u32) -> Result<ManagedHeap> {
    let cell = Layout { refs: 1, nums: 1 };
    let table = Layout { refs: 16, nums: 0 };
    let mut config = Config::new(64, 192, Layouts::new(vec![in alloc; cell, table]?));
    config.threads = threads;
    config.globals = 2;
    Ok(ManagedHeap::new(alloc, config)?)
}

/// Returns a shared heap of N threads, with its seats.
pub fn opened(alloc: Global, threads: u32) -> Result<(SharedHeap, Seats)> {
    match SharedHeap::open(alloc, new_heap(alloc, threads)?, RESTS).ok() {
        Some(opened) => Ok(opened),
        None => bail!("there is no memory for seats"),
    }
}

/// Lets other threads run until none of them waits for the heap.
fn give_way(shared: &SharedHeap) {
    for _ in 0..MOST_YIELDS {
        if !shared.is_wanted() {
            return;
        }
        thread::yield_now();
    }
}

/// Collects in parts, one collection after another, until the heap is closed. Returns how many have ended.
pub fn collects<R: Wait>(
    rt: &R,
    alloc: Global,
    shared: &SharedHeap,
    collector: CollectorSeat,
) -> u64 {
    let mut seat = collector;
    let mut collections = 0u64;
    for _ in rt.forever() {
        if shared.is_closed() {
            return collections;
        }
        if let Ok(true) = shared.collect_some(rt, alloc, &mut seat, POLICY.percent, BUDGET) {
            collections = collections.saturating_add(1);
        }
        give_way(shared);
    }
    unreachable!()
}
