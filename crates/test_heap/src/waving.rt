//! Marks of the same heap by one thread and on several.

use crate::same::{same, same_at};
use crate::tables::{LEVEL, Marked, TABLES, config, fill, waved};
use heap::{Heap, Rows};
use std::alloc::Global;
use std::process::Abort;
use std::test::Fail;
use std::thread::Threads;

/// How many objects there are.
fn all() -> u64 {
    1 + u64::from(TABLES) + 2 * LEVEL
}

/// Returns how many bits are set in all bitmaps.
fn set_in(rows: &Rows) -> u64 {
    let mut count = 0u64;
    for index in 0..rows.len() {
        if let Some(row) = rows.get(index) {
            count = count.wrapping_add(row.count() as u64);
        }
    }
    count
}

/// Both heaps have the same words, marks and grey objects.
fn are_same(rt: &impl Abort, one: &Heap, other: &Heap) {
    for page in 1..=one.memory().page_count() {
        let words = (one.memory().words(page), other.memory().words(page));
        same_at(rt, page, words.0, words.1);
    }
    same(rt, set_in(one.mark()), set_in(other.mark()));
    same(rt, one.todo().is_empty(), other.todo().is_empty());
}

/// A heap is marked by one thread, and another on several.
fn marks<R: Abort + Threads + Sync>(
    rt: &R,
    mut one: impl Marked + Drop,
    mut other: impl Marked + Drop,
    threads: u32,
) -> Result<(), Fail> {
    fill(&mut one)?;
    fill(&mut other)?;
    one.begin()?;
    other.begin()?;
    same(rt, one.drained(u64::MAX), all());
    same(rt, waved(rt, other.heap_mut(), u64::MAX, threads), all());
    are_same(rt, one.look(), other.look());
    one.end()?;
    other.end()?;
    same(rt, set_in(other.look().live()), all());
    Ok(())
}

/// A heap is marked as a second one is, which is made while the first is another function's: each `?` here would drop
/// that field by field, for minutes of proof.
fn marks_as<R: Abort + Threads + Sync>(
    rt: &R,
    alloc: Global,
    one: impl Marked + Drop,
) -> Result<(), Fail> {
    let other = Heap::new(alloc, config(alloc)?)?;
    marks(rt, one, other, 4)
}

#[test]
fn four_threads_mark_as_one(rt: HostRuntime) -> Result<(), Fail> {
    let one = Heap::new(rt.alloc(), config(rt.alloc())?)?;
    marks_as(&rt, rt.alloc(), one)
}

/// A drain stops when it has scanned as many objects as it may. A later drain scans the rest, and another one none.
fn stops<R: Abort + Threads + Sync>(rt: &R, mut heap: impl Marked + Drop) -> Result<(), Fail> {
    fill(&mut heap)?;
    heap.begin()?;
    let most = 1 + u64::from(TABLES) + LEVEL;
    same(rt, waved(rt, heap.heap_mut(), most, 3), most);
    same(rt, waved(rt, heap.heap_mut(), u64::MAX, 3), LEVEL);
    same(rt, waved(rt, heap.heap_mut(), u64::MAX, 3), 0);
    Ok(())
}

#[test]
fn a_drain_stops_and_goes_on(rt: HostRuntime) -> Result<(), Fail> {
    let heap = Heap::new(rt.alloc(), config(rt.alloc())?)?;
    stops(&rt, heap)
}
