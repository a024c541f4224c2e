//! The number of parts of a collection.

use crate::listing::{LIVE, check, heap_of, insert_all};
use crate::same::{done, same};
use collecting::{Collect, Parts};
use std::alloc::Global;
use std::process::Abort;

/// The page numbers of the heap.
const PAGES: u32 = 48;

/// The pages that the list is on, with garbage: 39 objects, 5 to a page.
const USED: u32 = 8;

/// The frames that are prepared: for 60 live words, and a sixteenth more.
const FRAMES: u32 = 4;

/// Returns how often a part fits in a number.
fn quotient(number: u32, part: u32) -> u32 {
    number.checked_div(part).unwrap_or(0)
}

/// Returns how many parts prepare frames. A part prepares one more than have 32 words for each object, and of each
/// two parts one may find that a frame was taken meanwhile.
fn preparings(budget: u32) -> u32 {
    let by = budget.wrapping_mul(4);
    quotient(FRAMES.wrapping_mul(2).wrapping_add(by), by.wrapping_add(1))
}

/// Returns the greatest number of parts of a collection with this budget. One begins the mark, and has all threads
/// cross. Each scan is of `budget` objects, and the last one, which finds fewer, ends the mark. Each part that
/// measures reads `each` pages of 16 words: as many as have 64 words for each object, and one more; the last one
/// finds fewer. Some prepare frames, and one protects the pages for which there is space. Each of these is emptied by
/// a part of its own, and one part finds none left.
fn most_parts(budget: u32) -> u32 {
    let each = budget.wrapping_mul(4).wrapping_add(1);
    let scans = quotient(LIVE, budget).wrapping_add(1);
    let looks = quotient(PAGES, each).wrapping_add(1);
    let protects = preparings(budget).wrapping_add(1);
    let empties = USED.wrapping_add(1);
    scans
        .wrapping_add(looks)
        .wrapping_add(protects)
        .wrapping_add(empties)
        .wrapping_add(1)
}

/// Does the parts of one collection, up to a limit. Returns how many there were, including the last one.
pub fn count_parts(
    rt: &impl Abort,
    alloc: Global,
    heap: &mut impl Collect,
    parts: &mut Parts,
    budget: u32,
    most: u32,
) -> u32 {
    for part in 0..most {
        if done(rt, heap.collect_some(alloc, parts, 75, budget)) {
            return part.wrapping_add(1);
        }
    }
    most.wrapping_add(1)
}

/// Does a collection in parts with this budget. Returns whether it has ended within 300 parts.
pub fn has_ended(
    rt: &impl Abort,
    alloc: Global,
    heap: &mut impl Collect,
    parts: &mut Parts,
    budget: u32,
) -> bool {
    count_parts(rt, alloc, heap, parts, budget, 300) <= 300
}

/// Does several collections, each of which ends within its parts. Returns how many parts they had.
fn collections(
    rt: &impl Abort,
    alloc: Global,
    heap: &mut impl Collect,
    budget: u32,
    count: u32,
) -> u32 {
    let most = most_parts(budget);
    let mut parts = Parts::new(alloc);
    let mut sum = 0u32;
    for _ in 0..count {
        let taken = count_parts(rt, alloc, heap, &mut parts, budget, most);
        same(rt, taken <= most, true);
        sum = sum.wrapping_add(taken);
    }
    sum
}

/// Four collections of a list among as many garbage objects, with this budget. The first one has exactly this many
/// parts, which is the greatest number: there is enough to be emptied.
fn takes(rt: &impl Abort, alloc: Global, heap: &mut impl Collect, budget: u32, wanted: u32) {
    insert_all(rt, alloc, heap);
    let first = collections(rt, alloc, heap, budget, 1);
    collections(rt, alloc, heap, budget, 3);
    check(rt, heap, LIVE);
    same(rt, first, wanted);
    same(rt, most_parts(budget), wanted);
}

/// The smaller the budget, the more parts.
#[test]
fn parts_by_budget(rt: HostRuntime) {
    for (budget, parts) in [(1, 44), (2, 29), (16, 15), (1000, 14)] {
        let mut heap = heap_of(&rt, rt.alloc(), PAGES);
        takes(&rt, rt.alloc(), &mut heap, budget, parts);
    }
}
