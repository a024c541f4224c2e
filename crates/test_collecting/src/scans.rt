//! Scans of a managed heap, step by step.

use crate::listing::{LIVE, check, heap_of, insert_all};
use crate::marks::Marking;
use crate::same::{done, same};
use model::Step;
use std::alloc::Global;
use std::process::Abort;

/// The globals of the heap.
const GLOBALS: u32 = 64;

/// Scans until nothing is left, up to a limit of steps. Returns how many steps that took.
fn scan_all(rt: &impl Abort, heap: &mut impl Marking, most: u32) -> u32 {
    for turn in 0..most {
        if done(rt, heap.scan(1)) {
            return turn;
        }
    }
    most
}

/// A mark by steps: each global takes one; each object of a list is picked in one, and its one reference takes two.
fn marks(rt: &impl Abort, alloc: Global, heap: &mut impl Marking) {
    insert_all(rt, alloc, heap);
    done(rt, heap.work(&Step::StartMark));
    for thread in 0..3 {
        done(rt, heap.cross(thread));
    }
    let steps = GLOBALS.wrapping_add(LIVE.wrapping_mul(3));
    same(rt, scan_all(rt, heap, 1000), steps);
    done(rt, heap.work(&Step::EndMark));
    check(rt, heap, LIVE);
}

#[test]
fn scans_by_steps(rt: HostRuntime) {
    let mut heap = heap_of(&rt, rt.alloc(), 48);
    marks(&rt, rt.alloc(), &mut heap);
}
