//! When a heap is collected for a buffer.

use crate::heaps::{Framed, new_heap};
use crate::same::{done, same};
use collecting::{Parts, Policy};
use std::alloc::Global;
use std::process::Abort;

const ME: u32 = 0;

/// The register of a new object, to which nothing else refers.
const LOST: u32 = 0;

/// Buffers of a page of 16 words, for which a heap is collected if at most `free` frames are free.
fn policy(free: u32) -> Policy {
    Policy {
        words: 16,
        free,
        percent: 75,
    }
}

/// Allocates `count` garbage objects, not even kept in a register. Returns the fewest frames that were free.
fn waste(rt: &impl Abort, alloc: Global, heap: &mut impl Framed, free: u32, count: u32) -> u32 {
    let mut least = u32::MAX;
    for _ in 0..count {
        done(rt, heap.make(alloc, policy(free), ME, LOST, 0));
        done(rt, heap.clear_register(ME, LOST));
        least = least.min(heap.free_frames());
    }
    least
}

/// If a heap of eight frames is collected at four free ones, these four are never taken.
#[test]
fn where_the_policy_says(rt: HostRuntime) {
    let mut heap = new_heap(&rt, rt.alloc(), 8, 16);
    same(&rt, waste(&rt, rt.alloc(), &mut heap, 4, 200), 4);
}

/// If it is collected at one free frame, six pages of five objects are all there after them.
#[test]
fn only_there(rt: HostRuntime) {
    let mut heap = new_heap(&rt, rt.alloc(), 8, 16);
    same(&rt, waste(&rt, rt.alloc(), &mut heap, 1, 30), 2);
    same(&rt, heap.free_frames(), 2);
}

/// Allocates `count` garbage objects, while the heap is collected in parts. Returns the fewest frames that were free
/// after one.
fn waste_paced(rt: &impl Abort, alloc: Global, heap: &mut impl Framed, count: u32) -> u32 {
    let mut parts = Parts::new(alloc);
    let mut least = u32::MAX;
    for _ in 0..count {
        done(
            rt,
            heap.make_paced(alloc, &mut parts, policy(32), 4096, ME, LOST, 0),
        );
        done(rt, heap.clear_register(ME, LOST));
        least = least.min(heap.free_frames());
    }
    least
}

/// The same with objects that are filled.
fn waste_filled(rt: &impl Abort, alloc: Global, heap: &mut impl Framed, count: u32) -> u32 {
    let mut parts = Parts::new(alloc);
    let mut least = u32::MAX;
    for _ in 0..count {
        done(
            rt,
            heap.make_with_paced(alloc, &mut parts, policy(32), 4096, ME, LOST, 0, &[], &[7]),
        );
        done(rt, heap.clear_register(ME, LOST));
        least = least.min(heap.free_frames());
    }
    least
}

/// Frames are taken while the heap is collected in parts, which ends while many are left: a complete collection is
/// done only if at most eight are free, a quarter of the policy's number.
#[test]
fn in_parts(rt: HostRuntime) {
    let mut heap = new_heap(&rt, rt.alloc(), 64, 128);
    let paced = waste_paced(&rt, rt.alloc(), &mut heap, 5000);
    let filled = waste_filled(&rt, rt.alloc(), &mut heap, 5000);
    for least in [paced, filled] {
        assert!(rt;
            least > 8 && least < 32,
            "{least} frames were free at least"
        );
    }
}
