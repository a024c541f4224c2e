//! How many frames a heap uses until it is collected, and whose memory it keeps.

use crate::heaps::{Framed, new_heap};
use crate::same::{done, same};
use collecting::{Policy, Target};
use std::alloc::Global;
use std::process::Abort;

const ME: u32 = 0;

/// The register of a new object, to which nothing else refers.
const LOST: u32 = 0;

/// The greatest number of frames that the heaps here may use.
const MOST: u32 = 64;

/// Buffers of a page of 16 words, for which a heap is collected if at most one frame is free.
const POLICY: Policy = Policy {
    words: 16,
    free: 1,
    percent: 75,
};

/// A target gets this number of used frames, and allows `frames` then: it was set, or not.
fn follows(rt: &impl Abort, target: &mut Target, used: u32, set: bool, frames: u32) {
    same(rt, target.follow(used), set);
    same(rt, target.frames(), frames);
}

#[test]
fn a_target_is_set_behind_a_collection(rt: HostRuntime) {
    let mut target = Target::new(4, 50);
    follows(&rt, &mut target, 3, false, 4);
    follows(&rt, &mut target, 4, false, 4);
    follows(&rt, &mut target, 5, true, 7);
    follows(&rt, &mut target, 7, false, 7);
    follows(&rt, &mut target, 20, true, 30);
    follows(&rt, &mut target, 1, true, 4);
    follows(&rt, &mut target, u32::MAX, true, u32::MAX);
    same(&rt, Target::new(0, 0).frames(), 0);
}

#[test]
fn a_policy_by_a_target(rt: HostRuntime) {
    let target = Target::new(24, 100);
    same(&rt, target.policy(POLICY, MOST).free, 40);
    same(&rt, target.policy(POLICY, 24).free, 1);
    same(&rt, target.policy(POLICY, 0).free, 1);
    same(&rt, target.policy(POLICY, MOST).words, 16);
    same(&rt, target.policy(POLICY, MOST).percent, 75);
}

/// Allocates garbage objects, by a target. Returns the most frames that were used.
fn waste(rt: &impl Abort, alloc: Global, heap: &mut impl Framed, target: &mut Target) -> usize {
    let mut most = 0;
    for _ in 0..500 {
        done(
            rt,
            heap.make(alloc, target.policy(POLICY, MOST), ME, LOST, 0),
        );
        done(rt, heap.clear_register(ME, LOST));
        heap.follow(target);
        most = most.max(heap.used_frames());
    }
    most
}

/// If nothing is live, a heap of 64 frames uses what its target allows, and keeps no more memory.
fn stays_small(rt: &impl Abort, alloc: Global, heap: &mut impl Framed) {
    let mut target = Target::new(6, 0);
    heap.follow(&mut target);
    same(rt, waste(rt, alloc, heap, &mut target), 6);
    let all = heap.used_frames().saturating_add(heap.kept_frames());
    same(rt, all <= 6, true);
}

#[test]
fn a_heap_uses_what_its_target_says(rt: HostRuntime) {
    let mut heap = new_heap(&rt, rt.alloc(), MOST, 128);
    stays_small(&rt, rt.alloc(), &mut heap);
}

/// Memory of emptied pages is kept until it is released.
fn keeps(rt: &impl Abort, alloc: Global, heap: &mut impl Framed) {
    let mut target = Target::new(MOST, 0);
    same(rt, heap.kept_frames(), 0);
    waste(rt, alloc, heap, &mut target);
    done(rt, heap.collect(alloc, 75));
    let kept = heap.kept_frames();
    same(rt, kept > 10, true);
    for most in [kept, 3, 0] {
        heap.trim(most);
        same(rt, heap.kept_frames(), most);
    }
    waste(rt, alloc, heap, &mut target);
}

#[test]
fn memory_is_kept_until_it_is_given_back(rt: HostRuntime) {
    let mut heap = new_heap(&rt, rt.alloc(), MOST, 128);
    keeps(&rt, rt.alloc(), &mut heap);
}
