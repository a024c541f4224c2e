//! Several loads by one call, and new objects that are filled.

use crate::heaps::{heap_of, new_heap};
use crate::same::{done, same};
use collecting::{Collect, Policy};
use layout::Layout;
use managed::{FieldLoad, LoadsFault};
use model::Refusal;
use std::alloc::Global;
use std::process::Abort;

const ME: u32 = 0;

const FIRST: u32 = 0;

const SECOND: u32 = 1;

const BOTH: u32 = 2;

const READ: u32 = 3;

/// Buffers of a page of 16 words, for which the heap is never collected.
const POLICY: Policy = Policy {
    words: 16,
    free: 0,
    percent: 75,
};

/// Objects of two references and two data words.
const PAIR: Layout = Layout { refs: 2, nums: 2 };

/// Allocates two objects with a number each, and one that refers to both, first to the second.
fn pair(rt: &impl Abort, alloc: Global, heap: &mut impl Collect) {
    done(
        rt,
        heap.make_with(alloc, POLICY, ME, FIRST, 0, &[], &[1, 10]),
    );
    done(
        rt,
        heap.make_with(alloc, POLICY, ME, SECOND, 0, &[FIRST, SECOND], &[2]),
    );
    done(
        rt,
        heap.make_with(alloc, POLICY, ME, BOTH, 0, &[SECOND, FIRST], &[3, 30]),
    );
}

fn load(target: u32, field: u32) -> FieldLoad {
    FieldLoad { target, field }
}

/// The object has what was given: a source that is the new object's own register refers to the new object.
fn is_filled(rt: &impl Abort, alloc: Global, heap: &mut impl Collect) {
    pair(rt, alloc, heap);
    same(rt, heap.datum(ME, BOTH, 1), Ok(30));
    let both = [load(FIRST, 0), load(READ, 1)];
    same(rt, heap.loads(ME, BOTH, &both), Ok(()));
    same(rt, heap.datum(ME, FIRST, 0), Ok(2));
    same(rt, heap.datum(ME, READ, 1), Ok(10));
    same(rt, heap.datum(ME, FIRST, 1), Ok(0));
    same(rt, heap.loads(ME, FIRST, &[load(READ, 1)]), Ok(()));
    same(rt, heap.same(ME, READ, FIRST), Ok(true));
}

#[test]
fn objects_are_filled(rt: HostRuntime) {
    let mut heap = heap_of(&rt, rt.alloc(), 8, PAIR);
    is_filled(&rt, rt.alloc(), &mut heap);
}

/// Loads stop at the first that fails, and return how many are done; these stay.
fn stops(rt: &impl Abort, alloc: Global, heap: &mut impl Collect) {
    pair(rt, alloc, heap);
    let fault = LoadsFault {
        done: 1,
        refusal: Refusal::BadIndex,
    };
    let fields = [load(READ, 0), load(FIRST, 2), load(SECOND, 1)];
    same(rt, heap.loads(ME, BOTH, &fields), Err(fault));
    same(rt, heap.datum(ME, READ, 0), Ok(2));
    same(rt, heap.datum(ME, SECOND, 0), Ok(2));
    same(rt, heap.loads(ME, BOTH, &[]), Ok(()));
}

#[test]
fn loads_stop_at_the_first_that_fails(rt: HostRuntime) {
    let mut heap = heap_of(&rt, rt.alloc(), 8, PAIR);
    stops(&rt, rt.alloc(), &mut heap);
}

/// If the object can't be filled none is allocated, and the register stays.
fn makes_none(rt: &impl Abort, alloc: Global, heap: &mut impl Collect) {
    pair(rt, alloc, heap);
    for (layout, sources) in [(1, [FIRST]), (0, [16])] {
        let made = heap.make_with(alloc, POLICY, ME, BOTH, layout, &sources, &[]);
        same(rt, made, Err(Refusal::BadIndex));
    }
    let many = heap.make_with(alloc, POLICY, ME, BOTH, 0, &[], &[1, 2, 3]);
    same(rt, many, Err(Refusal::BadIndex));
    same(rt, heap.datum(ME, BOTH, 0), Ok(3));
    same(
        rt,
        heap.make_with(alloc, POLICY, ME, BOTH, 0, &[], &[]),
        Ok(3),
    );
}

#[test]
fn nothing_is_made_that_cant_be_filled(rt: HostRuntime) {
    let mut heap = heap_of(&rt, rt.alloc(), 8, PAIR);
    makes_none(&rt, rt.alloc(), &mut heap);
}

/// Allocates objects that refer to the one before, of which the last few are kept: the heap is collected for them.
fn chain(rt: &impl Abort, alloc: Global, heap: &mut impl Collect, count: u64) {
    let policy = Policy::usual(16, 4);
    done(rt, heap.make_with(alloc, policy, ME, FIRST, 0, &[], &[0]));
    for number in 1..count {
        done(rt, heap.copy_register(ME, SECOND, FIRST));
        done(
            rt,
            heap.make_with(alloc, policy, ME, FIRST, 0, &[SECOND], &[number]),
        );
        if number % 4 == 0 {
            done(
                rt,
                heap.make_with(alloc, policy, ME, FIRST, 0, &[], &[number]),
            );
        }
    }
}

fn is_chained(rt: &impl Abort, alloc: Global, heap: &mut impl Collect) {
    chain(rt, alloc, heap, 1000);
    same(rt, heap.loads(ME, FIRST, &[load(SECOND, 0)]), Ok(()));
    same(rt, heap.datum(ME, FIRST, 0), Ok(999));
    same(rt, heap.datum(ME, SECOND, 0), Ok(998));
}

#[test]
fn the_heap_is_collected_for_them(rt: HostRuntime) {
    let mut heap = new_heap(&rt, rt.alloc(), 4, 8);
    is_chained(&rt, rt.alloc(), &mut heap);
}
