//! Many data words and bytes by one call. `tests/c/bytes.c` has them at all places, and each error but that of a
//! parked thread.

use crate::heaps::heap_of;
use crate::same::{done, same};
use collecting::{Collect, Policy};
use layout::Layout;
use model::Refusal;
use std::alloc::Global;
use std::process::Abort;

const ME: u32 = 0;

const SOURCE: u32 = 0;

const TARGET: u32 = 1;

/// Buffers of a page of 16 words, for which the heap is never collected.
const POLICY: Policy = Policy {
    words: 16,
    free: 0,
    percent: 100,
};

/// Words are written, copied to another object, and read; and so are bytes of two words.
fn moves(rt: &impl Abort, alloc: Global, heap: &mut impl Collect) {
    let (mut words, mut bytes) = ([0; 2], [0; 3]);
    done(rt, heap.make(alloc, POLICY, ME, SOURCE, 0));
    done(rt, heap.make(alloc, POLICY, ME, TARGET, 0));
    done(rt, heap.set_many(ME, SOURCE, 0, &[1, 2, 3]));
    done(rt, heap.copy_data(ME, TARGET, 0, SOURCE, 1, 2));
    done(rt, heap.write_bytes(ME, TARGET, 7, &[9, 8]));
    done(rt, heap.get_many(ME, TARGET, 0, &mut words));
    same(rt, words, [0x0900_0000_0000_0002, 8]);
    done(rt, heap.read_bytes(ME, TARGET, 6, &mut bytes));
    same(rt, bytes, [0, 9, 8]);
}

/// A parked thread neither copies nor reads nor writes.
fn is_parked(rt: &impl Abort, heap: &mut impl Collect) {
    done(rt, heap.park(ME));
    for reply in [
        heap.copy_data(ME, SOURCE, 0, SOURCE, 0, 1),
        heap.get_many(ME, SOURCE, 0, &mut [0]),
        heap.set_many(ME, SOURCE, 0, &[0]),
        heap.read_bytes(ME, SOURCE, 0, &mut [0]),
        heap.write_bytes(ME, SOURCE, 0, &[0]),
    ] {
        same(rt, reply, Err(Refusal::Parked));
    }
    done(rt, heap.unpark(ME));
}

#[test]
fn many_words(rt: HostRuntime) {
    let mut heap = heap_of(&rt, rt.alloc(), 4, Layout { refs: 0, nums: 3 });
    moves(&rt, rt.alloc(), &mut heap);
    is_parked(&rt, &mut heap);
}
