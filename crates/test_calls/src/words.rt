//! How many words live, and how many are copied.

use crate::heaps::new_heap;
use crate::same::{done, same};
use collecting::{CollectCounted, Collected, Counters, Parts, Policy};
use std::alloc::Global;
use std::process::Abort;

const ME: u32 = 0;

/// Registers: an object alone on its page, a list, and what was made last.
const ALONE: u32 = 0;

const LIST: u32 = 1;

const LAST: u32 = 2;

/// A page of 16 words has five objects of three words. Of those on a first page one lives; those on a second one are a
/// list; and a third one, which has the thread's buffer, has one. So 21 words live.
fn fill(rt: &impl Abort, heap: &mut impl CollectCounted) {
    done(rt, heap.take(ME, 16));
    done(rt, heap.new_object(ME, ALONE, 0));
    for _ in 0..4 {
        done(rt, heap.new_object(ME, LAST, 0));
    }
    done(rt, heap.give_back(ME));
    done(rt, heap.take(ME, 16));
    for _ in 0..5 {
        done(rt, heap.new_object(ME, LAST, 0));
        done(rt, heap.store(ME, LAST, 0, LIST));
        done(rt, heap.copy_register(ME, LIST, LAST));
    }
    done(rt, heap.give_back(ME));
    done(rt, heap.take(ME, 16));
    done(rt, heap.new_object(ME, LAST, 0));
}

/// Words of open pages live too. The first page is emptied, and then the one to which its object was copied.
fn collects(rt: &impl Abort, alloc: Global, heap: &mut impl CollectCounted) {
    let mut counters = Counters::new();
    fill(rt, heap);
    let expected = Collected {
        live: 7,
        live_words: 21,
        emptied: 1,
        copied: 3,
    };
    for _ in 0..2 {
        let collected = heap.collect_counted(alloc, &mut counters, 75);
        same(rt, collected, Ok(expected));
    }
    same(rt, (counters.live, counters.live_words), (7, 21));
    same(rt, (counters.emptied, counters.copied), (2, 6));
}

#[test]
fn words_of_collections(rt: HostRuntime) {
    let mut heap = new_heap(&rt, rt.alloc(), 8, 32);
    collects(&rt, rt.alloc(), &mut heap);
}

/// The first and the third page are emptied for a fresh buffer.
fn makes(rt: &impl Abort, alloc: Global, heap: &mut impl CollectCounted) {
    let mut counters = Counters::new();
    let policy = Policy {
        words: 16,
        free: 8,
        percent: 75,
    };
    fill(rt, heap);
    done(rt, heap.give_back(ME));
    done(
        rt,
        heap.make_counted(alloc, &mut counters, policy, ME, LAST, 0),
    );
    same(rt, (counters.by_policy, counters.live), (1, 7));
    same(rt, counters.live_words, 21);
    same(rt, (counters.emptied, counters.copied), (2, 6));
}

#[test]
fn words_of_a_collection_for_an_object(rt: HostRuntime) {
    let mut heap = new_heap(&rt, rt.alloc(), 8, 32);
    makes(&rt, rt.alloc(), &mut heap);
}

/// A collection in parts empties the same two pages. It counts their words once they are protected.
fn goes_by_parts(rt: &impl Abort, alloc: Global, heap: &mut impl CollectCounted) {
    let (mut counters, mut parts) = (Counters::new(), Parts::new(alloc));
    fill(rt, heap);
    done(rt, heap.give_back(ME));
    for _ in 0..1000 {
        let ended = heap.collect_some_counted(alloc, &mut counters, &mut parts, 75, 1);
        if done(rt, ended) {
            break;
        }
        let seen = (counters.live_words, counters.copied);
        same(rt, seen == (0, 0) || seen == (21, 6), true);
        same(rt, counters.emptied > 0 && counters.copied == 0, false);
    }
    same(rt, (counters.ended_in_parts, counters.live_words), (1, 21));
    same(rt, (counters.emptied, counters.copied), (2, 6));
}

#[test]
fn words_of_parts(rt: HostRuntime) {
    let mut heap = new_heap(&rt, rt.alloc(), 8, 32);
    goes_by_parts(&rt, rt.alloc(), &mut heap);
}
