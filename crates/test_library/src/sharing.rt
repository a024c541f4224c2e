//! A heap is shared, works in a portion, and is collected between portions.

use crate::same::same;
use collecting::Policy;
use layout::{Layout, Layouts};
use managed::{Config, ManagedHeap};
use model::Refusal;
use portions::{MutatorCalls, Seats, SharedHeap};
use std::alloc::Global;
use std::process::Abort;
use std::sync::Wait;
use std::test::Fail;

/// Buffers of a page of 64 words.
const POLICY: Policy = Policy {
    words: 64,
    free: 1,
    percent: 75,
};

/// More parts than a collection of this heap has.
const PARTS: u32 = 50;

/// Allocates objects until the heap was collected, and keeps the last one.
fn fill(alloc: Global, mutator: &mut impl MutatorCalls) -> Result<(), Refusal> {
    for value in 0..200u64 {
        mutator.make(alloc, POLICY, 0, 0)?;
        mutator.set_datum(0, 0, value)?;
    }
    Ok(())
}

/// A portion, after which the object is there.
fn work<R: Wait>(
    rt: &R,
    alloc: Global,
    shared: &SharedHeap,
    seats: &mut Seats,
) -> Result<u64, Refusal> {
    let Some(seat) = seats.threads.first_mut() else {
        return Err(Refusal::NoActor);
    };
    let mut portion = shared.enter(rt, seat);
    fill(alloc, &mut *portion)?;
    portion.datum(0, 0)
}

/// Does a complete collection between portions; a part that is out of memory is repeated.
fn collect<R: Wait>(
    rt: &R,
    alloc: Global,
    shared: &SharedHeap,
    seats: &mut Seats,
) -> Result<(), Refusal> {
    for _ in 0..PARTS {
        if shared.collect_some(rt, alloc, &mut seats.collector, 75, 16)? {
            return Ok(());
        }
    }
    Err(Refusal::Phase)
}

/// Returns the heap that is shared.
fn new_heap(alloc: Global) -> Result<ManagedHeap, Fail> {
    let layouts = Layouts::new(vec![in alloc; Layout { refs: 0, nums: 1 }]?);
    Ok(ManagedHeap::new(alloc, Config::new(64, 4, layouts))?)
}

/// It works, and is collected. A call that is out of memory is done when it is repeated; the test then fails as out
/// of memory.
fn works(
    rt: &(impl Wait + Abort),
    alloc: Global,
    shared: &SharedHeap,
    mut seats: Seats,
) -> Result<(), Refusal> {
    let first = work(rt, alloc, shared, &mut seats);
    if first.is_err() {
        same(rt, work(rt, alloc, shared, &mut seats), Ok(199));
    } else {
        same(rt, first, Ok(199));
    }
    let end = collect(rt, alloc, shared, &mut seats);
    if end.is_err() {
        same(rt, collect(rt, alloc, shared, &mut seats), Ok(()));
    }
    first?;
    end
}

/// Shares a heap.
fn opened(alloc: Global) -> Result<(SharedHeap, Seats), Fail> {
    match SharedHeap::open(alloc, new_heap(alloc)?, 1) {
        Ok(opened) => Ok(opened),
        Err(fault) => {
            let refusal = fault.refusal;
            drop(fault);
            Err(Fail::from(refusal))
        }
    }
}

#[test]
fn a_heap_is_shared(rt: HostRuntime) -> Result<(), Fail> {
    let (shared, seats) = opened(rt.alloc())?;
    let done = works(&rt, rt.alloc(), &shared, seats);
    drop(shared);
    Ok(done?)
}
