//! Sharing heaps, and ending that.

use crate::same::same;
use collecting::Collect;
use managed::ManagedHeap;
use model::Refusal;
use portions::{MutatorCalls, Seats, SharedHeap, ThreadSeat};
use std::alloc::Global;
use std::process::Abort;
use std::sync::Wait;
use std::test::Fail;
use std::thread::Threads;
use test_support_threads::team::{CELL, POLICY, heap_of, opened, shared_heap};

/// The seats are those of threads 0, 1 and 2.
fn are_of_three(rt: &impl Abort, seats: &Seats) {
    let mut expected = 0u32;
    for seat in seats.threads.iter() {
        same(rt, seat.thread(), expected);
        expected = expected.wrapping_add(1);
    }
    same(rt, expected, 3);
}

#[test]
fn seats_are_of_all_threads(rt: HostRuntime) -> Result<(), Fail> {
    let (shared, seats) = shared_heap(rt.alloc(), 3, 8, 1)?;
    are_of_three(&rt, &seats);
    assert!(&rt; !shared.is_wanted());
    assert!(&rt; !shared.is_closed());
    shared.close();
    assert!(&rt; shared.is_closed());
    drop(seats);
    drop(shared);
    Ok(())
}

/// Thread 1 has an object of datum 9.
fn make_before(alloc: Global, heap: &mut impl Collect) -> Result<(), Refusal> {
    heap.make(alloc, POLICY, 1, 0, CELL)?;
    heap.set_datum(1, 0, 0, 9)
}

/// Returns the datum, and increments it.
fn change(mutator: &mut impl MutatorCalls) -> Result<u64, Refusal> {
    let before = mutator.datum(0, 0)?;
    mutator.set_datum(0, 0, before.wrapping_add(1))?;
    Ok(before)
}

/// The same by the datum's lowest byte, which is also copied to its place.
fn change_byte(mutator: &mut impl MutatorCalls) -> Result<u64, Refusal> {
    let before = mutator.datum(0, 0)?;
    let mut byte = [0];
    mutator.read_bytes(0, 0, &mut byte)?;
    byte[0] = u8::wrapping_add(byte[0], 1);
    mutator.write_bytes(0, 0, &byte)?;
    mutator.copy_data(0, 0, 0, 0, 1)?;
    Ok(before)
}

/// A thread rests when no other waits, and its portion continues: it collects the heap on two threads.
fn changes<R: Threads + Wait + Sync>(
    rt: &R,
    alloc: Global,
    shared: &SharedHeap,
    seat: &mut ThreadSeat,
) -> Result<(u64, u64, u32), Refusal> {
    let mut portion = shared.enter(rt, seat);
    change(&mut *portion)?;
    portion = shared.rest(rt, portion);
    let thread = portion.thread();
    let live = portion.collect_by(rt, alloc, 75, 2)?.live;
    let before = change_byte(&mut *portion)?;
    SharedHeap::leave(portion);
    Ok((live, before, thread))
}

/// An object from before a heap was shared is there, and stays when the heap isn't shared any more.
fn stays<R: Threads + Wait + Sync + Abort>(
    rt: &R,
    alloc: Global,
    shared: &SharedHeap,
    seats: &mut Seats,
) {
    if let Some(seat) = seats.threads.last_mut() {
        same(rt, changes(rt, alloc, shared, seat), Ok((1, 10, 1)));
    }
}

/// Reads the datum after all threads were parked.
fn read_after(heap: &mut impl Collect) -> Result<u64, Refusal> {
    heap.unpark(1)?;
    heap.datum(1, 0, 0)
}

/// A heap with that object is shared, and then isn't any more.
fn goes_on<R: Threads + Wait + Sync + Abort>(
    rt: &R,
    alloc: Global,
    heap: ManagedHeap,
) -> Result<ManagedHeap, Fail> {
    let (shared, mut seats) = opened(alloc, heap, 1)?;
    stays(rt, alloc, &shared, &mut seats);
    Ok(shared.into_heap())
}

#[test]
fn what_was_made_before_stays(rt: HostRuntime) -> Result<(), Fail> {
    let mut heap = heap_of(rt.alloc(), 2, 8)?;
    same(&rt, make_before(rt.alloc(), &mut heap), Ok(()));
    let mut heap = goes_on(&rt, rt.alloc(), heap)?;
    same(&rt, read_after(&mut heap), Ok(11));
    drop(heap);
    Ok(())
}

/// Returns why a heap can't be shared, and then ends the load.
fn refused(alloc: Global, heap: ManagedHeap) -> Option<Refusal> {
    match SharedHeap::open(alloc, heap, 1) {
        Ok(opened) => {
            drop(opened);
            None
        }
        Err(fault) => {
            let refusal = fault.refusal;
            drop(fault);
            Some(refusal)
        }
    }
}

/// A thread begins a load.
fn begin_load(heap: &mut impl Collect) -> Result<(), Refusal> {
    heap.load_global(1, 0, 0)
}

#[test]
fn a_thread_inside_a_load(rt: HostRuntime) -> Result<(), Fail> {
    let mut heap = heap_of(rt.alloc(), 2, 8)?;
    same(&rt, begin_load(&mut heap), Ok(()));
    let found = refused(rt.alloc(), heap);
    same(&rt, found, Some(Refusal::Pending { thread: 1 }));
    Ok(())
}
