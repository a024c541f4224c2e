//! Two system threads share a heap by seats that know their registers.

ghost use Rattle.std.specs.Prelude.{◌≡◌};

use crate::keeping::copied;
use collecting::Policy;
use known_registers::{
    CollectorSeat, KnowingSeat, KnowingSeats, KnownHeap, ManagedHeap, MutatorCalls, Refusal,
};
use std::alloc::Global;
use std::marker::Brand;
use std::sync::Wait;
use std::thread;
use std::thread::Threads;
use tokens::{BlankCell, CellName};

/// Buffers of a page of 64 words; a thread collects only if few frames are free.
const POLICY: Policy = Policy {
    words: 64,
    free: 4,
    percent: 75,
};

/// A thread allocates an object in a portion, and copies and compares the register in two more. Returns 1 if the
/// registers refer to one object.
fn work<N: CellName, R: Wait>(
    rt: &R,
    alloc: Global,
    shared: &KnownHeap<N>,
    seat: KnowingSeat<N>,
) -> (KnowingSeat<N>, u32) {
    let (seat, made) = shared.with(rt, seat, move |mutator| mutator.make(alloc, POLICY, 0, 0));
    let (seat, same) = copied(rt, shared, seat);
    let count = u32::from(made.is_ok() && same == Some(true));
    (seat, count)
}

/// Two threads work, parts of a collection are done, and one of them works again. Returns how often registers
/// referred to one object.
fn rounds<N: CellName + Send + Sync, R: Threads + Wait + Sync>(
    rt: &R,
    alloc: Global,
    shared: &KnownHeap<N>,
    a: KnowingSeat<N>,
    b: KnowingSeat<N>,
    collector: CollectorSeat,
) -> u32 {
    let (x, y) = thread::join(
        rt,
        move || work(rt, alloc, shared, a),
        move || work(rt, alloc, shared, b),
    );
    let mut collector = collector;
    let part = shared.collect_some(rt, alloc, &mut collector, 75, 16);
    let (seat, again) = work(rt, alloc, shared, x.0);
    let numbers = (seat.thread() == 0) && (y.0.thread() == 1);
    let counted = x.1.saturating_add(y.1).saturating_add(again);
    if part.is_ok() && numbers { counted } else { 0 }
}

/// Two threads share a heap. Returns how often registers referred to one object.
fn both<N: CellName + Send + Sync, R: Threads + Wait + Sync>(
    rt: &R,
    alloc: Global,
    blank: BlankCell,
    heap: ManagedHeap,
) -> Result<u32, Refusal>
    requires { blank ≡ N.table }
{
    let (shared, seats) = match KnownHeap::<N>::open(rt, alloc, blank, heap) {
        Ok(opened) => opened,
        Err(fault) => return Err(fault.refusal),
    };
    let KnowingSeats { threads, collector } = seats;
    let mut threads = threads;
    let b = threads.pop();
    let a = threads.pop();
    let (Some(a), Some(b)) = (a, b) else {
        return Ok(0);
    };
    let counted = rounds(rt, alloc, &shared, a, b, collector);
    drop(shared.into_heap());
    Ok(counted)
}

/// The same, with a cell that is made for it.
pub(crate) fn shares<R: Threads + Wait + Sync>(
    rt: &R,
    alloc: Global,
    heap: ManagedHeap,
) -> Result<u32, Refusal> {
    let Ok(blank) = BlankCell::new(alloc) else {
        return Err(Refusal::Memory);
    };
    both::<Brand, R>(rt, alloc, blank, heap)
}
