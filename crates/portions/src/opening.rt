//! Sharing a heap: its threads are parked, and each gets a seat.

ghost use Rattle.std.specs.Prelude.{◌≡◌, None, false, IfOk};
ghost use Rattle.std.specs.List.{range_with_len};
ghost use Rattle.portions.specs.Apart.{AllStill, IsApart, IsStillAt};

use crate::mutator::Mutator;
use crate::seats::{CollectorSeat, ThreadSeat, thread_seats};
use crate::settling::settle;
use crate::shared::SharedHeap;
use collecting::Parts;
use heap::Heap;
use managed::{ManagedHeap, Mutate};
use model::Refusal;
use std::alloc::Global;

/// The seats of a shared heap.
#[derive(Drop)]
pub struct Seats {
    /// The seat of each thread of the heap, by their numbers.
    pub threads: Vec<ThreadSeat>,
    /// The seat of the worker that collects.
    pub collector: CollectorSeat,
}

/// A heap that couldn't be shared, and why.
#[derive(Drop)]
pub struct OpenFault {
    /// The heap. Its threads are parked, except those inside a load.
    pub heap: ManagedHeap,
    /// `Pending` for a thread that is inside a load, `NoActor` if the heap has no worker, and `Memory`.
    pub refusal: Refusal,
}

/// Returns whether a thread runs or is inside a load.
fn is_busy(heap: &Heap, thread: u32) -> bool
    ensures { result ≡ false → IsStillAt heap.now thread }
{
    if heap.is_parked(thread) {
        heap.barrier(thread).is_some()
    } else {
        true
    }
}

/// Returns the first thread that runs or is inside a load.
fn first_busy(heap: &Heap) -> Option<u32>
    ensures { result ≡ None → AllStill heap.now }
{
    heap.law();
    for thread in 0..heap.config().threads {
        if is_busy(heap, thread) {
            return Some(thread);
        }
    }
    None
}

/// Parks all threads that aren't inside a load.
fn park_each(heap: &mut ManagedHeap) {
    for thread in 0..heap.heap().config().threads {
        let _ = heap.park(thread);
    }
}

/// Parks all threads, and has them cross the open checkpoint, if there is one.
fn park_all(heap: &mut ManagedHeap) -> Result<(), Refusal>
    ensures { IfOk result (λ _. IsApart heap.new 0) }
{
    park_each(heap);
    if let Some(thread) = first_busy(heap.heap()) {
        return Err(Refusal::Pending { thread });
    }
    if heap.heap().config().workers == 0 {
        return Err(Refusal::NoActor);
    }
    settle(heap, 0);
    Ok(())
}

impl Mutator {
    /// Parks a heap's threads, and makes its seats, for a program that has the heap under its own lock; other
    /// programs share it by `SharedHeap::open`.
    ///
    /// Fails with `Pending` if a thread is inside a load, and with `Memory`; the fault has the heap.
    pub fn open(alloc: Global, heap: ManagedHeap) -> Result<(Mutator, Seats), OpenFault>
        ensures { IfOk result (λ both. both.1.threads.items ≡ range_with_len 0 heap.config.threads) }
    {
        let threads = heap.heap().config().threads;
        let Ok(threads) = thread_seats(alloc, threads) else {
            return Err(OpenFault {
                heap,
                refusal: Refusal::Memory,
            });
        };
        let mut heap = heap;
        if let Err(refusal) = park_all(&mut heap) {
            return Err(OpenFault { heap, refusal });
        }
        let collector = CollectorSeat {
            parts: Parts::new(alloc),
            has_begun: false,
        };
        Ok((Mutator::new(heap), Seats { threads, collector }))
    }
}

impl SharedHeap {
    /// Shares a heap, and makes its seats. Its threads are parked, and stay so between portions. A portion lasts for
    /// `rests` calls of `rest` at least while others want the heap; some thousand steps make good portions.
    ///
    /// Fails with `Pending` if a thread is inside a load, and with `Memory`; the fault has the heap.
    pub fn open(
        alloc: Global,
        heap: ManagedHeap,
        rests: u32,
    ) -> Result<(SharedHeap, Seats), OpenFault>
        ensures { IfOk result (λ both. both.1.threads.items ≡ range_with_len 0 heap.config.threads) }
    {
        match Mutator::open(alloc, heap) {
            Ok((mutator, seats)) => Ok((SharedHeap::with_mutator(mutator, rests), seats)),
            Err(fault) => Err(fault),
        }
    }
}
