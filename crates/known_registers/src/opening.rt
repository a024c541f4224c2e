//! Sharing a heap: each of its seats gets a token.

ghost use Rattle.std.specs.Prelude.{◌≡◌, map, IfOk};
ghost use Rattle.std.specs.List.{range_with_len};
ghost use Rattle.known_registers.specs.Knowing.{thread_of};

use crate::desk::Desk;
use crate::heaps::KnownHeap;
use crate::seats::KnowingSeat;
use portions::{CollectorSeat, ManagedHeap, Mutator, OpenFault, Refusal, Seats, ThreadSeat};
use std::alloc::{AllocError, Global};
use std::sync::Wait;
use tokens::{BlankCell, CellName, KeeperToken};

/// Returns the seats with a token for each. Fails only if out of memory.
pub(crate) fn knowing_seats<N: CellName>(
    alloc: Global,
    keeper: &mut KeeperToken<N>,
    seats: Vec<ThreadSeat>,
    count: u32,
) -> Result<Vec<KnowingSeat<N>>, AllocError>
    requires dealt { keeper.old.dealt ≡ 0 }
    requires seats { seats.items ≡ range_with_len 0 count }
    ensures rows { keeper.new.rows ≡ keeper.old.rows }
    ensures threads { IfOk result (λ knowing. map thread_of knowing.items ≡ range_with_len 0 count) }
{
    let mut knowing = Vec::with_capacity(alloc, count as usize)?;
    for seat in seats {
        let token = keeper.deal();
        knowing.push(KnowingSeat { seat, token })?;
    }
    Ok(knowing)
}

/// The seats of a shared heap.
#[derive(Drop)]
pub struct KnowingSeats<N: CellName> {
    /// The seat of each thread of the heap, by thread number.
    pub threads: Vec<KnowingSeat<N>>,
    /// The seat of the worker that collects.
    pub collector: CollectorSeat,
}

impl<N: CellName> KnownHeap<N> {
    /// Shares a heap, and makes its seats, each with its thread's registers. Its threads are parked, and stay so
    /// between portions. `blank` is the cell that `N` names.
    ///
    /// Fails with `Pending` if a thread is inside a load, and with `Memory` if out of memory; the fault has the heap.
    pub fn open<R: Wait>(
        rt: &R,
        alloc: Global,
        blank: BlankCell,
        heap: ManagedHeap,
    ) -> Result<(KnownHeap<N>, KnowingSeats<N>), OpenFault>
        requires { blank ≡ N.table }
        ensures { IfOk result (λ both. map thread_of both.1.threads.items ≡ range_with_len 0 heap.config.threads) }
    {
        let count = heap.heap().config().threads;
        let (mutator, seats) = match Mutator::open(alloc, heap) {
            Ok(opened) => opened,
            Err(fault) => return Err(fault),
        };
        let Seats { threads, collector } = seats;
        let mut desk = Desk::new(rt, blank, mutator);
        match desk.seat_all(alloc, threads, count) {
            Ok(threads) => Ok((KnownHeap::of(desk), KnowingSeats { threads, collector })),
            Err(_) => Err(OpenFault {
                heap: desk.into_heap(),
                refusal: Refusal::Memory,
            }),
        }
    }
}
