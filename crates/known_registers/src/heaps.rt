//! A heap under a lock, and the portions of threads whose registers their seats have.

ghost use Rattle.std.specs.Prelude.{◌≡◌};
ghost use Rattle.std.specs.Fn.{FnOnceReturnsAtMut, FnOnceTakesAtMut};
ghost use Rattle.managed.specs.Managing.{Promises};
ghost use Rattle.portions.specs.Portions.{CollectsBetween, GoesOn, MutatorState};
ghost use Rattle.known_registers.specs.Knowing.{FindsOwn, LeavesOwn};

use crate::desk::{Desk, run};
use crate::seats::KnowingSeat;
use portions::{CollectorSeat, ManagedHeap, Mutator, Refusal};
use std::alloc::Global;
use std::sync::{Mutex, Wait};
use tokens::CellName;

/// A heap that threads share. Each thread's registers are at the beginning of a portion what they were at the end of
/// its last one, by contract. `N` names the cell that relates the seats to the heap.
#[derive(Drop)]
pub struct KnownHeap<N: CellName> {
    desk: Mutex<Desk<N>>,
}

impl<N: CellName> KnownHeap<N> {
    /// Returns a heap under a lock.
    pub(crate) fn of(desk: Desk<N>) -> KnownHeap<N> {
        KnownHeap {
            desk: Mutex::new(desk),
        }
    }

    /// Returns the heap, which is no longer shared.
    pub fn into_heap(self) -> ManagedHeap
        ensures { Promises result }
    {
        let heap = self.desk.into_inner().into_heap();
        heap.law();
        heap
    }

    /// Does the next part of a collection between two portions, and fails, as `SharedHeap::collect_some`. It changes
    /// no register of any thread.
    pub fn collect_some<R: Wait>(
        &self,
        rt: &R,
        alloc: Global,
        seat: &mut CollectorSeat,
        percent: u32,
        budget: u32,
    ) -> Result<bool, Refusal>
        ensures { (m : MutatorState) × CollectsBetween percent budget seat.old seat.new result m }
    {
        let mut desk = self.desk.lock(rt);
        desk.collect_some(alloc, seat, percent, budget)
    }

    /// Does a portion of a seat's thread: calls `f`. It begins with the registers in the seat; the seat that it
    /// returns has those at the end of `f`. `f` must leave other threads' registers as they are, as each call of a
    /// mutator does.
    pub fn with<R: Wait, T, F: FnOnce(&mut Mutator) -> T>(
        &self,
        rt: &R,
        seat: KnowingSeat<N>,
        f: F,
    ) -> (KnowingSeat<N>, T)
        requires calls { (m : MutatorState) → FindsOwn seat m → FnOnceTakesAtMut F.FnOnce f m }
        requires keeps { (m n : MutatorState) (r : T) → FindsOwn seat m → FnOnceReturnsAtMut F.FnOnce f m r n
            → GoesOn m n }
        ensures did { (m n : MutatorState) × FindsOwn seat m × LeavesOwn n result.0
            × FnOnceReturnsAtMut F.FnOnce f m result.1 n }
        ensures seat { result.0.thread ≡ seat.thread }
    {
        let mut desk = self.desk.lock(rt);
        run(rt, &mut desk, seat, f)
    }
}
