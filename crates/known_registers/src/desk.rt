//! The data under the lock.

ghost use Rattle.std.specs.Prelude.{◌≡◌, map, IfOk};
ghost use Rattle.std.specs.List.{range_with_len};
ghost use Rattle.std.specs.Fn.{FnOnceReturnsAtMut, FnOnceTakesAtMut};
ghost use Rattle.portions.specs.Portions.{CollectsBetween, GoesOn, MutatorState};
ghost use Rattle.tokens.specs.Rows.{ChangesOnly, row_of};
ghost use Rattle.known_registers.specs.Held.{births_held};
ghost use Rattle.known_registers.specs.Knowing.{FindsOwn, LeavesOwn, thread_of};

use crate::opening::knowing_seats;
use crate::seats::KnowingSeat;
use portions::{CollectorSeat, ManagedHeap, Mutator, Refusal, ThreadSeat};
use std::alloc::{AllocError, Global};
use std::marker::{Brand, Model};
use std::sync::Wait;
use tokens::{BlankCell, CellName, KeeperToken, ThreadToken};

/// A heap between portions, with the token of all registers.
#[derive(Drop)]
pub(crate) struct Desk<N: CellName> {
    mutator: Mutator,
    keeper: KeeperToken<N>,
}

impl<N: CellName> Model for Desk<N> {
    ghost use Rattle.std.specs.Prelude.{◌≡◌};
    ghost use Rattle.portions.specs.Portions.{MutatorState};
    ghost use Rattle.known_registers.specs.Held.{births_held};
    ghost use Rattle.known_registers.specs.Knowing.{DeskState};

    ghost Value = { DeskState };

    ghost view = { λ d. record { heap = d.mutator.heap; dealt = d.keeper.dealt } };

    ghost invariant = { λ d. d.keeper.rows ≡ births_held d.mutator.heap };
}

/// Returns the keeper's token of a heap, before any thread has a token.
fn begun<N: CellName, R: Wait>(rt: &R, blank: BlankCell, mutator: &Mutator) -> KeeperToken<N>
    requires { blank ≡ N.table }
    ensures { result ≡ record { rows = births_held mutator.now.heap; dealt = 0 } }
{
    KeeperToken::<N>::begin::<Brand, Mutator, R>(rt, blank, mutator)
}

/// Updates the tokens after a portion of a thread.
fn told<N: CellName, R: Wait>(
    rt: &R,
    keeper: &mut KeeperToken<N>,
    token: ThreadToken<N>,
    mutator: &Mutator,
) -> ThreadToken<N>
    requires { ChangesOnly token.thread keeper.old.rows (births_held mutator.now.heap) }
    ensures token { result ≡ record {
      thread = token.thread;
      registers = row_of (births_held mutator.now.heap) token.thread;
    } }
    ensures keeper { keeper.new ≡ record { rows = births_held mutator.now.heap; dealt = keeper.old.dealt } }
{
    keeper.tell::<Brand, Mutator, R>(rt, token, mutator)
}

/// Begins a portion of a seat's thread, whose registers are those in the seat.
fn find_own<N: CellName, R: Wait>(
    rt: &R,
    mutator: &mut Mutator,
    keeper: &mut KeeperToken<N>,
    seat: KnowingSeat<N>,
) -> KnowingSeat<N>
    requires { keeper.old.rows ≡ births_held mutator.old.heap }
    ensures own { FindsOwn seat mutator.new }
    ensures seat { result ≡ seat }
    ensures rows { keeper.new.rows ≡ births_held mutator.new.heap }
    ensures dealt { keeper.new.dealt ≡ keeper.old.dealt }
{
    let KnowingSeat { mut seat, token } = seat;
    mutator.law();
    mutator.enter(&mut seat);
    let token = keeper.find(rt, token);
    KnowingSeat { seat, token }
}

/// Ends a portion of a seat's thread, and updates the registers in the seat.
fn leave_own<N: CellName, R: Wait>(
    rt: &R,
    mutator: &mut Mutator,
    keeper: &mut KeeperToken<N>,
    seat: KnowingSeat<N>,
) -> KnowingSeat<N>
    requires { ChangesOnly seat.thread keeper.old.rows (births_held mutator.old.heap) }
    ensures own { LeavesOwn mutator.old result }
    ensures seat { result.thread ≡ seat.thread }
    ensures rows { keeper.new.rows ≡ births_held mutator.new.heap }
    ensures dealt { keeper.new.dealt ≡ keeper.old.dealt }
{
    mutator.law();
    let KnowingSeat { seat, token } = seat;
    let token = told(rt, keeper, token, mutator);
    mutator.leave();
    KnowingSeat { seat, token }
}

/// Does a portion of a seat's thread: calls `f`.
pub(crate) fn run<N: CellName, R: Wait, T, F: FnOnce(&mut Mutator) -> T>(
    rt: &R,
    desk: &mut Desk<N>,
    seat: KnowingSeat<N>,
    f: F,
) -> (KnowingSeat<N>, T)
    requires calls { (m : MutatorState) → FindsOwn seat m → FnOnceTakesAtMut F.FnOnce f m }
    requires keeps { (m n : MutatorState) (r : T) → FindsOwn seat m → FnOnceReturnsAtMut F.FnOnce f m r n → GoesOn m n }
    ensures did { (m n : MutatorState) × FindsOwn seat m × LeavesOwn n result.0
        × FnOnceReturnsAtMut F.FnOnce f m result.1 n }
    ensures seat { result.0.thread ≡ seat.thread }
{
    let seat = find_own(rt, &mut desk.mutator, &mut desk.keeper, seat);
    let result = f(&mut desk.mutator);
    let seat = leave_own(rt, &mut desk.mutator, &mut desk.keeper, seat);
    (seat, result)
}

impl<N: CellName> Desk<N> {
    /// Returns a heap with the keeper's token, before any thread has a token.
    pub(crate) fn new<R: Wait>(rt: &R, blank: BlankCell, mutator: Mutator) -> Desk<N>
        requires { blank ≡ N.table }
        ensures { result.dealt ≡ 0 }
    {
        let keeper = begun::<N, R>(rt, blank, &mutator);
        Desk { mutator, keeper }
    }

    /// Returns the heap alone.
    pub(crate) fn into_heap(self) -> ManagedHeap {
        self.mutator.into_heap()
    }

    /// Does a part of a collection, while all threads are parked. Fails as `Mutator::collect_some` does.
    pub(crate) fn collect_some(
        &mut self,
        alloc: Global,
        seat: &mut CollectorSeat,
        percent: u32,
        budget: u32,
    ) -> Result<bool, Refusal>
        ensures { (m : MutatorState) × CollectsBetween percent budget seat.old seat.new result m }
    {
        self.mutator.law();
        self.mutator.collect_some(alloc, seat, percent, budget)
    }

    /// Returns the seats with a token for each. Fails only if out of memory.
    pub(crate) fn seat_all(
        &mut self,
        alloc: Global,
        seats: Vec<ThreadSeat>,
        count: u32,
    ) -> Result<Vec<KnowingSeat<N>>, AllocError>
        requires dealt { self.old.dealt ≡ 0 }
        requires seats { seats.items ≡ range_with_len 0 count }
        ensures threads { IfOk result (λ knowing. map thread_of knowing.items ≡ range_with_len 0 count) }
    {
        knowing_seats(alloc, &mut self.keeper, seats, count)
    }
}
