//! A heap in a portion of a thread.

ghost use Rattle.std.specs.Prelude.{◌≡◌};
ghost use Rattle.managed.specs.Collecting.{StandsUnseen};
ghost use Rattle.portions.specs.Apart.{IsApart, IsStill};
ghost use Rattle.portions.specs.Portions.{Begins, GoesOn, HoldsInPortion};

use crate::seats::ThreadSeat;
use managed::{ManagedHeap, Mutate};
use std::marker::Model;
use viewing::View;

/// A heap that threads share, in a portion of one thread. Between portions all threads are parked. In a portion
/// only its thread runs; no thread is inside a load, and no checkpoint is open.
#[derive(Drop)]
pub struct Mutator {
    pub(crate) heap: ManagedHeap,
    pub(crate) thread: u32,
    rests: u32,
}

impl Model for Mutator {
    ghost use Rattle.portions.specs.Portions.{MutatorState};
    ghost use Rattle.portions.specs.Views.{mutator_of, IsMutator};

    ghost Value = { MutatorState };

    ghost view = { mutator_of };

    ghost invariant = { IsMutator };
}

impl Mutator {
    /// Makes a portion of thread 0 in which nothing is done yet.
    pub(crate) fn new(heap: ManagedHeap) -> Mutator
        requires { IsApart heap 0 }
        ensures { result.heap ≡ heap }
    {
        Mutator {
            heap,
            thread: 0,
            rests: 0,
        }
    }

    /// Returns the heap, without the portion.
    pub fn into_heap(self) -> ManagedHeap
        ensures { result ≡ self.heap }
    {
        self.heap
    }

    /// Begins a portion of a thread: the thread runs, and its registers name no page that is being emptied, or was.
    pub(crate) fn begin(&mut self, thread: u32)
        ensures begins { Begins thread self.new }
        ensures same { StandsUnseen self.old.heap self.new.heap }
    {
        self.leave();
        self.thread = thread;
        self.rests = 0;
        let _ = self.heap.unpark(thread);
        self.heap.scrub_all();
    }

    /// Begins a portion of a seat's thread, for a program that has the heap under its own lock: the thread runs, and
    /// its registers name no page that is being emptied, or was. A portion that hasn't ended ends before.
    pub fn enter(&mut self, seat: &mut ThreadSeat)
        ensures begins { Begins seat.old self.new }
        ensures holds { HoldsInPortion self.new }
        ensures same { StandsUnseen self.old.heap self.new.heap }
        ensures seat { seat.new ≡ seat.old }
    {
        self.begin(seat.thread);
        self.law();
    }

    /// Ends the portion: parks its thread.
    pub fn leave(&mut self)
        ensures on { GoesOn self.old self.new }
        ensures still { IsStill self.new.heap }
        ensures same { StandsUnseen self.old.heap self.new.heap }
    {
        let _ = self.heap.park(self.thread);
    }

    /// Counts one more rest of the portion, up to 2^32 - 1, and returns how many there were before.
    #[inline(always)]
    pub(crate) fn rests(&mut self) -> u32
        ensures { self.new ≡ self.old }
    {
        let rests = self.rests;
        self.rests = rests.saturating_add(1);
        rests
    }

    /// Returns the number of the portion's thread, from 0.
    pub fn thread(&self) -> u32
        ensures { result ≡ self.now.thread }
    {
        self.thread
    }

    /// Returns the heap in its current state, for reading.
    pub fn heap(&self) -> &ManagedHeap
        ensures { result.now ≡ self.now.heap }
    {
        &self.heap
    }

    /// Returns a view of the complete heap in its current state, for any number of threads that have the heap for
    /// reading.
    pub fn view(&self) -> View<'_>
        ensures { result ≡ self.now.heap }
    {
        View::of(&self.heap)
    }

    /// Proves the conditions of a portion. It changes nothing and can't fail.
    pub fn law(&self)
        ensures { HoldsInPortion self.now }
    {
        self.heap.law();
    }
}
