//! The calls of the loops. They have no contracts: the proof of a loop over a `Heap` or a `Book` itself would include
//! all promises of each step, and take minutes.

use cycle::{Actor, Book, Reply, Step, Stepping};
use heap::Heap;

/// The one thread of each heap.
pub const THREAD: Actor = Actor::Thread(0);

/// The one worker of each heap.
pub const WORKER: Actor = Actor::Worker(0);

/// Steps on a heap, or on a recorded heap.
pub trait Steps {
    /// Does a step of an actor. A rejected step changes nothing.
    fn step(&mut self, actor: Actor, step: Step) -> Reply;

    /// Returns the current heap.
    fn heap(&self) -> &Heap;
}

impl Steps for Heap {
    #[inline(always)]
    fn step(&mut self, actor: Actor, step: Step) -> Reply {
        Stepping::step(self, actor, &step)
    }

    #[inline(always)]
    fn heap(&self) -> &Heap {
        self
    }
}

impl Steps for Book {
    #[inline(always)]
    fn step(&mut self, actor: Actor, step: Step) -> Reply {
        self.act(actor, step)
    }

    #[inline(always)]
    fn heap(&self) -> &Heap {
        Book::heap(self)
    }
}

/// Steps on a heap, and calls.
pub trait Calls: Steps {
    /// Borrows the heap for changes.
    fn heap_mut(&mut self) -> &mut Heap;
}

impl Calls for Heap {
    #[inline(always)]
    fn heap_mut(&mut self) -> &mut Heap {
        self
    }
}
