//! The calls of a driver on a heap. They have no contracts: the proof of a loop over a `Heap` or a `Book` itself
//! would include all promises of each step.

use cycle::{Actor, Book, Reply, Step, Stepping};
use heap::Heap;
use heap_images::verify;
use script::verify_book;
use std::alloc::{AllocError, Global};
use verify::Verdict;

/// A heap that is driven, or a recorded heap.
pub trait Driven {
    /// Does a step of an actor. A rejected step changes nothing.
    fn act(&mut self, actor: Actor, step: Step) -> Reply;

    /// Returns the current heap.
    fn heap(&self) -> &Heap;

    /// Returns the verifier's verdict.
    fn verdict(&self, alloc: Global) -> Result<Verdict, AllocError>;
}

impl Driven for Heap {
    fn act(&mut self, actor: Actor, step: Step) -> Reply {
        self.step(actor, &step)
    }

    fn heap(&self) -> &Heap {
        self
    }

    fn verdict(&self, alloc: Global) -> Result<Verdict, AllocError> {
        verify(alloc, self)
    }
}

impl Driven for Book {
    fn act(&mut self, actor: Actor, step: Step) -> Reply {
        Book::act(self, actor, step)
    }

    fn heap(&self) -> &Heap {
        Book::heap(self)
    }

    fn verdict(&self, alloc: Global) -> Result<Verdict, AllocError> {
        verify_book(alloc, self)
    }
}
