//! The calls of a film on a recorded heap. They have no contracts: the proof of a loop over a `Book` itself would
//! include all promises of each step.

use cycle::{Actor, Book, History, Reply, Step};
use heap::Heap;

/// A recorded heap whose states are written.
pub trait Filmed {
    /// Does a step of an actor. A rejected step changes nothing.
    fn act(&mut self, actor: Actor, step: Step) -> Reply;

    /// Returns the current heap.
    fn heap(&self) -> &Heap;

    /// Returns the accepted steps so far.
    fn history(&self) -> &History;
}

impl Filmed for Book {
    fn act(&mut self, actor: Actor, step: Step) -> Reply {
        Book::act(self, actor, step)
    }

    fn heap(&self) -> &Heap {
        Book::heap(self)
    }

    fn history(&self) -> &History {
        Book::history(self)
    }
}
