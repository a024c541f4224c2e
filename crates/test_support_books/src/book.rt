//! Recorded heaps of one thread.

use cycle::{Actor, Book, Reply, Step};
use heap::NewFault;
use std::alloc::Global;
use test_support_samples::small;

/// Returns a new recorded heap of the small configuration.
pub fn small_book(alloc: Global) -> Result<Book, NewFault> {
    Book::new(alloc, small(alloc)?)
}

/// Does a step of a recorded heap. It has no contract, so that the proofs of tests with many steps are short.
pub fn act(book: &mut Book, actor: Actor, step: Step) -> Reply {
    book.act(actor, step)
}

/// A recorded heap that can be borrowed. Tests pass theirs as one, since a proof with a `Book` that lives over
/// several calls takes long.
pub trait HeldBook {
    /// Borrows the recorded heap.
    fn book(&mut self) -> &mut Book;
}

impl HeldBook for Book {
    fn book(&mut self) -> &mut Book {
        self
    }
}
