//! An actor's steps, decided one after another.

use cycle::{Reply, Step};
use heap::Heap;

/// Decides the steps of an actor, one after another.
pub trait Steps {
    /// Returns the next step for the heap in its present state, or `None` if there is nothing to do.
    fn next(&mut self, heap: &Heap) -> Option<Step>;

    /// Receives the reply to that step, and the heap after it. Returns whether to go on, also after a rejected step,
    /// if that is passed over.
    fn note(&mut self, heap: &Heap, reply: Reply) -> bool;
}
