//! Callbacks before and after each step, outside the lock.

use cycle::{Actor, Step};

/// Callbacks before and after each step, outside the lock. They may delay the thread that calls them.
pub trait Gate {
    /// Whether each step takes the lock once, between `before` and `after`. If not, a worker does several steps that
    /// scan under one hold of the lock, and makes no callbacks for these.
    const WATCHES: bool = true;

    /// Called before a step of an actor.
    fn before(&self, actor: Actor, step: &Step);

    /// Called after the step, when it has its reply.
    fn after(&self, actor: Actor, step: &Step);
}

/// A gate whose callbacks do nothing.
pub struct OpenGate;

impl Gate for OpenGate {
    const WATCHES: bool = false;

    fn before(&self, _actor: Actor, _step: &Step) {}

    fn after(&self, _actor: Actor, _step: &Step) {}
}
