//! A heap whose type guarantees the theorem, for any number of steps.
//!
//! A `ManagedHeap` is the result of accepted steps from the first heap of its configuration. It represents the
//! reference model after these steps, which never moves or frees an object, and each step has returned the answer of
//! that model. This is the invariant of the type; the history of the steps exists only in the proof. A program
//! changes it by the calls here, by `Mutate` and by `step`; it reads it by `heap`, which allows no edit.
#![tactic(auto)]

mod batches;
mod bytewise;
mod collecting;
mod copier;
mod crossing;
mod data;
mod emptying;
mod found;
mod loading;
mod managed;
mod mutating;
mod preparing;
mod scanning;
mod scrubbing;
mod threading;
mod transfer;

pub use batches::{FieldLoad, LoadsFault};
pub use cycle::Stepping;
pub use heap::{Config, Heap, NewFault, Refusal};
pub use managed::ManagedHeap;
pub use model::{Actor, Answer, Buffer, PageList, Reply, Step, Trap};
pub use mutating::Mutate;
