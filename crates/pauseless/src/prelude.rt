//! The names that most programs on the library use: `use pauseless::prelude::*`.
//!
//! It has the heap with its configuration, the trait `HeapCalls`, whose methods are the heap's calls, and the types of
//! the numbers that these take.

pub use collecting::{Collected, Policy};
pub use heap::{Config, Refusal};
pub use layout::{Layout, Layouts};
pub use typed::{
    BulkCalls, Datum, Field, GlobalNumber, HeapCalls, LayoutNumber, Register, Thread,
    TypedHeap as Heap,
};
