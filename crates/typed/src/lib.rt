//! A heap that owns its policy and its counters, and whose calls take typed numbers. It also owns the increment of its
//! collection in parts.
//!
//! Numbers of a thread, a register, a field, a data word, a layout and a global have different types, so a program
//! that swaps two of different types does not compile. A typed number takes no more memory than the number.
#![tactic(auto)]

mod acting;
mod bulk;
mod calls;
mod numbers;
mod owning;
mod threading;

pub use bulk::BulkCalls;
pub use calls::HeapCalls;
pub use numbers::{Datum, Field, GlobalNumber, LayoutNumber, Register, Thread};
pub use owning::{TypedHeap, USUAL_BUDGET};
