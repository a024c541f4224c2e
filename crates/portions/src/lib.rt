//! A heap that system threads share: a lock, a seat for each thread, and many steps of a thread under one hold. The
//! steps of a hold are a portion.
#![tactic(auto)]

mod acting;
mod calls;
mod collector;
mod mutator;
mod opening;
mod pace;
mod seats;
mod settling;
mod shared;
mod threading;

pub use calls::MutatorCalls;
pub use managed::ManagedHeap;
pub use model::Refusal;
pub use mutator::Mutator;
pub use opening::{OpenFault, Seats};
pub use seats::{CollectorSeat, ThreadSeat};
pub use shared::SharedHeap;
pub use viewing::{Handle, View};
