//! Threads on a shared heap that know, by contract, what their last portion left in their registers.
#![tactic(auto)]

mod desk;
mod heaps;
mod opening;
mod seats;

pub use heaps::KnownHeap;
pub use opening::KnowingSeats;
pub use portions::{CollectorSeat, ManagedHeap, Mutator, MutatorCalls, OpenFault, Refusal};
pub use seats::KnowingSeat;
pub use tokens::{BlankCell, CellName};
