//! The calls of a thread on a shared heap, with typed numbers.
#![tactic(auto)]

mod acting;
mod calls;

pub use calls::PortionCalls;
