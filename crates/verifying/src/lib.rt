//! The verifier for the heap of a program.
#![tactic(auto)]

mod held;

pub use held::verify_held;
