//! The global roots of a heap, with the number of those that are grey: still to be marked.
#![tactic(auto)]

mod globals;

pub use globals::Globals;
