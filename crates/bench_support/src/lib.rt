//! What benches and soaks have in common: the works that a command line names, and how long each took.
#![tactic(auto)]

mod laps;
mod words;

pub use laps::{Lap, Laps, since};
pub use words::{Bench, Work, benches, tell, works};
