//! A list of numbers that finds the first one of at least some size in logarithmic time.
#![tactic(auto)]

mod tournament;

pub use tournament::Tournament;
