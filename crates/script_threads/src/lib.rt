//! Runs of scripts in which each actor has a system thread, and the text that they print.
#![tactic(auto)]

mod collector;
mod gate;
mod mutator;
mod run;
mod running;
mod scanner;
mod scanning;
mod sums;
mod telling;

pub use gate::{Gate, OpenGate};
pub use running::{ThreadsFault, by_threads};
pub use sums::{Sums, SumsLine, add_up};
pub use telling::{tell_stray, tell_threads};
