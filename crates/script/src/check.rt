//! Runs of scripts in which the heap is verified after every step.

mod faults;
mod schedule;
mod steps;

pub use faults::FaultText;
pub use schedule::{Checked, by_check};
pub use steps::verify_book;
