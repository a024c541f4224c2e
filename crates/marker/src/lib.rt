//! Marks: their start, workers that scan grey objects and globals, and their end.
#![tactic(auto)]

mod cycles;
mod marks;
mod next;
mod scans;

pub use cycles::{end_mark, start_mark};
pub use marks::mark;
pub use next::next_todo;
pub use scans::{is_taken, pick, scan_field, scan_global};
