//! Runs of scripts on one thread, and the text that they print. `by_check` verifies the heap after every step.
#![tactic(auto)]

mod check;
mod doing;
mod fault;
mod schedule;
mod writing;

pub use check::{Checked, FaultText, by_check, verify_book};
pub use fault::RunFault;
pub use parser::{
    Command, FaultKind, LineFault, MOST_BYTES, Order, ParseFault, Script, Then, Verb, parse,
};
pub use schedule::{by_schedule, new_book, tell_command};
pub use verify::{Fault, Root, Verdict};
pub use writing::{report, tell};
