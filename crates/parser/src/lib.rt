//! Scripts: from bytes to a configuration and commands, or to the first fault.
#![tactic(auto)]

mod commands;
mod fault;
mod heading;
mod limits;
mod number_list;
mod order;
mod reading;
mod script;
mod spots;
mod verbs;
mod words;

pub use fault::{FaultKind, LineFault, ParseFault};
pub use number_list::NumberList;
pub use order::{Command, Order, Then};
pub use script::{MOST_BYTES, Script, one_first_line, one_reading, parse};
pub use spots::Spots;
pub use verbs::Verb;
