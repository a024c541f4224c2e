//! Addresses of objects that a worker may scan next, which other workers may steal. The promises of a mark don't depend
//! on these hints. No call takes a lock or waits.
#![tactic(auto)]

mod reach;
mod seat;

pub use seat::{HintSeat, Hints};
