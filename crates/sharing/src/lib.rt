//! A recorded heap that system threads share. Each actor has a seat with a list of its accepted steps, and `settle`
//! compares these lists with the history.
#![tactic(auto)]

mod opening;
mod seat;
mod settling;
mod shared;
mod steps;

pub use seat::Seat;
pub use settling::{Settled, Stray, settle};
pub use shared::Shared;
pub use steps::Steps;
