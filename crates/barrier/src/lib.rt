//! The read barrier: a load opens a barrier, traps correct its reference, its place is healed, and the load ends.
//! Each is a step; other threads act between them.
#![tactic(auto)]

mod ending;
mod loading;
mod traps;

pub use ending::{finish, heal, may_finish};
pub use loading::{load, load_global};
pub use traps::{trap, trap_due};
