//! Tokens whose ghost values are the registers of threads. A keeper's token has those of all threads, and each thread's
//! token has its own. The registers in a thread's token stay the same until this token is passed to a call that changes
//! them.
#![tactic(auto)]

pub mod cells;
mod tokens;

pub use cells::{CellName, Telling};
pub use tokens::{BlankCell, KeeperToken, ThreadToken};
