//! The mutator threads of a heap, with the number of those that haven't crossed the open checkpoint.
#![tactic(auto)]

mod thread;
mod threads;

pub use thread::Thread;
pub use threads::Threads;
