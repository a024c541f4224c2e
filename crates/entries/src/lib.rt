//! Histories: accepted steps of actors with their answers, oldest first.
//!
//! An entry takes 32 bytes and owns no memory, unless it is that of `Protect` or its answer doesn't belong to its
//! step. Those few are stored in full in a list of their own, so the time to free a history depends on them alone.
//! The entries are in blocks, which aren't moved as more entries come.
//!
//! An actor's part of a history is the list of its own entries, in order: `part` copies it, and `is_part` compares a
//! list with it.
#![tactic(auto)]

mod actors;
mod blocks;
mod codes;
mod entry;
mod event;
mod history;
mod matching;
mod steps;

pub use actors::{is_before, is_same};
pub use entry::{Entry, EntryRef};
pub use history::History;
pub use matching::{actor_at, is_part, part};
pub use steps::{again, are_same};
