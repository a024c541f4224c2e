//! What benches of threads that share a heap have in common: what they do on cells, threads alongside a collector, and
//! their waits and holds.
#![tactic(auto)]

mod cells;
mod team;
mod timing;
mod watch;

pub use cells::{
    CELL, Cells, LENGTH, POLICY, PUSH_STEPS, STEPS, prepare, push, turn, turn_and_push,
};
pub use team::{Job, Shape, all_work, new_heap, opened};
pub use timing::{collected, laps};
pub use watch::{Watch, rest};
