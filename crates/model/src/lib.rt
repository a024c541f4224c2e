//! Types that all crates of the heap share: actors, steps, answers, errors, and the records of a heap's state. The
//! definitions over them are in `specs/`.
//!
//! `docs/ALGORITHM.md` has the rules, and where each comes from.
#![tactic(auto)]

mod config;
mod limits;
mod records;
mod steps;

pub use config::{Config, ConfigFault};
pub use limits::{
    MOST_BIRTHS, MOST_FIELDS, MOST_FRAMES, MOST_GLOBALS, MOST_HISTORY, MOST_LAYOUTS, MOST_PAGES,
    MOST_REGISTERS, MOST_THREADS, MOST_WORDS, MOST_WORKERS, USUAL_GLOBALS, USUAL_REGISTERS,
};
pub use records::{
    Barrier, Buffer, Counter, Forwarding, Global, Page, PageState, Phase, Place, Room, Scan, Tally,
};
pub use steps::{Actor, Answer, PageList, Refusal, Reply, Step, Trap};
