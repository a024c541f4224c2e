//! Samples that several tests share: configurations, their numbers, and pseudorandom numbers.
#![tactic(auto)]

mod dice;

pub use dice::Dice;
use layout::{Layout, Layouts};
use model::Config;
use std::alloc::{AllocError, Global};

/// One page of 16 words, one thread with two registers, and one layout of two data.
pub fn small(alloc: Global) -> Result<Config, AllocError> {
    let layouts = vec![in alloc; Layout { refs: 0, nums: 2 }]?;
    Ok(Config {
        words: 16,
        frames: 1,
        pages: 1,
        threads: 1,
        workers: 1,
        registers: 2,
        globals: 0,
        layouts: Layouts::new(layouts),
        births: 1 << 32,
        history: 1_000_000,
    })
}

/// One page of 16 words, one thread with 16 registers, and one layout of one reference.
pub fn linked(alloc: Global) -> Result<Config, AllocError> {
    let layouts = vec![in alloc; Layout { refs: 1, nums: 0 }]?;
    Ok(Config::new(16, 1, Layouts::new(layouts)))
}

/// Three frames of 16 words and 8 page numbers, two threads with 4 registers, a worker, a global, and one layout of a
/// reference and a datum.
pub fn shared_by_two(alloc: Global) -> Result<Config, AllocError> {
    let layouts = vec![in alloc; Layout { refs: 1, nums: 1 }]?;
    Ok(Config {
        words: 16,
        frames: 3,
        pages: 8,
        threads: 2,
        workers: 1,
        registers: 4,
        globals: 1,
        layouts: Layouts::new(layouts),
        births: 1 << 32,
        history: 1_000_000,
    })
}

/// The numbers of a configuration except its limits of births and entries.
pub fn sizes(config: &Config) -> [u32; 7] {
    [
        config.words,
        config.frames,
        config.pages,
        config.threads,
        config.workers,
        config.registers,
        config.globals,
    ]
}

/// Returns the next number of a pseudorandom sequence.
pub fn scatter(number: u64) -> u64 {
    number
        .wrapping_mul(6_364_136_223_846_793_005)
        .wrapping_add(1_442_695_040_888_963_407)
}
