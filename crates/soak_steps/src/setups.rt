//! The heaps that are driven, and how.

use heap::Config;
use layout::{Layout, Layouts};
use std::alloc::{AllocError, Global};

/// How a heap is driven.
#[derive(Clone, Copy)]
pub struct Habits {
    /// An uncrossed thread without an open load crosses with one step in this many; 1 is at once.
    pub lateness: u64,
    /// Pages are also copied by one step, and marks start while objects are uncopied.
    pub rolls: bool,
    /// One step in this many is nonsense: it may be rejected with any error.
    pub nonsense: u64,
}

/// Each thread crosses at once, entries are copied one by one, and a mark starts after the last copy.
const PLAIN: Habits = Habits {
    lateness: 1,
    rolls: false,
    nonsense: 64,
};

/// Threads continue before they cross, pages are also copied by one step, and marks start while objects move.
const ROLLING: Habits = Habits {
    lateness: 2,
    rolls: true,
    nonsense: 16,
};

/// Returns layouts with these numbers of references and data.
fn layouts(alloc: Global, fields: &[(u16, u16)]) -> Result<Layouts, AllocError> {
    let mut layouts = Vec::with_capacity(alloc, fields.len())?;
    for (refs, nums) in fields.iter().copied() {
        layouts.push(Layout { refs, nums })?;
    }
    Ok(Layouts::new(layouts))
}

/// Returns a configuration with this number of words a page, frames, page numbers, threads, workers, registers and
/// globals, and the greatest limits of births and entries.
fn config(sizes: [u32; 7], layouts: Layouts) -> Config {
    let [words, frames, pages, threads, workers, registers, globals] = sizes;
    Config {
        words,
        frames,
        pages,
        threads,
        workers,
        registers,
        globals,
        layouts,
        births: 1 << 32,
        history: 1_000_000,
    }
}

/// The heap of the documents' examples: three frames of 16 words, and objects of three.
fn rows(alloc: Global) -> Result<Config, AllocError> {
    Ok(config([16, 3, 8, 2, 1, 4, 1], layouts(alloc, &[(1, 1)])?))
}

/// The smallest heap in which an object can move.
fn smallest(alloc: Global) -> Result<Config, AllocError> {
    Ok(config([16, 2, 2, 1, 1, 3, 1], layouts(alloc, &[(1, 1)])?))
}

/// Some pages of each state at once, and objects of several sizes.
fn several(alloc: Global) -> Result<Config, AllocError> {
    let fields = [(1, 1), (0, 3), (3, 0), (8, 5)];
    Ok(config([64, 12, 40, 4, 3, 6, 4], layouts(alloc, &fields)?))
}

/// Pages whose bitmaps have many words, and so forwarding tables of more than a hundred entries.
fn long(alloc: Global) -> Result<Config, AllocError> {
    let fields = [(1, 1), (2, 0), (30, 20)];
    Ok(config([1024, 8, 12, 3, 2, 8, 2], layouts(alloc, &fields)?))
}

/// Six threads, and fewer page numbers than twice the frames.
fn many(alloc: Global) -> Result<Config, AllocError> {
    let fields = [(2, 1), (0, 1)];
    Ok(config([32, 24, 40, 6, 4, 12, 8], layouts(alloc, &fields)?))
}

/// Returns a heap by its name, and how it is driven; `None` if no heap has the name.
pub fn setup(alloc: Global, name: &str) -> Result<Option<(Config, Habits)>, AllocError> {
    Ok(Some(match name {
        "rows" => (rows(alloc)?, PLAIN),
        "rolling" => (rows(alloc)?, ROLLING),
        "smallest" => (smallest(alloc)?, ROLLING),
        "several" => (several(alloc)?, ROLLING),
        "long" => (long(alloc)?, ROLLING),
        "many" => (many(alloc)?, ROLLING),
        _ => return Ok(None),
    }))
}
