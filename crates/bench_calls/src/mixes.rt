//! The mixes of steps that each form of calls does, and the heaps that they are done on. `bench/plain.rs`
//! has the same.
//!
//! | Mix | A turn | Steps |
//! |---|---|---|
//! | `data` | a datum is written, and read | 2 |
//! | `build` | an object is born, gets the last one as its reference, and is the last one then | 3 |
//! | `walk` | a reference is loaded (load, trap, finish), and tested for null | 4 |
//! | `registers` | a register is copied, compared, tested and cleared | 4 |
//! | `globals` | a global is stored, and loaded (load, trap, finish) | 4 |
//!
//! Beside these steps `build` takes and gives back a buffer for each page of objects, and `walk` goes
//! back to the head of its list where it ends.

use anyhow::Result;
use heap::Config;
use layout::{Layout, Layouts};
use std::alloc::Global;

/// The words of a page.
pub const WORDS: u32 = 4_096;

/// The objects of a page, of 3 words each.
pub const OBJECTS: u32 = 1_365;

/// The objects of the list that is walked.
pub const LIST: u32 = 1_000;

/// The register of the object that is used, or of the last one that was made.
pub const LAST: u32 = 0;

/// A second register.
pub const OTHER: u32 = 1;

/// What the turns of a loop do.
#[derive(Clone, Copy)]
pub enum Mix {
    Data,
    Build,
    Walk,
    Registers,
    Globals,
}

/// The mix of a name.
pub fn named(name: &str) -> Option<Mix> {
    match name {
        "data" => Some(Mix::Data),
        "build" => Some(Mix::Build),
        "walk" => Some(Mix::Walk),
        "registers" => Some(Mix::Registers),
        "globals" => Some(Mix::Globals),
        _ => None,
    }
}

/// Returns how many frames a mix needs: the greatest number if it fills them, else one.
fn frames(mix: Mix) -> u32 {
    match mix {
        Mix::Build => 4_096,
        _ => 1,
    }
}

/// Returns the configuration of a mix's heap: one layout, of a reference and a datum.
pub fn config(alloc: Global, mix: Mix) -> Result<Config> {
    let layouts = Layouts::new(vec![in alloc; Layout { refs: 1, nums: 1 }]?);
    Ok(Config::new(WORDS, frames(mix), layouts))
}
