//! The configuration of a heap.

ghost use Rattle.std.specs.Prelude.{◌≡◌, ◌==◌, IfOk, IfNone, IfSome};
ghost use Rattle.std.specs.List.{list_all};
ghost use Rattle.model.specs.Configs.{is_page_size, fits_page, first_fault, usual_config, IsOfCaller, IsRanged};

use crate::limits::{
    MOST_BIRTHS, MOST_FIELDS, MOST_FRAMES, MOST_GLOBALS, MOST_HISTORY, MOST_LAYOUTS, MOST_PAGES,
    MOST_REGISTERS, MOST_THREADS, MOST_WORKERS, USUAL_GLOBALS, USUAL_REGISTERS,
};
use layout::{Layout, Layouts};
use std::alloc::{AllocError, Global};
use thiserror::Error;

/// The sizes and limits of a heap. Each field has its range.
#[derive(Debug, Drop)]
pub struct Config {
    /// The words of a page: 16 to 32,768, a power of two.
    pub words: u32,
    /// The frames, each the memory of one page: 1 to 1,048,575.
    pub frames: u32,
    /// The page numbers: 1 to 1,048,575, and at least as many as frames.
    pub pages: u32,
    /// The mutator threads: 1 to 1,024.
    pub threads: u32,
    /// The collector's workers: 1 to 16.
    pub workers: u32,
    /// The registers of each thread: 1 to 65,535.
    pub registers: u32,
    /// The global roots: 0 to 65,535.
    pub globals: u32,
    /// The layouts: 1 to 256, each of at most 1,023 reference words and 1,023 data words, and of a
    /// size of at most the words of a page.
    pub layouts: Layouts,
    /// The greatest number of births: 1 to 2^56.
    pub births: u64,
    /// The greatest number of entries of a history: 1 to 1,000,000.
    pub history: u64,
}

/// The field of a configuration that is out of its range.
#[derive(Clone, Copy, Debug, PartialEq, Eq, Error)]
pub enum ConfigFault {
    /// The words of a page.
    #[error("words out of range")]
    Words,
    /// The frames.
    #[error("frames out of range")]
    Frames,
    /// The pages.
    #[error("pages out of range")]
    Pages,
    /// The threads.
    #[error("threads out of range")]
    Threads,
    /// The workers.
    #[error("workers out of range")]
    Workers,
    /// The registers.
    #[error("registers out of range")]
    Registers,
    /// The globals.
    #[error("globals out of range")]
    Globals,
    /// The layouts, by their number or by the size of one.
    #[error("layouts out of range")]
    Layouts,
    /// The births.
    #[error("births out of range")]
    Births,
    /// The history.
    #[error("history out of range")]
    History,
}

impl Config {
    /// Returns the default configuration for a number of frames of a number of words each, with these layouts. The
    /// other fields have values that are right for most heaps; each may be changed:
    ///
    /// | Field | Value |
    /// |---|---|
    /// | `pages` | twice the frames, since no more are ever in use at once; 1,048,575 at most |
    /// | `threads`, `workers` | 1 of each |
    /// | `registers`, `globals` | 16 for each thread, and 64 |
    /// | `births`, `history` | 2^56, and 1,000,000: the greatest values |
    ///
    /// Words, frames and layouts are taken as they are; only they can be out of range, and `fault` returns whether
    /// one is.
    #[tactic(auto, unfolding(crate::specs::Configs::usual_config))]
    pub fn new(words: u32, frames: u32, layouts: Layouts) -> Config
        ensures value { result ≡ usual_config words frames layouts }
        ensures rest { IfSome (first_fault result) IsOfCaller }
    {
        Config {
            words,
            frames,
            pages: frames.saturating_mul(2).min(MOST_PAGES),
            threads: 1,
            workers: 1,
            registers: USUAL_REGISTERS,
            globals: USUAL_GLOBALS,
            layouts,
            births: MOST_BIRTHS,
            history: MOST_HISTORY,
        }
    }

    /// Returns the first field that is out of its range, in the order of the fields; `None` if all are in range.
    #[tactic(auto, using(crate::proofs::Ranges::none_in_range))]
    pub fn fault(&self) -> Option<ConfigFault>
        ensures first { result ≡ first_fault self.now }
        ensures ranges { IfNone result (IsRanged self.now) }
    {
        self.first_fault()
    }

    #[tactic(auto, unfolding(crate::specs::Configs::first_fault))]
    fn first_fault(&self) -> Option<ConfigFault>
        ensures { result ≡ first_fault self.now }
    {
        let layouts = self.layouts.as_slice();
        if !is_page_size(self.words) {
            Some(ConfigFault::Words)
        } else if self.frames < 1 || self.frames > MOST_FRAMES {
            Some(ConfigFault::Frames)
        } else if self.pages < self.frames || self.pages > MOST_PAGES {
            Some(ConfigFault::Pages)
        } else if self.threads < 1 || self.threads > MOST_THREADS {
            Some(ConfigFault::Threads)
        } else if self.workers < 1 || self.workers > MOST_WORKERS {
            Some(ConfigFault::Workers)
        } else if self.registers < 1 || self.registers > MOST_REGISTERS {
            Some(ConfigFault::Registers)
        } else if self.globals > MOST_GLOBALS {
            Some(ConfigFault::Globals)
        } else if layouts.is_empty()
            || layouts.len() > MOST_LAYOUTS
            || !all_fit(layouts, self.words)
        {
            Some(ConfigFault::Layouts)
        } else if self.births < 1 || self.births > MOST_BIRTHS {
            Some(ConfigFault::Births)
        } else if self.history < 1 || self.history > MOST_HISTORY {
            Some(ConfigFault::History)
        } else {
            None
        }
    }

    /// Returns a copy of the configuration. Fails only if out of memory.
    pub fn copy(&self, alloc: Global) -> Result<Config, AllocError>
        ensures { IfOk result (λ c. c ≡ self.now) }
    {
        Ok(Config {
            layouts: Layouts::new(Vec::from_slice(alloc, self.layouts.as_slice())?),
            words: self.words,
            frames: self.frames,
            pages: self.pages,
            threads: self.threads,
            workers: self.workers,
            registers: self.registers,
            globals: self.globals,
            births: self.births,
            history: self.history,
        })
    }
}

fn is_page_size(words: u32) -> bool
    ensures { result ≡ is_page_size words }
{
    matches!(
        words,
        16 | 32 | 64 | 128 | 256 | 512 | 1024 | 2048 | 4096 | 8192 | 16384 | 32768
    )
}

fn fits_page(words: u32, layout: &Layout) -> bool
    ensures { result ≡ fits_page words layout.now }
{
    layout.refs <= MOST_FIELDS && layout.nums <= MOST_FIELDS && layout.size() <= words
}

fn all_fit(layouts: &[Layout], words: u32) -> bool
    ensures { result ≡ list_all (fits_page words) layouts.now }
{
    layouts.iter().all(|layout| fits_page(words, layout))
}
