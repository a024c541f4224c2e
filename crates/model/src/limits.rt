//! The limits of a heap's configuration. The script language has limits of its own for a script's heap.

/// The most words of a page.
pub const MOST_WORDS: u32 = 32_768;

/// The most frames, each the memory of one page.
pub const MOST_FRAMES: u32 = 1_048_575;

/// The most page numbers.
pub const MOST_PAGES: u32 = 1_048_575;

/// The most mutator threads.
pub const MOST_THREADS: u32 = 1024;

/// The most workers.
pub const MOST_WORKERS: u32 = 16;

/// The most registers of a thread.
pub const MOST_REGISTERS: u32 = 65_535;

/// The most globals.
pub const MOST_GLOBALS: u32 = 65_535;

/// The most layouts.
pub const MOST_LAYOUTS: usize = 256;

/// The most reference words of an object, and the most data words.
pub const MOST_FIELDS: u16 = 1023;

/// The most objects that are ever born: 2^56.
pub const MOST_BIRTHS: u64 = 72_057_594_037_927_936;

/// The most entries of a history.
pub const MOST_HISTORY: u64 = 1_000_000;

/// The default number of registers of a thread.
pub const USUAL_REGISTERS: u32 = 16;

/// The default number of globals.
pub const USUAL_GLOBALS: u32 = 64;
