//! The limits of a script's heap. They belong to the script language: a heap of the library may have more.

/// The greatest number of frames.
pub const MOST_FRAMES: u32 = 4096;

/// The greatest number of mutator threads.
pub const MOST_THREADS: u32 = 64;

/// The greatest number of registers of a thread.
pub const MOST_REGISTERS: u32 = 16;

/// The greatest number of globals.
pub const MOST_GLOBALS: u32 = 64;

/// The greatest number of layouts.
pub const MOST_LAYOUTS: usize = 64;

/// The greatest limit of births.
pub const MOST_BIRTHS: u64 = 4_294_967_296;
