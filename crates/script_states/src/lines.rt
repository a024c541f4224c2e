//! The lines of a state: those of the report, and then those that the report lacks.

use crate::actors::{put_globals, put_threads, put_workers};
use crate::filmed::Filmed;
use crate::pages::put_pages;
use anyhow::Result;
use heap::Heap;
use script::{report, tell};
use std::alloc::{AllocError, Global};
use std::fmt::Write as _;
use std::io;

/// Appends the sizes of a heap, as a script has them, and its layouts.
fn put_sizes(heap: &Heap, text: &mut String) -> Result<(), AllocError> {
    let config = heap.config();
    let (words, frames, pages) = (config.words, config.frames, config.pages);
    write!(text, "heap words {words} frames {frames} pages {pages}")?;
    let (threads, workers) = (config.threads, config.workers);
    write!(text, " threads {threads} workers {workers}")?;
    let (registers, globals) = (config.registers, config.globals);
    writeln!(text, " registers {registers} globals {globals}")?;
    for layout in config.layouts.as_slice() {
        let (refs, nums) = (layout.refs, layout.nums);
        writeln!(text, "layout {refs} {nums}")?;
    }
    Ok(())
}

/// Appends the lines that the report lacks.
fn put_rest(heap: &Heap, text: &mut String) -> Result<(), AllocError> {
    put_pages(heap, text)?;
    put_threads(heap, text)?;
    put_workers(heap, text)?;
    put_globals(heap, text)
}

/// Writes the sizes and the layouts of a heap.
pub fn tell_sizes<W: io::Write>(alloc: Global, heap: &Heap, w: &mut W) -> Result<()> {
    let mut text = String::new(alloc);
    put_sizes(heap, &mut text)?;
    Ok(tell(w, &text)?)
}

/// Writes the state of a recorded heap.
pub fn tell_state<W: io::Write>(alloc: Global, book: &impl Filmed, w: &mut W) -> Result<()> {
    report(alloc, book.heap(), book.history(), w)?;
    let mut text = String::new(alloc);
    put_rest(book.heap(), &mut text)?;
    Ok(tell(w, &text)?)
}
