//! The lines of the current work of threads, workers and globals.

use crate::pages::{put_address, put_word};
use heap::{Heap, Thread};
use model::{Barrier, Place, Scan};
use reporting::BitText;
use std::alloc::AllocError;
use std::fmt::Write as _;

/// Appends the place from which a load has its reference.
fn put_place(heap: &Heap, place: Place, text: &mut String) -> Result<(), AllocError> {
    match place {
        Place::Global(number) => write!(text, " global {number}"),
        Place::Field { object, index } => {
            text.push_str(" field")?;
            put_address(heap, object, text)?;
            write!(text, ".{index}")
        }
    }
}

/// Appends the line of an unfinished load: its thread, its target register, its place, the reference that was loaded,
/// the current one, and whether the place was healed.
fn put_load(
    heap: &Heap,
    thread: usize,
    barrier: Barrier,
    text: &mut String,
) -> Result<(), AllocError> {
    let target = barrier.target;
    write!(text, "load {thread} r{target}")?;
    put_place(heap, barrier.place, text)?;
    text.push_str(" raw")?;
    put_word(heap, barrier.raw.bits(), text)?;
    text.push_str(" now")?;
    put_word(heap, barrier.now.bits(), text)?;
    let healed = BitText(barrier.healed);
    writeln!(text, " healed {healed}")
}

/// Appends whether a thread has crossed, and its load.
fn put_thread(
    heap: &Heap,
    number: usize,
    thread: &Thread,
    text: &mut String,
) -> Result<(), AllocError> {
    let crossed = BitText(thread.has_crossed());
    writeln!(text, "crossed {number} {crossed}")?;
    match thread.barrier() {
        None => Ok(()),
        Some(barrier) => put_load(heap, number, barrier, text),
    }
}

/// Appends the lines of all threads.
pub fn put_threads(heap: &Heap, text: &mut String) -> Result<(), AllocError> {
    let threads = heap.threads();
    for (number, thread) in threads.iter().enumerate() {
        put_thread(heap, number, thread, text)?;
    }
    Ok(())
}

/// Appends the line of a worker: the object that it scans, and the number of the next reference.
fn put_worker(
    heap: &Heap,
    number: usize,
    scan: Option<Scan>,
    text: &mut String,
) -> Result<(), AllocError> {
    write!(text, "worker {number}")?;
    match scan {
        None => text.push_str(" -\n"),
        Some(scan) => {
            put_address(heap, scan.object, text)?;
            let next = scan.next;
            writeln!(text, " next {next}")
        }
    }
}

/// Appends the lines of all workers.
pub fn put_workers(heap: &Heap, text: &mut String) -> Result<(), AllocError> {
    let workers = heap.workers();
    for (number, scan) in workers.iter().enumerate() {
        put_worker(heap, number, *scan, text)?;
    }
    Ok(())
}

/// Appends a line for each grey global.
pub fn put_globals(heap: &Heap, text: &mut String) -> Result<(), AllocError> {
    let globals = heap.globals();
    for (number, global) in globals.iter().enumerate() {
        if global.todo {
            writeln!(text, "todo {number}")?;
        }
    }
    Ok(())
}
