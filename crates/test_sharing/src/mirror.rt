//! The same steps, one by one, on a shared recorded heap and on one of a single thread.

use crate::same::same_at;
use crate::table::settles;
use cycle::Book;
use parser::{Command, Script};
use std::alloc::Global;
use std::process::Abort;
use std::sync::Wait;
use std::test::Fail;
use std::thread::Threads;
use test_support_books::{
    HeldBook, HeldTable, Table, act, ask, book_of, image_of, script_of, shared_image, table_of,
};

/// Does the step of the command of a number on both, and compares their answers and images.
fn both<R: Abort + Threads + Wait + Sync>(
    rt: &R,
    alloc: Global,
    table: &mut Table,
    book: &mut Book,
    place: usize,
    command: &Command,
) -> Result<(), Fail> {
    let found = ask(rt, alloc, table, command)?;
    let wanted = act(book, command.actor, command.order.step(alloc)?);
    same_at(rt, place, found, wanted);
    let found = shared_image(rt, alloc, &table.shared)?;
    let wanted = image_of(alloc, book.heap())?;
    same_at(rt, place, found.as_str(), wanted.as_str());
    Ok(())
}

/// Does a script's steps one by one at a table and on a recorded heap, to the end.
fn all<R: Abort + Threads + Wait + Sync>(
    rt: &R,
    alloc: Global,
    mut table: impl HeldTable + Drop,
    mut held: impl HeldBook + Drop,
    script: &Script,
    entries: usize,
) -> Result<(), Fail> {
    let book = held.book();
    for (place, command) in script.commands().iter().enumerate() {
        both(rt, alloc, table.table(), book, place, command)?;
    }
    settles(rt, alloc, table.settled(), book, entries)
}

/// The same, with a recorded heap made here, so that the function that made the table doesn't have both.
fn beside<R: Abort + Threads + Wait + Sync>(
    rt: &R,
    alloc: Global,
    table: impl HeldTable + Drop,
    script: &Script,
    entries: usize,
) -> Result<(), Fail> {
    all(rt, alloc, table, book_of(alloc, script)?, script, entries)
}

/// The steps of a script are the same on both, of which the shared one copies pages to a depth; this many are
/// accepted.
pub fn mirrors<R: Abort + Threads + Wait + Sync>(
    rt: &R,
    alloc: Global,
    parts: &[&str],
    depth: u32,
    entries: usize,
) -> Result<(), Fail> {
    let script = script_of(alloc, parts)?;
    beside(
        rt,
        alloc,
        table_of(alloc, &script, depth)?,
        &script,
        entries,
    )
}

/// The same if the shared one was stopped before.
pub fn mirrors_stopped<R: Abort + Threads + Wait + Sync>(
    rt: &R,
    alloc: Global,
    parts: &[&str],
    entries: usize,
) -> Result<(), Fail> {
    let script = script_of(alloc, parts)?;
    let table = table_of(alloc, &script, 0)?;
    table.shared.stop(rt);
    beside(rt, alloc, table, &script, entries)
}
