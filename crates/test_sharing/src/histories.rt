//! Two histories that are equal.

use crate::same::{same, same_at};
use cycle::{Book, History};
use std::alloc::{AllocError, Global};
use std::process::Abort;
use std::test::Fail;
use test_support_books::{HeldBook, entry_text};

/// Two histories have the same entries, and this many.
pub fn same_histories(
    rt: &impl Abort,
    alloc: Global,
    left: &History,
    right: &History,
    entries: usize,
) -> Result<(), AllocError> {
    same(rt, left.len(), entries);
    same(rt, right.len(), entries);
    for index in 0..entries {
        let found = entry_text(alloc, left, index)?;
        let wanted = entry_text(alloc, right, index)?;
        same_at(rt, index, found.as_str(), wanted.as_str());
    }
    Ok(())
}

/// The history of a recorded heap is that of another one, with this many entries.
pub fn tells_the_same(
    rt: &impl Abort,
    alloc: Global,
    mut held: impl HeldBook + Drop,
    book: &Book,
    entries: usize,
) -> Result<(), Fail> {
    let history = held.book().history();
    same_histories(rt, alloc, history, book.history(), entries)?;
    Ok(())
}
