//! A table's recorded heap, compared with one of a single thread.

use crate::histories::tells_the_same;
use cycle::Book;
use std::alloc::Global;
use std::process::Abort;
use std::test::Fail;

/// The recorded heap of a table agrees with its seats, and its history is that of another one, with this many
/// entries.
pub fn settles(
    rt: &impl Abort,
    alloc: Global,
    end: Option<Book>,
    book: &Book,
    entries: usize,
) -> Result<(), Fail> {
    match end {
        Some(other) => tells_the_same(rt, alloc, other, book, entries),
        None => Err("a stray".into()),
    }
}
