//! Relocation sets.

use crate::same::same;
use choosing::choose;
use cycle::Book;
use parser::Script;
use std::alloc::{AllocError, Global};
use std::process::Abort;
use std::test::Fail;
use test_support_books::{FULL, HEAD, HeldBook, MARKED, act_all, book_of, script_of};

/// With this percentage these pages of a recorded heap are chosen.
fn chooses(
    rt: &impl Abort,
    alloc: Global,
    book: &Book,
    percent: u32,
    wanted: &[u32],
) -> Result<(), AllocError> {
    let chosen = choose(alloc, book.heap(), percent)?;
    same(rt, chosen.as_slice(), wanted);
    Ok(())
}

/// After a script's steps no page is chosen by one percentage, and the first one by another.
fn finds(
    rt: &impl Abort,
    alloc: Global,
    mut held: impl HeldBook + Drop,
    script: &Script,
    limits: (Option<u32>, u32),
) -> Result<(), AllocError> {
    let book = held.book();
    act_all(alloc, book, script)?;
    if let Some(low) = limits.0 {
        chooses(rt, alloc, book, low, &[])?;
    }
    chooses(rt, alloc, book, limits.1, &[1])
}

/// The same for a new recorded heap.
fn finds_behind(
    rt: &impl Abort,
    alloc: Global,
    rest: &str,
    limits: (Option<u32>, u32),
) -> Result<(), Fail> {
    let script = script_of(alloc, &[HEAD, rest])?;
    finds(rt, alloc, book_of(alloc, &script)?, &script, limits)?;
    Ok(())
}

/// Nothing is live.
const DEAD: &str =
    "t0 take 16\nt0 new r0 0\nt0 clear r0\nt0 give\nw0 mark\nt0 cross\nt1 cross\nw0 scang 0\nw0 endmark\n";

/// Choices if a page has one object, of three words of sixteen, if nothing is live, and if there is space for one
/// page.
#[test]
fn pages_are_chosen(rt: HostRuntime) -> Result<(), Fail> {
    let none = (None, 0);
    for (rest, limits) in [
        (MARKED, (Some(18), 19)),
        (DEAD, none),
        (FULL, (Some(93), 94)),
    ] {
        finds_behind(&rt, rt.alloc(), rest, limits)?;
    }
    Ok(())
}
