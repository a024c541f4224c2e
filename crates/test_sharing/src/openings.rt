//! Opening a recorded heap when out of memory: it is returned as it was, and opens when the call is repeated. This test
//! is run with each of its allocations failing in turn, and then fails as out of memory.

use crate::same::same;
use cycle::Book;
use parser::Script;
use sharing::{Seat, Shared, settle};
use std::alloc::{AllocError, Global};
use std::process::Abort;
use std::test::Fail;
use test_support_books::{HEAD, MARKED, act_all, book_of, image_of, script_of};

/// A recorded heap that can be opened.
trait Opening: Sized {
    /// Opens it, and returns whether its seats agree with it; if out of memory, returns the recorded heap as an
    /// error.
    fn open(self, alloc: Global) -> Result<bool, Self>;

    /// Does a script's steps.
    fn act_all(&mut self, alloc: Global, script: &Script) -> Result<(), AllocError>;

    /// Returns the image of its heap, as a text, and how many entries it has.
    fn seen(&self, alloc: Global) -> Result<(String, usize), AllocError>;
}

/// Returns whether the seats of a shared recorded heap agree with it.
fn agrees(shared: Shared, seats: Vec<Seat>) -> bool {
    settle(shared.into_book(), seats).err().is_none()
}

impl Opening for Book {
    fn open(self, alloc: Global) -> Result<bool, Book> {
        match Shared::open(alloc, self) {
            Ok((shared, seats)) => Ok(agrees(shared, seats)),
            Err(book) => Err(book),
        }
    }

    fn act_all(&mut self, alloc: Global, script: &Script) -> Result<(), AllocError> {
        act_all(alloc, self, script)
    }

    fn seen(&self, alloc: Global) -> Result<(String, usize), AllocError> {
        Ok((image_of(alloc, self.heap())?, self.history().len()))
    }
}

/// Returns whether a recorded heap opens, and its seats agree with it.
fn opens(alloc: Global, book: impl Opening + Drop) -> bool {
    book.open(alloc).ok() == Some(true)
}

/// A recorded heap that was returned is as it was, and then opens.
fn opens_again(
    rt: &impl Abort,
    alloc: Global,
    back: impl Opening + Drop,
    before: &(String, usize),
) -> Result<(), AllocError> {
    let after = back.seen(alloc)?;
    same(rt, after.0.as_str(), before.0.as_str());
    same(rt, after.1, before.1);
    same(rt, opens(alloc, back), true);
    Err(AllocError)
}

/// Opens a recorded heap after a script's steps.
fn opens_behind(
    rt: &impl Abort,
    alloc: Global,
    mut book: impl Opening + Drop,
    script: &Script,
) -> Result<(), AllocError> {
    book.act_all(alloc, script)?;
    let before = book.seen(alloc)?;
    match book.open(alloc) {
        Ok(agrees) => {
            same(rt, agrees, true);
            Ok(())
        }
        Err(back) => opens_again(rt, alloc, back, &before),
    }
}

#[test]
fn a_book_is_opened(rt: HostRuntime) -> Result<(), Fail> {
    let script = script_of(rt.alloc(), &[HEAD, MARKED])?;
    opens_behind(&rt, rt.alloc(), book_of(rt.alloc(), &script)?, &script)?;
    Ok(())
}
