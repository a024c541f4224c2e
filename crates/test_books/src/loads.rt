//! Complete loads, with errors.

use crate::same::same;
use cycle::Book;
use model::{Actor, Answer, Refusal, Step};
use std::alloc::Global;
use std::process::Abort;
use std::test::Fail;
use test_support_books::{HeldBook, act};
use test_support_samples::linked;

const THREAD: Actor = Actor::Thread(0);

/// Allocates an object whose reference is itself, in register 0. Stops at the first error.
fn make(book: &mut Book) -> Result<(), Refusal> {
    let (target, layout) = (0, 0);
    act(book, THREAD, Step::Take(16))?;
    act(book, THREAD, Step::New { target, layout })?;
    let (object, field, source) = (0, 0, 0);
    let store = Step::Store {
        object,
        field,
        source,
    };
    act(book, THREAD, store)?;
    Ok(())
}

/// Loads the reference of the object in a register into register 1.
fn load(
    book: &mut Book,
    object: u32,
    replies: &mut Vec<Result<Answer, Refusal>>,
) -> Result<(), Refusal> {
    let (target, field) = (1, 0);
    let load = Step::Load {
        target,
        object,
        field,
    };
    book.whole_load(THREAD, load, replies)
}

/// A load from register 1, which is null then, and one from register 0 into it.
fn try_loads(
    rt: &impl Abort,
    mut held: impl HeldBook + Drop,
    replies: &mut Vec<Result<Answer, Refusal>>,
) {
    let book = held.book();
    same(rt, make(book), Ok(()));
    same(rt, load(book, 1, replies), Err(Refusal::Null));
    same(rt, load(book, 0, replies), Ok(()));
    same(rt, book.heap().register(0, 1), book.heap().register(0, 0));
}

/// Both loads have these replies.
fn have_replied(rt: &impl Abort, replies: &[Result<Answer, Refusal>]) {
    let wanted = [
        Err(Refusal::Null),
        Ok(Answer::Loaded),
        Ok(Answer::Clear),
        Ok(Answer::Done),
    ];
    same(rt, replies, wanted.as_slice());
}

/// The object's page is marked, and a load of its reference has met one trap, whose answer this is.
fn begin(book: &mut Book) -> Result<Answer, Refusal> {
    act(book, Actor::Worker(0), Step::StartMark)?;
    act(book, THREAD, Step::Cross)?;
    let (target, object, field) = (1, 0, 0);
    let load = Step::Load {
        target,
        object,
        field,
    };
    act(book, THREAD, load)?;
    act(book, THREAD, Step::Trap)
}

/// A load continues after a trap that was due.
fn try_end(
    rt: &impl Abort,
    mut held: impl HeldBook + Drop,
    replies: &mut Vec<Result<Answer, Refusal>>,
) {
    let book = held.book();
    same(rt, make(book), Ok(()));
    same(rt, begin(book), Ok(Answer::Marked));
    same(
        rt,
        book.end_load(THREAD, replies).ok(),
        Some(Ok(Answer::Done)),
    );
}

/// The steps after that trap have these replies: the place of the load is healed.
fn have_healed(rt: &impl Abort, replies: &[Result<Answer, Refusal>]) {
    let wanted = [Ok(Answer::Clear), Ok(Answer::Healed), Ok(Answer::Done)];
    same(rt, replies, wanted.as_slice());
}

#[test]
fn a_load_goes_on_behind_a_trap(rt: HostRuntime) -> Result<(), Fail> {
    let alloc: Global = rt.alloc();
    let mut replies = Vec::new(alloc);
    try_end(&rt, Book::new(alloc, linked(alloc)?)?, &mut replies);
    have_healed(&rt, &replies);
    Ok(())
}

#[test]
fn a_whole_load(rt: HostRuntime) -> Result<(), Fail> {
    let alloc: Global = rt.alloc();
    let mut replies = Vec::new(alloc);
    try_loads(&rt, Book::new(alloc, linked(alloc)?)?, &mut replies);
    have_replied(&rt, &replies);
    Ok(())
}
