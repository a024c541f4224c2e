//! Drains by one call, and the replies to their steps.

use crate::same::same;
use cycle::Book;
use model::{Actor, Answer, Refusal, Step};
use std::alloc::Global;
use std::process::Abort;
use std::test::Fail;
use test_support_books::{HeldBook, act};
use test_support_samples::linked;

const THREAD: Actor = Actor::Thread(0);

const WORKER: Actor = Actor::Worker(0);

/// An object becomes the head of a list: register `head` refers to it, and it refers to the object of register
/// `tail`.
fn push(book: &mut Book, head: u32, tail: u32) -> Result<(), Refusal> {
    let (target, layout) = (head, 0);
    act(book, THREAD, Step::New { target, layout })?;
    let (object, field, source) = (head, 0, tail);
    let store = Step::Store {
        object,
        field,
        source,
    };
    act(book, THREAD, store)?;
    Ok(())
}

/// A mark starts, and the one thread crosses its checkpoint.
fn start(book: &mut Book) -> Result<(), Refusal> {
    act(book, WORKER, Step::StartMark)?;
    act(book, THREAD, Step::Cross)?;
    Ok(())
}

/// Does a complete mark; `replies` gets those of its drain.
fn mark(book: &mut Book, replies: &mut Vec<Result<Answer, Refusal>>) -> Result<Answer, Refusal> {
    start(book)?;
    book.drain(0, replies)?;
    act(book, WORKER, Step::EndMark)
}

/// An object that refers to itself, in register 0, after a garbage one, with a buffer of a complete page of 16 words.
fn ring(book: &mut Book) -> Result<(), Refusal> {
    act(book, THREAD, Step::Take(16))?;
    push(book, 0, 0)?;
    push(book, 0, 0)
}

/// A drain is rejected before all have crossed, and the error is its last reply.
fn refuses_early(
    rt: &impl Abort,
    mut held: impl HeldBook + Drop,
    replies: &mut Vec<Result<Answer, Refusal>>,
) {
    let book = held.book();
    let behind = Refusal::NotCrossed { thread: 0 };
    assert!(rt; act(book, WORKER, Step::StartMark).is_ok());
    same(rt, book.drain(0, replies), Err(behind));
    same(rt, replies.as_slice(), [Err(behind)].as_slice());
}

#[test]
fn a_drain_before_the_last_crossing(rt: HostRuntime) -> Result<(), Fail> {
    let alloc: Global = rt.alloc();
    let mut replies = Vec::new(alloc);
    refuses_early(&rt, Book::new(alloc, linked(alloc)?)?, &mut replies);
    Ok(())
}

/// A complete mark of such a page.
fn marks_a_ring(
    mut held: impl HeldBook + Drop,
    replies: &mut Vec<Result<Answer, Refusal>>,
) -> Result<Answer, Refusal> {
    let book = held.book();
    ring(book)?;
    mark(book, replies)
}

/// How many globals there are. Each takes one step.
const GLOBALS: usize = 64;

/// One object is marked, after the globals: it takes one step to be picked, one for its reference, and one to end its
/// scan.
fn have_drained(rt: &impl Abort, ended: Answer, replies: &[Result<Answer, Refusal>]) {
    let one = Answer::Ended {
        live: 1,
        retired: 0,
    };
    let wanted = [Ok(Answer::Done), Ok(Answer::Scanned), Ok(Answer::Finished)];
    same(rt, ended, one);
    same(rt, replies.len(), GLOBALS + 3);
    same(rt, replies.get(GLOBALS..), Some(wanted.as_slice()));
}

#[test]
fn a_drain(rt: HostRuntime) -> Result<(), Fail> {
    let alloc: Global = rt.alloc();
    let mut replies = Vec::new(alloc);
    let ended = marks_a_ring(Book::new(alloc, linked(alloc)?)?, &mut replies)?;
    have_drained(&rt, ended, &replies);
    Ok(())
}
