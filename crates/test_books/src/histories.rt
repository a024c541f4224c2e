//! A history that is filled to the greatest limit.

use crate::same::same;
use cycle::{Actor, Answer, Step};
use heap::Refusal;
use std::process::Abort;
use std::test::Fail;
use test_support_books::{HeldBook, act, small_book};

/// The recorded heap accepts as many steps as its limit, and rejects the next.
fn fill(rt: &impl Abort, mut held: impl HeldBook + Drop) {
    let book = held.book();
    for _ in 0..1_000_000 {
        let reply = act(book, Actor::Thread(0), Step::IsNull(1));
        same(rt, reply, Ok(Answer::Truth(true)));
    }
    let reply = act(book, Actor::Thread(0), Step::IsNull(1));
    same(rt, reply, Err(Refusal::HistoryFull));
    same(rt, book.history().len(), 1_000_000);
}

#[test]
fn a_million_steps(rt: HostRuntime) -> Result<(), Fail> {
    fill(&rt, small_book(rt.alloc())?);
    Ok(())
}
