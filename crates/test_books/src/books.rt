//! Recorded heaps, with the steps that a heap accepted.

use crate::same::same;
use cycle::{Actor, Answer, Book, Entry, Step, run};
use heap::Refusal;
use std::alloc::{AllocError, Global};
use std::process::Abort;
use std::test::Fail;
use test_support_books::{HeldBook, act, small_book};

/// The reply to a step.
type Reply = Result<Answer, Refusal>;

/// An actor, its step, and the expected reply.
type Row = (Actor, Step, Reply);

const FIRST: Actor = Actor::Thread(0);

/// An object of the one layout.
fn new(target: u32) -> Step {
    Step::New { target, layout: 0 }
}

/// Does the step of each row, and compares the reply.
fn play(rt: &impl Abort, book: &mut Book, rows: Vec<Row>) {
    for (actor, step, reply) in rows {
        let told = act(book, actor, step);
        same(rt, told, reply);
    }
}

fn page_of_objects(alloc: Global) -> Result<Vec<Row>, AllocError> {
    Ok(vec![in alloc;
        (
            FIRST,
            Step::Take(4),
            Ok(Answer::Lent { page: 1, offset: 0 })
        ),
        (FIRST, new(0), Ok(Answer::Birth(0))),
        (
            FIRST,
            Step::SetDatum {
                object: 0,
                index: 1,
                value: 9
            },
            Ok(Answer::Done)
        ),
        (
            FIRST,
            Step::Datum {
                object: 0,
                index: 1
            },
            Ok(Answer::Datum(9))
        ),
        (FIRST, new(1), Err(Refusal::NoRoom)),
        (FIRST, Step::GiveBack, Ok(Answer::Done)),
        (
            FIRST,
            Step::Take(13),
            Err(Refusal::NoFrames { need: 1, free: 0 })
        ),
        (
            FIRST,
            Step::Take(12),
            Ok(Answer::Lent { page: 1, offset: 4 })
        ),
    ]?)
}

/// The last entry is that of the second buffer.
fn is_last(rt: &impl Abort, last: &Entry) {
    same(rt, last.actor, FIRST);
    assert!(rt; matches!(&last.step, Step::Take(12)));
    same(rt, last.answer, Answer::Lent { page: 1, offset: 4 });
}

fn filled(rt: &impl Abort, mut held: impl HeldBook + Drop, rows: Vec<Row>) {
    let book = held.book();
    play(rt, book, rows);
    same(rt, book.history().len(), 6);
    same(rt, book.heap().births(), 1);
    match book.history().get(5) {
        None => assert!(rt; false),
        Some(last) => is_last(rt, last.entry()),
    }
}

#[test]
fn a_page_is_filled(rt: HostRuntime) -> Result<(), Fail> {
    let rows = page_of_objects(rt.alloc())?;
    filled(&rt, small_book(rt.alloc())?, rows);
    Ok(())
}

/// The steps of the rows with their actors, and the replies.
fn parted(alloc: Global, rows: Vec<Row>) -> Result<(Vec<(Actor, Step)>, Vec<Reply>), Fail> {
    let mut steps = Vec::new(alloc);
    let mut replies = Vec::new(alloc);
    for (actor, step, reply) in rows {
        steps.push((actor, step))?;
        replies.push(reply)?;
    }
    Ok((steps, replies))
}

fn replied(
    rt: &impl Abort,
    alloc: Global,
    mut held: impl HeldBook + Drop,
    rows: Vec<Row>,
) -> Result<(), Fail> {
    let book = held.book();
    let (steps, wanted) = parted(alloc, rows)?;
    let replies = run(alloc, book, steps)?;
    same(rt, replies.as_slice(), wanted.as_slice());
    same(rt, book.history().len(), 6);
    Ok(())
}

#[test]
fn a_run_replies_in_order(rt: HostRuntime) -> Result<(), Fail> {
    let rows = page_of_objects(rt.alloc())?;
    replied(&rt, rt.alloc(), small_book(rt.alloc())?, rows)
}

/// Returns the steps of the rows that are accepted.
fn accepted_steps(alloc: Global, rows: Vec<Row>) -> Result<Vec<(Actor, Step)>, Fail> {
    let mut steps = Vec::new(alloc);
    for (actor, step, reply) in rows {
        if reply.is_ok() {
            steps.push((actor, step))?;
        }
    }
    Ok(steps)
}

/// Does the steps of those rows, all of which are accepted.
fn accepted(alloc: Global, mut held: impl HeldBook + Drop, rows: Vec<Row>) -> Result<(), Fail> {
    let book = held.book();
    let steps = accepted_steps(alloc, rows)?;
    for reply in run(alloc, book, steps)? {
        reply?;
    }
    Ok(())
}

#[test]
fn a_run_is_accepted(rt: HostRuntime) -> Result<(), Fail> {
    let rows = page_of_objects(rt.alloc())?;
    accepted(rt.alloc(), small_book(rt.alloc())?, rows)
}
