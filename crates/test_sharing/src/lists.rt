//! A list of steps that is run by one call, and a mark that is drained by one, when out of memory. These tests are
//! run with each of their allocations failing in turn: a step of a list that is out of memory has that reply, and the
//! others are done as if it weren't in the list. A test then fails as out of memory.

use crate::histories::same_histories;
use crate::same::same;
use cycle::{Actor, Book, Reply, Step, run};
use heap::Refusal;
use parser::Script;
use std::alloc::{AllocError, Global};
use std::process::Abort;
use std::test::Fail;
use test_support_books::{HEAD, HeldBook, MARKED, act_all, book_of, image_of, script_of};

/// The object moves, and its page is released.
const MOVED: &str =
    "w0 protect 1\nt0 cross\nt1 cross\nw0 copy 1 0\nw0 release 1\nt0 scrub r0\nt0 datum r0 0\n";

/// Returns the steps of a script's commands, without the one at this place, if there is one.
fn steps(
    alloc: Global,
    script: &Script,
    left_out: Option<usize>,
) -> Result<Vec<(Actor, Step)>, AllocError> {
    let mut steps = Vec::new(alloc);
    for (place, command) in script.commands().iter().enumerate() {
        if Some(place) != left_out {
            steps.push((command.actor, command.order.step(alloc)?))?;
        }
    }
    Ok(steps)
}

/// Returns replies without the one at this place, if there is one.
fn others(
    alloc: Global,
    replies: &[Reply],
    left_out: Option<usize>,
) -> Result<Vec<Reply>, AllocError> {
    let mut others = Vec::new(alloc);
    for (place, reply) in replies.iter().enumerate() {
        if Some(place) != left_out {
            others.push(*reply)?;
        }
    }
    Ok(others)
}

/// Returns the place of the first step that was out of memory.
fn lacking(replies: &[Reply]) -> Option<usize> {
    replies
        .iter()
        .position(|reply| *reply == Err(Refusal::Memory))
}

/// Runs a script's steps on a new recorded heap. If the run is out of memory, the recorded heap is as it was, and the
/// run is repeated, which the second value tells.
fn run_again(
    rt: &impl Abort,
    alloc: Global,
    book: &mut Book,
    script: &Script,
) -> Result<(Vec<Reply>, bool), AllocError> {
    let before = image_of(alloc, book.heap())?;
    let first = steps(alloc, script, None)?;
    if let Ok(replies) = run(alloc, book, first) {
        return Ok((replies, false));
    }
    let after = image_of(alloc, book.heap())?;
    same(rt, after.as_str(), before.as_str());
    same(rt, book.history().len(), 0);
    let second = steps(alloc, script, None)?;
    Ok((run(alloc, book, second)?, true))
}

/// The replies are those of another recorded heap to the list without the step that was out of memory; both heaps and
/// both histories are the same then.
fn agree(
    rt: &impl Abort,
    alloc: Global,
    book: &Book,
    other: &mut Book,
    script: &Script,
    replies: &[Reply],
) -> Result<(), AllocError> {
    let place = lacking(replies);
    let wanted = run(alloc, other, steps(alloc, script, place)?)?;
    if lacking(&wanted).is_some() {
        return Err(AllocError);
    }
    same(
        rt,
        others(alloc, replies, place)?.as_slice(),
        wanted.as_slice(),
    );
    let found = image_of(alloc, book.heap())?;
    same(rt, found.as_str(), image_of(alloc, other.heap())?.as_str());
    same_histories(
        rt,
        alloc,
        book.history(),
        other.history(),
        other.history().len(),
    )
}

/// Runs the steps of a script on one of two new recorded heaps, and compares it with the other.
fn runs_beside(
    rt: &impl Abort,
    alloc: Global,
    mut held: impl HeldBook + Drop,
    mut other: impl HeldBook + Drop,
    script: &Script,
) -> Result<(), AllocError> {
    let (replies, lacked) = run_again(rt, alloc, held.book(), script)?;
    agree(rt, alloc, held.book(), other.book(), script, &replies)?;
    if lacked || lacking(&replies).is_some() {
        return Err(AllocError);
    }
    Ok(())
}

/// The same, with one recorded heap made here, so that the test that made the other doesn't have both.
fn runs(
    rt: &impl Abort,
    alloc: Global,
    held: impl HeldBook + Drop,
    script: &Script,
) -> Result<(), Fail> {
    runs_beside(rt, alloc, held, book_of(alloc, script)?, script)?;
    Ok(())
}

#[test]
fn a_list_of_steps(rt: HostRuntime) -> Result<(), Fail> {
    let alloc: Global = rt.alloc();
    let script = script_of(alloc, &[HEAD, MARKED, MOVED])?;
    runs(&rt, alloc, book_of(alloc, &script)?, &script)
}

/// A list of three objects, all of which a mark has yet to scan.
const UNSCANNED: &str =
    "t0 take 16\ntimes 3\nt0 new r1 0\nt0 store r1 0 r0\nt0 mov r0 r1\nend\nt0 storeg 0 r0\nw0 mark\n\
    t0 cross\nt1 cross\n";

/// Drains a mark, and continues if that is out of memory. Returns whether it was.
fn drains_on(rt: &impl Abort, book: &mut Book, replies: &mut Vec<Reply>) -> bool {
    let end = book.drain(0, replies);
    if end == Err(Refusal::Memory) {
        same(rt, book.drain(0, replies), Ok(()));
        return true;
    }
    same(rt, end, Ok(()));
    false
}

/// Both recorded heaps are the same after drains, of which the first may be in two parts.
fn drains_beside(
    rt: &impl Abort,
    alloc: Global,
    mut held: impl HeldBook + Drop,
    mut other: impl HeldBook + Drop,
    script: &Script,
) -> Result<(), Fail> {
    act_all(alloc, held.book(), script)?;
    act_all(alloc, other.book(), script)?;
    let (mut found, mut wanted) = (Vec::new(alloc), Vec::new(alloc));
    let lacked = drains_on(rt, held.book(), &mut found);
    other.book().drain(0, &mut wanted)?;
    same(rt, found.as_slice(), wanted.as_slice());
    let image = image_of(alloc, held.book().heap())?;
    same(
        rt,
        image.as_str(),
        image_of(alloc, other.book().heap())?.as_str(),
    );
    if lacked {
        Err(Fail::from(AllocError))
    } else {
        Ok(())
    }
}

/// The same, with one recorded heap made here, so that the test that made the other doesn't have both.
fn drains(
    rt: &impl Abort,
    alloc: Global,
    held: impl HeldBook + Drop,
    script: &Script,
) -> Result<(), Fail> {
    drains_beside(rt, alloc, held, book_of(alloc, script)?, script)
}

#[test]
fn a_drain_in_two_parts(rt: HostRuntime) -> Result<(), Fail> {
    let alloc: Global = rt.alloc();
    let script = script_of(alloc, &[HEAD, UNSCANNED])?;
    drains(&rt, alloc, book_of(alloc, &script)?, &script)
}
