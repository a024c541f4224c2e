//! A protection that is out of memory. The test runs with each of its allocations failing in turn, and ends with
//! `Memory` if the step was out of memory.

use crate::same::same;
use cycle::{Actor, Answer, Book, Reply, Step};
use model::{PageList, Refusal};
use parser::Script;
use script::{RunFault, report};
use std::alloc::{AllocError, Global};
use std::process::Abort;
use std::test::Fail;
use test_support_books::{HEAD, MARKED, act, act_all, book_of, script_of};

/// The report after the mark of one object.
const BEFORE: &str =
    "phase idle nmt 1 births 1 frames 1/3\npage 1 closed frame 0 top 16 objects 1 live 1\n\
    thread 0 running buffer - r0 1.0/1 r1 - r2 - r3 -\nthread 1 running buffer - r0 1.0/1 r1 - r2 - r3 -\n\
    global 0 1.0/1\ncycle 1 live 1 retired 0\nbarrier 0 loads 0 gc 0 nmt 0 healed 0 changed 0\n\
    barrier 1 loads 1 gc 0 nmt 0 healed 0 changed 0\n";

/// The report after the protection of its page.
const AFTER: &str =
    "phase protect-crossing nmt 1 births 1 frames 2/3\npage 1 from frame 0 top 16 objects 1 live 1 copied 0/1\n\
    page 2 open frame 1 top 16 objects 0 live 0\nthread 0 running buffer - r0 1.0/1 r1 - r2 - r3 -\n\
    thread 1 running buffer - r0 1.0/1 r1 - r2 - r3 -\nglobal 0 1.0/1\ncycle 1 live 1 retired 0\n\
    barrier 0 loads 0 gc 0 nmt 0 healed 0 changed 0\nbarrier 1 loads 1 gc 0 nmt 0 healed 0 changed 0\n";

/// One object goes to one target.
const PROTECTED: Reply = Ok(Answer::Protected {
    objects: 1,
    targets: 1,
});

/// Writes the report of a recorded heap to a list.
fn reported(alloc: Global, book: &Book) -> Result<Vec<u8>, RunFault> {
    let mut written = Vec::new(alloc);
    report(alloc, book.heap(), book.history(), &mut written)?;
    Ok(written)
}

/// A recorded heap has this report.
fn has_report(rt: &impl Abort, alloc: Global, book: &Book, wanted: &str) -> Result<(), RunFault> {
    let written = reported(alloc, book)?;
    same(rt, written.as_slice(), wanted.as_bytes());
    Ok(())
}

/// Requests the protection of page 1.
fn protect(alloc: Global, book: &mut Book) -> Result<Reply, AllocError> {
    let pages = PageList::new(Vec::from_slice(alloc, &[1])?);
    Ok(act(book, Actor::Worker(0), Step::Protect(pages)))
}

/// Protects the page after a mark. If the step is out of memory, the report is the same as before, and the step
/// succeeds when it is repeated.
fn protects(rt: &impl Abort, alloc: Global, book: &mut Book, script: &Script) -> Result<(), Fail> {
    act_all(alloc, book, script)?;
    has_report(rt, alloc, book, BEFORE)?;
    let reply = protect(alloc, book)?;
    if reply == Err(Refusal::Memory) {
        has_report(rt, alloc, book, BEFORE)?;
        same(rt, protect(alloc, book)?, PROTECTED);
    } else {
        same(rt, reply, PROTECTED);
    }
    has_report(rt, alloc, book, AFTER)?;
    reply?;
    Ok(())
}

#[test]
fn the_report_stays(rt: HostRuntime) -> Result<(), Fail> {
    let script = script_of(rt.alloc(), &[HEAD, MARKED])?;
    let mut book = book_of(rt.alloc(), &script)?;
    protects(&rt, rt.alloc(), &mut book, &script)
}
