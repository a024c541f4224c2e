//! The report of a history that no current script has.

use crate::same::same;
use cycle::{Actor, Answer, Book, History, Step};
use script::{RunFault, report};
use std::alloc::Global;
use std::process::Abort;
use std::test::Fail;
use test_support_books::small_book;

/// Returns the report of a new heap, with these answers to ends of marks.
fn told(alloc: Global, book: &Book, answers: &[Answer]) -> Result<Vec<u8>, RunFault> {
    let mut history = History::new(alloc);
    for answer in answers {
        history.reserve()?;
        history.enter(Actor::Worker(0), Step::EndMark, *answer);
    }
    let mut written = Vec::new(alloc);
    report(alloc, book.heap(), &history, &mut written)?;
    Ok(written)
}

/// Two marks that ended, with an answer of another step between them.
fn tells_cycles(rt: &impl Abort, alloc: Global, book: &Book) -> Result<(), RunFault> {
    let answers = [
        Answer::Ended {
            live: 4,
            retired: 0,
        },
        Answer::Done,
        Answer::Ended {
            live: 2,
            retired: 1,
        },
    ];
    let wanted =
        "phase idle nmt 0 births 0 frames 0/1\nthread 0 running buffer - r0 - r1 -\ncycle 1 live 4 retired 0\ncycle 2 live 2 retired 1\nbarrier 0 loads 0 gc 0 nmt 0 healed 0 changed 0\n";
    let written = told(alloc, book, &answers)?;
    same(rt, written.as_slice(), wanted.as_bytes());
    Ok(())
}

#[test]
fn cycles(rt: HostRuntime) -> Result<(), Fail> {
    let book = small_book(rt.alloc())?;
    tells_cycles(&rt, rt.alloc(), &book)?;
    Ok(())
}
