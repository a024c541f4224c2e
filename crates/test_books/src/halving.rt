//! A page copied by halves, on threads of their own.

use crate::same::same;
use cycle::{Actor, Answer, Book, PageList, PieceGate, Reply, Step};
use heap::{Config, NewFault};
use std::alloc::{AllocError, Global};
use std::process::Abort;
use std::sync::atomic::{AtomicU64, Ordering};
use std::test::Fail;
use std::thread;
use std::thread::Threads;
use test_support_books::{HeldBook, act};
use test_support_samples::shared_by_two;

const FIRST: Actor = Actor::Thread(0);

const SECOND: Actor = Actor::Thread(1);

const WORKER: Actor = Actor::Worker(0);

/// The turns after which a wait gives up.
const TURNS: u64 = 1_000_000;

/// The same, if no other piece begins.
const FEW_TURNS: u64 = 1_000;

/// Holds each of the pieces 0 and 1 until the other has begun, for a number of turns at most.
#[derive(Drop)]
struct Meeting {
    turns: u64,
    begun: AtomicU64,
    gave_up: AtomicU64,
}

/// Returns the state before any piece has begun.
fn nobody_came(turns: u64) -> Meeting {
    Meeting {
        turns,
        begun: AtomicU64::new(0),
        gave_up: AtomicU64::new(0),
    }
}

/// Waits until a word has a value. Returns false if it gave up.
fn reaches(word: &AtomicU64, value: u64, turns: u64) -> bool {
    for _ in 0..turns {
        if word.load(Ordering::SeqCst) >= value {
            return true;
        }
        thread::yield_now();
    }
    false
}

impl PieceGate for Meeting {
    fn begin(&self, piece: u32) {
        let bit = if piece == 0 { 1 } else { 2 };
        self.begun.fetch_add(bit, Ordering::SeqCst);
        if !reaches(&self.begun, 3, self.turns) {
            self.gave_up.store(1, Ordering::SeqCst);
        }
    }
}

/// Four frames of 16 words, two threads and a worker; an object has one reference and one datum.
fn config(alloc: Global) -> Result<Config, AllocError> {
    let mut config = shared_by_two(alloc)?;
    config.frames = 4;
    Ok(config)
}

/// A step is accepted.
pub fn does(rt: &impl Abort, book: &mut Book, actor: Actor, step: Step) {
    assert!(rt; act(book, actor, step).is_ok());
}

/// A page is filled with `objects` objects, each of which refers to the one before.
fn fill(rt: &impl Abort, book: &mut Book, objects: u32) {
    does(rt, book, FIRST, Step::Take(16));
    for _ in 0..objects {
        does(
            rt,
            book,
            FIRST,
            Step::New {
                target: 1,
                layout: 0,
            },
        );
        does(
            rt,
            book,
            FIRST,
            Step::Store {
                object: 1,
                field: 0,
                source: 0,
            },
        );
        does(
            rt,
            book,
            FIRST,
            Step::CopyReg {
                target: 0,
                source: 1,
            },
        );
    }
    does(rt, book, FIRST, Step::GiveBack);
}

fn cross(rt: &impl Abort, book: &mut Book) {
    does(rt, book, FIRST, Step::Cross);
    does(rt, book, SECOND, Step::Cross);
}

/// A worker scans until nothing is left.
fn drain(rt: &impl Abort, book: &mut Book) {
    for _ in 0..100 {
        if let Some(step) = cycle::next_drain(book.heap(), 0) {
            does(rt, book, WORKER, step);
        }
    }
}

/// Protects pages of two that are full of `first` and `second` live objects, which may be copied then.
pub fn protect(rt: &impl Abort, book: &mut Book, first: u32, second: u32, pages: Vec<u32>) {
    fill(rt, book, first);
    fill(rt, book, second);
    does(rt, book, WORKER, Step::StartMark);
    cross(rt, book);
    drain(rt, book);
    does(rt, book, WORKER, Step::EndMark);
    does(rt, book, WORKER, Step::Protect(PageList::new(pages)));
    cross(rt, book);
}

/// Returns the reply for `copied` copied objects of a page.
pub fn copied(copied: u64) -> Reply {
    Ok(Answer::CopiedPage { copied })
}

/// A page's objects are all copied, and its frame is released.
pub fn is_empty(rt: &impl Abort, book: &mut Book, page: u32) {
    same(rt, act(book, WORKER, Step::CopyPage(page)), copied(0));
    does(rt, book, WORKER, Step::Release(page));
}

/// The worker copies page 1 by halves to a depth.
fn copy_by(rt: &(impl Threads + Sync), book: &mut Book, depth: u32, gate: &Meeting) -> Reply {
    book.copy_page_by(rt, 0, 1, depth, gate)
}

/// All five objects of page 1 are copied to a depth, and nothing is left to be copied. Returns whether a wait gave
/// up.
fn halves(
    rt: &(impl Abort + Threads + Sync),
    mut held: impl HeldBook + Drop,
    page: Vec<u32>,
    depth: u32,
    gate: &Meeting,
) -> bool {
    let book = held.book();
    protect(rt, book, 5, 5, page);
    same(rt, copy_by(rt, book, depth, gate), copied(5));
    is_empty(rt, book, 1);
    gate.gave_up.load(Ordering::SeqCst) == 1
}

/// Returns a new recorded heap of that configuration.
pub fn new_book(alloc: Global) -> Result<Book, NewFault> {
    Book::new(alloc, config(alloc)?)
}

/// Each half is copied by a thread of its own: both have begun before one goes on.
#[test]
fn two_threads_copy_a_page(rt: HostRuntime) -> Result<(), Fail> {
    let page = vec![in rt.alloc(); 1]?;
    let gave_up = halves(&rt, new_book(rt.alloc())?, page, 1, &nobody_came(TURNS));
    assert!(rt; !gave_up);
    Ok(())
}

/// An implementation that copies a page on one thread waits for the other half in vain; so the test above doesn't
/// accept it, which each contract does.
#[test]
fn one_thread_meets_nobody(rt: HostRuntime) -> Result<(), Fail> {
    let page = vec![in rt.alloc(); 1]?;
    let gave_up = halves(&rt, new_book(rt.alloc())?, page, 0, &nobody_came(FEW_TURNS));
    assert!(rt; gave_up);
    Ok(())
}

/// Nor does it accept one that copies both halves on one thread, one after the other.
#[test]
fn one_thread_begins_both_halves(rt: HostRuntime) {
    let gate = nobody_came(FEW_TURNS);
    gate.begin(0);
    gate.begin(1);
    same(&rt, gate.gave_up.load(Ordering::SeqCst), 1);
}
