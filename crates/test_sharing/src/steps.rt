//! Steps of recorded heaps that are shared, or borrowed by their seats, when out of memory: a step that is out of
//! memory leaves all as it was, and is done when it is repeated. A test then fails as out of memory.

use crate::histories::tells_the_same;
use crate::same::same;
use cycle::{Book, Reply};
use heap::Refusal;
use parser::{Command, Script, Verb};
use sharing::{Seat, settle};
use std::alloc::{AllocError, Global};
use std::process::Abort;
use std::sync::Wait;
use std::test::Fail;
use std::thread::Threads;
use test_support_books::{
    HEAD, HeldBook, HeldTable, LINKED, MARKED, ROOMY, Table, WHOLE_PAGES, act, ask, book_of,
    image_of, script_of, seat_of, shared_image, table_of,
};

/// A recorded heap and the seats of its actors, which borrow it.
#[derive(Drop)]
struct Lent {
    book: Book,
    seats: Vec<Seat>,
}

/// A recorded heap with its seats that can be borrowed. Tests pass theirs as one, since a proof with one that lives
/// over several calls takes long.
trait HeldLent: Sized {
    /// Does a seat's step.
    fn ask(&mut self, alloc: Global, command: &Command) -> Result<Reply, Fail>;

    /// Returns the image of its heap, as a text; an empty one unless `looks`.
    fn image(&self, alloc: Global, looks: bool) -> Result<String, AllocError>;

    /// Returns the recorded heap, if the seats' lists agree with its history.
    fn settled(self) -> Option<Book>;
}

impl HeldLent for Lent {
    fn ask(&mut self, alloc: Global, command: &Command) -> Result<Reply, Fail> {
        act_by(alloc, self, command)
    }

    fn image(&self, alloc: Global, looks: bool) -> Result<String, AllocError> {
        lent_image(alloc, self, looks)
    }

    fn settled(self) -> Option<Book> {
        taken_back(self)
    }
}

/// Does a seat's step on a borrowed recorded heap.
fn act_by(alloc: Global, lent: &mut Lent, command: &Command) -> Result<Reply, Fail> {
    let step = command.order.step(alloc)?;
    match seat_of(&mut lent.seats, command.actor) {
        Some(seat) => Ok(seat.act(alloc, &mut lent.book, step)),
        None => Err("no such seat".into()),
    }
}

/// Returns the image of a borrowed recorded heap, as a text; an empty one unless `looks`.
fn lent_image(alloc: Global, lent: &Lent, looks: bool) -> Result<String, AllocError> {
    if looks {
        image_of(alloc, lent.book.heap())
    } else {
        Ok(String::new(alloc))
    }
}

/// Returns the image of a shared heap, as a text; an empty one unless `looks`.
fn table_image<R: Wait>(
    rt: &R,
    alloc: Global,
    table: &Table,
    looks: bool,
) -> Result<String, AllocError> {
    if looks {
        shared_image(rt, alloc, &table.shared)
    } else {
        Ok(String::new(alloc))
    }
}

/// Returns whether a step was out of memory. Else its reply is the expected one.
fn lacks(rt: &impl Abort, reply: Reply, wanted: Reply) -> bool {
    if reply == Err(Refusal::Memory) {
        return true;
    }
    same(rt, reply, wanted);
    false
}

/// Does a command's step on a borrowed recorded heap, and repeats it if it is out of memory; the heap is as it was
/// then. Returns whether it was out of memory.
fn asks_seat(
    rt: &impl Abort,
    alloc: Global,
    lent: &mut impl HeldLent,
    command: &Command,
    wanted: Reply,
) -> Result<bool, Fail> {
    let looks = grows(command);
    let before = lent.image(alloc, looks)?;
    let reply = lent.ask(alloc, command)?;
    if !lacks(rt, reply, wanted) {
        return Ok(false);
    }
    let after = lent.image(alloc, looks)?;
    same(rt, after.as_str(), before.as_str());
    same(rt, lent.ask(alloc, command)?, wanted);
    Ok(true)
}

/// Does the same at a table.
fn asks_table<R: Abort + Threads + Wait + Sync>(
    rt: &R,
    alloc: Global,
    table: &mut Table,
    command: &Command,
    wanted: Reply,
) -> Result<bool, Fail> {
    let looks = grows(command);
    let before = table_image(rt, alloc, table, looks)?;
    let reply = ask(rt, alloc, table, command)?;
    if !lacks(rt, reply, wanted) {
        return Ok(false);
    }
    let after = table_image(rt, alloc, table, looks)?;
    same(rt, after.as_str(), before.as_str());
    same(rt, ask(rt, alloc, table, command)?, wanted);
    Ok(true)
}

/// Returns whether a command's step is one of those that allocate here, so that the heap is compared.
fn grows(command: &Command) -> bool {
    matches!(
        command.order.verb,
        Verb::Take | Verb::Mark | Verb::Protect | Verb::CopyAll
    )
}

/// Returns the reply to a command's step on a recorded heap of one thread.
fn reply_of(alloc: Global, book: &mut Book, command: &Command) -> Result<Reply, Fail> {
    let reply = act(book, command.actor, command.order.step(alloc)?);
    if reply == Err(Refusal::Memory) {
        return Err(Fail::from(Refusal::Memory));
    }
    Ok(reply)
}

/// At the end the lists agree with the history, which is that of the other recorded heap. Fails if out of memory.
fn ends(
    rt: &impl Abort,
    alloc: Global,
    end: Option<Book>,
    book: &Book,
    entries: usize,
    lacked: bool,
) -> Result<(), Fail> {
    match end {
        Some(other) => tells_the_same(rt, alloc, other, book, entries)?,
        None => return Err("a stray".into()),
    }
    if lacked {
        return Err(Fail::from(Refusal::Memory));
    }
    Ok(())
}

/// Does all steps of a script at a table, and compares with those on a recorded heap; this many are accepted.
fn all_at_table<R: Abort + Threads + Wait + Sync>(
    rt: &R,
    alloc: Global,
    mut table: impl HeldTable + Drop,
    mut held: impl HeldBook + Drop,
    script: &Script,
    entries: usize,
) -> Result<(), Fail> {
    let book = held.book();
    let mut lacked = false;
    for command in script.commands() {
        let wanted = reply_of(alloc, book, command)?;
        lacked = asks_table(rt, alloc, table.table(), command, wanted)? || lacked;
    }
    ends(rt, alloc, table.settled(), book, entries, lacked)
}

/// The same, with a recorded heap made here, so that the function that made the table doesn't have both.
fn table_beside<R: Abort + Threads + Wait + Sync>(
    rt: &R,
    alloc: Global,
    table: impl HeldTable + Drop,
    script: &Script,
    entries: usize,
) -> Result<(), Fail> {
    all_at_table(rt, alloc, table, book_of(alloc, script)?, script, entries)
}

/// The same on a borrowed recorded heap.
fn seats_beside(
    rt: &impl Abort,
    alloc: Global,
    mut lent: impl HeldLent + Drop,
    mut held: impl HeldBook + Drop,
    script: &Script,
    entries: usize,
) -> Result<(), Fail> {
    let book = held.book();
    let mut lacked = false;
    for command in script.commands() {
        let wanted = reply_of(alloc, book, command)?;
        lacked = asks_seat(rt, alloc, &mut lent, command, wanted)? || lacked;
    }
    ends(rt, alloc, lent.settled(), book, entries, lacked)
}

/// The same, with the other recorded heap made here, so that the test that made the borrowed one doesn't have both.
fn all_by_seats(
    rt: &impl Abort,
    alloc: Global,
    lent: impl HeldLent + Drop,
    script: &Script,
    entries: usize,
) -> Result<(), Fail> {
    seats_beside(rt, alloc, lent, book_of(alloc, script)?, script, entries)
}

/// Returns the borrowed recorded heap, if the seats' lists agree with its history.
fn taken_back(lent: Lent) -> Option<Book> {
    let Lent { book, seats } = lent;
    match settle(book, seats) {
        Ok(settled) => Some(settled.book),
        Err(_) => None,
    }
}

/// Returns a recorded heap that its seats borrow.
fn lend(table: Table) -> Lent {
    let Table {
        shared,
        seats,
        depth: _,
    } = table;
    Lent {
        book: shared.into_book(),
        seats,
    }
}

/// Does a script's steps at a table, which copies pages to a depth.
fn by_table<R: Abort + Threads + Wait + Sync>(
    rt: &R,
    alloc: Global,
    parts: &[&str],
    depth: u32,
    entries: usize,
) -> Result<(), Fail> {
    let script = script_of(alloc, parts)?;
    table_beside(
        rt,
        alloc,
        table_of(alloc, &script, depth)?,
        &script,
        entries,
    )
}

/// The page of one object is protected.
const PROTECTED: &str = "w0 protect 1\n";

#[test]
fn steps_of_seats(rt: HostRuntime) -> Result<(), Fail> {
    let alloc: Global = rt.alloc();
    let script = script_of(alloc, &[HEAD, MARKED, PROTECTED])?;
    let lent = lend(table_of(alloc, &script, 0)?);
    all_by_seats(&rt, alloc, lent, &script, 17)
}

#[test]
fn steps_of_threads(rt: HostRuntime) -> Result<(), Fail> {
    by_table(&rt, rt.alloc(), &[HEAD, MARKED, PROTECTED], 0, 17)
}

#[test]
fn pages_by_halves(rt: HostRuntime) -> Result<(), Fail> {
    let parts = [ROOMY, MARKED, LINKED, WHOLE_PAGES];
    by_table(&rt, rt.alloc(), &parts, 2, 65)
}
