//! Drains by quanta of a shared recorded heap, compared with a drain by single steps of one of a single thread.

use crate::same::same;
use crate::table::settles;
use cycle::Actor;
use model::Refusal;
use parser::Script;
use sharing::{Seat, Shared};
use std::alloc::Global;
use std::process::Abort;
use std::sync::Wait;
use std::test::Fail;
use std::thread::Threads;
use test_support_books::{
    HEAD, HeldBook, HeldTable, MARKED, Table, act_all, ask, book_of, script_of, seat_of, table_of,
};

/// After a complete mark, six objects of one list, all of which the next mark has to scan.
const UNSCANNED: &str =
    "t1 take 16\ntimes 5\nt1 new r1 0\nt1 store r1 0 r0\nt1 mov r0 r1\nend\nt1 give\nw0 mark\nt0 cross\n\
    t1 cross\n";

/// How many steps are accepted in all, 19 of them by the drain.
const ENTRIES: usize = 55;

/// Drains by quanta of `most` steps, to the end. Returns how many quanta that took.
fn portions(rt: &impl Wait, shared: &Shared, seat: &mut Seat, most: u32) -> Result<u32, Refusal> {
    let mut count = 0u32;
    for _ in 0..ENTRIES {
        count = count.wrapping_add(1);
        if shared.drain(rt, seat, most)? {
            break;
        }
    }
    Ok(count)
}

/// Does a script's steps at a table, and then a drain by quanta of `most` steps.
fn drained<R: Threads + Wait + Sync>(
    rt: &R,
    alloc: Global,
    table: &mut Table,
    script: &Script,
    most: u32,
) -> Result<Option<Result<u32, Refusal>>, Fail> {
    for command in script.commands() {
        let _ = ask(rt, alloc, table, command)?;
    }
    Ok(match seat_of(&mut table.seats, Actor::Worker(0)) {
        Some(seat) => Some(portions(rt, &table.shared, seat, most)),
        None => None,
    })
}

/// The same steps on a recorded heap, which is drained step by step: both have the same history, and the seats agree
/// with it.
fn agrees(
    rt: &impl Abort,
    alloc: Global,
    table: impl HeldTable + Drop,
    mut held: impl HeldBook + Drop,
    script: &Script,
) -> Result<(), Fail> {
    let book = held.book();
    act_all(alloc, book, script)?;
    let mut replies = Vec::new(alloc);
    let end = book.drain(0, &mut replies);
    same(rt, end, Ok(()));
    settles(rt, alloc, table.settled(), book, ENTRIES)
}

/// A thread's seat drains nothing.
fn refuses(rt: &(impl Abort + Wait), table: &mut Table) {
    match table.seats.first_mut() {
        Some(seat) => same(rt, table.shared.drain(rt, seat, 5), Err(Refusal::NoActor)),
        None => assert!(rt; false, "there is no seat"),
    }
}

/// A drain of a table by quanta of `most` steps takes this many of them.
fn drains_table<R: Abort + Threads + Wait + Sync>(
    rt: &R,
    alloc: Global,
    mut table: impl HeldTable + Drop,
    script: &Script,
    most: u32,
    count: u32,
) -> Result<(), Fail> {
    refuses(rt, table.table());
    let found = drained(rt, alloc, table.table(), script, most)?;
    same(rt, found, Some(Ok(count)));
    agrees(rt, alloc, table, book_of(alloc, script)?, script)
}

/// The same for a new table.
fn drains<R: Abort + Threads + Wait + Sync>(
    rt: &R,
    alloc: Global,
    most: u32,
    count: u32,
) -> Result<(), Fail> {
    let script = script_of(alloc, &[HEAD, MARKED, UNSCANNED])?;
    let table = table_of(alloc, &script, 0)?;
    drains_table(rt, alloc, table, &script, most, count)
}

/// A quantum of 19 steps, which are all, can't detect that nothing is left.
#[test]
fn by_portions(rt: HostRuntime) -> Result<(), Fail> {
    for (most, count) in [(1, 20), (5, 4), (19, 2), (1_024, 1)] {
        drains(&rt, rt.alloc(), most, count)?;
    }
    Ok(())
}
