//! Stopping shared recorded heaps, and waiting for a step that stalls.

use crate::same::{done, same};
use cycle::{Actor, Answer, Reply, Step};
use model::Refusal;
use parser::Script;
use sharing::{Seat, Shared};
use std::alloc::Global;
use std::process::Abort;
use std::sync::Wait;
use std::sync::atomic::{AtomicU64, Ordering};
use std::test::Fail;
use std::thread;
use std::thread::{Threads, join};
use test_support_books::{
    HEAD, HeldTable, MARKED, Table, ask, script_of, seat_of, shared_image, table_of, text_of,
};

/// The marked object's page is protected, and one thread of two has crossed: it may not use the object yet.
const HALF_CROSSED: &str = "w0 protect 1\nt0 cross\n";

/// The step that stalls.
const READ: Step = Step::Datum {
    object: 0,
    index: 0,
};

/// Returns a table after a script's steps.
fn behind<R: Threads + Wait + Sync, T: HeldTable + Drop>(
    rt: &R,
    alloc: Global,
    mut table: T,
    script: &Script,
) -> Result<T, Fail> {
    ask_all(rt, alloc, table.table(), script)?;
    Ok(table)
}

/// Returns a table where one thread has crossed.
fn half_crossed<R: Threads + Wait + Sync>(rt: &R, alloc: Global) -> Result<Table, Fail> {
    let script = script_of(alloc, &[HEAD, MARKED, HALF_CROSSED])?;
    behind(rt, alloc, table_of(alloc, &script, 0)?, &script)
}

/// Does all steps of a script at a table.
fn ask_all<R: Threads + Wait + Sync>(
    rt: &R,
    alloc: Global,
    table: &mut Table,
    script: &Script,
) -> Result<(), Fail> {
    for command in script.commands() {
        let _ = ask(rt, alloc, table, command)?;
    }
    Ok(())
}

/// Appends the image of a shared heap and the lists of its seats to a text.
fn put_state(rt: &(impl Abort + Wait), alloc: Global, table: &Table, text: &mut String) {
    let image = done(rt, shared_image(rt, alloc, &table.shared));
    done(rt, text.push_str(&image));
    for seat in &table.seats {
        let list = done(rt, text_of(alloc, seat.list()));
        done(rt, text.push_str(&list));
    }
}

/// A stop is seen from then on.
fn stops(rt: &(impl Abort + Wait), shared: &Shared) {
    same(rt, shared.is_stopped(rt), false);
    shared.stop(rt);
    same(rt, shared.is_stopped(rt), true);
}

/// A stop changes neither the image nor the lists.
fn sees_stop(rt: &(impl Abort + Wait), alloc: Global, table: &Table) {
    let (mut before, mut after) = (String::new(alloc), String::new(alloc));
    put_state(rt, alloc, table, &mut before);
    stops(rt, &table.shared);
    put_state(rt, alloc, table, &mut after);
    same(rt, after.as_str(), before.as_str());
}

/// A step that stalls fails with `Stall`; if the heap was stopped, also one that would wait.
fn stalls<R: Abort + Wait>(rt: &R, shared: &Shared, seat: &mut Seat) {
    same(rt, shared.step(rt, seat, READ), Err(Refusal::Stall));
    same(rt, shared.step_wait(rt, seat, READ), Err(Refusal::Stall));
    same(rt, shared.ask(rt, seat, &READ), Err(Refusal::Stall));
}

/// A table is stopped, and then a step that would wait fails with `Stall`.
fn is_stopped(rt: &(impl Abort + Wait), alloc: Global, mut held: impl HeldTable + Drop) {
    let table = held.table();
    sees_stop(rt, alloc, table);
    match seat_of(&mut table.seats, Actor::Thread(0)) {
        Some(seat) => stalls(rt, &table.shared, seat),
        None => assert!(rt; false, "no such seat"),
    }
}

#[test]
fn a_stop_is_seen(rt: HostRuntime) -> Result<(), Fail> {
    is_stopped(&rt, rt.alloc(), half_crossed(&rt, rt.alloc())?);
    Ok(())
}

/// Returns when another thread has begun its call and had time to wait.
fn linger(asking: &AtomicU64) {
    for _ in 0..1_000_000u32 {
        if asking.load(Ordering::SeqCst) > 0 {
            break;
        }
        thread::yield_now();
    }
    for _ in 0..100_000u32 {
        thread::yield_now();
    }
}

/// Does the step, and waits while it stalls.
fn wait<R: Wait>(rt: &R, shared: &Shared, seat: &mut Seat, asking: &AtomicU64) -> Reply {
    asking.store(1, Ordering::SeqCst);
    shared.step_wait(rt, seat, READ)
}

/// A thread waits, and another one stops the recorded heap.
fn woken_by_stop<R: Threads + Wait + Sync>(rt: &R, shared: &Shared, waiting: &mut Seat) -> Reply {
    let asking = AtomicU64::new(0);
    let (reply, ()) = join(
        rt,
        || wait(rt, shared, waiting, &asking),
        || {
            linger(&asking);
            shared.stop(rt);
        },
    );
    reply
}

/// A thread waits, and another one does the crossing for which it waits. Returns both replies.
fn woken_by_step<R: Threads + Wait + Sync>(
    rt: &R,
    shared: &Shared,
    waiting: &mut Seat,
    crossing: &mut Seat,
) -> (Reply, Reply) {
    let asking = AtomicU64::new(0);
    join(
        rt,
        || wait(rt, shared, waiting, &asking),
        || {
            linger(&asking);
            shared.step(rt, crossing, Step::Cross)
        },
    )
}

/// The first thread waits, and the second one crosses.
fn first_waits<R: Threads + Wait + Sync>(
    rt: &R,
    shared: &Shared,
    seats: &mut [Seat],
) -> Option<(Reply, Reply)> {
    match seats {
        [waiting, crossing, ..] => Some(woken_by_step(rt, shared, waiting, crossing)),
        _ => None,
    }
}

/// At a table a thread waits, and is woken by a stop.
fn wakes_by_stop<R: Abort + Threads + Wait + Sync>(rt: &R, mut held: impl HeldTable + Drop) {
    let table = held.table();
    let seat = seat_of(&mut table.seats, Actor::Thread(0));
    let reply = seat.map(|seat| woken_by_stop(rt, &table.shared, seat));
    same(rt, reply, Some(Err(Refusal::Stall)));
}

#[test]
fn a_stop_ends_a_wait(rt: HostRuntime) -> Result<(), Fail> {
    wakes_by_stop(&rt, half_crossed(&rt, rt.alloc())?);
    Ok(())
}

/// At a table a thread waits, and is woken by a crossing, after which the register has to be scrubbed first.
fn wakes_by_step<R: Abort + Threads + Wait + Sync>(rt: &R, mut held: impl HeldTable + Drop) {
    let table = held.table();
    let replies = first_waits(rt, &table.shared, &mut table.seats);
    same(rt, replies, Some((Err(Refusal::Stale), Ok(Answer::Done))));
}

#[test]
fn a_step_ends_a_wait(rt: HostRuntime) -> Result<(), Fail> {
    wakes_by_step(&rt, half_crossed(&rt, rt.alloc())?);
    Ok(())
}
