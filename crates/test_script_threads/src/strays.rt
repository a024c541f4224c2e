//! Seats of one recorded heap, settled with another.

use crate::same::{done, same};
use cycle::{Actor, Answer, Book, Step};
use script_threads::tell_stray;
use sharing::{Seat, Settled, Shared, settle};
use std::alloc::Global;
use std::process::Abort;
use std::sync::Wait;
use test_support_samples::shared_by_two;

/// Shares a new recorded heap, with its seats.
fn open(rt: &impl Abort, alloc: Global) -> (Shared, Vec<Seat>) {
    let config = done(rt, shared_by_two(alloc));
    let book = done(rt, Book::new(alloc, config));
    done(rt, Shared::open(alloc, book).ok().ok_or("not shared"))
}

/// The first thread of a shared recorded heap takes a page.
fn take(rt: &(impl Abort + Wait), shared: &Shared, seats: &mut [Seat]) {
    match seats.first_mut() {
        Some(seat) => {
            let reply = shared.step(rt, seat, Step::Take(16));
            same(rt, reply, Ok(Answer::Lent { page: 1, offset: 0 }));
        }
        None => same(rt, "there is no seat", ""),
    }
}

/// Returns the seats that were settled with a recorded heap.
fn seats_in(settled: Settled) -> Vec<Seat> {
    let Settled { book, seats } = settled;
    drop(book);
    seats
}

/// Returns the seats after they are settled with their own recorded heap.
fn settled(shared: Shared, seats: Vec<Seat>) -> Option<Vec<Seat>> {
    settle(shared.into_book(), seats).ok().map(seats_in)
}

/// Returns the stray of a recorded heap that is settled with these seats.
fn stray_of(shared: Shared, seats: Vec<Seat>) -> Option<Actor> {
    match settle(shared.into_book(), seats).err() {
        Some(stray) => Some(stray.actor),
        None => None,
    }
}

/// Returns the stray of a recorded heap whose first thread has taken a page, with the seats of another one.
fn stray_with(
    rt: &(impl Abort + Wait),
    shared: Shared,
    mut seats: Vec<Seat>,
    others: Option<Vec<Seat>>,
) -> Option<Actor> {
    take(rt, &shared, &mut seats);
    match others {
        Some(others) => stray_of(shared, others),
        None => None,
    }
}

/// Returns the stray of a new recorded heap with the seats of another one, which were settled with that.
fn stray(rt: &(impl Abort + Wait), alloc: Global) -> Option<Actor> {
    let (other, seats) = open(rt, alloc);
    let others = settled(other, seats);
    let (shared, seats) = open(rt, alloc);
    stray_with(rt, shared, seats, others)
}

/// A stray actor has this line.
fn is_told(rt: &impl Abort, alloc: Global, actor: Actor, line: &str) {
    let mut output = Vec::new(alloc);
    same(rt, tell_stray(actor, &mut output).is_ok(), true);
    same(rt, output.as_slice(), line.as_bytes());
}

#[test]
fn seats_of_another_book(rt: HostRuntime) {
    let actor = Actor::Thread(0);
    same(&rt, stray(&rt, rt.alloc()), Some(actor));
    is_told(&rt, rt.alloc(), actor, "stray t0\n");
}
