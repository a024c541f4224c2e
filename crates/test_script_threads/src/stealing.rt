//! Hints that one worker pushes and pops while another steals them.

use crate::same::{same, same_at};
use crate::taking::{pop, push, steal};
use hints::{HintSeat, Hints};
use std::alloc::{AllocError, Global};
use std::process::Abort;
use std::sync::atomic::{AtomicU64, Ordering};
use std::test::Fail;
use std::thread;
use std::thread::{Threads, join};

/// How many hints there are.
const COUNT: u64 = 1_000;

/// How often each number up to the last was taken, and, at 0, how often one that was never pushed: not yet.
fn none_taken(alloc: Global) -> Result<Vec<u64>, AllocError> {
    let mut counts = Vec::new(alloc);
    for _ in 0..=COUNT {
        counts.push(0u64)?;
    }
    Ok(counts)
}

/// Counts a number that was taken.
fn note(counts: &mut [u64], number: u64) {
    let place = if number > COUNT { 0 } else { number };
    if let Some(count) = counts.get_mut(place as usize) {
        *count = count.wrapping_add(1);
    }
}

/// Takes the seat's own oldest number, if there is one.
fn pop_one(seat: &mut HintSeat, counts: &mut [u64]) {
    if let Some(number) = pop(seat) {
        note(counts, number);
    }
}

/// Returns when the thief has begun, or after many turns.
fn await_thief(begun: &AtomicU64) {
    for _ in 0..1_000_000u32 {
        if begun.load(Ordering::SeqCst) > 0 {
            return;
        }
        thread::yield_now();
    }
}

/// Pushes each number once while the thief steals, and pops after each second one.
fn push_all(mut seat: HintSeat, mut counts: Vec<u64>, begun: &AtomicU64) -> (HintSeat, Vec<u64>) {
    await_thief(begun);
    for number in 1..=COUNT {
        let _ = push(&mut seat, number);
        if number % 2 == 0 {
            pop_one(&mut seat, &mut counts);
        }
    }
    (seat, counts)
}

/// Steals many times.
fn steal_all(mut seat: HintSeat, mut counts: Vec<u64>, begun: &AtomicU64) -> Vec<u64> {
    begun.store(1, Ordering::SeqCst);
    for _ in 0..COUNT * 100 {
        if let Some(number) = steal(&mut seat, 0) {
            note(&mut counts, number);
        }
    }
    counts
}

/// Pops until none is left.
fn pop_all(rt: &impl Abort, mut seat: HintSeat, counts: &mut [u64]) {
    for _ in 0..COUNT {
        pop_one(&mut seat, counts);
    }
    same(rt, pop(&mut seat), None);
}

/// Returns how often a number was taken.
fn count_of(counts: &[u64], number: u64) -> u64 {
    match counts.get(number as usize) {
        Some(count) => *count,
        None => 0,
    }
}

/// By both lists together each number was taken once, and none that was never pushed.
fn each_is_taken_once(rt: &impl Abort, popped: &[u64], stolen: &[u64]) {
    for number in 0..=COUNT {
        let count = count_of(popped, number).wrapping_add(count_of(stolen, number));
        same_at(rt, number, count, if number == 0 { 0 } else { 1 });
    }
}

/// The owner pushes and pops while the thief steals, and then pops the rest.
fn run<R: Abort + Threads>(rt: &R, owner: HintSeat, thief: HintSeat, counts: (Vec<u64>, Vec<u64>)) {
    let (popped, stolen) = counts;
    let flag = AtomicU64::new(0);
    let begun = &flag;
    let ((owner, mut popped), stolen) = join(
        rt,
        move || push_all(owner, popped, begun),
        move || steal_all(thief, stolen, begun),
    );
    pop_all(rt, owner, &mut popped);
    each_is_taken_once(rt, &popped, &stolen);
}

#[test]
fn each_once(rt: HostRuntime) -> Result<(), Fail> {
    let counts = (none_taken(rt.alloc())?, none_taken(rt.alloc())?);
    let mut seats = Hints::new(rt.alloc(), 2)?;
    match (seats.pop(), seats.pop()) {
        (Some(thief), Some(owner)) => run(&rt, owner, thief, counts),
        _ => assert!(rt; false, "there are two seats"),
    }
    Ok(())
}
