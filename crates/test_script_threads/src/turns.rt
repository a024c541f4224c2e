//! Hints are taken oldest first, and from the deque of a steal's worker.

use crate::same::{done, same, same_at};
use crate::taking::{pop, push, steal};
use hints::{HintSeat, Hints};
use std::process::Abort;

/// How many hints there are: more than a deque's first slots.
const COUNT: u64 = 200;

/// The owner pushes all.
fn push_all(rt: &impl Abort, owner: &mut HintSeat) {
    for number in 1..=COUNT {
        same_at(rt, number, push(owner, number), true);
    }
}

/// The owner and the thief take them in turn.
fn take_all(rt: &impl Abort, owner: &mut HintSeat, thief: &mut HintSeat) {
    for number in 1..=COUNT {
        let found = if number % 2 == 0 {
            pop(owner)
        } else {
            steal(thief, 0)
        };
        same_at(rt, number, found, Some(number));
    }
}

/// No hint is left, nor has the thief any of its own. A seat steals nothing from its own deque, nor from one that
/// doesn't exist.
fn is_over(rt: &impl Abort, owner: &mut HintSeat, thief: &mut HintSeat) {
    same(rt, pop(owner), None);
    same(rt, steal(thief, 0), None);
    same(rt, pop(thief), None);
    same(rt, push(owner, 1), true);
    same(rt, steal(owner, 0), None);
    same(rt, steal(thief, 2), None);
    same(rt, steal(thief, 0), Some(1));
    same(rt, pop(owner), None);
}

#[test]
fn oldest_first(rt: HostRuntime) {
    let mut seats = done(&rt, Hints::new(rt.alloc(), 2));
    match seats.as_mut_slice() {
        [owner, thief, ..] => {
            push_all(&rt, owner);
            take_all(&rt, owner, thief);
            is_over(&rt, owner, thief);
        }
        _ => same(&rt, "there are two seats", ""),
    }
}

/// Each of three seats pushes a number of its own.
fn push_each(rt: &impl Abort, seats: &mut [HintSeat]) {
    let mut number = 1;
    for seat in seats {
        same_at(rt, number, push(seat, number), true);
        number = number.wrapping_add(1);
    }
}

/// Each of three seats steals the number of the next one, and then, when all have pushed again, of the one before.
fn steal_crosswise(rt: &impl Abort, seats: &mut [HintSeat]) {
    push_each(rt, seats);
    steal_each(rt, seats, [1, 2, 0]);
    push_each(rt, seats);
    steal_each(rt, seats, [2, 0, 1]);
}

/// Each of three seats steals from the seat of this number, which has pushed one more than that.
fn steal_each(rt: &impl Abort, seats: &mut [HintSeat], from: [u32; 3]) {
    for (seat, number) in seats.iter_mut().zip(from) {
        same_at(rt, number, steal(seat, number), Some(u64::from(number) + 1));
        same_at(rt, number, steal(seat, number), None);
    }
}

#[test]
fn from_whom_is_named(rt: HostRuntime) {
    let mut seats = done(&rt, Hints::new(rt.alloc(), 3));
    same(&rt, seats.len(), 3);
    steal_crosswise(&rt, seats.as_mut_slice());
}
