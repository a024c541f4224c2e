//! Hints as numbers. These calls have no contracts, so that the proofs of tests with many of them are short.

use hints::{HintSeat, Hints};
use refword::Addr;

/// Pushes a number. Returns false if it comes back.
pub fn push(seat: &mut HintSeat, number: u64) -> bool {
    match Addr::new(number) {
        Some(hint) => Hints::push(seat, hint).is_ok(),
        None => false,
    }
}

/// Takes the oldest number of the seat's own deque.
pub fn pop(seat: &mut HintSeat) -> Option<u64> {
    match Hints::pop(seat) {
        Some(hint) => Some(hint.number()),
        None => None,
    }
}

/// Takes the oldest number of another worker's deque.
pub fn steal(seat: &mut HintSeat, from: u32) -> Option<u64> {
    match Hints::steal(seat, from) {
        Some(hint) => Some(hint.number()),
        None => None,
    }
}
