//! The pieces in which a page is copied have the numbers from 0 on, each once, to any depth.

use crate::halving::{copied, is_empty, new_book, protect};
use crate::same::same;
use cycle::{Book, PieceGate, Reply};
use std::process::Abort;
use std::sync::atomic::{AtomicU64, Ordering};
use std::test::Fail;
use std::thread::Threads;
use test_support_books::HeldBook;

/// Which pieces have begun: their number, and the sum of the bit at the place of each piece's number. If the sum has
/// as many bits as pieces have begun, their numbers differ.
#[derive(Drop)]
struct Numbers {
    begun: AtomicU64,
    bits: AtomicU64,
}

impl PieceGate for Numbers {
    fn begin(&self, piece: u32) {
        self.begun.fetch_add(1, Ordering::SeqCst);
        self.bits.fetch_add(1u64 << piece.min(63), Ordering::SeqCst);
    }
}

/// Returns the state before any piece has begun.
fn nothing_begun() -> Numbers {
    Numbers {
        begun: AtomicU64::new(0),
        bits: AtomicU64::new(0),
    }
}

/// Returns whether `pieces` pieces have begun, each once, with the numbers from 0 on.
fn are_numbered(numbers: &Numbers, pieces: u32) -> bool {
    let bits = (1u64 << pieces.min(63)) - 1;
    let begun = numbers.begun.load(Ordering::SeqCst);
    begun == u64::from(pieces) && numbers.bits.load(Ordering::SeqCst) == bits
}

/// The worker copies page 2 by halves to a depth.
fn copy_by(rt: &(impl Threads + Sync), book: &mut Book, depth: u32, gate: &Numbers) -> Reply {
    book.copy_page_by(rt, 0, 2, depth, gate)
}

/// Four objects of page 1 and five of page 2 go to two targets: the first one of page 2 after those of page 1, and
/// four to the next. So page 2 is copied in two runs of up to `pieces` pieces each, some of which are empty.
fn begins(
    rt: &(impl Abort + Threads + Sync),
    mut held: impl HeldBook + Drop,
    pages: Vec<u32>,
    depth: u32,
    pieces: u32,
) {
    let book = held.book();
    let gate = nothing_begun();
    protect(rt, book, 4, 5, pages);
    let reply = copy_by(rt, book, depth, &gate);
    same(rt, (depth, reply), (depth, copied(5)));
    let are_all = are_numbered(&gate, 2 * pieces.min(16));
    same(rt, (depth, are_all), (depth, true));
    is_empty(rt, book, 2);
}

/// A depth above 4 counts as 4.
#[test]
fn pieces_of_each_depth(rt: HostRuntime) -> Result<(), Fail> {
    for (depth, pieces) in [(0, 1), (1, 2), (2, 4), (3, 8), (4, 16), (5, 16)] {
        let pages = vec![in rt.alloc(); 1, 2]?;
        begins(&rt, new_book(rt.alloc())?, pages, depth, pieces);
    }
    Ok(())
}

/// Returns whether pieces of these numbers would pass as three.
fn pass(pieces: &[u32]) -> bool {
    let gate = nothing_begun();
    for piece in pieces {
        gate.begin(*piece);
    }
    are_numbered(&gate, 3)
}

/// The test above detects wrong numbers: one that is missing, used twice, too high or counted from 1.
#[test]
fn wrong_numbers_are_seen(rt: HostRuntime) {
    let wrong: [&[u32]; 6] = [
        &[0, 1],
        &[0, 1, 1],
        &[0, 0, 1, 1],
        &[0, 1, 3],
        &[1, 2, 3],
        &[0, 1, 2, 3],
    ];
    same(&rt, pass(&[2, 0, 1]), true);
    for pieces in wrong {
        same(&rt, pass(pieces), false);
    }
}
