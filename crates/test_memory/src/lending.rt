//! Writes through borrowed words: a complete page, one page while another is read, and pieces of a slice.

use crate::pages::takes;
use crate::same::{done, same, same_at};
use page::{Cutter, Store};
use std::process::Abort;

/// What `fill_pages` writes to page 1.
const FIRST: [u64; 16] = [1, 2, 3, 4, 5, 6, 7, 8, 9, 10, 11, 12, 13, 14, 15, 16];

/// What it writes to page 3.
const THIRD: [u64; 16] = [
    201, 202, 203, 204, 205, 206, 207, 208, 209, 210, 211, 212, 213, 214, 215, 216,
];

/// Opens the pages 1 to 3 and writes 1 to 16, 101 to 116 and 201 to 216 to their words.
fn fill_pages(rt: &impl Abort, store: &mut Store) {
    takes(rt, store, &[(16, 1, 0), (16, 2, 0), (16, 3, 0)]);
    for offset in 0..16 {
        store.set_word(16 + offset, offset + 1);
        store.set_word(2 * 16 + offset, offset + 101);
        store.set_word(3 * 16 + offset, offset + 201);
    }
}

/// Page 2 has these words, and its neighbours have those that `fill_pages` has written.
fn has_second(rt: &impl Abort, store: &Store, words: &[u64]) {
    same(rt, store.words(1), Some(FIRST.as_slice()));
    same(rt, store.words(2), Some(words));
    same(rt, store.words(3), Some(THIRD.as_slice()));
}

/// Copies words over others, and then changes the first.
fn copy_words(rt: &impl Abort, from: &[u64], to: &mut [u64]) {
    assert!(rt; from.len() == to.len());
    to.copy_from_slice(from);
    if let Some(word) = to.first_mut() {
        *word = 99;
    }
}

/// Borrows page 1 for reading and page 2 for writing. `lend` returns `None` for two equal pages, and if one has no
/// frame.
fn lend_pages(rt: &impl Abort, store: &mut Store) {
    match store.lend(1, 2) {
        Some((from, to)) => copy_words(rt, from, to),
        None => assert!(rt; false, "not lent"),
    }
    for (from, to) in [(1, 1), (1, 4), (4, 1), (0, 1), (1, 9)] {
        same_at(rt, from, store.lend(from, to).is_some(), false);
    }
}

/// Borrows page 2 for writing.
fn write_page(rt: &impl Abort, store: &mut Store) {
    assert!(rt; store.has_frame(2));
    let words = store.words_mut(2);
    words.fill(7);
    if let Some(word) = words.last_mut() {
        *word = 8;
    }
}

/// Writes to page 2, first with page 1 borrowed for reading, then alone.
fn writes(rt: &impl Abort, store: &mut Store) {
    fill_pages(rt, store);
    lend_pages(rt, store);
    has_second(
        rt,
        store,
        &[99, 2, 3, 4, 5, 6, 7, 8, 9, 10, 11, 12, 13, 14, 15, 16],
    );
    write_page(rt, store);
    has_second(rt, store, &[7, 7, 7, 7, 7, 7, 7, 7, 7, 7, 7, 7, 7, 7, 7, 8]);
}

#[test]
fn words_of_pages(rt: HostRuntime) {
    let mut store = done(&rt, Store::new(rt.alloc(), 16, 4, 8));
    writes(&rt, &mut store);
}

/// Writes one number over all words of a piece, which has `len` of them.
fn fill_piece(rt: &impl Abort, piece: Option<&mut [u64]>, len: usize, value: u64) {
    match piece {
        Some(words) => {
            same(rt, words.len(), len);
            words.fill(value);
        }
        None => assert!(rt; false, "no piece"),
    }
}

/// Cuts pieces of 3, 0, 4 and 2 words off ten, and writes to them in reverse order. Two requests for more words than
/// are left cut nothing.
fn cut_pieces(rt: &impl Abort, words: &mut [u64]) {
    let mut cutter = Cutter::new(words);
    let first = cutter.cut(3);
    let empty = cutter.cut(0);
    let second = cutter.cut(4);
    same(rt, cutter.cut(4).is_some(), false);
    let third = cutter.cut(2);
    same(rt, cutter.cut(2).is_some(), false);
    fill_piece(rt, third, 2, 3);
    fill_piece(rt, second, 4, 2);
    fill_piece(rt, empty, 0, 9);
    fill_piece(rt, first, 3, 1);
}

#[test]
fn pieces_of_a_slice(rt: HostRuntime) {
    let mut words = [10, 11, 12, 13, 14, 15, 16, 17, 18, 19];
    cut_pieces(&rt, &mut words);
    same(&rt, words, [1, 1, 1, 2, 2, 2, 2, 3, 3, 19]);
}
