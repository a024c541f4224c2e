//! References.

use crate::same::{same, same_at};
use refword::{Addr, Word};
use std::process::Abort;

/// A reference of an address, marked or not, and its bits.
fn word_of(number: u64, nmt: bool) -> Option<(Word, u64)> {
    let word = Word::of(Addr::new(number)?, nmt);
    Some((word, word.bits()))
}

/// The address of a number, marked or not, is written as these bits, and they are read so.
fn has_bits(rt: &impl Abort, number: u64, nmt: bool, bits: u64) {
    match (word_of(number, nmt), Word::read(bits)) {
        (Some((word, written)), Some(read)) => {
            same(rt, (read, written), (word, bits));
            same(rt, word.with_nmt(!nmt).nmt(), !nmt);
        }
        _ => assert!(rt; false, "no word"),
    }
}

/// With 16 words a page: the references to page 1, offset 0, and to page 2, offset 3. With 32,768: to page 40,000,
/// offset 5.
#[test]
fn bits_of_words(rt: HostRuntime) {
    has_bits(&rt, 16, true, 0x8000_0000_0000_0010);
    has_bits(&rt, 2 * 16 + 3, false, 0x23);
    has_bits(&rt, 1 << 28, false, 0x1000_0000);
    has_bits(&rt, 40_000 * 32_768 + 5, true, 0x8000_0000_4E20_0005);
    same(&rt, Word::read(0), Some(Word::null()));
}

#[test]
fn bits_of_no_word(rt: HostRuntime) {
    for bits in [1 << 63, 1 << 40, (1 << 63) + (1 << 40), 1 << 62, u64::MAX] {
        same_at(&rt, bits, Word::read(bits), None);
    }
}
