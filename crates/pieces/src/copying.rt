//! Copying objects one after another.

ghost use Rattle.std.specs.Prelude.{◌≡◌, ℕ, List, ◌++◌, ◌+◌, ◌-◌, ◌%◌, ◌<◌, ◌≤◌, length, slice_get, if◌then◌else◌};
ghost use Rattle.std.specs.Prelude.{IfSome};
ghost use Rattle.model.specs.Stores.{overlay};
ghost use Rattle.pieces.specs.Pieces.{source_of, laid_by, laid_from, IsBehind};

use crate::cutter::cut_off;
use crate::source::{Source, words_from};
use model::Forwarding;
use refword::Addr;

/// Writes words over those of a list from a place on, up to the list's end.
#[tactic(auto, using(crate::proofs::Overlays::overlaid_past))]
fn lay(target: &mut [u64], place: usize, words: &[u64])
    ensures { target.new ≡ overlay target.old place words.now }
{
    if place >= target.len() {
        return;
    }
    let words = words_from(words, 0, target.len() - place);
    let Some((_before, rest)) = cut_off(target, place) else {
        return;
    };
    let Some((here, _behind)) = cut_off(rest, words.len()) else {
        return;
    };
    here.copy_from_slice(words);
}

/// Returns the offset of an address in its page, by the page's number of words. A power of two, the usual case, needs
/// no division.
#[inline(always)]
fn offset_in(size: u32, address: u64) -> u64
    requires { 0 < size }
    ensures { result ≡ address % size }
{
    let power = 1u64 << size.trailing_zeros();
    if power == u64::from(size) {
        address & (power - 1)
    } else {
        address % u64::from(size)
    }
}

/// Returns how far an address is after an offset of its page; 0 if it is before that.
#[inline(always)]
pub(crate) fn place_behind(source: &Source<'_>, to: Addr, base: usize) -> usize
    requires { 0 < source.now.size }
    ensures { result ≡ to % source.now.size - base }
{
    let place = offset_in(source.size, to.number()) as usize;
    place.saturating_sub(base)
}

/// Returns the entry of a number, if it exists. The offset of the entry before it, if known, makes the search fast.
#[inline(always)]
pub(crate) fn entry_by(source: &Source<'_>, index: usize, before: Option<u32>) -> Option<Forwarding>
    requires { IfSome before (λ o. IsBehind source.now.side.now index o) }
    ensures { result ≡ slice_get source.now.side.now index }
{
    match before {
        None => source.side.entry(index),
        Some(offset) => source.side.entry_after(index, offset),
    }
}

/// Copies the object of an entry to its place, if it isn't copied yet. The words of `target` begin at offset `base`
/// of the target page.
fn copy_entry(source: &Source<'_>, entry: usize, base: usize, target: &mut [u64])
    requires { 0 < source.now.size }
    ensures { target.new ≡ laid_by (source_of source.now) base (slice_get source.now.side.now entry) target.old }
{
    let Some(entry) = source.side.entry(entry) else {
        return;
    };
    if entry.copied {
        return;
    }
    let place = place_behind(source, entry.to, base);
    let size = source.size_at(entry.offset);
    let words = words_from(source.words, entry.offset as usize, size);
    lay(target, place, words);
}

/// Copies words over others of the same number, unless they are already copied.
#[inline(always)]
fn fill(here: &mut [u64], words: &[u64], copied: bool)
    requires { length here.old ≡ length words.now }
    ensures { here.new ≡ (if copied then here.old else words.now) }
{
    if !copied {
        here.copy_from_slice(words);
    }
}

/// Copies the objects of entries from number `first` on, each into the next piece that is cut off the target's words,
/// until one begins before the end of the one before it or doesn't fit. The offset of the entry before `first`, if
/// known, makes the search fast. Returns how many entries are done.
fn copy_pieces(
    source: &Source<'_>,
    first: usize,
    count: usize,
    base: usize,
    before: Option<u32>,
    target: &mut [u64],
) -> usize
    requires size { 0 < source.now.size }
    requires within { first + count ≤ length source.now.side.now }
    requires before { IfSome before (λ o. IsBehind source.now.side.now first o) }
    ensures count { result ≤ count }
    ensures laid { (front : List ℕ) → (at : ℕ) → base ≡ at + length front
        → laid_from (source_of source.now) at first result (front ++ target.old) ≡ front ++ target.new }
{
    let _entries = source.side.len();
    if count == 0 {
        return 0;
    }
    let Some(entry) = entry_by(source, first, before) else {
        return 0;
    };
    let place = place_behind(source, entry.to, 0);
    if place < base {
        return 0;
    }
    let size = source.size_at(entry.offset);
    let words = words_from(source.words, entry.offset as usize, size);
    let Some((_gap, rest)) = cut_off(target, place - base) else {
        return 0;
    };
    let Some((here, rest)) = cut_off(rest, words.len()) else {
        return 0;
    };
    fill(here, words, entry.copied);
    let (behind, before) = (place + words.len(), Some(entry.offset));
    1 + copy_pieces(source, first + 1, count - 1, behind, before, rest)
}

/// The most objects that are written into consecutive pieces before the target's words are cut again from the start.
const STRETCH: usize = 256;

/// Copies the objects of the next entries, of which there is at least one, up to a stretch's length, as long as their
/// places follow each other. Returns how many entries are done.
fn copy_stretch(
    source: &Source<'_>,
    first: usize,
    count: usize,
    base: usize,
    target: &mut [u64],
) -> usize
    requires size { 0 < source.now.size }
    requires within { first + count ≤ length source.now.side.now }
    requires some { 0 < count }
    ensures some { 0 < result }
    ensures count { result ≤ count }
    ensures laid { target.new ≡ laid_from (source_of source.now) base first result target.old }
{
    let copied = copy_pieces(source, first, count.min(STRETCH), base, None, target);
    if copied > 0 {
        return copied;
    }
    copy_entry(source, first, base, target);
    1
}

/// Copies the objects of `count` entries from number `first` on.
pub(crate) fn copy_entries(
    source: &Source<'_>,
    first: usize,
    count: usize,
    base: usize,
    target: &mut [u64],
)
    requires size { 0 < source.now.size }
    requires within { first + count ≤ length source.now.side.now }
    ensures { target.new ≡ laid_from (source_of source.now) base first count target.old }
{
    let _entries = source.side.len();
    let mut done = 0;
    while done < count {
        done += copy_stretch(source, first + done, count - done, base, target);
    }
}

/// Copies the objects of a run: of `count` entries with one target, from number `first` on. Objects that are already
/// copied aren't written. It allocates nothing.
pub fn copy_run(source: &Source<'_>, first: usize, count: usize, target: &mut [u64])
    requires size { 0 < source.now.size }
    requires within { first + count ≤ length source.now.side.now }
    ensures { target.new ≡ laid_from (source_of source.now) 0 first count target.old }
{
    copy_entries(source, first, count, 0, target);
}
