//! A bitmap in which set bits are counted by one number and one word.

ghost use Rattle.std.specs.Prelude.{◌≡◌, ◌+◌, ◌-◌, ◌*◌, ◌<◌, ◌≤◌, length, slice_index_or, [], IfOk, false};
ghost use Rattle.markbits.specs.Ranks.{IsPlaceOf, IsRanked, rank_of};

use crate::rows::Row;
use std::alloc::{AllocError, Global};
use std::marker::Model;

/// A bitmap that doesn't change, with the number of bits that are set before each of its words. A contract sees the
/// list of the bits.
#[derive(Debug, Drop)]
pub struct RankedRow {
    row: Row,
    /// Number `i` is how many bits are set below place `64 * i`.
    before: Vec<u32>,
}

impl Model for RankedRow {
    ghost use Rattle.std.specs.Prelude.{List, Bool};
    ghost use Rattle.markbits.specs.Ranks.{IsRanked};

    ghost Value = { List Bool };

    ghost view = { λ r. r.row };

    ghost invariant = { λ r. IsRanked r.row r.before.items };
}

/// Returns how many bits are set before a word, by its index, given how many are set before the previous word, if
/// there is one.
fn rank_at(row: &Row, index: usize, last: u32) -> u32
    requires there { 64 * index ≤ length row.now }
    requires last { 0 < index → last ≡ rank_of row.now (64 * (index - 1)) }
    ensures { result ≡ rank_of row.now (64 * index) }
{
    if index == 0 {
        0
    } else {
        row.rank_word(index, last)
    }
}

/// Returns how many bits are set before each word of a bitmap.
fn ranks(alloc: Global, row: &Row) -> Result<Vec<u32>, AllocError>
    ensures { IfOk result (λ v. IsRanked row.now v.items) }
{
    let count = row.len().div_ceil(64);
    let mut before = Vec::with_capacity(alloc, count)?;
    let mut last = 0;
    for index in 0..count {
        last = rank_at(row, index, last);
        before.push(last)?;
    }
    Ok(before)
}

impl RankedRow {
    /// Returns a bitmap that keeps the bits of `row`. Fails only if out of memory.
    pub fn new(alloc: Global, row: Row) -> Result<RankedRow, AllocError>
        ensures { IfOk result (λ r. r ≡ row) }
    {
        let before = ranks(alloc, &row)?;
        Ok(RankedRow { row, before })
    }

    /// Returns a bitmap of no bits. It takes no memory.
    pub fn empty(alloc: Global) -> RankedRow
        ensures { result ≡ [] }
    {
        RankedRow {
            row: Row::empty(alloc),
            before: Vec::new(alloc),
        }
    }

    /// Returns the plain bitmap.
    #[inline(always)]
    pub fn row(&self) -> &Row
        ensures { result.now ≡ self.now }
    {
        &self.row
    }

    /// Returns whether a bit is set; past the end of the bitmap none is.
    #[inline(always)]
    pub fn test(&self, offset: usize) -> bool
        ensures { result ≡ slice_index_or self.now offset false }
    {
        self.row.test(offset)
    }

    /// Returns how many bits are set below an offset; from the bitmap's end on, all of them. It reads one number and
    /// one word.
    #[inline(always)]
    pub fn rank(&self, offset: usize) -> usize
        ensures { result ≡ rank_of self.now offset }
    {
        if offset >= self.row.len() {
            return self.row.rank(offset);
        }
        self.row.rank_within(offset, self.before[offset / 64]) as usize
    }

    /// Returns a place from which to seek set bit `number`, and how many set bits to skip from there: the head of the
    /// last word with at most `number` set bits before it.
    fn start(&self, number: usize) -> (usize, usize)
        ensures { rank_of self.now result.0 + result.1 ≡ number }
    {
        let mut low = 0;
        let mut high = self.before.len();
        while low + 1 < high {
            let middle = low + (high - low) / 2;
            if self.before[middle] as usize <= number {
                low = middle;
            } else {
                high = middle;
            }
        }
        self.start_at(low, number)
    }

    /// Returns the head of word `index` if at most `number` bits are set before it; else that of the bitmap.
    fn start_at(&self, index: usize, number: usize) -> (usize, usize)
        ensures { rank_of self.now result.0 + result.1 ≡ number }
    {
        let _ = self.row.len();
        if index >= self.before.len() {
            return (0, number);
        }
        let below = self.before[index] as usize;
        if below > number {
            return (0, number);
        }
        (64 * index, number - below)
    }

    /// Like `start`, but starts at `near` if the bit is one of the first two set bits from there on.
    #[inline(always)]
    fn start_near(&self, number: usize, near: usize) -> (usize, usize)
        ensures { rank_of self.now result.0 + result.1 ≡ number }
    {
        let below = self.rank(near);
        if number < below || number - below > 1 {
            return self.start(number);
        }
        self.step_over(near, number - below)
    }

    /// Skips the bit at a place if it is set and any are to be skipped: returns the next place, and one fewer to
    /// skip.
    #[inline(always)]
    fn step_over(&self, place: usize, left: usize) -> (usize, usize)
        ensures { rank_of self.now result.0 + result.1 ≡ rank_of self.now place + left }
    {
        if left > 0 && place < self.row.len() && self.test(place) {
            return (place + 1, left - 1);
        }
        (place, left)
    }

    /// Returns the place of set bit `number`, or `None` if there is none, given a place and how many set bits to skip
    /// from there.
    fn place_behind(&self, number: usize, start: (usize, usize)) -> Option<u32>
        requires { rank_of self.now start.0 + start.1 ≡ number }
        ensures { IsPlaceOf self.now number result }
    {
        let (mut from, mut left) = start;
        while let Some(place) = self.row.next_from(from) {
            if left == 0 {
                return Some(place);
            }
            left -= 1;
            from = place as usize + 1;
        }
        None
    }

    /// Returns the place of set bit `number`, from 0, or `None` if there is none.
    pub fn place(&self, number: usize) -> Option<u32>
        ensures { IsPlaceOf self.now number result }
    {
        self.place_behind(number, self.start(number))
    }

    /// Returns the same as `place`, but looks near a place first: if the bit is the first or second set bit from
    /// there on, it is found without a search, by one number and the words up to the bit.
    pub fn place_near(&self, number: usize, near: usize) -> Option<u32>
        ensures { IsPlaceOf self.now number result }
    {
        self.place_behind(number, self.start_near(number, near))
    }
}
