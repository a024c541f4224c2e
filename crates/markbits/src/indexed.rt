//! Bitmaps with an index of those that have a bit set.

ghost use Rattle.std.specs.Prelude.{◌≡◌, replicate, slice_get, slice_set, get_or, map, false, [], IfOk, ◌==◌};
ghost use Rattle.std.specs.Option.{option_copied};
ghost use Rattle.sequences.specs.Elements.{change_at};
ghost use Rattle.sequences.specs.Bits.{put_bit, bit_on, bit_count};
ghost use Rattle.markbits.specs.Words.{IsNextPlace};
ghost use Rattle.markbits.specs.Indexing.{has_bits, settle};

use crate::indexed_row::IndexedRow;
use crate::rows::{Row, Rows};
use std::alloc::{AllocError, Global};
use std::marker::Model;

/// A bitmap for each page that has a record, by the record's index, as in `Rows`. Bitmaps that have a bit set are
/// found without reading the others.
#[derive(Debug, Drop)]
pub struct IndexedRows {
    pub(crate) rows: Rows,
    /// Bit `i` is set if bitmap `i` has a bit set.
    pub(crate) busy: IndexedRow,
}

impl Model for IndexedRows {
    ghost use Rattle.std.specs.Prelude.{◌≡◌, List, Bool, map};
    ghost use Rattle.markbits.specs.Indexing.{has_bits};

    ghost Value = { List (List Bool) };

    ghost view = { λ r. r.rows };

    ghost invariant = { λ r. r.busy ≡ map has_bits r.rows };
}

/// Sets an entry of the index to whether the bitmap of that index has a bit set, if it exists. Mostly the entry is
/// right already.
#[inline(always)]
#[tactic(auto, using(crate::proofs::Busy::settled_before))]
pub(crate) fn settle(busy: &mut IndexedRow, rows: &Rows, index: usize)
    ensures { busy.new ≡ settle busy.old index (slice_get rows.now index) }
{
    if let Some(row) = rows.get(index) {
        let has_bits = row.count() != 0;
        if busy.test(index) != has_bits {
            busy.put(index, has_bits);
        }
    }
}

impl IndexedRows {
    /// Returns `count` empty bitmaps: in a heap at most 1,048,575. Fails only if out of memory.
    #[tactic(auto, using(crate::proofs::Busy::none_busy))]
    pub fn new(alloc: Global, count: u32) -> Result<IndexedRows, AllocError>
        ensures { IfOk result (λ r. r ≡ replicate count []) }
    {
        let rows = Rows::new(alloc, count)?;
        let busy = IndexedRow::new(alloc, count)?;
        Ok(IndexedRows { rows, busy })
    }

    /// Returns the bitmaps without the index.
    pub fn rows(&self) -> &Rows
        ensures { result.now ≡ self.now }
    {
        &self.rows
    }

    /// Returns the bitmap of an index from 0, if it exists.
    pub fn get(&self, index: usize) -> Option<&Row>
        ensures { option_copied result ≡ slice_get self.now index }
    {
        self.rows.get(index)
    }

    /// Returns whether the bit of an offset of a page is set, by the page's number from 1: the index of its bitmap is
    /// one less. Returns false if there is no such bitmap or bit.
    pub fn bit_on(&self, page: u64, offset: u32) -> bool
        ensures { result ≡ bit_on self.now page offset }
    {
        self.rows.bit_on(page, offset)
    }

    /// Returns whether no bit is set in any bitmap.
    #[tactic(auto, using(crate::proofs::Busy::none_counted))]
    pub fn is_empty(&self) -> bool
        ensures { result ≡ (bit_count self.now == 0) }
    {
        self.busy.count() == 0
    }

    /// Returns the index, from 0, of the first bitmap from an index on that has a bit set, or `None`.
    pub fn next_busy(&self, index: usize) -> Option<u32>
        ensures { IsNextPlace (map has_bits self.now) index result }
    {
        self.busy.next_from(index)
    }

    /// Sets or clears a bit of a bitmap, if it exists. If the bit has that value already, nothing else is read.
    #[tactic(auto, using(crate::proofs::Busy::settled, crate::proofs::Busy::put_again))]
    pub fn put(&mut self, index: usize, offset: usize, bit: bool)
        ensures { self.new ≡ change_at self.old index (put_bit offset bit) }
    {
        if let Some(row) = self.get(index) {
            if row.test(offset) == bit {
                return;
            }
        }
        self.rows.put(index, offset, bit);
        settle(&mut self.busy, &self.rows, index);
    }

    /// Clears a bit of a bitmap, if it exists. If no bit is set in any bitmap, this costs one test.
    #[inline(always)]
    #[tactic(auto, using(crate::proofs::Bare::none_unset))]
    pub fn unset(&mut self, index: usize, offset: usize)
        ensures { self.new ≡ change_at self.old index (put_bit offset false) }
    {
        if !self.is_empty() {
            self.put(index, offset, false);
        }
    }

    /// Replaces the bitmap of an index, if it exists.
    #[tactic(auto, using(crate::proofs::Busy::settled_placed))]
    pub fn place(&mut self, index: usize, row: Row)
        ensures { self.new ≡ slice_set self.old index row }
    {
        self.rows.place(index, row);
        settle(&mut self.busy, &self.rows, index);
    }

    /// Swaps the bitmap of an index, if it exists, with another one.
    #[tactic(auto, using(crate::proofs::Busy::settled_placed))]
    pub fn swap_row(&mut self, index: usize, other: &mut Row)
        ensures rows { self.new ≡ slice_set self.old index other.old }
        ensures other { other.new ≡ get_or self.old index other.old }
    {
        self.rows.swap_row(index, other);
        settle(&mut self.busy, &self.rows, index);
    }

    /// Makes a bitmap, if it exists, one of no bits. If `most` isn't 0, it decreases, and the memory is kept until
    /// another bitmap takes this one's place, or until `trim`.
    #[tactic(auto, using(crate::proofs::Busy::settled_placed))]
    pub fn give_up(&mut self, index: usize, most: &mut usize)
        ensures { self.new ≡ slice_set self.old index [] }
    {
        self.rows.give_up(index, most);
        settle(&mut self.busy, &self.rows, index);
    }

    /// Prepares memory for one more bitmap of `words` bits, as `Rows::prepare`. Fails only if out of memory.
    pub fn prepare(&mut self, words: u32) -> Result<(), AllocError>
        ensures { self.new ≡ self.old }
    {
        self.rows.prepare(words)
    }

    /// Returns a bitmap of `words` clear bits: of memory that was kept when a bitmap was given up, that was prepared, or
    /// new. Fails only if out of memory.
    pub fn blank(&mut self, words: u32) -> Result<Row, AllocError>
        ensures value { IfOk result (λ r. r ≡ replicate words false) }
        ensures stays { self.new ≡ self.old }
    {
        self.rows.blank(words)
    }

    /// Frees the memory that is kept of bitmaps that were given up, and of those that were prepared, except that of
    /// the first `most`.
    pub fn trim(&mut self, most: usize)
        ensures { self.new ≡ self.old }
    {
        self.rows.trim(most);
    }
}
