//! Bitmaps with one bit for each word of a page.

mod kept;

ghost use Rattle.std.specs.Prelude.{◌≡◌, ◌-◌, ◌*◌, ◌/◌, ◌<◌, ◌≤◌, ◌^◌, length, replicate, take, slice_get};
ghost use Rattle.std.specs.Prelude.{slice_index_or, slice_set, get_or, Some, map, true, false, [], IfOk, IfSome, count_by};
ghost use Rattle.std.specs.Option.{option_copied};
ghost use Rattle.sequences.specs.Elements.{change_at};
ghost use Rattle.sequences.specs.Bits.{blank_row, put_bit, of_page, bit_on, bit_count};
ghost use Rattle.markbits.specs.Words.{IsNextPlace};
ghost use Rattle.std.specs.Borrow.{sem};
ghost use Rattle.markbits.specs.Lending.{LendsRow};
ghost use Rattle.markbits.specs.Ranks.{rank_of};

use crate::word_row::WordRow;
use std::alloc::{AllocError, Global};
use std::marker::Model;
use std::mem;

/// A bit for each word of a page. A contract sees the list of them.
///
/// Clearing a bitmap costs the same however long it is: its words are cleared when a bit is set again.
#[derive(Debug, Drop)]
pub struct Row {
    /// The bits; none if the bitmap was cleared and no bit was set since.
    bits: WordRow,
    /// The former bits, if `bits` has none.
    spare: WordRow,
    /// How many bits there are. If 0, the former bits may be of any number.
    len: u32,
}

impl Model for Row {
    ghost use Rattle.std.specs.Prelude.{List, Bool};
    ghost use Rattle.markbits.specs.Cleared.{padded, AreThere};

    ghost Value = { List Bool };

    ghost view = { λ r. padded r.len r.bits };

    ghost invariant = { λ r. AreThere r.len r.bits r.spare };
}

impl Row {
    /// Returns a bitmap of `words` clear bits: in a heap 16 to 32,768, the words of a page. Fails only if out of
    /// memory.
    pub fn new(alloc: Global, words: u32) -> Result<Row, AllocError>
        ensures { IfOk result (λ r. r ≡ replicate words false) }
    {
        Ok(Row {
            bits: WordRow::new(alloc, words)?,
            spare: WordRow::empty(alloc),
            len: words,
        })
    }

    /// Returns a bitmap of no bits. It takes no memory.
    pub fn empty(alloc: Global) -> Row
        ensures { result ≡ [] }
    {
        Row {
            bits: WordRow::empty(alloc),
            spare: WordRow::empty(alloc),
            len: 0,
        }
    }

    /// Returns a copy of the bitmap. Fails only if out of memory.
    pub fn copy(&self, alloc: Global) -> Result<Row, AllocError>
        ensures { IfOk result (λ r. r ≡ self.now) }
    {
        if self.bits.len() != self.len as usize {
            return Row::new(alloc, self.len);
        }
        Ok(Row {
            bits: self.bits.copy(alloc)?,
            spare: WordRow::empty(alloc),
            len: self.len,
        })
    }

    /// Returns whether the other bitmap has the same bits, and as many. Of two without a set bit only the lengths are
    /// compared.
    #[tactic(auto, using(crate::proofs::Cleared::none_same))]
    pub fn is_same(&self, other: &Row) -> bool
        ensures { result ≡ true → self.now ≡ other.now }
    {
        if self.len() != other.len() {
            return false;
        }
        (self.count() == 0 && other.count() == 0) || self.bits.is_same(&other.bits)
    }

    /// Returns how many bits are set.
    #[tactic(auto, using(crate::proofs::Cleared::count_padded))]
    pub fn count(&self) -> usize
        ensures value { result ≡ count_by (λ b. b) self.now }
        ensures range { result < 2 ^ 32 }
    {
        self.bits.count()
    }

    /// Returns whether a bit is set; past the end of the bitmap none is.
    #[inline(always)]
    #[tactic(auto, using(crate::proofs::Cleared::get_padded))]
    pub fn test(&self, offset: usize) -> bool
        ensures { result ≡ slice_index_or self.now offset false }
    {
        self.bits.test(offset)
    }

    /// Sets or clears a bit, if the bitmap is that long.
    #[inline(always)]
    pub fn put(&mut self, offset: usize, bit: bool)
        ensures { self.new ≡ put_bit offset bit self.old }
    {
        if !bit {
            self.bits.put(offset, false);
            return;
        }
        if offset >= self.bits.len() {
            self.set_cleared(offset);
            return;
        }
        self.bits.put(offset, true);
    }

    /// Sets a bit of a bitmap that was cleared, if the bitmap is that long.
    #[cold]
    #[inline(never)]
    fn set_cleared(&mut self, offset: usize)
        ensures { self.new ≡ put_bit offset true self.old }
    {
        if offset < self.len as usize && offset >= self.bits.len() {
            self.spare.clear();
            mem::swap(&mut self.bits, &mut self.spare);
        }
        self.bits.put(offset, true);
    }

    /// Sets a bit and returns its former value. Past the end of the bitmap, sets nothing and returns `None`.
    #[inline(always)]
    pub fn set(&mut self, offset: usize) -> Option<bool>
        ensures was { result ≡ slice_get self.old offset }
        ensures row { self.new ≡ put_bit offset true self.old }
    {
        if offset >= self.bits.len() && offset < self.len as usize {
            self.spare.clear();
            mem::swap(&mut self.bits, &mut self.spare);
        }
        self.bits.set(offset)
    }

    /// Clears a bit, if the bitmap is that long. If no bit is set, this costs one test.
    #[inline(always)]
    pub fn unset(&mut self, offset: usize)
        ensures { self.new ≡ put_bit offset false self.old }
    {
        self.bits.unset(offset);
    }

    /// Clears all bits. It costs the same however many there are.
    pub fn clear(&mut self)
        ensures { self.new ≡ blank_row self.old }
    {
        if self.bits.count() != 0 {
            mem::swap(&mut self.bits, &mut self.spare);
        }
    }

    /// Makes the bitmap one of no bits. The memory of its bits is freed, unless it is one of `most` more that may keep
    /// theirs until `trim`.
    fn give_up(&mut self, most: &mut usize)
        ensures { self.new ≡ [] }
    {
        if *most == 0 {
            *self = Row::empty(self.bits.allocator());
            return;
        }
        *most -= 1;
        if self.bits.len() != 0 {
            mem::swap(&mut self.bits, &mut self.spare);
        }
        self.len = 0;
    }

    /// Returns whether a bitmap of no bits keeps memory.
    fn keeps(&self) -> bool {
        self.len == 0 && self.spare.len() != 0
    }

    /// Returns a bitmap of `words` clear bits, of the memory that this bitmap of no bits keeps; `None` if it keeps none
    /// for as many bits.
    fn reuse(&mut self, words: u32) -> Option<Row>
        ensures value { IfSome result (λ r. r ≡ replicate words false) }
        ensures stays { self.new ≡ self.old }
    {
        if self.len != 0 || self.spare.len() != words as usize {
            return None;
        }
        let alloc = self.spare.allocator();
        let mut spare = WordRow::empty(alloc);
        mem::swap(&mut spare, &mut self.spare);
        Some(Row {
            bits: WordRow::empty(alloc),
            spare,
            len: words,
        })
    }

    /// Frees the memory that a bitmap of no bits keeps, unless it is one of `most` more that may keep theirs.
    fn trim(&mut self, most: &mut usize)
        ensures { self.new ≡ self.old }
    {
        if self.len != 0 || self.spare.len() == 0 {
            return;
        }
        if *most == 0 {
            self.spare = WordRow::empty(self.spare.allocator());
        } else {
            *most -= 1;
        }
    }

    /// Returns the first place from an offset on whose bit is set, or `None`; there is none from the bitmap's end on.
    #[inline(always)]
    #[tactic(auto, using(crate::proofs::Cleared::next_padded))]
    pub fn next_from(&self, offset: usize) -> Option<u32>
        ensures { IsNextPlace self.now offset result }
    {
        self.bits.next_from(offset)
    }

    /// Returns how many bits are set below an offset; from the bitmap's end on, all of them.
    #[tactic(auto, using(crate::proofs::Cleared::rank_padded))]
    pub fn rank(&self, offset: usize) -> usize
        ensures { result ≡ count_by (λ b. b) (take offset self.now) }
    {
        self.bits.rank(offset)
    }

    /// Returns the number of bits, set or not.
    #[inline(always)]
    #[tactic(auto, using(crate::proofs::Cleared::length_padded))]
    pub fn len(&self) -> usize
        ensures value { result ≡ length self.now }
        ensures range { result < 2 ^ 32 }
    {
        self.len as usize
    }

    /// Returns how many bits are set below an offset in the bitmap, given how many are set below the offset's word.
    #[inline(always)]
    pub(crate) fn rank_within(&self, offset: usize, below: u32) -> u32
        requires within { offset < length self.now }
        requires below { below ≡ rank_of self.now (64 * (offset / 64)) }
        ensures { result ≡ rank_of self.now offset }
    {
        if offset >= self.bits.len() {
            return below;
        }
        self.bits.rank_within(offset, below)
    }

    /// Returns how many bits are set below a word that isn't the first, by its index, given how many are set below
    /// the previous word.
    pub(crate) fn rank_word(&self, index: usize, below: u32) -> u32
        requires low { 0 < index }
        requires there { 64 * index ≤ length self.now }
        requires below { below ≡ rank_of self.now (64 * (index - 1)) }
        ensures { result ≡ rank_of self.now (64 * index) }
    {
        if index > self.bits.len() / 64 {
            return below;
        }
        self.bits.rank_word(index, below)
    }
}

/// A bitmap for each page that has a record, by the record's index. The bitmap of a page that isn't used is empty. It
/// takes no memory, unless it was given up and keeps its own for `blank`.
#[derive(Debug, Drop)]
pub struct Rows {
    pub(crate) rows: Vec<Row>,
    /// No bitmap before this index keeps memory after it was given up.
    first_kept: usize,
    /// Bitmaps that were prepared for `blank`.
    prepared: Vec<Row>,
}

impl Model for Rows {
    ghost use Rattle.std.specs.Prelude.{List, Bool};

    ghost Value = { List (List Bool) };

    ghost view = { λ r. r.rows.items };
}

impl Rows {
    /// Returns `count` empty bitmaps: in a heap at most 1,048,575. Fails only if out of memory.
    pub fn new(alloc: Global, count: u32) -> Result<Rows, AllocError>
        ensures { IfOk result (λ r. r ≡ replicate count []) }
    {
        let mut rows = Vec::with_capacity(alloc, count as usize)?;
        for _row in 0..count {
            rows.push(Row::empty(alloc))?;
        }
        Ok(Rows {
            rows,
            first_kept: 0,
            prepared: Vec::new(alloc),
        })
    }

    /// Returns the number of bitmaps, with those that are empty.
    pub fn len(&self) -> usize
        ensures value { result ≡ length self.now }
        ensures range { result < 2 ^ 63 }
    {
        self.rows.len()
    }

    /// Returns the bitmap of an index from 0, if it exists.
    pub fn get(&self, index: usize) -> Option<&Row>
        ensures { option_copied result ≡ slice_get self.now index }
    {
        self.rows.get(index)
    }

    /// Returns whether the bit of an offset of a page is set, by the page's number from 1: the index of its bitmap is
    /// one less. Returns false if there is no such bitmap or bit.
    pub fn bit_on(&self, page: u64, offset: u32) -> bool
        ensures { result ≡ bit_on self.now page offset }
    {
        if page == 0 {
            return false;
        }
        match self.rows.get((page - 1) as usize) {
            None => false,
            Some(row) => row.test(offset as usize),
        }
    }

    /// Returns how many bits are set in all bitmaps, of which there are fewer than 2^32.
    pub fn count(&self) -> u64
        requires { length self.now < 2 ^ 32 }
        ensures { result ≡ bit_count self.now }
    {
        let rows = self.rows.len();
        let mut total = 0;
        for index in 0..rows {
            total += self.rows[index].count() as u64;
        }
        total
    }

    /// Sets or clears a bit of a bitmap, if it exists.
    pub fn put(&mut self, index: usize, offset: usize, bit: bool)
        ensures { self.new ≡ change_at self.old index (put_bit offset bit) }
    {
        if index < self.rows.len() {
            let row = &mut self.rows[index];
            row.put(offset, bit);
        }
    }

    /// Sets a bit of a bitmap, if it exists.
    #[inline(always)]
    pub fn set(&mut self, index: usize, offset: usize)
        ensures { self.new ≡ change_at self.old index (put_bit offset true) }
    {
        if index < self.rows.len() {
            let row = &mut self.rows[index];
            row.put(offset, true);
        }
    }

    /// Clears a bit of a bitmap, if it exists. If the bitmap has no bit set, this costs one test.
    #[inline(always)]
    pub fn unset(&mut self, index: usize, offset: usize)
        ensures { self.new ≡ change_at self.old index (put_bit offset false) }
    {
        if index < self.rows.len() {
            let row = &mut self.rows[index];
            row.unset(offset);
        }
    }

    /// Sets the bit of an offset of a page, by the page's number from 1, and returns its former value, or `None` if
    /// there is no such bitmap or bit. For page 0 the bitmap of page 1 is set.
    #[inline(always)]
    pub fn set_on(&mut self, page: u64, offset: u32) -> Option<bool>
        ensures was { result ≡ slice_get (of_page self.old page) offset }
        ensures rows { self.new ≡ change_at self.old (page - 1) (put_bit offset true) }
    {
        let index = page.saturating_sub(1) as usize;
        if index >= self.rows.len() {
            return None;
        }
        let row = &mut self.rows[index];
        let was = row.set(offset as usize);
        if page == 0 { None } else { was }
    }

    /// Borrows the bitmap of an index from 0, which exists, to change it. When the borrow ends, the table has the
    /// changed bitmap in its place, and its other bitmaps unchanged.
    pub fn row_mut(&mut self, index: usize) -> &mut Row
        requires { index < length self.old }
        ensures* after { sem 𝓛 (LendsRow self.entry index result) }
        ensures value { slice_get self.old index ≡ Some result.now }
    {
        &mut self.rows[index]
    }

    /// Replaces the bitmap of an index, if it exists.
    pub fn place(&mut self, index: usize, row: Row)
        ensures { self.new ≡ slice_set self.old index row }
    {
        if index < self.rows.len() {
            self.rows[index] = row;
        }
    }

    /// Swaps the bitmap of an index, if it exists, with another one.
    pub fn swap_row(&mut self, index: usize, other: &mut Row)
        ensures rows { self.new ≡ slice_set self.old index other.old }
        ensures other { other.new ≡ get_or self.old index other.old }
    {
        if index < self.rows.len() {
            mem::swap(&mut self.rows[index], other);
        }
    }

    /// Clears all bitmaps. One without a set bit costs one test.
    pub fn clear_all(&mut self)
        ensures { self.new ≡ map blank_row self.old }
    {
        for index in 0..self.rows.len() {
            let row = &mut self.rows[index];
            row.clear();
        }
    }

    /// Swaps all bitmaps with those of another table.
    pub fn swap(&mut self, other: &mut Rows)
        ensures here { self.new ≡ other.old }
        ensures there { other.new ≡ self.old }
    {
        mem::swap(self, other);
    }
}
