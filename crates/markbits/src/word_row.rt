//! A bitmap in words.

ghost use Rattle.std.specs.Prelude.{◌≡◌, ℕ, ◌+◌, ◌-◌, ◌*◌, ◌/◌, ◌<◌, ◌≤◌, ◌^◌, length, replicate, take, slice_get};
ghost use Rattle.std.specs.Prelude.{slice_index_or, false, true, [], IfOk, count_by};
ghost use Rattle.sequences.specs.Bits.{blank_row, put_bit};
ghost use Rattle.markbits.specs.Words.{IsNextPlace};
ghost use Rattle.markbits.specs.Blocks.{IsNextInBlock};
ghost use Rattle.markbits.specs.Ranks.{rank_of};

use std::alloc::{AllocError, Global};
use std::marker::Model;

/// Bits, 64 of them a word. A contract sees the list of them.
#[derive(Debug, Drop)]
pub(crate) struct WordRow {
    /// Bit `i` of the bitmap is bit `i % 64` of word `i / 64`, and the bits from `len` on are clear.
    words: Vec<u64>,
    len: u32,
    /// How many bits are set.
    total: u32,
    /// No bit is set in the words before this index, which is past all words if no bit is set.
    low: u32,
}

impl Model for WordRow {
    ghost use Rattle.std.specs.Prelude.{List, Bool};
    ghost use Rattle.markbits.specs.Words.{bits_of, IsRow, IsLow};

    ghost Value = { List Bool };

    ghost view = { λ r. bits_of r.len r.words.items };

    ghost invariant = { λ r. IsRow r.words.items r.len r.total × IsLow (bits_of r.len r.words.items) r.low };
}

/// Updates the index of the word before which no bit is set, after a bit of the word of an index was set.
#[inline(always)]
fn lower(low: &mut u32, index: u32)
    ensures index { low.new ≤ index }
    ensures low { low.new ≤ low.old }
{
    if index < *low {
        *low = index;
    }
}

/// The same after a bit of that word was cleared, which leaves `word`, and `total` set bits in all.
#[inline(always)]
fn raise(low: &mut u32, total: u32, word: u64, index: u32)
    requires { index < 2 ^ 31 }
    ensures { 0 < total → low.old < low.new → (word ≡ 0) × (index ≡ low.old) × (low.new ≡ low.old + 1) }
{
    if total == 0 {
        *low = u32::MAX;
    } else if word == 0 && index == *low {
        *low += 1;
    }
}

impl WordRow {
    /// Returns `words` clear bits: in a heap 16 to 32,768, the words of a page. Fails only if out of memory.
    pub fn new(alloc: Global, words: u32) -> Result<WordRow, AllocError>
        ensures { IfOk result (λ r. r ≡ replicate words false) }
    {
        Ok(WordRow {
            words: vec![in alloc; 0u64; (words as usize).div_ceil(64)]?,
            len: words,
            total: 0,
            low: u32::MAX,
        })
    }

    /// Returns a bitmap of no bits. It takes no memory.
    #[tactic(auto, unfolding(crate::specs::Words::bits_of))]
    pub fn empty(alloc: Global) -> WordRow
        ensures { result ≡ [] }
    {
        WordRow {
            words: Vec::new(alloc),
            len: 0,
            total: 0,
            low: u32::MAX,
        }
    }

    /// Returns the allocator of its words.
    pub fn allocator(&self) -> Global {
        *self.words.allocator()
    }

    /// Returns a copy of the bitmap. Fails only if out of memory.
    pub fn copy(&self, alloc: Global) -> Result<WordRow, AllocError>
        ensures { IfOk result (λ r. r ≡ self.now) }
    {
        Ok(WordRow {
            words: Vec::from_slice(alloc, &self.words)?,
            len: self.len,
            total: self.total,
            low: self.low,
        })
    }

    /// Returns whether the other bitmap has the same bits, and as many.
    pub fn is_same(&self, other: &WordRow) -> bool
        ensures { result ≡ true → self.now ≡ other.now }
    {
        self.len == other.len && self.words.as_slice() == other.words.as_slice()
    }

    /// Returns how many bits are set.
    pub fn count(&self) -> usize
        ensures value { result ≡ count_by (λ b. b) self.now }
        ensures range { result < 2 ^ 32 }
    {
        self.total as usize
    }

    /// Returns whether a bit is set; past the end of the bitmap none is.
    #[inline(always)]
    pub fn test(&self, offset: usize) -> bool
        ensures { result ≡ slice_index_or self.now offset false }
    {
        offset < self.len as usize && (self.words[offset / 64] >> (offset % 64)) & 1 == 1
    }

    /// Sets or clears a bit, if the bitmap is that long.
    #[inline(always)]
    pub fn put(&mut self, offset: usize, bit: bool)
        ensures { self.new ≡ put_bit offset bit self.old }
    {
        if offset < self.len as usize && self.test(offset) != bit {
            self.words[offset / 64] ^= 1u64 << (offset % 64);
            let index = (offset / 64) as u32;
            if bit {
                lower(&mut self.low, index);
                self.total += 1;
            } else {
                self.total -= 1;
                raise(&mut self.low, self.total, self.words[offset / 64], index);
            }
        }
    }

    /// Sets a bit and returns its former value. Past the end of the bitmap, sets nothing and returns `None`.
    #[inline(always)]
    pub fn set(&mut self, offset: usize) -> Option<bool>
        ensures was { result ≡ slice_get self.old offset }
        ensures row { self.new ≡ put_bit offset true self.old }
    {
        if offset >= self.len as usize {
            return None;
        }
        let was = self.test(offset);
        self.put(offset, true);
        Some(was)
    }

    /// Clears a bit, if the bitmap is that long. If no bit is set, this costs one test.
    #[inline(always)]
    #[tactic(auto, using(crate::proofs::Bare::bare_unset))]
    pub fn unset(&mut self, offset: usize)
        ensures { self.new ≡ put_bit offset false self.old }
    {
        if self.count() != 0 {
            self.put(offset, false);
        }
    }

    /// Clears all bits.
    pub fn clear(&mut self)
        ensures { self.new ≡ blank_row self.old }
    {
        if self.total != 0 {
            self.words.fill(0);
            self.total = 0;
            self.low = u32::MAX;
        }
    }

    /// Returns the first place from an offset on whose bit is set, or `None`; there is none from the bitmap's end on.
    #[inline(always)]
    #[tactic(auto, using(crate::proofs::Blocks::found_in_block))]
    pub fn next_from(&self, offset: usize) -> Option<u32>
        ensures { IsNextPlace self.now offset result }
    {
        if let Some(place) = self.next_in_block(offset) {
            return Some(place);
        }
        self.next_by_words((offset / 64 + 1).max(self.low as usize))
    }

    /// Returns the first place from the head of word `first` on whose bit is set, or `None`.
    fn next_by_words(&self, first: usize) -> Option<u32>
        ensures { IsNextPlace self.now (64 * first) result }
    {
        if self.total == 0 {
            return None;
        }
        for index in first..self.words.len() {
            let word = self.words[index];
            if word != 0 {
                let place = index * 64 + word.trailing_zeros() as usize;
                return Some(place as u32);
            }
        }
        None
    }

    /// Returns the first place from an offset on, in the offset's word, whose bit is set, or `None`.
    #[inline(always)]
    pub(crate) fn next_in_block(&self, offset: usize) -> Option<u32>
        ensures { IsNextInBlock self.now offset result }
    {
        let index = offset / 64;
        if index >= self.words.len() {
            return None;
        }
        let word = self.words[index] & (u64::MAX << (offset % 64));
        if word == 0 {
            return None;
        }
        let place = index * 64 + word.trailing_zeros() as usize;
        Some(place as u32)
    }

    /// Returns how many bits are set below an offset; from the bitmap's end on, all of them.
    pub fn rank(&self, offset: usize) -> usize
        ensures { result ≡ count_by (λ b. b) (take offset self.now) }
    {
        if offset >= self.len as usize {
            return self.total as usize;
        }
        let mut below = 0;
        for index in 0..offset / 64 {
            let word = self.words[index];
            below += word.count_ones() as usize;
        }
        let part = self.words[offset / 64] & ((1u64 << (offset % 64)) - 1);
        below + part.count_ones() as usize
    }

    /// Returns the number of bits, set or not.
    #[inline(always)]
    #[tactic(auto, using(crate::proofs::RowWords::row_length))]
    pub fn len(&self) -> usize
        ensures value { result ≡ length self.now }
        ensures range { result < 2 ^ 32 }
    {
        self.len as usize
    }

    /// Returns how many bits are set below an offset in the bitmap, given how many are set below the offset's word.
    #[inline(always)]
    pub(crate) fn rank_within(&self, offset: usize, below: u32) -> u32
        requires within { offset < length self.now }
        requires below { below ≡ rank_of self.now (64 * (offset / 64)) }
        ensures { result ≡ rank_of self.now offset }
    {
        let mask = (1u64 << (offset % 64)) - 1;
        let part = self.words[offset / 64] & mask;
        below + part.count_ones()
    }

    /// Returns how many bits are set below a word that isn't the first, by its index, given how many are set below
    /// the previous word.
    pub(crate) fn rank_word(&self, index: usize, below: u32) -> u32
        requires low { 0 < index }
        requires there { 64 * index ≤ length self.now }
        requires below { below ≡ rank_of self.now (64 * (index - 1)) }
        ensures { result ≡ rank_of self.now (64 * index) }
    {
        below + self.words[index - 1].count_ones()
    }
}
