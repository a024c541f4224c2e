//! A bitmap with an index of its words that have a bit set.

ghost use Rattle.std.specs.Prelude.{◌≡◌, ◌<◌, ◌^◌, replicate, slice_index_or, false, IfOk, count_by};
ghost use Rattle.sequences.specs.Bits.{put_bit};
ghost use Rattle.markbits.specs.Words.{IsNextPlace};
ghost use Rattle.markbits.specs.Blocks.{IsIndex};

use crate::block_index::BlockIndex;
use crate::word_row::WordRow;
use std::alloc::{AllocError, Global};
use std::marker::Model;

/// A bitmap like `Row`, in which the next set bit is found without reading words that have none. A contract sees the
/// list of the bits.
#[derive(Debug, Drop)]
pub struct IndexedRow {
    row: WordRow,
    /// Bit `i` is set if any bit of `row` from `64 * i` to `64 * i + 63` is.
    blocks: BlockIndex,
}

impl Model for IndexedRow {
    ghost use Rattle.std.specs.Prelude.{List, Bool};
    ghost use Rattle.markbits.specs.Blocks.{IsIndex};

    ghost Value = { List Bool };

    ghost view = { λ r. r.row };

    ghost invariant = { λ r. IsIndex r.row r.blocks };
}

impl IndexedRow {
    /// Returns `bits` clear bits: in a heap at most 1,048,575. Fails only if out of memory.
    pub fn new(alloc: Global, bits: u32) -> Result<IndexedRow, AllocError>
        ensures { IfOk result (λ r. r ≡ replicate bits false) }
    {
        let row = WordRow::new(alloc, bits)?;
        let blocks = BlockIndex::new(alloc, bits.div_ceil(64))?;
        Ok(IndexedRow { row, blocks })
    }

    /// Returns how many bits are set.
    pub fn count(&self) -> usize
        ensures value { result ≡ count_by (λ b. b) self.now }
        ensures range { result < 2 ^ 32 }
    {
        self.row.count()
    }

    /// Returns whether a bit is set; past the end of the bitmap none is.
    #[inline(always)]
    pub fn test(&self, offset: usize) -> bool
        ensures { result ≡ slice_index_or self.now offset false }
    {
        self.row.test(offset)
    }

    /// Sets or clears a bit, if the bitmap is that long.
    pub fn put(&mut self, offset: usize, bit: bool)
        ensures { self.new ≡ put_bit offset bit self.old }
    {
        let block = offset / 64;
        self.row.put(offset, bit);
        let has_bit = self.row.next_in_block(block * 64).is_some();
        self.blocks.put(block, has_bit);
    }

    /// Returns the first place from an offset on whose bit is set, or `None`; there is none from the bitmap's end on.
    /// It reads two words of the bitmap, and those of the index that its own index names.
    pub fn next_from(&self, offset: usize) -> Option<u32>
        ensures { IsNextPlace self.now offset result }
    {
        if let Some(place) = self.row.next_in_block(offset) {
            return Some(place);
        }
        let block = self.blocks.next_from(offset / 64 + 1)?;
        self.row.next_in_block(block as usize * 64)
    }
}
