//! The index of a long bitmap's blocks.

ghost use Rattle.std.specs.Prelude.{◌≡◌, replicate, false, IfOk};
ghost use Rattle.sequences.specs.Bits.{put_bit};
ghost use Rattle.markbits.specs.Words.{IsNextPlace};

use crate::word_row::WordRow;
use std::alloc::{AllocError, Global};
use std::marker::Model;

/// A bitmap with one bit for each block of 64 bits of a longer bitmap. It has an index of its own, so that for a
/// longer bitmap of 1,048,576 bits a search reads at most four words of that index. A contract sees the list of the
/// bits.
#[derive(Debug, Drop)]
pub(crate) struct BlockIndex {
    row: WordRow,
    /// Bit `i` is set if any bit of `row` from `64 * i` to `64 * i + 63` is.
    groups: WordRow,
}

impl Model for BlockIndex {
    ghost use Rattle.std.specs.Prelude.{List, Bool};
    ghost use Rattle.markbits.specs.Blocks.{IsIndex};

    ghost Value = { List Bool };

    ghost view = { λ b. b.row };

    ghost invariant = { λ b. IsIndex b.row b.groups };
}

impl BlockIndex {
    /// Returns `bits` clear bits. Fails only if out of memory.
    pub(crate) fn new(alloc: Global, bits: u32) -> Result<BlockIndex, AllocError>
        ensures { IfOk result (λ b. b ≡ replicate bits false) }
    {
        let row = WordRow::new(alloc, bits)?;
        let groups = WordRow::new(alloc, bits.div_ceil(64))?;
        Ok(BlockIndex { row, groups })
    }

    /// Sets or clears a bit, if the bitmap is that long.
    pub(crate) fn put(&mut self, index: usize, bit: bool)
        ensures { self.new ≡ put_bit index bit self.old }
    {
        let group = index / 64;
        self.row.put(index, bit);
        let has_bit = self.row.next_in_block(group * 64).is_some();
        self.groups.put(group, has_bit);
    }

    /// Returns the first place from an index on whose bit is set, or `None`.
    pub(crate) fn next_from(&self, index: usize) -> Option<u32>
        ensures { IsNextPlace self.now index result }
    {
        if let Some(place) = self.row.next_in_block(index) {
            return Some(place);
        }
        let group = self.groups.next_from(index / 64 + 1)?;
        self.row.next_in_block(group as usize * 64)
    }
}
