//! Memory of bitmaps that is kept for other bitmaps.

ghost use Rattle.std.specs.Prelude.{◌≡◌, replicate, slice_set, false, [], IfOk};

use crate::rows::{Row, Rows};
use std::alloc::AllocError;

/// Returns the index of the first bitmap from an index on that has no bits and keeps memory; after all if there is none.
fn next_kept(rows: &[Row], from: usize) -> usize {
    for index in from..rows.len() {
        if rows[index].keeps() {
            return index;
        }
    }
    rows.len()
}

impl Rows {
    /// Makes a bitmap, if it exists, one of no bits. If `most` isn't 0, it decreases, and the memory is kept until
    /// another bitmap takes this one's place, or until `trim`.
    pub fn give_up(&mut self, index: usize, most: &mut usize)
        ensures { self.new ≡ slice_set self.old index [] }
    {
        if index < self.rows.len() {
            let row = &mut self.rows[index];
            row.give_up(most);
            self.first_kept = self.first_kept.min(index);
        }
    }

    /// Prepares memory for one more bitmap of `words` bits, which `blank` returns when no given up bitmap keeps any.
    /// Fails only if out of memory.
    pub fn prepare(&mut self, words: u32) -> Result<(), AllocError>
        ensures { self.new ≡ self.old }
    {
        let alloc = *self.rows.allocator();
        self.prepared.push(Row::new(alloc, words)?)?;
        Ok(())
    }

    /// Returns a bitmap of `words` clear bits that was prepared, or a new one. Fails only if out of memory.
    fn blank_prepared(&mut self, words: u32) -> Result<Row, AllocError>
        ensures value { IfOk result (λ r. r ≡ replicate words false) }
        ensures stays { self.new ≡ self.old }
    {
        if let Some(row) = self.prepared.pop() {
            let mut row = row;
            if row.len() == words as usize {
                row.clear();
                return Ok(row);
            }
        }
        Row::new(*self.rows.allocator(), words)
    }

    /// Returns a bitmap of `words` clear bits: of memory that was kept when a bitmap was given up, that was prepared, or
    /// new. Fails only if out of memory.
    pub fn blank(&mut self, words: u32) -> Result<Row, AllocError>
        ensures value { IfOk result (λ r. r ≡ replicate words false) }
        ensures stays { self.new ≡ self.old }
    {
        let index = next_kept(&self.rows, self.first_kept);
        self.first_kept = index;
        if index < self.rows.len() {
            let row = &mut self.rows[index];
            if let Some(row) = row.reuse(words) {
                return Ok(row);
            }
        }
        self.blank_prepared(words)
    }

    /// Frees the memory that is kept of bitmaps that were given up, and of those that were prepared, except that of
    /// the first `most`.
    pub fn trim(&mut self, most: usize)
        ensures { self.new ≡ self.old }
    {
        let count = self.rows.len();
        let mut most = most;
        for index in 0..count {
            let row = &mut self.rows[index];
            row.trim(&mut most);
        }
        self.prepared.truncate(most);
    }
}
