//! Bitmaps that are made if there is memory, with an index of those that have bits.

use crate::same::{done, same, same_at};
use markbits::{IndexedRow, IndexedRows, Row, Rows};
use std::alloc::{AllocError, Global};
use std::process::Abort;
use std::test::Fail;

#[test]
fn a_row_of_clear_bits(rt: HostRuntime) -> Result<(), Fail> {
    let mut row = Row::new(rt.alloc(), 16)?;
    same(&rt, row.count(), 0);
    for offset in 0..20 {
        row.put(offset, true);
    }
    same(&rt, row.count(), 16);
    Ok(())
}

/// The first bitmaps have these numbers of set bits, and there are no more bitmaps.
fn has_counts(rt: &impl Abort, rows: &Rows, counts: &[usize]) {
    for (index, count) in counts.iter().enumerate() {
        same_at(rt, index, rows.get(index).map(Row::count), Some(*count));
    }
    assert!(rt; rows.get(counts.len()).is_none());
}

/// Returns `count` bitmaps of `words` bits, all clear.
pub(crate) fn clear_rows(alloc: Global, count: u32, words: u32) -> Result<Rows, AllocError> {
    let mut rows = Rows::new(alloc, count)?;
    for index in 0..count {
        rows.place(index as usize, Row::new(alloc, words)?);
    }
    Ok(rows)
}

/// Returns the same with an index.
fn clear_indexed_rows(alloc: Global, count: u32, words: u32) -> Result<IndexedRows, AllocError> {
    let mut rows = IndexedRows::new(alloc, count)?;
    for index in 0..count {
        rows.place(index as usize, Row::new(alloc, words)?);
    }
    Ok(rows)
}

#[test]
fn rows_of_clear_bits(rt: HostRuntime) -> Result<(), Fail> {
    let mut rows = clear_rows(rt.alloc(), 3, 16)?;
    has_counts(&rt, &rows, &[0, 0, 0]);
    for (index, offset) in [(0, 0), (1, 0), (1, 15), (1, 16), (2, 20), (3, 0)] {
        rows.put(index, offset, true);
    }
    has_counts(&rt, &rows, &[1, 2, 0]);
    rows.give_up(1, &mut 0);
    has_counts(&rt, &rows, &[1, 0, 0]);
    Ok(())
}

/// The first bitmaps of a table with an index have these numbers of set bits, and there are no more bitmaps.
fn has_indexed_counts(rt: &impl Abort, rows: &IndexedRows, counts: &[usize]) {
    for (index, count) in counts.iter().enumerate() {
        same_at(rt, index, rows.get(index).map(Row::count), Some(*count));
    }
    assert!(rt; rows.get(counts.len()).is_none());
}

/// The bitmaps that have a bit are found, up to the last and after it.
fn finds_busy_rows(rt: &impl Abort, rows: &IndexedRows, found: &[Option<u32>]) {
    for (index, busy) in found.iter().enumerate() {
        same_at(rt, index, rows.next_busy(index), *busy);
    }
}

/// Bits of three bitmaps, inside and past their ends, are set and cleared.
fn changes_rows(rt: &impl Abort, rows: &mut IndexedRows) {
    has_indexed_counts(rt, rows, &[0, 0, 0]);
    finds_busy_rows(rt, rows, &[None; 4]);
    for (index, offset) in [(0, 0), (2, 15), (2, 16), (1, 20), (3, 0)] {
        rows.put(index, offset, true);
    }
    has_indexed_counts(rt, rows, &[1, 0, 1]);
    finds_busy_rows(rt, rows, &[Some(0), Some(2), Some(2), None]);
    rows.give_up(2, &mut 1);
    finds_busy_rows(rt, rows, &[Some(0), None, None, None]);
    rows.put(0, 0, false);
    assert!(rt; rows.is_empty());
}

#[test]
fn rows_with_an_index(rt: HostRuntime) -> Result<(), Fail> {
    let mut rows = clear_indexed_rows(rt.alloc(), 3, 16)?;
    changes_rows(&rt, &mut rows);
    Ok(())
}

/// Bits at both ends of the words of a long bitmap, of its index, and of the index of that.
const FAR: [u32; 9] = [0, 63, 64, 4095, 4096, 262_143, 262_144, 524_288, 1_048_574];

/// The bits are found one after another.
fn are_found(rt: &impl Abort, row: &IndexedRow, places: &[u32]) {
    let mut from = 0;
    for place in places {
        same_at(rt, from, row.next_from(from), Some(*place));
        from = *place as usize + 1;
    }
    same_at(rt, from, row.next_from(from), None);
}

#[test]
fn a_long_row_with_an_index(rt: HostRuntime) {
    let mut row = done(&rt, IndexedRow::new(rt.alloc(), 1_048_575));
    are_found(&rt, &row, &[]);
    for place in FAR {
        row.put(place as usize, true);
    }
    are_found(&rt, &row, &FAR);
    for place in &FAR[1..8] {
        row.put(*place as usize, false);
    }
    are_found(&rt, &row, &[0, 1_048_574]);
}
