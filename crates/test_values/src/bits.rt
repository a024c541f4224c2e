//! Bits of a bitmap, and tables of bitmaps.

use crate::rows::clear_rows;
use crate::same::{done, same};
use markbits::{Row, Rows};
use std::alloc::AllocError;
use std::process::Abort;

fn set_each_third(row: &mut Row) {
    for place in 0..4096 {
        row.put(place, place % 3 == 0);
    }
}

fn has_each_third(rt: &impl Abort, row: &Row) {
    same(rt, row.count(), 1366);
    same(rt, (row.test(63), row.test(64)), (true, false));
    same(rt, (row.rank(64), row.rank(4096)), (22, 1366));
    same(
        rt,
        (row.next_from(64), row.next_from(4095)),
        (Some(66), Some(4095)),
    );
    same(rt, row.next_from(4096), None);
}

#[test]
fn each_third_place(rt: HostRuntime) {
    let mut row = done(&rt, Row::new(rt.alloc(), 4096));
    set_each_third(&mut row);
    has_each_third(&rt, &row);
    row.clear();
    same(&rt, (row.count(), row.next_from(0)), (0, None));
    row.put(4095, true);
    same(&rt, (row.count(), row.next_from(0)), (1, Some(4095)));
}

/// The first places that are set in bitmaps 0 to 2.
fn firsts(rows: &Rows) -> [Option<u32>; 3] {
    [0, 1, 2].map(|index| rows.get(index)?.next_from(0))
}

/// Tables change their bitmaps and swap them, and all bitmaps of one are cleared.
fn change_tables(rt: &impl Abort, rows: &mut Rows, other: &mut Rows) {
    for (index, place) in [(2, 99), (1, 5), (1, 60), (3, 5), (0, 100)] {
        rows.put(index, place, true);
    }
    same(rt, firsts(rows), [None, Some(5), Some(99)]);
    rows.swap(other);
    same(rt, firsts(rows), [None, None, None]);
    same(rt, firsts(other), [None, Some(5), Some(99)]);
    other.clear_all();
    same(rt, firsts(other), [None, None, None]);
}

#[test]
fn tables_of_rows(rt: HostRuntime) {
    let mut rows = done(&rt, clear_rows(rt.alloc(), 3, 100));
    let mut other = done(&rt, clear_rows(rt.alloc(), 3, 100));
    change_tables(&rt, &mut rows, &mut other);
}

#[test]
fn a_row_is_lent(rt: HostRuntime) -> Result<(), AllocError> {
    let mut rows = Rows::new(rt.alloc(), 3)?;
    let fresh = Row::new(rt.alloc(), 100)?;
    let row = rows.row_mut(2);
    *row = fresh;
    row.put(7, true);
    same(&rt, firsts(&rows), [None, None, Some(7)]);
    Ok(())
}
