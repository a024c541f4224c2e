//! A store of pages, and the places of its buffers.

use crate::same::{done, same, same_at};
use crate::sides::side_of;
use forward::Side;
use layout::{Layout, Layouts};
use model::{Buffer, PageState, Room};
use page::{Store, many};
use std::alloc::{AllocError, Global};
use std::process::Abort;
use std::test::Fail;

/// Takes a buffer of a size that a page has.
fn take(rt: &impl Abort, store: &mut Store, n: u32) -> Result<Buffer, Room> {
    assert!(rt; 0 < n);
    assert!(rt; n <= store.page_words());
    store.take(n)
}

/// Writes one number over all words of a buffer.
fn fill(rt: &impl Abort, store: &mut Store, buffer: &Buffer, value: u64) {
    assert!(rt; store.can_lend_part(buffer));
    store.part_mut(buffer).fill(value);
}

/// The page and the offset of what was taken.
fn place_of(taken: Result<Buffer, Room>) -> Result<(u32, u32), Room> {
    let buffer = taken?;
    Ok((buffer.page, buffer.next))
}

/// Takes buffers of the first number of each row, and compares page and offset with the others.
pub fn takes(rt: &impl Abort, store: &mut Store, rows: &[(u32, u32, u32)]) {
    for (n, page, next) in rows {
        same_at(rt, n, place_of(take(rt, store, *n)), Ok((*page, *next)));
    }
}

/// No word can be taken.
fn is_full(rt: &impl Abort, store: &mut Store, room: Room, free: u32) {
    same(rt, take(rt, store, 1), Err(room));
    same(rt, store.free_frames(), free);
}

/// A new store of 8 pages in 2 frames.
fn is_new(rt: &impl Abort, store: &Store) {
    same(rt, (store.page_count(), store.pages().len()), (8, 4));
    same(rt, (store.frame_count(), store.free_frames()), (2, 2));
    for page in [0, 1, 8, 9] {
        same_at(rt, page, store.state(page), PageState::Unused);
    }
}

/// Pages 1 and 2 are open.
fn has_two_open(rt: &impl Abort, store: &Store) {
    for (page, state) in [
        (0, PageState::Unused),
        (1, PageState::Open),
        (2, PageState::Open),
        (3, PageState::Unused),
    ] {
        same_at(rt, page, store.state(page), state);
    }
}

/// Takes buffers as `takes` does. If out of memory for a page, takes the same buffer once more, and fails at the end.
fn takes_or_lacks(
    rt: &impl Abort,
    store: &mut Store,
    rows: &[(u32, u32, u32)],
) -> Result<(), AllocError> {
    let mut lacked = false;
    for (n, page, next) in rows {
        let mut taken = take(rt, store, *n);
        if taken == Err(Room::NoMemory) {
            lacked = true;
            taken = take(rt, store, *n);
        }
        same_at(rt, n, place_of(taken), Ok((*page, *next)));
    }
    if lacked { Err(AllocError) } else { Ok(()) }
}

/// Buffers go into the lowest page that has space, until no frame is free.
fn takes_lowest(rt: &impl Abort, store: &mut Store) -> Result<(), AllocError> {
    let rows = [(10, 1, 0), (7, 2, 0), (6, 1, 10), (9, 2, 7)];
    is_new(rt, store);
    let taken = takes_or_lacks(rt, store, &rows);
    is_full(rt, store, Room::NoFrames, 0);
    has_two_open(rt, store);
    taken
}

/// The same in a new store.
fn takes_in_a_new_store(rt: &impl Abort, alloc: Global) -> Result<(), AllocError> {
    let mut store = Store::new(alloc, 16, 2, 8)?;
    takes_lowest(rt, &mut store)
}

#[test]
fn takes_in_the_lowest_page(rt: HostRuntime) -> Result<(), Fail> {
    Ok(takes_in_a_new_store(&rt, rt.alloc())?)
}

/// A buffer is given back, and the words of its page after it can be taken.
fn gives_back(rt: &impl Abort, store: &mut Store) {
    if let Ok(buffer) = take(rt, store, 9) {
        store.give_back(buffer);
    }
    takes(rt, store, &[(7, 1, 9)]);
    is_full(rt, store, Room::NoFrames, 0);
}

#[test]
fn what_is_given_back_is_lost(rt: HostRuntime) {
    let mut store = done(&rt, Store::new(rt.alloc(), 16, 1, 1));
    gives_back(&rt, &mut store);
}

/// A store gives these buffers, as for `takes`; then no word can be taken.
fn fills(rt: &impl Abort, store: &mut Store, rows: &[(u32, u32, u32)], full: (Room, u32)) {
    let (room, free) = full;
    takes(rt, store, rows);
    is_full(rt, store, room, free);
}

/// In the second store, buffers go to lower pages that have space.
#[test]
fn stores_get_full(rt: HostRuntime) {
    let mut small = done(&rt, Store::new(rt.alloc(), 16, 2, 1));
    let mut large = done(&rt, Store::new(rt.alloc(), 16, 5, 5));
    fills(&rt, &mut small, &[(16, 1, 0)], (Room::NoPages, 1));
    let rows = [
        (10, 1, 0),
        (12, 2, 0),
        (14, 3, 0),
        (5, 1, 10),
        (4, 2, 12),
        (2, 3, 14),
        (1, 1, 15),
        (1, 4, 0),
        (16, 5, 0),
        (15, 4, 1),
    ];
    fills(&rt, &mut large, &rows, (Room::NoFrames, 0));
}

/// Takes a buffer of `n` words in each of the pages 1 to 300.
fn takes_in_each(rt: &impl Abort, store: &mut Store, n: u32, next: u32) {
    for page in 1..301 {
        takes(rt, store, &[(n, page, next)]);
    }
}

/// Each first buffer leaves one word, so that the next needs a page of its own; then the words that were left are
/// taken from the lowest page on.
#[test]
fn fills_many_pages(rt: HostRuntime) {
    let mut store = done(&rt, Store::new(rt.alloc(), 16, 300, 700));
    takes_in_each(&rt, &mut store, 15, 0);
    takes_in_each(&rt, &mut store, 1, 15);
    is_full(&rt, &mut store, Room::NoFrames, 0);
}

/// Also writes past the ends of two buffers of page 1.
fn writes(rt: &impl Abort, store: &mut Store) {
    let first = done(rt, take(rt, store, 3));
    let second = done(rt, take(rt, store, 2));
    fill(rt, store, &second, 9);
    fill(rt, store, &first, 7);
    store.set_word(16 + 1, 8);
    store.set_word(2 * 16, 6);
}

/// The words of page 1.
fn written(rt: &impl Abort, store: &Store) {
    let wanted = [7, 8, 7, 9, 9, 0, 0, 0, 0, 0, 0, 0, 0, 0, 0, 0];
    same(rt, store.words(1), Some(wanted.as_slice()));
}

/// Words by their addresses.
fn has_words(rt: &impl Abort, store: &Store) {
    for (address, word) in [(15, None), (20, Some(9)), (21, Some(0)), (32, None)] {
        same_at(rt, address, store.word(address), word);
    }
}

fn writes_and_reads(rt: &impl Abort, store: &mut Store) {
    writes(rt, store);
    written(rt, store);
    has_words(rt, store);
}

#[test]
fn writes_where_a_buffer_is(rt: HostRuntime) {
    let mut store = done(&rt, Store::new(rt.alloc(), 16, 2, 8));
    writes_and_reads(&rt, &mut store);
}

/// Pages 1 and 2 are taken completely, and the words 1 to 16 are written to page 1.
fn counts(rt: &impl Abort, store: &mut Store) {
    takes(rt, store, &[(16, 1, 0), (16, 2, 0)]);
    for offset in 0..16 {
        store.set_word(16 + offset, offset + 1);
    }
}

/// Objects of three words are copied between pages, if both places exist, and nowhere else. They go to places on page
/// 2, past its end, inside and further inside; the last from past the end of its own.
fn copies(rt: &impl Abort, store: &mut Store, side: &Side, layouts: &Layouts) {
    assert!(rt; side.len() == 3);
    store.copy_entries(1, 2, side, layouts, 0, 3);
    store.copy_entries(1, 1, side, layouts, 0, 3);
    store.copy_entries(3, 2, side, layouts, 0, 3);
    store.copy_entries(1, 3, side, layouts, 0, 3);
    let source = [1, 2, 3, 4, 5, 6, 7, 8, 9, 10, 11, 12, 13, 14, 15, 16];
    same(rt, store.words(1), Some(source.as_slice()));
    let target = [0, 3, 4, 5, 0, 0, 0, 0, 15, 16, 0, 0, 0, 0, 1, 2];
    same(rt, store.words(2), Some(target.as_slice()));
}

/// Makes the objects' layout and forwarding table, and copies the objects.
fn copies_three(rt: &impl Abort, alloc: Global, store: &mut Store) {
    let layouts = Layouts::new(done(rt, many(alloc, 1, Layout { refs: 0, nums: 2 })));
    let side = side_of(
        rt,
        alloc,
        &[0, 2, 14],
        &[2 * 16 + 14, 2 * 16 + 1, 2 * 16 + 8],
    );
    copies(rt, store, &side, &layouts);
}

#[test]
fn objects_are_copied_between_pages(rt: HostRuntime) {
    let mut store = done(&rt, Store::new(rt.alloc(), 16, 2, 8));
    counts(&rt, &mut store);
    copies_three(&rt, rt.alloc(), &mut store);
}

#[test]
fn copies_of_an_item(rt: HostRuntime) -> Result<(), Fail> {
    same(
        &rt,
        many(rt.alloc(), 3, 7u32)?.as_slice(),
        [7, 7, 7].as_slice(),
    );
    same(&rt, many(rt.alloc(), 0, 7u32)?.len(), 0);
    Ok(())
}
