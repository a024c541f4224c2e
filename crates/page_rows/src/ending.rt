//! The pages of a store and their bitmaps at the end of a mark.

ghost use Rattle.std.specs.Prelude.{◌≡◌, ◌+◌, ◌<◌, length, slice_get};
ghost use Rattle.model.specs.Cycles.{is_lent, rows_after_mark};
ghost use Rattle.model.specs.Stores.{store_after_mark, is_open, is_protected, state_in};
ghost use Rattle.page.specs.Ending.{with_mark_ended_at};

use markbits::{IndexedRows, Rows};
use model::PageState;
use page::Store;
use thread_records::Threads;

/// Returns whether the page of an index is open.
fn is_open_at(store: &Store, index: usize) -> bool
    ensures { result ≡ is_open (state_in (slice_get store.now.pages index)) }
{
    match store.pages().get(index) {
        None => false,
        Some(page) => matches!(page.state, PageState::Open),
    }
}

/// Ends a mark for the page of an index. If it is open, the threads' buffers are checked.
fn end_page(store: &mut Store, threads: &Threads, index: usize)
    requires { index < length store.old.pages }
    ensures { store.new ≡ with_mark_ended_at store.old index (is_lent threads.now (index + 1)) }
{
    store.law();
    if is_open_at(store, index) {
        store.end_mark_at(index, threads.is_lent((index + 1) as u32));
    } else {
        store.end_mark_at(index, false);
    }
}

/// Ends a mark for all pages.
pub fn end_pages(store: &mut Store, threads: &Threads)
    ensures { store.new ≡ store_after_mark (is_lent threads.now) store.old }
{
    let count = store.pages().len();
    for index in 0..count {
        store.law();
        end_page(store, threads, index);
    }
    store.law();
}

/// Returns whether the page of an index is protected.
fn is_protected_at(store: &Store, index: usize) -> bool
    ensures { result ≡ is_protected (state_in (slice_get store.now.pages index)) }
{
    match store.pages().get(index) {
        None => false,
        Some(page) => matches!(page.state, PageState::From | PageState::Gone),
    }
}

/// Makes bitmaps of protected pages ones of no bits. As many as memory of frames is kept keep theirs.
pub fn give_up_rows(rows: &mut Rows, store: &Store)
    ensures { rows.new ≡ rows_after_mark store.now.pages rows.old }
{
    let mut most = store.kept_frames();
    for index in 0..store.pages().len() {
        if is_protected_at(store, index) {
            rows.give_up(index, &mut most);
        }
    }
}

/// The same for bitmaps with an index.
pub fn give_up_indexed_rows(rows: &mut IndexedRows, store: &Store)
    ensures { rows.new ≡ rows_after_mark store.now.pages rows.old }
{
    let mut most = store.kept_frames();
    for index in 0..store.pages().len() {
        if is_protected_at(store, index) {
            rows.give_up(index, &mut most);
        }
    }
}
