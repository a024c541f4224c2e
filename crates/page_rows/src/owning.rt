//! Bitmaps of pages that threads own for a time.

ghost use Rattle.std.specs.Prelude.{◌≡◌, ◌<◌, ◌+◌, ◌^◌, slice_set, get_or, length};
ghost use Rattle.page.specs.Owned.{AreShort};
ghost use Rattle.page_rows.specs.Owning.{SwappedRows, SwappedRowsOf};

use markbits::{IndexedRows, Rows};
use page::{OwnedPage, Part};

/// Swaps the bitmaps of the page of an index with those of an owned page.
fn swap_rows_of(mark: &mut Rows, todo: &mut IndexedRows, index: usize, page: &mut OwnedPage)
    ensures mark { mark.new ≡ slice_set mark.old index page.old.marked }
    ensures todo { todo.new ≡ slice_set todo.old index page.old.grey }
    ensures page { page.new ≡ record page.old {
      marked = get_or mark.old index page.old.marked;
      grey = get_or todo.old index page.old.grey;
    } }
{
    mark.swap_row(index, &mut page.marked);
    todo.swap_row(index, &mut page.grey);
}

/// Swaps the bitmaps of pages, from that of an index on, with those of owned pages.
fn swap_rows(mark: &mut Rows, todo: &mut IndexedRows, first: usize, pages: &mut [OwnedPage])
    requires few { first + length pages.old < 2 ^ 64 }
    ensures { SwappedRows first mark.old todo.old pages.old mark.new todo.new pages.new }
{
    for index in 0..pages.len() {
        let page = &mut pages[index];
        swap_rows_of(mark, todo, first + index, page);
    }
}

/// Swaps the bitmaps of the pages of a part.
fn swap_part_rows(mark: &mut Rows, todo: &mut IndexedRows, part: &mut Part)
    requires few { part.old.first + length part.old.pages.items < 2 ^ 64 }
    ensures pages { SwappedRows part.old.first mark.old todo.old part.old.pages.items mark.new todo.new part.new.pages.items }
    ensures rest { part.new ≡ record part.old { pages = part.new.pages } }
{
    swap_rows(mark, todo, part.first, &mut part.pages);
}

/// Swaps the bitmaps of the pages of parts, one part after another.
pub fn swap_all_rows(mark: &mut Rows, todo: &mut IndexedRows, parts: &mut [Part])
    requires { AreShort parts.old }
    ensures { SwappedRowsOf mark.old todo.old parts.old mark.new todo.new parts.new }
{
    for index in 0..parts.len() {
        let part = &mut parts[index];
        swap_part_rows(mark, todo, part);
    }
}
