//! Memory of pages that open: their words, and a bitmap of each kind.

ghost use Rattle.std.specs.Prelude.{◌≡◌, IfOk};
ghost use Rattle.page_rows.specs.Opening.{AreClear, IsBlank, opened};

use markbits::{IndexedRows, Row, Rows};
use model::Buffer;
use page::{Frame, Store};
use std::alloc::{AllocError, Global};

/// The bitmaps of one page. When a page opens, each of them has a clear bit for each of its words.
#[derive(Drop)]
pub struct PageRows {
    /// Where objects start.
    pub starts: Row,
    /// Which objects the last mark found live.
    pub live: Row,
    /// Which objects the running mark has marked.
    pub mark: Row,
    /// Which objects are grey.
    pub todo: Row,
}

impl PageRows {
    /// Returns bitmaps of `words` bits, all clear. Fails only if out of memory.
    pub fn new(alloc: Global, words: u32) -> Result<PageRows, AllocError>
        ensures { IfOk result (AreClear words) }
    {
        Ok(PageRows {
            starts: Row::new(alloc, words)?,
            live: Row::new(alloc, words)?,
            mark: Row::new(alloc, words)?,
            todo: Row::new(alloc, words)?,
        })
    }

    /// Returns empty bitmaps, for when no page opens. They take no memory.
    pub fn empty(alloc: Global) -> PageRows
        ensures { AreClear 0 result }
    {
        PageRows {
            starts: Row::empty(alloc),
            live: Row::empty(alloc),
            mark: Row::empty(alloc),
            todo: Row::empty(alloc),
        }
    }
}

/// Returns clear bitmaps of `words` bits, of memory that these tables keep, or new. Fails only if out of memory.
fn blank_rows(
    starts: &mut Rows,
    live: &mut Rows,
    mark: &mut Rows,
    todo: &mut IndexedRows,
    words: u32,
) -> Result<PageRows, AllocError>
    ensures rows { IfOk result (AreClear words) }
    ensures starts { starts.new ≡ starts.old }
    ensures live { live.new ≡ live.old }
    ensures mark { mark.new ≡ mark.old }
    ensures todo { todo.new ≡ todo.old }
{
    Ok(PageRows {
        starts: starts.blank(words)?,
        live: live.blank(words)?,
        mark: mark.blank(words)?,
        todo: todo.blank(words)?,
    })
}

/// All memory that a page needs to open.
#[derive(Drop)]
pub struct PageMemory {
    /// Its words.
    pub frame: Frame,
    /// Its bitmaps.
    pub rows: PageRows,
}

/// Returns memory for a page that is to open, of what a store and these tables keep, or new. Fails only if out of memory.
pub fn blank_memory(
    store: &mut Store,
    starts: &mut Rows,
    live: &mut Rows,
    mark: &mut Rows,
    todo: &mut IndexedRows,
) -> Result<PageMemory, AllocError>
    ensures value { IfOk result (IsBlank store.old.words) }
    ensures store { store.new ≡ store.old }
    ensures starts { starts.new ≡ starts.old }
    ensures live { live.new ≡ live.old }
    ensures mark { mark.new ≡ mark.old }
    ensures todo { todo.new ≡ todo.old }
{
    let frame = store.blank()?;
    let rows = blank_rows(starts, live, mark, todo, store.page_words())?;
    Ok(PageMemory { frame, rows })
}

/// Gives a page its bitmap, if a buffer is the first on the page.
fn open_row(rows: &mut Rows, buffer: Buffer, row: Row)
    ensures { rows.new ≡ opened buffer row rows.old }
{
    if buffer.next == 0 {
        rows.place(buffer.page.saturating_sub(1) as usize, row);
    }
}

/// The same for bitmaps with an index.
fn open_indexed_row(rows: &mut IndexedRows, buffer: Buffer, row: Row)
    ensures { rows.new ≡ opened buffer row rows.old }
{
    if buffer.next == 0 {
        rows.place(buffer.page.saturating_sub(1) as usize, row);
    }
}

/// Gives a page its bitmaps, if a buffer is the first on the page.
pub fn open_rows(
    starts: &mut Rows,
    live: &mut Rows,
    mark: &mut Rows,
    todo: &mut IndexedRows,
    buffer: Buffer,
    rows: PageRows,
)
    ensures starts { starts.new ≡ opened buffer rows.starts starts.old }
    ensures live { live.new ≡ opened buffer rows.live live.old }
    ensures mark { mark.new ≡ opened buffer rows.mark mark.old }
    ensures todo { todo.new ≡ opened buffer rows.todo todo.old }
{
    open_row(starts, buffer, rows.starts);
    open_row(live, buffer, rows.live);
    open_row(mark, buffer, rows.mark);
    open_indexed_row(todo, buffer, rows.todo);
}
