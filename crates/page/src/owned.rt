//! Pages that a thread owns for a time.

ghost use Rattle.std.specs.Prelude.{◌≡◌, ◌<◌, ◌≤◌, ◌+◌, ◌^◌, length, slice_get, Some, []};
ghost use Rattle.model.specs.Stores.{frame_in};
ghost use Rattle.page.specs.Owned.{lent_frame, put_frame, AreShort, Swapped, SwappedParts};

use markbits::Row;
use model::Page;
use page_frames::{Frame, Frames};
use refword::Word;
use std::alloc::Global;

/// A page while a thread owns it, to scan its objects: its words, and its bitmaps of the mark.
#[derive(Drop)]
pub struct OwnedPage {
    /// The words of the page; none, if it has no memory.
    pub frame: Frame,
    /// Which objects are marked.
    pub marked: Row,
    /// Which objects are grey.
    pub grey: Row,
}

impl OwnedPage {
    /// Returns a page without words and without bits. It takes no memory.
    pub fn empty(alloc: Global) -> OwnedPage
        ensures frame { result.frame ≡ [] }
        ensures marked { result.marked ≡ [] }
        ensures grey { result.grey ≡ [] }
    {
        OwnedPage {
            frame: Frame::empty(alloc),
            marked: Row::empty(alloc),
            grey: Row::empty(alloc),
        }
    }
}

/// The pages that a thread owns, and what it has found of other threads' pages.
#[derive(Drop)]
pub struct Part {
    /// The index of the record of the first page.
    pub first: usize,
    /// The pages, one after another.
    pub pages: Vec<OwnedPage, Global>,
    /// References to objects of other pages, which are to be marked.
    pub sent: Vec<Word, Global>,
    /// How many objects were scanned.
    pub scanned: u64,
}

/// Returns the frame of the page of a record's index, if it has memory.
pub(crate) fn frame_at(records: &[Page], index: usize) -> Option<u32>
    ensures { result ≡ frame_in (slice_get records.now index) }
{
    match records.get(index) {
        None => None,
        Some(page) => page.frame,
    }
}

/// Swaps the words of a page of a store with those of an owned page, if the page of the store has memory.
fn swap_page(records: &[Page], index: usize, frames: &mut Frames, owned: &mut OwnedPage)
    ensures frames { frames.new ≡ put_frame records.now index frames.old owned.old.frame }
    ensures owned { owned.new ≡ record owned.old { frame = lent_frame records.now index frames.old owned.old.frame } }
{
    let Some(frame) = frame_at(records, index) else {
        return;
    };
    if (frame as usize) < frames.len() {
        frames.swap(frame as usize, &mut owned.frame);
    }
}

/// Swaps the words of pages of a store, from that of a record's index on, with those of owned pages.
pub(crate) fn swap_pages(
    records: &[Page],
    first: usize,
    frames: &mut Frames,
    owned: &mut [OwnedPage],
)
    requires few { first + length owned.old < 2 ^ 64 }
    ensures { Swapped records.now first frames.old owned.old frames.new owned.new }
{
    for index in 0..owned.len() {
        let page = &mut owned[index];
        swap_page(records, first + index, frames, page);
    }
}

/// Swaps the words of the pages of a part.
fn swap_part(records: &[Page], frames: &mut Frames, part: &mut Part)
    requires few { part.old.first + length part.old.pages.items < 2 ^ 64 }
    ensures pages { Swapped records.now part.old.first frames.old part.old.pages.items frames.new part.new.pages.items }
    ensures rest { part.new ≡ record part.old { pages = part.new.pages } }
{
    swap_pages(records, part.first, frames, &mut part.pages);
}

/// Swaps the words of the pages of parts, one part after the other.
pub(crate) fn swap_parts(records: &[Page], frames: &mut Frames, parts: &mut [Part])
    requires { AreShort parts.old }
    ensures { SwappedParts records.now frames.old parts.old frames.new parts.new }
{
    for index in 0..parts.len() {
        let part = &mut parts[index];
        swap_part(records, frames, part);
    }
}
