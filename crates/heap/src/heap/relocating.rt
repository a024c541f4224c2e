//! Raw edits of a heap that relocate objects: targets, forwarding tables, pages that are protected, copies, and pages
//! that release their memory.
//!
//! They are for the crate that implements the steps of relocation. Pages count from 1.

ghost use Rattle.std.specs.Prelude.{◌≡◌, ◌+◌, ◌-◌, ◌*◌, ◌<◌, ◌≤◌, ◌^◌, false, slice_get, slice_set, IfOk, IfSome, Some};
ghost use Rattle.model.specs.Data.{header_layout, layout_in};
ghost use Rattle.model.specs.Holding.{AreRising, GoesToPage};
ghost use Rattle.model.specs.Moves.{with_released};
ghost use Rattle.model.specs.Owning.{Each};
ghost use Rattle.model.specs.Plans.{object_words, words_of};
ghost use Rattle.model.specs.Protections.{has_twice};
ghost use Rattle.model.specs.Stores.{state_at, words_at};
ghost use Rattle.model.specs.declared.records.PageState.TheVariants.{Closed, From};
ghost use Rattle.model.specs.declared.records.Phase.TheVariants.{Idle};
ghost use Rattle.page_rows.specs.Opening.{IsBlank};
ghost use Rattle.heap.specs.Relocating.{OpensTarget, start_protection};

use crate::heap::Heap;
use forward::Side;
use layout::layout_of;
use model::{Buffer, Phase, Room};
use page_rows::{PageMemory, blank_memory, open_rows};
use refword::Addr;
use std::alloc::AllocError;
use std::thread::Threads;

/// How many forwarding tables, of those that a mark's end cleared, are freed by one call of `tidy`.
const TIDIED: u32 = 8;

/// Returns the word at an offset of a page's words, if it exists.
#[inline(always)]
fn word_in(words: &[u64], offset: usize) -> Option<u64>
    ensures { result ≡ slice_get words.now offset }
{
    words.get(offset).copied()
}

impl Heap {
    /// Returns how many words the object at an address has: 1 to 2,047. One that can't be read counts as its header
    /// alone.
    #[tactic(auto, unfolding(model::specs::Plans::object_words, model::specs::Data::layout_at))]
    pub fn object_words(&self, address: Addr) -> u32
        ensures value { result ≡ object_words self.now address }
        ensures range { result < 2 ^ 17 }
    {
        self.header_words(self.store.first_word(address))
    }

    /// Returns the same for the object at an offset of a page whose words were looked up. If they weren't, as the page
    /// has no memory, it looks for the object by its address.
    #[inline(always)]
    pub fn object_words_on(&self, page: u32, words: Option<&[u64]>, offset: u32) -> u32
        requires low { 0 < page }
        requires high { page ≤ self.now.store.count }
        requires within { offset < self.now.store.words }
        requires words { IfSome words (λ ws. words_at self.now.store page ≡ Some ws.now) }
        ensures value { result ≡ object_words self.now (page * self.now.store.words + offset) }
        ensures range { result < 2 ^ 17 }
    {
        match words {
            None => self.object_words(self.address_on(page, offset)),
            Some(words) => self.header_words(word_in(words, offset as usize)),
        }
    }

    /// Returns how many words an object with a header has: its header alone if there is none of a layout.
    #[inline(always)]
    fn header_words(&self, header: Option<u64>) -> u32
        ensures value { result ≡ words_of (layout_in self.now.config.layouts (header_layout header)) }
        ensures range { result < 2 ^ 17 }
    {
        let Some(header) = header else {
            return 1;
        };
        match self.config.layouts.get(layout_of(header)) {
            None => 1,
            Some(layout) => layout.size(),
        }
    }

    /// Returns memory for a page that is to open. Its words may be kept from a page that released them. Fails only if
    /// out of memory.
    pub fn raw_blank(&mut self) -> Result<PageMemory, AllocError>
        ensures value { IfOk result (IsBlank self.old.store.words) }
        ensures stays { self.new ≡ self.old }
    {
        blank_memory(
            &mut self.store,
            &mut self.starts,
            &mut self.live,
            &mut self.mark,
            &mut self.todo,
        )
    }

    /// Opens a target with this memory: a page for objects that move, of which all words are given out, to no thread.
    /// Fails with the reason if there is no space for one.
    #[tactic(auto, unfolding(model::specs::Protections::with_target))]
    pub fn raw_open_target(&mut self, memory: PageMemory) -> Result<Buffer, Room>
        requires { IsBlank self.old.store.words memory }
        ensures { OpensTarget self.old result self.new }
    {
        let PageMemory { frame, rows } = memory;
        let buffer = match self.store.take_target(frame) {
            Ok(buffer) => buffer,
            Err(room) => return Err(room),
        };
        open_rows(
            &mut self.starts,
            &mut self.live,
            &mut self.mark,
            &mut self.todo,
            buffer,
            rows,
        );
        Ok(buffer)
    }

    /// Frees some of the forwarding tables that a mark's end cleared. Nothing else changes.
    pub(crate) fn tidy(&mut self)
        ensures { self.new ≡ self.old }
    {
        self.sides.tidy(TIDIED);
    }

    /// Frees all forwarding tables that a mark's end cleared, and makes space for the next end of a mark to leave its
    /// tables in, if memory is there for it. Nothing else changes.
    pub fn raw_tidy(&mut self)
        ensures { self.new ≡ self.old }
    {
        self.sides.tidy(u32::MAX);
        self.sides.prepare();
    }

    /// Replaces the forwarding table of a page, if the page has a record.
    pub fn raw_set_side(&mut self, page: u32, side: Side)
        requires rising { AreRising self.old.config.words 0 side }
        requires places { Each side (GoesToPage self.old.config) }
        ensures { self.new ≡ record self.old { sides = slice_set self.old.sides (page - 1) side } }
    {
        self.sides.put(page.saturating_sub(1) as usize, side);
    }

    /// Protects closed pages, each named once; then all threads have still to cross.
    #[tactic(auto, unfolding(crate::specs::Relocating::start_protection))]
    pub fn raw_start_protection(&mut self, pages: &[u32])
        requires idle { self.old.phase ≡ Idle }
        requires closed { Each pages.now (λ n. state_at self.old.store n ≡ Closed) }
        requires once { has_twice pages.now ≡ false }
        ensures { self.new ≡ start_protection self.old pages.now }
    {
        self.store.protect(pages);
        self.threads.uncross_all();
        self.phase = Phase::ProtectCrossing;
    }

    /// Allocates the bitmaps of one more page and keeps them for a page that opens later. Fails only if out of memory.
    fn prepare_rows(&mut self) -> Result<(), AllocError>
        ensures { self.new ≡ self.old }
    {
        let words = self.store.page_words();
        self.starts.prepare(words)?;
        self.live.prepare(words)?;
        self.mark.prepare(words)?;
        self.todo.prepare(words)
    }

    /// Allocates memory for one more page, its words and its bitmaps, and keeps it, cleared, for a page that opens later.
    /// It also frees some forwarding tables that a mark's end cleared. Fails only if out of memory. Nothing else changes.
    pub fn prepare_frame(&mut self) -> Result<(), AllocError>
        ensures { self.new ≡ self.old }
    {
        self.tidy();
        self.prepare_rows()?;
        self.store.prepare_frame()
    }

    /// Allocates memory for the words of `count` pages more, or of a few more than that, on threads, and keeps it,
    /// cleared, for pages that open later. Fails only if out of memory; it has kept some of it then. Nothing else
    /// changes.
    pub fn prepare_frames_by<R: Threads + Sync>(
        &mut self,
        rt: &R,
        count: usize,
        threads: u32,
    ) -> Result<(), AllocError>
        requires { 0 < threads }
        ensures { self.new ≡ self.old }
    {
        self.store.prepare_frames_by(rt, count, threads)
    }

    /// Returns how many pages' memory is kept for the next pages that open: from pages that released it, and
    /// prepared.
    pub fn kept_frames(&self) -> usize {
        self.store.kept_frames()
    }

    /// Returns memory of released pages to the allocator, except that of `most` pages: their words, and the bitmaps
    /// that they had; and all forwarding tables that a mark's end cleared. Nothing else changes.
    pub fn trim(&mut self, most: usize)
        ensures { self.new ≡ self.old }
    {
        self.store.trim(most);
        self.starts.trim(most);
        self.live.trim(most);
        self.mark.trim(most);
        self.todo.trim(most);
        self.sides.trim();
    }

    /// Puts off the clearing of memory that pages release from now on, until `clear_by`. Nothing else changes.
    pub fn put_off_clearing(&mut self)
        ensures { self.new ≡ self.old }
    {
        self.store.put_off_clearing();
    }

    /// Clears, on threads, the memory that pages released since the clearing was put off, and puts it off no longer.
    /// It takes no memory. Nothing else changes.
    pub fn clear_by<R: Threads + Sync>(&mut self, rt: &R, threads: u32)
        requires { 0 < threads }
        ensures { self.new ≡ self.old }
    {
        self.store.clear_by(rt, threads);
    }

    /// Releases the memory of a page that is being emptied.
    pub fn raw_release_page(&mut self, page: u32)
        requires { state_at self.old.store page ≡ From }
        ensures { self.new ≡ record self.old { store = with_released self.old.store page } }
    {
        self.store.release(page);
    }
}
