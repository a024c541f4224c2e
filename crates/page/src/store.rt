//! Pages and their frames.
mod behind;
mod buffers;
mod ending;
mod filling;
mod kept;
mod lending;
mod owning;
mod relocating;
mod runs;
mod usable;

ghost use Rattle.std.specs.Prelude.{◌≡◌, ◌≤◌, ◌<◌, ◌+◌, ◌/◌, ◌%◌, ◌^◌, length, slice_set};
ghost use Rattle.std.specs.Prelude.{IfOk, IfSome, count_by, is_some, is_none, Some, true};
ghost use Rattle.std.specs.Option.{option_map};
ghost use Rattle.model.specs.Stores.{first_store, page_at, state_at, spot_of, word_in, word_at, changed_in};
ghost use Rattle.model.specs.Stores.{with_word, words_at, frame_in, record_count};
ghost use Rattle.model.specs.Configs.{is_page_size};
ghost use Rattle.model.specs.declared.limits.TheConstants.{MOST_WORDS, MOST_FRAMES, MOST_PAGES};
ghost use Rattle.model.specs.Owning.{IsStore};

use crate::copies::many;
use crate::size::PageSize;
use model::{Page, PageState};
use page_frames::Frames;
use refword::Addr;
use std::alloc::{AllocError, Global};
use std::marker::Model;
use tournaments::Tournament;

/// The pages and frames of a heap.
///
/// Each open, closed or From page owns one frame, no other page owns any, and each frame has one owner or is free:
/// this is the invariant of the type. Only as many pages as can ever be in use at once, which is twice the number of
/// frames, have records; the others are unused.
///
/// In addition it keeps three indexes, which agree with pages and owners: how many words can still be taken in each
/// open page, 1 for each unused page, and 1 for each free frame; all other entries are 0. By page number, from 0, it
/// keeps the frame of each page that has memory and isn't protected, so that a read or write of an object needs one
/// look-up.
#[derive(Drop)]
pub struct Store {
    words: u32,
    size: PageSize,
    count: u32,
    pages: Vec<Page, Global>,
    usable: Vec<Option<u32>, Global>,
    frames: Frames,
    owners: Vec<Option<u32>, Global>,
    free: u32,
    rooms: Tournament,
    unused: Tournament,
    spare: Tournament,
}

impl Model for Store {
    ghost use Rattle.model.specs.Stores.{StoreState};

    ghost Value = { StoreState };

    ghost use Rattle.page.specs.Views.{store_of, IsStoreInside};

    ghost view = { store_of };

    ghost invariant = { IsStoreInside };
}

/// Returns how many pages of a store have records, by its numbers of frames and of page numbers: no more are ever in
/// use at once. There are at most 1,048,575 frames.
pub fn record_count(frames: u32, pages: u32) -> u32
    requires { frames ≤ MOST_FRAMES }
    ensures value { result ≡ record_count frames pages }
    ensures range { result ≤ pages }
{
    if pages <= 2 * frames {
        pages
    } else {
        2 * frames
    }
}

impl Store {
    /// Returns a store of a number of frames and of page numbers: all pages are unused, and all frames are free,
    /// which have memory only when they are used. A page has 16 to 32,768 words, a power of two, and there are at
    /// most 1,048,575 frames and as many pages. Fails only if out of memory.
    #[tactic(auto, unfolding(model::specs::Stores::first_store))]
    pub fn new(alloc: Global, words: u32, frames: u32, pages: u32) -> Result<Store, AllocError>
        requires page_size { is_page_size words ≡ true }
        requires words_low { 0 < words }
        requires words_high { words ≤ MOST_WORDS }
        requires frames_high { frames ≤ MOST_FRAMES }
        requires pages_high { pages ≤ MOST_PAGES }
        ensures { IfOk result (λ s. s ≡ first_store words frames pages) }
    {
        let blank = Page {
            state: PageState::Unused,
            frame: None,
            top: 0,
        };
        let records = record_count(frames, pages);
        Ok(Store {
            words,
            size: PageSize::of(words),
            count: pages,
            pages: many(alloc, records, blank)?,
            usable: many(alloc, records + 1, None)?,
            frames: Frames::new(alloc, frames)?,
            owners: many(alloc, frames, None)?,
            free: frames,
            rooms: Tournament::new(alloc, records, 0)?,
            unused: Tournament::new(alloc, records, 1)?,
            spare: Tournament::new(alloc, frames, 1)?,
        })
    }

    /// Proves the invariant of every store: the memory of each page is one frame, whose only owner it is.
    pub fn law(&self)
        ensures { IsStore self.now }
    {
        let _ = &self.words;
    }

    /// Returns the number of words of a page: 16 to 32,768.
    pub fn page_words(&self) -> u32
        ensures value { result ≡ self.now.words }
        ensures positive { 0 < result }
        ensures range { result ≤ MOST_WORDS }
    {
        self.words
    }

    /// Returns the number of page numbers, which count from 1: at most 1,048,575.
    pub fn page_count(&self) -> u32
        ensures value { result ≡ self.now.count }
        ensures range { result ≤ MOST_PAGES }
    {
        self.count
    }

    /// Returns the records of the pages from number 1 on; pages beyond them are unused.
    pub fn pages(&self) -> &[Page]
        ensures { result.now ≡ self.now.pages }
    {
        &self.pages
    }

    /// Returns the number of frames, used and free: at most 1,048,575.
    pub fn frame_count(&self) -> usize
        ensures { result ≡ length self.now.frames }
    {
        self.frames().len()
    }

    /// Returns the frames, by number from 0: at most 1,048,575. Each has the words of a page, or is free and has
    /// none.
    pub fn frames(&self) -> &Frames
        ensures { result.now ≡ self.now.frames }
    {
        &self.frames
    }

    /// Returns the number of the page that owns each frame; a free frame has none.
    pub fn owners(&self) -> &[Option<u32>]
        ensures { result.now ≡ self.now.owners }
    {
        &self.owners
    }

    /// Returns the number of free frames.
    pub fn free_frames(&self) -> u32
        ensures { result ≡ count_by is_none self.now.owners }
    {
        self.free
    }

    /// Returns the number of frames that are the memory of a page.
    pub fn used_frames(&self) -> usize
        ensures { result ≡ count_by is_some self.now.owners }
    {
        self.frames.len() - self.free as usize
    }

    /// Returns the record of a page by a number that may be greater than any page's.
    #[inline(always)]
    #[tactic(auto, unfolding(model::specs::Stores::page_at))]
    fn record(&self, number: u64) -> Option<Page>
        ensures { result ≡ page_at self.now number }
    {
        self.pages.get((number as usize).wrapping_sub(1)).copied()
    }

    /// Returns the record of a page by its number, if it has one: `None` for 0, and past the records.
    #[inline(always)]
    pub fn page(&self, number: u32) -> Option<Page>
        ensures { result ≡ page_at self.now number }
    {
        self.record(u64::from(number))
    }

    /// Returns the frame of a page, if it has memory.
    #[inline(always)]
    fn frame(&self, number: u32) -> Option<u32>
        ensures { result ≡ frame_in (page_at self.now number) }
    {
        self.recorded_frame(u64::from(number))
    }

    /// Returns the frame of a page, if it has memory, by a number that may be greater than any page's.
    #[inline(always)]
    fn recorded_frame(&self, number: u64) -> Option<u32>
        ensures { result ≡ frame_in (page_at self.now number) }
    {
        match self.record(number) {
            None => None,
            Some(page) => page.frame,
        }
    }

    /// Returns the state of a page by a number that may be greater than any page's.
    #[inline(always)]
    #[tactic(auto, unfolding(model::specs::Stores::state_at))]
    fn recorded_state(&self, number: u64) -> PageState
        ensures { result ≡ state_at self.now number }
    {
        match self.record(number) {
            None => PageState::Unused,
            Some(page) => page.state,
        }
    }

    /// Returns the state of a page; Unused if there is no such page.
    #[inline(always)]
    pub fn state(&self, number: u32) -> PageState
        ensures { result ≡ state_at self.now number }
    {
        self.recorded_state(u64::from(number))
    }

    /// Returns the page number of an address. There need not be such a page.
    #[inline(always)]
    pub fn page_of(&self, address: Addr) -> u64
        ensures { result ≡ address / self.now.words }
    {
        self.size.page_of(address.number())
    }

    /// Returns the state of the page of an address; Unused if there is no such page.
    #[inline(always)]
    pub fn state_behind(&self, address: Addr) -> PageState
        ensures { result ≡ state_at self.now (address / self.now.words) }
    {
        self.recorded_state(self.page_of(address))
    }

    /// Returns the offset of an address in its page: below the words of a page.
    #[inline(always)]
    pub fn offset_of(&self, address: Addr) -> u32
        ensures { result ≡ address % self.now.words }
    {
        self.size.offset_of(address.number()) as u32
    }

    /// Returns the frame and the offset of an address, if its page has memory.
    #[tactic(auto, unfolding(model::specs::Stores::spot_of))]
    fn spot(&self, address: u64) -> Option<(u32, usize)>
        ensures { result ≡ spot_of self.now address }
    {
        let frame = self.recorded_frame(self.size.page_of(address))?;
        Some((frame, self.size.offset_of(address) as usize))
    }

    /// Returns the word at an offset of a frame, if it exists.
    #[inline(always)]
    fn word_in(&self, frame: u32, offset: usize) -> Option<u64>
        ensures { result ≡ word_in self.now.frames (Some (frame, offset)) }
    {
        self.frames.word(frame as usize, offset)
    }

    /// Returns the word at an address, if its page has memory.
    #[tactic(auto, unfolding(model::specs::Stores::word_at))]
    pub fn word(&self, address: u64) -> Option<u64>
        ensures { result ≡ word_at self.now address }
    {
        let (frame, offset) = self.spot(address)?;
        self.word_in(frame, offset)
    }

    /// Returns the words of a page by its number, if it has memory.
    #[tactic(auto, unfolding(model::specs::Stores::words_at))]
    pub fn words(&self, page: u32) -> Option<&[u64]>
        ensures { option_map (λ w. w.now) result ≡ words_at self.now page }
    {
        let frame = self.frame(page)?;
        let frame = self.frames.get(frame as usize)?;
        Some(frame.words())
    }

    /// Writes the word at an offset of a frame, if it exists.
    #[inline(always)]
    fn set_word_in(&mut self, frame: u32, offset: usize, value: u64)
        ensures { self.new ≡ record self.old {
          frames = changed_in self.old.frames (Some frame)
              (λ ws. slice_set ws offset value);
        } }
    {
        if (frame as usize) < self.frames.len() {
            let frame = self.frames.frame_mut(frame as usize);
            frame.set(offset, value);
        }
    }

    /// Writes the word at an address, if its page has memory.
    #[tactic(auto, unfolding(model::specs::Stores::with_word, model::specs::Stores::with_words, model::specs::Stores::spot_of))]
    pub fn set_word(&mut self, address: u64, value: u64)
        ensures { self.new ≡ with_word self.old address value }
    {
        if let Some((frame, offset)) = self.spot(address) {
            self.set_word_in(frame, offset, value);
        }
    }
}
