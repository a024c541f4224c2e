//! Opening targets, and protecting and releasing pages.

ghost use Rattle.std.specs.Prelude.{◌≡◌, ◌-◌, ◌<◌, false, length, slice_get, count_by, IfOk, replicate};
ghost use Rattle.model.specs.Moves.{set_gone_of, with_free, with_released};
ghost use Rattle.model.specs.Owning.{Each, LiesIn, TakesWell};
ghost use Rattle.model.specs.Protections.{has_twice, set_from_of, take_target, unused_count, with_from_pages};
ghost use Rattle.model.specs.States.{change_at};
ghost use Rattle.model.specs.Stores.{state_at, state_in, frame_in, is_unused, with_empty, Takes};
ghost use Rattle.model.specs.declared.records.Buffer.{Buffer};
ghost use Rattle.model.specs.declared.records.PageState.TheVariants.{Closed, From};
ghost use Rattle.page.specs.Relocating.{NoneGone};

use crate::store::Store;
use model::{Buffer, Page, PageState, Room};
use page_frames::Frame;

/// Returns whether a page is unused.
fn is_unused(page: &Page) -> bool
    ensures { result ≡ is_unused page.now.state }
{
    matches!(page.state, PageState::Unused)
}

/// Returns how many of these pages are unused.
fn unused_in(pages: &[Page]) -> usize
    ensures { result ≡ count_by (λ p. is_unused p.state) pages.now }
{
    pages.iter().filter(|page| is_unused(page)).count()
}

impl Store {
    /// Takes a fresh page as one buffer of all its words: the lowest unused page, opened on the lowest free frame,
    /// which gets this memory.
    ///
    /// Fails with `NoFrames` if no frame is free, else with `NoPages` if no page is unused; the store is then
    /// unchanged.
    #[tactic(auto, unfolding(model::specs::Protections::take_target), using(crate::proofs::Lying::target_by))]
    pub fn take_target(&mut self, memory: Frame) -> Result<Buffer, Room>
        requires { memory ≡ replicate self.old.words 0 }
        ensures takes { Takes self.old result self.new (take_target self.old) }
        ensures buffers { IfOk result (TakesWell self.old self.new) }
    {
        self.law();
        self.take_fresh_on(self.words, memory)
    }

    /// Returns how many pages are unused, including those without a record: 0 to the number of pages. It reads all
    /// records.
    #[tactic(auto, unfolding(model::specs::Protections::unused_count))]
    pub fn unused_pages(&self) -> u32
        ensures { result ≡ unused_count self.now }
    {
        let recorded = self.pages.len();
        unused_in(&self.pages) as u32 + (self.count - recorded as u32)
    }

    /// Protects closed pages, by their numbers from 1, each named once: their live objects are to be copied out. No
    /// page may be Gone.
    pub fn protect(&mut self, pages: &[u32])
        requires closed { Each pages.now (λ n. state_at self.old n ≡ Closed) }
        requires once { has_twice pages.now ≡ false }
        requires kept { NoneGone self.old }
        ensures pages { self.new ≡ record self.old { pages = with_from_pages pages.now self.old.pages } }
        ensures stays { (b : Buffer) → LiesIn self.old b → LiesIn self.new b }
    {
        for index in 0..pages.len() {
            self.protect_page(pages[index]);
        }
    }

    /// Protects a closed page.
    fn protect_page(&mut self, page: u32)
        requires closed { state_at self.old page ≡ Closed }
        requires kept { NoneGone self.old }
        ensures { self.new ≡ record self.old { pages = change_at self.old.pages (page - 1) set_from_of } }
    {
        self.protect_at(page.saturating_sub(1) as usize);
    }

    /// Protects the page of an index.
    fn protect_at(&mut self, index: usize)
        requires there { index < length self.old.pages }
        requires closed { state_in (slice_get self.old.pages index) ≡ Closed }
        requires kept { NoneGone self.old }
        ensures { self.new ≡ record self.old { pages = change_at self.old.pages index set_from_of } }
    {
        let page = &mut self.pages[index];
        page.state = PageState::From;
        self.usable[index + 1] = None;
    }

    /// Releases a From page, by its number from 1: its frame is free at once, before references to the page are
    /// corrected.
    pub fn release(&mut self, page: u32)
        requires { state_at self.old page ≡ From }
        ensures { self.new ≡ with_released self.old page }
    {
        self.release_at(page.saturating_sub(1) as usize);
    }

    /// Releases the page of an index.
    fn release_at(&mut self, index: usize)
        requires there { index < length self.old.pages }
        requires from { state_in (slice_get self.old.pages index) ≡ From }
        ensures { self.new ≡ record self.old {
          pages = change_at self.old.pages index set_gone_of;
          frames = with_empty
              self.old.frames (frame_in (slice_get self.old.pages index));
          owners = with_free
              self.old.owners (frame_in (slice_get self.old.pages index));
        } }
    {
        let page = self.pages[index];
        self.pages[index] = Page {
            state: PageState::Gone,
            frame: None,
            top: page.top,
        };
        if let Some(frame) = page.frame {
            self.owners[frame as usize] = None;
            self.frames.empty(frame as usize);
            self.spare.set(frame as usize, 1);
            self.free += 1;
        }
    }
}
