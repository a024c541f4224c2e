//! Live objects of a page that are kept with its frame.

ghost use Rattle.std.specs.Prelude.{◌≡◌, ◌≤◌, ℕ, List, length, IfSome, Some};
ghost use Rattle.model.specs.Stores.{words_at};
ghost use Rattle.model.specs.declared.limits.TheConstants.{MOST_WORDS};
ghost use Rattle.page_frames.specs.Kept.{objects_in, sizes_in};

use crate::store::Store;
use forward::{LiveObjects, Sizes};
use layout::Layouts;
use markbits::Row;
use std::alloc::AllocError;

impl Store {
    /// Keeps the sizes of the objects of a page at the set bits of a bitmap, which has at most as many bits as the
    /// largest page has words, until a word of the page is written. If the page has no memory, it does nothing. Fails
    /// only if out of memory. Nothing else changes.
    pub fn keep_sizes(&mut self, page: u32, layouts: &Layouts, live: &Row) -> Result<(), AllocError>
        requires { length live.now ≤ MOST_WORDS }
        ensures { self.new ≡ self.old }
    {
        let Some(frame) = self.frame(page) else {
            return Ok(());
        };
        if frame as usize >= self.frames.len() {
            return Ok(());
        }
        self.frames.keep_sizes(frame as usize, layouts, live)
    }

    /// Keeps live objects with a page, whose sizes these layouts give, until a word of the page is written. If the page
    /// has no memory, it does nothing. Fails only if out of memory. Nothing else changes.
    pub fn keep_objects(
        &mut self,
        page: u32,
        layouts: &Layouts,
        objects: LiveObjects,
    ) -> Result<(), AllocError>
        requires { (words : List ℕ) → words_at self.old page ≡ Some words
            → objects ≡ objects_in layouts.now words objects.live }
        ensures { self.new ≡ self.old }
    {
        let Some(frame) = self.frame(page) else {
            return Ok(());
        };
        if frame as usize >= self.frames.len() {
            return Ok(());
        }
        self.frames.keep_objects(frame as usize, layouts, objects)
    }

    /// Frees objects that are kept with a page, if there are any. Nothing else changes.
    pub fn forget_objects(&mut self, page: u32)
        ensures { self.new ≡ self.old }
    {
        let Some(frame) = self.frame(page) else {
            return;
        };
        if (frame as usize) < self.frames.len() {
            self.frames.forget_objects(frame as usize);
        }
    }

    /// Returns the sizes of the objects of a page at the set bits of a bitmap, by these layouts, if these were kept and
    /// no word of the page was written since.
    #[tactic(auto, unfolding(model::specs::Stores::words_at))]
    pub fn sizes(&self, page: u32, layouts: &Layouts, live: &Row) -> Option<&Sizes>
        ensures { IfSome result (λ s. (words : List ℕ) × (words_at self.now page ≡ Some words)
            × (s.now ≡ sizes_in layouts.now words live.now)) }
    {
        let frame = self.frame(page)?;
        let frame = self.frames.get(frame as usize)?;
        frame.sizes(layouts, live)
    }

    /// Takes the objects of a page at the set bits of a bitmap, by these layouts, if their sizes were kept and no word
    /// of the page was written since. They are no longer kept then. Nothing else changes.
    #[tactic(auto, unfolding(model::specs::Stores::words_at))]
    pub fn take_objects(&mut self, page: u32, layouts: &Layouts, live: &Row) -> Option<LiveObjects>
        ensures objects { IfSome result (λ o. (words : List ℕ) × (words_at self.old page ≡ Some words)
            × (o ≡ objects_in layouts.now words live.now)) }
        ensures stays { self.new ≡ self.old }
    {
        let frame = self.frame(page)?;
        if frame as usize >= self.frames.len() {
            return None;
        }
        self.frames.take_objects(frame as usize, layouts, live)
    }
}
