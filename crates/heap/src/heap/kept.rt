//! Live objects that are kept with their page.

ghost use Rattle.std.specs.Prelude.{◌≡◌, ◌+◌, ◌*◌, ◌<◌, ◌≤◌, map, IfSome};
ghost use Rattle.model.specs.Bits.{of_page};
ghost use Rattle.model.specs.Plans.{live_offsets, object_words};

use crate::heap::Heap;
use forward::{LiveObjects, Sizes};
use std::alloc::AllocError;

impl Heap {
    /// Keeps the sizes of the live objects of a page, by its number from 1, until a word of the page is written. It also
    /// frees some forwarding tables that a mark's end cleared. Fails only if out of memory. Nothing else changes.
    pub fn keep_sizes(&mut self, page: u32) -> Result<(), AllocError>
        ensures { self.new ≡ self.old }
    {
        self.law();
        self.tidy();
        match self.live.get(page.saturating_sub(1) as usize) {
            None => Ok(()),
            Some(row) => self.store.keep_sizes(page, &self.config.layouts, row),
        }
    }

    /// Keeps the live objects of a page, by its number from 1, until a word of the page is written. Fails only if out of
    /// memory. Nothing else changes.
    pub fn keep_objects(&mut self, page: u32, objects: LiveObjects) -> Result<(), AllocError>
        requires live { objects.live ≡ of_page self.old.live page }
        requires sizes { objects.sizes
            ≡ map (λ o. object_words self.old (page * self.old.store.words + o)) (live_offsets self.old page) }
        ensures { self.new ≡ self.old }
    {
        self.law();
        self.store.keep_objects(page, &self.config.layouts, objects)
    }

    /// Frees the memory of live objects that are kept with a page, by its number from 1. Nothing else changes.
    pub fn forget_objects(&mut self, page: u32)
        ensures { self.new ≡ self.old }
    {
        self.store.forget_objects(page);
    }

    /// Returns the sizes of the live objects of a page, by its number from 1, by rising offset, if these were kept and no
    /// word of the page was written since.
    pub fn sizes_on(&self, page: u32) -> Option<&Sizes>
        requires low { 0 < page }
        requires high { page ≤ self.now.store.count }
        ensures { IfSome result (λ s. s.now
            ≡ map (λ o. object_words self.now (page * self.now.store.words + o)) (live_offsets self.now page)) }
    {
        self.law();
        let row = self.live.get((page - 1) as usize)?;
        self.store.sizes(page, &self.config.layouts, row)
    }

    /// Takes the live objects of a page, by its number from 1, if their sizes were kept and no word of the page was
    /// written since. They are no longer kept then. Nothing else changes.
    pub fn raw_take_objects(&mut self, page: u32) -> Option<LiveObjects>
        requires low { 0 < page }
        requires high { page ≤ self.old.store.count }
        ensures live { IfSome result (λ o. o.live ≡ of_page self.old.live page) }
        ensures sizes { IfSome result (λ o. o.sizes
            ≡ map (λ o. object_words self.old (page * self.old.store.words + o)) (live_offsets self.old page)) }
        ensures stays { self.new ≡ self.old }
    {
        self.law();
        let row = self.live.get((page - 1) as usize)?;
        self.store.take_objects(page, &self.config.layouts, row)
    }
}
