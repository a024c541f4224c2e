//! What scans read of a heap, apart from the pages that they change.

ghost use Rattle.std.specs.Prelude.{◌≡◌, ◌≤◌, ◌<◌, ◌^◌, ◌/◌, ◌%◌};
ghost use Rattle.model.specs.declared.limits.TheConstants.{MOST_WORDS};
ghost use Rattle.model.specs.References.{read_reference};
ghost use Rattle.part_scans.specs.Scenes.{marked_in, refs_of, resolved};

use forward::Sides;
use layout::{Layouts, layout_of};
use page::PageSize;
use refword::{Addr, Word};
use std::marker::Model;

/// Returns the reference that 64 bits in memory are; bits that are no reference count as null.
#[inline(always)]
pub fn read_reference(bits: u64) -> Word
    ensures { result ≡ read_reference bits }
{
    match Word::read(bits) {
        None => Word::null(),
        Some(word) => word,
    }
}

/// The words of a page, the clean NMT value, the forwarding tables and the layouts of a heap.
#[derive(Drop)]
pub struct Scene<'a> {
    words: PageSize,
    nmt: bool,
    sides: &'a Sides,
    layouts: &'a Layouts,
}

impl<'a> Model for Scene<'a> {
    ghost use Rattle.part_scans.specs.Scenes.{SceneState};

    ghost Value = { SceneState };

    ghost view = { λ s. record { words = s.words; nmt = s.nmt; sides = s.sides.now; layouts = s.layouts.now } };

    ghost use Rattle.std.specs.Prelude.{◌≤◌, ◌<◌};
    ghost use Rattle.model.specs.declared.limits.TheConstants.{MOST_WORDS};

    ghost invariant = { λ s. (0 < s.words) × (s.words ≤ MOST_WORDS) };
}

impl<'a> Scene<'a> {
    /// Returns the scene of a heap with pages of this size.
    pub fn new(words: PageSize, nmt: bool, sides: &'a Sides, layouts: &'a Layouts) -> Scene<'a>
        requires low { 0 < words }
        requires high { words ≤ MOST_WORDS }
        ensures { result ≡ record { words = words; nmt = nmt; sides = sides.now; layouts = layouts.now } }
    {
        Scene {
            words,
            nmt,
            sides,
            layouts,
        }
    }

    /// Returns the page's number of an address.
    #[inline(always)]
    pub(crate) fn page_of(&self, address: u64) -> u64
        ensures { result ≡ address / self.now.words }
    {
        self.words.page_of(address)
    }

    /// Returns the offset of an address in its page.
    #[inline(always)]
    pub(crate) fn offset_of(&self, address: u64) -> u64
        ensures value { result ≡ address % self.now.words }
        ensures range { result ≤ MOST_WORDS }
    {
        self.words.offset_of(address)
    }

    /// Returns where the object of an address is now, by its page and its offset there. That it has no entry in a
    /// forwarding table is found by one bit.
    #[inline(always)]
    #[tactic(auto, unfolding(crate::specs::Scenes::resolved))]
    pub(crate) fn resolve(&self, address: Addr) -> Addr
        ensures { result ≡ resolved self.now address }
    {
        let (page, offset) = (
            self.page_of(address.number()),
            self.offset_of(address.number()) as u32,
        );
        if !self.sides.has_entry(page, offset) {
            return address;
        }
        self.forward(address, page, offset)
    }

    /// Returns where the object of an address is now, by its entry in a forwarding table, if it has one.
    #[cold]
    #[inline(never)]
    #[tactic(auto, unfolding(crate::specs::Scenes::resolved))]
    fn forward(&self, address: Addr, page: u64, offset: u32) -> Addr
        requires page { page ≡ address / self.now.words }
        requires offset { offset ≡ address % self.now.words }
        ensures { result ≡ resolved self.now address }
    {
        match self.sides.entry_at(page, offset) {
            None => address,
            Some(entry) => { if entry.copied { entry.to } else { address } }
        }
    }

    /// Returns the reference that marking leaves.
    #[inline(always)]
    #[tactic(auto, unfolding(crate::specs::Scenes::marked_in))]
    pub(crate) fn marked(&self, word: Word) -> Word
        ensures { result ≡ marked_in self.now word }
    {
        match word.addr() {
            None => word,
            Some(address) => Word::of(self.resolve(address), self.nmt),
        }
    }

    /// Returns how many references an object has, by its header.
    #[inline(always)]
    #[tactic(auto, unfolding(crate::specs::Scenes::refs_of))]
    pub(crate) fn refs_of(&self, header: Option<u64>) -> u32
        ensures value { result ≡ refs_of self.now header }
        ensures range { result < 2 ^ 16 }
    {
        let Some(bits) = header else {
            return 0;
        };
        match self.layouts.get(layout_of(bits)) {
            None => 0,
            Some(layout) => u32::from(layout.refs),
        }
    }
}
