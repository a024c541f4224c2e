//! Resolving words, and the words that marking leaves.

ghost use Rattle.std.specs.Prelude.{◌≡◌, is_some};
ghost use Rattle.model.specs.Marks.{entry_at, resolve, marked_word};

use crate::heap::Heap;
use model::Forwarding;
use refword::{Addr, Word};

impl Heap {
    /// Returns the entry of the forwarding table for the object of an address, if it has one: found by one bit and
    /// one rank of its page's bitmap.
    #[tactic(auto, unfolding(model::specs::Marks::entry_at))]
    pub fn entry_at(&self, address: Addr) -> Option<Forwarding>
        ensures { result ≡ entry_at self.now address }
    {
        let (page, offset) = (self.store.page_of(address), self.store.offset_of(address));
        self.sides.entry_at(page, offset)
    }

    /// Returns whether the object of an address has an entry in a forwarding table: found by one bit.
    #[inline(always)]
    #[tactic(auto, unfolding(model::specs::Marks::entry_at))]
    pub fn has_entry(&self, address: Addr) -> bool
        ensures { result ≡ is_some (entry_at self.now address) }
    {
        let (page, offset) = (self.store.page_of(address), self.store.offset_of(address));
        self.sides.has_entry(page, offset)
    }

    /// Returns where the object of an address is now.
    #[tactic(auto, unfolding(model::specs::Marks::resolve))]
    pub fn resolve(&self, address: Addr) -> Addr
        ensures { result ≡ resolve self.now address }
    {
        match self.entry_at(address) {
            None => address,
            Some(entry) => { if entry.copied { entry.to } else { address } }
        }
    }

    /// Returns the word that marking leaves: it names the object where it is now, and is marked through; null stays
    /// null.
    #[tactic(auto, unfolding(model::specs::Marks::marked_word))]
    pub fn marked_word(&self, word: Word) -> Word
        ensures { result ≡ marked_word self.now word }
    {
        match word.addr() {
            None => word,
            Some(address) => Word::of(self.resolve(address), self.nmt()),
        }
    }
}
