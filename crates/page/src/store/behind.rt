//! Words at a distance from an address. One look-up finds the frame of a usable page; else the page's record is read.

ghost use Rattle.std.specs.Prelude.{◌≡◌, ◌+◌, ◌^◌, ◌<◌};
ghost use Rattle.model.specs.Stores.{with_word, word_at};

use crate::store::Store;
use refword::Addr;

impl Store {
    /// Returns the first word of an object at an address, if its page has memory.
    #[inline(always)]
    #[tactic(auto, using(crate::proofs::Usable::first_of))]
    pub fn first_word(&self, address: Addr) -> Option<u64>
        ensures { result ≡ word_at self.now address }
    {
        if let Some(frame) = self.usable_frame(address.number()) {
            if let Some(word) = self.word_on(frame, address.number(), 0) {
                return Some(word);
            }
        }
        self.first_word_by_record(address)
    }

    /// Returns the same by the page's record.
    #[cold]
    #[inline(never)]
    #[tactic(auto, unfolding(model::specs::Stores::word_at, model::specs::Stores::spot_of))]
    fn first_word_by_record(&self, address: Addr) -> Option<u64>
        ensures { result ≡ word_at self.now address }
    {
        let frame = self.recorded_frame(self.page_of(address))?;
        self.word_in(frame, self.offset_of(address) as usize)
    }

    /// Returns the word `ahead` words, less than 2^17, after an address, if it is on a page that has memory. If it is
    /// on the address's page, no other page is looked up.
    #[inline(always)]
    pub fn word_behind(&self, address: Addr, ahead: u64) -> Option<u64>
        requires { ahead < 2 ^ 17 }
        ensures { result ≡ word_at self.now (address + ahead) }
    {
        if let Some(frame) = self.usable_frame(address.number()) {
            if let Some(word) = self.word_on(frame, address.number(), ahead) {
                return Some(word);
            }
        }
        self.word_behind_by_record(address, ahead)
    }

    /// Returns the same by the page's record.
    #[cold]
    #[inline(never)]
    #[tactic(auto, unfolding(model::specs::Stores::word_at), using(crate::proofs::Behind::spot_behind))]
    fn word_behind_by_record(&self, address: Addr, ahead: u64) -> Option<u64>
        requires { ahead < 2 ^ 17 }
        ensures { result ≡ word_at self.now (address + ahead) }
    {
        let offset = self.size.offset_of(address.number()) + ahead;
        if offset >= u64::from(self.words) {
            return self.word(address.number() + ahead);
        }
        let frame = self.recorded_frame(self.page_of(address))?;
        self.word_in(frame, offset as usize)
    }

    /// Writes the word `ahead` words, less than 2^17, after an address, if it is on a page that has memory. If it is
    /// on the address's page, no other page is looked up.
    #[inline(always)]
    pub fn set_word_behind(&mut self, address: Addr, ahead: u64, value: u64)
        requires { ahead < 2 ^ 17 }
        ensures { self.new ≡ with_word self.old (address + ahead) value }
    {
        if let Some(frame) = self.usable_frame(address.number()) {
            if self.set_word_on(frame, address.number(), ahead, value) {
                return;
            }
        }
        self.set_word_behind_by_record(address, ahead, value);
    }

    /// Writes the same by the page's record.
    #[cold]
    #[inline(never)]
    #[tactic(auto, unfolding(model::specs::Stores::with_word, model::specs::Stores::with_words, model::specs::Stores::spot_of), using(crate::proofs::Behind::spot_behind))]
    fn set_word_behind_by_record(&mut self, address: Addr, ahead: u64, value: u64)
        requires { ahead < 2 ^ 17 }
        ensures { self.new ≡ with_word self.old (address + ahead) value }
    {
        let offset = self.size.offset_of(address.number()) + ahead;
        if offset >= u64::from(self.words) {
            self.set_word(address.number() + ahead, value);
        } else if let Some(frame) = self.recorded_frame(self.page_of(address)) {
            self.set_word_in(frame, offset as usize, value);
        }
    }
}
