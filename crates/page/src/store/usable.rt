//! Words of pages that have memory and aren't protected, found by one look-up of the page.

ghost use Rattle.std.specs.Prelude.{◌≡◌, ◌+◌, ◌/◌, ◌%◌, ◌^◌, ◌<◌, ◌≤◌, length, IfSome, Some, if◌then◌else◌};
ghost use Rattle.model.specs.Stores.{with_word, word_at, words_at};
ghost use Rattle.refword.specs.Words.{IsAddress};
ghost use Rattle.page.specs.Usable.{usable_frame};

use crate::store::Store;

impl Store {
    /// Returns the frame of the page of a number that is an address, if the page has memory and isn't protected.
    #[inline(always)]
    #[tactic(auto, using(crate::proofs::Usable::found))]
    pub fn usable_frame(&self, number: u64) -> Option<u32>
        ensures value { result ≡ usable_frame self.now (number / self.now.words) }
        ensures address { IfSome result (λ _. IsAddress number) }
    {
        match self.usable.get(self.size.page_of(number) as usize) {
            None => None,
            Some(frame) => *frame,
        }
    }

    /// Returns the same for a number on a page that has a record.
    #[inline(always)]
    pub fn recorded_usable_frame(&self, number: u64) -> Option<u32>
        requires { number / self.now.words ≤ length self.now.pages }
        ensures value { result ≡ usable_frame self.now (number / self.now.words) }
        ensures address { IfSome result (λ _. IsAddress number) }
    {
        self.usable[self.size.page_of(number) as usize]
    }

    /// Returns the words of a usable page, by its frame and an address on it. May also return `None` after the page
    /// was lent together with another; `words` then finds them.
    #[inline(always)]
    pub fn words_on(&self, frame: u32, number: u64) -> Option<&[u64]>
        requires { usable_frame self.now (number / self.now.words) ≡ Some frame }
        ensures { IfSome result (λ ws. words_at self.now (number / self.now.words) ≡ Some ws.now) }
    {
        self.frames.words_at_once(frame as usize)
    }

    /// Returns the offset in its page of a number that is an address: below the words of a page.
    #[inline(always)]
    pub fn offset_on(&self, number: u64) -> usize
        ensures { result ≡ number % self.now.words }
    {
        self.size.offset_of(number) as usize
    }

    /// Returns the word `ahead` words, less than 2^17, after an address on a usable page, if it is on the same page.
    /// It is found by the page's frame alone, so the result may also be `None` after the page was lent together with
    /// another; `word_behind` then finds it.
    #[inline(always)]
    pub fn word_on(&self, frame: u32, number: u64, ahead: u64) -> Option<u64>
        requires usable { usable_frame self.now (number / self.now.words) ≡ Some frame }
        requires near { ahead < 2 ^ 17 }
        ensures { IfSome result (λ v. word_at self.now (number + ahead) ≡ Some v) }
    {
        let offset = self.size.offset_of(number) + ahead;
        self.frames.word_at_once(frame as usize, offset as usize)
    }

    /// Writes the word `ahead` words, less than 2^17, after an address on a usable page, if it is on the same page.
    /// Returns whether it did. May also return false after the page was lent together with another; `set_word_behind`
    /// then writes it.
    #[inline(always)]
    pub fn set_word_on(&mut self, frame: u32, number: u64, ahead: u64, value: u64) -> bool
        requires usable { usable_frame self.old (number / self.old.words) ≡ Some frame }
        requires near { ahead < 2 ^ 17 }
        ensures { self.new ≡ (if result then with_word self.old (number + ahead) value else self.old) }
    {
        let offset = self.size.offset_of(number) + ahead;
        self.frames
            .set_at_once(frame as usize, offset as usize, value)
    }
}
