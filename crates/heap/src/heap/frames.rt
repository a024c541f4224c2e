//! Frames of pages that have memory and aren't protected, by one lookup of the page, and writes to them.

ghost use Rattle.std.specs.Prelude.{◌≡◌, ◌+◌, ◌^◌, ◌<◌, IfSome, if◌then◌else◌};
ghost use Rattle.model.specs.Stores.{with_word};
ghost use Rattle.refword.specs.Words.{IsAddress};
ghost use Rattle.page.specs.Whole.{IsRecorded};
ghost use Rattle.heap.specs.AtOnce.{IsOnFrame, IsOpenTo};

use crate::heap::Heap;
use refword::Addr;

impl Heap {
    /// Returns the number, from 0, of the frame of the page that a number is an address on, if the page has memory and
    /// isn't protected.
    #[inline(always)]
    pub fn frame_at_once(&self, number: u64) -> Option<u32>
        ensures address { IfSome result (λ _. IsAddress number) }
        ensures open { IfSome result (λ _. IsOpenTo self.now number) }
        ensures frame { IfSome result (IsOnFrame self.now number) }
    {
        self.store.usable_frame(number)
    }

    /// The same for a number on a page that has a record.
    #[inline(always)]
    pub fn recorded_frame(&self, number: u64) -> Option<u32>
        requires { IsRecorded self.now.store number }
        ensures address { IfSome result (λ _. IsAddress number) }
        ensures open { IfSome result (λ _. IsOpenTo self.now number) }
        ensures frame { IfSome result (IsOnFrame self.now number) }
    {
        self.store.recorded_usable_frame(number)
    }

    /// A raw edit: writes the word less than 2^17 words after an address on a page that has memory and isn't
    /// protected, by the page's frame, if it is on the same page. Returns whether it did. It may also be false after
    /// the page was lent alongside another one; `raw_set_word_behind` then writes it.
    #[inline(always)]
    pub fn raw_set_word_on(&mut self, frame: u32, address: Addr, ahead: u64, value: u64) -> bool
        requires frame { IsOnFrame self.old address frame }
        requires near { ahead < 2 ^ 17 }
        ensures { self.new ≡ (if result
            then record self.old { store = with_word self.old.store (address + ahead) value } else self.old) }
    {
        self.store
            .set_word_on(frame, address.number(), ahead, value)
    }

    /// The same by the number of the address.
    #[inline(always)]
    pub fn raw_set_word_at(&mut self, frame: u32, address: u64, ahead: u64, value: u64) -> bool
        requires frame { IsOnFrame self.old address frame }
        requires near { ahead < 2 ^ 17 }
        ensures { self.new ≡ (if result
            then record self.old { store = with_word self.old.store (address + ahead) value } else self.old) }
    {
        self.store.set_word_on(frame, address, ahead, value)
    }
}
