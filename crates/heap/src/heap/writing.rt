//! Writes of several words of one page at once.

ghost use Rattle.std.specs.Prelude.{◌≡◌, ◌≤◌, ◌<◌, ◌+◌, ◌/◌, ◌%◌, ◌^◌, length, true, if◌then◌else◌};
ghost use Rattle.model.specs.Stores.{overlay, with_words};
ghost use Rattle.page.specs.Lending.{has_frame};
ghost use Rattle.heap.specs.Writing.{with_words_after};

use crate::heap::Heap;
use page::Store;
use refword::Addr;

/// Writes words over those of a slice, from an index on.
#[inline(always)]
fn write_over(words: &mut [u64], start: usize, values: &[u64])
    requires { start + length values.now ≤ length words.old }
    ensures { words.new ≡ overlay words.old start values.now }
{
    words[start..start + values.len()].copy_from_slice(values);
}

/// Writes words over those of a page that has memory, from an offset on.
fn write_on_page(store: &mut Store, page: u64, start: usize, values: &[u64])
    requires there { has_frame store.old page ≡ true }
    requires within { start + length values.now ≤ store.old.words }
    ensures { store.new ≡ with_words store.old page (λ ws. overlay ws start values.now) }
{
    store.law();
    let words = store.words_mut(page);
    write_over(words, start, values);
}

impl Heap {
    /// A raw edit: writes words one after another, the first of them less than 2^17 words after an address, if all are
    /// on the page of the address and the page has memory. Returns whether it did; else nothing is written.
    pub fn raw_set_words_behind(&mut self, address: Addr, ahead: u64, values: &[u64]) -> bool
        requires { ahead < 2 ^ 17 }
        ensures value { self.new ≡ (if result then with_words_after self.old address ahead values.now else self.old) }
        ensures within { result ≡ true → address % self.old.store.words + ahead + length values.now
            ≤ self.old.store.words }
    {
        let start = u64::from(self.store.offset_of(address)) + ahead;
        let end = u64::from(self.store.page_words());
        if start > end || values.len() as u64 > end - start {
            return false;
        }
        let page = self.store.page_of(address);
        if !self.store.has_frame(page) {
            return false;
        }
        write_on_page(&mut self.store, page, start as usize, values);
        true
    }
}
