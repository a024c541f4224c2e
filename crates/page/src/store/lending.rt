//! Pages whose words are lent for writing, also while those of another page are read.

ghost use Rattle.std.specs.Prelude.{◌≡◌, ◌≢◌, ◌<◌, length, Some, IfSome, true, is_some};
ghost use Rattle.std.specs.Borrow.{sem};
ghost use Rattle.model.specs.Stores.{page_at, frame_in, words_at};
ghost use Rattle.page.specs.Lending.{LendsPage, can_lend, has_frame};

use crate::store::Store;

impl Store {
    /// Returns whether a page has memory.
    pub fn has_frame(&self, page: u64) -> bool
        ensures { result ≡ has_frame self.now page }
    {
        self.recorded_frame(page).is_some()
    }

    /// Returns whether one page can be lent for reading while another is lent for writing: they differ, and both have
    /// memory.
    pub fn can_lend(&self, from: u64, to: u64) -> bool
        ensures { result ≡ can_lend self.now from to }
    {
        from != to && self.has_frame(from) && self.has_frame(to)
    }

    /// Lends the words of a page that has memory, for writing.
    pub fn words_mut(&mut self, page: u64) -> &mut [u64]
        requires { has_frame self.old page ≡ true }
        ensures value { words_at self.old page ≡ Some result.now }
        ensures* after { sem 𝓛 (LendsPage self.entry page result) }
    {
        let frame = self.memory(page);
        let words = self.frames.frame_mut(frame);
        words.words_mut()
    }

    /// Lends one page for reading and another for writing. `can_lend` must hold for them.
    pub fn lend_apart(&mut self, from: u64, to: u64) -> (&[u64], &mut [u64])
        requires { can_lend self.old from to ≡ true }
        ensures from { words_at self.old from ≡ Some result.0.now }
        ensures to { words_at self.old to ≡ Some result.1.now }
        ensures* after { sem 𝓛 (LendsPage self.entry to result.1) }
    {
        let source = self.memory(from);
        let target = self.memory(to);
        self.frames.lend(source, target)
    }

    /// Lends one page for reading and another for writing. Returns `None` exactly if they are the same, or one of
    /// them has no memory.
    pub fn lend(&mut self, from: u64, to: u64) -> Option<(&[u64], &mut [u64])>
        ensures none { is_some result ≡ can_lend self.old from to }
        ensures from { IfSome result (λ l. words_at self.old from ≡ Some l.0.now) }
        ensures to { IfSome result (λ l. words_at self.old to ≡ Some l.1.now) }
    {
        if !self.can_lend(from, to) {
            return None;
        }
        Some(self.lend_apart(from, to))
    }

    /// Returns the frame of a page that has memory.
    fn memory(&self, page: u64) -> usize
        requires { has_frame self.now page ≡ true }
        ensures there { result < length self.now.frames }
        ensures value { frame_in (page_at self.now page) ≡ Some result }
    {
        let _ = &self.words;
        self.recorded_frame(page).unwrap() as usize
    }
}
