//! The end of a mark, page by page.

ghost use Rattle.std.specs.Prelude.{◌≡◌, ◌<◌, length, slice_get, true, false};
ghost use Rattle.model.specs.Stores.{state_in, is_open, is_protected};
ghost use Rattle.page.specs.Ending.{with_mark_ended_at};

use crate::store::Store;
use model::{Page, PageState};

impl Store {
    /// Ends a mark for the page of an index, which is one less than the page's number and below the number of
    /// records. An open page closes, unless a buffer of it is lent. A protected page becomes unused, and its frame,
    /// if it has one, free: its number may be used again, as no reference has it any more. Other pages stay as they
    /// are.
    #[tactic(auto, using(crate::proofs::Retiring::kept_in), unfolding(crate::specs::Ending::with_mark_ended_at))]
    pub fn end_mark_at(&mut self, index: usize, lent: bool)
        requires { index < length self.old.pages }
        ensures { self.new ≡ with_mark_ended_at self.old index lent }
    {
        match self.state_of(index) {
            PageState::From | PageState::Gone => self.retire(index),
            PageState::Open => {
                if !lent {
                    self.close(index)
                }
            }
            PageState::Unused | PageState::Closed => {}
        }
    }

    /// Returns the state of the page of an index; Unused if it has no record.
    fn state_of(&self, index: usize) -> PageState
        ensures { result ≡ state_in (slice_get self.now.pages index) }
    {
        match self.pages.get(index) {
            None => PageState::Unused,
            Some(page) => page.state,
        }
    }

    /// Closes the open page of an index: no buffer is taken in it any more.
    #[tactic(auto, unfolding(crate::specs::Ending::with_mark_ended_at))]
    fn close(&mut self, index: usize)
        requires there { index < length self.old.pages }
        requires open { is_open (state_in (slice_get self.old.pages index)) ≡ true }
        ensures { self.new ≡ with_mark_ended_at self.old index false }
    {
        let page = &mut self.pages[index];
        page.state = PageState::Closed;
        self.rooms.set(index, 0);
    }

    /// Makes the protected page of an index unused, and its frame free, if it has one.
    #[tactic(auto, unfolding(crate::specs::Ending::with_mark_ended_at))]
    fn retire(&mut self, index: usize)
        requires there { index < length self.old.pages }
        requires protected { is_protected (state_in (slice_get self.old.pages index)) ≡ true }
        ensures { self.new ≡ with_mark_ended_at self.old index false }
    {
        let page = self.pages[index];
        self.pages[index] = Page {
            state: PageState::Unused,
            frame: None,
            top: page.top,
        };
        self.unused.set(index, 1);
        if let Some(frame) = page.frame {
            self.owners[frame as usize] = None;
            self.frames.empty(frame as usize);
            self.spare.set(frame as usize, 1);
            self.free += 1;
        }
    }
}
