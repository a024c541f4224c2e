//! The memory of a page.

ghost use Rattle.std.specs.Prelude.{◌≡◌, ◌+◌, ◌≤◌, ◌<◌, ◌^◌, length, slice_get, slice_set, slice_range, replicate};
ghost use Rattle.std.specs.Prelude.{take, drop, [], IfOk, IfSome, nat_lt};
ghost use Rattle.model.specs.declared.limits.TheConstants.{MOST_WORDS};
ghost use Rattle.page_frames.specs.Kept.{IsKept, objects_in, sizes_in};
ghost use Rattle.std.specs.Borrow.{sem};
ghost use Rattle.page_frames.specs.Lending.{LendsRun};

use crate::kept::KeptObjects;
use forward::{LiveObjects, Sizes};
use layout::Layouts;
use markbits::Row;
use std::alloc::{AllocError, Global};
use std::marker::Model;
use std_alloc::vec::run_mut;

/// The words of a frame. A contract sees the list of them.
#[derive(Drop)]
pub struct Frame {
    words: Vec<u64, Global>,
    /// Whether a word may have been written since all were 0.
    written: bool,
    /// Whether no word was written since objects were kept.
    fresh: bool,
    /// The objects that were kept last, if any.
    kept: Vec<KeptObjects, Global>,
}

impl Model for Frame {
    ghost use Rattle.std.specs.Prelude.{◌≡◌, List, ℕ, false, true, length, replicate};
    ghost use Rattle.page_frames.specs.Kept.{AreKept};

    ghost Value = { List ℕ };

    ghost view = { λ f. f.words.items };

    ghost invariant = { λ f. (f.written ≡ false → f.words.items ≡ replicate (length f.words.items) 0)
        × (f.fresh ≡ true → AreKept f.words.items f.kept.items) };
}

impl Frame {
    /// Returns a frame of a number of words, all 0. Fails only if out of memory.
    pub fn new(alloc: Global, words: u32) -> Result<Frame, AllocError>
        ensures { IfOk result (λ f. f ≡ replicate words 0) }
    {
        Ok(Frame {
            words: vec![in alloc; 0; words as usize]?,
            written: false,
            fresh: false,
            kept: Vec::new(alloc),
        })
    }

    /// Returns a frame of no words. It takes no memory.
    pub fn empty(alloc: Global) -> Frame
        ensures { result ≡ [] }
    {
        Frame {
            words: Vec::new(alloc),
            written: false,
            fresh: false,
            kept: Vec::new(alloc),
        }
    }

    /// Returns the word at an offset, or `None` past the end.
    pub fn get(&self, offset: usize) -> Option<u64>
        ensures { result ≡ slice_get self.now offset }
    {
        self.words.get(offset).copied()
    }

    /// Writes the word at an offset, if the frame has such a word.
    pub fn set(&mut self, offset: usize, value: u64)
        ensures { self.new ≡ slice_set self.old offset value }
    {
        if offset < self.words.len() {
            self.written = true;
            self.fresh = false;
            self.words[offset] = value;
        }
    }

    /// Writes the word at an offset, if the frame has such a word. Returns whether it does.
    #[inline(always)]
    pub fn put(&mut self, offset: usize, value: u64) -> bool
        ensures done { result ≡ nat_lt offset (length self.old) }
        ensures value { self.new ≡ slice_set self.old offset value }
    {
        if offset >= self.words.len() {
            return false;
        }
        self.written = true;
        self.fresh = false;
        self.words[offset] = value;
        true
    }

    /// Keeps the sizes of the objects at the set bits of a bitmap, which has at most as many bits as the largest page
    /// has words, until a word is written. Fails only if out of memory. The words stay.
    pub fn keep_sizes(&mut self, layouts: &Layouts, live: &Row) -> Result<(), AllocError>
        requires { length live.now ≤ MOST_WORDS }
        ensures { self.new ≡ self.old }
    {
        let alloc = *self.words.allocator();
        let objects = KeptObjects::new(alloc, layouts, &self.words, live)?;
        self.keep(objects)
    }

    /// Keeps live objects, whose sizes these layouts give, until a word is written. Fails only if out of memory. The
    /// words stay.
    pub fn keep_objects(
        &mut self,
        layouts: &Layouts,
        objects: LiveObjects,
    ) -> Result<(), AllocError>
        requires { objects ≡ objects_in layouts.now self.old objects.live }
        ensures { self.new ≡ self.old }
    {
        let alloc = *self.words.allocator();
        let objects = KeptObjects::of(alloc, layouts, objects)?;
        self.keep(objects)
    }

    /// Keeps objects in place of those that were kept last. Fails only if out of memory. The words stay.
    fn keep(&mut self, objects: KeptObjects) -> Result<(), AllocError>
        requires { IsKept self.old objects }
        ensures { self.new ≡ self.old }
    {
        self.fresh = false;
        self.kept.clear();
        self.kept.push(objects)?;
        self.fresh = true;
        Ok(())
    }

    /// Frees objects that are kept. The words stay.
    pub fn forget_objects(&mut self)
        ensures { self.new ≡ self.old }
    {
        self.fresh = false;
        self.kept.clear();
    }

    /// Returns the sizes of the objects at the set bits of a bitmap, by these layouts, if these were kept and no word
    /// was written since.
    pub fn sizes(&self, layouts: &Layouts, live: &Row) -> Option<&Sizes>
        ensures { IfSome result (λ s. s.now ≡ sizes_in layouts.now self.now live.now) }
    {
        if !self.fresh {
            return None;
        }
        let kept = self.kept.first()?;
        kept.sizes_for(layouts, live)
    }

    /// Takes the objects at the set bits of a bitmap, by these layouts, if their sizes were kept and no word was written
    /// since. They are no longer kept then. The words stay.
    pub fn take_objects(&mut self, layouts: &Layouts, live: &Row) -> Option<LiveObjects>
        ensures objects { IfSome result (λ o. o ≡ objects_in layouts.now self.old live.now) }
        ensures words { self.new ≡ self.old }
    {
        let were_fresh = self.fresh;
        self.fresh = false;
        if !were_fresh {
            return None;
        }
        let kept = self.kept.pop()?;
        kept.objects_for(layouts, live)
    }

    /// Sets all words to 0, and frees objects that were kept. It costs nothing if no word was written since they were.
    pub fn clear(&mut self)
        ensures { self.new ≡ replicate (length self.old) 0 }
    {
        self.fresh = false;
        self.kept.clear();
        if self.written {
            self.words.fill(0);
            self.written = false;
        }
    }

    /// Returns all words.
    pub fn words(&self) -> &[u64]
        ensures { result.now ≡ self.now }
    {
        &self.words
    }

    /// Lends all words for writing.
    pub fn words_mut(&mut self) -> &mut [u64]
        ensures value { result.now ≡ self.old }
        ensures* after { sem 𝓛 (LendsRun self.entry 0 result) }
    {
        self.written = true;
        self.fresh = false;
        let end = self.words.len();
        run_mut(&mut self.words, 0, end)
    }

    /// Lends the words from one offset up to another, which must not be past the end, for writing.
    pub fn run_mut(&mut self, start: usize, end: usize) -> &mut [u64]
        requires order { start ≤ end }
        requires within { end ≤ length self.old }
        ensures value { result.now ≡ slice_range self.old start end }
        ensures* after { sem 𝓛 (LendsRun self.entry start result) }
    {
        self.written = true;
        self.fresh = false;
        run_mut(&mut self.words, start, end)
    }
}
