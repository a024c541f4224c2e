//! Allocation buffers: the words that a thread takes to allocate objects in.

ghost use Rattle.std.specs.Prelude.{◌≡◌, ◌≤◌, ◌<◌, ◌+◌, ◌-◌, length, slice_get, slice_range};
ghost use Rattle.std.specs.Prelude.{IfOk, IfSome, MatchBool, count_by, is_none, Some, None, Err, true, ℕ, replicate};
ghost use Rattle.std.specs.Borrow.{sem};
ghost use Rattle.model.specs.Stores.{page_at, state_in, words_at, take_buffer, give_words, open_fresh, top_in};
ghost use Rattle.model.specs.Stores.{Takes, TakesOrLacks};
ghost use Rattle.model.specs.Stores.{is_open, page_with_room, free_frame, unused_page, frame_in, take_fresh};
ghost use Rattle.model.specs.Owning.{LiesIn, TakesWell};
ghost use Rattle.model.specs.Stores.{state_at};
ghost use Rattle.page.specs.Lending.{LendsPart, lies_in};
ghost use Rattle.page.specs.Records.{begins_page, is_unused_in};

use crate::store::Store;
use model::{Buffer, Page, PageState, Room};
use page_frames::Frame;
use std::alloc::AllocError;
use std::thread::Threads;

impl Store {
    /// Returns whether a page is open.
    fn is_open(&self, page: u32) -> bool
        ensures { result ≡ is_open (state_at self.now page) }
    {
        matches!(self.state(page), PageState::Open)
    }

    /// Returns whether a buffer lies in an open page.
    fn lies_in(&self, buffer: &Buffer) -> bool
        ensures { result ≡ lies_in self.now buffer.now }
    {
        self.is_open(buffer.page) && buffer.next <= buffer.end && buffer.end <= self.words
    }

    /// Returns whether a buffer lies in an open page, as `part_mut` requires.
    #[tactic(auto, using(crate::proofs::Lying::buffer_told))]
    pub fn can_lend_part(&self, buffer: &Buffer) -> bool
        ensures { MatchBool result (LiesIn self.now buffer.now) (¬ LiesIn self.now buffer.now) }
    {
        self.lies_in(buffer)
    }

    /// Lends the free rest of a buffer that lies in an open page, for writing.
    #[inline(always)]
    pub fn part_mut(&mut self, buffer: &Buffer) -> &mut [u64]
        requires { LiesIn self.old buffer.now }
        ensures value { IfSome (words_at self.old buffer.now.page) (λ ws. result.now
            ≡ slice_range ws buffer.now.next buffer.now.end) }
        ensures len { length result.now ≡ buffer.now.end - buffer.now.next }
        ensures* after { sem 𝓛 (LendsPart self.entry buffer.now.page buffer.now.next result) }
    {
        let frame = self.open_frame(buffer.page);
        let words = self.frames.frame_mut(frame);
        words.run_mut(buffer.next as usize, buffer.end as usize)
    }

    /// Gives out `n` words of the open page of an index.
    #[tactic(auto, unfolding(model::specs::Stores::give_words))]
    fn give(&mut self, index: usize, n: u32) -> Buffer
        requires there { index < length self.old.pages }
        requires open { is_open (state_in (slice_get self.old.pages index)) ≡ true }
        requires room { top_in (slice_get self.old.pages index) + n ≤ self.old.words }
        ensures { give_words self.old index n ≡ (self.new, result) }
    {
        let page = &mut self.pages[index];
        let top = page.top;
        page.top = top + n;
        self.rooms.set(index, self.words - (top + n));
        Buffer {
            page: (index + 1) as u32,
            next: top,
            end: top + n,
        }
    }

    /// Opens the page of an index on a frame, which gets this memory.
    #[tactic(auto, unfolding(model::specs::Stores::open_fresh))]
    fn open(&mut self, index: usize, frame: usize, memory: Frame)
        requires unused { is_unused_in (slice_get self.old.pages index) ≡ true }
        requires page_there { index < length self.old.pages }
        requires free { slice_get self.old.owners frame ≡ Some None }
        requires frame_there { frame < length self.old.owners }
        requires blank { memory ≡ replicate self.old.words 0 }
        ensures { self.new ≡ open_fresh self.old index frame }
    {
        self.free -= 1;
        self.pages[index] = Page {
            state: PageState::Open,
            frame: Some(frame as u32),
            top: 0,
        };
        self.usable[index + 1] = Some(frame as u32);
        self.owners[frame] = Some((index + 1) as u32);
        self.rooms.set(index, self.words);
        self.unused.set(index, 0);
        self.spare.set(frame, 0);
        self.frames.place(frame, memory);
    }

    /// Returns the index of the lowest open page with space for `n` words.
    fn page_with_room(&self, n: u32) -> Option<usize>
        requires { 0 < n }
        ensures first { result ≡ page_with_room self.now.words n self.now.pages }
        ensures there { IfSome result (λ i. i < length self.now.pages) }
        ensures open { IfSome result (λ i. is_open (state_in (slice_get self.now.pages i)) ≡ true) }
        ensures room { IfSome result (λ i. top_in (slice_get self.now.pages i) + n ≤ self.now.words) }
    {
        self.rooms.first_at_least(n)
    }

    /// Returns whether a buffer of `n` words would be the first of its page, which it is if no open page has space.
    #[tactic(auto, unfolding(crate::specs::Records::begins_page))]
    pub fn begins_page(&self, n: u32) -> bool
        requires { 0 < n }
        ensures { result ≡ begins_page self.now n }
    {
        match self.page_with_room(n) {
            None => true,
            Some(index) => self.pages[index].top == 0,
        }
    }

    /// Returns the number, from 0, of the lowest free frame.
    fn free_frame(&self) -> Option<usize>
        ensures first { result ≡ free_frame self.now.owners }
        ensures there { IfSome result (λ f. f < length self.now.owners) }
        ensures free { IfSome result (λ f. slice_get self.now.owners f ≡ Some None) }
        ensures some { IfSome result (λ _. 0 < count_by is_none self.now.owners) }
    {
        self.spare.first_at_least(1)
    }

    /// Returns the index of the lowest unused page.
    fn unused_page(&self) -> Option<usize>
        requires { 0 < count_by is_none self.now.owners }
        ensures first { result ≡ unused_page self.now.count self.now.pages }
        ensures there { IfSome result (λ i. i < length self.now.pages) }
        ensures unused { IfSome result (λ i. is_unused_in (slice_get self.now.pages i) ≡ true) }
    {
        self.unused.first_at_least(1)
    }

    /// Takes a buffer of `n` words, 1 to the words of a page: in the lowest open page that has space, else in the
    /// lowest unused page, opened on the lowest free frame. The search takes one step for each binary digit of the
    /// number of records. A page that is opened also gets memory, whose words are cleared.
    ///
    /// Fails with `NoFrames` if no frame is free, else with `NoPages` if no page is unused, else with `NoMemory` if
    /// out of memory; the store is then unchanged.
    pub fn take(&mut self, n: u32) -> Result<Buffer, Room>
        requires low { 0 < n }
        requires high { n ≤ self.old.words }
        ensures takes { TakesOrLacks self.old result self.new (take_buffer self.old n) }
        ensures buffers { IfOk result (TakesWell self.old self.new) }
    {
        self.law();
        self.take_lowest(n)
    }

    /// Does what `take` does.
    #[tactic(auto, unfolding(model::specs::Stores::take_buffer))]
    fn take_lowest(&mut self, n: u32) -> Result<Buffer, Room>
        requires low { 0 < n }
        requires high { n ≤ self.old.words }
        ensures { TakesOrLacks self.old result self.new (take_buffer self.old n) }
    {
        match self.page_with_room(n) {
            Some(index) => Ok(self.give(index, n)),
            None => self.take_fresh(n),
        }
    }

    /// Returns the number of the lowest free frame and the index of the lowest unused page. Fails if there aren't
    /// both.
    fn free_room(&self) -> Result<(usize, usize), Room>
        ensures none { (e : Room) → result ≡ Err e → (n : ℕ) → take_fresh self.now n (free_frame self.now.owners)
            (unused_page self.now.count self.now.pages) ≡ Err e }
        ensures frame { IfOk result (λ r. free_frame self.now.owners ≡ Some r.0) }
        ensures page { IfOk result (λ r. unused_page self.now.count self.now.pages ≡ Some r.1) }
        ensures frame_there { IfOk result (λ r. r.0 < length self.now.owners) }
        ensures free { IfOk result (λ r. slice_get self.now.owners r.0 ≡ Some None) }
        ensures page_there { IfOk result (λ r. r.1 < length self.now.pages) }
        ensures unused { IfOk result (λ r. is_unused_in (slice_get self.now.pages r.1) ≡ true) }
    {
        let Some(frame) = self.free_frame() else {
            return Err(Room::NoFrames);
        };
        let Some(index) = self.unused_page() else {
            return Err(Room::NoPages);
        };
        Ok((frame, index))
    }

    /// Takes the first `n` words of a fresh page.
    fn take_fresh(&mut self, n: u32) -> Result<Buffer, Room>
        requires { n ≤ self.old.words }
        ensures { TakesOrLacks self.old result self.new (take_fresh self.old n (free_frame self.old.owners)
            (unused_page self.old.count self.old.pages)) }
    {
        let (frame, index) = self.free_room()?;
        let Ok(memory) = self.blank() else {
            return Err(Room::NoMemory);
        };
        self.open(index, frame, memory);
        Ok(self.give(index, n))
    }

    /// Takes the first `n` words of a fresh page, which gets this memory.
    pub(super) fn take_fresh_on(&mut self, n: u32, memory: Frame) -> Result<Buffer, Room>
        requires size { n ≤ self.old.words }
        requires blank { memory ≡ replicate self.old.words 0 }
        ensures { Takes self.old result self.new (take_fresh self.old n (free_frame self.old.owners)
            (unused_page self.old.count self.old.pages)) }
    {
        let (frame, index) = self.free_room()?;
        self.open(index, frame, memory);
        Ok(self.give(index, n))
    }

    /// Returns memory for a page: its words, all 0. It is kept memory, or new. Fails only if out of memory.
    pub fn blank(&mut self) -> Result<Frame, AllocError>
        ensures value { IfOk result (λ f. f ≡ replicate self.old.words 0) }
        ensures stays { self.new ≡ self.old }
    {
        self.frames.blank(self.words)
    }

    /// Allocates memory for one more page, all 0, and keeps it for a page that is opened later. Fails only if out of
    /// memory.
    pub fn prepare_frame(&mut self) -> Result<(), AllocError>
        ensures { self.new ≡ self.old }
    {
        self.frames.prepare(self.words)
    }

    /// Allocates and clears memory for `count` pages more, or a few more than that, on threads, as `prepare_frame` does
    /// for one. Fails only if out of memory; it has kept some of it then.
    pub fn prepare_frames_by<R: Threads + Sync>(
        &mut self,
        rt: &R,
        count: usize,
        threads: u32,
    ) -> Result<(), AllocError>
        requires { 0 < threads }
        ensures { self.new ≡ self.old }
    {
        self.frames.prepare_by(rt, self.words, count, threads)
    }

    /// Returns how many pages' memory is kept for the next pages that are opened: memory of frames that became free,
    /// and prepared memory.
    pub fn kept_frames(&self) -> usize {
        self.frames.kept()
    }

    /// Frees kept memory, except that of up to `most` pages.
    pub fn trim(&mut self, most: usize)
        ensures { self.new ≡ self.old }
    {
        self.frames.trim(most);
    }

    /// Puts off the clearing of memory that pages release from now on, until `clear_by`.
    pub fn put_off_clearing(&mut self)
        ensures { self.new ≡ self.old }
    {
        self.frames.put_off_clearing();
    }

    /// Clears, on threads, the memory that pages released since the clearing was put off, and puts it off no longer.
    /// It takes no memory.
    pub fn clear_by<R: Threads + Sync>(&mut self, rt: &R, threads: u32)
        requires { 0 < threads }
        ensures { self.new ≡ self.old }
    {
        self.frames.clear_by(rt, threads);
    }

    /// Takes a buffer back. Its rest is lost until the page is released, so the store stays.
    pub fn give_back(&mut self, buffer: Buffer)
        ensures { self.new ≡ self.old }
    {
        let _ = buffer;
    }

    /// Returns the frame of an open page.
    fn open_frame(&self, page: u32) -> usize
        requires { is_open (state_in (page_at self.now page)) ≡ true }
        ensures there { result < length self.now.frames }
        ensures value { frame_in (page_at self.now page) ≡ Some result }
    {
        let _ = &self.words;
        self.frame(page).unwrap() as usize
    }
}
