//! All frames of a store, of which two can be borrowed at once.

ghost use Rattle.std.specs.Prelude.{◌≡◌, ◌≢◌, ◌≤◌, ◌<◌, length, slice_get, slice_set, replicate, IfOk, IfSome, Some};
ghost use Rattle.std.specs.Prelude.{if◌then◌else◌, true, []};
ghost use Rattle.std.specs.Option.{option_copied};
ghost use Rattle.std.specs.Borrow.{sem};
ghost use Rattle.model.specs.Stores.{changed_in, word_in};
ghost use Rattle.model.specs.declared.limits.TheConstants.{MOST_WORDS};
ghost use Rattle.page_frames.specs.Aside.{left_in};
ghost use Rattle.page_frames.specs.Kept.{objects_in};
ghost use Rattle.page_frames.specs.Lending.{LendsFrame, LendsWords};

use crate::frame::Frame;
use forward::LiveObjects;
use layout::Layouts;
use markbits::Row;
use std::alloc::{AllocError, Global};
use std::marker::Model;
use std::thread::{Threads, for_each_mut, map_indices};

/// The frames, by number from 0; a free one has no words. One frame may be set aside, so that it is read while
/// another is written: this takes no time and no memory, and no contract sees it. It is put back when the next frame
/// is lent. Until then its place has an empty frame; a look-up asks whether a frame is set aside only if it finds no
/// word.
///
/// The memory of a frame that became free is kept for the next frame that is used, until `trim` frees it. No contract
/// sees this either.
#[derive(Drop)]
pub struct Frames {
    held: Frame,
    /// The number of the frame that is set aside, or a number that no frame has if none is.
    held_at: usize,
    frames: Vec<Frame, Global>,
    /// Memory of frames that became free, or that were prepared: cleared, unless that is put off.
    kept: Vec<Frame, Global>,
    /// The index from which on kept memory may not be cleared, while that is put off.
    uncleared: Option<usize>,
}

impl Model for Frames {
    ghost use Rattle.std.specs.Prelude.{◌≡◌, List, ℕ, slice_set, []};
    ghost use Rattle.page_frames.specs.Aside.{left_in};

    ghost Value = { List (List ℕ) };

    ghost view = { λ s. slice_set s.frames.items s.held_at s.held };

    ghost invariant = { λ s. left_in s.frames.items s.held_at s.held ≡ [] };
}

/// Returns `count` frames without words. Fails only if out of memory.
fn empty_frames(alloc: Global, count: u32) -> Result<Vec<Frame, Global>, AllocError>
    ensures { IfOk result (λ v. v.items ≡ replicate count []) }
{
    let mut frames = Vec::with_capacity(alloc, count as usize)?;
    for _frame in 0..count {
        frames.push(Frame::empty(alloc))?;
    }
    Ok(frames)
}

/// Returns `count` frames of a number of words, all 0. Fails only if out of memory.
fn blank_frames(alloc: Global, words: u32, count: usize) -> Result<Vec<Frame, Global>, AllocError>
    ensures { IfOk result (λ v. v.items ≡ replicate count (replicate words 0)) }
{
    let mut frames = Vec::with_capacity(alloc, count)?;
    for _frame in 0..count {
        frames.push(Frame::new(alloc, words)?)?;
    }
    Ok(frames)
}

/// Appends lists of frames to a list. Fails if one is missing, or if out of memory; it has appended some then.
fn append_all(
    frames: &mut Vec<Frame, Global>,
    parts: Vec<Option<Vec<Frame, Global>>, Global>,
) -> Result<(), AllocError> {
    for part in parts {
        let mut more = part.ok_or(AllocError)?;
        frames.append(&mut more)?;
    }
    Ok(())
}

/// Puts the frame that is set aside back in its place.
fn put_back(held: &mut Frame, frames: &mut Vec<Frame, Global>, at: usize)
    ensures frames { frames.new.items ≡ slice_set frames.old.items at held.old }
    ensures left { held.new ≡ left_in frames.old.items at held.old }
{
    if at < frames.len() {
        std::mem::swap(held, &mut frames[at]);
    }
}

/// Sets a frame aside.
fn take_out(held: &mut Frame, frames: &mut Vec<Frame, Global>, at: usize)
    requires { at < length frames.old.items }
    ensures held { slice_get frames.old.items at ≡ Some held.new }
    ensures frames { frames.new.items ≡ slice_set frames.old.items at held.old }
{
    std::mem::swap(held, &mut frames[at]);
}

impl Frames {
    /// Returns `count` frames without words. Fails only if out of memory.
    pub fn new(alloc: Global, count: u32) -> Result<Frames, AllocError>
        ensures { IfOk result (λ f. f ≡ replicate count []) }
    {
        let frames = empty_frames(alloc, count)?;
        Ok(Frames {
            held: Frame::empty(alloc),
            held_at: frames.len(),
            frames,
            kept: Vec::new(alloc),
            uncleared: None,
        })
    }

    /// Returns the number of frames.
    pub fn len(&self) -> usize
        ensures { result ≡ length self.now }
    {
        self.frames.len()
    }

    /// Returns a frame by its number, if it exists.
    #[inline(always)]
    pub fn get(&self, number: usize) -> Option<&Frame>
        ensures { option_copied result ≡ slice_get self.now number }
    {
        if number == self.held_at && number < self.frames.len() {
            return Some(&self.held);
        }
        self.frames.get(number)
    }

    /// Returns the word at an offset of a frame, if it exists.
    #[inline(always)]
    pub fn word(&self, number: usize, offset: usize) -> Option<u64>
        ensures { result ≡ word_in self.now (Some (number, offset)) }
    {
        match self.frames.get(number) {
            None => None,
            Some(frame) => match frame.get(offset) {
                Some(word) => Some(word),
                None if number == self.held_at => self.held.get(offset),
                None => None,
            },
        }
    }

    /// Returns the words of a frame that exists, unless it is set aside or has none.
    #[inline(always)]
    pub fn words_at_once(&self, number: usize) -> Option<&[u64]>
        requires { number < length self.now }
        ensures { IfSome result (λ ws. slice_get self.now number ≡ Some ws.now) }
    {
        let words = self.frames[number].words();
        if words.is_empty() {
            return None;
        }
        Some(words)
    }

    /// Returns the word at an offset of a frame that exists, unless the frame is set aside or has no such word.
    #[inline(always)]
    pub fn word_at_once(&self, number: usize, offset: usize) -> Option<u64>
        requires { number < length self.now }
        ensures { IfSome result (λ v. word_in self.now (Some (number, offset)) ≡ Some v) }
    {
        self.frames[number].get(offset)
    }

    /// Writes the word at an offset of a frame that exists, unless the frame is set aside or has no such word.
    /// Returns whether it was written.
    #[inline(always)]
    pub fn set_at_once(&mut self, number: usize, offset: usize, value: u64) -> bool
        requires { number < length self.old }
        ensures value { self.new ≡ (if result then changed_in self.old (Some number) (λ ws. slice_set ws offset value)
            else self.old) }
        ensures within { result ≡ true → IfSome (slice_get self.old number) (λ ws. offset < length ws) }
    {
        let frame = &mut self.frames[number];
        frame.put(offset, value)
    }

    /// Returns the words of a frame.
    pub fn words(&self, number: usize) -> &[u64]
        requires { number < length self.now }
        ensures { slice_get self.now number ≡ Some result.now }
    {
        self.get(number).unwrap().words()
    }

    /// Returns memory for a frame of a number of words, all 0: kept memory, which is clear, else new memory. Fails
    /// only if out of memory.
    pub fn blank(&mut self, words: u32) -> Result<Frame, AllocError>
        ensures value { IfOk result (λ f. f ≡ replicate words 0) }
        ensures stays { self.new ≡ self.old }
    {
        if let Some(frame) = self.kept.pop() {
            let mut frame = frame;
            if frame.words().len() == words as usize {
                frame.clear();
                return Ok(frame);
            }
        }
        Frame::new(*self.frames.allocator(), words)
    }

    /// Allocates and clears memory for one more frame of a number of words, and keeps it. Fails only if out of
    /// memory.
    pub fn prepare(&mut self, words: u32) -> Result<(), AllocError>
        ensures { self.new ≡ self.old }
    {
        let alloc = *self.frames.allocator();
        self.kept.push(Frame::new(alloc, words)?)?;
        Ok(())
    }

    /// Allocates and clears memory for `count` frames more, or a few more than that, on threads, as `prepare` does for
    /// one. Fails only if out of memory; it has kept some of it then.
    pub fn prepare_by<R: Threads + Sync>(
        &mut self,
        rt: &R,
        words: u32,
        count: usize,
        threads: u32,
    ) -> Result<(), AllocError>
        requires { 0 < threads }
        ensures { self.new ≡ self.old }
    {
        let alloc = *self.frames.allocator();
        let share = count.div_ceil(threads as usize);
        let make = |_part: usize| -> Option<Vec<Frame, Global>> {
            blank_frames(alloc, words, share).ok()
        };
        let parts = map_indices(rt, alloc, threads as usize, &make)?;
        append_all(&mut self.kept, parts)
    }

    /// Keeps the sizes of objects in a frame, as `Frame::keep_sizes`. Fails only if out of memory.
    pub fn keep_sizes(
        &mut self,
        number: usize,
        layouts: &Layouts,
        live: &Row,
    ) -> Result<(), AllocError>
        requires there { number < length self.old }
        requires short { length live.now ≤ MOST_WORDS }
        ensures { self.new ≡ self.old }
    {
        let at = self.held_at;
        put_back(&mut self.held, &mut self.frames, at);
        self.held_at = self.frames.len();
        self.frames[number].keep_sizes(layouts, live)
    }

    /// Keeps live objects with a frame, as `Frame::keep_objects`. Fails only if out of memory.
    pub fn keep_objects(
        &mut self,
        number: usize,
        layouts: &Layouts,
        objects: LiveObjects,
    ) -> Result<(), AllocError>
        requires there { number < length self.old }
        requires objects { IfSome (slice_get self.old number) (λ ws. objects ≡ objects_in layouts.now ws objects.live) }
        ensures { self.new ≡ self.old }
    {
        let at = self.held_at;
        put_back(&mut self.held, &mut self.frames, at);
        self.held_at = self.frames.len();
        self.frames[number].keep_objects(layouts, objects)
    }

    /// Frees objects that are kept with a frame.
    pub fn forget_objects(&mut self, number: usize)
        requires { number < length self.old }
        ensures { self.new ≡ self.old }
    {
        let at = self.held_at;
        put_back(&mut self.held, &mut self.frames, at);
        self.held_at = self.frames.len();
        self.frames[number].forget_objects();
    }

    /// Takes the objects that are kept with a frame, as `Frame::take_objects`.
    pub fn take_objects(
        &mut self,
        number: usize,
        layouts: &Layouts,
        live: &Row,
    ) -> Option<LiveObjects>
        requires { number < length self.old }
        ensures objects { IfSome (slice_get self.old number)
            (λ ws. IfSome result (λ o. o ≡ objects_in layouts.now ws live.now)) }
        ensures stays { self.new ≡ self.old }
    {
        let at = self.held_at;
        put_back(&mut self.held, &mut self.frames, at);
        self.held_at = self.frames.len();
        self.frames[number].take_objects(layouts, live)
    }

    /// Returns how many frames' memory is kept.
    pub fn kept(&self) -> usize {
        self.kept.len()
    }

    /// Frees kept memory, except that of up to `most` frames.
    pub fn trim(&mut self, most: usize)
        ensures { self.new ≡ self.old }
    {
        self.kept.truncate(most);
    }

    /// Swaps the words of a frame with others.
    pub fn swap(&mut self, number: usize, other: &mut Frame)
        requires { number < length self.old }
        ensures frames { self.new ≡ slice_set self.old number other.old }
        ensures other { slice_get self.old number ≡ Some other.new }
    {
        let at = self.held_at;
        put_back(&mut self.held, &mut self.frames, at);
        self.held_at = self.frames.len();
        std::mem::swap(other, &mut self.frames[number]);
    }

    /// Puts a frame in the place of another, which it returns.
    fn exchange(&mut self, number: usize, frame: Frame) -> Frame
        requires { number < length self.old }
        ensures { self.new ≡ slice_set self.old number frame }
    {
        let at = self.held_at;
        put_back(&mut self.held, &mut self.frames, at);
        self.held_at = self.frames.len();
        let mut other = frame;
        std::mem::swap(&mut other, &mut self.frames[number]);
        other
    }

    /// Gives a frame its memory.
    pub fn place(&mut self, number: usize, frame: Frame)
        requires { number < length self.old }
        ensures { self.new ≡ slice_set self.old number frame }
    {
        let _ = self.exchange(number, frame);
    }

    /// Puts off the clearing of frames that become free from now on, until `clear_by`.
    pub fn put_off_clearing(&mut self)
        ensures { self.new ≡ self.old }
    {
        self.uncleared = Some(self.kept.len());
    }

    /// Clears, on threads, the kept memory of frames that became free since the clearing was put off, and puts it off
    /// no longer. It takes no memory.
    pub fn clear_by<R: Threads + Sync>(&mut self, rt: &R, threads: u32)
        requires { 0 < threads }
        ensures { self.new ≡ self.old }
    {
        let Some(first) = self.uncleared else {
            return;
        };
        self.uncleared = None;
        if first < self.kept.len() {
            let clear = |_index: usize, frame: &mut Frame| { frame.clear() };
            for_each_mut(rt, self.kept.slice_mut(first..), threads as usize, &clear);
        }
    }

    /// Takes a frame's memory away: it has no words then. The memory is cleared, unless that is put off, and kept, or
    /// freed if out of memory for the list of kept frames.
    pub fn empty(&mut self, number: usize)
        requires { number < length self.old }
        ensures { self.new ≡ slice_set self.old number [] }
    {
        let none = Frame::empty(*self.frames.allocator());
        let mut old = self.exchange(number, none);
        if self.uncleared.is_none() {
            old.clear();
        }
        let _ = self.kept.push(old);
    }

    /// Lends a frame for writing.
    #[inline(always)]
    pub fn frame_mut(&mut self, number: usize) -> &mut Frame
        requires { number < length self.old }
        ensures value { slice_get self.old number ≡ Some result.now }
        ensures* after { sem 𝓛 (LendsFrame self.entry number result) }
    {
        let at = self.held_at;
        put_back(&mut self.held, &mut self.frames, at);
        self.held_at = self.frames.len();
        &mut self.frames[number]
    }

    /// Lends the words of one frame for reading, and those of another for writing.
    pub fn lend(&mut self, from: usize, to: usize) -> (&[u64], &mut [u64])
        requires apart { from ≢ to }
        requires from_there { from < length self.old }
        requires to_there { to < length self.old }
        ensures from { slice_get self.old from ≡ Some result.0.now }
        ensures to { slice_get self.old to ≡ Some result.1.now }
        ensures* after { sem 𝓛 (LendsWords self.entry to result.1) }
    {
        let at = self.held_at;
        put_back(&mut self.held, &mut self.frames, at);
        take_out(&mut self.held, &mut self.frames, from);
        self.held_at = from;
        let from = self.held.words();
        let frame = &mut self.frames[to];
        let to = frame.words_mut();
        (from, to)
    }
}
