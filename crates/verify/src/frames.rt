//! The test of an image's frames: each is the memory of one page, or free.

ghost use Rattle.std.specs.Prelude.{if◌then◌else◌, ◌≡◌, ◌≢◌, ◌<◌, ◌≤◌, ◌⊎◌, ◌+◌, ◌==◌, ℕ, false, true, length};
ghost use Rattle.std.specs.Prelude.{get_or, slice_set, vec_len, IfOk, MatchBool, count_by, nat_lt};
ghost use Rattle.model.specs.Configs.{is_page_size};
ghost use Rattle.model.specs.Owning.{Each};
ghost use Rattle.verify.specs.Soundness.{HasFrames, HasItsFrame, IsOnce, has_words, is_filled, may_be_free, owners_in, times_in};
ghost use Rattle.verify.specs.Claims.{AreNoted, IsOverclaimed, TellsIf, noted};

use crate::image::{Image, PageImage, Words};
use model::PageState;
use std::alloc::{AllocError, Global};

impl Words {
    /// Returns the number of words.
    fn len(&self) -> u64
        ensures { result ≡ length self.now }
    {
        self.words.len() as u64
    }
}

impl PageImage {
    /// Returns its frame.
    fn frame(&self) -> Option<u32>
        ensures { result ≡ self.now.frame }
    {
        self.frame
    }

    /// Returns whether it has a frame exactly if its state says so.
    fn has_its_frame(&self) -> bool
        ensures { TellsIf result (HasItsFrame self.now) }
    {
        match self.state {
            PageState::Unused | PageState::Gone => self.frame.is_none(),
            _ => self.frame.is_some(),
        }
    }
}

/// Returns whether a number is a page size: a power of two from 16 to 32,768.
fn is_page_size(words: u32) -> bool
    ensures { result ≡ is_page_size words }
{
    matches!(
        words,
        16 | 32 | 64 | 128 | 256 | 512 | 1024 | 2048 | 4096 | 8192 | 16384 | 32768
    )
}

/// Returns whether a frame, if it exists, has this number of words.
fn has_words(frames: &[Words], words: u32, frame: u32) -> bool
    ensures { result ≡ has_words frames.now words frame }
{
    match frames.get(frame as usize) {
        None => true,
        Some(memory) => memory.len() == u64::from(words),
    }
}

/// Returns whether a frame, if it exists, has no words, or this number.
fn may_be_free(frames: &[Words], words: u32, frame: u32) -> bool
    ensures { result ≡ may_be_free frames.now words frame }
{
    has_words(frames, 0, frame) || has_words(frames, words, frame)
}

/// Returns whether the frame of a page, if it has one, has this number of words.
fn is_filled(frames: &[Words], words: u32, page: &PageImage) -> bool
    ensures { result ≡ is_filled frames.now words page.now.frame }
{
    match page.frame() {
        None => true,
        Some(frame) => has_words(frames, words, frame),
    }
}

/// Returns whether the frames of all pages have this number of words.
fn all_filled(frames: &[Words], words: u32, pages: &[PageImage]) -> bool
    ensures { TellsIf result (Each pages.now (λ p. is_filled frames.now words p.frame ≡ true)) }
{
    for page in pages {
        if !is_filled(frames, words, page) {
            return false;
        }
    }
    true
}

/// Returns whether each free frame has no words, or this number.
fn all_free(frames: &[Words], words: u32, free: &[u32]) -> bool
    ensures { TellsIf result (Each free.now (λ f. may_be_free frames.now words f ≡ true)) }
{
    for frame in free {
        if !may_be_free(frames, words, *frame) {
            return false;
        }
    }
    true
}

/// Returns whether each page has a frame exactly if its state says so.
fn all_framed(pages: &[PageImage]) -> bool
    ensures { TellsIf result (Each pages.now HasItsFrame) }
{
    for page in pages {
        if !page.has_its_frame() {
            return false;
        }
    }
    true
}

/// Notes a frame, if it exists and wasn't noted before. Returns whether it did.
fn claim(seen: &mut Vec<bool>, frame: u32) -> bool
    ensures len { vec_len seen.new ≡ vec_len seen.old }
    ensures new { MatchBool result (get_or seen.old.items frame false ≡ false)
        ((get_or seen.old.items frame false ≡ true) ⊎ (vec_len seen.old ≤ frame)) }
    ensures set { seen.new.items ≡ (if result then slice_set seen.old.items frame true else seen.old.items) }
    ensures within { result ≡ true → frame < vec_len seen.old }
{
    let at = frame as usize;
    if at < seen.len() && !seen[at] {
        seen[at] = true;
        true
    } else {
        false
    }
}

/// Notes the frames of pages. Returns false at the first that doesn't exist or that two pages have.
fn claim_pages(seen: &mut Vec<bool>, pages: &[PageImage]) -> bool
    requires { (f : ℕ) → get_or seen.old.items f false ≡ false }
    ensures len { vec_len seen.new ≡ vec_len seen.old }
    ensures claimed { MatchBool result (AreNoted seen.new.items (owners_in pages.now))
        (IsOverclaimed (vec_len seen.old) (owners_in pages.now)) }
{
    for page in pages {
        if let Some(frame) = page.frame() {
            if !claim(seen, frame) {
                return false;
            }
        }
    }
    true
}

/// Notes free frames. Returns false at the first that doesn't exist or was noted before.
fn claim_free(seen: &mut Vec<bool>, free: &[u32]) -> bool
    ensures len { vec_len seen.new ≡ vec_len seen.old }
    ensures claimed { MatchBool result (AreNoted seen.new.items (λ f. noted seen.old.items f + times_in free.now f))
        (IsOverclaimed (vec_len seen.old) (λ f. noted seen.old.items f + times_in free.now f)) }
{
    for frame in free {
        if !claim(seen, *frame) {
            return false;
        }
    }
    true
}

/// Returns whether all frames were noted.
fn all_seen(seen: &[bool]) -> bool
    ensures { MatchBool result ((f : ℕ) → get_or seen.now f false ≡ nat_lt f (length seen.now))
        ((f : ℕ) × (f < length seen.now) × (get_or seen.now f false ≡ false)) }
{
    for bit in seen {
        if !*bit {
            return false;
        }
    }
    true
}

/// Returns whether each frame of the configured number is owned once or free once, and no other is. Fails only if out
/// of memory.
fn all_once(alloc: Global, image: &Image) -> Result<bool, AllocError>
    requires { image.now.frame_count ≤ length image.now.frames }
    ensures { IfOk result (λ yes. TellsIf yes (IsOnce image.now)) }
{
    let mut seen = vec![in alloc; false; image.frame_count as usize]?;
    if !claim_pages(&mut seen, &image.pages) {
        return Ok(false);
    }
    if !claim_free(&mut seen, &image.free) {
        return Ok(false);
    }
    Ok(all_seen(&seen))
}

/// Returns whether the frames of an image are in order. Fails only if out of memory.
pub(crate) fn has_frames(alloc: Global, image: &Image) -> Result<bool, AllocError>
    ensures { IfOk result (λ yes. TellsIf yes (HasFrames image.now)) }
{
    if !is_page_size(image.words) {
        return Ok(false);
    }
    if !all_filled(&image.frames, image.words, &image.pages) {
        return Ok(false);
    }
    if !all_free(&image.frames, image.words, &image.free) {
        return Ok(false);
    }
    if image.frame_count as usize > image.frames.len() {
        return Ok(false);
    }
    if !all_framed(&image.pages) {
        return Ok(false);
    }
    all_once(alloc, image)
}
