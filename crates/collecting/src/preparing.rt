//! Memory that is prepared before pages are protected, so that the part that protects allocates next to none.

ghost use Rattle.std.specs.Prelude.{◌≡◌, ◌<◌, ◌≤◌, ◌^◌, take};
ghost use Rattle.collecting.specs.Stages.{found_words, frames_by, frames_for, pages_for, parts_for};

use choosing::room;
use heap::Heap;
use managed::ManagedHeap;
use std::alloc::AllocError;

/// The most live words that are counted.
const MOST: u64 = 1 << 60;

/// Returns how many words the live objects of the pages that were found have, at most `MOST`.
fn found_words(pages: &[(u64, u32)]) -> u64
    ensures value { result ≡ found_words pages.now }
    ensures range { result ≤ 2 ^ 60 }
{
    let mut total = 0u64;
    for index in 0..pages.len() {
        total = total.saturating_add(pages[index].0).min(MOST);
    }
    total
}

/// Returns how many words the live objects of the first `count` pages have, at most `MOST`.
pub(crate) fn first_words(pages: &[(u64, u32)], count: usize) -> u64
    ensures { result ≡ found_words (take count pages.now) }
{
    found_words(&pages[..count.min(pages.len())])
}

/// Returns how many pages of `words` words `live` words take, with a sixteenth for what stays free at their ends.
fn pages_for(words: u32, live: u64) -> u64
    requires { live ≤ 2 ^ 60 }
    ensures { result ≡ pages_for words live }
{
    let words = u64::from(words.max(1));
    (live + live / 16 + (words - 1)) / words
}

/// Returns how many frames are prepared for the objects of the pages that were found, of which at most `most` are
/// emptied: at most as many as pages can open.
pub(crate) fn frames_for(heap: &Heap, most: u32, pages: &[(u64, u32)]) -> u32
    ensures { result ≡ frames_for heap.now most pages.now }
{
    let needed = pages_for(heap.config().words, found_words(pages));
    u32::try_from(needed)
        .unwrap_or(u32::MAX)
        .min(most)
        .min(room(heap))
}

/// Returns how many pages of `words` words have 32 words for each of `budget` objects. A part prepares one frame more.
pub(crate) fn frames_by(budget: u32, words: u32) -> u64
    ensures value { result ≡ frames_by budget words }
    ensures range { result < 2 ^ 37 }
{
    u64::from(budget) * 32 / u64::from(words.max(1))
}

/// Returns how many parts prepare `frames` frames: as many as prepare all, if of each two parts one finds that a page
/// that opened has taken a frame.
pub(crate) fn parts_for(frames: u32, by: u64) -> u64
    requires { by < 2 ^ 37 }
    ensures value { result ≡ parts_for frames by }
    ensures range { result < 2 ^ 61 }
{
    (2 * u64::from(frames) + 2 * by) / (2 * by + 1)
}

/// Prepares at most `count` more frames, while fewer than `most` have memory that is kept. The state of the heap stays.
pub(crate) fn prepare_some(heap: &mut ManagedHeap, most: u32, count: u64) -> Result<(), AllocError>
    ensures { heap.new ≡ heap.old }
{
    for _done in 0..count {
        if !heap.prepare_frame(most as usize)? {
            return Ok(());
        }
    }
    Ok(())
}
