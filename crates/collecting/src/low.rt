//! When a heap is collected for a fresh buffer.

ghost use Rattle.std.specs.Prelude.{◌≡◌, count_by};
ghost use Rattle.model.specs.Stores.{is_open};
ghost use Rattle.collecting.specs.Low.{are_low, may_free, opened};
ghost use Rattle.collecting.specs.Targets.{in_use};

use heap::Heap;
use model::{Page, PageState};

/// Returns how many frames are in use.
pub(crate) fn in_use(heap: &Heap) -> u32
    ensures { result ≡ in_use heap.now }
{
    heap.config()
        .frames
        .saturating_sub(heap.memory().free_frames())
}

/// Returns how many pages are open.
fn open_in(pages: &[Page]) -> usize
    ensures { result ≡ count_by (λ p. is_open p.state) pages.now }
{
    pages
        .iter()
        .filter(|page| matches!(page.state, PageState::Open))
        .count()
}

/// Returns whether enough pages were opened since the last mark ended for another collection to free some. It reads
/// the records of all pages.
fn may_free(heap: &Heap) -> bool
    ensures { result ≡ may_free heap.now }
{
    let opened = open_in(heap.memory().pages());
    (heap.memory().free_frames() / 2) as usize <= opened || (in_use(heap) / 16) as usize <= opened
}

/// Returns whether at most `free` frames are free, and a collection may free some.
pub(crate) fn are_low(heap: &Heap, free: u32) -> bool
    ensures { result ≡ are_low free heap.now }
{
    heap.memory().free_frames() <= free && may_free(heap)
}
