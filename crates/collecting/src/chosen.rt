//! The choice of the pages that a collection in parts empties.

ghost use Rattle.std.specs.Prelude.{◌≡◌, ◌≤◌, IfOk, length, map, position, take};
ghost use Rattle.choosing.specs.Choices.{page_of};
ghost use Rattle.collecting.specs.Stages.{IsFitting, dead_count, emptied_of, first_of, has_live};

use choosing::{first_packing, packed_page, room};
use heap::Heap;
use std::alloc::{AllocError, Global};

/// Returns the index of the first page that has live objects.
fn first_live(pages: &[(u64, u32)]) -> Option<usize>
    ensures { result ≡ position has_live pages.now }
{
    pages.iter().position(|page| page.0 > 0)
}

/// Returns how many of the first pages have no live object, up to the first that has one.
pub(crate) fn dead_count(pages: &[(u64, u32)]) -> usize
    ensures value { result ≡ dead_count pages.now }
    ensures range { result ≤ length pages.now }
{
    first_live(pages).unwrap_or(pages.len())
}

/// Returns the first pages: those up to the first that has live objects, and at most `most` more.
pub(crate) fn first_of(pages: &[(u64, u32)], most: u32) -> &[(u64, u32)]
    ensures { result.now ≡ first_of most pages.now }
{
    let count = dead_count(pages).saturating_add(most as usize);
    &pages[..count.min(pages.len())]
}

/// Returns the first pages, of which the first `dead` have no live object: all except a sixteenth of the others.
pub(crate) fn most_of(pages: &[u32], dead: usize) -> &[u32]
    ensures { result.now ≡ take (emptied_of dead (length pages.now)) pages.now }
{
    let left = pages.len().saturating_sub(dead) / 16;
    &pages[..pages.len() - left]
}

/// Returns the longest prefix of pages for which there is space.
pub(crate) fn fitting(
    alloc: Global,
    heap: &Heap,
    pages: &[(u64, u32)],
) -> Result<Vec<u32>, AllocError>
    ensures { IfOk result (λ chosen. IsFitting heap.now (map page_of pages.now) chosen.items) }
{
    heap.law();
    let room = room(heap);
    let mut chosen = Vec::new(alloc);
    let mut packing = first_packing();
    for index in 0..pages.len() {
        let page = pages[index].1;
        let Some(behind) = packed_page(heap, page, packing) else {
            return Ok(chosen);
        };
        if behind.count > u64::from(room) {
            return Ok(chosen);
        }
        packing = behind;
        chosen.push(page)?;
    }
    Ok(chosen)
}
