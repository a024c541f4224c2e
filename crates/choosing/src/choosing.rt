//! Relocation-set selection.

ghost use Rattle.std.specs.Prelude.{◌≡◌, map, min, IfOk};
ghost use Rattle.std.specs.List.{All};
ghost use Rattle.model.specs.Protections.{free_count, unused_count};
ghost use Rattle.choosing.specs.Choices.{ArePages, IsChoice, IsLongest, all_words, page_of, words_on};
ghost use Rattle.choosing.specs.Measures.{IsFound};

use crate::packing::{first_packing, pack_page};
use crate::sparse::{Found, sparse};
use heap::Heap;
use std::alloc::{AllocError, Global};

/// Returns for how many targets there is space: the lesser of the numbers of free frames and of unused pages.
#[tactic(auto, unfolding(model::specs::Protections::free_count))]
pub fn room(heap: &Heap) -> u32
    ensures { result ≡ min (free_count heap.now.store) (unused_count heap.now.store) }
{
    let frames = heap.memory().free_frames();
    let pages = heap.memory().unused_pages();
    if frames < pages { frames } else { pages }
}

/// A choice of pages, with what was measured for it.
#[derive(Drop)]
pub struct Choice {
    /// The chosen pages.
    pub pages: Vec<u32>,
    /// How many words their live objects have; 2^64 - 1 if more.
    pub words: u64,
    /// How many words the live objects of all pages have that have memory and aren't protected.
    pub live_words: u64,
}

/// Returns the longest prefix of pages, each with its live words before it, for whose plan there is space. Fails only
/// if out of memory.
fn cut(
    alloc: Global,
    heap: &Heap,
    pages: &[(u64, u32)],
    live_words: u64,
) -> Result<Choice, AllocError>
    requires { All (ArePages heap.now) pages.now }
    ensures pages { IfOk result (λ choice. IsLongest heap.now (map page_of pages.now) choice.pages.items) }
    ensures words { IfOk result (λ choice. choice.words ≡ words_on heap.now choice.pages.items) }
    ensures live { IfOk result (λ choice. choice.live_words ≡ live_words) }
{
    let room = room(heap);
    let mut chosen = Vec::new(alloc);
    let mut words = 0u64;
    let mut packing = first_packing();
    for index in 0..pages.len() {
        let (live, page) = pages[index];
        packing = pack_page(heap, page, Some(live), packing);
        if packing.count > u64::from(room) {
            return Ok(Choice {
                pages: chosen,
                words,
                live_words,
            });
        }
        chosen.push(page)?;
        words = words.saturating_add(live);
    }
    Ok(Choice {
        pages: chosen,
        words,
        live_words,
    })
}

/// Measures all pages: finds the closed ones of which at most `percent` words of a hundred are live, with their live
/// words and their live objects, and the live words of all. It reads the headers of live objects page by page, those of
/// a sparse page twice. Fails only if out of memory for the list of pages; without memory for the objects of a page, it
/// leaves these out.
pub fn measure(alloc: Global, heap: &Heap, percent: u32) -> Result<Found, AllocError>
    ensures { IfOk result (IsFound heap.now percent) }
{
    sparse(alloc, heap, percent, true)
}

/// Sorts the sparse pages that were found, by rising numbers of live words, and by rising page numbers if these are
/// equal, and chooses the first ones for whose plan there is space, by the percentage by which they were found. It reads
/// headers of live objects only if their sizes aren't kept. Fails only if out of memory.
pub fn choose_found(
    alloc: Global,
    heap: &Heap,
    percent: u32,
    found: &mut Found,
) -> Result<Choice, AllocError>
    requires { IsFound heap.now percent found.old }
    ensures pages { IfOk result (λ choice. IsChoice heap.now percent choice.pages.items) }
    ensures words { IfOk result (λ choice. choice.words ≡ words_on heap.now choice.pages.items) }
    ensures live { IfOk result (λ choice. choice.live_words ≡ all_words heap.now) }
{
    found.pages.sort()?;
    cut(alloc, heap, &found.pages, found.live_words)
}

/// Returns the relocation set: the closed pages of which at most a percentage of the words is live, by rising numbers
/// of live words, and by rising page numbers if these are equal, cut to the longest prefix for whose plan there are
/// enough free frames and unused pages. Fails only if out of memory.
pub fn choose(alloc: Global, heap: &Heap, percent: u32) -> Result<Vec<u32>, AllocError>
    ensures { IfOk result (λ pages. IsChoice heap.now percent pages.items) }
{
    let mut found = sparse(alloc, heap, percent, false)?;
    let choice = choose_found(alloc, heap, percent, &mut found)?;
    Ok(choice.pages)
}
