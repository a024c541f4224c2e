//! Scans of single objects.

ghost use Rattle.std.specs.Prelude.{◌≡◌, ◌≤◌, ◌<◌, ◌+◌, ◌++◌, ◌^◌, ◌∷◌, ℕ, length, true, false, IfSome, Some};
ghost use Rattle.std.specs.Vec.{vec_len, vec_capacity};
ghost use Rattle.model.specs.States.{change_at};
ghost use Rattle.model.specs.References.{read_reference};
ghost use Rattle.part_scans.specs.Scans.{mark_word, send_word, mark_words, send_words, scan_own, word_of, write_on};
ghost use Rattle.part_scans.specs.Scans.{AllLeadOn, bits_lead_on, leads_on, ScansOne, end_on};
ghost use Rattle.part_scans.specs.Waiting.{AreWaiting, Does, MarksWords, all_grey, places_of};
ghost use Rattle.part_scans.specs.Scenes.{marked_in, refs_of};

use crate::backlog::{Waiting, grey_at};
use crate::marks::mark_target;
use crate::scene::{Scene, read_reference};
use page::OwnedPage;
use refword::Word;
use std::alloc::Global;

/// Returns the word at an offset of a page, if there is one.
#[inline(always)]
fn word_of(pages: &[OwnedPage], index: usize, offset: usize) -> Option<u64>
    ensures { result ≡ word_of pages.now index offset }
{
    let page = pages.get(index)?;
    page.frame.get(offset)
}

/// Writes a word at an offset of a page, if there is one.
#[inline(always)]
#[tactic(auto, unfolding(crate::specs::Scans::write_on))]
fn set_word(pages: &mut [OwnedPage], index: usize, offset: usize, value: u64)
    ensures { pages.new ≡ change_at pages.old index (write_on offset value) }
{
    if index < pages.len() {
        let page = &mut pages[index];
        page.frame.set(offset, value);
    }
}

/// Marks the reference at an offset of a page, and writes it back: does nothing, if its bits are 0.
#[inline(always)]
#[tactic(auto, unfolding(crate::specs::Scans::mark_word, crate::specs::Scans::send_word))]
fn mark_word(
    scene: &Scene<'_>,
    first: usize,
    pages: &mut [OwnedPage],
    sent: &mut Vec<Word, Global>,
    index: usize,
    offset: usize,
    waiting: &mut Waiting,
)
    requires room { vec_len sent.old < vec_capacity sent.old }
    ensures pages { Does scene.now first (λ ps. mark_word scene.now first ps index offset) pages.old waiting.old.items
        pages.new waiting.new.items }
    ensures sent { sent.new.items ≡ sent.old.items ++ send_word scene.now first pages.old index offset }
    ensures len { vec_len sent.new ≤ vec_len sent.old + 1 }
    ensures capacity { vec_capacity sent.new ≡ vec_capacity sent.old }
{
    let Some(bits) = word_of(pages, index, offset) else {
        return;
    };
    if bits == 0 {
        return;
    }
    let word = scene.marked(read_reference(bits));
    set_word(pages, index, offset, word.bits());
    mark_target(scene, first, pages, sent, word, waiting);
}

/// Marks `count` references from an offset of a page on, and writes them back.
#[inline(always)]
fn mark_words(
    scene: &Scene<'_>,
    first: usize,
    pages: &mut [OwnedPage],
    sent: &mut Vec<Word, Global>,
    index: usize,
    offset: usize,
    count: u32,
    waiting: &mut Waiting,
)
    requires room { vec_len sent.old + count ≤ vec_capacity sent.old }
    requires fits { offset + count < 2 ^ 64 }
    ensures { (x : ℕ × ℕ) → AreWaiting pages.old (x ∷ places_of scene.now first waiting.old.items)
        → MarksWords scene.now first index offset count pages.old waiting.old.items sent.old.items pages.new
        waiting.new.items sent.new.items x }
{
    for number in 0..count {
        mark_word(
            scene,
            first,
            pages,
            sent,
            index,
            offset + number as usize,
            waiting,
        );
    }
}

/// Returns whether the bits of a reference are null, or lead to a page that has a number.
#[inline(always)]
#[tactic(auto, unfolding(crate::specs::Scenes::marked_in))]
fn bits_lead_on(scene: &Scene<'_>, bits: u64) -> bool
    ensures { result ≡ bits_lead_on scene.now (Some bits) }
{
    if bits == 0 {
        return true;
    }
    match read_reference(bits).addr() {
        None => true,
        Some(address) => 0 < scene.page_of(scene.resolve(address).number()),
    }
}

/// Returns whether `count` words from an offset of a page on exist, and lead to pages.
#[inline(always)]
fn all_lead_on(
    scene: &Scene<'_>,
    pages: &[OwnedPage],
    index: usize,
    offset: usize,
    count: u32,
) -> bool
    requires fits { offset + count < 2 ^ 64 }
    ensures { result ≡ true → AllLeadOn scene.now pages.now index offset count }
{
    for number in 0..count {
        let Some(bits) = word_of(pages, index, offset + number as usize) else {
            return false;
        };
        if !bits_lead_on(scene, bits) {
            return false;
        }
    }
    true
}

/// Makes the object at an offset of a page no longer grey.
#[inline(always)]
#[tactic(auto, unfolding(crate::specs::Scans::end_on))]
fn end_scan(pages: &mut [OwnedPage], index: usize, offset: usize)
    ensures { pages.new ≡ change_at pages.old index (end_on offset) }
{
    if index < pages.len() {
        let page = &mut pages[index];
        page.grey.unset(offset);
    }
}

/// Scans the object at an offset of a page, which waits no more, completely, if its references are on the page and lead
/// to pages, and there is space for as many notes. Returns how many references it has; or `None` if it is left, and
/// becomes grey.
#[inline(always)]
#[tactic(auto, unfolding(crate::specs::Scans::scan_own))]
pub(crate) fn scan_object(
    scene: &Scene<'_>,
    first: usize,
    pages: &mut [OwnedPage],
    sent: &mut Vec<Word, Global>,
    index: usize,
    offset: usize,
    waiting: &mut Waiting,
) -> Option<u32>
    requires low { offset < 2 ^ 63 }
    requires waits { AreWaiting pages.old ((index, offset) ∷ places_of scene.now first waiting.old.items) }
    ensures scans { ScansOne scene.now first index offset result
        (all_grey pages.old ((index, offset) ∷ places_of scene.now first waiting.old.items)) sent.old.items
        (all_grey pages.new (places_of scene.now first waiting.new.items)) sent.new.items }
    ensures waits { AreWaiting pages.new (places_of scene.now first waiting.new.items) }
{
    let refs = scene.refs_of(word_of(pages, index, offset));
    if sent.capacity() - sent.len() < refs as usize {
        grey_at(pages, index, offset);
        return None;
    }
    if !all_lead_on(scene, pages, index, offset + 1, refs) {
        grey_at(pages, index, offset);
        return None;
    }
    mark_words(scene, first, pages, sent, index, offset + 1, refs, waiting);
    end_scan(pages, index, offset);
    Some(refs)
}
