//! What is planned before pages are protected: places for the live objects of pages.

ghost use Rattle.std.specs.Prelude.{◌≡◌, ◌+◌, ◌<◌, ◌≤◌, ◌^◌, ◌++◌, ℕ, List, length, map, IfOk};
ghost use Rattle.std.specs.List.{flat_map};
ghost use Rattle.model.specs.Bits.{of_page};
ghost use Rattle.model.specs.Owning.{Each};
ghost use Rattle.model.specs.Plans.{offsets_from, places_from, plan_of, target_count};
ghost use Rattle.model.specs.declared.limits.TheConstants.{MOST_WORDS};
ghost use Rattle.relocate.specs.Drafts.{AreDraftsOf, AreLiveOn, IsDraftOf, draft_size, draft_sizes, places_of};

use forward::{Draft, LiveObjects, Sizes, Slot};
use heap::{Heap, Row};
use std::alloc::{AllocError, Global};

/// Returns the sizes of the live objects of a page, by the page's number from 1 and its live bitmap. Fails only if out
/// of memory.
fn sizes_on(alloc: Global, heap: &Heap, page: u32, row: &Row) -> Result<Sizes, AllocError>
    requires low { 0 < page }
    requires high { page ≤ heap.now.store.count }
    requires size { length row.now ≤ heap.now.store.words }
    ensures { IfOk result (λ s. s ≡ map (draft_size heap.now page) (offsets_from 0 row.now)) }
{
    heap.law();
    let memory = heap.memory().words(page);
    let mut sizes = Sizes::new(alloc, row.count())?;
    let mut from = 0;
    while let Some(offset) = row.next_from(from) {
        let size = heap.object_words_on(page, memory, offset);
        sizes.push(size)?;
        from = offset as usize + 1;
    }
    Ok(sizes)
}

/// Returns the live objects of a page, by the page's number from 1 and its live bitmap, with the sizes that their headers
/// say. Fails only if out of memory.
fn objects_on(alloc: Global, heap: &Heap, page: u32, row: &Row) -> Result<LiveObjects, AllocError>
    requires low { 0 < page }
    requires high { page ≤ heap.now.store.count }
    requires row { row.now ≡ of_page heap.now.live page }
    requires size { length row.now ≤ heap.now.store.words }
    ensures { IfOk result (AreLiveOn heap.now page) }
{
    heap.law();
    let sizes = sizes_on(alloc, heap, page, row)?;
    let live = row.copy(alloc)?;
    let objects = LiveObjects::new(alloc, live, sizes)?;
    Ok(objects)
}

/// Returns the live objects of a page, by its number from 1, with the sizes that their headers say. A page without a
/// record has none. Fails only if out of memory.
#[tactic(auto, unfolding(model::specs::Plans::live_offsets))]
pub fn measured_objects(alloc: Global, heap: &Heap, page: u32) -> Result<LiveObjects, AllocError>
    requires low { 0 < page }
    requires high { page ≤ heap.now.store.count }
    ensures { IfOk result (AreLiveOn heap.now page) }
{
    heap.law();
    match heap.live().get((page - 1) as usize) {
        None => Ok(LiveObjects::empty(alloc)),
        Some(row) => objects_on(alloc, heap, page, row),
    }
}

/// Returns the live objects of a page, by its number from 1: those that are kept with the page, if no word of it was
/// written since, else by their headers. They are no longer kept then, and nothing else changes. Fails only if out of
/// memory.
fn live_objects(alloc: Global, heap: &mut Heap, page: u32) -> Result<LiveObjects, AllocError>
    requires low { 0 < page }
    requires high { page ≤ heap.old.store.count }
    ensures objects { IfOk result (AreLiveOn heap.old page) }
    ensures stays { heap.new ≡ heap.old }
{
    if let Some(objects) = heap.raw_take_objects(page) {
        return Ok(objects);
    }
    measured_objects(alloc, heap, page)
}

/// Plans places for the live objects of a page, by the page's number from 1, next fit after what ends at `end`. Then
/// `end` is where they end. Sizes that were kept with the page are no longer kept; nothing else of the heap changes.
/// Fails only if out of memory.
fn draft_page(
    alloc: Global,
    heap: &mut Heap,
    page: u32,
    end: &mut Slot,
) -> Result<Draft, AllocError>
    requires low { 0 < page }
    requires high { page ≤ heap.old.store.count }
    requires few { end.old.0 < 2 ^ 62 }
    ensures draft { IfOk result (IsDraftOf heap.old page) }
    ensures places { IfOk result (λ d. (ns : List ℕ)
        → places_from heap.old.store.words end.old.0 end.old.1 (draft_sizes heap.old page ++ ns)
        ≡ d.places ++ places_from heap.old.store.words end.new.0 end.new.1 ns) }
    ensures counted { IfOk result (λ d. 0 < length d.places → target_count d.places ≡ end.new.0 + 1) }
    ensures near { IfOk result (λ d. end.new.0 ≤ end.old.0 + MOST_WORDS) }
    ensures stays { heap.new ≡ heap.old }
{
    let objects = live_objects(alloc, heap, page)?;
    let words = heap.memory().page_words();
    Draft::new(alloc, words, end, objects)
}

/// The drafts of pages.
#[derive(Drop)]
pub(crate) struct Drafts {
    /// One for each page, in the pages' order.
    pub drafts: Vec<Draft>,
    /// How many objects they have.
    pub objects: u64,
    /// How many targets these are placed in.
    pub targets: usize,
}

/// Returns how many targets there are with a draft, given how many there are without it, and where its objects end.
fn count_targets(targets: usize, draft: &Draft, end: Slot) -> usize
    requires few { end.0 < 2 ^ 63 }
    requires counted { 0 < length draft.now.places → target_count draft.now.places ≡ end.0 + 1 }
    ensures { (ps : List (ℕ × ℕ)) → targets ≡ target_count ps → result ≡ target_count (ps ++ draft.now.places) }
{
    if draft.len() == 0 {
        targets
    } else {
        end.target() + 1
    }
}

/// Returns the drafts of pages, by their numbers from 1. Sizes that were kept with them are no longer kept; nothing else
/// of the heap changes. Fails only if out of memory.
pub(crate) fn draft_pages(
    alloc: Global,
    heap: &mut Heap,
    pages: &[u32],
) -> Result<Drafts, AllocError>
    requires low { Each pages.now (λ n. 0 < n) }
    requires high { Each pages.now (λ n. n ≤ heap.old.store.count) }
    requires few { length pages.now ≤ 2 ^ 20 }
    ensures drafts { IfOk result (λ d. AreDraftsOf heap.old pages.now d.drafts.items) }
    ensures plan { IfOk result (λ d. flat_map places_of d.drafts.items ≡ plan_of heap.old pages.now) }
    ensures objects { IfOk result (λ d. d.objects ≡ length (plan_of heap.old pages.now)) }
    ensures targets { IfOk result (λ d. d.targets ≡ target_count (plan_of heap.old pages.now)) }
    ensures stays { heap.new ≡ heap.old }
{
    let mut drafts = Vec::with_capacity(alloc, pages.len())?;
    let mut end = Slot::first();
    let mut objects = 0u64;
    let mut targets = 0usize;
    for index in 0..pages.len() {
        let draft = draft_page(alloc, heap, pages[index], &mut end)?;
        targets = count_targets(targets, &draft, end);
        objects += draft.len() as u64;
        drafts.push(draft)?;
    }
    Ok(Drafts {
        drafts,
        objects,
        targets,
    })
}
