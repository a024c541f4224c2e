//! Pages with few live words.

ghost use Rattle.std.specs.Prelude.{◌≡◌, ◌<◌, ◌≤◌, ◌*◌, ◌+◌, length, min, IfOk, IfSome, OnOk};
ghost use Rattle.std.specs.List.{All, sum_by};
ghost use Rattle.model.specs.Plans.{offsets_from};
ghost use Rattle.model.specs.States.{HeapState};
ghost use Rattle.choosing.specs.Choices.{AreOf, is_closed_at, is_in_use, live_words, measured_if, size_on};
ghost use Rattle.choosing.specs.Choices.{with_sparse, words_in_use};
ghost use Rattle.choosing.specs.Measures.{IsFound, IsOnPage};

use forward::LiveObjects;
use heap::{Heap, Row};
use model::PageState;
use relocate::measured_objects;
use std::alloc::{AllocError, Global};

/// Returns how many words the live objects of a page have, by its number from 1 and its live bitmap.
fn row_words(heap: &Heap, page: u32, row: &Row) -> u64
    requires low { 0 < page }
    requires high { page ≤ heap.now.store.count }
    requires size { length row.now ≤ heap.now.store.words }
    ensures value { result ≡ sum_by (size_on heap.now page) (offsets_from 0 row.now) }
    ensures range { result ≤ 131071 * 32768 }
{
    let _ = heap.memory().page_words();
    let memory = heap.memory().words(page);
    let mut total = 0u64;
    let mut from = 0;
    while let Some(offset) = row.next_from(from) {
        total += u64::from(heap.object_words_on(page, memory, offset));
        from = offset as usize + 1;
    }
    total
}

/// Returns how many words the live objects of a page have, by its number from 1.
fn live_words(heap: &Heap, page: u32) -> u64
    requires low { 0 < page }
    requires high { page ≤ heap.now.store.count }
    ensures value { result ≡ live_words heap.now page }
    ensures range { result ≤ 131071 * 32768 }
{
    heap.law();
    match heap.live().get((page - 1) as usize) {
        None => 0,
        Some(row) => row_words(heap, page, row),
    }
}

/// Returns whether a page is closed.
fn is_closed(heap: &Heap, page: u32) -> bool
    ensures { result ≡ is_closed_at heap.now page }
{
    matches!(heap.memory().state(page), PageState::Closed)
}

/// Returns whether a page has memory, and isn't protected.
pub(crate) fn is_in_use(heap: &Heap, page: u32) -> bool
    ensures { result ≡ is_in_use heap.now page }
{
    matches!(
        heap.memory().state(page),
        PageState::Open | PageState::Closed
    )
}

/// Returns a page with its live words before it, if it is closed and at most `percent` words of a hundred are live.
fn if_sparse(heap: &Heap, percent: u32, page: u32, live: u64) -> Option<(u64, u32)>
    requires value { live ≡ live_words heap.now page }
    requires range { live ≤ 131071 * 32768 }
    ensures { result ≡ measured_if heap.now percent page }
{
    if !is_closed(heap, page) {
        return None;
    }
    let words = heap.memory().page_words();
    if live * 100 <= u64::from(percent) * u64::from(words) {
        Some((live, page))
    } else {
        None
    }
}

/// What was measured of a page.
#[derive(Clone, Copy, Debug, PartialEq, Eq)]
pub struct Measure {
    /// How many words its live objects have, if it has memory and isn't protected; else 0.
    pub live: u64,
    /// The page with its live words before it, if it is closed and few enough of its words are live.
    pub sparse: Option<(u64, u32)>,
}

/// Measures a page, by its number from 1: it is sparse if it is closed and at most `percent` words of a hundred are
/// live. Reads the headers of the live objects of that page alone.
#[tactic(auto, using(crate::proofs::Numbered::unused_dense))]
pub fn measure_page(heap: &Heap, percent: u32, page: u32) -> Measure
    ensures live { result.live ≡ words_in_use heap.now page }
    ensures sparse { result.sparse ≡ measured_if heap.now percent page }
    ensures range { result.live ≤ 131071 * 32768 }
{
    heap.law();
    if !is_in_use(heap, page) {
        return Measure {
            live: 0,
            sparse: None,
        };
    }
    let live = live_words(heap, page);
    Measure {
        live,
        sparse: if_sparse(heap, percent, page, live),
    }
}

/// A page, and its live objects.
#[derive(Drop)]
pub struct PageObjects {
    /// The number of the page, from 1.
    pub page: u32,
    /// The live objects.
    pub objects: LiveObjects,
}

/// The sparse pages of a heap, and its live words.
#[derive(Drop)]
pub struct Found {
    /// The closed pages of which few enough words are live, by their numbers, each with its live words before it.
    pub pages: Vec<(u64, u32)>,
    /// How many words the live objects of all pages have that have memory and aren't protected.
    pub live_words: u64,
    /// Such pages with their live objects: those for which memory was there.
    pub objects: Vec<PageObjects>,
}

/// Returns a page with its live objects, by its number from 1, unless out of memory.
fn page_objects(alloc: Global, heap: &Heap, page: u32) -> Option<PageObjects>
    requires low { 0 < page }
    requires high { page ≤ heap.now.store.count }
    ensures { IfSome result (IsOnPage heap.now) }
{
    match measured_objects(alloc, heap, page) {
        Ok(objects) => Some(PageObjects { page, objects }),
        Err(_) => None,
    }
}

/// What was measured of a page, with its live objects, if it is sparse and memory was there for them.
#[derive(Drop)]
struct PageMeasure {
    measure: Measure,
    objects: Option<PageObjects>,
}

/// Measures a page, as `measure_page` does. If its live objects are asked for and it is sparse, it reads their headers
/// once more, which a cache still has.
fn measure_objects(
    alloc: Global,
    heap: &Heap,
    percent: u32,
    with_objects: bool,
    page: u32,
) -> PageMeasure
    ensures live { result.measure.live ≡ words_in_use heap.now page }
    ensures sparse { result.measure.sparse ≡ measured_if heap.now percent page }
    ensures range { result.measure.live ≤ 131071 * 32768 }
    ensures objects { IfSome result.objects (IsOnPage heap.now) }
{
    heap.law();
    let measure = measure_page(heap, percent, page);
    if !with_objects || measure.sparse.is_none() || !is_in_use(heap, page) {
        return PageMeasure {
            measure,
            objects: None,
        };
    }
    PageMeasure {
        measure,
        objects: page_objects(alloc, heap, page),
    }
}

/// Adds a page to a list, if it is sparse. Fails only if out of memory.
fn add_sparse(pages: &mut Vec<(u64, u32)>, sparse: Option<(u64, u32)>) -> Result<(), AllocError>
    ensures { OnOk result (pages.new.items ≡ with_sparse pages.old.items sparse) }
{
    if let Some(page) = sparse {
        pages.push(page)?;
    }
    Ok(())
}

/// Adds the live objects of a page to a list, if there are any and memory is there for it.
fn add_objects(list: &mut Vec<PageObjects>, objects: Option<PageObjects>)
    ensures { (h : HeapState) → All (IsOnPage h) list.old.items → IfSome objects (IsOnPage h)
        → All (IsOnPage h) list.new.items }
{
    if let Some(objects) = objects {
        let _ = list.push(objects);
    }
}

/// Measures the pages after the first `first` ones, up to the page of number `end`, and finds the live objects of sparse
/// ones, if they are asked for. Fails only if out of memory.
pub(crate) fn sparse_in(
    alloc: Global,
    heap: &Heap,
    percent: u32,
    with_objects: bool,
    first: u32,
    end: u32,
) -> Result<Found, AllocError>
    requires { first ≤ end }
    ensures found { IfOk result (λ found. AreOf heap.now percent first end found.pages.items found.live_words) }
    ensures objects { IfOk result (λ found. All (IsOnPage heap.now) found.objects.items) }
{
    let mut pages = Vec::new(alloc);
    let mut live_words = 0u64;
    let mut list = Vec::new(alloc);
    for index in first..end {
        let found = measure_objects(alloc, heap, percent, with_objects, index + 1);
        live_words += found.measure.live;
        add_sparse(&mut pages, found.measure.sparse)?;
        add_objects(&mut list, found.objects);
    }
    Ok(Found {
        pages,
        live_words,
        objects: list,
    })
}

/// Measures all pages, as `sparse_in` does. Fails only if out of memory.
pub(crate) fn sparse(
    alloc: Global,
    heap: &Heap,
    percent: u32,
    with_objects: bool,
) -> Result<Found, AllocError>
    ensures found { IfOk result (IsFound heap.now percent) }
{
    let count = heap.memory().page_count();
    let found = sparse_in(alloc, heap, percent, with_objects, 0, count)?;
    Ok(found)
}
