//! Pages that are measured on threads.

ghost use Rattle.std.specs.Prelude.{◌≡◌, ◌<◌, ◌≤◌, ◌*◌, ◌+◌, ◌^◌, ◌++◌, length, min, false, true, IfOk, IfSome, OnOk};
ghost use Rattle.std.specs.Prelude.{ℕ};
ghost use Rattle.std.specs.List.{All};
ghost use Rattle.model.specs.States.{HeapState};
ghost use Rattle.model.specs.declared.limits.TheConstants.{MOST_PAGES};
ghost use Rattle.choosing.specs.Choices.{AreOf, is_in_use};
ghost use Rattle.choosing.specs.Measures.{IfMeasured, IsFound, IsOnPage};
ghost use Rattle.choosing.specs.Parts.{ArePartsOf, end_of};

use crate::sparse::{Found, PageObjects, is_in_use, sparse, sparse_in};
use heap::Heap;
use std::alloc::{AllocError, Global};
use std::thread::{Threads, map_indices};

/// Returns the number of the last page of the first `parts` parts, of `size` pages each, of a heap of `pages` pages.
fn end_of(pages: u32, size: u32, parts: usize) -> u32
    requires { parts < 2 ^ 32 }
    ensures { result ≡ end_of pages size parts }
{
    let end = parts as u64 * u64::from(size);
    end.min(u64::from(pages)) as u32
}

/// Measures the pages after the first `first` ones, up to the page of number `end`. Returns `None` if out of memory.
fn measure_part(heap: &Heap, percent: u32, first: u32, end: u32) -> Option<Found>
    requires { first ≤ end }
    ensures found { IfSome result (λ found. AreOf heap.now percent first end found.pages.items found.live_words) }
    ensures objects { IfSome result (λ found. All (IsOnPage heap.now) found.objects.items) }
{
    match sparse_in(heap.allocator(), heap, percent, true, first, end) {
        Ok(found) => Some(found),
        Err(_) => None,
    }
}

/// Measures parts of `size` pages, each on a thread of its own. There is `None` for a part for which memory ran out.
/// Fails only if out of memory for the list.
fn measure_parts<R: Threads + Sync>(
    rt: &R,
    heap: &Heap,
    percent: u32,
    size: u32,
    parts: u32,
) -> Result<Vec<Option<Found>, Global>, AllocError>
    ensures many { IfOk result (λ found. length found.items ≡ parts) }
    ensures parts { IfOk result (λ found. ArePartsOf heap.now percent size found.items) }
    ensures objects { IfOk result (λ found. All (IfMeasured heap.now) found.items) }
{
    let pages = heap.memory().page_count();
    let measure = |part: usize| -> Option<Found>
        requires few { part + 1 < 2 ^ 32 }
        ensures found { IfSome result (λ found. AreOf heap.entry.now percent (end_of pages size part)
            (end_of pages size (part + 1)) found.pages.items found.live_words) }
        ensures objects { IfSome result (λ found. All (IsOnPage heap.entry.now) found.objects.items) }
    {
        measure_part(
            heap,
            percent,
            end_of(pages, size, part),
            end_of(pages, size, part + 1),
        )
    };
    let found = map_indices(rt, heap.allocator(), parts as usize, &measure)?;
    Ok(found)
}

/// Adds what was measured of more pages. Fails only if out of memory.
fn add_part(found: &mut Found, part: &Found) -> Result<(), AllocError>
    requires { found.old.live_words + part.now.live_words < 2 ^ 64 }
    ensures pages { OnOk result (found.new.pages.items ≡ found.old.pages.items ++ part.now.pages.items) }
    ensures words { OnOk result (found.new.live_words ≡ found.old.live_words + part.now.live_words) }
{
    found.pages.extend_from_slice(&part.pages)?;
    found.live_words += part.live_words;
    Ok(())
}

/// Adds what was measured of the pages after the first `first` ones, up to the page of number `end`. If it is `None`,
/// they are measured first. Fails only if out of memory.
fn add_next(
    alloc: Global,
    heap: &Heap,
    percent: u32,
    first: u32,
    end: u32,
    part: &Option<Found>,
    found: &mut Found,
) -> Result<(), AllocError>
    requires order { first ≤ end }
    requires found { AreOf heap.now percent 0 first found.old.pages.items found.old.live_words }
    requires part { IfSome part.now (λ p. AreOf heap.now percent first end p.pages.items p.live_words) }
    ensures { OnOk result (AreOf heap.now percent 0 end found.new.pages.items found.new.live_words) }
{
    match part {
        Some(part) => add_part(found, part),
        None => {
            let part = sparse_in(alloc, heap, percent, false, first, end)?;
            add_part(found, &part)
        }
    }
}

/// Returns what was measured of all parts, of `size` pages each, and measures the pages after them. Fails only if out
/// of memory.
fn join_parts(
    alloc: Global,
    heap: &Heap,
    percent: u32,
    size: u32,
    parts: &[Option<Found>],
) -> Result<Found, AllocError>
    requires few { length parts.now < 2 ^ 32 }
    requires parts { ArePartsOf heap.now percent size parts.now }
    ensures { IfOk result (λ found. AreOf heap.now percent 0 heap.now.store.count found.pages.items found.live_words) }
{
    let pages = heap.memory().page_count();
    let mut found = sparse_in(alloc, heap, percent, false, 0, 0)?;
    for index in 0..parts.len() {
        let first = end_of(pages, size, index);
        let end = end_of(pages, size, index + 1);
        add_next(alloc, heap, percent, first, end, &parts[index], &mut found)?;
    }
    let first = end_of(pages, size, parts.len());
    add_next(alloc, heap, percent, first, pages, &None, &mut found)?;
    Ok(found)
}

/// Returns the number of the last page in use; 0 if none is.
fn last_in_use(heap: &Heap) -> u32
    ensures range { result ≤ MOST_PAGES }
    ensures used { 0 < result → is_in_use heap.now result ≡ true }
    ensures after { (page : ℕ) → result < page → page ≤ heap.now.store.count → is_in_use heap.now page ≡ false }
{
    let pages = heap.memory().page_count();
    for index in 0..pages {
        if is_in_use(heap, pages - index) {
            return pages - index;
        }
    }
    0
}

/// Returns the live objects that were found in parts. It loses some of them if out of memory.
fn take_objects(alloc: Global, parts: Vec<Option<Found>, Global>) -> Vec<PageObjects>
    ensures { (h : HeapState) → All (IfMeasured h) parts.items → All (IsOnPage h) result.items }
{
    let mut parts = parts;
    let mut list = Vec::new(alloc);
    while let Some(part) = parts.pop() {
        if let Some(found) = part {
            let mut found = found;
            let _ = list.append(&mut found.objects);
        }
    }
    list
}

/// Measures all pages as `measure` does, with the same pages and words, on a number of threads, each for some of the
/// pages up to the last one in use, at most 1,024; the others have no live words. With 0 or 1 thread, or if one can't be
/// started, it does so on this one. Fails only if out of memory for the list of pages; it may leave out objects of any
/// page for which there is no memory.
pub fn measure_by<R: Threads + Sync>(
    rt: &R,
    alloc: Global,
    heap: &Heap,
    percent: u32,
    threads: u32,
) -> Result<Found, AllocError>
    ensures { IfOk result (IsFound heap.now percent) }
{
    let threads = threads.clamp(1, 1024);
    let size = last_in_use(heap) / threads + 1;
    let Ok(parts) = measure_parts(rt, heap, percent, size, threads) else {
        return sparse(alloc, heap, percent, false);
    };
    let mut found = join_parts(alloc, heap, percent, size, &parts)?;
    found.objects = take_objects(alloc, parts);
    Ok(found)
}
