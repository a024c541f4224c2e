//! Which lists of pages a step may have.

ghost use Rattle.std.specs.Prelude.{◌≡◌, ◌==◌, ◌<◌, length, replicate, slice_index_or, true, false};
ghost use Rattle.std.specs.List.{All, list_any};
ghost use Rattle.model.specs.Bits.{put_bit};
ghost use Rattle.model.specs.Outcome.{no_page};
ghost use Rattle.model.specs.Protections.{no_page_in, has_twice, are_bad_pages};
ghost use Rattle.cycle.specs.Rising.{rises_above};

use heap::{Heap, Row};

/// Returns whether there is no page of a number. Pages count from 1.
#[tactic(auto, unfolding(model::specs::Outcome::no_page))]
pub(crate) fn no_page(heap: &Heap, page: u32) -> bool
    ensures { result ≡ no_page heap.now page }
{
    page == 0 || page > heap.memory().page_count()
}

/// Returns whether a list has the number of a page that doesn't exist.
#[tactic(auto, unfolding(model::specs::Outcome::no_page))]
fn names_no_page(heap: &Heap, pages: &[u32]) -> bool
    ensures { result ≡ list_any (no_page_in heap.now.store) pages.now }
{
    pages.iter().any(|page| no_page(heap, *page))
}

/// Returns whether the numbers rise strictly, and the first is 1 or above.
fn rises(pages: &[u32]) -> bool
    ensures { result ≡ rises_above 0 pages.now }
{
    let mut last = 0;
    for page in pages {
        if *page <= last {
            return false;
        }
        last = *page;
    }
    true
}

/// Returns whether a page is in a list.
fn stands_in(page: u32, pages: &[u32]) -> bool
    ensures { result ≡ list_any (λ m. m == page) pages.now }
{
    pages.iter().any(|other| *other == page)
}

/// Returns whether a page is in a list twice. It compares each with all after it, so its time grows with the square
/// of the list's length.
fn has_pair(pages: &[u32]) -> bool
    ensures { result ≡ has_twice pages.now }
{
    for index in 0..pages.len() {
        if stands_in(pages[index], &pages[index + 1..]) {
            return true;
        }
    }
    false
}

/// Notes a page in a bitmap. Returns whether it was noted before.
fn note(seen: &mut Row, page: u32) -> bool
    ensures was { result ≡ slice_index_or seen.old page false }
    ensures noted { seen.new ≡ put_bit page true seen.old }
{
    let was = seen.test(page as usize);
    seen.put(page as usize, true);
    was
}

/// Returns whether a page is in a list twice. Each page of the list is noted in a clear bitmap, which has a bit for it.
fn repeats(seen: &mut Row, pages: &[u32]) -> bool
    requires clear { seen.old ≡ replicate (length seen.old) false }
    requires within { All (λ n. n < length seen.old) pages.now }
    ensures { result ≡ has_twice pages.now }
{
    for index in 0..pages.len() {
        if note(seen, pages[index]) {
            return true;
        }
    }
    false
}

/// The longest list whose pages are compared with each other: longer ones are noted in a bitmap.
const FEW: usize = 64;

/// Returns whether a page is in a list twice, whose pages exist. A list that rises has none twice, which one pass
/// finds. If out of memory for a bitmap of all pages, each two pages are compared.
#[tactic(auto, using(crate::proofs::NamedOnce::rising_once))]
fn has_twice(heap: &Heap, pages: &[u32]) -> bool
    requires { list_any (no_page_in heap.now.store) pages.now ≡ false }
    ensures { result ≡ has_twice pages.now }
{
    if rises(pages) {
        return false;
    }
    if pages.len() <= FEW {
        return has_pair(pages);
    }
    match Row::new(heap.allocator(), heap.memory().page_count() + 1) {
        Ok(mut seen) => repeats(&mut seen, pages),
        Err(_) => has_pair(pages),
    }
}

/// Returns whether a list of pages is rejected: it is empty, or has a page that doesn't exist, or one twice. If more
/// than 64 numbers don't rise strictly, it allocates a bit for each page.
#[tactic(auto, using(crate::proofs::NamedOnce::bad_by_parts))]
pub(crate) fn are_bad_pages(heap: &Heap, pages: &[u32]) -> bool
    ensures { result ≡ are_bad_pages heap.now pages.now }
{
    pages.is_empty() || names_no_page(heap, pages) || has_twice(heap, pages)
}
