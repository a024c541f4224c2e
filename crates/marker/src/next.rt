//! Finding the next grey object.

ghost use Rattle.std.specs.Prelude.{◌≡◌, ◌<◌, ◌≤◌, ◌/◌, length, IfSome};
ghost use Rattle.model.specs.declared.limits.TheConstants.{MOST_PAGES};
ghost use Rattle.model.specs.Bits.{of_page};
ghost use Rattle.model.specs.Scans.{next_todo};
ghost use Rattle.marker.specs.Free.{IsNextFree};

use crate::scans::is_taken;
use heap::{Heap, Row};
use refword::Addr;

/// Returns the first offset in a page's grey bitmap whose object no worker has.
#[tactic(auto, unfolding(crate::specs::Free::is_free_on))]
fn next_free_on(heap: &Heap, row: &Row, page: u32) -> Option<u32>
    ensures { IsNextFree heap.now row.now page result }
{
    let words = u64::from(heap.memory().page_words());
    let mut from = 0;
    while let Some(place) = row.next_from(from) {
        let address = u64::from(page) * words + u64::from(place);
        if !is_taken(heap, address) {
            return Some(place);
        }
        from = place as usize + 1;
    }
    None
}

/// Returns the same for a page that has a record, by its number from 1.
fn next_on(heap: &Heap, page: u32) -> Option<u32>
    ensures { IsNextFree heap.now (of_page heap.now.todo page) page result }
{
    if page == 0 {
        return None;
    }
    match heap.todo().get((page - 1) as usize) {
        None => None,
        Some(row) => next_free_on(heap, row, page),
    }
}

/// Returns the lowest address of a grey object that no worker has, if there is one. It looks only at pages with a
/// grey object, and in these only at grey objects.
pub fn next_todo(heap: &Heap) -> Option<Addr>
    ensures first { result ≡ next_todo heap.now }
    ensures page { IfSome result (λ a. a / heap.now.store.words ≤ MOST_PAGES) }
{
    heap.law();
    let mut from = 0;
    while let Some(index) = heap.todo().next_busy(from) {
        let page = index + 1;
        if let Some(place) = next_on(heap, page) {
            return Some(heap.address_on(page, place));
        }
        from = index as usize + 1;
    }
    None
}
