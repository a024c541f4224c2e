//! What an earlier collection has left unfinished.

ghost use Rattle.std.specs.Prelude.{◌≡◌, false, Ok};
ghost use Rattle.model.specs.Checkpoints.{all_crossed};
ghost use Rattle.model.specs.Phases.{is_crossing};
ghost use Rattle.model.specs.Stores.{is_from, state_at};
ghost use Rattle.collecting.specs.Collections.{EndsLeft, EndsLeftPages, EndsSettling};

use heap::Heap;
use managed::ManagedHeap;
use model::{PageState, Refusal};

/// The worker that collects.
pub(crate) const WORKER: u32 = 0;

/// Has all threads cross the open checkpoint, and empties pages that are protected.
pub(crate) fn settle(heap: &mut ManagedHeap) -> Result<(), Refusal>
    ensures { EndsSettling heap.old result heap.new }
{
    match heap.cross_all(0) {
        Ok(()) => settle_crossed(heap),
        Err(refusal) => Err(refusal),
    }
}

/// Empties pages that are protected, if all threads have crossed.
fn settle_crossed(heap: &mut ManagedHeap) -> Result<(), Refusal>
    requires { all_crossed heap.old ≡ Ok tt }
    ensures { EndsLeftPages heap.old result heap.new }
{
    heap.law();
    settle_pages(heap)
}

/// Empties pages that are protected.
fn settle_pages(heap: &mut ManagedHeap) -> Result<(), Refusal>
    requires { is_crossing heap.old.phase ≡ false }
    ensures { EndsLeftPages heap.old result heap.new }
{
    for index in 0..heap.heap().memory().page_count() {
        if let Err(refusal) = settle_page(heap, index + 1) {
            return Err(refusal);
        }
    }
    heap.heap().law();
    Ok(())
}

/// Returns whether a page, by its number from 1, is being emptied, and has memory.
fn is_from(heap: &Heap, page: u32) -> bool
    ensures { result ≡ is_from (state_at heap.now.store page) }
{
    matches!(heap.memory().state(page), PageState::From)
}

/// Empties a page, by its number from 1, if it is protected.
pub(crate) fn settle_page(heap: &mut ManagedHeap, page: u32) -> Result<(), Refusal>
    requires { is_crossing heap.old.phase ≡ false }
    ensures { EndsLeft heap.old page result heap.new }
{
    if is_from(heap.heap(), page) {
        heap.empty_page(0, page)
    } else {
        Ok(())
    }
}
