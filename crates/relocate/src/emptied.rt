//! Pages that are being emptied.

ghost use Rattle.std.specs.Prelude.{◌≡◌};
ghost use Rattle.model.specs.Stores.{is_from, state_at};

use heap::Heap;
use model::PageState;

/// Returns whether a page, by its number from 1, is a From page, which has memory.
pub(crate) fn is_emptied(heap: &Heap, page: u32) -> bool
    ensures { result ≡ is_from (state_at heap.now.store page) }
{
    matches!(heap.memory().state(page), PageState::From)
}
