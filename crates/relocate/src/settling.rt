//! Storing the plan: drafts of pages become their forwarding tables.

ghost use Rattle.std.specs.Prelude.{◌≡◌, ◌-◌, ◌<◌, ◌≤◌, length, slice_set};
ghost use Rattle.forward.specs.Drafts.{settled};
ghost use Rattle.model.specs.Owning.{Each};
ghost use Rattle.relocate.specs.Drafts.{IsReadyFor, with_settled};

use forward::Draft;
use heap::Heap;

/// Gives a page the forwarding table that its draft becomes, with targets on these pages, by their numbers from 1.
fn settle_page(heap: &mut Heap, page: u32, draft: Draft, targets: &[u32])
    requires ready { IsReadyFor heap.old.store.words (length targets.now) draft }
    requires low { Each targets.now (λ n. 0 < n) }
    requires high { Each targets.now (λ n. n ≤ heap.old.store.count) }
    ensures { heap.new ≡ record heap.old {
      sides = slice_set heap.old.sides (page - 1) (settled heap.old.store.words targets.now draft);
    } }
{
    heap.law();
    let words = heap.memory().page_words();
    let side = draft.settle(words, targets);
    heap.raw_set_side(page, side);
}

/// Gives pages the forwarding tables that their drafts become, in the pages' order. The drafts in the list are lost.
pub(crate) fn settle_pages(heap: &mut Heap, pages: &[u32], drafts: &mut Vec<Draft>, targets: &[u32])
    requires many { length drafts.old.items ≡ length pages.now }
    requires ready { Each drafts.old.items (IsReadyFor heap.old.store.words (length targets.now)) }
    requires low { Each targets.now (λ n. 0 < n) }
    requires high { Each targets.now (λ n. n ≤ heap.old.store.count) }
    ensures { heap.new ≡ record heap.old {
      sides = with_settled heap.old.store.words targets.now pages.now drafts.old.items heap.old.sides;
    } }
{
    let alloc = heap.allocator();
    for index in 0..pages.len() {
        let draft = std::mem::replace(&mut drafts[index], Draft::empty(alloc));
        settle_page(heap, pages[index], draft, targets);
    }
}
