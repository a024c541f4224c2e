//! Copies of single objects that are planned to move, by whoever meets them: a worker, or a thread at a trap, a crossing
//! or a scrub.
#![tactic(auto)]

ghost use Rattle.std.specs.Prelude.{◌≡◌, Some, slice_get};
ghost use Rattle.heap.specs.Runs.{with_entry};
ghost use Rattle.model.specs.Bits.{of_page};
ghost use Rattle.model.specs.Marks.{entry_at};
ghost use Rattle.model.specs.Moves.{copied_first, copied_for, moved_word, place_by};

use heap::Heap;
use refword::{Addr, Word};

/// Copies the object of an entry of a page, by the page's number from 1 and the entry's from 0, if the entry exists
/// and isn't copied: a run of one.
pub fn copy_entry(heap: &mut Heap, page: u64, entry: u32)
    ensures { heap.new ≡ with_entry heap.old page (slice_get (of_page heap.old.sides page) entry) }
{
    let Some(found) = heap.sides().entry_numbered(page, entry) else {
        return;
    };
    if !found.copied {
        let target = heap.memory().page_of(found.to);
        heap.raw_copy_run(page, target, entry, 1);
    }
}

/// Copies the object at an address, if it is planned to move and isn't copied.
#[tactic(auto, using(crate::proofs::Entries::none_first, crate::proofs::Entries::entry_first))]
fn copy_first(heap: &mut Heap, address: Addr)
    ensures { heap.new ≡ copied_first heap.old address }
{
    let page = heap.memory().page_of(address);
    let offset = heap.memory().offset_of(address);
    if let Some(entry) = heap.sides().number_at(page, offset) {
        copy_entry(heap, page, entry);
    }
}

/// Copies the object of a reference, if it is planned to move and isn't copied. It costs one test if nothing is left
/// to be copied.
#[tactic(auto, unfolding(model::specs::Moves::copied_for), using(crate::proofs::Entries::none_to_copy))]
pub fn copy_for(heap: &mut Heap, word: Word)
    ensures { heap.new ≡ copied_for heap.old word }
{
    if let Some(address) = word.addr() {
        if heap.sides().uncopied() > 0 {
            copy_first(heap, address);
        }
    }
}

/// Returns the address of the object at an address once it is copied.
fn place_of(heap: &Heap, address: Addr) -> Addr
    ensures { result ≡ place_by (entry_at heap.now address) address }
{
    match heap.entry_at(address) {
        None => address,
        Some(entry) => entry.to,
    }
}

/// Returns the reference to an object's copy, by the object's address and the reference's NMT bit. Copies the object
/// first if it isn't copied.
#[tactic(auto, unfolding(model::specs::Moves::moved_word))]
pub fn follow(heap: &mut Heap, address: Addr, nmt: bool) -> Word
    ensures heap { heap.new ≡ copied_first heap.old address }
    ensures word { result ≡ Some (moved_word heap.old (address, nmt)) }
{
    let place = place_of(heap, address);
    copy_first(heap, address);
    Word::of(place, nmt)
}
