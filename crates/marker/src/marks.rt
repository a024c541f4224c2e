//! Marking references.

ghost use Rattle.std.specs.Prelude.{◌≡◌};
ghost use Rattle.model.specs.Marks.{with_mark, marked_word};
ghost use Rattle.model.specs.Moves.{copied_for};
ghost use Rattle.model.specs.Scans.{may_scan};

use heap::{Heap, RawCollectorEdits};
use model::Refusal;
use refword::Word;
use single_copies::copy_for;

/// Marks the object of a reference, and returns the corrected reference: it has the object's current address and the
/// clean NMT value. An object of a protected page is copied first if it isn't copied. The object becomes grey if it
/// wasn't marked before. Null marks nothing and stays null.
pub fn mark(heap: &mut Heap, word: Word) -> Word
    ensures heap { heap.new ≡ with_mark (copied_for heap.old word) word }
    ensures word { result ≡ marked_word (copied_for heap.old word) word }
{
    copy_for(heap, word);
    let marked = heap.marked_word(word);
    heap.set_mark(word);
    marked
}

/// Tests whether a mark runs that all threads have crossed. Fails with `Phase` if none runs, and with `NotCrossed`.
#[tactic(auto, unfolding(model::specs::Scans::may_scan))]
pub(crate) fn may_scan(heap: &Heap) -> Result<(), Refusal>
    ensures { result ≡ may_scan heap.now }
{
    if !heap.phase().is_marking() {
        return Err(Refusal::Phase);
    }
    heap.all_crossed()
}
