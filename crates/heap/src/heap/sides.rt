//! Forwarding tables that a page may be given.

ghost use Rattle.std.specs.Prelude.{◌≡◌, MatchBool, slice_get};
ghost use Rattle.heap.specs.Entries.{IsSideFor, are_entries, is_entry, next_low};

use crate::heap::Heap;
use forward::Side;
use model::Forwarding;

/// Returns whether an entry's offset is at least a lowest one, and its object goes to a page.
fn is_entry(heap: &Heap, low: u32, entry: Forwarding) -> bool
    ensures { result ≡ is_entry heap.now.config low entry }
{
    heap.law();
    let config = heap.config();
    let end = u64::from(config.pages + 1) * u64::from(config.words);
    low <= entry.offset && entry.to.number() < end
}

/// Returns the lowest offset of the next entry; `None` if this one doesn't meet its conditions.
fn next_low(heap: &Heap, low: u32, entry: Option<Forwarding>) -> Option<u32>
    ensures { result ≡ next_low heap.now.config low entry }
{
    match entry {
        None => None,
        Some(entry) => {
            let offset = entry.offset;
            if offset < heap.config().words && is_entry(heap, low, entry) {
                Some(offset + 1)
            } else {
                None
            }
        }
    }
}

/// Returns whether all entries meet their conditions.
#[tactic(auto, using(crate::proofs::Entries::entries_more, crate::proofs::Entries::entries_stop))]
fn are_entries(heap: &Heap, side: &Side) -> bool
    ensures { result ≡ are_entries heap.now.config 0 side.now }
{
    let mut low = 0;
    for index in 0..side.len() {
        match next_low(heap, low, side.entry(index)) {
            None => return false,
            Some(next) => low = next,
        }
    }
    true
}

impl Heap {
    /// Returns whether the offsets of entries rise and lie in a page, and each entry goes to a page, as
    /// `raw_set_side` requires.
    #[tactic(auto, using(crate::proofs::Entries::side_told))]
    pub fn can_set_side(&self, side: &Side) -> bool
        ensures { MatchBool result (IsSideFor self.now side.now) (¬ IsSideFor self.now side.now) }
    {
        are_entries(self, side)
    }
}
