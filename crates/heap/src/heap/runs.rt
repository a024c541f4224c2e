//! Runs of entries of a page, whose objects are copied at once.

ghost use Rattle.std.specs.Prelude.{◌≡◌, ◌+◌, ◌<◌, ◌≤◌, MatchBool, length, slice_get};
ghost use Rattle.model.specs.Bits.{of_page};
ghost use Rattle.model.specs.declared.limits.TheConstants.{MOST_WORDS};
ghost use Rattle.page_rows.specs.Runs.{GoTo};
ghost use Rattle.heap.specs.Runs.{with_entries, IsRunOn, goes_to};

use crate::heap::Heap;
use page::PieceGate;
use page_rows::note_copies;
use std::thread::Threads;

/// Returns whether the object of an entry goes to a target.
fn goes_to(heap: &Heap, page: u32, entry: u32, target: u64) -> bool
    ensures { result ≡ goes_to heap.now.store.words target (slice_get (of_page heap.now.sides page) entry) }
{
    match heap.sides.entry_on(page, entry) {
        None => false,
        Some(found) => heap.store.page_of(found.to) == target,
    }
}

/// Returns whether all entries of a run go to a target.
#[tactic(auto, using(crate::proofs::Going::run_none, crate::proofs::Going::run_more, crate::proofs::Going::run_stops))]
fn go_to(heap: &Heap, page: u32, target: u64, first: u32, count: u32) -> bool
    requires within { first + count ≤ length (of_page heap.now.sides page) }
    requires few { first + count ≤ MOST_WORDS }
    ensures { MatchBool result (GoTo heap.now.store.words target (of_page heap.now.sides page) first count)
        (¬ GoTo heap.now.store.words target (of_page heap.now.sides page) first count) }
{
    for index in 0..count {
        if !goes_to(heap, page, first + index, target) {
            return false;
        }
    }
    true
}

impl Heap {
    /// Returns whether a page has `count` entries from number `first` on, and all of them go to one target, as
    /// `raw_copy_run` and `raw_copy_run_by` require. Pages count from 1, entries from 0.
    pub fn can_copy_run(&self, page: u32, target: u64, first: u32, count: u32) -> bool
        ensures { MatchBool result (IsRunOn self.now page target first count)
            (¬ IsRunOn self.now page target first count) }
    {
        let entries = self.sides.count_on(page);
        first <= entries && count <= entries - first && go_to(self, page, target, first, count)
    }

    /// Copies the objects of a run, `count` entries of a page from number `first` on, which go to one target, and
    /// notes that they are copied. Those that were copied before aren't written. It takes no memory.
    pub fn raw_copy_run(&mut self, page: u64, target: u64, first: u32, count: u32)
        requires within { first + count ≤ length (of_page self.old.sides page) }
        requires together { GoTo self.old.store.words target (of_page self.old.sides page) first count }
        ensures { self.new ≡ with_entries self.old page first count }
    {
        if page == 0 {
            return;
        }
        let Some(side) = self.sides.get((page - 1) as usize) else {
            return;
        };
        self.store.law();
        let _entries = side.len();
        self.store.copy_entries(
            page,
            target,
            side,
            &self.config.layouts,
            first as usize,
            count as usize,
        );
        note_copies(
            &mut self.starts,
            &mut self.sides,
            &self.store,
            page,
            first,
            count,
        );
    }

    /// The same, by halves on threads: the run is cut to a depth, above 4 counts as 4, and the gate is called for
    /// each piece before it is copied. Runs of a page count from 0. It waits for the threads, and takes no memory: if
    /// a thread can't be started, its piece is copied afterwards.
    pub fn raw_copy_run_by<R: Threads + Sync, G: PieceGate + Sync>(
        &mut self,
        rt: &R,
        gate: &G,
        page: u64,
        target: u64,
        first: u32,
        count: u32,
        depth: u32,
        run: u32,
    )
        requires within { first + count ≤ length (of_page self.old.sides page) }
        requires together { GoTo self.old.store.words target (of_page self.old.sides page) first count }
        requires run { run ≤ MOST_WORDS }
        ensures { self.new ≡ with_entries self.old page first count }
    {
        if page == 0 {
            return;
        }
        let Some(side) = self.sides.get((page - 1) as usize) else {
            return;
        };
        self.store.law();
        let _entries = side.len();
        self.store.copy_entries_by(
            rt,
            gate,
            page,
            target,
            side,
            &self.config.layouts,
            first as usize,
            count as usize,
            depth,
            run,
        );
        note_copies(
            &mut self.starts,
            &mut self.sides,
            &self.store,
            page,
            first,
            count,
        );
    }
}
