//! Copying a run of a page's objects to their places on another page.

ghost use Rattle.std.specs.Prelude.{◌≡◌, ◌+◌, ◌≤◌, length};
ghost use Rattle.model.specs.declared.limits.TheConstants.{MOST_WORDS};
ghost use Rattle.page.specs.Runs.{with_run};

use crate::store::Store;
use forward::Side;
use layout::Layouts;
use pieces::{PieceGate, Source, copy_run, copy_run_by};
use std::thread::Threads;

impl Store {
    /// Copies the objects of a run, `count` entries of a page's forwarding table from number `first` on, to their
    /// places on a target. Nothing is written if the target is the page itself, or one of them has no memory. The
    /// cost is that of writing the words.
    #[tactic(auto, using(crate::proofs::Runs::run_unlent, crate::proofs::Runs::run_lent))]
    pub fn copy_entries(
        &mut self,
        page: u64,
        target: u64,
        side: &Side,
        layouts: &Layouts,
        first: usize,
        count: usize,
    )
        requires { first + count ≤ length side.now }
        ensures { self.new ≡ with_run self.old page target side.now layouts.now first count }
    {
        let size = self.page_words();
        if !self.can_lend(page, target) {
            return;
        }
        let (words, part) = self.lend_apart(page, target);
        let source = Source {
            size,
            words,
            side,
            layouts,
        };
        copy_run(&source, first, count, part);
    }

    /// Does what `copy_entries` does, by halves on threads: the run is halved to a depth (above 4 counts as 4). Runs
    /// count from 0. It waits for the threads.
    #[tactic(auto, using(crate::proofs::Runs::run_unlent, crate::proofs::Runs::run_lent))]
    pub fn copy_entries_by<R: Threads + Sync, G: PieceGate + Sync>(
        &mut self,
        rt: &R,
        gate: &G,
        page: u64,
        target: u64,
        side: &Side,
        layouts: &Layouts,
        first: usize,
        count: usize,
        depth: u32,
        run: u32,
    )
        requires within { first + count ≤ length side.now }
        requires run { run ≤ MOST_WORDS }
        ensures { self.new ≡ with_run self.old page target side.now layouts.now first count }
    {
        self.law();
        let size = self.page_words();
        if !self.can_lend(page, target) {
            return;
        }
        let (words, part) = self.lend_apart(page, target);
        let source = Source {
            size,
            words,
            side,
            layouts,
        };
        copy_run_by(rt, gate, &source, first, count, depth, run, part);
    }
}
