//! Runs of many pages, whose objects are copied at once, by threads.

ghost use Rattle.std.specs.Prelude.{◌≡◌};
ghost use Rattle.page.specs.Filling.{runs_of};
ghost use Rattle.heap.specs.Filling.{AreInOrder, AreRunsTo, with_runs};

use crate::heap::Heap;
use page::Target;
use page_rows::{note_all_copied, note_targets};
use std::thread::Threads;

impl Heap {
    /// Copies the objects of the runs of targets, and notes that they are copied: has the effect of `raw_copy_run` for
    /// each run of each target in turn. The runs of one page follow each other. The words are written, and the starts of
    /// the copies noted, by threads, each for some targets, if the targets' numbers rise and `Store::fill_by` can have
    /// them do so. It takes no memory.
    pub fn raw_fill_by<R: Threads + Sync>(&mut self, rt: &R, targets: &mut [Target], threads: u32)
        requires runs { AreRunsTo self.old targets.old }
        requires order { AreInOrder (runs_of targets.old) }
        ensures { self.new ≡ with_runs self.old (runs_of targets.old) }
    {
        self.store.law();
        note_targets(
            rt,
            &mut self.starts,
            &self.sides,
            &self.store,
            targets,
            threads,
        );
        self.store
            .fill_by(rt, &self.sides, &self.config.layouts, targets, threads);
        note_all_copied(&mut self.sides, targets);
    }
}
