//! Targets that are filled at once, on threads.

ghost use Rattle.std.specs.Prelude.{◌≡◌, ◌<◌, true, length};
ghost use Rattle.model.specs.Bits.{of_page};
ghost use Rattle.model.specs.Owning.{Each};
ghost use Rattle.page.specs.Filling.{AllHaveEntries, AreOutside, HasEntries, IsOutside, all_filled, is_from_in, runs_of, with_runs};
ghost use Rattle.page.specs.Runs.{with_run};

use crate::sources::{fill_frames, side_on};
use crate::store::Store;
use crate::targets::{PageRun, Target};
use forward::Sides;
use layout::Layouts;
use model::PageState;
use std::thread::Threads;

impl Store {
    /// Returns whether a page is a From page, by a number that may be greater than any page's.
    #[tactic(auto, unfolding(model::specs::Stores::page_at))]
    fn is_from(&self, page: u64) -> bool
        ensures { result ≡ is_from_in self.now.pages page }
    {
        match self.record(page) {
            None => false,
            Some(page) => matches!(page.state, PageState::From),
        }
    }

    /// Returns whether all runs are of From pages.
    fn are_from(&self, runs: &[PageRun]) -> bool
        ensures { result ≡ true → Each runs.now (λ r. is_from_in self.now.pages r.page ≡ true) }
    {
        for index in 0..runs.len() {
            if !self.is_from(runs[index].page) {
                return false;
            }
        }
        true
    }

    /// Returns whether a target isn't a From page, and its runs are of such pages.
    fn is_outside(&self, target: &Target) -> bool
        ensures { result ≡ true → IsOutside self.now.pages target.now }
    {
        !self.is_from(target.page) && self.are_from(&target.runs)
    }

    /// Returns whether this holds of targets, whose numbers rise.
    fn are_outside(&self, targets: &[Target]) -> bool
        ensures { result ≡ true → AreOutside self.now.pages 0 targets.now }
    {
        let mut last = 0;
        for index in 0..targets.len() {
            let target = &targets[index];
            if target.page <= last || !self.is_outside(target) {
                return false;
            }
            last = target.page;
        }
        true
    }

    /// Copies the objects of a run to a page.
    fn copy_run_to(&mut self, sides: &Sides, layouts: &Layouts, run: PageRun, target: u64)
        requires { HasEntries sides.now run }
        ensures { self.new
            ≡ with_run self.old run.page target (of_page sides.now run.page) layouts.now run.first run.count }
    {
        let Some(side) = side_on(sides, run.page) else {
            return;
        };
        let (first, count) = (run.first as usize, run.count as usize);
        self.copy_entries(run.page, target, side, layouts, first, count);
    }

    /// Copies the objects of runs to a page, one run after another.
    fn copy_runs_to(&mut self, sides: &Sides, layouts: &Layouts, runs: &[PageRun], target: u64)
        requires { Each runs.now (HasEntries sides.now) }
        ensures { self.new ≡ with_runs self.old sides.now layouts.now target runs.now }
    {
        for index in 0..runs.len() {
            self.copy_run_to(sides, layouts, runs[index], target);
        }
    }

    /// Fills targets, one after another.
    fn fill_each(&mut self, sides: &Sides, layouts: &Layouts, targets: &[Target])
        requires { Each targets.now (AllHaveEntries sides.now) }
        ensures { self.new ≡ all_filled self.old sides.now layouts.now targets.now }
    {
        for index in 0..targets.len() {
            let target = &targets[index];
            self.copy_runs_to(sides, layouts, &target.runs, target.page);
        }
    }

    /// Has threads fill targets, each thread some of them.
    fn fill_outside<R: Threads + Sync>(
        &mut self,
        rt: &R,
        sides: &Sides,
        layouts: &Layouts,
        targets: &mut [Target],
        threads: u32,
    )
        requires threads { 0 < threads }
        requires entries { Each targets.old (AllHaveEntries sides.now) }
        requires outside { AreOutside self.old.pages 0 targets.old }
        ensures filled { self.new ≡ all_filled self.old sides.now layouts.now targets.old }
        ensures runs { runs_of targets.new ≡ runs_of targets.old }
    {
        fill_frames(
            rt,
            self.words,
            &self.pages,
            &mut self.frames,
            sides,
            layouts,
            targets,
            threads,
        );
    }

    /// Copies the objects of runs of forwarding tables to their places on targets: has the effect of `copy_entries` for
    /// each run of each target in turn. Threads do so, each for some targets, if the targets' numbers rise, no target
    /// is a From page, and all runs are of From pages; else this thread does. It takes no memory. The targets' runs
    /// stay.
    pub fn fill_by<R: Threads + Sync>(
        &mut self,
        rt: &R,
        sides: &Sides,
        layouts: &Layouts,
        targets: &mut [Target],
        threads: u32,
    )
        requires { Each targets.old (AllHaveEntries sides.now) }
        ensures filled { self.new ≡ all_filled self.old sides.now layouts.now targets.old }
        ensures runs { runs_of targets.new ≡ runs_of targets.old }
    {
        if threads > 1 && self.are_outside(targets) {
            self.fill_outside(rt, sides, layouts, targets, threads);
        } else {
            self.fill_each(sides, layouts, targets);
        }
    }
}
