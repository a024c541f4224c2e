//! Where the copies of many runs start, noted by threads.

ghost use Rattle.std.specs.Prelude.{◌≡◌, ◌+◌, ◌-◌, ◌<◌, ◌^◌, get_or, map, slice_get, slice_set, true};
ghost use Rattle.model.specs.Configs.{is_page_size};
ghost use Rattle.page.specs.Filling.{runs_of};
ghost use Rattle.page_rows.specs.Starting.{AreSmall};
ghost use Rattle.page_rows.specs.Starting.{AllGoTo, AreRisingFrom, NotesStarts, SwapsStarts, by_runs, entries_in_row, entry_in_row};
ghost use Rattle.page_rows.specs.Starting.{run_in_row, run_started, with_starts, without_starts};

use crate::runs::note_starts_of;
use forward::{Side, Sides};
use markbits::{Row, Rows};
use page::{PageRun, PageSize, Store, Target};
use refword::Addr;
use std::marker::Model;
use std::thread::{Threads, for_each_mut};

/// What is read while threads note where copies start.
#[derive(Drop)]
struct Places<'a> {
    size: PageSize,
    sides: &'a Sides,
}

impl<'a> Model for Places<'a> {
    ghost use Rattle.page_rows.specs.Starting.{PlacesState};

    ghost Value = { PlacesState };

    ghost view = { λ p. record { size = p.size; sides = p.sides.now } };
}

impl<'a> Places<'a> {
    /// Returns what is read of pages of this size.
    fn new(size: PageSize, sides: &'a Sides) -> Places<'a>
        ensures { result ≡ record { size = size; sides = sides.now } }
    {
        Places { size, sides }
    }

    /// Notes where the copy of an entry's object starts, if there is such an entry and it is uncopied.
    #[inline(always)]
    #[tactic(auto, using(crate::proofs::Starts::entry_noted, crate::proofs::Starts::none_noted))]
    fn note_entry(&self, row: &mut Row, side: &Side, entry: u32)
        ensures { row.new ≡ entry_in_row self.now.size (slice_get side.now entry) row.old }
    {
        if let Some(to) = side.place_to_copy(entry as usize) {
            row.put(self.size.offset_of(to.number()) as usize, true);
        }
    }

    /// The same for `count` entries from a number on.
    #[inline(never)]
    fn note_entries(&self, row: &mut Row, side: &Side, first: u32, count: u32)
        requires { first + count < 2 ^ 32 }
        ensures { row.new ≡ entries_in_row self.now.size side.now first count row.old }
    {
        for index in 0..count {
            self.note_entry(row, side, first + index);
        }
    }

    /// The same for a run.
    fn note_run(&self, row: &mut Row, run: PageRun)
        requires { run.first + run.count < 2 ^ 32 }
        ensures { row.new ≡ run_in_row self.now.size self.now.sides run row.old }
    {
        if let Some(side) = self.sides.on(run.page) {
            self.note_entries(row, side, run.first, run.count);
        }
    }

    /// The same for runs, one after another.
    fn note_runs(&self, row: &mut Row, runs: &[PageRun])
        requires { AreSmall runs.now }
        ensures { row.new ≡ by_runs (run_in_row self.now.size self.now.sides) runs.now row.old }
    {
        for index in 0..runs.len() {
            self.note_run(row, runs[index]);
        }
    }

    /// The same for the runs of a target, in its bitmap.
    fn note_target(&self, target: &mut Target)
        requires { AreSmall target.old.runs.items }
        ensures { target.new ≡ with_starts self.now target.old }
    {
        self.note_runs(&mut target.starts, &target.runs);
    }
}

/// Returns whether the numbers of targets rise.
fn are_rising(targets: &[Target]) -> bool
    ensures { result ≡ true → AreRisingFrom 0 targets.now }
{
    let mut last = 0;
    for index in 0..targets.len() {
        let page = targets[index].page;
        if page <= last {
            return false;
        }
        last = page;
    }
    true
}

/// Swaps the bitmap of a target's page with that of the target.
fn swap_start(starts: &mut Rows, target: &mut Target)
    ensures starts { starts.new ≡ slice_set starts.old (target.old.page - 1) target.old.starts }
    ensures target { target.new
        ≡ record target.old { starts = get_or starts.old (target.old.page - 1) target.old.starts } }
{
    let index = target.page.saturating_sub(1) as usize;
    starts.swap_row(index, &mut target.starts);
}

/// The same for several targets, one after another.
fn swap_starts(starts: &mut Rows, targets: &mut [Target])
    ensures { SwapsStarts starts.old targets.old starts.new targets.new }
{
    for index in 0..targets.len() {
        let target = &mut targets[index];
        swap_start(starts, target);
    }
}

/// Has threads note where the copies of the runs of targets start: these get the bitmaps of their pages, and give them
/// back.
fn note_by<'a, R: Threads + Sync>(
    rt: &R,
    starts: &mut Rows,
    places: &Places<'a>,
    targets: &mut [Target],
    threads: u32,
)
    requires threads { 0 < threads }
    requires small { AreSmall (runs_of targets.old) }
    ensures { NotesStarts places.now starts.old targets.old starts.new targets.new }
{
    swap_starts(starts, targets);
    let note = |_index: usize, target: &mut Target|
        requires { AreSmall target.now.runs.items }
        ensures { target.exit.now ≡ with_starts places.entry.now target.entry.now }
    { places.note_target(target) };
    for_each_mut(rt, targets, threads as usize, &note);
    swap_starts(starts, targets);
}

/// Notes where the copies of runs start, one run after another.
fn note_runs(starts: &mut Rows, sides: &Sides, store: &Store, runs: &[PageRun])
    requires { AreSmall runs.now }
    ensures { starts.new ≡ by_runs (run_started store.now.words sides.now) runs.now starts.old }
{
    for index in 0..runs.len() {
        let run = runs[index];
        note_starts_of(starts, sides, store, run.page, run.first, run.count);
    }
}

/// The same for the runs of targets.
fn note_each(starts: &mut Rows, sides: &Sides, store: &Store, targets: &[Target])
    requires { AreSmall (runs_of targets.now) }
    ensures { starts.new ≡ by_runs (run_started store.now.words sides.now) (runs_of targets.now) starts.old }
{
    for index in 0..targets.len() {
        let target = &targets[index];
        note_runs(starts, sides, store, &target.runs);
    }
}

/// Notes where the copies of the runs of targets start. Threads do so, each for some targets, if the targets' numbers
/// rise; else this thread does. It takes no memory. Of the targets only bitmaps that they are lent change.
pub fn note_targets<R: Threads + Sync>(
    rt: &R,
    starts: &mut Rows,
    sides: &Sides,
    store: &Store,
    targets: &mut [Target],
    threads: u32,
)
    requires size { is_page_size store.now.words ≡ true }
    requires small { AreSmall (runs_of targets.old) }
    requires going { AllGoTo store.now.words sides.now targets.old }
    ensures starts { starts.new ≡ by_runs (run_started store.now.words sides.now) (runs_of targets.old) starts.old }
    ensures targets { map without_starts targets.new ≡ map without_starts targets.old }
{
    if threads > 1 && are_rising(targets) {
        let places = Places::new(PageSize::of(store.page_words()), sides);
        note_by(rt, starts, &places, targets, threads);
    } else {
        note_each(starts, sides, store, targets);
    }
}
