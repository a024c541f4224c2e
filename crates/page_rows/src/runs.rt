//! Notes of the objects of runs that are copied: that they are, and where their copies start.

ghost use Rattle.std.specs.Prelude.{◌≡◌, ◌+◌, ◌<◌, ◌^◌, slice_get};
ghost use Rattle.model.specs.Bits.{of_page};
ghost use Rattle.page.specs.Filling.{runs_of};
ghost use Rattle.page_rows.specs.Runs.{notes, noted_starts, noted_from, started_from};
ghost use Rattle.page_rows.specs.Starting.{AreSmall, by_runs, run_noted};

use crate::bits::put_bit;
use forward::{Side, Sides};
use markbits::Rows;
use page::{PageRun, Store, Target};

/// Notes where the copy of an entry's object starts, if there is such an entry and it is uncopied.
#[inline(always)]
#[tactic(auto, using(crate::proofs::Notes::started, crate::proofs::Notes::none_started))]
fn note_start(starts: &mut Rows, side: &Side, store: &Store, entry: u32)
    ensures { starts.new ≡ noted_starts store.now.words (slice_get side.now entry) starts.old }
{
    if let Some(to) = side.place_to_copy(entry as usize) {
        put_bit(starts, store, to, true);
    }
}

/// The same for `count` entries from a number on.
#[inline(never)]
fn note_starts(starts: &mut Rows, side: &Side, store: &Store, first: u32, count: u32)
    requires { first + count < 2 ^ 32 }
    ensures { starts.new ≡ started_from store.now.words side.now first count starts.old }
{
    for index in 0..count {
        note_start(starts, side, store, first + index);
    }
}

/// The same for entries of a page.
pub fn note_starts_of(
    starts: &mut Rows,
    sides: &Sides,
    store: &Store,
    page: u64,
    first: u32,
    count: u32,
)
    requires { first + count < 2 ^ 32 }
    ensures { starts.new ≡ started_from store.now.words (of_page sides.now page) first count starts.old }
{
    if let Some(side) = sides.on(page) {
        note_starts(starts, side, store, first, count);
    }
}

/// Notes that the objects of `count` entries of a page from a number on are copied, and where their copies start, of
/// entries that exist and are uncopied. The place of the last entry is kept, after which the next one is looked up.
pub fn note_copies(
    starts: &mut Rows,
    sides: &mut Sides,
    store: &Store,
    page: u64,
    first: u32,
    count: u32,
)
    requires { first + count < 2 ^ 32 }
    ensures { notes starts.new sides.new ≡ noted_from store.now.words page first count (notes starts.old sides.old) }
{
    note_starts_of(starts, sides, store, page, first, count);
    sides.note_run(page, first, count);
    sides.keep(page, (first + count).saturating_sub(1));
}

/// Notes that the objects of runs are copied, one run after another. The place of the last entry of each is kept, after
/// which the next one is looked up.
fn note_copied(sides: &mut Sides, runs: &[PageRun])
    requires { AreSmall runs.now }
    ensures { sides.new ≡ by_runs run_noted runs.now sides.old }
{
    for index in 0..runs.len() {
        let run = runs[index];
        sides.note_run(run.page, run.first, run.count);
        sides.keep(run.page, (run.first + run.count).saturating_sub(1));
    }
}

/// The same for the runs of targets.
pub fn note_all_copied(sides: &mut Sides, targets: &[Target])
    requires { AreSmall (runs_of targets.now) }
    ensures { sides.new ≡ by_runs run_noted (runs_of targets.now) sides.old }
{
    for index in 0..targets.len() {
        let target = &targets[index];
        note_copied(sides, &target.runs);
    }
}
