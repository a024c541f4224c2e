//! Copying all objects of a page at once: by runs, one for each change of target, and by halves on threads.

ghost use Rattle.std.specs.Prelude.{◌≡◌, ◌+◌, ◌<◌, ◌≤◌, length, Some, true, slice_get};
ghost use Rattle.heap.specs.Runs.{with_entries};
ghost use Rattle.model.specs.Bits.{of_page};
ghost use Rattle.model.specs.Emptying.{copy_page_outcome};
ghost use Rattle.model.specs.Refusing.{Does};
ghost use Rattle.model.specs.Saying.{said};
ghost use Rattle.model.specs.declared.limits.TheConstants.{MOST_WORDS};
ghost use Rattle.model.specs.declared.steps.Answer.TheVariants as answers;
ghost use Rattle.relocate.specs.Runs.{IsRun, goes_to, may_copy_page};

use crate::emptied::is_emptied;
use crate::releasing::crossed_if_protecting;
use heap::Heap;
use model::{Phase, Refusal};
use page::PieceGate;
use std::thread::Threads;

/// A run of entries: their target, and how many they are.
#[derive(Clone, Copy)]
pub(crate) struct Run {
    pub target: u64,
    pub count: u32,
}

/// Returns the target of an entry's object, if there is such an entry.
#[tactic(auto, using(crate::proofs::Runs::none_goes, crate::proofs::Runs::placed_goes))]
fn target_of(heap: &Heap, page: u64, entry: u32) -> Option<u64>
    ensures { result ≡ goes_to heap.now.store.words (slice_get (of_page heap.now.sides page) entry) }
{
    match heap.sides().place_on(page, entry) {
        None => None,
        Some(to) => Some(heap.memory().page_of(to)),
    }
}

/// Returns whether an entry's object goes to a target.
#[inline(always)]
#[tactic(auto, using(crate::proofs::Runs::placed_there))]
fn goes_to(heap: &Heap, page: u64, entry: u32, target: u64) -> bool
    ensures { result ≡ true
        → goes_to heap.now.store.words (slice_get (of_page heap.now.sides page) entry) ≡ Some target }
{
    match heap.sides().place_on(page, entry) {
        None => false,
        Some(to) => heap.memory().page_of(to) == target,
    }
}

/// Returns how many consecutive entries of a page, from number `first` on and below `end`, have a target. The first
/// one must have it.
#[tactic(auto, using(crate::proofs::Runs::run_begins, crate::proofs::Runs::run_more))]
fn run_length(heap: &Heap, page: u64, first: u32, end: u32, target: u64) -> u32
    requires some { first < end }
    requires here { goes_to heap.now.store.words (slice_get (of_page heap.now.sides page) first) ≡ Some target }
    ensures { IsRun heap.now page first end target result }
{
    let mut count = 1;
    while count < end - first {
        if !goes_to(heap, page, first + count, target) {
            return count;
        }
        count += 1;
    }
    count
}

/// Returns the run that begins with an entry of a page.
#[tactic(auto, using(crate::proofs::Runs::entry_goes))]
pub(crate) fn run_at(heap: &Heap, page: u64, first: u32, end: u32) -> Run
    requires some { first < end }
    requires within { end ≤ length (of_page heap.now.sides page) }
    ensures { IsRun heap.now page first end result.target result.count }
{
    let target = target_of(heap, page, first).unwrap();
    let count = run_length(heap, page, first, end, target);
    Run { target, count }
}

/// Copies the objects of all entries of a page.
fn copy_runs(heap: &mut Heap, page: u64, count: u32)
    requires { count ≡ length (of_page heap.old.sides page) }
    ensures { heap.new ≡ with_entries heap.old page 0 count }
{
    let mut first = 0;
    while first < count {
        let run = run_at(heap, page, first, count);
        heap.raw_copy_run(page, run.target, first, run.count);
        first += run.count;
    }
}

/// Copies the objects of all entries of a page, by halves on threads.
fn copy_runs_by<R: Threads + Sync, G: PieceGate + Sync>(
    rt: &R,
    gate: &G,
    heap: &mut Heap,
    page: u64,
    count: u32,
    depth: u32,
)
    requires all { count ≡ length (of_page heap.old.sides page) }
    requires few { count ≤ MOST_WORDS }
    ensures { heap.new ≡ with_entries heap.old page 0 count }
{
    let mut first = 0;
    let mut number = 0;
    while first < count {
        let run = run_at(heap, page, first, count);
        heap.raw_copy_run_by(rt, gate, page, run.target, first, run.count, depth, number);
        first += run.count;
        number += 1;
    }
}

/// Tests whether a page's objects may be copied. Fails with `Phase` while the collector is idle; `NotCrossed` while
/// pages are being protected and a thread hasn't crossed; `BadIndex` if the page isn't a From page.
pub(crate) fn may_copy_page(heap: &Heap, page: u32) -> Result<(), Refusal>
    ensures { result ≡ may_copy_page heap.now page }
{
    if matches!(heap.phase(), Phase::Idle) {
        return Err(Refusal::Phase);
    }
    crossed_if_protecting(heap)?;
    if !is_emptied(heap, page) {
        return Err(Refusal::BadIndex);
    }
    Ok(())
}

/// Copies all objects of a From page that aren't copied yet to their planned places, and returns how many. It has the
/// effect of `copy` of each entry in turn; the words of all objects with one target are copied at once. If all objects
/// are copied, it costs no time for each. Pages count from 1.
///
/// Fails with `Phase` while the collector is idle; `NotCrossed` while pages are being protected and a thread hasn't
/// crossed; `BadIndex` if the page isn't a From page. It allocates nothing.
#[tactic(auto, using(crate::proofs::PageCopies::refused, crate::proofs::PageCopies::accepted))]
pub fn copy_page(heap: &mut Heap, page: u32) -> Result<u32, Refusal>
    ensures { Does heap.old (said answers.CopiedPage result) heap.new (copy_page_outcome heap.old page) }
{
    may_copy_page(heap, page)?;
    let copied = heap.sides().uncopied_on(page);
    if copied == 0 {
        return Ok(0);
    }
    let count = heap.sides().count_on(page);
    copy_runs(heap, u64::from(page), count);
    Ok(copied)
}

/// Does what `copy_page` does, by halves on threads: each run of entries with one target is halved, rounded down, to
/// a depth (above 4 counts as 4), and each piece is copied on a thread of its own, which calls the gate before. If a
/// thread can't be started, the caller's thread copies the piece afterwards, and no memory is allocated. It waits for
/// the threads; start bits and copied flags are written after they have ended.
#[tactic(auto, using(crate::proofs::PageCopies::refused, crate::proofs::PageCopies::accepted))]
pub fn copy_page_by<R: Threads + Sync, G: PieceGate + Sync>(
    rt: &R,
    heap: &mut Heap,
    page: u32,
    depth: u32,
    gate: &G,
) -> Result<u32, Refusal>
    ensures { Does heap.old (said answers.CopiedPage result) heap.new (copy_page_outcome heap.old page) }
{
    if let Err(refusal) = may_copy_page(heap, page) {
        return Err(refusal);
    }
    let copied = heap.sides().uncopied_on(page);
    let count = heap.sides().count_on(page);
    copy_runs_by(rt, gate, heap, u64::from(page), count, depth);
    Ok(copied)
}
