//! Operations of a collection, each of bounded work.

ghost use Rattle.std.specs.Prelude.{◌≡◌, ◌≢◌, true, None, Ok, MatchBool};
ghost use Rattle.drains.specs.Drains.{IsReady};
ghost use Rattle.model.specs.declared.records.Phase.TheVariants as phases;
ghost use Rattle.model.specs.Checkpoints.{all_crossed};
ghost use Rattle.model.specs.Phases.{may_start_mark};
ghost use Rattle.model.specs.Scans.{next_drain};
ghost use Rattle.managed.specs.Collecting.{EndsCrossing};
ghost use Rattle.collecting.specs.Collections.{EndsLeft, WORKER};
ghost use Rattle.collecting.specs.Parts.{EndsPortion, EndsProtecting, EndsScanning};
ghost use Rattle.collecting.specs.Stages.{EndsMarking, EndsOne};

use crate::leftovers::settle_page;
use drains::is_ready;
use managed::ManagedHeap;
use model::{Actor, PageList, Phase, Refusal, Step};

/// Returns whether a mark may start.
pub(crate) fn may_start_mark(phase: Phase) -> bool
    ensures { result ≡ may_start_mark phase }
{
    matches!(phase, Phase::Idle | Phase::Relocating)
}

/// Has all threads cross the open checkpoint.
pub(crate) fn cross(heap: &mut ManagedHeap) -> Result<(), Refusal>
    ensures { EndsCrossing WORKER heap.old result heap.new }
{
    heap.cross_all(0)
}

/// Has all threads cross the open checkpoint.
fn cross_open(heap: &mut ManagedHeap) -> Result<(), Refusal>
    ensures { EndsPortion heap.old result heap.new }
{
    cross(heap)
}

/// Begins a mark, and has all threads cross.
fn begin_mark(heap: &mut ManagedHeap) -> Result<(), Refusal>
    requires { may_start_mark heap.old.phase ≡ true }
    ensures { EndsPortion heap.old result heap.new }
{
    match heap.step(Actor::Worker(0), &Step::StartMark) {
        Ok(_) => cross_open(heap),
        Err(refusal) => Err(refusal),
    }
}

/// Begins a mark; or has all threads cross the open checkpoint.
fn begin_or_cross(heap: &mut ManagedHeap) -> Result<(), Refusal>
    ensures { EndsPortion heap.old result heap.new }
{
    if may_start_mark(heap.heap().phase()) {
        begin_mark(heap)
    } else {
        cross_open(heap)
    }
}

/// Ends a mark. Returns true.
fn end_mark(heap: &mut ManagedHeap) -> Result<bool, Refusal>
    requires nothing { next_drain heap.old WORKER ≡ None }
    requires phase { heap.old.phase ≡ phases.Scanning }
    ensures { EndsMarking heap.old result heap.new }
{
    match heap.step(Actor::Worker(0), &Step::EndMark) {
        Ok(_) => Ok(true),
        Err(refusal) => Err(refusal),
    }
}

/// How many references are scanned for each object of a budget before a quantum ends: so an object of 1,023
/// references takes as much of a budget as 16 others.
const REFERENCES: u64 = 64;

/// Scans at most `budget` objects, and references by the budget, by a worker that is ready for that. Returns true if
/// nothing is left.
fn scan_ready(heap: &mut ManagedHeap, budget: u64) -> Result<bool, Refusal>
    requires { IsReady heap.old WORKER }
    ensures { EndsScanning heap.old result heap.new }
{
    let portion = heap.scan_portion(0, budget, budget.saturating_mul(REFERENCES));
    if portion.has_ended {
        Ok(true)
    } else {
        Ok(false)
    }
}

/// Does a part of what keeps the worker from scanning complete objects. If nothing of that is left, no scan would be
/// accepted: it fails as the next one does, or returns true if nothing is left.
fn scan_unready(heap: &mut ManagedHeap, budget: u64) -> Result<bool, Refusal>
    ensures { EndsScanning heap.old result heap.new }
{
    if heap.prepare_some(0) {
        Ok(false)
    } else {
        heap.scan(0, budget)
    }
}

/// Scans at most `budget` objects; or, before that, the object that the worker has, or copies one page that has
/// uncopied objects. Returns true if nothing is left.
fn scan_some(heap: &mut ManagedHeap, budget: u64) -> Result<bool, Refusal>
    ensures { EndsScanning heap.old result heap.new }
{
    if is_ready(heap.heap(), 0) {
        scan_ready(heap, budget)
    } else {
        scan_unready(heap, budget)
    }
}

/// As `scan_some`; if nothing is left it ends the mark, and returns true.
fn scan_or_end(heap: &mut ManagedHeap, budget: u64) -> Result<bool, Refusal>
    requires { heap.old.phase ≡ phases.Scanning }
    ensures { EndsMarking heap.old result heap.new }
{
    match scan_some(heap, budget) {
        Ok(true) => end_mark(heap),
        Ok(false) => Ok(false),
        Err(refusal) => Err(refusal),
    }
}

/// Returns whether a mark runs that all threads have crossed.
fn is_scanning(phase: Phase) -> bool
    ensures { MatchBool result (phase ≡ phases.Scanning) (phase ≢ phases.Scanning) }
{
    matches!(phase, Phase::Scanning)
}

/// Does a quantum of a mark. Returns true if the mark has ended.
pub(crate) fn mark_some(heap: &mut ManagedHeap, budget: u64) -> Result<bool, Refusal>
    ensures { EndsMarking heap.old result heap.new }
{
    if is_scanning(heap.heap().phase()) {
        return scan_or_end(heap, budget);
    }
    match begin_or_cross(heap) {
        Ok(()) => Ok(false),
        Err(refusal) => Err(refusal),
    }
}

/// Protects pages.
pub(crate) fn protect(heap: &mut ManagedHeap, pages: Vec<u32>) -> Result<(), Refusal>
    ensures { EndsProtecting heap.old pages.items result heap.new }
{
    match heap.step(Actor::Worker(0), &Step::Protect(PageList::new(pages))) {
        Ok(_) => Ok(()),
        Err(refusal) => Err(refusal),
    }
}

/// Empties a page, if it is protected, when all threads have crossed.
fn empty_crossed(heap: &mut ManagedHeap, page: u32) -> Result<(), Refusal>
    requires { all_crossed heap.old ≡ Ok tt }
    ensures { EndsLeft heap.old page result heap.new }
{
    heap.law();
    settle_page(heap, page)
}

/// Has all threads cross, and empties a page, if it is protected.
pub(crate) fn empty_one(heap: &mut ManagedHeap, page: u32) -> Result<(), Refusal>
    ensures { EndsOne page heap.old result heap.new }
{
    match cross(heap) {
        Ok(()) => empty_crossed(heap, page),
        Err(refusal) => Err(refusal),
    }
}
