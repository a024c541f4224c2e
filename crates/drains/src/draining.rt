//! Scans objects, one after another.

ghost use Rattle.std.specs.Prelude.{◌≡◌, ◌≢◌, ◌<◌, ◌≤◌, ◌∷◌, Ok, Some, None, MatchBool, slice_get};
ghost use Rattle.std.specs.Prelude.{reverse, not, is_some, true, false, IfSome, length};
ghost use Rattle.std.specs.List.{list_any};
ghost use Rattle.model.specs.Scans.{is_taken, may_scan, next_todo, next_drain};
ghost use Rattle.drains.specs.Drains.{IsDrained, IsReady, NoneTodo, ObjectsDone, KeepsPlain};
ghost use Rattle.drains.specs.Waiting.{AreWaiting, IsAlone, IsNext};

use crate::backlog::{Waiting, note_all};
use crate::globals::mark_globals;
use crate::whole::scan_object;
use heap::Heap;
use marker::{is_taken, next_todo};
use model::Scan;
use refword::Addr;

/// Returns whether a worker's scan is of some object.
fn is_scan(scan: Option<Scan>) -> bool
    ensures { result ≡ is_some scan }
{
    scan.is_some()
}

/// Returns whether some worker has an object.
fn has_scans(heap: &Heap) -> bool
    ensures { result ≡ list_any is_some heap.now.workers }
{
    heap.workers().iter().any(|scan| is_scan(*scan))
}

/// Returns whether no worker has an object.
pub fn is_alone(heap: &Heap) -> bool
    ensures { result ≡ not (list_any is_some heap.now.workers) }
{
    !has_scans(heap)
}

/// Returns whether no worker has the object at an address. If no worker has any, this isn't looked up.
#[inline(always)]
#[tactic(auto, using(crate::proofs::Waiting::none_taken))]
fn is_untaken(heap: &Heap, alone: bool, address: u64) -> bool
    requires { IsAlone alone heap.now.workers }
    ensures { result ≡ not (is_taken heap.now address) }
{
    if alone {
        return true;
    }
    !is_taken(heap, address)
}

/// Makes all objects that wait grey, and returns the next one: the grey object with the least address that no worker
/// has, or `None`.
fn noted_next(heap: &mut Heap, waiting: &mut Waiting) -> Option<Addr>
    requires { AreWaiting heap.old.mark heap.old.store.words (reverse waiting.old.items) }
    ensures { IsNext heap.old (reverse waiting.old.items) result heap.new (reverse waiting.new.items) }
{
    note_all(heap, waiting);
    next_todo(heap)
}

/// Returns an object that waited as the next one. If another worker has it, which never occurs, all are made grey,
/// and the next one is found among them.
#[inline(always)]
fn waited_next(heap: &mut Heap, alone: bool, address: Addr, waiting: &mut Waiting) -> Option<Addr>
    requires alone { IsAlone alone heap.old.workers }
    requires waiting { AreWaiting heap.old.mark heap.old.store.words (address ∷ reverse waiting.old.items) }
    ensures { IsNext heap.old (address ∷ reverse waiting.old.items) result heap.new (reverse waiting.new.items) }
{
    heap.law();
    if is_untaken(heap, alone, address.number()) {
        return Some(address);
    }
    heap.raw_set_todo(address);
    noted_next(heap, waiting)
}

/// Returns the next object that a drain scans: of those that wait, the one that was marked last; else a grey one; or
/// `None`.
#[inline(always)]
fn next_object(heap: &mut Heap, alone: bool, waiting: &mut Waiting) -> Option<Addr>
    requires alone { IsAlone alone heap.old.workers }
    requires waiting { AreWaiting heap.old.mark heap.old.store.words (reverse waiting.old.items) }
    ensures { IsNext heap.old (reverse waiting.old.items) result heap.new (reverse waiting.new.items) }
{
    match waiting.pop() {
        None => noted_next(heap, waiting),
        Some(number) => waited_next(heap, alone, Addr::new(number).unwrap(), waiting),
    }
}

/// Returns whether a worker exists and has no object.
fn is_free(heap: &Heap, worker: u32) -> bool
    ensures { MatchBool result (slice_get heap.now.workers worker ≡ Some None)
        (slice_get heap.now.workers worker ≢ Some None) }
{
    match heap.workers().get(worker as usize) {
        None => false,
        Some(scan) => scan.is_none(),
    }
}

/// Returns whether a mark runs that all threads have crossed: else no worker scans anything.
#[tactic(auto, unfolding(model::specs::Scans::may_scan))]
pub fn may_scan(heap: &Heap) -> bool
    ensures { MatchBool result (may_scan heap.now ≡ Ok tt) (may_scan heap.now ≢ Ok tt) }
{
    heap.phase().is_marking() && heap.all_crossed().is_ok()
}

/// Returns whether a worker may scan objects completely: a mark runs that all threads have crossed, nothing is left
/// to be copied, and the worker exists and has no object.
#[tactic(auto, using(crate::proofs::Drained::ready_is))]
pub fn is_ready(heap: &Heap, worker: u32) -> bool
    ensures { MatchBool result (IsReady heap.now worker) (¬ IsReady heap.now worker) }
{
    may_scan(heap) && heap.sides().uncopied() == 0 && is_free(heap, worker)
}

/// Drains the rest of a mark by a worker that is ready, as one call: it marks the grey globals, and then picks and
/// scans objects, at most `most`, until none is left that no worker has. Returns how many objects it scanned. Workers
/// count from 0.
///
/// It does what some steps `ScanGlobal`, `Pick` and `ScanField` of the worker do, with one `Pick` for each object. If
/// it returns less than `most`, the worker has nothing more to do. A heap that represents a reference model still
/// represents it afterwards. It takes no memory.
pub fn drain(heap: &mut Heap, worker: u32, most: u64) -> u64
    requires { IsReady heap.old worker }
    ensures drained { IsDrained heap.old worker result heap.new }
    ensures stands { KeepsPlain heap.old heap.new }
    ensures globals { NoneTodo heap.new (length heap.new.globals) }
    ensures few { result ≤ most }
    ensures end { result < most → next_drain heap.new worker ≡ None }
{
    refinement::law();
    mark_globals(heap, worker);
    let portion = scan_objects(heap, worker, most, None);
    portion.objects
}

/// The result of a quantum: a bounded part of a drain.
#[derive(Clone, Copy, Debug, PartialEq, Eq)]
pub struct Portion {
    /// How many objects were scanned.
    pub objects: u64,
    /// Whether nothing is left that no other worker has.
    pub has_ended: bool,
}

/// A quantum in which the references are bounded too: like `drain`, but it also stops after the object with which
/// `references` references were scanned. An object has at most 1,023 references. If both bounds are above 0, it scans
/// at least one object, or nothing is left.
pub fn drain_some(heap: &mut Heap, worker: u32, most: u64, references: u64) -> Portion
    requires { IsReady heap.old worker }
    ensures drained { IsDrained heap.old worker result.objects heap.new }
    ensures stands { KeepsPlain heap.old heap.new }
    ensures globals { NoneTodo heap.new (length heap.new.globals) }
    ensures few { result.objects ≤ most }
    ensures end { result.has_ended ≡ true → next_drain heap.new worker ≡ None }
    ensures goes { 0 < most → 0 < references → result.has_ended ≡ false → 0 < result.objects }
{
    refinement::law();
    mark_globals(heap, worker);
    scan_objects(heap, worker, most, Some(references))
}

/// Returns whether the number of scanned references has reached its limit, if there is one.
#[inline(always)]
fn is_enough(scanned: u64, limit: Option<u64>) -> bool
    ensures free { limit ≡ None → result ≡ false }
    ensures many { result ≡ true → IfSome limit (λ most. most ≤ scanned) }
{
    match limit {
        None => false,
        Some(limit) => scanned >= limit,
    }
}

/// Picks and scans objects for a worker: at most `most`, until `limit` references were scanned, if there is a limit,
/// or until none is left that no worker has. Globals stay as they are.
pub fn scan_objects(heap: &mut Heap, worker: u32, most: u64, limit: Option<u64>) -> Portion
    requires { IsReady heap.old worker }
    ensures done { ObjectsDone heap.old worker result.objects heap.new }
    ensures few { result.objects ≤ most }
    ensures end { result.has_ended ≡ true → next_todo heap.new ≡ None }
    ensures all { limit ≡ None → result.objects < most → result.has_ended ≡ true }
    ensures goes { 0 < most → IfSome limit (λ n. 0 < n) → result.has_ended ≡ false → 0 < result.objects }
{
    let alone = is_alone(heap);
    let mut waiting = Waiting::new();
    let mut references = 0u64;
    for done in 0..most {
        heap.law();
        if is_enough(references, limit) {
            note_all(heap, &mut waiting);
            return Portion {
                objects: done,
                has_ended: false,
            };
        }
        let Some(address) = next_object(heap, alone, &mut waiting) else {
            return Portion {
                objects: done,
                has_ended: true,
            };
        };
        let scanned = scan_object(heap, address, &mut waiting);
        references = references.saturating_add(u64::from(scanned));
    }
    note_all(heap, &mut waiting);
    Portion {
        objects: most,
        has_ended: false,
    }
}
