//! Scanning: workers mark the references of objects and globals, and write back each one corrected. A scan of an
//! object is cut into steps of one field each.

ghost use Rattle.std.specs.Prelude.{◌≡◌, ◌<◌, ◌≤◌, ◌*◌, ◌+◌, slice_get};
ghost use Rattle.std.specs.Option.{option_copied};
ghost use Rattle.model.specs.References.{field_at};
ghost use Rattle.model.specs.Refusing.{Does};
ghost use Rattle.model.specs.Outcome.{WorkerPasses};
ghost use Rattle.model.specs.Scans.{scan_of, is_scan_of, is_taken, reference_in, mark_place, mark_global, is_todo_in};
ghost use Rattle.model.specs.Scans.{scan_next, pick_outcome, scan_field_outcome, scan_global_outcome};
ghost use Rattle.model.specs.Stores.{word_at};
ghost use Rattle.model.specs.declared.steps.Step.TheVariants as steps;

use crate::marks::{mark, may_scan};
use heap::{Heap, RawCollectorEdits, read_reference};
use model::{Answer, Refusal, Reply, Scan};
use refword::Word;

/// Returns what a worker scans, by its number from 0, if it scans anything.
fn scan_of(heap: &Heap, worker: u32) -> Option<Scan>
    ensures { result ≡ scan_of heap.now worker }
{
    match heap.workers().get(worker as usize) {
        None => None,
        Some(scan) => *scan,
    }
}

/// Returns whether a worker's scan is of the object at an address.
#[inline(always)]
fn is_scan_of(address: u64, scan: Option<Scan>) -> bool
    ensures { result ≡ is_scan_of address scan }
{
    match scan {
        None => false,
        Some(scan) => scan.object.number() == address,
    }
}

/// Returns whether some worker has the object at an address.
#[inline(always)]
#[tactic(auto, unfolding(model::specs::Scans::is_taken))]
pub fn is_taken(heap: &Heap, address: u64) -> bool
    ensures { result ≡ is_taken heap.now address }
{
    heap.workers().iter().any(|scan| is_scan_of(address, *scan))
}

/// Returns the reference at a place in memory; null if the place has no memory.
fn reference_at(heap: &Heap, place: u64) -> Word
    ensures { result ≡ reference_in (word_at heap.now.store place) }
{
    match heap.memory().word(place) {
        None => Word::null(),
        Some(bits) => read_reference(bits),
    }
}

/// Marks the reference at a place in memory, and writes it back.
#[tactic(auto, unfolding(model::specs::Scans::mark_place, model::specs::Scans::with_marked_place, model::specs::Marks::with_mark))]
fn mark_place(heap: &mut Heap, place: u64)
    ensures { heap.new ≡ mark_place heap.old place (reference_in (word_at heap.old.store place)) }
{
    let word = reference_at(heap, place);
    let marked = mark(heap, word);
    heap.set_reference(place, marked);
}

/// Scans the next field of a worker's object.
fn scan_next(heap: &mut Heap, worker: u32, scan: Scan) -> Reply
    ensures { Does heap.old result heap.new (scan_next heap.old worker scan (field_at heap.old scan.object scan.next)) }
{
    let Some(place) = heap.field_at(scan.object, scan.next) else {
        heap.end_scan(worker, scan);
        return Ok(Answer::Finished);
    };
    mark_place(heap, place);
    let next = Scan {
        object: scan.object,
        next: scan.next + 1,
    };
    heap.set_scan(worker, Some(next));
    Ok(Answer::Scanned)
}

/// Scans the next field of a worker's object: its reference is marked and written back (`Scanned`). If no field is
/// left, the object isn't grey any more, and the worker has none (`Finished`). Workers count from 0.
///
/// Fails with `Phase` if no mark runs; `NotCrossed` if a thread hasn't crossed; `NotTodo` if the worker has no
/// object.
#[tactic(auto, unfolding(model::specs::Scans::scan_field_outcome))]
pub fn scan_field(heap: &mut Heap, worker: u32) -> Reply
    requires { WorkerPasses heap.old worker steps.ScanField }
    ensures { Does heap.old result heap.new (scan_field_outcome heap.old worker) }
{
    may_scan(heap)?;
    let Some(scan) = scan_of(heap, worker) else {
        return Err(Refusal::NotTodo);
    };
    scan_next(heap, worker, scan)
}

/// Returns whether a global is grey, by its number from 0.
fn is_todo(heap: &Heap, number: u32) -> bool
    ensures { result ≡ is_todo_in (slice_get heap.now.globals number) }
{
    match heap.globals().get(number as usize) {
        None => false,
        Some(global) => global.todo,
    }
}

/// Marks a global, and writes it back.
#[tactic(auto, unfolding(model::specs::Scans::mark_global, model::specs::Scans::with_marked_global, model::specs::Marks::with_mark))]
fn mark_global(heap: &mut Heap, number: u32)
    ensures { heap.new ≡ mark_global heap.old number }
{
    let word = heap.global(number);
    let marked = mark(heap, word);
    heap.set_marked_global(number, marked);
}

/// Marks a global, and writes it back. Workers and globals count from 0.
///
/// Fails with `Phase` if no mark runs; `NotCrossed` if a thread hasn't crossed; `NotTodo` if the global isn't grey.
#[tactic(auto, unfolding(model::specs::Scans::scan_global_outcome))]
pub fn scan_global(heap: &mut Heap, worker: u32, number: u32) -> Reply
    requires { WorkerPasses heap.old worker (steps.ScanGlobal number) }
    ensures { Does heap.old result heap.new (scan_global_outcome heap.old number) }
{
    may_scan(heap)?;
    if !is_todo(heap, number) {
        return Err(Refusal::NotTodo);
    }
    mark_global(heap, number);
    Ok(Answer::Done)
}

/// Gives a worker a grey object to scan, by its page's number from 1 and its offset there. Workers count from 0.
///
/// Fails with `Phase` if no mark runs; `NotCrossed` if a thread hasn't crossed; `NotTodo` if no grey object starts
/// there; `Taken` if the worker already has an object, or another worker has this one.
#[tactic(auto, unfolding(model::specs::Scans::pick_outcome), using(crate::proofs::Passing::pick_high))]
pub fn pick(heap: &mut Heap, worker: u32, page: u32, offset: u32) -> Reply
    requires { WorkerPasses heap.old worker (steps.Pick page offset) }
    ensures { Does heap.old result heap.new (pick_outcome heap.old worker page offset) }
{
    may_scan(heap)?;
    if offset >= heap.memory().page_words() || !heap.todo().bit_on(u64::from(page), offset) {
        return Err(Refusal::NotTodo);
    }
    let object = heap.address_on(page, offset);
    if scan_of(heap, worker).is_some() || is_taken(heap, object.number()) {
        return Err(Refusal::Taken);
    }
    heap.set_scan(worker, Some(Scan { object, next: 0 }));
    Ok(Answer::Done)
}
