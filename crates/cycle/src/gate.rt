//! The tests that come before those of a single step.

ghost use Rattle.std.specs.Prelude.{◌≡◌, ◌||◌, length, nat_le, slice_get};
ghost use Rattle.model.specs.Outcome.{no_register, no_global, has_bad_index, is_for_workers, is_for_parked};
ghost use Rattle.model.specs.Outcome.{is_for_loading, is_loading_in, thread_gate, worker_gate};
ghost use Rattle.model.specs.Threads.{is_parked_in};

use crate::pages::{are_bad_pages, no_page};
use heap::Heap;
use model::{Refusal, Step};

/// Returns whether there is no such register. It is looked up in the thread that does the step, if the thread exists,
/// so that the step needn't test it again.
#[inline(always)]
#[tactic(auto, unfolding(model::specs::Outcome::no_register))]
fn no_register(heap: &Heap, thread: u32, register: u32) -> bool
    ensures { result ≡ no_register heap.now register }
{
    heap.law();
    match heap.threads().get(thread as usize) {
        None => register >= heap.config().registers,
        Some(record) => record.find_register(register).is_none(),
    }
}

#[inline(always)]
fn no_layout(heap: &Heap, layout: u32) -> bool
    ensures { result ≡ nat_le (length heap.now.config.layouts) layout }
{
    layout as usize >= heap.config().layouts.len()
}

#[inline(always)]
#[tactic(auto, unfolding(model::specs::Outcome::no_global))]
fn no_global(heap: &Heap, global: u32) -> bool
    ensures { result ≡ no_global heap.now global }
{
    global as usize >= heap.globals().len()
}

#[inline(always)]
fn no_thread(heap: &Heap, thread: u32) -> bool
    ensures { result ≡ nat_le (length heap.now.threads) thread }
{
    thread as usize >= heap.threads().len()
}

/// Returns whether a number in a step is out of range. The step is a thread's or a worker's, by a number from 0,
/// which doesn't matter for a worker's.
#[inline(always)]
fn has_bad_index(heap: &Heap, thread: u32, step: &Step) -> bool
    ensures { result ≡ has_bad_index heap.now step.now }
{
    match step {
        Step::Take(n) => *n == 0 || *n > heap.memory().page_words(),
        Step::New { target, layout } => no_register(heap, thread, *target)
            || no_layout(heap, *layout),
        Step::Load { target, object, .. } => {
            no_register(heap, thread, *target) || no_register(heap, thread, *object)
        }
        Step::LoadGlobal { target, global } => {
            no_register(heap, thread, *target) || no_global(heap, *global)
        }
        Step::Store { object, source, .. } => {
            no_register(heap, thread, *object) || no_register(heap, thread, *source)
        }
        Step::StoreGlobal { global, source } => {
            no_global(heap, *global) || no_register(heap, thread, *source)
        }
        Step::Datum { object, .. } => no_register(heap, thread, *object),
        Step::SetDatum { object, .. } => no_register(heap, thread, *object),
        Step::Same { left, right } => no_register(heap, thread, *left)
            || no_register(heap, thread, *right),
        Step::IsNull(register) => no_register(heap, thread, *register),
        Step::CopyReg { target, source } => {
            no_register(heap, thread, *target) || no_register(heap, thread, *source)
        }
        Step::ClearReg(register) => no_register(heap, thread, *register),
        Step::Scrub(register) => no_register(heap, thread, *register),
        Step::Pick { page, .. } => no_page(heap, *page),
        Step::ScanGlobal(global) => no_global(heap, *global),
        Step::Protect(pages) => are_bad_pages(heap, pages.as_slice()),
        Step::Copy { page, .. } => no_page(heap, *page),
        Step::CopyPage(page) => no_page(heap, *page),
        Step::Release(page) => no_page(heap, *page),
        Step::CrossFor(other) => no_thread(heap, *other),
        _ => false,
    }
}

/// Returns whether a step is a worker's; all others are threads'.
#[inline(always)]
fn is_for_workers(step: &Step) -> bool
    ensures { result ≡ is_for_workers step.now }
{
    matches!(
        step,
        Step::StartMark
            | Step::Pick { .. }
            | Step::ScanField
            | Step::ScanGlobal(_)
            | Step::EndMark
            | Step::Protect(_)
            | Step::Copy { .. }
            | Step::CopyPage(_)
            | Step::Release(_)
            | Step::CrossFor(_)
    )
}

/// Returns whether a parked thread may do a step.
#[inline(always)]
fn is_for_parked(step: &Step) -> bool
    ensures { result ≡ is_for_parked step.now }
{
    matches!(step, Step::Unpark)
}

/// Returns whether a thread with an open barrier may do a step.
#[inline(always)]
fn is_for_loading(step: &Step) -> bool
    ensures { result ≡ is_for_loading step.now }
{
    matches!(step, Step::Trap | Step::Heal | Step::Finish)
}

#[inline(always)]
fn is_loading(heap: &Heap, thread: u32) -> bool
    ensures { result ≡ is_loading_in (slice_get heap.now.threads thread) }
{
    heap.barrier(thread).is_some()
}

/// Returns whether a thread is parked or has an open barrier; false if there is no such thread.
#[inline(always)]
fn is_held(heap: &Heap, thread: u32) -> bool
    ensures { result ≡ (is_parked_in (slice_get heap.now.threads thread)
        || is_loading_in (slice_get heap.now.threads thread)) }
{
    match heap.threads().get(thread as usize) {
        None => false,
        Some(record) => record.is_held(),
    }
}

/// Makes the leading tests of a thread's step, in their order: no such thread, or no step of a thread (`NoActor`); a
/// number out of range (`BadIndex`); a parked thread, unless the step is `Unpark` (`Parked`); an open barrier, unless
/// the step is `Trap`, `Heal` or `Finish` (`Busy`). `Ok` is the precondition of the call that does the step.
#[inline(always)]
#[tactic(auto, unfolding(model::specs::Outcome::thread_gate))]
pub fn thread_gate(heap: &Heap, thread: u32, step: &Step) -> Result<(), Refusal>
    ensures { result ≡ thread_gate heap.now thread step.now }
{
    if no_thread(heap, thread) || is_for_workers(step) {
        return Err(Refusal::NoActor);
    }
    if has_bad_index(heap, thread, step) {
        return Err(Refusal::BadIndex);
    }
    if !is_held(heap, thread) {
        return Ok(());
    }
    if heap.is_parked(thread) && !is_for_parked(step) {
        return Err(Refusal::Parked);
    }
    if is_loading(heap, thread) && !is_for_loading(step) {
        return Err(Refusal::Busy);
    }
    Ok(())
}

/// Makes the leading tests of a worker's step, in their order: no such worker, or no step of a worker (`NoActor`); a
/// number out of range (`BadIndex`). `Ok` is the precondition of the call that does the step.
#[tactic(auto, unfolding(model::specs::Outcome::worker_gate))]
pub fn worker_gate(heap: &Heap, worker: u32, step: &Step) -> Result<(), Refusal>
    ensures { result ≡ worker_gate heap.now worker step.now }
{
    if worker as usize >= heap.workers().len() || !is_for_workers(step) {
        return Err(Refusal::NoActor);
    }
    if has_bad_index(heap, 0, step) {
        return Err(Refusal::BadIndex);
    }
    Ok(())
}
