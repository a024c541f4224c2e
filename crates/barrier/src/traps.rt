//! Traps: which one is due for the reference in a barrier, and its effect.

ghost use Rattle.std.specs.Prelude.{◌≡◌, Ok};
ghost use Rattle.model.specs.Refusing.{Does};
ghost use Rattle.model.specs.Saying.{said, trapped};
ghost use Rattle.model.specs.Outcome.{Passes};
ghost use Rattle.model.specs.declared.steps.Step.TheVariants as steps;
ghost use Rattle.model.specs.Loads.{gc_trap_due, nmt_trap_due, trap_due, set_now_of, nmt_trap};
ghost use Rattle.model.specs.Traps.{gc_trap, trap_outcome};

use heap::{Heap, RawEdits};
use marker::mark;
use model::{Barrier, Counter, Phase, Refusal, Trap};
use refword::Word;
use single_copies::follow;

/// Returns whether a GC trap is due: the reference leads to a page that the thread may not use.
#[inline(always)]
fn gc_trap_due(heap: &Heap, thread: u32, word: Word) -> bool
    ensures { result ≡ gc_trap_due heap.now thread word }
{
    match word.addr() {
        None => false,
        Some(address) => heap.let_through(thread, address).is_err(),
    }
}

/// Returns whether an NMT trap is due: the running mark hasn't seen the reference.
#[inline(always)]
fn nmt_trap_due(heap: &Heap, thread: u32, word: Word) -> bool
    ensures { result ≡ nmt_trap_due heap.now thread word }
{
    if word.is_null() {
        return false;
    }
    heap.phase().may_nmt_trap(heap.has_crossed(thread)) && word.nmt() != heap.nmt()
}

/// Returns whether a trap is due for a reference that a thread, by its number from 0, has loaded.
#[inline(always)]
#[tactic(auto, unfolding(model::specs::Loads::trap_due))]
pub fn trap_due(heap: &Heap, thread: u32, word: Word) -> bool
    ensures { result ≡ trap_due heap.now thread word }
{
    gc_trap_due(heap, thread, word) || nmt_trap_due(heap, thread, word)
}

/// Returns a barrier with another reference.
fn set_now(barrier: Barrier, word: Word) -> Barrier
    ensures { result ≡ set_now_of word barrier }
{
    Barrier {
        target: barrier.target,
        place: barrier.place,
        raw: barrier.raw,
        now: word,
        healed: barrier.healed,
    }
}

/// Does the NMT trap: marks the reference in a barrier if that is due.
#[inline(always)]
fn nmt_trap(heap: &mut Heap, thread: u32, barrier: Barrier) -> Trap
    ensures { nmt_trap heap.old thread barrier ≡ Ok (heap.new, trapped result) }
{
    if !nmt_trap_due(heap, thread, barrier.now) {
        return Trap::Clear;
    }
    let marked = mark(heap, barrier.now);
    heap.set_barrier(thread, set_now(barrier, marked), Counter::Nmt);
    Trap::Marked
}

/// Does the GC trap: replaces the reference in a barrier with one to the copy, which is made first if it isn't there.
/// Fails with `Stall` while pages are being protected.
fn gc_trap(heap: &mut Heap, thread: u32, barrier: Barrier) -> Result<Trap, Refusal>
    ensures { Does heap.old (said trapped result) heap.new (gc_trap heap.old thread barrier barrier.now) }
{
    let Some(address) = barrier.now.addr() else {
        return Ok(Trap::Clear);
    };
    if matches!(heap.phase(), Phase::ProtectCrossing) {
        return Err(Refusal::Stall);
    }
    let moved = follow(heap, address, barrier.now.nmt());
    heap.set_barrier(thread, set_now(barrier, moved), Counter::Gc);
    Ok(Trap::Moved)
}

/// Does the trap that is due for a thread's reference, by the thread's number from 0, and returns which: a GC trap
/// replaces it with one to the object's copy, which is made first if it isn't there (`Moved`); an NMT trap marks it
/// (`Marked`). Returns `Clear` if none is due.
///
/// Fails with `NotBusy` if no barrier is open, and with `Stall` if a GC trap is due while pages are being protected
/// and some thread hasn't crossed.
#[inline(always)]
#[tactic(auto, unfolding(model::specs::Traps::trap_outcome))]
pub fn trap(heap: &mut Heap, thread: u32) -> Result<Trap, Refusal>
    requires { Passes heap.old thread steps.Trap }
    ensures { Does heap.old (said trapped result) heap.new (trap_outcome heap.old thread) }
{
    let Some(barrier) = heap.barrier(thread) else {
        return Err(Refusal::NotBusy);
    };
    if gc_trap_due(heap, thread, barrier.now) {
        return gc_trap(heap, thread, barrier);
    }
    Ok(nmt_trap(heap, thread, barrier))
}
