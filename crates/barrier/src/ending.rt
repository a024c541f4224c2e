//! The second half of the read barrier: healing places, and ending loads.

ghost use Rattle.std.specs.Prelude.{◌≡◌};
ghost use Rattle.model.specs.Refusing.{Does};
ghost use Rattle.model.specs.Saying.{said, done, healed};
ghost use Rattle.model.specs.Outcome.{Passes};
ghost use Rattle.model.specs.declared.steps.Step.TheVariants as steps;
ghost use Rattle.model.specs.Loads.{are_bits_of, set_healed, heal_place, heal_outcome, may_finish, end_load};
ghost use Rattle.model.specs.Loads.{finish_outcome};

use crate::traps::trap_due;
use heap::{Heap, RawEdits};
use model::{Barrier, Counter, Refusal};
use refword::Word;

/// Returns whether bits exist and are those of a reference.
fn are_bits_of(bits: Option<u64>, word: Word) -> bool
    ensures { result ≡ are_bits_of bits word }
{
    match bits {
        None => false,
        Some(bits) => bits == word.bits(),
    }
}

fn set_healed(barrier: Barrier) -> Barrier
    ensures { result ≡ set_healed barrier }
{
    Barrier {
        target: barrier.target,
        place: barrier.place,
        raw: barrier.raw,
        now: barrier.now,
        healed: true,
    }
}

/// Writes the reference in a barrier back to its place, if the place still has what was loaded. Returns whether it
/// has.
#[tactic(auto, unfolding(model::specs::Loads::heal_place))]
fn heal_place(heap: &mut Heap, thread: u32, barrier: Barrier) -> bool
    ensures { heal_place heap.old thread barrier ≡ (heap.new, healed result) }
{
    if are_bits_of(heap.bits_at(barrier.place), barrier.raw) {
        heap.set_place(barrier.place, barrier.now);
        heap.set_barrier(thread, set_healed(barrier), Counter::Healed);
        true
    } else {
        heap.set_barrier(thread, set_healed(barrier), Counter::Changed);
        false
    }
}

/// Writes the reference in a thread's barrier back to the place of the load, if the place still has what was loaded.
/// Returns whether it has. Threads count from 0.
///
/// Fails with `NotBusy` if no barrier is open, and with `Busy` if a trap is due.
#[tactic(auto, unfolding(model::specs::Loads::heal_outcome))]
pub fn heal(heap: &mut Heap, thread: u32) -> Result<bool, Refusal>
    requires { Passes heap.old thread steps.Heal }
    ensures { Does heap.old (said healed result) heap.new (heal_outcome heap.old thread) }
{
    let Some(barrier) = heap.barrier(thread) else {
        return Err(Refusal::NotBusy);
    };
    if trap_due(heap, thread, barrier.now) {
        return Err(Refusal::Busy);
    }
    Ok(heal_place(heap, thread, barrier))
}

/// Returns whether a load may end: the reference is the one that was loaded, or its place is healed. Else `heal` has
/// to come first.
#[inline(always)]
pub fn may_finish(barrier: &Barrier) -> bool
    ensures { result ≡ may_finish barrier.entry.now }
{
    barrier.healed || barrier.now.bits() == barrier.raw.bits()
}

/// Ends a load for whose reference no trap is due.
#[inline(always)]
#[tactic(auto, unfolding(model::specs::Loads::end_load))]
fn end_load(heap: &mut Heap, thread: u32, barrier: Barrier) -> Result<(), Refusal>
    ensures { Does heap.old (said done result) heap.new (end_load heap.old thread barrier) }
{
    if !may_finish(&barrier) {
        return Err(Refusal::Busy);
    }
    heap.set_loaded(thread, barrier.target, barrier.now);
    Ok(())
}

/// Ends a thread's load: its register gets the reference in the barrier, which closes. Threads count from 0.
///
/// Fails with `NotBusy` if no barrier is open; `Busy` if a trap is due, or if the reference was corrected and its
/// place isn't healed.
#[inline(always)]
#[tactic(auto, unfolding(model::specs::Loads::finish_outcome))]
pub fn finish(heap: &mut Heap, thread: u32) -> Result<(), Refusal>
    requires { Passes heap.old thread steps.Finish }
    ensures { Does heap.old (said done result) heap.new (finish_outcome heap.old thread) }
{
    let Some(open) = heap.barrier(thread) else {
        return Err(Refusal::NotBusy);
    };
    if trap_due(heap, thread, open.now) {
        return Err(Refusal::Busy);
    }
    end_load(heap, thread, open)
}
