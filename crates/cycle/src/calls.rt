//! The steps of threads, each a function that makes its leading tests, does the step, and returns its answer as a
//! plain value.
//!
//! Threads, registers, layouts, fields, data words and globals are numbers from 0. Each function has the outcome of
//! `Stepping::step` of its step: `docs/STEPS.md` has its tests in order, its answer and its effect. If it fails,
//! nothing changes.

ghost use Rattle.std.specs.Prelude.{◌≡◌, Some, IfOk};
ghost use Rattle.model.specs.Buffers.{buffer_of_thread};
ghost use Rattle.model.specs.Saying.{done, loaded, lent, trapped, healed, scrubbed};
ghost use Rattle.model.specs.declared.steps.Step.TheVariants as steps;
ghost use Rattle.model.specs.declared.steps.Answer.TheVariants as answers;
ghost use Rattle.cycle.specs.Mutating.{DoesThread, StepsStand};

use crate::gate::thread_gate;
use fast_paths::{datum_at_once, set_datum_at_once, store_at_once};
use heap::Heap;
use model::{Buffer, Refusal, Step, Trap};

/// Proves that each step from this heap keeps what the heap represents, also by a function here: if it represents a
/// reference model, in which no object moves or is freed, it also does after the step, whose answer is the reference
/// model's. It changes nothing and can't fail.
#[inline(always)]
#[tactic(auto, using(crate::proofs::Replaying::keeps_standing))]
pub fn law(heap: &Heap)
    ensures { StepsStand heap.now }
{
    heap.law();
    refinement::law();
}

/// Takes a buffer of a number of words for the thread, and returns it. Fails with `Memory` if out of memory for a fresh
/// page; no other function here does.
#[inline(always)]
#[tactic(auto, unfolding(model::specs::Outcome::outcome))]
pub fn take(heap: &mut Heap, thread: u32, words: u32) -> Result<Buffer, Refusal>
    ensures does { DoesThread lent heap.old thread (steps.Take words) result heap.new }
    ensures buffer { IfOk result (λ buffer. buffer_of_thread heap.new thread ≡ Some buffer) }
{
    thread_gate(heap, thread, &Step::Take(words))?;
    heap.take_row(thread, words)
}

/// Gives the thread's buffer back.
#[inline(always)]
#[tactic(auto, unfolding(model::specs::Outcome::outcome))]
pub fn give_back(heap: &mut Heap, thread: u32) -> Result<(), Refusal>
    ensures { DoesThread done heap.old thread steps.GiveBack result heap.new }
{
    thread_gate(heap, thread, &Step::GiveBack)?;
    heap.give_back_row(thread)
}

/// Allocates an object in the buffer, writes its reference to a register, and returns its birth.
#[inline(always)]
#[tactic(auto, unfolding(model::specs::Outcome::outcome))]
pub fn new_object(heap: &mut Heap, thread: u32, target: u32, layout: u32) -> Result<u64, Refusal>
    ensures { DoesThread answers.Birth heap.old thread (steps.New target layout) result heap.new }
{
    thread_gate(heap, thread, &Step::New { target, layout })?;
    heap.new_row(thread, target, layout)
}

/// Begins to load a reference field of an object into a register: opens a read barrier.
#[inline(always)]
#[tactic(auto, unfolding(model::specs::Outcome::outcome))]
pub fn load(
    heap: &mut Heap,
    thread: u32,
    target: u32,
    object: u32,
    field: u32,
) -> Result<(), Refusal>
    ensures { DoesThread loaded heap.old thread (steps.Load target object field) result heap.new }
{
    let step = Step::Load {
        target,
        object,
        field,
    };
    thread_gate(heap, thread, &step)?;
    barrier::load(heap, thread, target, object, field)
}

/// Begins to load a global into a register: opens a read barrier.
#[inline(always)]
#[tactic(auto, unfolding(model::specs::Outcome::outcome))]
pub fn load_global(heap: &mut Heap, thread: u32, target: u32, global: u32) -> Result<(), Refusal>
    ensures { DoesThread loaded heap.old thread (steps.LoadGlobal target global) result heap.new }
{
    thread_gate(heap, thread, &Step::LoadGlobal { target, global })?;
    barrier::load_global(heap, thread, target, global);
    Ok(())
}

/// Corrects or marks the reference in the barrier, and returns which trap was due.
#[inline(always)]
#[tactic(auto, unfolding(model::specs::Outcome::outcome))]
pub fn trap(heap: &mut Heap, thread: u32) -> Result<Trap, Refusal>
    ensures { DoesThread trapped heap.old thread steps.Trap result heap.new }
{
    thread_gate(heap, thread, &Step::Trap)?;
    barrier::trap(heap, thread)
}

/// Writes the reference in the barrier back to the place of the load. Returns false if that has changed.
#[inline(always)]
#[tactic(auto, unfolding(model::specs::Outcome::outcome))]
pub fn heal(heap: &mut Heap, thread: u32) -> Result<bool, Refusal>
    ensures { DoesThread healed heap.old thread steps.Heal result heap.new }
{
    thread_gate(heap, thread, &Step::Heal)?;
    barrier::heal(heap, thread)
}

/// Ends the load: its register gets the reference in the barrier, which closes.
#[inline(always)]
#[tactic(auto, unfolding(model::specs::Outcome::outcome))]
pub fn finish(heap: &mut Heap, thread: u32) -> Result<(), Refusal>
    ensures { DoesThread done heap.old thread steps.Finish result heap.new }
{
    thread_gate(heap, thread, &Step::Finish)?;
    barrier::finish(heap, thread)
}

/// Writes a register's reference to a field of an object.
#[inline(always)]
pub fn store(
    heap: &mut Heap,
    thread: u32,
    object: u32,
    field: u32,
    source: u32,
) -> Result<(), Refusal>
    ensures { DoesThread done heap.old thread (steps.Store object field source) result heap.new }
{
    match store_at_once(heap, thread, object, field, source) {
        true => Ok(()),
        false => store_by_tests(heap, thread, object, field, source),
    }
}

/// The same by all tests in their order, which determine the error.
#[cold]
#[inline(never)]
#[tactic(auto, unfolding(model::specs::Outcome::outcome))]
fn store_by_tests(
    heap: &mut Heap,
    thread: u32,
    object: u32,
    field: u32,
    source: u32,
) -> Result<(), Refusal>
    ensures { DoesThread done heap.old thread (steps.Store object field source) result heap.new }
{
    let step = Step::Store {
        object,
        field,
        source,
    };
    thread_gate(heap, thread, &step)?;
    heap.store_row(thread, object, field, source)
}

/// Writes a register's reference to a global.
#[inline(always)]
#[tactic(auto, unfolding(model::specs::Outcome::outcome))]
pub fn store_global(heap: &mut Heap, thread: u32, global: u32, source: u32) -> Result<(), Refusal>
    ensures { DoesThread done heap.old thread (steps.StoreGlobal global source) result heap.new }
{
    thread_gate(heap, thread, &Step::StoreGlobal { global, source })?;
    heap.store_global_row(thread, global, source)
}

/// Reads a data word of an object.
#[inline(always)]
pub fn datum(heap: &Heap, thread: u32, object: u32, index: u32) -> Result<u64, Refusal>
    ensures { DoesThread answers.Datum heap.now thread (steps.Datum object index) result heap.now }
{
    match datum_at_once(heap, thread, object, index) {
        Some(value) => Ok(value),
        None => datum_by_tests(heap, thread, object, index),
    }
}

/// The same by all tests in their order, which determine the error.
#[cold]
#[inline(never)]
#[tactic(auto, unfolding(model::specs::Outcome::outcome))]
fn datum_by_tests(heap: &Heap, thread: u32, object: u32, index: u32) -> Result<u64, Refusal>
    ensures { DoesThread answers.Datum heap.now thread (steps.Datum object index) result heap.now }
{
    thread_gate(heap, thread, &Step::Datum { object, index })?;
    heap.datum_row(thread, object, index)
}

/// Writes a data word of an object.
#[inline(always)]
pub fn set_datum(
    heap: &mut Heap,
    thread: u32,
    object: u32,
    index: u32,
    value: u64,
) -> Result<(), Refusal>
    ensures { DoesThread done heap.old thread (steps.SetDatum object index value) result heap.new }
{
    match set_datum_at_once(heap, thread, object, index, value) {
        true => Ok(()),
        false => set_datum_by_tests(heap, thread, object, index, value),
    }
}

/// The same by all tests in their order, which determine the error.
#[cold]
#[inline(never)]
#[tactic(auto, unfolding(model::specs::Outcome::outcome))]
fn set_datum_by_tests(
    heap: &mut Heap,
    thread: u32,
    object: u32,
    index: u32,
    value: u64,
) -> Result<(), Refusal>
    ensures { DoesThread done heap.old thread (steps.SetDatum object index value) result heap.new }
{
    let step = Step::SetDatum {
        object,
        index,
        value,
    };
    thread_gate(heap, thread, &step)?;
    heap.set_datum_row(thread, object, index, value)
}

/// Returns whether two registers refer to the same object, or are both null.
#[inline(always)]
#[tactic(auto, unfolding(model::specs::Outcome::outcome))]
pub fn same(heap: &Heap, thread: u32, left: u32, right: u32) -> Result<bool, Refusal>
    ensures { DoesThread answers.Truth heap.now thread (steps.Same left right) result heap.now }
{
    thread_gate(heap, thread, &Step::Same { left, right })?;
    heap.same_row(thread, left, right)
}

/// Returns whether a register is null.
#[inline(always)]
#[tactic(auto, unfolding(model::specs::Outcome::outcome))]
pub fn is_null(heap: &Heap, thread: u32, register: u32) -> Result<bool, Refusal>
    ensures { DoesThread answers.Truth heap.now thread (steps.IsNull register) result heap.now }
{
    thread_gate(heap, thread, &Step::IsNull(register))?;
    Ok(heap.is_null_row(thread, register))
}

/// Copies a register's reference to another register.
#[inline(always)]
#[tactic(auto, unfolding(model::specs::Outcome::outcome))]
pub fn copy_register(heap: &mut Heap, thread: u32, target: u32, source: u32) -> Result<(), Refusal>
    ensures { DoesThread done heap.old thread (steps.CopyReg target source) result heap.new }
{
    thread_gate(heap, thread, &Step::CopyReg { target, source })?;
    heap.copy_register_row(thread, target, source);
    Ok(())
}

/// Makes a register null.
#[inline(always)]
#[tactic(auto, unfolding(model::specs::Outcome::outcome))]
pub fn clear_register(heap: &mut Heap, thread: u32, target: u32) -> Result<(), Refusal>
    ensures { DoesThread done heap.old thread (steps.ClearReg target) result heap.new }
{
    thread_gate(heap, thread, &Step::ClearReg(target))?;
    heap.clear_register_row(thread, target);
    Ok(())
}

/// Crosses the open checkpoint.
#[inline(always)]
#[tactic(auto, unfolding(model::specs::Outcome::outcome))]
pub fn cross(heap: &mut Heap, thread: u32) -> Result<(), Refusal>
    ensures { DoesThread done heap.old thread steps.Cross result heap.new }
{
    thread_gate(heap, thread, &Step::Cross)?;
    checkpoint::cross(heap, thread)
}

/// Corrects a register that refers to a protected page. Returns whether it did.
#[inline(always)]
#[tactic(auto, unfolding(model::specs::Outcome::outcome))]
pub fn scrub(heap: &mut Heap, thread: u32, register: u32) -> Result<bool, Refusal>
    ensures { DoesThread scrubbed heap.old thread (steps.Scrub register) result heap.new }
{
    thread_gate(heap, thread, &Step::Scrub(register))?;
    checkpoint::scrub(heap, thread, register)
}

/// Parks the thread: it may do nothing but `unpark`.
#[inline(always)]
#[tactic(auto, unfolding(model::specs::Outcome::outcome))]
pub fn park(heap: &mut Heap, thread: u32) -> Result<(), Refusal>
    ensures { DoesThread done heap.old thread steps.Park result heap.new }
{
    thread_gate(heap, thread, &Step::Park)?;
    checkpoint::park(heap, thread);
    Ok(())
}

/// Lets the thread run again.
#[inline(always)]
#[tactic(auto, unfolding(model::specs::Outcome::outcome))]
pub fn unpark(heap: &mut Heap, thread: u32) -> Result<(), Refusal>
    ensures { DoesThread done heap.old thread steps.Unpark result heap.new }
{
    thread_gate(heap, thread, &Step::Unpark)?;
    checkpoint::unpark(heap, thread)
}
