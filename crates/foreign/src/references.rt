//! References: loads, stores, and operations on registers.

ghost use Rattle.std.specs.Prelude.{◌≡◌};
ghost use Rattle.model.specs.Saying.{done};
ghost use Rattle.model.specs.declared.steps.Step.TheVariants as steps;
ghost use Rattle.model.specs.declared.steps.Answer.TheVariants as answers;
ghost use Rattle.foreign.specs.Calls.{CallsLoad, CallsStep, GivesStep};
ghost use Rattle.foreign.specs.Batches.{LoadsEach, code_of_loads, done_of_loads};

use crate::codes::{DONE, NO_HEAP};
use crate::handle::Handle;
use crate::refusals::{
    clear_code, copy_code, is_null_code, load_code, load_global_code, same_code, store_code,
    store_global_code,
};
use crate::which::loads_code;
use managed::{FieldLoad, LoadsFault, ManagedHeap, Mutate};
use std::alloc::Global;

/// Returns the code of several loads of an object, and writes for C how many are done.
#[inline(always)]
fn give_loads(
    heap: &ManagedHeap,
    object: u32,
    fields: &[FieldLoad],
    answer: Result<(), LoadsFault>,
    done: &mut u64,
) -> u32
    ensures code { result ≡ code_of_loads object fields.now heap.now answer }
    ensures done { done.new ≡ done_of_loads fields.now answer }
{
    match answer {
        Ok(()) => {
            *done = fields.len() as u64;
            DONE
        }
        Err(fault) => {
            *done = fault.done as u64;
            loads_code(heap, object, fields.get(fault.done).copied(), fault.refusal)
        }
    }
}

/// Does a load by its steps, if it isn't done at once.
#[tactic(auto, using(crate::proofs::Calling::loaded))]
#[cold]
#[inline(never)]
fn load_by_steps(heap: &mut Handle, thread: u32, target: u32, object: u32, field: u32) -> u32
    ensures { CallsLoad thread (steps.Load target object field) heap.old.slot.held result heap.new.slot.held }
{
    let Some(held) = heap.lend() else {
        return NO_HEAP;
    };
    match held.heap.read(thread, target, object, field) {
        Ok(()) => DONE,
        Err(refusal) => load_code(&held.heap, target, object, field, refusal),
    }
}

/// Loads a reference field of an object into a register, completely. Fails as `Collect::read` does.
#[unsafe(no_mangle)]
pub extern "C" fn pauseless_load(
    heap: &mut Handle,
    thread: u32,
    target: u32,
    object: u32,
    field: u32,
) -> u32
    ensures { CallsLoad thread (steps.Load target object field) heap.old.slot.held result heap.new.slot.held }
{
    let Some(held) = heap.lend() else {
        return load_by_steps(heap, thread, target, object, field);
    };
    if held.heap.read_at_once(thread, target, object, field) {
        return DONE;
    }
    load_by_steps(heap, thread, target, object, field)
}

/// Loads several reference fields of an object into registers, each completely, in their order, and writes for C how
/// many are done. Stops at the first load that fails, and fails as `Collect::read` does.
#[tactic(auto, using(crate::proofs::Calling::loaded_each))]
#[unsafe(no_mangle)]
pub extern "C" fn pauseless_loads(
    heap: &mut Handle,
    thread: u32,
    object: u32,
    fields: &[FieldLoad],
    done: &mut u64,
) -> u32
    ensures { LoadsEach thread object fields.now heap.old.slot.held result done.new heap.new.slot.held }
{
    let Some(held) = heap.lend() else {
        *done = 0;
        return NO_HEAP;
    };
    let answer = held.heap.loads(thread, object, fields);
    give_loads(&held.heap, object, fields, answer, done)
}

/// Does a store by its tests, if it isn't done at once.
#[tactic(auto, using(crate::proofs::Calling::stepped))]
#[cold]
#[inline(never)]
fn store_by_tests(heap: &mut Handle, thread: u32, object: u32, field: u32, source: u32) -> u32
    ensures { CallsStep done thread (steps.Store object field source) heap.old.slot.held result
        heap.new.slot.held }
{
    let Some(held) = heap.lend() else {
        return NO_HEAP;
    };
    match held.heap.store(thread, object, field, source) {
        Ok(()) => DONE,
        Err(refusal) => store_code(&held.heap, object, field, source, refusal),
    }
}

/// Stores a register's reference in a field of an object. Fails as `Mutate::store` does.
#[unsafe(no_mangle)]
pub extern "C" fn pauseless_store(
    heap: &mut Handle,
    thread: u32,
    object: u32,
    field: u32,
    source: u32,
) -> u32
    ensures { CallsStep done thread (steps.Store object field source) heap.old.slot.held result
        heap.new.slot.held }
{
    let Some(held) = heap.lend() else {
        return store_by_tests(heap, thread, object, field, source);
    };
    if held.heap.store_at_once(thread, object, field, source) {
        return DONE;
    }
    store_by_tests(heap, thread, object, field, source)
}

/// Loads a global into a register, completely. Fails as `Collect::read_global` does.
#[tactic(auto, using(crate::proofs::Calling::loaded))]
#[unsafe(no_mangle)]
pub extern "C" fn pauseless_load_global(
    heap: &mut Handle,
    thread: u32,
    target: u32,
    global: u32,
) -> u32
    ensures { CallsLoad thread (steps.LoadGlobal target global) heap.old.slot.held result heap.new.slot.held }
{
    let Some(held) = heap.lend() else {
        return NO_HEAP;
    };
    match held.heap.read_global(thread, target, global) {
        Ok(()) => DONE,
        Err(refusal) => load_global_code(&held.heap, target, global, refusal),
    }
}

/// Stores a register's reference in a global. Fails as `Mutate::store_global` does.
#[tactic(auto, using(crate::proofs::Calling::stepped))]
#[unsafe(no_mangle)]
pub extern "C" fn pauseless_store_global(
    heap: &mut Handle,
    thread: u32,
    global: u32,
    source: u32,
) -> u32
    ensures { CallsStep done thread (steps.StoreGlobal global source) heap.old.slot.held result
        heap.new.slot.held }
{
    let Some(held) = heap.lend() else {
        return NO_HEAP;
    };
    match held.heap.store_global(thread, global, source) {
        Ok(()) => DONE,
        Err(refusal) => store_global_code(&held.heap, global, source, refusal),
    }
}

/// Returns the code of a copy of a register that failed, by repeating it, which fails again.
#[tactic(auto, using(crate::proofs::Calling::stepped))]
#[cold]
#[inline(never)]
fn copy_refused(heap: &mut Handle, thread: u32, target: u32, source: u32) -> u32
    ensures { CallsStep done thread (steps.CopyReg target source) heap.old.slot.held result heap.new.slot.held }
{
    let Some(held) = heap.lend() else {
        return NO_HEAP;
    };
    match held.heap.copy_register(thread, target, source) {
        Ok(()) => DONE,
        Err(refusal) => copy_code(&held.heap, target, source, refusal),
    }
}

/// Copies a register's reference to another register. Fails as `Mutate::copy_register` does.
#[tactic(auto, using(crate::proofs::Calling::stepped))]
#[unsafe(no_mangle)]
pub extern "C" fn pauseless_copy(heap: &mut Handle, thread: u32, target: u32, source: u32) -> u32
    ensures { CallsStep done thread (steps.CopyReg target source) heap.old.slot.held result heap.new.slot.held }
{
    let Some(held) = heap.lend() else {
        return copy_refused(heap, thread, target, source);
    };
    match held.heap.copy_register(thread, target, source) {
        Ok(()) => DONE,
        Err(_) => copy_refused(heap, thread, target, source),
    }
}

/// Returns the code of clearing a register that failed, by repeating it, which fails again.
#[tactic(auto, using(crate::proofs::Calling::stepped))]
#[cold]
#[inline(never)]
fn clear_refused(heap: &mut Handle, thread: u32, target: u32) -> u32
    ensures { CallsStep done thread (steps.ClearReg target) heap.old.slot.held result heap.new.slot.held }
{
    let Some(held) = heap.lend() else {
        return NO_HEAP;
    };
    match held.heap.clear_register(thread, target) {
        Ok(()) => DONE,
        Err(refusal) => clear_code(&held.heap, target, refusal),
    }
}

/// Makes a register null. Fails as `Mutate::clear_register` does.
#[tactic(auto, using(crate::proofs::Calling::stepped))]
#[unsafe(no_mangle)]
pub extern "C" fn pauseless_clear(heap: &mut Handle, thread: u32, target: u32) -> u32
    ensures { CallsStep done thread (steps.ClearReg target) heap.old.slot.held result heap.new.slot.held }
{
    let Some(held) = heap.lend() else {
        return clear_refused(heap, thread, target);
    };
    match held.heap.clear_register(thread, target) {
        Ok(()) => DONE,
        Err(_) => clear_refused(heap, thread, target),
    }
}

/// Returns the code of a comparison that failed, by repeating it, which fails again.
#[tactic(auto, using(crate::proofs::Calling::looked))]
#[cold]
#[inline(never)]
fn same_refused(heap: &mut Handle, thread: u32, left: u32, right: u32, is_so: &mut bool) -> u32
    ensures { GivesStep answers.Truth thread (steps.Same left right) (λ x. is_so.new ≡ x)
        (is_so.new ≡ is_so.old) heap.old.slot.held result heap.new.slot.held }
{
    let Some(held) = heap.lend() else {
        return NO_HEAP;
    };
    match held.heap.same(thread, left, right) {
        Ok(truth) => {
            *is_so = truth;
            DONE
        }
        Err(refusal) => same_code(&held.heap, left, right, refusal),
    }
}

/// Writes whether two registers refer to the same object, or are both null. Fails as `Mutate::same` does.
#[tactic(auto, using(crate::proofs::Calling::looked))]
#[unsafe(no_mangle)]
pub extern "C" fn pauseless_same(
    heap: &mut Handle,
    thread: u32,
    left: u32,
    right: u32,
    is_so: &mut bool,
) -> u32
    ensures { GivesStep answers.Truth thread (steps.Same left right) (λ x. is_so.new ≡ x)
        (is_so.new ≡ is_so.old) heap.old.slot.held result heap.new.slot.held }
{
    let Some(held) = heap.lend() else {
        return same_refused(heap, thread, left, right, is_so);
    };
    match held.heap.same(thread, left, right) {
        Ok(truth) => {
            *is_so = truth;
            DONE
        }
        Err(_) => same_refused(heap, thread, left, right, is_so),
    }
}

/// Returns the code of a test for null that failed, by repeating it, which fails again.
#[tactic(auto, using(crate::proofs::Calling::looked))]
#[cold]
#[inline(never)]
fn is_null_refused(heap: &mut Handle, thread: u32, register: u32, is_so: &mut bool) -> u32
    ensures { GivesStep answers.Truth thread (steps.IsNull register) (λ x. is_so.new ≡ x)
        (is_so.new ≡ is_so.old) heap.old.slot.held result heap.new.slot.held }
{
    let Some(held) = heap.lend() else {
        return NO_HEAP;
    };
    match held.heap.is_null(thread, register) {
        Ok(truth) => {
            *is_so = truth;
            DONE
        }
        Err(refusal) => is_null_code(&held.heap, register, refusal),
    }
}

/// Writes whether a register is null. Fails as `Mutate::is_null` does.
#[tactic(auto, using(crate::proofs::Calling::looked))]
#[unsafe(no_mangle)]
pub extern "C" fn pauseless_is_null(
    heap: &mut Handle,
    thread: u32,
    register: u32,
    is_so: &mut bool,
) -> u32
    ensures { GivesStep answers.Truth thread (steps.IsNull register) (λ x. is_so.new ≡ x)
        (is_so.new ≡ is_so.old) heap.old.slot.held result heap.new.slot.held }
{
    let Some(held) = heap.lend() else {
        return is_null_refused(heap, thread, register, is_so);
    };
    match held.heap.is_null(thread, register) {
        Ok(truth) => {
            *is_so = truth;
            DONE
        }
        Err(_) => is_null_refused(heap, thread, register, is_so),
    }
}
