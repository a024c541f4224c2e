//! The data of objects.

ghost use Rattle.std.specs.Prelude.{◌≡◌, ◌/◌, length};
ghost use Rattle.model.specs.Saying.{done};
ghost use Rattle.model.specs.declared.steps.Step.TheVariants as steps;
ghost use Rattle.model.specs.declared.steps.Answer.TheVariants as answers;
ghost use Rattle.foreign.specs.Calls.{Calls, CallsStep, CopiedData, GivesStep, ReadBytes, ReadMany, WroteBytes};
ghost use Rattle.foreign.specs.Calls.{WroteMany};
ghost use Rattle.foreign.specs.Which.{copy_data_code, step_code};

use crate::codes::{DONE, NO_HEAP};
use crate::handle::Handle;
use crate::refusals::{get_code, set_code};
use crate::which::copy_data_code;
use collecting::Collect;
use managed::Mutate;

/// Reads a data word by its tests, if it isn't read at once.
#[tactic(auto, using(crate::proofs::Calling::looked))]
#[cold]
#[inline(never)]
fn get_by_tests(heap: &mut Handle, thread: u32, object: u32, index: u32, value: &mut u64) -> u32
    ensures { GivesStep answers.Datum thread (steps.Datum object index) (λ x. value.new ≡ x)
        (value.new ≡ value.old) heap.old.slot.held result heap.new.slot.held }
{
    let Some(held) = heap.lend() else {
        return NO_HEAP;
    };
    match held.heap.datum(thread, object, index) {
        Ok(datum) => {
            *value = datum;
            DONE
        }
        Err(refusal) => get_code(&held.heap, object, index, refusal),
    }
}

/// Reads a data word of an object. Fails as `Mutate::datum` does.
#[unsafe(no_mangle)]
pub extern "C" fn pauseless_get(
    heap: &mut Handle,
    thread: u32,
    object: u32,
    index: u32,
    value: &mut u64,
) -> u32
    ensures { GivesStep answers.Datum thread (steps.Datum object index) (λ x. value.new ≡ x)
        (value.new ≡ value.old) heap.old.slot.held result heap.new.slot.held }
{
    let Some(held) = heap.lend() else {
        return get_by_tests(heap, thread, object, index, value);
    };
    if let Some(datum) = held.heap.datum_at_once(thread, object, index) {
        *value = datum;
        return DONE;
    }
    get_by_tests(heap, thread, object, index, value)
}

/// Writes a data word by its tests, if it isn't written at once.
#[tactic(auto, using(crate::proofs::Calling::stepped))]
#[cold]
#[inline(never)]
fn set_by_tests(heap: &mut Handle, thread: u32, object: u32, index: u32, value: u64) -> u32
    ensures { CallsStep done thread (steps.SetDatum object index value) heap.old.slot.held result
        heap.new.slot.held }
{
    let Some(held) = heap.lend() else {
        return NO_HEAP;
    };
    match held.heap.set_datum(thread, object, index, value) {
        Ok(()) => DONE,
        Err(refusal) => set_code(&held.heap, object, index, value, refusal),
    }
}

/// Writes a data word of an object. Fails as `Mutate::set_datum` does.
#[unsafe(no_mangle)]
pub extern "C" fn pauseless_set(
    heap: &mut Handle,
    thread: u32,
    object: u32,
    index: u32,
    value: u64,
) -> u32
    ensures { CallsStep done thread (steps.SetDatum object index value) heap.old.slot.held result
        heap.new.slot.held }
{
    let Some(held) = heap.lend() else {
        return set_by_tests(heap, thread, object, index, value);
    };
    if held.heap.set_datum_at_once(thread, object, index, value) {
        return DONE;
    }
    set_by_tests(heap, thread, object, index, value)
}

/// Reads data words of an object, from word `first` on, until `values` is full. Fails as `Collect::get_many` does,
/// and then `values` is unspecified.
#[tactic(auto, using(crate::proofs::Calling::called))]
#[unsafe(no_mangle)]
pub extern "C" fn pauseless_get_many(
    heap: &mut Handle,
    thread: u32,
    object: u32,
    first: u32,
    values: &mut [u64],
) -> u32
    ensures len { length values.new ≡ length values.old }
    ensures call { Calls (step_code (steps.Datum object first)) (ReadMany thread object first values.new)
        heap.old.slot.held result heap.new.slot.held }
{
    let Some(held) = heap.lend() else {
        return NO_HEAP;
    };
    match held.heap.get_many(thread, object, first, values) {
        Ok(()) => DONE,
        Err(refusal) => get_code(&held.heap, object, first, refusal),
    }
}

/// Writes data words of an object, from word `first` on. Fails as `Collect::set_many` does.
#[tactic(auto, using(crate::proofs::Calling::called))]
#[unsafe(no_mangle)]
pub extern "C" fn pauseless_set_many(
    heap: &mut Handle,
    thread: u32,
    object: u32,
    first: u32,
    values: &[u64],
) -> u32
    ensures { Calls (step_code (steps.Datum object first)) (WroteMany thread object first values.now)
        heap.old.slot.held result heap.new.slot.held }
{
    let Some(held) = heap.lend() else {
        return NO_HEAP;
    };
    match held.heap.set_many(thread, object, first, values) {
        Ok(()) => DONE,
        Err(refusal) => get_code(&held.heap, object, first, refusal),
    }
}

/// Copies data words of one object to another, or within one. Fails as `Collect::copy_data` does.
#[tactic(auto, using(crate::proofs::Calling::called))]
#[unsafe(no_mangle)]
pub extern "C" fn pauseless_copy_data(
    heap: &mut Handle,
    thread: u32,
    target: u32,
    first: u32,
    source: u32,
    first_of_source: u32,
    count: usize,
) -> u32
    ensures { Calls (copy_data_code target source) (CopiedData thread target first source first_of_source count)
        heap.old.slot.held result heap.new.slot.held }
{
    let Some(held) = heap.lend() else {
        return NO_HEAP;
    };
    match held
        .heap
        .copy_data(thread, target, first, source, first_of_source, count)
    {
        Ok(()) => DONE,
        Err(refusal) => copy_data_code(&held.heap, target, source, refusal),
    }
}

/// Reads bytes of an object's data, from byte `offset` on, until `bytes` is full. Fails as `Collect::read_bytes`
/// does, and then `bytes` is unspecified.
#[tactic(auto, using(crate::proofs::Calling::called))]
#[unsafe(no_mangle)]
pub extern "C" fn pauseless_read_bytes(
    heap: &mut Handle,
    thread: u32,
    object: u32,
    offset: u32,
    bytes: &mut [u8],
) -> u32
    ensures len { length bytes.new ≡ length bytes.old }
    ensures call { Calls (step_code (steps.Datum object (offset / 8))) (ReadBytes thread object offset bytes.new)
        heap.old.slot.held result heap.new.slot.held }
{
    let Some(held) = heap.lend() else {
        return NO_HEAP;
    };
    match held.heap.read_bytes(thread, object, offset, bytes) {
        Ok(()) => DONE,
        Err(refusal) => get_code(&held.heap, object, offset / 8, refusal),
    }
}

/// Writes bytes of an object's data, from byte `offset` on. Fails as `Collect::write_bytes` does.
#[tactic(auto, using(crate::proofs::Calling::called))]
#[unsafe(no_mangle)]
pub extern "C" fn pauseless_write_bytes(
    heap: &mut Handle,
    thread: u32,
    object: u32,
    offset: u32,
    bytes: &[u8],
) -> u32
    ensures { Calls (step_code (steps.Datum object (offset / 8))) (WroteBytes thread object offset bytes.now)
        heap.old.slot.held result heap.new.slot.held }
{
    let Some(held) = heap.lend() else {
        return NO_HEAP;
    };
    match held.heap.write_bytes(thread, object, offset, bytes) {
        Ok(()) => DONE,
        Err(refusal) => get_code(&held.heap, object, offset / 8, refusal),
    }
}
