//! The codes of steps that are rejected. Each is a function of its own, called last, so that an export needs no stack
//! space for a step, which would be zeroed at its start.

ghost use Rattle.std.specs.Prelude.{◌≡◌};
ghost use Rattle.model.specs.declared.steps.Step.TheVariants as steps;
ghost use Rattle.foreign.specs.Which.{step_code};

use crate::which::step_code;
use managed::ManagedHeap;
use model::{Refusal, Step};

/// Returns the code of an error of `Take`.
#[cold]
#[inline(never)]
pub(crate) fn take_code(heap: &ManagedHeap, words: u32, refusal: Refusal) -> u32
    ensures { result ≡ step_code (steps.Take words) heap.now refusal }
{
    step_code(heap, Step::Take(words), refusal)
}

/// Returns the code of an error of `GiveBack`.
#[cold]
#[inline(never)]
pub(crate) fn give_back_code(heap: &ManagedHeap, refusal: Refusal) -> u32
    ensures { result ≡ step_code steps.GiveBack heap.now refusal }
{
    step_code(heap, Step::GiveBack, refusal)
}

/// Returns the code of an error of `New`.
#[cold]
#[inline(never)]
pub(crate) fn new_object_code(heap: &ManagedHeap, target: u32, layout: u32, refusal: Refusal) -> u32
    ensures { result ≡ step_code (steps.New target layout) heap.now refusal }
{
    step_code(heap, Step::New { target, layout }, refusal)
}

/// Returns the code of an error of `Load`.
#[cold]
#[inline(never)]
pub(crate) fn load_code(
    heap: &ManagedHeap,
    target: u32,
    object: u32,
    field: u32,
    refusal: Refusal,
) -> u32
    ensures { result ≡ step_code (steps.Load target object field) heap.now refusal }
{
    step_code(
        heap,
        Step::Load {
            target,
            object,
            field,
        },
        refusal,
    )
}

/// Returns the code of an error of `LoadGlobal`.
#[cold]
#[inline(never)]
pub(crate) fn load_global_code(
    heap: &ManagedHeap,
    target: u32,
    global: u32,
    refusal: Refusal,
) -> u32
    ensures { result ≡ step_code (steps.LoadGlobal target global) heap.now refusal }
{
    step_code(heap, Step::LoadGlobal { target, global }, refusal)
}

/// Returns the code of an error of `Store`.
#[cold]
#[inline(never)]
pub(crate) fn store_code(
    heap: &ManagedHeap,
    object: u32,
    field: u32,
    source: u32,
    refusal: Refusal,
) -> u32
    ensures { result ≡ step_code (steps.Store object field source) heap.now refusal }
{
    step_code(
        heap,
        Step::Store {
            object,
            field,
            source,
        },
        refusal,
    )
}

/// Returns the code of an error of `StoreGlobal`.
#[cold]
#[inline(never)]
pub(crate) fn store_global_code(
    heap: &ManagedHeap,
    global: u32,
    source: u32,
    refusal: Refusal,
) -> u32
    ensures { result ≡ step_code (steps.StoreGlobal global source) heap.now refusal }
{
    step_code(heap, Step::StoreGlobal { global, source }, refusal)
}

/// Returns the code of an error of `CopyReg`.
#[cold]
#[inline(never)]
pub(crate) fn copy_code(heap: &ManagedHeap, target: u32, source: u32, refusal: Refusal) -> u32
    ensures { result ≡ step_code (steps.CopyReg target source) heap.now refusal }
{
    step_code(heap, Step::CopyReg { target, source }, refusal)
}

/// Returns the code of an error of `ClearReg`.
#[cold]
#[inline(never)]
pub(crate) fn clear_code(heap: &ManagedHeap, target: u32, refusal: Refusal) -> u32
    ensures { result ≡ step_code (steps.ClearReg target) heap.now refusal }
{
    step_code(heap, Step::ClearReg(target), refusal)
}

/// Returns the code of an error of `Same`.
#[cold]
#[inline(never)]
pub(crate) fn same_code(heap: &ManagedHeap, left: u32, right: u32, refusal: Refusal) -> u32
    ensures { result ≡ step_code (steps.Same left right) heap.now refusal }
{
    step_code(heap, Step::Same { left, right }, refusal)
}

/// Returns the code of an error of `IsNull`.
#[cold]
#[inline(never)]
pub(crate) fn is_null_code(heap: &ManagedHeap, register: u32, refusal: Refusal) -> u32
    ensures { result ≡ step_code (steps.IsNull register) heap.now refusal }
{
    step_code(heap, Step::IsNull(register), refusal)
}

/// Returns the code of an error of `Datum`.
#[cold]
#[inline(never)]
pub(crate) fn get_code(heap: &ManagedHeap, object: u32, index: u32, refusal: Refusal) -> u32
    ensures { result ≡ step_code (steps.Datum object index) heap.now refusal }
{
    step_code(heap, Step::Datum { object, index }, refusal)
}

/// Returns the code of an error of `SetDatum`.
#[cold]
#[inline(never)]
pub(crate) fn set_code(
    heap: &ManagedHeap,
    object: u32,
    index: u32,
    value: u64,
    refusal: Refusal,
) -> u32
    ensures { result ≡ step_code (steps.SetDatum object index value) heap.now refusal }
{
    step_code(
        heap,
        Step::SetDatum {
            object,
            index,
            value,
        },
        refusal,
    )
}
