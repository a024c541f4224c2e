//! The codes of calls that failed, by which number names nothing. None of it is on the path of a call that is done.

ghost use Rattle.std.specs.Prelude.{◌≡◌, ◌||◌, slice_get};
ghost use Rattle.std.specs.List.{list_any};
ghost use Rattle.model.specs.Outcome.{no_register};
ghost use Rattle.foreign.specs.Codes.{class_of, refusal_code};
ghost use Rattle.foreign.specs.Which.{copy_data_code, copy_data_number, fill_code, fill_number, is_larger, is_place};
ghost use Rattle.foreign.specs.Which.{kind_code, lacking, load_code, look_code};
ghost use Rattle.foreign.specs.Which.{make_code, no_thread, place_code, register_number, step_code, view_code};

use crate::codes::{BAD_INDEX, OBJECT_TOO_LARGE, number_code, refusal_code};
use collecting::{Number, wrong_number};
use heap::Heap;
use managed::{FieldLoad, ManagedHeap};
use model::{Refusal, Step};

/// Returns the code of an error of a thread's step, after it: which number of the step names nothing.
#[cold]
#[inline(never)]
#[tactic(auto, unfolding(crate::specs::Codes::refusal_code))]
pub(crate) fn step_code(heap: &ManagedHeap, step: Step, refusal: Refusal) -> u32
    ensures code { result ≡ step_code step heap.now refusal }
    ensures class { class_of result ≡ refusal_code refusal }
{
    match refusal {
        Refusal::BadIndex => match wrong_number(heap.heap(), &step) {
            Some(number) => number_code(number),
            None => BAD_INDEX,
        },
        other => refusal_code(other),
    }
}

/// Returns whether an object of a layout is larger than `words`.
fn is_larger(heap: &Heap, words: u32, layout: u32) -> bool
    ensures { result ≡ is_larger words (slice_get heap.now.config.layouts layout) }
{
    match heap.config().layouts.get(layout) {
        None => false,
        Some(shape) => shape.size() > words,
    }
}

/// Returns the code of an error of making an object in buffers of `words`.
#[cold]
#[inline(never)]
pub(crate) fn make_code(
    heap: &ManagedHeap,
    words: u32,
    target: u32,
    layout: u32,
    refusal: Refusal,
) -> u32
    ensures { result ≡ make_code words target layout heap.now refusal }
{
    match refusal {
        Refusal::NoRoom => {
            if is_larger(heap.heap(), words, layout) {
                OBJECT_TOO_LARGE
            } else {
                refusal_code(Refusal::NoRoom)
            }
        }
        other => step_code(heap, Step::New { target, layout }, other),
    }
}

/// Returns whether a heap has no such register.
#[tactic(auto, unfolding(model::specs::Outcome::no_register))]
fn no_register(heap: &Heap, register: u32) -> bool
    ensures { result ≡ no_register heap.now register }
{
    register >= heap.config().registers
}

/// Returns what a layout lacks for `refs` references, if it is there: these, or else data words.
fn lacking(heap: &Heap, layout: u32, refs: usize) -> Number
    ensures { result ≡ lacking (slice_get heap.now.config.layouts layout) refs }
{
    match heap.config().layouts.get(layout) {
        None => Number::Layout,
        Some(shape) => {
            if refs > usize::from(shape.refs) {
                Number::Field
            } else {
                Number::Datum
            }
        }
    }
}

/// Returns whether one of these registers doesn't exist.
fn lacks_register(heap: &Heap, registers: &[u32]) -> bool
    ensures { result ≡ list_any (no_register heap.now) registers.now }
{
    registers
        .iter()
        .any(|register| no_register(heap, *register))
}

/// Returns which number names nothing if an object is to be made and filled.
fn fill_number(heap: &Heap, target: u32, layout: u32, sources: &[u32]) -> Number
    ensures { result ≡ fill_number heap.now target layout sources.now }
{
    if no_register(heap, target) || lacks_register(heap, sources) {
        Number::Register
    } else {
        lacking(heap, layout, sources.len())
    }
}

/// Returns the code of an error of making an object in buffers of `words`, and filling it.
#[cold]
#[inline(never)]
pub(crate) fn fill_code(
    heap: &ManagedHeap,
    words: u32,
    target: u32,
    layout: u32,
    sources: &[u32],
    refusal: Refusal,
) -> u32
    ensures { result ≡ fill_code words target layout sources.now heap.now refusal }
{
    match refusal {
        Refusal::BadIndex => number_code(fill_number(heap.heap(), target, layout, sources)),
        other => make_code(heap, words, target, layout, other),
    }
}

/// Returns which number names nothing if data words of one object are to be copied to another.
fn copy_data_number(heap: &Heap, target: u32, source: u32) -> Number
    ensures { result ≡ copy_data_number heap.now target source }
{
    if no_register(heap, target) || no_register(heap, source) {
        Number::Register
    } else {
        Number::Datum
    }
}

/// Returns the code of an error of copying data words of one object to another.
#[cold]
#[inline(never)]
pub(crate) fn copy_data_code(heap: &ManagedHeap, target: u32, source: u32, refusal: Refusal) -> u32
    ensures { result ≡ copy_data_code target source heap.now refusal }
{
    match refusal {
        Refusal::BadIndex => number_code(copy_data_number(heap.heap(), target, source)),
        other => refusal_code(other),
    }
}

/// Returns the code of an error of one of several loads of an object.
#[cold]
#[inline(never)]
pub(crate) fn loads_code(
    heap: &ManagedHeap,
    object: u32,
    load: Option<FieldLoad>,
    refusal: Refusal,
) -> u32
    ensures { result ≡ load_code object load heap.now refusal }
{
    let Some(FieldLoad { target, field }) = load else {
        return refusal_code(refusal);
    };
    let step = Step::Load {
        target,
        object,
        field,
    };
    step_code(heap, step, refusal)
}

/// Returns whether a heap has no such thread.
fn no_thread(heap: &Heap, thread: u32) -> bool
    ensures { result ≡ no_thread heap.now thread }
{
    thread as usize >= heap.threads().len()
}

/// Returns which number names nothing if a register of a thread is looked up that doesn't exist.
fn register_number(heap: &Heap, thread: u32) -> Number
    ensures { result ≡ register_number heap.now thread }
{
    if no_thread(heap, thread) {
        Number::Thread
    } else {
        Number::Register
    }
}

/// Returns the code of an error of looking up the object that a register of a thread names.
#[cold]
#[inline(never)]
pub(crate) fn look_code(heap: &ManagedHeap, thread: u32, register: u32, refusal: Refusal) -> u32
    ensures { result ≡ look_code thread register heap.now refusal }
{
    let inside = heap.heap();
    match refusal {
        Refusal::Null => {
            if no_thread(inside, thread) || no_register(inside, register) {
                number_code(register_number(inside, thread))
            } else {
                refusal_code(Refusal::Null)
            }
        }
        other => refusal_code(other),
    }
}

/// Returns the code of an error of finding the place of the object that a register of a thread names.
#[cold]
#[inline(never)]
pub(crate) fn view_code(heap: &ManagedHeap, thread: u32, refusal: Refusal) -> u32
    ensures { result ≡ view_code thread heap.now refusal }
{
    match refusal {
        Refusal::BadIndex => number_code(register_number(heap.heap(), thread)),
        other => refusal_code(other),
    }
}

/// Returns the code of an error of a lookup by a number of one kind.
#[cold]
#[inline(never)]
pub(crate) fn kind_code(heap: &ManagedHeap, number: Number, refusal: Refusal) -> u32
    ensures { result ≡ kind_code number heap.now refusal }
{
    let _heap = heap;
    match refusal {
        Refusal::BadIndex => number_code(number),
        other => refusal_code(other),
    }
}

/// As `kind_code` for the object at a place, if an object can be there.
#[cold]
#[inline(never)]
pub(crate) fn place_code(heap: &ManagedHeap, number: Number, place: u64, refusal: Refusal) -> u32
    ensures { result ≡ place_code number place heap.now refusal }
{
    if is_place(place) {
        kind_code(heap, number, refusal)
    } else {
        refusal_code(refusal)
    }
}

/// The first number that is no address.
const PLACES: u64 = 1 << 40;

/// Returns whether an object may be at this place.
fn is_place(place: u64) -> bool
    ensures { result ≡ is_place place }
{
    place > 0 && place < PLACES
}
