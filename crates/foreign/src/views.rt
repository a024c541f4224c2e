//! The complete heap, read in its current state: objects by their places, which are valid until the heap changes.

ghost use Rattle.std.specs.Prelude.{◌≡◌};
ghost use Rattle.collecting.specs.declared.numbers.Number.TheVariants as numbers;
ghost use Rattle.foreign.specs.Calls.{Gives, IsSeen};
ghost use Rattle.foreign.specs.Views.{IsPlace, ReadsPlace, ViewsDatum, ViewsField, ViewsGlobal, ViewsObject};
ghost use Rattle.foreign.specs.Views.{ViewsRegister};
ghost use Rattle.foreign.specs.Which.{kind_code, place_code, plain_code, view_code};

use crate::codes::{DONE, NO_HEAP, refusal_code};
use crate::handle::Handle;
use crate::objects::{ObjectOfC, tell_object};
use crate::which::{kind_code, place_code, view_code};
use collecting::{Number, Object};
use managed::ManagedHeap;
use model::Refusal;
use refword::Addr;
use viewing::places::{data_word_at, global_at, object_at, reference_at, register_at};

/// Writes the place of an object that was found for C: 0 for null.
fn tell_place(found: Option<Addr>, place: &mut u64)
    ensures { IsPlace place.new found }
{
    *place = match found {
        Some(address) => address.number(),
        None => 0,
    };
}

/// Returns the address of a place of C. Fails with `Null` if the place is 0, and with `BadIndex` if no object can be
/// there.
fn address_of(place: u64) -> Result<Addr, Refusal>
    ensures { ReadsPlace place result }
{
    if place == 0 {
        return Err(Refusal::Null);
    }
    match Addr::new(place) {
        Some(address) => Ok(address),
        None => Err(Refusal::BadIndex),
    }
}

/// Writes the place of the object that a register of a thread refers to. Fails as `viewing::places::register_at`
/// does.
#[tactic(auto, using(crate::proofs::Calling::given))]
#[unsafe(no_mangle)]
pub extern "C" fn pauseless_view_register(
    heap: &mut Handle,
    thread: u32,
    register: u32,
    place: &mut u64,
) -> u32
    ensures { Gives (view_code thread) (ViewsRegister thread register) (IsPlace place.new) (place.new ≡ place.old)
        heap.old.slot.held result heap.new.slot.held }
{
    let Some(held) = heap.lend() else {
        return NO_HEAP;
    };
    match register_at(&held.heap, thread, register) {
        Ok(found) => {
            tell_place(found, place);
            DONE
        }
        Err(refusal) => view_code(&held.heap, thread, refusal),
    }
}

/// Writes the place of the object that a global refers to. Fails as `viewing::places::global_at` does.
#[tactic(auto, using(crate::proofs::Calling::given))]
#[unsafe(no_mangle)]
pub extern "C" fn pauseless_view_global(heap: &mut Handle, global: u32, place: &mut u64) -> u32
    ensures { Gives (kind_code numbers.Global) (ViewsGlobal global) (IsPlace place.new) (place.new ≡ place.old)
        heap.old.slot.held result heap.new.slot.held }
{
    let Some(held) = heap.lend() else {
        return NO_HEAP;
    };
    match global_at(&held.heap, global) {
        Ok(found) => {
            tell_place(found, place);
            DONE
        }
        Err(refusal) => kind_code(&held.heap, Number::Global, refusal),
    }
}

/// Returns a reference of the object at a place.
#[tactic(auto, using(crate::proofs::Places::place_read, crate::proofs::Places::place_refused))]
fn load_at(heap: &ManagedHeap, place: u64, field: u32) -> Result<Option<Addr>, Refusal>
    ensures { ViewsField place field heap.now result heap.now }
{
    match address_of(place) {
        Ok(address) => reference_at(heap, address, field),
        Err(refusal) => Err(refusal),
    }
}

/// Writes the place of the object that a reference of an object refers to, by that object's place. Fails with `Null`
/// if the place is 0, else as `viewing::places::reference_at` does.
#[tactic(auto, using(crate::proofs::Calling::given))]
#[unsafe(no_mangle)]
pub extern "C" fn pauseless_view_load(
    heap: &mut Handle,
    object: u64,
    field: u32,
    place: &mut u64,
) -> u32
    ensures { Gives (place_code numbers.Field object) (ViewsField object field) (IsPlace place.new)
        (place.new ≡ place.old) heap.old.slot.held result heap.new.slot.held }
{
    let Some(held) = heap.lend() else {
        return NO_HEAP;
    };
    match load_at(&held.heap, object, field) {
        Ok(found) => {
            tell_place(found, place);
            DONE
        }
        Err(refusal) => place_code(&held.heap, Number::Field, object, refusal),
    }
}

/// Returns a data word of the object at a place.
#[tactic(auto, using(crate::proofs::Places::place_read, crate::proofs::Places::place_refused))]
fn get_at(heap: &ManagedHeap, place: u64, index: u32) -> Result<u64, Refusal>
    ensures { ViewsDatum place index heap.now result heap.now }
{
    match address_of(place) {
        Ok(address) => data_word_at(heap, address, index),
        Err(refusal) => Err(refusal),
    }
}

/// Reads a data word of an object by its place. Fails with `Null` if the place is 0, else as
/// `viewing::places::data_word_at` does.
#[tactic(auto, using(crate::proofs::Calling::given))]
#[unsafe(no_mangle)]
pub extern "C" fn pauseless_view_get(
    heap: &mut Handle,
    object: u64,
    index: u32,
    value: &mut u64,
) -> u32
    ensures { Gives (place_code numbers.Datum object) (ViewsDatum object index) (λ x. value.new ≡ x)
        (value.new ≡ value.old) heap.old.slot.held result heap.new.slot.held }
{
    let Some(held) = heap.lend() else {
        return NO_HEAP;
    };
    match get_at(&held.heap, object, index) {
        Ok(datum) => {
            *value = datum;
            DONE
        }
        Err(refusal) => place_code(&held.heap, Number::Datum, object, refusal),
    }
}

/// Returns the object at a place.
#[tactic(auto, using(crate::proofs::Places::place_read, crate::proofs::Places::place_refused))]
fn look_at(heap: &ManagedHeap, place: u64) -> Result<Object, Refusal>
    ensures { ViewsObject place heap.now result heap.now }
{
    match address_of(place) {
        Ok(address) => object_at(heap, address),
        Err(refusal) => Err(refusal),
    }
}

/// Writes the object at a place. Fails with `Null` if the place is 0, else as `viewing::places::object_at` does.
#[tactic(auto, using(crate::proofs::Calling::given))]
#[unsafe(no_mangle)]
pub extern "C" fn pauseless_view_look(heap: &mut Handle, place: u64, object: &mut ObjectOfC) -> u32
    ensures { Gives plain_code (ViewsObject place) (IsSeen object.new) (object.new ≡ object.old) heap.old.slot.held
        result heap.new.slot.held }
{
    let Some(held) = heap.lend() else {
        return NO_HEAP;
    };
    match look_at(&held.heap, place) {
        Ok(seen) => {
            tell_object(seen, object);
            DONE
        }
        Err(refusal) => refusal_code(refusal),
    }
}
