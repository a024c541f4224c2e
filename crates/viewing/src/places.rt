//! A complete heap by addresses: what a handle's calls do, for callers that keep only an address. An address is valid
//! if a call here has returned it since the heap last changed; a call with another address is safe, but its result
//! has no meaning.

ghost use Rattle.std.specs.Prelude.{◌≡◌, ◌+◌, ◌<◌, ◌^◌, IfSome};
ghost use Rattle.std.specs.Option.{option_map};
ghost use Rattle.model.specs.Data.{datum_at};
ghost use Rattle.viewing.specs.Viewing.{field_entry, global_entry, handle_at, place_of, register_entry};
ghost use Rattle.viewing.specs.Viewing.{IsHandle, ReadsDatum, ReadsEntry, TellsOk};

use collecting::Object;
use heap::{Heap, read_reference};
use layout::{birth_of, layout_of};
use managed::ManagedHeap;
use model::Refusal;
use refword::{Addr, Word};

/// Returns the current address of a reference's object, or `None` for null.
#[tactic(auto, using(crate::proofs::Finding::placed, crate::proofs::Finding::placed_at_once))]
fn place_of(heap: &ManagedHeap, word: Word) -> Option<Addr>
    ensures { result ≡ place_of heap.now word }
{
    heap.law();
    let address = word.addr()?;
    let store = heap.heap().memory();
    if store.usable_frame(address.number()).is_some() {
        return Some(address);
    }
    Some(heap.heap().resolve(address))
}

/// Returns the address of the object that a register of a thread refers to, or `None` if the register is null.
/// Threads and registers count from 0. Fails with `BadIndex` if the heap has no such thread or register.
#[tactic(auto, using(crate::proofs::Finding::register_found))]
pub fn register_at(heap: &ManagedHeap, thread: u32, register: u32) -> Result<Option<Addr>, Refusal>
    ensures { ReadsEntry heap.now (register_entry thread register) result }
{
    let inside = heap.heap();
    if thread as usize >= inside.threads().len() {
        return Err(Refusal::BadIndex);
    }
    if register >= inside.config().registers {
        return Err(Refusal::BadIndex);
    }
    Ok(place_of(heap, inside.register(thread, register)))
}

/// Returns the address of the object that a global refers to, or `None` if the global is null. Globals count from 0.
/// Fails with `BadIndex` if the heap has no such global.
#[tactic(auto, using(crate::proofs::Finding::global_found))]
pub fn global_at(heap: &ManagedHeap, global: u32) -> Result<Option<Addr>, Refusal>
    ensures { ReadsEntry heap.now (global_entry global) result }
{
    let inside = heap.heap();
    if global as usize >= inside.globals().len() {
        return Err(Refusal::BadIndex);
    }
    Ok(place_of(heap, inside.global(global)))
}

/// Returns the address of the object that a reference of the object at an address refers to, or `None` if it is null.
/// References count from 0. Fails with `BadIndex` if the object has no such reference.
#[tactic(auto, using(crate::proofs::Finding::field_found, crate::proofs::Finding::field_absent, crate::proofs::Finding::field_readable_here))]
pub fn reference_at(heap: &ManagedHeap, address: Addr, index: u32) -> Result<Option<Addr>, Refusal>
    ensures { IsHandle (handle_at heap.now address)
        → ReadsEntry heap.now (field_entry (handle_at heap.now address) index) result }
{
    heap.law();
    let inside = heap.heap();
    inside.law();
    let Some(ahead) = inside.field_behind(address, index) else {
        return Err(Refusal::BadIndex);
    };
    let Some(bits) = inside.memory().word_behind(address, ahead) else {
        return Err(Refusal::BadIndex);
    };
    Ok(place_of(heap, read_reference(bits)))
}

/// Returns the offset of a data word in its object, in words, by the object's address.
#[tactic(auto, unfolding(model::specs::Data::datum_at))]
fn datum_ahead(heap: &Heap, address: Addr, index: u32) -> Option<u64>
    ensures value { option_map (λ k. address + k) result ≡ datum_at heap.now address index }
    ensures near { IfSome result (λ k. k < 2 ^ 17) }
{
    let layout = heap.layout_at(address)?;
    if index >= u32::from(layout.nums) {
        return None;
    }
    Some(1 + u64::from(layout.refs) + u64::from(index))
}

/// Returns a data word of the object at an address. Data words count from 0. Fails with `BadIndex` if the object has
/// no such data word.
#[tactic(auto, using(crate::proofs::Finding::datum_not_found, crate::proofs::Finding::datum_readable_here))]
pub fn data_word_at(heap: &ManagedHeap, address: Addr, index: u32) -> Result<u64, Refusal>
    ensures { IsHandle (handle_at heap.now address) → ReadsDatum (handle_at heap.now address) index result }
{
    heap.law();
    let inside = heap.heap();
    inside.law();
    let Some(ahead) = datum_ahead(inside, address, index) else {
        return Err(Refusal::BadIndex);
    };
    let Some(value) = inside.memory().word_behind(address, ahead) else {
        return Err(Refusal::BadIndex);
    };
    Ok(value)
}

/// Returns the object at an address, by its header. Fails with `BadIndex` if there is none.
#[tactic(auto, using(crate::proofs::Finding::header_readable_here, crate::proofs::Finding::layout_known_here))]
pub fn object_at(heap: &ManagedHeap, address: Addr) -> Result<Object, Refusal>
    ensures { IsHandle (handle_at heap.now address) → TellsOk (handle_at heap.now address) result }
{
    heap.law();
    let inside = heap.heap();
    inside.law();
    let Some(header) = inside.memory().first_word(address) else {
        return Err(Refusal::BadIndex);
    };
    let layout = layout_of(header);
    let Some(shape) = inside.config().layouts.get(layout) else {
        return Err(Refusal::BadIndex);
    };
    Ok(Object {
        birth: birth_of(header),
        layout,
        refs: shape.refs,
        nums: shape.nums,
    })
}
