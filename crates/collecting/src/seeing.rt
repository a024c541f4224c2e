//! The objects that registers name.

ghost use Rattle.std.specs.Prelude.{◌≡◌};
ghost use Rattle.collecting.specs.Objects.{header_of, seen};

use heap::Heap;
use layout::{birth_of, layout_of};
use managed::ManagedHeap;
use model::Refusal;

/// An object, by its header.
#[derive(Clone, Copy, Debug, PartialEq, Eq)]
pub struct Object {
    /// Its birth: how many objects were allocated before it. It stays when the object moves.
    pub birth: u64,
    /// The number of its layout.
    pub layout: u32,
    /// How many references it has.
    pub refs: u16,
    /// How many data words it has.
    pub nums: u16,
}

/// Returns the object that a register of a thread names. Fails with `Null`, `Stall` or `Stale` if the register may
/// not be used, and with `BadIndex` if no object is there.
#[inline(always)]
#[tactic(auto, unfolding(crate::specs::Objects::seen))]
pub(crate) fn look(heap: &ManagedHeap, thread: u32, register: u32) -> Result<Object, Refusal>
    ensures { result ≡ seen heap.now thread register }
{
    let header = header_of(heap, thread, register)?;
    let layout = layout_of(header);
    let Some(shape) = heap.heap().config().layouts.get(layout) else {
        return Err(Refusal::BadIndex);
    };
    Ok(Object {
        birth: birth_of(header),
        layout,
        refs: shape.refs,
        nums: shape.nums,
    })
}

/// Returns the header of the object that a register of a thread names.
#[inline(always)]
fn header_of(heap: &ManagedHeap, thread: u32, register: u32) -> Result<u64, Refusal>
    ensures { result ≡ header_of heap.now thread register }
{
    match heap.header_at_once(thread, register) {
        Some(header) => Ok(header),
        None => header_by_tests(heap.heap(), thread, register),
    }
}

/// As `header_of`, by the tests one after another.
#[cold]
#[inline(never)]
#[tactic(auto, unfolding(crate::specs::Objects::header_of))]
fn header_by_tests(heap: &Heap, thread: u32, register: u32) -> Result<u64, Refusal>
    ensures { result ≡ header_of heap.now thread register }
{
    let address = heap.usable(thread, register)?;
    let Some(header) = heap.memory().first_word(address) else {
        return Err(Refusal::BadIndex);
    };
    Ok(header)
}
