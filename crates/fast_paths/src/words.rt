//! Words of objects on pages that have memory and aren't protected, found by one lookup of the page.

ghost use Rattle.std.specs.Prelude.{◌≡◌, ◌+◌, ◌^◌, ◌<◌, IfSome, Some, if◌then◌else◌};
ghost use Rattle.model.specs.Data.{datum_at, layout_at};
ghost use Rattle.model.specs.References.{field_at};
ghost use Rattle.model.specs.Stores.{word_at};
ghost use Rattle.heap.specs.AtOnce.{IsOnFrame};

use heap::Heap;
use layout::{Layout, layout_of};

/// An object on a page that has memory and isn't protected.
#[derive(Clone, Copy, Debug)]
pub(crate) struct Spot {
    /// The object's address, from 1 to 2^40 - 1.
    pub(crate) address: u64,
    /// The number of its page's frame.
    pub(crate) frame: u32,
}

/// Returns the word less than 2^17 words after an object's address, if it is on the same page.
#[inline(always)]
pub(crate) fn word_on(heap: &Heap, spot: &Spot, ahead: u64) -> Option<u64>
    requires frame { IsOnFrame heap.now spot.now.address spot.now.frame }
    requires near { ahead < 2 ^ 17 }
    ensures { IfSome result (λ v. word_at heap.now.store (spot.now.address + ahead) ≡ Some v) }
{
    heap.memory().word_on(spot.frame, spot.address, ahead)
}

/// Returns the layout of an object.
#[inline(always)]
fn layout_on(heap: &Heap, spot: &Spot) -> Option<Layout>
    requires { IsOnFrame heap.now spot.now.address spot.now.frame }
    ensures { IfSome result (λ l. layout_at heap.now spot.now.address ≡ Some l) }
{
    let header = word_on(heap, spot, 0)?;
    heap.config().layouts.get(layout_of(header))
}

/// Returns how many words after the address of an object a reference is, by its number from 0.
#[inline(always)]
pub(crate) fn field_on(heap: &Heap, spot: &Spot, index: u32) -> Option<u64>
    requires { IsOnFrame heap.now spot.now.address spot.now.frame }
    ensures value { IfSome result (λ k. field_at heap.now spot.now.address index ≡ Some (spot.now.address + k)) }
    ensures near { IfSome result (λ k. k < 2 ^ 17) }
{
    let layout = layout_on(heap, spot)?;
    if index >= u32::from(layout.refs) {
        return None;
    }
    Some(1 + u64::from(index))
}

/// Returns how many words after the address of an object a data word is, by its number from 0.
#[inline(always)]
pub(crate) fn datum_on(heap: &Heap, spot: &Spot, index: u32) -> Option<u64>
    requires { IsOnFrame heap.now spot.now.address spot.now.frame }
    ensures value { IfSome result (λ k. datum_at heap.now spot.now.address index ≡ Some (spot.now.address + k)) }
    ensures near { IfSome result (λ k. k < 2 ^ 17) }
{
    let layout = layout_on(heap, spot)?;
    if index >= u32::from(layout.nums) {
        return None;
    }
    Some(1 + u64::from(layout.refs) + u64::from(index))
}
