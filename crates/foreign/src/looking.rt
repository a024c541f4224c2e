//! Counts and verification of a heap.

ghost use Rattle.std.specs.Prelude.{◌≡◌};
ghost use Rattle.foreign.specs.Looking.{Counts, IsCountOf, Verifies, VerifiesHeld};

use crate::codes::{DONE, NO_HEAP, NO_MEMORY, UNSOUND};
use crate::handle::Handle;
use managed::ManagedHeap;
use std::alloc::Global;
use verify::Verdict;
use verifying::verify_held;

/// `pauseless_counts`: the sizes of a heap, and its births and free frames.
#[repr(C)]
#[derive(Clone, Copy)]
pub struct CountsOfC {
    /// How many objects were allocated.
    pub births: u64,
    /// The words of a page.
    pub words: u32,
    /// The frames.
    pub frames: u32,
    /// The frames that no page has.
    pub free: u32,
}

/// Returns the counts of a heap.
fn count(heap: &ManagedHeap) -> CountsOfC
    ensures { IsCountOf heap.now result }
{
    let inside = heap.heap();
    CountsOfC {
        births: inside.births(),
        words: inside.config().words,
        frames: inside.config().frames,
        free: inside.memory().free_frames(),
    }
}

/// Writes the counts of a heap.
#[unsafe(no_mangle)]
pub extern "C" fn pauseless_count(heap: &mut Handle, counts: &mut CountsOfC) -> u32
    ensures counts { Counts heap.old.slot.held result counts.old counts.new }
    ensures same { heap.new.slot.held ≡ heap.old.slot.held }
{
    let Some(held) = heap.lend() else {
        return NO_HEAP;
    };
    *counts = count(&held.heap);
    DONE
}

/// Returns the code of a verification: the heap is sound, or it is out of memory.
fn verify_code(alloc: Global, heap: &ManagedHeap) -> u32
    ensures { Verifies result }
{
    match verify_held(alloc, heap) {
        Ok(Verdict::Sound) => DONE,
        Ok(Verdict::Faulty(_)) => UNSOUND,
        Err(_) => NO_MEMORY,
    }
}

/// Verifies the heap in its current state: the code is that it is sound, by contract, or that it is out of memory.
#[unsafe(no_mangle)]
pub extern "C" fn pauseless_verify(alloc: Global, heap: &mut Handle) -> u32
    ensures same { heap.new.slot.held ≡ heap.old.slot.held }
    ensures sound { VerifiesHeld heap.old.slot.held result }
{
    let Some(held) = heap.lend() else {
        return NO_HEAP;
    };
    verify_code(alloc, &held.heap)
}
