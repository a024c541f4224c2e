//! The memory of frames that no page has.

ghost use Rattle.std.specs.Prelude.{◌≡◌};
ghost use Rattle.foreign.specs.Looking.{IsDone, Keeps, KeepsUntold};

use crate::codes::{DONE, NO_HEAP};
use crate::handle::Handle;
use collecting::{Collect, Target};

/// Writes how many frames' memory is kept for the next pages, of frames that became free.
#[unsafe(no_mangle)]
pub extern "C" fn pauseless_kept(heap: &mut Handle, frames: &mut u64) -> u32
    ensures done { IsDone heap.old.slot.held result }
    ensures untold { KeepsUntold heap.old.slot.held frames.old frames.new }
    ensures same { heap.new.slot.held ≡ heap.old.slot.held }
{
    let Some(held) = heap.lend() else {
        return NO_HEAP;
    };
    *frames = held.heap.kept_frames() as u64;
    DONE
}

/// Releases the memory of free frames to the allocator, except that of `frames`. The state of the heap stays.
#[unsafe(no_mangle)]
pub extern "C" fn pauseless_trim(heap: &mut Handle, frames: u32) -> u32
    ensures done { IsDone heap.old.slot.held result }
    ensures same { heap.new.slot.held ≡ heap.old.slot.held }
{
    let Some(held) = heap.lend() else {
        return NO_HEAP;
    };
    held.heap.trim(frames as usize);
    DONE
}

/// Makes the memory of the heap follow its live objects: from now on it is also collected if it uses `least` frames
/// and, after a collection, `growth` percent more than it used then; and memory beyond is released.
#[tactic(auto, using(crate::proofs::Calling::kept))]
#[unsafe(no_mangle)]
pub extern "C" fn pauseless_set_growth(heap: &mut Handle, least: u32, growth: u32) -> u32
    ensures { Keeps heap.old.slot.held result heap.new.slot.held }
{
    let Some(held) = heap.lend() else {
        return NO_HEAP;
    };
    held.follows = true;
    held.target = Target::new(least, growth);
    held.follow();
    DONE
}
