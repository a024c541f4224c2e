//! The verifier, applied to a heap, whose image is proved sound.
//!
//! The verifier (`verify`) knows nothing of the collector: an image is memory and roots as plain data, and soundness
//! is defined for any data. The collector's own invariant (`refinement`, `laws`) is about the state of a heap. This
//! crate alone knows both: a state that represents a reference model has an image in which the verifier finds no
//! fault.
#![tactic(auto)]

mod taking;

ghost use Rattle.std.specs.Prelude.{IfOk};
ghost use Rattle.heap_images.specs.Laws.{ImagesSound};
ghost use Rattle.verify.specs.Faults.{VerdictIs};
ghost use Rattle.verify.specs.Pictures.{image_of};

use heap::Heap;
use std::alloc::{AllocError, Global};
pub use taking::image_of;
use verify::{Verdict, verify_image};

/// Returns whether a heap is sound, or else its first fault: takes its image, and verifies that. Its time is linear
/// in the words of all frames and pages. Fails only if out of memory.
pub fn verify(alloc: Global, heap: &Heap) -> Result<Verdict, AllocError>
    ensures { IfOk result (VerdictIs (image_of heap.now)) }
{
    let image = image_of(alloc, heap)?;
    verify_image(alloc, &image)
}

/// The image of a heap that represents a reference model is sound. This holds for every state with `IsStore` and
/// `IsHeap`, the invariants of all heaps, in each phase of the collector. There is no code here: a function that needs
/// this calls it.
pub fn law()
    ensures { ImagesSound }
{}
