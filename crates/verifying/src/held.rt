//! Verifies a managed heap.

ghost use Rattle.std.specs.Prelude.{◌≡◌, IfOk};
ghost use Rattle.verify.specs.Faults.{VerdictIs};
ghost use Rattle.verify.specs.Pictures.{image_of};
ghost use Rattle.verify.specs.declared.verdict.Verdict.TheVariants.{Sound};

use heap_images::verify;
use managed::ManagedHeap;
use std::alloc::{AllocError, Global};
use verify::{Verdict, one_verdict};

/// Returns the verdict on the image of a managed heap, which is that it is sound. Its time is linear in the words of
/// all frames and pages. Fails only if out of memory.
pub fn verify_held(alloc: Global, heap: &ManagedHeap) -> Result<Verdict, AllocError>
    ensures verdict { IfOk result (VerdictIs (image_of heap.now)) }
    ensures sound { IfOk result (λ verdict. verdict ≡ Sound) }
{
    heap.law();
    heap.heap().law();
    heap_images::law();
    one_verdict();
    verify(alloc, heap.heap())
}
