//! Releasing pages.

ghost use Rattle.std.specs.Prelude.{◌≡◌};
ghost use Rattle.model.specs.Emptying.{crossed_if_protecting, release_outcome};
ghost use Rattle.model.specs.Outcome.{WorkerPasses};
ghost use Rattle.model.specs.Refusing.{Does};
ghost use Rattle.model.specs.declared.steps.Step.TheVariants as steps;

use crate::emptied::is_emptied;
use heap::Heap;
use model::{Answer, Phase, Refusal, Reply};

/// Tests that all threads have crossed if pages are being protected. Fails with `NotCrossed`.
#[tactic(auto, unfolding(model::specs::Emptying::crossed_if_protecting))]
pub(crate) fn crossed_if_protecting(heap: &Heap) -> Result<(), Refusal>
    ensures { result ≡ crossed_if_protecting heap.now }
{
    if matches!(heap.phase(), Phase::ProtectCrossing) {
        heap.all_crossed()
    } else {
        Ok(())
    }
}

/// Releases a From page whose objects are all copied: its frame is free at once, before references to its objects are
/// corrected, and its forwarding table stays. The answer has the number of frames that are free then. Pages count
/// from 1, workers from 0.
///
/// Fails with `Phase` while the collector is idle; `NotCrossed` while pages are being protected and a thread hasn't
/// crossed; `BadIndex` if the page isn't a From page; `Uncopied` if one of its objects isn't copied.
#[tactic(auto, unfolding(model::specs::Emptying::release_outcome, model::specs::Protections::free_count))]
pub fn release(heap: &mut Heap, worker: u32, page: u32) -> Reply
    requires { WorkerPasses heap.old worker (steps.Release page) }
    ensures { Does heap.old result heap.new (release_outcome heap.old page) }
{
    if matches!(heap.phase(), Phase::Idle) {
        return Err(Refusal::Phase);
    }
    crossed_if_protecting(heap)?;
    if !is_emptied(heap, page) {
        return Err(Refusal::BadIndex);
    }
    if !heap.sides().is_copied(page) {
        return Err(Refusal::Uncopied { page });
    }
    heap.raw_release_page(page);
    Ok(Answer::Released {
        free: u64::from(heap.memory().free_frames()),
    })
}
