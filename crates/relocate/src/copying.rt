//! Copying single objects by steps of workers.

ghost use Rattle.std.specs.Prelude.{◌≡◌, ◌<◌, ◌≤◌, ◌/◌, IfSome};
ghost use Rattle.model.specs.declared.limits.TheConstants.{MOST_PAGES};
ghost use Rattle.model.specs.Emptying.{copy_outcome, entry_on};
ghost use Rattle.model.specs.Outcome.{WorkerPasses};
ghost use Rattle.model.specs.Refusing.{Does};
ghost use Rattle.model.specs.declared.steps.Step.TheVariants as steps;

use crate::emptied::is_emptied;
use crate::releasing::crossed_if_protecting;
use heap::Heap;
use model::{Answer, Forwarding, Phase, Refusal, Reply};
use single_copies::copy_entry;

/// Returns the entry of a From page, by the page's number and the entry's number from 0, if it exists.
#[tactic(auto, unfolding(model::specs::Emptying::entry_on), using(crate::proofs::Entries::entry_within, crate::proofs::Entries::page_low, crate::proofs::Entries::page_high))]
fn entry_on(heap: &Heap, page: u32, entry: u32) -> Option<Forwarding>
    ensures value { result ≡ entry_on heap.now page entry }
    ensures low { IfSome result (λ f. 0 < page) }
    ensures high { IfSome result (λ f. page ≤ heap.now.store.count) }
    ensures within { IfSome result (λ f. f.offset < heap.now.store.words) }
    ensures paged { IfSome result (λ f. f.to / heap.now.store.words ≤ MOST_PAGES) }
{
    heap.law();
    if is_emptied(heap, page) {
        heap.sides().entry_on(page, entry)
    } else {
        None
    }
}

/// Copies the object of an entry of a From page to its planned place. The answer has the new address. Pages count
/// from 1, entries and workers from 0.
///
/// Fails with `Phase` while the collector is idle; `NotCrossed` while pages are being protected and a thread hasn't
/// crossed; `BadIndex` if the page isn't a From page or has no such entry; `Copied` if the object is already copied.
#[tactic(auto, unfolding(model::specs::Emptying::copy_outcome), using(crate::proofs::Runs::entry_copied))]
pub fn copy(heap: &mut Heap, worker: u32, page: u32, entry: u32) -> Reply
    requires { WorkerPasses heap.old worker (steps.Copy page entry) }
    ensures { Does heap.old result heap.new (copy_outcome heap.old page entry) }
{
    if matches!(heap.phase(), Phase::Idle) {
        return Err(Refusal::Phase);
    }
    crossed_if_protecting(heap)?;
    let Some(found) = entry_on(heap, page, entry) else {
        return Err(Refusal::BadIndex);
    };
    if found.copied {
        return Err(Refusal::Copied);
    }
    let answer = Answer::MovedTo {
        page: heap.memory().page_of(found.to) as u32,
        offset: heap.memory().offset_of(found.to),
    };
    copy_entry(heap, u64::from(page), entry);
    Ok(answer)
}
