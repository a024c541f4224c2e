//! The tests before pages are protected: the pages are closed, and there is space for the targets.

ghost use Rattle.std.specs.Prelude.{◌≡◌, ◌<◌, ◌≤◌, IfOk, OnOk};
ghost use Rattle.model.specs.Owning.{Each};
ghost use Rattle.model.specs.Protections.{all_ripe, free_count, ripe, room_for, unused_count};
ghost use Rattle.model.specs.Stores.{state_at};
ghost use Rattle.model.specs.declared.records.PageState.TheVariants.{Closed};

use heap::Heap;
use model::{PageState, Refusal};

/// Tests whether a page, by its number, may be protected, which a closed one may. Fails with `Lent` if it is open
/// and a thread has a buffer on it, and with `Unripe` if it isn't closed.
#[tactic(auto, unfolding(model::specs::Protections::ripe))]
fn ripe(heap: &Heap, page: u32) -> Result<(), Refusal>
    ensures value { result ≡ ripe heap.now page }
    ensures closed { OnOk result (state_at heap.now.store page ≡ Closed) }
{
    let state = heap.memory().state(page);
    if matches!(state, PageState::Open) && heap.is_lent(page) {
        return Err(Refusal::Lent { page });
    }
    if matches!(state, PageState::Closed) {
        Ok(())
    } else {
        Err(Refusal::Unripe { page })
    }
}

/// Tests whether all these pages, by their numbers, may be protected. Fails with `Lent` or `Unripe` for the first
/// that may not.
pub(crate) fn all_ripe(heap: &Heap, pages: &[u32]) -> Result<(), Refusal>
    ensures value { result ≡ all_ripe heap.now pages.now }
    ensures closed { IfOk result (λ _. Each pages.now (λ n. state_at heap.now.store n ≡ Closed)) }
    ensures low { IfOk result (λ _. Each pages.now (λ n. 0 < n)) }
    ensures high { IfOk result (λ _. Each pages.now (λ n. n ≤ heap.now.store.count)) }
{
    heap.law();
    for index in 0..pages.len() {
        ripe(heap, pages[index])?;
    }
    Ok(())
}

/// Tests whether there are frames and pages for `need` targets. Fails with `NoFrames`, with the numbers of needed
/// and of free frames, or with `NoPages`.
#[tactic(auto, unfolding(model::specs::Protections::room_for, model::specs::Protections::free_count))]
pub(crate) fn room_for(heap: &Heap, need: usize) -> Result<(), Refusal>
    ensures value { result ≡ room_for heap.now.store need }
    ensures frames { OnOk result (need ≤ free_count heap.now.store) }
    ensures pages { OnOk result (need ≤ unused_count heap.now.store) }
{
    let need = need as u64;
    let free = u64::from(heap.memory().free_frames());
    if free < need {
        return Err(Refusal::NoFrames { need, free });
    }
    if u64::from(heap.memory().unused_pages()) < need {
        return Err(Refusal::NoPages);
    }
    Ok(())
}
