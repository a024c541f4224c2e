//! Starting and ending a mark.

ghost use Rattle.std.specs.Prelude.{◌≡◌};
ghost use Rattle.std.specs.List.{list_any};
ghost use Rattle.model.specs.Bits.{bit_count};
ghost use Rattle.model.specs.Cycles.{has_todo, retired_count, start_mark_outcome, end_mark_outcome};
ghost use Rattle.model.specs.Phases.{may_start_mark};
ghost use Rattle.model.specs.Refusing.{Does};
ghost use Rattle.model.specs.Outcome.{WorkerPasses};
ghost use Rattle.model.specs.Stores.{is_protected};
ghost use Rattle.model.specs.declared.steps.Step.TheVariants as steps;

use crate::marks::may_scan;
use heap::{Heap, RawCollectorEdits};
use model::{Answer, Page, PageState, Phase, Refusal, Reply};

/// Returns whether a mark may start in a phase.
fn may_start_mark(phase: Phase) -> bool
    ensures { result ≡ may_start_mark phase }
{
    matches!(phase, Phase::Idle | Phase::Relocating)
}

/// Starts a mark: the clean NMT value flips, all threads count as not crossed, and all globals are grey. Workers
/// count from
/// 0. Objects of protected pages that are uncopied by then are copied when the mark meets them.
///
/// Fails with `Phase` while a mark runs or pages are being protected.
#[tactic(auto, unfolding(model::specs::Cycles::start_mark_outcome))]
pub fn start_mark(heap: &mut Heap, worker: u32) -> Reply
    requires { WorkerPasses heap.old worker steps.StartMark }
    ensures { Does heap.old result heap.new (start_mark_outcome heap.old) }
{
    if !may_start_mark(heap.phase()) {
        return Err(Refusal::Phase);
    }
    heap.start_mark();
    Ok(Answer::Done)
}

/// Returns whether some global is grey.
fn has_todo_global(heap: &Heap) -> bool
    ensures { result ≡ list_any (λ g. g.todo) heap.now.globals }
{
    heap.globals().iter().any(|global| global.todo)
}

/// Returns whether some object or global is grey.
#[tactic(auto, unfolding(model::specs::Cycles::has_todo))]
fn has_todo(heap: &Heap) -> bool
    ensures { result ≡ has_todo heap.now }
{
    !heap.todo().is_empty() || has_todo_global(heap)
}

/// Returns whether a page is protected.
fn is_protected(page: &Page) -> bool
    ensures { result ≡ is_protected page.now.state }
{
    matches!(page.state, PageState::From | PageState::Gone)
}

/// Returns how many pages the end of the mark makes unused.
#[tactic(auto, unfolding(model::specs::Cycles::retired_count))]
fn retired_count(heap: &Heap) -> u64
    ensures { result ≡ retired_count heap.now }
{
    heap.memory()
        .pages()
        .iter()
        .filter(|page| is_protected(page))
        .count() as u64
}

/// Ends a mark: the marked objects are live; open pages without a lent buffer close; protected pages become unused
/// and lose their frames, as no reference to them is left. The answer has the numbers of live objects and of pages
/// that became unused. Workers count from 0.
///
/// Fails with `Phase` if no mark runs; `NotCrossed` if a thread hasn't crossed; `TodoLeft` if something is grey;
/// `Pending`, with the lowest such thread, if a thread has an open barrier.
#[tactic(auto, unfolding(model::specs::Cycles::end_mark_outcome))]
pub fn end_mark(heap: &mut Heap, worker: u32) -> Reply
    requires { WorkerPasses heap.old worker steps.EndMark }
    ensures { Does heap.old result heap.new (end_mark_outcome heap.old) }
{
    may_scan(heap)?;
    if has_todo(heap) {
        return Err(Refusal::TodoLeft);
    }
    if let Some(thread) = heap.first_pending() {
        return Err(Refusal::Pending { thread });
    }
    let live = live_count(heap);
    let retired = retired_count(heap);
    heap.end_mark();
    Ok(Answer::Ended { live, retired })
}

/// Returns how many objects the running mark has marked.
fn live_count(heap: &Heap) -> u64
    ensures { result ≡ bit_count heap.now.mark }
{
    heap.law();
    heap.mark().count()
}
