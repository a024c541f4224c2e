//! Protecting pages.

ghost use Rattle.std.specs.Prelude.{◌≡◌, ◌<◌, ◌≤◌, ◌^◌, [], false, length, vec_capacity, IfOk};
ghost use Rattle.std.specs.List.{flat_map};
ghost use Rattle.model.specs.Owning.{Each};
ghost use Rattle.model.specs.Plans.{plan_of, target_count};
ghost use Rattle.model.specs.Outcome.{WorkerPasses};
ghost use Rattle.model.specs.Protections.{free_count, unused_count, has_twice, protect, protect_outcome};
ghost use Rattle.model.specs.Refusing.{DoesOrLacks};
ghost use Rattle.model.specs.declared.steps.Step.TheVariants as steps;
ghost use Rattle.model.specs.Stores.{state_at};
ghost use Rattle.model.specs.declared.records.PageState.TheVariants.{Closed};
ghost use Rattle.model.specs.declared.records.Phase.TheVariants.{Idle};
ghost use Rattle.relocate.specs.Drafts.{AreDraftsOf, places_of};
ghost use Rattle.relocate.specs.Targets.{AreBlank};

use crate::drafting::draft_pages;
use crate::ripe::{all_ripe, room_for};
use crate::settling::settle_pages;
use crate::targets::{blank_targets, open_targets};
use forward::Draft;
use heap::{Heap, PageMemory};
use model::{Answer, Phase, Refusal, Reply};
use std::alloc::{AllocError, Global};

/// Everything for which protecting pages allocates memory.
#[derive(Drop)]
struct Preparation {
    /// A draft for each page, in the pages' order.
    drafts: Vec<Draft>,
    /// How many live objects the pages have.
    objects: u64,
    /// How many targets they go to.
    count: usize,
    /// An empty list with space for the pages of the targets.
    targets: Vec<u32>,
}

/// Returns the drafts of pages, and a list with space for the targets. Sizes that were kept with the pages are
/// no longer kept; nothing else of the heap changes. Fails only if out of memory.
fn prepare(alloc: Global, heap: &mut Heap, pages: &[u32]) -> Result<Preparation, AllocError>
    requires low { Each pages.now (λ n. 0 < n) }
    requires high { Each pages.now (λ n. n ≤ heap.old.store.count) }
    requires few { length pages.now ≤ 2 ^ 20 }
    ensures drafts { IfOk result (λ p. AreDraftsOf heap.old pages.now p.drafts.items) }
    ensures plan { IfOk result (λ p. flat_map places_of p.drafts.items ≡ plan_of heap.old pages.now) }
    ensures objects { IfOk result (λ p. p.objects ≡ length (plan_of heap.old pages.now)) }
    ensures count { IfOk result (λ p. p.count ≡ target_count (plan_of heap.old pages.now)) }
    ensures empty { IfOk result (λ p. p.targets.items ≡ []) }
    ensures room { IfOk result (λ p. p.count ≤ vec_capacity p.targets) }
    ensures stays { heap.new ≡ heap.old }
{
    let planned = draft_pages(alloc, heap, pages)?;
    let targets = Vec::with_capacity(alloc, planned.targets)?;
    Ok(Preparation {
        drafts: planned.drafts,
        objects: planned.objects,
        count: planned.targets,
        targets,
    })
}

/// Opens the targets of a plan on their memory, gives the pages their forwarding tables, and protects them. It
/// allocates nothing.
fn protect_prepared(heap: &mut Heap, pages: &[u32], prepared: Preparation, memory: Vec<PageMemory>)
    requires idle { heap.old.phase ≡ Idle }
    requires closed { Each pages.now (λ n. state_at heap.old.store n ≡ Closed) }
    requires once { has_twice pages.now ≡ false }
    requires drafts { AreDraftsOf heap.old pages.now prepared.drafts.items }
    requires plan { flat_map places_of prepared.drafts.items ≡ plan_of heap.old pages.now }
    requires count { prepared.count ≡ target_count (plan_of heap.old pages.now) }
    requires empty { prepared.targets.items ≡ [] }
    requires room { prepared.count ≤ vec_capacity prepared.targets }
    requires blank { AreBlank heap.old.store.words prepared.count memory.items }
    requires frames { prepared.count ≤ free_count heap.old.store }
    requires unused { prepared.count ≤ unused_count heap.old.store }
    ensures { heap.new ≡ protect heap.old pages.now }
{
    heap.law();
    let mut drafts = prepared.drafts;
    let mut targets = prepared.targets;
    let mut memory = memory;
    open_targets(heap, prepared.count, &mut memory, &mut targets);
    settle_pages(heap, pages, &mut drafts, &targets);
    heap.raw_start_protection(pages);
}

/// Protects closed pages and opens targets for their live objects; all threads count as not crossed. The answer has
/// the numbers of objects and of targets. Pages count from 1, workers from 0.
///
/// Fails with `Phase` while a mark runs or pages are protected; `Lent` or `Unripe` for the first page that is open
/// with a thread's buffer on it, or else not closed; `NoFrames`, with both numbers, if fewer frames are free than
/// there are targets; `NoPages` if fewer pages are unused; `Memory` if out of memory. The heap is then unchanged.
#[tactic(auto, unfolding(model::specs::Protections::protect_outcome))]
pub fn protect(heap: &mut Heap, worker: u32, pages: &[u32]) -> Reply
    requires { WorkerPasses heap.old worker (steps.Protect pages.now) }
    ensures { DoesOrLacks heap.old result heap.new (protect_outcome heap.old pages.now) }
{
    if !matches!(heap.phase(), Phase::Idle) {
        return Err(Refusal::Phase);
    }
    all_ripe(heap, pages)?;
    heap.law();
    heap.raw_tidy();
    let Ok(prepared) = prepare(heap.allocator(), heap, pages) else {
        return Err(Refusal::Memory);
    };
    room_for(heap, prepared.count)?;
    let Ok(memory) = blank_targets(heap, prepared.count) else {
        return Err(Refusal::Memory);
    };
    let answer = Answer::Protected {
        objects: prepared.objects,
        targets: prepared.count as u64,
    };
    protect_prepared(heap, pages, prepared, memory);
    Ok(answer)
}
