//! A mark, and the pages that are emptied after it.

ghost use Rattle.std.specs.Prelude.{◌≡◌, IfOk, true};
ghost use Rattle.choosing.specs.Choices.{IsChoice, all_words, words_on};
ghost use Rattle.managed.specs.Scrubbing.{AreScrubbed, needs_no_scrub};
ghost use Rattle.collecting.specs.Collections.{ChoosesAndEmpties, Collects, EndsChoice, EndsChosen, EndsCollecting};
ghost use Rattle.collecting.specs.Collections.{EndsDueMark, MarksAndEmpties, SettlesAndMarks};

use crate::collecting::Collected;
use crate::executor::Executor;
use crate::leftovers::settle;
use crate::measured::choose_kept;
use choosing::Choice;
use managed::ManagedHeap;
use model::Refusal;
use std::alloc::{AllocError, Global};

/// Runs the mark that is due: the rest of the one that runs, else a complete one.
fn mark_due<M: Executor>(heap: &mut ManagedHeap, by: &M) -> Result<u64, Refusal>
    requires { M.may_mark by.now }
    ensures goes { Collects heap.old heap.new }
    ensures ends { EndsDueMark heap.old result heap.new }
{
    if heap.heap().phase().is_marking() {
        by.finish(heap)
    } else {
        by.mark(heap)
    }
}

/// Finishes whatever an earlier collection has left, and then runs the mark that is due. Returns how many objects
/// live.
pub(crate) fn mark_whole<M: Executor>(heap: &mut ManagedHeap, by: &M) -> Result<u64, Refusal>
    requires { M.may_mark by.now }
    ensures { SettlesAndMarks heap.old result heap.new }
{
    match settle(heap) {
        Ok(()) => mark_due(heap, by),
        Err(refusal) => Err(refusal),
    }
}

/// Empties chosen pages, and returns how many they are.
fn empty_chosen<M: Executor>(
    heap: &mut ManagedHeap,
    pages: Vec<u32>,
    by: &M,
) -> Result<u64, Refusal>
    requires { M.may_mark by.now }
    ensures ends { EndsChosen heap.old pages.items result heap.new }
    ensures scrubbed { needs_no_scrub heap.old.phase ≡ true → IfOk result (λ count. AreScrubbed heap.new) }
{
    heap.law();
    let count = pages.len() as u64;
    if count == 0 {
        return Ok(0);
    }
    match by.empty(heap, pages) {
        Ok(()) => Ok(count),
        Err(refusal) => Err(refusal),
    }
}

/// Empties a choice of pages, after a mark that found `live` objects.
fn empty_choice<M: Executor>(
    heap: &mut ManagedHeap,
    live: u64,
    choice: Choice,
    by: &M,
) -> Result<Collected, Refusal>
    requires { M.may_mark by.now }
    ensures ends { EndsChoice live choice.live_words choice.words heap.old choice.pages.items result heap.new }
    ensures scrubbed { needs_no_scrub heap.old.phase ≡ true → IfOk result (λ collected. AreScrubbed heap.new) }
{
    let (live_words, copied) = (choice.live_words, choice.words);
    by.prepare(heap, copied);
    match empty_chosen(heap, choice.pages, by) {
        Ok(emptied) => Ok(Collected {
            live,
            live_words,
            emptied,
            copied,
        }),
        Err(refusal) => Err(refusal),
    }
}

/// Measures pages, and chooses some of them, whose live objects are kept with them. The state of the heap stays.
fn choose<M: Executor>(
    heap: &mut ManagedHeap,
    alloc: Global,
    percent: u32,
    by: &M,
) -> Result<Choice, AllocError>
    requires { M.may_mark by.now }
    ensures pages { IfOk result (λ choice. IsChoice heap.old percent choice.pages.items) }
    ensures words { IfOk result (λ choice. choice.words ≡ words_on heap.old choice.pages.items) }
    ensures live { IfOk result (λ choice. choice.live_words ≡ all_words heap.old) }
    ensures stays { heap.new ≡ heap.old }
{
    let found = by.measure(alloc, heap.heap(), percent)?;
    choose_kept(alloc, heap, percent, found)
}

/// Chooses pages and empties them, after a mark that found `live` objects.
fn empty_after<M: Executor>(
    heap: &mut ManagedHeap,
    alloc: Global,
    percent: u32,
    live: u64,
    by: &M,
) -> Result<Collected, Refusal>
    requires { M.may_mark by.now }
    ensures ends { ChoosesAndEmpties percent live heap.old result heap.new }
    ensures scrubbed { needs_no_scrub heap.old.phase ≡ true → IfOk result (λ collected. AreScrubbed heap.new) }
{
    match choose(heap, alloc, percent, by) {
        Ok(choice) => empty_choice(heap, live, choice, by),
        Err(_) => Err(Refusal::Memory),
    }
}

/// Runs a mark, and then chooses pages and empties them.
fn run_cycle<M: Executor>(
    heap: &mut ManagedHeap,
    alloc: Global,
    percent: u32,
    by: &M,
) -> Result<Collected, Refusal>
    requires { M.may_mark by.now }
    ensures ends { MarksAndEmpties percent heap.old result heap.new }
    ensures scrubbed { IfOk result (λ collected. AreScrubbed heap.new) }
{
    match mark_due(heap, by) {
        Ok(live) => empty_after(heap, alloc, percent, live, by),
        Err(refusal) => Err(refusal),
    }
}

/// Does what is left of an emptying, and then a cycle.
pub(crate) fn collect_whole<M: Executor>(
    heap: &mut ManagedHeap,
    alloc: Global,
    percent: u32,
    by: &M,
) -> Result<Collected, Refusal>
    requires { M.may_mark by.now }
    ensures ends { EndsCollecting percent heap.old result heap.new }
    ensures scrubbed { IfOk result (λ collected. AreScrubbed heap.new) }
{
    match settle(heap) {
        Ok(()) => run_cycle(heap, alloc, percent, by),
        Err(refusal) => Err(refusal),
    }
}
