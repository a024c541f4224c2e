//! Collections in parts, for a program that can't stop for a complete one.

ghost use Rattle.std.specs.Prelude.{◌≡◌, ◌+◌, ◌*◌, ◌/◌, ◌^◌, ◌<◌, ◌≤◌, IfOk, false, length, max};
ghost use Rattle.std.specs.Prelude.{min, nat_le, slice_get, true};
ghost use Rattle.model.specs.declared.records.Page.{Page};
ghost use Rattle.model.specs.Phases.{is_protect_crossing};
ghost use Rattle.managed.specs.Goings.{Goes, IsScrub};
ghost use Rattle.managed.specs.Scrubbing.{AreScrubbed};
ghost use Rattle.collecting.specs.Collections.{has_from};
ghost use Rattle.collecting.specs.Pacing.{has_begun, is_emptying, parts_in};
ghost use Rattle.collecting.specs.Targets.{in_use};
ghost use Rattle.collecting.specs.Parts.{EndsPart, HasEnded, is_memory};
ghost use Rattle.collecting.specs.Stages.{ChoosesAll, EmptiesOn, EndsCrossed, GoesOn, IsChosen, MarksOn};
ghost use Rattle.collecting.specs.Stages.{PartGoesOn, PreparesOn, PreparesSome, ProtectsSome, TellsAnew};
ghost use Rattle.collecting.specs.Stages.{at_stage, first_parts, is_preparing, no_words};
ghost use Rattle.collecting.specs.Stages.{passed, preparing, preparings, with_copied};
ghost use Rattle.collecting.specs.declared.parts.Stage.TheVariants as stages;

mod measuring;

use crate::chosen::{dead_count, first_of, fitting, most_of};
use crate::low::in_use;
use crate::portions::{cross, empty_one, mark_some, may_start_mark, protect};
use crate::preparing::{first_words, frames_by, frames_for, parts_for, prepare_some};
use crate::words::LiveWords;
use heap::Heap;
use managed::ManagedHeap;
use measuring::{measure_part, pages_in};
use model::{Page, PageState, Refusal};
use std::alloc::{AllocError, Global};
use std::marker::Model;

/// Which part comes next.
#[derive(Clone, Copy, Debug, PartialEq, Eq)]
enum Stage {
    Mark,
    Choose,
    Prepare,
    Empty,
}

/// How far a collection in parts has come. A program keeps one alongside its heap. It is advice alone: each part
/// tests on the heap what may be done, so a complete collection may come between two parts.
#[derive(Drop)]
pub struct Parts {
    stage: Stage,
    /// Sparse pages that were found, each after its live words.
    found: Vec<(u64, u32)>,
    /// The pages that are emptied.
    chosen: Vec<u32>,
    /// How many pages were measured, how many parts have prepared frames, or how many of the chosen pages were emptied.
    next: u32,
    /// How many frames are to be prepared.
    frames: u32,
    /// How many words live on the pages that were measured, and on those that were chosen.
    words: LiveWords,
    /// How many pages with live objects are emptied at most.
    most: u32,
}

impl Model for Parts {
    ghost use Rattle.collecting.specs.Stages.{PartsState};

    ghost Value = { PartsState };

    ghost view = { λ p. record {
      stage = p.stage;
      found = p.found.items;
      chosen = p.chosen.items;
      next = p.next;
      frames = p.frames;
      words = p.words;
      most = p.most;
    } };
}

impl Parts {
    /// Returns the state before the first part of a collection, which empties all sparse pages for whose objects there
    /// is space.
    pub fn new(alloc: Global) -> Parts
        ensures { result ≡ first_parts }
    {
        Parts {
            stage: Stage::Mark,
            found: Vec::new(alloc),
            chosen: Vec::new(alloc),
            next: 0,
            frames: 0,
            words: LiveWords::none(),
            most: u32::MAX,
        }
    }

    /// Has collections empty at most this many pages with live objects, those with the fewest live words, and all that
    /// have none: 0 to 2^32 - 1, which is the number at first. So the part that protects pages is shorter, though it
    /// still goes over all pages; what is left is emptied by later collections, each of which marks the heap.
    pub fn empty_at_most(&mut self, pages: u32)
        ensures { self.new ≡ record self.old { most = pages } }
    {
        self.most = pages;
    }

    /// Returns how many words live on the pages that were measured, and on those that were chosen.
    pub(crate) fn words(&self) -> LiveWords
        ensures { result ≡ self.now.words }
    {
        self.words
    }

    /// Returns whether the next part prepares frames, or chooses pages.
    pub(crate) fn is_preparing(&self) -> bool
        ensures { result ≡ is_preparing self.now.stage }
    {
        matches!(self.stage, Stage::Prepare)
    }

    /// Returns whether a collection has begun: a mark runs, or its pages are chosen or emptied.
    pub(crate) fn has_begun(&self, heap: &Heap) -> bool
        ensures { result ≡ has_begun self.now heap.now }
    {
        !matches!(self.stage, Stage::Mark) || heap.phase().is_marking()
    }

    /// Returns whether the next part empties a page, if it is done.
    pub(crate) fn is_emptying(&self) -> bool
        ensures { result ≡ is_emptying self.now }
    {
        matches!(self.stage, Stage::Empty) && self.next_page().is_some()
    }

    /// Returns how many parts this stage has: scans of all words in use, if an object has eight words; measurings of
    /// all pages; preparings of frames; or one for each page that was chosen.
    pub(crate) fn parts_in(&self, heap: &Heap, budget: u32) -> u64
        ensures value { result ≡ parts_in self.now.stage budget self.now heap.now }
        ensures range { result < 2 ^ 61 }
    {
        match self.stage {
            Stage::Mark => scans_in(heap, budget),
            Stage::Choose => u64::from(heap.memory().page_count()) / pages_in(heap, budget),
            Stage::Prepare => self.preparings(heap, budget),
            Stage::Empty => self.empties_in(heap),
        }
    }

    /// Returns how many parts empty pages: one for each page that was chosen.
    fn empties_in(&self, heap: &Heap) -> u64
        ensures value { result ≡ min (length self.now.chosen) heap.now.store.count }
        ensures range { result < 2 ^ 61 }
    {
        (self.chosen.len() as u64).min(u64::from(heap.memory().page_count()))
    }

    /// Returns how many parts prepare frames.
    fn preparings(&self, heap: &Heap, budget: u32) -> u64
        ensures value { result ≡ preparings budget self.now heap.now }
        ensures range { result < 2 ^ 61 }
    {
        parts_for(self.frames, frames_by(budget, heap.config().words))
    }

    /// Returns whether as many parts have prepared frames as are to.
    fn is_prepared(&self, heap: &Heap, budget: u32) -> bool
        ensures { result ≡ nat_le (preparings budget self.now heap.now) self.now.next }
    {
        self.preparings(heap, budget) <= u64::from(self.next)
    }

    /// Continues with another stage, from its beginning.
    fn begin(&mut self, stage: Stage)
        ensures { self.new ≡ at_stage stage self.old.most self.old.chosen self.old.words }
    {
        self.stage = stage;
        self.next = 0;
        self.frames = 0;
        self.found.clear();
    }

    /// Continues with the measuring of pages, from the first one.
    fn begin_choosing(&mut self)
        ensures { self.new ≡ at_stage stages.Choose self.old.most self.old.chosen no_words }
    {
        self.words = LiveWords::none();
        self.begin(Stage::Choose);
    }

    /// Continues with the preparing of frames for the pages that were found.
    fn begin_preparing(&mut self, heap: &Heap)
        ensures { self.new ≡ preparing heap.now self.old }
    {
        let frames = frames_for(heap, self.most, &self.found);
        self.stage = Stage::Prepare;
        self.next = 0;
        self.frames = frames;
    }

    /// Continues without the preparing of more frames.
    fn prepare_none(&mut self)
        ensures { self.new ≡ record self.old { frames = 0 } }
    {
        self.frames = 0;
    }

    /// Chooses those of the found pages with the fewest live words, at most the allowed number of those with live
    /// objects, and as many as there is space for, except a sixteenth of those with live objects.
    fn choose(&mut self, alloc: Global, heap: &Heap) -> Result<Vec<u32>, AllocError>
        ensures chosen { IfOk result
            (λ pages. IsChosen self.old.most heap.now self.old.found pages.items self.new.words.copied) }
        ensures kept { IfOk result (λ pages. self.new.chosen ≡ pages.items) }
        ensures words { IfOk result
            (λ pages. self.new.words ≡ with_copied self.new.words.copied self.old.words) }
        ensures most { self.new.most ≡ self.old.most }
    {
        self.found.sort()?;
        let fitting = fitting(alloc, heap, first_of(&self.found, self.most))?;
        let pages = Vec::from_slice(alloc, most_of(&fitting, dead_count(&self.found)))?;
        self.words.copied = first_words(&self.found, pages.len());
        self.chosen = Vec::from_slice(alloc, &pages)?;
        Ok(pages)
    }

    /// Returns the page that is emptied next, if one is left.
    fn next_page(&self) -> Option<u32>
        ensures { result ≡ slice_get self.now.chosen self.now.next }
    {
        Some(*self.chosen.get(self.next as usize)?)
    }

    /// Counts that page as emptied, or a part that has prepared frames.
    fn pass(&mut self)
        ensures { self.new ≡ passed self.old }
    {
        self.next = self.next.saturating_add(1);
    }
}

/// Returns how many scans of `budget` objects all words in use take, if an object has eight words.
fn scans_in(heap: &Heap, budget: u32) -> u64
    ensures value { result ≡ in_use heap.now * heap.now.config.words / 8 / max budget 1 }
    ensures range { result < 2 ^ 61 }
{
    u64::from(in_use(heap)) * u64::from(heap.config().words) / 8 / u64::from(budget.max(1))
}

/// Returns whether some page is being emptied, and has memory.
fn has_from(pages: &[Page]) -> bool
    ensures { result ≡ has_from pages.now }
{
    pages
        .iter()
        .any(|page| matches!(page.state, PageState::From))
}

/// Returns whether nothing is left of a collection.
fn has_ended(heap: &Heap) -> bool
    ensures { result ≡ true → HasEnded heap.now }
{
    may_start_mark(heap.phase()) && heap.sides().uncopied() == 0 && !has_from(heap.memory().pages())
}

/// Corrects registers that name protected pages, at the end of each part. Returns true if it was the last one, and
/// nothing is left of the collection.
fn end_part(heap: &mut ManagedHeap, last: bool) -> bool
    ensures goes { Goes IsScrub heap.old heap.new }
    ensures scrubbed { is_protect_crossing heap.old.phase ≡ false → AreScrubbed heap.new }
    ensures ended { result ≡ true → HasEnded heap.new }
    ensures last { result ≡ true → last ≡ true }
{
    heap.scrub_all();
    if last { has_ended(heap.heap()) } else { false }
}

/// Does a quantum of the mark.
fn mark_part(heap: &mut ManagedHeap, parts: &mut Parts, budget: u32) -> Result<bool, Refusal>
    ensures { MarksOn parts.old heap.old result parts.new heap.new }
{
    match mark_some(heap, u64::from(budget.max(1))) {
        Ok(true) => {
            parts.begin_choosing();
            Ok(false)
        }
        Ok(false) => Ok(false),
        Err(refusal) => Err(refusal),
    }
}

/// Handles an error of the protection of pages: returns it if out of memory; else the choice is out of date, as a
/// complete collection came between, and the next part begins anew.
fn begin_anew(parts: &mut Parts, refusal: Refusal) -> Result<bool, Refusal>
    ensures { TellsAnew refusal parts.old result parts.new }
{
    if is_memory(&refusal) {
        return Err(refusal);
    }
    parts.begin(Stage::Mark);
    Ok(false)
}

/// Returns whether an error is that of being out of memory.
fn is_memory(refusal: &Refusal) -> bool
    ensures { result ≡ is_memory refusal.now }
{
    matches!(*refusal, Refusal::Memory)
}

/// Has all threads cross after the protection of pages.
fn cross_part(heap: &mut ManagedHeap) -> Result<bool, Refusal>
    ensures { EndsCrossed heap.old result heap.new }
{
    match cross(heap) {
        Ok(()) => Ok(false),
        Err(refusal) => Err(refusal),
    }
}

/// Protects the chosen pages, and has all threads cross.
fn protect_part(heap: &mut ManagedHeap, parts: &mut Parts, pages: Vec<u32>) -> Result<bool, Refusal>
    requires { parts.old.chosen ≡ pages.items }
    ensures { ProtectsSome pages.items parts.old.most parts.old.words heap.old result parts.new heap.new }
{
    match protect(heap, pages) {
        Ok(()) => {
            parts.begin(Stage::Empty);
            cross_part(heap)
        }
        Err(refusal) => begin_anew(parts, refusal),
    }
}

/// Chooses pages, and protects them; if there are none the collection has ended.
fn choose_part(heap: &mut ManagedHeap, alloc: Global, parts: &mut Parts) -> Result<bool, Refusal>
    ensures { ChoosesAll parts.old heap.old result parts.new heap.new }
{
    match parts.choose(alloc, heap.heap()) {
        Ok(pages) => {
            if pages.is_empty() {
                parts.begin(Stage::Mark);
                Ok(true)
            } else {
                protect_part(heap, parts, pages)
            }
        }
        Err(_) => Err(Refusal::Memory),
    }
}

/// Prepares memory of some of the frames that are free, so that the part that protects finds it. If out of memory,
/// the next part does without.
fn prepare_part(heap: &mut ManagedHeap, parts: &mut Parts, budget: u32) -> Result<bool, Refusal>
    ensures { PreparesSome parts.old heap.old result parts.new heap.new }
{
    let most = parts.frames.min(heap.heap().memory().free_frames());
    let count = frames_by(budget, heap.heap().config().words) + 1;
    match prepare_some(heap, most, count) {
        Ok(()) => {
            parts.pass();
            Ok(false)
        }
        Err(_) => {
            parts.prepare_none();
            Err(Refusal::Memory)
        }
    }
}

/// Prepares frames; if that is done, chooses pages and protects them.
fn prepare_or_choose(
    heap: &mut ManagedHeap,
    alloc: Global,
    parts: &mut Parts,
    budget: u32,
) -> Result<bool, Refusal>
    ensures { PreparesOn budget parts.old heap.old result parts.new heap.new }
{
    if parts.is_prepared(heap.heap(), budget) {
        choose_part(heap, alloc, parts)
    } else {
        prepare_part(heap, parts, budget)
    }
}

/// Empties a page; if none is left the collection has ended.
fn empty_part(heap: &mut ManagedHeap, parts: &mut Parts) -> Result<bool, Refusal>
    ensures { EmptiesOn parts.old heap.old result parts.new heap.new }
{
    match parts.next_page() {
        None => {
            parts.begin(Stage::Mark);
            Ok(true)
        }
        Some(page) => match empty_one(heap, page) {
            Ok(()) => {
                parts.pass();
                Ok(false)
            }
            Err(refusal) => Err(refusal),
        },
    }
}

/// Does the work of the next part of a collection. Returns true if it is the last one.
fn next_part(
    heap: &mut ManagedHeap,
    alloc: Global,
    parts: &mut Parts,
    percent: u32,
    budget: u32,
) -> Result<bool, Refusal>
    ensures { GoesOn percent budget parts.old heap.old result parts.new heap.new }
{
    match parts.stage {
        Stage::Mark => mark_part(heap, parts, budget),
        Stage::Choose => measure_part(heap, parts, percent, budget),
        Stage::Prepare => prepare_or_choose(heap, alloc, parts, budget),
        Stage::Empty => empty_part(heap, parts),
    }
}

/// Does the next part of a collection.
pub(crate) fn collect_some(
    heap: &mut ManagedHeap,
    alloc: Global,
    parts: &mut Parts,
    percent: u32,
    budget: u32,
) -> Result<bool, Refusal>
    ensures ends { EndsPart heap.old result heap.new }
    ensures scrubbed { IfOk result (λ ended. is_protect_crossing heap.new.phase ≡ false → AreScrubbed heap.new) }
    ensures parts { PartGoesOn percent budget parts.old heap.old result parts.new heap.new }
{
    match next_part(heap, alloc, parts, percent, budget) {
        Ok(last) => Ok(end_part(heap, last)),
        Err(refusal) => Err(refusal),
    }
}
