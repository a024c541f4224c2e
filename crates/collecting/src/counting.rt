//! Counters of collections, alongside a heap.

ghost use Rattle.std.specs.Prelude.{◌≡◌, IfOk, false};
ghost use Rattle.model.specs.Phases.{is_protect_crossing};
ghost use Rattle.managed.specs.Scrubbing.{AreScrubbed};
ghost use Rattle.collecting.specs.Collections.{EndsCollecting};
ghost use Rattle.collecting.specs.Counting.{begun, counted, ended, no_counts, part_counted, part_done, result_counted};
ghost use Rattle.collecting.specs.Counting.{seen_in_use, words_counted};
ghost use Rattle.collecting.specs.Parts.{EndsPart};
ghost use Rattle.collecting.specs.Stages.{PartGoesOn};
ghost use Rattle.collecting.specs.Targets.{in_use};

use crate::collecting::Collected;
use crate::cycles::collect_whole;
use crate::executor::Executor;
use crate::low::in_use;
use crate::parts::{Parts, collect_some};
use heap::Heap;
use managed::ManagedHeap;
use model::Refusal;
use std::alloc::Global;

/// Why a complete collection has begun.
#[derive(Clone, Copy, Debug, PartialEq, Eq)]
pub enum Cause {
    /// A call requested it.
    Call,
    /// A thread was to get a fresh buffer, and at most `policy.free` frames were free.
    Policy,
    /// A thread was to get a fresh buffer, and there was no space for one.
    Room,
}

/// Counters of a heap's collections, since they were made. A program keeps them alongside its heap; the calls of
/// `CollectCounted` count. Each number stops at the greatest of 64 bits.
#[derive(Clone, Copy, Debug, PartialEq, Eq)]
pub struct Counters {
    /// Complete collections that have begun because a call requested them.
    pub by_calls: u64,
    /// Complete collections that have begun for a fresh buffer, as few frames were free.
    pub by_policy: u64,
    /// Complete collections that have begun for a fresh buffer, as there was no space for one.
    pub by_room: u64,
    /// Complete collections that have ended. Each other one that has begun has failed.
    pub ended: u64,
    /// Collections in parts that a part has begun.
    pub by_parts: u64,
    /// Parts that were done.
    pub parts: u64,
    /// Collections in parts that have ended.
    pub ended_in_parts: u64,
    /// Pages that collections have emptied, complete ones and those in parts.
    pub emptied: u64,
    /// The live objects that the last complete collection has found.
    pub live: u64,
    /// The words that live objects had after the mark of the last collection that has chosen pages, also in parts.
    pub live_words: u64,
    /// Words that collections have copied: those of the live objects of the pages that complete collections have
    /// emptied, and collections in parts have protected.
    pub copied: u64,
    /// The most frames that were used after a call of `CollectCounted`.
    pub most_frames: u32,
}

impl Counters {
    /// Returns counters at 0.
    pub fn new() -> Counters
        ensures { result ≡ no_counts }
    {
        Counters {
            by_calls: 0,
            by_policy: 0,
            by_room: 0,
            ended: 0,
            by_parts: 0,
            parts: 0,
            ended_in_parts: 0,
            emptied: 0,
            live: 0,
            live_words: 0,
            copied: 0,
            most_frames: 0,
        }
    }

    /// Counts the beginning of a complete collection.
    fn begin(&mut self, cause: Cause)
        ensures { self.new ≡ begun cause self.old }
    {
        match cause {
            Cause::Call => self.by_calls = self.by_calls.saturating_add(1),
            Cause::Policy => self.by_policy = self.by_policy.saturating_add(1),
            Cause::Room => self.by_room = self.by_room.saturating_add(1),
        }
    }

    /// Counts the end of a complete collection.
    fn end(&mut self, answer: &Result<Collected, Refusal>)
        ensures { self.new ≡ ended answer.now self.old }
    {
        if let Ok(collected) = answer {
            self.ended = self.ended.saturating_add(1);
            self.emptied = self.emptied.saturating_add(collected.emptied);
            self.copied = self.copied.saturating_add(collected.copied);
            self.live = collected.live;
            self.live_words = collected.live_words;
        }
    }

    /// Counts the frames that are used now.
    pub(crate) fn see(&mut self, heap: &Heap)
        ensures { self.new ≡ seen_in_use (in_use heap.now) self.old }
    {
        let used = in_use(heap);
        if used > self.most_frames {
            self.most_frames = used;
        }
    }

    /// Counts a part that was done: whether it has begun a collection, emptied a page, or ended the collection.
    fn count_part(&mut self, begins: bool, empties: bool, ends: bool)
        ensures { self.new ≡ part_done begins empties ends self.old }
    {
        self.parts = self.parts.saturating_add(1);
        if begins {
            self.by_parts = self.by_parts.saturating_add(1);
        }
        if empties {
            self.emptied = self.emptied.saturating_add(1);
        }
        if ends {
            self.ended_in_parts = self.ended_in_parts.saturating_add(1);
        }
    }

    /// Counts a part, if it didn't fail.
    fn count_result(&mut self, begins: bool, empties: bool, part: &Result<bool, Refusal>)
        ensures { self.new ≡ result_counted begins empties part.now self.old }
    {
        if let Ok(ends) = part {
            self.count_part(begins, empties, *ends);
        }
    }

    /// Counts the words that live, if pages were chosen, and those that are copied, if they were protected.
    fn count_words(&mut self, chosen: bool, parts: &Parts)
        ensures { self.new ≡ words_counted chosen parts.now self.old }
    {
        let words = parts.words();
        if chosen {
            self.live_words = words.all;
        }
        if chosen && parts.is_emptying() {
            self.copied = self.copied.saturating_add(words.copied);
        }
    }
}

/// Does a complete collection, and counts it.
pub(crate) fn collect_counted<M: Executor>(
    heap: &mut ManagedHeap,
    alloc: Global,
    counters: &mut Counters,
    cause: Cause,
    percent: u32,
    by: &M,
) -> Result<Collected, Refusal>
    requires { M.may_mark by.now }
    ensures ends { EndsCollecting percent heap.old result heap.new }
    ensures scrubbed { IfOk result (λ collected. AreScrubbed heap.new) }
    ensures counts { counters.new ≡ counted cause result counters.old }
{
    counters.begin(cause);
    let result = collect_whole(heap, alloc, percent, by);
    counters.end(&result);
    result
}

/// Does the next part of a collection, which is counted if it is done.
pub(crate) fn part_counted(
    heap: &mut ManagedHeap,
    alloc: Global,
    counters: &mut Counters,
    parts: &mut Parts,
    percent: u32,
    budget: u32,
) -> Result<bool, Refusal>
    ensures ends { EndsPart heap.old result heap.new }
    ensures scrubbed { IfOk result (λ ended. is_protect_crossing heap.new.phase ≡ false → AreScrubbed heap.new) }
    ensures parts { PartGoesOn percent budget parts.old heap.old result parts.new heap.new }
    ensures counts { counters.new ≡ part_counted parts.old heap.old result parts.new counters.old }
{
    let begins = !parts.has_begun(heap.heap());
    let empties = parts.is_emptying();
    let prepares = parts.is_preparing();
    let result = collect_some(heap, alloc, parts, percent, budget);
    counters.count_result(begins, empties, &result);
    counters.count_words(prepares && !parts.is_preparing(), parts);
    result
}
