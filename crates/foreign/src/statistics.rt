//! Statistics of a heap.

ghost use Rattle.std.specs.Prelude.{◌≡◌, slice_get};
ghost use Rattle.foreign.specs.Statistics.{AreOf, Told, add_to, sum_of, summed};

use crate::codes::{DONE, NO_HEAP};
use crate::handle::Handle;
use crate::held::Held;
use heap::Heap;
use model::Tally;

/// `pauseless_statistics`: the counters of a heap and its collections.
#[repr(C)]
#[derive(Clone, Copy)]
pub struct StatisticsOfC {
    /// How many objects were born.
    pub births: u64,
    /// How many live objects the last complete collection has found.
    pub live: u64,
    /// How many words live objects had after the mark of the last collection that has chosen pages.
    pub live_words: u64,
    /// Complete collections that have begun because a call asked for them.
    pub by_calls: u64,
    /// Complete collections that have begun for a fresh buffer, as few frames were free.
    pub by_policy: u64,
    /// Complete collections that have begun for a fresh buffer, as there was no space for one.
    pub by_room: u64,
    /// Complete collections that have ended.
    pub ended: u64,
    /// Collections in parts that have begun.
    pub by_parts: u64,
    /// Parts that were done.
    pub parts: u64,
    /// Collections in parts that have ended.
    pub ended_in_parts: u64,
    /// Pages that collections have emptied.
    pub emptied: u64,
    /// Words that collections have copied.
    pub copied: u64,
    /// Loads that have begun.
    pub loads: u64,
    /// Loads whose reference was corrected, as its object had moved or was to be moved.
    pub moved: u64,
    /// Loads whose reference was marked.
    pub marked: u64,
    /// Places that were healed.
    pub healed: u64,
    /// Places that had changed, and weren't healed.
    pub changed: u64,
    /// The frames in use.
    pub used: u32,
    /// The most frames that were in use after a call that may collect.
    pub most_used: u32,
}

/// Returns the sum of two threads' counters.
fn sum_of(one: Tally, two: Tally) -> Tally
    ensures { result ≡ sum_of one two }
{
    Tally {
        loads: one.loads.saturating_add(two.loads),
        gc: one.gc.saturating_add(two.gc),
        nmt: one.nmt.saturating_add(two.nmt),
        healed: one.healed.saturating_add(two.healed),
        changed: one.changed.saturating_add(two.changed),
    }
}

/// Adds the counters of a thread, if there is one of this number.
fn add_to(sum: Tally, heap: &Heap, thread: usize) -> Tally
    ensures { result ≡ add_to sum (slice_get heap.now.threads thread) }
{
    match heap.threads().get(thread) {
        None => sum,
        Some(found) => sum_of(sum, found.tally()),
    }
}

/// Returns the sum of the barrier counters of all threads.
fn summed(heap: &Heap) -> Tally
    ensures { result ≡ summed heap.now.threads }
{
    let mut sum = Tally::blank();
    for index in 0..heap.threads().len() {
        sum = add_to(sum, heap, index);
    }
    sum
}

/// Returns the statistics of a handle's contents.
fn statistics_of(held: &Held) -> StatisticsOfC
    ensures { AreOf held.now result }
{
    let inside = held.heap.heap();
    let (counters, barriers) = (held.counters, summed(inside));
    StatisticsOfC {
        births: inside.births(),
        live: counters.live,
        live_words: counters.live_words,
        by_calls: counters.by_calls,
        by_policy: counters.by_policy,
        by_room: counters.by_room,
        ended: counters.ended,
        by_parts: counters.by_parts,
        parts: counters.parts,
        ended_in_parts: counters.ended_in_parts,
        emptied: counters.emptied,
        copied: counters.copied,
        loads: barriers.loads,
        moved: barriers.gc,
        marked: barriers.nmt,
        healed: barriers.healed,
        changed: barriers.changed,
        used: inside
            .config()
            .frames
            .saturating_sub(inside.memory().free_frames()),
        most_used: counters.most_frames,
    }
}

/// Writes the statistics of a heap and its collections.
#[unsafe(no_mangle)]
pub extern "C" fn pauseless_get_statistics(heap: &mut Handle, statistics: &mut StatisticsOfC) -> u32
    ensures told { Told heap.old.slot.held result statistics.old statistics.new }
    ensures same { heap.new.slot.held ≡ heap.old.slot.held }
{
    let Some(held) = heap.lend() else {
        return NO_HEAP;
    };
    *statistics = statistics_of(held);
    DONE
}
