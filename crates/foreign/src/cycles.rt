//! Collections.

ghost use Rattle.std.specs.Prelude.{◌≡◌};
ghost use Rattle.foreign.specs.Calls.{IsTold, OnHeld, OnHeldOr};
ghost use Rattle.foreign.specs.Policies.{CollectsBy, CollectsHeld, Limits, PartHeld, PartsBy};

use crate::codes::{DONE, NO_HEAP, policy_code, refusal_code};
use crate::handle::Handle;
use crate::held::Held;
use crate::policies::percent_fault;
use collecting::{CollectCounted, Collected};
use model::Refusal;
use std::alloc::Global;

/// `pauseless_collected`: what a collection has done.
#[repr(C)]
#[derive(Clone, Copy)]
pub struct CollectedOfC {
    /// How many live objects its mark found.
    pub live: u64,
    /// How many words the live objects had, right after the mark.
    pub live_words: u64,
    /// How many pages were emptied.
    pub emptied: u64,
    /// How many words were copied.
    pub copied: u64,
}

/// Writes what a collection has done for C.
fn tell_collected(collected: Collected, done: &mut CollectedOfC)
    ensures { IsTold done.new collected }
{
    done.live = collected.live;
    done.live_words = collected.live_words;
    done.emptied = collected.emptied;
    done.copied = collected.copied;
}

/// Does a complete collection of a heap.
fn collect_whole(alloc: Global, held: &mut Held, percent: u32) -> Result<Collected, Refusal>
    ensures { CollectsHeld percent held.old result held.new }
{
    let counters = &mut held.counters;
    let answer = held.heap.collect_counted(alloc, counters, percent);
    if held.follows {
        held.follow();
    }
    answer
}

/// Does a complete collection, if the percentage is in its range.
fn collect_tested(alloc: Global, held: &mut Held, percent: u32, done: &mut CollectedOfC) -> u32
    ensures { CollectsBy percent done.old done.new held.old result held.new }
{
    if let Some(fault) = percent_fault(percent) {
        return policy_code(fault);
    }
    match collect_whole(alloc, held, percent) {
        Ok(collected) => {
            tell_collected(collected, done);
            DONE
        }
        Err(refusal) => refusal_code(refusal),
    }
}

/// Does a complete collection. Fails as `Collect::collect` does, and for a percentage above 100.
#[tactic(auto, using(crate::proofs::Calling::on_held_or))]
#[unsafe(no_mangle)]
pub extern "C" fn pauseless_collect(
    alloc: Global,
    heap: &mut Handle,
    percent: u32,
    done: &mut CollectedOfC,
) -> u32
    ensures { OnHeldOr (done.new ≡ done.old) (CollectsBy percent done.old done.new) heap.old.slot.held result
        heap.new.slot.held }
{
    let Some(held) = heap.lend() else {
        return NO_HEAP;
    };
    collect_tested(alloc, held, percent, done)
}

/// Has collections in parts empty at most this many pages with live objects each.
#[tactic(auto, using(crate::proofs::Calling::on_held))]
#[unsafe(no_mangle)]
pub extern "C" fn pauseless_empty_at_most(heap: &mut Handle, pages: u32) -> u32
    ensures { OnHeld (Limits pages) heap.old.slot.held result heap.new.slot.held }
{
    let Some(held) = heap.lend() else {
        return NO_HEAP;
    };
    held.parts.empty_at_most(pages);
    DONE
}

/// Does the next part of the collection of a heap.
fn collect_part(alloc: Global, held: &mut Held, percent: u32, budget: u32) -> Result<bool, Refusal>
    ensures { PartHeld percent budget held.old result held.new }
{
    let (counters, parts) = (&mut held.counters, &mut held.parts);
    let answer = held
        .heap
        .collect_some_counted(alloc, counters, parts, percent, budget);
    if held.follows {
        held.follow();
    }
    answer
}

/// Does the next part of a collection, if the percentage is in its range.
fn part_tested(
    alloc: Global,
    held: &mut Held,
    percent: u32,
    budget: u32,
    has_ended: &mut bool,
) -> u32
    ensures { PartsBy percent budget has_ended.old has_ended.new held.old result held.new }
{
    if let Some(fault) = percent_fault(percent) {
        return policy_code(fault);
    }
    match collect_part(alloc, held, percent, budget) {
        Ok(ended) => {
            *has_ended = ended;
            DONE
        }
        Err(refusal) => refusal_code(refusal),
    }
}

/// Does the next part of a collection, which scans at most `budget` objects. Fails as `Collect::collect_some` does,
/// and for a percentage above 100.
#[tactic(auto, using(crate::proofs::Calling::on_held_or))]
#[unsafe(no_mangle)]
pub extern "C" fn pauseless_collect_some(
    alloc: Global,
    heap: &mut Handle,
    percent: u32,
    budget: u32,
    has_ended: &mut bool,
) -> u32
    ensures { OnHeldOr (has_ended.new ≡ has_ended.old) (PartsBy percent budget has_ended.old has_ended.new)
        heap.old.slot.held result heap.new.slot.held }
{
    let Some(held) = heap.lend() else {
        return NO_HEAP;
    };
    part_tested(alloc, held, percent, budget, has_ended)
}
