//! Objects that are made during a collection in parts: each fresh buffer does its share of it.

ghost use Rattle.std.specs.Prelude.{◌≡◌, ◌^◌, ◌<◌, length};
ghost use Rattle.managed.specs.Batches.{LayoutHas};
ghost use Rattle.collecting.specs.Counting.{CountsPaced, CountsParts};
ghost use Rattle.collecting.specs.Filling.{EndsMakingWith, MakesAndFills};
ghost use Rattle.collecting.specs.Pacing.{MakesPaced, Paces, PacesAndMakes, frames_ahead, is_due, lacks_buffer};
ghost use Rattle.collecting.specs.Pacing.{is_urgent, left_by, left_frames, most_parts, share, share_of, stops};

use crate::collecting::Collect;
use crate::counting::{Counters, part_counted};
use crate::low::are_low;
use crate::parts::Parts;
use crate::policy::Policy;
use crate::rooms::make_counted;
use heap::Heap;
use managed::{ManagedHeap, Mutate};
use model::Refusal;
use std::alloc::Global;

/// Returns whether an object wasn't made because its thread's buffer has no space for it.
#[inline(always)]
pub(crate) fn lacks_buffer(made: &Result<u64, Refusal>) -> bool
    ensures { result ≡ lacks_buffer made.now }
{
    matches!(*made, Err(Refusal::NoRoom))
}

/// Returns whether a collection has begun, or frames are low.
fn is_due(heap: &Heap, parts: &Parts, free: u32) -> bool
    ensures { result ≡ is_due free parts.now heap.now }
{
    parts.has_begun(heap) || are_low(heap, free)
}

/// Returns at how many free frames the rest of a collection is done at once, if a policy has `free`: a quarter, as
/// objects need frames to move to. With a single one, a heap of dense pages would gain almost nothing.
fn left_frames(free: u32) -> u32
    ensures { result ≡ left_frames free }
{
    (free / 4).max(free.min(1))
}

/// As `left_frames`; but 0 while a collection empties pages, each of which frees one.
fn left_by(parts: &Parts, free: u32) -> u32
    ensures { result ≡ left_by parts.now free }
{
    if parts.is_emptying() {
        0
    } else {
        left_frames(free)
    }
}

/// Returns how many frames may be taken until `left_by` are free.
fn frames_ahead(heap: &Heap, parts: &Parts, free: u32) -> u32
    ensures { result ≡ frames_ahead free parts.now heap.now }
{
    heap.memory()
        .free_frames()
        .saturating_sub(left_by(parts, free))
}

/// More parts than a collection has.
const ALL: u64 = 1 << 40;

/// Returns how many parts a fresh buffer does of a stage with `parts`: as many as end it in a quarter of the frames
/// that may be taken, and two more; all if there are none.
fn share_of(parts: u64, ahead: u32) -> u64
    requires { parts < 2 ^ 61 }
    ensures { result ≡ share_of parts ahead }
{
    if ahead == 0 {
        ALL
    } else {
        4 * parts / u64::from(ahead) + 2
    }
}

/// Returns how many parts of a collection a fresh buffer does, at the collection's current stage. A part empties one
/// page at most, and a fresh buffer may take a page: with one part for each no frame would ever come back.
fn share(heap: &Heap, parts: &Parts, free: u32, budget: u32) -> u64
    ensures { result ≡ share free budget parts.now heap.now }
{
    if is_due(heap, parts, free) {
        share_of(
            parts.parts_in(heap, budget),
            frames_ahead(heap, parts, free),
        )
    } else {
        0
    }
}

/// Returns `share`, or `ALL` if `all`.
fn most_parts(heap: &Heap, parts: &Parts, all: bool, free: u32, budget: u32) -> u64
    ensures value { result ≡ most_parts all free budget parts.now heap.now }
    ensures range { result < 2 ^ 64 }
{
    if all {
        ALL
    } else {
        share(heap, parts, free, budget)
    }
}

/// Returns whether all parts of a collection that is due are to be done at once, as no frames are ahead.
fn is_urgent(heap: &Heap, parts: &Parts, free: u32) -> bool
    ensures { result ≡ is_urgent free parts.now heap.now }
{
    is_due(heap, parts, free) && frames_ahead(heap, parts, free) == 0
}

/// Returns whether a part is the last one: the collection has ended, or it failed.
fn stops(part: &Result<bool, Refusal>) -> bool
    ensures { result ≡ stops part.now }
{
    match part {
        Ok(ended) => *ended,
        Err(_) => true,
    }
}

/// Does the parts of a collection that are the share of a fresh buffer, up to the last one. If that one is out of
/// memory, this is ignored: the heap is collected by one call if no frame is left.
fn pace(
    heap: &mut ManagedHeap,
    alloc: Global,
    counters: &mut Counters,
    parts: &mut Parts,
    policy: Policy,
    budget: u32,
)
    ensures paces { Paces (is_urgent policy.free parts.old heap.old) policy.free policy.percent budget parts.old
        heap.old parts.new heap.new }
    ensures counts { CountsParts (is_urgent policy.free parts.old heap.old) policy.free policy.percent budget parts.old
        heap.old counters.old parts.new heap.new counters.new }
{
    let all = is_urgent(heap.heap(), parts, policy.free);
    for done in 0..u64::MAX {
        if done >= most_parts(heap.heap(), parts, all, policy.free, budget) {
            return;
        }
        let part = part_counted(heap, alloc, counters, parts, policy.percent, budget);
        if stops(&part) {
            return;
        }
    }
    let _most = most_parts(heap.heap(), parts, all, policy.free, budget);
}

/// Does a fresh buffer's share of a collection, and then makes an object. The heap is collected by one call only if
/// no frame is free. All collections are counted.
#[cold]
#[inline(never)]
pub(crate) fn pace_and_make_counted(
    heap: &mut ManagedHeap,
    alloc: Global,
    counters: &mut Counters,
    parts: &mut Parts,
    policy: Policy,
    budget: u32,
    thread: u32,
    target: u32,
    layout: u32,
) -> Result<u64, Refusal>
    ensures makes { PacesAndMakes thread policy.words policy.percent policy.free budget target layout parts.old heap.old
        result parts.new heap.new }
    ensures counts { CountsPaced thread policy.words policy.free policy.percent budget target layout parts.old heap.old
        counters.old parts.new counters.new }
{
    pace(heap, alloc, counters, parts, policy, budget);
    let last = Policy {
        words: policy.words,
        free: 0,
        percent: policy.percent,
    };
    make_counted(heap, alloc, counters, last, thread, target, layout)
}

/// As `pace_and_make_counted`, without counting.
#[cold]
#[inline(never)]
fn pace_and_make(
    heap: &mut ManagedHeap,
    alloc: Global,
    parts: &mut Parts,
    policy: Policy,
    budget: u32,
    thread: u32,
    target: u32,
    layout: u32,
) -> Result<u64, Refusal>
    ensures { PacesAndMakes thread policy.words policy.percent policy.free budget target layout parts.old heap.old
        result parts.new heap.new }
{
    let mut counters = Counters::new();
    pace_and_make_counted(
        heap,
        alloc,
        &mut counters,
        parts,
        policy,
        budget,
        thread,
        target,
        layout,
    )
}

/// Makes an object; if the thread's buffer has no space for it, a fresh buffer's share of a collection comes first.
#[inline(always)]
pub(crate) fn make_paced(
    heap: &mut ManagedHeap,
    alloc: Global,
    parts: &mut Parts,
    policy: Policy,
    budget: u32,
    thread: u32,
    target: u32,
    layout: u32,
) -> Result<u64, Refusal>
    ensures { MakesPaced thread policy.words policy.percent policy.free budget target layout parts.old heap.old result
        parts.new heap.new }
{
    let made = heap.new_object(thread, target, layout);
    if lacks_buffer(&made) {
        pace_and_make(heap, alloc, parts, policy, budget, thread, target, layout)
    } else {
        made
    }
}

/// Makes an object during a collection in parts, and fills it.
#[inline(always)]
fn make_paced_and_fill(
    heap: &mut ManagedHeap,
    alloc: Global,
    parts: &mut Parts,
    policy: Policy,
    budget: u32,
    thread: u32,
    target: u32,
    layout: u32,
    sources: &[u32],
    nums: &[u64],
) -> Result<u64, Refusal>
    requires { LayoutHas (length sources.now) (length nums.now) }
    ensures { MakesAndFills thread policy.words policy.percent target layout sources.now nums.now heap.old result
        heap.new }
{
    match heap.make_paced(alloc, parts, policy, budget, thread, target, layout) {
        Ok(birth) => match heap.fill(thread, target, sources, nums) {
            Ok(()) => Ok(birth),
            Err(refusal) => Err(refusal),
        },
        Err(refusal) => Err(refusal),
    }
}

/// Makes an object during a collection in parts and fills it, if it can be filled.
#[inline(always)]
pub(crate) fn make_with_paced(
    heap: &mut ManagedHeap,
    alloc: Global,
    parts: &mut Parts,
    policy: Policy,
    budget: u32,
    thread: u32,
    target: u32,
    layout: u32,
    sources: &[u32],
    nums: &[u64],
) -> Result<u64, Refusal>
    ensures { EndsMakingWith thread policy.words policy.percent target layout sources.now nums.now heap.old result
        heap.new }
{
    match heap.may_fill(thread, target, layout, sources, nums) {
        Ok(()) => make_paced_and_fill(
            heap, alloc, parts, policy, budget, thread, target, layout, sources, nums,
        ),
        Err(refusal) => Err(refusal),
    }
}
