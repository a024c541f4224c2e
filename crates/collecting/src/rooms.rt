//! Fresh buffers, for which the heap is collected if frames run low.

ghost use Rattle.std.specs.Prelude.{◌≡◌};
ghost use Rattle.collecting.specs.Collections.{lacks_room};
ghost use Rattle.collecting.specs.Counting.{CountsMade, CountsMake, CountsPolicy, CountsRefill, CountsRoom, HasCounted};
ghost use Rattle.collecting.specs.Counting.{TakesOnly};
ghost use Rattle.collecting.specs.declared.counting.Cause.TheVariants as causes;
ghost use Rattle.collecting.specs.Rooms.{EndsMaking, HasMarkedSince, IsAny, Refills, RefillsBy, RefillsWhole};

use crate::counting::{Cause, Counters, collect_counted};
use crate::cycles::mark_whole;
use crate::executor::Alone;
use crate::low::are_low;
use crate::policy::Policy;
use managed::{ManagedHeap, Mutate};
use model::{Buffer, Refusal};
use std::alloc::Global;

/// Returns whether an error says that there are too few frames or pages.
fn lacks_room(refusal: &Refusal) -> bool
    ensures { result ≡ lacks_room refusal.now }
{
    matches!(*refusal, Refusal::NoFrames { .. } | Refusal::NoPages)
}

/// Gives back the buffer that the thread has, if any, and takes one.
fn take(heap: &mut ManagedHeap, policy: Policy, thread: u32) -> Result<Buffer, Refusal>
    ensures takes { RefillsBy IsAny thread policy.words policy.percent heap.old result heap.new }
    ensures only { TakesOnly thread heap.old heap.new }
{
    let _given = heap.give_back(thread);
    heap.take(thread, policy.words)
}

/// Runs a mark, and takes the buffer: the numbers of pages that a collection has emptied are free only at the end of
/// the next mark.
fn mark_and_take(heap: &mut ManagedHeap, policy: Policy, thread: u32) -> Result<Buffer, Refusal>
    ensures { RefillsBy (HasMarkedSince thread) thread policy.words policy.percent heap.old result heap.new }
{
    match mark_whole(heap, &Alone) {
        Ok(_) => take(heap, policy, thread),
        Err(refusal) => Err(refusal),
    }
}

/// Takes the buffer; if there is no space for it a mark runs before.
fn take_or_mark(heap: &mut ManagedHeap, policy: Policy, thread: u32) -> Result<Buffer, Refusal>
    ensures { RefillsBy (HasMarkedSince thread) thread policy.words policy.percent heap.old result heap.new }
{
    match take(heap, policy, thread) {
        Ok(buffer) => Ok(buffer),
        Err(refusal) => {
            if lacks_room(&refusal) {
                mark_and_take(heap, policy, thread)
            } else {
                Err(refusal)
            }
        }
    }
}

/// Collects the heap, and takes the buffer.
fn collect_and_take(
    heap: &mut ManagedHeap,
    alloc: Global,
    counters: &mut Counters,
    cause: Cause,
    policy: Policy,
    thread: u32,
) -> Result<Buffer, Refusal>
    ensures refills { RefillsWhole thread policy.words policy.percent heap.old result heap.new }
    ensures counts { HasCounted cause policy.percent heap.old counters.old counters.new }
{
    match collect_counted(heap, alloc, counters, cause, policy.percent, &Alone) {
        Ok(_) => take_or_mark(heap, policy, thread),
        Err(refusal) => Err(refusal),
    }
}

/// Takes the buffer; if there is no space for it the heap is collected before.
fn take_or_collect(
    heap: &mut ManagedHeap,
    alloc: Global,
    counters: &mut Counters,
    policy: Policy,
    thread: u32,
) -> Result<Buffer, Refusal>
    ensures refills { RefillsWhole thread policy.words policy.percent heap.old result heap.new }
    ensures counts { CountsRoom thread policy.words policy.percent heap.old counters.old heap.new counters.new }
{
    match take(heap, policy, thread) {
        Ok(buffer) => Ok(buffer),
        Err(refusal) => {
            if lacks_room(&refusal) {
                collect_and_take(heap, alloc, counters, Cause::Room, policy, thread)
            } else {
                Err(refusal)
            }
        }
    }
}

/// Takes the buffer; if frames are low, or there is no space for it, the heap is collected before.
fn take_by_policy(
    heap: &mut ManagedHeap,
    alloc: Global,
    counters: &mut Counters,
    policy: Policy,
    thread: u32,
) -> Result<Buffer, Refusal>
    ensures refills { RefillsWhole thread policy.words policy.percent heap.old result heap.new }
    ensures counts { CountsPolicy thread policy.words policy.free policy.percent heap.old counters.old heap.new
        counters.new }
{
    if are_low(heap.heap(), policy.free) {
        collect_and_take(heap, alloc, counters, Cause::Policy, policy, thread)
    } else {
        take_or_collect(heap, alloc, counters, policy, thread)
    }
}

/// Gives back the buffer that the thread has, if any.
fn give(heap: &mut ManagedHeap, thread: u32)
    ensures gives { Refills thread heap.old heap.new }
    ensures only { TakesOnly thread heap.old heap.new }
{
    let _ = heap.give_back(thread);
}

/// Gives back the buffer that the thread has, if any, and gets it a fresh one; counts a collection for it.
pub(crate) fn refill_counted(
    heap: &mut ManagedHeap,
    alloc: Global,
    counters: &mut Counters,
    policy: Policy,
    thread: u32,
) -> Result<Buffer, Refusal>
    ensures refills { RefillsWhole thread policy.words policy.percent heap.old result heap.new }
    ensures counts { CountsRefill thread policy.words policy.free policy.percent heap.old counters.old heap.new
        counters.new }
{
    give(heap, thread);
    let result = take_by_policy(heap, alloc, counters, policy, thread);
    counters.see(heap.heap());
    result
}

/// As `refill_counted`, without counting.
pub(crate) fn refill(
    heap: &mut ManagedHeap,
    alloc: Global,
    policy: Policy,
    thread: u32,
) -> Result<Buffer, Refusal>
    ensures { RefillsWhole thread policy.words policy.percent heap.old result heap.new }
{
    let mut counters = Counters::new();
    refill_counted(heap, alloc, &mut counters, policy, thread)
}

/// Gets a fresh buffer, and makes an object; counts a collection for it.
#[cold]
#[inline(never)]
fn refill_and_make_counted(
    heap: &mut ManagedHeap,
    alloc: Global,
    counters: &mut Counters,
    policy: Policy,
    thread: u32,
    target: u32,
    layout: u32,
) -> Result<u64, Refusal>
    ensures makes { EndsMaking thread policy.words policy.percent target layout heap.old result heap.new }
    ensures counts { CountsMade thread policy.words policy.free policy.percent heap.old counters.old counters.new }
{
    match refill_counted(heap, alloc, counters, policy, thread) {
        Ok(_) => heap.new_object(thread, target, layout),
        Err(refusal) => Err(refusal),
    }
}

/// As `refill_and_make_counted`, without counting.
#[cold]
#[inline(never)]
fn refill_and_make(
    heap: &mut ManagedHeap,
    alloc: Global,
    policy: Policy,
    thread: u32,
    target: u32,
    layout: u32,
) -> Result<u64, Refusal>
    ensures { EndsMaking thread policy.words policy.percent target layout heap.old result heap.new }
{
    let mut counters = Counters::new();
    refill_and_make_counted(heap, alloc, &mut counters, policy, thread, target, layout)
}

/// Makes an object; if the thread's buffer has no space for it, it gets a fresh one before.
#[inline(always)]
pub(crate) fn make(
    heap: &mut ManagedHeap,
    alloc: Global,
    policy: Policy,
    thread: u32,
    target: u32,
    layout: u32,
) -> Result<u64, Refusal>
    ensures { EndsMaking thread policy.words policy.percent target layout heap.old result heap.new }
{
    match heap.new_object(thread, target, layout) {
        Ok(birth) => Ok(birth),
        Err(Refusal::NoRoom) => refill_and_make(heap, alloc, policy, thread, target, layout),
        Err(refusal) => Err(refusal),
    }
}

/// Makes an object; counts a collection for it.
#[inline(always)]
pub(crate) fn make_counted(
    heap: &mut ManagedHeap,
    alloc: Global,
    counters: &mut Counters,
    policy: Policy,
    thread: u32,
    target: u32,
    layout: u32,
) -> Result<u64, Refusal>
    ensures makes { EndsMaking thread policy.words policy.percent target layout heap.old result heap.new }
    ensures counts { CountsMake thread policy.words policy.free policy.percent target layout heap.old counters.old
        counters.new }
{
    match heap.new_object(thread, target, layout) {
        Ok(number) => Ok(number),
        Err(Refusal::NoRoom) => {
            refill_and_make_counted(heap, alloc, counters, policy, thread, target, layout)
        }
        Err(refusal) => Err(refusal),
    }
}
