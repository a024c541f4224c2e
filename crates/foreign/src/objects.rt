//! Allocation buffers and objects.

ghost use Rattle.std.specs.Prelude.{◌≡◌, ◌-◌, if◌then◌else◌};
ghost use Rattle.model.specs.Saying.{done, lent};
ghost use Rattle.model.specs.declared.steps.Step.TheVariants as steps;
ghost use Rattle.model.specs.declared.steps.Answer.TheVariants as answers;
ghost use Rattle.collecting.specs.Objects.{seen};
ghost use Rattle.collecting.specs.Targets.{larger};
ghost use Rattle.foreign.specs.Calls.{CallsStep, Gives, IsSeen, Made, MadeWith, OnHeld, Refilled, Sees};
ghost use Rattle.foreign.specs.Policies.{MakesBy, MakesWithBy, RefillsBy};
ghost use Rattle.foreign.specs.Which.{look_code};

use crate::codes::{DONE, NO_HEAP};
use crate::handle::Handle;
use crate::held::Held;
use crate::policies::{make_tested, make_with_tested, refill_tested};
use crate::refusals::{give_back_code, new_object_code, take_code};
use crate::which::look_code;
use collecting::{Collect, CollectCounted, Object, Policy};
use managed::Mutate;
use model::{Buffer, Refusal};
use std::alloc::Global;

/// `pauseless_policy`: when a heap is collected for a buffer, as by `Policy`.
#[repr(C)]
#[derive(Clone, Copy)]
pub struct PolicyOfC {
    /// The words of a fresh buffer: 1 to the words of a page.
    pub words: u32,
    /// At most this many frames are free when the heap is collected for it: 0 to the heap's frames.
    pub free: u32,
    /// Pages of which at most this many words of a hundred are live are emptied: 0 to 100.
    pub percent: u32,
    /// How many objects a part of a collection may scan that is done for a fresh buffer; 0 if such a collection is
    /// complete.
    pub budget: u32,
}

/// `pauseless_object`: an object, by its header.
#[repr(C)]
#[derive(Clone, Copy)]
pub struct ObjectOfC {
    /// How many objects were allocated before it.
    pub birth: u64,
    /// The number of its layout.
    pub layout: u32,
    /// How many references it has.
    pub refs: u16,
    /// How many data words it has.
    pub nums: u16,
}

/// Returns the policy of a call, by which the heap is also collected if it uses as many frames as its target allows.
#[inline(always)]
fn policy_of(held: &mut Held, policy: &PolicyOfC) -> Policy
    ensures heap { held.new.heap ≡ held.old.heap }
    ensures parts { held.new.parts ≡ held.old.parts }
    ensures words { result.words ≡ policy.now.words }
    ensures free { result.free ≡ (if held.old.follows
        then larger policy.now.free (held.old.heap.config.frames - held.new.target.frames) else policy.now.free) }
    ensures percent { result.percent ≡ policy.now.percent }
{
    let free = if held.follows {
        held.free_by_target(policy.free)
    } else {
        policy.free
    };
    Policy {
        words: policy.words,
        free,
        percent: policy.percent,
    }
}

/// Takes a buffer of `words` for a thread. Fails as `Mutate::take` does.
#[tactic(auto, using(crate::proofs::Calling::stepped))]
#[unsafe(no_mangle)]
pub extern "C" fn pauseless_take(heap: &mut Handle, thread: u32, words: u32) -> u32
    ensures { CallsStep lent thread (steps.Take words) heap.old.slot.held result heap.new.slot.held }
{
    let Some(held) = heap.lend() else {
        return NO_HEAP;
    };
    match held.heap.take(thread, words) {
        Ok(_) => DONE,
        Err(refusal) => take_code(&held.heap, words, refusal),
    }
}

/// Gives back a thread's buffer. Fails as `Mutate::give_back` does.
#[tactic(auto, using(crate::proofs::Calling::stepped))]
#[unsafe(no_mangle)]
pub extern "C" fn pauseless_give_back(heap: &mut Handle, thread: u32) -> u32
    ensures { CallsStep done thread (steps.GiveBack) heap.old.slot.held result heap.new.slot.held }
{
    let Some(held) = heap.lend() else {
        return NO_HEAP;
    };
    match held.heap.give_back(thread) {
        Ok(()) => DONE,
        Err(refusal) => give_back_code(&held.heap, refusal),
    }
}

/// Allocates an object in the thread's buffer. Fails as `Mutate::new_object` does.
#[tactic(auto, using(crate::proofs::Calling::stepped))]
#[unsafe(no_mangle)]
pub extern "C" fn pauseless_new_object(
    heap: &mut Handle,
    thread: u32,
    target: u32,
    layout: u32,
) -> u32
    ensures { CallsStep answers.Birth thread (steps.New target layout) heap.old.slot.held result heap.new.slot.held }
{
    let Some(held) = heap.lend() else {
        return NO_HEAP;
    };
    match held.heap.new_object(thread, target, layout) {
        Ok(_) => DONE,
        Err(refusal) => new_object_code(&held.heap, target, layout, refusal),
    }
}

/// Allocates an object by the policy: during a collection in parts if it has a budget for these.
#[inline(always)]
pub(crate) fn make_by(
    alloc: Global,
    held: &mut Held,
    policy: &PolicyOfC,
    thread: u32,
    target: u32,
    layout: u32,
) -> Result<u64, Refusal>
    ensures { Made policy.now.words policy.now.percent thread target layout held.old.heap result held.new.heap }
{
    let by = policy_of(held, policy);
    if policy.budget == 0 {
        let counters = &mut held.counters;
        held.heap
            .make_counted(alloc, counters, by, thread, target, layout)
    } else {
        let (counters, parts, budget) = (&mut held.counters, &mut held.parts, policy.budget);
        held.heap
            .make_paced_counted(alloc, counters, parts, by, budget, thread, target, layout)
    }
}

/// Gets a thread a fresh buffer by the policy.
pub(crate) fn refill_by(
    alloc: Global,
    held: &mut Held,
    policy: &PolicyOfC,
    thread: u32,
) -> Result<Buffer, Refusal>
    ensures { Refilled policy.now.words policy.now.percent thread held.old.heap result held.new.heap }
{
    let by = policy_of(held, policy);
    let counters = &mut held.counters;
    let answer = held.heap.refill_counted(alloc, counters, by, thread);
    if held.follows {
        held.follow();
    }
    answer
}

/// Allocates an object by the policy, and fills it.
#[inline(always)]
pub(crate) fn make_with_by(
    alloc: Global,
    held: &mut Held,
    policy: &PolicyOfC,
    thread: u32,
    target: u32,
    layout: u32,
    sources: &[u32],
    nums: &[u64],
) -> Result<u64, Refusal>
    ensures { MadeWith policy.now.words policy.now.percent thread target layout sources.now nums.now held.old.heap
        result held.new.heap }
{
    let by = policy_of(held, policy);
    if policy.budget == 0 {
        let counters = &mut held.counters;
        held.heap
            .make_with_counted(alloc, counters, by, thread, target, layout, sources, nums)
    } else {
        let (counters, parts, budget) = (&mut held.counters, &mut held.parts, policy.budget);
        held.heap.make_with_paced_counted(
            alloc, counters, parts, by, budget, thread, target, layout, sources, nums,
        )
    }
}

/// Allocates an object; if the thread's buffer has no space for it, `pauseless_refill` gets it one before. Fails as
/// `Collect::make` does.
#[tactic(auto, using(crate::proofs::Calling::on_held))]
#[unsafe(no_mangle)]
pub extern "C" fn pauseless_make(
    alloc: Global,
    heap: &mut Handle,
    policy: &PolicyOfC,
    thread: u32,
    target: u32,
    layout: u32,
) -> u32
    ensures { OnHeld (MakesBy policy.now thread target layout) heap.old.slot.held result heap.new.slot.held }
{
    let Some(held) = heap.lend() else {
        return NO_HEAP;
    };
    make_tested(alloc, held, policy, thread, target, layout)
}

/// Allocates an object, for which `pauseless_refill` gets a buffer if the thread's has no space, and fills it: stores
/// registers in its first references, and writes its first data words. Fails as `Collect::make_with` does.
#[tactic(auto, using(crate::proofs::Calling::on_held))]
#[unsafe(no_mangle)]
pub extern "C" fn pauseless_make_with(
    alloc: Global,
    heap: &mut Handle,
    policy: &PolicyOfC,
    thread: u32,
    target: u32,
    layout: u32,
    sources: &[u32],
    nums: &[u64],
) -> u32
    ensures { OnHeld (MakesWithBy policy.now thread target layout sources.now nums.now) heap.old.slot.held result
        heap.new.slot.held }
{
    let Some(held) = heap.lend() else {
        return NO_HEAP;
    };
    make_with_tested(alloc, held, policy, thread, target, layout, sources, nums)
}

/// Gets a thread a fresh buffer, for which the heap is collected by the policy. Fails as `Collect::refill` does.
#[tactic(auto, using(crate::proofs::Calling::on_held))]
#[unsafe(no_mangle)]
pub extern "C" fn pauseless_refill(
    alloc: Global,
    heap: &mut Handle,
    policy: &PolicyOfC,
    thread: u32,
) -> u32
    ensures { OnHeld (RefillsBy policy.now thread) heap.old.slot.held result heap.new.slot.held }
{
    let Some(held) = heap.lend() else {
        return NO_HEAP;
    };
    refill_tested(alloc, held, policy, thread)
}

/// Writes an object that was found for C.
#[inline(always)]
pub(crate) fn tell_object(seen: Object, object: &mut ObjectOfC)
    ensures { IsSeen object.new seen }
{
    object.birth = seen.birth;
    object.layout = seen.layout;
    object.refs = seen.refs;
    object.nums = seen.nums;
}

/// Returns the code of a lookup that failed, by repeating it, which fails again.
#[tactic(auto, using(crate::proofs::Calling::given))]
#[cold]
#[inline(never)]
fn look_refused(heap: &mut Handle, thread: u32, register: u32, object: &mut ObjectOfC) -> u32
    ensures { Gives (look_code thread register) (Sees thread register) (IsSeen object.new) (object.new ≡ object.old)
        heap.old.slot.held result heap.new.slot.held }
{
    let Some(held) = heap.lend() else {
        return NO_HEAP;
    };
    match held.heap.object(thread, register) {
        Ok(seen) => {
            tell_object(seen, object);
            DONE
        }
        Err(refusal) => look_code(&held.heap, thread, register, refusal),
    }
}

/// Writes the object that a register refers to. Fails as `Collect::object` does.
#[tactic(auto, using(crate::proofs::Calling::given))]
#[unsafe(no_mangle)]
pub extern "C" fn pauseless_look(
    heap: &mut Handle,
    thread: u32,
    register: u32,
    object: &mut ObjectOfC,
) -> u32
    ensures { Gives (look_code thread register) (Sees thread register) (IsSeen object.new) (object.new ≡ object.old)
        heap.old.slot.held result heap.new.slot.held }
{
    let Some(held) = heap.lend() else {
        return look_refused(heap, thread, register, object);
    };
    match held.heap.object(thread, register) {
        Ok(seen) => {
            tell_object(seen, object);
            DONE
        }
        Err(_) => look_refused(heap, thread, register, object),
    }
}
