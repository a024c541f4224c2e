//! Calls whose policy or percentage is tested first: if it is out of its range, the call fails, and nothing is done.

ghost use Rattle.std.specs.Prelude.{◌≡◌};
ghost use Rattle.foreign.specs.Policies.{MakesBy, MakesWithBy, RefillsBy, fault_of, percent_fault};

use crate::codes::{DONE, policy_code, refusal_code};
use crate::held::Held;
use crate::objects::{PolicyOfC, make_by, make_with_by, refill_by};
use crate::which::{fill_code, make_code};
use collecting::{Policy, PolicyFault};
use std::alloc::Global;

/// Returns the first field of a policy that is out of its range.
#[inline(always)]
fn fault_of(held: &Held, policy: &PolicyOfC) -> Option<PolicyFault>
    ensures { result ≡ fault_of held.now policy.now }
{
    let given = Policy {
        words: policy.words,
        free: policy.free,
        percent: policy.percent,
    };
    given.fault(held.heap.heap().config())
}

/// Returns the fault of a percentage, if it is out of its range.
#[inline(always)]
pub(crate) fn percent_fault(percent: u32) -> Option<PolicyFault>
    ensures { result ≡ percent_fault percent }
{
    if percent > 100 {
        Some(PolicyFault::Percent)
    } else {
        None
    }
}

/// Allocates an object by a policy, if the policy is in its range.
#[inline(always)]
pub(crate) fn make_tested(
    alloc: Global,
    held: &mut Held,
    policy: &PolicyOfC,
    thread: u32,
    target: u32,
    layout: u32,
) -> u32
    ensures { MakesBy policy.now thread target layout held.old result held.new }
{
    if let Some(fault) = fault_of(held, policy) {
        return policy_code(fault);
    }
    match make_by(alloc, held, policy, thread, target, layout) {
        Ok(_) => DONE,
        Err(refusal) => make_code(&held.heap, policy.words, target, layout, refusal),
    }
}

/// Allocates an object by a policy, if the policy is in its range, and fills it.
#[inline(always)]
pub(crate) fn make_with_tested(
    alloc: Global,
    held: &mut Held,
    policy: &PolicyOfC,
    thread: u32,
    target: u32,
    layout: u32,
    sources: &[u32],
    nums: &[u64],
) -> u32
    ensures { MakesWithBy policy.now thread target layout sources.now nums.now held.old result held.new }
{
    if let Some(fault) = fault_of(held, policy) {
        return policy_code(fault);
    }
    match make_with_by(alloc, held, policy, thread, target, layout, sources, nums) {
        Ok(_) => DONE,
        Err(refusal) => fill_code(&held.heap, policy.words, target, layout, sources, refusal),
    }
}

/// Gets a thread a fresh buffer by a policy, if the policy is in its range.
pub(crate) fn refill_tested(alloc: Global, held: &mut Held, policy: &PolicyOfC, thread: u32) -> u32
    ensures { RefillsBy policy.now thread held.old result held.new }
{
    if let Some(fault) = fault_of(held, policy) {
        return policy_code(fault);
    }
    match refill_by(alloc, held, policy, thread) {
        Ok(_) => DONE,
        Err(refusal) => refusal_code(refusal),
    }
}
