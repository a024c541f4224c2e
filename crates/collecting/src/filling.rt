//! New objects that are filled.

ghost use Rattle.std.specs.Prelude.{◌≡◌, length};
ghost use Rattle.managed.specs.Batches.{EndsFilling, LayoutHas, fill_steps};
ghost use Rattle.collecting.specs.Filling.{EndsMakingWith, MakesAndFills};

use crate::collecting::Collect;
use crate::policy::Policy;
use managed::ManagedHeap;
use model::Refusal;
use std::alloc::Global;

/// Makes an object, and fills it.
#[inline(always)]
fn make_and_fill(
    heap: &mut ManagedHeap,
    alloc: Global,
    policy: Policy,
    thread: u32,
    target: u32,
    layout: u32,
    sources: &[u32],
    nums: &[u64],
) -> Result<u64, Refusal>
    requires { LayoutHas (length sources.now) (length nums.now) }
    ensures { MakesAndFills thread policy.words policy.percent target layout sources.now nums.now heap.old result
        heap.new }
{
    match heap.make(alloc, policy, thread, target, layout) {
        Ok(birth) => match heap.fill(thread, target, sources, nums) {
            Ok(()) => Ok(birth),
            Err(refusal) => Err(refusal),
        },
        Err(refusal) => Err(refusal),
    }
}

/// Makes an object and fills it, if it can be filled.
#[inline(always)]
pub(crate) fn make_with(
    heap: &mut ManagedHeap,
    alloc: Global,
    policy: Policy,
    thread: u32,
    target: u32,
    layout: u32,
    sources: &[u32],
    nums: &[u64],
) -> Result<u64, Refusal>
    ensures { EndsMakingWith thread policy.words policy.percent target layout sources.now nums.now heap.old result
        heap.new }
{
    match heap.may_fill(thread, target, layout, sources, nums) {
        Ok(()) => make_and_fill(heap, alloc, policy, thread, target, layout, sources, nums),
        Err(refusal) => Err(refusal),
    }
}
