//! The calls of a program that may collect, with counters alongside its heap.

ghost use Rattle.std.specs.Prelude.{◌≡◌, IfOk, false, length};
ghost use Rattle.model.specs.Phases.{is_protect_crossing};
ghost use Rattle.managed.specs.Batches.{LayoutHas};
ghost use Rattle.managed.specs.Collecting.{StandsUnseen};
ghost use Rattle.managed.specs.Scrubbing.{AreScrubbed};
ghost use Rattle.collecting.specs.Collections.{Collects, EndsCollecting, IsNotRoom};
ghost use Rattle.collecting.specs.Counting.{CountsFill, CountsFillPaced, CountsMake, CountsMakePaced, CountsRefill};
ghost use Rattle.collecting.specs.Counting.{counted, part_counted, seen_in_use};
ghost use Rattle.collecting.specs.Filling.{EndsMakingWith, MakesAndFills};
ghost use Rattle.collecting.specs.Pacing.{MakesPaced};
ghost use Rattle.collecting.specs.Parts.{EndsPart};
ghost use Rattle.collecting.specs.Rooms.{EndsMaking, EndsRefill, IsNotHeld, MakingStands, Refills};
ghost use Rattle.collecting.specs.Stages.{PartGoesOn};
ghost use Rattle.collecting.specs.Targets.{in_use};
ghost use Rattle.collecting.specs.declared.counting.Cause.TheVariants as causes;

use crate::collecting::{Collect, Collected};
use crate::counting::{Cause, Counters, collect_counted, part_counted};
use crate::executor::Alone;
use crate::pacing::{lacks_buffer, pace_and_make_counted};
use crate::parts::Parts;
use crate::policy::Policy;
use crate::rooms::{make_counted, refill_counted};
use managed::{ManagedHeap, Mutate};
use model::{Buffer, Refusal};
use std::alloc::Global;

/// The calls of `Collect` that may collect a heap, each of which counts in `Counters` what it has done. Each has the
/// effect of the call of `Collect` that it is named after on the heap, with the same results and errors.
pub trait CollectCounted: Collect {
    /// As `Collect::collect`; counted as requested by a call.
    fn collect_counted(
        &mut self,
        alloc: Global,
        counters: &mut Counters,
        percent: u32,
    ) -> Result<Collected, Refusal>;

    /// As `Collect::collect_some`. A part that fails isn't counted.
    fn collect_some_counted(
        &mut self,
        alloc: Global,
        counters: &mut Counters,
        parts: &mut Parts,
        percent: u32,
        budget: u32,
    ) -> Result<bool, Refusal>;

    /// As `Collect::refill`. A collection that it begins is counted, by whether frames were low or there was no
    /// space.
    fn refill_counted(
        &mut self,
        alloc: Global,
        counters: &mut Counters,
        policy: Policy,
        thread: u32,
    ) -> Result<Buffer, Refusal>;

    /// As `Collect::make`. A collection is counted as by `refill_counted`; without one the counters stay as they are
    /// if the thread's buffer has space.
    fn make_counted(
        &mut self,
        alloc: Global,
        counters: &mut Counters,
        policy: Policy,
        thread: u32,
        target: u32,
        layout: u32,
    ) -> Result<u64, Refusal>;

    /// As `Collect::make_with`; counts as `make_counted`.
    fn make_with_counted(
        &mut self,
        alloc: Global,
        counters: &mut Counters,
        policy: Policy,
        thread: u32,
        target: u32,
        layout: u32,
        sources: &[u32],
        nums: &[u64],
    ) -> Result<u64, Refusal>;

    /// As `Collect::make_paced`. The parts are counted, and a complete collection as by `make_counted`.
    fn make_paced_counted(
        &mut self,
        alloc: Global,
        counters: &mut Counters,
        parts: &mut Parts,
        policy: Policy,
        budget: u32,
        thread: u32,
        target: u32,
        layout: u32,
    ) -> Result<u64, Refusal>;

    /// As `Collect::make_with_paced`; counts as `make_paced_counted`.
    fn make_with_paced_counted(
        &mut self,
        alloc: Global,
        counters: &mut Counters,
        parts: &mut Parts,
        policy: Policy,
        budget: u32,
        thread: u32,
        target: u32,
        layout: u32,
        sources: &[u32],
        nums: &[u64],
    ) -> Result<u64, Refusal>;
}

/// Makes an object during a collection in parts, and counts all collections for it.
#[inline(always)]
fn make_paced_counted(
    heap: &mut ManagedHeap,
    alloc: Global,
    counters: &mut Counters,
    parts: &mut Parts,
    policy: Policy,
    budget: u32,
    thread: u32,
    target: u32,
    layout: u32,
) -> Result<u64, Refusal>
    ensures makes { MakesPaced thread policy.words policy.percent policy.free budget target layout parts.old heap.old
        result parts.new heap.new }
    ensures counts { CountsMakePaced thread policy.words policy.free policy.percent budget target layout parts.old
        heap.old counters.old parts.new counters.new }
{
    let made = heap.new_object(thread, target, layout);
    if lacks_buffer(&made) {
        pace_and_make_counted(
            heap, alloc, counters, parts, policy, budget, thread, target, layout,
        )
    } else {
        made
    }
}

/// Makes an object during a collection in parts, and fills it; counts all collections for it.
#[inline(always)]
fn make_paced_and_fill_counted(
    heap: &mut ManagedHeap,
    alloc: Global,
    counters: &mut Counters,
    parts: &mut Parts,
    policy: Policy,
    budget: u32,
    thread: u32,
    target: u32,
    layout: u32,
    sources: &[u32],
    nums: &[u64],
) -> Result<u64, Refusal>
    requires { LayoutHas (length sources.now) (length nums.now) }
    ensures makes { MakesAndFills thread policy.words policy.percent target layout sources.now nums.now heap.old result
        heap.new }
    ensures counts { CountsMakePaced thread policy.words policy.free policy.percent budget target layout parts.old
        heap.old counters.old parts.new counters.new }
{
    match heap.make_paced_counted(
        alloc, counters, parts, policy, budget, thread, target, layout,
    ) {
        Ok(birth) => match heap.fill(thread, target, sources, nums) {
            Ok(()) => Ok(birth),
            Err(refusal) => Err(refusal),
        },
        Err(refusal) => Err(refusal),
    }
}

/// Makes an object, and fills it; counts a collection for it.
#[inline(always)]
fn make_and_fill_counted(
    heap: &mut ManagedHeap,
    alloc: Global,
    counters: &mut Counters,
    policy: Policy,
    thread: u32,
    target: u32,
    layout: u32,
    sources: &[u32],
    nums: &[u64],
) -> Result<u64, Refusal>
    requires { LayoutHas (length sources.now) (length nums.now) }
    ensures makes { MakesAndFills thread policy.words policy.percent target layout sources.now nums.now heap.old result
        heap.new }
    ensures counts { CountsMake thread policy.words policy.free policy.percent target layout heap.old counters.old
        counters.new }
{
    match heap.make_counted(alloc, counters, policy, thread, target, layout) {
        Ok(birth) => match heap.fill(thread, target, sources, nums) {
            Ok(()) => Ok(birth),
            Err(refusal) => Err(refusal),
        },
        Err(refusal) => Err(refusal),
    }
}

impl CollectCounted for ManagedHeap {
    fn collect_counted(
        &mut self,
        alloc: Global,
        counters: &mut Counters,
        percent: u32,
    ) -> Result<Collected, Refusal>
        ensures goes { Collects self.old self.new }
        ensures stands { StandsUnseen self.old self.new }
        ensures ends { EndsCollecting percent self.old result self.new }
        ensures room { IsNotRoom result }
        ensures scrubbed { IfOk result (λ collected. AreScrubbed self.new) }
        ensures counts { counters.new ≡ seen_in_use (in_use self.new) (counted causes.Call result counters.old) }
    {
        let result = collect_counted(self, alloc, counters, Cause::Call, percent, &Alone);
        counters.see(self.heap());
        result
    }

    fn collect_some_counted(
        &mut self,
        alloc: Global,
        counters: &mut Counters,
        parts: &mut Parts,
        percent: u32,
        budget: u32,
    ) -> Result<bool, Refusal>
        ensures goes { Collects self.old self.new }
        ensures stands { StandsUnseen self.old self.new }
        ensures ends { EndsPart self.old result self.new }
        ensures room { IsNotRoom result }
        ensures scrubbed { IfOk result
            (λ ended. is_protect_crossing self.new.phase ≡ false → AreScrubbed self.new) }
        ensures parts { PartGoesOn percent budget parts.old self.old result parts.new self.new }
        ensures counts { counters.new ≡ seen_in_use (in_use self.new)
            (part_counted parts.old self.old result parts.new counters.old) }
    {
        let result = part_counted(self, alloc, counters, parts, percent, budget);
        counters.see(self.heap());
        result
    }

    fn refill_counted(
        &mut self,
        alloc: Global,
        counters: &mut Counters,
        policy: Policy,
        thread: u32,
    ) -> Result<Buffer, Refusal>
        ensures goes { Refills thread self.old self.new }
        ensures stands { StandsUnseen self.old self.new }
        ensures ends { EndsRefill thread policy.words policy.percent self.old result self.new }
        ensures buffer { IsNotHeld result }
        ensures counts { CountsRefill thread policy.words policy.free policy.percent self.old counters.old self.new
            counters.new }
    {
        refill_counted(self, alloc, counters, policy, thread)
    }

    #[inline(always)]
    fn make_counted(
        &mut self,
        alloc: Global,
        counters: &mut Counters,
        policy: Policy,
        thread: u32,
        target: u32,
        layout: u32,
    ) -> Result<u64, Refusal>
        ensures stands { MakingStands thread target layout self.old result self.new }
        ensures ends { EndsMaking thread policy.words policy.percent target layout self.old result self.new }
        ensures counts { CountsMake thread policy.words policy.free policy.percent target layout self.old counters.old
            counters.new }
    {
        make_counted(self, alloc, counters, policy, thread, target, layout)
    }

    #[inline(always)]
    fn make_with_counted(
        &mut self,
        alloc: Global,
        counters: &mut Counters,
        policy: Policy,
        thread: u32,
        target: u32,
        layout: u32,
        sources: &[u32],
        nums: &[u64],
    ) -> Result<u64, Refusal>
        ensures ends { EndsMakingWith thread policy.words policy.percent target layout sources.now nums.now self.old
            result self.new }
        ensures counts { CountsFill thread policy.words policy.free policy.percent target layout sources.now nums.now
            self.old counters.old counters.new }
    {
        match self.may_fill(thread, target, layout, sources, nums) {
            Ok(()) => make_and_fill_counted(
                self, alloc, counters, policy, thread, target, layout, sources, nums,
            ),
            Err(refusal) => Err(refusal),
        }
    }

    #[inline(always)]
    fn make_paced_counted(
        &mut self,
        alloc: Global,
        counters: &mut Counters,
        parts: &mut Parts,
        policy: Policy,
        budget: u32,
        thread: u32,
        target: u32,
        layout: u32,
    ) -> Result<u64, Refusal>
        ensures stands { MakingStands thread target layout self.old result self.new }
        ensures ends { EndsMaking thread policy.words policy.percent target layout self.old result self.new }
        ensures paced { MakesPaced thread policy.words policy.percent policy.free budget target layout parts.old
            self.old result parts.new self.new }
        ensures counts { CountsMakePaced thread policy.words policy.free policy.percent budget target layout parts.old
            self.old counters.old parts.new counters.new }
    {
        make_paced_counted(
            self, alloc, counters, parts, policy, budget, thread, target, layout,
        )
    }

    #[inline(always)]
    fn make_with_paced_counted(
        &mut self,
        alloc: Global,
        counters: &mut Counters,
        parts: &mut Parts,
        policy: Policy,
        budget: u32,
        thread: u32,
        target: u32,
        layout: u32,
        sources: &[u32],
        nums: &[u64],
    ) -> Result<u64, Refusal>
        ensures ends { EndsMakingWith thread policy.words policy.percent target layout sources.now nums.now self.old
            result self.new }
        ensures counts { CountsFillPaced thread policy.words policy.free policy.percent budget target layout sources.now
            nums.now parts.old self.old counters.old parts.new counters.new }
    {
        match self.may_fill(thread, target, layout, sources, nums) {
            Ok(()) => make_paced_and_fill_counted(
                self, alloc, counters, parts, policy, budget, thread, target, layout, sources, nums,
            ),
            Err(refusal) => Err(refusal),
        }
    }
}
