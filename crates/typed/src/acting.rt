//! The calls of a program on a heap that owns its policy, its increment and its counters.

ghost use Rattle.std.specs.Prelude.{◌≡◌, IfOk, Some, false, length};
ghost use Rattle.model.specs.Buffers.{buffer_of_thread};
ghost use Rattle.model.specs.Phases.{is_protect_crossing};
ghost use Rattle.model.specs.Saying.{done, lent};
ghost use Rattle.model.specs.declared.steps.Step.TheVariants as steps;
ghost use Rattle.model.specs.declared.steps.Answer.TheVariants as answers;
ghost use Rattle.cycle.specs.Mutating.{DoesThread, ThreadStands};
ghost use Rattle.managed.specs.Batches.{EndsLoads};
ghost use Rattle.managed.specs.Collecting.{StandsUnseen};
ghost use Rattle.managed.specs.Data.{EndsReading, EndsWriting};
ghost use Rattle.managed.specs.Goings.{LoadsWhole, LoadStands};
ghost use Rattle.managed.specs.Scrubbing.{AreScrubbed};
ghost use Rattle.collecting.specs.Collections.{Collects, EndsCollecting, IsNotRoom};
ghost use Rattle.collecting.specs.Counting.{CountsFill, CountsFillPaced, CountsMake, CountsMakePaced, CountsRefill};
ghost use Rattle.collecting.specs.Counting.{counted, part_counted, seen_in_use};
ghost use Rattle.collecting.specs.Filling.{EndsMakingWith};
ghost use Rattle.collecting.specs.Objects.{seen};
ghost use Rattle.collecting.specs.Pacing.{MakesPaced};
ghost use Rattle.collecting.specs.Parts.{EndsPart};
ghost use Rattle.collecting.specs.Policies.{checked};
ghost use Rattle.collecting.specs.Rooms.{EndsMaking, EndsRefill, IsNotHeld, MakingStands, Refills};
ghost use Rattle.collecting.specs.Stages.{PartGoesOn};
ghost use Rattle.collecting.specs.Targets.{followed, in_use};
ghost use Rattle.collecting.specs.declared.counting.Cause.TheVariants as causes;
ghost use Rattle.typed.specs.Owning.{ChangesCounted, ChangesHeap, ChangesPaced, SetsPolicy};

use crate::calls::HeapCalls;
use crate::numbers::{Datum, Field, GlobalNumber, LayoutNumber, Register, Thread};
use crate::owning::TypedHeap;
use collecting::{
    Collect, CollectCounted, Collected, Counters, Object, Policy, PolicyFault, Target,
};
use managed::{FieldLoad, LoadsFault, Mutate};
use model::{Buffer, Refusal};
use std::alloc::Global;

impl HeapCalls for TypedHeap {
    #[inline(always)]
    fn take(&mut self, thread: Thread, words: u32) -> Result<Buffer, Refusal>
        ensures does { DoesThread lent self.old.heap thread.0 (steps.Take words) result self.new.heap }
        ensures stands { ThreadStands lent self.old.heap thread.0 (steps.Take words) result self.new.heap }
        ensures buffer { IfOk result (λ buffer. buffer_of_thread self.new.heap thread.0 ≡ Some buffer) }
        ensures kept { ChangesHeap self.old self.new }
    {
        self.heap.take(thread.0, words)
    }

    #[inline(always)]
    fn give_back(&mut self, thread: Thread) -> Result<(), Refusal>
        ensures does { DoesThread done self.old.heap thread.0 steps.GiveBack result self.new.heap }
        ensures stands { ThreadStands done self.old.heap thread.0 steps.GiveBack result self.new.heap }
        ensures kept { ChangesHeap self.old self.new }
    {
        self.heap.give_back(thread.0)
    }

    #[inline(always)]
    fn new_object(
        &mut self,
        thread: Thread,
        target: Register,
        layout: LayoutNumber,
    ) -> Result<u64, Refusal>
        ensures does { DoesThread answers.Birth self.old.heap thread.0 (steps.New target.0 layout.0) result
            self.new.heap }
        ensures stands { ThreadStands answers.Birth self.old.heap thread.0 (steps.New target.0 layout.0) result
            self.new.heap }
        ensures kept { ChangesHeap self.old self.new }
    {
        self.heap.new_object(thread.0, target.0, layout.0)
    }

    #[inline(always)]
    fn read(
        &mut self,
        thread: Thread,
        target: Register,
        object: Register,
        field: Field,
    ) -> Result<(), Refusal>
        ensures loads { LoadsWhole self.old.heap thread.0 (steps.Load target.0 object.0 field.0) result self.new.heap }
        ensures stands { LoadStands self.old.heap thread.0 (steps.Load target.0 object.0 field.0) result self.new.heap }
        ensures kept { ChangesHeap self.old self.new }
    {
        self.heap.read(thread.0, target.0, object.0, field.0)
    }

    #[inline(always)]
    fn read_global(
        &mut self,
        thread: Thread,
        target: Register,
        global: GlobalNumber,
    ) -> Result<(), Refusal>
        ensures loads { LoadsWhole self.old.heap thread.0 (steps.LoadGlobal target.0 global.0) result self.new.heap }
        ensures stands { LoadStands self.old.heap thread.0 (steps.LoadGlobal target.0 global.0) result self.new.heap }
        ensures kept { ChangesHeap self.old self.new }
    {
        self.heap.read_global(thread.0, target.0, global.0)
    }

    #[inline(always)]
    fn loads(
        &mut self,
        thread: Thread,
        object: Register,
        fields: &[FieldLoad],
    ) -> Result<(), LoadsFault>
        ensures loads { EndsLoads thread.0 object.0 0 fields.now self.old.heap result self.new.heap }
        ensures kept { ChangesHeap self.old self.new }
    {
        self.heap.loads(thread.0, object.0, fields)
    }

    #[inline(always)]
    fn store(
        &mut self,
        thread: Thread,
        object: Register,
        field: Field,
        source: Register,
    ) -> Result<(), Refusal>
        ensures does { DoesThread done self.old.heap thread.0 (steps.Store object.0 field.0 source.0) result
            self.new.heap }
        ensures stands { ThreadStands done self.old.heap thread.0 (steps.Store object.0 field.0 source.0) result
            self.new.heap }
        ensures kept { ChangesHeap self.old self.new }
    {
        self.heap.store(thread.0, object.0, field.0, source.0)
    }

    #[inline(always)]
    fn store_global(
        &mut self,
        thread: Thread,
        global: GlobalNumber,
        source: Register,
    ) -> Result<(), Refusal>
        ensures does { DoesThread done self.old.heap thread.0 (steps.StoreGlobal global.0 source.0) result
            self.new.heap }
        ensures stands { ThreadStands done self.old.heap thread.0 (steps.StoreGlobal global.0 source.0) result
            self.new.heap }
        ensures kept { ChangesHeap self.old self.new }
    {
        self.heap.store_global(thread.0, global.0, source.0)
    }

    #[inline(always)]
    fn datum(&self, thread: Thread, object: Register, index: Datum) -> Result<u64, Refusal>
        ensures does { DoesThread answers.Datum self.now.heap thread.0 (steps.Datum object.0 index.0) result
            self.now.heap }
        ensures stands { ThreadStands answers.Datum self.now.heap thread.0 (steps.Datum object.0 index.0) result
            self.now.heap }
    {
        self.heap.datum(thread.0, object.0, index.0)
    }

    #[inline(always)]
    fn set_datum(
        &mut self,
        thread: Thread,
        object: Register,
        index: Datum,
        value: u64,
    ) -> Result<(), Refusal>
        ensures does { DoesThread done self.old.heap thread.0 (steps.SetDatum object.0 index.0 value) result
            self.new.heap }
        ensures stands { ThreadStands done self.old.heap thread.0 (steps.SetDatum object.0 index.0 value) result
            self.new.heap }
        ensures kept { ChangesHeap self.old self.new }
    {
        self.heap.set_datum(thread.0, object.0, index.0, value)
    }

    #[inline(always)]
    fn get_many(
        &self,
        thread: Thread,
        object: Register,
        first: Datum,
        values: &mut [u64],
    ) -> Result<(), Refusal>
        ensures len { length values.new ≡ length values.old }
        ensures reads { EndsReading thread.0 object.0 first.0 self.now.heap result values.new }
    {
        self.heap.get_many(thread.0, object.0, first.0, values)
    }

    #[inline(always)]
    fn set_many(
        &mut self,
        thread: Thread,
        object: Register,
        first: Datum,
        values: &[u64],
    ) -> Result<(), Refusal>
        ensures writes { EndsWriting thread.0 object.0 first.0 values.now self.old.heap result self.new.heap }
        ensures kept { ChangesHeap self.old self.new }
    {
        self.heap.set_many(thread.0, object.0, first.0, values)
    }

    #[inline(always)]
    fn same(&self, thread: Thread, left: Register, right: Register) -> Result<bool, Refusal>
        ensures does { DoesThread answers.Truth self.now.heap thread.0 (steps.Same left.0 right.0) result
            self.now.heap }
        ensures stands { ThreadStands answers.Truth self.now.heap thread.0 (steps.Same left.0 right.0) result
            self.now.heap }
    {
        self.heap.same(thread.0, left.0, right.0)
    }

    #[inline(always)]
    fn is_null(&self, thread: Thread, register: Register) -> Result<bool, Refusal>
        ensures does { DoesThread answers.Truth self.now.heap thread.0 (steps.IsNull register.0) result self.now.heap }
        ensures stands { ThreadStands answers.Truth self.now.heap thread.0 (steps.IsNull register.0) result
            self.now.heap }
    {
        self.heap.is_null(thread.0, register.0)
    }

    #[inline(always)]
    fn copy_register(
        &mut self,
        thread: Thread,
        target: Register,
        source: Register,
    ) -> Result<(), Refusal>
        ensures does { DoesThread done self.old.heap thread.0 (steps.CopyReg target.0 source.0) result self.new.heap }
        ensures stands { ThreadStands done self.old.heap thread.0 (steps.CopyReg target.0 source.0) result
            self.new.heap }
        ensures kept { ChangesHeap self.old self.new }
    {
        self.heap.copy_register(thread.0, target.0, source.0)
    }

    #[inline(always)]
    fn clear_register(&mut self, thread: Thread, target: Register) -> Result<(), Refusal>
        ensures does { DoesThread done self.old.heap thread.0 (steps.ClearReg target.0) result self.new.heap }
        ensures stands { ThreadStands done self.old.heap thread.0 (steps.ClearReg target.0) result self.new.heap }
        ensures kept { ChangesHeap self.old self.new }
    {
        self.heap.clear_register(thread.0, target.0)
    }

    #[inline(always)]
    fn object(&self, thread: Thread, register: Register) -> Result<Object, Refusal>
        ensures { result ≡ seen self.now.heap thread.0 register.0 }
    {
        self.heap.object(thread.0, register.0)
    }

    #[inline(always)]
    fn park(&mut self, thread: Thread) -> Result<(), Refusal>
        ensures does { DoesThread done self.old.heap thread.0 steps.Park result self.new.heap }
        ensures stands { ThreadStands done self.old.heap thread.0 steps.Park result self.new.heap }
        ensures kept { ChangesHeap self.old self.new }
    {
        self.heap.park(thread.0)
    }

    #[inline(always)]
    fn unpark(&mut self, thread: Thread) -> Result<(), Refusal>
        ensures does { DoesThread done self.old.heap thread.0 steps.Unpark result self.new.heap }
        ensures stands { ThreadStands done self.old.heap thread.0 steps.Unpark result self.new.heap }
        ensures kept { ChangesHeap self.old self.new }
    {
        self.heap.unpark(thread.0)
    }

    #[inline(always)]
    fn make(
        &mut self,
        alloc: Global,
        thread: Thread,
        target: Register,
        layout: LayoutNumber,
    ) -> Result<u64, Refusal>
        ensures stands { MakingStands thread.0 target.0 layout.0 self.old.heap result self.new.heap }
        ensures ends { EndsMaking thread.0 self.old.policy.words self.old.policy.percent target.0 layout.0 self.old.heap
            result self.new.heap }
        ensures counts { CountsMake thread.0 self.old.policy.words self.old.policy.free self.old.policy.percent target.0
            layout.0 self.old.heap self.old.counters self.new.counters }
        ensures kept { ChangesCounted self.old self.new }
    {
        let (counters, policy) = (&mut self.counters, self.policy);
        self.heap
            .make_counted(alloc, counters, policy, thread.0, target.0, layout.0)
    }

    #[inline(always)]
    fn make_with(
        &mut self,
        alloc: Global,
        thread: Thread,
        target: Register,
        layout: LayoutNumber,
        sources: &[u32],
        nums: &[u64],
    ) -> Result<u64, Refusal>
        ensures ends { EndsMakingWith thread.0 self.old.policy.words self.old.policy.percent target.0 layout.0
            sources.now nums.now self.old.heap result self.new.heap }
        ensures counts { CountsFill thread.0 self.old.policy.words self.old.policy.free self.old.policy.percent target.0
            layout.0 sources.now nums.now self.old.heap self.old.counters self.new.counters }
        ensures kept { ChangesCounted self.old self.new }
    {
        let (counters, policy) = (&mut self.counters, self.policy);
        self.heap.make_with_counted(
            alloc, counters, policy, thread.0, target.0, layout.0, sources, nums,
        )
    }

    #[inline(always)]
    fn make_paced(
        &mut self,
        alloc: Global,
        thread: Thread,
        target: Register,
        layout: LayoutNumber,
    ) -> Result<u64, Refusal>
        ensures stands { MakingStands thread.0 target.0 layout.0 self.old.heap result self.new.heap }
        ensures ends { EndsMaking thread.0 self.old.policy.words self.old.policy.percent target.0 layout.0 self.old.heap
            result self.new.heap }
        ensures paced { MakesPaced thread.0 self.old.policy.words self.old.policy.percent self.old.policy.free
            self.old.budget target.0 layout.0 self.old.parts self.old.heap result self.new.parts self.new.heap }
        ensures counts { CountsMakePaced thread.0 self.old.policy.words self.old.policy.free self.old.policy.percent
            self.old.budget target.0 layout.0 self.old.parts self.old.heap self.old.counters self.new.parts
            self.new.counters }
        ensures kept { ChangesPaced self.old self.new }
    {
        let (counters, parts) = (&mut self.counters, &mut self.parts);
        let (policy, budget) = (self.policy, self.budget);
        self.heap.make_paced_counted(
            alloc, counters, parts, policy, budget, thread.0, target.0, layout.0,
        )
    }

    #[inline(always)]
    fn make_with_paced(
        &mut self,
        alloc: Global,
        thread: Thread,
        target: Register,
        layout: LayoutNumber,
        sources: &[u32],
        nums: &[u64],
    ) -> Result<u64, Refusal>
        ensures ends { EndsMakingWith thread.0 self.old.policy.words self.old.policy.percent target.0 layout.0
            sources.now nums.now self.old.heap result self.new.heap }
        ensures counts { CountsFillPaced thread.0 self.old.policy.words self.old.policy.free self.old.policy.percent
            self.old.budget target.0 layout.0 sources.now nums.now self.old.parts self.old.heap self.old.counters
            self.new.parts self.new.counters }
        ensures kept { ChangesPaced self.old self.new }
    {
        let (counters, parts) = (&mut self.counters, &mut self.parts);
        let (policy, budget) = (self.policy, self.budget);
        self.heap.make_with_paced_counted(
            alloc, counters, parts, policy, budget, thread.0, target.0, layout.0, sources, nums,
        )
    }

    fn refill(&mut self, alloc: Global, thread: Thread) -> Result<Buffer, Refusal>
        ensures goes { Refills thread.0 self.old.heap self.new.heap }
        ensures stands { StandsUnseen self.old.heap self.new.heap }
        ensures ends { EndsRefill thread.0 self.old.policy.words self.old.policy.percent self.old.heap result
            self.new.heap }
        ensures buffer { IsNotHeld result }
        ensures counts { CountsRefill thread.0 self.old.policy.words self.old.policy.free self.old.policy.percent
            self.old.heap self.old.counters self.new.heap self.new.counters }
        ensures kept { ChangesCounted self.old self.new }
    {
        let (counters, policy) = (&mut self.counters, self.policy);
        self.heap.refill_counted(alloc, counters, policy, thread.0)
    }

    fn collect(&mut self, alloc: Global) -> Result<Collected, Refusal>
        ensures goes { Collects self.old.heap self.new.heap }
        ensures stands { StandsUnseen self.old.heap self.new.heap }
        ensures ends { EndsCollecting self.old.policy.percent self.old.heap result self.new.heap }
        ensures room { IsNotRoom result }
        ensures scrubbed { IfOk result (λ collected. AreScrubbed self.new.heap) }
        ensures counts { self.new.counters ≡ seen_in_use (in_use self.new.heap) (counted causes.Call result
            self.old.counters) }
        ensures kept { ChangesCounted self.old self.new }
    {
        let (counters, percent) = (&mut self.counters, self.policy.percent);
        self.heap.collect_counted(alloc, counters, percent)
    }

    fn collect_some(&mut self, alloc: Global) -> Result<bool, Refusal>
        ensures goes { Collects self.old.heap self.new.heap }
        ensures stands { StandsUnseen self.old.heap self.new.heap }
        ensures ends { EndsPart self.old.heap result self.new.heap }
        ensures room { IsNotRoom result }
        ensures scrubbed { IfOk result (λ ended. is_protect_crossing self.new.heap.phase ≡ false → AreScrubbed
            self.new.heap) }
        ensures parts { PartGoesOn self.old.policy.percent self.old.budget self.old.parts self.old.heap result
            self.new.parts self.new.heap }
        ensures counts { self.new.counters ≡ seen_in_use (in_use self.new.heap) (part_counted self.old.parts
            self.old.heap result self.new.parts self.old.counters) }
        ensures kept { ChangesPaced self.old self.new }
    {
        let (counters, parts) = (&mut self.counters, &mut self.parts);
        let (percent, budget) = (self.policy.percent, self.budget);
        self.heap
            .collect_some_counted(alloc, counters, parts, percent, budget)
    }

    fn policy(&self) -> Policy
        ensures { result ≡ self.now.policy }
    {
        self.policy
    }

    fn set_policy(&mut self, policy: Policy) -> Result<(), PolicyFault>
        ensures checked { result ≡ checked self.old.heap.config policy }
        ensures sets { SetsPolicy policy self.old result self.new }
    {
        match policy.check(self.heap.heap().config()) {
            Ok(()) => {
                self.policy = policy;
                Ok(())
            }
            Err(fault) => Err(fault),
        }
    }

    fn budget(&self) -> u32
        ensures { result ≡ self.now.budget }
    {
        self.budget
    }

    fn set_budget(&mut self, budget: u32)
        ensures { self.new ≡ record self.old { budget = budget } }
    {
        self.budget = budget;
    }

    fn empty_at_most(&mut self, pages: u32)
        ensures { self.new ≡ record self.old { parts = record self.old.parts { most = pages } } }
    {
        self.parts.empty_at_most(pages);
    }

    fn counters(&self) -> Counters
        ensures { result ≡ self.now.counters }
    {
        self.counters
    }

    fn kept_frames(&self) -> usize {
        self.heap.kept_frames()
    }

    fn trim(&mut self, most: usize)
        ensures { self.new ≡ self.old }
    {
        self.heap.trim(most);
    }

    #[inline(always)]
    fn follow(&mut self, target: &mut Target)
        ensures heap { self.new ≡ self.old }
        ensures used { target.new.used ≡ in_use self.old.heap }
        ensures frames { target.new.frames ≡ followed target.old.least target.old.growth target.old.used
            target.old.frames (in_use self.old.heap) }
    {
        self.heap.follow(target);
    }
}
