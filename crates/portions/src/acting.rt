//! The calls of a thread on a shared heap.

ghost use Rattle.std.specs.Prelude.{◌≡◌, IfOk, Some, length};
ghost use Rattle.model.specs.Buffers.{buffer_of_thread};
ghost use Rattle.model.specs.Saying.{done, lent};
ghost use Rattle.model.specs.declared.steps.Step.TheVariants as steps;
ghost use Rattle.model.specs.declared.steps.Answer.TheVariants as answers;
ghost use Rattle.cycle.specs.Mutating.{DoesThread, ThreadStands};
ghost use Rattle.managed.specs.Goings.{LoadsWhole, LoadStands};
ghost use Rattle.collecting.specs.Objects.{seen};
ghost use Rattle.managed.specs.Batches.{EndsLoads};
ghost use Rattle.managed.specs.Bytes.{EndsReadingBytes, EndsWritingBytes};
ghost use Rattle.managed.specs.Data.{EndsCopying, EndsReading, EndsWriting};
ghost use Rattle.collecting.specs.Collections.{Collects, EndsCollecting};
ghost use Rattle.collecting.specs.Filling.{EndsMakingWith};
ghost use Rattle.collecting.specs.Rooms.{EndsMaking, EndsRefill, MakingStands};
ghost use Rattle.portions.specs.Portions.{GoesOn, ThenCrosses};

use crate::calls::MutatorCalls;
use crate::mutator::Mutator;
use crate::settling::settle;
use collecting::{Collect, Collected, Object, Policy};
use managed::{FieldLoad, LoadsFault, Mutate};
use model::{Buffer, Refusal};
use std::alloc::Global;

impl MutatorCalls for Mutator {
    fn take(&mut self, words: u32) -> Result<Buffer, Refusal>
        ensures does { DoesThread lent self.old.heap self.old.thread (steps.Take words) result self.new.heap }
        ensures stands { ThreadStands lent self.old.heap self.old.thread (steps.Take words) result self.new.heap }
        ensures buffer { IfOk result (λ buffer. buffer_of_thread self.new.heap self.new.thread ≡ Some buffer) }
        ensures on { GoesOn self.old self.new }
    {
        self.heap.take(self.thread, words)
    }

    fn give_back(&mut self) -> Result<(), Refusal>
        ensures does { DoesThread done self.old.heap self.old.thread steps.GiveBack result self.new.heap }
        ensures stands { ThreadStands done self.old.heap self.old.thread steps.GiveBack result self.new.heap }
        ensures on { GoesOn self.old self.new }
    {
        self.heap.give_back(self.thread)
    }

    #[inline(always)]
    fn new_object(&mut self, target: u32, layout: u32) -> Result<u64, Refusal>
        ensures does { DoesThread answers.Birth self.old.heap self.old.thread (steps.New target layout) result
            self.new.heap }
        ensures stands { ThreadStands answers.Birth self.old.heap self.old.thread (steps.New target layout) result
            self.new.heap }
        ensures on { GoesOn self.old self.new }
    {
        self.heap.new_object(self.thread, target, layout)
    }

    #[inline(always)]
    fn read(&mut self, target: u32, object: u32, field: u32) -> Result<(), Refusal>
        ensures loads { LoadsWhole self.old.heap self.old.thread (steps.Load target object field) result self.new.heap }
        ensures stands { LoadStands self.old.heap self.old.thread (steps.Load target object field) result
            self.new.heap }
        ensures on { GoesOn self.old self.new }
    {
        self.heap.read(self.thread, target, object, field)
    }

    #[inline(always)]
    fn read_global(&mut self, target: u32, global: u32) -> Result<(), Refusal>
        ensures loads { LoadsWhole self.old.heap self.old.thread (steps.LoadGlobal target global) result self.new.heap }
        ensures stands { LoadStands self.old.heap self.old.thread (steps.LoadGlobal target global) result
            self.new.heap }
        ensures on { GoesOn self.old self.new }
    {
        self.heap.read_global(self.thread, target, global)
    }

    #[inline(always)]
    fn store(&mut self, object: u32, field: u32, source: u32) -> Result<(), Refusal>
        ensures does { DoesThread done self.old.heap self.old.thread (steps.Store object field source) result
            self.new.heap }
        ensures stands { ThreadStands done self.old.heap self.old.thread (steps.Store object field source) result
            self.new.heap }
        ensures on { GoesOn self.old self.new }
    {
        self.heap.store(self.thread, object, field, source)
    }

    #[inline(always)]
    fn store_global(&mut self, global: u32, source: u32) -> Result<(), Refusal>
        ensures does { DoesThread done self.old.heap self.old.thread (steps.StoreGlobal global source) result
            self.new.heap }
        ensures stands { ThreadStands done self.old.heap self.old.thread (steps.StoreGlobal global source) result
            self.new.heap }
        ensures on { GoesOn self.old self.new }
    {
        self.heap.store_global(self.thread, global, source)
    }

    #[inline(always)]
    fn datum(&self, object: u32, index: u32) -> Result<u64, Refusal>
        ensures does { DoesThread answers.Datum self.now.heap self.now.thread (steps.Datum object index) result
            self.now.heap }
        ensures stands { ThreadStands answers.Datum self.now.heap self.now.thread (steps.Datum object index) result
            self.now.heap }
    {
        self.heap.datum(self.thread, object, index)
    }

    #[inline(always)]
    fn set_datum(&mut self, object: u32, index: u32, value: u64) -> Result<(), Refusal>
        ensures does { DoesThread done self.old.heap self.old.thread (steps.SetDatum object index value) result
            self.new.heap }
        ensures stands { ThreadStands done self.old.heap self.old.thread (steps.SetDatum object index value) result
            self.new.heap }
        ensures on { GoesOn self.old self.new }
    {
        self.heap.set_datum(self.thread, object, index, value)
    }

    #[inline(always)]
    fn same(&self, left: u32, right: u32) -> Result<bool, Refusal>
        ensures does { DoesThread answers.Truth self.now.heap self.now.thread (steps.Same left right) result
            self.now.heap }
        ensures stands { ThreadStands answers.Truth self.now.heap self.now.thread (steps.Same left right) result
            self.now.heap }
    {
        self.heap.same(self.thread, left, right)
    }

    #[inline(always)]
    fn is_null(&self, register: u32) -> Result<bool, Refusal>
        ensures does { DoesThread answers.Truth self.now.heap self.now.thread (steps.IsNull register) result
            self.now.heap }
        ensures stands { ThreadStands answers.Truth self.now.heap self.now.thread (steps.IsNull register) result
            self.now.heap }
    {
        self.heap.is_null(self.thread, register)
    }

    #[inline(always)]
    fn copy_register(&mut self, target: u32, source: u32) -> Result<(), Refusal>
        ensures does { DoesThread done self.old.heap self.old.thread (steps.CopyReg target source) result
            self.new.heap }
        ensures stands { ThreadStands done self.old.heap self.old.thread (steps.CopyReg target source) result
            self.new.heap }
        ensures on { GoesOn self.old self.new }
    {
        self.heap.copy_register(self.thread, target, source)
    }

    #[inline(always)]
    fn clear_register(&mut self, target: u32) -> Result<(), Refusal>
        ensures does { DoesThread done self.old.heap self.old.thread (steps.ClearReg target) result self.new.heap }
        ensures stands { ThreadStands done self.old.heap self.old.thread (steps.ClearReg target) result self.new.heap }
        ensures on { GoesOn self.old self.new }
    {
        self.heap.clear_register(self.thread, target)
    }

    fn object(&self, register: u32) -> Result<Object, Refusal>
        ensures { result ≡ seen self.now.heap self.now.thread register }
    {
        self.heap.object(self.thread, register)
    }

    fn loads(&mut self, object: u32, fields: &[FieldLoad]) -> Result<(), LoadsFault>
        ensures loads { EndsLoads self.old.thread object 0 fields.now self.old.heap result self.new.heap }
        ensures on { GoesOn self.old self.new }
    {
        self.heap.loads(self.thread, object, fields)
    }

    #[inline(always)]
    fn get_many(&self, object: u32, first: u32, values: &mut [u64]) -> Result<(), Refusal>
        ensures len { length values.new ≡ length values.old }
        ensures reads { EndsReading self.now.thread object first self.now.heap result values.new }
    {
        self.heap.get_many(self.thread, object, first, values)
    }

    #[inline(always)]
    fn set_many(&mut self, object: u32, first: u32, values: &[u64]) -> Result<(), Refusal>
        ensures writes { EndsWriting self.old.thread object first values.now self.old.heap result self.new.heap }
        ensures on { GoesOn self.old self.new }
    {
        self.heap.set_many(self.thread, object, first, values)
    }

    #[inline(always)]
    fn copy_data(
        &mut self,
        target: u32,
        first: u32,
        source: u32,
        first_of_source: u32,
        count: usize,
    ) -> Result<(), Refusal>
        ensures copies { EndsCopying self.old.thread target first source first_of_source count self.old.heap result
            self.new.heap }
        ensures on { GoesOn self.old self.new }
    {
        self.heap
            .copy_data(self.thread, target, first, source, first_of_source, count)
    }

    #[inline(always)]
    fn read_bytes(&self, object: u32, offset: u32, bytes: &mut [u8]) -> Result<(), Refusal>
        ensures len { length bytes.new ≡ length bytes.old }
        ensures reads { EndsReadingBytes self.now.thread object offset self.now.heap result bytes.new }
    {
        self.heap.read_bytes(self.thread, object, offset, bytes)
    }

    #[inline(always)]
    fn write_bytes(&mut self, object: u32, offset: u32, bytes: &[u8]) -> Result<(), Refusal>
        ensures writes { EndsWritingBytes self.old.thread object offset bytes.now self.old.heap result self.new.heap }
        ensures on { GoesOn self.old self.new }
    {
        self.heap.write_bytes(self.thread, object, offset, bytes)
    }

    #[inline(always)]
    fn make(
        &mut self,
        alloc: Global,
        policy: Policy,
        target: u32,
        layout: u32,
    ) -> Result<u64, Refusal>
        ensures stands { MakingStands self.old.thread target layout self.old.heap result self.new.heap }
        ensures ends { ThenCrosses
            (EndsMaking self.old.thread policy.words policy.percent target layout self.old.heap result) self.new.heap }
        ensures on { GoesOn self.old self.new }
    {
        let result = self.heap.make(alloc, policy, self.thread, target, layout);
        settle(&mut self.heap, self.thread);
        result
    }

    #[inline(always)]
    fn make_with(
        &mut self,
        alloc: Global,
        policy: Policy,
        target: u32,
        layout: u32,
        sources: &[u32],
        nums: &[u64],
    ) -> Result<u64, Refusal>
        ensures ends { ThenCrosses (EndsMakingWith self.old.thread policy.words policy.percent target layout sources.now
            nums.now self.old.heap result) self.new.heap }
        ensures on { GoesOn self.old self.new }
    {
        let result = self
            .heap
            .make_with(alloc, policy, self.thread, target, layout, sources, nums);
        settle(&mut self.heap, self.thread);
        result
    }

    fn refill(&mut self, alloc: Global, policy: Policy) -> Result<Buffer, Refusal>
        ensures ends { ThenCrosses (EndsRefill self.old.thread policy.words policy.percent self.old.heap result)
            self.new.heap }
        ensures on { GoesOn self.old self.new }
    {
        let result = self.heap.refill(alloc, policy, self.thread);
        settle(&mut self.heap, self.thread);
        result
    }

    fn collect(&mut self, alloc: Global, percent: u32) -> Result<Collected, Refusal>
        ensures ends { ThenCrosses (EndsCollecting percent self.old.heap result) self.new.heap }
        ensures on { GoesOn self.old self.new }
    {
        let result = self.heap.collect(alloc, percent);
        settle(&mut self.heap, self.thread);
        result
    }

    fn kept_frames(&self) -> usize {
        self.heap.kept_frames()
    }

    fn trim(&mut self, most: usize)
        ensures { self.new ≡ self.old }
    {
        self.heap.trim(most);
    }
}
