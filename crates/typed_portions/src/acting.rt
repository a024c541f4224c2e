//! The calls of a thread on a heap that threads share, with typed numbers.

ghost use Rattle.std.specs.Prelude.{◌≡◌, IfOk, Some, length};
ghost use Rattle.model.specs.Buffers.{buffer_of_thread};
ghost use Rattle.model.specs.Saying.{done, lent};
ghost use Rattle.model.specs.declared.steps.Step.TheVariants as steps;
ghost use Rattle.model.specs.declared.steps.Answer.TheVariants as answers;
ghost use Rattle.cycle.specs.Mutating.{DoesThread, ThreadStands};
ghost use Rattle.managed.specs.Batches.{EndsLoads};
ghost use Rattle.managed.specs.Bytes.{EndsReadingBytes, EndsWritingBytes};
ghost use Rattle.managed.specs.Data.{EndsCopying, EndsReading, EndsWriting};
ghost use Rattle.managed.specs.Goings.{LoadsWhole, LoadStands};
ghost use Rattle.collecting.specs.Collections.{EndsCollecting};
ghost use Rattle.collecting.specs.Filling.{EndsMakingWith};
ghost use Rattle.collecting.specs.Objects.{seen};
ghost use Rattle.collecting.specs.Rooms.{EndsMaking, EndsRefill, MakingStands};
ghost use Rattle.portions.specs.Portions.{GoesOn, ThenCrosses};

use crate::calls::PortionCalls;
use collecting::{Collected, Object, Policy};
use managed::{FieldLoad, LoadsFault};
use model::{Buffer, Refusal};
use portions::{Mutator, MutatorCalls};
use std::alloc::Global;
use typed::{Datum, Field, GlobalNumber, LayoutNumber, Register};

impl PortionCalls for Mutator {
    fn take(&mut self, words: u32) -> Result<Buffer, Refusal>
        ensures does { DoesThread lent self.old.heap self.old.thread (steps.Take words) result self.new.heap }
        ensures stands { ThreadStands lent self.old.heap self.old.thread (steps.Take words) result self.new.heap }
        ensures buffer { IfOk result (λ buffer. buffer_of_thread self.new.heap self.new.thread ≡ Some buffer) }
        ensures on { GoesOn self.old self.new }
    {
        MutatorCalls::take(self, words)
    }

    fn give_back(&mut self) -> Result<(), Refusal>
        ensures does { DoesThread done self.old.heap self.old.thread steps.GiveBack result self.new.heap }
        ensures stands { ThreadStands done self.old.heap self.old.thread steps.GiveBack result self.new.heap }
        ensures on { GoesOn self.old self.new }
    {
        MutatorCalls::give_back(self)
    }

    #[inline(always)]
    fn new_object(&mut self, target: Register, layout: LayoutNumber) -> Result<u64, Refusal>
        ensures does { DoesThread answers.Birth self.old.heap self.old.thread (steps.New target.0 layout.0) result
            self.new.heap }
        ensures stands { ThreadStands answers.Birth self.old.heap self.old.thread (steps.New target.0 layout.0) result
            self.new.heap }
        ensures on { GoesOn self.old self.new }
    {
        MutatorCalls::new_object(self, target.0, layout.0)
    }

    #[inline(always)]
    fn read(&mut self, target: Register, object: Register, field: Field) -> Result<(), Refusal>
        ensures loads { LoadsWhole self.old.heap self.old.thread (steps.Load target.0 object.0 field.0) result
            self.new.heap }
        ensures stands { LoadStands self.old.heap self.old.thread (steps.Load target.0 object.0 field.0) result
            self.new.heap }
        ensures on { GoesOn self.old self.new }
    {
        MutatorCalls::read(self, target.0, object.0, field.0)
    }

    #[inline(always)]
    fn read_global(&mut self, target: Register, global: GlobalNumber) -> Result<(), Refusal>
        ensures loads { LoadsWhole self.old.heap self.old.thread (steps.LoadGlobal target.0 global.0) result
            self.new.heap }
        ensures stands { LoadStands self.old.heap self.old.thread (steps.LoadGlobal target.0 global.0) result
            self.new.heap }
        ensures on { GoesOn self.old self.new }
    {
        MutatorCalls::read_global(self, target.0, global.0)
    }

    #[inline(always)]
    fn store(&mut self, object: Register, field: Field, source: Register) -> Result<(), Refusal>
        ensures does { DoesThread done self.old.heap self.old.thread (steps.Store object.0 field.0 source.0) result
            self.new.heap }
        ensures stands { ThreadStands done self.old.heap self.old.thread (steps.Store object.0 field.0 source.0) result
            self.new.heap }
        ensures on { GoesOn self.old self.new }
    {
        MutatorCalls::store(self, object.0, field.0, source.0)
    }

    #[inline(always)]
    fn store_global(&mut self, global: GlobalNumber, source: Register) -> Result<(), Refusal>
        ensures does { DoesThread done self.old.heap self.old.thread (steps.StoreGlobal global.0 source.0) result
            self.new.heap }
        ensures stands { ThreadStands done self.old.heap self.old.thread (steps.StoreGlobal global.0 source.0) result
            self.new.heap }
        ensures on { GoesOn self.old self.new }
    {
        MutatorCalls::store_global(self, global.0, source.0)
    }

    #[inline(always)]
    fn datum(&self, object: Register, index: Datum) -> Result<u64, Refusal>
        ensures does { DoesThread answers.Datum self.now.heap self.now.thread (steps.Datum object.0 index.0) result
            self.now.heap }
        ensures stands { ThreadStands answers.Datum self.now.heap self.now.thread (steps.Datum object.0 index.0) result
            self.now.heap }
    {
        MutatorCalls::datum(self, object.0, index.0)
    }

    #[inline(always)]
    fn set_datum(&mut self, object: Register, index: Datum, value: u64) -> Result<(), Refusal>
        ensures does { DoesThread done self.old.heap self.old.thread (steps.SetDatum object.0 index.0 value) result
            self.new.heap }
        ensures stands { ThreadStands done self.old.heap self.old.thread (steps.SetDatum object.0 index.0 value) result
            self.new.heap }
        ensures on { GoesOn self.old self.new }
    {
        MutatorCalls::set_datum(self, object.0, index.0, value)
    }

    #[inline(always)]
    fn same(&self, left: Register, right: Register) -> Result<bool, Refusal>
        ensures does { DoesThread answers.Truth self.now.heap self.now.thread (steps.Same left.0 right.0) result
            self.now.heap }
        ensures stands { ThreadStands answers.Truth self.now.heap self.now.thread (steps.Same left.0 right.0) result
            self.now.heap }
    {
        MutatorCalls::same(self, left.0, right.0)
    }

    #[inline(always)]
    fn is_null(&self, register: Register) -> Result<bool, Refusal>
        ensures does { DoesThread answers.Truth self.now.heap self.now.thread (steps.IsNull register.0) result
            self.now.heap }
        ensures stands { ThreadStands answers.Truth self.now.heap self.now.thread (steps.IsNull register.0) result
            self.now.heap }
    {
        MutatorCalls::is_null(self, register.0)
    }

    #[inline(always)]
    fn copy_register(&mut self, target: Register, source: Register) -> Result<(), Refusal>
        ensures does { DoesThread done self.old.heap self.old.thread (steps.CopyReg target.0 source.0) result
            self.new.heap }
        ensures stands { ThreadStands done self.old.heap self.old.thread (steps.CopyReg target.0 source.0) result
            self.new.heap }
        ensures on { GoesOn self.old self.new }
    {
        MutatorCalls::copy_register(self, target.0, source.0)
    }

    #[inline(always)]
    fn clear_register(&mut self, target: Register) -> Result<(), Refusal>
        ensures does { DoesThread done self.old.heap self.old.thread (steps.ClearReg target.0) result self.new.heap }
        ensures stands { ThreadStands done self.old.heap self.old.thread (steps.ClearReg target.0) result
            self.new.heap }
        ensures on { GoesOn self.old self.new }
    {
        MutatorCalls::clear_register(self, target.0)
    }

    #[inline(always)]
    fn object(&self, register: Register) -> Result<Object, Refusal>
        ensures { result ≡ seen self.now.heap self.now.thread register.0 }
    {
        MutatorCalls::object(self, register.0)
    }

    #[inline(always)]
    fn loads(&mut self, object: Register, fields: &[FieldLoad]) -> Result<(), LoadsFault>
        ensures loads { EndsLoads self.old.thread object.0 0 fields.now self.old.heap result self.new.heap }
        ensures on { GoesOn self.old self.new }
    {
        MutatorCalls::loads(self, object.0, fields)
    }

    #[inline(always)]
    fn get_many(&self, object: Register, first: Datum, values: &mut [u64]) -> Result<(), Refusal>
        ensures len { length values.new ≡ length values.old }
        ensures reads { EndsReading self.now.thread object.0 first.0 self.now.heap result values.new }
    {
        MutatorCalls::get_many(self, object.0, first.0, values)
    }

    #[inline(always)]
    fn set_many(&mut self, object: Register, first: Datum, values: &[u64]) -> Result<(), Refusal>
        ensures writes { EndsWriting self.old.thread object.0 first.0 values.now self.old.heap result self.new.heap }
        ensures on { GoesOn self.old self.new }
    {
        MutatorCalls::set_many(self, object.0, first.0, values)
    }

    #[inline(always)]
    fn copy_data(
        &mut self,
        target: Register,
        first: Datum,
        source: Register,
        first_of_source: Datum,
        count: usize,
    ) -> Result<(), Refusal>
        ensures copies { EndsCopying self.old.thread target.0 first.0 source.0 first_of_source.0 count self.old.heap
            result self.new.heap }
        ensures on { GoesOn self.old self.new }
    {
        MutatorCalls::copy_data(self, target.0, first.0, source.0, first_of_source.0, count)
    }

    #[inline(always)]
    fn read_bytes(&self, object: Register, offset: u32, bytes: &mut [u8]) -> Result<(), Refusal>
        ensures len { length bytes.new ≡ length bytes.old }
        ensures reads { EndsReadingBytes self.now.thread object.0 offset self.now.heap result bytes.new }
    {
        MutatorCalls::read_bytes(self, object.0, offset, bytes)
    }

    #[inline(always)]
    fn write_bytes(&mut self, object: Register, offset: u32, bytes: &[u8]) -> Result<(), Refusal>
        ensures writes { EndsWritingBytes self.old.thread object.0 offset bytes.now self.old.heap result self.new.heap }
        ensures on { GoesOn self.old self.new }
    {
        MutatorCalls::write_bytes(self, object.0, offset, bytes)
    }

    #[inline(always)]
    fn make(
        &mut self,
        alloc: Global,
        policy: Policy,
        target: Register,
        layout: LayoutNumber,
    ) -> Result<u64, Refusal>
        ensures stands { MakingStands self.old.thread target.0 layout.0 self.old.heap result self.new.heap }
        ensures ends { ThenCrosses (EndsMaking self.old.thread policy.words policy.percent target.0 layout.0
            self.old.heap result) self.new.heap }
        ensures on { GoesOn self.old self.new }
    {
        MutatorCalls::make(self, alloc, policy, target.0, layout.0)
    }

    #[inline(always)]
    fn make_with(
        &mut self,
        alloc: Global,
        policy: Policy,
        target: Register,
        layout: LayoutNumber,
        sources: &[u32],
        nums: &[u64],
    ) -> Result<u64, Refusal>
        ensures ends { ThenCrosses (EndsMakingWith self.old.thread policy.words policy.percent target.0 layout.0
            sources.now nums.now self.old.heap result) self.new.heap }
        ensures on { GoesOn self.old self.new }
    {
        MutatorCalls::make_with(self, alloc, policy, target.0, layout.0, sources, nums)
    }

    fn refill(&mut self, alloc: Global, policy: Policy) -> Result<Buffer, Refusal>
        ensures ends { ThenCrosses (EndsRefill self.old.thread policy.words policy.percent self.old.heap result)
            self.new.heap }
        ensures on { GoesOn self.old self.new }
    {
        MutatorCalls::refill(self, alloc, policy)
    }

    fn collect(&mut self, alloc: Global, percent: u32) -> Result<Collected, Refusal>
        ensures ends { ThenCrosses (EndsCollecting percent self.old.heap result) self.new.heap }
        ensures on { GoesOn self.old self.new }
    {
        MutatorCalls::collect(self, alloc, percent)
    }

    fn kept_frames(&self) -> usize {
        MutatorCalls::kept_frames(self)
    }

    fn trim(&mut self, most: usize)
        ensures { self.new ≡ self.old }
    {
        MutatorCalls::trim(self, most);
    }
}
