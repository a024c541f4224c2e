//! Collections by one call.

ghost use Rattle.std.specs.Prelude.{◌≡◌, IfOk, false, length};
ghost use Rattle.model.specs.declared.steps.Step.TheVariants as steps;
ghost use Rattle.model.specs.Phases.{is_protect_crossing};
ghost use Rattle.managed.specs.Batches.{EndsLoads};
ghost use Rattle.managed.specs.Collecting.{StandsUnseen};
ghost use Rattle.managed.specs.Bytes.{EndsReadingBytes, EndsWritingBytes};
ghost use Rattle.managed.specs.Data.{EndsCopying, EndsReading, EndsWriting};
ghost use Rattle.managed.specs.Goings.{LoadsWhole, LoadStands};
ghost use Rattle.managed.specs.Scrubbing.{AreScrubbed};
ghost use Rattle.collecting.specs.Collections.{Collects, EndsCollecting, IsNotRoom};
ghost use Rattle.collecting.specs.Filling.{EndsMakingWith};
ghost use Rattle.collecting.specs.Objects.{seen};
ghost use Rattle.collecting.specs.Pacing.{MakesPaced};
ghost use Rattle.collecting.specs.Parts.{EndsPart};
ghost use Rattle.collecting.specs.Stages.{PartGoesOn};
ghost use Rattle.collecting.specs.Rooms.{EndsMaking, EndsRefill, IsNotHeld, MakingStands, Refills};
ghost use Rattle.collecting.specs.Targets.{followed, in_use};

use crate::cycles::collect_whole;
use crate::executor::Alone;
use crate::low::in_use;
use crate::parts::Parts;
use crate::policy::Policy;
use crate::seeing::Object;
use crate::target::Target;
use crate::{filling, pacing, parts, rooms, seeing};
use managed::{FieldLoad, LoadsFault, ManagedHeap, Mutate};
use model::{Buffer, Refusal};
use std::alloc::Global;

/// What a collection has done.
#[derive(Clone, Copy, Debug, PartialEq, Eq)]
pub struct Collected {
    /// How many live objects its mark found.
    pub live: u64,
    /// How many words the live objects had in all pages, right after the mark.
    pub live_words: u64,
    /// How many pages were emptied.
    pub emptied: u64,
    /// How many words were copied: those of the live objects of the pages that were emptied.
    pub copied: u64,
}

/// The calls of a program on its heap, besides the steps of `Mutate`: complete loads, objects with the space that
/// they need, and collections, which worker 0 does.
///
/// `thread`, registers (`target`, `object`), `field`, `global` and `layout` are numbers from 0. The contracts are those
/// of `ManagedHeap`; what is generic over this trait depends on none of them, and is proved in short time.
pub trait Collect: Mutate {
    /// Loads a reference field of an object into a register, completely, through the read barrier.
    ///
    /// Fails as `Mutate::load` does, and nothing is done then.
    fn read(&mut self, thread: u32, target: u32, object: u32, field: u32) -> Result<(), Refusal>;

    /// Loads several reference fields of the object in a register, each as `read` does, in their order. A load whose
    /// `target` is that register comes last: later loads would be from the object that the register names then.
    /// Stops at the first load that fails, and returns how many are done. Fails as `read` does.
    fn loads(&mut self, thread: u32, object: u32, fields: &[FieldLoad]) -> Result<(), LoadsFault>;

    /// Reads data words of the object that a register names, from word `first` on, until `values` is full: as a call
    /// of `Mutate::datum` for each, but the object is looked up once.
    ///
    /// Fails as `Mutate::datum` does for one of them, with `BadIndex` if the object has fewer; `values` is
    /// unspecified then.
    fn get_many(
        &self,
        thread: u32,
        object: u32,
        first: u32,
        values: &mut [u64],
    ) -> Result<(), Refusal>;

    /// Writes data words of the object that a register names, from word `first` on: as a call of
    /// `Mutate::set_datum` for each of `values`, in order, but the object is looked up once.
    ///
    /// Fails as `Mutate::set_datum` does for one of them, with `BadIndex` if the object has fewer; nothing is
    /// written then.
    fn set_many(
        &mut self,
        thread: u32,
        object: u32,
        first: u32,
        values: &[u64],
    ) -> Result<(), Refusal>;

    /// Copies `count` data words of the object that register `source` names, from word `first_of_source` on, to the
    /// object that register `target` names, from word `first` on, as `get_many` and then `set_many` do. So the two
    /// may be the same object, and overlap. Fails as one of these, and nothing is written then.
    fn copy_data(
        &mut self,
        thread: u32,
        target: u32,
        first: u32,
        source: u32,
        first_of_source: u32,
        count: usize,
    ) -> Result<(), Refusal>;

    /// Reads bytes of the data of the object that a register names, from byte `offset` on, until `bytes` is full.
    /// Byte i is byte i % 8 of data word i / 8, the lowest byte of each word first, as x86-64 has them in memory.
    /// Fails as `Mutate::datum` does for one of their words, with `BadIndex` if the object has fewer; `bytes` is
    /// unspecified then.
    fn read_bytes(
        &self,
        thread: u32,
        object: u32,
        offset: u32,
        bytes: &mut [u8],
    ) -> Result<(), Refusal>;

    /// Writes bytes of the data of the object that a register names, from byte `offset` on, numbered as in
    /// `read_bytes`: as a call of `Mutate::set_datum` for each word that has one of them. The other bytes of these
    /// words stay. Fails as `read_bytes` does, and nothing is written then.
    fn write_bytes(
        &mut self,
        thread: u32,
        object: u32,
        offset: u32,
        bytes: &[u8],
    ) -> Result<(), Refusal>;

    /// Loads a global into a register, completely, through the read barrier. Fails as `Mutate::load_global` does,
    /// and nothing is done then.
    fn read_global(&mut self, thread: u32, target: u32, global: u32) -> Result<(), Refusal>;

    /// Returns the object that a register names: its birth, its layout, and how many references and data words it
    /// has. Fails with `BadIndex` if the thread or the register isn't there, and with `Null`, `Stall` or `Stale` if
    /// the register may not be used.
    fn object(&self, thread: u32, register: u32) -> Result<Object, Refusal>;

    /// Does a complete collection. Whatever an earlier one has left is finished first. Then a mark runs from its
    /// start, or the running mark to its end; pages of which at most `percent` words of a hundred are live are
    /// chosen, as many as there is space for; and these are emptied: all threads cross, live objects are copied, the
    /// pages' frames are released, and registers that named them are corrected, except those of parked threads and
    /// of threads with an open barrier.
    ///
    /// Fails with `NotCrossed` or `Pending` if a thread has an open barrier, and with `Memory`; never with
    /// `NoFrames` or `NoPages`. The steps before that are done, and another call continues from there once that load
    /// has ended.
    fn collect(&mut self, alloc: Global, percent: u32) -> Result<Collected, Refusal>;

    /// Does the next part of a collection, for a program that can't stop for a complete one: the beginning of a mark
    /// with all crossings; the scan of at most `budget` objects, which ends after the object with which 64 references
    /// for each of the budget were scanned; the mark's end; on pages of `words` words, the measuring of
    /// `budget * 64 / words + 1` pages; the preparing of memory of at most `budget * 32 / words + 1` frames for their
    /// objects; the protection of all pages that `collect` would empty, except a sixteenth of those with live objects,
    /// with all crossings; or the emptying of one page. If a mark has begun while objects were uncopied, it is the
    /// copying of one page; and if the worker has an object that steps have left it, the rest of its scan.
    ///
    /// Returns true if the collection has ended: no mark runs, and nothing is left to be copied or emptied; the next
    /// part begins another. If the program has begun a mark or protected pages meanwhile, it returns false at the end,
    /// and the next part continues with these.
    ///
    /// Fails as `collect` does; another call continues from there.
    fn collect_some(
        &mut self,
        alloc: Global,
        parts: &mut Parts,
        percent: u32,
        budget: u32,
    ) -> Result<bool, Refusal>;

    /// Gets a thread a fresh allocation buffer of `policy.words`, and gives back the one that it has. If at most
    /// `policy.free` frames are free and enough pages were opened since the last mark ended, half as many as frames
    /// are free or a sixteenth of those in use, or if there is no space, the heap is collected before; and if there
    /// is no space then, a mark runs once more, which frees the numbers of the pages that were emptied.
    ///
    /// Fails as `take` does, or as `collect` does: with `Memory` if out of memory for a fresh page, for which
    /// nothing is collected.
    fn refill(&mut self, alloc: Global, policy: Policy, thread: u32) -> Result<Buffer, Refusal>;

    /// Makes an object as `new_object` does; if the thread has no buffer with space for it, `refill` gets it one
    /// before. Returns the object's birth number.
    ///
    /// Fails as `new_object` does, with `NoRoom` for an object that is larger than `policy.words`, or as `refill`
    /// does, with `Memory` if out of memory for a fresh page.
    fn make(
        &mut self,
        alloc: Global,
        policy: Policy,
        thread: u32,
        target: u32,
        layout: u32,
    ) -> Result<u64, Refusal>;

    /// Makes an object as `make` does, during a collection in parts. If the thread's buffer has no space for it, the
    /// fresh buffer does its share of the collection first, if one has begun or frames are low as for `refill`: parts
    /// until the collection ends, or until `4 * s / a + 2` are done, where `s` is how many parts the stage has and `a`
    /// how many more frames are free than a quarter of `policy.free`. If none is, the rest of the collection is done;
    /// the heap is collected by one call only if no frame is free.
    ///
    /// `budget` is how many objects a part may scan. Fails as `make` does.
    fn make_paced(
        &mut self,
        alloc: Global,
        parts: &mut Parts,
        policy: Policy,
        budget: u32,
        thread: u32,
        target: u32,
        layout: u32,
    ) -> Result<u64, Refusal>;

    /// Makes an object as `make_paced` does, and fills it as `make_with` does. Fails as `make_with` does.
    fn make_with_paced(
        &mut self,
        alloc: Global,
        parts: &mut Parts,
        policy: Policy,
        budget: u32,
        thread: u32,
        target: u32,
        layout: u32,
        sources: &[u32],
        nums: &[u64],
    ) -> Result<u64, Refusal>;

    /// Makes an object as `make` does, then stores the references of the registers `sources` in its first
    /// references, as `store` does, and then writes its first data words, as `set_datum` does. If `target` is a
    /// source, it names the new object. Returns the object's birth number.
    ///
    /// Before the object is made the rest is tested: it fails with `BadIndex` if a register or the layout isn't
    /// there, or if the layout has fewer references or data words; with `Stall` or `Stale` if a source may not be
    /// used; and as `make` does. No object is made then.
    fn make_with(
        &mut self,
        alloc: Global,
        policy: Policy,
        thread: u32,
        target: u32,
        layout: u32,
        sources: &[u32],
        nums: &[u64],
    ) -> Result<u64, Refusal>;

    /// Returns how many frames' memory is kept for the next pages: of frames that became free, or prepared by a
    /// collection in parts; at most as many as are free.
    fn kept_frames(&self) -> usize;

    /// Releases the memory of free frames to the allocator, except that of `most` frames. Until then, memory of
    /// frames that became free is kept for the next pages. The state of the heap stays.
    fn trim(&mut self, most: usize);

    /// Reports to a target how many frames are used, as `Target::follow`; if that sets it, memory of free frames
    /// that the target doesn't allow is released. A program does this after each call that may collect, and passes
    /// `target.policy(..)` to the next ones. The state of the heap stays.
    fn follow(&mut self, target: &mut Target);
}

impl Collect for ManagedHeap {
    #[inline(always)]
    fn read(&mut self, thread: u32, target: u32, object: u32, field: u32) -> Result<(), Refusal>
        ensures loads { LoadsWhole self.old thread (steps.Load target object field) result self.new }
        ensures stands { LoadStands self.old thread (steps.Load target object field) result self.new }
    {
        ManagedHeap::read(self, thread, target, object, field)
    }

    #[inline(always)]
    fn loads(&mut self, thread: u32, object: u32, fields: &[FieldLoad]) -> Result<(), LoadsFault>
        ensures { EndsLoads thread object 0 fields.now self.old result self.new }
    {
        ManagedHeap::loads(self, thread, object, fields)
    }

    #[inline(always)]
    fn get_many(
        &self,
        thread: u32,
        object: u32,
        first: u32,
        values: &mut [u64],
    ) -> Result<(), Refusal>
        ensures len { length values.new ≡ length values.old }
        ensures reads { EndsReading thread object first self.now result values.new }
    {
        ManagedHeap::get_many(self, thread, object, first, values)
    }

    #[inline(always)]
    fn set_many(
        &mut self,
        thread: u32,
        object: u32,
        first: u32,
        values: &[u64],
    ) -> Result<(), Refusal>
        ensures { EndsWriting thread object first values.now self.old result self.new }
    {
        ManagedHeap::set_many(self, thread, object, first, values)
    }

    #[inline(always)]
    fn copy_data(
        &mut self,
        thread: u32,
        target: u32,
        first: u32,
        source: u32,
        first_of_source: u32,
        count: usize,
    ) -> Result<(), Refusal>
        ensures { EndsCopying thread target first source first_of_source count self.old result self.new }
    {
        ManagedHeap::copy_data(self, thread, target, first, source, first_of_source, count)
    }

    #[inline(always)]
    fn read_bytes(
        &self,
        thread: u32,
        object: u32,
        offset: u32,
        bytes: &mut [u8],
    ) -> Result<(), Refusal>
        ensures len { length bytes.new ≡ length bytes.old }
        ensures reads { EndsReadingBytes thread object offset self.now result bytes.new }
    {
        ManagedHeap::read_bytes(self, thread, object, offset, bytes)
    }

    #[inline(always)]
    fn write_bytes(
        &mut self,
        thread: u32,
        object: u32,
        offset: u32,
        bytes: &[u8],
    ) -> Result<(), Refusal>
        ensures { EndsWritingBytes thread object offset bytes.now self.old result self.new }
    {
        ManagedHeap::write_bytes(self, thread, object, offset, bytes)
    }

    #[inline(always)]
    fn read_global(&mut self, thread: u32, target: u32, global: u32) -> Result<(), Refusal>
        ensures loads { LoadsWhole self.old thread (steps.LoadGlobal target global) result self.new }
        ensures stands { LoadStands self.old thread (steps.LoadGlobal target global) result self.new }
    {
        ManagedHeap::read_global(self, thread, target, global)
    }

    #[inline(always)]
    fn object(&self, thread: u32, register: u32) -> Result<Object, Refusal>
        ensures { result ≡ seen self.now thread register }
    {
        seeing::look(self, thread, register)
    }

    fn collect(&mut self, alloc: Global, percent: u32) -> Result<Collected, Refusal>
        ensures goes { Collects self.old self.new }
        ensures stands { StandsUnseen self.old self.new }
        ensures ends { EndsCollecting percent self.old result self.new }
        ensures room { IsNotRoom result }
        ensures scrubbed { IfOk result (λ collected. AreScrubbed self.new) }
    {
        collect_whole(self, alloc, percent, &Alone)
    }

    fn collect_some(
        &mut self,
        alloc: Global,
        parts: &mut Parts,
        percent: u32,
        budget: u32,
    ) -> Result<bool, Refusal>
        ensures goes { Collects self.old self.new }
        ensures stands { StandsUnseen self.old self.new }
        ensures ends { EndsPart self.old result self.new }
        ensures room { IsNotRoom result }
        ensures scrubbed { IfOk result
            (λ ended. is_protect_crossing self.new.phase ≡ false → AreScrubbed self.new) }
        ensures parts { PartGoesOn percent budget parts.old self.old result parts.new self.new }
    {
        parts::collect_some(self, alloc, parts, percent, budget)
    }

    fn refill(&mut self, alloc: Global, policy: Policy, thread: u32) -> Result<Buffer, Refusal>
        ensures goes { Refills thread self.old self.new }
        ensures stands { StandsUnseen self.old self.new }
        ensures ends { EndsRefill thread policy.words policy.percent self.old result self.new }
        ensures buffer { IsNotHeld result }
    {
        rooms::refill(self, alloc, policy, thread)
    }

    #[inline(always)]
    fn make(
        &mut self,
        alloc: Global,
        policy: Policy,
        thread: u32,
        target: u32,
        layout: u32,
    ) -> Result<u64, Refusal>
        ensures stands { MakingStands thread target layout self.old result self.new }
        ensures ends { EndsMaking thread policy.words policy.percent target layout self.old result self.new }
    {
        rooms::make(self, alloc, policy, thread, target, layout)
    }

    #[inline(always)]
    fn make_with(
        &mut self,
        alloc: Global,
        policy: Policy,
        thread: u32,
        target: u32,
        layout: u32,
        sources: &[u32],
        nums: &[u64],
    ) -> Result<u64, Refusal>
        ensures { EndsMakingWith thread policy.words policy.percent target layout sources.now nums.now self.old result
            self.new }
    {
        filling::make_with(self, alloc, policy, thread, target, layout, sources, nums)
    }

    #[inline(always)]
    fn make_paced(
        &mut self,
        alloc: Global,
        parts: &mut Parts,
        policy: Policy,
        budget: u32,
        thread: u32,
        target: u32,
        layout: u32,
    ) -> Result<u64, Refusal>
        ensures stands { MakingStands thread target layout self.old result self.new }
        ensures ends { EndsMaking thread policy.words policy.percent target layout self.old result self.new }
        ensures paced { MakesPaced thread policy.words policy.percent policy.free budget target layout parts.old
            self.old result parts.new self.new }
    {
        pacing::make_paced(self, alloc, parts, policy, budget, thread, target, layout)
    }

    #[inline(always)]
    fn make_with_paced(
        &mut self,
        alloc: Global,
        parts: &mut Parts,
        policy: Policy,
        budget: u32,
        thread: u32,
        target: u32,
        layout: u32,
        sources: &[u32],
        nums: &[u64],
    ) -> Result<u64, Refusal>
        ensures { EndsMakingWith thread policy.words policy.percent target layout sources.now nums.now self.old result
            self.new }
    {
        pacing::make_with_paced(
            self, alloc, parts, policy, budget, thread, target, layout, sources, nums,
        )
    }

    fn kept_frames(&self) -> usize {
        ManagedHeap::kept_frames(self)
    }

    fn trim(&mut self, most: usize)
        ensures { self.new ≡ self.old }
    {
        ManagedHeap::trim(self, most);
    }

    #[inline(always)]
    fn follow(&mut self, target: &mut Target)
        ensures heap { self.new ≡ self.old }
        ensures used { target.new.used ≡ in_use self.old }
        ensures frames { target.new.frames ≡ followed target.old.least target.old.growth target.old.used
            target.old.frames (in_use self.old) }
    {
        let used = in_use(self.heap());
        if target.follow(used) {
            let allowed = target.frames().saturating_sub(used);
            ManagedHeap::trim(self, allowed as usize);
        }
    }
}
