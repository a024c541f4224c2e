//! The calls of a program on its heap.

use crate::numbers::{Datum, Field, GlobalNumber, LayoutNumber, Register, Thread};
use collecting::{Collected, Counters, Object, Policy, PolicyFault, Target};
use managed::{FieldLoad, LoadsFault};
use model::{Buffer, Refusal};
use std::alloc::Global;

/// The calls of a program on its heap: the steps of `Mutate` and the calls of `CollectCounted`, with typed numbers.
/// Collections use the heap's own policy and budget, continue its own increment, and count in its own counters.
///
/// Each call is as its contract says on a `TypedHeap`; a function that is generic over this trait depends on none of
/// these contracts, and is proved in short time. Each fails as the call that its comment names, and a step that fails
/// changes nothing. Lists of registers are plain numbers.
pub trait HeapCalls {
    /// Takes a buffer of 1 to the words of a page, as `Mutate::take`.
    fn take(&mut self, thread: Thread, words: u32) -> Result<Buffer, Refusal>;

    /// Returns the thread's buffer, as `Mutate::give_back`.
    fn give_back(&mut self, thread: Thread) -> Result<(), Refusal>;

    /// Allocates an object in the thread's buffer, as `Mutate::new_object`. Returns its birth.
    fn new_object(
        &mut self,
        thread: Thread,
        target: Register,
        layout: LayoutNumber,
    ) -> Result<u64, Refusal>;

    /// Loads a reference field of an object into a register, through the read barrier, as `Collect::read`.
    fn read(
        &mut self,
        thread: Thread,
        target: Register,
        object: Register,
        field: Field,
    ) -> Result<(), Refusal>;

    /// Loads a global into a register, through the read barrier, as `Collect::read_global`.
    fn read_global(
        &mut self,
        thread: Thread,
        target: Register,
        global: GlobalNumber,
    ) -> Result<(), Refusal>;

    /// Loads several reference fields of an object, up to the first that fails, as `Collect::loads`.
    fn loads(
        &mut self,
        thread: Thread,
        object: Register,
        fields: &[FieldLoad],
    ) -> Result<(), LoadsFault>;

    /// Stores a register's reference in a field of an object, as `Mutate::store`.
    fn store(
        &mut self,
        thread: Thread,
        object: Register,
        field: Field,
        source: Register,
    ) -> Result<(), Refusal>;

    /// Stores a register's reference in a global, as `Mutate::store_global`.
    fn store_global(
        &mut self,
        thread: Thread,
        global: GlobalNumber,
        source: Register,
    ) -> Result<(), Refusal>;

    /// Returns a data word of an object, as `Mutate::datum`.
    fn datum(&self, thread: Thread, object: Register, index: Datum) -> Result<u64, Refusal>;

    /// Writes a data word of an object, as `Mutate::set_datum`.
    fn set_datum(
        &mut self,
        thread: Thread,
        object: Register,
        index: Datum,
        value: u64,
    ) -> Result<(), Refusal>;

    /// Reads data words of an object, from word `first` on, as `Collect::get_many`.
    fn get_many(
        &self,
        thread: Thread,
        object: Register,
        first: Datum,
        values: &mut [u64],
    ) -> Result<(), Refusal>;

    /// Writes data words of an object, from word `first` on, as `Collect::set_many`.
    fn set_many(
        &mut self,
        thread: Thread,
        object: Register,
        first: Datum,
        values: &[u64],
    ) -> Result<(), Refusal>;

    /// Returns whether two registers refer to the same object, or are both null, as `Mutate::same`.
    fn same(&self, thread: Thread, left: Register, right: Register) -> Result<bool, Refusal>;

    /// Returns whether a register is null, as `Mutate::is_null`.
    fn is_null(&self, thread: Thread, register: Register) -> Result<bool, Refusal>;

    /// Copies a register's reference to another register, as `Mutate::copy_register`.
    fn copy_register(
        &mut self,
        thread: Thread,
        target: Register,
        source: Register,
    ) -> Result<(), Refusal>;

    /// Makes a register null, as `Mutate::clear_register`.
    fn clear_register(&mut self, thread: Thread, target: Register) -> Result<(), Refusal>;

    /// Returns the birth, the layout and the sizes of the object that a register refers to, as `Collect::object`.
    fn object(&self, thread: Thread, register: Register) -> Result<Object, Refusal>;

    /// Parks the thread, as `Mutate::park`: it may do nothing but `unpark`.
    fn park(&mut self, thread: Thread) -> Result<(), Refusal>;

    /// Lets the thread run again, as `Mutate::unpark`.
    fn unpark(&mut self, thread: Thread) -> Result<(), Refusal>;

    /// Allocates an object, for which the heap is collected if frames are low, as `Collect::make`. Returns its birth.
    fn make(
        &mut self,
        alloc: Global,
        thread: Thread,
        target: Register,
        layout: LayoutNumber,
    ) -> Result<u64, Refusal>;

    /// Allocates an object as `make` does, and fills its first references from `sources`, which are numbers of
    /// registers, and its first data words, as `Collect::make_with`.
    fn make_with(
        &mut self,
        alloc: Global,
        thread: Thread,
        target: Register,
        layout: LayoutNumber,
        sources: &[u32],
        nums: &[u64],
    ) -> Result<u64, Refusal>;

    /// Allocates an object during a collection in parts, as `Collect::make_paced`: a fresh buffer's share of its
    /// parts comes first. Returns the birth.
    fn make_paced(
        &mut self,
        alloc: Global,
        thread: Thread,
        target: Register,
        layout: LayoutNumber,
    ) -> Result<u64, Refusal>;

    /// Allocates an object as `make_paced` does, and fills it as `make_with` does.
    fn make_with_paced(
        &mut self,
        alloc: Global,
        thread: Thread,
        target: Register,
        layout: LayoutNumber,
        sources: &[u32],
        nums: &[u64],
    ) -> Result<u64, Refusal>;

    /// Takes a fresh buffer, for which the heap is collected if frames are low, as `Collect::refill`.
    fn refill(&mut self, alloc: Global, thread: Thread) -> Result<Buffer, Refusal>;

    /// Does a complete collection, as `Collect::collect` with the policy's `percent`.
    fn collect(&mut self, alloc: Global) -> Result<Collected, Refusal>;

    /// Does the next part of a collection, as `Collect::collect_some`. Returns whether the collection has ended.
    fn collect_some(&mut self, alloc: Global) -> Result<bool, Refusal>;

    /// Returns the policy by which the heap is collected.
    fn policy(&self) -> Policy;

    /// Sets the policy. Fails with the first field that is out of its range, and then changes nothing.
    fn set_policy(&mut self, policy: Policy) -> Result<(), PolicyFault>;

    /// Returns the budget: how many objects a part of a collection may scan.
    fn budget(&self) -> u32;

    /// Sets the budget: how many objects a part of a collection may scan, at least one.
    fn set_budget(&mut self, budget: u32);

    /// Has collections in parts empty at most this many pages with live objects each, as `Parts::empty_at_most`.
    fn empty_at_most(&mut self, pages: u32);

    /// Returns what the collections of the heap have done.
    fn counters(&self) -> Counters;

    /// Returns how many frames' memory is kept for the next pages, as `Collect::kept_frames`.
    fn kept_frames(&self) -> usize;

    /// Releases the memory of free frames to the allocator, except that of `most` frames, as `Collect::trim`. The
    /// state of the heap stays.
    fn trim(&mut self, most: usize);

    /// Sets a target by the frames in use, as `Collect::follow`, and releases memory that it doesn't allow. The state
    /// of the heap stays.
    fn follow(&mut self, target: &mut Target);
}
