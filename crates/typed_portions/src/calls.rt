//! The calls of a thread in a portion, with typed numbers.

use collecting::{Collected, Object, Policy};
use managed::{FieldLoad, LoadsFault};
use model::{Buffer, Refusal};
use std::alloc::Global;
use typed::{Datum, Field, GlobalNumber, LayoutNumber, Register};

/// The calls of a thread in a portion: those of `portions::MutatorCalls`, with typed numbers, so that a call with two
/// of different types swapped does not compile. Each call has the clauses of the call of `MutatorCalls` of the same
/// name; a function that is generic over this trait depends on none of them, and is proved in short time. Lists of
/// registers are plain numbers.
///
/// In a portion its thread runs, and between two calls neither a load nor a checkpoint is open, by `Mutator::law`: so
/// a step of the thread never stalls, and all threads have crossed.
pub trait PortionCalls {
    /// Takes an allocation buffer, as `Mutate::take`: `Memory` if out of memory for a fresh page.
    fn take(&mut self, words: u32) -> Result<Buffer, Refusal>;

    /// Returns the buffer, as `Mutate::give_back`.
    fn give_back(&mut self) -> Result<(), Refusal>;

    /// Allocates an object in the buffer, as `Mutate::new_object`.
    fn new_object(&mut self, target: Register, layout: LayoutNumber) -> Result<u64, Refusal>;

    /// Loads a reference field of an object into a register, as `Collect::read`.
    fn read(&mut self, target: Register, object: Register, field: Field) -> Result<(), Refusal>;

    /// Loads a global into a register, as `Collect::read_global`.
    fn read_global(&mut self, target: Register, global: GlobalNumber) -> Result<(), Refusal>;

    /// Stores a register's reference in a field of an object, as `Mutate::store`.
    fn store(&mut self, object: Register, field: Field, source: Register) -> Result<(), Refusal>;

    /// Stores a register's reference in a global, as `Mutate::store_global`.
    fn store_global(&mut self, global: GlobalNumber, source: Register) -> Result<(), Refusal>;

    /// Returns a data word of an object, as `Mutate::datum`.
    fn datum(&self, object: Register, index: Datum) -> Result<u64, Refusal>;

    /// Writes a data word of an object, as `Mutate::set_datum`.
    fn set_datum(&mut self, object: Register, index: Datum, value: u64) -> Result<(), Refusal>;

    /// Returns whether two registers refer to the same object, or are both null, as `Mutate::same`.
    fn same(&self, left: Register, right: Register) -> Result<bool, Refusal>;

    /// Returns whether a register is null, as `Mutate::is_null`.
    fn is_null(&self, register: Register) -> Result<bool, Refusal>;

    /// Copies a register's reference to another register, as `Mutate::copy_register`.
    fn copy_register(&mut self, target: Register, source: Register) -> Result<(), Refusal>;

    /// Makes a register null, as `Mutate::clear_register`.
    fn clear_register(&mut self, target: Register) -> Result<(), Refusal>;

    /// Returns the object that a register refers to, as `Collect::object`.
    fn object(&self, register: Register) -> Result<Object, Refusal>;

    /// Loads several reference fields of an object, as `Collect::loads`.
    fn loads(&mut self, object: Register, fields: &[FieldLoad]) -> Result<(), LoadsFault>;

    /// Reads data words of an object, from word `first` on, as `Collect::get_many`.
    fn get_many(&self, object: Register, first: Datum, values: &mut [u64]) -> Result<(), Refusal>;

    /// Writes data words of an object, from word `first` on, as `Collect::set_many`.
    fn set_many(&mut self, object: Register, first: Datum, values: &[u64]) -> Result<(), Refusal>;

    /// Copies `count` data words of the source's object, from word `first_of_source` on, to the target's object, from
    /// word `first` on, as `Collect::copy_data`.
    fn copy_data(
        &mut self,
        target: Register,
        first: Datum,
        source: Register,
        first_of_source: Datum,
        count: usize,
    ) -> Result<(), Refusal>;

    /// Reads bytes of an object's data, from byte `offset` on, as `Collect::read_bytes`.
    fn read_bytes(&self, object: Register, offset: u32, bytes: &mut [u8]) -> Result<(), Refusal>;

    /// Writes bytes of an object's data, from byte `offset` on, as `Collect::write_bytes`.
    fn write_bytes(&mut self, object: Register, offset: u32, bytes: &[u8]) -> Result<(), Refusal>;

    /// Allocates an object, with the space that it needs, as `Collect::make`: `Memory` if out of memory for a fresh
    /// page. All threads cross the checkpoint that its collection has left open, if there is one.
    fn make(
        &mut self,
        alloc: Global,
        policy: Policy,
        target: Register,
        layout: LayoutNumber,
    ) -> Result<u64, Refusal>;

    /// Allocates an object and fills it, as `Collect::make_with`. All threads cross the checkpoint that its
    /// collection has left open, if there is one.
    fn make_with(
        &mut self,
        alloc: Global,
        policy: Policy,
        target: Register,
        layout: LayoutNumber,
        sources: &[u32],
        nums: &[u64],
    ) -> Result<u64, Refusal>;

    /// Takes a fresh buffer, for which the heap is collected if frames run low, as `Collect::refill`: `Memory` if out
    /// of memory for a fresh page. All threads cross the checkpoint that its collection has left open, if there is
    /// one.
    fn refill(&mut self, alloc: Global, policy: Policy) -> Result<Buffer, Refusal>;

    /// Collects the heap, as `Collect::collect`. All threads cross the checkpoint that it has left open, if
    /// there is one.
    fn collect(&mut self, alloc: Global, percent: u32) -> Result<Collected, Refusal>;

    /// Returns how many frames' memory is kept for the next pages, as `Collect::kept_frames`.
    fn kept_frames(&self) -> usize;

    /// Releases the memory of free frames to the allocator, except that of `most` frames, as `Collect::trim`. The
    /// state of the heap stays.
    fn trim(&mut self, most: usize);
}
