//! The calls of a thread in a portion.

use collecting::{Collected, Object, Policy};
use managed::{FieldLoad, LoadsFault};
use model::{Buffer, Refusal};
use std::alloc::Global;

/// The calls of a thread in a portion: the steps of `Mutate` and the calls of `Collect`, without the thread's
/// number. Registers, fields, indexes, globals and layouts are numbers from 0. Each call is as its contract says on
/// a `Mutator`; a function that is generic over this trait depends on none of these contracts, and is proved in
/// short time.
///
/// In a portion its thread runs, and between two calls neither a load nor a checkpoint is open, by `Mutator::law`:
/// so a step of the thread never stalls, and all threads have crossed.
pub trait MutatorCalls {
    /// Takes an allocation buffer, as `Mutate::take`: `Memory` if out of memory for a fresh page.
    fn take(&mut self, words: u32) -> Result<Buffer, Refusal>;

    /// Gives back the buffer, as `Mutate::give_back`.
    fn give_back(&mut self) -> Result<(), Refusal>;

    /// Makes an object in the buffer, as `Mutate::new_object`.
    fn new_object(&mut self, target: u32, layout: u32) -> Result<u64, Refusal>;

    /// Loads a reference field of an object into a register, as `Collect::read`.
    fn read(&mut self, target: u32, object: u32, field: u32) -> Result<(), Refusal>;

    /// Loads a global into a register, as `Collect::read_global`.
    fn read_global(&mut self, target: u32, global: u32) -> Result<(), Refusal>;

    /// Stores a register's reference in a field of an object, as `Mutate::store`.
    fn store(&mut self, object: u32, field: u32, source: u32) -> Result<(), Refusal>;

    /// Stores a register's reference in a global, as `Mutate::store_global`.
    fn store_global(&mut self, global: u32, source: u32) -> Result<(), Refusal>;

    /// Returns a data word of an object, as `Mutate::datum`.
    fn datum(&self, object: u32, index: u32) -> Result<u64, Refusal>;

    /// Writes a data word of an object, as `Mutate::set_datum`.
    fn set_datum(&mut self, object: u32, index: u32, value: u64) -> Result<(), Refusal>;

    /// Returns whether two registers refer to the same object, or are both null, as `Mutate::same`.
    fn same(&self, left: u32, right: u32) -> Result<bool, Refusal>;

    /// Returns whether a register is null, as `Mutate::is_null`.
    fn is_null(&self, register: u32) -> Result<bool, Refusal>;

    /// Copies a register's reference to another register, as `Mutate::copy_register`.
    fn copy_register(&mut self, target: u32, source: u32) -> Result<(), Refusal>;

    /// Makes a register null, as `Mutate::clear_register`.
    fn clear_register(&mut self, target: u32) -> Result<(), Refusal>;

    /// Returns the object that a register names, as `Collect::object`.
    fn object(&self, register: u32) -> Result<Object, Refusal>;

    /// Loads several reference fields of an object, as `Collect::loads`.
    fn loads(&mut self, object: u32, fields: &[FieldLoad]) -> Result<(), LoadsFault>;

    /// Reads data words of an object, from word `first` on, as `Collect::get_many`.
    fn get_many(&self, object: u32, first: u32, values: &mut [u64]) -> Result<(), Refusal>;

    /// Writes data words of an object, from word `first` on, as `Collect::set_many`.
    fn set_many(&mut self, object: u32, first: u32, values: &[u64]) -> Result<(), Refusal>;

    /// Copies data words of one object to another, as `Collect::copy_data`.
    fn copy_data(
        &mut self,
        target: u32,
        first: u32,
        source: u32,
        first_of_source: u32,
        count: usize,
    ) -> Result<(), Refusal>;

    /// Reads bytes of an object's data, from byte `offset` on, as `Collect::read_bytes`.
    fn read_bytes(&self, object: u32, offset: u32, bytes: &mut [u8]) -> Result<(), Refusal>;

    /// Writes bytes of an object's data, from byte `offset` on, as `Collect::write_bytes`.
    fn write_bytes(&mut self, object: u32, offset: u32, bytes: &[u8]) -> Result<(), Refusal>;

    /// Makes an object, with the space that it needs, as `Collect::make`: `Memory` if out of memory for a fresh
    /// page. All threads cross the checkpoint that its collection has left open, if there is one.
    fn make(
        &mut self,
        alloc: Global,
        policy: Policy,
        target: u32,
        layout: u32,
    ) -> Result<u64, Refusal>;

    /// Makes an object and fills it, as `Collect::make_with`. All threads cross the checkpoint that its collection
    /// has left open, if there is one.
    fn make_with(
        &mut self,
        alloc: Global,
        policy: Policy,
        target: u32,
        layout: u32,
        sources: &[u32],
        nums: &[u64],
    ) -> Result<u64, Refusal>;

    /// Takes a fresh buffer, for which the heap is collected if frames run low, as `Collect::refill`: `Memory` if
    /// out of memory for a fresh page. All threads cross the checkpoint that its collection has left open, if there
    /// is one.
    fn refill(&mut self, alloc: Global, policy: Policy) -> Result<Buffer, Refusal>;

    /// Collects the heap, as `Collect::collect`. All threads cross the checkpoint that it has left open, if
    /// there is one.
    fn collect(&mut self, alloc: Global, percent: u32) -> Result<Collected, Refusal>;

    /// Returns how many frames' memory is kept for the next pages, as `Collect::kept_frames`.
    fn kept_frames(&self) -> usize;

    /// Releases the memory of free frames to the allocator, except that of `most` frames, as `Collect::trim`. The
    /// state of the heap stays.
    fn trim(&mut self, most: usize);
}
