//! Copying data words from object to object, and data as bytes.

ghost use Rattle.std.specs.Prelude.{◌≡◌, length};
ghost use Rattle.managed.specs.Bytes.{EndsReadingBytes, EndsWritingBytes};
ghost use Rattle.managed.specs.Data.{EndsCopying};
ghost use Rattle.typed.specs.Owning.{ChangesHeap};

use crate::numbers::{Datum, Register, Thread};
use crate::owning::TypedHeap;
use collecting::Collect;
use model::Refusal;

/// The calls that copy data words, and read and write them as bytes, with typed numbers. Each fails as the call of
/// `Collect` that its comment names, and then writes nothing to an object.
pub trait BulkCalls {
    /// Copies `count` data words of the source's object, from word `first_of_source` on, to the target's object, from
    /// word `first` on, as `Collect::copy_data`. The two may be the same object, and overlap.
    fn copy_data(
        &mut self,
        thread: Thread,
        target: Register,
        first: Datum,
        source: Register,
        first_of_source: Datum,
        count: usize,
    ) -> Result<(), Refusal>;

    /// Reads bytes of an object's data, from byte `offset` on, as `Collect::read_bytes`.
    fn read_bytes(
        &self,
        thread: Thread,
        object: Register,
        offset: u32,
        bytes: &mut [u8],
    ) -> Result<(), Refusal>;

    /// Writes bytes of an object's data, from byte `offset` on, as `Collect::write_bytes`.
    fn write_bytes(
        &mut self,
        thread: Thread,
        object: Register,
        offset: u32,
        bytes: &[u8],
    ) -> Result<(), Refusal>;
}

impl BulkCalls for TypedHeap {
    #[inline(always)]
    fn copy_data(
        &mut self,
        thread: Thread,
        target: Register,
        first: Datum,
        source: Register,
        first_of_source: Datum,
        count: usize,
    ) -> Result<(), Refusal>
        ensures copies { EndsCopying thread.0 target.0 first.0 source.0 first_of_source.0 count self.old.heap result
            self.new.heap }
        ensures kept { ChangesHeap self.old self.new }
    {
        self.heap.copy_data(
            thread.0,
            target.0,
            first.0,
            source.0,
            first_of_source.0,
            count,
        )
    }

    #[inline(always)]
    fn read_bytes(
        &self,
        thread: Thread,
        object: Register,
        offset: u32,
        bytes: &mut [u8],
    ) -> Result<(), Refusal>
        ensures len { length bytes.new ≡ length bytes.old }
        ensures reads { EndsReadingBytes thread.0 object.0 offset self.now.heap result bytes.new }
    {
        self.heap.read_bytes(thread.0, object.0, offset, bytes)
    }

    #[inline(always)]
    fn write_bytes(
        &mut self,
        thread: Thread,
        object: Register,
        offset: u32,
        bytes: &[u8],
    ) -> Result<(), Refusal>
        ensures writes { EndsWritingBytes thread.0 object.0 offset bytes.now self.old.heap result self.new.heap }
        ensures kept { ChangesHeap self.old self.new }
    {
        self.heap.write_bytes(thread.0, object.0, offset, bytes)
    }
}
