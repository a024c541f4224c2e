//! Bytes of an object's data by one call.

ghost use Rattle.std.specs.Prelude.{◌≡◌, ◌<◌, ◌≤◌, ◌+◌, ◌*◌, ◌/◌, ◌%◌, ◌^◌, length};
ghost use Rattle.model.specs.declared.limits.TheConstants.{MOST_FIELDS};
ghost use Rattle.model.specs.Stores.{overlay};
ghost use Rattle.managed.specs.Bytes.{AreWords, EndsReadingBytes, EndsWritingBytes, ReadsRunBytes, WritesRunBytes};
ghost use Rattle.managed.specs.Bytes.{bytes_of, words_touched};

use crate::data::{Run, find_run, read_run, write_run};
use crate::managed::ManagedHeap;
use byteorder::{ByteOrder, LittleEndian};
use heap::Heap;
use model::Refusal;

/// Up to this many words are read through a short array; and how many bytes these have.
const FEW: usize = 32;

const FEW_BYTES: usize = 256;

/// The most data words that an object has, and the most bytes of them.
const MANY: usize = 1023;

const MANY_BYTES: usize = 8184;

/// Returns how many words contain one of these bytes, if the first one is byte `skip` of the first word.
#[inline(always)]
fn count_words(skip: usize, bytes: &[u8]) -> usize
    requires skip { skip < 8 }
    requires some { 0 < length bytes.now }
    ensures value { result ≡ words_touched skip (length bytes.now) }
    ensures within { skip + length bytes.now ≤ 8 * result }
{
    (skip + (bytes.len() - 1)) / 8 + 1
}

/// Overwrites bytes of a slice, from byte `start` on.
#[inline(always)]
fn write_over(space: &mut [u8], start: usize, bytes: &[u8])
    requires { start + length bytes.now ≤ length space.old }
    ensures { space.new ≡ overlay space.old start bytes.now }
{
    space[start..start + bytes.len()].copy_from_slice(bytes);
}

/// Overwrites bytes of words, from byte `skip` of the first word on.
#[inline(always)]
fn replace_bytes(skip: usize, words: &mut [u64], space: &mut [u8], bytes: &[u8])
    requires space { length space.old ≡ 8 * length words.old }
    requires within { skip + length bytes.now ≤ 8 * length words.old }
    ensures len { length words.new ≡ length words.old }
    ensures bytes { bytes_of words.new ≡ overlay (bytes_of words.old) skip bytes.now }
    ensures fits { AreWords words.new }
{
    LittleEndian::write_u64_into(words, space);
    write_over(space, skip, bytes);
    LittleEndian::read_u64_into(space, words);
}

/// Reads bytes of a run of words, from byte `skip` of the first word on. Returns whether all words are there; if
/// not, `bytes` is unspecified.
#[inline(always)]
fn read_bytes_of(
    heap: &Heap,
    run: Run,
    skip: usize,
    words: &mut [u64],
    space: &mut [u8],
    bytes: &mut [u8],
) -> bool
    requires near { run.ahead + length words.old < 2 ^ 17 }
    requires space { length space.old ≡ 8 * length words.old }
    requires within { skip + length bytes.old ≤ 8 * length words.old }
    ensures len { length bytes.new ≡ length bytes.old }
    ensures bytes { ReadsRunBytes heap.now.store (run.address + run.ahead) (length words.old) skip bytes.new result }
{
    if !read_run(heap, run.address, run.ahead, words) {
        return false;
    }
    LittleEndian::write_u64_into(words, space);
    bytes.copy_from_slice(&space[skip..skip + bytes.len()]);
    true
}

/// As `read_bytes_of`, for a few words.
#[inline(always)]
fn read_few(heap: &Heap, run: Run, skip: usize, count: usize, bytes: &mut [u8]) -> bool
    requires most { count ≤ 32 }
    requires near { run.ahead + count < 2 ^ 17 }
    requires within { skip + length bytes.old ≤ 8 * count }
    ensures len { length bytes.new ≡ length bytes.old }
    ensures bytes { ReadsRunBytes heap.now.store (run.address + run.ahead) count skip bytes.new result }
{
    let mut words = [0; FEW];
    let mut space = [0; FEW_BYTES];
    read_bytes_of(
        heap,
        run,
        skip,
        &mut words[..count],
        &mut space[..8 * count],
        bytes,
    )
}

/// As `read_bytes_of`, for up to the most data words that an object has.
#[inline(never)]
fn read_many(heap: &Heap, run: Run, skip: usize, count: usize, bytes: &mut [u8]) -> bool
    requires most { count ≤ MOST_FIELDS }
    requires near { run.ahead + count < 2 ^ 17 }
    requires within { skip + length bytes.old ≤ 8 * count }
    ensures len { length bytes.new ≡ length bytes.old }
    ensures bytes { ReadsRunBytes heap.now.store (run.address + run.ahead) count skip bytes.new result }
{
    let mut words = [0; MANY];
    let mut space = [0; MANY_BYTES];
    read_bytes_of(
        heap,
        run,
        skip,
        &mut words[..count],
        &mut space[..8 * count],
        bytes,
    )
}

/// As `read_bytes_of`, through arrays that aren't much longer than needed.
#[inline(always)]
fn read_run_bytes(heap: &Heap, run: Run, skip: usize, count: usize, bytes: &mut [u8]) -> bool
    requires most { count ≤ MOST_FIELDS }
    requires near { run.ahead + count < 2 ^ 17 }
    requires within { skip + length bytes.old ≤ 8 * count }
    ensures len { length bytes.new ≡ length bytes.old }
    ensures bytes { ReadsRunBytes heap.now.store (run.address + run.ahead) count skip bytes.new result }
{
    if count <= FEW {
        read_few(heap, run, skip, count, bytes)
    } else {
        read_many(heap, run, skip, count, bytes)
    }
}

/// Overwrites bytes of a run of words, from byte `skip` of the first word on. Returns whether all words are there;
/// if not, nothing is written.
#[inline(always)]
fn write_bytes_of(
    heap: &mut Heap,
    run: Run,
    skip: usize,
    words: &mut [u64],
    space: &mut [u8],
    bytes: &[u8],
) -> bool
    requires near { run.ahead + length words.old < 2 ^ 17 }
    requires space { length space.old ≡ 8 * length words.old }
    requires within { skip + length bytes.now ≤ 8 * length words.old }
    ensures { WritesRunBytes (run.address + run.ahead) (length words.old) skip bytes.now heap.old result heap.new }
{
    if !read_run(heap, run.address, run.ahead, words) {
        return false;
    }
    replace_bytes(skip, words, space, bytes);
    write_run(heap, run.address, run.ahead, words);
    true
}

/// As `write_bytes_of`, for a few words.
#[inline(always)]
fn write_few(heap: &mut Heap, run: Run, skip: usize, count: usize, bytes: &[u8]) -> bool
    requires most { count ≤ 32 }
    requires near { run.ahead + count < 2 ^ 17 }
    requires within { skip + length bytes.now ≤ 8 * count }
    ensures { WritesRunBytes (run.address + run.ahead) count skip bytes.now heap.old result heap.new }
{
    let mut words = [0; FEW];
    let mut space = [0; FEW_BYTES];
    write_bytes_of(
        heap,
        run,
        skip,
        &mut words[..count],
        &mut space[..8 * count],
        bytes,
    )
}

/// As `write_bytes_of`, for up to the most data words that an object has.
#[inline(never)]
fn write_many(heap: &mut Heap, run: Run, skip: usize, count: usize, bytes: &[u8]) -> bool
    requires most { count ≤ MOST_FIELDS }
    requires near { run.ahead + count < 2 ^ 17 }
    requires within { skip + length bytes.now ≤ 8 * count }
    ensures { WritesRunBytes (run.address + run.ahead) count skip bytes.now heap.old result heap.new }
{
    let mut words = [0; MANY];
    let mut space = [0; MANY_BYTES];
    write_bytes_of(
        heap,
        run,
        skip,
        &mut words[..count],
        &mut space[..8 * count],
        bytes,
    )
}

/// As `write_bytes_of`, through arrays that aren't much longer than needed.
#[inline(always)]
fn write_run_bytes(heap: &mut Heap, run: Run, skip: usize, count: usize, bytes: &[u8]) -> bool
    requires most { count ≤ MOST_FIELDS }
    requires near { run.ahead + count < 2 ^ 17 }
    requires within { skip + length bytes.now ≤ 8 * count }
    ensures { WritesRunBytes (run.address + run.ahead) count skip bytes.now heap.old result heap.new }
{
    if count <= FEW {
        write_few(heap, run, skip, count, bytes)
    } else {
        write_many(heap, run, skip, count, bytes)
    }
}

impl ManagedHeap {
    /// Reads bytes of the data of the object that a register names, from byte `offset` on, until `bytes` is full.
    /// Byte i is byte i % 8 of data word i / 8, the lowest byte of each word first, as x86-64 has them in memory.
    ///
    /// Fails as `datum` does for one of the words that have these bytes, with `BadIndex` if the object has fewer;
    /// `bytes` is unspecified then. If `bytes` is empty, it does nothing, whatever the register and the offset are.
    #[inline(always)]
    pub fn read_bytes(
        &self,
        thread: u32,
        object: u32,
        offset: u32,
        bytes: &mut [u8],
    ) -> Result<(), Refusal>
        ensures len { length bytes.new ≡ length bytes.old }
        ensures reads { EndsReadingBytes thread object offset self.now result bytes.new }
    {
        if bytes.is_empty() {
            return Ok(());
        }
        let skip = (offset % 8) as usize;
        let count = count_words(skip, bytes);
        let run = match find_run(&self.heap, thread, object, offset / 8, count) {
            Ok(run) => run,
            Err(refusal) => return Err(refusal),
        };
        if !read_run_bytes(&self.heap, run, skip, count, bytes) {
            return Err(Refusal::BadIndex);
        }
        Ok(())
    }

    /// Writes bytes of the data of the object that a register names, from byte `offset` on, numbered as in
    /// `read_bytes`: as a call of `set_datum` for each word that has one of these bytes, in order. The word's other
    /// bytes stay.
    ///
    /// Fails as `datum` does for one of these words, with `BadIndex` if the object has fewer; nothing is written
    /// then.
    #[inline(always)]
    pub fn write_bytes(
        &mut self,
        thread: u32,
        object: u32,
        offset: u32,
        bytes: &[u8],
    ) -> Result<(), Refusal>
        ensures { EndsWritingBytes thread object offset bytes.now self.old result self.new }
    {
        if bytes.is_empty() {
            return Ok(());
        }
        refinement::law();
        self.heap.law();
        let skip = (offset % 8) as usize;
        let count = count_words(skip, bytes);
        let run = match find_run(&self.heap, thread, object, offset / 8, count) {
            Ok(run) => run,
            Err(refusal) => return Err(refusal),
        };
        if !write_run_bytes(&mut self.heap, run, skip, count, bytes) {
            return Err(Refusal::BadIndex);
        }
        Ok(())
    }
}
