//! Copies of data words from one object to another by one call.

ghost use Rattle.std.specs.Prelude.{◌≡◌, ◌<◌, ◌≤◌, ◌+◌, ◌^◌, length};
ghost use Rattle.model.specs.declared.limits.TheConstants.{MOST_FIELDS};
ghost use Rattle.managed.specs.Data.{CopiesRun, EndsCopying};

use crate::data::{Run, find_run, read_run, write_run};
use crate::managed::ManagedHeap;
use heap::Heap;
use model::Refusal;

/// Up to this many words are copied through a short array.
const FEW: usize = 32;

/// The most data words that an object has.
const MANY: usize = 1023;

/// Reads words of one object, and writes them to another, from data word `first` on.
#[inline(always)]
fn copy_run(
    heap: &mut Heap,
    thread: u32,
    target: u32,
    first: u32,
    from: Run,
    words: &mut [u64],
) -> Result<(), Refusal>
    requires some { 0 < length words.old }
    requires near { from.ahead + length words.old < 2 ^ 17 }
    ensures { CopiesRun thread target first (from.address + from.ahead) (length words.old) heap.old result heap.new }
{
    if !read_run(heap, from.address, from.ahead, words) {
        return Err(Refusal::BadIndex);
    }
    match find_run(heap, thread, target, first, words.len()) {
        Ok(to) => {
            write_run(heap, to.address, to.ahead, words);
            Ok(())
        }
        Err(refusal) => Err(refusal),
    }
}

/// As `copy_run`, for a few words.
#[inline(always)]
fn copy_few(
    heap: &mut Heap,
    thread: u32,
    target: u32,
    first: u32,
    from: Run,
    count: usize,
) -> Result<(), Refusal>
    requires some { 0 < count }
    requires most { count ≤ 32 }
    requires near { from.ahead + count < 2 ^ 17 }
    ensures { CopiesRun thread target first (from.address + from.ahead) count heap.old result heap.new }
{
    let mut words = [0; FEW];
    copy_run(heap, thread, target, first, from, &mut words[..count])
}

/// As `copy_run`, for up to the most data words that an object has.
#[inline(never)]
fn copy_many(
    heap: &mut Heap,
    thread: u32,
    target: u32,
    first: u32,
    from: Run,
    count: usize,
) -> Result<(), Refusal>
    requires some { 0 < count }
    requires most { count ≤ MOST_FIELDS }
    requires near { from.ahead + count < 2 ^ 17 }
    ensures { CopiesRun thread target first (from.address + from.ahead) count heap.old result heap.new }
{
    let mut words = [0; MANY];
    copy_run(heap, thread, target, first, from, &mut words[..count])
}

/// As `copy_run`, through an array that isn't much longer than needed.
#[inline(always)]
fn copy_words(
    heap: &mut Heap,
    thread: u32,
    target: u32,
    first: u32,
    from: Run,
    count: usize,
) -> Result<(), Refusal>
    requires some { 0 < count }
    requires most { count ≤ MOST_FIELDS }
    requires near { from.ahead + count < 2 ^ 17 }
    ensures { CopiesRun thread target first (from.address + from.ahead) count heap.old result heap.new }
{
    if count <= FEW {
        copy_few(heap, thread, target, first, from, count)
    } else {
        copy_many(heap, thread, target, first, from, count)
    }
}

impl ManagedHeap {
    /// Copies `count` data words of the object that register `source` names, from word `first_of_source` on, to the
    /// object that register `target` names, from word `first` on: as `get_many` and then `set_many`. All words are
    /// read before one is written, so the two may be the same object, and overlap.
    ///
    /// Fails as `datum` does for one of the source's words, or else as `set_datum` does for one of the target's,
    /// with `BadIndex` if an object has fewer; nothing is written then.
    #[inline(always)]
    pub fn copy_data(
        &mut self,
        thread: u32,
        target: u32,
        first: u32,
        source: u32,
        first_of_source: u32,
        count: usize,
    ) -> Result<(), Refusal>
        ensures { EndsCopying thread target first source first_of_source count self.old result self.new }
    {
        if count == 0 {
            return Ok(());
        }
        refinement::law();
        self.heap.law();
        let from = match find_run(&self.heap, thread, source, first_of_source, count) {
            Ok(run) => run,
            Err(refusal) => return Err(refusal),
        };
        copy_words(&mut self.heap, thread, target, first, from, count)
    }
}
