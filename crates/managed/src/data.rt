//! Several data words of an object by one call, whose tests run once.

ghost use Rattle.std.specs.Prelude.{◌≡◌, ◌<◌, ◌≤◌, ◌+◌, ◌^◌, length, true, IfOk, MatchResult};
ghost use Rattle.model.specs.declared.limits.TheConstants.{MOST_FIELDS};
ghost use Rattle.managed.specs.Data.{EndsReading, EndsWriting, IsRun, LacksRun, ReadsRun, with_data};

use crate::managed::ManagedHeap;
use cycle::thread_gate;
use heap::Heap;
use model::{Refusal, Step};
use refword::Addr;

/// The place of consecutive data words of an object.
#[derive(Clone, Copy)]
pub(crate) struct Run {
    /// The address of the object.
    pub(crate) address: Addr,
    /// How many words after it the first of them is.
    pub(crate) ahead: u64,
}

/// Returns the place of `count` data words of an object, from word `first` on, if the thread may read and write
/// them. `count` is at least 1.
#[inline(always)]
pub(crate) fn find_run(
    heap: &Heap,
    thread: u32,
    object: u32,
    first: u32,
    count: usize,
) -> Result<Run, Refusal>
    requires { 0 < count }
    ensures run { MatchResult result (IsRun heap.now thread object first count)
        (LacksRun heap.now thread object first count) }
    ensures few { IfOk result (λ _. count ≤ MOST_FIELDS) }
{
    heap.law();
    let step = Step::Datum {
        object,
        index: first,
    };
    if let Err(refusal) = thread_gate(heap, thread, &step) {
        return Err(refusal);
    }
    let address = match heap.usable(thread, object) {
        Ok(address) => address,
        Err(refusal) => return Err(refusal),
    };
    let Some(layout) = heap.layout_at(address) else {
        return Err(Refusal::BadIndex);
    };
    let nums = usize::from(layout.nums);
    if count > nums.saturating_sub(first as usize) {
        return Err(Refusal::BadIndex);
    }
    Ok(Run {
        address,
        ahead: 1 + u64::from(layout.refs) + u64::from(first),
    })
}

/// Reads consecutive words, from the one `ahead` words after an address on, if all are on the page of the address,
/// which has memory and isn't protected. Returns whether it did; if not, `values` is unspecified.
#[inline(always)]
fn read_on_page(heap: &Heap, address: Addr, ahead: u64, values: &mut [u64]) -> bool
    requires { ahead + length values.old < 2 ^ 17 }
    ensures len { length values.new ≡ length values.old }
    ensures words { result ≡ true → ReadsRun heap.now.store (address + ahead) values.new true }
{
    heap.law();
    let memory = heap.memory();
    let Some(frame) = memory.usable_frame(address.number()) else {
        return false;
    };
    let Some(words) = memory.words_on(frame, address.number()) else {
        return false;
    };
    let start = memory.offset_on(address.number()) + ahead as usize;
    if start > words.len() || values.len() > words.len() - start {
        return false;
    }
    values.copy_from_slice(&words[start..start + values.len()]);
    true
}

/// Reads consecutive words, from the one `ahead` words after an address on. Returns whether all are there.
#[inline(always)]
pub(crate) fn read_run(heap: &Heap, address: Addr, ahead: u64, values: &mut [u64]) -> bool
    requires { ahead + length values.old < 2 ^ 17 }
    ensures len { length values.new ≡ length values.old }
    ensures words { ReadsRun heap.now.store (address + ahead) values.new result }
{
    if read_on_page(heap, address, ahead, values) {
        return true;
    }
    read_by_words(heap, address, ahead, values)
}

/// As `read_run`, word by word.
#[cold]
#[inline(never)]
fn read_by_words(heap: &Heap, address: Addr, ahead: u64, values: &mut [u64]) -> bool
    requires { ahead + length values.old < 2 ^ 17 }
    ensures len { length values.new ≡ length values.old }
    ensures words { ReadsRun heap.now.store (address + ahead) values.new result }
{
    for index in 0..values.len() {
        match heap.memory().word_behind(address, ahead + index as u64) {
            Some(word) => {
                values[index] = word;
            }
            None => return false,
        }
    }
    true
}

/// Writes consecutive words, from the one `ahead` words after an address on.
#[inline(always)]
pub(crate) fn write_run(heap: &mut Heap, address: Addr, ahead: u64, values: &[u64])
    requires { ahead + length values.now < 2 ^ 17 }
    ensures { heap.new ≡ with_data heap.old (address + ahead) values.now }
{
    if heap.raw_set_words_behind(address, ahead, values) {
        return;
    }
    write_by_words(heap, address, ahead, values);
}

/// As `write_run`, word by word.
#[cold]
#[inline(never)]
fn write_by_words(heap: &mut Heap, address: Addr, ahead: u64, values: &[u64])
    requires { ahead + length values.now < 2 ^ 17 }
    ensures { heap.new ≡ with_data heap.old (address + ahead) values.now }
{
    for index in 0..values.len() {
        heap.raw_set_word_behind(address, ahead + index as u64, values[index]);
    }
}

impl ManagedHeap {
    /// Reads data words of the object that a register names, from word `first` on, until `values` is full: as a call
    /// of `datum` for each, but the object is looked up once.
    ///
    /// Fails as `datum` does for one of them, with `BadIndex` if the object has fewer; `values` is unspecified then.
    #[inline(always)]
    pub fn get_many(
        &self,
        thread: u32,
        object: u32,
        first: u32,
        values: &mut [u64],
    ) -> Result<(), Refusal>
        ensures len { length values.new ≡ length values.old }
        ensures reads { EndsReading thread object first self.now result values.new }
    {
        if values.is_empty() {
            return Ok(());
        }
        let run = match find_run(&self.heap, thread, object, first, values.len()) {
            Ok(run) => run,
            Err(refusal) => return Err(refusal),
        };
        if !read_run(&self.heap, run.address, run.ahead, values) {
            return Err(Refusal::BadIndex);
        }
        Ok(())
    }

    /// Writes data words of the object that a register names, from word `first` on: as a call of `set_datum` for
    /// each of `values`, in order, but the object is looked up once.
    ///
    /// Fails as `set_datum` does for one of them, with `BadIndex` if the object has fewer; nothing is written then.
    #[inline(always)]
    pub fn set_many(
        &mut self,
        thread: u32,
        object: u32,
        first: u32,
        values: &[u64],
    ) -> Result<(), Refusal>
        ensures { EndsWriting thread object first values.now self.old result self.new }
    {
        if values.is_empty() {
            return Ok(());
        }
        refinement::law();
        self.heap.law();
        let run = match find_run(&self.heap, thread, object, first, values.len()) {
            Ok(run) => run,
            Err(refusal) => return Err(refusal),
        };
        write_run(&mut self.heap, run.address, run.ahead, values);
        Ok(())
    }
}
