//! The threads of a heap, and how many of them haven't crossed the open checkpoint.

ghost use Rattle.std.specs.Prelude.{◌≡◌, ◌<◌, length, map, replicate, is_none, true, false, slice_get, IfOk, IfSome};
ghost use Rattle.model.specs.Births.{hand_object};
ghost use Rattle.model.specs.Checkpoints.{first_behind};
ghost use Rattle.model.specs.Cycles.{first_pending, is_buffer_on, is_lent};
ghost use Rattle.model.specs.First.{blank_thread};
ghost use Rattle.model.specs.States.{change_at};
ghost use Rattle.model.specs.Threads.{has_crossed, is_parked_in, register_in, buffer_in, barrier_of, tally_in};
ghost use Rattle.model.specs.Threads.{set_register_of, set_buffer_of, set_barrier_of, set_loaded_of, set_parked_of};
ghost use Rattle.model.specs.Threads.{set_crossed_of};
ghost use Rattle.std.specs.Prelude.{None};
ghost use Rattle.model.specs.declared.records.Barrier.{Barrier};
ghost use Rattle.model.specs.declared.records.Counter.TheVariants as counters;

use crate::thread::Thread;
use model::{Barrier, Buffer, Counter, Tally};
use refword::Word;
use std::alloc::{AllocError, Global};
use std::marker::Model;

/// The mutator threads of a heap, by number from 0. A contract sees the list of them.
///
/// It keeps the number of those that haven't crossed the open checkpoint, so whether all have is one test.
///
/// Calls that change a thread are raw edits for the crate that makes a heap, not for users: each makes its change and
/// tests nothing.
#[derive(Debug, Drop)]
pub struct Threads {
    list: Vec<Thread>,
    /// How many haven't crossed.
    behind: usize,
}

impl Model for Threads {
    ghost use Rattle.std.specs.Prelude.{◌≡◌, List};
    ghost use Rattle.model.specs.States.{ThreadState};
    ghost use Rattle.thread_records.specs.Counting.{behind_count};

    ghost Value = { List ThreadState };

    ghost view = { λ t. t.list.items };

    ghost invariant = { λ t. t.behind ≡ behind_count t.list.items };
}

fn blank_threads(alloc: Global, count: u32, registers: u32) -> Result<Vec<Thread>, AllocError>
    ensures { IfOk result (λ v. v.items ≡ replicate count (blank_thread registers)) }
{
    let mut threads = Vec::with_capacity(alloc, count as usize)?;
    for _thread in 0..count {
        threads.push(Thread::new(alloc, registers)?)?;
    }
    Ok(threads)
}

/// Sets all threads to not crossed.
#[tactic(auto, using(crate::proofs::Looping::mapped_none, crate::proofs::Looping::mapped_more, crate::proofs::Looping::mapped_all))]
fn uncross_each(threads: &mut [Thread])
    ensures { threads.new ≡ map (set_crossed_of false) threads.old }
{
    for thread in threads.iter_mut() {
        thread.set_crossed(false);
    }
}

/// Returns whether a buffer, if there is one, lies on a page, by the page's number.
fn is_buffer_on(page: u32, buffer: Option<Buffer>) -> bool
    ensures { result ≡ is_buffer_on page buffer }
{
    match buffer {
        None => false,
        Some(buffer) => buffer.page == page,
    }
}

impl Threads {
    /// Returns `count` threads (1 to 1,024 in a heap) with a number of registers each (1 to 65,535), which are null.
    /// All have crossed, and none is parked. Fails only if out of memory.
    #[tactic(auto, using(crate::proofs::Counting::none_behind))]
    pub fn new(alloc: Global, count: u32, registers: u32) -> Result<Threads, AllocError>
        ensures { IfOk result (λ t. t ≡ replicate count (blank_thread registers)) }
    {
        let list = blank_threads(alloc, count, registers)?;
        Ok(Threads { list, behind: 0 })
    }

    /// Returns the threads, by number from 0.
    pub fn as_slice(&self) -> &[Thread]
        ensures { result.now ≡ self.now }
    {
        &self.list
    }

    /// Returns whether a thread has crossed the open checkpoint, by its number from 0; true if there is no such
    /// thread.
    #[inline(always)]
    pub fn has_crossed(&self, thread: u32) -> bool
        ensures { result ≡ has_crossed (slice_get self.now thread) }
    {
        match self.list.get(thread as usize) {
            None => true,
            Some(record) => record.has_crossed(),
        }
    }

    /// Returns whether a thread is parked, by its number from 0; false if there is no such thread.
    #[inline(always)]
    pub fn is_parked(&self, thread: u32) -> bool
        ensures { result ≡ is_parked_in (slice_get self.now thread) }
    {
        match self.list.get(thread as usize) {
            None => false,
            Some(record) => record.is_parked(),
        }
    }

    /// Returns the open barrier of a thread, by the thread's number from 0, if there is one.
    #[inline(always)]
    pub fn barrier(&self, thread: u32) -> Option<Barrier>
        ensures { result ≡ barrier_of (slice_get self.now thread) }
    {
        match self.list.get(thread as usize) {
            None => None,
            Some(record) => record.barrier(),
        }
    }

    /// Returns the barrier counters of a thread, by its number from 0; `None` if there is no such thread.
    pub fn tally(&self, thread: u32) -> Option<Tally>
        ensures { result ≡ tally_in (slice_get self.now thread) }
    {
        match self.list.get(thread as usize) {
            None => None,
            Some(record) => Some(record.tally()),
        }
    }

    /// Returns the allocation buffer of a thread, by its number from 0, if it has one.
    #[inline(always)]
    pub fn buffer(&self, thread: u32) -> Option<Buffer>
        ensures { result ≡ buffer_in (slice_get self.now thread) }
    {
        match self.list.get(thread as usize) {
            None => None,
            Some(record) => record.buffer(),
        }
    }

    /// Returns the reference in a register; null if there is no such register. Threads and registers count from 0.
    #[inline(always)]
    pub fn register(&self, thread: u32, register: u32) -> Word
        ensures { result ≡ register_in (slice_get self.now thread) register }
    {
        match self.list.get(thread as usize) {
            None => Word::null(),
            Some(record) => record.register(register),
        }
    }

    /// Returns whether all have crossed the open checkpoint.
    #[tactic(auto, using(crate::proofs::Counting::all_crossed))]
    pub fn all_crossed(&self) -> bool
        ensures { result ≡ is_none (first_behind self.now) }
    {
        self.behind == 0
    }

    /// Returns the lowest number, from 0, of a thread that hasn't crossed the open checkpoint, if there is one.
    #[tactic(auto, unfolding(model::specs::Checkpoints::first_behind), using(crate::proofs::Counting::none_found))]
    pub fn first_behind(&self) -> Option<usize>
        ensures value { result ≡ first_behind self.now }
        ensures there { IfSome result (λ t. t < length self.now) }
    {
        if self.behind == 0 {
            return None;
        }
        self.list.iter().position(|thread| !thread.has_crossed())
    }

    /// Returns the lowest number, from 0, of a thread that has an open barrier, if there is one.
    #[tactic(auto, unfolding(model::specs::Cycles::first_pending))]
    pub fn first_pending(&self) -> Option<usize>
        ensures value { result ≡ first_pending self.now }
        ensures there { IfSome result (λ t. t < length self.now) }
    {
        self.list
            .iter()
            .position(|thread| thread.barrier().is_some())
    }

    /// Returns whether a thread has a buffer on a page, by the page's number.
    #[tactic(auto, unfolding(model::specs::Cycles::is_lent))]
    pub fn is_lent(&self, page: u32) -> bool
        ensures { result ≡ is_lent self.now page }
    {
        self.list
            .iter()
            .any(|thread| is_buffer_on(page, thread.buffer()))
    }

    /// Writes a register of a thread, if it exists.
    #[inline(always)]
    #[tactic(auto, using(crate::proofs::Counting::still_behind))]
    pub fn set_register(&mut self, thread: u32, register: u32, word: Word)
        ensures { self.new ≡ change_at self.old thread (set_register_of register word) }
    {
        if (thread as usize) < self.list.len() {
            let record = &mut self.list[thread as usize];
            record.set_register(register, word);
        }
    }

    /// Sets the allocation buffer of a thread, if the thread exists.
    #[tactic(auto, using(crate::proofs::Counting::still_behind))]
    pub fn set_buffer(&mut self, thread: u32, buffer: Option<Buffer>)
        ensures { self.new ≡ change_at self.old thread (set_buffer_of buffer) }
    {
        if (thread as usize) < self.list.len() {
            let record = &mut self.list[thread as usize];
            record.set_buffer(buffer);
        }
    }

    /// Opens or changes the barrier of a thread, if the thread exists, and increments one of its barrier counters.
    #[inline(always)]
    #[tactic(auto, using(crate::proofs::Counting::still_behind))]
    pub fn set_barrier(&mut self, thread: u32, barrier: Barrier, counter: Counter)
        ensures { self.new ≡ change_at self.old thread (set_barrier_of barrier counter) }
    {
        if (thread as usize) < self.list.len() {
            let record = &mut self.list[thread as usize];
            record.set_barrier(barrier, counter);
        }
    }

    /// Ends the load of a thread, if the thread exists: a register, by its number from 0, gets the reference, and the
    /// barrier closes.
    #[inline(always)]
    #[tactic(auto, using(crate::proofs::Counting::still_behind))]
    pub fn set_loaded(&mut self, thread: u32, register: u32, word: Word)
        ensures { self.new ≡ change_at self.old thread (set_loaded_of register word) }
    {
        if (thread as usize) < self.list.len() {
            let record = &mut self.list[thread as usize];
            record.set_loaded(register, word);
        }
    }

    /// Begins a load of a thread, if the thread exists, and ends it at once: a register, by its number from 0, gets
    /// the reference, and the load is counted. No barrier remains open.
    #[inline(always)]
    #[tactic(auto, using(crate::proofs::Counting::still_behind))]
    pub fn set_read(&mut self, thread: u32, register: u32, word: Word)
        requires { barrier_of (slice_get self.old thread) ≡ None }
        ensures { (b : Barrier) → self.new
            ≡ change_at self.old thread (λ x. set_loaded_of register word (set_barrier_of b counters.Loads x)) }
    {
        if (thread as usize) < self.list.len() {
            let record = &mut self.list[thread as usize];
            record.set_read(register, word);
        }
    }

    /// Parks a thread, if it exists, or lets it run.
    #[tactic(auto, using(crate::proofs::Counting::still_behind))]
    pub fn set_parked(&mut self, thread: u32, parked: bool)
        ensures { self.new ≡ change_at self.old thread (set_parked_of parked) }
    {
        if (thread as usize) < self.list.len() {
            let record = &mut self.list[thread as usize];
            record.set_parked(parked);
        }
    }

    /// Hands a new object to a thread, if the thread exists: a register, by its number from 0, gets the object's
    /// reference, and the thread's buffer becomes `rest`.
    #[inline(always)]
    #[tactic(auto, using(crate::proofs::Counting::still_behind))]
    pub fn hand_object(&mut self, thread: u32, target: u32, word: Word, rest: Buffer)
        ensures { self.new ≡ change_at self.old thread (hand_object target word rest) }
    {
        if (thread as usize) < self.list.len() {
            let record = &mut self.list[thread as usize];
            record.set_buffer(Some(rest));
            record.set_register(target, word);
        }
    }

    /// Sets a thread, if it exists, to crossed.
    #[tactic(auto, using(crate::proofs::Counting::counted, crate::proofs::Counting::one_less))]
    pub fn set_crossed(&mut self, thread: u32)
        ensures { self.new ≡ change_at self.old thread (set_crossed_of true) }
    {
        if (thread as usize) < self.list.len() {
            let record = &mut self.list[thread as usize];
            let counted = record.counted_behind();
            record.set_crossed(true);
            self.behind -= counted;
        }
    }

    /// Sets all threads to not crossed.
    #[tactic(auto, using(crate::proofs::Counting::all_behind_back))]
    pub fn uncross_all(&mut self)
        ensures { self.new ≡ map (set_crossed_of false) self.old }
    {
        let count = self.list.len();
        uncross_each(&mut self.list);
        self.behind = count;
    }
}
