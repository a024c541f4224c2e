//! The record of a mutator thread.

ghost use Rattle.std.specs.Prelude.{◌≡◌, ◌<◌, length, slice_get, slice_set, replicate, None, IfOk, is_some, ◌||◌};
ghost use Rattle.model.specs.States.{flat};
ghost use Rattle.model.specs.Threads.{set_register_of, set_buffer_of, set_barrier_of, set_loaded_of, set_parked_of};
ghost use Rattle.model.specs.Threads.{set_crossed_of};
ghost use Rattle.model.specs.First.{blank_thread};
ghost use Rattle.model.specs.declared.records.Barrier.{Barrier};
ghost use Rattle.model.specs.declared.records.Counter.TheVariants as counters;
ghost use Rattle.thread_records.specs.Counting.{counted_behind};

use model::{Barrier, Buffer, Counter, Tally};
use refword::Word;
use std::alloc::{AllocError, Global};
use std::marker::Model;

/// A mutator thread: its registers, its allocation buffer, its barrier, and whether it has crossed and is parked.
#[derive(Debug, Drop)]
pub struct Thread {
    registers: Vec<Word>,
    buffer: Option<Buffer>,
    crossed: bool,
    parked: bool,
    /// Whether it is parked or has an open barrier. Most steps test both at once.
    held: bool,
    barrier: Option<Barrier>,
    tally: Tally,
}

impl Model for Thread {
    ghost use Rattle.model.specs.States.{ThreadState};
    ghost use Rattle.std.specs.Prelude.{◌≡◌, ◌||◌, is_some};

    ghost Value = { ThreadState };

    ghost view = { λ t. record {
      registers = t.registers.items;
      buffer = t.buffer;
      crossed = t.crossed;
      parked =
          t.parked;
      barrier = t.barrier;
      tally = t.tally;
    } };

    ghost invariant = { λ t. t.held ≡ (t.parked || is_some t.barrier) };
}

/// Returns `count` registers, which are null. Fails only if out of memory.
fn null_registers(alloc: Global, count: u32) -> Result<Vec<Word>, AllocError>
    ensures { IfOk result (λ v. v.items ≡ replicate count None) }
{
    let mut registers = Vec::with_capacity(alloc, count as usize)?;
    for _register in 0..count {
        registers.push(Word::null())?;
    }
    Ok(registers)
}

impl Thread {
    /// Returns a thread of a number of registers (1 to 65,535 in a heap), which are null. It has crossed, and isn't
    /// parked. Fails only if out of memory.
    pub(crate) fn new(alloc: Global, registers: u32) -> Result<Thread, AllocError>
        ensures { IfOk result (λ t. t ≡ blank_thread registers) }
    {
        let registers = null_registers(alloc, registers)?;
        Ok(Thread {
            registers,
            buffer: None,
            crossed: true,
            parked: false,
            held: false,
            barrier: None,
            tally: Tally::blank(),
        })
    }

    /// Returns the references in its registers, by number from 0.
    pub fn registers(&self) -> &[Word]
        ensures { result.now ≡ self.now.registers }
    {
        &self.registers
    }

    /// Returns its allocation buffer, if it has one.
    pub fn buffer(&self) -> Option<Buffer>
        ensures { result ≡ self.now.buffer }
    {
        self.buffer
    }

    /// Returns whether it has crossed the open checkpoint; true if none is open.
    pub fn has_crossed(&self) -> bool
        ensures { result ≡ self.now.crossed }
    {
        self.crossed
    }

    /// Returns 1 if it hasn't crossed the open checkpoint, else 0.
    pub(crate) fn counted_behind(&self) -> usize
        ensures { result ≡ counted_behind self.now }
    {
        if self.crossed { 0 } else { 1 }
    }

    /// Returns whether it is parked.
    pub fn is_parked(&self) -> bool
        ensures { result ≡ self.now.parked }
    {
        self.parked
    }

    /// Returns whether it is parked or has an open barrier.
    #[inline(always)]
    pub fn is_held(&self) -> bool
        ensures { result ≡ (self.now.parked || is_some self.now.barrier) }
    {
        self.held
    }

    /// Returns its open barrier, if there is one.
    pub fn barrier(&self) -> Option<Barrier>
        ensures { result ≡ self.now.barrier }
    {
        self.barrier
    }

    /// Returns its barrier counters.
    pub fn tally(&self) -> Tally
        ensures { result ≡ self.now.tally }
    {
        self.tally
    }

    /// Returns the reference in a register, by its number from 0; null if there is no such register.
    pub fn register(&self, number: u32) -> Word
        ensures { result ≡ flat (slice_get self.now.registers number) }
    {
        match self.find_register(number) {
            None => Word::null(),
            Some(word) => word,
        }
    }

    /// Returns the reference in a register, by its number from 0, if there is such a register.
    #[inline(always)]
    pub fn find_register(&self, number: u32) -> Option<Word>
        ensures { result ≡ slice_get self.now.registers number }
    {
        match self.registers.get(number as usize) {
            None => None,
            Some(word) => Some(*word),
        }
    }

    /// Writes a register, by its number from 0, if it exists.
    pub(crate) fn set_register(&mut self, number: u32, word: Word)
        ensures { self.new ≡ set_register_of number word self.old }
    {
        if (number as usize) < self.registers.len() {
            self.registers[number as usize] = word;
        }
    }

    /// Sets its allocation buffer.
    pub(crate) fn set_buffer(&mut self, buffer: Option<Buffer>)
        ensures { self.new ≡ set_buffer_of buffer self.old }
    {
        self.buffer = buffer;
    }

    /// Opens or changes its barrier, and increments a barrier counter.
    pub(crate) fn set_barrier(&mut self, barrier: Barrier, counter: Counter)
        ensures { self.new ≡ set_barrier_of barrier counter self.old }
    {
        self.barrier = Some(barrier);
        self.held = true;
        self.tally.count(counter);
    }

    /// Ends its load: a register, by its number from 0, gets the reference, if it exists, and the barrier closes.
    pub(crate) fn set_loaded(&mut self, number: u32, word: Word)
        ensures { self.new ≡ set_loaded_of number word self.old }
    {
        self.set_register(number, word);
        self.barrier = None;
        self.held = self.parked;
    }

    /// Begins a load and ends it at once: a register, by its number from 0, gets the reference, if it exists, and the
    /// load is counted. No barrier remains open.
    #[inline(always)]
    #[tactic(auto, using(crate::proofs::AtOnce::read_at_once))]
    pub(crate) fn set_read(&mut self, number: u32, word: Word)
        requires { self.old.barrier ≡ None }
        ensures value { (b : Barrier) → self.new
            ≡ set_loaded_of number word (set_barrier_of b counters.Loads self.old) }
        ensures crossed { self.new.crossed ≡ self.old.crossed }
    {
        self.set_register(number, word);
        self.tally.count(Counter::Loads);
    }

    /// Parks it, or lets it run.
    pub(crate) fn set_parked(&mut self, parked: bool)
        ensures { self.new ≡ set_parked_of parked self.old }
    {
        self.parked = parked;
        self.held = parked || self.barrier.is_some();
    }

    /// Sets whether it has crossed the open checkpoint.
    pub(crate) fn set_crossed(&mut self, crossed: bool)
        ensures { self.new ≡ set_crossed_of crossed self.old }
    {
        self.crossed = crossed;
    }
}
