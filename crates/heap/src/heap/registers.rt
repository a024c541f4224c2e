//! Registers, and the steps on them alone.

ghost use Rattle.std.specs.Prelude.{◌≡◌, None, Ok};
ghost use Rattle.model.specs.declared.records.Barrier.{Barrier};
ghost use Rattle.model.specs.declared.records.Counter.TheVariants as counters;
ghost use Rattle.model.specs.Loads.{barrier_of_thread, with_barrier, with_loaded};
ghost use Rattle.model.specs.Registers.{register_of, let_through, usable, usable_or_null, same_outcome};
ghost use Rattle.model.specs.Registers.{is_null_outcome, copy_register_outcome, clear_register_outcome};
ghost use Rattle.model.specs.Refusing.{Does};
ghost use Rattle.model.specs.Saying.{said};
ghost use Rattle.model.specs.Outcome.{Passes};
ghost use Rattle.model.specs.declared.steps.Step.TheVariants as steps;
ghost use Rattle.model.specs.declared.steps.Answer.TheVariants as answers;

use crate::heap::Heap;
use crate::heap::edits::RawEdits;
use model::{PageState, Phase, Refusal};
use refword::{Addr, Word};

impl Heap {
    /// Returns the word in a register, or null if there is no such register. Threads and registers count from 0.
    #[inline(always)]
    #[tactic(auto, unfolding(model::specs::Registers::register_of))]
    pub fn register(&self, thread: u32, register: u32) -> Word
        ensures { result ≡ register_of self.now thread register }
    {
        self.threads.register(thread, register)
    }

    /// A raw edit: writes a word that was loaded to a register of a thread whose barrier isn't open.
    #[inline(always)]
    pub fn raw_read_into(&mut self, thread: u32, target: u32, word: Word)
        requires { barrier_of_thread self.old thread ≡ None }
        ensures { (b : Barrier) → self.new
            ≡ with_loaded (with_barrier self.old thread b counters.Loads) thread target word }
    {
        self.threads.set_read(thread, target, word);
    }

    /// Tests whether a thread, by its number from 0, may use an address: one on no protected page, or any one while
    /// the thread has still to cross the checkpoint at which pages are being protected. Fails with `Stall` if it has
    /// crossed that checkpoint, and with `Stale` in other phases.
    #[inline(always)]
    pub fn let_through(&self, thread: u32, address: Addr) -> Result<(), Refusal>
        ensures { result ≡ let_through self.now thread address }
    {
        if self.frame_at_once(address.number()).is_some() {
            return Ok(());
        }
        self.let_through_by_record(thread, address)
    }

    /// The same, by the record of the page.
    #[cold]
    #[inline(never)]
    #[tactic(auto, unfolding(model::specs::Registers::let_through))]
    fn let_through_by_record(&self, thread: u32, address: Addr) -> Result<(), Refusal>
        ensures { result ≡ let_through self.now thread address }
    {
        if !matches!(
            self.store.state_behind(address),
            PageState::From | PageState::Gone
        ) {
            return Ok(());
        }
        match self.phase {
            Phase::ProtectCrossing => {
                if self.has_crossed(thread) {
                    Err(Refusal::Stall)
                } else {
                    Ok(())
                }
            }
            _ => Err(Refusal::Stale),
        }
    }

    /// Returns the address in a register that names an object and may be used. Threads and registers count from 0.
    ///
    /// Fails with `Null` if the register is null; on a protected page with `Stall` if pages are being protected and
    /// the thread has crossed, and with `Stale` in other phases.
    #[inline(always)]
    #[tactic(auto, unfolding(model::specs::Registers::usable))]
    pub fn usable(&self, thread: u32, register: u32) -> Result<Addr, Refusal>
        ensures { result ≡ usable self.now thread register }
    {
        let Some(address) = self.register(thread, register).addr() else {
            return Err(Refusal::Null);
        };
        self.let_through(thread, address)?;
        Ok(address)
    }

    /// Returns the address in a register that may be used, or `None` if it is null. Else fails as `usable` does.
    #[inline(always)]
    #[tactic(auto, unfolding(model::specs::Registers::usable_or_null))]
    pub fn usable_or_null(&self, thread: u32, register: u32) -> Result<Option<Addr>, Refusal>
        ensures { result ≡ usable_or_null self.now thread register }
    {
        let Some(address) = self.register(thread, register).addr() else {
            return Ok(None);
        };
        self.let_through(thread, address)?;
        Ok(Some(address))
    }

    /// Returns whether two registers name the same object, or are both null; their NMT bits don't count. Fails as
    /// `usable_or_null` does.
    #[inline(always)]
    #[tactic(auto, unfolding(model::specs::Registers::same_outcome))]
    pub fn same_row(&self, thread: u32, left: u32, right: u32) -> Result<bool, Refusal>
        requires { Passes self.now thread (steps.Same left right) }
        ensures { Does self.now (said answers.Truth result) self.now (same_outcome self.now thread left right) }
    {
        let left = self.usable_or_null(thread, left)?;
        let right = self.usable_or_null(thread, right)?;
        Ok(left == right)
    }

    /// Returns whether a register is null. Never fails.
    #[inline(always)]
    #[tactic(auto, unfolding(model::specs::Registers::is_null_outcome))]
    pub fn is_null_row(&self, thread: u32, register: u32) -> bool
        requires { Passes self.now thread (steps.IsNull register) }
        ensures { is_null_outcome self.now thread register ≡ Ok (self.now, answers.Truth result) }
    {
        self.register(thread, register).is_null()
    }

    /// Copies a register's word to another register. Never fails.
    #[inline(always)]
    #[tactic(auto, unfolding(model::specs::Registers::copy_register_outcome))]
    pub fn copy_register_row(&mut self, thread: u32, target: u32, source: u32)
        requires { Passes self.old thread (steps.CopyReg target source) }
        ensures { copy_register_outcome self.old thread target source ≡ Ok (self.new, answers.Done) }
    {
        let word = self.register(thread, source);
        self.set_register(thread, target, word);
    }

    /// Makes a register null. Never fails.
    #[inline(always)]
    #[tactic(auto, unfolding(model::specs::Registers::clear_register_outcome))]
    pub fn clear_register_row(&mut self, thread: u32, target: u32)
        requires { Passes self.old thread (steps.ClearReg target) }
        ensures { clear_register_outcome self.old thread target ≡ Ok (self.new, answers.Done) }
    {
        self.set_register(thread, target, Word::null());
    }
}
