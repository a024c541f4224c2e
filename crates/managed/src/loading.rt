//! Complete loads.

ghost use Rattle.std.specs.Prelude.{◌≡◌};
ghost use Rattle.model.specs.declared.steps.Step.TheVariants as steps;
ghost use Rattle.managed.specs.Goings.{EndsLoad, EndsTrap, Goes, IsClear, IsInBarrier, LoadsWhole, LoadStands};
ghost use Rattle.managed.specs.Goings.{MayLoadWhole, TrapsLeft};

use crate::managed::ManagedHeap;
use crate::mutating::Mutate;
use cycle::{MOST_TRAPS, heal_is_due};
use fast_paths::load_global_at_once;
use model::{Refusal, Trap};

impl ManagedHeap {
    /// Proves that of three traps one is clear, if none is rejected. It does nothing: its contract is the law.
    fn three_traps(&self, thread: u32)
        ensures { TrapsLeft 3 self.now thread }
    {
        self.law();
        self.heap().law();
    }

    /// Does a trap. Returns true if it is clear.
    #[inline(always)]
    fn trap_is_clear(&mut self, thread: u32) -> Result<bool, Refusal>
        ensures goes { Goes (IsInBarrier thread) self.old self.new }
        ensures ends { EndsTrap self.old thread result self.new }
    {
        match self.trap(thread) {
            Ok(Trap::Clear) => Ok(true),
            Ok(Trap::Moved) => Ok(false),
            Ok(Trap::Marked) => Ok(false),
            Err(refusal) => Err(refusal),
        }
    }

    /// Ends a load whose trap is clear: heals its place, if the word was corrected and the place wasn't healed yet,
    /// and finishes. Neither is rejected then.
    fn finish_read(&mut self, thread: u32) -> Result<(), Refusal>
        requires { IsClear self.old thread }
        ensures { EndsLoad self.old thread result self.new }
    {
        if heal_is_due(self.heap(), thread) {
            match self.heal(thread) {
                Ok(_) => self.finish(thread),
                Err(refusal) => Err(refusal),
            }
        } else {
            self.finish(thread)
        }
    }

    /// Ends a load that has begun: traps until one is clear, heals if the word was corrected, and finishes. It fails
    /// only as `trap` does then.
    fn end_by_traps(&mut self, thread: u32) -> Result<(), Refusal>
        ensures { EndsLoad self.old thread result self.new }
    {
        self.three_traps(thread);
        for _ in 0..MOST_TRAPS {
            match self.trap_is_clear(thread) {
                Ok(true) => return self.finish_read(thread),
                Ok(false) => {}
                Err(refusal) => return Err(refusal),
            }
        }
        unreachable!()
    }

    /// Ends a load that has begun: finishes at once if nothing is due, as for most loads; else traps until one is
    /// clear, heals if the word was corrected, and finishes. It fails only as `trap` does then: with `NoActor`,
    /// `Parked`, `NotBusy` if no load is open, or `Stall` if the object is about to be copied. The steps before that
    /// are done, and it may be called again.
    #[inline(always)]
    pub fn end_read(&mut self, thread: u32) -> Result<(), Refusal>
        ensures { EndsLoad self.old thread result self.new }
    {
        match self.finish(thread) {
            Ok(()) => Ok(()),
            Err(_) => self.end_by_traps(thread),
        }
    }

    /// Does a complete load of a field by its steps.
    #[cold]
    #[inline(never)]
    fn read_by_steps(
        &mut self,
        thread: u32,
        target: u32,
        object: u32,
        field: u32,
    ) -> Result<(), Refusal>
        ensures loads { LoadsWhole self.old thread (steps.Load target object field) result self.new }
        ensures stands { LoadStands self.old thread (steps.Load target object field) result self.new }
    {
        self.load(thread, target, object, field)?;
        self.end_read(thread)
    }

    /// Loads a reference field of an object into a register, completely. Fails as `load` or as `end_read` does.
    #[inline(always)]
    pub fn read(&mut self, thread: u32, target: u32, object: u32, field: u32) -> Result<(), Refusal>
        ensures loads { LoadsWhole self.old thread (steps.Load target object field) result self.new }
        ensures stands { LoadStands self.old thread (steps.Load target object field) result self.new }
    {
        match self.read_at_once(thread, target, object, field) {
            true => Ok(()),
            false => self.read_by_steps(thread, target, object, field),
        }
    }

    /// Does a complete load of a global at once, if no test rejects it and no trap is due. Returns whether it did;
    /// if not, nothing is done.
    #[inline(always)]
    #[tactic(auto, using(crate::proofs::AtOnce::may_load_global_whole))]
    fn read_global_at_once(&mut self, thread: u32, target: u32, global: u32) -> bool
        ensures { MayLoadWhole result self.old thread (steps.LoadGlobal target global) self.new }
    {
        self.heap.law();
        refinement::law();
        load_global_at_once(&mut self.heap, thread, target, global)
    }

    /// Does a complete load of a global by its steps.
    #[cold]
    #[inline(never)]
    fn read_global_by_steps(&mut self, thread: u32, target: u32, global: u32) -> Result<(), Refusal>
        ensures loads { LoadsWhole self.old thread (steps.LoadGlobal target global) result self.new }
        ensures stands { LoadStands self.old thread (steps.LoadGlobal target global) result self.new }
    {
        self.load_global(thread, target, global)?;
        self.end_read(thread)
    }

    /// Loads a global into a register, completely. Fails as `load_global` or as `end_read` does.
    #[inline(always)]
    pub fn read_global(&mut self, thread: u32, target: u32, global: u32) -> Result<(), Refusal>
        ensures loads { LoadsWhole self.old thread (steps.LoadGlobal target global) result self.new }
        ensures stands { LoadStands self.old thread (steps.LoadGlobal target global) result self.new }
    {
        match self.read_global_at_once(thread, target, global) {
            true => Ok(()),
            false => self.read_global_by_steps(thread, target, global),
        }
    }
}
