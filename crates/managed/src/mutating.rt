//! The steps of threads by calls that return plain values.

ghost use Rattle.std.specs.Prelude.{◌≡◌, Some, IfOk};
ghost use Rattle.model.specs.Buffers.{buffer_of_thread};
ghost use Rattle.model.specs.Saying.{done, loaded, lent, trapped, healed, scrubbed};
ghost use Rattle.model.specs.declared.steps.Step.TheVariants as steps;
ghost use Rattle.model.specs.declared.steps.Answer.TheVariants as answers;
ghost use Rattle.cycle.specs.Mutating.{DoesThread, ThreadStands};

use crate::managed::ManagedHeap;
use cycle::calls;
use model::{Buffer, Refusal, Trap};

/// The steps of mutator threads on a heap, each as a call of its own, with plain values in and out. It is for
/// programs that own a heap.
///
/// `thread`, registers (`target`, `object`, `source`, `left`, `right`, `register`), `layout`, `field`, `index` and
/// `global` are numbers from 0; `field` and `index` count within an object, references and data each. `words` counts
/// words.
///
/// Each call tests first, in this order, and fails with `NoActor` if there is no such thread, `BadIndex` if a number
/// is out of range, `Parked` if the thread is parked (except `unpark`), and `Busy` if its barrier is open (except
/// `trap`, `heal` and `finish`). Each call lists its further errors. A call that fails changes nothing.
///
/// Each has the outcome of `Stepping::step` of its step, and returns the answer as a plain value. If the heap
/// represents a reference model, in which no object moves or is freed, it also does after the call, whose value is
/// the reference model's.
pub trait Mutate {
    /// Takes a buffer for the thread, of 1 to the words of a page, in the lowest open page with space, else in a
    /// fresh page, and returns it.
    ///
    /// Fails with `BadIndex` for a number of words that no page has; `HasBuffer` if the thread has a buffer;
    /// `NoFrames` or `NoPages` if no page has space, and no frame is free or no page number unused; `Memory` if out
    /// of memory for a fresh page. No other call here fails with `Memory`.
    fn take(&mut self, thread: u32, words: u32) -> Result<Buffer, Refusal>;

    /// Gives the thread's buffer back; its rest stays unused. Fails with `NoRoom` if there is none.
    fn give_back(&mut self, thread: u32) -> Result<(), Refusal>;

    /// Allocates an object in the buffer, with null references and data of 0, and writes its reference to a register.
    /// Returns its birth: how many objects were allocated before it.
    ///
    /// Fails with `BadIndex` for a register or a layout that doesn't exist; `NoRoom` if there is no buffer, or one
    /// with fewer words; `Births` if the limit of births is reached.
    fn new_object(&mut self, thread: u32, target: u32, layout: u32) -> Result<u64, Refusal>;

    /// Begins to load a reference field of an object into a register: opens a read barrier.
    ///
    /// Fails with `BadIndex` for a register or a field that doesn't exist; `Null`, `Stall` or `Stale` if the object's
    /// register may not be used.
    fn load(&mut self, thread: u32, target: u32, object: u32, field: u32) -> Result<(), Refusal>;

    /// Begins to load a global into a register: opens a read barrier. Fails with `BadIndex` for a register or a
    /// global that doesn't exist.
    fn load_global(&mut self, thread: u32, target: u32, global: u32) -> Result<(), Refusal>;

    /// Corrects or marks the reference in the barrier, and returns which trap was due. To correct it, the thread
    /// first copies the object if it isn't copied yet.
    ///
    /// Fails with `NotBusy` if no barrier is open, and with `Stall` if the reference leads to a protected page while
    /// a thread has yet to cross.
    fn trap(&mut self, thread: u32) -> Result<Trap, Refusal>;

    /// Writes the reference in the barrier back to the place of the load, if that hasn't changed. Returns whether it
    /// was written.
    ///
    /// Fails with `NotBusy` if no barrier is open, and with `Busy` if a trap is due.
    fn heal(&mut self, thread: u32) -> Result<bool, Refusal>;

    /// Ends the load: its register gets the reference in the barrier, which closes.
    ///
    /// Fails with `NotBusy` if no barrier is open, and with `Busy` if a trap is due, or the reference was corrected
    /// and its place isn't healed.
    fn finish(&mut self, thread: u32) -> Result<(), Refusal>;

    /// Writes a register's reference to a field of an object.
    ///
    /// Fails with `BadIndex` for a register or a field that doesn't exist; `Null`, `Stall` or `Stale` if the object's
    /// register may not be used; `Stall` or `Stale` if the source's may not.
    fn store(&mut self, thread: u32, object: u32, field: u32, source: u32) -> Result<(), Refusal>;

    /// Writes a register's reference to a global. Fails with `BadIndex` for a register or a global that doesn't
    /// exist; `Stall` or `Stale` if the register may not be used.
    fn store_global(&mut self, thread: u32, global: u32, source: u32) -> Result<(), Refusal>;

    /// Reads a data word of an object. Fails with `BadIndex` for a register or a word that doesn't exist; `Null`,
    /// `Stall` or `Stale` if the object's register may not be used.
    fn datum(&self, thread: u32, object: u32, index: u32) -> Result<u64, Refusal>;

    /// Writes a data word of an object. Fails as `datum` does.
    fn set_datum(
        &mut self,
        thread: u32,
        object: u32,
        index: u32,
        value: u64,
    ) -> Result<(), Refusal>;

    /// Returns whether two registers refer to the same object, or are both null. Fails with `BadIndex` for a register
    /// that doesn't exist; `Stall` or `Stale` if one may not be used.
    fn same(&self, thread: u32, left: u32, right: u32) -> Result<bool, Refusal>;

    /// Returns whether a register is null. Fails with `BadIndex` for a register that doesn't exist.
    fn is_null(&self, thread: u32, register: u32) -> Result<bool, Refusal>;

    /// Copies a register's reference to another register. Fails with `BadIndex` for a register that doesn't exist.
    fn copy_register(&mut self, thread: u32, target: u32, source: u32) -> Result<(), Refusal>;

    /// Makes a register null. Fails with `BadIndex` for a register that doesn't exist.
    fn clear_register(&mut self, thread: u32, target: u32) -> Result<(), Refusal>;

    /// Crosses the open checkpoint. Fails with `Phase` if none is open, and with `AlreadyCrossed` if the thread has
    /// crossed.
    fn cross(&mut self, thread: u32) -> Result<(), Refusal>;

    /// Corrects a register that refers to a protected page. Returns whether it did.
    ///
    /// Fails with `BadIndex` for a register that doesn't exist; `Null` if it is null; `Stall` if it refers to a
    /// protected page that the thread may not use, while another has yet to cross.
    fn scrub(&mut self, thread: u32, register: u32) -> Result<bool, Refusal>;

    /// Parks the thread: it may do nothing but `unpark`.
    fn park(&mut self, thread: u32) -> Result<(), Refusal>;

    /// Lets the thread run again. Fails with `NotParked` if it isn't parked.
    fn unpark(&mut self, thread: u32) -> Result<(), Refusal>;
}

impl ManagedHeap {
    /// Stores a reference by all tests in their order, which determine the error.
    #[cold]
    #[inline(never)]
    #[tactic(auto, using(crate::proofs::Running::managed_thread, crate::proofs::Running::thread_stands))]
    fn store_by_tests(
        &mut self,
        thread: u32,
        object: u32,
        field: u32,
        source: u32,
    ) -> Result<(), Refusal>
        ensures does { DoesThread done self.old thread (steps.Store object field source) result self.new }
        ensures stands { ThreadStands done self.old thread (steps.Store object field source) result self.new }
    {
        calls::law(&self.heap);
        calls::store(&mut self.heap, thread, object, field, source)
    }

    /// Reads a data word by all tests in their order, which determine the error.
    #[cold]
    #[inline(never)]
    #[tactic(auto, using(crate::proofs::Running::thread_stands))]
    fn datum_by_tests(&self, thread: u32, object: u32, index: u32) -> Result<u64, Refusal>
        ensures does { DoesThread answers.Datum self.now thread (steps.Datum object index) result self.now }
        ensures stands { ThreadStands answers.Datum self.now thread (steps.Datum object index) result self.now }
    {
        calls::law(&self.heap);
        calls::datum(&self.heap, thread, object, index)
    }

    /// Compares registers by all tests in their order, which determine the error.
    #[cold]
    #[inline(never)]
    #[tactic(auto, using(crate::proofs::Running::thread_stands))]
    fn same_by_tests(&self, thread: u32, left: u32, right: u32) -> Result<bool, Refusal>
        ensures does { DoesThread answers.Truth self.now thread (steps.Same left right) result self.now }
        ensures stands { ThreadStands answers.Truth self.now thread (steps.Same left right) result self.now }
    {
        calls::law(&self.heap);
        calls::same(&self.heap, thread, left, right)
    }

    /// Writes a data word by all tests in their order, which determine the error.
    #[cold]
    #[inline(never)]
    #[tactic(auto, using(crate::proofs::Running::managed_thread, crate::proofs::Running::thread_stands))]
    fn set_datum_by_tests(
        &mut self,
        thread: u32,
        object: u32,
        index: u32,
        value: u64,
    ) -> Result<(), Refusal>
        ensures does { DoesThread done self.old thread (steps.SetDatum object index value) result self.new }
        ensures stands { ThreadStands done self.old thread (steps.SetDatum object index value) result self.new }
    {
        calls::law(&self.heap);
        calls::set_datum(&mut self.heap, thread, object, index, value)
    }
}

impl Mutate for ManagedHeap {
    #[inline(always)]
    #[tactic(auto, using(crate::proofs::Running::managed_take, crate::proofs::Running::thread_stands))]
    fn take(&mut self, thread: u32, words: u32) -> Result<Buffer, Refusal>
        ensures does { DoesThread lent self.old thread (steps.Take words) result self.new }
        ensures stands { ThreadStands lent self.old thread (steps.Take words) result self.new }
        ensures buffer { IfOk result (λ buffer. buffer_of_thread self.new thread ≡ Some buffer) }
    {
        calls::law(&self.heap);
        calls::take(&mut self.heap, thread, words)
    }

    #[inline(always)]
    #[tactic(auto, using(crate::proofs::Running::managed_thread, crate::proofs::Running::thread_stands))]
    fn give_back(&mut self, thread: u32) -> Result<(), Refusal>
        ensures does { DoesThread done self.old thread steps.GiveBack result self.new }
        ensures stands { ThreadStands done self.old thread steps.GiveBack result self.new }
    {
        calls::law(&self.heap);
        calls::give_back(&mut self.heap, thread)
    }

    #[inline(always)]
    #[tactic(auto, using(crate::proofs::Running::managed_thread, crate::proofs::Running::thread_stands))]
    fn new_object(&mut self, thread: u32, target: u32, layout: u32) -> Result<u64, Refusal>
        ensures does { DoesThread answers.Birth self.old thread (steps.New target layout) result self.new }
        ensures stands { ThreadStands answers.Birth self.old thread (steps.New target layout) result self.new }
    {
        calls::law(&self.heap);
        calls::new_object(&mut self.heap, thread, target, layout)
    }

    #[inline(always)]
    #[tactic(auto, using(crate::proofs::Running::managed_thread, crate::proofs::Running::thread_stands))]
    fn load(&mut self, thread: u32, target: u32, object: u32, field: u32) -> Result<(), Refusal>
        ensures does { DoesThread loaded self.old thread (steps.Load target object field) result self.new }
        ensures stands { ThreadStands loaded self.old thread (steps.Load target object field) result self.new }
    {
        calls::law(&self.heap);
        calls::load(&mut self.heap, thread, target, object, field)
    }

    #[inline(always)]
    #[tactic(auto, using(crate::proofs::Running::managed_thread, crate::proofs::Running::thread_stands))]
    fn load_global(&mut self, thread: u32, target: u32, global: u32) -> Result<(), Refusal>
        ensures does { DoesThread loaded self.old thread (steps.LoadGlobal target global) result self.new }
        ensures stands { ThreadStands loaded self.old thread (steps.LoadGlobal target global) result self.new }
    {
        calls::law(&self.heap);
        calls::load_global(&mut self.heap, thread, target, global)
    }

    #[inline(always)]
    #[tactic(auto, using(crate::proofs::Running::managed_thread, crate::proofs::Running::thread_stands))]
    fn trap(&mut self, thread: u32) -> Result<Trap, Refusal>
        ensures does { DoesThread trapped self.old thread steps.Trap result self.new }
        ensures stands { ThreadStands trapped self.old thread steps.Trap result self.new }
    {
        calls::law(&self.heap);
        calls::trap(&mut self.heap, thread)
    }

    #[inline(always)]
    #[tactic(auto, using(crate::proofs::Running::managed_thread, crate::proofs::Running::thread_stands))]
    fn heal(&mut self, thread: u32) -> Result<bool, Refusal>
        ensures does { DoesThread healed self.old thread steps.Heal result self.new }
        ensures stands { ThreadStands healed self.old thread steps.Heal result self.new }
    {
        calls::law(&self.heap);
        calls::heal(&mut self.heap, thread)
    }

    #[inline(always)]
    #[tactic(auto, using(crate::proofs::Running::managed_thread, crate::proofs::Running::thread_stands))]
    fn finish(&mut self, thread: u32) -> Result<(), Refusal>
        ensures does { DoesThread done self.old thread steps.Finish result self.new }
        ensures stands { ThreadStands done self.old thread steps.Finish result self.new }
    {
        calls::law(&self.heap);
        calls::finish(&mut self.heap, thread)
    }

    #[inline(always)]
    #[tactic(auto, using(crate::proofs::Running::managed_thread, crate::proofs::Running::thread_stands))]
    fn store(&mut self, thread: u32, object: u32, field: u32, source: u32) -> Result<(), Refusal>
        ensures does { DoesThread done self.old thread (steps.Store object field source) result self.new }
        ensures stands { ThreadStands done self.old thread (steps.Store object field source) result self.new }
    {
        match self.store_at_once(thread, object, field, source) {
            true => Ok(()),
            false => self.store_by_tests(thread, object, field, source),
        }
    }

    #[inline(always)]
    #[tactic(auto, using(crate::proofs::Running::managed_thread, crate::proofs::Running::thread_stands))]
    fn store_global(&mut self, thread: u32, global: u32, source: u32) -> Result<(), Refusal>
        ensures does { DoesThread done self.old thread (steps.StoreGlobal global source) result self.new }
        ensures stands { ThreadStands done self.old thread (steps.StoreGlobal global source) result self.new }
    {
        calls::law(&self.heap);
        calls::store_global(&mut self.heap, thread, global, source)
    }

    #[inline(always)]
    fn datum(&self, thread: u32, object: u32, index: u32) -> Result<u64, Refusal>
        ensures does { DoesThread answers.Datum self.now thread (steps.Datum object index) result self.now }
        ensures stands { ThreadStands answers.Datum self.now thread (steps.Datum object index) result self.now }
    {
        match self.datum_at_once(thread, object, index) {
            Some(value) => Ok(value),
            None => self.datum_by_tests(thread, object, index),
        }
    }

    #[inline(always)]
    #[tactic(auto, using(crate::proofs::Running::managed_thread, crate::proofs::Running::thread_stands))]
    fn set_datum(&mut self, thread: u32, object: u32, index: u32, value: u64) -> Result<(), Refusal>
        ensures does { DoesThread done self.old thread (steps.SetDatum object index value) result self.new }
        ensures stands { ThreadStands done self.old thread (steps.SetDatum object index value) result self.new }
    {
        match self.set_datum_at_once(thread, object, index, value) {
            true => Ok(()),
            false => self.set_datum_by_tests(thread, object, index, value),
        }
    }

    #[inline(always)]
    fn same(&self, thread: u32, left: u32, right: u32) -> Result<bool, Refusal>
        ensures does { DoesThread answers.Truth self.now thread (steps.Same left right) result self.now }
        ensures stands { ThreadStands answers.Truth self.now thread (steps.Same left right) result self.now }
    {
        match self.same_at_once(thread, left, right) {
            Some(truth) => Ok(truth),
            None => self.same_by_tests(thread, left, right),
        }
    }

    #[inline(always)]
    #[tactic(auto, using(crate::proofs::Running::thread_stands))]
    fn is_null(&self, thread: u32, register: u32) -> Result<bool, Refusal>
        ensures does { DoesThread answers.Truth self.now thread (steps.IsNull register) result self.now }
        ensures stands { ThreadStands answers.Truth self.now thread (steps.IsNull register) result self.now }
    {
        calls::law(&self.heap);
        calls::is_null(&self.heap, thread, register)
    }

    #[inline(always)]
    #[tactic(auto, using(crate::proofs::Running::managed_thread, crate::proofs::Running::thread_stands))]
    fn copy_register(&mut self, thread: u32, target: u32, source: u32) -> Result<(), Refusal>
        ensures does { DoesThread done self.old thread (steps.CopyReg target source) result self.new }
        ensures stands { ThreadStands done self.old thread (steps.CopyReg target source) result self.new }
    {
        calls::law(&self.heap);
        calls::copy_register(&mut self.heap, thread, target, source)
    }

    #[inline(always)]
    #[tactic(auto, using(crate::proofs::Running::managed_thread, crate::proofs::Running::thread_stands))]
    fn clear_register(&mut self, thread: u32, target: u32) -> Result<(), Refusal>
        ensures does { DoesThread done self.old thread (steps.ClearReg target) result self.new }
        ensures stands { ThreadStands done self.old thread (steps.ClearReg target) result self.new }
    {
        calls::law(&self.heap);
        calls::clear_register(&mut self.heap, thread, target)
    }

    #[inline(always)]
    #[tactic(auto, using(crate::proofs::Running::managed_thread, crate::proofs::Running::thread_stands))]
    fn cross(&mut self, thread: u32) -> Result<(), Refusal>
        ensures does { DoesThread done self.old thread steps.Cross result self.new }
        ensures stands { ThreadStands done self.old thread steps.Cross result self.new }
    {
        calls::law(&self.heap);
        calls::cross(&mut self.heap, thread)
    }

    #[inline(always)]
    #[tactic(auto, using(crate::proofs::Running::managed_thread, crate::proofs::Running::thread_stands))]
    fn scrub(&mut self, thread: u32, register: u32) -> Result<bool, Refusal>
        ensures does { DoesThread scrubbed self.old thread (steps.Scrub register) result self.new }
        ensures stands { ThreadStands scrubbed self.old thread (steps.Scrub register) result self.new }
    {
        calls::law(&self.heap);
        calls::scrub(&mut self.heap, thread, register)
    }

    #[inline(always)]
    #[tactic(auto, using(crate::proofs::Running::managed_thread, crate::proofs::Running::thread_stands))]
    fn park(&mut self, thread: u32) -> Result<(), Refusal>
        ensures does { DoesThread done self.old thread steps.Park result self.new }
        ensures stands { ThreadStands done self.old thread steps.Park result self.new }
    {
        calls::law(&self.heap);
        calls::park(&mut self.heap, thread)
    }

    #[inline(always)]
    #[tactic(auto, using(crate::proofs::Running::managed_thread, crate::proofs::Running::thread_stands))]
    fn unpark(&mut self, thread: u32) -> Result<(), Refusal>
        ensures does { DoesThread done self.old thread steps.Unpark result self.new }
        ensures stands { ThreadStands done self.old thread steps.Unpark result self.new }
    {
        calls::law(&self.heap);
        calls::unpark(&mut self.heap, thread)
    }
}
