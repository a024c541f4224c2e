//! Raw edits of a heap. Some of them open, change or close a read barrier.

ghost use Rattle.std.specs.Prelude.{◌≡◌};
ghost use Rattle.model.specs.References.{with_global, with_place};
ghost use Rattle.model.specs.Loads.{with_barrier, with_loaded};
ghost use Rattle.model.specs.Checkpoints.{with_parked};
ghost use Rattle.model.specs.Registers.{with_register};

use crate::heap::Heap;
use model::{Barrier, Counter, Place};
use refword::Word;

/// Raw edits for the crates that implement steps. Threads, registers and globals count from 0.
pub trait RawEdits {
    /// Writes a global, by its number from 0, if it exists.
    fn set_global(&mut self, number: u32, word: Word);

    /// Writes the place of a load, if it has memory.
    fn set_place(&mut self, place: Place, word: Word);

    /// Opens or changes the barrier of a thread, if the thread exists, and increments one of its barrier counters.
    fn set_barrier(&mut self, thread: u32, barrier: Barrier, counter: Counter);

    /// Ends the load of a thread, if the thread exists: a register, by its number from 0, gets the word, and the
    /// barrier closes.
    fn set_loaded(&mut self, thread: u32, register: u32, word: Word);

    /// Writes a register of a thread, if it exists.
    fn set_register(&mut self, thread: u32, register: u32, word: Word);

    /// Parks a thread or lets it run, if it exists.
    fn set_parked(&mut self, thread: u32, parked: bool);
}

impl RawEdits for Heap {
    #[tactic(auto, unfolding(model::specs::References::with_global))]
    fn set_global(&mut self, number: u32, word: Word)
        ensures { self.new ≡ with_global self.old number word }
    {
        self.globals.set_word(number, word);
    }

    fn set_place(&mut self, place: Place, word: Word)
        ensures { self.new ≡ with_place self.old place word }
    {
        match place {
            Place::Field { object, index } => {
                let address = object.number() + 1 + u64::from(index);
                self.set_word(address, word.bits());
            }
            Place::Global(number) => self.set_global(number, word),
        }
    }

    #[tactic(auto, unfolding(model::specs::Loads::with_barrier), using(crate::proofs::Keeping::thread_keeps))]
    fn set_barrier(&mut self, thread: u32, barrier: Barrier, counter: Counter)
        ensures { self.new ≡ with_barrier self.old thread barrier counter }
    {
        self.threads.set_barrier(thread, barrier, counter);
    }

    #[tactic(auto, unfolding(model::specs::Loads::with_loaded), using(crate::proofs::Keeping::thread_keeps))]
    fn set_loaded(&mut self, thread: u32, register: u32, word: Word)
        ensures { self.new ≡ with_loaded self.old thread register word }
    {
        self.threads.set_loaded(thread, register, word);
    }

    #[tactic(auto, unfolding(model::specs::Registers::with_register), using(crate::proofs::Keeping::thread_keeps))]
    fn set_register(&mut self, thread: u32, register: u32, word: Word)
        ensures { self.new ≡ with_register self.old thread register word }
    {
        self.threads.set_register(thread, register, word);
    }

    #[tactic(auto, unfolding(model::specs::Checkpoints::with_parked), using(crate::proofs::Keeping::thread_keeps))]
    fn set_parked(&mut self, thread: u32, parked: bool)
        ensures { self.new ≡ with_parked self.old thread parked }
    {
        self.threads.set_parked(thread, parked);
    }
}
