//! The threads' unfinished loads, their checkpoints, and whether they are parked.

ghost use Rattle.std.specs.Prelude.{◌≡◌, slice_get};
ghost use Rattle.model.specs.Loads.{barrier_of_thread, tally_of_thread};
ghost use Rattle.model.specs.Checkpoints.{all_crossed, first_behind};
ghost use Rattle.model.specs.Cycles.{first_pending};
ghost use Rattle.model.specs.Threads.{has_crossed, is_parked_in};

use crate::heap::Heap;
use model::{Barrier, Refusal, Tally};

impl Heap {
    /// Returns whether a thread has crossed the open checkpoint, by its number from 0; true if there is no such
    /// thread.
    pub fn has_crossed(&self, thread: u32) -> bool
        ensures { result ≡ has_crossed (slice_get self.now.threads thread) }
    {
        self.threads.has_crossed(thread)
    }

    /// Returns whether a thread is parked, by its number from 0; false if there is no such thread.
    pub fn is_parked(&self, thread: u32) -> bool
        ensures { result ≡ is_parked_in (slice_get self.now.threads thread) }
    {
        self.threads.is_parked(thread)
    }

    /// Returns the unfinished load of a thread, by the thread's number from 0, or `None`.
    pub fn barrier(&self, thread: u32) -> Option<Barrier>
        ensures { result ≡ barrier_of_thread self.now thread }
    {
        self.threads.barrier(thread)
    }

    /// Returns the barrier counters of a thread, by the thread's number from 0, or `None` if there is no such thread.
    /// In a recorded heap, they are the numbers of the thread's entries of each kind.
    pub fn tally(&self, thread: u32) -> Option<Tally>
        ensures { result ≡ tally_of_thread self.now thread }
    {
        self.threads.tally(thread)
    }

    /// Returns the least thread that hasn't crossed the open checkpoint, by its number from 0, or `None`.
    pub fn first_behind(&self) -> Option<u32>
        ensures { result ≡ first_behind self.now.threads }
    {
        let _ = &self.config;
        let thread = self.threads.first_behind()?;
        Some(thread as u32)
    }

    /// Tests whether all threads have crossed. Fails with `NotCrossed`, which has the least thread that hasn't.
    #[tactic(auto, unfolding(model::specs::Checkpoints::all_crossed))]
    pub fn all_crossed(&self) -> Result<(), Refusal>
        ensures { result ≡ all_crossed self.now }
    {
        match self.first_behind() {
            None => Ok(()),
            Some(thread) => Err(Refusal::NotCrossed { thread }),
        }
    }

    /// Returns the least thread that has an open barrier, by its number from 0, or `None`.
    pub fn first_pending(&self) -> Option<u32>
        ensures { result ≡ first_pending self.now.threads }
    {
        let _ = &self.config;
        let thread = self.threads.first_pending()?;
        Some(thread as u32)
    }
}
