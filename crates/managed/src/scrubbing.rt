//! Correction of registers that name protected pages.

ghost use Rattle.std.specs.Prelude.{◌≡◌, ◌<◌, ℕ, true, false};
ghost use Rattle.model.specs.Phases.{is_protect_crossing};
ghost use Rattle.managed.specs.Goings.{Goes, IsScrub};
ghost use Rattle.managed.specs.Scrubbing.{AreScrubbed, IsScrubbed, needs_no_scrub};

use crate::managed::ManagedHeap;
use crate::mutating::Mutate;
use model::Phase;

impl ManagedHeap {
    /// Corrects each register that names a page which is being emptied or was: after that none does. Parked threads
    /// and threads with an open barrier keep their registers, and until all threads have crossed the checkpoint of
    /// protected pages no register is corrected.
    pub fn scrub_all(&mut self)
        ensures goes { Goes IsScrub self.old self.new }
        ensures scrubbed { is_protect_crossing self.old.phase ≡ false → AreScrubbed self.new }
    {
        self.law();
        if needs_no_scrub(self.heap().phase()) {
            return;
        }
        self.scrub_threads();
    }

    fn scrub_threads(&mut self)
        ensures goes { Goes IsScrub self.old self.new }
        ensures scrubbed { is_protect_crossing self.old.phase ≡ false → AreScrubbed self.new }
    {
        self.law();
        let threads = self.heap().config().threads;
        for thread in 0..threads {
            self.scrub_each(thread);
        }
    }

    /// Corrects the registers of a thread.
    fn scrub_each(&mut self, thread: u32)
        ensures goes { Goes IsScrub self.old self.new }
        ensures scrubbed { is_protect_crossing self.old.phase ≡ false → (r : ℕ) → IsScrubbed self.new thread r }
    {
        self.law();
        let registers = self.heap().config().registers;
        for register in 0..registers {
            self.scrub_one(thread, register);
        }
    }

    /// Corrects a register of a thread.
    fn scrub_one(&mut self, thread: u32, register: u32)
        ensures goes { Goes IsScrub self.old self.new }
        ensures scrubbed { is_protect_crossing self.old.phase ≡ false → IsScrubbed self.new thread register }
    {
        self.law();
        self.heap().law();
        let _ = self.scrub(thread, register);
    }
}

/// Returns whether registers name no protected page anyway: there is none, or a mark runs that all threads have
/// crossed.
fn needs_no_scrub(phase: Phase) -> bool
    ensures { result ≡ needs_no_scrub phase }
{
    matches!(phase, Phase::Idle | Phase::Scanning)
}
