//! Pages that one worker empties completely.

ghost use Rattle.std.specs.Prelude.{◌≡◌, IfOk, Ok, false};
ghost use Rattle.model.specs.Checkpoints.{all_crossed};
ghost use Rattle.model.specs.Protections.{has_twice};
ghost use Rattle.managed.specs.Collecting.{IsCollecting, StandsUnseen};
ghost use Rattle.managed.specs.Emptying.{EndsEmptying, EndsPage, EndsPages, EndsProtected, EndsRelease};
ghost use Rattle.managed.specs.Emptying.{pages_in, whether_told};
ghost use Rattle.managed.specs.Goings.{Goes};
ghost use Rattle.managed.specs.Scrubbing.{AreScrubbed};

use crate::copier::{Alone, Copier, OnThreads};
use crate::managed::ManagedHeap;
use crate::mutating::Mutate;
use model::{Actor, PageList, Refusal, Reply, Step};
use std::thread::Threads;

impl ManagedHeap {
    /// Empties complete pages, given by their numbers from 1: protects them, has all threads cross, copies each
    /// page's objects and releases its frame. After that no register names a page that was emptied, except those of
    /// parked threads and of threads with an open barrier.
    ///
    /// If `Protect` fails, or is out of memory, nothing is done. If a thread has an open barrier the call fails with
    /// `NotCrossed`, and `finish_emptying` continues once that load is done.
    pub fn empty(&mut self, worker: u32, pages: Vec<u32>) -> Result<(), Refusal>
        ensures goes { Goes (IsCollecting worker) self.old self.new }
        ensures stands { StandsUnseen self.old self.new }
        ensures ends { EndsEmptying worker self.old pages.items result self.new }
        ensures scrubbed { IfOk result (λ done. AreScrubbed self.new) }
    {
        self.empty_steps(worker, pages, &Alone)
    }

    /// Empties complete pages as `empty` does, with the same errors. The words of their objects are copied by `threads`
    /// threads, each to some of the pages that they go to, and the memory that pages release is cleared by them; with
    /// fewer than two, with few objects, or if out of memory, this thread does it.
    pub fn empty_by<R: Threads + Sync>(
        &mut self,
        rt: &R,
        worker: u32,
        pages: Vec<u32>,
        threads: u32,
    ) -> Result<(), Refusal>
        ensures goes { Goes (IsCollecting worker) self.old self.new }
        ensures stands { StandsUnseen self.old self.new }
        ensures ends { EndsEmptying worker self.old pages.items result self.new }
        ensures scrubbed { IfOk result (λ done. AreScrubbed self.new) }
    {
        self.empty_steps(worker, pages, &OnThreads { rt, threads })
    }

    fn empty_steps<M: Copier>(
        &mut self,
        worker: u32,
        pages: Vec<u32>,
        by: &M,
    ) -> Result<(), Refusal>
        requires { M.may_copy by.now }
        ensures ends { EndsEmptying worker self.old pages.items result self.new }
        ensures scrubbed { IfOk result (λ done. AreScrubbed self.new) }
    {
        let step = Step::Protect(PageList::new(pages));
        match self.step(Actor::Worker(worker), &step) {
            Ok(_) => self.empty_listed(worker, &step, by),
            Err(refusal) => Err(refusal),
        }
    }

    fn empty_listed<M: Copier>(&mut self, worker: u32, step: &Step, by: &M) -> Result<(), Refusal>
        requires may { M.may_copy by.now }
        requires once { has_twice (pages_in step.now) ≡ false }
        ensures ends { EndsProtected worker self.old (pages_in step.now) result self.new }
        ensures scrubbed { IfOk result (λ done. AreScrubbed self.new) }
    {
        self.empty_protected_by(worker, pages_of(step), by)
    }

    fn empty_protected_by<M: Copier>(
        &mut self,
        worker: u32,
        pages: &[u32],
        by: &M,
    ) -> Result<(), Refusal>
        requires may { M.may_copy by.now }
        requires once { has_twice pages.now ≡ false }
        ensures ends { EndsProtected worker self.old pages.now result self.new }
        ensures scrubbed { IfOk result (λ done. AreScrubbed self.new) }
    {
        match self.cross_all(worker) {
            Ok(()) => self.empty_crossed_by(worker, pages, by),
            Err(refusal) => Err(refusal),
        }
    }

    fn empty_crossed_by<M: Copier>(
        &mut self,
        worker: u32,
        pages: &[u32],
        by: &M,
    ) -> Result<(), Refusal>
        requires may { M.may_copy by.now }
        requires once { has_twice pages.now ≡ false }
        requires crossed { all_crossed self.old ≡ Ok tt }
        ensures ends { EndsPages worker self.old pages.now result self.new }
        ensures scrubbed { IfOk result (λ done. AreScrubbed self.new) }
    {
        by.copy(self, worker, pages);
        let ended = self.empty_crossed(worker, pages);
        by.clear(self);
        ended
    }

    /// Finishes the emptying of protected pages, as `empty` does after their protection.
    pub fn finish_emptying(&mut self, worker: u32, pages: &[u32]) -> Result<(), Refusal>
        ensures goes { Goes (IsCollecting worker) self.old self.new }
        ensures stands { StandsUnseen self.old self.new }
        ensures ends { EndsProtected worker self.old pages.now result self.new }
        ensures scrubbed { IfOk result (λ done. AreScrubbed self.new) }
    {
        self.empty_protected(worker, pages)
    }

    fn empty_protected(&mut self, worker: u32, pages: &[u32]) -> Result<(), Refusal>
        ensures ends { EndsProtected worker self.old pages.now result self.new }
        ensures scrubbed { IfOk result (λ done. AreScrubbed self.new) }
    {
        match self.cross_all(worker) {
            Ok(()) => self.empty_crossed(worker, pages),
            Err(refusal) => Err(refusal),
        }
    }

    fn empty_crossed(&mut self, worker: u32, pages: &[u32]) -> Result<(), Refusal>
        requires { all_crossed self.old ≡ Ok tt }
        ensures ends { EndsPages worker self.old pages.now result self.new }
        ensures scrubbed { IfOk result (λ done. AreScrubbed self.new) }
    {
        self.law();
        match self.empty_each(worker, pages) {
            Ok(()) => {
                self.scrub_all();
                Ok(())
            }
            Err(refusal) => Err(refusal),
        }
    }

    fn empty_each(&mut self, worker: u32, pages: &[u32]) -> Result<(), Refusal>
        ensures ends { EndsPages worker self.old pages.now result self.new }
        ensures phase { IfOk result (λ done. self.new.phase ≡ self.old.phase) }
    {
        for index in 0..pages.len() {
            if let Err(refusal) = self.empty_page(worker, pages[index]) {
                return Err(refusal);
            }
        }
        Ok(())
    }

    /// Empties one protected page, by its number from 1: copies those of its objects that aren't copied, and
    /// releases its frame.
    pub fn empty_page(&mut self, worker: u32, page: u32) -> Result<(), Refusal>
        ensures { EndsPage worker self.old page result self.new }
    {
        match self.step(Actor::Worker(worker), &Step::CopyPage(page)) {
            Ok(_) => self.release(worker, page),
            Err(refusal) => Err(refusal),
        }
    }

    fn release(&mut self, worker: u32, page: u32) -> Result<(), Refusal>
        ensures { EndsRelease worker self.old page result self.new }
    {
        self.heap().law();
        let reply = self.step(Actor::Worker(worker), &Step::Release(page));
        whether(reply)
    }
}

/// Returns whether a step was accepted.
fn whether(reply: Reply) -> Result<(), Refusal>
    ensures { result ≡ whether_told reply }
{
    match reply {
        Ok(_) => Ok(()),
        Err(refusal) => Err(refusal),
    }
}

/// Returns the pages that a step protects.
fn pages_of(step: &Step) -> &[u32]
    ensures { result.now ≡ pages_in step.now }
{
    match step {
        Step::Protect(list) => list.as_slice(),
        _ => &[],
    }
}
