//! A recorded heap: a heap and its history.

ghost use Rattle.std.specs.Prelude.{◌≡◌, IfOk};
ghost use Rattle.cycle.specs.Books.{Acts, MakesBook, act_outcome, is_full, first_book};
ghost use Rattle.cycle.specs.Replays.{IsBook, KeepsPromises, StepPromises, replayed};
ghost use Rattle.model.specs.declared.steps.Actor.TheVariants.{Worker};
ghost use Rattle.model.specs.declared.steps.Step.TheVariants as steps;
ghost use Rattle.refinement.specs.Standing.{Leaves, MovesPhase};

use crate::stepping::{Stepping, copy_page_by};
use entries::History;
use heap::{Config, Heap, NewFault};
use model::{Actor, Refusal, Reply, Step};
use relocate::PieceGate;
use std::alloc::Global;
use std::marker::Model;
use std::thread::Threads;

/// A heap and the history of its accepted steps, oldest first.
///
/// The heap represents the reference model that the history makes of an empty one, in which no object moves or is
/// freed, and each entry has the reference model's answer at its place: this is the invariant of the type.
#[derive(Drop)]
pub struct Book {
    heap: Heap,
    history: History,
}

impl Model for Book {
    ghost use Rattle.cycle.specs.Books.{BookState};

    ghost Value = { BookState };

    ghost use Rattle.cycle.specs.Views.{book_of, IsBookInside};

    ghost view = { book_of };

    ghost invariant = { IsBookInside };
}

impl Book {
    /// Proves the invariants of a recorded heap and of its heap, that its history is within the configuration's
    /// limit, and its promises to threads: registers, loads and globals refer to what the reference model has in
    /// their place; each reachable object has exactly one current copy, on a page with memory; and no register that
    /// may be used refers to a page without memory. If its last step has ended a mark, every reachable object is
    /// live, and each live object was reachable when that mark began, or was allocated since. It changes nothing and
    /// can't fail.
    pub fn law(&self)
        ensures book { IsBook self.now }
        ensures promises { KeepsPromises self.now }
    {
        let _ = &self.history;
    }

    /// Makes a recorded heap of the first heap of a configuration, without entries. Fails as `Heap::new` does.
    #[tactic(auto, unfolding(crate::specs::Books::first_book))]
    pub fn new(alloc: Global, config: Config) -> Result<Book, NewFault>
        ensures { MakesBook config result }
    {
        refinement::law();
        match Heap::new(alloc, config) {
            Ok(heap) => {
                heap.law();
                Ok(Book {
                    heap,
                    history: History::new(alloc),
                })
            }
            Err(fault) => Err(fault),
        }
    }

    /// Returns the current heap.
    pub fn heap(&self) -> &Heap
        ensures { result.now ≡ self.now.heap }
    {
        &self.heap
    }

    /// Returns the accepted steps so far, with their answers, oldest first.
    pub fn history(&self) -> &History
        ensures { result.now.entries ≡ self.now.history }
    {
        &self.history
    }

    #[inline(always)]
    #[tactic(auto, unfolding(crate::specs::Books::is_full))]
    fn is_full(&self) -> bool
        ensures { result ≡ is_full self.now }
    {
        self.history.len() as u64 >= self.heap.config().history
    }

    /// Does one step of an actor. An accepted step enters the history with its answer.
    ///
    /// `HistoryFull` is tested first; then space for the entry is reserved. Fails with `Memory` if out of memory for
    /// the entry, or in the step (`Take`, `Protect`). A step that is rejected for any reason leaves heap and history
    /// as they were.
    ///
    /// Its promises are those of `law`. So if it has ended a mark, every reachable object is live, and each live
    /// object was reachable when that mark began, or was allocated since; and objects that weren't copied from a
    /// protected page by then are unreachable. The phase changes as in the collector's cycle, and in no other way.
    #[inline(always)]
    pub fn act(&mut self, actor: Actor, step: Step) -> Reply
        ensures acts { Acts self.old result self.new (act_outcome self.old actor step) }
        ensures book { IsBook self.new }
        ensures promises { StepPromises self.old step result self.new }
    {
        let reply = self.step_and_enter(actor, step);
        self.law();
        reply
    }

    /// Does what `act` does.
    #[inline(always)]
    #[tactic(auto, unfolding(crate::specs::Books::act_outcome))]
    fn step_and_enter(&mut self, actor: Actor, step: Step) -> Reply
        ensures acts { Acts self.old result self.new (act_outcome self.old actor step) }
        ensures leaves { IfOk result (λ answer. Leaves self.old.heap (replayed self.old).now step) }
        ensures phase { IfOk result (λ answer. MovesPhase self.old.heap step self.new.heap) }
    {
        if self.is_full() {
            return Err(Refusal::HistoryFull);
        }
        if self.history.reserve().is_err() {
            return Err(Refusal::Memory);
        }
        let answer = self.heap.step(actor, &step)?;
        self.heap.law();
        self.history.enter(actor, step, answer);
        Ok(answer)
    }

    /// Does what `act` does for a worker's `CopyPage`, by halves on threads: the entries that go to one target are
    /// halved, and each half again, to a depth (above 4 counts as 4), and each piece is copied on a thread of its
    /// own, which first calls the gate. It waits for the threads. If one can't be started, its piece is copied
    /// afterwards.
    pub fn copy_page_by<R: Threads + Sync, G: PieceGate + Sync>(
        &mut self,
        rt: &R,
        worker: u32,
        page: u32,
        depth: u32,
        gate: &G,
    ) -> Reply
        ensures acts { Acts self.old result self.new (act_outcome self.old (Worker worker) (steps.CopyPage page)) }
        ensures book { IsBook self.new }
        ensures promises { StepPromises self.old (steps.CopyPage page) result self.new }
    {
        let reply = self.copy_and_enter(rt, worker, page, depth, gate);
        self.law();
        reply
    }

    /// Does what `copy_page_by` does.
    #[tactic(auto, unfolding(crate::specs::Books::act_outcome))]
    fn copy_and_enter<R: Threads + Sync, G: PieceGate + Sync>(
        &mut self,
        rt: &R,
        worker: u32,
        page: u32,
        depth: u32,
        gate: &G,
    ) -> Reply
        ensures acts { Acts self.old result self.new (act_outcome self.old (Worker worker) (steps.CopyPage page)) }
        ensures leaves { IfOk result (λ answer. Leaves self.old.heap (replayed self.old).now (steps.CopyPage page)) }
        ensures phase { IfOk result (λ answer. MovesPhase self.old.heap (steps.CopyPage page) self.new.heap) }
    {
        if Book::is_full(self) {
            return Err(Refusal::HistoryFull);
        }
        if self.history.reserve().is_err() {
            return Err(Refusal::Memory);
        }
        let answer = copy_page_by(rt, &mut self.heap, worker, page, depth, gate)?;
        self.heap.law();
        self.history
            .enter(Actor::Worker(worker), Step::CopyPage(page), answer);
        Ok(answer)
    }
}
