//! Seats of actors of a recorded heap.

ghost use Rattle.std.specs.Prelude.{◌≡◌, ℕ, Err, IfOk};
ghost use Rattle.cycle.specs.Books.{Acts, act_outcome, is_full};
ghost use Rattle.model.specs.declared.steps.Actor.TheVariants.{Thread, Worker};
ghost use Rattle.model.specs.declared.steps.Step.TheVariants as steps;
ghost use Rattle.sharing.specs.Many.{ActsMany};
ghost use Rattle.sharing.specs.Portions.{Drains, DrainsSome};
ghost use Rattle.sharing.specs.Seats.{Notes};

use crate::steps::Steps;
use cycle::{Actor, Book, History, PieceGate, Reply, Step, next_drain};
use entries::again;
use model::Refusal;
use std::alloc::Global;
use std::marker::Model;
use std::thread::Threads;

/// An actor, and a list of its accepted steps with their answers, oldest first.
#[derive(Drop)]
pub struct Seat {
    actor: Actor,
    list: History,
}

impl Model for Seat {
    ghost use Rattle.sharing.specs.Seats.{SeatState};
    ghost use Rattle.sharing.specs.SeatViews.{seat_of};

    ghost Value = { SeatState };

    ghost view = { seat_of };
}

/// Returns whether the history has as many entries as its limit allows.
#[tactic(auto, unfolding(cycle::specs::Books::is_full))]
fn is_full(book: &Book) -> bool
    ensures { result ≡ is_full book.now }
{
    let history = book.heap().config().history;
    book.history().len() as u64 >= history
}

/// Returns the error of a step that is out of memory: `HistoryFull` if the history is full, which is tested first,
/// else `Memory`.
#[tactic(auto, unfolding(cycle::specs::Books::act_outcome))]
fn lacking(book: &Book, actor: Actor, step: &Step) -> Refusal
    ensures { Acts book.now (Err result) book.now (act_outcome book.now actor step.now) }
{
    if is_full(book) {
        Refusal::HistoryFull
    } else {
        Refusal::Memory
    }
}

/// Returns the error of a step that scans, for a thread: `HistoryFull` if the history is full, which is tested first,
/// else `NoActor`.
#[tactic(auto, using(crate::proofs::Growing::full_refused, crate::proofs::Growing::thread_refused))]
fn no_worker(book: &Book) -> Refusal
    ensures { (t : ℕ) → act_outcome book.now (Thread t) steps.ScanField ≡ Err result }
{
    if is_full(book) {
        Refusal::HistoryFull
    } else {
        Refusal::NoActor
    }
}

impl Seat {
    /// Returns a seat with this list.
    pub(crate) fn with(actor: Actor, list: History) -> Seat
        ensures { result ≡ record { actor = actor; list = list.entries } }
    {
        Seat { actor, list }
    }

    /// Returns its actor.
    pub fn actor(&self) -> Actor
        ensures { result ≡ self.now.actor }
    {
        self.actor
    }

    /// Returns its list, oldest first.
    pub fn list(&self) -> &History
        ensures { result.now.entries ≡ self.now.list }
    {
        &self.list
    }

    /// Does one step of the seat's actor on a recorded heap, as `Book::act` does. An accepted step also enters the
    /// seat's list, with its answer; a rejected one leaves the recorded heap and the list as they were.
    pub fn act(&mut self, alloc: Global, book: &mut Book, step: Step) -> Reply
        ensures acts { Acts book.old result book.new (act_outcome book.old self.old.actor step) }
        ensures notes { Notes self.old step result self.new }
    {
        if self.list.reserve().is_err() {
            return Err(lacking(book, self.actor, &step));
        }
        let Ok(copy) = again(alloc, &step) else {
            return Err(lacking(book, self.actor, &step));
        };
        let answer = book.act(self.actor, step)?;
        self.list.enter(self.actor, copy, answer);
        Ok(answer)
    }

    /// Does the step that copies the objects of a page, by halves on threads, as `Book::copy_page_by` does. For a
    /// seat of a thread it is rejected, as by `act`.
    pub(crate) fn copy_page<R: Threads + Sync, G: PieceGate + Sync>(
        &mut self,
        rt: &R,
        alloc: Global,
        book: &mut Book,
        page: u32,
        depth: u32,
        gate: &G,
    ) -> Reply
        ensures acts { Acts book.old result book.new (act_outcome book.old self.old.actor (steps.CopyPage page)) }
        ensures notes { Notes self.old (steps.CopyPage page) result self.new }
    {
        match self.actor {
            Actor::Worker(worker) => self.copy_page_of(rt, book, worker, page, depth, gate),
            Actor::Thread(_) => self.act(alloc, book, Step::CopyPage(page)),
        }
    }

    /// Does the same for a worker.
    fn copy_page_of<R: Threads + Sync, G: PieceGate + Sync>(
        &mut self,
        rt: &R,
        book: &mut Book,
        worker: u32,
        page: u32,
        depth: u32,
        gate: &G,
    ) -> Reply
        requires { self.old.actor ≡ Worker worker }
        ensures acts { Acts book.old result book.new (act_outcome book.old (Worker worker) (steps.CopyPage page)) }
        ensures notes { Notes self.old (steps.CopyPage page) result self.new }
    {
        if self.list.reserve().is_err() {
            return Err(lacking(book, Actor::Worker(worker), &Step::CopyPage(page)));
        }
        let answer = book.copy_page_by(rt, worker, page, depth, gate)?;
        self.list
            .enter(Actor::Worker(worker), Step::CopyPage(page), answer);
        Ok(answer)
    }

    /// Does up to `most` steps of a drain (`cycle::next_drain`), each as `act` does: the worker scans the object that
    /// it has picked, marks the grey globals, and picks and scans objects, the one with the least address first.
    /// Returns true if nothing is grey that no other worker has, and false after `most` steps, after which more may
    /// be left. Fails as a step of `act` that is rejected; the steps before it are done, and the call may be
    /// repeated.
    ///
    /// For a seat of a thread it fails as `act` does for a step that scans.
    pub fn drain(&mut self, alloc: Global, book: &mut Book, most: u32) -> Result<bool, Refusal>
        ensures { Drains self.old.actor most result self.old book.old self.new book.new }
    {
        match self.actor {
            Actor::Worker(worker) => self.drain_of(alloc, book, worker, most),
            Actor::Thread(_) => Err(no_worker(book)),
        }
    }

    /// Does the same for a worker.
    fn drain_of(
        &mut self,
        alloc: Global,
        book: &mut Book,
        worker: u32,
        most: u32,
    ) -> Result<bool, Refusal>
        requires { self.old.actor ≡ Worker worker }
        ensures { DrainsSome worker most result self.old book.old self.new book.new }
    {
        for _ in 0..most {
            let Some(step) = next_drain(book.heap(), worker) else {
                return Ok(true);
            };
            if let Err(refusal) = self.act(alloc, book, step) {
                return Err(refusal);
            }
        }
        Ok(false)
    }

    /// Does up to `most` steps of the seat's actor, each as `act` does; the heap after a step decides the next one.
    /// Returns true if there was nothing more to do, and false after `most` steps. Fails as the first rejected step
    /// whose reply isn't passed over.
    pub fn act_many<S: Steps>(
        &mut self,
        alloc: Global,
        book: &mut Book,
        most: u32,
        steps: &mut S,
    ) -> Result<bool, Refusal>
        ensures { ActsMany most result self.old book.old self.new book.new }
    {
        for _ in 0..most {
            let Some(step) = steps.next(book.heap()) else {
                return Ok(true);
            };
            let reply = self.act(alloc, book, step);
            if !steps.note(book.heap(), reply) {
                return match reply {
                    Ok(_) => Ok(true),
                    Err(refusal) => Err(refusal),
                };
            }
        }
        Ok(false)
    }
}
