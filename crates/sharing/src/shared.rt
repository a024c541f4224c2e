//! A recorded heap that threads share.

ghost use Rattle.std.specs.Prelude.{◌≡◌, IfErr, IfOk};
ghost use Rattle.std.specs.Fn.{FnOnceReturnsAt, FnOnceTakesAt};
ghost use Rattle.cycle.specs.Books.{BookState};
ghost use Rattle.cycle.specs.Replays.{IsBook, KeepsPromises};
ghost use Rattle.sharing.specs.Many.{ActsMany};
ghost use Rattle.sharing.specs.Portions.{Drains};
ghost use Rattle.sharing.specs.Seats.{Notes, seats_of};
ghost use Rattle.model.specs.States.{HeapState};
ghost use Rattle.model.specs.declared.steps.Step.TheVariants as steps;

use crate::opening::seats;
use crate::seat::Seat;
use crate::steps::Steps;
use cycle::{Book, PieceGate, Reply, Step};
use entries::again;
use heap::Heap;
use model::Refusal;
use std::alloc::Global;
use std::sync::{Condvar, Mutex, Wait};
use std::thread::Threads;

/// What the lock guards.
#[derive(Drop)]
struct Desk {
    book: Book,
    stopped: bool,
}

impl Desk {
    /// Does a step by a copy of it, so that it may be tried again.
    fn attempt(&mut self, alloc: Global, seat: &mut Seat, step: &Step) -> Reply
        ensures { Notes seat.old step.now result seat.new }
    {
        match again(alloc, step) {
            Ok(copy) => seat.act(alloc, &mut self.book, copy),
            Err(_) => Err(Refusal::Memory),
        }
    }
}

/// A gate that does nothing.
struct NoGate;

impl PieceGate for NoGate {
    fn begin(&self, _piece: u32) {}
}

/// A recorded heap under a lock, on which each actor acts by its seat.
///
/// A step takes the lock once, and so does a quantum of a drain. The recorded heap keeps the promises of `Book` each
/// time.
#[derive(Drop)]
pub struct Shared {
    desk: Mutex<Desk>,
    changed: Condvar,
    alloc: Global,
}

impl Shared {
    /// Shares a recorded heap. Returns it with a seat for each actor, threads first, whose list is the actor's part
    /// of the history. Returns the recorded heap as an error if out of memory.
    pub fn open(alloc: Global, book: Book) -> Result<(Shared, Vec<Seat>), Book>
        ensures seats { IfOk result (λ opened. opened.1.items ≡ seats_of book) }
        ensures back { IfErr result (λ back. back ≡ book) }
    {
        match seats(alloc, &book) {
            Ok(seats) => Ok((Shared::over(alloc, book), seats)),
            Err(_) => Err(book),
        }
    }

    /// Returns a recorded heap under a lock.
    fn over(alloc: Global, book: Book) -> Shared {
        Shared {
            desk: Mutex::new(Desk {
                book,
                stopped: false,
            }),
            changed: Condvar::new(),
            alloc,
        }
    }

    /// Does one step of the seat's actor, under one hold of the lock, as `Seat::act` does. An accepted step wakes all
    /// that wait.
    pub fn step<R: Wait>(&self, rt: &R, seat: &mut Seat, step: Step) -> Reply
        ensures { Notes seat.old step result seat.new }
    {
        let mut desk = self.desk.lock(rt);
        let reply = seat.act(self.alloc, &mut desk.book, step);
        drop(desk);
        if reply.is_ok() {
            self.changed.notify_all();
        }
        reply
    }

    /// Does a step as `step` does; but if it fails with `Stall`, waits for another step and tries again, until `stop`
    /// was called: then it returns that `Stall`.
    pub fn step_wait<R: Wait>(&self, rt: &R, seat: &mut Seat, step: Step) -> Reply
        ensures { Notes seat.old step result seat.new }
    {
        self.ask(rt, seat, &step)
    }

    /// Does what `step_wait` does, by a borrowed step.
    pub fn ask<R: Wait>(&self, rt: &R, seat: &mut Seat, step: &Step) -> Reply
        ensures { Notes seat.old step.now result seat.new }
    {
        let mut desk = self.desk.lock(rt);
        for _ in rt.forever() {
            let reply = desk.attempt(self.alloc, seat, step);
            if reply == Err(Refusal::Stall) && !desk.stopped {
                desk = self.changed.wait(rt, desk);
            } else {
                drop(desk);
                if reply.is_ok() {
                    self.changed.notify_all();
                }
                return reply;
            }
        }
        unreachable!()
    }

    /// Does the step that copies the objects of a page, by halves on threads to a depth (above 4 counts as 4), under
    /// one hold of the lock; else it is as `step`. It waits for the threads.
    pub fn copy_page<R: Threads + Wait + Sync>(
        &self,
        rt: &R,
        seat: &mut Seat,
        page: u32,
        depth: u32,
    ) -> Reply
        ensures { Notes seat.old (steps.CopyPage page) result seat.new }
    {
        let mut desk = self.desk.lock(rt);
        let reply = seat.copy_page(rt, self.alloc, &mut desk.book, page, depth, &NoGate);
        drop(desk);
        if reply.is_ok() {
            self.changed.notify_all();
        }
        reply
    }

    /// Does up to `most` steps of a drain, as `Seat::drain` does, under one hold of the lock. Wakes all that wait if
    /// it has done a step.
    pub fn drain<R: Wait>(&self, rt: &R, seat: &mut Seat, most: u32) -> Result<bool, Refusal>
        ensures { (b : BookState) × (c : BookState) × IsBook b
            × Drains seat.old.actor most result seat.old b seat.new c }
    {
        let before = seat.list().len();
        let mut desk = self.desk.lock(rt);
        desk.book.law();
        let end = seat.drain(self.alloc, &mut desk.book, most);
        drop(desk);
        if seat.list().len() > before {
            self.changed.notify_all();
        }
        end
    }

    /// Does up to `most` steps of the seat's actor, as `Seat::act_many` does, under one hold of the lock. Wakes all
    /// that wait if a step was accepted.
    pub fn act_many<R: Wait, S: Steps>(
        &self,
        rt: &R,
        seat: &mut Seat,
        most: u32,
        steps: &mut S,
    ) -> Result<bool, Refusal>
        ensures { (b : BookState) × (c : BookState) × IsBook b × ActsMany most result seat.old b seat.new c }
    {
        let before = seat.list().len();
        let mut desk = self.desk.lock(rt);
        desk.book.law();
        let end = seat.act_many(self.alloc, &mut desk.book, most, steps);
        drop(desk);
        if seat.list().len() > before {
            self.changed.notify_all();
        }
        end
    }

    /// Ends all waits. Changes neither the recorded heap nor a list.
    pub fn stop<R: Wait>(&self, rt: &R) {
        self.desk.lock(rt).stopped = true;
        self.changed.notify_all();
    }

    /// Returns whether `stop` was called.
    pub fn is_stopped<R: Wait>(&self, rt: &R) -> bool {
        self.desk.lock(rt).stopped
    }

    /// Returns the result of `f` on the heap, which `f` may read under one hold of the lock. Later steps may change
    /// what it found.
    pub fn look<R: Wait, F: FnOnce(&Heap) -> T, T>(&self, rt: &R, f: F) -> T
        requires { (h : HeapState) → FnOnceTakesAt F.FnOnce f h }
        ensures { (b : BookState) × IsBook b × FnOnceReturnsAt F.FnOnce f b.heap result }
    {
        let desk = self.desk.lock(rt);
        desk.book.law();
        f(desk.book.heap())
    }

    /// Returns the recorded heap, once no thread shares it: its history is one of one thread, and each answer in it
    /// is the reference model's at its place.
    pub fn into_book(self) -> Book
        ensures book { IsBook result }
        ensures promises { KeepsPromises result }
    {
        let Desk { book, stopped: _ } = self.desk.into_inner();
        book.law();
        book
    }
}
