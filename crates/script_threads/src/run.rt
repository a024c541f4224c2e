//! The state that all actors of a run share.

ghost use Rattle.std.specs.Prelude.{◌≡◌, MatchOption};
ghost use Rattle.model.specs.declared.steps.Step.TheVariants as steps;
ghost use Rattle.sharing.specs.Seats.{Notes};

use crate::gate::Gate;
use crate::scanner::Scanner;
use cycle::{Reply, Step};
use heap::Heap;
use model::{Phase, Refusal};
use sharing::{Seat, Shared, Steps};
use std::sync::Wait;
use std::sync::atomic::{AtomicU64, Ordering};
use std::thread::Threads;
use std::time::Duration;

/// How often the entries of a page are halved, to copy the pieces in parallel.
const DEPTH: u32 = 2;

/// The greatest number of steps that scan under one hold of the lock: some 30 microseconds, and less than a
/// millisecond even if each step first copies an object of the largest size.
const QUANTUM: u32 = 256;

/// The state that all actors of a run share.
#[derive(Drop)]
pub(crate) struct Run<'a, R, G> {
    pub(crate) rt: &'a R,
    pub(crate) shared: &'a Shared,
    pub(crate) gate: &'a G,
    /// How many actors have commands left.
    pub(crate) busy: &'a AtomicU64,
    /// How many workers there are.
    pub(crate) workers: u32,
    /// Not 0 once an actor was out of memory.
    pub(crate) lacked: &'a AtomicU64,
}

impl<R: Wait, G: Gate> Run<'_, R, G> {
    /// Does one step through the gate, under one hold of the lock. Returns `None` if the run has stopped. Stops the
    /// run if no further step can be done.
    pub(crate) fn ask(&self, seat: &mut Seat, step: &Step) -> Option<Reply>
        ensures { MatchOption result (seat.new ≡ seat.old) (λ reply. Notes seat.old step.now reply seat.new) }
    {
        if self.is_stopped() {
            return None;
        }
        let actor = seat.actor();
        self.gate.before(actor, step);
        let reply = self.shared.ask(self.rt, seat, step);
        self.heed(reply);
        self.gate.after(actor, step);
        Some(reply)
    }

    /// Does one step of a worker that scans, if the gate watches; else several of them under one hold of the lock.
    /// Returns whether more may be left.
    pub(crate) fn scan(&self, seat: &mut Seat, scanner: &mut Scanner) -> bool {
        if G::WATCHES {
            self.scan_one(seat, scanner)
        } else {
            self.scan_many(seat, scanner)
        }
    }

    /// Does one step that scans, through the gate.
    fn scan_one(&self, seat: &mut Seat, scanner: &mut Scanner) -> bool {
        let next = self.shared.look(self.rt, |heap: &Heap| scanner.next(heap));
        let Some(step) = next else {
            return false;
        };
        match self.ask(seat, &step) {
            Some(reply) => self
                .shared
                .look(self.rt, |heap: &Heap| scanner.note(heap, reply)),
            None => false,
        }
    }

    /// Does several steps that scan, under one hold of the lock.
    fn scan_many(&self, seat: &mut Seat, scanner: &mut Scanner) -> bool {
        match self.shared.act_many(self.rt, seat, QUANTUM, scanner) {
            Ok(is_done) => !is_done,
            Err(refusal) => {
                self.heed(Err(refusal));
                false
            }
        }
    }

    /// Stops the run if no further step can be done.
    fn heed(&self, reply: Reply) {
        match reply {
            Err(Refusal::Memory) => self.lack(),
            Err(Refusal::HistoryFull) => self.shared.stop(self.rt),
            _ => {}
        }
    }

    /// Stops the run, which has no result then: it is out of memory, or a thread couldn't be started.
    pub(crate) fn lack(&self) {
        self.lacked.store(1, Ordering::SeqCst);
        self.shared.stop(self.rt);
    }

    /// Returns whether the run is out of memory.
    pub(crate) fn has_lacked(&self) -> bool {
        self.lacked.load(Ordering::SeqCst) != 0
    }

    /// Returns whether the run has stopped.
    pub(crate) fn is_stopped(&self) -> bool {
        self.shared.is_stopped(self.rt)
    }

    /// Returns the phase.
    pub(crate) fn phase(&self) -> Phase {
        self.shared.look(self.rt, |heap: &Heap| heap.phase())
    }

    /// Records that one more actor has done its commands. After the last one nobody waits any more.
    pub(crate) fn leave(&self) {
        if self.busy.fetch_sub(1, Ordering::SeqCst) == 1 {
            self.busy.wake_all();
        }
    }

    /// Waits for some time, or until all actors have done their commands.
    pub(crate) fn wait(&self, time: Duration) {
        let busy = self.busy.load(Ordering::SeqCst);
        if let (true, Ok(expected)) = (busy > 0, u32::try_from(busy)) {
            self.busy.park_timeout(self.rt, expected, time);
        }
    }

    /// Returns whether only the one worker may have something to do: no thread has commands left.
    pub(crate) fn is_alone(&self) -> bool {
        self.workers <= 1 && self.busy.load(Ordering::SeqCst) <= 1
    }

    /// Returns whether all actors have done their commands.
    pub(crate) fn is_over(&self) -> bool {
        self.busy.load(Ordering::SeqCst) == 0
    }
}

impl<R: Threads + Wait + Sync, G: Gate> Run<'_, R, G> {
    /// Does the step that copies the objects of a page, by halves on threads, through the gate. Returns `None` if the
    /// run has stopped. Stops the run if no further step can be done.
    pub(crate) fn copy_page(&self, seat: &mut Seat, page: u32) -> Option<Reply>
        ensures { MatchOption result (seat.new ≡ seat.old)
            (λ reply. Notes seat.old (steps.CopyPage page) reply seat.new) }
    {
        if self.is_stopped() {
            return None;
        }
        let actor = seat.actor();
        let step = Step::CopyPage(page);
        self.gate.before(actor, &step);
        let reply = self.shared.copy_page(self.rt, seat, page, DEPTH);
        self.heed(reply);
        self.gate.after(actor, &step);
        Some(reply)
    }
}
