//! The work of a mutator's thread.

use crate::gate::Gate;
use crate::run::Run;
use cycle::{Actor, Answer, Reply, Step};
use heap::Heap;
use model::Refusal;
use parser::{Command, Then};
use sharing::Seat;
use std::alloc::Global;
use std::sync::Wait;

/// Returns whether a thread has yet to cross the open checkpoint, and can: it has no open barrier and isn't parked.
fn is_to_cross(heap: &Heap, thread: u32) -> bool {
    match heap.threads().get(thread as usize) {
        Some(thread) => {
            !thread.has_crossed() && !thread.is_parked() && thread.barrier().is_none()
        }
        None => false,
    }
}

/// Returns whether a thread has an open barrier.
fn is_loading(heap: &Heap, thread: u32) -> bool {
    match heap.threads().get(thread as usize) {
        Some(thread) => thread.barrier().is_some(),
        None => false,
    }
}

/// Returns whether a register of a thread isn't null.
fn is_used(heap: &Heap, thread: u32, register: u32) -> bool {
    match heap.threads().get(thread as usize) {
        Some(thread) => !thread.register(register).is_null(),
        None => false,
    }
}

/// Returns whether a reply is the error that the register is stale.
fn is_stale(reply: Reply) -> bool {
    matches!(reply, Err(Refusal::Stale))
}

/// Returns whether a step was accepted.
fn is_accepted(reply: Option<Reply>) -> bool {
    matches!(reply, Some(Ok(_)))
}

/// A mutator in its thread.
#[derive(Drop)]
pub(crate) struct Mutator<'a, R, G> {
    pub(crate) run: &'a Run<'a, R, G>,
    pub(crate) thread: u32,
    pub(crate) registers: u32,
}

impl<R: Wait, G: Gate> Mutator<'_, R, G> {
    /// Crosses the open checkpoint, if the thread has yet to and can.
    fn cross(&self, seat: &mut Seat) {
        let thread = self.thread;
        let run = self.run;
        if run
            .shared
            .look(run.rt, |heap: &Heap| is_to_cross(heap, thread))
        {
            let _ = run.ask(seat, &Step::Cross);
        }
    }

    /// Corrects each register that isn't null, until the run stops.
    fn scrub(&self, seat: &mut Seat) {
        let thread = self.thread;
        let run = self.run;
        for register in 0..self.registers {
            let is_used = run
                .shared
                .look(run.rt, |heap: &Heap| is_used(heap, thread, register));
            if is_used && run.ask(seat, &Step::Scrub(register)).is_none() {
                return;
            }
        }
    }

    /// Does one step, after crossing if that is due. After an error that a register is stale, corrects all and
    /// repeats the step. Returns `None` if the run has stopped.
    fn step(&self, seat: &mut Seat, step: &Step) -> Option<Reply> {
        for _ in self.run.rt.forever() {
            self.cross(seat);
            let reply = self.run.ask(seat, step)?;
            if !is_stale(reply) {
                return Some(reply);
            }
            self.scrub(seat);
        }
        unreachable!()
    }

    /// Continues a load to its end, to its first error, or until the run stops: traps until one is clear, heals if
    /// one was due, and finishes.
    fn end_load(&self, seat: &mut Seat, healing: bool) {
        let mut due = healing;
        for _ in self.run.rt.forever() {
            match self.step(seat, &Step::Trap) {
                Some(Ok(Answer::Clear)) => break,
                Some(Ok(_)) => due = true,
                _ => return,
            }
        }
        if due && !is_accepted(self.step(seat, &Step::Heal)) {
            return;
        }
        let _ = self.step(seat, &Step::Finish);
    }

    /// Does one command.
    fn command(&self, alloc: Global, seat: &mut Seat, command: &Command) {
        let Ok(step) = command.order.step(alloc) else {
            self.run.lack();
            return;
        };
        let reply = self.step(seat, &step);
        if is_accepted(reply) && matches!(command.order.then(), Then::LoadsEnd) {
            self.end_load(seat, false);
        }
    }

    /// Ends an open load, gives the buffer back, and parks.
    fn end(&self, seat: &mut Seat) {
        let thread = self.thread;
        let run = self.run;
        if run
            .shared
            .look(run.rt, |heap: &Heap| is_loading(heap, thread))
        {
            self.end_load(seat, true);
        }
        let _ = self.step(seat, &Step::GiveBack);
        let _ = self.step(seat, &Step::Park);
    }

    /// Does all commands of the seat's actor in order, and then `end`; nothing more once the run has stopped.
    pub(crate) fn work(&self, alloc: Global, mut seat: Seat, commands: &[Command]) -> Seat {
        for command in commands {
            if is_of(command, self.thread) {
                if self.run.is_stopped() {
                    break;
                }
                self.command(alloc, &mut seat, command);
            }
        }
        self.end(&mut seat);
        self.run.leave();
        seat
    }
}

/// Returns whether a command is a thread's.
fn is_of(command: &Command, thread: u32) -> bool {
    match command.actor {
        Actor::Thread(number) => number == thread,
        Actor::Worker(_) => false,
    }
}
