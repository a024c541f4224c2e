//! The cycles of worker 0, the only worker with commands.

use crate::gate::Gate;
use crate::run::Run;
use crate::scanner::Scanner;
use crate::scanning::{drain, pause};
use choosing::choose;
use cycle::{Actor, PageList, Step};
use heap::Heap;
use model::{Phase, Refusal};
use parser::{Command, Then};
use sharing::Seat;
use std::alloc::{AllocError, Global};
use std::sync::Wait;
use std::thread;
use std::thread::Threads;

/// Returns the first parked thread that hasn't crossed.
fn first_parked(heap: &Heap) -> Option<u32> {
    let mut number = 0u32;
    for thread in heap.threads() {
        if thread.is_parked() && !thread.has_crossed() {
            return Some(number);
        }
        number = number.wrapping_add(1);
    }
    None
}

/// The worker that has commands: worker 0.
#[derive(Drop)]
pub(crate) struct Collector {
    pub(crate) scanner: Scanner,
}

impl Collector {
    /// Crosses for parked threads until the heap is in a phase. Returns false if the run has stopped.
    fn wait_for<R: Wait, G: Gate>(&self, run: &Run<R, G>, seat: &mut Seat, phase: Phase) -> bool {
        for _ in run.rt.forever() {
            if run.is_stopped() {
                return false;
            }
            let (is_there, parked) = run.shared.look(run.rt, |heap: &Heap| {
                (heap.phase() == phase, first_parked(heap))
            });
            if is_there {
                return true;
            }
            match parked {
                Some(thread) => {
                    let _ = run.ask(seat, &Step::CrossFor(thread));
                }
                None => thread::yield_now(),
            }
        }
        unreachable!()
    }

    /// Drains the mark and ends it. Returns false if the run has stopped, or an error remains.
    fn end_mark<R: Wait, G: Gate>(&mut self, run: &Run<R, G>, seat: &mut Seat) -> bool {
        for _ in run.rt.forever() {
            drain(run, seat, &mut self.scanner);
            match run.ask(seat, &Step::EndMark) {
                Some(Ok(_)) => return true,
                Some(Err(Refusal::TodoLeft | Refusal::Pending { .. })) => pause(run),
                _ => return false,
            }
        }
        unreachable!()
    }

    /// Copies all objects of a protected page, and releases it.
    fn empty<R: Threads + Wait + Sync, G: Gate>(
        &self,
        run: &Run<R, G>,
        seat: &mut Seat,
        page: u32,
    ) {
        let _ = run.copy_page(seat, page);
        let _ = run.ask(seat, &Step::Release(page));
    }

    /// Protects the chosen pages, and waits until all threads have crossed. Returns the pages; none if that was
    /// rejected. Fails only if out of memory.
    fn protect<R: Wait, G: Gate>(
        &self,
        alloc: Global,
        run: &Run<R, G>,
        seat: &mut Seat,
        percent: u32,
    ) -> Result<Vec<u32>, AllocError> {
        let pages = run
            .shared
            .look(run.rt, |heap: &Heap| choose(alloc, heap, percent))?;
        if pages.is_empty() {
            return Ok(pages);
        }
        let named = Vec::from_slice(alloc, &pages)?;
        let protected = run.ask(seat, &Step::Protect(PageList::new(named)));
        if !matches!(protected, Some(Ok(_))) || !self.wait_for(run, seat, Phase::Relocating) {
            return Ok(Vec::new(alloc));
        }
        Ok(pages)
    }

    /// Does the first half of a cycle: a mark, and the protection of the chosen pages, which it returns. Fails only
    /// if out of memory.
    fn roll<R: Wait, G: Gate>(
        &mut self,
        alloc: Global,
        run: &Run<R, G>,
        seat: &mut Seat,
        percent: u32,
    ) -> Result<Vec<u32>, AllocError> {
        if !matches!(run.ask(seat, &Step::StartMark), Some(Ok(_))) {
            return Ok(Vec::new(alloc));
        }
        if !self.wait_for(run, seat, Phase::Scanning) || !self.end_mark(run, seat) {
            return Ok(Vec::new(alloc));
        }
        self.protect(alloc, run, seat, percent)
    }

    /// Does a complete cycle: its first half, and then empties each page. Fails only if out of memory.
    fn cycle<R: Threads + Wait + Sync, G: Gate>(
        &mut self,
        alloc: Global,
        run: &Run<R, G>,
        seat: &mut Seat,
        percent: u32,
    ) -> Result<(), AllocError> {
        let pages = self.roll(alloc, run, seat, percent)?;
        for page in pages {
            self.empty(run, seat, page);
        }
        Ok(())
    }

    /// Does one command. Fails only if out of memory.
    fn command<R: Threads + Wait + Sync, G: Gate>(
        &mut self,
        alloc: Global,
        run: &Run<R, G>,
        seat: &mut Seat,
        command: &Command,
    ) -> Result<(), AllocError> {
        match command.order.then() {
            Then::Cycles => self.cycle(alloc, run, seat, command.order.first),
            Then::Rolls => {
                let _pages = self.roll(alloc, run, seat, command.order.first)?;
                Ok(())
            }
            _ => Ok(()),
        }
    }

    /// Does all commands of the worker in order.
    pub(crate) fn work<R: Threads + Wait + Sync, G: Gate>(
        mut self,
        alloc: Global,
        run: &Run<R, G>,
        mut seat: Seat,
        commands: &[Command],
    ) -> Seat {
        for command in commands {
            if is_worker_0(command) {
                if run.is_stopped() {
                    break;
                }
                if self.command(alloc, run, &mut seat, command).is_err() {
                    run.lack();
                }
            }
        }
        run.leave();
        seat
    }
}

/// Returns whether a command is worker 0's.
fn is_worker_0(command: &Command) -> bool {
    matches!(command.actor, Actor::Worker(0))
}
