//! All turns of a thread, which counts differences meanwhile.

use crate::team::PLACES;
use crate::turns::{LENGTH, is_balanced, is_whole, look_up, publish, push, sum_half, transfer};
use model::Refusal;
use portions::{Mutator, SharedHeap, ThreadSeat};
use std::alloc::{AllocError, Global};
use std::sync::{RwLockWriteGuard, Wait};
use verify::Verdict;
use verifying::verify_held;

/// A thread verifies the heap after every N turns.
pub const EVERY: u32 = 10_000;

/// What a thread has done, and how often something was wrong.
#[derive(Clone, Copy)]
pub struct Found {
    pub turns: u64,
    pub verified: u64,
    pub wrong: u64,
}

impl Found {
    /// Returns counts of 0.
    pub fn new() -> Found {
        Found {
            turns: 0,
            verified: 0,
            wrong: 0,
        }
    }

    /// Returns the sums of both.
    pub fn and(self, other: Found) -> Found {
        Found {
            turns: self.turns.wrapping_add(other.turns),
            verified: self.verified.wrapping_add(other.verified),
            wrong: self.wrong.saturating_add(other.wrong),
        }
    }

    /// Counts a difference, unless something is right.
    pub fn expect(&mut self, is_right: bool) {
        if !is_right {
            self.wrong = self.wrong.saturating_add(1);
        }
    }

    /// Counts a verification.
    pub fn verify(&mut self, verdict: Result<Verdict, AllocError>) -> Result<(), Refusal> {
        let Ok(verdict) = verdict else {
            return Err(Refusal::Memory);
        };
        self.verified = self.verified.wrapping_add(1);
        self.expect(matches!(&verdict, Verdict::Sound));
        Ok(())
    }
}

/// A thread's random numbers, and what it has found.
#[derive(Clone, Copy)]
struct Worker {
    thread: u32,
    threads: u32,
    random: u32,
    found: Found,
}

impl Worker {
    /// Returns the next number.
    fn draw(&mut self) -> u32 {
        self.random = self.random.wrapping_mul(1_103_515_245).wrapping_add(12_345);
        self.random >> 8
    }

    /// Moves a coin, and adds a cell to the list.
    fn work(&mut self, alloc: Global, mutator: &mut Mutator, turn: u32) -> Result<(), Refusal> {
        let accounts = self.draw();
        transfer(mutator, accounts % PLACES, (accounts >> 8) % PLACES)?;
        push(alloc, mutator, turn % LENGTH)?;
        self.found.turns = self.found.turns.wrapping_add(1);
        Ok(())
    }

    /// Reads the list that a thread has put on the board, with a rest in its middle.
    fn read<'a, R: Wait>(
        &mut self,
        rt: &R,
        shared: &'a SharedHeap,
        portion: RwLockWriteGuard<'a, Mutator>,
    ) -> Result<RwLockWriteGuard<'a, Mutator>, Refusal> {
        let mut portion = portion;
        let other = self.draw().checked_rem(self.threads).unwrap_or(0);
        if !look_up(&mut *portion, other)? {
            return Ok(portion);
        }
        let half = sum_half(&mut *portion, 0)?;
        portion = shared.rest(rt, portion);
        let sum = sum_half(&mut *portion, half)?;
        self.found.expect(is_whole(&*portion, sum)?);
        Ok(portion)
    }

    /// When a list is complete: puts it on the board, reads one from there, and adds up the accounts.
    fn end_list<'a, R: Wait>(
        &mut self,
        rt: &R,
        shared: &'a SharedHeap,
        portion: RwLockWriteGuard<'a, Mutator>,
    ) -> Result<RwLockWriteGuard<'a, Mutator>, Refusal> {
        let mut portion = portion;
        publish(&mut *portion, self.thread)?;
        portion = self.read(rt, shared, portion)?;
        self.found.expect(is_balanced(&mut *portion)?);
        Ok(portion)
    }

    /// Does one turn and a rest.
    fn turn<'a, R: Wait>(
        &mut self,
        rt: &R,
        alloc: Global,
        shared: &'a SharedHeap,
        portion: RwLockWriteGuard<'a, Mutator>,
        turn: u32,
    ) -> Result<RwLockWriteGuard<'a, Mutator>, Refusal> {
        let mut portion = portion;
        self.work(alloc, &mut *portion, turn)?;
        if turn % LENGTH == LENGTH - 1 {
            portion = self.end_list(rt, shared, portion)?;
        }
        if turn % EVERY == EVERY - 1 {
            self.found.verify(verify_held(alloc, portion.heap()))?;
        }
        Ok(shared.rest(rt, portion))
    }
}

/// Does all turns of a seat's thread, one of N threads.
pub fn work<R: Wait>(
    rt: &R,
    alloc: Global,
    shared: &SharedHeap,
    seat: ThreadSeat,
    threads: u32,
    turns: u32,
) -> Result<Found, Refusal> {
    let mut seat = seat;
    let thread = seat.thread();
    let mut worker = Worker {
        thread,
        threads,
        random: thread,
        found: Found::new(),
    };
    let mut portion = shared.enter(rt, &mut seat);
    for turn in 0..turns {
        portion = worker.turn(rt, alloc, shared, portion, turn)?;
    }
    SharedHeap::leave(portion);
    Ok(worker.found)
}
