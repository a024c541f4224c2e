//! Steps of one actor, by a recorded heap, by a seat, or under the lock. The calls have no contracts: the proof of a
//! loop over a recorded heap or a seat itself would include all promises of each step.

use anyhow::{Result, bail};
use bench_support::{Lap, since};
use cycle::{Actor, Book, Step};
use layout::{Layout, Layouts};
use model::Config;
use sharing::{Seat, Shared};
use std::alloc::Global;
use std::sync::Wait;
use std::time::{Clock, Instant};

/// One actor that does steps.
pub trait Acting {
    /// Returns whether a step is accepted.
    fn accepts(&mut self, step: Step) -> bool;
}

impl Acting for Book {
    #[inline(always)]
    fn accepts(&mut self, step: Step) -> bool {
        self.act(Actor::Thread(0), step).is_ok()
    }
}

/// An actor for which the kind of a step isn't known at the call.
#[derive(Drop)]
struct AnyKind<A> {
    actor: A,
}

impl<A: Acting> Acting for AnyKind<A> {
    #[inline(never)]
    fn accepts(&mut self, step: Step) -> bool {
        self.actor.accepts(step)
    }
}

/// A recorded heap and a seat, without a lock.
#[derive(Drop)]
struct Seated {
    alloc: Global,
    book: Book,
    seat: Seat,
}

impl Acting for Seated {
    #[inline(always)]
    fn accepts(&mut self, step: Step) -> bool {
        self.seat.act(self.alloc, &mut self.book, step).is_ok()
    }
}

/// A seat of a recorded heap that threads share.
#[derive(Drop)]
pub struct Sharing<'a, 'b, R> {
    pub rt: &'a R,
    pub shared: &'b Shared,
    pub seat: Seat,
}

impl<R: Wait> Acting for Sharing<'_, '_, R> {
    #[inline(always)]
    fn accepts(&mut self, step: Step) -> bool {
        self.shared.step(self.rt, &mut self.seat, step).is_ok()
    }
}

/// Copies a register `count` times. Returns how many of these steps were accepted.
pub fn copy_registers(actor: &mut impl Acting, count: u32) -> u64 {
    let (target, source) = (1, 0);
    let mut done = 0u64;
    for _ in 0..count {
        done = done.wrapping_add(u64::from(actor.accepts(Step::CopyReg { target, source })));
    }
    done
}

/// Returns the configuration of a recorded heap of `threads` threads.
pub fn config(alloc: Global, threads: u32) -> Result<Config> {
    let layouts = Layouts::new(vec![in alloc; Layout { refs: 1, nums: 1 }]?);
    let mut config = Config::new(16, 2, layouts);
    config.threads = threads;
    config.globals = 0;
    Ok(config)
}

/// Returns a recorded heap that threads share, and its seats.
pub fn opened(alloc: Global, config: Config) -> Result<(Shared, Vec<Seat>)> {
    match Shared::open(alloc, Book::new(alloc, config)?).ok() {
        Some(opened) => Ok(opened),
        None => bail!("there is no memory for seats"),
    }
}

/// Does `count` steps of an actor, timed under a name.
fn timed(
    clock: &impl Clock,
    alloc: Global,
    name: &'static str,
    mut actor: impl Acting + Drop,
    count: u32,
) -> Result<Vec<Lap>> {
    let start = Instant::now(clock)?;
    let done = copy_registers(&mut actor, count);
    let nanos = since(clock, start)?;
    Ok(vec![in alloc; Lap::once(name, done, nanos)]?)
}

/// Does `count` steps by `Book::act`.
pub fn by_book(clock: &impl Clock, alloc: Global, count: u32) -> Result<Vec<Lap>> {
    let book = Book::new(alloc, config(alloc, 1)?)?;
    timed(clock, alloc, "act", book, count)
}

/// Does the same with the kind of a step unknown at the call.
pub fn by_any_kind(clock: &impl Clock, alloc: Global, count: u32) -> Result<Vec<Lap>> {
    let actor = Book::new(alloc, config(alloc, 1)?)?;
    timed(clock, alloc, "any", AnyKind { actor }, count)
}

/// Does `count` steps by `Seat::act`.
pub fn by_seat(clock: &impl Clock, alloc: Global, count: u32) -> Result<Vec<Lap>> {
    let (shared, mut seats) = opened(alloc, config(alloc, 1)?)?;
    seats.reverse();
    let Some(seat) = seats.pop() else {
        bail!("there is no seat");
    };
    let book = shared.into_book();
    timed(clock, alloc, "seat", Seated { alloc, book, seat }, count)
}
