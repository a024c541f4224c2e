//! A thread waits for a step that fails with `Stall`.

use crate::acting::{config, opened};
use anyhow::{Result, bail};
use bench_support::{Lap, since};
use cycle::{Actor, PageList, Step};
use sharing::{Seat, Shared};
use std::alloc::{AllocError, Global};
use std::sync::Wait;
use std::thread;
use std::thread::Threads;
use std::time::{Clock, Duration, Instant};

/// Does a step of an actor's seat. Returns whether it was accepted.
fn acts<R: Wait>(rt: &R, shared: &Shared, seats: &mut [Seat], actor: Actor, step: Step) -> bool {
    for seat in seats {
        if seat.actor() == actor {
            return shared.step(rt, seat, step).is_ok();
        }
    }
    false
}

/// Does the steps after which thread 0 has to wait for thread 1: an object of a protected page is in a register of
/// thread 0, which has crossed, and thread 1 hasn't.
fn prepare<R: Wait>(
    rt: &R,
    alloc: Global,
    shared: &Shared,
    seats: &mut [Seat],
) -> Result<bool, AllocError> {
    let (target, layout) = (0, 0);
    let pages = PageList::new(vec![in alloc; 1u32]?);
    let steps = vec![in alloc;
        (Actor::Worker(0), Step::StartMark),
        (Actor::Thread(0), Step::Cross),
        (Actor::Thread(1), Step::Cross),
        (Actor::Thread(0), Step::Take(16)),
        (Actor::Thread(0), Step::New { target, layout }),
        (Actor::Thread(0), Step::GiveBack),
        (Actor::Worker(0), Step::EndMark),
        (Actor::Worker(0), Step::Protect(pages)),
        (Actor::Thread(0), Step::Cross),
    ]?;
    for (actor, step) in steps {
        if !acts(rt, shared, seats, actor, step) {
            return Ok(false);
        }
    }
    Ok(true)
}

/// Thread 1 crosses after a while.
fn cross_late<R: Wait + Clock>(rt: &R, shared: &Shared, mut seat: Seat, millis: u32) -> bool {
    thread::sleep(rt, Duration::from_millis(u64::from(millis)));
    shared.step(rt, &mut seat, Step::Cross).is_ok()
}

/// Thread 0 corrects its register, and has to wait for that.
fn scrub<R: Wait>(rt: &R, shared: &Shared, mut seat: Seat) -> bool {
    shared.step_wait(rt, &mut seat, Step::Scrub(0)).is_ok()
}

/// Runs both threads. Returns how many steps were accepted.
fn both<R: Threads + Wait + Clock + Sync>(
    rt: &R,
    shared: &Shared,
    first: Seat,
    second: Seat,
    millis: u32,
) -> u64 {
    let (scrubbed, crossed) = thread::join(
        rt,
        move || scrub(rt, shared, first),
        move || cross_late(rt, shared, second, millis),
    );
    u64::from(scrubbed).wrapping_add(u64::from(crossed))
}

/// Thread 0 waits `millis` milliseconds for a step of thread 1: these have the first two seats. `None` if there are
/// none.
fn waited<R: Threads + Wait + Clock + Sync>(
    rt: &R,
    shared: &Shared,
    mut seats: Vec<Seat>,
    millis: u32,
) -> Option<u64> {
    seats.reverse();
    let first = seats.pop()?;
    let second = seats.pop()?;
    Some(both(rt, shared, first, second, millis))
}

/// The same on a heap that is shared already.
fn timed<R: Threads + Wait + Clock + Sync>(
    rt: &R,
    alloc: Global,
    shared: &Shared,
    seats: Vec<Seat>,
    millis: u32,
) -> Result<Vec<Lap>> {
    let mut seats = seats;
    if !prepare(rt, alloc, shared, &mut seats)? {
        bail!("a step was refused");
    }
    let start = Instant::now(rt)?;
    let Some(done) = waited(rt, shared, seats, millis) else {
        bail!("there are no seats");
    };
    Ok(vec![in alloc; Lap::once("waits", done, since(rt, start)?)]?)
}

/// A thread waits `millis` milliseconds for a step of another one.
pub fn waits<R: Threads + Wait + Clock + Sync>(
    rt: &R,
    alloc: Global,
    millis: u32,
) -> Result<Vec<Lap>> {
    let (shared, seats) = opened(alloc, config(alloc, 2)?)?;
    let laps = timed(rt, alloc, &shared, seats, millis);
    drop(shared);
    laps
}
