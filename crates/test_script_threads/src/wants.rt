//! Hints and runs by threads when out of memory. These tests are run with each of their allocations failing in turn:
//! the same call is done when it is repeated. A test then fails as out of memory, else it succeeds.

use crate::rows::{OUTPUT, SCRIPT, raced};
use crate::same::{same, same_at};
use crate::taking::pop;
use hints::{HintSeat, Hints};
use parser::{Script, parse};
use refword::Addr;
use script_threads::ThreadsFault;
use std::alloc::{AllocError, Global};
use std::process::Abort;
use std::sync::Wait;
use std::test::Fail;
use std::thread::Threads;

/// How many hints there are: more than a deque's first slots, and than those after its first growth.
const COUNT: u64 = 200;

/// Pushes a number; returns it if there is no space for it.
fn push_or_back(seat: &mut HintSeat, number: u64) -> Option<u64> {
    let hint = Addr::new(number)?;
    match Hints::push(seat, hint) {
        Ok(()) => None,
        Err(back) => Some(back.number()),
    }
}

/// Pushes a number, and again if it comes back. Returns whether it did.
fn pushes(rt: &impl Abort, seat: &mut HintSeat, number: u64) -> bool {
    let back = push_or_back(seat, number);
    if back.is_none() {
        return false;
    }
    same_at(rt, number, back, Some(number));
    same_at(rt, number, push_or_back(seat, number), None);
    true
}

/// Pushes all numbers. Returns whether one came back.
fn pushes_all(rt: &impl Abort, seat: &mut HintSeat) -> bool {
    let mut lacked = false;
    for number in 1..=COUNT {
        if pushes(rt, seat, number) {
            lacked = true;
        }
    }
    lacked
}

/// All are popped, oldest first, and no other.
fn pops_all(rt: &impl Abort, seat: &mut HintSeat) {
    for number in 1..=COUNT {
        same_at(rt, number, pop(seat), Some(number));
    }
    same(rt, pop(seat), None);
}

/// Returns the seats of two workers, and whether they could be made only the second time.
fn made(alloc: Global) -> Result<(Vec<HintSeat>, bool), AllocError> {
    if let Ok(seats) = Hints::new(alloc, 2) {
        return Ok((seats, false));
    }
    Ok((Hints::new(alloc, 2)?, true))
}

#[test]
fn hints_come_back(rt: HostRuntime) -> Result<(), Fail> {
    let (mut seats, mut lacked) = made(rt.alloc())?;
    for seat in &mut seats {
        lacked = pushes_all(&rt, seat) || lacked;
        pops_all(&rt, seat);
    }
    if lacked {
        Err(Fail::from(AllocError))
    } else {
        Ok(())
    }
}

/// Returns what a run by threads prints; nothing if it fails with another error than `Memory`. Fails only if out of
/// memory.
fn output_of<R: Threads + Wait + Sync>(
    rt: &R,
    alloc: Global,
    script: &Script,
) -> Result<Vec<u8>, AllocError> {
    match raced(rt, alloc, script) {
        Ok(output) => output.ok_or(AllocError),
        Err(ThreadsFault::Memory) => Err(AllocError),
        Err(_) => Ok(Vec::new(alloc)),
    }
}

/// Does a run by threads, and a second one if the first was out of memory.
fn races<R: Abort + Threads + Wait + Sync>(
    rt: &R,
    alloc: Global,
    script: &Script,
) -> Result<(), AllocError> {
    if let Ok(output) = output_of(rt, alloc, script) {
        same(rt, output.as_slice(), OUTPUT.as_bytes());
        return Ok(());
    }
    let output = output_of(rt, alloc, script)?;
    same(rt, output.as_slice(), OUTPUT.as_bytes());
    Err(AllocError)
}

#[test]
fn runs_by_threads(rt: HostRuntime) -> Result<(), Fail> {
    let script = parse(rt.alloc(), SCRIPT.as_bytes())?;
    races(&rt, rt.alloc(), &script)?;
    Ok(())
}
