//! A gate that records its calls.

use cycle::{Actor, Step};
use script_threads::Gate;
use std::alloc::{AllocError, Global};
use std::sync::atomic::{AtomicU64, Ordering};
use std::thread;

/// The greatest number of calls that are recorded.
const MOST: u32 = 4_096;

/// Waits until a count is at least a number, or gives up after very many turns. Returns whether it is.
pub fn reaches(count: &AtomicU64, wanted: u64) -> bool {
    for _ in 0..1_000_000_000u32 {
        if count.load(Ordering::SeqCst) >= wanted {
            return true;
        }
        thread::yield_now();
    }
    false
}

/// A gate that records each call. It holds worker 0 before a mark until `threads` threads have parked.
#[derive(Drop)]
pub struct Recorder {
    calls: Vec<AtomicU64>,
    count: AtomicU64,
    threads: u64,
    parked: AtomicU64,
}

/// Returns a number for an actor, below 256.
fn actor_number(actor: Actor) -> u64 {
    match actor {
        Actor::Thread(number) => u64::from(number).wrapping_mul(2),
        Actor::Worker(number) => u64::from(number).wrapping_mul(2).wrapping_add(1),
    }
}

/// Returns a number for a step of these operands, each of them small.
fn number(kind: u64, first: u32, second: u32, third: u32) -> u64 {
    let low = u64::from(first).wrapping_add(u64::from(second).wrapping_mul(64));
    let all = low.wrapping_add(u64::from(third).wrapping_mul(4_096));
    kind.wrapping_add(all.wrapping_mul(64))
}

/// Returns a number for a thread's step, for the steps in scripts of these tests.
fn thread_step_number(step: &Step) -> u64 {
    match step {
        Step::Take(words) => number(1, *words, 0, 0),
        Step::GiveBack => number(2, 0, 0, 0),
        Step::New { target, layout } => number(3, *target, *layout, 0),
        Step::Load {
            target,
            object,
            field,
        } => number(4, *target, *object, *field),
        Step::Store {
            object,
            field,
            source,
        } => number(5, *object, *field, *source),
        Step::StoreGlobal { global, source } => number(6, *global, *source, 0),
        Step::CopyReg { target, source } => number(7, *target, *source, 0),
        Step::IsNull(register) => number(8, *register, 0, 0),
        Step::ClearReg(register) => number(9, *register, 0, 0),
        Step::Trap => number(10, 0, 0, 0),
        Step::Cross => number(11, 0, 0, 0),
        Step::Park => number(12, 0, 0, 0),
        _ => 0,
    }
}

/// Returns a number for a step, for the steps in scripts of these tests.
pub fn step_number(step: &Step) -> u64 {
    match step {
        Step::StartMark => number(33, 0, 0, 0),
        Step::Pick { page, offset } => number(34, *page, *offset, 0),
        Step::ScanField => number(35, 0, 0, 0),
        Step::ScanGlobal(global) => number(36, *global, 0, 0),
        Step::EndMark => number(37, 0, 0, 0),
        Step::CrossFor(thread) => number(38, *thread, 0, 0),
        other => thread_step_number(other),
    }
}

/// Returns a number for a call before or after a step of an actor.
fn call(actor: Actor, step: &Step, is_after: bool) -> u64 {
    let pair = step_number(step)
        .wrapping_mul(256)
        .wrapping_add(actor_number(actor));
    pair.wrapping_mul(2).wrapping_add(u64::from(is_after))
}

impl Recorder {
    /// Returns one that holds worker 0 until `threads` threads have parked.
    pub fn new(alloc: Global, threads: u64) -> Result<Recorder, AllocError> {
        let mut calls = Vec::new(alloc);
        for _ in 0..MOST {
            calls.push(AtomicU64::new(0))?;
        }
        Ok(Recorder {
            calls,
            count: AtomicU64::new(0),
            threads,
            parked: AtomicU64::new(0),
        })
    }

    /// Records a call.
    fn record(&self, call: u64) {
        let index = self.count.fetch_add(1, Ordering::SeqCst);
        if let Some(place) = self.calls.get(index as usize) {
            place.store(call, Ordering::SeqCst);
        }
    }

    /// Returns the call of a number, from 0.
    fn call(&self, index: u64) -> u64 {
        match self.calls.get(index as usize) {
            Some(call) => call.load(Ordering::SeqCst),
            None => 0,
        }
    }

    /// Returns the steps of an actor, as numbers, if its calls are pairs of `before` and `after` of one step each.
    pub fn steps(&self, alloc: Global, actor: Actor) -> Result<Option<Vec<u64>>, AllocError> {
        let mut steps = Vec::new(alloc);
        let mut begun = None;
        for index in 0..self.count.load(Ordering::SeqCst) {
            let call = self.call(index);
            if (call / 2) % 256 == actor_number(actor) {
                match begun {
                    None if call % 2 == 0 => begun = Some(call),
                    Some(before) if call % 2 == 1 && call / 2 == before / 2 => {
                        steps.push(call / 512)?;
                        begun = None;
                    }
                    _ => return Ok(None),
                }
            }
        }
        Ok(if begun.is_none() { Some(steps) } else { None })
    }
}

impl Gate for Recorder {
    fn before(&self, actor: Actor, step: &Step) {
        if matches!((actor, step), (Actor::Worker(0), Step::StartMark)) {
            let _ = reaches(&self.parked, self.threads);
        }
        self.record(call(actor, step, false));
    }

    fn after(&self, actor: Actor, step: &Step) {
        self.record(call(actor, step, true));
        if matches!((actor, step), (Actor::Thread(_), Step::Park)) {
            let _ = self.parked.fetch_add(1, Ordering::SeqCst);
        }
    }
}
