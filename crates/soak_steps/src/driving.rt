//! Random steps, one after another: half of them are of threads, and half of workers.

use crate::counts::{Counts, count, kind_of};
use crate::driven::Driven;
use crate::moves::next_move;
use crate::numbers::below;
use crate::setups::Habits;
use crate::tending::next_work;
use anyhow::{Result, bail};
use cycle::{Actor, Step};
use heap::Heap;
use std::alloc::{AllocError, Global};
use test_support_samples::Dice;
use verify::Verdict;

/// How long a heap is driven, and how.
#[derive(Clone, Copy)]
pub struct Drive {
    /// The habits of threads and workers.
    pub habits: Habits,
    /// The seed of the random numbers.
    pub seed: u64,
    /// How many steps are tried, accepted or not.
    pub steps: u32,
    /// The heap is verified after each `every` accepted steps.
    pub every: u32,
}

/// Returns the next step and its actor.
fn next(
    alloc: Global,
    heap: &Heap,
    dice: &mut Dice,
    habits: Habits,
) -> Result<(Actor, Step), AllocError> {
    if dice.hits(2) {
        let thread = below(dice, heap.config().threads);
        let step = next_move(heap, thread, dice, habits);
        return Ok((Actor::Thread(thread), step));
    }
    let worker = below(dice, heap.config().workers);
    let step = next_work(alloc, heap, worker, dice, habits)?;
    Ok((Actor::Worker(worker), step))
}

/// Verifies the heap. Fails for any verdict but `Sound`.
fn look(alloc: Global, driven: &impl Driven, counts: &mut Counts) -> Result<()> {
    match driven.verdict(alloc)? {
        Verdict::Sound => {
            count(&mut counts.verified);
            Ok(())
        }
        Verdict::Faulty(fault) => bail!("behind {} refused steps: {fault:?}", counts.refused),
    }
}

/// Does the next step. Returns whether it was accepted.
fn step(
    alloc: Global,
    driven: &mut impl Driven,
    dice: &mut Dice,
    habits: Habits,
    counts: &mut Counts,
) -> Result<bool, AllocError> {
    let (actor, step) = next(alloc, driven.heap(), dice, habits)?;
    let kind = kind_of(&step);
    let reply = driven.act(actor, step);
    counts.enter(kind, reply);
    Ok(reply.is_ok())
}

/// Does all steps of a drive. Returns the counts. Fails if the verifier finds a fault.
pub fn goes(alloc: Global, driven: &mut impl Driven, drive: Drive) -> Result<Counts> {
    let mut dice = Dice::new(drive.seed);
    let mut counts = Counts::new();
    let mut left = drive.every;
    for _ in 0..drive.steps {
        if step(alloc, driven, &mut dice, drive.habits, &mut counts)? {
            left = left.saturating_sub(1);
        }
        if left == 0 {
            look(alloc, driven, &mut counts)?;
            left = drive.every;
        }
    }
    Ok(counts)
}
