//! The times of threads' jobs, and what the threads did.

use crate::team::{Job, Shape, all_work_collected};
use crate::watch::Watch;
use anyhow::Result;
use bench_support::{Lap, Laps, since};
use model::Refusal;
use portions::{Seats, SharedHeap};
use std::alloc::{AllocError, Global};
use std::sync::Wait;
use std::thread::Threads;
use std::time::{Clock, Instant};

/// Returns how many steps were done in all, or the first error.
fn total(all: &[Result<Watch, Refusal>]) -> Result<u64, Refusal> {
    let mut steps = 0u64;
    for each in all {
        match each {
            Ok(watch) => steps = steps.wrapping_add(watch.done),
            Err(refusal) => return Err(*refusal),
        }
    }
    Ok(steps)
}

/// Adds the waits and holds of a thread.
fn add_watch(found: &mut Laps, watch: &Watch) -> Result<(), AllocError> {
    for wait in watch.waits.iter() {
        found.add("wait", *wait)?;
    }
    for hold in watch.holds.iter() {
        found.add("hold", *hold)?;
    }
    Ok(())
}

/// Returns what threads did in some time under a name, with their waits and holds.
pub fn laps(
    alloc: Global,
    name: &'static str,
    nanos: u64,
    all: &[Result<Watch, Refusal>],
) -> Result<Vec<Lap>> {
    let mut found = Laps::new(alloc);
    for each in all {
        if let Ok(watch) = each {
            add_watch(&mut found, watch)?;
        }
    }
    let mut laps = vec![in alloc; Lap::once(name, total(all)?, nanos)]?;
    for lap in found.all()? {
        laps.push(lap)?;
    }
    Ok(laps)
}

/// Does a job alongside a collector.
pub fn collected<R: Threads + Wait + Clock + Sync, J: Job>(
    rt: &R,
    alloc: Global,
    name: &'static str,
    shared: &SharedHeap,
    seats: Seats,
    shape: Shape,
    job: &J,
) -> Result<Vec<Lap>> {
    let start = Instant::now(rt)?;
    let (all, collections) = all_work_collected(rt, alloc, shared, seats, shape, job)?;
    let nanos = since(rt, start)?;
    let mut laps = laps(alloc, name, nanos, &all)?;
    laps.push(Lap::once("collections", collections, 0))?;
    Ok(laps)
}
