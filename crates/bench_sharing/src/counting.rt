//! Threads that add to a number under a lock: the cost of a lock under which next to nothing is done.

use anyhow::Result;
use bench_support::{Lap, since};
use std::alloc::{AllocError, Global};
use std::sync::{Mutex, Wait};
use std::thread;
use std::thread::Threads;
use std::time::{Clock, Instant};

/// Adds to a number `count` times.
fn add<R: Wait>(rt: &R, number: &Mutex<u64>, count: u32) {
    for _ in 0..count {
        let mut number = number.lock(rt);
        *number = number.wrapping_add(1);
    }
}

/// Lets `threads` threads add to a number `count` times each. Returns the number.
fn added<R: Threads + Wait + Sync>(
    rt: &R,
    alloc: Global,
    threads: u32,
    count: u32,
) -> Result<u64, AllocError> {
    let number = Mutex::new(0u64);
    let lent = &number;
    thread::scope(
        thread::scope_env(),
        rt,
        move |scope| -> Result<(), AllocError> {
            let mut handles = Vec::with_capacity(alloc, threads as usize)?;
            for _ in 0..threads {
                if let Ok(handle) = scope.spawn(move || add(rt, lent, count)) {
                    handles.push(handle)?;
                }
            }
            for handle in handles {
                handle.join(rt);
            }
            Ok(())
        },
    )?;
    Ok(number.into_inner())
}

/// Lets `threads` threads add to a number `count` times each.
pub fn counts<R: Threads + Wait + Clock + Sync>(
    rt: &R,
    alloc: Global,
    threads: u32,
    count: u32,
) -> Result<Vec<Lap>> {
    let start = Instant::now(rt)?;
    let done = added(rt, alloc, threads, count)?;
    let nanos = since(rt, start)?;
    Ok(vec![in alloc; Lap::once("counter", done, nanos)]?)
}
