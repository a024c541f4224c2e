//! The benches of `make bench`, and the soaks of `make soak`, each named by its first word. Only `bench_calls` is a
//! program of its own, since its instructions are counted for a step: in a larger program the compiler inlines less.
//!
//! | Words | Does the works of |
//! |---|---|
//! | `collections WORKS` | `bench_collections`: collections of a heap as a program holds it |
//! | `sharing WORKS` | `bench_sharing`: threads that share a recorded heap, and its lock |
//! | `portions WORKS` | `bench_portions`: threads that share a heap, or have one each |
//! | `steps WORKS` | `soak_steps`: random steps on heaps that are verified |
//! | `threads WORKS` | `soak_threads`: threads that share a heap alongside a collector |
//!
//! The root file of each has its works. The word `and` separates two benches.
#![tactic(auto)]

use anyhow::{Result, bail};
use bench_support::{Bench, benches};
use std::alloc::Global;
use std::sync::Wait;
use std::thread::Threads;
use std::time::Clock;

/// Does the works of a bench, each of which prints what it has done.
fn run<R: Threads + Wait + Clock + Print + Sync>(
    rt: &R,
    alloc: Global,
    bench: &Bench,
) -> Result<()> {
    match bench.name.as_str() {
        "collections" => bench_collections::run(rt, alloc, &bench.works),
        "sharing" => bench_sharing::run(rt, alloc, &bench.works),
        "portions" => bench_portions::run(rt, alloc, &bench.works),
        "steps" => soak_steps::run(rt, alloc, &bench.works),
        "threads" => soak_threads::run(rt, alloc, &bench.works),
        _ => bail!("no such bench"),
    }
}

fn main(rt: HostRuntime) -> Result<()> {
    for bench in &benches(&rt)? {
        run(&rt, rt.alloc(), bench)?;
    }
    Ok(())
}
