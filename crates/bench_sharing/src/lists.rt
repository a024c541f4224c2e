//! A cycle by workers alongside two threads.

use crate::gate::Watch;
use anyhow::{Result, bail};
use bench_support::Lap;
use parser::{Script, parse};
use script_threads::by_threads;
use std::alloc::{AllocError, Global};
use std::sync::Wait;
use std::sync::atomic::{AtomicU64, Ordering};
use std::thread::Threads;
use std::time::{Clock, Instant};

/// The words of a page.
const WORDS: u32 = 4_096;

/// The objects of a page, of 2 words each, in pairs.
const PAIRS: u32 = 1_024;

/// Returns the commands that put `pairs` pairs of objects in front of a list, in a buffer of a page, which has space
/// for them.
fn links(alloc: Global, pairs: u32) -> Result<String, AllocError> {
    if pairs == 0 {
        return Ok(String::new(alloc));
    }
    format!(in alloc;
        "t0 take {WORDS}\ntimes {pairs}\nt0 new r1 0\nt0 store r1 0 r0\nt0 new r0 0\n\
        t0 store r0 0 r1\nend\nt0 give\n"
    )
}

/// Appends the commands that make a list of `pairs` pairs of objects, in a global.
fn list(text: &mut String, alloc: Global, global: u32, pairs: u32) -> Result<(), AllocError> {
    let full = links(alloc, PAIRS)?;
    text.push_str("t0 clear r0\n")?;
    for _ in 0..pairs / PAIRS {
        text.push_str(full.as_str())?;
    }
    text.push_str(links(alloc, pairs % PAIRS)?.as_str())?;
    let store = format!(in alloc; "t0 storeg {global} r0\n")?;
    text.push_str(store.as_str())
}

/// Returns the heap line and the layout line. There are frames for all objects, and as many for their copies.
fn head(alloc: Global, workers: u32, lists: u32, pairs: u32) -> Result<String, AllocError> {
    let pages = lists.wrapping_mul(pairs / PAIRS + 1);
    let frames = pages.wrapping_mul(2).wrapping_add(8).min(4_096);
    format!(in alloc;
        "heap words {WORDS} frames {frames} pages {frames} threads 2 workers {workers} registers 4 \
        globals {lists}\nlayout 1 0\n"
    )
}

/// Returns the script of a cycle alongside two threads.
fn script(alloc: Global, numbers: [u32; 4]) -> Result<String, AllocError> {
    let [workers, lists, pairs, beside] = numbers;
    let mut text = head(alloc, workers, lists, pairs)?;
    for global in 0..lists {
        list(&mut text, alloc, global, pairs)?;
    }
    let rest = format!(in alloc;
        "t1 take 16\nt1 new r0 0\ntimes {beside}\nt0 get r2 r0 0\nt1 get r2 r0 0\nend\nw0 cycle 100\n"
    )?;
    text.push_str(rest.as_str())?;
    Ok(text)
}

/// Returns a parsed script.
fn read(alloc: Global, text: &str) -> Result<Script> {
    match parse(alloc, text.as_bytes()) {
        Ok(script) => Ok(script),
        Err(_) => bail!("the script has a fault"),
    }
}

/// Returns a time.
fn told(time: &AtomicU64) -> u64 {
    time.load(Ordering::SeqCst)
}

/// Returns the times; and, in place of a time, how many references had been loaded during the cycle.
fn laps<R>(alloc: Global, watch: &Watch<'_, R>, objects: u64, loads: u64) -> Result<Vec<Lap>> {
    let began = told(&watch.began);
    let mark = told(&watch.marked).saturating_sub(began);
    let cycle = told(&watch.ended).saturating_sub(began);
    Ok(vec![in alloc;
        Lap::once("mark", objects, mark),
        Lap::once("cycle", objects, cycle),
        Lap::once("beside", loads, told(&watch.met)),
    ]?)
}

/// Runs a script by threads, with a gate that watches. Returns whether it was settled.
fn is_done<R: Threads + Wait + Clock + Sync>(
    rt: &R,
    alloc: Global,
    script: &Script,
    watch: &Watch<'_, R>,
) -> bool {
    by_threads(rt, alloc, script, watch).err().is_none()
}

/// Times a cycle on lists of `objects` objects in all, alongside `loads` loads.
fn timed<R: Threads + Wait + Clock + Sync>(
    rt: &R,
    alloc: Global,
    script: &Script,
    lists: u64,
    counts: [u64; 2],
) -> Result<Vec<Lap>> {
    let watch = Watch::new(rt, Instant::now(rt)?, lists);
    if !is_done(rt, alloc, script, &watch) {
        bail!("the run isn't settled");
    }
    let [objects, loads] = counts;
    laps(alloc, &watch, objects, loads)
}

/// Times a cycle of some workers on some lists of pairs of objects, alongside two threads that load a reference some
/// times each.
pub fn cycle<R: Threads + Wait + Clock + Sync>(
    rt: &R,
    alloc: Global,
    numbers: [u32; 4],
) -> Result<Vec<Lap>> {
    let [_, lists, pairs, beside] = numbers;
    let objects = u64::from(lists)
        .wrapping_mul(u64::from(pairs))
        .wrapping_mul(2);
    let loads = u64::from(beside).wrapping_mul(2);
    let script = read(alloc, script(alloc, numbers)?.as_str())?;
    timed(rt, alloc, &script, u64::from(lists), [objects, loads])
}
