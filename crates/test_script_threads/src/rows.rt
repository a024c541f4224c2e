//! Two threads that link and read back objects while a worker does three cycles, many times.

use crate::same::{done, same};
use cycle::Book;
use parser::{Script, parse};
use script_threads::{Gate, OpenGate, ThreadsFault, by_threads, tell_threads};
use sharing::Settled;
use std::alloc::Global;
use std::process::Abort;
use std::sync::Wait;
use std::thread::Threads;

/// Three cycles.
pub const SCRIPT: &str =
    "heap words 512 frames 8 pages 40 threads 2 workers 2 registers 4 globals 2\nlayout 1 1\nt0 take 300\n\
    t1 take 300\ntimes 100\nt0 new r1 0\nt0 set r1 0 1\nt0 store r1 0 r0\nt0 mov r0 r1\nt0 storeg 0 r0\n\
    t1 new r1 0\nt1 set r1 0 1\nt1 store r1 0 r0\nt1 mov r0 r1\nt1 storeg 1 r0\nend\nt0 give\nt1 give\n\
    times 100\nt0 datum r0 0\nt0 get r0 r0 0\nt1 datum r0 0\nt1 get r0 r0 0\nend\ntimes 3\nw0 cycle 100\nend\n";

/// The same with only the first halves of three cycles: each mark copies the objects that it meets.
const ROLLING: &str =
    "heap words 512 frames 8 pages 40 threads 2 workers 2 registers 4 globals 2\nlayout 1 1\nt0 take 300\n\
    t1 take 300\ntimes 100\nt0 new r1 0\nt0 set r1 0 1\nt0 store r1 0 r0\nt0 mov r0 r1\nt0 storeg 0 r0\n\
    t1 new r1 0\nt1 set r1 0 1\nt1 store r1 0 r0\nt1 mov r0 r1\nt1 storeg 1 r0\nend\nt0 give\nt1 give\n\
    times 100\nt0 datum r0 0\nt0 get r0 r0 0\nt1 datum r0 0\nt1 get r0 r0 0\nend\ntimes 3\nw0 roll 100\nend\n";

pub const OUTPUT: &str = "thread 0 births 100 data 100\nthread 1 births 100 data 100\nsettled\n";

/// Returns the recorded heap of a run by threads, which has to be settled.
pub fn book_of<R: Abort + Threads + Wait + Sync, G: Gate + Sync>(
    rt: &R,
    alloc: Global,
    script: &Script,
    gate: &G,
) -> Book {
    let Settled { book, seats } = done(rt, by_threads(rt, alloc, script, gate));
    drop(seats);
    book
}

/// Returns what is printed for a settled run.
fn printed(alloc: Global, settled: &Settled) -> Option<Vec<u8>> {
    let mut output = Vec::new(alloc);
    match tell_threads(settled, &mut output) {
        Ok(()) => Some(output),
        Err(_) => None,
    }
}

/// Returns what a run by threads prints, if it is settled.
pub fn raced<R: Threads + Wait + Sync>(
    rt: &R,
    alloc: Global,
    script: &Script,
) -> Result<Option<Vec<u8>>, ThreadsFault> {
    let settled = by_threads(rt, alloc, script, &OpenGate)?;
    Ok(printed(alloc, &settled))
}

/// Runs a script fifty times: it prints the same each time.
fn settles<R: Abort + Threads + Wait + Sync>(rt: &R, alloc: Global, text: &str) {
    let script = done(rt, parse(alloc, text.as_bytes()));
    for _ in 0..50u32 {
        let output = done(rt, raced(rt, alloc, &script));
        same(rt, output.as_deref(), Some(OUTPUT.as_bytes()));
    }
}

#[test]
fn three_cycles(rt: HostRuntime) {
    settles(&rt, rt.alloc(), SCRIPT);
}

#[test]
fn three_rolls(rt: HostRuntime) {
    settles(&rt, rt.alloc(), ROLLING);
}
