//! Two workers scan one mark.

use crate::recorder::reaches;
use crate::rows::book_of;
use crate::same::{done, same, same_at};
use cycle::{Actor, Answer, History, Step};
use parser::{Script, parse};
use script_threads::Gate;
use std::alloc::Global;
use std::process::Abort;
use std::sync::Wait;
use std::sync::atomic::{AtomicU64, Ordering};
use std::thread::Threads;

/// How many lists there are, each in a global.
const LISTS: u32 = 40;

/// A gate that doesn't watch scans; it holds worker 0 before the mark until the lists exist.
#[derive(Drop)]
struct Parked {
    count: AtomicU64,
}

impl Gate for Parked {
    const WATCHES: bool = false;

    fn before(&self, actor: Actor, step: &Step) {
        if matches!((actor, step), (Actor::Worker(0), Step::StartMark)) {
            let _ = reaches(&self.count, 1);
        }
    }

    fn after(&self, actor: Actor, step: &Step) {
        if matches!((actor, step), (Actor::Thread(0), Step::Park)) {
            let _ = self.count.fetch_add(1, Ordering::SeqCst);
        }
    }
}

/// Thread 0 makes the lists, of 200 objects each; worker 0 does a cycle.
fn text(rt: &impl Abort, alloc: Global) -> String {
    let mut text = String::new(alloc);
    let head =
        "heap words 4096 frames 6 pages 12 threads 1 workers 2 registers 2 globals 40\nlayout 1 0\n";
    done(rt, text.push_str(head));
    for list in 0..LISTS {
        let line = format!(in alloc;
            "t0 take 400\ntimes 200\nt0 new r1 0\nt0 store r1 0 r0\nt0 mov r0 r1\nend\nt0 storeg {list} r0\n"
        );
        let line = done(rt, line);
        done(rt, text.push_str(line.as_str()));
        done(rt, text.push_str("t0 clear r0\nt0 clear r1\nt0 give\n"));
    }
    done(rt, text.push_str("w0 cycle 0\n"));
    text
}

/// Returns how many scans of a worker are in a history.
fn scans(history: &History, worker: u32) -> u64 {
    let mut count = 0u64;
    for index in 0..history.len() {
        if let Some(found) = history.get(index) {
            let entry = found.entry();
            if entry.actor == Actor::Worker(worker) && entry.answer == Answer::Scanned {
                count = count.wrapping_add(1);
            }
        }
    }
    count
}

/// A run of two workers, which have scanned all objects. Returns whether both have scanned some.
fn run<R: Abort + Threads + Wait + Sync>(
    rt: &R,
    alloc: Global,
    script: &Script,
    number: u32,
) -> bool {
    let gate = Parked {
        count: AtomicU64::new(0),
    };
    let book = book_of(rt, alloc, script, &gate);
    let (first, second) = (scans(book.history(), 0), scans(book.history(), 1));
    same_at(rt, number, first.wrapping_add(second), 8_000);
    first > 0 && second > 0
}

#[test]
fn both_workers_scan(rt: HostRuntime) {
    let text = text(&rt, rt.alloc());
    let script = done(&rt, parse(rt.alloc(), text.as_str().as_bytes()));
    let mut both = 0u32;
    for number in 0..50u32 {
        let scanned = run(&rt, rt.alloc(), &script, number);
        both = both.wrapping_add(u32::from(scanned));
    }
    // On a busy machine one worker may end before the other begins.
    same(&rt, both >= 10, true);
}
