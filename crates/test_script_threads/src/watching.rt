//! The calls of a gate that watches: the steps of the history, one after another.

use crate::recorder::{Recorder, step_number};
use crate::rows::book_of;
use crate::same::{done, same};
use cycle::{Actor, Book, History, Step};
use parser::parse;
use std::alloc::Global;
use std::process::Abort;
use std::sync::Wait;
use std::thread::Threads;

/// A list of four objects in a global, which is marked once the thread has parked.
const LIST: &str =
    "heap words 16 frames 2 pages 4 threads 1 workers 1 registers 2 globals 1\nlayout 1 0\nt0 take 16\n\
    times 4\nt0 new r1 0\nt0 store r1 0 r0\nt0 mov r0 r1\nend\nt0 storeg 0 r0\nt0 clear r1\nt0 clear r0\n\
    w0 cycle 0\n";

/// Two objects that refer to a third one, for which there are two hints.
const TWICE: &str =
    "heap words 16 frames 2 pages 4 threads 1 workers 1 registers 2 globals 2\nlayout 1 0\nt0 take 16\n\
    t0 new r0 0\nt0 new r1 0\nt0 store r1 0 r0\nt0 storeg 0 r1\nt0 new r1 0\nt0 store r1 0 r0\n\
    t0 storeg 1 r1\nt0 clear r0\nt0 clear r1\nw0 cycle 0\n";

/// Returns the steps of an actor in a history, as numbers.
fn entered(rt: &impl Abort, alloc: Global, history: &History, actor: Actor) -> Vec<u64> {
    let mut steps = Vec::new(alloc);
    for index in 0..history.len() {
        if let Some(found) = history.get(index) {
            let entry = found.entry();
            if entry.actor == actor {
                done(rt, steps.push(step_number(&entry.step)));
            }
        }
    }
    steps
}

/// Returns how often a step is in a list.
fn count_of(steps: &[u64], step: &Step) -> usize {
    let wanted = step_number(step);
    let mut count = 0usize;
    for found in steps {
        if *found == wanted {
            count = count.wrapping_add(1);
        }
    }
    count
}

/// The gate's steps of an actor are the history's, `count` steps.
fn watched(
    rt: &impl Abort,
    alloc: Global,
    recorder: &Recorder,
    history: &History,
    actor: Actor,
    count: usize,
) {
    let wanted = entered(rt, alloc, history, actor);
    let found = done(rt, recorder.steps(alloc, actor));
    same(rt, wanted.len(), count);
    same(rt, found.as_deref(), Some(wanted.as_slice()));
}

/// Runs a script. Returns the recorded heap, and the calls of its gate.
fn run<R: Abort + Threads + Wait + Sync>(rt: &R, alloc: Global, text: &str) -> (Book, Recorder) {
    let script = done(rt, parse(alloc, text.as_bytes()));
    let recorder = done(rt, Recorder::new(alloc, 1));
    (book_of(rt, alloc, &script, &recorder), recorder)
}

/// The gate of the list was called for each step of the history, and no other.
#[test]
fn each_step_is_watched(rt: HostRuntime) {
    let (book, recorder) = run(&rt, rt.alloc(), LIST);
    for (actor, count) in [(Actor::Thread(0), 18), (Actor::Worker(0), 16)] {
        watched(&rt, rt.alloc(), &recorder, book.history(), actor, count);
    }
}

/// An object with two hints is scanned once, and a second pick of it fails.
#[test]
fn a_hint_is_passed_over(rt: HostRuntime) {
    let (book, recorder) = run(&rt, rt.alloc(), TWICE);
    let worker = Actor::Worker(0);
    let pick = Step::Pick { page: 1, offset: 0 };
    let entered = entered(&rt, rt.alloc(), book.history(), worker);
    let found = done(&rt, recorder.steps(rt.alloc(), worker));
    same(&rt, count_of(entered.as_slice(), &pick), 1);
    let found = found.map(|steps| count_of(steps.as_slice(), &pick));
    same(&rt, found, Some(2));
}
