//! A cycle empties the pages that it chooses, and releases their frames.

use crate::recorder::Recorder;
use crate::rows::book_of;
use crate::same::{done, same};
use cycle::{Actor, Answer, History, Step};
use parser::parse;
use std::alloc::Global;
use std::process::Abort;
use std::sync::Wait;
use std::thread::Threads;

/// Two pages of five objects, one of which is live on each: 3 words of 16.
const PAGES: &str =
    "heap words 16 frames 4 pages 8 threads 1 workers 2 registers 2 globals 2\nlayout 1 1\nt0 take 16\n\
    t0 new r0 0\nt0 storeg 0 r0\ntimes 4\nt0 new r1 0\nend\nt0 give\nt0 take 16\nt0 new r0 0\n\
    t0 storeg 1 r0\ntimes 4\nt0 new r1 0\nend\nt0 clear r0\nt0 clear r1\nw0 cycle ";

/// Both pages are protected, copied and released: of 4 frames one is left for the live objects.
const BOTH: [Answer; 5] = [
    Answer::Protected {
        objects: 2,
        targets: 1,
    },
    Answer::CopiedPage { copied: 1 },
    Answer::Released { free: 2 },
    Answer::CopiedPage { copied: 1 },
    Answer::Released { free: 3 },
];

/// Returns the answers of worker 0 to steps that move objects.
fn moves(rt: &impl Abort, alloc: Global, history: &History) -> Vec<Answer> {
    let mut answers = Vec::new(alloc);
    for index in 0..history.len() {
        if let Some(found) = history.get(index) {
            let entry = found.entry();
            if matches!(
                (entry.actor, &entry.step),
                (
                    Actor::Worker(0),
                    Step::Protect(_) | Step::CopyPage(_) | Step::Release(_)
                )
            ) {
                done(rt, answers.push(entry.answer));
            }
        }
    }
    answers
}

/// A cycle that empties pages of which at most `percent` words of a hundred are live. Compares what it has moved, and
/// how many frames are free in the end.
fn cycle<R: Abort + Threads + Wait + Sync>(
    rt: &R,
    alloc: Global,
    percent: u32,
    answers: &[Answer],
    free: u32,
) {
    let text = done(rt, format!(in alloc; "{PAGES}{percent}\n"));
    let script = done(rt, parse(alloc, text.as_str().as_bytes()));
    let recorder = done(rt, Recorder::new(alloc, 1));
    let book = book_of(rt, alloc, &script, &recorder);
    let found = moves(rt, alloc, book.history());
    same(rt, found.as_slice(), answers);
    same(rt, book.heap().memory().free_frames(), free);
}

#[test]
fn pages_are_emptied(rt: HostRuntime) {
    cycle(&rt, rt.alloc(), 19, &BOTH, 3);
    cycle(&rt, rt.alloc(), 18, &[], 2);
}
