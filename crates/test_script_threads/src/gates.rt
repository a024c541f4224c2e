//! Two actors that run in parallel: a gate holds each until the other has come to a step.

use crate::rows::book_of;
use crate::same::{done, same};
use cycle::{Actor, Answer, History, Step};
use parser::parse;
use script_threads::Gate;
use std::sync::atomic::{AtomicU64, Ordering};
use std::thread;

const SCRIPT: &str =
    "heap words 16 frames 1 pages 1 threads 2 workers 1 registers 2 globals 1\nlayout 1 1\nt0 take 16\n\
    t0 new r0 0\nt0 storeg 0 r0\nt0 load r1 r0 0\nt0 trap\nt0 heal\nt0 finish\nt1 getg r0 0\n\
    t1 store r0 0 r0\n";

/// Which steps were done so far, and whether a wait was given up.
#[derive(Drop)]
struct Meeting {
    published: AtomicU64,
    before_heal: AtomicU64,
    stored: AtomicU64,
    given_up: AtomicU64,
}

impl Meeting {
    fn wait(&self, flag: &AtomicU64) {
        for _ in 0..1_000_000u32 {
            if flag.load(Ordering::SeqCst) > 0 {
                return;
            }
            thread::yield_now();
        }
        self.given_up.store(1, Ordering::SeqCst);
    }
}

impl Gate for Meeting {
    fn before(&self, actor: Actor, step: &Step) {
        match (actor, step) {
            (Actor::Thread(0), Step::Heal) => {
                self.before_heal.store(1, Ordering::SeqCst);
                self.wait(&self.stored);
            }
            (Actor::Thread(1), Step::Store { .. }) => self.wait(&self.before_heal),
            (Actor::Thread(1), Step::LoadGlobal { .. }) => self.wait(&self.published),
            _ => {}
        }
    }

    fn after(&self, actor: Actor, step: &Step) {
        match (actor, step) {
            (Actor::Thread(0), Step::StoreGlobal { .. }) => {
                self.published.store(1, Ordering::SeqCst);
            }
            (Actor::Thread(1), Step::Store { .. }) => self.stored.store(1, Ordering::SeqCst),
            _ => {}
        }
    }
}

/// Returns the answer to the first `Heal` of a history.
fn healed(history: &History) -> Option<Answer> {
    for index in 0..history.len() {
        if let Some(found) = history.get(index) {
            let entry = found.entry();
            if matches!(entry.step, Step::Heal) {
                return Some(entry.answer);
            }
        }
    }
    None
}

#[test]
fn two_at_once(rt: HostRuntime) {
    let script = done(&rt, parse(rt.alloc(), SCRIPT.as_bytes()));
    let meeting = Meeting {
        published: AtomicU64::new(0),
        before_heal: AtomicU64::new(0),
        stored: AtomicU64::new(0),
        given_up: AtomicU64::new(0),
    };
    let book = book_of(&rt, rt.alloc(), &script, &meeting);
    same(&rt, meeting.given_up.load(Ordering::SeqCst), 0);
    same(&rt, healed(book.history()), Some(Answer::Changed));
}
