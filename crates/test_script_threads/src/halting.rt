//! A full history stops each actor before its next step, also inside a load.

use crate::recorder::reaches;
use crate::rows::book_of;
use crate::same::{done, same};
use cycle::{Actor, Step};
use parser::parse;
use script_threads::Gate;
use std::sync::atomic::{AtomicU64, Ordering};

/// Thread 0 loads; thread 1 fills the history meanwhile, and then a step of it is rejected.
const SCRIPT: &str =
    "heap words 16 frames 1 pages 1 threads 2 workers 1 registers 2 globals 0 history 6\nlayout 1 0\n\
    t0 take 16\nt0 new r0 0\nt0 get r1 r0 0\nt1 null r0\nt1 null r0\nt1 null r0\nt1 null r0\nt1 null r0\n";

/// A gate that holds thread 1 until thread 0 has begun its load, and thread 0 there until a step of thread 1 was
/// rejected.
#[derive(Drop)]
struct Meeting {
    begun: AtomicU64,
    asked: AtomicU64,
    traps: AtomicU64,
    given_up: AtomicU64,
}

impl Meeting {
    fn wait(&self, count: &AtomicU64, wanted: u64) {
        if !reaches(count, wanted) {
            self.given_up.store(1, Ordering::SeqCst);
        }
    }
}

impl Gate for Meeting {
    fn before(&self, actor: Actor, step: &Step) {
        match (actor, step) {
            (Actor::Thread(0), Step::Trap) => {
                let _ = self.traps.fetch_add(1, Ordering::SeqCst);
            }
            (Actor::Thread(1), _) => self.wait(&self.begun, 1),
            _ => {}
        }
    }

    fn after(&self, actor: Actor, step: &Step) {
        match (actor, step) {
            (Actor::Thread(0), Step::Load { .. }) => {
                self.begun.store(1, Ordering::SeqCst);
                self.wait(&self.asked, 4);
            }
            (Actor::Thread(1), _) => {
                let _ = self.asked.fetch_add(1, Ordering::SeqCst);
            }
            _ => {}
        }
    }
}

/// The history is full, no further step was begun, and no wait was given up.
#[test]
fn inside_a_load(rt: HostRuntime) {
    let script = done(&rt, parse(rt.alloc(), SCRIPT.as_bytes()));
    let meeting = Meeting {
        begun: AtomicU64::new(0),
        asked: AtomicU64::new(0),
        traps: AtomicU64::new(0),
        given_up: AtomicU64::new(0),
    };
    let book = book_of(&rt, rt.alloc(), &script, &meeting);
    same(&rt, book.history().len(), 6);
    same(&rt, meeting.asked.load(Ordering::SeqCst), 4);
    same(&rt, meeting.traps.load(Ordering::SeqCst), 0);
    same(&rt, meeting.given_up.load(Ordering::SeqCst), 0);
}
