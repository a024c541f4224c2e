//! A gate that times a cycle.

use cycle::{Actor, Step};
use script_threads::Gate;
use std::sync::atomic::{AtomicU64, Ordering};
use std::thread;
use std::time::{Clock, Instant};

/// A gate that holds worker 0 and thread 1 until thread 0 has made its lists, and records when the cycle begins and
/// when its parts have ended.
#[derive(Drop)]
pub struct Watch<'a, R> {
    clock: &'a R,
    start: Instant,
    /// How many lists there are.
    lists: u64,
    /// How many of them are made.
    made: AtomicU64,
    /// How many references threads have begun to load.
    pub beside: AtomicU64,
    /// The same when the cycle had ended.
    pub met: AtomicU64,
    /// When the mark began, when it had ended, and when the last page was released, in nanoseconds.
    pub began: AtomicU64,
    pub marked: AtomicU64,
    pub ended: AtomicU64,
}

impl<'a, R: Clock> Watch<'a, R> {
    /// Returns a gate for `lists` lists, before anything is done.
    pub fn new(clock: &'a R, start: Instant, lists: u64) -> Watch<'a, R> {
        Watch {
            clock,
            start,
            lists,
            made: AtomicU64::new(0),
            beside: AtomicU64::new(0),
            met: AtomicU64::new(0),
            began: AtomicU64::new(0),
            marked: AtomicU64::new(0),
            ended: AtomicU64::new(0),
        }
    }

    /// Returns the nanoseconds since the start; 0 if the clock can't be read.
    fn now(&self) -> u64 {
        match self.start.elapsed(self.clock) {
            Ok(took) => u64::try_from(took.as_nanos()).unwrap_or(u64::MAX),
            Err(_) => 0,
        }
    }

    /// Returns whether all lists are made.
    fn is_ready(&self) -> bool {
        self.made.load(Ordering::SeqCst) >= self.lists
    }

    /// Waits until all lists are made.
    fn wait(&self) {
        for _ in 0..u64::MAX {
            if self.is_ready() {
                return;
            }
            thread::yield_now();
        }
    }

    /// Records the current time.
    fn note(&self, time: &AtomicU64) {
        time.store(self.now(), Ordering::SeqCst);
    }
}

impl<R: Clock> Gate for Watch<'_, R> {
    const WATCHES: bool = false;

    fn before(&self, actor: Actor, step: &Step) {
        match (actor, step) {
            (Actor::Worker(0), Step::StartMark) => {
                self.wait();
                self.note(&self.began);
            }
            (Actor::Thread(1), _) => self.wait(),
            _ => {}
        }
    }

    fn after(&self, actor: Actor, step: &Step) {
        match (actor, step) {
            (Actor::Thread(0), Step::StoreGlobal { .. }) => {
                let _ = self.made.fetch_add(1, Ordering::SeqCst);
            }
            (Actor::Thread(_), Step::Load { .. }) => {
                let _ = self.beside.fetch_add(1, Ordering::SeqCst);
            }
            (Actor::Worker(0), Step::EndMark) => self.note(&self.marked),
            (Actor::Worker(0), Step::Release(_)) => {
                self.note(&self.ended);
                self.met
                    .store(self.beside.load(Ordering::SeqCst), Ordering::SeqCst);
            }
            _ => {}
        }
    }
}
