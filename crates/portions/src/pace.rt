//! How threads yield to the collector's thread when few frames are free.

use std::sync::atomic::{AtomicU64, Ordering};
use std::thread;

/// How often a thread that waits for the collector yields at most.
const MOST_YIELDS: u32 = 100_000;

/// The state of the collector's thread that threads read without having the heap.
#[derive(Drop)]
pub(crate) struct Pace {
    /// A thread that rests waits if fewer frames are free; 0 if no collector's thread runs.
    reserve: AtomicU64,
    /// How many frames were free after the last part, or when a thread began to wait.
    free: AtomicU64,
    /// How many frames the running collection has freed.
    freed: AtomicU64,
    /// How many collections have ended.
    ended: AtomicU64,
}

impl Pace {
    /// Makes the state in which no collector's thread runs.
    pub(crate) fn new() -> Pace {
        Pace {
            reserve: AtomicU64::new(0),
            free: AtomicU64::new(0),
            freed: AtomicU64::new(0),
            ended: AtomicU64::new(0),
        }
    }

    /// Sets the reserve to a quarter of the free frames at which a collection begins.
    pub(crate) fn begin(&self, free: u32) {
        self.reserve.store(u64::from(free / 4), Ordering::SeqCst);
    }

    /// Records that the collector's thread has ended, or is out of memory: nobody waits for it until another
    /// collection has ended.
    pub(crate) fn end(&self) {
        self.reserve.store(0, Ordering::SeqCst);
        let _ = self.ended.fetch_add(1, Ordering::SeqCst);
    }

    /// Records how many frames are free, before a thread waits.
    pub(crate) fn note_free(&self, free: u32) {
        self.free.store(u64::from(free), Ordering::SeqCst);
    }

    /// Records how many frames were free before a part, and are after it.
    pub(crate) fn note_part(&self, before: u32, after: u32) {
        self.note_free(after);
        let freed = u64::from(after.saturating_sub(before));
        let _ = self.freed.fetch_add(freed, Ordering::SeqCst);
    }

    /// Records that a collection has ended, which began when `free` frames were free. If it has freed little,
    /// threads wait only when fewer frames are free than half of that, as another collection would free no more.
    pub(crate) fn note_end(&self, free: u32) {
        let freed = self.freed.swap(0, Ordering::SeqCst);
        let reserve = (freed / 2).min(u64::from(free / 4));
        self.reserve.store(reserve, Ordering::SeqCst);
        let _ = self.ended.fetch_add(1, Ordering::SeqCst);
    }

    /// Returns whether a thread that rests waits, if `free` frames are free.
    pub(crate) fn is_due(&self, free: u32) -> bool {
        u64::from(free) < self.reserve.load(Ordering::SeqCst)
    }

    /// Yields until the collector has freed enough frames, or a collection has ended, or 100,000 times.
    pub(crate) fn wait(&self) {
        let ended = self.ended.load(Ordering::SeqCst);
        for _ in 0..MOST_YIELDS {
            let is_free = self.free.load(Ordering::SeqCst) >= self.reserve.load(Ordering::SeqCst);
            if is_free || self.ended.load(Ordering::SeqCst) != ended {
                return;
            }
            thread::yield_now();
        }
    }
}
