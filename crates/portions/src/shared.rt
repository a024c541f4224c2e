//! A heap under a lock.

ghost use Rattle.std.specs.Prelude.{◌≡◌};
ghost use Rattle.std.specs.Fn.{FnOnceReturnsAtMut, FnOnceTakesAtMut};
ghost use Rattle.std.specs.Sync.RwLock.{read_guard_value, write_guard_value};
ghost use Rattle.managed.specs.Managing.{Promises};
ghost use Rattle.portions.specs.Portions.{Begins, HoldsInPortion, MutatorState, Rests};

use crate::mutator::Mutator;
use crate::pace::Pace;
use crate::seats::ThreadSeat;
use managed::ManagedHeap;
use std::sync::atomic::{AtomicBool, AtomicU64, Ordering};
use std::sync::{RwLock, RwLockReadGuard, RwLockWriteGuard, Wait};
use std::thread;

/// How often a thread that ends its portion yields, at most, until another thread has the heap.
const MOST_YIELDS: u32 = 1000;

/// A heap that system threads share: one of them has it at a time, for a portion of many steps.
#[derive(Drop)]
pub struct SharedHeap {
    desk: RwLock<Mutator>,
    wanted: AtomicU64,
    closed: AtomicBool,
    pub(crate) pace: Pace,
    rests: u32,
}

impl SharedHeap {
    /// Makes a shared heap, of which a portion lasts for at least `rests` rests while others want it.
    pub(crate) fn with_mutator(mutator: Mutator, rests: u32) -> SharedHeap {
        SharedHeap {
            desk: RwLock::new(mutator),
            wanted: AtomicU64::new(0),
            closed: AtomicBool::new(false),
            pace: Pace::new(),
            rests,
        }
    }

    /// Returns the heap, which is no longer shared.
    pub fn into_heap(self) -> ManagedHeap
        ensures { Promises result }
    {
        let heap = self.desk.into_inner().into_heap();
        heap.law();
        heap
    }

    /// Returns whether a thread waits for the heap.
    pub fn is_wanted(&self) -> bool {
        self.wanted.load(Ordering::SeqCst) > 0
    }

    /// Ends `run_collector` after the part that it does.
    pub fn close(&self) {
        self.closed.store(true, Ordering::SeqCst);
    }

    /// Returns whether `close` was called.
    pub fn is_closed(&self) -> bool {
        self.closed.load(Ordering::SeqCst)
    }

    /// Takes the lock; meanwhile the heap is wanted.
    pub(crate) fn hold<'a, R: Wait>(&'a self, rt: &R) -> RwLockWriteGuard<'a, Mutator> {
        let _ = self.wanted.fetch_add(1, Ordering::SeqCst);
        let desk = self.desk.write(rt);
        let _ = self.wanted.fetch_sub(1, Ordering::SeqCst);
        desk
    }

    /// Waits until no portion is open, and returns the heap for reading: `Mutator::view` reads all of it. Threads
    /// that read have the heap at the same time, and no portion begins until all their guards are dropped. Never
    /// call this in a portion, and never wait for another thread while reading.
    pub fn read<'a, R: Wait>(&'a self, rt: &R) -> RwLockReadGuard<'a, Mutator>
        ensures { HoldsInPortion (read_guard_value result) }
    {
        let _ = self.wanted.fetch_add(1, Ordering::SeqCst);
        let desk = self.desk.read(rt);
        let _ = self.wanted.fetch_sub(1, Ordering::SeqCst);
        desk.law();
        desk
    }

    /// Begins a portion of a seat's thread, after waiting until the heap is free. The portion ends by `leave`, or
    /// when the guard is dropped. Never wait for another thread in a portion.
    pub fn enter<'a, R: Wait>(
        &'a self,
        rt: &R,
        seat: &'a mut ThreadSeat,
    ) -> RwLockWriteGuard<'a, Mutator>
        ensures begins { Begins seat.old (write_guard_value result) }
        ensures holds { HoldsInPortion (write_guard_value result) }
    {
        self.begin(rt, seat.thread)
    }

    /// Begins a portion of a thread.
    fn begin<'a, R: Wait>(&'a self, rt: &R, thread: u32) -> RwLockWriteGuard<'a, Mutator>
        ensures begins { Begins thread (write_guard_value result) }
        ensures holds { HoldsInPortion (write_guard_value result) }
    {
        let mut desk = self.hold(rt);
        desk.begin(thread);
        desk.law();
        desk
    }

    /// A safepoint. If another thread waits for the heap, and the portion has lasted for the `rests` of `open`, the
    /// portion ends, others get the heap, and another portion of the same thread begins. So it does if few frames
    /// are free while a collector's thread runs: the thread then waits until that has freed some. Otherwise the
    /// portion continues.
    pub fn rest<'a, R: Wait>(
        &'a self,
        rt: &R,
        portion: RwLockWriteGuard<'a, Mutator>,
    ) -> RwLockWriteGuard<'a, Mutator>
        ensures { Rests (write_guard_value portion.entry) (write_guard_value result) }
    {
        let mut portion = portion;
        if portion.rests() < self.rests {
            return portion;
        }
        let is_low = self.pace.is_due(portion.free_frames());
        if !is_low && !self.is_wanted() {
            return portion;
        }
        self.hand_on(rt, portion, is_low)
    }

    /// Ends a portion, lets others have the heap, or the collector if frames are low, and begins another portion of
    /// the same thread.
    fn hand_on<'a, R: Wait>(
        &'a self,
        rt: &R,
        portion: RwLockWriteGuard<'a, Mutator>,
        is_low: bool,
    ) -> RwLockWriteGuard<'a, Mutator>
        ensures begins { Begins (write_guard_value portion.entry).thread (write_guard_value result) }
        ensures holds { HoldsInPortion (write_guard_value result) }
    {
        let thread = portion.thread();
        let free = portion.free_frames();
        SharedHeap::leave(portion);
        if is_low {
            self.pace.note_free(free);
            self.pace.wait();
        } else {
            self.give_way();
        }
        self.begin(rt, thread)
    }

    /// Yields until a waiting thread has the heap, or up to 1,000 times.
    pub(crate) fn give_way(&self) {
        for _ in 0..MOST_YIELDS {
            if !self.is_wanted() {
                return;
            }
            thread::yield_now();
        }
    }

    /// Ends a portion: its thread is parked, and others may have the heap. Dropping the guard does the same, but the
    /// thread is parked only when the next portion begins.
    pub fn leave(portion: RwLockWriteGuard<'_, Mutator>) {
        let mut desk = portion;
        desk.leave();
    }

    /// Runs `f` in a portion of a seat's thread.
    pub fn with<R: Wait, T, F: FnOnce(&mut Mutator) -> T>(
        &self,
        rt: &R,
        seat: &mut ThreadSeat,
        f: F,
    ) -> T
        requires { (m : MutatorState) → Begins seat.old m → HoldsInPortion m → FnOnceTakesAtMut F.FnOnce f m }
        ensures did { (m n : MutatorState) × Begins seat.old m × HoldsInPortion m × HoldsInPortion n
            × FnOnceReturnsAtMut F.FnOnce f m result n }
        ensures seat { seat.new ≡ seat.old }
    {
        let mut desk = self.hold(rt);
        run(&mut desk, seat.thread, f)
    }
}

/// Runs `f` in a portion of a borrowed mutator.
fn run<T, F: FnOnce(&mut Mutator) -> T>(mutator: &mut Mutator, thread: u32, f: F) -> T
    requires { (m : MutatorState) → Begins thread m → HoldsInPortion m → FnOnceTakesAtMut F.FnOnce f m }
    ensures { (m n : MutatorState) × Begins thread m × HoldsInPortion m × HoldsInPortion n
        × FnOnceReturnsAtMut F.FnOnce f m result n }
{
    mutator.begin(thread);
    mutator.law();
    let result = f(mutator);
    mutator.law();
    mutator.leave();
    result
}
