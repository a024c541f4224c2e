//! How long a thread waits for its turns, and how long others wait for it.

use model::Refusal;
use portions::{Mutator, SharedHeap};
use std::alloc::Global;
use std::sync::{RwLockWriteGuard, Wait};
use std::time::Clock;

/// Returns the nanoseconds of the clock, or 0 if it fails.
pub fn now(clock: &impl Clock) -> u64 {
    match clock.monotonic() {
        Ok(time) => u64::try_from(time.as_nanos()).unwrap_or(u64::MAX),
        Err(_) => 0,
    }
}

/// What a thread did, with its waits and holds in nanoseconds.
#[derive(Drop)]
pub struct Watch {
    /// How many steps the thread did, or cells it allocated.
    pub done: u64,
    /// Each wait for a turn: from requesting the heap to having it.
    pub waits: Vec<u64>,
    /// Each hold: how long another thread waited before a portion ended.
    pub holds: Vec<u64>,
    rests: u32,
    made: u32,
    asked: u64,
    wanted: Option<u64>,
}

impl Watch {
    /// Records that a thread requests its first turn. `rests` is that of `open`.
    pub fn new(clock: &impl Clock, alloc: Global, rests: u32) -> Watch {
        Watch {
            done: 0,
            waits: Vec::new(alloc),
            holds: Vec::new(alloc),
            rests,
            made: 0,
            asked: now(clock),
            wanted: None,
        }
    }

    /// Counts steps, or cells.
    pub fn count(&mut self, steps: u32) {
        self.done = self.done.wrapping_add(u64::from(steps));
    }

    /// Records that the thread has its turn.
    pub fn begin(&mut self, clock: &impl Clock, is_wanted: bool) -> Result<(), Refusal> {
        let begun = now(clock);
        let waited = begun.saturating_sub(self.asked);
        self.made = 0;
        self.wanted = if is_wanted { Some(begun) } else { None };
        match self.waits.push(waited) {
            Ok(()) => Ok(()),
            Err(_) => Err(Refusal::Memory),
        }
    }

    /// Records that the thread ends its turn.
    pub fn end(&mut self, clock: &impl Clock) -> Result<(), Refusal> {
        self.asked = now(clock);
        let Some(wanted) = self.wanted else {
            return Ok(());
        };
        match self.holds.push(self.asked.saturating_sub(wanted)) {
            Ok(()) => Ok(()),
            Err(_) => Err(Refusal::Memory),
        }
    }

    /// Returns whether a portion continues at a rest even if the heap is wanted. Counts the rest.
    fn is_short(&mut self) -> bool {
        let is_short = self.made < self.rests;
        self.made = self.made.saturating_add(1);
        is_short
    }

    /// Records when the heap is first wanted in this turn, and returns whether it is.
    fn is_wanted(&mut self, clock: &impl Clock, shared: &SharedHeap) -> bool {
        if self.wanted.is_none() && shared.is_wanted() {
            self.wanted = Some(now(clock));
        }
        self.wanted.is_some()
    }
}

/// Does `SharedHeap::rest`, and reads the clock when a portion ends. A thread that waits goes on waiting while
/// another one has the heap: so this sees what `rest` sees.
pub fn rest<'a, R: Wait + Clock>(
    rt: &R,
    shared: &'a SharedHeap,
    portion: RwLockWriteGuard<'a, Mutator>,
    watch: &mut Watch,
) -> Result<RwLockWriteGuard<'a, Mutator>, Refusal> {
    let is_wanted = watch.is_wanted(rt, shared);
    if watch.is_short() {
        return Ok(shared.rest(rt, portion));
    }
    if !is_wanted {
        return Ok(portion);
    }
    watch.end(rt)?;
    let portion = shared.rest(rt, portion);
    watch.begin(rt, shared.is_wanted())?;
    Ok(portion)
}
