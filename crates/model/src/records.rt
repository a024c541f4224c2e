//! The records of a heap's state. Offsets and sizes count words.

ghost use Rattle.std.specs.Prelude.{◌≡◌};
ghost use Rattle.model.specs.Phases.{is_marking, is_mark_crossing, is_crossing, may_nmt_trap};
ghost use Rattle.model.specs.Tallies.{counted, blank_tally};

use refword::{Addr, Word};

/// The state of a page.
#[derive(Clone, Copy, Debug, PartialEq, Eq)]
pub enum PageState {
    /// It has no memory, and its number is free to be used.
    Unused,
    /// It has a frame, and buffers are taken in it.
    Open,
    /// It has a frame, and no buffer is taken in it any more.
    Closed,
    /// It is protected, and has a frame: its live objects are being copied out.
    From,
    /// It is protected: its objects are copied and its frame was released, before references to it are corrected. Its
    /// forwarding table stays.
    Gone,
}

/// A page's record. Pages count from 1; page n has the n-th record.
#[derive(Clone, Copy, Debug, PartialEq, Eq)]
pub struct Page {
    /// Its state.
    pub state: PageState,
    /// The number of its frame, from 0.
    pub frame: Option<u32>,
    /// How many words were given out so far: 0 to the words of a page.
    pub top: u32,
}

/// An allocation buffer: the part of a page in which a thread may still allocate.
#[derive(Clone, Copy, Debug, PartialEq, Eq)]
pub struct Buffer {
    /// The page's number, from 1.
    pub page: u32,
    /// The offset of the next object, from 0 to `end`.
    pub next: u32,
    /// The offset at which the buffer ends, at most the words of a page.
    pub end: u32,
}

/// The error of taking a buffer.
#[derive(Clone, Copy, Debug, PartialEq, Eq)]
pub enum Room {
    /// No page has space, and no frame is free.
    NoFrames,
    /// No page has space, and no page number is unused.
    NoPages,
    /// No page has space, and there is no memory for a fresh one.
    NoMemory,
}

/// The collector's phase. Remapping has none of its own: the next mark does it.
#[derive(Clone, Copy, Debug, PartialEq, Eq)]
pub enum Phase {
    /// No mark runs, and no page is protected.
    Idle,
    /// A mark has started, and some thread hasn't crossed its checkpoint.
    MarkCrossing,
    /// A mark runs, and all threads have crossed.
    Scanning,
    /// Pages are protected, and some thread hasn't crossed the checkpoint.
    ProtectCrossing,
    /// Pages are protected, and all threads have crossed.
    Relocating,
}

impl Phase {
    /// Returns whether a mark runs.
    pub fn is_marking(self) -> bool
        ensures { result ≡ is_marking self }
    {
        matches!(self, Phase::MarkCrossing | Phase::Scanning)
    }

    /// Returns whether a checkpoint is open: some thread hasn't crossed it.
    pub fn is_crossing(self) -> bool
        ensures { result ≡ is_crossing self }
    {
        matches!(self, Phase::MarkCrossing | Phase::ProtectCrossing)
    }

    /// Returns whether a thread's loads trap on references that aren't clean: a mark runs, and the thread has
    /// crossed.
    pub fn may_nmt_trap(self, crossed: bool) -> bool
        ensures { result ≡ may_nmt_trap self crossed }
    {
        match self {
            Phase::Scanning => true,
            Phase::MarkCrossing => crossed,
            _ => false,
        }
    }

    /// Returns whether a mark's checkpoint is open.
    pub fn is_mark_crossing(self) -> bool
        ensures { result ≡ is_mark_crossing self }
    {
        matches!(self, Phase::MarkCrossing)
    }
}

/// The place of a load.
#[derive(Clone, Copy, Debug, PartialEq, Eq)]
pub enum Place {
    /// A reference field, counted from 0, of the object at an address.
    Field {
        /// The object's address.
        object: Addr,
        /// The number of the field.
        index: u32,
    },
    /// The global of this number, from 0.
    Global(u32),
}

/// An open read barrier: an unfinished load.
#[derive(Clone, Copy, Debug, PartialEq, Eq)]
pub struct Barrier {
    /// The number of the register that the load is for, from 0.
    pub target: u32,
    /// The place of the load.
    pub place: Place,
    /// The reference that was loaded.
    pub raw: Word,
    /// The current reference: `raw`, or its correction by a trap.
    pub now: Word,
    /// Whether the place was healed.
    pub healed: bool,
}

/// The barrier counters of a thread. Each stops at the greatest 64-bit number, which no recorded heap reaches.
#[derive(Clone, Copy, Debug, PartialEq, Eq)]
pub struct Tally {
    /// Loads that were begun, of fields and of globals.
    pub loads: u64,
    /// GC traps: the reference led to a protected page, and was replaced with one to the copy.
    pub gc: u64,
    /// NMT traps: the running mark hadn't seen the reference, which was marked.
    pub nmt: u64,
    /// Places that were healed.
    pub healed: u64,
    /// Places that had changed, and weren't written.
    pub changed: u64,
}

/// One of the barrier counters.
#[derive(Clone, Copy, Debug, PartialEq, Eq)]
pub enum Counter {
    /// Loads that were begun.
    Loads,
    /// GC traps.
    Gc,
    /// NMT traps.
    Nmt,
    /// Places that were healed.
    Healed,
    /// Places that had changed.
    Changed,
}

impl Tally {
    /// Returns counters that are 0.
    pub fn blank() -> Tally
        ensures { result ≡ blank_tally }
    {
        Tally {
            loads: 0,
            gc: 0,
            nmt: 0,
            healed: 0,
            changed: 0,
        }
    }

    /// Increments a counter, up to the greatest 64-bit number.
    #[inline(always)]
    pub fn count(&mut self, counter: Counter)
        ensures { self.new ≡ counted counter self.old }
    {
        match counter {
            Counter::Loads if self.loads != u64::MAX => self.loads += 1,
            Counter::Loads => {}
            Counter::Gc => self.gc = self.gc.saturating_add(1),
            Counter::Nmt => self.nmt = self.nmt.saturating_add(1),
            Counter::Healed => self.healed = self.healed.saturating_add(1),
            Counter::Changed => self.changed = self.changed.saturating_add(1),
        }
    }
}

/// A worker's scan of an object.
#[derive(Clone, Copy, Debug, PartialEq, Eq)]
pub struct Scan {
    /// The object's address.
    pub object: Addr,
    /// The number of the next reference field, from 0.
    pub next: u32,
}

/// An entry of a protected page's forwarding table: one live object, and its new place.
#[derive(Clone, Copy, Debug, PartialEq, Eq)]
pub struct Forwarding {
    /// The object's offset in its page.
    pub offset: u32,
    /// Its new address.
    pub to: Addr,
    /// Whether it is copied.
    pub copied: bool,
}

/// A root that all threads share.
#[derive(Clone, Copy, Debug, PartialEq, Eq)]
pub struct Global {
    /// Its reference.
    pub word: Word,
    /// Whether it is grey: the running mark hasn't marked it yet.
    pub todo: bool,
}
