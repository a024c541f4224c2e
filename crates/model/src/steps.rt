//! Steps of actors, their answers and their errors.

ghost use Rattle.std.specs.Prelude.{◌≡◌};

use std::error::Error;
use std::fmt;
use std::marker::Model;

/// Who does a step. Threads and workers count from 0.
#[derive(Clone, Copy, Debug, PartialEq, Eq)]
pub enum Actor {
    /// A mutator thread.
    Thread(u32),
    /// A worker of the collector.
    Worker(u32),
}

/// A list of page numbers. A contract sees the list of them.
#[derive(Debug, Drop)]
pub struct PageList {
    pages: Vec<u32>,
}

impl Model for PageList {
    ghost use Rattle.std.specs.Prelude.{List, ℕ};

    ghost Value = { List ℕ };

    ghost view = { λ l. l.pages.items };
}

impl PageList {
    /// Returns the list of these pages.
    pub fn new(pages: Vec<u32>) -> PageList
        ensures { result ≡ pages.items }
    {
        PageList { pages }
    }

    /// Returns the pages in order.
    pub fn as_slice(&self) -> &[u32]
        ensures { result.now ≡ self.now }
    {
        &self.pages
    }

    /// Returns the pages as the vector from which the list was made.
    pub fn into_vec(self) -> Vec<u32>
        ensures { result.items ≡ self }
    {
        let PageList { pages } = self;
        pages
    }
}

/// An atomic action of an actor.
///
/// `target`, `object`, `source`, `left`, `right` and the numbers of `IsNull`, `ClearReg` and `Scrub` are numbers of
/// the thread's registers, from 0: `object` is the register that refers to the object. `field` and `index` count from
/// 0 within the object, references and data each; `global`, `layout`, `entry` of a forwarding table and the thread of
/// `CrossFor` count from 0, pages from 1; offsets and sizes are in words. A number out of range is the error
/// `BadIndex`.
#[derive(Debug, Drop)]
pub enum Step {
    /// Takes an allocation buffer of this number of words: 1 to the words of a page.
    Take(u32),
    /// Gives the buffer back.
    GiveBack,
    /// Allocates an object.
    New {
        target: u32,
        layout: u32,
    },
    /// Begins to load a reference field: opens a barrier.
    Load {
        target: u32,
        object: u32,
        field: u32,
    },
    /// Begins to load a global: opens a barrier.
    LoadGlobal {
        target: u32,
        global: u32,
    },
    /// Corrects or marks the reference in the barrier. An object that isn't copied yet is copied first.
    Trap,
    /// Writes the reference in the barrier to the place of the load, if the place hasn't changed.
    Heal,
    /// Writes the reference in the barrier to the register, and closes the barrier.
    Finish,
    /// Writes a register's reference to a reference field.
    Store {
        object: u32,
        field: u32,
        source: u32,
    },
    /// Writes a register's reference to a global.
    StoreGlobal {
        global: u32,
        source: u32,
    },
    /// Reads a data word.
    Datum {
        object: u32,
        index: u32,
    },
    /// Writes a data word.
    SetDatum {
        object: u32,
        index: u32,
        value: u64,
    },
    /// Compares two registers.
    Same {
        left: u32,
        right: u32,
    },
    /// Tests whether a register is null.
    IsNull(u32),
    /// Copies a register to another.
    CopyReg {
        target: u32,
        source: u32,
    },
    /// Sets a register to null.
    ClearReg(u32),
    /// Crosses the open checkpoint.
    Cross,
    /// Corrects a register that refers to a protected page.
    Scrub(u32),
    /// Parks the thread, which may then do nothing but `Unpark`.
    Park,
    /// Lets the thread run again.
    Unpark,
    /// Starts a mark.
    StartMark,
    /// Takes a grey object to scan.
    Pick {
        page: u32,
        offset: u32,
    },
    /// Marks the next reference field of the worker's object and writes it back corrected, or ends the object's scan.
    ScanField,
    /// Marks a global, and writes it back corrected.
    ScanGlobal(u32),
    /// Ends the mark: marked objects are live, and protected pages become unused, as no reference to them is left.
    EndMark,
    /// Protects closed pages, and plans the places of their live objects.
    Protect(PageList),
    /// Copies an object of a protected page. All threads must have crossed.
    Copy {
        page: u32,
        entry: u32,
    },
    /// Copies all objects of a protected page that aren't copied yet, as `Copy` of each does.
    CopyPage(u32),
    /// Releases a protected page: its frame becomes free.
    Release(u32),
    /// Crosses the open checkpoint for a parked thread.
    CrossFor(u32),
}

/// The answer to an accepted step.
#[derive(Clone, Copy, Debug, PartialEq, Eq)]
pub enum Answer {
    /// The place of a lent buffer: a page's number, and an offset in words.
    Lent { page: u32, offset: u32 },
    /// The object's birth number: how many were born before it.
    Birth(u64),
    /// A barrier was opened.
    Loaded,
    /// The reference was replaced with one to the copy, or the register was.
    Moved,
    /// The reference was marked.
    Marked,
    /// No trap was due.
    Clear,
    /// The place of the load was written.
    Healed,
    /// The place of the load had changed, and wasn't written.
    Changed,
    /// The register didn't need a correction.
    Clean,
    /// A field was scanned.
    Scanned,
    /// The object was scanned completely.
    Finished,
    /// It is done.
    Done,
    /// A data word.
    Datum(u64),
    /// The result of a test.
    Truth(bool),
    /// The new place of the object that was copied.
    MovedTo { page: u32, offset: u32 },
    /// How many objects of a page were copied.
    CopiedPage { copied: u64 },
    /// A mark ended: the numbers of live objects, and of pages that became unused.
    Ended { live: u64, retired: u64 },
    /// Pages were protected: the numbers of objects that move, and of targets.
    Protected { objects: u64, targets: u64 },
    /// A page was released: the number of free frames.
    Released { free: u64 },
}

/// The result of a thread's trap: `Moved`, `Marked` or `Clear` of `Answer`, as the value of a call.
#[derive(Clone, Copy, Debug, PartialEq, Eq)]
pub enum Trap {
    /// The reference was replaced with one to the copy.
    Moved,
    /// The reference was marked.
    Marked,
    /// No trap was due.
    Clear,
}

/// The error of a rejected step, which changes nothing. Its text is its name, then its numbers, each after a space:
/// `NoFrames 1 0`.
#[derive(Clone, Copy, Debug, PartialEq, Eq)]
pub enum Refusal {
    /// There is no such actor, or it does no such step.
    NoActor,
    /// A number in the step is out of range.
    BadIndex,
    /// The thread is parked.
    Parked,
    /// The thread isn't parked.
    NotParked,
    /// A barrier is open, or it can't go on yet: a trap is due, or its place isn't healed.
    Busy,
    /// No barrier is open.
    NotBusy,
    /// A register is null.
    Null,
    /// A reference leads to a protected page whose objects can't be copied yet.
    Stall,
    /// A register refers to a protected page.
    Stale,
    /// There is no buffer, or it has too few words left.
    NoRoom,
    /// The thread already has a buffer.
    HasBuffer,
    /// There are fewer free frames than are needed.
    NoFrames { need: u64, free: u64 },
    /// There are fewer unused pages than are needed.
    NoPages,
    /// The step is impossible in the collector's phase.
    Phase,
    /// The thread has already crossed.
    AlreadyCrossed,
    /// This thread hasn't crossed.
    NotCrossed { thread: u32 },
    /// Nothing grey is there.
    NotTodo,
    /// A worker has the object, or already has another one.
    Taken,
    /// Something is still grey.
    TodoLeft,
    /// This thread's barrier is open.
    Pending { thread: u32 },
    /// This page isn't closed.
    Unripe { page: u32 },
    /// An object of this page isn't copied.
    Uncopied { page: u32 },
    /// The object is already copied.
    Copied,
    /// A buffer of this page is lent.
    Lent { page: u32 },
    /// No more objects may be born.
    Births,
    /// The history is full.
    HistoryFull,
    /// Out of memory.
    Memory,
}

impl fmt::Display for Refusal {
    ghost use Rattle.std.specs.Prelude.{Some};
    ghost use Rattle.model.specs.Texts.{refusal_text};

    ghost output = { λ r. Some (refusal_text r) };

    fn fmt<W: fmt::Write>(&self, f: &mut fmt::Formatter<W>) -> fmt::Result {
        match *self {
            Refusal::NoActor => f.write_str("NoActor"),
            Refusal::BadIndex => f.write_str("BadIndex"),
            Refusal::Parked => f.write_str("Parked"),
            Refusal::NotParked => f.write_str("NotParked"),
            Refusal::Busy => f.write_str("Busy"),
            Refusal::NotBusy => f.write_str("NotBusy"),
            Refusal::Null => f.write_str("Null"),
            Refusal::Stall => f.write_str("Stall"),
            Refusal::Stale => f.write_str("Stale"),
            Refusal::NoRoom => f.write_str("NoRoom"),
            Refusal::HasBuffer => f.write_str("HasBuffer"),
            Refusal::NoFrames { need, free } => write!(f, "NoFrames {need} {free}"),
            Refusal::NoPages => f.write_str("NoPages"),
            Refusal::Phase => f.write_str("Phase"),
            Refusal::AlreadyCrossed => f.write_str("AlreadyCrossed"),
            Refusal::NotCrossed { thread } => write!(f, "NotCrossed {thread}"),
            Refusal::NotTodo => f.write_str("NotTodo"),
            Refusal::Taken => f.write_str("Taken"),
            Refusal::TodoLeft => f.write_str("TodoLeft"),
            Refusal::Pending { thread } => write!(f, "Pending {thread}"),
            Refusal::Unripe { page } => write!(f, "Unripe {page}"),
            Refusal::Uncopied { page } => write!(f, "Uncopied {page}"),
            Refusal::Copied => f.write_str("Copied"),
            Refusal::Lent { page } => write!(f, "Lent {page}"),
            Refusal::Births => f.write_str("Births"),
            Refusal::HistoryFull => f.write_str("HistoryFull"),
            Refusal::Memory => f.write_str("Memory"),
        }
    }
}

impl Error for Refusal {}

/// The answer to a step, or its error.
pub type Reply = Result<Answer, Refusal>;
