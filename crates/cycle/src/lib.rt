//! Steps of actors on a heap, and recorded heaps, which keep a history.
//!
//! # The algorithm
//!
//! The collector's work is divided into steps, each of one thread or one worker, and nothing happens between steps.
//! `docs/ALGORITHM.md` has the rules in full.
//!
//! A cycle has two halves, during both of which threads run.
//!
//! 1. **Mark** finds what is reachable. `StartMark` flips the clean NMT value, so that no reference in the heap counts
//!    as seen, and opens the first checkpoint. Each thread crosses it by itself, which marks what its registers refer
//!    to; a worker crosses for a parked one. The last crossing begins the scan: workers pick grey objects and mark
//!    what their references refer to, writing each reference back with the clean value. `EndMark` ends it when nothing
//!    is grey and no barrier is open: what is marked is live, the rest is garbage.
//! 2. **Relocate** empties pages. `Protect` protects some, plans a place for each of their live objects in a
//!    forwarding table apart from the page, and opens the second checkpoint. A thread that hasn't crossed may still
//!    use the old places; one that has crossed may not, and nothing is copied before all have crossed. Then workers
//!    copy, and so does each thread that meets an old place; `Release` frees the frame of a page whose objects are
//!    all copied, at once. References to the old places remain, and the next mark corrects them all: **Remap** is no
//!    phase of its own. Only then is the page's number free.
//!
//! The **read barrier** serves both. A thread that loads a reference requests its traps before it uses it. The GC
//! trap is due if the reference leads to a protected page: it copies the object if it isn't copied yet, and corrects
//! the reference. The NMT trap is due if a mark runs and hasn't seen the reference: it marks it. Then the thread
//! heals the place that it loaded from, if that still has what was loaded, and its register gets the reference. So a
//! thread that has crossed never has a reference in a register that the collector has yet to look at.
//!
//! | Who | Writes |
//! |---|---|
//! | a thread | its registers, its buffer with the page that it takes it from, its barrier, and whether it is parked |
//! | a thread, or a worker for a parked one | whether the thread has crossed; the last crossing moves the phase on |
//! | any thread | objects and globals, through registers that may be used; a place that it heals |
//! | who marks a reference, a thread or a worker | the reference itself, and its object's bits in `mark` and `todo` |
//! | who copies an object, a thread or a worker | its planned place, `starts` there, and the entry's flag |
//! | workers alone | all other changes of phase, the NMT value, scans, which pages are emptied, forwarding tables |
#![tactic(auto)]

mod arms;
mod book;
pub mod calls;
mod draining;
mod gate;
mod loading;
mod pages;
mod running;
mod saying;
mod stepping;

pub use book::Book;
pub use draining::{drains_end, next_drain, verdict};
pub use entries::{Entry, EntryRef, History};
pub use gate::{thread_gate, worker_gate};
pub use loading::{MOST_TRAPS, heal_is_due, is_clear, three_traps};
pub use model::{Actor, Answer, Buffer, PageList, Reply, Step, Trap};
pub use relocate::PieceGate;
pub use running::run;
pub use stepping::Stepping;
