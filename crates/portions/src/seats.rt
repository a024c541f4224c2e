//! Seats: access for actors.

ghost use Rattle.std.specs.Prelude.{◌≡◌, IfOk};
ghost use Rattle.std.specs.List.{range_with_len};

use collecting::Parts;
use std::alloc::{AllocError, Global};
use std::marker::Model;

/// The seat of a thread of the heap: whoever has it acts for that thread, and nobody else does. A seat is for the
/// heap with which it was opened.
#[derive(Drop)]
pub struct ThreadSeat {
    pub(crate) thread: u32,
}

impl Model for ThreadSeat {
    ghost use Rattle.std.specs.Prelude.{ℕ};

    ghost Value = { ℕ };

    ghost view = { λ seat. seat.thread };
}

impl ThreadSeat {
    /// Returns the number of its thread, from 0.
    pub fn thread(&self) -> u32
        ensures { result ≡ self.now }
    {
        self.thread
    }
}

/// The seat of the worker that collects, and how far its collection has come.
#[derive(Drop)]
pub struct CollectorSeat {
    pub(crate) parts: Parts,
    pub(crate) has_begun: bool,
}

impl Model for CollectorSeat {
    ghost use Rattle.collecting.specs.Stages.{PartsState};

    ghost Value = { PartsState };

    ghost view = { λ seat. seat.parts };
}

impl CollectorSeat {
    /// Has collections in parts empty at most this many pages with live objects each, as `Parts::empty_at_most`.
    pub fn empty_at_most(&mut self, pages: u32)
        ensures { self.new ≡ record self.old { most = pages } }
    {
        self.parts.empty_at_most(pages);
    }
}

/// Makes a seat for each thread of a heap, by their numbers.
pub(crate) fn thread_seats(alloc: Global, threads: u32) -> Result<Vec<ThreadSeat>, AllocError>
    ensures { IfOk result (λ seats. seats.items ≡ range_with_len 0 threads) }
{
    let mut seats = Vec::with_capacity(alloc, threads as usize)?;
    for thread in 0..threads {
        seats.push(ThreadSeat { thread })?;
    }
    Ok(seats)
}
