//! Steps of one actor after another, each of which is timed.

use anyhow::Result;
use bench_support::{Lap, Laps, since};
use cycle::{Actor, Book, Reply, Step};
use heap::Heap;
use std::alloc::{AllocError, Global};
use std::io;
use std::time::{Clock, Instant};

/// The one thread of each heap.
pub const THREAD: Actor = Actor::Thread(0);

/// The one worker of each heap.
pub const WORKER: Actor = Actor::Worker(0);

/// Steps on a recorded heap.
pub trait Steps {
    /// Does a step of an actor. A rejected step changes nothing.
    fn step(&mut self, actor: Actor, step: Step) -> Reply;

    /// Returns the current heap.
    fn heap(&self) -> &Heap;

    /// Borrows the recorded heap for changes.
    fn book(&mut self) -> &mut Book;
}

impl Steps for Book {
    #[inline(always)]
    fn step(&mut self, actor: Actor, step: Step) -> Reply {
        self.act(actor, step)
    }

    #[inline(always)]
    fn heap(&self) -> &Heap {
        Book::heap(self)
    }

    fn book(&mut self) -> &mut Book {
        self
    }
}

/// Steps and reads that are timed, each under a name.
pub trait Timing {
    /// Does a step of an actor, timed; a rejected one under the name `refused`.
    fn step(&mut self, name: &'static str, actor: Actor, step: Step) -> Result<()>;

    /// Returns the instant before a read.
    fn begin(&self) -> io::Result<Instant>;

    /// Records the end of a read, or of another operation.
    fn end(&mut self, name: &'static str, start: Instant) -> Result<()>;

    /// Returns the current heap.
    fn heap(&self) -> &Heap;

    /// Borrows the recorded heap for changes.
    fn book(&mut self) -> &mut Book;
}

/// A recorded heap whose steps are timed.
#[derive(Drop)]
pub struct Timed<'a, R, B> {
    clock: &'a R,
    book: B,
    laps: Laps,
}

impl<'a, R: Clock, B: Steps + Drop> Timed<'a, R, B> {
    /// Returns a recorded heap none of whose steps were timed.
    pub fn new(clock: &'a R, alloc: Global, book: B) -> Timed<'a, R, B> {
        Timed {
            clock,
            book,
            laps: Laps::new(alloc),
        }
    }

    /// Returns all times.
    pub fn all(self) -> Result<Vec<Lap>, AllocError> {
        self.laps.all()
    }
}

impl<R: Clock, B: Steps + Drop> Timing for Timed<'_, R, B> {
    fn step(&mut self, name: &'static str, actor: Actor, step: Step) -> Result<()> {
        let start = Instant::now(self.clock)?;
        let reply = self.book.step(actor, step);
        let nanos = since(self.clock, start)?;
        let name = if reply.is_ok() { name } else { "refused" };
        Ok(self.laps.add(name, nanos)?)
    }

    fn begin(&self) -> io::Result<Instant> {
        Instant::now(self.clock)
    }

    fn end(&mut self, name: &'static str, start: Instant) -> Result<()> {
        let nanos = since(self.clock, start)?;
        Ok(self.laps.add(name, nanos)?)
    }

    fn heap(&self) -> &Heap {
        self.book.heap()
    }

    fn book(&mut self) -> &mut Book {
        self.book.book()
    }
}
