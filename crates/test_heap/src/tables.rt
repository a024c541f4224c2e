//! A heap with many objects on two levels: a table of tables, whose objects refer to others, and these to the first
//! table.

use cycle::Stepping;
use drains::{drain, is_ready};
use heap::Heap;
use layout::{Layout, Layouts};
use model::{Actor, Config, Refusal, Reply, Step};
use std::alloc::{AllocError, Global};
use std::thread::Threads;
use waves::drain_by;

/// The tables: as many as it takes for a wave.
pub const TABLES: u32 = 64;

/// The objects of each, as many as those that they refer to.
pub const PLACES: u32 = 256;

/// The objects of all tables.
pub const LEVEL: u64 = TABLES as u64 * PLACES as u64;

/// The words of a page.
const WORDS: u32 = 4096;

/// Registers: the first table, another, an object of it, and the one that this refers to.
const FIRST: u32 = 0;

const TABLE: u32 = 1;

const OBJECT: u32 = 2;

const LAST: u32 = 3;

/// A heap that is marked by one thread or on several. The calls have no contracts.
pub trait Marked: Stepping {
    /// Begins a mark, and the thread crosses.
    fn begin(&mut self) -> Result<(), Refusal>;

    /// Drains by one thread, if the worker is ready. Returns how many objects were scanned.
    fn drained(&mut self, most: u64) -> u64;

    /// Ends the mark.
    fn end(&mut self) -> Result<(), Refusal>;

    /// Returns the heap, to be read.
    fn look(&self) -> &Heap;

    /// Returns the heap.
    fn heap_mut(&mut self) -> &mut Heap;
}

impl Marked for Heap {
    fn begin(&mut self) -> Result<(), Refusal> {
        self.step(Actor::Worker(0), &Step::StartMark)?;
        self.step(Actor::Thread(0), &Step::Cross)?;
        Ok(())
    }

    fn drained(&mut self, most: u64) -> u64 {
        if is_ready(self, 0) {
            drain(self, 0, most)
        } else {
            0
        }
    }

    fn end(&mut self) -> Result<(), Refusal> {
        self.step(Actor::Worker(0), &Step::EndMark)?;
        Ok(())
    }

    fn look(&self) -> &Heap {
        self
    }

    fn heap_mut(&mut self) -> &mut Heap {
        self
    }
}

/// Drains on a number of threads, if the worker is ready. Returns how many objects were scanned.
pub fn waved<R: Threads + Sync>(rt: &R, heap: &mut Heap, most: u64, threads: u32) -> u64 {
    if is_ready(heap, 0) {
        drain_by(rt, heap, 0, most, threads)
    } else {
        0
    }
}

/// Returns the configuration: objects of one reference, and tables of 64 and of 256.
pub fn config(alloc: Global) -> Result<Config, AllocError> {
    let layouts = vec![in alloc;
        Layout { refs: 1, nums: 0 },
        Layout { refs: 64, nums: 0 },
        Layout { refs: 256, nums: 0 },
    ]?;
    Ok(Config::new(WORDS, 32, Layouts::new(layouts)))
}

/// Does a step of the thread.
fn step(heap: &mut impl Marked, step: Step) -> Reply {
    heap.step(Actor::Thread(0), &step)
}

/// Makes an object, in a new buffer if the present one is full.
fn make(heap: &mut impl Marked, target: u32, layout: u32) -> Result<(), Refusal> {
    if step(heap, Step::New { target, layout }).is_ok() {
        return Ok(());
    }
    let _none = step(heap, Step::GiveBack);
    step(heap, Step::Take(WORDS))?;
    step(heap, Step::New { target, layout })?;
    Ok(())
}

/// Stores a register's reference in an object.
fn store(heap: &mut impl Marked, object: u32, field: u32, source: u32) -> Result<(), Refusal> {
    let store = Step::Store {
        object,
        field,
        source,
    };
    step(heap, store)?;
    Ok(())
}

/// Makes a table of objects, and the objects that they refer to.
fn fill_table(heap: &mut impl Marked) -> Result<(), Refusal> {
    make(heap, TABLE, 2)?;
    for place in 0..PLACES {
        make(heap, LAST, 0)?;
        store(heap, LAST, 0, FIRST)?;
        make(heap, OBJECT, 0)?;
        store(heap, OBJECT, 0, LAST)?;
        store(heap, TABLE, place, OBJECT)?;
    }
    Ok(())
}

/// Makes all tables. The first one is in global 0.
pub fn fill(heap: &mut impl Marked) -> Result<(), Refusal> {
    make(heap, FIRST, 1)?;
    for place in 0..TABLES {
        fill_table(heap)?;
        store(heap, FIRST, place, TABLE)?;
    }
    let (global, source) = (0, FIRST);
    step(heap, Step::StoreGlobal { global, source })?;
    for register in 0..4 {
        step(heap, Step::ClearReg(register))?;
    }
    Ok(())
}
