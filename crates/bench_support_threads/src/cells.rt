//! The operations of the benches on a heap: the same on a shared heap, on a thread's own, and on a plain one.

use collecting::Policy;
use model::Refusal;
use portions::{Mutator, MutatorCalls};
use std::alloc::Global;

/// How many numbers are incremented between two rests.
const TURNS: u32 = 20;

/// The steps of a turn, each of which increments a number: a load, a read and a write for each.
pub const STEPS: u32 = 60;

/// The greatest number of cells of a list.
pub const LENGTH: u32 = 1_000;

/// The steps that put a cell in front of a list.
pub const PUSH_STEPS: u32 = 4;

/// The layout of cells.
pub const CELL: u32 = 0;

/// Buffers of a page. A thread collects only if few frames are free, so it mostly leaves that to the collector.
pub const POLICY: Policy = Policy {
    words: 1_024,
    free: 8,
    percent: 75,
};

/// A heap of cells, each with a reference and a number, for one of its threads. Registers are numbers from 0.
pub trait Cells {
    /// Allocates a cell in a register.
    fn new_cell(&mut self, alloc: Global, target: u32) -> Result<(), Refusal>;

    /// Loads a cell's reference.
    fn follow(&mut self, target: u32, cell: u32) -> Result<(), Refusal>;

    /// Stores a cell's reference.
    fn link(&mut self, cell: u32, next: u32) -> Result<(), Refusal>;

    /// Reads a cell's number.
    fn number(&self, cell: u32) -> Result<u64, Refusal>;

    /// Writes a cell's number.
    fn set_number(&mut self, cell: u32, number: u64) -> Result<(), Refusal>;

    /// Copies a register.
    fn keep(&mut self, target: u32, source: u32) -> Result<(), Refusal>;

    /// Makes a register null.
    fn clear(&mut self, register: u32) -> Result<(), Refusal>;
}

impl Cells for Mutator {
    #[inline(always)]
    fn new_cell(&mut self, alloc: Global, target: u32) -> Result<(), Refusal> {
        self.make(alloc, POLICY, target, CELL)?;
        Ok(())
    }

    #[inline(always)]
    fn follow(&mut self, target: u32, cell: u32) -> Result<(), Refusal> {
        self.read(target, cell, 0)
    }

    #[inline(always)]
    fn link(&mut self, cell: u32, next: u32) -> Result<(), Refusal> {
        self.store(cell, 0, next)
    }

    #[inline(always)]
    fn number(&self, cell: u32) -> Result<u64, Refusal> {
        self.datum(cell, 0)
    }

    #[inline(always)]
    fn set_number(&mut self, cell: u32, number: u64) -> Result<(), Refusal> {
        self.set_datum(cell, 0, number)
    }

    #[inline(always)]
    fn keep(&mut self, target: u32, source: u32) -> Result<(), Refusal> {
        self.copy_register(target, source)
    }

    #[inline(always)]
    fn clear(&mut self, register: u32) -> Result<(), Refusal> {
        self.clear_register(register)
    }
}

/// Allocates a cell in register 0 that refers to itself.
pub fn prepare(alloc: Global, cells: &mut impl Cells) -> Result<(), Refusal> {
    cells.new_cell(alloc, 0)?;
    cells.link(0, 0)
}

/// Loads that cell's reference, and adds 1 to its number, `TURNS` times: `STEPS` steps.
pub fn turn(cells: &mut impl Cells) -> Result<(), Refusal> {
    for _ in 0..TURNS {
        cells.follow(1, 0)?;
        let number = cells.number(1)?;
        cells.set_number(1, number.wrapping_add(1))?;
    }
    Ok(())
}

/// Puts a cell in front of the list in register 2, by `PUSH_STEPS` steps.
pub fn push(alloc: Global, cells: &mut impl Cells, number: u64) -> Result<(), Refusal> {
    cells.new_cell(alloc, 3)?;
    cells.set_number(3, number)?;
    cells.link(3, 2)?;
    cells.keep(2, 3)
}

/// Does a turn, and adds a cell to the list in register 2, which begins anew after `LENGTH` cells.
pub fn turn_and_push(alloc: Global, cells: &mut impl Cells, place: u32) -> Result<(), Refusal> {
    turn(cells)?;
    if place % LENGTH == 0 {
        cells.clear(2)?;
    }
    push(alloc, cells, u64::from(place % LENGTH))
}
