//! A plain heap: cells in a list that is never collected, for comparison.

use bench_support_threads::Cells;
use model::Refusal;
use std::alloc::{AllocError, Global};

/// How many places there are. A place is reused after all others: by then its list is dropped.
const SIZE: usize = 4_096;

/// No place.
const NOWHERE: usize = usize::MAX;

/// A cell, and the place of the cell to which it refers.
#[derive(Clone, Copy)]
struct Cell {
    next: usize,
    number: u64,
}

/// A thread's cells and its four registers. The first cell stays in its place.
#[derive(Drop)]
pub struct Plain {
    cells: Vec<Cell>,
    fresh: usize,
    registers: [usize; 4],
}

impl Plain {
    /// Returns a heap without cells.
    pub fn new(alloc: Global) -> Result<Plain, AllocError> {
        let empty = Cell {
            next: NOWHERE,
            number: 0,
        };
        Ok(Plain {
            cells: vec![in alloc; empty; SIZE]?,
            fresh: 0,
            registers: [NOWHERE; 4],
        })
    }

    /// Returns the place to which a register refers.
    #[inline(always)]
    fn place(&self, register: u32) -> Result<usize, Refusal> {
        match self.registers.get(register as usize) {
            Some(place) => Ok(*place),
            None => Err(Refusal::BadIndex),
        }
    }

    /// Lets a register refer to a place.
    #[inline(always)]
    fn name(&mut self, register: u32, place: usize) -> Result<(), Refusal> {
        match self.registers.get_mut(register as usize) {
            Some(named) => {
                *named = place;
                Ok(())
            }
            None => Err(Refusal::BadIndex),
        }
    }

    /// Returns the cell to which a register refers.
    #[inline(always)]
    fn cell(&self, register: u32) -> Result<Cell, Refusal> {
        match self.cells.get(self.place(register)?) {
            Some(cell) => Ok(*cell),
            None => Err(Refusal::Null),
        }
    }

    /// Writes the cell to which a register refers.
    #[inline(always)]
    fn write(&mut self, register: u32, cell: Cell) -> Result<(), Refusal> {
        let place = self.place(register)?;
        match self.cells.get_mut(place) {
            Some(written) => {
                *written = cell;
                Ok(())
            }
            None => Err(Refusal::Null),
        }
    }
}

impl Cells for Plain {
    #[inline(always)]
    fn new_cell(&mut self, _alloc: Global, target: u32) -> Result<(), Refusal> {
        let place = self.fresh;
        self.fresh = if place < SIZE - 1 { place + 1 } else { 1 };
        self.name(target, place)?;
        let empty = Cell {
            next: NOWHERE,
            number: 0,
        };
        self.write(target, empty)
    }

    #[inline(always)]
    fn follow(&mut self, target: u32, cell: u32) -> Result<(), Refusal> {
        let next = self.cell(cell)?.next;
        self.name(target, next)
    }

    #[inline(always)]
    fn link(&mut self, cell: u32, next: u32) -> Result<(), Refusal> {
        let next = self.place(next)?;
        let number = self.cell(cell)?.number;
        self.write(cell, Cell { next, number })
    }

    #[inline(always)]
    fn number(&self, cell: u32) -> Result<u64, Refusal> {
        Ok(self.cell(cell)?.number)
    }

    #[inline(always)]
    fn set_number(&mut self, cell: u32, number: u64) -> Result<(), Refusal> {
        let next = self.cell(cell)?.next;
        self.write(cell, Cell { next, number })
    }

    #[inline(always)]
    fn keep(&mut self, target: u32, source: u32) -> Result<(), Refusal> {
        let place = self.place(source)?;
        self.name(target, place)
    }

    #[inline(always)]
    fn clear(&mut self, register: u32) -> Result<(), Refusal> {
        self.name(register, NOWHERE)
    }
}
