//! A heap that only one thread uses.

use bench_support_threads::{CELL, Cells, POLICY};
use collecting::Collect;
use managed::{ManagedHeap, Mutate};
use model::Refusal;
use std::alloc::Global;

/// A heap on which thread 0 does all steps.
#[derive(Drop)]
pub struct Own {
    pub heap: ManagedHeap,
}

impl Cells for Own {
    #[inline(always)]
    fn new_cell(&mut self, alloc: Global, target: u32) -> Result<(), Refusal> {
        self.heap.make(alloc, POLICY, 0, target, CELL)?;
        Ok(())
    }

    #[inline(always)]
    fn follow(&mut self, target: u32, cell: u32) -> Result<(), Refusal> {
        self.heap.read(0, target, cell, 0)
    }

    #[inline(always)]
    fn link(&mut self, cell: u32, next: u32) -> Result<(), Refusal> {
        self.heap.store(0, cell, 0, next)
    }

    #[inline(always)]
    fn number(&self, cell: u32) -> Result<u64, Refusal> {
        self.heap.datum(0, cell, 0)
    }

    #[inline(always)]
    fn set_number(&mut self, cell: u32, number: u64) -> Result<(), Refusal> {
        self.heap.set_datum(0, cell, 0, number)
    }

    #[inline(always)]
    fn keep(&mut self, target: u32, source: u32) -> Result<(), Refusal> {
        self.heap.copy_register(0, target, source)
    }

    #[inline(always)]
    fn clear(&mut self, register: u32) -> Result<(), Refusal> {
        self.heap.clear_register(0, register)
    }
}
