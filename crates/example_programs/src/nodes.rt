//! Nodes on a heap of few pages, which is collected when it is full.
//!
//! The examples call their heap by the trait `HeapCalls`, which has no contracts, so that the proofs of the loops are
//! short: the proof of a loop over a `Heap` itself would include all promises of each call.

use anyhow::Result;
use pauseless::prelude::*;
use std::alloc::Global;

/// The program's one thread.
pub const ME: Thread = Thread(0);

/// Registers: what stays live, a new node, the current node, and one of its children.
pub const ROOT: Register = Register(0);

pub const NODE: Register = Register(1);

pub const HERE: Register = Register(2);

pub const CHILD: Register = Register(3);

/// The layout of a node, with two references and one datum.
const NODES: LayoutNumber = LayoutNumber(0);

/// The datum of a node.
pub const KEY: Datum = Datum(0);

/// Allocates a node of this key. If there is no space for it, the heap is collected.
pub fn make(alloc: Global, heap: &mut impl HeapCalls, key: u64) -> Result<()> {
    heap.make(alloc, ME, NODE, NODES)?;
    Ok(heap.set_datum(ME, NODE, KEY, key)?)
}

/// Allocates nodes that are garbage at once.
pub fn waste(alloc: Global, heap: &mut impl HeapCalls, count: u64) -> Result<()> {
    for key in 0..count {
        make(alloc, heap, key)?;
    }
    Ok(())
}

/// Makes a heap of nodes: 16 frames of 512 words.
pub fn new_heap(alloc: Global) -> Result<Heap> {
    let layouts = Layouts::new(vec![in alloc; Layout { refs: 2, nums: 1 }]?);
    Ok(Heap::new(alloc, Config::new(512, 16, layouts))?)
}
