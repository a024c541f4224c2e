//! Making trees, by steps. Their nodes have layout 1, of two references.

use crate::asking::{Steps, THREAD};
use crate::mixes::WORDS;
use cycle::{Reply, Step};
use heap::Refusal;

/// The layout of a node.
const BRANCH: u32 = 1;

/// The register of a new node.
const NEW: u32 = 15;

/// The register of the tree to which the last leaf was added. Each lower register has a complete tree with as many
/// levels above its leaves as the register's number, or null.
const TREE: u32 = 14;

/// The levels of a tree above its leaves.
const LEVELS: u32 = 13;

/// The leaves of a tree: 2^LEVELS.
const LEAVES: u32 = 8_192;

/// The registers of a thread.
const REGISTERS: u32 = 16;

/// Does a step of the thread.
#[inline(always)]
fn step(heap: &mut impl Steps, step: Step) -> Reply {
    heap.step(THREAD, step)
}

/// Allocates a node.
fn new_node(heap: &mut impl Steps) -> Reply {
    let (target, layout) = (NEW, BRANCH);
    step(heap, Step::New { target, layout })
}

/// Allocates a node, in a fresh buffer if the last one is full.
fn branch(heap: &mut impl Steps) -> Result<(), Refusal> {
    if new_node(heap).is_err() {
        step(heap, Step::GiveBack)?;
        step(heap, Step::Take(WORDS))?;
        new_node(heap)?;
    }
    Ok(())
}

/// Makes a register's tree a child of the new node.
fn hang(heap: &mut impl Steps, field: u32, source: u32) -> Result<(), Refusal> {
    let object = NEW;
    let store = Step::Store {
        object,
        field,
        source,
    };
    step(heap, store)?;
    Ok(())
}

/// Puts a node above the complete tree of `level` levels and the tree of the last leaf, as the new tree of the last
/// leaf.
fn join(heap: &mut impl Steps, level: u32) -> Result<(), Refusal> {
    branch(heap)?;
    hang(heap, 0, level)?;
    hang(heap, 1, TREE)?;
    step(heap, Step::ClearReg(level))?;
    let (target, source) = (TREE, NEW);
    step(heap, Step::CopyReg { target, source })?;
    Ok(())
}

/// Adds a leaf to a growing tree; the complete tree that it ends is then in the register of its number of levels.
fn leaf(heap: &mut impl Steps, number: u32) -> Result<(), Refusal> {
    branch(heap)?;
    let (target, source) = (TREE, NEW);
    step(heap, Step::CopyReg { target, source })?;
    let levels = number.trailing_ones();
    for level in 0..levels {
        join(heap, level)?;
    }
    let (target, source) = (levels, TREE);
    step(heap, Step::CopyReg { target, source })?;
    Ok(())
}

/// Makes the registers null.
fn clear(heap: &mut impl Steps) -> Result<(), Refusal> {
    for register in 0..REGISTERS {
        step(heap, Step::ClearReg(register))?;
    }
    Ok(())
}

/// Makes a tree, in a global.
fn tree(heap: &mut impl Steps, global: u32) -> Result<(), Refusal> {
    for number in 0..LEAVES {
        leaf(heap, number)?;
    }
    let source = LEVELS;
    step(heap, Step::StoreGlobal { global, source })?;
    clear(heap)
}

/// Makes `count` trees of 16,383 objects each, in as many globals.
pub fn trees(heap: &mut impl Steps, count: u32) -> Result<(), Refusal> {
    step(heap, Step::Take(WORDS))?;
    for global in 0..count {
        tree(heap, global)?;
    }
    step(heap, Step::GiveBack)?;
    Ok(())
}
