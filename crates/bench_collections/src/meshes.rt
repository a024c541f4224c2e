//! Making trees and graphs. Tables refer to all their objects while references are stored, so that each is found by
//! its number from 0; then the tables are dropped.

use crate::asking::{BRANCH, HEAD, ME, NODE, PLACES, TABLE, make};
use anyhow::Result;
use collecting::Collect;
use heap::Refusal;
use std::alloc::Global;

/// Registers: the table of tables of tables, one of these, one of those, and an object whose reference is stored.
const TABLES: u32 = 2;

const ROW: u32 = 5;

const PART: u32 = 3;

const HERE: u32 = 4;

/// The objects of a table of tables.
const ALL: u32 = PLACES * PLACES;

/// The objects of a tree of a forest.
const TREE: u32 = 1_023;

/// Makes a table of `count` new objects, with `waste` garbage objects after each.
fn fill_part(alloc: Global, heap: &mut impl Collect, count: u32, waste: u32) -> Result<()> {
    make(alloc, heap, PART, TABLE)?;
    for place in 0..count {
        make(alloc, heap, NODE, BRANCH)?;
        heap.store(ME, PART, place, NODE)?;
        for _ in 0..waste {
            make(alloc, heap, NODE, BRANCH)?;
        }
    }
    Ok(())
}

/// Makes tables of `count` new objects.
fn fill_row(alloc: Global, heap: &mut impl Collect, count: u32, waste: u32) -> Result<()> {
    make(alloc, heap, ROW, TABLE)?;
    let mut left = count;
    for part in 0..count.div_ceil(PLACES) {
        fill_part(alloc, heap, left.min(PLACES), waste)?;
        heap.store(ME, ROW, part, PART)?;
        left = left.saturating_sub(PLACES);
    }
    Ok(())
}

/// Makes tables of tables of `count` new objects.
fn fill(alloc: Global, heap: &mut impl Collect, count: u32, waste: u32) -> Result<()> {
    make(alloc, heap, TABLES, TABLE)?;
    let mut left = count;
    for row in 0..count.div_ceil(ALL) {
        fill_row(alloc, heap, left.min(ALL), waste)?;
        heap.store(ME, TABLES, row, ROW)?;
        left = left.saturating_sub(ALL);
    }
    Ok(())
}

/// Loads an object by its number into a register.
fn find(heap: &mut impl Collect, target: u32, number: u32) -> Result<(), Refusal> {
    heap.read(ME, ROW, TABLES, number / ALL)?;
    heap.read(ME, PART, ROW, number / PLACES % PLACES)?;
    heap.read(ME, target, PART, number % PLACES)
}

/// Stores a reference from an object to another, by their numbers.
fn link(heap: &mut impl Collect, from: u32, field: u32, to: u32) -> Result<(), Refusal> {
    find(heap, HERE, from)?;
    find(heap, NODE, to)?;
    heap.store(ME, HERE, field, NODE)
}

/// Gives each object except the first one its place in the tree.
fn hang_all(heap: &mut impl Collect, count: u32) -> Result<(), Refusal> {
    for number in 1..count {
        let before = number.saturating_sub(1);
        link(heap, before / 2, before % 2, number)?;
    }
    Ok(())
}

/// Makes a tree of `count` objects.
pub fn tree(alloc: Global, heap: &mut impl Collect, count: u32) -> Result<()> {
    fill(alloc, heap, count, 0)?;
    hang_all(heap, count)?;
    Ok(find(heap, HEAD, 0)?)
}

/// Returns the number of the next object in the cycle.
fn next(number: u32, count: u32) -> u32 {
    number.wrapping_mul(1_664_525).wrapping_add(1_013_904_223) % count.max(1)
}

/// Returns the pseudorandom number after this one.
fn mixed(state: u64) -> u64 {
    state
        .wrapping_mul(6_364_136_223_846_793_005)
        .wrapping_add(1_442_695_040_888_963_407)
}

/// Returns a pseudorandom number below a count.
fn any(state: u64, count: u32) -> u32 {
    ((state >> 32) % u64::from(count.max(1))) as u32
}

/// Lets each object refer to the next one of the cycle, and to any one.
fn link_all(heap: &mut impl Collect, count: u32) -> Result<(), Refusal> {
    let mut state = 1u64;
    for number in 0..count {
        state = mixed(state);
        link(heap, number, 0, next(number, count))?;
        link(heap, number, 1, any(state, count))?;
    }
    Ok(())
}

/// Gives each object of a forest except the roots its place in its tree.
fn hang_trees(heap: &mut impl Collect, count: u32) -> Result<(), Refusal> {
    for number in 0..count {
        let place = number % TREE;
        if place != 0 {
            let before = place.saturating_sub(1);
            link(
                heap,
                number.wrapping_sub(place).wrapping_add(before / 2),
                before % 2,
                number,
            )?;
        }
    }
    Ok(())
}

/// Makes a table of the roots of some trees of a forest, from the tree of a number on.
fn list_roots(alloc: Global, heap: &mut impl Collect, first: u32, count: u32) -> Result<()> {
    make(alloc, heap, HERE, TABLE)?;
    for place in 0..count {
        find(heap, NODE, first.wrapping_add(place).wrapping_mul(TREE))?;
        heap.store(ME, HERE, place, NODE)?;
    }
    Ok(())
}

/// Makes a forest of `count` objects.
pub fn forest(alloc: Global, heap: &mut impl Collect, count: u32) -> Result<()> {
    fill(alloc, heap, count, 0)?;
    hang_trees(heap, count)?;
    make(alloc, heap, HEAD, TABLE)?;
    let trees = count.div_ceil(TREE);
    for table in 0..trees.div_ceil(PLACES) {
        let first = table.wrapping_mul(PLACES);
        list_roots(alloc, heap, first, trees.saturating_sub(first).min(PLACES))?;
        heap.store(ME, HEAD, table, HERE)?;
    }
    Ok(())
}

/// Makes a graph of `count` objects, with `waste` garbage objects after each.
pub fn graph(alloc: Global, heap: &mut impl Collect, count: u32, waste: u32) -> Result<()> {
    fill(alloc, heap, count, waste)?;
    link_all(heap, count)?;
    Ok(find(heap, HEAD, 0)?)
}
