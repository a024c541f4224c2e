//! A cache that lives for millions of steps in a small heap, which is collected as it runs.
//!
//! A table has a place for each of 64 keys; a new entry replaces the one before, which is garbage then.

use crate::nodes::ME;
use anyhow::Result;
use pauseless::prelude::*;
use std::alloc::Global;

/// Registers: the table, a new entry, and a found one.
const TABLE: Register = Register(0);

const ENTRY: Register = Register(1);

const FOUND: Register = Register(2);

/// The layouts of a table, with a reference for each place, and of an entry, with a key and a value.
const TABLES: LayoutNumber = LayoutNumber(0);

const ENTRIES: LayoutNumber = LayoutNumber(1);

/// The data of an entry.
const KEY: Datum = Datum(0);

const VALUE: Datum = Datum(1);

/// The places of a table.
const PLACES: u16 = 64;

/// How many look-ups are made.
const TURNS: u64 = 500_000;

/// Allocates an object of a layout in a register.
fn make(
    alloc: Global,
    heap: &mut impl HeapCalls,
    target: Register,
    layout: LayoutNumber,
) -> Result<()> {
    heap.make(alloc, ME, target, layout)?;
    Ok(())
}

/// Returns the place of a key.
fn place(key: u64) -> Field {
    Field((key % u64::from(PLACES)) as u32)
}

/// Writes a key's value to its place.
fn put(alloc: Global, heap: &mut impl HeapCalls, key: u64, value: u64) -> Result<()> {
    make(alloc, heap, ENTRY, ENTRIES)?;
    heap.set_datum(ME, ENTRY, KEY, key)?;
    heap.set_datum(ME, ENTRY, VALUE, value)?;
    Ok(heap.store(ME, TABLE, place(key), ENTRY)?)
}

/// Returns the value of a key, if its place has it.
fn get(heap: &mut impl HeapCalls, key: u64) -> Result<Option<u64>, Refusal> {
    heap.read(ME, FOUND, TABLE, place(key))?;
    if heap.is_null(ME, FOUND)? || heap.datum(ME, FOUND, KEY)? != key {
        return Ok(None);
    }
    Ok(Some(heap.datum(ME, FOUND, VALUE)?))
}

/// Returns the value that the cache saves computing: the square of a key.
fn square(key: u64) -> u64 {
    key.wrapping_mul(key)
}

/// Looks up the square of a key, and adds it if it is missing. Returns whether the cache had it.
fn ask(alloc: Global, heap: &mut impl HeapCalls, key: u64) -> Result<bool> {
    let found = get(heap, key)?;
    if found == Some(square(key)) {
        return Ok(true);
    }
    put(alloc, heap, key, square(key))?;
    Ok(false)
}

/// Looks up keys below 256 in no order. Returns how many the cache had.
fn ask_all(alloc: Global, mut heap: impl HeapCalls + Drop) -> Result<u64> {
    make(alloc, &mut heap, TABLE, TABLES)?;
    let mut hits = 0u64;
    let mut state = 1u64;
    for _ in 0..TURNS {
        state = state
            .wrapping_mul(6_364_136_223_846_793_005)
            .wrapping_add(1_442_695_040_888_963_407);
        let had = ask(alloc, &mut heap, state >> 56)?;
        hits = hits.wrapping_add(u64::from(had));
    }
    Ok(hits)
}

/// Makes a heap for a table and entries: 4 frames of 256 words.
fn new_heap(alloc: Global) -> Result<Heap> {
    let table = Layout {
        refs: PLACES,
        nums: 0,
    };
    let layouts = Layouts::new(vec![in alloc; table, Layout { refs: 0, nums: 2 }]?);
    Ok(Heap::new(alloc, Config::new(256, 4, layouts))?)
}

/// Makes a cache, and looks up keys. Returns how many it had.
pub fn run(alloc: Global) -> Result<u64> {
    ask_all(alloc, new_heap(alloc)?)
}
