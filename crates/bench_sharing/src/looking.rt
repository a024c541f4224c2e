//! Reads of a heap, each of which is a hold of the lock.

use crate::timing::Timing;
use anyhow::{Result, bail};
use choosing::{choose, first_packing, measure_page, packed_page, room};
use heap::Heap;
use hints::{HintSeat, Hints};
use marker::next_todo;
use model::MOST_FIELDS;
use refword::{Addr, Word};
use std::alloc::Global;

/// Reads what a choice reads of one page after another: its live words, and where its objects would go. Returns in
/// how many targets these would be.
fn look_at_pages(held: &mut impl Timing, pages: u32) -> Result<u64> {
    let mut packing = first_packing();
    for page in 1..=pages {
        let start = held.begin()?;
        let _ = measure_page(held.heap(), 100, page);
        held.end("a page measured", start)?;
        let start = held.begin()?;
        let next = packed_page(held.heap(), page, packing);
        held.end("a page packed", start)?;
        packing = next.unwrap_or(packing);
    }
    Ok(packing.count)
}

/// Reads all pages.
pub fn look_all(held: &mut impl Timing) -> Result<()> {
    let pages = u32::try_from(held.heap().memory().pages().len())?;
    let _ = look_at_pages(held, pages)?;
    Ok(())
}

/// Returns the object to which a field of an object refers.
fn field_of(heap: &Heap, object: Addr, field: u32) -> Option<Addr> {
    if field >= u32::from(MOST_FIELDS) {
        return None;
    }
    let bits = heap.memory().word_behind(object, u64::from(field) + 1)?;
    Word::read(bits)?.addr()
}

/// Pushes a hint for the object of each of `fields` fields of an object. Returns how many were accepted.
fn hint_fields(heap: &Heap, hints: &mut HintSeat, object: Addr, fields: u32) -> u64 {
    let mut taken = 0u64;
    for field in 0..fields {
        if let Some(hint) = field_of(heap, object, field) {
            taken = taken.wrapping_add(u64::from(Hints::push(hints, hint).is_ok()));
        }
    }
    taken
}

/// Returns the object to which a register of thread 0 refers.
fn object_in(heap: &Heap, register: u32) -> Option<Addr> {
    heap.threads().first()?.register(register).addr()
}

/// Reads `fields` fields of the object in a register, as a worker does for its hints.
pub fn look_at_fields(
    held: &mut impl Timing,
    alloc: Global,
    register: u32,
    fields: u32,
) -> Result<()> {
    let mut seats = Hints::new(alloc, 1)?;
    let (Some(seat), Some(object)) = (seats.first_mut(), object_in(held.heap(), register)) else {
        bail!("there is no object");
    };
    let start = held.begin()?;
    let _ = hint_fields(held.heap(), seat, object, fields);
    held.end("a look at fields", start)
}

/// Returns the chosen pages, if all closed ones may be.
pub fn chosen(held: &mut impl Timing, alloc: Global) -> Result<Vec<u32>> {
    let start = held.begin()?;
    let _ = room(held.heap());
    held.end("room", start)?;
    let start = held.begin()?;
    let pages = choose(alloc, held.heap(), 100)?;
    held.end("choose", start)?;
    Ok(pages)
}

/// Returns the page and the offset of the next grey object.
pub fn todo_left(held: &mut impl Timing, words: u32) -> Result<Option<(u32, u32)>> {
    let start = held.begin()?;
    let found = next_todo(held.heap());
    held.end("next_todo", start)?;
    match (found, u64::from(words)) {
        (Some(address), words) if words > 0 => {
            let page = u32::try_from(address.number() / words).unwrap_or(0);
            Ok(Some((page, (address.number() % words) as u32)))
        }
        _ => Ok(None),
    }
}
