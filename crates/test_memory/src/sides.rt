//! Plans, and forwarding tables.

use crate::same::{done, same, same_at};
use forward::{Plan, Side, Sides};
use markbits::Row;
use refword::Addr;
use std::alloc::Global;
use std::process::Abort;

/// The target and the offset of an object in a plan.
fn place(plan: &Plan, index: usize) -> Option<(usize, u32)> {
    let slot = plan.place(index)?;
    Some((slot.target(), slot.offset()))
}

/// A plan of objects of these sizes, on pages of 16 words, has these places and no more.
fn places(rt: &impl Abort, alloc: Global, sizes: &[u32], places: &[(usize, u32)], targets: usize) {
    let plan = done(rt, Plan::new(alloc, 16, sizes));
    for (index, wanted) in places.iter().enumerate() {
        same_at(rt, index, place(&plan, index), Some(*wanted));
    }
    same(rt, place(&plan, places.len()), None);
    same(rt, (plan.len(), plan.targets()), (places.len(), targets));
}

/// In the last, an object that would fit into an earlier target goes after the last one.
#[test]
fn small_plans(rt: HostRuntime) {
    let alloc: Global = rt.alloc();
    places(&rt, alloc, &[], &[], 0);
    let whole = [(0, 0), (1, 0), (2, 0)];
    places(&rt, alloc, &[16, 16, 16], &whole, 3);
    let filled = [(0, 0), (0, 10), (1, 0), (1, 7), (2, 0)];
    places(&rt, alloc, &[10, 6, 7, 9, 1], &filled, 3);
    let behind = [(0, 0), (1, 0), (2, 0), (2, 5), (2, 9)];
    places(&rt, alloc, &[10, 12, 5, 4, 6], &behind, 3);
}

/// Offsets of objects on a page of 16 words.
const OFFSETS: [u32; 5] = [0, 3, 4, 9, 15];

/// Where they go: to both sides of 2^32, and back.
const FAR: [u64; 5] = [40, 4_294_967_295, 4_294_967_296, 17_179_869_191, 96];

/// Returns a bitmap of 16 places, of which these are set.
fn live(rt: &impl Abort, alloc: Global, offsets: &[u32]) -> Row {
    let mut live = done(rt, Row::new(alloc, 16));
    for offset in offsets {
        live.put(*offset as usize, true);
    }
    live
}

/// Returns the addresses of these numbers.
fn addresses(rt: &impl Abort, alloc: Global, numbers: &[u64]) -> Vec<Addr> {
    let mut places = Vec::new(alloc);
    for number in numbers {
        let place = done(rt, Addr::new(*number).ok_or("no address"));
        done(rt, places.push(place));
    }
    places
}

/// Returns the forwarding table of objects at these offsets of a page of 16 words, which go to these addresses.
pub fn side_of(rt: &impl Abort, alloc: Global, offsets: &[u32], numbers: &[u64]) -> Side {
    let live = live(rt, alloc, offsets);
    let places = addresses(rt, alloc, numbers);
    if live.len() > 32_768 || live.count() != places.len() {
        panic!(rt; "another row");
    }
    done(rt, Side::new(alloc, live, places))
}

/// Offset and new address of an entry, its new address alone, and its number by its offset.
fn entry(side: &Side, index: usize) -> Option<(u32, u64, u64, u32)> {
    let entry = side.entry(index)?;
    let place = side.place(index)?.number();
    let number = side.number_of(entry.offset)?;
    Some((entry.offset, entry.to.number(), place, number))
}

/// The entries have these numbers, from 0, and there are no more.
fn has_entries(rt: &impl Abort, side: &Side) {
    for number in 0..5 {
        let index = number as usize;
        let (offset, to) = (OFFSETS[index], FAR[index]);
        let wanted = Some((offset, to, to, number));
        same_at(rt, index, entry(side, index), wanted);
    }
    same(rt, (side.len(), entry(side, 5)), (5, None));
}

/// What is found at offsets, and between and after them.
fn finds(rt: &impl Abort, side: &Side) {
    for offset in 0..20 {
        let found = side.find(offset).map(|entry| entry.offset);
        let wanted = if OFFSETS.contains(&offset) {
            Some(offset)
        } else {
            None
        };
        same_at(rt, offset, found, wanted);
    }
    has_entries(rt, side);
}

/// One object after another is copied; what has no entry, and what is copied, changes nothing.
fn copies(rt: &impl Abort, side: &mut Side) {
    for (offset, left) in [
        (1, 4),
        (0, 3),
        (4, 3),
        (15, 2),
        (0, 2),
        (9, 1),
        (16, 1),
        (3, 0),
    ] {
        assert!(rt; !side.is_copied(), "before {offset}");
        side.set_copied(offset);
        same_at(rt, offset, side.uncopied(), left);
    }
    assert!(rt; side.is_copied());
}

/// The object at offset 4 is copied first.
#[test]
fn a_side_array(rt: HostRuntime) {
    let mut side = side_of(&rt, rt.alloc(), &OFFSETS, &FAR);
    side.set_copied(4);
    finds(&rt, &side);
    copies(&rt, &mut side);
    finds(&rt, &side);
}

#[test]
fn a_side_array_of_nothing(rt: HostRuntime) {
    let side = Side::empty(rt.alloc());
    same(&rt, (side.len(), side.is_copied()), (0, true));
}

const PAGES: [u32; 6] = [0, 1, 2, 3, 4, u32::MAX];

/// Where the object at offset 9 of each of these pages goes, if it is to go.
fn ninths(sides: &Sides) -> [Option<u64>; 6] {
    PAGES.map(|page| Some(sides.entry_at(u64::from(page), 9)?.to.number()))
}

/// The offset of the fourth entry of each of these pages, if it has four.
fn fourths(sides: &Sides) -> [Option<u32>; 6] {
    PAGES.map(|page| Some(sides.entry_on(page, 3)?.offset))
}

/// Returns which of these pages have no uncopied entry.
fn copied(sides: &Sides) -> [bool; 6] {
    PAGES.map(|page| sides.is_copied(page))
}

/// A page gets a forwarding table of five objects, which all go to one place, and of which the one at 4 is copied.
fn put_five(rt: &impl Abort, alloc: Global, sides: &mut Sides, index: usize, to: u64) {
    let mut side = side_of(rt, alloc, &OFFSETS, &[to; 5]);
    side.set_copied(4);
    sides.put(index, side);
}

/// Pages 1 and 3 of three are protected; there is no page 10. The objects of each go to one place.
fn protects(rt: &impl Abort, alloc: Global, sides: &mut Sides) {
    same(rt, (sides.uncopied(), copied(sides)), (0, [true; 6]));
    for (index, to) in [(0, 32), (2, 48), (9, 96)] {
        put_five(rt, alloc, sides, index, to);
    }
    is_protected(rt, sides);
}

/// What is found of them then.
fn is_protected(rt: &impl Abort, sides: &Sides) {
    same(
        rt,
        ninths(sides),
        [None, Some(32), None, Some(48), None, None],
    );
    same(
        rt,
        fourths(sides),
        [None, Some(9), None, Some(9), None, None],
    );
    same(rt, copied(sides), [true, false, true, false, true, true]);
    same(rt, sides.uncopied(), 8);
}

/// All of page 3 is copied, and one object of page 1; nothing else is.
fn copies_of_pages(rt: &impl Abort, sides: &mut Sides) {
    for (index, offset, left) in [
        (2, 0, 7),
        (2, 9, 6),
        (1, 0, 6),
        (3, 3, 6),
        (2, 3, 5),
        (2, 15, 4),
        (0, 9, 3),
        (0, 9, 3),
    ] {
        sides.set_copied(index, offset);
        same_at(rt, offset, sides.uncopied(), left);
    }
    same(rt, copied(sides), [true, false, true, true, true, true]);
}

/// Page 1 has another forwarding table, and all are freed.
fn clears(rt: &impl Abort, sides: &mut Sides) {
    same(rt, (sides.uncopied(), ninths(sides)[1]), (4, Some(64)));
    sides.clear_all();
    same(rt, (sides.uncopied(), ninths(sides)), (0, [None; 6]));
    let there = (sides.get(2).is_some(), sides.get(3).is_some());
    same(rt, there, (true, false));
}

/// They are put, marked as copied, and cleared.
#[test]
fn side_arrays_of_pages(rt: HostRuntime) {
    let mut sides = done(&rt, Sides::new(rt.alloc(), 3));
    protects(&rt, rt.alloc(), &mut sides);
    copies_of_pages(&rt, &mut sides);
    put_five(&rt, rt.alloc(), &mut sides, 0, 64);
    clears(&rt, &mut sides);
}
