//! Forwarding tables by offset, so that no look-up searches them from the beginning.

ghost use Rattle.std.specs.Prelude.{◌≡◌, ◌<◌, ◌==◌, ℕ, true, IfOk, length, get_or, replicate, None, if◌then◌else◌};
ghost use Rattle.model.specs.Holding.{AreRising};
ghost use Rattle.verify.specs.Images.{copy_in, copy_of};
ghost use Rattle.verify.specs.Copies.{ArePlaces, Tells};

use model::Forwarding;
use refword::Addr;
use std::alloc::{AllocError, Global};
use std::marker::Model;

/// An address that may be missing, in one word, which is 0 if it is missing.
#[derive(Clone, Copy)]
struct Place {
    number: u64,
}

impl Model for Place {
    ghost use Rattle.std.specs.Prelude.{Option, ℕ};
    ghost use Rattle.verify.specs.Places.{place_of, IsPlace, number_of, number_again};

    ghost Value = { Option ℕ };

    ghost view = { λ p. place_of p.number };

    ghost invariant = { λ p. IsPlace p.number };

    ghost inverse = { λ o. record { number = number_of o } };

    ghost inverse_ok = { λ a h. λ i. record { number = number_again a.number i } };
}

impl Place {
    /// Returns the place of an address.
    fn of(address: Option<Addr>) -> Place
        ensures { result ≡ address }
    {
        match address {
            None => Place { number: 0 },
            Some(address) => Place {
                number: address.number(),
            },
        }
    }

    /// Returns the address.
    fn address(self) -> Option<Addr>
        ensures { result ≡ self }
    {
        if self.number == 0 {
            None
        } else {
            Addr::new(self.number)
        }
    }
}

/// A table of a forwarding table, for fast look-ups. If the offsets rise, as those of a heap do, it has no places,
/// and the look-up is a binary search; else its places are, by offset, the addresses to which objects were copied.
#[derive(Drop)]
pub(crate) struct Table {
    places: Option<Vec<Place>>,
}

impl Model for Table {
    ghost use Rattle.std.specs.Prelude.{List, Option, ℕ, option_map};

    ghost Value = { Option (List (Option ℕ)) };

    ghost view = { λ t. option_map (λ v. v.items) t.places };
}

impl Table {
    /// Returns the table of a forwarding table, by the number of words of a page. Fails only if out of memory.
    pub(crate) fn new(alloc: Global, side: &[Forwarding], words: u32) -> Result<Table, AllocError>
        ensures { IfOk result (Tells side.now words) }
    {
        if is_rising(side, words) {
            return Ok(Table { places: None });
        }
        let places = places_of(alloc, side, words)?;
        Ok(Table {
            places: Some(places),
        })
    }

    /// Returns the address to which the object of an offset was copied, by the table of a forwarding table, and the
    /// number of words of a page.
    pub(crate) fn get(&self, side: &[Forwarding], words: u32, offset: u64) -> Option<Addr>
        requires table { Tells side.now words self.now }
        requires within { offset < words }
        ensures { result ≡ copy_in side.now offset }
    {
        match &self.places {
            None => search(side, words, offset),
            Some(places) => place_at(places, offset),
        }
    }
}

/// Returns whether the offsets of a forwarding table rise, in a page of a number of words.
fn is_rising(side: &[Forwarding], words: u32) -> bool
    ensures { result ≡ true → AreRising words 0 side.now }
{
    let mut above = words;
    for k in 0..side.len() {
        let entry = side[side.len() - 1 - k];
        if entry.offset >= above {
            return false;
        }
        above = entry.offset;
    }
    true
}

/// Returns the address to which the object of an offset was copied, by a forwarding table whose offsets rise.
fn search(side: &[Forwarding], words: u32, offset: u64) -> Option<Addr>
    requires { AreRising words 0 side.now }
    ensures { result ≡ copy_in side.now offset }
{
    match side.binary_search_by_key(&offset, |entry| u64::from(entry.offset)) {
        Ok(k) => copy_of(side[k]),
        Err(_) => None,
    }
}

/// Returns the places of a forwarding table, by the number of words of a page. Fails only if out of memory.
fn places_of(alloc: Global, side: &[Forwarding], words: u32) -> Result<Vec<Place>, AllocError>
    ensures { IfOk result (λ places. ArePlaces side.now words places.items) }
{
    let mut places = nowhere(alloc, words)?;
    for k in 0..side.len() {
        put(&mut places, side[side.len() - 1 - k]);
    }
    Ok(places)
}

/// Returns the place of an offset; `None` if there is no such offset.
fn place_at(places: &[Place], offset: u64) -> Option<Addr>
    ensures { result ≡ get_or places.now offset None }
{
    let offset = offset as usize;
    if offset < places.len() {
        places[offset].address()
    } else {
        None
    }
}

/// Returns `count` places of missing addresses. Fails only if out of memory.
fn nowhere(alloc: Global, count: u32) -> Result<Vec<Place>, AllocError>
    ensures { IfOk result (λ places. places.items ≡ replicate count None) }
{
    let mut places = Vec::with_capacity(alloc, count as usize)?;
    for _place in 0..count {
        places.push(Place::of(None))?;
    }
    Ok(places)
}

/// Returns the address to which an entry's object was copied, if it was.
fn copy_of(entry: Forwarding) -> Option<Addr>
    ensures { result ≡ copy_of entry }
{
    if entry.copied { Some(entry.to) } else { None }
}

/// Writes the place of an entry's offset, if there is such an offset.
fn put(places: &mut Vec<Place>, entry: Forwarding)
    ensures len { length places.new.items ≡ length places.old.items }
    ensures each { (o : ℕ) → o < length places.old.items → get_or places.new.items o None
        ≡ (if entry.offset == o then copy_of entry else get_or places.old.items o None) }
{
    let offset = entry.offset as usize;
    if offset < places.len() {
        places[offset] = Place::of(copy_of(entry));
    }
}
