//! Births of objects, and two objects that have the same.

ghost use Rattle.std.specs.Prelude.{◌≡◌, ◌<◌, ◌≤◌, ◌+◌, ℕ, Some, None, IfOk, MatchOption, length, nat_eq, Option};
ghost use Rattle.std.specs.Prelude.{if◌then◌else◌, ◌==◌};
ghost use Rattle.verify.specs.Searches.{TellsReached};
ghost use Rattle.verify.specs.Twins.{TellsBirths, SharesAt, SharesBelow, IsLeast, IsOnly, HasTwins, lesser};
ghost use Rattle.std.specs.HashMap as hash;

use crate::chart::Chart;
use crate::spots::Spots;
use crate::walk::is_reached;
use std::alloc::{AllocError, Global};
use std::collections::HashMap;

/// An address for each birth.
#[derive(Drop)]
struct Births {
    addresses: HashMap<u64, u64>,
}

impl Births {
    /// Returns a table in which no address is noted.
    fn new(alloc: Global) -> Births
        ensures { (b : ℕ) → hash.get nat_eq result.addresses b ≡ None }
    {
        Births {
            addresses: HashMap::new(alloc),
        }
    }

    /// Notes an address for a birth, in place of an earlier one. Fails only if out of memory.
    fn note(&mut self, birth: u64, address: u64) -> Result<(), AllocError>
        ensures { IfOk result (λ _. (b : ℕ) → hash.get nat_eq self.new.addresses b
            ≡ (if b == birth then Some address else hash.get nat_eq self.old.addresses b)) }
    {
        self.addresses.insert(birth, address)?;
        Ok(())
    }

    /// Notes an address for its object's birth, if a reached object is there.
    fn note_reached(&mut self, chart: &Chart, spots: &Spots, address: u64) -> Result<(), AllocError>
        requires sized { 0 < chart.now.words }
        requires spots { TellsReached chart.now spots.now }
        ensures { IfOk result (λ _. (n : ℕ) → n ≡ address → TellsBirths chart.now n (hash.get nat_eq self.old.addresses)
            → TellsBirths chart.now (n + 1) (hash.get nat_eq self.new.addresses)) }
    {
        if is_reached(spots, address) {
            if let Some(birth) = chart.image().birth_at(address) {
                self.note(birth, address)?;
            }
        }
        Ok(())
    }

    /// Returns the address that is noted for a birth.
    fn get(&self, birth: u64) -> Option<u64>
        ensures { result ≡ hash.get nat_eq self.now.addresses birth }
    {
        self.addresses.get(&birth).copied()
    }

    /// Returns the birth of the object at an address that is reached or wasn't copied, if another address is noted
    /// for it.
    fn shared_at(&self, chart: &Chart, spots: &Spots, address: u64) -> Option<u64>
        requires sized { 0 < chart.now.words }
        requires spots { TellsReached chart.now spots.now }
        ensures { IsOnly (SharesAt chart.now (hash.get nat_eq self.now.addresses) address) result }
    {
        if !is_reached(spots, address) && chart.is_copied(address) {
            return None;
        }
        let birth = chart.image().birth_at(address)?;
        match self.get(birth) {
            None => None,
            Some(other) => { if other == address { None } else { Some(birth) } }
        }
    }

    /// Returns the lowest birth that is shared.
    fn least_shared(&self, chart: &Chart, spots: &Spots) -> Option<u64>
        requires sized { 0 < chart.now.words }
        requires spots { TellsReached chart.now spots.now }
        ensures { IsLeast (SharesBelow chart.now (hash.get nat_eq self.now.addresses) (length spots.now)) result }
    {
        let mut least: Option<u64> = None;
        let mut from = 0;
        while let Some(address) = spots.next_filled(from) {
            least = lesser(least, self.shared_at(chart, spots, address));
            from = address + 1;
        }
        least
    }
}

/// Returns the lesser of two numbers that may be missing.
fn lesser(one: Option<u64>, other: Option<u64>) -> Option<u64>
    ensures { result ≡ lesser one other }
{
    match (one, other) {
        (None, _) => other,
        (_, None) => one,
        (Some(a), Some(b)) => { if a <= b { one } else { other } }
    }
}

/// Returns a table with an address for each birth of a reached object. Fails only if out of memory.
fn births_of(alloc: Global, chart: &Chart, spots: &Spots) -> Result<Births, AllocError>
    requires sized { 0 < chart.now.words }
    requires spots { TellsReached chart.now spots.now }
    ensures { IfOk result (λ m. TellsBirths chart.now (length spots.now) (hash.get nat_eq m.addresses)) }
{
    let mut births = Births::new(alloc);
    let mut from = 0;
    while let Some(address) = spots.next_filled(from) {
        births.note_reached(chart, spots, address)?;
        from = address + 1;
    }
    Ok(births)
}

/// Returns the lowest birth that two objects have, of which one is reached, and the other is reached too or wasn't
/// copied. Fails only if out of memory.
pub(crate) fn least_twins(
    alloc: Global,
    chart: &Chart,
    spots: &Spots,
) -> Result<Option<u64>, AllocError>
    requires sized { 0 < chart.now.words }
    requires spots { TellsReached chart.now spots.now }
    ensures { IfOk result (IsLeast (HasTwins chart.now)) }
{
    let births = births_of(alloc, chart, spots)?;
    Ok(births.least_shared(chart, spots))
}
