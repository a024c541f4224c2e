//! The test of all fields of reached objects.

ghost use Rattle.std.specs.Prelude.{◌<◌};
ghost use Rattle.verify.specs.Searches.{TellsReached, FoundField, FoundBad, FoundBadOf};

use crate::chart::Chart;
use crate::spots::Spots;
use crate::verdict::Fault;
use crate::walk::is_reached;

/// Returns the first field of the object at an address whose value isn't good.
fn bad_field_at(chart: &Chart, address: u64) -> Option<u32>
    requires { 0 < chart.now.words }
    ensures { FoundBad chart.now address result }
{
    for k in 0..chart.image().refs_at(address) {
        if !chart.is_good_field(address, k) {
            return Some(k);
        }
    }
    None
}

/// Returns the same for an object that is reached; `None` for any other.
fn bad_field_of(chart: &Chart, spots: &Spots, address: u64) -> Option<u32>
    requires sized { 0 < chart.now.words }
    requires spots { TellsReached chart.now spots.now }
    ensures { FoundBadOf chart.now address result }
{
    if is_reached(spots, address) {
        bad_field_at(chart, address)
    } else {
        None
    }
}

/// Returns the first field of a reached object whose value isn't good, in the order of the objects' addresses.
pub(crate) fn first_bad_field(chart: &Chart, spots: &Spots) -> Option<Fault>
    requires sized { 0 < chart.now.words }
    requires spots { TellsReached chart.now spots.now }
    ensures { FoundField chart.now result }
{
    let mut from = 0;
    while let Some(address) = spots.next_filled(from) {
        if let Some(k) = bad_field_of(chart, spots, address) {
            return Some(Fault::Field(address, k));
        }
        from = address + 1;
    }
    None
}
