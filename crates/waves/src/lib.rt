//! Waves of a mark: threads scan the grey objects of their own pages at once. The effect is that of scans one after the
//! other.
#![tactic(auto)]

mod listing;
mod parting;
mod taking;
mod waving;

ghost use Rattle.waves.specs.Promises.{PartDrains};

pub use waving::drain_by;

/// Proves that what a thread scans on its own pages, and sends, is a part of a drain of the heap.
pub fn law()
    ensures { PartDrains }
{}
