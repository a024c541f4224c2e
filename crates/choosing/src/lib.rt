//! Relocation-set selection: the closed pages with the fewest live words for which there is space: free frames and
//! unused pages.
#![tactic(auto)]

mod choosing;
mod packing;
mod sparse;
mod threading;

pub use choosing::{Choice, choose, choose_found, measure, room};
pub use packing::{Packing, first_packing, packed_page};
pub use sparse::{Found, Measure, PageObjects, measure_page};
pub use threading::measure_by;
