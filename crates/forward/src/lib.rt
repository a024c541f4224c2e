//! Where objects go: places in targets, and forwarding tables, which keep them apart from the page.
#![tactic(auto)]

mod draft;
mod flags;
mod objects;
mod places;
mod plan;
mod planning;
mod runs;
mod side;
mod sides;
mod sizes;

pub use draft::Draft;
pub use objects::LiveObjects;
pub use plan::{Plan, Slot};
pub use runs::Runs;
pub use side::Side;
pub use sides::Sides;
pub use sizes::Sizes;
