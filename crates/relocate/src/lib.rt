//! Relocation: protecting pages, copying their objects to planned places, and releasing their memory.
#![tactic(auto)]

mod copying;
mod drafting;
mod emptied;
mod many;
mod protecting;
mod releasing;
mod ripe;
mod settling;
mod targets;
mod whole;

pub use copying::copy;
pub use drafting::measured_objects;
pub use many::copy_pages_by;
pub use page::PieceGate;
pub use protecting::protect;
pub use releasing::release;
pub use whole::{copy_page, copy_page_by};
