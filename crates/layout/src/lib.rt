//! Objects in memory: a header, then references, then data.
#![tactic(auto)]

mod header;
mod parts;
mod shape;
mod splitting;

pub use header::{Header, birth_of, layout_of};
pub use parts::Split;
pub use shape::{Layout, Layouts};
pub use splitting::{split, split_header, split_parts};
