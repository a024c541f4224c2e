//! Scans of objects by the thread that owns their pages: what is found of other pages is sent to their owners.
#![tactic(auto)]

mod backlog;
mod marks;
mod objects;
mod parts;
mod scene;
mod taking;

pub use parts::scan_part;
pub use scene::{Scene, read_reference};
