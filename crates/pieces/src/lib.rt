//! Copying the objects of a From page to another page: by entries of its forwarding table, or by halves on threads.
#![tactic(auto)]

mod copying;
mod cutter;
mod halves;
mod source;

pub use copying::copy_run;
pub use cutter::{Cutter, cut_off};
pub use halves::{PieceGate, copy_run_by};
pub use source::Source;
