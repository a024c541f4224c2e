//! Mark drains, without a history: a worker scans object after object, each one completely.
#![tactic(auto)]

mod backlog;
mod draining;
mod globals;
mod listed;
mod whole;

pub use draining::{Portion, drain, drain_some, is_alone, is_ready, may_scan, scan_objects};
pub use globals::mark_globals;
pub use listed::scan_listed;
