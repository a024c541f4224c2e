//! A managed heap that is collected by one call, in parts, or by itself if frames run low.
//!
//! `docs/LIBRARY.md` says under "Collections" when a program collects, and what it may expect.
#![tactic(auto)]

mod chosen;
mod collecting;
mod counted;
mod counting;
mod cycles;
mod executor;
mod faults;
mod filling;
mod leftovers;
mod low;
mod measured;
mod numbers;
mod pacing;
mod parts;
mod policy;
mod portions;
mod preparing;
mod rooms;
mod seeing;
mod target;
mod threading;
mod words;

pub use collecting::{Collect, Collected};
pub use counted::CollectCounted;
pub use counting::{Cause, Counters};
pub use faults::CallFault;
pub use numbers::{Number, wrong_number};
pub use parts::Parts;
pub use policy::{Policy, PolicyFault};
pub use seeing::Object;
pub use target::Target;
pub use threading::{collect_by, collect_counted_by};
