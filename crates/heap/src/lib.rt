//! The heap: pages, threads, workers, globals and the collector's state, and the steps of threads.
#![tactic(auto)]

mod fault;
mod heap;

pub use fault::NewFault;
pub use heap::Heap;
pub use heap::collecting::RawCollectorEdits;
pub use heap::edits::RawEdits;
pub use markbits::{IndexedRows, Row, Rows};
pub use model::{Config, ConfigFault, Refusal, Tally};
pub use page_rows::PageMemory;
pub use part_scans::read_reference;
pub use thread_records::Thread;
