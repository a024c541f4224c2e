//! The heap for C: the functions that `include/pauseless.h` declares. Each is thin over a call of a `ManagedHeap`, with
//! that call's clauses.
//!
//! C has a `Handle`, with a word that marks it and a pointer to a heap in a box. A call borrows the heap from the
//! handle; a handle without a heap is recognized by its mark. The header lists what can't be checked here.
//!
//! The contract of an export is about the handle's contents before and after it. `alloc` takes no bytes: C passes
//! nothing for it.
#![tactic(auto)]

mod codes;
mod cycles;
mod data;
mod handle;
mod held;
mod hidden;
mod lending;
mod looking;
mod making;
mod memory;
mod objects;
mod policies;
mod references;
mod refusals;
mod slot;
mod statistics;
mod texts;
mod views;
mod which;
