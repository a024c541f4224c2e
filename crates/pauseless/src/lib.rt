//! All names that a program on the library needs. They are those of the heap with its configuration and collections,
//! the heap that keeps a history, the verifier, and reports. The heap is that of Click, Tene and Wolf, "The Pauseless
//! GC Algorithm" (VEE 2005).
//!
//! Make a `Config` by `Config::new`, and a `Heap` from it, which owns the policy by which it is collected, the increment
//! of its collection in parts, and `Counters` of its collections. The trait `HeapCalls` has its calls: each operation of
//! a mutator thread, such as `heap.datum(thread, object, index)`, returns a plain value or a `Refusal`; `heap.read` loads
//! a reference through the read barrier; `heap.make` allocates an object, and collects if frames run low; `heap.collect`
//! is a complete collection. Threads, registers, fields, data words, layouts and globals are numbers of different types,
//! such as `Register(0)`, so a call with two of them swapped doesn't compile. Calls that allocate take an allocator first;
//! a program gets it from its runtime by `rt.alloc()`.
//!
//! The invariant of the type `Heap` is that it represents a reference model, in which nothing moves or is freed;
//! `Heap::law` returns it as a fact. `Heap::managed` borrows the `ManagedHeap` inside for reading, and `into_managed`
//! returns it. Its calls take plain numbers, and policies and increments as arguments, by the traits `Mutate`,
//! `Collect` and `CollectCounted`.
//!
//! Threads of the system share a heap by a `SharedHeap`: each has a `ThreadSeat`, and works in portions of many steps on
//! a `Mutator`, by the calls of `PortionCalls`, or of `MutatorCalls`, which take plain numbers; a `CollectorSeat`
//! collects between portions. A `View` reads the complete heap without steps, by `Handle`s of its objects, also from
//! several threads.
//!
//! A `Book` is a heap with the history of its steps, and `Shared` a book that threads of the system share.
//! Their actors pass a `Step` of an `Actor` and get a `Reply`: an `Answer` or a `Refusal`.
//!
//! `verify` checks a heap independently: it takes the heap's `Image`, all memory and roots as plain data, and
//! returns `Sound` or the first fault. An image can be printed. For a `ManagedHeap`, `verify_held` returns `Sound`, by
//! its contract. `report_heap` prints the state of a heap in lines of text.
//!
//! `use pauseless::prelude::*` brings the heap, its configuration, its calls and the types of numbers.
//!
//! There is no code here: each name is defined in a crate of its own, with its contract. The heap is
//! `typed::TypedHeap`.
#![tactic(auto)]

pub mod prelude;

pub use choosing::choose;
pub use collecting::{
    CallFault, Cause, Collect, CollectCounted, Collected, Counters, Number, Object, Parts, Policy,
    PolicyFault, Target, collect_by, collect_counted_by, wrong_number,
};
pub use cycle::{
    Actor, Answer, Book, Buffer, Entry, EntryRef, History, PageList, Reply, Step, Trap, next_drain,
    run, three_traps,
};
pub use drains::{Portion, is_ready};
pub use heap::{Config, ConfigFault, NewFault, Refusal};
pub use heap_images::{image_of, verify};
pub use layout::{Layout, Layouts};
pub use managed::{FieldLoad, LoadsFault, ManagedHeap, Mutate};
pub use portions::{
    CollectorSeat, Handle, Mutator, MutatorCalls, OpenFault, Seats, SharedHeap, ThreadSeat, View,
};
pub use reporting::{ReportFault, report_heap};
pub use sharing::{Seat, Settled, Shared, Steps, Stray, settle};
pub use typed::{
    BulkCalls, Datum, Field, GlobalNumber, HeapCalls, LayoutNumber, Register, Thread,
    TypedHeap as Heap, USUAL_BUDGET,
};
pub use typed_portions::PortionCalls;
pub use verify::{Fault, Image, PageImage, Root, Verdict, Words, verify_image};
pub use verifying::verify_held;
