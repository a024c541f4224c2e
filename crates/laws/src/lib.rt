//! The laws of the collector: the invariant of all transitions, and what it promises to threads. There is no code here.
//! One function without a body has the laws as its clauses; a crate that needs them calls it, or uses the lemmas in
//! `proofs/`.
//!
//! Two models are compared. The *reference model* (`specs/BirthHeap.antt`) has births that refer to one another; it
//! has no addresses, and nothing in it moves or is freed. The *address-level model* (`specs/AddressHeap.antt`) has
//! which object starts at which address, the state of its page, what is marked, what is forwarded to which place, and
//! which thread has crossed. Both are functions of numbers, without words of memory, page sizes or bitmaps.
//!
//! A *transition* (`specs/Transitions.antt`) is the effect of one accepted step on both, under the tests that the
//! laws need of it: a thread allocates, loads, traps, heals, stores, crosses or parks, a worker scans, copies or
//! releases, and a phase begins or ends. A *run* is a list of transitions. The *invariant* (`specs/Invariant.antt`)
//! holds between any two. It has two ideas:
//!
//! - A birth is *kept* if a path of references leads to it from a root, or from a marked birth. Each kept birth has
//!   one current object, with the fields of the reference model, on a page with memory; and if that page is a From
//!   page, the object is planned to move.
//! - A *clean* reference has the collector's clean NMT value. While no mark runs, all references of roots and kept
//!   objects are clean. While one runs, a clean reference leads to a marked object, and everything that the mark has
//!   passed (scanned objects, registers of threads that have crossed, globals that were marked) has clean references
//!   only. So at its end everything reachable is marked.
//!
//! The laws don't cover how objects lie in words and pages, that the program's steps are such transitions, or that a
//! mark ever ends.
#![tactic(auto)]

ghost use Rattle.laws.specs.Promises.{RunsKeepInvariant, RunsStandForPlain, RunsAnswerPlain, MarksEndLive};
ghost use Rattle.laws.specs.Promises.{MarksLeaveUnreachable, MarksCanEnd};

/// Proves the laws. A run is a list of transitions of any threads and workers, in any order. An address-level model
/// *represents* a reference model if
///
/// - each register, global and open barrier refers to what the reference model has in its place, and
/// - each reachable birth has exactly one current object: on a page with memory, with the layout, the data and the
///   references of the reference model.
pub fn law()
    // the first models have the invariant, and every run keeps it
    ensures kept { RunsKeepInvariant }
    // after every run from the first models, the address-level model represents the reference model, and no usable
    // register refers to a page without memory
    ensures stands { RunsStandForPlain }
    // then a read through a usable register returns the object of the birth in the reference model's register; two
    // registers have one address exactly if they refer to one birth; and a register is null exactly if it has no
    // birth
    ensures reads { RunsAnswerPlain }
    // if a mark ends in models with the invariant, so after any such run, each reachable object is live, and each
    // live object was reachable when the mark started, or is born since
    ensures ended { MarksEndLive }
    // objects on protected pages that are uncopied when a mark ends are unreachable
    ensures left { MarksLeaveUnreachable }
    // marks can end: shown by one run, of a heap without globals, in which nothing is born
    ensures ends { MarksCanEnd }
{}
