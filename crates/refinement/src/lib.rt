//! The state of a heap represents a reference model, and each accepted step has the model's answer. The address-level
//! model of `laws` is between the two: each step is a transition of the laws, or changes neither model. There is no
//! code here. One function without a body has this as its clauses, and a crate that needs them calls it.
//!
//! `specs/Worlds.antt` reads the address-level model from the state: an object starts at each start bit, and its
//! header, references and data are the words of its page there. In `specs/Claims.antt`, memory is in order: objects,
//! allocation buffers, planned places and the free ends of open pages don't overlap. `specs/Standing.antt` joins both
//! with the invariant of the laws: this is the *invariant* between a state and a reference model, and if it holds,
//! the state *represents* that model.
#![tactic(auto)]

ghost use Rattle.refinement.specs.Packing.{PagesLieInTwo};
ghost use Rattle.refinement.specs.Naming.{NamesWhole};
ghost use Rattle.refinement.specs.Standing.{HeapsStand, HeapsRead, FirstHolds, StepsHold, MarksFind, PhasesMove};
ghost use Rattle.refinement.specs.Tallies.{StepsCount};

/// Joins the states of the code to the laws, for every state that has the invariants of all heaps, `IsStore` and
/// `IsHeap`, and for each step of each actor. It isn't about rejected steps: these change nothing.
pub fn law()
    // if the invariant holds between a state and a reference model, the state represents it: registers, loads and
    // globals refer to what the reference model has, and each reachable birth has exactly one current copy, on a page
    // with memory, with the reference model's fields; and no usable register refers to a page without memory
    ensures stands { HeapsStand }
    // a read through a usable register returns what the reference model's does
    ensures reads { HeapsRead }
    // the invariant holds between the first state of a configuration and its first reference model
    ensures first { FirstHolds }
    // if it holds, it does after an accepted step, whose answer is the reference model's
    ensures steps { StepsHold }
    // if a mark has ended, each reachable object is live, and each live object was reachable when the mark started,
    // or is born since; and objects that weren't copied from a protected page by then are unreachable
    ensures marks { MarksFind }
    // the phase changes as in the collector's cycle, and in no other way
    ensures phases { PhasesMove }
    // the barrier counters of threads count the results of their loads, and nothing else
    ensures tallies { StepsCount }
{}

/// Proves where the objects of a page go that is protected, in a state that represents a reference model: the entries
/// of its forwarding table go to at most two targets, one and the next that was opened. As objects don't overlap,
/// those of a page have at most the words of one target.
pub fn packing_law()
    ensures { PagesLieInTwo }
{}

/// Proves where the objects of registers are, in a state that represents a reference model: a usable register refers
/// to an object that lies completely on its page, so its layout is in the table and none of its words is past the
/// page's end; and each address in a register, or in a reference of such an object, is on a page that has a record.
pub fn naming_law()
    ensures { NamesWhole }
{}
