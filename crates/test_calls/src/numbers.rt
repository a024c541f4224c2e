//! Which number of a store names nothing, and texts of faults.

use crate::faults::tells;
use crate::heaps::new_heap;
use crate::same::{done, same};
use collecting::{CallFault, Collect, Number, Policy, PolicyFault};
use managed::ManagedHeap;
use model::{Refusal, Step};
use std::alloc::Global;
use std::process::Abort;

const ME: u32 = 0;

/// A register with an object of a reference and a datum, and one that the heap doesn't have.
const HERE: u32 = 0;

const NOWHERE: u32 = 16;

/// A heap that returns the fault of a step.
trait Faulty: Collect {
    /// Returns the fault of a step that is rejected with this error.
    fn fault_of(&self, step: &Step, refusal: Refusal) -> CallFault;
}

impl Faulty for ManagedHeap {
    fn fault_of(&self, step: &Step, refusal: Refusal) -> CallFault {
        CallFault::of_step(self.heap(), step, refusal)
    }
}

/// A store is rejected for the thread, the object's register, the source or the field.
fn stores(
    rt: &impl Abort,
    heap: &mut impl Faulty,
    thread: u32,
    numbers: [u32; 3],
    wanted: CallFault,
) {
    let [object, field, source] = numbers;
    let step = Step::Store {
        object,
        field,
        source,
    };
    match heap.store(thread, object, field, source) {
        Ok(()) => same(rt, wanted, CallFault::Null),
        Err(refusal) => same(rt, heap.fault_of(&step, refusal), wanted),
    }
}

/// Stores are rejected for each of their numbers.
fn all_stores(rt: &impl Abort, alloc: Global, heap: &mut impl Faulty) {
    done(rt, heap.make(alloc, Policy::usual(16, 4), ME, HERE, 0));
    let register = CallFault::Wrong(Number::Register);
    for (thread, numbers, wanted) in [
        (1, [HERE, 0, HERE], CallFault::Wrong(Number::Thread)),
        (ME, [NOWHERE, 0, HERE], register),
        (ME, [HERE, 0, NOWHERE], register),
        (ME, [HERE, 1, HERE], CallFault::Wrong(Number::Field)),
        (ME, [1, 0, HERE], CallFault::Null),
    ] {
        stores(rt, heap, thread, numbers, wanted);
    }
}

#[test]
fn of_a_store(rt: HostRuntime) {
    let mut heap = new_heap(&rt, rt.alloc(), 4, 8);
    all_stores(&rt, rt.alloc(), &mut heap);
}

#[test]
fn texts(rt: HostRuntime) {
    for (fault, wanted) in [
        (
            CallFault::from(PolicyFault::Percent),
            "percent out of range",
        ),
        (
            CallFault::Wrong(Number::Field),
            "the object has no such reference",
        ),
    ] {
        tells(&rt, rt.alloc(), fault, wanted);
    }
}
