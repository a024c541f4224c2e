//! Calls that are done in one go: on a heap that isn't collected each of them is, also while a thread has an open
//! load. Their contracts allow that nothing is done; then the slow call does it.

use crate::heaps::heap_of;
use crate::same::same;
use collecting::{Collect, Policy};
use layout::Layout;
use managed::ManagedHeap;
use std::alloc::Global;
use std::process::Abort;

const ME: u32 = 0;

/// The register of an object whose first reference is itself.
const NODE: u32 = 0;

/// The register that gets a reference.
const READ: u32 = 1;

/// A heap whose calls are done in one go.
trait InOneGo: Collect {
    /// Returns whether each call on the object in a register is done.
    fn are_done(&mut self) -> [bool; 6];
}

impl InOneGo for ManagedHeap {
    fn are_done(&mut self) -> [bool; 6] {
        [
            self.store_at_once(ME, NODE, 1, NODE),
            self.read_at_once(ME, READ, NODE, 1),
            self.set_datum_at_once(ME, READ, 0, 7),
            self.datum_at_once(ME, NODE, 0) == Some(7),
            self.same_at_once(ME, NODE, READ) == Some(true),
            self.header_at_once(ME, READ) == Some(0),
        ]
    }
}

/// All calls on a new object of two references and one data word are done, and once more.
fn all_done(rt: &impl Abort, alloc: Global, heap: &mut impl InOneGo) {
    let policy = Policy {
        words: 16,
        free: 0,
        percent: 75,
    };
    same(rt, heap.make(alloc, policy, ME, NODE, 0), Ok(0));
    same(rt, heap.are_done(), [true; 6]);
    same(rt, heap.are_done(), [true; 6]);
}

#[test]
fn calls_are_done_in_one_go(rt: HostRuntime) {
    let mut heap = heap_of(&rt, rt.alloc(), 8, Layout { refs: 2, nums: 1 });
    all_done(&rt, rt.alloc(), &mut heap);
}
