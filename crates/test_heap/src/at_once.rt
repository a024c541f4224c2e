//! Calls that are done at once if no trap is due: on a heap that isn't collected each of them is. Their contracts
//! allow that nothing is done; then the slow way does it.

use crate::same::same;
use cycle::Stepping;
use fast_paths::{
    datum_at_once, header_at_once, load_global_at_once, set_datum_at_once, store_at_once,
};
use heap::Heap;
use model::{Actor, Refusal, Step};
use std::process::Abort;
use std::test::Fail;
use test_support_samples::shared_by_two;

/// A heap whose calls are done at once.
trait AtOnce: Stepping {
    /// Returns whether each call on the object in register 0 is done.
    fn are_done(&mut self) -> [bool; 5];
}

impl AtOnce for Heap {
    fn are_done(&mut self) -> [bool; 5] {
        [
            store_at_once(self, 0, 0, 0, 0),
            load_global_at_once(self, 0, 1, 0),
            set_datum_at_once(self, 0, 0, 0, 7),
            datum_at_once(self, 0, 0, 0) == Some(7),
            header_at_once(self, 0, 0) == Some(0),
        ]
    }
}

/// Allocates an object in register 0, to which global 0 refers too.
fn make(heap: &mut impl Stepping) -> Result<(), Refusal> {
    let (target, layout, global, source) = (0, 0, 0, 0);
    for step in [
        Step::Take(16),
        Step::New { target, layout },
        Step::StoreGlobal { global, source },
    ] {
        heap.step(Actor::Thread(0), &step)?;
    }
    Ok(())
}

/// All calls on a new object are done.
fn all_done(rt: &impl Abort, mut heap: impl AtOnce + Drop) {
    same(rt, make(&mut heap), Ok(()));
    same(rt, heap.are_done(), [true; 5]);
}

#[test]
fn calls_are_done_at_once(rt: HostRuntime) -> Result<(), Fail> {
    let mut config = shared_by_two(rt.alloc())?;
    config.globals = 1;
    all_done(&rt, Heap::new(rt.alloc(), config)?);
    Ok(())
}
