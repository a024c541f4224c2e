//! Assertions that two values are equal. An assertion in a test takes some seconds of proof, a call of one here next
//! to none.

use portions::SharedHeap;
use std::alloc::Global;
use std::fmt::Debug;
use std::process::Abort;
use std::test::Fail;
use test_support_threads::team::verifies;

/// Asserts that two values are equal.
pub fn same<T: PartialEq + Debug + Drop>(rt: &impl Abort, found: T, wanted: T) {
    assert_eq!(rt; found, wanted);
}

/// A heap that was shared is sound.
pub fn is_sound(rt: &impl Abort, alloc: Global, shared: SharedHeap) -> Result<(), Fail> {
    same(rt, verifies(alloc, shared)?, true);
    Ok(())
}

/// The work on a shared heap has succeeded, and the heap is sound. An error drops the heap by one call: field by field,
/// at each `?`, that takes a minute of proof.
pub fn is_sound_then(
    rt: &impl Abort,
    alloc: Global,
    shared: SharedHeap,
    done: Result<(), Fail>,
) -> Result<(), Fail> {
    match done {
        Ok(()) => is_sound(rt, alloc, shared),
        Err(fault) => {
            drop(shared);
            Err(fault)
        }
    }
}
