//! Live objects and their sizes that are kept with their page.

use crate::protections::{close, new_heap};
use crate::same::same_at;
use cycle::Stepping;
use heap::Heap;
use model::{Actor, Step};
use relocate::measured_objects;
use std::alloc::{AllocError, Global};
use std::process::Abort;
use std::test::Fail;

/// A heap that keeps sizes.
trait Keeping: Stepping {
    /// Keeps the sizes of a page.
    fn keep(&mut self, page: u32) -> Result<(), AllocError>;

    /// Returns whether the sizes of each of the pages 1 to 3 are kept.
    fn kept(&self) -> [bool; 3];

    /// Keeps the objects of page 1.
    fn keep_first(&mut self, alloc: Global) -> Result<(), AllocError>;

    /// Frees what is kept with a page.
    fn forget(&mut self, page: u32);

    /// Takes the objects of page 1, and returns whether they were kept.
    fn take_first(&mut self) -> bool;
}

/// Returns whether the sizes of a page are kept.
fn is_kept(heap: &Heap, page: u32) -> bool {
    0 < page && page <= heap.memory().page_count() && heap.sizes_on(page).is_some()
}

impl Keeping for Heap {
    fn keep(&mut self, page: u32) -> Result<(), AllocError> {
        self.keep_sizes(page)
    }

    fn kept(&self) -> [bool; 3] {
        [is_kept(self, 1), is_kept(self, 2), is_kept(self, 3)]
    }

    fn keep_first(&mut self, alloc: Global) -> Result<(), AllocError> {
        if self.memory().page_count() == 0 {
            return Ok(());
        }
        let objects = measured_objects(alloc, self, 1)?;
        self.keep_objects(1, objects)
    }

    fn forget(&mut self, page: u32) {
        self.forget_objects(page);
    }

    fn take_first(&mut self) -> bool {
        self.memory().page_count() != 0 && self.raw_take_objects(1).is_some()
    }
}

const NONE: [bool; 3] = [false; 3];

const FIRST: [bool; 3] = [true, false, false];

/// The sizes of page 1, which has one object, are kept until the object's datum is written, or until its objects are
/// taken. Pages 2 and 3 have no memory.
fn keeps(rt: &impl Abort, mut heap: impl Keeping + Drop) -> Result<(), Fail> {
    close(&mut heap)?;
    same_at(rt, "first", heap.kept(), NONE);
    for page in 0..4 {
        heap.keep(page)?;
    }
    same_at(rt, "then", heap.kept(), FIRST);
    let (object, index, value) = (0, 0, 7);
    let step = Step::SetDatum {
        object,
        index,
        value,
    };
    heap.step(Actor::Thread(0), &step)?;
    same_at(rt, "after a write", heap.kept(), NONE);
    heap.keep(1)?;
    same_at(rt, "again", heap.kept(), FIRST);
    let taken = [heap.take_first(), heap.take_first(), false];
    same_at(rt, "taken", taken, FIRST);
    same_at(rt, "after they were taken", heap.kept(), NONE);
    Ok(())
}

#[test]
fn sizes_are_kept_until_a_write(rt: HostRuntime) -> Result<(), Fail> {
    keeps(&rt, new_heap(rt.alloc())?)
}

/// The objects of page 1 are kept until they are freed, and what is kept with other pages stays.
fn keeps_objects(
    rt: &impl Abort,
    alloc: Global,
    mut heap: impl Keeping + Drop,
) -> Result<(), Fail> {
    close(&mut heap)?;
    heap.keep_first(alloc)?;
    same_at(rt, "kept", heap.kept(), FIRST);
    for page in [0, 2, 3, u32::MAX] {
        heap.forget(page);
    }
    same_at(rt, "others freed", heap.kept(), FIRST);
    heap.forget(1);
    same_at(rt, "freed", heap.kept(), NONE);
    heap.keep_first(alloc)?;
    let taken = [heap.take_first(), heap.take_first(), false];
    same_at(rt, "taken", taken, FIRST);
    Ok(())
}

#[test]
fn objects_are_kept_until_they_are_freed(rt: HostRuntime) -> Result<(), Fail> {
    keeps_objects(&rt, rt.alloc(), new_heap(rt.alloc())?)
}
