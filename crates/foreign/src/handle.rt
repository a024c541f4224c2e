//! The handle of C.

ghost use Rattle.std.specs.Prelude.{◌≡◌, ◌==◌, Some, None};
ghost use Rattle.foreign.specs.Holding.{held_in, is_held};

use crate::held::Held;
use crate::hidden::Hidden;
use crate::slot::Slot;
use std::alloc::Global;

/// The mark of a handle that has a heap: the letters `pauseles` in a word, the first one lowest.
pub(crate) const MARK: u64 = 8_315_171_469_994_058_096;

/// `pauseless_heap`, the handle of C. It has a heap if it is marked, else none.
#[repr(C)]
#[derive(Drop)]
pub struct Handle {
    pub(crate) mark: u64,
    pub(crate) slot: Slot,
    ghost marked: { is_held slot.held ≡ (mark == 8315171469994058096) },
}

impl Handle {
    /// Makes a handle without a heap.
    fn empty() -> Handle
        ensures { result.slot.held ≡ None }
    {
        Handle {
            mark: 0,
            slot: Slot::empty(),
        }
    }

    /// Puts a heap into the handle.
    pub(crate) fn put(&mut self, held: Box<Held>)
        ensures { self.new.slot.held ≡ Some held.value }
    {
        *self = Handle {
            mark: MARK,
            slot: Slot::of(Hidden::of(held)),
        };
    }

    /// Takes the heap out, if there is one.
    pub(crate) fn take(&mut self, alloc: Global) -> Option<Box<Held>>
        ensures taken { held_in result ≡ self.old.slot.held }
        ensures empty { self.new.slot.held ≡ None }
    {
        let Handle { mark, slot } = std::mem::replace(self, Handle::empty());
        if mark == MARK {
            Some(slot.into_hidden(alloc).into_box())
        } else {
            None
        }
    }
}
