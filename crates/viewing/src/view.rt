//! Views: the roots of a heap that is read.

ghost use Rattle.std.specs.Prelude.{◌≡◌};
ghost use Rattle.viewing.specs.Viewing.{global_entry, register_entry, FindsEntry};

use crate::handle::{Handle, handle_of};
use crate::places::{global_at, register_at};
use managed::ManagedHeap;
use model::Refusal;
use std::marker::Model;

/// A complete heap, to be read in any phase of a collection, for as long as nothing changes it. A view changes
/// nothing either, so threads may read one heap at the same time.
#[derive(Drop)]
pub struct View<'a> {
    heap: &'a ManagedHeap,
}

impl<'a> Model for View<'a> {
    ghost use Rattle.model.specs.States.{HeapState};

    ghost Value = { HeapState };

    ghost view = { λ v. v.heap.now };
}

impl<'a> View<'a> {
    /// Returns a view of a heap.
    pub fn of(heap: &'a ManagedHeap) -> View<'a>
        ensures { result ≡ heap.now }
    {
        View { heap }
    }

    /// Returns the object that a register of a thread refers to, or `None` if the register is null. Threads and
    /// registers count from 0. Fails with `BadIndex` if the heap has no such thread or register.
    pub fn register(&self, thread: u32, register: u32) -> Result<Option<Handle<'a>>, Refusal>
        ensures { FindsEntry self.now (register_entry thread register) result }
    {
        let found = register_at(self.heap, thread, register)?;
        Ok(handle_of(self.heap, found))
    }

    /// Returns the object that a global refers to, or `None` if the global is null. Globals count from 0. Fails with
    /// `BadIndex` if the heap has no such global.
    pub fn global(&self, global: u32) -> Result<Option<Handle<'a>>, Refusal>
        ensures { FindsEntry self.now (global_entry global) result }
    {
        let found = global_at(self.heap, global)?;
        Ok(handle_of(self.heap, found))
    }
}
