//! A pointer that leads to a heap, or nowhere.

ghost use Rattle.std.specs.Prelude.{◌≡◌, true, Option, Some, None};
ghost use Rattle.foreign.specs.declared.held.Held.{Held};
ghost use Rattle.foreign.specs.Holding.{slot_owns, is_held};

use crate::held::Held;
use crate::hidden::Hidden;
use std::alloc::Global;
use std::marker::Model;

/// The target of C's pointer, which C can't read.
#[repr(C)]
#[derive(Drop)]
pub struct Opaque {
    private: u8,
}

/// A pointer that leads to a heap, which it then owns, or nowhere.
#[repr(C)]
#[derive(Drop)]
pub struct Slot {
    pub(crate) at: *mut Opaque,
    pub ghost held: { Option Held },
}

impl Model for Slot {
    ghost also_owns = { λ s. slot_owns s.at s.held };
}

impl Slot {
    /// Makes a slot that leads nowhere.
    pub fn empty() -> Slot
        ensures { result.held ≡ None }
    {
        Slot {
            at: std::ptr::null_mut(),
        }
    }

    /// Makes a slot that leads to the contents of a box.
    pub fn of(hidden: Hidden<Held, Global>) -> Slot
        ensures { result.held ≡ Some hidden.value }
    {
        let Hidden { ptr, alloc: _ } = hidden;
        Slot {
            at: ptr as *mut Opaque,
        }
    }

    /// Returns the parts of the box of a slot that leads there.
    pub fn into_hidden(self, alloc: Global) -> Hidden<Held, Global>
        requires { is_held self.held ≡ true }
        ensures { self.held ≡ Some result.value }
    {
        let Slot { at } = self;
        Hidden {
            ptr: at as *mut Held,
            alloc,
        }
    }
}
