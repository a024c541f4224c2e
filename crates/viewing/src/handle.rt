//! Objects that a view has found.

ghost use Rattle.std.specs.Prelude.{◌≡◌, nat_eq, IfSome};
ghost use Rattle.std.specs.Option.{option_map};
ghost use Rattle.viewing.specs.Viewing.{birth_seen, field_entry, handle_at, FindsEntry, IsHandle, ReadsDatum};
ghost use Rattle.viewing.specs.Viewing.{TellsObject};

use crate::places::{data_word_at, object_at, reference_at};
use collecting::Object;
use managed::ManagedHeap;
use model::Refusal;
use refword::Addr;
use std::marker::Model;

/// An object of a heap, for as long as nothing changes the heap. It is no root, as nothing moves meanwhile.
#[derive(Drop)]
pub struct Handle<'a> {
    heap: &'a ManagedHeap,
    address: Addr,
}

impl<'a> Model for Handle<'a> {
    ghost use Rattle.viewing.specs.Viewing.{HandleState};
    ghost use Rattle.viewing.specs.Views.{handle_of, IsHandleInside};

    ghost Value = { HandleState };

    ghost view = { handle_of };

    ghost invariant = { IsHandleInside };
}

/// Returns the handle of an object that was found.
pub(crate) fn handle_of<'a>(heap: &'a ManagedHeap, found: Option<Addr>) -> Option<Handle<'a>>
    requires { IfSome found (λ a. IsHandle (handle_at heap.now a)) }
    ensures { result ≡ option_map (handle_at heap.now) found }
{
    let address = found?;
    Some(Handle { heap, address })
}

impl<'a> Handle<'a> {
    /// Returns the object that a reference of this object refers to, or `None` if it is null. References count from
    /// 0. Fails with `BadIndex` if the object has no such reference.
    pub fn load(&self, index: u32) -> Result<Option<Handle<'a>>, Refusal>
        ensures { FindsEntry self.now.heap (field_entry self.now index) result }
    {
        let found = reference_at(self.heap, self.address, index)?;
        Ok(handle_of(self.heap, found))
    }

    /// Returns a data word of this object. Data words count from 0. Fails with `BadIndex` if the object has no such
    /// data word.
    pub fn datum(&self, index: u32) -> Result<u64, Refusal>
        ensures { ReadsDatum self.now index result }
    {
        data_word_at(self.heap, self.address, index)
    }

    /// Returns the birth of this object, its layout, and how many references and data words it has.
    pub fn object(&self) -> Object
        ensures { TellsObject self.now result }
    {
        object_at(self.heap, self.address).unwrap()
    }

    /// Returns whether two handles of one heap refer to the same object.
    pub fn same(&self, other: &Handle<'_>) -> bool
        ensures { self.now.heap ≡ other.now.heap → result ≡ nat_eq (birth_seen self.now) (birth_seen other.now) }
    {
        self.heap.law();
        self.address == other.address
    }
}
