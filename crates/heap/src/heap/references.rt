//! References of objects, and globals.

ghost use Rattle.std.specs.Prelude.{◌≡◌, ◌+◌, ◌<◌, ◌^◌, IfSome};
ghost use Rattle.std.specs.Option.{option_map};
ghost use Rattle.model.specs.References.{read_reference, global_of, field_at, store_outcome, store_global_outcome};
ghost use Rattle.model.specs.Refusing.{Does};
ghost use Rattle.model.specs.Saying.{said, done};
ghost use Rattle.model.specs.Outcome.{Passes};
ghost use Rattle.model.specs.declared.steps.Step.TheVariants as steps;
ghost use Rattle.model.specs.Loads.{bits_at};

use crate::heap::Heap;
use crate::heap::edits::RawEdits;
use model::{Place, Refusal};
use refword::{Addr, Word};

impl Heap {
    /// Returns how many words after the address of an object a reference of it is, by the reference's number from 0,
    /// or `None` if the object has no such reference.
    #[inline(always)]
    #[tactic(auto, unfolding(model::specs::References::field_at))]
    pub fn field_behind(&self, address: Addr, index: u32) -> Option<u64>
        ensures value { option_map (λ k. address + k) result ≡ field_at self.now address index }
        ensures few { IfSome result (λ _. index < 2 ^ 16) }
        ensures near { IfSome result (λ k. k < 2 ^ 17) }
    {
        let layout = self.layout_at(address)?;
        if index >= u32::from(layout.refs) {
            return None;
        }
        Some(1 + u64::from(index))
    }

    /// Returns the address of a reference of the object at an address, by the reference's number from 0, or `None` if
    /// the object has no such reference.
    pub fn field_at(&self, address: Addr, index: u32) -> Option<u64>
        ensures value { result ≡ field_at self.now address index }
        ensures few { IfSome result (λ _. index < 2 ^ 16) }
    {
        let ahead = self.field_behind(address, index)?;
        Some(address.number() + ahead)
    }

    /// Returns the word in a global, by its number from 0, or null if there is no such global.
    #[inline(always)]
    #[tactic(auto, unfolding(model::specs::References::global_of))]
    pub fn global(&self, number: u32) -> Word
        ensures { result ≡ global_of self.now number }
    {
        match self.globals().get(number as usize) {
            None => Word::null(),
            Some(global) => global.word,
        }
    }

    /// Returns the bits at the place of a load, or `None` if its page has no memory.
    pub fn bits_at(&self, place: Place) -> Option<u64>
        ensures { result ≡ bits_at self.now place }
    {
        match place {
            Place::Field { object, index } => {
                self.store.word(object.number() + 1 + u64::from(index))
            }
            Place::Global(number) => Some(self.global(number).bits()),
        }
    }

    /// Stores a register's word in a reference of an object, by the reference's number from 0.
    ///
    /// Fails as `usable` does for the object; with `BadIndex` if it has no such reference; as `usable_or_null` does
    /// for the source.
    #[inline(always)]
    #[tactic(auto, unfolding(model::specs::References::store_outcome))]
    pub fn store_row(
        &mut self,
        thread: u32,
        object: u32,
        field: u32,
        source: u32,
    ) -> Result<(), Refusal>
        requires { Passes self.old thread (steps.Store object field source) }
        ensures { Does self.old (said done result) self.new (store_outcome self.old thread object field source) }
    {
        let address = self.usable(thread, object)?;
        let Some(ahead) = self.field_behind(address, field) else {
            return Err(Refusal::BadIndex);
        };
        self.usable_or_null(thread, source)?;
        let word = self.register(thread, source);
        self.raw_set_word_behind(address, ahead, word.bits());
        Ok(())
    }

    /// Stores a register's word in a global, by the global's number from 0. Fails as `usable_or_null` does.
    #[inline(always)]
    #[tactic(auto, unfolding(model::specs::References::store_global_outcome))]
    pub fn store_global_row(
        &mut self,
        thread: u32,
        global: u32,
        register: u32,
    ) -> Result<(), Refusal>
        requires { Passes self.old thread (steps.StoreGlobal global register) }
        ensures { Does self.old (said done result) self.new (store_global_outcome self.old thread global register) }
    {
        self.usable_or_null(thread, register)?;
        let word = self.register(thread, register);
        self.set_global(global, word);
        Ok(())
    }
}
