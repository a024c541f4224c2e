//! Data words of objects.

ghost use Rattle.std.specs.Prelude.{◌≡◌, ◌+◌, ◌<◌, ◌^◌, IfSome, if◌then◌else◌};
ghost use Rattle.std.specs.Option.{option_map};
ghost use Rattle.model.specs.Stores.{with_word};
ghost use Rattle.model.specs.Data.{layout_at, datum_at, datum_outcome, set_datum_outcome};
ghost use Rattle.model.specs.Refusing.{Does};
ghost use Rattle.model.specs.Saying.{said, done};
ghost use Rattle.model.specs.Outcome.{Passes};
ghost use Rattle.model.specs.declared.steps.Step.TheVariants as steps;
ghost use Rattle.model.specs.declared.steps.Answer.TheVariants as answers;

use crate::heap::Heap;
use layout::{Layout, layout_of};
use model::Refusal;
use refword::Addr;

impl Heap {
    /// Returns the layout of the object at an address, if a header of a layout in the table is there.
    #[inline(always)]
    #[tactic(auto, unfolding(model::specs::Data::layout_at))]
    pub fn layout_at(&self, address: Addr) -> Option<Layout>
        ensures { result ≡ layout_at self.now address }
    {
        let header = self.store.first_word(address)?;
        self.config.layouts.get(layout_of(header))
    }

    /// Returns how many words after the address of an object a data word of it is, or `None` if it has no such word.
    #[inline(always)]
    #[tactic(auto, unfolding(model::specs::Data::datum_at))]
    pub(crate) fn datum_behind(&self, address: Addr, index: u32) -> Option<u64>
        ensures value { option_map (λ k. address + k) result ≡ datum_at self.now address index }
        ensures near { IfSome result (λ k. k < 2 ^ 17) }
    {
        let layout = self.layout_at(address)?;
        if index >= u32::from(layout.nums) {
            return None;
        }
        Some(1 + u64::from(layout.refs) + u64::from(index))
    }

    /// Writes the word at an address, if its page has memory.
    pub(crate) fn set_word(&mut self, address: u64, value: u64)
        ensures { self.new ≡ record self.old { store = with_word self.old.store address value } }
    {
        self.store.set_word(address, value);
    }

    /// A raw edit: writes the word less than 2^17 words after an address, if its page has memory.
    #[inline(always)]
    pub fn raw_set_word_behind(&mut self, address: Addr, ahead: u64, value: u64)
        requires { ahead < 2 ^ 17 }
        ensures { self.new ≡ record self.old { store = with_word self.old.store (address + ahead) value } }
    {
        self.store.set_word_behind(address, ahead, value);
    }

    /// Reads a data word, by its number from 0. Fails as `usable` does, then with `BadIndex` if the object has no
    /// such word.
    #[inline(always)]
    #[tactic(auto, unfolding(model::specs::Data::datum_outcome))]
    pub fn datum_row(&self, thread: u32, object: u32, index: u32) -> Result<u64, Refusal>
        requires { Passes self.now thread (steps.Datum object index) }
        ensures { Does self.now (said answers.Datum result) self.now (datum_outcome self.now thread object index) }
    {
        let address = self.usable(thread, object)?;
        let Some(ahead) = self.datum_behind(address, index) else {
            return Err(Refusal::BadIndex);
        };
        match self.store.word_behind(address, ahead) {
            None => Err(Refusal::BadIndex),
            Some(value) => Ok(value),
        }
    }

    /// Writes a data word, by its number from 0. Fails as `datum_row` does.
    #[inline(always)]
    #[tactic(auto, unfolding(model::specs::Data::set_datum_outcome))]
    pub fn set_datum_row(
        &mut self,
        thread: u32,
        object: u32,
        index: u32,
        value: u64,
    ) -> Result<(), Refusal>
        requires { Passes self.old thread (steps.SetDatum object index value) }
        ensures { Does self.old (said done result) self.new (set_datum_outcome self.old thread object index value) }
    {
        let address = self.usable(thread, object)?;
        let Some(ahead) = self.datum_behind(address, index) else {
            return Err(Refusal::BadIndex);
        };
        self.raw_set_word_behind(address, ahead, value);
        Ok(())
    }
}
