//! The objects of an image, by its start bits and headers.

ghost use Rattle.std.specs.Prelude.{◌≡◌, ◌<◌, ◌≤◌, ◌%◌, ◌^◌, ℕ, false, None, get_or, slice_get, option_map};
ghost use Rattle.std.specs.Option.{option_copied};
ghost use Rattle.model.specs.declared.limits.TheConstants.{MOST_WORDS};
ghost use Rattle.verify.specs.Images.{page_at, word_at, starts_on, object_in, object_at, field};
ghost use Rattle.verify.specs.Walks.{space};

use crate::image::{Image, PageImage, Words};
use layout::{birth_of, layout_of};
use refword::Addr;

/// An object by its header.
#[derive(Clone, Copy)]
pub(crate) struct Object {
    /// Its birth number.
    pub(crate) birth: u64,
    /// The number of its reference fields.
    pub(crate) refs: u16,
}

impl Words {
    /// Returns the word at an index, if it exists.
    pub(crate) fn get(&self, index: u64) -> Option<u64>
        ensures { result ≡ slice_get self.now index }
    {
        self.words.get(index as usize).copied()
    }
}

impl PageImage {
    /// Returns whether an object starts at an offset.
    fn starts_at(&self, offset: u64) -> bool
        ensures { result ≡ get_or self.now.starts offset false }
    {
        self.starts.test(offset as usize)
    }
}

impl Image {
    /// Returns the page of an address.
    #[tactic(auto, unfolding(crate::specs::Images::page_at))]
    pub(crate) fn page_at(&self, address: u64) -> Option<&PageImage>
        requires { 0 < self.now.words }
        ensures { option_copied result ≡ page_at self.now address }
    {
        let page = address / u64::from(self.words);
        if page == 0 {
            None
        } else {
            self.pages.get((page - 1) as usize)
        }
    }

    /// Returns the word at an address, if its page has a frame.
    #[tactic(auto, unfolding(crate::specs::Images::word_at))]
    fn word_at(&self, address: u64) -> Option<u64>
        requires { 0 < self.now.words }
        ensures { result ≡ word_at self.now address }
    {
        let offset = address % u64::from(self.words);
        let page = self.page_at(address)?;
        let frame = page.frame?;
        let frame = self.frames.get(frame as usize)?;
        frame.get(offset)
    }

    /// Returns whether an address has a start bit.
    fn starts_at(&self, address: u64) -> bool
        requires { 0 < self.now.words }
        ensures { result ≡ starts_on (page_at self.now address) (address % self.now.words) }
    {
        let offset = address % u64::from(self.words);
        match self.page_at(address) {
            None => false,
            Some(page) => page.starts_at(offset),
        }
    }

    /// Returns the object whose header is at an address, if its layout is known and it ends in its page.
    #[tactic(auto, unfolding(crate::specs::Images::object_in))]
    fn object_in(&self, address: u64) -> Option<Object>
        requires { 0 < self.now.words }
        ensures { result ≡ object_in self.now address }
    {
        let bits = self.word_at(address)?;
        let layout = self.layouts.get(layout_of(bits) as usize).copied()?;
        let offset = address % u64::from(self.words);
        if offset + u64::from(layout.size()) <= u64::from(self.words) {
            Some(Object {
                birth: birth_of(bits),
                refs: layout.refs,
            })
        } else {
            None
        }
    }

    /// Returns the object that starts at an address.
    #[tactic(auto, unfolding(crate::specs::Images::object_at))]
    pub(crate) fn object_at(&self, address: u64) -> Option<Object>
        requires { 0 < self.now.words }
        ensures { result ≡ object_at self.now address }
    {
        if address < Addr::LIMIT && self.starts_at(address) {
            self.object_in(address)
        } else {
            None
        }
    }

    /// Returns the value of a field of the object at an address, if the object has such a field.
    #[tactic(auto, unfolding(crate::specs::Images::field, crate::specs::Images::object_at))]
    pub(crate) fn field(&self, address: u64, index: u32) -> Option<u64>
        requires { 0 < self.now.words }
        ensures { result ≡ field self.now address index }
    {
        let object = self.object_at(address)?;
        if index < u32::from(object.refs) {
            self.word_at(address + 1 + u64::from(index))
        } else {
            None
        }
    }

    /// Returns the number of fields of the object at an address; 0 if there is no object.
    #[tactic(auto, unfolding(crate::specs::Images::field))]
    pub(crate) fn refs_at(&self, address: u64) -> u32
        requires { 0 < self.now.words }
        ensures { (k : ℕ) → result ≤ k → field self.now address k ≡ None }
    {
        match self.object_at(address) {
            None => 0,
            Some(object) => u32::from(object.refs),
        }
    }

    /// Returns the birth number of the object that starts at an address.
    pub(crate) fn birth_at(&self, address: u64) -> Option<u64>
        requires { 0 < self.now.words }
        ensures { result ≡ option_map (λ o. o.birth) (object_at self.now address) }
    {
        let object = self.object_at(address)?;
        Some(object.birth)
    }

    /// Returns a number, at most 2^40, that is above the addresses of all objects.
    pub(crate) fn space(&self) -> u64
        requires sized { 0 < self.now.words }
        requires page { self.now.words ≤ MOST_WORDS }
        ensures value { result ≡ space self.now }
        ensures range { result ≤ 2 ^ 40 }
    {
        let pages = self.pages.len() as u64;
        if pages >= Addr::LIMIT {
            return Addr::LIMIT;
        }
        let words = (pages + 1) * u64::from(self.words);
        if words >= Addr::LIMIT {
            Addr::LIMIT
        } else {
            words
        }
    }
}
