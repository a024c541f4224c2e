//! An image together with tables of its forwarding tables, and the objects to which its values lead.

ghost use Rattle.std.specs.Prelude.{◌≡◌, ◌<◌, ◌≤◌, ◌%◌, ℕ, IfOk, IfSome, MatchBool, Some, None, is_some};
ghost use Rattle.std.specs.Prelude.{slice_get};
ghost use Rattle.std.specs.Option.{option_copied};
ghost use Rattle.model.specs.Stores.{is_protected};
ghost use Rattle.verify.specs.Images.{copy_on, page_at, if_protected, resolve, is_copied, leads, field};
ghost use Rattle.verify.specs.Soundness.{IsGood};
ghost use Rattle.verify.specs.Walks.{target, space};

use crate::image::{Image, PageImage};
use crate::tables::Table;
use model::PageState;
use refword::{Addr, Word};
use std::alloc::{AllocError, Global};
use std::marker::Model;

/// An image, and a table by offset for the forwarding table of each of its pages. A contract sees the image.
#[derive(Drop)]
pub(crate) struct Chart<'a> {
    image: &'a Image,
    tables: Vec<Table>,
}

impl<'a> Model for Chart<'a> {
    ghost use Rattle.verify.specs.Images.{ImageData};
    ghost use Rattle.verify.specs.Copies.{AreTables};

    ghost Value = { ImageData };

    ghost view = { λ c. c.image.now };

    ghost invariant = { λ c. AreTables c.image.now c.tables.items };
}

impl<'a> Chart<'a> {
    /// Returns the chart of an image. Fails only if out of memory.
    pub(crate) fn new(alloc: Global, image: &'a Image) -> Result<Chart<'a>, AllocError>
        ensures { IfOk result (λ c. c ≡ image.now) }
    {
        let mut tables = Vec::with_capacity(alloc, image.pages.len())?;
        for page in &image.pages {
            tables.push(Table::new(alloc, &page.side, image.words)?)?;
        }
        Ok(Chart { image, tables })
    }

    /// Returns its image.
    pub(crate) fn image(&self) -> &Image
        ensures { result.now ≡ self.now }
    {
        self.image
    }

    /// Returns the address to which the object of an address was copied, by its page's forwarding table.
    #[tactic(auto, unfolding(crate::specs::Images::page_at))]
    fn copy_at(&self, address: u64) -> Option<Addr>
        requires { 0 < self.now.words }
        ensures { result ≡ copy_on (page_at self.now address) (address % self.now.words) }
    {
        let image = self.image;
        let words = u64::from(image.words);
        let page = address / words;
        if page == 0 {
            return None;
        }
        let index = (page - 1) as usize;
        let table = table_of(&self.tables, index)?;
        let page = page_of(&image.pages, index)?;
        table.get(&page.side, image.words, address % words)
    }

    /// Returns whether the page of an address is protected.
    fn is_protected(&self, address: u64) -> bool
        requires { 0 < self.now.words }
        ensures { result ≡ is_some (if_protected (page_at self.now address)) }
    {
        let image = self.image;
        match image.page_at(address) {
            None => false,
            Some(page) => page.is_protected(),
        }
    }

    /// Returns an address after forwarding.
    #[tactic(auto, unfolding(crate::specs::Images::resolve))]
    fn resolve(&self, address: u64) -> u64
        requires { 0 < self.now.words }
        ensures { result ≡ resolve self.now address }
    {
        if !self.is_protected(address) {
            return address;
        }
        match self.copy_at(address) {
            None => address,
            Some(to) => to.number(),
        }
    }

    /// Returns whether a forwarding table has an address as copied.
    #[tactic(auto, unfolding(crate::specs::Images::is_copied))]
    pub(crate) fn is_copied(&self, address: u64) -> bool
        requires { 0 < self.now.words }
        ensures { result ≡ is_copied self.now address }
    {
        match self.copy_at(address) {
            None => false,
            Some(_to) => true,
        }
    }

    /// Returns the object to which a value leads: none, or its address. Returns `None` if the value isn't good.
    #[tactic(auto, unfolding(crate::specs::Images::leads))]
    pub(crate) fn leads(&self, value: u64) -> Option<Option<u64>>
        requires { 0 < self.now.words }
        ensures { result ≡ leads self.now value }
    {
        match Word::read(value)?.addr() {
            None => Some(None),
            Some(address) => {
                let to = self.resolve(address.number());
                match self.image().object_at(to) {
                    None => None,
                    Some(_object) => Some(Some(to)),
                }
            }
        }
    }

    /// Returns the address to which a field leads.
    #[tactic(auto, unfolding(crate::specs::Walks::target))]
    pub(crate) fn target(&self, address: u64, index: u32) -> Option<u64>
        requires { 0 < self.now.words }
        ensures { result ≡ target self.now address index }
    {
        let value = self.image().field(address, index)?;
        self.leads(value)?
    }

    /// Returns whether a field's value is good; true if there is no such field.
    pub(crate) fn is_good_field(&self, address: u64, index: u32) -> bool
        requires { 0 < self.now.words }
        ensures { MatchBool result ((value : ℕ) → field self.now address index ≡ Some value → IsGood self.now value)
            ((value : ℕ) × (field self.now address index ≡ Some value) × (IsGood self.now value → ⊥)) }
    {
        match self.image().field(address, index) {
            None => true,
            Some(value) => match self.leads(value) {
                None => false,
                Some(_found) => true,
            },
        }
    }
}

impl PageImage {
    /// Returns whether the page is protected.
    fn is_protected(&self) -> bool
        ensures { result ≡ is_protected self.now.state }
    {
        matches!(self.state, PageState::From | PageState::Gone)
    }
}

/// Returns the table of an index, if there is one.
fn table_of(tables: &[Table], index: usize) -> Option<&Table>
    ensures { option_copied result ≡ slice_get tables.now index }
{
    tables.get(index)
}

/// Returns the page of an index, if there is one.
fn page_of(pages: &[PageImage], index: usize) -> Option<&PageImage>
    ensures { option_copied result ≡ slice_get pages.now index }
{
    pages.get(index)
}
