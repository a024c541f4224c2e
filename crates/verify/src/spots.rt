//! The spots of a walk: a list for each page with memory, and none for other pages, which have no objects.

ghost use Rattle.std.specs.Prelude.{◌≡◌, ◌≢◌, ◌<◌, ◌≤◌, ◌+◌, ℕ, [], length, IfOk, MatchBool, count_by};
ghost use Rattle.std.specs.Prelude.{get_or, slice_set};
ghost use Rattle.std.specs.Prelude.{◌%◌, ◌^◌, Some, IfSome, false};
ghost use Rattle.model.specs.declared.limits.TheConstants.{MOST_WORDS};
ghost use Rattle.verify.specs.Images.{object_at, page_at};
ghost use Rattle.verify.specs.Spots.{IsNextFilled};
ghost use Rattle.verify.specs.Walks.{spot_at, first_spot, is_unseen, space};
ghost use Rattle.verify.specs.declared.spots.Spot.TheVariants.{Empty, Reached};

use crate::image::{Image, PageImage};
use std::alloc::{AllocError, Global};
use std::marker::Model;

/// A spot: what a walk knows of an address.
#[derive(Clone, Copy)]
pub(crate) enum Spot {
    /// No object starts there.
    Empty,
    /// An object starts there, which the walk hasn't met.
    Unseen,
    /// An object starts there, which the walk has met.
    Reached,
}

impl Spot {
    /// Returns whether an object starts there that the walk hasn't met.
    pub(crate) fn is_unseen(&self) -> bool
        ensures { result ≡ is_unseen self.now }
    {
        matches!(self, Spot::Unseen)
    }

    /// Returns whether no object starts there.
    fn is_empty(&self) -> bool
        ensures { MatchBool result (self.now ≡ Empty) (self.now ≢ Empty) }
    {
        matches!(self, Spot::Empty)
    }
}

/// The spots of a page, by offset. Past the list's end no object starts.
#[derive(Drop)]
struct PageSpots {
    spots: Vec<Spot>,
}

impl Model for PageSpots {
    ghost use Rattle.std.specs.Prelude.{List};
    ghost use Rattle.verify.specs.declared.spots.Spot.{Spot};

    ghost Value = { List Spot };

    ghost view = { λ p. p.spots.items };
}

impl PageSpots {
    /// Returns the spot at an offset.
    fn get(&self, offset: u64) -> Spot
        ensures { result ≡ spot_at self.now offset }
    {
        let offset = offset as usize;
        if offset < self.spots.len() {
            self.spots[offset]
        } else {
            Spot::Empty
        }
    }

    /// Sets the spot at an offset to Reached.
    fn reach(&mut self, offset: u64)
        ensures { self.new ≡ slice_set self.old offset Reached }
    {
        let offset = offset as usize;
        if offset < self.spots.len() {
            self.spots[offset] = Spot::Reached;
        }
    }

    /// Returns the first offset from one on at which an object starts.
    fn next_filled(&self, from: u64) -> Option<u64>
        ensures { IsNextFilled self.now from result }
    {
        for offset in from..self.spots.len() as u64 {
            if !self.get(offset).is_empty() {
                return Some(offset);
            }
        }
        None
    }
}

/// The spots at all addresses. A contract sees the list of all.
#[derive(Drop)]
pub(crate) struct Spots {
    words: u32,
    count: u64,
    pages: Vec<PageSpots>,
}

impl Model for Spots {
    ghost use Rattle.std.specs.Prelude.{List};
    ghost use Rattle.verify.specs.declared.spots.Spot.{Spot};
    ghost use Rattle.verify.specs.Spots.{spots_of, AreSpots};

    ghost Value = { List Spot };

    ghost view = { λ s. spots_of s.words s.count s.pages.items };

    ghost invariant = { λ s. AreSpots s.words s.count s.pages.items };
}

impl Spots {
    /// Returns the spot at an address. Past the last no object starts.
    pub(crate) fn get(&self, address: u64) -> Spot
        ensures { result ≡ spot_at self.now address }
    {
        if address >= self.count {
            return Spot::Empty;
        }
        let words = u64::from(self.words);
        spot_in(&self.pages, address / words, address % words)
    }

    /// Sets the spot at an object's address to Reached.
    pub(crate) fn reach(&mut self, address: u64)
        requires { spot_at self.old address ≢ Empty }
        ensures { self.new ≡ slice_set self.old address Reached }
    {
        let words = u64::from(self.words);
        let (page, offset) = ((address / words) as usize, address % words);
        if page < self.pages.len() {
            let page = &mut self.pages[page];
            page.reach(offset);
        }
    }

    /// Returns the first address from one on at which an object starts. Pages without memory are skipped.
    pub(crate) fn next_filled(&self, from: u64) -> Option<u64>
        ensures next { IsNextFilled self.now from result }
        ensures range { IfSome result (λ a. a < 2 ^ 40) }
    {
        let words = u64::from(self.words);
        let mut at = from;
        while at < self.count {
            let offset = at % words;
            if let Some(found) = next_on(&self.pages, at / words, offset) {
                let address = at + (found - offset);
                return if address < self.count {
                    Some(address)
                } else {
                    None
                };
            }
            at += words - offset;
        }
        None
    }
}

/// Returns the spot at an offset of the page of an index, if there is such a page.
fn spot_in(pages: &[PageSpots], index: u64, offset: u64) -> Spot
    ensures { result ≡ spot_at (get_or pages.now index []) offset }
{
    match pages.get(index as usize) {
        None => Spot::Empty,
        Some(page) => page.get(offset),
    }
}

/// Returns the first offset from one on at which an object starts on the page of an index, if there is such a page.
fn next_on(pages: &[PageSpots], index: u64, offset: u64) -> Option<u64>
    ensures { IsNextFilled (get_or pages.now index []) offset result }
{
    match pages.get(index as usize) {
        None => None,
        Some(page) => page.next_filled(offset),
    }
}

impl PageImage {
    /// Returns whether an object may start at an offset.
    fn may_start(&self, offset: u64) -> bool
        ensures { result ≡ get_or self.now.starts offset false }
    {
        self.starts.test(offset as usize)
    }
}

/// Returns the spot at an address before a walk.
fn first_spot(image: &Image, address: u64) -> Spot
    requires { 0 < image.now.words }
    ensures { result ≡ first_spot (object_at image.now address) }
{
    match image.object_at(address) {
        None => Spot::Empty,
        Some(_object) => Spot::Unseen,
    }
}

/// Returns the spot at an address of a page, by its offset there, before a walk.
fn spot_of(image: &Image, page: &PageImage, address: u64, offset: u64) -> Spot
    requires sized { 0 < image.now.words }
    requires page { page_at image.now address ≡ Some page.now }
    requires offset { address % image.now.words ≡ offset }
    ensures { result ≡ first_spot (object_at image.now address) }
{
    if page.may_start(offset) {
        first_spot(image, address)
    } else {
        Spot::Empty
    }
}

/// Returns the spots of a page with memory, which begins at an address, before a walk.
fn filled(
    alloc: Global,
    image: &Image,
    page: &PageImage,
    base: u64,
) -> Result<PageSpots, AllocError>
    requires sized { 0 < image.now.words }
    requires page { page_at image.now base ≡ Some page.now }
    requires base { base % image.now.words ≡ 0 }
    requires range { base ≤ 2 ^ 40 }
    ensures len { IfOk result (λ p. length p ≡ image.now.words) }
    ensures each { IfOk result (λ p. (o : ℕ) → o < image.now.words
        → spot_at p o ≡ first_spot (object_at image.now (base + o))) }
{
    let mut spots = Vec::with_capacity(alloc, image.words as usize)?;
    for offset in 0..u64::from(image.words) {
        spots.push(spot_of(image, page, base + offset, offset))?;
    }
    Ok(PageSpots { spots })
}

/// Returns the empty list of spots of a page.
fn unfilled(alloc: Global) -> PageSpots
    ensures { result ≡ [] }
{
    PageSpots {
        spots: Vec::new(alloc),
    }
}

/// Returns the spots of a page, which begins at an address, before a walk. A page without memory has none.
fn page_spots(alloc: Global, image: &Image, base: u64) -> Result<PageSpots, AllocError>
    requires sized { 0 < image.now.words }
    requires base { base % image.now.words ≡ 0 }
    requires range { base ≤ 2 ^ 40 }
    ensures short { IfOk result (λ p. length p ≤ image.now.words) }
    ensures each { IfOk result (λ p. (o : ℕ) → o < image.now.words
        → spot_at p o ≡ first_spot (object_at image.now (base + o))) }
{
    let Some(page) = image.page_at(base) else {
        return Ok(unfilled(alloc));
    };
    match page.frame {
        None => Ok(unfilled(alloc)),
        Some(_frame) => filled(alloc, image, page, base),
    }
}

impl Spots {
    /// Returns the spots before a walk. Fails only if out of memory.
    pub(crate) fn new(alloc: Global, image: &Image) -> Result<Spots, AllocError>
        requires sized { 0 < image.now.words }
        requires page { image.now.words ≤ MOST_WORDS }
        ensures len { IfOk result (λ spots. length spots ≡ space image.now) }
        ensures each { IfOk result (λ spots. (a : ℕ) → a < space image.now
            → spot_at spots a ≡ first_spot (object_at image.now a)) }
    {
        let count = image.space();
        let mut pages = Vec::new(alloc);
        let mut base = 0;
        while base < count {
            pages.push(page_spots(alloc, image, base)?)?;
            base += u64::from(image.words);
        }
        Ok(Spots {
            words: image.words,
            count,
            pages,
        })
    }

    /// Returns the number of objects that the walk hasn't met.
    pub(crate) fn unseen(&self) -> usize
        ensures { result ≡ count_by is_unseen self.now }
    {
        let (mut count, mut from) = (0, 0);
        while let Some(address) = self.next_filled(from) {
            if self.get(address).is_unseen() {
                count += 1;
            }
            from = address + 1;
        }
        count
    }
}
