//! The forwarding tables of all pages.

ghost use Rattle.std.specs.Prelude.{◌≡◌, ◌+◌, ◌<◌, ◌≤◌, ◌^◌, length, replicate, map, slice_get, slice_set, [], IfOk, IfSome};
ghost use Rattle.std.specs.Prelude.{is_some, not};
ghost use Rattle.std.specs.Prelude.{unwrap_or};
ghost use Rattle.std.specs.List.{list_any};
ghost use Rattle.std.specs.Option.{option_copied};
ghost use Rattle.model.specs.States.{change_at};
ghost use Rattle.model.specs.Bits.{of_page};
ghost use Rattle.model.specs.Marks.{entry_of};
ghost use Rattle.model.specs.Cycles.{is_uncopied};
ghost use Rattle.model.specs.Holding.{AreRising};
ghost use Rattle.model.specs.Moves.{set_copied_of};
ghost use Rattle.model.specs.declared.limits.TheConstants.{MOST_WORDS};
ghost use Rattle.forward.specs.Counts.{uncopied_in, uncopied_count};
ghost use Rattle.forward.specs.Noting.{place_of, noted_range};
ghost use Rattle.forward.specs.Searching.{found_at};

use crate::side::Side;
use model::Forwarding;
use refword::Addr;
use std::alloc::{AllocError, Global};
use std::marker::Model;

/// A forwarding table for each page that has a record, by the record's index: empty if nothing moves. A contract sees
/// the list of them.
#[derive(Debug, Drop)]
pub struct Sides {
    sides: Vec<Side, Global>,
    /// How many entries of all tables are uncopied.
    left: usize,
    /// The tables that the last `clear_all` cleared, until `tidy` frees their entries; fewer than there are pages until
    /// space for all of them is made.
    cleared: Vec<Side, Global>,
    /// The tables of `cleared` before this index are freed.
    freed: usize,
    /// Whether `clear_all` was called.
    was_cleared: bool,
}

impl Model for Sides {
    ghost use Rattle.std.specs.Prelude.{List};
    ghost use Rattle.model.specs.declared.records.Forwarding.{Forwarding};
    ghost use Rattle.forward.specs.Counts.{AreCounted};

    ghost Value = { List (List Forwarding) };

    ghost view = { λ s. s.sides.items };

    ghost invariant = { λ s. AreCounted s.sides.items s.left };
}

/// Returns `count` empty forwarding tables. Fails only if out of memory.
fn empty_sides(alloc: Global, count: usize) -> Result<Vec<Side, Global>, AllocError>
    ensures { IfOk result (λ v. v.items ≡ replicate count []) }
{
    let mut sides = Vec::with_capacity(alloc, count)?;
    for _side in 0..count {
        sides.push(Side::empty(alloc))?;
    }
    Ok(sides)
}

/// Clears forwarding tables and frees their entries. An empty table costs one test.
fn clear(sides: &mut Vec<Side, Global>)
    ensures { sides.new.items ≡ replicate (length sides.old.items) [] }
{
    let alloc = *sides.allocator();
    for index in 0..sides.len() {
        if sides[index].len() != 0 {
            sides[index] = Side::empty(alloc);
        }
    }
}

/// Clears forwarding tables by other ones, if there are as many: they are swapped.
fn exchange(sides: &mut Vec<Side, Global>, cleared: &mut Vec<Side, Global>)
    ensures { sides.new.items ≡ replicate (length sides.old.items) [] }
{
    if cleared.len() == sides.len() {
        clear(cleared);
        std::mem::swap(sides, cleared);
    } else {
        clear(sides);
    }
}

/// Adds empty forwarding tables up to `count`, at most `most`. Fails only if out of memory.
fn add_empty(sides: &mut Vec<Side, Global>, count: usize, most: u32) -> Result<(), AllocError> {
    let missing = count.saturating_sub(sides.len());
    sides.reserve(missing)?;
    let alloc = *sides.allocator();
    for _side in 0..missing.min(most as usize) {
        sides.push(Side::empty(alloc))?;
    }
    Ok(())
}

/// Frees the entries of the next tables, at most of `most`.
fn free(sides: &mut Vec<Side, Global>, next: &mut usize, most: u32) {
    for _side in 0..most {
        if *next >= sides.len() {
            return;
        }
        sides[*next] = Side::empty(*sides.allocator());
        *next += 1;
    }
}

impl Sides {
    /// Returns `count` empty forwarding tables: in a heap at most 1,048,575. Fails only if out of memory.
    pub fn new(alloc: Global, count: u32) -> Result<Sides, AllocError>
        ensures { IfOk result (λ s. s ≡ replicate count []) }
    {
        Ok(Sides {
            sides: empty_sides(alloc, count as usize)?,
            left: 0,
            cleared: Vec::new(alloc),
            freed: 0,
            was_cleared: false,
        })
    }

    /// Returns the forwarding table of an index from 0, if it exists.
    pub fn get(&self, index: usize) -> Option<&Side>
        ensures { option_copied result ≡ slice_get self.now index }
    {
        self.sides.get(index)
    }

    /// Returns the forwarding table of a page, by the page's number from 1, or `None` if it has no record.
    #[inline(always)]
    pub fn on(&self, page: u64) -> Option<&Side>
        ensures { of_page self.now page ≡ unwrap_or (option_copied result) [] }
    {
        if page == 0 {
            return None;
        }
        self.sides.get((page - 1) as usize)
    }

    /// Returns whether an offset of a page has an entry, by the page's number from 1.
    #[inline(always)]
    pub fn has_entry(&self, page: u64, offset: u32) -> bool
        ensures { result ≡ is_some (entry_of (of_page self.now page) offset) }
    {
        match self.on(page) {
            None => false,
            Some(side) => side.has(offset),
        }
    }

    /// Returns the entry of an offset of a page, by the page's number from 1, or `None` if there is none. The index
    /// of the page's forwarding table is one less; if there is no such table, there is no entry.
    pub fn entry_at(&self, page: u64, offset: u32) -> Option<Forwarding>
        ensures { result ≡ entry_of (of_page self.now page) offset }
    {
        self.on(page)?.find(offset)
    }

    /// Returns entry `number`, from 0, of a page, by the page's number from 1, or `None` if there is no such entry.
    pub fn entry_on(&self, page: u32, number: u32) -> Option<Forwarding>
        ensures { result ≡ slice_get (of_page self.now page) number }
    {
        self.entry_numbered(u64::from(page), number)
    }

    /// The same for a page number that may be greater than any page's.
    pub fn entry_numbered(&self, page: u64, number: u32) -> Option<Forwarding>
        ensures { result ≡ slice_get (of_page self.now page) number }
    {
        self.on(page)?.entry(number as usize)
    }

    /// Returns the new address in entry `number`, from 0, of a page, by the page's number from 1, or `None` if there
    /// is no such entry. The entry's offset isn't looked up.
    #[inline(always)]
    pub fn place_on(&self, page: u64, number: u32) -> Option<Addr>
        ensures { result ≡ place_of (slice_get (of_page self.now page) number) }
    {
        self.on(page)?.place(number as usize)
    }

    /// Returns the number, from 0, of the entry of an offset of a page, by the page's number from 1, or `None` if
    /// there is no such entry.
    pub fn number_at(&self, page: u64, offset: u32) -> Option<u32>
        ensures entry { entry_of (of_page self.now page) offset ≡ found_at (of_page self.now page) result }
        ensures there { IfSome result (λ i. i < length (of_page self.now page)) }
    {
        self.on(page)?.number_of(offset)
    }

    /// Returns how many entries a page has, by the page's number from 1: at most the words of a page.
    pub fn count_on(&self, page: u32) -> u32
        ensures value { result ≡ length (of_page self.now page) }
        ensures range { result ≤ MOST_WORDS }
    {
        match self.on(u64::from(page)) {
            None => 0,
            Some(side) => side.len() as u32,
        }
    }

    /// Returns how many entries of a page are uncopied, by the page's number from 1.
    pub fn uncopied_on(&self, page: u32) -> u32
        ensures { result ≡ uncopied_in (of_page self.now page) }
    {
        match self.on(u64::from(page)) {
            None => 0,
            Some(side) => side.uncopied(),
        }
    }

    /// Returns whether all entries of a page are copied, by the page's number from 1. If it has no forwarding table,
    /// they are.
    pub fn is_copied(&self, page: u32) -> bool
        ensures { result ≡ not (list_any is_uncopied (of_page self.now page)) }
    {
        match self.on(u64::from(page)) {
            None => true,
            Some(side) => side.is_copied(),
        }
    }

    /// Returns how many entries of all forwarding tables are uncopied.
    pub fn uncopied(&self) -> u64
        ensures { result ≡ uncopied_count self.now }
    {
        self.left as u64
    }

    /// Replaces the forwarding table of an index, if it exists. The old one is freed.
    #[tactic(auto, using(crate::proofs::Totals::room_left))]
    pub fn put(&mut self, index: usize, side: Side)
        ensures { self.new ≡ slice_set self.old index side }
    {
        if index >= self.sides.len() {
            return;
        }
        self.left -= self.sides[index].uncopied() as usize;
        self.left += side.uncopied() as usize;
        self.sides[index] = side;
    }

    /// Notes that the object of an offset is copied, if the forwarding table of this index exists and has an entry of
    /// the offset.
    #[tactic(auto, using(crate::proofs::Totals::room_left, crate::proofs::Totals::changed))]
    pub fn set_copied(&mut self, index: usize, offset: u32)
        ensures { self.new ≡ change_at self.old index (map (set_copied_of offset)) }
    {
        if index < self.sides.len() {
            let side = &mut self.sides[index];
            self.left -= side.uncopied() as usize;
            side.set_copied(offset);
            self.left += side.uncopied() as usize;
        }
    }

    /// Notes that the objects of `count` entries of a page from number `first` on are copied, of those that exist:
    /// pages count from 1, entries from 0. The entries' offsets rise.
    #[tactic(auto, using(crate::proofs::Totals::room_left))]
    pub fn note_run(&mut self, page: u64, first: u32, count: u32)
        requires { first + count < 2 ^ 32 }
        ensures sides { self.new ≡ noted_range page first count self.old }
        ensures rising { AreRising MOST_WORDS 0 (of_page self.old page) }
    {
        if page == 0 {
            return;
        }
        let at = (page - 1) as usize;
        if at >= self.sides.len() {
            return;
        }
        let side = &mut self.sides[at];
        self.left -= side.uncopied() as usize;
        side.note_run(first, count);
        self.left += side.uncopied() as usize;
    }

    /// Remembers the offset of entry `number`, from 0, of a page, by the page's number from 1: then it is found
    /// without a search, and the next one too.
    pub fn keep(&mut self, page: u64, number: u32)
        ensures { self.new ≡ self.old }
    {
        let at = page.saturating_sub(1) as usize;
        if at < self.sides.len() {
            self.sides[at].keep(number as usize);
        }
    }

    /// Clears all forwarding tables. Their entries are freed later, by `tidy`, if there is space for all tables.
    pub fn clear_all(&mut self)
        ensures { self.new ≡ replicate (length self.old) [] }
    {
        exchange(&mut self.sides, &mut self.cleared);
        self.left = 0;
        self.freed = 0;
        self.was_cleared = true;
    }

    /// Makes space for all tables that are cleared next, if memory is there for it.
    pub fn prepare(&mut self)
        ensures { self.new ≡ self.old }
    {
        let _ = add_empty(&mut self.cleared, self.sides.len(), u32::MAX);
    }

    /// Frees the entries of all tables that were cleared. It allocates nothing.
    pub fn trim(&mut self)
        ensures { self.new ≡ self.old }
    {
        free(&mut self.cleared, &mut self.freed, u32::MAX);
    }

    /// Frees the entries of up to `most` tables that were cleared. Once `clear_all` was called, it makes space for as
    /// many more that are cleared next, if memory is there for it.
    pub fn tidy(&mut self, most: u32)
        ensures { self.new ≡ self.old }
    {
        free(&mut self.cleared, &mut self.freed, most);
        if self.was_cleared {
            let _ = add_empty(&mut self.cleared, self.sides.len(), most);
        }
    }
}
