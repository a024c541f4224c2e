//! The forwarding table of a page.

ghost use Rattle.std.specs.Prelude.{◌≡◌, ◌+◌, ◌-◌, ◌<◌, ◌≤◌, ◌==◌, ◌^◌, length, map, slice_get, [], Some, IfOk, IfSome};
ghost use Rattle.std.specs.Prelude.{not, count_by, is_some, replicate, false};
ghost use Rattle.std.specs.List.{list_any};
ghost use Rattle.model.specs.declared.limits.TheConstants.{MOST_WORDS};
ghost use Rattle.model.specs.Marks.{entry_of};
ghost use Rattle.model.specs.Cycles.{is_uncopied};
ghost use Rattle.model.specs.Holding.{AreRising};
ghost use Rattle.model.specs.Moves.{set_copied_of};
ghost use Rattle.forward.specs.Counts.{uncopied_in};
ghost use Rattle.forward.specs.Noting.{offset_of, place_of, place_to_copy, noted_run};
ghost use Rattle.forward.specs.Ranked.{entries_of, IsLiveOf};
ghost use Rattle.forward.specs.Searching.{found_at};

use crate::flags::Flags;
use crate::places::Places;
use markbits::{RankedRow, Row};
use model::Forwarding;
use refword::Addr;
use std::alloc::{AllocError, Global};
use std::marker::Model;

/// The forwarding table of a page: an entry for each live object, by rising offset, with the object's new address. A
/// contract sees the list of the entries.
#[derive(Debug, Drop)]
pub struct Side {
    /// Bit `i` is set if an entry has offset `i`.
    live: RankedRow,
    /// The objects' new addresses, in the order of their offsets.
    places: Places,
    /// Flag `i` is set if entry `i` is copied.
    copied: Flags,
    /// The offset that was kept last: mostly that entry or the next one is looked up again.
    last: u32,
    /// The number of that offset's entry; past all entries if none was kept.
    number: u32,
}

impl Model for Side {
    ghost use Rattle.std.specs.Prelude.{List};
    ghost use Rattle.model.specs.declared.records.Forwarding.{Forwarding};
    ghost use Rattle.forward.specs.Ranked.{entries_of, AreEntries, IsKept};

    ghost Value = { List Forwarding };

    ghost view = { λ s. entries_of s.live s.places s.copied };

    ghost invariant = { λ s. AreEntries s.live s.places s.copied
        × IsKept s.live s.places s.last s.number };
}

impl Side {
    /// Returns a forwarding table without entries. It takes no memory.
    #[tactic(auto, unfolding(crate::specs::Ranked::entries_of))]
    pub fn empty(alloc: Global) -> Side
        ensures { result ≡ [] }
    {
        Side {
            live: RankedRow::empty(alloc),
            places: Places::empty(alloc),
            copied: Flags::empty(alloc),
            last: 0,
            number: u32::MAX,
        }
    }

    /// Returns a forwarding table with an uncopied entry for each set bit of `live`, in order, with the address of
    /// the same number in `places`. `live` has at most as many bits as the largest page has words. Finding an address
    /// takes longer, the more often the upper 32 bits change from one address to the next. Fails only if out of memory.
    pub fn new(alloc: Global, live: Row, places: Vec<Addr, Global>) -> Result<Side, AllocError>
        requires short { length live ≤ MOST_WORDS }
        requires many { length places.items ≡ count_by (λ b. b) live }
        ensures { IfOk result (λ s. s ≡ entries_of live places.items (replicate (length places.items) false)) }
    {
        let _ = live.len();
        let copied = Row::new(alloc, live.count() as u32)?;
        let live = RankedRow::new(alloc, live)?;
        let places = Places::listed(alloc, &places)?;
        Ok(Side::of(live, places, copied))
    }

    /// Returns a forwarding table of these parts: a bitmap of the entries' offsets, their new addresses, and which of
    /// them are copied. It takes no memory.
    pub(crate) fn of(live: RankedRow, places: Places, copied: Row) -> Side
        requires short { length live ≤ MOST_WORDS }
        requires many { length places ≡ count_by (λ b. b) live }
        requires flags { length copied ≡ length places }
        ensures { result ≡ entries_of live places copied }
    {
        Side {
            live,
            places,
            copied: Flags::of(copied),
            last: 0,
            number: u32::MAX,
        }
    }

    /// Returns how many entries there are: at most the words of a page.
    #[tactic(auto, using(crate::proofs::Ranked::entries_many, crate::proofs::Ranked::entries_few))]
    pub fn len(&self) -> usize
        ensures value { result ≡ length self.now }
        ensures range { result ≤ MOST_WORDS }
    {
        self.places.len()
    }

    /// Returns the offsets of the entries, as the set bits of a bitmap.
    pub fn live(&self) -> &Row
        ensures { IsLiveOf result.now self.now }
    {
        self.live.row()
    }

    /// Returns the entry of a number, which exists.
    fn numbered(&self, index: usize) -> Forwarding
        requires { index < length self.now }
        ensures { slice_get self.now index ≡ Some result }
    {
        self.entry(index).unwrap()
    }

    /// Returns all entries, by rising offset, in a list of their own. Fails only if out of memory.
    pub fn entries(&self, alloc: Global) -> Result<Vec<Forwarding>, AllocError>
        ensures { IfOk result (λ v. v.items ≡ self.now) }
    {
        let count = self.places.len();
        let mut entries = Vec::with_capacity(alloc, count)?;
        for index in 0..count {
            entries.push(self.numbered(index))?;
        }
        Ok(entries)
    }

    /// Returns the entry of a number, from 0, or `None`. It is found without a search if it is the entry that was
    /// last kept, or noted as copied by its offset, or the next one.
    pub fn entry(&self, index: usize) -> Option<Forwarding>
        ensures { result ≡ slice_get self.now index }
    {
        let kept = self.number as usize;
        if kept < self.places.len() && index == kept + 1 {
            self.entry_after(index, self.last)
        } else {
            self.entry_near(index, self.last)
        }
    }

    /// The same, whatever `near` is: the entry is found without a search if it is the first or second from that
    /// offset on.
    pub fn entry_near(&self, index: usize, near: u32) -> Option<Forwarding>
        ensures { result ≡ slice_get self.now index }
    {
        if index >= self.places.len() {
            return None;
        }
        let offset = self.live.place_near(index, near as usize)?;
        Some(Forwarding {
            offset,
            to: self.places.get(index),
            copied: self.copied.test(index),
        })
    }

    /// Returns the entry of a number, from 1, or `None`, by the offset of the previous entry: found by the words up
    /// to its own.
    #[inline(always)]
    pub fn entry_after(&self, index: usize, before: u32) -> Option<Forwarding>
        requires low { 0 < index }
        requires before { offset_of (slice_get self.now (index - 1)) ≡ Some before }
        ensures { result ≡ slice_get self.now index }
    {
        if index >= self.places.len() {
            return None;
        }
        let offset = self.live.row().next_from(before as usize + 1)?;
        Some(Forwarding {
            offset,
            to: self.places.get(index),
            copied: self.copied.test(index),
        })
    }

    /// Returns the new address in the entry of a number, from 0, or `None`. The entry's offset isn't looked up.
    #[inline(always)]
    pub fn place(&self, index: usize) -> Option<Addr>
        ensures { result ≡ place_of (slice_get self.now index) }
    {
        if index >= self.places.len() {
            return None;
        }
        Some(self.places.get(index))
    }

    /// Returns whether an offset has an entry: found by one bit.
    #[inline(always)]
    pub fn has(&self, offset: u32) -> bool
        ensures { result ≡ is_some (entry_of self.now offset) }
    {
        self.live.test(offset as usize)
    }

    /// Returns the entry of an offset, or `None`: found by one bit, one rank, and one distance from a base.
    pub fn find(&self, offset: u32) -> Option<Forwarding>
        ensures { result ≡ entry_of self.now offset }
    {
        if !self.live.test(offset as usize) {
            return None;
        }
        let index = self.live.rank(offset as usize);
        Some(Forwarding {
            offset,
            to: self.places.get(index),
            copied: self.copied.test(index),
        })
    }

    /// Returns the number, from 0, of the entry of an offset, or `None`: found as in `find`.
    #[tactic(auto, using(crate::proofs::Ranked::rank_few))]
    pub fn number_of(&self, offset: u32) -> Option<u32>
        ensures entry { entry_of self.now offset ≡ found_at self.now result }
        ensures there { IfSome result (λ i. i < length self.now) }
    {
        if !self.live.test(offset as usize) {
            return None;
        }
        let index = self.live.rank(offset as usize);
        Some(index as u32)
    }

    /// Notes that the object of an offset is copied, if it has an entry.
    pub fn set_copied(&mut self, offset: u32)
        ensures { self.new ≡ map (set_copied_of offset) self.old }
    {
        if self.live.test(offset as usize) {
            let index = self.live.rank(offset as usize);
            self.copied.set(index);
            self.last = offset;
            self.number = index as u32;
        }
    }

    /// Returns the new address in the entry of a number, from 0, or `None` if there is no such entry, or it is copied.
    /// The entry's offset isn't looked up.
    #[inline(always)]
    pub fn place_to_copy(&self, number: usize) -> Option<Addr>
        ensures { result ≡ place_to_copy (slice_get self.now number) }
    {
        if number >= self.places.len() {
            return None;
        }
        if self.copied.test(number) {
            return None;
        }
        Some(self.places.get(number))
    }

    /// Notes that the objects of `count` entries from a number, from 0, on are copied, of those that exist. If no later
    /// entry is copied, and no uncopied one is before them, this costs the same however many they are.
    pub fn note_run(&mut self, first: u32, count: u32)
        requires { first + count < 2 ^ 32 }
        ensures side { self.new ≡ noted_run first count self.old }
        ensures rising { AreRising MOST_WORDS 0 self.old }
    {
        self.copied.set_run(first, count);
    }

    /// Remembers the offset of the entry of a number, from 0: then it is found without a search, and the next one
    /// too.
    pub fn keep(&mut self, index: usize)
        ensures { self.new ≡ self.old }
    {
        if let Some(entry) = self.entry(index) {
            self.last = entry.offset;
            self.number = index as u32;
        }
    }

    /// Returns how many entries are uncopied: at most the words of a page.
    pub fn uncopied(&self) -> u32
        ensures value { result ≡ uncopied_in self.now }
        ensures range { result ≤ MOST_WORDS }
    {
        (self.places.len() - self.copied.count()) as u32
    }

    /// Returns whether all entries are copied.
    pub fn is_copied(&self) -> bool
        ensures { result ≡ not (list_any is_uncopied self.now) }
    {
        self.places.len() == self.copied.count()
    }
}
