//! Which entries of a forwarding table are copied.

ghost use Rattle.std.specs.Prelude.{◌≡◌, ◌+◌, ◌<◌, ◌≤◌, ◌^◌, length, slice_index_or, false, true, count_by, []};
ghost use Rattle.model.specs.Bits.{put_bit};
ghost use Rattle.forward.specs.Flags.{put_run};

use markbits::Row;
use std::alloc::Global;
use std::marker::Model;

/// A flag for each entry, set if the entry is copied. A contract sees the list of them.
///
/// Objects are mostly copied in order, so the number of set flags before the first clear one is kept apart from the
/// others.
#[derive(Debug, Drop)]
pub(crate) struct Flags {
    /// How many flags, from the first on, are set without a bit.
    done: u32,
    /// A set bit for each other flag that is set.
    row: Row,
}

impl Model for Flags {
    ghost use Rattle.std.specs.Prelude.{List, Bool};
    ghost use Rattle.forward.specs.Flags.{flags_of, AreFlags};

    ghost Value = { List Bool };

    ghost view = { λ f. flags_of f.done f.row };

    ghost invariant = { λ f. AreFlags f.done f.row };
}

/// Returns whether a run of flags that exist begins where the first `done` ones end, or before, and no bit is set.
fn follows(done: u32, row: &Row, first: u32, end: u32) -> bool
    ensures begins { result ≡ true → first ≤ done }
    ensures ends { result ≡ true → end ≤ length row.now }
    ensures blank { result ≡ true → count_by (λ b. b) row.now ≡ 0 }
{
    first <= done && end as usize <= row.len() && row.count() == 0
}

impl Flags {
    /// Returns no flags. It takes no memory.
    #[tactic(auto, unfolding(crate::specs::Flags::flags_of))]
    pub fn empty(alloc: Global) -> Flags
        ensures { result ≡ [] }
    {
        Flags {
            done: 0,
            row: Row::empty(alloc),
        }
    }

    /// Returns the flags that are the bits of a bitmap.
    #[tactic(auto, unfolding(crate::specs::Flags::flags_of))]
    pub fn of(row: Row) -> Flags
        ensures { result ≡ row }
    {
        Flags { done: 0, row }
    }

    /// Returns whether a flag is set; past the last one none is.
    #[inline(always)]
    pub fn test(&self, number: usize) -> bool
        ensures { result ≡ slice_index_or self.now number false }
    {
        number < self.done as usize || self.row.test(number)
    }

    /// Sets a flag, if it exists.
    #[inline(always)]
    pub fn set(&mut self, number: usize)
        ensures { self.new ≡ put_bit number true self.old }
    {
        if number >= self.done as usize {
            self.row.put(number, true);
        }
    }

    /// Sets `count` flags from a number on, one after another, of those that exist.
    fn set_each(&mut self, first: u32, count: u32)
        requires { first + count < 2 ^ 32 }
        ensures { self.new ≡ put_run first count self.old }
    {
        for index in 0..count {
            self.set((first + index) as usize);
        }
    }

    /// Does the same: at once, if no later flag is set, and no clear one is before them.
    pub fn set_run(&mut self, first: u32, count: u32)
        requires { first + count < 2 ^ 32 }
        ensures { self.new ≡ put_run first count self.old }
    {
        let end = first + count;
        if !follows(self.done, &self.row, first, end) {
            self.set_each(first, count);
        } else if end > self.done {
            self.done = end;
        }
    }

    /// Returns how many flags are set.
    pub fn count(&self) -> usize
        ensures { result ≡ count_by (λ b. b) self.now }
    {
        self.done as usize + self.row.count()
    }
}
