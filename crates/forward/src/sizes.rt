//! The sizes of a page's objects.

ghost use Rattle.std.specs.Prelude.{◌≡◌, ◌+◌, ◌<◌, ◌≤◌, ◌^◌, ◌∷◌, ◌++◌, [], Some, length, slice_get, IfOk, OnOk};
ghost use Rattle.model.specs.declared.limits.TheConstants.{MOST_WORDS};
ghost use Rattle.forward.specs.Sizes.{sums_of, words_before};

use std::alloc::{AllocError, Global};
use std::marker::Model;

/// The sizes of a page's objects, in words, in their order. A contract sees the list of them.
#[derive(Debug, Drop)]
pub struct Sizes {
    /// How many words the objects before each of them have.
    before: Vec<u32, Global>,
    /// How many words all have.
    total: u32,
}

impl Model for Sizes {
    ghost use Rattle.std.specs.Prelude.{List, ℕ};
    ghost use Rattle.forward.specs.Sizes.{sizes_of, AreSizes};

    ghost Value = { List ℕ };

    ghost view = { λ s. sizes_of s.before.items s.total };

    ghost invariant = { λ s. AreSizes s.before.items s.total };
}

impl Sizes {
    /// Returns no sizes, with space for `count`. Fails only if out of memory.
    pub fn new(alloc: Global, count: usize) -> Result<Sizes, AllocError>
        ensures { IfOk result (λ s. s ≡ []) }
    {
        Ok(Sizes {
            before: Vec::with_capacity(alloc, count)?,
            total: 0,
        })
    }

    /// Returns no sizes. It takes no memory.
    pub(crate) fn empty(alloc: Global) -> Sizes
        ensures { result ≡ [] }
    {
        Sizes {
            before: Vec::new(alloc),
            total: 0,
        }
    }

    /// Returns a copy. Fails only if out of memory.
    pub fn copy(&self, alloc: Global) -> Result<Sizes, AllocError>
        ensures { IfOk result (λ s. s ≡ self.now) }
    {
        Ok(Sizes {
            before: Vec::from_slice(alloc, &self.before)?,
            total: self.total,
        })
    }

    /// Adds the size of one more object, below 2^17: of at most as many objects as the largest page has words. Fails
    /// only if out of memory.
    #[inline(always)]
    pub fn push(&mut self, size: u32) -> Result<(), AllocError>
        requires few { length self.old < MOST_WORDS }
        requires size { size < 2 ^ 17 }
        ensures { OnOk result (self.new ≡ self.old ++ size ∷ []) }
    {
        self.before.push(self.total)?;
        self.total += size;
        Ok(())
    }

    /// Returns how many there are: at most the words of the largest page.
    pub fn len(&self) -> usize
        ensures value { result ≡ length self.now }
        ensures range { result ≤ MOST_WORDS }
    {
        self.before.len()
    }

    /// Returns how many words the objects before one have, by its number, from 0; or all, by the number of them.
    #[inline(always)]
    pub fn before(&self, number: usize) -> u32
        requires { number ≤ length self.now }
        ensures { result ≡ words_before self.now number }
    {
        if number < self.before.len() {
            self.before[number]
        } else {
            self.total
        }
    }

    /// Returns the size of an object, by its number, from 0.
    #[inline(always)]
    pub fn size(&self, number: usize) -> u32
        requires { number < length self.now }
        ensures { slice_get self.now number ≡ Some result }
    {
        let _ = self.len();
        self.before(number + 1) - self.before(number)
    }

    /// Returns the greatest number up to which the objects from one on have together at most `room` words. It is found
    /// by halving.
    pub fn fitting(&self, from: usize, room: u32) -> usize
        requires { from ≤ length self.now }
        ensures low { from ≤ result }
        ensures high { result ≤ length self.now }
        ensures fits { words_before self.now result ≤ words_before self.now from + room }
        ensures greatest { result < length self.now
            → words_before self.now from + room < words_before self.now (result + 1) }
    {
        let count = self.len();
        let most = u64::from(self.before(from)) + u64::from(room);
        if u64::from(self.before(count)) <= most {
            return count;
        }
        let mut low = from;
        let mut high = count;
        while low + 1 < high {
            let middle = low + (high - low) / 2;
            if u64::from(self.before(middle)) <= most {
                low = middle;
            } else {
                high = middle;
            }
        }
        low
    }

    /// Returns how many words the objects before each one have.
    pub(crate) fn into_sums(self) -> Vec<u32, Global>
        ensures { result.items ≡ sums_of 0 self }
    {
        let Sizes { before, .. } = self;
        before
    }
}
