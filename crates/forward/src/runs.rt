//! The places of a page's objects, by runs.

ghost use Rattle.std.specs.Prelude.{◌≡◌, ◌+◌, ◌-◌, ◌<◌, ◌≤◌, ◌^◌, ◌++◌, ◌∷◌, ℕ, List, [], length, slice_get, IfOk};
ghost use Rattle.std.specs.Prelude.{OnOk, Some};
ghost use Rattle.model.specs.declared.limits.TheConstants.{MOST_WORDS};
ghost use Rattle.model.specs.Plans.{places_from, target_count};
ghost use Rattle.forward.specs.Runs.{last_with, next_place, runs_with};
ghost use Rattle.forward.specs.Sizes.{words_before};

use crate::plan::Slot;
use crate::sizes::Sizes;
use std::alloc::{AllocError, Global};
use std::marker::Model;

/// Consecutive objects of a page that go to one target, one directly after the other.
#[derive(Clone, Copy, Debug)]
pub struct Run {
    /// The number of the first of them, from 0.
    pub(crate) first: u32,
    /// How many words the page's objects before it have.
    pub(crate) before: u32,
    /// The number of the target, from 0; once the target is on a page, the base of the objects' addresses.
    pub(crate) target: u64,
    /// The offset of the first of them in the target, in words.
    pub(crate) offset: u32,
}

/// Returns the place of an object of `size` words after what ends at a place: there, or at the head of the next
/// target, of `words` words, if it doesn't fit.
#[inline(always)]
pub(crate) fn next_place(words: u32, end: Slot, size: u32) -> Slot
    requires few { end.0 < 2 ^ 63 }
    ensures place { result ≡ next_place words end size }
    ensures fits { result.1 + size < 2 ^ 32 }
    ensures near { result.0 ≤ end.0 + 1 }
{
    if u64::from(end.offset) + u64::from(size) <= u64::from(words) {
        end
    } else {
        Slot {
            target: end.target + 1,
            offset: 0,
        }
    }
}

/// Returns where words that begin at a place end.
#[inline(always)]
fn end_of(place: Slot, words: u32) -> Slot
    requires { place.1 + words < 2 ^ 32 }
    ensures { result ≡ (place.0, place.1 + words) }
{
    Slot {
        target: place.target,
        offset: place.offset + words,
    }
}

/// Returns the greatest number up to which the objects from one on fit after what ends at a place of a target, of
/// `words` words.
#[inline(always)]
fn fitting_after(words: u32, end: Slot, sizes: &Sizes, number: usize) -> usize
    requires { number ≤ length sizes.now }
    ensures low { number ≤ result }
    ensures high { result ≤ length sizes.now }
    ensures fits { number < result
        → end.1 + (words_before sizes.now result - words_before sizes.now number) ≤ words }
    ensures greatest { result < length sizes.now
        → words < end.1 + (words_before sizes.now (result + 1) - words_before sizes.now number) }
{
    if end.offset > words {
        return number;
    }
    sizes.fitting(number, words - end.offset)
}

/// The places of a page's objects, in their order. A contract sees the list of them.
#[derive(Debug, Drop)]
pub struct Runs {
    pub(crate) sizes: Sizes,
    /// The run that objects of earlier pages have begun.
    pub(crate) first: Run,
    /// The others.
    pub(crate) more: Vec<Run, Global>,
}

impl Model for Runs {
    ghost use Rattle.std.specs.Prelude.{List, ℕ, ◌≡◌};
    ghost use Rattle.forward.specs.Runs.{places_in, AreBegun};

    ghost Value = { List (ℕ × ℕ) };

    ghost view = { λ r. places_in r.first r.more.items 0 0 r.sizes };

    ghost invariant = { λ r. (r.first.before ≡ 0) × AreBegun r.sizes r.more.items };
}

/// Adds a run to a list, if it has another target than the last one. Returns which of both is the last one then. Fails
/// only if out of memory.
#[inline(always)]
pub(crate) fn add_run(runs: &mut Vec<Run>, last: Run, run: Run) -> Result<Run, AllocError>
    ensures last { IfOk result (λ r. r ≡ last_with last run) }
    ensures runs { OnOk result (runs.new.items ≡ runs_with runs.old.items last run) }
{
    if last.target == run.target {
        return Ok(last);
    }
    runs.push(run)?;
    Ok(run)
}

impl Runs {
    /// Plans places for a page's objects, in targets of `words` words, after what ends at `end`, next fit: each
    /// directly after the previous one, or at the head of the next target if it doesn't fit. Then `end` is where they
    /// end. Fails only if out of memory.
    pub fn new(alloc: Global, words: u32, end: &mut Slot, sizes: Sizes) -> Result<Runs, AllocError>
        requires few { end.old.0 < 2 ^ 62 }
        ensures many { IfOk result (λ r. length r ≡ length sizes) }
        ensures places { IfOk result (λ r. (ns : List ℕ) → places_from words end.old.0 end.old.1 (sizes ++ ns)
            ≡ r ++ places_from words end.new.0 end.new.1 ns) }
        ensures counted { IfOk result (λ r. 0 < length sizes → target_count r ≡ end.new.0 + 1) }
        ensures near { end.new.0 ≤ end.old.0 + MOST_WORDS }
    {
        let first = Run {
            first: 0,
            before: 0,
            target: end.target as u64,
            offset: end.offset,
        };
        let mut last = first;
        let mut more = Vec::new(alloc);
        let mut at = *end;
        let count = sizes.len();
        let mut number = 0;
        while number < count {
            let next = fitting_after(words, at, &sizes, number);
            if next > number {
                at = end_of(at, sizes.before(next) - sizes.before(number));
                number = next;
            } else {
                let size = sizes.size(number);
                let place = next_place(words, at, size);
                let run = Run {
                    first: number as u32,
                    before: sizes.before(number),
                    target: place.target as u64,
                    offset: place.offset,
                };
                last = add_run(&mut more, last, run)?;
                at = end_of(place, size);
                number += 1;
            }
        }
        *end = at;
        Ok(Runs { sizes, first, more })
    }

    /// Returns no places. It takes no memory.
    pub fn empty(alloc: Global) -> Runs
        ensures { result ≡ [] }
    {
        let first = Run {
            first: 0,
            before: 0,
            target: 0,
            offset: 0,
        };
        Runs {
            sizes: Sizes::empty(alloc),
            first,
            more: Vec::new(alloc),
        }
    }

    /// Returns how many places there are: at most the words of the largest page.
    pub fn len(&self) -> usize
        ensures value { result ≡ length self.now }
        ensures range { result ≤ MOST_WORDS }
    {
        self.sizes.len()
    }
}
