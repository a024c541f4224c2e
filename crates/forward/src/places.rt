//! New addresses of a page's objects.

ghost use Rattle.std.specs.Prelude.{◌≡◌, ◌<◌, ◌≤◌, ◌^◌, [], length, map, get_or, IfOk};
ghost use Rattle.refword.specs.Words.{IsAddress};
ghost use Rattle.model.specs.Owning.{Each};
ghost use Rattle.model.specs.Plans.{address_in};
ghost use Rattle.model.specs.declared.limits.TheConstants.{MOST_PAGES, MOST_WORDS};
ghost use Rattle.forward.specs.Bases.{IsLastRun, base_of, head_of, run_base, run_on};

use crate::runs::{Run, Runs, add_run};
use refword::Addr;
use std::alloc::{AllocError, Global};
use std::marker::Model;

/// The new addresses of a page's objects, in their order, as distances from bases. A contract sees the list of them.
#[derive(Debug, Drop)]
pub(crate) struct Places {
    /// The distance of each.
    distances: Vec<u32, Global>,
    /// The base of the first.
    base: u64,
    /// The other bases, as targets of runs.
    more: Vec<Run, Global>,
    /// The last run, or if there is none, one from the first address on.
    last: Run,
}

impl Model for Places {
    ghost use Rattle.std.specs.Prelude.{ℕ, List};
    ghost use Rattle.model.specs.Owning.{Each};
    ghost use Rattle.refword.specs.Words.{IsAddress};
    ghost use Rattle.forward.specs.Bases.{addresses_from, IsLastRun};

    ghost Value = { List ℕ };

    ghost view = { λ p. addresses_from p.base p.more.items 0 p.distances.items };

    ghost invariant = { λ p. Each (addresses_from p.base p.more.items 0 p.distances.items) IsAddress
        × IsLastRun p.base p.more.items p.last };
}

/// Returns the address of a target's head, by the target's number, from 0, and the pages of targets, of `words` words.
fn head_of(words: u32, targets: &[u32], target: u64) -> u64
    requires words { words ≤ MOST_WORDS }
    requires pages { Each targets.now (λ n. n ≤ MOST_PAGES) }
    ensures value { result ≡ head_of words targets.now target }
    ensures range { result < 2 ^ 40 }
{
    match targets.get(target as usize) {
        None => 0,
        Some(page) => u64::from(*page) * u64::from(words),
    }
}

/// Returns the base of a run.
fn run_base(words: u32, targets: &[u32], run: Run) -> u64
    requires words { words ≤ MOST_WORDS }
    requires pages { Each targets.now (λ n. n ≤ MOST_PAGES) }
    ensures { result ≡ run_base words targets.now run }
{
    let first = head_of(words, targets, run.target) + u64::from(run.offset);
    first.wrapping_sub(u64::from(run.before))
}

/// Returns a run with its base in place of its target.
fn run_on(words: u32, targets: &[u32], run: Run) -> Run
    requires words { words ≤ MOST_WORDS }
    requires pages { Each targets.now (λ n. n ≤ MOST_PAGES) }
    ensures { result ≡ run_on words targets.now run }
{
    Run {
        first: run.first,
        before: run.before,
        target: run_base(words, targets, run),
        offset: run.offset,
    }
}

/// Gives runs their bases in place of their targets.
fn put_on(words: u32, targets: &[u32], runs: &mut Vec<Run>)
    requires words { words ≤ MOST_WORDS }
    requires pages { Each targets.now (λ n. n ≤ MOST_PAGES) }
    ensures { runs.new.items ≡ map (run_on words targets.now) runs.old.items }
{
    for index in 0..runs.len() {
        runs[index] = run_on(words, targets, runs[index]);
    }
}

/// Returns the base of an address, by its number, from 0, given the base of the first one and the runs of others.
fn base_of(base: u64, more: &Vec<Run>, number: usize) -> u64
    ensures { result ≡ base_of base more.now.items number }
{
    let mut base = base;
    for index in 0..more.len() {
        if more[index].first as usize <= number {
            base = more[index].target;
        }
    }
    base
}

/// Returns the last of runs, or if there is none, one from the first address on with this base.
fn last_run(base: u64, more: &Vec<Run>) -> Run
    ensures { IsLastRun base more.now.items result }
{
    let count = more.len();
    if count == 0 {
        return Run {
            first: 0,
            before: 0,
            target: base,
            offset: 0,
        };
    }
    more[count - 1]
}

/// Returns the same as `base_of`: of most addresses by the last run.
#[inline(always)]
fn base_at(base: u64, more: &Vec<Run>, last: Run, number: usize) -> u64
    requires { IsLastRun base more.now.items last }
    ensures { result ≡ base_of base more.now.items number }
{
    if number >= last.first as usize {
        return last.target;
    }
    base_of(base, more, number)
}

impl Places {
    /// Returns no addresses. It takes no memory.
    pub fn empty(alloc: Global) -> Places
        ensures { result ≡ [] }
    {
        Places {
            distances: Vec::new(alloc),
            base: 0,
            more: Vec::new(alloc),
            last: Run {
                first: 0,
                before: 0,
                target: 0,
                offset: 0,
            },
        }
    }

    /// Returns the addresses of planned places, if targets, of `words` words each, are on these pages. It takes no
    /// memory.
    pub fn planned(words: u32, targets: &[u32], places: Runs) -> Places
        requires words { words ≤ MOST_WORDS }
        requires pages { Each targets.now (λ n. n ≤ MOST_PAGES) }
        requires addresses { Each (map (address_in words targets.now) places) IsAddress }
        ensures { result ≡ map (address_in words targets.now) places }
    {
        let mut more = places.more;
        put_on(words, targets, &mut more);
        let base = run_base(words, targets, places.first);
        let last = last_run(base, &more);
        Places {
            distances: places.sizes.into_sums(),
            base,
            more,
            last,
        }
    }

    /// Returns these addresses, of at most as many objects as the largest page has words. Fails only if out of memory.
    pub fn listed(alloc: Global, places: &[Addr]) -> Result<Places, AllocError>
        requires { length places.now ≤ MOST_WORDS }
        ensures { IfOk result (λ p. p ≡ places.now) }
    {
        let mut distances = Vec::with_capacity(alloc, places.len())?;
        let mut more = Vec::new(alloc);
        let mut last = Run {
            first: 0,
            before: 0,
            target: 0,
            offset: 0,
        };
        for number in 0..places.len() {
            let address = places[number].number();
            let low = address % (1 << 32);
            distances.push(low as u32)?;
            let run = Run {
                first: number as u32,
                before: 0,
                target: address - low,
                offset: 0,
            };
            last = add_run(&mut more, last, run)?;
        }
        let last = last_run(0, &more);
        Ok(Places {
            distances,
            base: 0,
            more,
            last,
        })
    }

    /// Returns how many addresses there are.
    #[inline(always)]
    pub fn len(&self) -> usize
        ensures { result ≡ length self.now }
    {
        self.distances.len()
    }

    /// Returns an address by its number, from 0.
    #[inline(always)]
    pub fn get(&self, index: usize) -> Addr
        requires { index < length self.now }
        ensures { result ≡ get_or self.now index 0 }
    {
        let base = base_at(self.base, &self.more, self.last, index);
        Addr::new(base.wrapping_add(u64::from(self.distances[index]))).unwrap()
    }
}
