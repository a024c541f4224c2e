//! The part of a collection that measures pages.

ghost use Rattle.std.specs.Prelude.{◌≡◌, ◌<◌, IfOk};
ghost use Rattle.collecting.specs.Stages.{Measures, MeasuresOn, entered, measured_one, pages_in};

use crate::parts::Parts;
use choosing::measure_page;
use heap::Heap;
use managed::ManagedHeap;
use model::Refusal;
use std::alloc::AllocError;

/// Returns how many pages a part with a budget of `budget` objects measures: as many as have 64 words for each of
/// these, and one more.
pub(super) fn pages_in(heap: &Heap, budget: u32) -> u64
    ensures value { result ≡ pages_in budget heap.now.config.words }
    ensures least { 0 < result }
{
    u64::from(budget) * 64 / u64::from(heap.config().words.max(1)) + 1
}

impl Parts {
    /// Adds a page that was found, and continues with the next one.
    fn enter(&mut self, page: (u64, u32), next: u32) -> Result<(), AllocError>
        ensures { IfOk result (λ done. self.new ≡ entered page next self.old) }
    {
        self.found.push(page)?;
        self.next = next;
        Ok(())
    }

    /// Continues with the next page.
    fn skip(&mut self, next: u32)
        ensures { self.new ≡ record self.old { next = next } }
    {
        self.next = next;
    }

    /// Measures the next page.
    fn measure_next(&mut self, heap: &Heap, percent: u32) -> Result<(), AllocError>
        requires { self.old.next < heap.now.store.count }
        ensures { IfOk result (λ done. self.new ≡ measured_one heap.now percent self.old) }
    {
        let _count = heap.memory().page_count();
        let page = self.next + 1;
        let measure = measure_page(heap, percent, page);
        self.words.add(measure.live);
        match measure.sparse {
            Some(found) => self.enter(found, page),
            None => {
                self.skip(page);
                Ok(())
            }
        }
    }

    /// Measures at most `most` pages. Returns true if all are measured.
    fn measure(&mut self, heap: &Heap, percent: u32, most: u64) -> Result<bool, AllocError>
        ensures { IfOk result (λ all. Measures heap.now percent most self.old all self.new) }
    {
        for _done in 0..most {
            if self.next >= heap.memory().page_count() {
                return Ok(true);
            }
            self.measure_next(heap, percent)?;
        }
        Ok(false)
    }

    /// Returns the pages that were found after the first `known`, each with its live words before it.
    fn found_from(&self, known: usize) -> &[(u64, u32)] {
        &self.found[known.min(self.found.len())..]
    }
}

/// Keeps the sizes of the live objects of these pages, if memory is there for it.
fn keep_sizes(heap: &mut ManagedHeap, pages: &[(u64, u32)])
    ensures { heap.new ≡ heap.old }
{
    for index in 0..pages.len() {
        let _ = heap.keep_sizes(pages[index].1);
    }
}

/// Measures pages, and keeps the sizes of the live objects of those that were found; if all are measured, the next part
/// prepares frames.
pub(super) fn measure_part(
    heap: &mut ManagedHeap,
    parts: &mut Parts,
    percent: u32,
    budget: u32,
) -> Result<bool, Refusal>
    ensures { MeasuresOn percent budget parts.old heap.old result parts.new heap.new }
{
    let known = parts.found.len();
    let measured = parts.measure(heap.heap(), percent, pages_in(heap.heap(), budget));
    keep_sizes(heap, parts.found_from(known));
    match measured {
        Ok(true) => {
            parts.begin_preparing(heap.heap());
            Ok(false)
        }
        Ok(false) => Ok(false),
        Err(_) => Err(Refusal::Memory),
    }
}
