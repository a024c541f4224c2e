//! Copying the objects of many pages at once, by threads.

ghost use Rattle.std.specs.Prelude.{◌≡◌, ◌++◌, ◌∷◌, [], true, false, length, IfOk};
ghost use Rattle.heap.specs.Filling.{AreRunsTo, IsRunTo};
ghost use Rattle.model.specs.Bits.{of_page};
ghost use Rattle.model.specs.Owning.{Each};
ghost use Rattle.model.specs.Protections.{has_twice};
ghost use Rattle.model.specs.States.{HeapState};
ghost use Rattle.page.specs.Filling.{runs_of};
ghost use Rattle.relocate.specs.Many.{AddsTo, AreTiled, CopiesPages, MayCopyPage};

use crate::whole::{may_copy_page, run_at};
use heap::Heap;
use page::{PageRun, Target};
use std::alloc::{AllocError, Global};
use std::thread::Threads;

/// Adds a run that goes to a page to those of the last target, if it is that page, else to those of a new target. Fails
/// only if out of memory.
fn add_run(
    alloc: Global,
    targets: &mut Vec<Target>,
    page: u64,
    run: PageRun,
) -> Result<(), AllocError>
    ensures runs { IfOk result (λ u. runs_of targets.new.items ≡ runs_of targets.old.items ++ run ∷ []) }
    ensures to { (h : HeapState) → AreRunsTo h targets.old.items → IsRunTo h page run
        → IfOk result (λ u. AreRunsTo h targets.new.items) }
{
    let count = targets.len();
    if count > 0 && targets[count - 1].page == page {
        let last = &mut targets[count - 1];
        last.runs.push(run)?;
        return Ok(());
    }
    let mut target = Target::new(alloc, page);
    target.runs.push(run)?;
    targets.push(target)?;
    Ok(())
}

/// Adds all entries of a page, by runs with one target each. Fails only if out of memory.
fn add_page(
    alloc: Global,
    heap: &Heap,
    page: u32,
    targets: &mut Vec<Target>,
) -> Result<(), AllocError>
    requires { AreRunsTo heap.now targets.old.items }
    ensures to { IfOk result (λ u. AreRunsTo heap.now targets.new.items) }
    ensures adds { IfOk result (λ u. AddsTo page (length (of_page heap.now.sides page)) targets.old.items
        targets.new.items) }
{
    let count = heap.sides().count_on(page);
    let page = u64::from(page);
    let mut first = 0;
    while first < count {
        let run = run_at(heap, page, first, count);
        let entries = PageRun {
            page,
            first,
            count: run.count,
        };
        add_run(alloc, targets, run.target, entries)?;
        first += run.count;
    }
    Ok(())
}

/// Returns the targets of pages' objects, with the runs that go there. Fails only if out of memory.
fn list_runs(alloc: Global, heap: &Heap, pages: &[u32]) -> Result<Vec<Target>, AllocError>
    ensures to { IfOk result (λ ts. AreRunsTo heap.now ts.items) }
    ensures tiled { IfOk result (λ ts. AreTiled heap.now.sides pages.now (runs_of ts.items)) }
{
    let mut targets = Vec::new(alloc);
    for index in 0..pages.len() {
        add_page(alloc, heap, pages[index], &mut targets)?;
    }
    Ok(targets)
}

/// Returns whether a worker may copy the objects of a page.
fn may_copy(heap: &Heap, worker: u32, page: u32) -> bool
    ensures { result ≡ true → MayCopyPage worker heap.now page }
{
    if worker as usize >= heap.workers().len() || page == 0 || page > heap.memory().page_count() {
        return false;
    }
    matches!(may_copy_page(heap, page), Ok(()))
}

/// Returns whether a worker may copy the objects of all these pages.
fn may_copy_all(heap: &Heap, worker: u32, pages: &[u32]) -> bool
    ensures { result ≡ true → Each pages.now (MayCopyPage worker heap.now) }
{
    for index in 0..pages.len() {
        if !may_copy(heap, worker, pages[index]) {
            return false;
        }
    }
    true
}

/// Copies all objects of From pages that aren't copied yet to their planned places, each page named once: it has the
/// effect of the step `CopyPage` of a worker for each page in turn. The words of each target are written by one of
/// `threads` threads, if the targets' numbers rise. Pages count from 1, workers from 0.
///
/// Returns whether it did so. It does nothing if one of these steps would be rejected, or if out of memory.
pub fn copy_pages_by<R: Threads + Sync>(
    rt: &R,
    heap: &mut Heap,
    worker: u32,
    pages: &[u32],
    threads: u32,
) -> bool
    requires { has_twice pages.now ≡ false }
    ensures copied { result ≡ true → CopiesPages worker heap.old pages.now heap.new }
    ensures stays { result ≡ false → heap.new ≡ heap.old }
{
    heap.law();
    if !may_copy_all(heap, worker, pages) {
        return false;
    }
    let Ok(targets) = list_runs(heap.allocator(), heap, pages) else {
        return false;
    };
    let mut targets = targets;
    heap.raw_fill_by(rt, &mut targets, threads);
    true
}
