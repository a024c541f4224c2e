//! Emptying pages of a managed heap by one call, by one thread and on several.

use crate::heaps::{Moving, fill_and_close, fill_large, new_large, new_managed};
use crate::same::same;
use heap::Refusal;
use managed::ManagedHeap;
use model::Phase;
use std::alloc::{AllocError, Global};
use std::process::Abort;
use std::test::Fail;
use std::thread::Threads;
use verify::Verdict;

/// A heap whose pages are emptied.
trait Emptying: Moving {
    /// Empties the pages 1 to 4.
    fn empty(&mut self, alloc: Global) -> Result<Result<(), Refusal>, AllocError>;
}

impl Emptying for ManagedHeap {
    fn empty(&mut self, alloc: Global) -> Result<Result<(), Refusal>, AllocError> {
        let pages = Vec::from_slice(alloc, &[3, 1, 4, 2])?;
        Ok(ManagedHeap::empty(self, 0, pages))
    }
}

/// All is emptied. If the call is out of memory, the heap is as it was, and all is done when it is repeated; the test
/// then fails as out of memory.
fn empties(rt: &impl Abort, alloc: Global, heap: &mut impl Emptying) -> Result<(), Fail> {
    fill_and_close(heap)??;
    let before = heap.text(alloc)?;
    let end = heap.empty(alloc)?;
    if end == Err(Refusal::Memory) {
        let after = heap.text(alloc)?;
        same(rt, after.as_str(), before.as_str());
        same(rt, heap.empty(alloc)?, Ok(()));
    } else {
        same(rt, end, Ok(()));
    }
    same(rt, heap.progress(), (Phase::Relocating, true, 0));
    end?;
    Ok(())
}

#[test]
fn pages_are_emptied(rt: HostRuntime) -> Result<(), Fail> {
    let mut heap = new_managed(rt.alloc())?;
    empties(&rt, rt.alloc(), &mut heap)
}

/// Memory for fifteen pages is too little to be prepared on threads. Of sixteen, three threads prepare five each, and
/// one is left. If that is out of memory, the test fails so.
fn prepares<R: Abort + Threads + Sync>(rt: &R, heap: &mut ManagedHeap) -> Result<(), Fail> {
    let words = 4_096 * 16;
    heap.prepare_frames_by(rt, words - 1, 3);
    same(rt, heap.kept_frames(), 0);
    heap.prepare_frames_by(rt, words, 3);
    if heap.kept_frames() < 15 {
        return Err(Fail::from(AllocError));
    }
    same(rt, heap.kept_frames(), 15);
    heap.prepare_frames_by(rt, words, 3);
    same(rt, heap.kept_frames(), 15);
    Ok(())
}

/// A heap of 2,400 objects is emptied by this thread, and another on several: both are the same then. Memory of the
/// other was prepared before.
fn empties_as<R: Abort + Threads + Sync>(
    rt: &R,
    alloc: Global,
    one: &mut ManagedHeap,
    other: &mut ManagedHeap,
) -> Result<(), Fail> {
    prepares(rt, other)?;
    fill_large(one)??;
    fill_large(other)??;
    Emptying::empty(one, alloc)??;
    let pages = Vec::from_slice(alloc, &[3, 1, 4, 2])?;
    other.empty_by(rt, 0, pages, 4)?;
    let (left, right) = (one.text(alloc)?, other.text(alloc)?);
    same(rt, left.as_str(), right.as_str());
    Ok(())
}

/// The same with a second heap, which is made while the first is another function's: each `?` here would drop that
/// field by field, for minutes of proof.
fn empties_on_threads<R: Abort + Threads + Sync>(
    rt: &R,
    alloc: Global,
    one: &mut ManagedHeap,
) -> Result<(), Fail> {
    let mut other = new_large(alloc)?;
    empties_as(rt, alloc, one, &mut other)
}

#[test]
fn pages_are_emptied_on_threads(rt: HostRuntime) -> Result<(), Fail> {
    let mut one = new_large(rt.alloc())?;
    empties_on_threads(&rt, rt.alloc(), &mut one)
}

/// Makes a heap, and again if that was out of memory, which the second value tells.
fn made(alloc: Global) -> Result<(ManagedHeap, bool), Fail> {
    if let Ok(heap) = new_managed(alloc) {
        return Ok((heap, false));
    }
    Ok((new_managed(alloc)?, true))
}

/// A heap works.
fn works(rt: &impl Abort, heap: &mut impl Moving) -> Result<(), Refusal> {
    fill_and_close(heap)??;
    same(rt, heap.progress(), (Phase::Idle, true, 0));
    Ok(())
}

#[test]
fn a_heap_is_made(rt: HostRuntime) -> Result<(), Fail> {
    let (mut heap, lacked) = made(rt.alloc())?;
    works(&rt, &mut heap)?;
    if lacked {
        Err(Fail::from(AllocError))
    } else {
        Ok(())
    }
}

/// Verifies a heap, and again if that was out of memory.
fn looks(rt: &impl Abort, alloc: Global, heap: &mut impl Moving) -> Result<(), Fail> {
    fill_and_close(heap)??;
    let first = heap.verdict(alloc);
    same(rt, heap.verdict(alloc)?, Verdict::Sound);
    same(rt, first?, Verdict::Sound);
    Ok(())
}

#[test]
fn a_heap_is_verified(rt: HostRuntime) -> Result<(), Fail> {
    let mut heap = new_managed(rt.alloc())?;
    looks(&rt, rt.alloc(), &mut heap)
}
