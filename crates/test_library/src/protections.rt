//! Four pages are protected in one step.

use crate::heaps::{Moving, fill_and_close, new_heap, new_managed};
use crate::same::same;
use heap::Refusal;
use model::{Answer, PageList, Phase, Reply, Step};
use std::alloc::{AllocError, Global};
use std::process::Abort;
use std::test::Fail;

/// The pages, in the order of the step.
const PAGES: [u32; 4] = [3, 1, 4, 2];

/// A mark has found eight objects.
const EIGHT: Reply = Ok(Answer::Ended {
    live: 8,
    retired: 0,
});

/// Eight objects of three words go to two targets of sixteen.
const ALL: Reply = Ok(Answer::Protected {
    objects: 8,
    targets: 2,
});

/// Returns the step that protects the pages.
fn protection(alloc: Global) -> Result<Step, AllocError> {
    Ok(Step::Protect(PageList::new(Vec::from_slice(alloc, &PAGES)?)))
}

/// Each page is copied, and its frame released: none is free before.
fn empty(rt: &impl Abort, heap: &mut impl Moving) {
    same(rt, heap.act(&Step::Cross), Ok(Answer::Done));
    let mut free = 0u64;
    for page in PAGES {
        free = free.saturating_add(1);
        let copied = Answer::CopiedPage { copied: 2 };
        same(rt, heap.work(&Step::CopyPage(page)), Ok(copied));
        let released = Answer::Released { free };
        same(rt, heap.work(&Step::Release(page)), Ok(released));
    }
    same(rt, heap.progress(), (Phase::Relocating, true, 0));
}

/// Nothing was done, and the same step is done when it is repeated.
fn protects_again(rt: &impl Abort, heap: &mut impl Moving, step: &Step, before: &str, after: &str) {
    same(rt, after, before);
    same(rt, heap.progress(), (Phase::Idle, true, 0));
    same(rt, heap.work(step), ALL);
}

/// The pages are protected and emptied. If the step is out of memory, the heap is as it was, and all is done when the
/// step is repeated; the test then fails as out of memory.
fn protect(rt: &impl Abort, alloc: Global, heap: &mut impl Moving) -> Result<(), Fail> {
    same(rt, fill_and_close(heap)?, EIGHT);
    let step = protection(alloc)?;
    let before = heap.text(alloc)?;
    let reply = heap.work(&step);
    if reply == Err(Refusal::Memory) {
        let after = heap.text(alloc)?;
        protects_again(rt, heap, &step, &before, &after);
    } else {
        same(rt, reply, ALL);
    }
    same(rt, heap.progress(), (Phase::ProtectCrossing, false, 8));
    empty(rt, heap);
    reply?;
    Ok(())
}

#[test]
fn four_pages_are_protected(rt: HostRuntime) -> Result<(), Fail> {
    let mut heap = new_heap(rt.alloc())?;
    protect(&rt, rt.alloc(), &mut heap)
}

#[test]
fn four_pages_of_a_managed_heap(rt: HostRuntime) -> Result<(), Fail> {
    let mut heap = new_managed(rt.alloc())?;
    protect(&rt, rt.alloc(), &mut heap)
}
