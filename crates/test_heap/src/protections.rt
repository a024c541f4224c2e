//! The state after a protection that is out of memory, and requests that no script can make. Scripts test the other
//! errors, and how objects move.

use crate::same::same;
use cycle::Stepping;
use heap::{Heap, NewFault};
use model::{Actor, Answer, PageList, PageState, Phase, Refusal, Reply, Step};
use std::alloc::{AllocError, Global};
use std::process::Abort;
use std::test::Fail;
use test_support_samples::shared_by_two;

const FIRST: Actor = Actor::Thread(0);

const SECOND: Actor = Actor::Thread(1);

const WORKER: Actor = Actor::Worker(0);

/// A heap whose state can be read. Tests pass theirs as one, since a proof with a `Heap` that lives over several
/// calls takes long.
pub trait HeldHeap: Stepping {
    /// Borrows the heap.
    fn heap(&self) -> &Heap;
}

impl HeldHeap for Heap {
    fn heap(&self) -> &Heap {
        self
    }
}

/// A step of this actor has this reply.
fn says(
    rt: &impl Abort,
    heap: &mut impl Stepping,
    actor: Actor,
    step: Step,
    reply: Result<Answer, Refusal>,
) {
    same(rt, heap.step(actor, &step), reply);
}

/// Page 1 is filled with one object, to which the global refers, and a mark closes it.
pub(crate) fn close(heap: &mut impl Stepping) -> Result<(), Refusal> {
    let (target, layout, global, source) = (0, 0, 0, 0);
    for (actor, step) in [
        (FIRST, Step::Take(16)),
        (FIRST, Step::New { target, layout }),
        (FIRST, Step::StoreGlobal { global, source }),
        (FIRST, Step::GiveBack),
        (WORKER, Step::StartMark),
        (FIRST, Step::Cross),
        (SECOND, Step::Cross),
        (WORKER, Step::ScanGlobal(0)),
        (WORKER, Step::Pick { page: 1, offset: 0 }),
        (WORKER, Step::ScanField),
        (WORKER, Step::ScanField),
        (WORKER, Step::EndMark),
    ] {
        heap.step(actor, &step)?;
    }
    Ok(())
}

/// Returns a new heap of two threads.
pub(crate) fn new_heap(alloc: Global) -> Result<Heap, NewFault> {
    Heap::new(alloc, shared_by_two(alloc)?)
}

/// The list of page 1.
fn first_page(alloc: Global) -> Result<PageList, AllocError> {
    Ok(PageList::new(vec![in alloc; 1]?))
}

/// One object goes to one target.
const ONE: Reply = Ok(Answer::Protected {
    objects: 1,
    targets: 1,
});

/// Nothing is protected, and page 1 is the only one that has a frame.
fn is_as_before(rt: &impl Abort, heap: &Heap) {
    same(rt, heap.phase(), Phase::Idle);
    same(rt, heap.memory().state(1), PageState::Closed);
    same(rt, heap.memory().state(2), PageState::Unused);
    same(rt, heap.memory().free_frames(), 2);
    same(rt, heap.sides().entry_on(1, 0), None);
}

/// Page 1 has one entry, whose object goes to page 2; and it may be given the forwarding table that it has.
fn has_one_run(rt: &impl Abort, heap: &Heap) {
    for (target, first, count, wanted) in [
        (2, 0, 1, true),
        (1, 0, 1, false),
        (2, 0, 2, false),
        (2, 1, 1, false),
        (2, 1, 0, true),
        (2, 2, 0, false),
    ] {
        same(rt, heap.can_copy_run(1, target, first, count), wanted);
    }
    let side = heap.sides().get(0);
    same(rt, side.map(|side| heap.can_set_side(side)), Some(true));
}

/// A protection that is out of memory leaves the heap as it was, and is done when it is repeated.
fn protects(rt: &impl Abort, mut heap: impl HeldHeap + Drop, step: &Step) -> Result<(), Refusal> {
    close(&mut heap)?;
    let reply = heap.step(WORKER, step);
    if reply == Err(Refusal::Memory) {
        is_as_before(rt, heap.heap());
        same(rt, heap.step(WORKER, step), ONE);
        return Err(Refusal::Memory);
    }
    same(rt, reply, ONE);
    has_one_run(rt, heap.heap());
    Ok(())
}

#[test]
fn a_page_is_protected(rt: HostRuntime) -> Result<(), Fail> {
    let step = Step::Protect(first_page(rt.alloc())?);
    protects(&rt, new_heap(rt.alloc())?, &step)?;
    Ok(())
}

/// A list of no pages is rejected. A thread protects and releases nothing.
fn refuses(rt: &impl Abort, alloc: Global, mut heap: impl HeldHeap + Drop) -> Result<(), Fail> {
    close(&mut heap)?;
    let none = Step::Protect(PageList::new(Vec::new(alloc)));
    says(rt, &mut heap, WORKER, none, Err(Refusal::BadIndex));
    let no_worker = Err(Refusal::NoActor);
    let first = Step::Protect(first_page(alloc)?);
    says(rt, &mut heap, FIRST, first, no_worker);
    says(rt, &mut heap, FIRST, Step::Release(1), no_worker);
    is_as_before(rt, heap.heap());
    Ok(())
}

#[test]
fn what_no_script_asks(rt: HostRuntime) -> Result<(), Fail> {
    refuses(&rt, rt.alloc(), new_heap(rt.alloc())?)?;
    Ok(())
}

/// The pages from 140 down to 1, and then one more.
fn falling(alloc: Global, last: u32) -> Result<PageList, AllocError> {
    let mut pages = Vec::with_capacity(alloc, 141)?;
    for number in 0..140 {
        pages.push(140 - number)?;
    }
    pages.push(last)?;
    Ok(PageList::new(pages))
}

/// In a long list that doesn't rise, a page is found twice wherever it is, even if out of memory for noting pages.
fn finds_twice(rt: &impl Abort, alloc: Global, heap: &mut impl Stepping) -> Result<(), Fail> {
    for last in [1, 2, 70, 140] {
        let step = Step::Protect(falling(alloc, last)?);
        says(rt, heap, WORKER, step, Err(Refusal::BadIndex));
    }
    let once = Step::Protect(falling(alloc, 141)?);
    says(rt, heap, WORKER, once, Err(Refusal::Unripe { page: 140 }));
    Ok(())
}

#[test]
fn pages_of_a_long_list(rt: HostRuntime) -> Result<(), Fail> {
    let mut config = shared_by_two(rt.alloc())?;
    config.pages = 200;
    let mut heap = Heap::new(rt.alloc(), config)?;
    let found = finds_twice(&rt, rt.alloc(), &mut heap);
    drop(heap);
    found
}
