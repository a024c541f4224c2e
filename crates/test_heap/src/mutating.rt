//! The calls of threads that return plain values: a sequence in which each call is made.

use crate::same::same;
use heap::NewFault;
use managed::{Actor, Answer, Buffer, ManagedHeap, Mutate, PageList, Reply, Step, Trap};
use model::{Config, Refusal};
use std::alloc::{AllocError, Global};
use std::process::Abort;
use std::test::Fail;
use test_support_samples::shared_by_two;

const FIRST: u32 = 0;

const SECOND: u32 = 1;

const WORKER: Actor = Actor::Worker(0);

/// A heap with the calls of threads, and the steps of workers. The latter have no contracts.
trait Worked: Mutate {
    /// Does a step of an actor.
    fn step(&mut self, actor: Actor, step: &Step) -> Reply;
}

impl Worked for ManagedHeap {
    fn step(&mut self, actor: Actor, step: &Step) -> Reply {
        ManagedHeap::step(self, actor, step)
    }
}

/// Three frames of 16 words, two threads and a worker; an object has one reference and one datum.
fn config(alloc: Global) -> Result<Config, AllocError> {
    let mut config = shared_by_two(alloc)?;
    config.births = 2;
    config.history = 1;
    Ok(config)
}

/// A step of the worker is accepted.
fn works(rt: &impl Abort, heap: &mut impl Worked, step: Step) {
    assert!(rt; heap.step(WORKER, &step).is_ok());
}

/// Two objects are allocated in a page of their own, the first of which refers to the second.
fn make(rt: &impl Abort, heap: &mut impl Mutate) {
    same(rt, heap.give_back(FIRST), Err(Refusal::NoRoom));
    same(rt, heap.take(FIRST, 17), Err(Refusal::BadIndex));
    let buffer = Buffer {
        page: 1,
        next: 0,
        end: 16,
    };
    same(rt, heap.take(FIRST, 16), Ok(buffer));
    same(rt, heap.take(FIRST, 1), Err(Refusal::HasBuffer));
    same(rt, heap.new_object(FIRST, 0, 0), Ok(0));
    same(rt, heap.new_object(FIRST, 1, 0), Ok(1));
    same(rt, heap.new_object(FIRST, 1, 0), Err(Refusal::Births));
    same(rt, heap.store(FIRST, 0, 0, 1), Ok(()));
    same(rt, heap.give_back(FIRST), Ok(()));
}

/// Data are written and read.
fn write(rt: &impl Abort, heap: &mut impl Mutate) {
    same(rt, heap.set_datum(FIRST, 0, 0, 7), Ok(()));
    same(rt, heap.set_datum(FIRST, 1, 0, 8), Ok(()));
    same(rt, heap.datum(FIRST, 0, 0), Ok(7));
    same(rt, heap.datum(FIRST, 0, 1), Err(Refusal::BadIndex));
    same(rt, heap.datum(FIRST, 2, 0), Err(Refusal::Null));
    same(rt, heap.datum(2, 0, 0), Err(Refusal::NoActor));
}

/// Registers are copied, compared and cleared.
fn compare(rt: &impl Abort, heap: &mut impl Mutate) {
    same(rt, heap.copy_register(FIRST, 2, 1), Ok(()));
    same(rt, heap.same(FIRST, 2, 1), Ok(true));
    same(rt, heap.same(FIRST, 2, 0), Ok(false));
    same(rt, heap.is_null(FIRST, 2), Ok(false));
    same(rt, heap.clear_register(FIRST, 2), Ok(()));
    same(rt, heap.is_null(FIRST, 2), Ok(true));
    same(rt, heap.is_null(FIRST, 4), Err(Refusal::BadIndex));
}

/// The second thread loads both objects, by the global and by the first one's reference.
fn load(rt: &impl Abort, heap: &mut impl Mutate) {
    same(rt, heap.store_global(FIRST, 0, 0), Ok(()));
    same(rt, heap.trap(SECOND), Err(Refusal::NotBusy));
    same(rt, heap.load_global(SECOND, 0, 0), Ok(()));
    same(rt, heap.datum(SECOND, 0, 0), Err(Refusal::Busy));
    same(rt, heap.trap(SECOND), Ok(Trap::Clear));
    same(rt, heap.finish(SECOND), Ok(()));
    same(rt, heap.load(SECOND, 1, 0, 0), Ok(()));
    same(rt, heap.heal(SECOND), Ok(true));
    same(rt, heap.finish(SECOND), Ok(()));
    same(rt, heap.datum(SECOND, 1, 0), Ok(8));
}

/// A mark runs: the first thread crosses, the second is parked and crossed for.
fn mark(rt: &impl Abort, heap: &mut impl Worked) {
    same(rt, heap.cross(FIRST), Err(Refusal::Phase));
    same(rt, heap.park(SECOND), Ok(()));
    works(rt, heap, Step::StartMark);
    same(rt, heap.cross(FIRST), Ok(()));
    same(rt, heap.is_null(SECOND, 0), Err(Refusal::Parked));
    works(rt, heap, Step::CrossFor(SECOND));
    same(rt, heap.unpark(SECOND), Ok(()));
    same(rt, heap.unpark(SECOND), Err(Refusal::NotParked));
    same(rt, heap.load_global(FIRST, 2, 0), Ok(()));
    same(rt, heap.trap(FIRST), Ok(Trap::Marked));
    same(rt, heap.finish(FIRST), Err(Refusal::Busy));
    same(rt, heap.heal(FIRST), Ok(true));
    same(rt, heap.finish(FIRST), Ok(()));
}

/// Both objects are scanned, and the mark ends.
fn scan(rt: &impl Abort, heap: &mut impl Worked) {
    for offset in [0, 3] {
        works(rt, heap, Step::Pick { page: 1, offset });
        works(rt, heap, Step::ScanField);
        works(rt, heap, Step::ScanField);
    }
    works(rt, heap, Step::ScanGlobal(0));
    works(rt, heap, Step::EndMark);
}

/// The page is protected, and both threads cross; then the object of a register of the first is moved.
fn protect(rt: &impl Abort, heap: &mut impl Worked, pages: PageList) {
    works(rt, heap, Step::Protect(pages));
    same(rt, heap.cross(FIRST), Ok(()));
    same(rt, heap.scrub(FIRST, 0), Err(Refusal::Stall));
    same(rt, heap.scrub(SECOND, 0), Ok(false));
    same(rt, heap.cross(SECOND), Ok(()));
    same(rt, heap.datum(FIRST, 0, 0), Err(Refusal::Stale));
    same(rt, heap.scrub(FIRST, 0), Ok(true));
    same(rt, heap.datum(FIRST, 0, 0), Ok(7));
}

/// A load finds the moved object, and the global is healed.
fn follow(rt: &impl Abort, heap: &mut impl Worked) {
    same(rt, heap.load_global(SECOND, 0, 0), Ok(()));
    same(rt, heap.trap(SECOND), Ok(Trap::Moved));
    same(rt, heap.store_global(FIRST, 0, 3), Ok(()));
    same(rt, heap.heal(SECOND), Ok(false));
    same(rt, heap.finish(SECOND), Ok(()));
    same(rt, heap.datum(SECOND, 0, 0), Ok(7));
    let reply = heap.step(WORKER, &Step::Copy { page: 1, entry: 1 });
    same(rt, reply, Ok(Answer::MovedTo { page: 2, offset: 3 }));
}

fn ask(rt: &impl Abort, mut heap: impl Worked + Drop, pages: PageList) {
    make(rt, &mut heap);
    write(rt, &mut heap);
    compare(rt, &mut heap);
    load(rt, &mut heap);
    mark(rt, &mut heap);
    scan(rt, &mut heap);
    protect(rt, &mut heap, pages);
    follow(rt, &mut heap);
}

#[test]
fn threads_ask_by_calls(rt: HostRuntime) -> Result<(), Fail> {
    let pages = vec![in rt.alloc(); 1u32]?;
    let heap = ManagedHeap::new(rt.alloc(), config(rt.alloc())?)?;
    ask(&rt, heap, PageList::new(pages));
    Ok(())
}
