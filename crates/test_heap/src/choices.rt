//! Pages that are measured on threads.

use crate::protections::{HeldHeap, close, new_heap};
use crate::same::{same, same_at};
use choosing::{Choice, choose_found, measure, measure_by};
use heap::Heap;
use std::alloc::Global;
use std::process::Abort;
use std::test::Fail;
use std::thread::Threads;

/// Chooses pages that are measured on this thread.
fn choose_alone(alloc: Global, heap: &Heap) -> Result<Choice, Fail> {
    let mut found = measure(alloc, heap, 100)?;
    Ok(choose_found(alloc, heap, 100, &mut found)?)
}

/// Chooses pages that are measured on a number of threads.
fn choose_by<R: Threads + Sync>(
    rt: &R,
    alloc: Global,
    heap: &Heap,
    threads: u32,
) -> Result<Choice, Fail> {
    let mut found = measure_by(rt, alloc, heap, 100, threads)?;
    Ok(choose_found(alloc, heap, 100, &mut found)?)
}

/// On any number of threads the same is chosen as on this one: page 1, with one object.
fn chooses_the_same<R: Abort + Threads + Sync>(
    rt: &R,
    alloc: Global,
    mut heap: impl HeldHeap + Drop,
) -> Result<(), Fail> {
    close(&mut heap)?;
    let alone = choose_alone(alloc, heap.heap())?;
    same(rt, alone.pages.len(), 1);
    for threads in 0..4 {
        let choice = choose_by(rt, alloc, heap.heap(), threads)?;
        same_at(rt, threads, choice.pages.len(), 1);
        same_at(rt, threads, choice.words, alone.words);
        same_at(rt, threads, choice.live_words, alone.live_words);
    }
    Ok(())
}

#[test]
fn threads_choose_the_same(rt: HostRuntime) -> Result<(), Fail> {
    chooses_the_same(&rt, rt.alloc(), new_heap(rt.alloc())?)
}

/// The live objects of page 1 are found too, on any number of threads.
fn finds_objects<R: Abort + Threads + Sync>(
    rt: &R,
    alloc: Global,
    mut heap: impl HeldHeap + Drop,
) -> Result<(), Fail> {
    close(&mut heap)?;
    same(rt, measure(alloc, heap.heap(), 100)?.objects.len(), 1);
    same(rt, measure(alloc, heap.heap(), 0)?.objects.len(), 0);
    for threads in 0..4 {
        let found = measure_by(rt, alloc, heap.heap(), 100, threads)?;
        same_at(rt, threads, found.objects.len(), 1);
    }
    Ok(())
}

#[test]
fn threads_find_live_objects(rt: HostRuntime) -> Result<(), Fail> {
    finds_objects(&rt, rt.alloc(), new_heap(rt.alloc())?)
}
