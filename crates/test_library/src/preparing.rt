//! A collection in parts, which prepares frames.

use crate::heaps::{Moving, fill_and_close, new_managed};
use crate::same::same;
use collecting::{Collect, Parts};
use heap::Refusal;
use std::alloc::{AllocError, Global};
use std::process::Abort;
use std::test::Fail;

/// Does all parts of a collection, and repeats a part that is out of memory. Returns whether one was, and the most
/// frames whose memory was kept.
fn collect(
    rt: &impl Abort,
    alloc: Global,
    heap: &mut (impl Moving + Collect),
) -> Result<(bool, usize), Refusal> {
    let mut parts = Parts::new(alloc);
    let mut lacked = false;
    let mut most = 0;
    for _ in 0..1000u32 {
        let before = (heap.progress(), heap.kept_frames());
        match heap.collect_some(alloc, &mut parts, 100, 0) {
            Ok(true) => return Ok((lacked, most)),
            Ok(false) => {}
            Err(refusal) => {
                same(rt, refusal, Refusal::Memory);
                same(rt, heap.progress(), before.0);
                lacked = true;
            }
        }
        most = most.max(heap.kept_frames());
    }
    Ok((lacked, 0))
}

/// The four pages of eight objects are emptied into two frames. If a part is out of memory, the heap is as it was,
/// and the next parts end the collection; the test then fails as out of memory.
fn ends(rt: &impl Abort, alloc: Global, heap: &mut (impl Moving + Collect)) -> Result<(), Fail> {
    fill_and_close(heap)??;
    let (lacked, most) = collect(rt, alloc, heap)?;
    same(rt, most, 4);
    same(rt, heap.kept_frames(), 4);
    if lacked {
        Err(Fail::from(AllocError))
    } else {
        Ok(())
    }
}

#[test]
fn parts_go_on(rt: HostRuntime) -> Result<(), Fail> {
    let mut heap = new_managed(rt.alloc())?;
    ends(&rt, rt.alloc(), &mut heap)
}
