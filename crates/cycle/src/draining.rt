//! Mark drains: the scanning steps of a worker, until none is left or one is rejected.

ghost use Rattle.std.specs.Prelude.{◌≡◌, ◌<◌, ◌^◌, position, is_some, IfOk, IfSome, OnErr, OnOk};
ghost use Rattle.model.specs.declared.records.Global.{Global};
ghost use Rattle.model.specs.Scans.{scan_of, next_drain};
ghost use Rattle.cycle.specs.Beginnings.{IsBeginning, NotMemory};
ghost use Rattle.cycle.specs.Loads.{Leaves};
ghost use Rattle.cycle.specs.Drains.{drain_within, drain, verdict, DrainsEnd, DrainsWhole};

use crate::book::Book;
use heap::Heap;
use marker::next_todo;
use model::{Actor, Refusal, Reply, Step};
use std::alloc::AllocError;

/// A drain of a recorded heap ends within one step more than the history's limit of entries. It does nothing: its
/// contract is the law.
pub fn drains_end()
    ensures { DrainsEnd }
{}

/// Returns whether a worker is scanning an object.
fn has_scan(heap: &Heap, worker: u32) -> bool
    ensures { result ≡ is_some (scan_of heap.now worker) }
{
    match heap.workers().get(worker as usize) {
        None => false,
        Some(scan) => scan.is_some(),
    }
}

/// Returns the number of the first grey global, or `None`.
fn next_global(heap: &Heap) -> Option<usize>
    ensures place { result ≡ position (λ (g : Global). g.todo) heap.now.globals }
    ensures range { IfSome result (λ i. i < 2 ^ 32) }
{
    heap.law();
    heap.first_todo_global()
}

/// Returns the next step by which a worker drains the mark: it scans the object that it has picked; else it marks the
/// first grey global; else it picks the first grey object that no worker has. `None` if there is none of these.
/// Workers count from 0.
#[tactic(auto, unfolding(model::specs::Scans::next_drain))]
pub fn next_drain(heap: &Heap, worker: u32) -> Option<Step>
    ensures { result ≡ next_drain heap.now worker }
{
    if has_scan(heap, worker) {
        return Some(Step::ScanField);
    }
    if let Some(global) = next_global(heap) {
        return Some(Step::ScanGlobal(global as u32));
    }
    let address = next_todo(heap)?;
    Some(Step::Pick {
        page: heap.memory().page_of(address) as u32,
        offset: heap.memory().offset_of(address),
    })
}

/// Returns the first error among replies, if there is one.
pub fn verdict(replies: &[Reply]) -> Result<(), Refusal>
    ensures { result ≡ verdict replies.now }
{
    for reply in replies {
        if let Err(refusal) = reply {
            return Err(*refusal);
        }
    }
    Ok(())
}

impl Book {
    /// Does at most `most` steps of a drain. Fails only if out of memory: a beginning of these steps is done then.
    fn drain_within(
        &mut self,
        most: u64,
        worker: u32,
        replies: &mut Vec<Reply>,
    ) -> Result<Result<(), Refusal>, AllocError>
        ensures steps { OnOk result
            (Leaves (drain_within most self.old worker) replies.old.items self.new replies.new.items) }
        ensures end { IfOk result (λ end. end ≡ verdict (drain_within most self.old worker).replies) }
        ensures refused { IfOk result NotMemory }
        ensures memory { OnErr result
            (IsBeginning (drain_within most self.old worker).book self.old replies.old.items
            self.new replies.new.items) }
    {
        for _ in 0..most {
            let Some(step) = next_drain(self.heap(), worker) else {
                return Ok(Ok(()));
            };
            if let Err(refusal) = self.act_into(Actor::Worker(worker), step, replies)? {
                return Ok(Err(refusal));
            }
        }
        Ok(Ok(()))
    }

    /// Does a complete drain, as one call: the worker scans the object that it has picked to its end, marks the grey
    /// globals, from the first on, and then picks and scans objects, the one with the least address first, until none
    /// is left that no worker has. Returns `Ok` if it came to that end, else the first error, which is `Memory` if
    /// out of memory. The steps' replies are appended to `replies`: all of them are accepted, or all but the last.
    ///
    /// After `Memory` a beginning of these steps is done, each of them accepted, and their replies are appended; the
    /// call may be repeated.
    pub fn drain(&mut self, worker: u32, replies: &mut Vec<Reply>) -> Result<(), Refusal>
        ensures { DrainsWhole result self.old replies.old.items self.new replies.new.items (drain self.old worker) }
    {
        let heap = self.heap();
        heap.law();
        let most = heap.config().history + 1;
        match self.drain_within(most, worker, replies) {
            Ok(end) => end,
            Err(_) => Err(Refusal::Memory),
        }
    }
}
