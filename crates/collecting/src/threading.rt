//! Collections by one call, on threads.

ghost use Rattle.std.specs.Prelude.{◌≡◌, IfOk};
ghost use Rattle.managed.specs.Collecting.{StandsUnseen};
ghost use Rattle.managed.specs.Scrubbing.{AreScrubbed};
ghost use Rattle.collecting.specs.Collections.{Collects, EndsCollecting, IsNotRoom};
ghost use Rattle.collecting.specs.Counting.{counted, seen_in_use};
ghost use Rattle.collecting.specs.Targets.{in_use};
ghost use Rattle.collecting.specs.declared.counting.Cause.TheVariants as causes;

use crate::collecting::Collected;
use crate::counting::{Cause, Counters, collect_counted};
use crate::cycles::collect_whole;
use crate::executor::OnThreads;
use managed::ManagedHeap;
use model::Refusal;
use std::alloc::Global;
use std::thread::Threads;

/// Does a complete collection as `Collect::collect` does, with the same `percent`, result and errors. Its mark may scan
/// on `threads` threads, which also measure the pages, copy the objects of those that are emptied, and prepare and clear
/// memory for that; with fewer than two, or while few objects are grey, this thread scans alone.
pub fn collect_by<R: Threads + Sync>(
    rt: &R,
    heap: &mut ManagedHeap,
    alloc: Global,
    percent: u32,
    threads: u32,
) -> Result<Collected, Refusal>
    ensures goes { Collects heap.old heap.new }
    ensures stands { StandsUnseen heap.old heap.new }
    ensures ends { EndsCollecting percent heap.old result heap.new }
    ensures room { IsNotRoom result }
    ensures scrubbed { IfOk result (λ collected. AreScrubbed heap.new) }
{
    collect_whole(heap, alloc, percent, &OnThreads { rt, threads })
}

/// Does a complete collection as `collect_by`, which is counted as requested by a call, as
/// `CollectCounted::collect_counted` does.
pub fn collect_counted_by<R: Threads + Sync>(
    rt: &R,
    heap: &mut ManagedHeap,
    alloc: Global,
    counters: &mut Counters,
    percent: u32,
    threads: u32,
) -> Result<Collected, Refusal>
    ensures goes { Collects heap.old heap.new }
    ensures stands { StandsUnseen heap.old heap.new }
    ensures ends { EndsCollecting percent heap.old result heap.new }
    ensures room { IsNotRoom result }
    ensures scrubbed { IfOk result (λ collected. AreScrubbed heap.new) }
    ensures counts { counters.new ≡ seen_in_use (in_use heap.new) (counted causes.Call result counters.old) }
{
    let by = OnThreads { rt, threads };
    let result = collect_counted(heap, alloc, counters, Cause::Call, percent, &by);
    counters.see(heap.heap());
    result
}
