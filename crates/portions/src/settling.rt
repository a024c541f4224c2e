//! Checkpoints that a collection has left open.

ghost use Rattle.managed.specs.Goings.{Goes, IsCrossing, StandsForSame};
ghost use Rattle.collecting.specs.Collections.{WORKER};
ghost use Rattle.portions.specs.Apart.{IsApart, RunsAlone};

use managed::ManagedHeap;

/// Has all threads cross the checkpoint that a collection has left open, if there is one.
#[inline(always)]
pub(crate) fn settle(heap: &mut ManagedHeap, thread: u32)
    requires { RunsAlone heap.old thread }
    ensures goes { Goes (IsCrossing WORKER) heap.old heap.new }
    ensures stands { StandsForSame heap.old heap.new }
    ensures apart { IsApart heap.new thread }
{
    if heap.heap().phase().is_crossing() {
        close_checkpoint(heap, thread);
    }
}

/// Has all threads cross the open checkpoint.
#[cold]
#[inline(never)]
fn close_checkpoint(heap: &mut ManagedHeap, thread: u32)
    requires { RunsAlone heap.old thread }
    ensures goes { Goes (IsCrossing WORKER) heap.old heap.new }
    ensures stands { StandsForSame heap.old heap.new }
    ensures apart { IsApart heap.new thread }
{
    let _ = heap.cross_all(0);
    heap.law();
    let _ = thread;
}
