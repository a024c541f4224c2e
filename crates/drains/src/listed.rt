//! Scans the objects of a list.

ghost use Rattle.std.specs.Prelude.{◌≡◌, ◌≤◌, [], MatchBool, length, true};
ghost use Rattle.model.specs.Scans.{is_free_todo};
ghost use Rattle.drains.specs.Drains.{IsReady, ObjectsDone};
ghost use Rattle.drains.specs.Scans.{IsScanned};

use crate::backlog::{Waiting, note_all};
use crate::whole::scan_object;
use heap::Heap;
use marker::is_taken;
use refword::Addr;

/// Returns whether the object at an address is grey, and no worker has it.
#[inline(always)]
#[tactic(auto, unfolding(model::specs::Scans::is_free_todo))]
fn is_free_todo(heap: &Heap, address: Addr) -> bool
    ensures { result ≡ is_free_todo heap.now address }
{
    let (page, offset) = (
        heap.memory().page_of(address),
        heap.memory().offset_of(address),
    );
    heap.todo().bit_on(page, offset) && !is_taken(heap, address.number())
}

/// Scans an object completely, if it is grey and no worker has it, and makes those that it marks grey. Returns whether
/// it was scanned.
#[inline(always)]
fn scan_grey(heap: &mut Heap, address: Addr, waiting: &mut Waiting) -> bool
    requires { waiting.old.items ≡ [] }
    ensures scanned { IsScanned heap.old address result heap.new }
    ensures none { waiting.new.items ≡ [] }
{
    if !is_free_todo(heap, address) {
        return false;
    }
    scan_object(heap, address, waiting);
    note_all(heap, waiting);
    true
}

/// Scans objects of a list completely, for a worker that has none, one after the other in their order: those that are
/// grey and that no worker has. Objects that they mark become grey. Returns how many it scanned.
pub fn scan_listed(heap: &mut Heap, worker: u32, list: &[Addr]) -> u64
    requires { IsReady heap.old worker }
    ensures done { ObjectsDone heap.old worker result heap.new }
    ensures few { result ≤ length list.now }
{
    let mut waiting = Waiting::new();
    let mut done = 0u64;
    for index in 0..list.len() {
        heap.law();
        if scan_grey(heap, list[index], &mut waiting) {
            done += 1;
        }
    }
    done
}
