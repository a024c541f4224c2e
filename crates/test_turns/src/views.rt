//! Views: a complete heap is read in each phase of a collection, by several threads at once.

use crate::same::{is_sound, is_sound_then, same};
use model::Refusal;
use portions::{CollectorSeat, Handle, MutatorCalls, Seats, SharedHeap, ThreadSeat, View};
use std::alloc::Global;
use std::process::Abort;
use std::sync::Wait;
use std::test::Fail;
use std::thread::Threads;
use std::time::Clock;
use test_support_threads::team::{CELL, Job, POLICY, all_work, shared_heap};

/// The greatest number of objects that a part scans.
const BUDGET: u32 = 3;

/// More parts than three collections of this heap have.
const PARTS: u32 = 900;

/// How many objects the list has.
const LENGTH: u32 = 60;

/// The sum of the data of the list: 0 to 59.
const SUM: u64 = 1770;

/// Puts a number in front of the list in register 0, and allocates a garbage object.
fn push(alloc: Global, mutator: &mut impl MutatorCalls, value: u64) -> Result<(), Refusal> {
    mutator.make(alloc, POLICY, 1, CELL)?;
    mutator.set_datum(1, 0, value)?;
    mutator.store(1, 0, 0)?;
    mutator.copy_register(0, 1)?;
    mutator.make(alloc, POLICY, 2, CELL)?;
    mutator.clear_register(2)?;
    mutator.clear_register(1)
}

/// Makes the list in register 0 and in global 0.
fn fill(alloc: Global, mutator: &mut impl MutatorCalls) -> Result<(), Refusal> {
    mutator.clear_register(0)?;
    for value in 0..LENGTH {
        push(alloc, mutator, u64::from(value))?;
    }
    mutator.store_global(0, 0)
}

/// The thread makes its list.
fn fill_by<R: Wait>(
    rt: &R,
    alloc: Global,
    shared: &SharedHeap,
    seat: &mut ThreadSeat,
) -> Result<(), Refusal> {
    let mut portion = shared.enter(rt, seat);
    fill(alloc, &mut *portion)
}

/// Returns the sum of the data of the list in global 0, and how many objects it has.
fn sum(view: &View<'_>) -> Result<(u64, u32), Refusal> {
    let mut sum = 0u64;
    let mut length = 0u32;
    let mut next = view.global(0)?;
    for _ in 0..LENGTH {
        let Some(cell) = next else {
            break;
        };
        sum = sum.wrapping_add(cell.datum(0)?);
        length = length.wrapping_add(1);
        next = cell.load(0)?;
    }
    Ok((sum, length))
}

/// Returns whether two handles refer to the same object.
fn is_same(left: &Option<Handle<'_>>, right: &Option<Handle<'_>>) -> bool {
    match (left, right) {
        (Some(left), Some(right)) => left.same(right) && left.object() == right.object(),
        _ => false,
    }
}

/// Reads the list by a view: it is in a register and in a global, and both refer to the same object.
fn look(view: &View<'_>) -> Result<(u64, u32, bool), Refusal> {
    let held = view.register(0, 0)?;
    let shown = view.global(0)?;
    let (total, length) = sum(view)?;
    Ok((total, length, is_same(&held, &shown)))
}

/// Reads the list by a view, while nothing changes.
fn look_by<R: Wait>(rt: &R, shared: &SharedHeap) -> Result<(u64, u32, bool), Refusal> {
    let desk = shared.read(rt);
    look(&desk.view())
}

/// Collects in parts, after each of which a view shows the list. Returns how many collections have ended.
fn collects(
    rt: &(impl Wait + Abort),
    alloc: Global,
    shared: &SharedHeap,
    collector: &mut CollectorSeat,
) -> Result<u32, Refusal> {
    let mut ended = 0u32;
    for _ in 0..PARTS {
        if shared.collect_some(rt, alloc, collector, 75, BUDGET)? {
            ended = ended.wrapping_add(1);
        }
        same(rt, look_by(rt, shared), Ok((SUM, LENGTH, true)));
    }
    Ok(ended)
}

/// A list is made, and read through views while the heap is collected.
fn stays(
    rt: &(impl Wait + Abort),
    alloc: Global,
    shared: &SharedHeap,
    seats: Seats,
) -> Result<(), Refusal> {
    let Seats {
        mut threads,
        mut collector,
    } = seats;
    if let Some(seat) = threads.first_mut() {
        fill_by(rt, alloc, shared, seat)?;
    }
    let ended = collects(rt, alloc, shared, &mut collector)?;
    assert!(rt; ended > 2, "collections have ended {ended} times");
    Ok(())
}

#[test]
fn views_show_all_while_the_heap_is_collected(rt: HostRuntime) -> Result<(), Fail> {
    let (shared, seats) = shared_heap(rt.alloc(), 2, 32, 1)?;
    same(&rt, stays(&rt, rt.alloc(), &shared, seats), Ok(()));
    is_sound(&rt, rt.alloc(), shared)
}

/// Numbers that name nothing are rejected.
fn missing(view: &View<'_>) -> Result<(), Refusal> {
    let Some(cell) = view.global(0)? else {
        return Err(Refusal::Null);
    };
    let data = cell.datum(1);
    let refs = cell.load(1);
    match (data, refs) {
        (Err(Refusal::BadIndex), Err(Refusal::BadIndex)) => {}
        _ => return Err(Refusal::Busy),
    }
    match (view.register(2, 0), view.register(0, 16), view.global(2)) {
        (Err(Refusal::BadIndex), Err(Refusal::BadIndex), Err(Refusal::BadIndex)) => Ok(()),
        _ => Err(Refusal::Busy),
    }
}

/// The heap has a list; numbers that name nothing are rejected, and an empty register is null.
fn refuses(
    rt: &impl Wait,
    alloc: Global,
    shared: &SharedHeap,
    seats: Seats,
) -> Result<bool, Refusal> {
    let Seats { mut threads, .. } = seats;
    if let Some(seat) = threads.first_mut() {
        fill_by(rt, alloc, shared, seat)?;
    }
    let desk = shared.read(rt);
    let view = desk.view();
    missing(&view)?;
    Ok(view.register(0, 5)?.is_none() && view.global(1)?.is_none())
}

#[test]
fn what_is_missing_is_told(rt: HostRuntime) -> Result<(), Fail> {
    let (shared, seats) = shared_heap(rt.alloc(), 2, 32, 1)?;
    same(&rt, refuses(&rt, rt.alloc(), &shared, seats), Ok(true));
    is_sound(&rt, rt.alloc(), shared)
}

/// How often each thread reads.
const TURNS: u32 = 300;

/// Thread 0 makes lists; the others read the last one through views.
#[derive(Drop)]
struct Reader {
    alloc: Global,
}

/// How many lists thread 0 makes in the place of the first.
const LISTS: u32 = 20;

impl Reader {
    /// Makes a list in the place of the last one, with the same numbers.
    fn makes<R: Wait>(
        &self,
        rt: &R,
        shared: &SharedHeap,
        seat: ThreadSeat,
    ) -> Result<u64, Refusal> {
        let mut seat = seat;
        for _ in 0..LISTS {
            fill_by(rt, self.alloc, shared, &mut seat)?;
        }
        Ok(SUM)
    }

    /// Returns the sum of the list, which is the same in each view.
    fn reads<R: Wait>(&self, rt: &R, shared: &SharedHeap) -> Result<u64, Refusal> {
        let mut least = SUM;
        for _ in 0..TURNS {
            let desk = shared.read(rt);
            let (found, _length) = sum(&desk.view())?;
            least = least.min(found);
        }
        Ok(least)
    }
}

impl Job for Reader {
    fn work<R: Wait>(&self, rt: &R, shared: &SharedHeap, seat: ThreadSeat) -> Result<u64, Refusal> {
        if seat.thread() == 0 {
            return self.makes(rt, shared, seat);
        }
        self.reads(rt, shared)
    }
}

/// The first list exists before the others read.
fn begin<R: Wait>(
    rt: &R,
    alloc: Global,
    shared: &SharedHeap,
    seats: &mut Seats,
) -> Result<(), Refusal> {
    match seats.threads.first_mut() {
        Some(seat) => fill_by(rt, alloc, shared, seat),
        None => Err(Refusal::NoActor),
    }
}

/// A thread writes, three read, and the heap is collected.
fn all_read<R: Threads + Wait + Clock + Sync + Abort>(
    rt: &R,
    alloc: Global,
    shared: &SharedHeap,
    seats: Seats,
) -> Result<(), Fail> {
    let mut seats = seats;
    same(rt, begin(rt, alloc, shared, &mut seats), Ok(()));
    let (found, _collections) = all_work(rt, alloc, shared, seats, &Reader { alloc })?;
    for sum in found {
        same(rt, sum, Ok(SUM));
    }
    Ok(())
}

#[test]
fn three_read_while_one_writes(rt: HostRuntime) -> Result<(), Fail> {
    let (shared, seats) = shared_heap(rt.alloc(), 4, 96, 1)?;
    let read = all_read(&rt, rt.alloc(), &shared, seats);
    is_sound_then(&rt, rt.alloc(), shared, read)
}
