//! Waves, and drains that use them.

ghost use Rattle.std.specs.Prelude.{◌≡◌, ◌≤◌, ◌<◌, true, false, None, is_some, length};
ghost use Rattle.std.specs.List.{list_any};
ghost use Rattle.waves.specs.Parts.{AreNew};
ghost use Rattle.model.specs.Scans.{next_todo, next_drain};
ghost use Rattle.drains.specs.Drains.{IsReady, IsDrained, ObjectsDone, NoneTodo, KeepsPlain};

use crate::listing::{Extent, are_spread, extent_of, list_grey};
use crate::parting::{NOTES, Notes, are_balanced, new_parts, total};
use crate::taking::take_sent;
use drains::{Portion, is_alone, mark_globals, scan_listed, scan_objects};
use heap::Heap;
use page::Part;
use refword::Addr;
use std::alloc::Global;
use std::thread::Threads;

/// With fewer grey objects a wave isn't worth its threads.
const FEW: u64 = 512;

/// How many objects one thread scans at first, with the object that was marked last as the next one, before it is
/// asked again whether a wave is worth it.
const PORTION: u64 = 4_096;

/// How many it scans at most.
const LONGEST: u64 = 1 << 20;

/// What a drain keeps from one wave to the next: memory, and how it goes on while few objects are grey.
#[derive(Drop)]
struct Course {
    /// On how many threads waves are done; none are, if fewer than two.
    threads: u32,
    /// The grey objects, if they are few.
    grey: Vec<Addr, Global>,
    /// The notes of threads.
    notes: Notes,
    /// How many objects were grey before the last round, or 0 if no round was last.
    before: u64,
    /// How many objects are scanned in the next portion.
    portion: u64,
    /// Whether that portion is next, as one part had more than two thirds of the objects, in the last wave or before one.
    is_uneven: bool,
}

impl Course {
    /// Returns the course of a drain that begins on a number of threads.
    fn new(alloc: Global, threads: u32) -> Course {
        Course {
            threads,
            grey: Vec::new(alloc),
            notes: Notes::new(alloc, NOTES),
            before: 0,
            portion: PORTION,
            is_uneven: false,
        }
    }

    /// Returns whether more objects are grey than before the last round, by an eighth, or no round was last.
    fn is_growing(&self, objects: u64) -> bool {
        objects > self.before.saturating_add(self.before / 8)
    }

    /// Goes on after a wave: with a long portion, if one part had most of its objects.
    fn go_on(&mut self, is_uneven: bool) {
        self.before = 0;
        self.is_uneven = is_uneven;
        self.portion = if is_uneven { LONGEST } else { PORTION };
    }

    /// Returns how many objects the next portion scans; the one after it may be twice as long.
    fn next_portion(&mut self) -> u64
        ensures { 0 < result }
    {
        let portion = self.portion.max(1);
        self.before = 0;
        self.is_uneven = false;
        self.portion = portion.saturating_mul(2).min(LONGEST);
        portion
    }
}

/// Has threads scan parts of the first `used` pages, each at most its share of `most` objects, and takes in what they
/// have sent to each other. Returns how many objects were scanned. No worker has an object, and nothing is left to be
/// copied.
fn scan_parts<R: Threads + Sync>(
    rt: &R,
    heap: &mut Heap,
    worker: u32,
    most: u64,
    parts: &mut [Part],
    used: usize,
) -> u64
    requires ready { IsReady heap.old worker }
    requires alone { list_any is_some heap.old.workers ≡ false }
    requires used { used ≤ length heap.old.store.pages }
    requires new { AreNew (length heap.old.store.pages) parts.old }
    ensures done { ObjectsDone heap.old worker result heap.new }
    ensures few { result ≤ most }
{
    heap.law();
    let each = most / parts.len().max(1) as u64;
    heap.raw_scan_by(rt, parts, &[], each);
    take_sent(rt, heap, parts, used);
    total(parts, each)
}

/// Returns the index after the last page that has bitmaps.
fn used_records(heap: &Heap, extent: Extent) -> usize
    ensures { result ≤ length heap.now.store.pages }
{
    extent.used.min(heap.memory().pages().len())
}

/// Has threads scan what is grey, and what of their own pages they mark meanwhile, and returns how many objects they
/// scanned: at most `most`; none if a worker has an object, or if out of memory.
fn wave<R: Threads + Sync>(
    rt: &R,
    heap: &mut Heap,
    worker: u32,
    most: u64,
    extent: Extent,
    course: &mut Course,
) -> u64
    requires { IsReady heap.old worker }
    ensures done { ObjectsDone heap.old worker result heap.new }
    ensures few { result ≤ most }
{
    let used = used_records(heap, extent);
    let count = course.threads as usize;
    let Ok(parts) = new_parts(heap.allocator(), count, used, &mut course.notes) else {
        return 0;
    };
    let mut parts = parts;
    if !is_alone(heap) {
        return 0;
    }
    let found = scan_parts(rt, heap, worker, most, &mut parts, used);
    course.go_on(!are_balanced(&parts));
    course.notes.take_back(parts);
    found
}

/// Does a wave, unless most grey objects are on the pages of one part: then a long portion is next.
fn try_wave<R: Threads + Sync>(
    rt: &R,
    heap: &mut Heap,
    worker: u32,
    most: u64,
    extent: Extent,
    course: &mut Course,
) -> u64
    requires { IsReady heap.old worker }
    ensures done { ObjectsDone heap.old worker result heap.new }
    ensures few { result ≤ most }
{
    if !are_spread(heap, extent, course.threads) {
        course.go_on(true);
        return 0;
    }
    wave(rt, heap, worker, most, extent, course)
}

/// Scans all objects that are grey now, one after the other on this thread, so that those which they mark are grey
/// afterwards. Returns how many it scanned: none if they are more than `most`, or if out of memory for their list.
fn try_round(heap: &mut Heap, worker: u32, most: u64, extent: Extent, course: &mut Course) -> u64
    requires { IsReady heap.old worker }
    ensures done { ObjectsDone heap.old worker result heap.new }
    ensures few { result ≤ most }
{
    course.before = extent.objects;
    if list_grey(heap, extent.end, &mut course.grey).is_err() || course.grey.len() as u64 > most {
        return 0;
    }
    scan_listed(heap, worker, &course.grey)
}

/// Scans objects at once: in a wave, if many are grey, or in a round on this thread, while more and more are. Returns
/// how many: none if neither is worth it.
fn scan_at_once<R: Threads + Sync>(
    rt: &R,
    heap: &mut Heap,
    worker: u32,
    most: u64,
    course: &mut Course,
) -> u64
    requires { IsReady heap.old worker }
    ensures done { ObjectsDone heap.old worker result heap.new }
    ensures few { result ≤ most }
{
    if course.threads < 2 || course.is_uneven {
        return 0;
    }
    let extent = extent_of(heap);
    if extent.objects >= FEW {
        return try_wave(rt, heap, worker, most, extent, course);
    }
    if !course.is_growing(extent.objects) {
        return 0;
    }
    try_round(heap, worker, most, extent, course)
}

/// Scans objects at once, if it is worth it, else a portion, of which each object that was marked last is scanned next.
fn scan_some<R: Threads + Sync>(
    rt: &R,
    heap: &mut Heap,
    worker: u32,
    most: u64,
    course: &mut Course,
) -> Portion
    requires ready { IsReady heap.old worker }
    requires some { 0 < most }
    ensures done { ObjectsDone heap.old worker result.objects heap.new }
    ensures few { result.objects ≤ most }
    ensures end { result.has_ended ≡ true → next_todo heap.new ≡ None }
    ensures goes { result.has_ended ≡ false → 0 < result.objects }
{
    let objects = scan_at_once(rt, heap, worker, most, course);
    if objects != 0 {
        return Portion {
            objects,
            has_ended: false,
        };
    }
    let portion = course.next_portion();
    scan_objects(heap, worker, most.min(portion), None)
}

/// Scans objects, at most `most`, until none is grey that no worker has.
fn scan_by<R: Threads + Sync>(rt: &R, heap: &mut Heap, worker: u32, most: u64, threads: u32) -> u64
    requires { IsReady heap.old worker }
    ensures done { ObjectsDone heap.old worker result heap.new }
    ensures few { result ≤ most }
    ensures end { result < most → next_todo heap.new ≡ None }
{
    let mut course = Course::new(heap.allocator(), threads);
    let mut done = 0;
    while done < most {
        let portion = scan_some(rt, heap, worker, most - done, &mut course);
        done += portion.objects;
        if portion.has_ended {
            return done;
        }
    }
    done
}

/// Drains the rest of a mark by a worker that is ready, as `drain` does, at most `most` objects, on a number of threads,
/// and returns how many objects were scanned. While many objects are grey, on pages of several parts, there are waves:
/// each thread scans and marks objects of its own part of the pages, and sends references to objects of other parts,
/// which are marked after the wave.
///
/// With fewer than two threads, or if out of memory for a wave, this thread does the work; and the part of a thread that
/// can't be started.
pub fn drain_by<R: Threads + Sync>(
    rt: &R,
    heap: &mut Heap,
    worker: u32,
    most: u64,
    threads: u32,
) -> u64
    requires { IsReady heap.old worker }
    ensures drained { IsDrained heap.old worker result heap.new }
    ensures stands { KeepsPlain heap.old heap.new }
    ensures globals { NoneTodo heap.new (length heap.new.globals) }
    ensures few { result ≤ most }
    ensures end { result < most → next_drain heap.new worker ≡ None }
{
    refinement::law();
    mark_globals(heap, worker);
    scan_by(rt, heap, worker, most, threads)
}
