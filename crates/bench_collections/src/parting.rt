//! Parts of collections, each of which is timed.

use crate::filling::{fill, new_heap};
use anyhow::Result;
use bench_support::{Lap, Laps, since};
use collecting::{Collect, Parts};
use heap::Heap;
use layout::Layout;
use managed::ManagedHeap as HeldHeap;
use model::Phase;
use std::alloc::Global;
use std::time::{Clock, Instant};

/// Pages of which at most this percentage of the words is live are emptied.
const PERCENT: u32 = 75;

/// How many collections in parts are done, if each empties all pages that are sparse.
const COLLECTIONS: u32 = 3;

/// A managed heap whose state is read.
trait Seen: Collect {
    /// Returns the current heap.
    fn inside(&self) -> &Heap;
}

impl Seen for HeldHeap {
    fn inside(&self) -> &Heap {
        self.heap()
    }
}

/// The state by which kinds of parts are distinguished.
#[derive(Clone, Copy)]
struct Sight {
    phase: Phase,
    /// How many objects are uncopied.
    uncopied: u64,
    /// The frames that are used, and those whose memory is kept.
    used: usize,
    kept: usize,
}

/// Returns the state of a heap.
fn look(heap: &impl Seen) -> Sight {
    let inside = heap.inside();
    Sight {
        phase: inside.phase(),
        uncopied: inside.sides().uncopied(),
        used: inside.memory().used_frames(),
        kept: heap.kept_frames(),
    }
}

/// Returns the kind of a part that neither protected nor copied.
fn kind_by_phase(before: Sight, after: Sight, ended: bool) -> &'static str {
    match (before.phase, after.phase) {
        (Phase::Scanning, Phase::Scanning) => "scan",
        (Phase::Scanning, _) => "end",
        (_, Phase::Scanning) => "begin",
        _ => {
            if ended {
                "last"
            } else {
                kind_by_frames(before, after)
            }
        }
    }
}

/// Returns the kind of a part that neither protected nor copied, and left the phase as it was.
fn kind_by_frames(before: Sight, after: Sight) -> &'static str {
    if after.used < before.used {
        "empty"
    } else if before.kept < after.kept {
        "prepare"
    } else {
        "measure"
    }
}

/// Returns the kind of a part.
fn kind(before: Sight, after: Sight, ended: bool) -> &'static str {
    if before.uncopied < after.uncopied {
        "protect"
    } else if after.uncopied < before.uncopied {
        "empty"
    } else {
        kind_by_phase(before, after, ended)
    }
}

/// Does one part. Returns whether the collection has ended.
fn part<R: Clock>(
    rt: &R,
    alloc: Global,
    heap: &mut impl Seen,
    parts: &mut Parts,
    budget: u32,
    laps: &mut Laps,
) -> Result<bool> {
    let before = look(heap);
    let start = Instant::now(rt)?;
    let ended = heap.collect_some(alloc, parts, PERCENT, budget)?;
    let nanos = since(rt, start)?;
    laps.add(kind(before, look(heap), ended), nanos)?;
    Ok(ended)
}

/// Does all parts of a collection that empties at most `most` pages with live objects.
fn collect<R: Clock>(
    rt: &R,
    alloc: Global,
    heap: &mut impl Seen,
    most: u32,
    budget: u32,
    laps: &mut Laps,
) -> Result<()> {
    let mut parts = Parts::new(alloc);
    parts.empty_at_most(most);
    for _ in 0..u64::MAX {
        if part(rt, alloc, heap, &mut parts, budget, laps)? {
            break;
        }
    }
    Ok(())
}

/// Does a collection by one call.
fn collect_whole<R: Clock>(
    rt: &R,
    alloc: Global,
    heap: &mut impl Seen,
    laps: &mut Laps,
) -> Result<()> {
    let start = Instant::now(rt)?;
    heap.collect(alloc, PERCENT)?;
    let nanos = since(rt, start)?;
    Ok(laps.add("whole", nanos)?)
}

/// Does all collections of a heap with `pages` pages full of objects, every second one live.
fn collections<R: Clock>(
    rt: &R,
    alloc: Global,
    mut heap: impl Seen + Drop,
    refs: u32,
    most: u32,
    numbers: [u32; 5],
) -> Result<Vec<Lap>> {
    let [words, _, size, pages, budget] = numbers;
    let count = words.checked_div(size.saturating_mul(2)).unwrap_or(0);
    fill(&mut heap, words, pages, count, refs)?;
    let mut laps = Laps::new(alloc);
    for _ in 0..COLLECTIONS.saturating_add(pages / most.max(1)) {
        collect(rt, alloc, &mut heap, most, budget, &mut laps)?;
    }
    collect_whole(rt, alloc, &mut heap, &mut laps)?;
    Ok(laps.all()?)
}

/// Does collections of a heap of pages of `words` words and this many frames, with some pages full of objects of a
/// size and this layout, in parts with a budget.
pub fn timed<R: Clock>(
    rt: &R,
    alloc: Global,
    layout: Layout,
    most: u32,
    numbers: [u32; 5],
) -> Result<Vec<Lap>> {
    let [words, frames, _, _, _] = numbers;
    let refs = u32::from(layout.refs);
    collections(
        rt,
        alloc,
        new_heap(alloc, words, frames, layout)?,
        refs,
        most,
        numbers,
    )
}
