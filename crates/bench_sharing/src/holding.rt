//! Steps of each kind, one by one: a hold of the lock is one step or one read and nothing else.

use crate::looking::{chosen, look_all, look_at_fields, todo_left};
use crate::timing::{Steps, THREAD, Timed, Timing, WORKER};
use anyhow::Result;
use bench_support::Lap;
use cycle::{Book, PageList, PieceGate, Step};
use layout::{Layout, Layouts};
use model::Config;
use std::alloc::Global;
use std::thread::Threads;
use std::time::Clock;

/// The sizes of a heap.
#[derive(Clone, Copy)]
struct Size {
    /// The words of a page.
    words: u32,
    /// The live objects of a page.
    objects: u32,
    /// The pages that are full of them.
    pages: u32,
    /// The objects of a list, of two words each.
    linked: u32,
}

/// Does a step of the thread.
fn step(held: &mut impl Timing, name: &'static str, step: Step) -> Result<()> {
    held.step(name, THREAD, step)
}

/// Does a step of the worker.
fn work(held: &mut impl Timing, name: &'static str, step: Step) -> Result<()> {
    held.step(name, WORKER, step)
}

/// Fills a page with objects of layout 0.
fn fill(held: &mut impl Timing, size: Size) -> Result<()> {
    step(held, "Take", Step::Take(size.words))?;
    for _ in 0..size.objects {
        let (target, layout) = (0, 0);
        step(held, "New", Step::New { target, layout })?;
    }
    step(held, "GiveBack", Step::GiveBack)
}

/// Fills pages with live objects: they are allocated while a mark runs.
fn fill_all(held: &mut impl Timing, size: Size) -> Result<()> {
    work(held, "StartMark", Step::StartMark)?;
    step(held, "Cross", Step::Cross)?;
    for _ in 0..size.pages {
        fill(held, size)?;
    }
    work(held, "ScanGlobal", Step::ScanGlobal(0))?;
    work(held, "EndMark", Step::EndMark)
}

/// Puts one more object in front of a list.
fn link(held: &mut impl Timing) -> Result<()> {
    let (target, layout, object, field, source) = (1, 1, 1, 0, 0);
    step(held, "New", Step::New { target, layout })?;
    let store = Step::Store {
        object,
        field,
        source,
    };
    step(held, "Store", store)?;
    let (target, source) = (0, 1);
    step(held, "CopyReg", Step::CopyReg { target, source })
}

/// Makes a list, in global 0; only it is live after the next mark.
fn link_all(held: &mut impl Timing, size: Size) -> Result<()> {
    let (global, source) = (0, 0);
    step(held, "ClearReg", Step::ClearReg(0))?;
    step(held, "Take", Step::Take(size.words))?;
    for _ in 0..size.linked {
        link(held)?;
    }
    step(held, "GiveBack", Step::GiveBack)?;
    step(held, "StoreGlobal", Step::StoreGlobal { global, source })
}

/// Allocates an object all of whose references refer to the list, and reads them.
fn look_at_one(held: &mut impl Timing, alloc: Global, size: Size) -> Result<()> {
    let (target, layout, object, source) = (2, 2, 2, 0);
    let fields = fields_of(size.words);
    step(held, "Take", Step::Take(size.words))?;
    step(held, "New", Step::New { target, layout })?;
    for field in 0..fields {
        let store = Step::Store {
            object,
            field,
            source,
        };
        step(held, "Store", store)?;
    }
    look_at_fields(held, alloc, object, fields)?;
    step(held, "GiveBack", Step::GiveBack)?;
    step(held, "ClearReg", Step::ClearReg(object))
}

/// Reads the list once.
fn walk(held: &mut impl Timing, size: Size) -> Result<()> {
    let (target, object, field) = (0, 0, 0);
    for _ in 1..size.linked {
        let load = Step::Load {
            target,
            object,
            field,
        };
        step(held, "Load", load)?;
        step(held, "Trap", Step::Trap)?;
        step(held, "Finish", Step::Finish)?;
    }
    Ok(())
}

/// A gate that does nothing.
struct NoGate;

impl PieceGate for NoGate {
    fn begin(&self, _piece: u32) {}
}

/// Copies a page by halves on threads, to a depth of 2.
fn copy_by_halves<R: Threads + Sync>(rt: &R, held: &mut impl Timing, page: u32) -> Result<()> {
    let start = held.begin()?;
    let reply = held.book().copy_page_by(rt, 0, page, 2, &NoGate);
    let name = if reply.is_ok() {
        "CopyPage by halves"
    } else {
        "refused"
    };
    held.end(name, start)
}

/// Copies a page: one of an even number at once, another by halves on threads.
fn copy_page<R: Threads + Sync>(rt: &R, held: &mut impl Timing, page: u32) -> Result<()> {
    if page % 2 == 0 {
        work(held, "CopyPage", Step::CopyPage(page))
    } else {
        copy_by_halves(rt, held, page)
    }
}

/// Protects, copies and releases the chosen pages.
fn move_all<R: Threads + Sync>(rt: &R, held: &mut impl Timing, alloc: Global) -> Result<()> {
    let pages = chosen(held, alloc)?;
    let named = Vec::from_slice(alloc, &pages)?;
    work(held, "Protect", Step::Protect(PageList::new(named)))?;
    step(held, "Cross", Step::Cross)?;
    for page in pages {
        work(held, "Copy", Step::Copy { page, entry: 0 })?;
        copy_page(rt, held, page)?;
        work(held, "Release", Step::Release(page))?;
    }
    Ok(())
}

/// Picks and scans the next object, if there is one.
fn scan(held: &mut impl Timing, words: u32) -> Result<bool> {
    let Some((page, offset)) = todo_left(held, words)? else {
        return Ok(false);
    };
    work(held, "Pick", Step::Pick { page, offset })?;
    work(held, "ScanField", Step::ScanField)?;
    work(held, "ScanField", Step::ScanField)?;
    Ok(true)
}

/// Does a mark, from its start to its end.
fn mark(held: &mut impl Timing, size: Size) -> Result<()> {
    work(held, "StartMark", Step::StartMark)?;
    step(held, "Cross", Step::Cross)?;
    work(held, "ScanGlobal", Step::ScanGlobal(0))?;
    for _ in 0..size.linked {
        if !scan(held, size.words)? {
            break;
        }
    }
    work(held, "EndMark", Step::EndMark)
}

/// Opens pages on frames that have been written before.
fn take_again(held: &mut impl Timing, size: Size) -> Result<()> {
    for _ in 0..size.pages.min(20) {
        step(held, "Take of a used frame", Step::Take(size.words))?;
        step(held, "GiveBack", Step::GiveBack)?;
    }
    Ok(())
}

/// Does all steps that are timed.
fn hold_all<R: Threads + Sync>(
    rt: &R,
    held: &mut impl Timing,
    alloc: Global,
    size: Size,
) -> Result<()> {
    fill_all(held, size)?;
    look_all(held)?;
    link_all(held, size)?;
    look_at_one(held, alloc, size)?;
    walk(held, size)?;
    move_all(rt, held, alloc)?;
    mark(held, size)?;
    take_again(held, size)
}

/// Returns the layout of objects of `words` words, of which up to 1,023 after the header are data, and the rest
/// references.
fn layout(words: u32) -> Layout {
    let fields = words.saturating_sub(1).min(2_046);
    let nums = fields.min(1_023);
    Layout {
        refs: (fields - nums) as u16,
        nums: nums as u16,
    }
}

/// Returns how many references an object with many has: the greatest number, in at most half a page.
fn fields_of(words: u32) -> u32 {
    (words / 2).saturating_sub(1).min(1_023)
}

/// Returns the configuration of a heap of `frames` frames of `words` words: a layout of objects of a size, one of two
/// words for a list, and one of many references.
fn config(alloc: Global, words: u32, frames: u32, size: u32) -> Result<Config> {
    let refs = u16::try_from(fields_of(words))?;
    let layouts = Layouts::new(vec![in alloc;
        layout(size),
        Layout { refs: 1, nums: 0 },
        Layout { refs, nums: 0 },
    ]?);
    let mut config = Config::new(words, frames, layouts);
    config.globals = 1;
    Ok(config)
}

/// Does all steps that are timed, on a recorded heap.
fn held<R: Clock + Threads + Sync>(
    rt: &R,
    alloc: Global,
    book: impl Steps + Drop,
    size: Size,
) -> Result<Vec<Lap>> {
    let mut timed = Timed::new(rt, alloc, book);
    hold_all(rt, &mut timed, alloc, size)?;
    Ok(timed.all()?)
}

/// Does steps of each kind on a heap of `frames` frames of `words` words, with some pages full of live objects of a
/// size, and a list.
pub fn holds<R: Clock + Threads + Sync>(
    rt: &R,
    alloc: Global,
    numbers: [u32; 5],
) -> Result<Vec<Lap>> {
    let [words, frames, size, pages, linked] = numbers;
    let config = config(alloc, words, frames, size)?;
    let objects = words.checked_div(size).unwrap_or(0);
    let size = Size {
        words,
        objects,
        pages,
        linked,
    };
    held(rt, alloc, Book::new(alloc, config)?, size)
}
