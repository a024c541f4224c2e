//! The steps of workers, in endless cycles.

use crate::numbers::{index, small};
use crate::setups::Habits;
use choosing::choose;
use cycle::{PageList, Step, next_drain};
use heap::Heap;
use model::{PageState, Phase};
use std::alloc::{AllocError, Global};
use test_support_samples::Dice;

/// Returns `Protect` for the chosen pages; `StartMark` if there are none, and one time in eight.
fn idle(alloc: Global, heap: &Heap, dice: &mut Dice) -> Result<Step, AllocError> {
    let percent = if dice.hits(4) {
        dice.roll(100) as u32
    } else {
        100
    };
    let pages = choose(alloc, heap, percent)?;
    if pages.is_empty() || dice.roll(8) == 0 {
        return Ok(Step::StartMark);
    }
    Ok(Step::Protect(PageList::new(pages)))
}

/// Returns `CrossFor` for the first thread that hasn't crossed, which is accepted if it is parked.
fn crossing(heap: &Heap) -> Step {
    let behind = heap
        .threads()
        .iter()
        .position(|thread| !thread.has_crossed());
    Step::CrossFor(small(behind.unwrap_or(0)))
}

/// Returns the first protected page that has its memory, by its number from 1.
fn protected(heap: &Heap) -> Option<u32> {
    let place = heap
        .memory()
        .pages()
        .iter()
        .position(|page| page.state == PageState::From)?;
    Some(small(place).saturating_add(1))
}

/// Returns the first uncopied entry of a page.
fn uncopied(heap: &Heap, page: u32) -> Option<u32> {
    for number in 0..heap.sides().count_on(page) {
        if let Some(entry) = heap.sides().entry_on(page, number) {
            if !entry.copied {
                return Some(number);
            }
        }
    }
    None
}

/// Returns a copy on the first protected page, or its release; else `StartMark`.
fn copying(heap: &Heap, dice: &mut Dice, habits: Habits) -> Step {
    let Some(page) = protected(heap) else {
        return Step::StartMark;
    };
    match uncopied(heap, page) {
        None => Step::Release(page),
        Some(_) if habits.rolls && dice.roll(8) == 0 => Step::CopyPage(page),
        Some(entry) => Step::Copy { page, entry },
    }
}

/// Returns a step that copies objects, or `StartMark` before all are copied.
fn relocating(heap: &Heap, dice: &mut Dice, habits: Habits) -> Step {
    if habits.rolls && dice.roll(8) == 0 {
        return Step::StartMark;
    }
    copying(heap, dice, habits)
}

/// Returns the next step of a mark, or its end; objects may be copied meanwhile.
fn scanning(heap: &Heap, worker: u32, dice: &mut Dice, habits: Habits) -> Step {
    if habits.rolls && dice.roll(8) == 0 {
        return copying(heap, dice, habits);
    }
    next_drain(heap, worker).unwrap_or(Step::EndMark)
}

/// Returns a step that the worker may be in no state to do.
fn nonsense(dice: &mut Dice, heap: &Heap) -> Step {
    let page = index(dice, heap.config().pages);
    let offset = index(dice, heap.config().words);
    match dice.roll(10) {
        0 => Step::StartMark,
        1 => Step::Pick { page, offset },
        2 => Step::ScanField,
        3 => Step::ScanGlobal(index(dice, heap.config().globals)),
        4 => Step::EndMark,
        5 => Step::Copy {
            page,
            entry: index(dice, 8),
        },
        6 => Step::CopyPage(page),
        7 => Step::Release(page),
        8 => Step::CrossFor(index(dice, heap.config().threads)),
        _ => Step::Park,
    }
}

/// Returns the next step of a worker in endless cycles: a mark, whose scan is drained; then pages are emptied and
/// released; and so on. Fails only if out of memory.
pub fn next_work(
    alloc: Global,
    heap: &Heap,
    worker: u32,
    dice: &mut Dice,
    habits: Habits,
) -> Result<Step, AllocError> {
    if habits.rolls && dice.roll(habits.nonsense.max(1)) == 0 {
        return Ok(nonsense(dice, heap));
    }
    match heap.phase() {
        Phase::Idle => idle(alloc, heap, dice),
        Phase::MarkCrossing | Phase::ProtectCrossing => Ok(crossing(heap)),
        Phase::Scanning => Ok(scanning(heap, worker, dice, habits)),
        Phase::Relocating => Ok(relocating(heap, dice, habits)),
    }
}
