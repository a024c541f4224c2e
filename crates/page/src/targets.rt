//! Targets that are filled at once, and the runs of objects that are copied there.

ghost use Rattle.std.specs.Prelude.{◌≡◌, []};
ghost use Rattle.model.specs.Stores.{changed_in, frame_in};
ghost use Rattle.page.specs.Filling.{SwapsTargets, page_in};
ghost use Rattle.page.specs.Owned.{words_or};

use crate::owned::frame_at;
use markbits::Row;
use model::Page;
use page_frames::{Frame, Frames};
use std::alloc::Global;

/// A run: consecutive entries of a page's forwarding table, all of which go to one target.
#[derive(Debug, Clone, Copy)]
pub struct PageRun {
    /// The page's number, from 1.
    pub page: u64,
    /// The number of the first entry, from 0.
    pub first: u32,
    /// How many entries.
    pub count: u32,
}

/// A page to which objects are copied.
#[derive(Drop)]
pub struct Target {
    /// The page's number, from 1.
    pub page: u64,
    /// The page's words while a thread writes them; else none.
    pub frame: Frame,
    /// Where objects start in the page, while a thread notes it; else of no meaning.
    pub starts: Row,
    /// What is copied, one run after another.
    pub runs: Vec<PageRun, Global>,
}

impl Target {
    /// Returns a page to which nothing is copied, by its number from 1. It takes no memory.
    pub fn new(alloc: Global, page: u64) -> Target
        ensures page { result.page ≡ page }
        ensures runs { result.runs.items ≡ [] }
    {
        Target {
            page,
            frame: Frame::empty(alloc),
            starts: Row::empty(alloc),
            runs: Vec::new(alloc),
        }
    }
}

/// Returns the frame of a page, if it has memory, by the records of pages.
pub(crate) fn frame_of(records: &[Page], page: u64) -> Option<u32>
    ensures { result ≡ frame_in (page_in records.now page) }
{
    if page == 0 {
        return None;
    }
    frame_at(records, (page - 1) as usize)
}

/// Swaps the words of a target's page, if it has memory, with those of the target.
fn swap_target(records: &[Page], frames: &mut Frames, target: &mut Target)
    ensures frames { frames.new
        ≡ changed_in frames.old (frame_in (page_in records.now target.old.page)) (λ old. target.old.frame) }
    ensures target { target.new ≡ record target.old {
      frame = words_or frames.old (frame_in (page_in records.now target.old.page)) target.old.frame;
    } }
{
    let Some(frame) = frame_of(records, target.page) else {
        return;
    };
    if (frame as usize) < frames.len() {
        frames.swap(frame as usize, &mut target.frame);
    }
}

/// Swaps the words of targets' pages with those of the targets, one after another.
pub(crate) fn swap_targets(records: &[Page], frames: &mut Frames, targets: &mut [Target])
    ensures { SwapsTargets records.now frames.old targets.old frames.new targets.new }
{
    for index in 0..targets.len() {
        let target = &mut targets[index];
        swap_target(records, frames, target);
    }
}
