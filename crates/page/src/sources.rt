//! Pages whose objects are copied, while other pages are written.

ghost use Rattle.std.specs.Prelude.{◌≡◌, ◌<◌, [], unwrap_or};
ghost use Rattle.std.specs.Option.{option_copied};
ghost use Rattle.model.specs.Bits.{of_page};
ghost use Rattle.model.specs.Owning.{Each};
ghost use Rattle.pieces.specs.Pieces.{laid_from};
ghost use Rattle.page.specs.Filling.{AllHaveEntries, FillsFrames, HasEntries, filled, laid_runs, source_on, words_on};

use crate::targets::{PageRun, Target, frame_of, swap_targets};
use forward::{Side, Sides};
use layout::Layouts;
use model::Page;
use page_frames::{Frame, Frames};
use pieces::{Source, copy_run};
use std::marker::Model;
use std::thread::{Threads, for_each_mut};

/// Returns the forwarding table of a page, by the page's number from 1, if it has a record.
pub(crate) fn side_on(sides: &Sides, page: u64) -> Option<&Side>
    ensures { of_page sides.now page ≡ unwrap_or (option_copied result) [] }
{
    if page == 0 {
        return None;
    }
    sides.get((page - 1) as usize)
}

/// What is read while targets are filled.
#[derive(Drop)]
struct Sources<'a> {
    /// The number of words of a page.
    size: u32,
    /// The records of pages.
    pages: &'a [Page],
    frames: &'a Frames,
    sides: &'a Sides,
    layouts: &'a Layouts,
}

impl<'a> Model for Sources<'a> {
    ghost use Rattle.page.specs.Filling.{SourcesState};

    ghost Value = { SourcesState };

    ghost view = { λ s. record {
      size = s.size;
      pages = s.pages.now;
      frames = s.frames.now;
      sides = s.sides.now;
      layouts = s.layouts.now;
    } };

    ghost use Rattle.std.specs.Prelude.{◌<◌};

    ghost invariant = { λ s. 0 < s.size };
}

impl<'a> Sources<'a> {
    /// Returns what is read of pages of this many words.
    fn new(
        size: u32,
        pages: &'a [Page],
        frames: &'a Frames,
        sides: &'a Sides,
        layouts: &'a Layouts,
    ) -> Sources<'a>
        requires { 0 < size }
        ensures { result ≡ record {
          size = size;
          pages = pages.now;
          frames = frames.now;
          sides = sides.now;
          layouts = layouts.now;
        } }
    {
        Sources {
            size,
            pages,
            frames,
            sides,
            layouts,
        }
    }

    /// Returns the words of a page; none if it has no memory.
    fn words(&self, page: u64) -> &[u64]
        ensures { result.now ≡ words_on self.now page }
    {
        let Some(frame) = frame_of(self.pages, page) else {
            return &[];
        };
        if frame as usize >= self.frames.len() {
            return &[];
        }
        self.frames.words(frame as usize)
    }

    /// Copies the objects of a run to a target's words.
    fn copy(&self, run: PageRun, target: &mut Frame)
        requires { HasEntries self.now.sides run }
        ensures { target.new ≡ laid_from (source_on self.now run.page) 0 run.first run.count target.old }
    {
        let size = self.size;
        let Some(side) = side_on(self.sides, run.page) else {
            return;
        };
        let source = Source {
            size,
            words: self.words(run.page),
            side,
            layouts: self.layouts,
        };
        copy_run(
            &source,
            run.first as usize,
            run.count as usize,
            target.words_mut(),
        );
    }

    /// Copies the objects of runs to a target's words, one run after another.
    fn copy_all(&self, runs: &[PageRun], target: &mut Frame)
        requires { Each runs.now (HasEntries self.now.sides) }
        ensures { target.new ≡ laid_runs self.now runs.now target.old }
    {
        for index in 0..runs.len() {
            self.copy(runs[index], target);
        }
    }

    /// Fills a target.
    fn fill(&self, target: &mut Target)
        requires { AllHaveEntries self.now.sides target.old }
        ensures { target.new ≡ filled self.now target.old }
    {
        self.copy_all(&target.runs, &mut target.frame);
    }
}

/// Has threads fill targets, which get the words of their pages, and give them back.
pub(crate) fn fill_frames<'a, R: Threads + Sync>(
    rt: &R,
    size: u32,
    pages: &'a [Page],
    frames: &mut Frames,
    sides: &'a Sides,
    layouts: &'a Layouts,
    targets: &mut [Target],
    threads: u32,
)
    requires size { 0 < size }
    requires threads { 0 < threads }
    requires entries { Each targets.old (AllHaveEntries sides.now) }
    ensures { FillsFrames size pages.now sides.now layouts.now frames.old targets.old frames.new targets.new }
{
    swap_targets(pages, frames, targets);
    let sources = Sources::new(size, pages, frames, sides, layouts);
    let fill = |_index: usize, target: &mut Target|
        requires { AllHaveEntries sources.sides target.now }
        ensures { target.exit.now ≡ filled sources.entry target.entry.now }
    { sources.fill(target) };
    for_each_mut(rt, targets, threads as usize, &fill);
    swap_targets(pages, frames, targets);
}
