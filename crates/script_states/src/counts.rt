//! The line of counts of a heap.

use forward::Side;
use heap::{Heap, Row};
use layout::layout_of;
use model::{Page, PageState};
use reporting::{BitText, PhaseText};
use std::alloc::AllocError;
use std::fmt::Write as _;

/// How many pages are in each state, how many words of those with memory were allocated in buffers or are the targets
/// of copies, and how many words the live objects have.
#[derive(Drop)]
struct Pages {
    open: usize,
    closed: usize,
    from: usize,
    gone: usize,
    lent: u64,
    live: u64,
}

/// Returns how many words the objects of a bitmap have, by the words of its page.
fn row_words(heap: &Heap, row: &Row, words: &[u64]) -> u64 {
    let mut total = 0u64;
    for offset in 0..row.len() {
        if row.test(offset) {
            total = total.saturating_add(words_at(heap, words, offset));
        }
    }
    total
}

/// Returns how many words the object at an offset of a page's words has.
fn words_at(heap: &Heap, words: &[u64], offset: usize) -> u64 {
    let Some(bits) = words.get(offset) else {
        return 0;
    };
    match heap.config().layouts.get(layout_of(*bits)) {
        None => 0,
        Some(layout) => u64::from(layout.size()),
    }
}

/// Returns how many words the copies have to which a forwarding table leads.
fn copied_words(heap: &Heap, side: &Side) -> u64 {
    let mut total = 0u64;
    for number in 0..side.len() {
        if let Some(entry) = side.entry(number) {
            total = total.saturating_add(u64::from(heap.object_words(entry.to)));
        }
    }
    total
}

/// Returns how many words the live objects have of the page whose record has an index. If the page has released its
/// memory, their copies are counted.
fn live_words(heap: &Heap, index: usize) -> u64 {
    let number = u32::try_from(index.saturating_add(1)).unwrap_or(0);
    if let (Some(row), Some(words)) = (heap.live().get(index), heap.memory().words(number)) {
        return row_words(heap, row, words);
    }
    match heap.sides().get(index) {
        None => 0,
        Some(side) => copied_words(heap, side),
    }
}

impl Pages {
    /// Counts a page.
    fn add(&mut self, heap: &Heap, index: usize, page: Page) {
        let counted = match page.state {
            PageState::Unused => return,
            PageState::Open => &mut self.open,
            PageState::Closed => &mut self.closed,
            PageState::From => &mut self.from,
            PageState::Gone => &mut self.gone,
        };
        *counted = counted.saturating_add(1);
        if page.frame.is_some() {
            self.lent = self.lent.saturating_add(u64::from(page.top));
        }
        self.live = self.live.saturating_add(live_words(heap, index));
    }
}

/// Returns the counts of all pages of a heap.
fn pages_of(heap: &Heap) -> Pages {
    let mut counted = Pages {
        open: 0,
        closed: 0,
        from: 0,
        gone: 0,
        lent: 0,
        live: 0,
    };
    let pages = heap.memory().pages();
    for (index, page) in pages.iter().enumerate() {
        counted.add(heap, index, *page);
    }
    counted
}

/// Appends the line of counts of a heap after `command` commands.
pub fn put_counts(heap: &Heap, command: u64, text: &mut String) -> Result<(), AllocError> {
    let (phase, nmt, births) = (PhaseText(heap.phase()), BitText(heap.nmt()), heap.births());
    write!(
        text,
        "counts {command} phase {phase} nmt {nmt} births {births}"
    )?;
    let (used, frames) = (heap.memory().used_frames(), heap.memory().frame_count());
    write!(text, " frames {used}/{frames}")?;
    let pages = pages_of(heap);
    let (open, closed, from, gone) = (pages.open, pages.closed, pages.from, pages.gone);
    write!(text, " open {open} closed {closed} from {from} gone {gone}")?;
    let (lent, live) = (pages.lent, pages.live);
    writeln!(text, " lent {lent} live {live}")
}
