//! Making images.

use crate::edits::{set_start, set_word};
use layout::{Header, Layout};
use markbits::Row;
use model::{Forwarding, PageState};
use refword::Addr;
use std::alloc::{AllocError, Global};
use verify::{Image, PageImage, Words};

/// A page of 16 words in which no object starts.
fn page(alloc: Global, state: PageState, frame: Option<u32>) -> Result<PageImage, AllocError> {
    Ok(PageImage {
        state,
        frame,
        starts: Row::new(alloc, 16)?,
        side: Vec::new(alloc),
    })
}

/// Returns `lists` lists of `count` zeros.
fn zeros(alloc: Global, lists: usize, count: usize) -> Result<Vec<Words>, AllocError> {
    let mut all = Vec::with_capacity(alloc, lists)?;
    for _ in 0..lists {
        all.push(Words {
            words: vec![in alloc; 0; count]?,
        })?;
    }
    Ok(all)
}

/// Objects of one reference and one datum, of two references, and of one datum.
fn layouts(alloc: Global) -> Result<Vec<Layout>, AllocError> {
    let mut layouts = Vec::with_capacity(alloc, 3)?;
    for (refs, nums) in [(1, 1), (2, 0), (0, 1)] {
        layouts.push(Layout { refs, nums })?;
    }
    Ok(layouts)
}

/// Returns `count` pages, of which the first owns frame 0 and the others are unused.
fn pages_of(alloc: Global, count: usize) -> Result<Vec<PageImage>, AllocError> {
    let mut pages = Vec::with_capacity(alloc, count)?;
    pages.push(page(alloc, PageState::Open, Some(0))?)?;
    for _ in 1..count {
        pages.push(page(alloc, PageState::Unused, None)?)?;
    }
    Ok(pages)
}

/// Returns an image without memory, roots and layouts, with three configured frames.
fn blank(alloc: Global, pages: Vec<PageImage>) -> Image {
    Image {
        words: 16,
        frame_count: 3,
        free: Vec::new(alloc),
        pages,
        frames: Vec::new(alloc),
        registers: Vec::new(alloc),
        loads: Vec::new(alloc),
        globals: Vec::new(alloc),
        layouts: Vec::new(alloc),
    }
}

/// Three frames, of which the first has words.
fn frames(alloc: Global) -> Result<Vec<Words>, AllocError> {
    let mut frames = zeros(alloc, 1, 16)?;
    for _ in 0..2 {
        frames.push(Words {
            words: Vec::new(alloc),
        })?;
    }
    Ok(frames)
}

/// Gives such an image three frames, of which 1 and 2 are free, two threads with two registers, a global, and
/// layouts.
fn fill(alloc: Global, image: &mut Image) -> Result<(), AllocError> {
    image.free = vec![in alloc; 1, 2]?;
    image.frames = frames(alloc)?;
    image.registers = zeros(alloc, 2, 2)?;
    image.loads = vec![in alloc; None; 2]?;
    image.globals = vec![in alloc; 0; 1]?;
    image.layouts = layouts(alloc)?;
    Ok(())
}

/// Returns an image of three frames, of which 1 and 2 are free, two threads with two registers, a global, and pages
/// of which the first owns frame 0 and the others are unused. It has no objects.
pub fn bare(alloc: Global, pages: usize) -> Result<Image, AllocError> {
    let mut image = blank(alloc, pages_of(alloc, pages)?);
    fill(alloc, &mut image)?;
    Ok(image)
}

/// Adds an object at an offset of a page, by the page's number and frame.
pub fn put(image: &mut Image, page: (usize, usize), offset: usize, birth: u32, layout: u8) {
    let (number, frame) = page;
    set_start(image, number, offset, true);
    let birth = u64::from(birth);
    set_word(image, frame, offset, Header { birth, layout }.write());
}

/// Adds an entry to a forwarding table, if the number is an address.
fn push_entry(
    side: &mut Vec<Forwarding>,
    offset: u32,
    to: u64,
    copied: bool,
) -> Result<(), AllocError> {
    if let Some(to) = Addr::new(to) {
        side.push(Forwarding { offset, to, copied })?;
    }
    Ok(())
}

/// Adds an entry to a page's forwarding table.
pub fn add_entry(
    image: &mut Image,
    number: usize,
    entry: (u32, u64, bool),
) -> Result<(), AllocError> {
    let (offset, to, copied) = entry;
    if number == 0 || number > image.pages.len() {
        return Ok(());
    }
    push_entry(&mut image.pages[number - 1].side, offset, to, copied)
}
