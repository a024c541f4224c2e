//! Copying pages full of live objects, compared with copying slices of the same words.

ghost use Rattle.std.specs.Prelude.{◌<◌};

use crate::asking::{Steps, THREAD, WORKER};
use crate::mixes::WORDS;
use anyhow::Result;
use cycle::{PageList, Step};
use heap::{Config, Heap, Refusal};
use layout::{Layout, Layouts};
use std::alloc::Global;

/// How the objects of a page are copied.
#[derive(Clone, Copy)]
pub enum CopyBy {
    /// Each by a step of its own.
    Object,
    /// All by one step.
    Page,
}

/// Returns the layout of objects of `size` words, of which up to 255 after the header are data, and the rest
/// references.
fn layout(size: u32) -> Layout {
    let fields = size.saturating_sub(1).min(510);
    let nums = fields.min(255);
    Layout {
        refs: (fields - nums) as u16,
        nums: nums as u16,
    }
}

/// Fills a page with objects, as many as fit.
fn fill(heap: &mut impl Steps, words: u32, objects: u32) -> Result<(), Refusal> {
    let (target, layout) = (0, 0);
    heap.step(THREAD, Step::Take(words))?;
    for _ in 0..objects {
        heap.step(THREAD, Step::New { target, layout })?;
    }
    heap.step(THREAD, Step::GiveBack)?;
    Ok(())
}

/// Fills pages with live objects: they are allocated while a mark runs.
pub fn fill_live(
    heap: &mut impl Steps,
    words: u32,
    pages: u32,
    objects: u32,
) -> Result<(), Refusal> {
    heap.step(WORKER, Step::StartMark)?;
    heap.step(THREAD, Step::Cross)?;
    for _ in 0..pages {
        fill(heap, words, objects)?;
    }
    heap.step(WORKER, Step::EndMark)?;
    Ok(())
}

/// Returns the first pages, by their numbers from 1.
fn first_pages(alloc: Global, count: u32) -> Result<PageList> {
    let mut pages = Vec::with_capacity(alloc, count as usize)?;
    for page in 1..=count {
        pages.push(page)?;
    }
    Ok(PageList::new(pages))
}

/// Returns how many objects of a size fit in a page of `words` words.
pub fn objects_of(words: u32, size: u32) -> u32 {
    words / size.max(1)
}

/// Protects full pages, and all threads cross.
fn protect_full(
    heap: &mut impl Steps,
    protect: Step,
    pages: u32,
    objects: u32,
) -> Result<(), Refusal> {
    fill_live(heap, WORDS, pages, objects)?;
    heap.step(WORKER, protect)?;
    heap.step(THREAD, Step::Cross)?;
    Ok(())
}

/// Copies all objects of a page, each by a step of its own.
fn copy_objects(heap: &mut impl Steps, page: u32, objects: u32) -> Result<(), Refusal> {
    for entry in 0..objects {
        heap.step(WORKER, Step::Copy { page, entry })?;
    }
    Ok(())
}

/// Copies all objects of a page.
fn copy_page(heap: &mut impl Steps, by: CopyBy, page: u32, objects: u32) -> Result<(), Refusal> {
    match by {
        CopyBy::Object => copy_objects(heap, page, objects),
        CopyBy::Page => {
            heap.step(WORKER, Step::CopyPage(page))?;
            Ok(())
        }
    }
}

/// Copies all objects of the first pages.
fn copy_pages(heap: &mut impl Steps, by: CopyBy, pages: u32, objects: u32) -> Result<(), Refusal> {
    for page in 1..=pages {
        copy_page(heap, by, page, objects)?;
    }
    Ok(())
}

/// Protects full pages of objects of this size, and copies the first of them. Returns how many objects are uncopied.
fn copied(
    alloc: Global,
    mut heap: impl Steps + Drop,
    by: CopyBy,
    size: u32,
    pages: u32,
    count: u32,
) -> Result<u64> {
    let objects = objects_of(WORDS, size);
    let protect = Step::Protect(first_pages(alloc, pages)?);
    protect_full(&mut heap, protect, pages, objects)?;
    copy_pages(&mut heap, by, count.min(pages), objects)?;
    Ok(heap.heap().sides().uncopied())
}

/// Returns the configuration of a heap with this many pages of objects of a size, and frames for their copies.
fn config(alloc: Global, size: u32, pages: u32) -> Result<Config> {
    let layouts = Layouts::new(vec![in alloc; layout(size)]?);
    let mut config = Config::new(WORDS, pages.saturating_mul(2), layouts);
    config.globals = 0;
    Ok(config)
}

/// Protects full pages of objects of a size; then copies all objects of the first `count` of them. Returns how many
/// objects are uncopied.
pub fn copies(alloc: Global, by: CopyBy, size: u32, pages: u32, count: u32) -> Result<u64> {
    let heap = Heap::new(alloc, config(alloc, size, pages)?)?;
    copied(alloc, heap, by, size, pages, count)
}

/// Copies `each` words at a time, `count` times.
fn copy_slices(from: &[u64], to: &mut [u64], each: usize, count: usize)
    requires { 0 < each }
{
    for (to, from) in to
        .chunks_exact_mut(each)
        .zip(from.chunks_exact(each))
        .take(count)
    {
        to.copy_from_slice(from);
    }
}

/// Allocates the words of the pages twice; then copies those of `copied` pages, `size` words at a time. Returns one
/// of the words.
pub fn slices(alloc: Global, size: u32, pages: u32, copied: u32) -> Result<u64> {
    let words = pages as usize * WORDS as usize;
    let from: Vec<u64> = vec![in alloc; 7; words]?;
    let mut to: Vec<u64> = vec![in alloc; 3; words]?;
    let each = size.max(1) as usize;
    let count = copied as usize * (WORDS as usize / each);
    copy_slices(&from, &mut to, each, count);
    Ok(to.first().copied().unwrap_or(0))
}
