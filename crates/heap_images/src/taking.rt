//! Takes the image of a heap.

ghost use Rattle.std.specs.Prelude.{◌≡◌, ◌<◌, ◌≤◌, IfOk, map, length, slice_get};
ghost use Rattle.model.specs.Bits.{of_page};
ghost use Rattle.model.specs.Stores.{frame_in, page_at};
ghost use Rattle.refword.specs.Words.{bits_of};
ghost use Rattle.verify.specs.Pictures.{free_of, image_of, is_free, load_of, page_data, pages_of, registers_of};

use heap::Heap;
use markbits::Row;
use model::{Forwarding, Global as Root};
use page::{Frames, Store};
use refword::Word;
use std::alloc::{AllocError, Global};
use thread_records::Thread;
use verify::{Image, PageImage, Words};

/// Returns the bits of words. Fails only if out of memory.
fn numbers(alloc: Global, words: &[Word]) -> Result<Words, AllocError>
    ensures { IfOk result (λ v. v ≡ map bits_of words.now) }
{
    Ok(Words {
        words: words.iter().map(|word| word.bits()).collect(alloc)?,
    })
}

/// Returns the registers of each thread. Fails only if out of memory.
fn registers(alloc: Global, threads: &[Thread]) -> Result<Vec<Words>, AllocError>
    ensures { IfOk result (λ v. v.items ≡ map registers_of threads.now) }
{
    let mut registers = Vec::with_capacity(alloc, threads.len())?;
    for number in 0..threads.len() {
        registers.push(numbers(alloc, threads[number].registers())?)?;
    }
    Ok(registers)
}

/// Returns the current reference of a thread's load, if the thread has an open barrier.
fn load(thread: &Thread) -> Option<u64>
    ensures { result ≡ load_of thread.now }
{
    match thread.barrier() {
        None => None,
        Some(barrier) => Some(barrier.now.bits()),
    }
}

/// Returns the current reference of each thread's load. Fails only if out of memory.
fn loads(alloc: Global, threads: &[Thread]) -> Result<Vec<Option<u64>>, AllocError>
    ensures { IfOk result (λ v. v.items ≡ map load_of threads.now) }
{
    threads.iter().map(|thread| load(thread)).collect(alloc)
}

/// Returns the bits of globals. Fails only if out of memory.
fn globals(alloc: Global, globals: &[Root]) -> Result<Vec<u64>, AllocError>
    ensures { IfOk result (λ v. v.items ≡ map (λ g. bits_of g.word) globals.now) }
{
    globals
        .iter()
        .map(|global| global.word.bits())
        .collect(alloc)
}

/// Returns the memory of each frame. Fails only if out of memory.
fn frames(alloc: Global, frames: &Frames) -> Result<Vec<Words>, AllocError>
    ensures { IfOk result (λ v. v.items ≡ frames.now) }
{
    let mut memory = Vec::with_capacity(alloc, frames.len())?;
    for number in 0..frames.len() {
        let words = Vec::from_slice(alloc, frames.words(number))?;
        memory.push(Words { words })?;
    }
    Ok(memory)
}

/// Returns whether a frame exists and is free.
fn is_free(store: &Store, frame: u32) -> bool
    ensures { result ≡ is_free (slice_get store.now.owners frame) }
{
    matches!(store.owners().get(frame as usize), Some(None))
}

/// Returns the numbers of the free frames among the first `count`. Fails only if out of memory.
#[tactic(auto, using(crate::proofs::Listing::one_kept, crate::proofs::Listing::one_left_out))]
fn free_frames(alloc: Global, store: &Store, count: u32) -> Result<Vec<u32>, AllocError>
    requires { length store.now.owners ≡ count }
    ensures { IfOk result (λ v. v.items ≡ free_of store.now) }
{
    let mut free = Vec::with_capacity(alloc, store.free_frames() as usize)?;
    for frame in 0..count {
        if is_free(store, frame) {
            free.push(frame)?;
        }
    }
    Ok(free)
}

/// Returns the start bitmap of a page, by its number from 1. Fails only if out of memory.
#[tactic(auto, using(model::proofs::OfPages::of_page_none, model::proofs::OfPages::of_page_some))]
fn starts(alloc: Global, heap: &Heap, number: u32) -> Result<Row, AllocError>
    requires { 0 < number }
    ensures { IfOk result (λ row. row ≡ of_page heap.now.starts number) }
{
    match heap.starts().get((number - 1) as usize) {
        None => Ok(Row::empty(alloc)),
        Some(row) => row.copy(alloc),
    }
}

/// Returns the forwarding table of a page, by its number from 1. Fails only if out of memory.
#[tactic(auto, using(model::proofs::OfPages::of_page_none, model::proofs::OfPages::of_page_some))]
fn side(alloc: Global, heap: &Heap, number: u32) -> Result<Vec<Forwarding>, AllocError>
    requires { 0 < number }
    ensures { IfOk result (λ v. v.items ≡ of_page heap.now.sides number) }
{
    match heap.sides().get((number - 1) as usize) {
        None => Ok(Vec::new(alloc)),
        Some(side) => side.entries(alloc),
    }
}

/// Returns the frame of a page, by its number.
fn frame(store: &Store, number: u32) -> Option<u32>
    ensures { result ≡ frame_in (page_at store.now number) }
{
    let record = store.page(number)?;
    record.frame
}

/// Returns the image of a page, by its number from 1. Fails only if out of memory.
fn page(alloc: Global, heap: &Heap, number: u32) -> Result<PageImage, AllocError>
    requires { 0 < number }
    ensures { IfOk result (λ p. p ≡ page_data heap.now number) }
{
    Ok(PageImage {
        state: heap.memory().state(number),
        frame: frame(heap.memory(), number),
        starts: starts(alloc, heap, number)?,
        side: side(alloc, heap, number)?,
    })
}

/// Returns the images of all pages that have a record. Fails only if out of memory.
#[tactic(auto, using(crate::proofs::Listing::mapped_more))]
fn pages(alloc: Global, heap: &Heap) -> Result<Vec<PageImage>, AllocError>
    ensures { IfOk result (λ v. v.items ≡ pages_of heap.now) }
{
    heap.law();
    let count = heap.memory().pages().len();
    let mut pages = Vec::with_capacity(alloc, count)?;
    for index in 0..count {
        pages.push(page(alloc, heap, index as u32 + 1)?)?;
    }
    Ok(pages)
}

/// Returns the image of a heap: a copy of its memory, its forwarding tables and its roots. Fails only if out of
/// memory.
#[tactic(auto, unfolding(verify::specs::Pictures::image_of))]
pub fn image_of(alloc: Global, heap: &Heap) -> Result<Image, AllocError>
    ensures { IfOk result (λ image. image ≡ image_of heap.now) }
{
    heap.law();
    let store = heap.memory();
    let config = heap.config();
    Ok(Image {
        words: store.page_words(),
        frame_count: config.frames,
        free: free_frames(alloc, store, config.frames)?,
        pages: pages(alloc, heap)?,
        frames: frames(alloc, store.frames())?,
        registers: registers(alloc, heap.threads())?,
        loads: loads(alloc, heap.threads())?,
        globals: globals(alloc, heap.globals())?,
        layouts: Vec::from_slice(alloc, config.layouts.as_slice())?,
    })
}
