//! A heap whose objects are on four pages.

use cycle::{Actor, Reply, Step, Stepping, next_drain};
use heap::{Config, Heap, NewFault, Refusal};
use heap_images::{image_of, verify};
use layout::{Layout, Layouts};
use managed::ManagedHeap;
use model::Phase;
use std::alloc::{AllocError, Global};
use std::fmt::Write as _;
use verify::{Image, Verdict};

const THREAD: Actor = Actor::Thread(0);

const WORKER: Actor = Actor::Worker(0);

/// The calls of a test on a heap with one thread and one worker. They have no contracts, so that the proofs of tests
/// are short.
pub trait Moving {
    /// Does a step of the thread.
    fn act(&mut self, step: &Step) -> Reply;

    /// Does a step of the worker.
    fn work(&mut self, step: &Step) -> Reply;

    /// Does the next step of a mark's scan, if one is left. Returns whether it was.
    fn scan(&mut self) -> Result<bool, Refusal>;

    /// Returns its phase, whether its thread has crossed, and how many objects are uncopied.
    fn progress(&self) -> (Phase, bool, u64);

    /// Returns the text of its image.
    fn text(&self, alloc: Global) -> Result<String, AllocError>;

    /// Returns the verifier's verdict.
    fn verdict(&self, alloc: Global) -> Result<Verdict, AllocError>;
}

/// Returns whether all threads have crossed.
fn has_crossed(heap: &Heap) -> bool {
    heap.threads().iter().all(|thread| thread.has_crossed())
}

/// Returns the text of an image.
fn text_of(alloc: Global, image: &Image) -> Result<String, AllocError> {
    let mut text = String::new(alloc);
    write!(text, "{image}")?;
    Ok(text)
}

impl Moving for Heap {
    fn act(&mut self, step: &Step) -> Reply {
        self.step(THREAD, step)
    }

    fn work(&mut self, step: &Step) -> Reply {
        self.step(WORKER, step)
    }

    fn scan(&mut self) -> Result<bool, Refusal> {
        let Some(step) = next_drain(self, 0) else {
            return Ok(false);
        };
        self.step(WORKER, &step)?;
        Ok(true)
    }

    fn progress(&self) -> (Phase, bool, u64) {
        (self.phase(), has_crossed(self), self.sides().uncopied())
    }

    fn text(&self, alloc: Global) -> Result<String, AllocError> {
        let image = image_of(alloc, self)?;
        text_of(alloc, &image)
    }

    fn verdict(&self, alloc: Global) -> Result<Verdict, AllocError> {
        verify(alloc, self)
    }
}

impl Moving for ManagedHeap {
    fn act(&mut self, step: &Step) -> Reply {
        self.step(THREAD, step)
    }

    fn work(&mut self, step: &Step) -> Reply {
        self.step(WORKER, step)
    }

    fn scan(&mut self) -> Result<bool, Refusal> {
        let Some(step) = next_drain(self.heap(), 0) else {
            return Ok(false);
        };
        self.step(WORKER, &step)?;
        Ok(true)
    }

    fn progress(&self) -> (Phase, bool, u64) {
        self.heap().progress()
    }

    fn text(&self, alloc: Global) -> Result<String, AllocError> {
        self.heap().text(alloc)
    }

    fn verdict(&self, alloc: Global) -> Result<Verdict, AllocError> {
        self.heap().verdict(alloc)
    }
}

/// Six frames of a number of words, twelve pages, one thread with two registers, one worker and no globals. An
/// object has one reference and one datum.
fn config(alloc: Global, words: u32) -> Result<Config, AllocError> {
    let layouts = vec![in alloc; Layout { refs: 1, nums: 1 }]?;
    let mut config = Config::new(words, 6, Layouts::new(layouts));
    config.registers = 2;
    config.globals = 0;
    Ok(config)
}

/// Returns a heap of that configuration, with pages of 16 words.
pub fn new_heap(alloc: Global) -> Result<Heap, NewFault> {
    Heap::new(alloc, config(alloc, 16)?)
}

/// Returns the same as a managed heap.
pub fn new_managed(alloc: Global) -> Result<ManagedHeap, NewFault> {
    ManagedHeap::new(alloc, config(alloc, 16)?)
}

/// Returns the same with pages of 4,096 words.
pub fn new_large(alloc: Global) -> Result<ManagedHeap, NewFault> {
    ManagedHeap::new(alloc, config(alloc, 4_096)?)
}

/// A new object becomes the head of the list in register 0.
fn push(heap: &mut impl Moving) -> Result<(), Refusal> {
    let (target, layout) = (1, 0);
    heap.act(&Step::New { target, layout })?;
    let (object, field, source) = (1, 0, 0);
    let store = Step::Store {
        object,
        field,
        source,
    };
    heap.act(&store)?;
    let (target, source) = (0, 1);
    heap.act(&Step::CopyReg { target, source })?;
    Ok(())
}

/// A list of objects, this many on each of the pages 1 to 4, which have a number of words.
fn fill(heap: &mut impl Moving, words: u32, objects: u32) -> Result<(), Refusal> {
    for _ in 0..4 {
        heap.act(&Step::Take(words))?;
        for _ in 0..objects {
            push(heap)?;
        }
        heap.act(&Step::GiveBack)?;
    }
    heap.act(&Step::ClearReg(1))?;
    Ok(())
}

/// Does all of a mark's scan, in at most `most` steps.
fn drain(heap: &mut impl Moving, most: u32) -> Result<(), Refusal> {
    for _ in 0..most {
        if !heap.scan()? {
            break;
        }
    }
    Ok(())
}

/// That list, on pages that a mark has closed.
fn fill_to_close(heap: &mut impl Moving, words: u32, objects: u32) -> Result<Reply, Refusal> {
    fill(heap, words, objects)?;
    heap.work(&Step::StartMark)?;
    heap.act(&Step::Cross)?;
    drain(heap, 100_000)?;
    Ok(heap.work(&Step::EndMark))
}

/// The list, with two objects on each page of 16 words.
pub fn fill_and_close(heap: &mut impl Moving) -> Result<Reply, Refusal> {
    fill_to_close(heap, 16, 2)
}

/// The list, with 600 objects on each page of 4,096 words.
pub fn fill_large(heap: &mut impl Moving) -> Result<Reply, Refusal> {
    fill_to_close(heap, 4_096, 600)
}
