//! The steps on the heaps whose images get faults.

use crate::same::done;
use cycle::{Actor, Book, PageList, Reply, Step};
use heap::{Config, Refusal};
use heap_images::image_of;
use layout::{Layout, Layouts};
use std::alloc::{AllocError, Global};
use std::process::Abort;
use verify::Image;

const FIRST: Actor = Actor::Thread(0);

const SECOND: Actor = Actor::Thread(1);

const WORKER: Actor = Actor::Worker(0);

/// The calls of a story on a recorded heap. They have no contracts, so that the proofs of stories are short.
trait Telling {
    /// Does a step of an actor.
    fn act(&mut self, actor: Actor, step: Step) -> Reply;

    /// Does a complete load.
    fn load(&mut self, alloc: Global, actor: Actor, load: Step) -> Result<(), Refusal>;

    /// Does all steps of a worker that scan.
    fn drain(&mut self, alloc: Global, worker: u32) -> Result<(), Refusal>;

    /// Returns the image of the heap.
    fn image(&self, alloc: Global) -> Result<Image, AllocError>;
}

impl Telling for Book {
    fn act(&mut self, actor: Actor, step: Step) -> Reply {
        Book::act(self, actor, step)
    }

    fn load(&mut self, alloc: Global, actor: Actor, load: Step) -> Result<(), Refusal> {
        self.whole_load(actor, load, &mut Vec::new(alloc))
    }

    fn drain(&mut self, alloc: Global, worker: u32) -> Result<(), Refusal> {
        Book::drain(self, worker, &mut Vec::new(alloc))
    }

    fn image(&self, alloc: Global) -> Result<Image, AllocError> {
        image_of(alloc, self.heap())
    }
}

/// Three frames of 16 words, eight pages, two threads of four registers, a worker and a global. An
/// object has one reference and one datum.
fn config(alloc: Global) -> Result<Config, AllocError> {
    let layouts = vec![in alloc; Layout { refs: 1, nums: 1 }]?;
    let mut config = Config::new(16, 3, Layouts::new(layouts));
    config.pages = 8;
    config.threads = 2;
    config.registers = 4;
    config.globals = 1;
    Ok(config)
}

/// A step is accepted.
fn does(rt: &impl Abort, book: &mut impl Telling, actor: Actor, step: Step) {
    done(rt, book.act(actor, step));
}

/// Thread 0 allocates an object with a datum of 5 at page 1, offset 0, and stores it in the global.
fn make(rt: &impl Abort, book: &mut impl Telling) {
    let (target, layout) = (0, 0);
    let (object, index, value) = (0, 0, 5);
    let (global, source) = (0, 0);
    let set = Step::SetDatum {
        object,
        index,
        value,
    };
    does(rt, book, FIRST, Step::Take(16));
    does(rt, book, FIRST, Step::New { target, layout });
    does(rt, book, FIRST, set);
    does(rt, book, FIRST, Step::StoreGlobal { global, source });
    does(rt, book, FIRST, Step::GiveBack);
}

/// Both threads cross.
fn cross(rt: &impl Abort, book: &mut impl Telling) {
    does(rt, book, FIRST, Step::Cross);
    does(rt, book, SECOND, Step::Cross);
}

/// An object to which a register of each thread and the global refer, on a page that a mark has closed.
fn close(rt: &impl Abort, alloc: Global, book: &mut impl Telling) {
    make(rt, book);
    let (target, global) = (0, 0);
    let load = Step::LoadGlobal { target, global };
    done(rt, book.load(alloc, SECOND, load));
    does(rt, book, WORKER, Step::StartMark);
    cross(rt, book);
    done(rt, book.drain(alloc, 0));
    does(rt, book, WORKER, Step::EndMark);
}

/// Its page is emptied, and its frame is released: the object moves to page 2.
fn move_off(rt: &impl Abort, alloc: Global, book: &mut impl Telling) {
    let (page, entry) = (1, 0);
    let pages = PageList::new(done(rt, vec![in alloc; 1; 1]));
    does(rt, book, WORKER, Step::Protect(pages));
    cross(rt, book);
    does(rt, book, WORKER, Step::Copy { page, entry });
    does(rt, book, WORKER, Step::Release(page));
}

/// The next mark starts, and thread 0 loads the global: a trap has corrected the reference of its load, which hasn't
/// ended.
fn trap(rt: &impl Abort, book: &mut impl Telling) {
    let (target, global) = (1, 0);
    does(rt, book, WORKER, Step::StartMark);
    cross(rt, book);
    does(rt, book, FIRST, Step::LoadGlobal { target, global });
    does(rt, book, FIRST, Step::Trap);
}

/// The steps on a heap before its image is taken.
#[derive(Clone, Copy)]
pub enum Story {
    /// A mark has closed the page of an object to which a register of each thread and the global refer.
    Closed,
    /// Then the object has moved, and its old page is released.
    Moved,
    /// Then the next mark has started, and a thread loads a reference to the object's old place.
    Trapped,
}

/// Does all steps of a story.
fn act_out(rt: &impl Abort, alloc: Global, book: &mut impl Telling, story: Story) {
    close(rt, alloc, book);
    match story {
        Story::Closed => {}
        Story::Moved => move_off(rt, alloc, book),
        Story::Trapped => {
            move_off(rt, alloc, book);
            trap(rt, book);
        }
    }
}

/// Returns the image of a heap at the end of a story that began with a new one.
pub fn told(rt: &impl Abort, alloc: Global, story: Story) -> Image {
    let config = done(rt, config(alloc));
    let mut book = done(rt, Book::new(alloc, config));
    act_out(rt, alloc, &mut book, story);
    done(rt, Telling::image(&book, alloc))
}
