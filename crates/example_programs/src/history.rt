//! A list on a `Book`, a heap that keeps each step with its answer.

use anyhow::Result;
use pauseless::{Actor, Answer, Book, Config, Layout, Layouts, Refusal, Reply, Step};
use std::alloc::Global;

/// The program's one thread, and its registers for a node and for the list's head.
const ME: Actor = Actor::Thread(0);

const NODE: u32 = 0;

const HEAD: u32 = 1;

/// The calls of the example on a recorded heap. They have no contracts, so that the proofs of the loops are short.
trait Acting {
    /// Does a step of the thread.
    fn act(&mut self, step: Step) -> Reply;

    /// Does a complete load by the thread.
    fn load(&mut self, alloc: Global, load: Step) -> Result<()>;
}

impl Acting for Book {
    fn act(&mut self, step: Step) -> Reply {
        Book::act(self, ME, step)
    }

    fn load(&mut self, alloc: Global, load: Step) -> Result<()> {
        self.whole_load(ME, load, &mut Vec::new(alloc))?;
        Ok(())
    }
}

/// Pushes a node of this value to the list.
fn push(book: &mut impl Acting, value: u64) -> Result<Answer, Refusal> {
    let (target, layout) = (NODE, 0);
    book.act(Step::New { target, layout })?;
    let set = Step::SetDatum {
        object: NODE,
        index: 0,
        value,
    };
    book.act(set)?;
    let store = Step::Store {
        object: NODE,
        field: 0,
        source: HEAD,
    };
    book.act(store)?;
    let (target, source) = (HEAD, NODE);
    book.act(Step::CopyReg { target, source })
}

/// Removes the list's head by a complete load of the next node.
fn pop(alloc: Global, book: &mut impl Acting) -> Result<()> {
    let next = Step::Load {
        target: HEAD,
        object: HEAD,
        field: 0,
    };
    book.load(alloc, next)
}

/// Makes a list of five nodes.
fn fill(book: &mut impl Acting) -> Result<(), Refusal> {
    book.act(Step::Take(512))?;
    for value in 1..=5 {
        push(book, value)?;
    }
    Ok(())
}

/// Prints the values of a list of five nodes from its head on.
fn print_list(rt: &HostRuntime, book: &mut impl Acting) -> Result<()> {
    let (object, index) = (HEAD, 0);
    for _ in 0..5 {
        if let Answer::Datum(value) = book.act(Step::Datum { object, index })? {
            println!(rt; "{value}")?;
        }
        pop(rt.alloc(), book)?;
    }
    Ok(())
}

/// Makes a list, and prints it.
fn fill_and_print(rt: &HostRuntime, mut book: impl Acting + Drop) -> Result<()> {
    fill(&mut book)?;
    print_list(rt, &mut book)
}

/// Makes a recorded heap with one layout, of a reference and a datum.
fn new_book(alloc: Global) -> Result<Book> {
    let layouts = Layouts::new(vec![in alloc; Layout { refs: 1, nums: 1 }]?);
    Ok(Book::new(alloc, Config::new(512, 4, layouts))?)
}

/// Makes a list of five nodes on a new recorded heap, and prints it.
pub fn run(rt: &HostRuntime) -> Result<()> {
    fill_and_print(rt, new_book(rt.alloc())?)
}
