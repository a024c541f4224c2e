//! Images of heaps, and their texts; the texts of faults.

use crate::same::{done, same};
use cycle::{Actor, Book, Step};
use heap::NewFault;
use heap_images::{image_of, verify};
use layout::{Layout, Layouts};
use model::{Config, PageList, Refusal};
use script::{FaultText, verify_book};
use std::alloc::{AllocError, Global};
use std::fmt::{Display, Write as _};
use std::process::Abort;
use std::test::Fail;
use test_support_books::act;
use verify::{Fault, Root, Verdict};

const THREAD: Actor = Actor::Thread(0);

const WORKER: Actor = Actor::Worker(0);

/// Pages of 16 words, of which objects take 3: a reference and a datum.
fn config(alloc: Global) -> Result<Config, AllocError> {
    let layouts = vec![in alloc; Layout { refs: 1, nums: 1 }]?;
    let mut config = Config::new(16, 3, Layouts::new(layouts));
    config.registers = 2;
    config.globals = 1;
    Ok(config)
}

fn book(alloc: Global) -> Result<Book, NewFault> {
    Book::new(alloc, config(alloc)?)
}

/// An object that refers to itself, and to which a global refers.
fn make_object(book: &mut Book) -> Result<(), Refusal> {
    let (target, layout) = (0, 0);
    act(book, THREAD, Step::Take(3))?;
    act(book, THREAD, Step::New { target, layout })?;
    let (object, field, source) = (0, 0, 0);
    act(
        book,
        THREAD,
        Step::Store {
            object,
            field,
            source,
        },
    )?;
    let (index, value) = (0, 255);
    act(
        book,
        THREAD,
        Step::SetDatum {
            object,
            index,
            value,
        },
    )?;
    act(book, THREAD, Step::StoreGlobal { global: 0, source })?;
    act(book, THREAD, Step::GiveBack)?;
    Ok(())
}

/// A mark finds the object, and its page is protected; the thread's load hasn't ended.
fn move_object(book: &mut Book, pages: PageList) -> Result<(), Refusal> {
    act(book, WORKER, Step::StartMark)?;
    act(book, THREAD, Step::Cross)?;
    act(book, WORKER, Step::ScanGlobal(0))?;
    act(book, WORKER, Step::Pick { page: 1, offset: 0 })?;
    act(book, WORKER, Step::ScanField)?;
    act(book, WORKER, Step::ScanField)?;
    act(book, WORKER, Step::EndMark)?;
    act(book, WORKER, Step::Protect(pages))?;
    act(book, THREAD, Step::Cross)?;
    act(book, WORKER, Step::Copy { page: 1, entry: 0 })?;
    let (target, global) = (1, 0);
    act(book, THREAD, Step::LoadGlobal { target, global })?;
    Ok(())
}

/// Returns the text of a value.
fn text_of<D: Display>(alloc: Global, what: &D) -> Result<String, AllocError> {
    let mut text = String::new(alloc);
    write!(text, "{what}")?;
    Ok(text)
}

/// A recorded heap has an image of this text, and is sound.
fn looks(rt: &impl Abort, alloc: Global, book: &Book, wanted: &str) -> Result<(), AllocError> {
    let image = image_of(alloc, book.heap())?;
    same(rt, text_of(alloc, &image)?.as_str(), wanted);
    same(rt, verify(alloc, book.heap())?, Verdict::Sound);
    same(rt, verify_book(alloc, book)?, Verdict::Sound);
    Ok(())
}

#[test]
fn the_image_of_a_heap(rt: HostRuntime) {
    let alloc: Global = rt.alloc();
    let wanted = "image words 16 frames 3 free 1 2\n\
        layout 1 1\n\
        page 1 open frame 0 starts 0 side\n\
        page 2 unused frame - starts side\n\
        page 3 unused frame - starts side\n\
        page 4 unused frame - starts side\n\
        page 5 unused frame - starts side\n\
        page 6 unused frame - starts side\n\
        frame 0 0 10 ff 0 0 0 0 0 0 0 0 0 0 0 0 0\n\
        frame 1\n\
        frame 2\n\
        thread 0 load - registers 10 0\n\
        global 0 10\n";
    let mut book = done(&rt, book(alloc));
    done(&rt, make_object(&mut book));
    done(&rt, looks(&rt, alloc, &book, wanted));
}

/// It has this image after its object moves.
fn looks_at_a_move(
    rt: &impl Abort,
    alloc: Global,
    book: &mut Book,
    pages: PageList,
    wanted: &str,
) -> Result<(), Fail> {
    make_object(book)?;
    move_object(book, pages)?;
    looks(rt, alloc, book, wanted)?;
    Ok(())
}

#[test]
fn the_image_of_an_object_that_moves(rt: HostRuntime) -> Result<(), Fail> {
    let alloc: Global = rt.alloc();
    let pages = PageList::new(vec![in alloc; 1; 1]?);
    let wanted = "image words 16 frames 3 free 2\n\
        layout 1 1\n\
        page 1 from frame 0 starts 0 side 0>32*\n\
        page 2 open frame 1 starts 0 side\n\
        page 3 unused frame - starts side\n\
        page 4 unused frame - starts side\n\
        page 5 unused frame - starts side\n\
        page 6 unused frame - starts side\n\
        frame 0 0 8000000000000010 ff 0 0 0 0 0 0 0 0 0 0 0 0 0\n\
        frame 1 0 8000000000000010 ff 0 0 0 0 0 0 0 0 0 0 0 0 0\n\
        frame 2\n\
        thread 0 load 8000000000000010 registers 8000000000000010 0\n\
        global 0 8000000000000010\n";
    let mut book = book(alloc)?;
    looks_at_a_move(&rt, alloc, &mut book, pages, wanted)
}

/// A fault has this text, on pages of 16 words.
fn reads(rt: &impl Abort, alloc: Global, fault: Fault, wanted: &str) {
    let fault = FaultText { fault, words: 16 };
    same(rt, done(rt, text_of(alloc, &fault)).as_str(), wanted);
}

#[test]
fn the_texts_of_faults(rt: HostRuntime) {
    for (fault, text) in [
        (Fault::Frames, "fault frames"),
        (Fault::Root(Root::Register(1, 2)), "fault root t1.r2"),
        (Fault::Root(Root::Pending(3)), "fault pending t3"),
        (Fault::Root(Root::Global(4)), "fault global 4"),
        (Fault::Field(37, 5), "fault field 2.5.5"),
        (Fault::Twins(6), "fault twins 6"),
    ] {
        reads(&rt, rt.alloc(), fault, text);
    }
}
