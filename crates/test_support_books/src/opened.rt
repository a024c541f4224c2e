//! Recorded heaps of scripts.

use crate::book::act;
use cycle::Book;
use heap::Refusal;
use parser::{ParseFault, Script, parse};
use std::alloc::{AllocError, Global};
use std::test::Fail;

/// Two threads and a worker, three frames, and objects of a reference and a datum.
pub const HEAD: &str =
    "heap words 16 frames 3 pages 8 threads 2 workers 1 registers 4 globals 1\nlayout 1 1\n";

/// The same with four frames.
pub const ROOMY: &str =
    "heap words 16 frames 4 pages 8 threads 2 workers 1 registers 4 globals 1\nlayout 1 1\n";

/// An object with a datum, to which both threads and the global refer, and a complete mark: its page is closed then.
pub const MARKED: &str =
    "t0 take 16\nt0 new r0 0\nt0 set r0 0 5\nt0 storeg 0 r0\nt0 give\nt1 loadg r0 0\nt1 trap\nt1 finish\n\
    w0 mark\nt0 cross\nt1 cross\nw0 scang 0\nw0 pick 1.0\nw0 scan\nw0 scan\nw0 endmark\n";

/// A page of five objects, each of which refers to the one before, and the first of all to the marked one.
pub const LINKED: &str =
    "t1 take 16\ntimes 5\nt1 new r1 0\nt1 store r1 0 r0\nt1 mov r0 r1\nend\nt1 give\nw0 mark\nt0 cross\n\
    t1 cross\nw0 scang 0\nw0 pick 1.0\nw0 scan\nw0 scan\nw0 pick 2.12\nw0 scan\nw0 scan\nw0 pick 2.9\n\
    w0 scan\nw0 scan\nw0 pick 2.6\nw0 scan\nw0 scan\nw0 pick 2.3\nw0 scan\nw0 scan\nw0 pick 2.0\nw0 scan\n\
    w0 scan\nw0 endmark\n";

/// Both pages are protected; a thread moves the last object before a worker copies the others.
pub const WHOLE_PAGES: &str =
    "w0 protect 1 2\nt0 cross\nt1 cross\nt1 scrub r0\nt1 set r0 0 3\nw0 copyall 2\nt1 datum r0 0\n\
    w0 copyall 2\nw0 release 2\n";

/// Two pages of five objects, fifteen words of each, and one free frame.
pub const FULL: &str =
    "t0 take 16\ntimes 5\nt0 new r1 0\nt0 store r1 0 r0\nt0 mov r0 r1\nend\nt0 give\nt0 take 16\ntimes 5\n\
    t0 new r1 0\nt0 store r1 0 r0\nt0 mov r0 r1\nend\nt0 give\nw0 mark\nt0 cross\nt1 cross\nw0 scang 0\n\
    w0 pick 2.12\nw0 scan\nw0 scan\nw0 pick 2.9\nw0 scan\nw0 scan\nw0 pick 2.6\nw0 scan\nw0 scan\n\
    w0 pick 2.3\nw0 scan\nw0 scan\nw0 pick 2.0\nw0 scan\nw0 scan\nw0 pick 1.12\nw0 scan\nw0 scan\n\
    w0 pick 1.9\nw0 scan\nw0 scan\nw0 pick 1.6\nw0 scan\nw0 scan\nw0 pick 1.3\nw0 scan\nw0 scan\nw0 pick 1.0\n\
    w0 scan\nw0 scan\nw0 endmark\n";

/// Returns a script of several parts.
pub fn script_of(alloc: Global, parts: &[&str]) -> Result<Script, ParseFault> {
    let mut text = String::new(alloc);
    for part in parts {
        text.push_str(part)?;
    }
    parse(alloc, text.as_bytes())
}

/// Returns a new recorded heap of a script's configuration.
pub fn book_of(alloc: Global, script: &Script) -> Result<Book, Fail> {
    let config = script.config().copy(alloc)?;
    match Book::new(alloc, config) {
        Ok(book) => Ok(book),
        Err(_) => Err(Fail::from(AllocError)),
    }
}

/// Does the steps of a script's commands on a recorded heap, with any replies. Fails only if out of memory.
pub fn act_all(alloc: Global, book: &mut Book, script: &Script) -> Result<(), AllocError> {
    for command in script.commands() {
        let step = command.order.step(alloc)?;
        if act(book, command.actor, step) == Err(Refusal::Memory) {
            return Err(AllocError);
        }
    }
    Ok(())
}
