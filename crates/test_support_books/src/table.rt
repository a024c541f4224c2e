//! Shared recorded heaps with all their seats.

use crate::opened::book_of;
use cycle::{Actor, Book, History, Reply};
use entries::is_same;
use heap::Heap;
use parser::{Command, Script, Verb};
use sharing::{Seat, Shared, settle};
use std::alloc::{AllocError, Global};
use std::fmt::Debug;
use std::sync::Wait;
use std::test::Fail;
use std::thread::Threads;

/// A shared recorded heap with its seats, and the depth to which it halves the entries that it copies.
#[derive(Drop)]
pub struct Table {
    pub shared: Shared,
    pub seats: Vec<Seat>,
    pub depth: u32,
}

/// Returns a table of a recorded heap.
fn open(alloc: Global, book: Book, depth: u32) -> Result<Table, AllocError> {
    let (shared, seats) = Shared::open(alloc, book).ok().ok_or(AllocError)?;
    Ok(Table {
        shared,
        seats,
        depth,
    })
}

/// Returns a table of a new recorded heap for a script's steps.
pub fn table_of(alloc: Global, script: &Script, depth: u32) -> Result<Table, Fail> {
    let book = book_of(alloc, script)?;
    let table = open(alloc, book, depth)?;
    Ok(table)
}

/// Returns an actor's seat.
pub fn seat_of(seats: &mut [Seat], actor: Actor) -> Option<&mut Seat> {
    let place = seats.iter().position(|seat| is_same(seat.actor(), actor))?;
    seats.get_mut(place)
}

/// Does a command's step by a seat.
fn ask_seat<R: Threads + Wait + Sync>(
    rt: &R,
    alloc: Global,
    shared: &Shared,
    seat: &mut Seat,
    depth: u32,
    command: &Command,
) -> Result<Reply, AllocError> {
    match command.order.verb {
        Verb::CopyAll => Ok(shared.copy_page(rt, seat, command.order.first, depth)),
        _ => {
            let step = command.order.step(alloc)?;
            Ok(shared.step(rt, seat, step))
        }
    }
}

/// Does a command's step at a table.
pub fn ask<R: Threads + Wait + Sync>(
    rt: &R,
    alloc: Global,
    table: &mut Table,
    command: &Command,
) -> Result<Reply, Fail> {
    match seat_of(&mut table.seats, command.actor) {
        Some(seat) => {
            let reply = ask_seat(rt, alloc, &table.shared, seat, table.depth, command)?;
            Ok(reply)
        }
        None => Err("no such seat".into()),
    }
}

/// Returns the image of a heap, as a text.
pub fn image_of(alloc: Global, heap: &Heap) -> Result<String, AllocError> {
    let image = heap_images::image_of(alloc, heap)?;
    text_of(alloc, &image)
}

/// Returns the image of a shared heap, as a text.
pub fn shared_image(rt: &impl Wait, alloc: Global, shared: &Shared) -> Result<String, AllocError> {
    shared.look(rt, |heap: &Heap| image_of(alloc, heap))
}

/// Returns the entry of a number, as a text.
pub fn entry_text(alloc: Global, history: &History, index: usize) -> Result<String, AllocError> {
    match history.get(index) {
        Some(found) => text_of(alloc, found.entry()),
        None => Ok(String::new(alloc)),
    }
}

/// A table that can be borrowed. Tests pass theirs as one, since a proof with a `Table` that lives over several calls
/// takes long.
pub trait HeldTable: Sized {
    /// Borrows the table.
    fn table(&mut self) -> &mut Table;

    /// Returns its recorded heap, if its seats agree with it.
    fn settled(self) -> Option<Book>;
}

impl HeldTable for Table {
    fn table(&mut self) -> &mut Table {
        self
    }

    fn settled(self) -> Option<Book> {
        settled(self)
    }
}

/// Returns a table's recorded heap, if its seats agree with it.
fn settled(table: Table) -> Option<Book> {
    let Table {
        shared,
        seats,
        depth: _,
    } = table;
    match settle(shared.into_book(), seats) {
        Ok(settled) => Some(settled.book),
        Err(_) => None,
    }
}

/// Returns a value in full, as a text.
pub fn text_of<T: Debug>(alloc: Global, value: &T) -> Result<String, AllocError> {
    format!(in alloc; "{value:?}")
}
