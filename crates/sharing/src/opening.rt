//! Seats for the actors of a recorded heap.

ghost use Rattle.std.specs.Prelude.{◌≡◌, ◌++◌, map, IfOk, length};
ghost use Rattle.std.specs.List.{range_with_len};
ghost use Rattle.model.specs.declared.steps.Actor.TheVariants.{Thread, Worker};
ghost use Rattle.sharing.specs.Seats.{seat_from, seats_of};

use crate::seat::Seat;
use cycle::{Actor, Book, History};
use entries::part;
use std::alloc::{AllocError, Global};

/// Returns a seat of an actor, whose list is the actor's part of the history. Fails only if out of memory.
fn seat(alloc: Global, actor: Actor, history: &History) -> Result<Seat, AllocError>
    ensures { IfOk result (λ seat. seat ≡ seat_from history.now.entries actor) }
{
    Ok(Seat::with(actor, part(alloc, actor, history)?))
}

/// Appends seats of threads, by their number. Fails only if out of memory.
fn add_threads(
    alloc: Global,
    seats: &mut Vec<Seat>,
    threads: u32,
    history: &History,
) -> Result<(), AllocError>
    ensures { IfOk result (λ _. seats.new.items
        ≡ seats.old.items ++ map (seat_from history.now.entries) (map Thread (range_with_len 0 threads))) }
{
    for number in 0..threads {
        seats.push(seat(alloc, Actor::Thread(number), history)?)?;
    }
    Ok(())
}

/// Appends seats of workers, by their number. Fails only if out of memory.
fn add_workers(
    alloc: Global,
    seats: &mut Vec<Seat>,
    workers: u32,
    history: &History,
) -> Result<(), AllocError>
    ensures { IfOk result (λ _. seats.new.items
        ≡ seats.old.items ++ map (seat_from history.now.entries) (map Worker (range_with_len 0 workers))) }
{
    for number in 0..workers {
        seats.push(seat(alloc, Actor::Worker(number), history)?)?;
    }
    Ok(())
}

/// Returns a seat for each actor of a recorded heap, threads first. Fails only if out of memory.
pub(crate) fn seats(alloc: Global, book: &Book) -> Result<Vec<Seat>, AllocError>
    ensures { IfOk result (λ seats. seats.items ≡ seats_of book.now) }
{
    let mut seats = Vec::new(alloc);
    let config = book.heap().config();
    add_threads(alloc, &mut seats, config.threads, book.history())?;
    add_workers(alloc, &mut seats, config.workers, book.history())?;
    Ok(seats)
}
