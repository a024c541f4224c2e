//! Whether seats and history agree.

ghost use Rattle.std.specs.Prelude.{◌≡◌, ◌==◌, true, IfErr, IfOk, length};
ghost use Rattle.model.specs.declared.steps.Actor.{Actor};
ghost use Rattle.entries.specs.Parts.{is_before};
ghost use Rattle.sharing.specs.Seats.{Agrees, AreSettled, HasPart, of_actor};
ghost use Rattle.sharing.specs.Settling.{IsFirstNot, earlier, noted};

use crate::seat::Seat;
use cycle::{Actor, Book, History};
use entries::{actor_at, is_before, is_part, is_same};

/// A recorded heap and the seats of its actors, which agree.
#[derive(Drop)]
pub struct Settled {
    /// The recorded heap, unchanged.
    pub book: Book,
    /// The seats, unchanged.
    pub seats: Vec<Seat>,
}

/// The first actor, threads before workers, for whom the seats and the history disagree.
#[derive(Clone, Copy, Debug, PartialEq, Eq)]
pub struct Stray {
    /// The actor.
    pub actor: Actor,
}

/// Returns whether an actor has exactly one seat.
fn has_one(seats: &[Seat], actor: Actor) -> bool
    ensures { result ≡ (length (of_actor actor seats.now) == 1) }
{
    let mut count: usize = 0;
    for seat in seats {
        if is_same(seat.actor(), actor) {
            count += 1;
        }
    }
    count == 1
}

/// Returns the earlier of two actors.
fn earlier(a: Option<Actor>, b: Actor) -> Option<Actor>
    ensures { result ≡ earlier a b }
{
    match a {
        Some(a) => { if is_before(b, a) { Some(b) } else { Some(a) } }
        None => Some(b),
    }
}

/// Returns the first actor for whom a test failed, after one more was tested.
fn noted(found: Option<Actor>, actor: Actor, fine: bool) -> Option<Actor>
    ensures { result ≡ noted found actor fine }
{
    if fine { found } else { earlier(found, actor) }
}

/// Returns the first actor of a seat whose list isn't its part of the history.
#[tactic(auto, using(crate::proofs::Settles::wrong_more, crate::proofs::Settles::all_of))]
fn first_wrong(history: &History, seats: &[Seat]) -> Option<Actor>
    ensures { IsFirstNot (HasPart history.now.entries seats.now) result }
{
    let mut found = None;
    for seat in seats {
        let fine = is_part(seat.list(), seat.actor(), history);
        found = noted(found, seat.actor(), fine);
    }
    found
}

/// Returns the first actor of `before` and of those in the history that haven't exactly one seat.
fn first_lacking(history: &History, seats: &[Seat], before: Option<Actor>) -> Option<Actor>
    requires { IsFirstNot (HasPart history.now.entries seats.now) before }
    ensures { IsFirstNot (Agrees history.now.entries seats.now) result }
{
    let mut found = before;
    for index in 0..history.len() {
        let actor = actor_at(history, index);
        let fine = has_one(seats, actor);
        found = noted(found, actor, fine);
    }
    found
}

/// Returns the first actor for whom the seats and the history disagree.
fn first_stray(history: &History, seats: &[Seat]) -> Option<Actor>
    ensures { IsFirstNot (Agrees history.now.entries seats.now) result }
{
    let wrong = first_wrong(history, seats);
    first_lacking(history, seats, wrong)
}

/// Returns the recorded heap and the seats unchanged if each actor of the history has exactly one seat, and each
/// seat's list is its actor's part of the history; else the first actor for whom this fails. It allocates nothing.
pub fn settle(book: Book, seats: Vec<Seat>) -> Result<Settled, Stray>
    ensures same { IfOk result (λ s. (s.book ≡ book) × (s.seats.items ≡ seats.items)) }
    ensures settled { IfOk result (λ s. AreSettled s.book.history s.seats.items) }
    ensures stray { IfErr result (λ s. ¬ Agrees book.history seats.items s.actor
        × ((a : Actor) → is_before a s.actor ≡ true → Agrees book.history seats.items a)) }
{
    match first_stray(book.history(), seats.as_slice()) {
        Some(actor) => {
            // (by a call: at the end of a scope values are freed in the steps of this function, which are proved)
            drop(seats);
            drop(book);
            Err(Stray { actor })
        }
        None => Ok(Settled { book, seats }),
    }
}
