//! Histories.

ghost use Rattle.std.specs.Prelude.{◌≡◌, ◌<◌, ◌^◌, ◌++◌, ◌∷◌, [], true, length, nat_eq, slice_get, OnOk};
ghost use Rattle.std.specs.Prelude.{vec_len, vec_capacity};
ghost use Rattle.std.specs.Option.{option_map};
ghost use Rattle.entries.specs.Histories.{entry_of};
ghost use Rattle.entries.specs.Views.{entry_in, Stands};

use crate::blocks::{Blocks, Kept};
use crate::entry::{Entry, EntryRef};
use crate::event::{Event, answer_in, place_in, short_event, step_in};
use model::{Actor, Answer, Step};
use std::alloc::{AllocError, Global};
use std::fmt;
use std::marker::Model;

/// Accepted steps with their answers, oldest first. An entry takes 32 bytes. That of `Protect`, and of a step with an
/// answer that it never has in a heap, takes 64 more, and the memory of its list.
///
/// A contract sees the list of the entries, and whether there is space for one more.
#[derive(Drop)]
pub struct History {
    kept: Blocks,
    /// The entries that have no short form.
    whole: Vec<Entry, Global>,
}

impl Model for History {
    ghost use Rattle.entries.specs.Histories.{HistoryState};

    ghost Value = { HistoryState };

    ghost use Rattle.entries.specs.Views.{history_of, IsKept};

    ghost view = { history_of };

    ghost invariant = { IsKept };
}

/// Returns an entry that is stored, made from its short form or borrowed.
fn found(kept: Kept, whole: &[Entry]) -> EntryRef<'_>
    requires { Stands (length whole.now) kept }
    ensures { entry_of result ≡ entry_in whole.now kept }
{
    match step_in(kept.event) {
        Some(step) => EntryRef::Made(Entry {
            actor: kept.actor,
            step,
            answer: answer_in(kept.event),
        }),
        None => EntryRef::Lent(&whole[place_in(kept.event)]),
    }
}

/// Appends an entry that is stored in full. There must be space for it.
fn enter_whole(whole: &mut Vec<Entry, Global>, entry: Entry)
    requires { vec_len whole.old < vec_capacity whole.old }
    ensures { whole.new.items ≡ whole.old.items ++ entry ∷ [] }
{
    whole.push_reserved(entry);
}

impl History {
    /// Returns a history without entries. It takes no memory.
    pub fn new(alloc: Global) -> History
        ensures { result.entries ≡ [] }
    {
        History {
            kept: Blocks::new(alloc),
            whole: Vec::new(alloc),
        }
    }

    /// Returns the number of entries: less than 2^63.
    #[inline(always)]
    pub fn len(&self) -> usize
        ensures value { result ≡ length self.now.entries }
        ensures range { result < 2 ^ 63 }
    {
        self.kept.len()
    }

    /// Returns whether there are no entries.
    pub fn is_empty(&self) -> bool
        ensures { result ≡ nat_eq (length self.now.entries) 0 }
    {
        self.len() == 0
    }

    /// Returns the entry of a number, from 0, if there is one.
    pub fn get(&self, index: usize) -> Option<EntryRef<'_>>
        ensures { option_map entry_of result ≡ slice_get self.now.entries index }
    {
        match self.kept.get(index) {
            None => None,
            Some(kept) => Some(found(kept, &self.whole)),
        }
    }

    /// Allocates space for one more entry. Fails only if out of memory.
    #[inline(always)]
    pub fn reserve(&mut self) -> Result<(), AllocError>
        ensures entries { self.new.entries ≡ self.old.entries }
        ensures room { OnOk result (self.new.has_room ≡ true) }
    {
        self.kept.reserve()?;
        self.whole.reserve(1)
    }

    /// Appends an accepted step of an actor with its answer. There must be space for it.
    #[inline(always)]
    pub fn enter(&mut self, actor: Actor, step: Step, answer: Answer)
        requires { self.old.has_room ≡ true }
        ensures { self.new.entries ≡ self.old.entries ++ record { actor = actor; step = step; answer = answer } ∷ [] }
    {
        match short_event(&step, answer) {
            Some(event) => self.kept.push(Kept { actor, event }),
            None => {
                let place = self.whole.len();
                let event = Event::Whole(place);
                self.kept.push(Kept { actor, event });
                enter_whole(
                    &mut self.whole,
                    Entry {
                        actor,
                        step,
                        answer,
                    },
                );
            }
        }
    }
}

impl fmt::Debug for History {
    /// Writes the number of entries, and none of them: a recorded heap may have a million.
    fn fmt<W: fmt::Write>(&self, f: &mut fmt::Formatter<W>) -> fmt::Result {
        f.debug_struct("History")
            .field("len", &self.len())
            .finish_non_exhaustive()
    }
}
