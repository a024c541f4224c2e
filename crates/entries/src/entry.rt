//! Entries.

use model::{Actor, Answer, Step};

/// An accepted step of an actor, with its answer.
#[derive(Debug, Drop)]
pub struct Entry {
    /// The actor that did it.
    pub actor: Actor,
    /// The step.
    pub step: Step,
    /// Its answer.
    pub answer: Answer,
}

/// An entry of a history.
#[derive(Debug, Drop)]
pub enum EntryRef<'a> {
    /// An entry that was made from its short form.
    Made(Entry),
    /// An entry that is stored in full, borrowed.
    Lent(&'a Entry),
}

ghost use Rattle.std.specs.Prelude.{◌≡◌};
ghost use Rattle.entries.specs.Histories.{entry_of};

impl EntryRef<'_> {
    /// Returns the entry.
    pub fn entry(&self) -> &Entry
        ensures { result.now ≡ entry_of self.now }
    {
        match self {
            EntryRef::Made(entry) => entry,
            EntryRef::Lent(entry) => entry,
        }
    }
}
