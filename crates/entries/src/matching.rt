//! Lists compared with an actor's part of a history.

ghost use Rattle.std.specs.Prelude.{◌≡◌, ◌≢◌, ◌<◌, ◌≤◌, ◌+◌, ◌++◌, ◌∷◌, [], Some, length, slice_get};
ghost use Rattle.std.specs.Prelude.{IfOk, IfSome, OnOk, MatchBool, MatchOption};
ghost use Rattle.entries.specs.Parts.{part_of};
ghost use Rattle.entries.specs.Passing.{HasPartTo, Passes};

use crate::actors::is_same;
use crate::entry::Entry;
use crate::history::History;
use crate::steps::{again, are_same};
use model::Actor;
use std::alloc::{AllocError, Global};

/// Returns whether two entries are equal.
#[tactic(auto, using(crate::proofs::Entries::same_entry, crate::proofs::Entries::other_actor, crate::proofs::Entries::other_step, crate::proofs::Entries::other_answer))]
fn is_entry(left: &Entry, right: &Entry) -> bool
    ensures { MatchBool result (left.now ≡ right.now) (left.now ≢ right.now) }
{
    is_same(left.actor, right.actor)
        && left.answer == right.answer
        && are_same(&left.step, &right.step)
}

/// Returns whether a list has an entry at a place.
#[tactic(auto, using(crate::proofs::Entries::here, crate::proofs::Entries::another, crate::proofs::Entries::past))]
fn has_at(list: &History, place: usize, entry: &Entry) -> bool
    ensures { MatchBool result (slice_get list.now.entries place ≡ Some entry.now)
        (slice_get list.now.entries place ≢ Some entry.now) }
{
    match list.get(place) {
        Some(found) => is_entry(found.entry(), entry),
        None => false,
    }
}

/// Returns the place in a list after one more entry of the history: the next one if the entry is the actor's and the
/// list has it there; the same one if it is another actor's; `None` if the list has another entry there.
fn passed(list: &History, place: usize, actor: Actor, entry: &Entry) -> Option<usize>
    requires { place ≤ length list.now.entries }
    ensures { Passes list.now.entries place actor entry.now result }
{
    let _ = list.len();
    if !is_same(entry.actor, actor) {
        return Some(place);
    }
    if has_at(list, place, entry) {
        Some(place + 1)
    } else {
        None
    }
}

/// Returns the place in a list after the actor's entries up to a number of the history and with it, by the place
/// before that; `None` if the list differs.
fn next_place(
    list: &History,
    place: usize,
    actor: Actor,
    history: &History,
    index: usize,
) -> Option<usize>
    requires there { index < length history.now.entries }
    requires before { HasPartTo list.now.entries place actor history.now.entries index }
    ensures { MatchOption result (list.now.entries ≢ part_of actor history.now.entries)
        (λ next. HasPartTo list.now.entries next actor history.now.entries (index + 1)) }
{
    match history.get(index) {
        Some(found) => passed(list, place, actor, found.entry()),
        None => unreachable!(),
    }
}

/// Returns whether a list is an actor's part of a history, in order. It allocates nothing.
#[tactic(auto, using(crate::proofs::Parts::whole, crate::proofs::Parts::too_long))]
pub fn is_part(list: &History, actor: Actor, history: &History) -> bool
    ensures { MatchBool result (list.now.entries ≡ part_of actor history.now.entries)
        (list.now.entries ≢ part_of actor history.now.entries) }
{
    let mut place = 0;
    for index in 0..history.len() {
        match next_place(list, place, actor, history, index) {
            Some(next) => place = next,
            None => return false,
        }
    }
    place == list.len()
}

/// Returns the actor of a history's entry, by its number from 0, which must exist.
pub fn actor_at(history: &History, index: usize) -> Actor
    requires { index < length history.now.entries }
    ensures { IfSome (slice_get history.now.entries index) (λ e. result ≡ e.actor) }
{
    match history.get(index) {
        Some(found) => found.entry().actor,
        None => unreachable!(),
    }
}

/// Appends a copy of an entry to a list. Fails only if out of memory.
fn enter_again(alloc: Global, list: &mut History, entry: &Entry) -> Result<(), AllocError>
    ensures { OnOk result (list.new.entries ≡ list.old.entries ++ entry.now ∷ []) }
{
    let step = again(alloc, &entry.step)?;
    list.reserve()?;
    list.enter(entry.actor, step, entry.answer);
    Ok(())
}

/// Appends a copy of an entry to a list if it is the actor's. Fails only if out of memory.
#[tactic(auto, using(crate::proofs::Parts::one_kept, crate::proofs::Parts::one_passed))]
fn enter_own(
    alloc: Global,
    list: &mut History,
    actor: Actor,
    entry: &Entry,
) -> Result<(), AllocError>
    ensures { OnOk result (list.new.entries ≡ list.old.entries ++ part_of actor (entry.now ∷ [])) }
{
    if is_same(entry.actor, actor) {
        return enter_again(alloc, list, entry);
    }
    Ok(())
}

/// Appends a copy of a history's entry, by its number, to a list if it is the actor's. Fails only if out of memory.
fn enter_at(
    alloc: Global,
    list: &mut History,
    actor: Actor,
    history: &History,
    index: usize,
) -> Result<(), AllocError>
    requires there { index < length history.now.entries }
    ensures { OnOk result (IfSome (slice_get history.now.entries index)
        (λ e. list.new.entries ≡ list.old.entries ++ part_of actor (e ∷ []))) }
{
    match history.get(index) {
        Some(found) => enter_own(alloc, list, actor, found.entry()),
        None => unreachable!(),
    }
}

/// Returns an actor's part of a history, in order. Fails only if out of memory.
#[tactic(auto, using(crate::proofs::Parts::part_whole))]
pub fn part(alloc: Global, actor: Actor, history: &History) -> Result<History, AllocError>
    ensures { IfOk result (λ list. list.entries ≡ part_of actor history.now.entries) }
{
    let mut list = History::new(alloc);
    for index in 0..history.len() {
        enter_at(alloc, &mut list, actor, history, index)?;
    }
    Ok(list)
}
