//! Steps that are done at once if no trap is due: the read barrier's fast path.

ghost use Rattle.std.specs.Prelude.{◌≡◌, true, false, None, IfSome};
ghost use Rattle.heap.specs.AtOnce.{IsOnFrame, IsOpenTo};
ghost use Rattle.fast_paths.specs.AtOnce.{HoldsAtOnce, IsQuiet, mark_is_due};
ghost use Rattle.fast_paths.specs.AtOnce.{GivesDatum, GivesSame, MayDoAtOnce, NamesHeader, SourceAtOnce, UsesAtOnce};
ghost use Rattle.model.specs.declared.steps.Step.TheVariants as steps;

use crate::words::{Spot, datum_on, field_on, word_on};
use heap::Heap;
use refword::Word;

/// Returns whether a mark runs and a word's NMT bit isn't the clean value.
#[inline(always)]
pub(crate) fn mark_is_due(heap: &Heap, word: Word) -> bool
    ensures { result ≡ mark_is_due heap.now word }
{
    if !heap.phase().is_marking() {
        return false;
    }
    word.nmt() != heap.nmt()
}

/// Returns whether a word is null, or on a page that has memory and isn't protected.
#[inline(always)]
fn is_free(heap: &Heap, word: Word) -> bool
    ensures { result ≡ true → IfSome word (λ v. IsOpenTo heap.now v.0) }
{
    if word.is_null() {
        return true;
    }
    heap.frame_at_once(word.number()).is_some()
}

/// Returns whether no trap is due for a word, whichever thread has loaded it: it needs no marking and is on no
/// protected page.
#[inline(always)]
pub(crate) fn is_quiet(heap: &Heap, word: Word) -> bool
    ensures { result ≡ true → IsQuiet heap.now word }
{
    if mark_is_due(heap, word) {
        return false;
    }
    is_free(heap, word)
}

/// Returns the word in a register of a thread, by their numbers from 0, if both exist, the thread runs, and its
/// barrier is closed.
#[inline(always)]
pub(crate) fn held_at_once(heap: &Heap, thread: u32, register: u32) -> Option<Word>
    ensures { IfSome result (HoldsAtOnce heap.now thread register) }
{
    heap.law();
    let record = heap.threads().get(thread as usize)?;
    if record.is_held() {
        return None;
    }
    let held = record.find_register(register)?;
    Some(held)
}

/// Returns the object that a register of a thread names, if the thread may use it. Threads and registers count
/// from 0.
#[inline(always)]
fn object_at_once(heap: &Heap, thread: u32, object: u32) -> Option<Spot>
    ensures uses { IfSome result (λ s. UsesAtOnce heap.now thread object s.address) }
    ensures frame { IfSome result (λ s. IsOnFrame heap.now s.address s.frame) }
{
    let word = held_at_once(heap, thread, object)?;
    let address = word.number();
    let frame = heap.frame_at_once(address)?;
    Some(Spot { address, frame })
}

/// Returns the header of the object that a register of a thread names, by their numbers from 0, if the thread
/// runs, its barrier is closed, and it may use the object.
#[inline(always)]
pub fn header_at_once(heap: &Heap, thread: u32, register: u32) -> Option<u64>
    ensures { IfSome result (NamesHeader heap.now thread register) }
{
    let spot = object_at_once(heap, thread, register)?;
    let header = word_on(heap, &spot, 0)?;
    Some(header)
}

/// Returns a data word of an object, if no test rejects it and it is on the object's page.
#[inline(always)]
pub fn datum_at_once(heap: &Heap, thread: u32, object: u32, index: u32) -> Option<u64>
    ensures { IfSome result (GivesDatum heap.now thread object index) }
{
    let spot = object_at_once(heap, thread, object)?;
    let ahead = datum_on(heap, &spot, index)?;
    let value = word_on(heap, &spot, ahead)?;
    Some(value)
}

/// Returns the word in a register of a thread, by their numbers from 0, if it is null or may be used.
#[inline(always)]
fn source_at_once(heap: &Heap, thread: u32, register: u32) -> Option<Word>
    ensures { IfSome result (SourceAtOnce heap.now thread register) }
{
    heap.law();
    let record = heap.threads().get(thread as usize)?;
    let word = record.find_register(register)?;
    if !is_free(heap, word) {
        return None;
    }
    Some(word)
}

/// Returns whether two registers of a thread name the same object, or are both null, if no test rejects it.
#[inline(always)]
pub fn same_at_once(heap: &Heap, thread: u32, left: u32, right: u32) -> Option<bool>
    ensures { IfSome result (GivesSame heap.now thread left right) }
{
    let _left = held_at_once(heap, thread, left)?;
    let left = source_at_once(heap, thread, left)?;
    let right = source_at_once(heap, thread, right)?;
    let _ = (left.bits(), right.bits());
    Some(left.number() == right.number())
}

/// Stores a register's word in a reference field of an object, if no test rejects it. Returns whether it did;
/// else nothing is done.
#[inline(always)]
pub fn store_at_once(heap: &mut Heap, thread: u32, object: u32, field: u32, source: u32) -> bool
    ensures { MayDoAtOnce result heap.old thread (steps.Store object field source) heap.new }
{
    let Some(spot) = object_at_once(heap, thread, object) else {
        return false;
    };
    let Some(word) = source_at_once(heap, thread, source) else {
        return false;
    };
    let Some(ahead) = field_on(heap, &spot, field) else {
        return false;
    };
    heap.raw_set_word_at(spot.frame, spot.address, ahead, word.bits())
}

/// Writes a data word of an object, if no test rejects it. Returns whether it did; else nothing is done.
#[inline(always)]
pub fn set_datum_at_once(heap: &mut Heap, thread: u32, object: u32, index: u32, value: u64) -> bool
    ensures { MayDoAtOnce result heap.old thread (steps.SetDatum object index value) heap.new }
{
    let Some(spot) = object_at_once(heap, thread, object) else {
        return false;
    };
    let Some(ahead) = datum_on(heap, &spot, index) else {
        return false;
    };
    heap.raw_set_word_at(spot.frame, spot.address, ahead, value)
}
