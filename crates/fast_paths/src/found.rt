//! Steps on an object that was found: several of them with one lookup of the object. In a heap in which each object
//! that a register names lies completely on its page, neither its layout nor its page's end is tested again.

ghost use Rattle.std.specs.Prelude.{◌≡◌, ◌≢◌, ◌+◌, ◌%◌, ◌^◌, ◌<◌, IfSome, Some, true};
ghost use Rattle.model.specs.References.{read_reference};
ghost use Rattle.model.specs.Stores.{word_at};
ghost use Rattle.model.specs.declared.steps.Step.TheVariants as steps;
ghost use Rattle.page.specs.Whole.{AreWhole, IsRecorded};
ghost use Rattle.heap.specs.AtOnce.{IsOnFrame, IsOpenTo};
ghost use Rattle.fast_paths.specs.AtOnce.{GivesDatum, IsQuiet, MayDoAtOnce, MayLoadAtOnce, NamesHeader};
ghost use Rattle.fast_paths.specs.AtOnce.{SourceAtOnce, UsesAtOnce};
ghost use Rattle.fast_paths.specs.Found.{FindsObject};

use crate::at_once::{held_at_once, mark_is_due};
use crate::words::Spot;
use heap::Heap;
use layout::{Layout, layout_of};
use refword::{Word, number_of_bits};

/// An object that a thread may use: its place and its layout.
#[derive(Clone, Copy, Debug)]
pub struct FoundObject {
    /// Its address, from 1 to 2^40 - 1.
    address: u64,
    /// The number of its page's frame.
    frame: u32,
    /// Its layout.
    layout: Layout,
}

/// Returns the object that a register of a thread names, by their numbers from 0, if the thread runs, its barrier
/// is closed, and it may use the object.
#[inline(always)]
pub fn find_object(heap: &Heap, thread: u32, register: u32) -> Option<FoundObject>
    requires { AreWhole heap.now }
    ensures { IfSome result (FindsObject heap.now thread register) }
{
    heap.law();
    let Spot { address, frame } = find_spot(heap, thread, register)?;
    let memory = heap.memory();
    let words = memory.words_on(frame, address)?;
    let header = words[memory.offset_on(address)];
    let layout = heap.config().layouts.as_slice()[layout_of(header) as usize];
    Some(FoundObject {
        address,
        frame,
        layout,
    })
}

/// Returns the place of that object.
#[inline(always)]
fn find_spot(heap: &Heap, thread: u32, register: u32) -> Option<Spot>
    requires { AreWhole heap.now }
    ensures uses { IfSome result (λ s. UsesAtOnce heap.now thread register s.address) }
    ensures frame { IfSome result (λ s. IsOnFrame heap.now s.address s.frame) }
{
    let word = held_at_once(heap, thread, register)?;
    let address = word.number();
    let frame = heap.recorded_frame(address)?;
    Some(Spot { address, frame })
}

/// Returns whether a word is null, or on a page that has memory and isn't protected, as `is_free` does.
#[inline(always)]
fn is_usable(heap: &Heap, word: Word) -> bool
    requires { IfSome word (λ v. IsRecorded heap.now.store v.0) }
    ensures { result ≡ true → IfSome word (λ v. IsOpenTo heap.now v.0) }
{
    if word.is_null() {
        return true;
    }
    heap.recorded_frame(word.number()).is_some()
}

/// Returns the word in a register of a thread, by their numbers from 0, if it is null or may be used.
#[inline(always)]
fn find_source(heap: &Heap, thread: u32, register: u32) -> Option<Word>
    requires { AreWhole heap.now }
    ensures { IfSome result (SourceAtOnce heap.now thread register) }
{
    heap.law();
    let record = heap.threads().get(thread as usize)?;
    let word = record.find_register(register)?;
    if !is_usable(heap, word) {
        return None;
    }
    Some(word)
}

/// Returns the header of an object that was found, which a register of the thread names.
#[inline(always)]
pub fn header_found(heap: &Heap, found: FoundObject, thread: u32, register: u32) -> Option<u64>
    requires { FindsObject heap.now thread register found }
    ensures { IfSome result (NamesHeader heap.now thread register) }
{
    let header = word_of(heap, found, 0)?;
    Some(header)
}

/// Returns the word of these bits, if it is null, or no trap is due for it, whichever thread loads it: it is on a
/// page that has memory and isn't protected, and needs no marking.
#[inline(always)]
fn find_quiet_word(heap: &Heap, bits: u64) -> Option<Word>
    requires { IsRecorded heap.now.store (bits % 2 ^ 63) }
    ensures word { IfSome result (λ w. w ≡ read_reference bits) }
    ensures quiet { IfSome result (IsQuiet heap.now) }
{
    if bits == 0 {
        return Some(Word::null());
    }
    let _frame = heap.recorded_frame(number_of_bits(bits))?;
    let word = Word::of_bits(bits);
    if mark_is_due(heap, word) {
        return None;
    }
    Some(word)
}

/// Returns the word of an object that was found, `ahead` words after its header.
#[inline(always)]
fn word_of(heap: &Heap, found: FoundObject, ahead: usize) -> Option<u64>
    requires frame { IsOnFrame heap.now found.address found.frame }
    requires within { found.address % heap.now.store.words + ahead < heap.now.store.words }
    ensures { IfSome result (λ v. word_at heap.now.store (found.address + ahead) ≡ Some v) }
{
    heap.law();
    let memory = heap.memory();
    let words = memory.words_on(found.frame, found.address)?;
    Some(words[memory.offset_on(found.address) + ahead])
}

/// Loads a reference of an object that was found into a register, completely, if no test rejects it and no trap
/// is due: it then does what `Load` and `Finish` do, and returns true. Else nothing is done.
#[inline(always)]
pub fn load_found(
    heap: &mut Heap,
    found: FoundObject,
    thread: u32,
    target: u32,
    object: u32,
    field: u32,
) -> bool
    requires whole { AreWhole heap.old }
    requires found { FindsObject heap.old thread object found }
    ensures loads { MayLoadAtOnce result heap.old thread (steps.Load target object field) heap.new }
    ensures found { target ≢ object → FindsObject heap.new thread object found }
{
    heap.law();
    if field >= u32::from(found.layout.refs) {
        return false;
    }
    let Some(_former) = held_at_once(heap, thread, target) else {
        return false;
    };
    let Some(bits) = word_of(heap, found, 1 + field as usize) else {
        return false;
    };
    let Some(word) = find_quiet_word(heap, bits) else {
        return false;
    };
    heap.raw_read_into(thread, target, word);
    true
}

/// Returns a data word of an object that was found, as `datum_at_once` does.
#[inline(always)]
pub fn datum_found(
    heap: &Heap,
    found: FoundObject,
    thread: u32,
    object: u32,
    index: u32,
) -> Option<u64>
    requires { FindsObject heap.now thread object found }
    ensures { IfSome result (GivesDatum heap.now thread object index) }
{
    let layout = found.layout;
    if index >= u32::from(layout.nums) {
        return None;
    }
    let value = word_of(heap, found, 1 + usize::from(layout.refs) + index as usize)?;
    Some(value)
}

/// Stores a register's word in a reference field of an object that was found, as `store_at_once` does.
#[inline(always)]
pub fn store_found(
    heap: &mut Heap,
    found: FoundObject,
    thread: u32,
    object: u32,
    field: u32,
    source: u32,
) -> bool
    requires whole { AreWhole heap.old }
    requires found { FindsObject heap.old thread object found }
    ensures does { MayDoAtOnce result heap.old thread (steps.Store object field source) heap.new }
    ensures found { FindsObject heap.new thread object found }
{
    heap.law();
    if field >= u32::from(found.layout.refs) {
        return false;
    }
    let Some(word) = find_source(heap, thread, source) else {
        return false;
    };
    let spot = Spot {
        address: found.address,
        frame: found.frame,
    };
    heap.raw_set_word_at(spot.frame, spot.address, 1 + u64::from(field), word.bits())
}

/// Writes a data word of an object that was found, as `set_datum_at_once` does.
#[inline(always)]
pub fn set_datum_found(
    heap: &mut Heap,
    found: FoundObject,
    thread: u32,
    object: u32,
    index: u32,
    value: u64,
) -> bool
    requires { FindsObject heap.old thread object found }
    ensures does { MayDoAtOnce result heap.old thread (steps.SetDatum object index value) heap.new }
    ensures found { FindsObject heap.new thread object found }
{
    heap.law();
    let layout = found.layout;
    if index >= u32::from(layout.nums) {
        return false;
    }
    let ahead = 1 + u64::from(layout.refs) + u64::from(index);
    let spot = Spot {
        address: found.address,
        frame: found.frame,
    };
    heap.raw_set_word_at(spot.frame, spot.address, ahead, value)
}
