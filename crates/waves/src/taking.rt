//! What parts have sent to each other is taken in.

ghost use Rattle.std.specs.Prelude.{◌≡◌, ◌≤◌, ◌∷◌, [], get_or, length, true, false};
ghost use Rattle.part_scans.specs.Scans.{all_sent};
ghost use Rattle.waves.specs.Parts.{AreBare, AreSent, sent_to};

use crate::parting::{Notes, new_parts};
use heap::{Heap, Rows};
use page::Part;
use refword::Word;
use std::thread::Threads;

/// With fewer notes, threads aren't worth it.
const MANY: usize = 1 << 13;

/// Takes a note in: marks its object, which becomes grey if it wasn't marked before; or, with the bit set, makes it no
/// longer grey.
#[inline(always)]
fn take_note(heap: &mut Heap, note: Word)
    ensures { heap.new ≡ sent_to heap.old (note ∷ []) }
{
    let Some(address) = note.addr() else {
        return;
    };
    if note.nmt() {
        heap.raw_clear_todo(address);
        return;
    }
    let (page, offset) = (
        heap.memory().page_of(address),
        heap.memory().offset_of(address),
    );
    if heap.raw_mark(address, page, offset) {
        heap.raw_set_todo(address);
    }
}

/// Takes notes in, one after another.
fn take_notes(heap: &mut Heap, notes: &[Word])
    ensures { heap.new ≡ sent_to heap.old notes.now }
{
    for index in 0..notes.len() {
        take_note(heap, notes[index]);
    }
}

/// Takes in what parts have sent, one part after another.
fn take_each(heap: &mut Heap, senders: &[Part])
    ensures { heap.new ≡ sent_to heap.old (all_sent senders.now) }
{
    for index in 0..senders.len() {
        let sender = &senders[index];
        take_notes(heap, &sender.sent);
    }
}

/// Returns whether there is no bitmap of an index.
#[tactic(auto, using(crate::proofs::Bare::none_bare, crate::proofs::Bare::some_bare))]
fn is_bare(rows: &Rows, index: usize) -> bool
    ensures { result ≡ true → get_or rows.now index [] ≡ [] }
{
    match rows.get(index) {
        None => true,
        Some(row) => row.len() == 0,
    }
}

/// Returns whether no page from that of a record's index on has a bitmap.
fn are_bare(heap: &Heap, from: usize) -> bool
    ensures { result ≡ true → AreBare heap.now from }
{
    heap.law();
    let pages = heap.memory().pages().len();
    for index in from..pages {
        if !is_bare(heap.mark(), index) || !is_bare(heap.todo().rows(), index) {
            return false;
        }
    }
    true
}

/// Has threads take in what parts have sent: each one what leads to its own share of the first `used` pages, if no
/// other page has a bitmap. Returns whether they did; if out of memory they do nothing.
fn take_by<R: Threads + Sync>(rt: &R, heap: &mut Heap, senders: &[Part], used: usize) -> bool
    requires used { used ≤ length heap.old.store.pages }
    requires sent { AreSent heap.old.store.words (all_sent senders.now) }
    ensures taken { result ≡ true → heap.new ≡ sent_to heap.old (all_sent senders.now) }
    ensures stays { result ≡ false → heap.new ≡ heap.old }
{
    heap.law();
    if !are_bare(heap, used) {
        return false;
    }
    let mut notes = Notes::new(heap.allocator(), 0);
    let Ok(parts) = new_parts(heap.allocator(), senders.len(), used, &mut notes) else {
        return false;
    };
    let mut parts = parts;
    heap.raw_scan_by(rt, &mut parts, senders, 0);
    true
}

/// Returns whether parts have sent so much that threads are worth it.
fn are_many(senders: &[Part]) -> bool {
    let mut notes = 0usize;
    for index in 0..senders.len() {
        let sender = &senders[index];
        notes = notes.saturating_add(sender.sent.len());
    }
    notes >= MANY
}

/// Takes in what parts have sent to each other's pages, which are among the first `used` ones: on as many threads, if
/// it is much.
pub(crate) fn take_sent<R: Threads + Sync>(rt: &R, heap: &mut Heap, senders: &[Part], used: usize)
    requires used { used ≤ length heap.old.store.pages }
    requires sent { AreSent heap.old.store.words (all_sent senders.now) }
    ensures { heap.new ≡ sent_to heap.old (all_sent senders.now) }
{
    if are_many(senders) && take_by(rt, heap, senders, used) {
        return;
    }
    take_each(heap, senders);
}
