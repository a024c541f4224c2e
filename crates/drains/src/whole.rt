//! Scans an object completely: does what `Pick` and its `ScanField` steps do, one after the other.

ghost use Rattle.std.specs.Prelude.{◌≡◌, ◌+◌, ◌/◌, ◌%◌, ◌<◌, ◌^◌, IfSome, Some};
ghost use Rattle.std.specs.Prelude.{reverse};
ghost use Rattle.refword.specs.Words.{address_in};
ghost use Rattle.model.specs.Marks.{resolve};
ghost use Rattle.model.specs.References.{read_reference};
ghost use Rattle.heap.specs.AtOnce.{IsOnFrame};
ghost use Rattle.drains.specs.Drains.{refs_at, marked_field, marked_fields, scanned};
ghost use Rattle.drains.specs.Waiting.{all_noted, AreWaiting, WaitBeside};
ghost use Rattle.heap.specs.Marking.{marked_at};
ghost use Rattle.model.specs.References.{field_address};

use crate::backlog::{Waiting, wait};
use heap::{Heap, read_reference};
use layout::layout_of;
use refword::{Addr, Word};

/// Returns how many references the object at an address has.
#[inline(always)]
#[tactic(auto, unfolding(crate::specs::Drains::refs_at))]
fn refs_at(heap: &Heap, address: Addr) -> u32
    ensures value { result ≡ refs_at heap.now address }
    ensures range { result < 2 ^ 16 }
{
    match heap.layout_at(address) {
        None => 0,
        Some(layout) => u32::from(layout.refs),
    }
}

/// Marks the object at an address, by its page and its offset there, while another one is scanned. If it wasn't
/// marked before, it waits, or becomes grey.
#[inline(always)]
fn mark(heap: &mut Heap, address: Addr, target: Addr, page: u64, offset: u32, waiting: &mut Waiting)
    requires page { page ≡ target / heap.old.store.words }
    requires offset { offset ≡ target % heap.old.store.words }
    requires waits { WaitBeside heap.old address (reverse waiting.old.items) }
    ensures marks { all_noted heap.new (reverse waiting.new.items)
        ≡ marked_at (all_noted heap.old (reverse waiting.old.items)) target }
    ensures waits { WaitBeside heap.new address (reverse waiting.new.items) }
{
    if !heap.raw_mark(target, page, offset) {
        return;
    }
    wait(heap, address, target, waiting);
}

/// Marks the word of a reference, and writes it back, unless its bits are 0: null, and written so.
#[cold]
#[inline(never)]
fn mark_field(heap: &mut Heap, address: Addr, index: u32, waiting: &mut Waiting)
    requires few { index < 2 ^ 16 }
    requires waits { WaitBeside heap.old address (reverse waiting.old.items) }
    ensures field { all_noted heap.new (reverse waiting.new.items)
        ≡ marked_field (all_noted heap.old (reverse waiting.old.items)) (field_address address index) }
    ensures waits { WaitBeside heap.new address (reverse waiting.new.items) }
{
    let ahead = 1 + u64::from(index);
    let Some(bits) = heap.memory().word_behind(address, ahead) else {
        return;
    };
    if bits == 0 {
        return;
    }
    let word = read_reference(bits);
    let Some(named) = word.addr() else {
        heap.raw_set_word_behind(address, ahead, Word::null().bits());
        return;
    };
    let target = heap.resolve(named);
    let marked = Word::of(target, heap.nmt());
    let (page, offset) = (
        heap.memory().page_of(target),
        heap.memory().offset_of(target),
    );
    heap.raw_set_word_behind(address, ahead, marked.bits());
    mark(heap, address, target, page, offset, waiting);
}

/// Returns the address that a reference's bits name, if its object has no entry in a forwarding table.
#[inline(always)]
#[tactic(auto, unfolding(model::specs::Marks::resolve))]
fn unmoved(heap: &Heap, bits: u64) -> Option<Addr>
    ensures named { IfSome result (λ a. address_in (read_reference bits) ≡ Some a) }
    ensures unmoved { IfSome result (λ a. resolve heap.now a ≡ a) }
{
    let address = read_reference(bits).addr()?;
    if heap.has_entry(address) {
        return None;
    }
    Some(address)
}

/// Marks the word of a reference as `mark_field` does, for an object on a page that has memory and isn't protected,
/// by the page's frame. The word is written before its object is marked: so the page and the offset of that object,
/// and the place of the word, are found once.
#[inline(always)]
fn mark_field_on(heap: &mut Heap, frame: u32, address: Addr, index: u32, waiting: &mut Waiting)
    requires few { index < 2 ^ 16 }
    requires frame { IsOnFrame heap.old address frame }
    requires waits { WaitBeside heap.old address (reverse waiting.old.items) }
    ensures field { all_noted heap.new (reverse waiting.new.items)
        ≡ marked_field (all_noted heap.old (reverse waiting.old.items)) (field_address address index) }
    ensures waits { WaitBeside heap.new address (reverse waiting.new.items) }
{
    let ahead = 1 + u64::from(index);
    let Some(bits) = heap.memory().word_on(frame, address.number(), ahead) else {
        mark_field(heap, address, index, waiting);
        return;
    };
    if bits == 0 {
        return;
    }
    let Some(target) = unmoved(heap, bits) else {
        mark_field(heap, address, index, waiting);
        return;
    };
    let marked = Word::of(target, heap.nmt());
    let (page, offset) = (
        heap.memory().page_of(target),
        heap.memory().offset_of(target),
    );
    if !heap.raw_set_word_on(frame, address, ahead, marked.bits()) {
        mark_field(heap, address, index, waiting);
        return;
    }
    mark(heap, address, target, page, offset, waiting);
}

/// Marks the words of the first `refs` references, and writes them back, whatever page the object is on.
fn mark_fields_by_record(heap: &mut Heap, address: Addr, refs: u32, waiting: &mut Waiting)
    requires few { refs < 2 ^ 16 }
    requires waits { WaitBeside heap.old address (reverse waiting.old.items) }
    ensures fields { all_noted heap.new (reverse waiting.new.items)
        ≡ marked_fields (all_noted heap.old (reverse waiting.old.items)) address 0 refs }
    ensures waits { WaitBeside heap.new address (reverse waiting.new.items) }
{
    for index in 0..refs {
        mark_field(heap, address, index, waiting);
    }
}

/// Marks the words of the first `refs` references as `mark_fields_by_record` does, for an object on a page that has
/// memory and isn't protected, by the page's frame.
#[inline(always)]
fn mark_fields(heap: &mut Heap, frame: u32, address: Addr, refs: u32, waiting: &mut Waiting)
    requires few { refs < 2 ^ 16 }
    requires frame { IsOnFrame heap.old address frame }
    requires waits { WaitBeside heap.old address (reverse waiting.old.items) }
    ensures fields { all_noted heap.new (reverse waiting.new.items)
        ≡ marked_fields (all_noted heap.old (reverse waiting.old.items)) address 0 refs }
    ensures waits { WaitBeside heap.new address (reverse waiting.new.items) }
{
    for index in 0..refs {
        mark_field_on(heap, frame, address, index, waiting);
    }
}

/// Scans an object as `scan_object` does, whatever page it is on.
#[cold]
#[inline(never)]
fn scan_by_record(heap: &mut Heap, address: Addr, waiting: &mut Waiting) -> u32
    requires { WaitBeside heap.old address (reverse waiting.old.items) }
    ensures scanned { all_noted heap.new (reverse waiting.new.items)
        ≡ scanned (all_noted heap.old (reverse waiting.old.items)) address }
    ensures waits { AreWaiting heap.new.mark heap.new.store.words (reverse waiting.new.items) }
    ensures references { result ≡ refs_at heap.old address }
{
    let refs = refs_at(heap, address);
    mark_fields_by_record(heap, address, refs, waiting);
    heap.raw_clear_todo(address);
    refs
}

/// Returns how many references an object has, by the frame of its page, or `None` if its header isn't found that way.
#[inline(always)]
#[tactic(auto, unfolding(crate::specs::Drains::refs_at, model::specs::Data::layout_at))]
fn refs_on(heap: &Heap, frame: u32, address: Addr) -> Option<u32>
    requires { IsOnFrame heap.now address frame }
    ensures value { IfSome result (λ n. n ≡ refs_at heap.now address) }
    ensures range { IfSome result (λ n. n < 2 ^ 16) }
{
    let header = heap.memory().word_on(frame, address.number(), 0)?;
    let refs = match heap.config().layouts.get(layout_of(header)) {
        None => 0,
        Some(layout) => u32::from(layout.refs),
    };
    Some(refs)
}

/// Scans an object that no worker has, completely, for a worker that has none: the workers stay as they are. Nothing
/// is left to be copied. Returns how many references the object has.
///
/// The object's page is looked up once, if it has memory and isn't protected.
pub fn scan_object(heap: &mut Heap, address: Addr, waiting: &mut Waiting) -> u32
    requires { WaitBeside heap.old address (reverse waiting.old.items) }
    ensures scanned { all_noted heap.new (reverse waiting.new.items)
        ≡ scanned (all_noted heap.old (reverse waiting.old.items)) address }
    ensures waits { AreWaiting heap.new.mark heap.new.store.words (reverse waiting.new.items) }
    ensures references { result ≡ refs_at heap.old address }
{
    let Some(frame) = heap.memory().usable_frame(address.number()) else {
        return scan_by_record(heap, address, waiting);
    };
    let Some(refs) = refs_on(heap, frame, address) else {
        return scan_by_record(heap, address, waiting);
    };
    mark_fields(heap, frame, address, refs, waiting);
    heap.raw_clear_todo(address);
    refs
}
