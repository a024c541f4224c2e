//! Opening targets: pages that receive copies, in which nobody else allocates.

ghost use Rattle.std.specs.Prelude.{◌≡◌, ◌+◌, ◌<◌, ◌≤◌, ◌++◌, ◌∷◌, [], ℕ, suc, length, vec_len, vec_capacity};
ghost use Rattle.std.specs.Prelude.{IfOk};
ghost use Rattle.page_rows.specs.Opening.{IsBlank};
ghost use Rattle.model.specs.Owning.{Each};
ghost use Rattle.model.specs.Protections.{free_count, unused_count, with_targets};
ghost use Rattle.relocate.specs.Targets.{AreBlank, KeepsClosed};

use heap::{Heap, PageMemory};
use std::alloc::AllocError;

/// Returns memory for `count` targets. Fails only if out of memory.
pub(crate) fn blank_targets(heap: &mut Heap, count: usize) -> Result<Vec<PageMemory>, AllocError>
    ensures blank { IfOk result (λ v. AreBlank heap.old.store.words count v.items) }
    ensures stays { heap.new ≡ heap.old }
{
    let mut memory = Vec::with_capacity(heap.allocator(), count)?;
    for _ in 0..count {
        memory.push(heap.raw_blank()?)?;
    }
    Ok(memory)
}

/// Takes the memory of one target from a list.
fn take_blank(memory: &mut Vec<PageMemory>) -> PageMemory
    requires { 0 < length memory.old.items }
    ensures { memory.old.items ≡ memory.new.items ++ result ∷ [] }
{
    memory.pop().unwrap()
}

/// Opens the next target on this memory, and returns its page's number, from 1. A frame must be free and a page
/// unused.
fn open_next(heap: &mut Heap, memory: PageMemory) -> u32
    requires frame { 0 < free_count heap.old.store }
    requires page { 0 < unused_count heap.old.store }
    requires blank { IsBlank heap.old.store.words memory }
    ensures first { (k : ℕ) → with_targets (suc k) heap.old
        ≡ ((with_targets k heap.new).0, result ∷ (with_targets k heap.new).1) }
    ensures frames { free_count heap.new.store + 1 ≡ free_count heap.old.store }
    ensures pages { unused_count heap.new.store + 1 ≡ unused_count heap.old.store }
    ensures low { 0 < result }
    ensures high { result ≤ heap.old.store.count }
    ensures stays { KeepsClosed heap.old heap.new }
{
    heap.law();
    match heap.raw_open_target(memory) {
        Ok(buffer) => buffer.page,
        Err(_) => unreachable!(),
    }
}

/// Adds a page to a list that has space for it.
fn add(pages: &mut Vec<u32>, page: u32)
    requires { vec_len pages.old < vec_capacity pages.old }
    ensures added { pages.new.items ≡ pages.old.items ++ page ∷ [] }
    ensures room { vec_capacity pages.old ≤ vec_capacity pages.new }
{
    pages.push_reserved(page);
}

/// Opens `count` targets on this memory, and lists their pages' numbers, from 1, in an empty list that has space for
/// them. Frames must be free and pages unused for all.
pub(crate) fn open_targets(
    heap: &mut Heap,
    count: usize,
    memory: &mut Vec<PageMemory>,
    targets: &mut Vec<u32>,
)
    requires blank { AreBlank heap.old.store.words count memory.old.items }
    requires empty { targets.old.items ≡ [] }
    requires room { count ≤ vec_capacity targets.old }
    requires frames { count ≤ free_count heap.old.store }
    requires pages { count ≤ unused_count heap.old.store }
    ensures heap { heap.new ≡ (with_targets count heap.old).0 }
    ensures targets { targets.new.items ≡ (with_targets count heap.old).1 }
    ensures many { length targets.new.items ≡ count }
    ensures low { Each targets.new.items (λ n. 0 < n) }
    ensures high { Each targets.new.items (λ n. n ≤ heap.old.store.count) }
    ensures stays { KeepsClosed heap.old heap.new }
{
    for _ in 0..count {
        let blank = take_blank(memory);
        let page = open_next(heap, blank);
        add(targets, page);
    }
}
