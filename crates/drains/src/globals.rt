//! Marks globals, one after another.

ghost use Rattle.std.specs.Prelude.{◌≡◌, ◌<◌, ◌≤◌, ◌^◌, true, length, slice_get};
ghost use Rattle.model.specs.References.{global_of};
ghost use Rattle.model.specs.Scans.{with_marked_global, is_todo_in};
ghost use Rattle.drains.specs.Drains.{IsReady, HasDrained, NoneTodo, with_global_done};

use heap::{Heap, RawCollectorEdits};

/// Returns whether a global is grey: still to be marked.
fn is_todo(heap: &Heap, number: u32) -> bool
    ensures { result ≡ is_todo_in (slice_get heap.now.globals number) }
{
    match heap.globals().get(number as usize) {
        None => false,
        Some(global) => global.todo,
    }
}

/// Marks the word of a global, and writes it back.
#[tactic(auto, unfolding(model::specs::Scans::with_marked_global, model::specs::Marks::with_mark))]
fn mark_global(heap: &mut Heap, number: u32)
    ensures { heap.new ≡ with_marked_global heap.old number (global_of heap.old number) }
{
    let word = heap.global(number);
    let marked = heap.marked_word(word);
    heap.set_mark(word);
    heap.set_marked_global(number, marked);
}

/// Marks a global, if it is grey.
#[tactic(auto, unfolding(crate::specs::Drains::with_global_done))]
fn end_global(heap: &mut Heap, number: u32)
    ensures { heap.new ≡ with_global_done heap.old number }
{
    if is_todo(heap, number) {
        mark_global(heap, number);
    }
}

/// Returns how many globals there are.
fn global_count(heap: &Heap) -> u32
    ensures { result ≡ length heap.now.globals }
{
    heap.law();
    heap.globals().len() as u32
}

/// Marks all grey globals. It is done by a worker that is ready.
pub fn mark_globals(heap: &mut Heap, worker: u32)
    requires { IsReady heap.old worker }
    ensures drained { HasDrained heap.old worker 0 heap.new }
    ensures none { NoneTodo heap.new (length heap.new.globals) }
{
    let count = global_count(heap);
    for number in 0..count {
        heap.law();
        end_global(heap, number);
    }
}
