//! What was measured of pages is kept with them until they are protected: so the choice and the protection read no
//! headers of objects.

ghost use Rattle.std.specs.Prelude.{◌≡◌, IfOk};
ghost use Rattle.std.specs.List.{All};
ghost use Rattle.choosing.specs.Choices.{IsChoice, all_words, words_on};
ghost use Rattle.choosing.specs.Measures.{IsFound, IsOnPage};

use choosing::{Choice, Found, PageObjects, choose_found};
use managed::ManagedHeap;
use std::alloc::{AllocError, Global};
use std::mem;

/// Keeps live objects with their pages, if memory is there for it.
fn keep_objects(heap: &mut ManagedHeap, objects: Vec<PageObjects>)
    requires { All (IsOnPage heap.old) objects.items }
    ensures { heap.new ≡ heap.old }
{
    let mut objects = objects;
    while let Some(page) = objects.pop() {
        let _ = heap.keep_objects(page.page, page.objects);
    }
}

/// Frees the memory of live objects that are kept with these pages.
fn forget_objects(heap: &mut ManagedHeap, pages: &[(u64, u32)])
    ensures { heap.new ≡ heap.old }
{
    for index in 0..pages.len() {
        heap.forget_objects(pages[index].1);
    }
}

/// Returns how many pages were chosen: none, if that failed.
fn chosen_count(choice: &Result<Choice, AllocError>) -> usize {
    match choice {
        Ok(choice) => choice.pages.len(),
        Err(_) => 0,
    }
}

/// Chooses pages of those that were found, as `choose_found` does, and keeps the live objects of the chosen ones with
/// them. The state of the heap stays.
pub(crate) fn choose_kept(
    alloc: Global,
    heap: &mut ManagedHeap,
    percent: u32,
    found: Found,
) -> Result<Choice, AllocError>
    requires { IsFound heap.old percent found }
    ensures pages { IfOk result (λ choice. IsChoice heap.old percent choice.pages.items) }
    ensures words { IfOk result (λ choice. choice.words ≡ words_on heap.old choice.pages.items) }
    ensures live { IfOk result (λ choice. choice.live_words ≡ all_words heap.old) }
    ensures stays { heap.new ≡ heap.old }
{
    let mut found = found;
    let objects = mem::replace(&mut found.objects, Vec::new(alloc));
    keep_objects(heap, objects);
    let choice = choose_found(alloc, heap.heap(), percent, &mut found);
    let chosen = chosen_count(&choice).min(found.pages.len());
    forget_objects(heap, &found.pages[chosen..]);
    choice
}
