//! Marks of objects, on a part's own pages or by a note for other parts.

ghost use Rattle.std.specs.Prelude.{◌≡◌, ◌≤◌, ◌<◌, ◌+◌, ◌++◌, length, MatchBool};
ghost use Rattle.std.specs.Vec.{vec_len, vec_capacity};
ghost use Rattle.model.specs.References.{read_reference};
ghost use Rattle.part_scans.specs.Scans.{mark_on, mark_own, send_other, mark_target, send_target};
ghost use Rattle.part_scans.specs.Waiting.{Does, WaitsOn};

use crate::backlog::Waiting;
use crate::scene::Scene;
use page::OwnedPage;
use refword::{Addr, Word};
use std::alloc::Global;

/// Marks the object at an offset of a page: it becomes grey, if it wasn't marked before.
#[inline(always)]
#[tactic(auto, unfolding(crate::specs::Scans::mark_on))]
pub(crate) fn mark_on(page: &mut OwnedPage, offset: usize)
    ensures { page.new ≡ mark_on offset page.old }
{
    let was = page.marked.test(offset);
    page.marked.put(offset, true);
    if !was {
        page.grey.put(offset, true);
    }
}

/// Marks the object at an offset of a page, by its address. If it wasn't marked before, it waits if there is space,
/// else it becomes grey. Returns whether it waits.
#[inline(always)]
#[tactic(auto, unfolding(crate::specs::Scans::mark_on))]
fn mark_page(page: &mut OwnedPage, offset: usize, address: Addr, waiting: &mut Waiting) -> bool
    ensures { MatchBool result (WaitsOn offset address page.old waiting.old.items page.new waiting.new.items)
        ((page.new ≡ mark_on offset page.old) × (waiting.new.items ≡ waiting.old.items)) }
{
    let was = page.marked.test(offset);
    page.marked.put(offset, true);
    if was {
        return false;
    }
    if waiting.is_full() || offset >= page.marked.len() || offset >= page.grey.len() {
        page.grey.put(offset, true);
        return false;
    }
    waiting.push(address.number());
    true
}

/// Marks the object at an address, if it is on one of these pages; else notes it for other parts.
#[inline(always)]
#[tactic(auto, unfolding(crate::specs::Scans::mark_own, crate::specs::Scans::send_other))]
pub(crate) fn mark_own(
    scene: &Scene<'_>,
    first: usize,
    pages: &mut [OwnedPage],
    sent: &mut Vec<Word, Global>,
    address: Addr,
    waiting: &mut Waiting,
)
    requires room { vec_len sent.old < vec_capacity sent.old }
    ensures pages { Does scene.now first (λ ps. mark_own scene.now first ps address) pages.old waiting.old.items
        pages.new waiting.new.items }
    ensures many { length pages.new ≡ length pages.old }
    ensures sent { sent.new.items ≡ sent.old.items ++ send_other scene.now first (length pages.old) address }
    ensures len { vec_len sent.new ≤ vec_len sent.old + 1 }
    ensures capacity { vec_capacity sent.new ≡ vec_capacity sent.old }
{
    let page = scene.page_of(address.number()) as usize;
    if page <= first || page - 1 - first >= pages.len() {
        sent.push_reserved(Word::of(address, false));
        return;
    }
    let offset = scene.offset_of(address.number()) as usize;
    let own = &mut pages[page - 1 - first];
    let _waits = mark_page(own, offset, address, waiting);
}

/// Does the same for the object of a reference, if it names one.
#[inline(always)]
pub(crate) fn mark_target(
    scene: &Scene<'_>,
    first: usize,
    pages: &mut [OwnedPage],
    sent: &mut Vec<Word, Global>,
    word: Word,
    waiting: &mut Waiting,
)
    requires room { vec_len sent.old < vec_capacity sent.old }
    ensures pages { Does scene.now first (λ ps. mark_target scene.now first ps word) pages.old waiting.old.items
        pages.new waiting.new.items }
    ensures many { length pages.new ≡ length pages.old }
    ensures sent { sent.new.items ≡ sent.old.items ++ send_target scene.now first (length pages.old) word }
    ensures len { vec_len sent.new ≤ vec_len sent.old + 1 }
    ensures capacity { vec_capacity sent.new ≡ vec_capacity sent.old }
{
    let Some(address) = word.addr() else {
        return;
    };
    mark_own(scene, first, pages, sent, address, waiting);
}
