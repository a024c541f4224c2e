//! What parts have sent is taken in by the part whose pages it leads to.

ghost use Rattle.std.specs.Prelude.{◌≡◌};
ghost use Rattle.part_scans.specs.Scans.{all_sent, all_taken, mark_own, mark_target};

use crate::marks::mark_on;
use crate::scene::Scene;
use page::{OwnedPage, Part};
use refword::{Addr, Word};

/// Marks the object at an address, if it is on one of these pages.
#[inline(always)]
#[tactic(auto, unfolding(crate::specs::Scans::mark_own))]
fn take_address(scene: &Scene<'_>, first: usize, pages: &mut [OwnedPage], address: Addr)
    ensures { pages.new ≡ mark_own scene.now first pages.old address }
{
    let page = scene.page_of(address.number()) as usize;
    if page <= first || page - 1 - first >= pages.len() {
        return;
    }
    let own = &mut pages[page - 1 - first];
    mark_on(own, scene.offset_of(address.number()) as usize);
}

/// Does the same for the object of a note, if it names one.
#[inline(always)]
fn take_note(scene: &Scene<'_>, first: usize, pages: &mut [OwnedPage], note: Word)
    ensures { pages.new ≡ mark_target scene.now first pages.old note }
{
    let Some(address) = note.addr() else {
        return;
    };
    take_address(scene, first, pages, address);
}

/// Takes notes in, one after another.
fn take_notes(scene: &Scene<'_>, first: usize, pages: &mut [OwnedPage], notes: &[Word])
    ensures { pages.new ≡ all_taken scene.now first pages.old notes.now }
{
    for index in 0..notes.len() {
        take_note(scene, first, pages, notes[index]);
    }
}

/// Takes in what parts have sent, one part after another.
pub(crate) fn take_sent(scene: &Scene<'_>, first: usize, pages: &mut [OwnedPage], senders: &[Part])
    ensures { pages.new ≡ all_taken scene.now first pages.old (all_sent senders.now) }
{
    for index in 0..senders.len() {
        let sender = &senders[index];
        take_notes(scene, first, pages, &sender.sent);
    }
}
