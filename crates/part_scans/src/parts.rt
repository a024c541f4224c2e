//! Scans of a part's objects, one after another.

ghost use Rattle.std.specs.Prelude.{◌≡◌, ◌≤◌, ◌<◌, ◌^◌, IfSome};
ghost use Rattle.part_scans.specs.Scans.{AreScanned, PartScanned, all_sent};

use crate::backlog::{Place, Waiting, grey_all, next_place};
use crate::objects::scan_object;
use crate::scene::Scene;
use crate::taking::take_sent;
use page::{OwnedPage, Part};
use refword::Word;
use std::alloc::Global;
use std::mem;

/// Scans grey objects of pages, at most `most`, one after another, and returns how many.
fn scan_pages(
    scene: &Scene<'_>,
    first: usize,
    pages: &mut [OwnedPage],
    sent: &mut Vec<Word, Global>,
    most: u64,
) -> u64
    ensures scanned { AreScanned scene.now first result pages.old sent.old.items pages.new sent.new.items }
    ensures few { result ≤ most }
{
    let mut waiting = Waiting::new();
    let mut cursor = Place {
        index: 0,
        offset: 0,
    };
    let mut done = 0;
    for _turn in 0..most {
        let Some(place) = next_place(scene, first, pages, &mut waiting, &mut cursor) else {
            return done;
        };
        if scan_object(
            scene,
            first,
            pages,
            sent,
            place.index,
            place.offset,
            &mut waiting,
        )
        .is_some()
        {
            done += 1;
        }
    }
    grey_all(scene, first, pages, &waiting);
    done
}

/// Takes in what other parts have sent to a part: marks the objects that are on its own pages. Then it scans grey
/// objects of the part, at most `most`, and counts them. Those that it marks on its own pages are scanned next; of
/// those on other pages it adds notes, for which it takes no memory: an object whose notes have no space stays grey.
pub fn scan_part(scene: &Scene<'_>, part: &mut Part, senders: &[Part], most: u64)
    ensures scanned { PartScanned scene.now (all_sent senders.now) part.old part.new }
    ensures few { part.new.scanned ≤ most }
{
    take_sent(scene, part.first, &mut part.pages, senders);
    let mut sent = Vec::new(*part.sent.allocator());
    mem::swap(&mut sent, &mut part.sent);
    part.scanned = scan_pages(scene, part.first, &mut part.pages, &mut sent, most);
    mem::swap(&mut sent, &mut part.sent);
}
