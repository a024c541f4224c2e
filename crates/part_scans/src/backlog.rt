//! Objects of a part that wait to be scanned, and those that are grey.

ghost use Rattle.std.specs.Prelude.{◌≡◌, ◌<◌, ◌^◌, [], IfSome, IfNone, true};
ghost use Rattle.part_scans.specs.Scans.{is_grey_own, is_marked_own};
ghost use Rattle.part_scans.specs.Waiting.{AreWaiting, IsNext, all_grey, grey_at, places_of, place_of};

use crate::scene::Scene;
use arrayvec::ArrayVec;
use page::OwnedPage;

/// The addresses of objects of own pages that were marked and will be scanned, and that aren't grey yet: 64 at most.
/// The newest one is scanned first, so that mostly no bit is set for an object and cleared again.
pub(crate) type Waiting = ArrayVec<u64, 64>;

/// A place of a part: a page, by its index in the part, and an offset there.
#[derive(Clone, Copy)]
pub(crate) struct Place {
    pub index: usize,
    pub offset: usize,
}

/// Returns the place of an address.
#[inline(always)]
fn place_of(scene: &Scene<'_>, first: usize, number: u64) -> Place
    ensures place { (result.index, result.offset) ≡ place_of scene.now first number }
    ensures range { result.offset < 2 ^ 63 }
{
    Place {
        index: (scene.page_of(number) as usize)
            .saturating_sub(1)
            .saturating_sub(first),
        offset: scene.offset_of(number) as usize,
    }
}

/// Makes the object at a place grey, if there is such a page.
#[tactic(auto, unfolding(crate::specs::Waiting::grey_on))]
pub(crate) fn grey_at(pages: &mut [OwnedPage], index: usize, offset: usize)
    ensures { pages.new ≡ grey_at pages.old (index, offset) }
{
    if index < pages.len() {
        let page = &mut pages[index];
        page.grey.put(offset, true);
    }
}

/// Makes all objects that wait grey.
pub(crate) fn grey_all(scene: &Scene<'_>, first: usize, pages: &mut [OwnedPage], waiting: &Waiting)
    ensures { pages.new ≡ all_grey pages.old (places_of scene.now first waiting.now.items) }
{
    for index in 0..waiting.len() {
        let place = place_of(scene, first, waiting[index]);
        grey_at(pages, place.index, place.offset);
    }
}

/// Returns the next place from a cursor on at which an object is grey, and moves the cursor past it.
fn searched(pages: &[OwnedPage], cursor: &mut Place) -> Option<Place>
    ensures { IfSome result (λ p. p.offset < 2 ^ 63) }
{
    for index in cursor.index..pages.len() {
        let page = &pages[index];
        if let Some(place) = page.grey.next_from(cursor.offset) {
            let offset = place as usize;
            *cursor = Place {
                index,
                offset: offset + 1,
            };
            return Some(Place { index, offset });
        }
        cursor.offset = 0;
    }
    cursor.index = pages.len();
    None
}

/// Returns whether the object at a place is marked and grey.
#[inline(always)]
fn is_pending(pages: &[OwnedPage], index: usize, offset: usize) -> bool
    ensures grey { result ≡ true → is_grey_own pages.now index offset ≡ true }
    ensures marked { result ≡ true → is_marked_own pages.now index offset ≡ true }
{
    match pages.get(index) {
        None => false,
        Some(page) => page.grey.test(offset) && page.marked.test(offset),
    }
}

/// Returns the place of the next grey object from a cursor on, and moves the cursor past it. An object that is grey but
/// not marked, which never occurs, ends the search.
fn grey_next(pages: &[OwnedPage], cursor: &mut Place) -> Option<Place>
    ensures grey { IfSome result (λ p. is_grey_own pages.now p.index p.offset ≡ true) }
    ensures marked { IfSome result (λ p. is_marked_own pages.now p.index p.offset ≡ true) }
    ensures range { IfSome result (λ p. p.offset < 2 ^ 63) }
{
    let place = searched(pages, cursor)?;
    if !is_pending(pages, place.index, place.offset) {
        return None;
    }
    Some(place)
}

/// Returns the place that is looked at next: that of the object which waited last, or of a grey one if none waits.
#[inline(always)]
pub(crate) fn next_place(
    scene: &Scene<'_>,
    first: usize,
    pages: &[OwnedPage],
    waiting: &mut Waiting,
    cursor: &mut Place,
) -> Option<Place>
    requires { AreWaiting pages.now (places_of scene.now first waiting.old.items) }
    ensures next { IfSome result (λ p. IsNext scene.now first pages.now waiting.old.items (p.index, p.offset)
        waiting.new.items) }
    ensures none { IfNone result (waiting.old.items ≡ []) }
    ensures range { IfSome result (λ p. p.offset < 2 ^ 63) }
{
    match waiting.pop() {
        None => grey_next(pages, cursor),
        Some(number) => Some(place_of(scene, first, number)),
    }
}
