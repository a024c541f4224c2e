//! Next fit: object by object, or by the sums of sizes that are kept.

ghost use Rattle.std.specs.Prelude.{◌≡◌, ◌<◌, ◌≤◌, ◌+◌, ◌-◌, ◌^◌, length, map, option_map, IfSome, Some};
ghost use Rattle.std.specs.List.{sum_by};
ghost use Rattle.model.specs.Plans.{offsets_from};
ghost use Rattle.forward.specs.Sizes.{words_before};
ghost use Rattle.choosing.specs.Choices.{live_words, size_on, sizes_on};
ghost use Rattle.choosing.specs.Packings.{has_page_for, pack, pack_if, pack_one, packed_there, first_packing};

use forward::Sizes;
use heap::{Heap, Row};

/// Where the next object would go, and how many targets the objects before it are in.
#[derive(Clone, Copy, Debug, PartialEq, Eq)]
pub struct Packing {
    /// The number of the present target, from 0.
    target: u64,
    /// How many of its words are taken.
    offset: u32,
    /// How many targets there are.
    pub count: u64,
}

/// Returns the packing before all objects.
pub fn first_packing() -> Packing
    ensures { result ≡ first_packing }
{
    Packing {
        target: 0,
        offset: 0,
        count: 0,
    }
}

/// Returns the packing after one more object, of `size` words, in targets of `words` words.
#[tactic(auto, unfolding(crate::specs::Packings::pack_one))]
fn pack_one(words: u32, before: Packing, size: u32) -> Packing
    requires targets { before.target < 2 ^ 34 }
    ensures value { result ≡ pack_one words before size }
    ensures targets { result.target ≤ before.target + 1 }
{
    if u64::from(before.offset) + u64::from(size) <= u64::from(words) {
        Packing {
            target: before.target,
            offset: before.offset + size,
            count: before.target + 1,
        }
    } else {
        Packing {
            target: before.target + 1,
            offset: size,
            count: before.target + 2,
        }
    }
}

/// Returns the greatest number up to which the objects from one on fit in the present target, of `words` words.
fn fitting(words: u32, packing: &Packing, sizes: &Sizes, number: usize) -> usize
    requires { number ≤ length sizes.now }
    ensures low { number ≤ result }
    ensures high { result ≤ length sizes.now }
    ensures fits { number < result
        → packing.now.offset + (words_before sizes.now result - words_before sizes.now number) ≤ words }
    ensures greatest { result < length sizes.now
        → words < packing.now.offset + (words_before sizes.now (result + 1) - words_before sizes.now number) }
{
    if packing.offset > words {
        return number;
    }
    sizes.fitting(number, words - packing.offset)
}

/// Returns the packing after objects of `rest` words together that fit in the present target.
fn pack_rest(packing: Packing, rest: u32) -> Packing
    requires fits { packing.offset + rest < 2 ^ 32 }
    requires targets { packing.target < 2 ^ 34 }
    ensures { result ≡ packed_there packing rest }
{
    Packing {
        target: packing.target,
        offset: packing.offset + rest,
        count: packing.target + 1,
    }
}

/// Returns the packing after the objects from one number up to another, which fit in the present target.
fn pack_fitting(packing: Packing, sizes: &Sizes, from: usize, to: usize) -> Packing
    requires order { from ≤ to }
    requires within { to ≤ length sizes.now }
    requires fits { packing.offset + (words_before sizes.now to - words_before sizes.now from) < 2 ^ 32 }
    requires targets { packing.target < 2 ^ 34 }
    ensures { result ≡ packed_there packing (words_before sizes.now to - words_before sizes.now from) }
{
    pack_rest(packing, sizes.before(to) - sizes.before(from))
}

/// Returns the packing after objects of these sizes, in targets of `words` words. How many fit in a target is found by
/// halving.
fn pack_sizes(words: u32, sizes: &Sizes, before: Packing) -> Packing
    requires targets { before.target ≤ 2 ^ 32 }
    ensures { result ≡ pack words before sizes.now }
{
    let count = sizes.len();
    let mut packing = before;
    let mut number = 0;
    while number < count {
        let next = fitting(words, &packing, sizes, number);
        if next > number {
            packing = pack_fitting(packing, sizes, number, next);
            number = next;
        } else {
            packing = pack_one(words, packing, sizes.size(number));
            number += 1;
        }
    }
    packing
}

/// Returns how many words the objects that are left have, if that is known and they fit in the present target together.
fn fitting_rest(words: u32, packing: &Packing, left: Option<u64>) -> Option<u32>
    ensures left { IfSome result (λ n. left ≡ Some n) }
    ensures fits { IfSome result (λ n. packing.now.offset + n ≤ words) }
{
    let rest = left?;
    if u64::from(packing.offset).saturating_add(rest) > u64::from(words) {
        return None;
    }
    Some(rest as u32)
}

/// Returns how many words the objects have that are left after one of `size` words, if it is known how many they have
/// with it.
fn left_after(left: Option<u64>, size: u32) -> Option<u64>
    requires { IfSome left (λ n. size ≤ n) }
    ensures { result ≡ option_map (λ n. n - size) left }
{
    match left {
        None => None,
        Some(words) => Some(words - u64::from(size)),
    }
}

/// Returns the packing after the live objects of a page, by its number from 1 and its live bitmap. If it is known how
/// many words they have, the last ones, which fit in a target together, aren't read.
fn pack_row(heap: &Heap, page: u32, row: &Row, live: Option<u64>, before: Packing) -> Packing
    requires low { 0 < page }
    requires high { page ≤ heap.now.store.count }
    requires size { length row.now ≤ heap.now.store.words }
    requires live { IfSome live (λ n. n ≡ sum_by (size_on heap.now page) (offsets_from 0 row.now)) }
    requires targets { before.target ≤ 2 ^ 32 }
    ensures { result ≡ pack heap.now.store.words before (map (size_on heap.now page) (offsets_from 0 row.now)) }
{
    let words = heap.memory().page_words();
    let memory = heap.memory().words(page);
    let mut packing = before;
    let mut left = live;
    let mut from = 0;
    while let Some(offset) = row.next_from(from) {
        if let Some(rest) = fitting_rest(words, &packing, left) {
            return pack_rest(packing, rest);
        }
        let size = heap.object_words_on(page, memory, offset);
        packing = pack_one(words, packing, size);
        left = left_after(left, size);
        from = offset as usize + 1;
    }
    packing
}

/// Returns the packing after the live objects of a page, by its number from 1: by their sizes that are kept with the
/// page, if no word of it was written since, else by their headers. How many words they have makes it faster, if known.
pub(crate) fn pack_page(heap: &Heap, page: u32, live: Option<u64>, before: Packing) -> Packing
    requires low { 0 < page }
    requires high { page ≤ heap.now.store.count }
    requires live { IfSome live (λ n. n ≡ live_words heap.now page) }
    requires targets { before.target ≤ 2 ^ 32 }
    requires offset { before.offset < 2 ^ 17 }
    ensures value { result ≡ pack heap.now.store.words before (sizes_on heap.now page) }
    ensures offset { result.offset < 2 ^ 17 }
{
    heap.law();
    if let Some(sizes) = heap.sizes_on(page) {
        return pack_sizes(heap.memory().page_words(), sizes, before);
    }
    match heap.live().get((page - 1) as usize) {
        None => before,
        Some(row) => pack_row(heap, page, row, live, before),
    }
}

/// Returns whether there is a page of this number, and no more was packed than a heap can have.
fn has_page_for(heap: &Heap, page: u32, before: &Packing) -> bool
    ensures { result ≡ has_page_for heap.now page before.now }
{
    page != 0
        && page <= heap.memory().page_count()
        && before.target <= 4_294_967_296
        && before.offset < 131_072
}

/// Returns the packing after the live objects of a page, by its number from 1, that follow others. `None` if there is
/// no such page, or more was packed than a heap can have. Reads no headers but those of that page's live objects.
pub fn packed_page(heap: &Heap, page: u32, before: Packing) -> Option<Packing>
    ensures { result ≡ pack_if heap.now page before }
{
    if !has_page_for(heap, page, &before) {
        return None;
    }
    Some(pack_page(heap, page, None, before))
}
