//! Live objects of a page that are kept with its frame, until a word of it is written.

ghost use Rattle.std.specs.Prelude.{◌≡◌, ◌<◌, ◌≤◌, ◌^◌, true, length, IfOk, IfSome};
ghost use Rattle.model.specs.declared.limits.TheConstants.{MOST_WORDS};
ghost use Rattle.page_frames.specs.Kept.{IsKept, size_in, sizes_in};

use forward::{LiveObjects, Sizes};
use layout::{Layout, Layouts, layout_of};
use markbits::Row;
use std::alloc::{AllocError, Global};
use std::marker::Model;

/// Returns how many words the object at an offset of a page's words has: 1 to 2,047. One that has no layout counts as
/// its header alone.
#[inline(always)]
fn size_at(layouts: &Layouts, words: &[u64], offset: u32) -> u32
    ensures value { result ≡ size_in layouts.now words.now offset }
    ensures range { result < 2 ^ 17 }
{
    let Some(header) = words.get(offset as usize) else {
        return 1;
    };
    match layouts.get(layout_of(*header)) {
        None => 1,
        Some(layout) => layout.size(),
    }
}

/// Returns the sizes of the objects at the set bits of a bitmap, which has at most as many bits as the largest page has
/// words. Fails only if out of memory.
fn sizes_in(
    alloc: Global,
    layouts: &Layouts,
    words: &[u64],
    live: &Row,
) -> Result<Sizes, AllocError>
    requires { length live.now ≤ MOST_WORDS }
    ensures { IfOk result (λ s. s ≡ sizes_in layouts.now words.now live.now) }
{
    let mut sizes = Sizes::new(alloc, live.count())?;
    let mut from = 0;
    while let Some(offset) = live.next_from(from) {
        let size = size_at(layouts, words, offset);
        sizes.push(size)?;
        from = offset as usize + 1;
    }
    Ok(sizes)
}

/// Returns whether two lists of layouts are the same.
fn are_same(one: &[Layout], other: &[Layout]) -> bool
    ensures { result ≡ true → one.now ≡ other.now }
{
    if one.len() != other.len() {
        return false;
    }
    for index in 0..one.len() {
        if one[index].refs != other[index].refs || one[index].nums != other[index].nums {
            return false;
        }
    }
    true
}

/// The live objects of a page, with the layouts by which their sizes were found.
#[derive(Drop)]
pub(crate) struct KeptObjects {
    objects: LiveObjects,
    layouts: Vec<Layout, Global>,
}

impl Model for KeptObjects {
    ghost use Rattle.page_frames.specs.Kept.{KeptState};

    ghost Value = { KeptState };

    ghost view = { λ k. record { objects = k.objects; layouts = k.layouts.items } };
}

impl KeptObjects {
    /// Returns the objects at the set bits of a bitmap, which has at most as many bits as the largest page has words.
    /// Fails only if out of memory.
    pub fn new(
        alloc: Global,
        layouts: &Layouts,
        words: &[u64],
        live: &Row,
    ) -> Result<KeptObjects, AllocError>
        requires { length live.now ≤ MOST_WORDS }
        ensures { IfOk result (IsKept words.now) }
    {
        let sizes = sizes_in(alloc, layouts, words, live)?;
        let live = live.copy(alloc)?;
        let objects = LiveObjects::new(alloc, live, sizes)?;
        KeptObjects::of(alloc, layouts, objects)
    }

    /// Returns objects whose sizes were found by these layouts. Fails only if out of memory.
    pub fn of(
        alloc: Global,
        layouts: &Layouts,
        objects: LiveObjects,
    ) -> Result<KeptObjects, AllocError>
        ensures { IfOk result (λ k. k ≡ record { objects = objects; layouts = layouts.now }) }
    {
        let layouts = Vec::from_slice(alloc, layouts.as_slice())?;
        Ok(KeptObjects { objects, layouts })
    }

    /// Returns whether they are this bitmap's objects, by these layouts.
    fn are_of(&self, layouts: &Layouts, live: &Row) -> bool
        ensures live { result ≡ true → self.now.objects.live ≡ live.now }
        ensures layouts { result ≡ true → self.now.layouts ≡ layouts.now }
    {
        if !self.objects.live().is_same(live) {
            return false;
        }
        are_same(&self.layouts, layouts.as_slice())
    }

    /// Returns the sizes, if they are those of this bitmap's objects, by these layouts.
    pub fn sizes_for(&self, layouts: &Layouts, live: &Row) -> Option<&Sizes>
        ensures sizes { IfSome result (λ s. s.now ≡ self.now.objects.sizes) }
        ensures live { IfSome result (λ s. self.now.objects.live ≡ live.now) }
        ensures layouts { IfSome result (λ s. self.now.layouts ≡ layouts.now) }
    {
        if !self.are_of(layouts, live) {
            return None;
        }
        Some(self.objects.sizes())
    }

    /// Returns the objects, if they are those of this bitmap, by these layouts.
    pub fn objects_for(self, layouts: &Layouts, live: &Row) -> Option<LiveObjects>
        ensures objects { IfSome result (λ o. o ≡ self.objects) }
        ensures live { IfSome result (λ o. self.objects.live ≡ live.now) }
        ensures layouts { IfSome result (λ o. self.layouts ≡ layouts.now) }
    {
        if !self.are_of(layouts, live) {
            return None;
        }
        Some(self.objects)
    }
}
