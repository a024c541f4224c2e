//! The page from which objects are copied.

ghost use Rattle.std.specs.Prelude.{◌≡◌, ◌<◌, ◌^◌, take, drop};
ghost use Rattle.pieces.specs.Pieces.{source_of, size_at};

use forward::Side;
use layout::{Layouts, layout_of};

/// A page that is being emptied, and the data that is needed to copy its objects.
#[derive(Drop)]
pub struct Source<'a> {
    /// How many words a page has.
    pub size: u32,
    /// The words of the page.
    pub words: &'a [u64],
    /// The page's forwarding table.
    pub side: &'a Side,
    /// The layouts of objects.
    pub layouts: &'a Layouts,
}

/// Returns `count` words of a list from an offset on, up to the list's end.
#[inline(always)]
pub(crate) fn words_from(words: &[u64], offset: usize, count: usize) -> &[u64]
    ensures { result.now ≡ take count (drop offset words.now) }
{
    let start = offset.min(words.len());
    let end = start + count.min(words.len() - start);
    &words[start..end]
}

impl Source<'_> {
    /// Returns the number of words of the object at an offset. An object without a layout counts as 1, its header
    /// alone.
    #[inline(always)]
    pub(crate) fn size_at(&self, offset: u32) -> usize
        ensures value { result ≡ size_at (source_of self.now) offset }
        ensures range { result < 2 ^ 17 }
    {
        let Some(header) = self.words.get(offset as usize) else {
            return 1;
        };
        match self.layouts.get(layout_of(*header)) {
            None => 1,
            Some(layout) => layout.size() as usize,
        }
    }
}
