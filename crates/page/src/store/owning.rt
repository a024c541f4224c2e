//! Pages of a store that threads own for a time.

ghost use Rattle.std.specs.Prelude.{◌≡◌, length, map, List, ℕ};
ghost use Rattle.std.specs.Fork.{AcceptsEach, ChangesEach};
ghost use Rattle.page.specs.Owned.{AreShort, OwnsBy, SwappedParts};
ghost use Rattle.page.specs.declared.owned.Part.{Part};

use crate::owned::{Part, swap_parts};
use crate::store::Store;
use std::thread::{Threads, for_each_mut};

impl Store {
    /// Has threads change parts, each one a part: meanwhile they have the words of their pages. No call may change how
    /// many words a page has, or the index of its part's first page, or how many pages it has.
    pub fn own_by<R: Threads + Sync, F: Fn(usize, &mut Part) + Sync>(
        &mut self,
        rt: &R,
        parts: &mut [Part],
        f: &F,
    )
        requires short { AreShort parts.old }
        requires accepts { (between : List (List ℕ)) (lent : List Part)
            → SwappedParts self.old.pages self.old.frames parts.old between lent → AcceptsEach F.Fn f.now lent }
        requires keeps { (frames : List (List ℕ)) (back : List Part)
            → OwnsBy F.Fn f.now self.old.pages self.old.frames parts.old frames back
            → map length frames ≡ map length self.old.frames }
        requires still { (between : List (List ℕ)) (lent left : List Part)
            → SwappedParts self.old.pages self.old.frames parts.old between lent → ChangesEach F.Fn f.now lent left
            → length left ≡ length lent → AreShort left }
        ensures owns { OwnsBy F.Fn f.now self.old.pages self.old.frames parts.old self.new.frames parts.new }
        ensures same { self.new ≡ record self.old { frames = self.new.frames } }
    {
        let threads = parts.len().max(1);
        swap_parts(&self.pages, &mut self.frames, parts);
        for_each_mut(rt, parts, threads, f);
        swap_parts(&self.pages, &mut self.frames, parts);
    }
}
