//! Forwarding tables whose targets aren't open yet.

ghost use Rattle.std.specs.Prelude.{◌≡◌, ◌+◌, ◌<◌, ◌≤◌, ◌^◌, ◌++◌, ℕ, List, [], length, count_by, IfOk};
ghost use Rattle.model.specs.declared.limits.TheConstants.{MOST_PAGES, MOST_WORDS};
ghost use Rattle.model.specs.Owning.{Each};
ghost use Rattle.model.specs.Plans.{places_from, target_count};
ghost use Rattle.forward.specs.Drafts.{settled};

use crate::objects::LiveObjects;
use crate::places::Places;
use crate::plan::Slot;
use crate::runs::Runs;
use crate::side::Side;
use markbits::{RankedRow, Row};
use std::alloc::{AllocError, Global};
use std::marker::Model;

/// The forwarding table of a page, for targets that aren't open yet: a place in one of them for each live object.
#[derive(Debug, Drop)]
pub struct Draft {
    /// Bit `i` is set if an object is live at offset `i`.
    live: RankedRow,
    /// Space for a flag for each object, of which none is set.
    copied: Row,
    places: Runs,
}

impl Model for Draft {
    ghost use Rattle.forward.specs.Drafts.{DraftState, IsDraft};

    ghost Value = { DraftState };

    ghost view = { λ d. record { live = d.live; places = d.places } };

    ghost invariant = { λ d. IsDraft d.live d.places d.copied };
}

impl Draft {
    /// Returns a draft without objects. It takes no memory.
    pub fn empty(alloc: Global) -> Draft
        ensures { result ≡ record { live = []; places = [] } }
    {
        Draft {
            live: RankedRow::empty(alloc),
            copied: Row::empty(alloc),
            places: Runs::empty(alloc),
        }
    }

    /// Plans places for a page's objects, in targets of `words` words, after what ends at `end`, next fit: each
    /// directly after the previous one, or at the head of the next target if it doesn't fit. Then `end` is where they
    /// end. It takes memory only for the second and further targets. Fails only if out of memory.
    pub fn new(
        alloc: Global,
        words: u32,
        end: &mut Slot,
        objects: LiveObjects,
    ) -> Result<Draft, AllocError>
        requires few { end.old.0 < 2 ^ 62 }
        ensures live { IfOk result (λ d. d.live ≡ objects.live) }
        ensures many { IfOk result (λ d. length d.places ≡ count_by (λ b. b) d.live) }
        ensures places { IfOk result (λ d. (ns : List ℕ)
            → places_from words end.old.0 end.old.1 (objects.sizes ++ ns)
            ≡ d.places ++ places_from words end.new.0 end.new.1 ns) }
        ensures counted { IfOk result (λ d. 0 < length d.places → target_count d.places ≡ end.new.0 + 1) }
        ensures near { end.new.0 ≤ end.old.0 + MOST_WORDS }
    {
        let LiveObjects {
            live,
            copied,
            sizes,
        } = objects;
        let places = Runs::new(alloc, words, end, sizes)?;
        Ok(Draft {
            live,
            copied,
            places,
        })
    }

    /// Returns how many objects there are: at most the words of the largest page.
    pub fn len(&self) -> usize
        ensures value { result ≡ length self.now.places }
        ensures range { result ≤ MOST_WORDS }
    {
        self.places.len()
    }

    /// Returns the forwarding table, if targets, of `words` words each, are on these pages. It takes no memory.
    pub fn settle(self, words: u32, targets: &[u32]) -> Side
        requires words { words ≤ MOST_WORDS }
        requires low { Each targets.now (λ n. 0 < n) }
        requires high { Each targets.now (λ n. n ≤ MOST_PAGES) }
        requires counted { Each self.places (λ p. p.0 < length targets.now) }
        requires within { Each self.places (λ p. p.1 < words) }
        ensures { result ≡ settled words targets.now self }
    {
        let places = Places::planned(words, targets, self.places);
        Side::of(self.live, places, self.copied)
    }
}
