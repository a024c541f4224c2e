//! The live objects of a page, of which a draft is made.

ghost use Rattle.std.specs.Prelude.{◌≡◌, ◌≤◌, [], length, count_by, IfOk};
ghost use Rattle.model.specs.declared.limits.TheConstants.{MOST_WORDS};

use crate::sizes::Sizes;
use markbits::{RankedRow, Row};
use std::alloc::{AllocError, Global};
use std::marker::Model;

/// The live objects of a page: their bitmap and their sizes, with all memory that a forwarding table takes for them.
#[derive(Debug, Drop)]
pub struct LiveObjects {
    /// Bit `i` is set if an object is live at offset `i`.
    pub(crate) live: RankedRow,
    /// Space for a flag for each object, of which none is set.
    pub(crate) copied: Row,
    /// The sizes, by rising offset.
    pub(crate) sizes: Sizes,
}

impl Model for LiveObjects {
    ghost use Rattle.forward.specs.Objects.{ObjectsState, AreObjects};

    ghost Value = { ObjectsState };

    ghost view = { λ o. record { live = o.live; sizes = o.sizes } };

    ghost invariant = { λ o. AreObjects o.live o.sizes o.copied };
}

impl LiveObjects {
    /// Returns no objects. It takes no memory.
    pub fn empty(alloc: Global) -> LiveObjects
        ensures { result ≡ record { live = []; sizes = [] } }
    {
        LiveObjects {
            live: RankedRow::empty(alloc),
            copied: Row::empty(alloc),
            sizes: Sizes::empty(alloc),
        }
    }

    /// Returns the objects at the set bits of a bitmap, which has at most as many bits as the largest page has words,
    /// with a size for each. Fails only if out of memory.
    pub fn new(alloc: Global, live: Row, sizes: Sizes) -> Result<LiveObjects, AllocError>
        requires short { length live ≤ MOST_WORDS }
        requires many { length sizes ≡ count_by (λ b. b) live }
        ensures { IfOk result (λ o. o ≡ record { live = live; sizes = sizes }) }
    {
        let _ = live.len();
        let copied = Row::new(alloc, sizes.len() as u32)?;
        let live = RankedRow::new(alloc, live)?;
        Ok(LiveObjects {
            live,
            copied,
            sizes,
        })
    }

    /// Returns the live bitmap.
    pub fn live(&self) -> &Row
        ensures { result.now ≡ self.now.live }
    {
        self.live.row()
    }

    /// Returns the sizes, in words, by rising offset.
    pub fn sizes(&self) -> &Sizes
        ensures { result.now ≡ self.now.sizes }
    {
        &self.sizes
    }
}
