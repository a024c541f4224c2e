//! Lists that grow by blocks.

ghost use Rattle.std.specs.Prelude.{◌≡◌, ◌<◌, ◌^◌, ◌++◌, ◌∷◌, [], true, length, slice_get, OnOk};
ghost use Rattle.std.specs.Prelude.{vec_len, vec_capacity};
ghost use Rattle.std.specs.List.{All};
ghost use Rattle.entries.specs.Blocks.{IsFull, joined};

use crate::event::Event;
use model::Actor;
use std::alloc::{AllocError, Global};
use std::marker::Model;
use std::mem::replace;

/// An entry as it is stored, in 32 bytes.
#[derive(Clone, Copy)]
pub(crate) struct Kept {
    pub(crate) actor: Actor,
    pub(crate) event: Event,
}

const _: () = prove!(size_of::<Kept>() == 32);

/// How many entries a block has, of 64 KB.
pub(crate) const BLOCK: usize = 2_048;

/// The greatest number of entries of a list.
const MOST: usize = 1 << 62;

/// A list of entries, in blocks: a full one isn't moved as more entries come. The first block grows as it is filled.
/// A contract sees the list, and whether there is space for one more.
#[derive(Drop)]
pub(crate) struct Blocks {
    full: Vec<Vec<Kept, Global>, Global>,
    /// The block that isn't full, or the last one.
    last: Vec<Kept, Global>,
    /// How many entries there are.
    count: usize,
}

impl Model for Blocks {
    ghost use Rattle.entries.specs.Blocks.{BlocksState};

    ghost Value = { BlocksState };

    ghost use Rattle.entries.specs.BlockViews.{blocks_of, AreBlocks};

    ghost view = { blocks_of };

    ghost invariant = { AreBlocks };
}

/// Adds the last block to the full ones, and begins another. Fails only if out of memory.
#[tactic(auto, using(crate::proofs::Joining::joined_more, crate::proofs::Joining::all_full))]
fn next_block(
    full: &mut Vec<Vec<Kept, Global>, Global>,
    last: &mut Vec<Kept, Global>,
) -> Result<(), AllocError>
    requires { length last.old.items ≡ 2048 }
    ensures items { joined full.new.items last.new.items ≡ joined full.old.items last.old.items }
    ensures full { All IsFull full.old.items → All IsFull full.new.items }
    ensures room { OnOk result (vec_len last.new < vec_capacity last.new) }
{
    full.reserve(1)?;
    let next = Vec::with_capacity(*last.allocator(), BLOCK)?;
    let block = replace(last, next);
    full.push_reserved(block);
    Ok(())
}

/// Returns the entry of a number in a block, from 0, if there is one.
fn entry_at(block: &[Kept], index: usize) -> Option<Kept>
    ensures { result ≡ slice_get block.now index }
{
    block.get(index).copied()
}

impl Blocks {
    /// Returns a list without entries. It takes no memory.
    #[tactic(auto, unfolding(crate::specs::Blocks::joined))]
    pub(crate) fn new(alloc: Global) -> Blocks
        ensures { result.items ≡ [] }
    {
        Blocks {
            full: Vec::new(alloc),
            last: Vec::new(alloc),
            count: 0,
        }
    }

    /// Returns the number of entries: less than 2^63.
    #[inline(always)]
    pub(crate) fn len(&self) -> usize
        ensures value { result ≡ length self.now.items }
        ensures range { result < 2 ^ 63 }
    {
        self.count
    }

    /// Returns the entry of a number, from 0, if there is one.
    pub(crate) fn get(&self, index: usize) -> Option<Kept>
        ensures { result ≡ slice_get self.now.items index }
    {
        let block = index / BLOCK;
        if block < self.full.len() {
            entry_at(&self.full[block], index % BLOCK)
        } else {
            entry_at(&self.last, index - self.full.len() * BLOCK)
        }
    }

    /// Allocates space for one more entry. Fails only if out of memory.
    #[inline(always)]
    pub(crate) fn reserve(&mut self) -> Result<(), AllocError>
        ensures items { self.new.items ≡ self.old.items }
        ensures room { OnOk result (self.new.has_room ≡ true) }
    {
        if self.count >= MOST {
            return Err(AllocError);
        }
        if self.last.len() == BLOCK {
            next_block(&mut self.full, &mut self.last)
        } else {
            self.last.reserve(1)
        }
    }

    /// Appends an entry. There must be space for it.
    #[inline(always)]
    #[tactic(auto, using(crate::proofs::Joining::joined_pushed, crate::proofs::Joining::has_more))]
    pub(crate) fn push(&mut self, kept: Kept)
        requires { self.old.has_room ≡ true }
        ensures { self.new.items ≡ self.old.items ++ kept ∷ [] }
    {
        self.last.push_reserved(kept);
        self.count += 1;
    }
}
