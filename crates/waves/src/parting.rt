//! The parts of the pages, each for one thread.

ghost use Rattle.std.specs.Prelude.{◌≡◌, ◌≤◌, ◌<◌, ◌*◌, ◌^◌, [], IfOk, length};
ghost use Rattle.heap.specs.Owning.{AreBlankPages};
ghost use Rattle.waves.specs.Parts.{AreFew, AreJoined, AreNew, all_scanned_in};

use page::{OwnedPage, Part};
use refword::Word;
use std::alloc::{AllocError, Global};

/// How many notes a part has space for: an object with more references than are left stays grey until the next wave.
pub(crate) const NOTES: usize = 1 << 17;

/// Returns blank pages. Fails only if out of memory.
fn blank_pages(alloc: Global, count: usize) -> Result<Vec<OwnedPage, Global>, AllocError>
    ensures blank { IfOk result (λ v. AreBlankPages v.items) }
    ensures count { IfOk result (λ v. length v.items ≡ count) }
{
    let mut pages = Vec::with_capacity(alloc, count)?;
    for _page in 0..count {
        pages.push(OwnedPage::empty(alloc))?;
    }
    Ok(pages)
}

/// Memory for notes: of earlier parts, or new.
#[derive(Drop)]
pub(crate) struct Notes {
    /// For how many notes there is space in new memory.
    space: usize,
    /// Memory of earlier parts.
    spare: Vec<Vec<Word, Global>, Global>,
}

impl Notes {
    /// Returns no memory yet. What is allocated later has space for `space` notes.
    pub fn new(alloc: Global, space: usize) -> Notes {
        Notes {
            space,
            spare: Vec::new(alloc),
        }
    }

    /// Returns an empty list with space for notes. Fails only if out of memory.
    fn list(&mut self, alloc: Global) -> Result<Vec<Word, Global>, AllocError>
        ensures { IfOk result (λ v. v.items ≡ []) }
    {
        match self.spare.pop() {
            None => Vec::with_capacity(alloc, self.space),
            Some(list) => {
                let mut list = list;
                list.clear();
                Ok(list)
            }
        }
    }

    /// Takes the lists of parts back, whose notes are lost.
    pub fn take_back(&mut self, parts: Vec<Part, Global>) {
        for part in parts {
            let _ = self.spare.push(part.sent);
        }
    }
}

/// Returns a part of blank pages, from that of a record's index on, with space for notes. Fails only if out of memory.
fn blank_part(
    alloc: Global,
    first: usize,
    count: usize,
    notes: &mut Notes,
) -> Result<Part, AllocError>
    ensures first { IfOk result (λ p. p.first ≡ first) }
    ensures blank { IfOk result (λ p. AreBlankPages p.pages.items) }
    ensures count { IfOk result (λ p. length p.pages.items ≡ count) }
    ensures sent { IfOk result (λ p. p.sent.items ≡ []) }
{
    let sent = notes.list(alloc)?;
    Ok(Part {
        first,
        pages: blank_pages(alloc, count)?,
        sent,
        scanned: 0,
    })
}

/// Returns `count` parts of blank pages, at least one, which take the place of the first `used` ones; each has space
/// for notes. Fails only if out of memory.
pub(crate) fn new_parts(
    alloc: Global,
    count: usize,
    used: usize,
    notes: &mut Notes,
) -> Result<Vec<Part, Global>, AllocError>
    ensures new { IfOk result (λ v. AreNew used v.items) }
    ensures joined { IfOk result (λ v. AreJoined used 0 v.items) }
{
    let size = used.div_ceil(count.max(1));
    let mut parts = Vec::with_capacity(alloc, count)?;
    let mut first = 0;
    for _part in 1..count {
        let pages = size.min(used - first);
        parts.push(blank_part(alloc, first, pages, notes)?)?;
        first += pages;
    }
    parts.push(blank_part(alloc, first, used - first, notes)?)?;
    Ok(parts)
}

/// Returns how many objects were scanned in parts, at most `each` in one.
pub(crate) fn total(parts: &[Part], each: u64) -> u64
    requires few { AreFew each parts.now }
    requires fits { length parts.now * each < 2 ^ 64 }
    ensures value { result ≡ all_scanned_in parts.now }
    ensures range { result ≤ length parts.now * each }
{
    let mut done = 0u64;
    for index in 0..parts.len() {
        let part = &parts[index];
        done += part.scanned;
    }
    done
}

/// Returns whether no part has scanned more than two thirds of all objects: of two parts one always has half of them.
pub(crate) fn are_balanced(parts: &[Part]) -> bool {
    let mut all = 0u64;
    let mut most = 0u64;
    for index in 0..parts.len() {
        let part = &parts[index];
        all = all.saturating_add(part.scanned);
        most = most.max(part.scanned);
    }
    most <= all.saturating_sub(all / 3)
}
