//! Pages whose words and bitmaps threads own for a time, to scan their objects.

ghost use Rattle.std.specs.Prelude.{◌≡◌, ◌≤◌, ◌<◌, ◌+◌, length, true};
ghost use Rattle.model.specs.Configs.{is_page_size};
ghost use Rattle.part_scans.specs.Scans.{PartScanned, all_sent};
ghost use Rattle.heap.specs.Owning.{AreBlank, AreWordless, ArePlaced, ScansStore, ScansParts};

use crate::heap::Heap;
use forward::Sides;
use layout::Layouts;
use page::{PageSize, Part, Store};
use page_rows::swap_all_rows;
use part_scans::{Scene, scan_part};
use std::thread::Threads;

/// Has threads take in what parts have sent, and scan other parts, which get the words of their pages from a store, and
/// give them back.
fn scan_parts_by<R: Threads + Sync>(
    rt: &R,
    store: &mut Store,
    nmt: bool,
    sides: &Sides,
    layouts: &Layouts,
    parts: &mut [Part],
    senders: &[Part],
    most: u64,
)
    requires size { is_page_size store.old.words ≡ true }
    requires wordless { AreWordless parts.old }
    requires placed { ArePlaced (length store.old.pages) 0 parts.old }
    ensures { ScansStore (record { words = store.old.words; nmt = nmt; sides = sides.now; layouts = layouts.now })
        (all_sent senders.now) most store.old parts.old store.new parts.new }
{
    store.law();
    let words = PageSize::of(store.page_words());
    let scene = Scene::new(words, nmt, sides, layouts);
    let scan = |_index: usize, part: &mut Part|
        ensures scanned { PartScanned scene.entry (all_sent senders.entry.now) part.entry.now part.exit.now }
        ensures few { part.exit.now.scanned ≤ most }
    { scan_part(&scene, part, senders, most) };
    store.own_by(rt, parts, &scan);
}

impl Heap {
    /// A raw edit: has threads scan the objects of parts, each thread those of one part and at most `most`, after it
    /// has taken in what other parts, the senders, have sent to its own pages. Meanwhile it owns the words and the
    /// bitmaps of the part's pages; what it finds of other pages it leaves in its part. The parts have blank pages,
    /// whose records exist and rise. It takes no memory: if a thread can't be started, this one does the work.
    pub fn raw_scan_by<R: Threads + Sync>(
        &mut self,
        rt: &R,
        parts: &mut [Part],
        senders: &[Part],
        most: u64,
    )
        requires blank { AreBlank parts.old }
        requires placed { ArePlaced (length self.old.store.pages) 0 parts.old }
        ensures { ScansParts self.old (all_sent senders.now) most parts.old self.new parts.new }
    {
        self.store.law();
        swap_all_rows(&mut self.mark, &mut self.todo, parts);
        scan_parts_by(
            rt,
            &mut self.store,
            self.nmt,
            &self.sides,
            &self.config.layouts,
            parts,
            senders,
            most,
        );
        swap_all_rows(&mut self.mark, &mut self.todo, parts);
    }
}
