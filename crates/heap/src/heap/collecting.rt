//! Raw edits of a heap by the collector: marks, scans, crossings, and the start and the end of a mark.

ghost use Rattle.std.specs.Prelude.{◌≡◌, ◌/◌, ◌%◌, ◌<◌, is_none, true, false};
ghost use Rattle.std.specs.Prelude.{if◌then◌else◌};
ghost use Rattle.refword.specs.Words.{bits_of};
ghost use Rattle.model.specs.Bits.{bit_at, with_bit};
ghost use Rattle.model.specs.Checkpoints.{with_crossed, first_behind, phase_behind};
ghost use Rattle.model.specs.Cycles.{start_mark, end_mark};
ghost use Rattle.model.specs.Marks.{with_mark};
ghost use Rattle.model.specs.Scans.{with_scan, with_scan_end, set_marked_of};
ghost use Rattle.model.specs.States.{change_at};
ghost use Rattle.model.specs.Stores.{with_word};
ghost use Rattle.model.specs.Threads.{set_crossed_of};
ghost use Rattle.heap.specs.Marking.{noted, MarksApart};

use crate::heap::Heap;
use model::{Phase, Scan};
use page_rows::{
    clear_indexed_bit, end_pages, give_up_indexed_rows, give_up_rows, mark_at, put_indexed_bit,
    test_and_mark,
};
use refword::{Addr, Word};
use thread_records::Threads;

/// Raw edits for the crates that implement the collector's steps. Threads, workers and globals count from 0.
pub trait RawCollectorEdits {
    /// Marks the object that a word names, if it names one: it becomes grey if it wasn't marked before.
    fn set_mark(&mut self, word: Word);

    /// Gives a worker, if it exists, another object to scan, or none.
    fn set_scan(&mut self, worker: u32, scan: Option<Scan>);

    /// Ends a scan: the worker, if it exists, has no object any more, and the object isn't grey.
    fn end_scan(&mut self, worker: u32, scan: Scan);

    /// Writes a word at the place of a reference in memory, if its page has memory.
    fn set_reference(&mut self, place: u64, word: Word);

    /// Writes the word of a global, if it exists, which is no longer grey.
    fn set_marked_global(&mut self, number: u32, word: Word);

    /// Notes that a thread, if it exists, has crossed; if it is the last, the next phase begins.
    fn set_crossed(&mut self, thread: u32);

    /// Starts a mark: flips the clean value; all threads have still to cross, and all globals are grey.
    fn start_mark(&mut self);

    /// Ends a mark: what it marked is live, open pages without a lent buffer close, protected pages are unused again,
    /// their forwarding tables are empty, and the phase is idle.
    fn end_mark(&mut self);
}

/// Returns the phase after a checkpoint.
fn phase_behind(phase: Phase) -> Phase
    ensures { result ≡ phase_behind phase }
{
    match phase {
        Phase::MarkCrossing => Phase::Scanning,
        Phase::ProtectCrossing => Phase::Relocating,
        other => other,
    }
}

/// Returns the phase after a thread has crossed: the next one if no thread has still to cross.
fn phase_after(threads: &Threads, phase: Phase) -> Phase
    ensures { result ≡ (if is_none (first_behind threads.now) then phase_behind phase else phase) }
{
    if threads.all_crossed() {
        phase_behind(phase)
    } else {
        phase
    }
}

impl Heap {
    /// Notes that a thread, if it exists, has crossed; the phase stays.
    #[tactic(auto, using(crate::proofs::Keeping::thread_keeps))]
    fn cross(&mut self, thread: u32)
        ensures { self.new ≡ record self.old { threads = change_at self.old.threads thread (set_crossed_of true) } }
    {
        self.threads.set_crossed(thread);
    }
}

impl Heap {
    /// Marks the object at an address, by its page and its offset there. Returns whether it wasn't marked before; if
    /// so, the object isn't grey yet: the caller makes it so by `raw_set_todo`, or scans it.
    #[inline(always)]
    pub fn raw_mark(&mut self, place: Addr, page: u64, offset: u32) -> bool
        requires page { page ≡ place / self.old.store.words }
        requires offset { offset ≡ place % self.old.store.words }
        ensures { MarksApart self.old place result self.new }
    {
        match test_and_mark(&mut self.mark, &self.store, place, page, offset) {
            Some(false) => true,
            Some(true) => false,
            None => {
                put_indexed_bit(&mut self.todo, &self.store, place, true);
                false
            }
        }
    }

    /// Makes the object at an address grey.
    #[tactic(auto, unfolding(crate::specs::Marking::noted))]
    pub fn raw_set_todo(&mut self, address: Addr)
        ensures { self.new ≡ noted self.old address }
    {
        put_indexed_bit(&mut self.todo, &self.store, address, true);
    }

    /// Makes the object at an address no longer grey. If none is grey, nothing else is read.
    #[inline(always)]
    pub fn raw_clear_todo(&mut self, address: Addr)
        ensures { self.new ≡ record self.old { todo = with_bit self.old.todo self.old.store.words address false } }
    {
        clear_indexed_bit(&mut self.todo, &self.store, address);
    }
}

impl RawCollectorEdits for Heap {
    #[tactic(auto, unfolding(model::specs::Marks::with_mark, model::specs::Marks::resolve, model::specs::Marks::entry_at))]
    fn set_mark(&mut self, word: Word)
        ensures { self.new ≡ with_mark self.old word }
    {
        if let Some(address) = word.addr() {
            let address = self.resolve(address);
            mark_at(&mut self.mark, &mut self.todo, &self.store, address);
        }
    }

    #[tactic(auto, unfolding(model::specs::Scans::with_scan))]
    fn set_scan(&mut self, worker: u32, scan: Option<Scan>)
        ensures { self.new ≡ with_scan self.old worker scan }
    {
        if (worker as usize) < self.workers.len() {
            self.workers[worker as usize] = scan;
        }
    }

    #[tactic(auto, unfolding(model::specs::Scans::with_scan, model::specs::Scans::with_scan_end))]
    fn end_scan(&mut self, worker: u32, scan: Scan)
        ensures { self.new ≡ with_scan_end self.old worker scan }
    {
        put_indexed_bit(&mut self.todo, &self.store, scan.object, false);
        self.set_scan(worker, None);
    }

    fn set_reference(&mut self, place: u64, word: Word)
        ensures { self.new ≡ record self.old { store = with_word self.old.store place (bits_of word) } }
    {
        self.set_word(place, word.bits());
    }

    fn set_marked_global(&mut self, number: u32, word: Word)
        ensures { self.new ≡ record self.old { globals = change_at self.old.globals number (set_marked_of word) } }
    {
        self.globals.set_marked(number, word);
    }

    #[tactic(auto, unfolding(model::specs::Checkpoints::with_crossed), using(crate::proofs::Marking::phase_keeps))]
    fn set_crossed(&mut self, thread: u32)
        ensures { self.new ≡ with_crossed self.old thread }
    {
        self.cross(thread);
        self.phase = phase_after(&self.threads, self.phase);
    }

    #[tactic(auto, unfolding(model::specs::Cycles::start_mark))]
    fn start_mark(&mut self)
        ensures { self.new ≡ start_mark self.old }
    {
        self.nmt = !self.nmt;
        self.threads.uncross_all();
        self.globals.set_all_todo();
        self.phase = Phase::MarkCrossing;
    }

    #[tactic(auto, unfolding(model::specs::Cycles::end_mark))]
    fn end_mark(&mut self)
        ensures { self.new ≡ end_mark self.old }
    {
        give_up_rows(&mut self.starts, &self.store);
        give_up_rows(&mut self.live, &self.store);
        give_up_rows(&mut self.mark, &self.store);
        give_up_indexed_rows(&mut self.todo, &self.store);
        end_pages(&mut self.store, &self.threads);
        self.live.swap(&mut self.mark);
        self.mark.clear_all();
        self.sides.clear_all();
        self.phase = Phase::Idle;
    }
}
