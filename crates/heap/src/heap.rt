//! The heap.
mod birth;
mod buffers;
pub mod collecting;
mod crossing;
mod data;
pub mod edits;
mod filling;
mod frames;
mod kept;
mod making;
mod marks;
mod owning;
pub mod references;
mod registers;
mod relocating;
mod runs;
mod sides;
mod writing;

ghost use Rattle.std.specs.Prelude.{◌≡◌, ◌<◌, ◌≤◌, ◌*◌, ◌+◌, position, length, IfSome};
ghost use Rattle.model.specs.Cycles.{is_lent};
ghost use Rattle.model.specs.Owning.{IsStore};
ghost use Rattle.model.specs.Holding.{IsHeap};
ghost use Rattle.global_roots.specs.Globals.{is_todo};

use forward::Sides;
use global_roots::Globals;
use markbits::{IndexedRows, Rows};
use model::{Config, Global, Phase, Scan};
use page::Store;
use refword::Addr;
use std::alloc::Global as Memory;
use std::marker::Model;
use thread_records::{Thread, Threads};

/// The heap of a program: objects on pages, the threads that use them, and the collector.
///
/// A contract sees all of it as plain data. Besides the invariant of its store, its invariant is: it has the sizes
/// that it was made with; a page in use has bitmaps with a bit for each word, and no other page has any; each
/// thread's buffer lies in an open page; births stay within their limit; and no page is protected while the collector
/// is idle.
///
/// Users make a heap, read it, and request steps by `Stepping` or `calls` of `cycle`. The crates that implement
/// steps also call the row functions here, one for each step of a thread on its buffer, registers, objects and
/// globals (`take_row`, `give_back_row`, `new_row`, `store_row`, `store_global_row`, `datum_row`, `set_datum_row`,
/// `same_row`, `is_null_row`, `copy_register_row` and `clear_register_row`), which return plain values. A row
/// function requires that its step has passed the tests before it (the thread exists, numbers are in range, it isn't
/// parked and has no open barrier). `cycle` makes these tests; programs call `Mutate` of `managed`. The row
/// functions of loads are in `barrier`, those of checkpoints in `checkpoint`, those of marks in `marker`, those of
/// relocation in `relocate`, and steps in one go in `fast_paths`; they use the readers here and raw edits. Threads,
/// workers, globals and registers count from 0.
///
/// **Raw edits** are the traits `RawEdits` and `RawCollectorEdits`, and the calls `raw_..`. Each makes its edit and
/// tests nothing, so one of them can leave a heap that represents no reference model. They are for the crates that
/// implement steps, which prove the results. Users of a heap request steps instead; and the heap of a program
/// (`managed`) never lends the access that is needed to call them.
pub struct Heap {
    config: Config,
    store: Store,
    starts: Rows,
    live: Rows,
    mark: Rows,
    todo: IndexedRows,
    sides: Sides,
    threads: Threads,
    workers: Vec<Option<Scan>>,
    globals: Globals,
    phase: Phase,
    nmt: bool,
    births: u64,
}

impl Model for Heap {
    ghost use Rattle.model.specs.States.{HeapState};

    ghost Value = { HeapState };

    ghost use Rattle.heap.specs.Views.{heap_of, IsHeapInside};

    ghost view = { heap_of };

    ghost invariant = { IsHeapInside };
}

/// Written out, so that it is proved once: for a derived one, each function at whose end a heap goes proves the drop of
/// all that the heap has.
impl Drop for Heap {
    fn drop(self) {
        let Heap {
            config: _config,
            store: _store,
            starts: _starts,
            live: _live,
            mark: _mark,
            todo: _todo,
            sides: _sides,
            threads: _threads,
            workers: _workers,
            globals: _globals,
            phase: _phase,
            nmt: _nmt,
            births: _births,
        } = self;
    }
}

impl Heap {
    /// Proves the invariant of a heap: its frames have one owner each; it has the words of a page, the frames, pages,
    /// threads, workers and globals that it was made with; each page in use has bitmaps with a bit for each word,
    /// other pages have empty ones, and each page record has a forwarding table whose entries rise; each thread has
    /// the registers that it was made with, and its buffer lies in an open page; births are within their limit; and
    /// in `Idle` no page is protected.
    pub fn law(&self)
        ensures store { IsStore self.now.store }
        ensures heap { IsHeap self.now }
    {
        self.store.law();
    }

    /// Returns the configuration that it was made with.
    pub fn config(&self) -> &Config
        ensures { result.now ≡ self.now.config }
    {
        &self.config
    }

    /// Returns the allocator of its lists. Contracts see no value of it.
    pub fn allocator(&self) -> Memory {
        *self.workers.allocator()
    }

    /// Returns its pages and frames.
    pub fn memory(&self) -> &Store
        ensures { result.now ≡ self.now.store }
    {
        &self.store
    }

    /// Returns the address of an offset of a page, by the page's number from 1.
    pub fn address_on(&self, page: u32, offset: u32) -> Addr
        requires low { 0 < page }
        requires high { page ≤ self.now.store.count }
        requires within { offset < self.now.store.words }
        ensures { result ≡ page * self.now.store.words + offset }
    {
        self.law();
        let words = u64::from(self.store.page_words());
        Addr::new(u64::from(page) * words + u64::from(offset)).unwrap()
    }

    /// Returns where objects start, by record and offset.
    pub fn starts(&self) -> &Rows
        ensures { result.now ≡ self.now.starts }
    {
        &self.starts
    }

    /// Returns which objects the last mark found live.
    pub fn live(&self) -> &Rows
        ensures { result.now ≡ self.now.live }
    {
        &self.live
    }

    /// Returns which objects the running mark has marked.
    pub fn mark(&self) -> &Rows
        ensures { result.now ≡ self.now.mark }
    {
        &self.mark
    }

    /// Returns which objects are grey: marked, but not yet scanned.
    pub fn todo(&self) -> &IndexedRows
        ensures { result.now ≡ self.now.todo }
    {
        &self.todo
    }

    /// Returns the forwarding tables, by the index of the page's record: where the live objects of protected pages
    /// go.
    pub fn sides(&self) -> &Sides
        ensures { result.now ≡ self.now.sides }
    {
        &self.sides
    }

    /// Returns the mutator threads, by number from 0.
    pub fn threads(&self) -> &[Thread]
        ensures { result.now ≡ self.now.threads }
    {
        self.threads.as_slice()
    }

    /// Returns whether a thread has a buffer on a page, by the page's number from 1.
    pub fn is_lent(&self, page: u32) -> bool
        ensures { result ≡ is_lent self.now.threads page }
    {
        self.threads.is_lent(page)
    }

    /// Returns each worker's scan, if it has one, by number from 0.
    pub fn workers(&self) -> &[Option<Scan>]
        ensures { result.now ≡ self.now.workers }
    {
        &self.workers
    }

    /// Returns the global roots, by number from 0.
    pub fn globals(&self) -> &[Global]
        ensures { result.now ≡ self.now.globals }
    {
        self.globals.as_slice()
    }

    /// Returns the number, from 0, of the first grey global, which is still to be marked, or `None`.
    pub fn first_todo_global(&self) -> Option<usize>
        ensures place { result ≡ position is_todo self.now.globals }
        ensures there { IfSome result (λ i. i < length self.now.globals) }
    {
        self.globals.first_todo()
    }

    /// Returns the phase of the collector's cycle.
    pub fn phase(&self) -> Phase
        ensures { result ≡ self.now.phase }
    {
        self.phase
    }

    /// Returns the clean NMT value: the not-marked-through bit of words that are marked through.
    pub fn nmt(&self) -> bool
        ensures { result ≡ self.now.nmt }
    {
        self.nmt
    }

    /// Returns how many objects were born: 0 to the configuration's `births`.
    pub fn births(&self) -> u64
        ensures { result ≡ self.now.births }
    {
        self.births
    }
}
