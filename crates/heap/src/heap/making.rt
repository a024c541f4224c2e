//! Making a heap.

ghost use Rattle.std.specs.Prelude.{◌≡◌, false, None, replicate, IfOk};
ghost use Rattle.model.specs.Configs.{IsRanged};
ghost use Rattle.model.specs.First.{first_heap, blank_rows, blank_thread};
ghost use Rattle.heap.specs.Making.{AreBlank, Makes};

use crate::fault::NewFault;
use crate::heap::Heap;
use forward::Sides;
use global_roots::Globals;
use markbits::{IndexedRows, Rows};
use model::{Config, Phase, Scan};
use page::{Store, many, record_count};
use std::alloc::{AllocError, Global as Memory};
use thread_records::Threads;

/// Threads, workers and globals of a new heap.
#[derive(Drop)]
struct BlankActors {
    threads: Threads,
    workers: Vec<Option<Scan>>,
    globals: Globals,
}

/// Returns as many as the configuration has; all registers and globals are null, and no worker scans.
fn blank_actors(alloc: Memory, config: &Config) -> Result<BlankActors, AllocError>
    ensures threads { IfOk result (λ a. a.threads ≡ replicate config.now.threads (blank_thread config.now.registers)) }
    ensures workers { IfOk result (λ a. a.workers.items ≡ replicate config.now.workers None) }
    ensures globals { IfOk result (λ a. a.globals
        ≡ replicate config.now.globals (record { word = None; todo = false })) }
{
    let threads = Threads::new(alloc, config.threads, config.registers)?;
    let workers = many(alloc, config.workers, None)?;
    let globals = Globals::new(alloc, config.globals)?;
    Ok(BlankActors {
        threads,
        workers,
        globals,
    })
}

/// The bitmaps of a new heap.
#[derive(Drop)]
struct BlankRows {
    starts: Rows,
    live: Rows,
    mark: Rows,
    todo: IndexedRows,
}

/// Returns an empty bitmap for each page record that the configuration needs.
fn blank_rows(alloc: Memory, config: &Config) -> Result<BlankRows, AllocError>
    requires { IsRanged config.now }
    ensures starts { IfOk result (λ rows. rows.starts ≡ blank_rows config.now) }
    ensures live { IfOk result (λ rows. rows.live ≡ blank_rows config.now) }
    ensures mark { IfOk result (λ rows. rows.mark ≡ blank_rows config.now) }
    ensures todo { IfOk result (λ rows. rows.todo ≡ blank_rows config.now) }
{
    let records = record_count(config.frames, config.pages);
    let starts = Rows::new(alloc, records)?;
    let live = Rows::new(alloc, records)?;
    let mark = Rows::new(alloc, records)?;
    let todo = IndexedRows::new(alloc, records)?;
    Ok(BlankRows {
        starts,
        live,
        mark,
        todo,
    })
}

/// The parts of a new heap, except its configuration.
#[derive(Drop)]
struct BlankParts {
    store: Store,
    sides: Sides,
    rows: BlankRows,
    actors: BlankActors,
}

/// Returns all parts. Fails only if out of memory. The store comes last, so that it is never dropped here: that proof
/// would take the longest of all.
fn blank_parts(alloc: Memory, config: &Config) -> Result<BlankParts, AllocError>
    requires { IsRanged config.now }
    ensures { IfOk result (AreBlank config.now) }
{
    let sides = Sides::new(alloc, record_count(config.frames, config.pages))?;
    let actors = blank_actors(alloc, config)?;
    let rows = blank_rows(alloc, config)?;
    let store = Store::new(alloc, config.words, config.frames, config.pages)?;
    Ok(BlankParts {
        store,
        sides,
        rows,
        actors,
    })
}

impl Heap {
    /// Makes a heap of this configuration: all pages unused, all registers and globals null, no births, all threads
    /// crossed and running, the collector idle.
    ///
    /// Fails with the first field that is out of its range, if there is one, else with `Memory` if out of memory.
    pub fn new(alloc: Memory, config: Config) -> Result<Heap, NewFault>
        ensures { Makes config result }
    {
        if let Some(fault) = config.fault() {
            return Err(NewFault::Config(fault));
        }
        match blank_parts(alloc, &config) {
            Ok(parts) => Ok(Heap::first(config, parts)),
            Err(_) => Err(NewFault::Memory),
        }
    }

    /// Returns the heap of these parts.
    #[tactic(auto, unfolding(model::specs::First::first_heap))]
    fn first(config: Config, parts: BlankParts) -> Heap
        requires ranged { IsRanged config }
        requires blank { AreBlank config parts }
        ensures { result ≡ first_heap config }
    {
        Heap {
            store: parts.store,
            starts: parts.rows.starts,
            live: parts.rows.live,
            mark: parts.rows.mark,
            todo: parts.rows.todo,
            sides: parts.sides,
            threads: parts.actors.threads,
            workers: parts.actors.workers,
            globals: parts.actors.globals,
            phase: Phase::Idle,
            nmt: false,
            births: 0,
            config,
        }
    }
}
