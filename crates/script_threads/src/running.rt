//! Runs of scripts by threads.

ghost use Rattle.std.specs.Prelude.{◌≡◌, true, false, IfOk, IfErr};
ghost use Rattle.parser.specs.Orders.{needs_schedule};
ghost use Rattle.sharing.specs.Seats.{AreSettled};
ghost use Rattle.script_threads.specs.Faults.{is_line, TellsLine};
ghost use Rattle.script_threads.specs.declared.running.ThreadsFault.TheVariants.{Memory};

use crate::collector::Collector;
use crate::gate::Gate;
use crate::mutator::Mutator;
use crate::run::Run;
use crate::scanner::Scanner;
use crate::scanning::help;
use cycle::{Actor, Book};
use hints::{HintSeat, Hints};
use parser::{Command, LineFault, Script};
use sharing::{Seat, Settled, Shared, settle};
use std::alloc::{AllocError, AllocFailed, Global};
use std::sync::Wait;
use std::sync::atomic::AtomicU64;
use std::thread;
use std::thread::Threads;
use std::vec::IntoIter;

/// Why a run by threads has no result.
#[derive(Clone, Copy, Debug, PartialEq, Eq)]
pub enum ThreadsFault {
    /// Out of memory, or a thread couldn't be started.
    Memory,
    /// The seats and the history disagree for this actor.
    Stray(Actor),
    /// The script has a command that a run by threads doesn't do.
    Line(LineFault),
}

impl From<AllocError> for ThreadsFault {
    ghost from_gives = { λ _ fault. fault ≡ Memory };

    fn from(_error: AllocError) -> ThreadsFault {
        ThreadsFault::Memory
    }
}

impl<T: Drop> From<AllocFailed<T>> for ThreadsFault {
    ghost from_gives = { λ _ fault. fault ≡ Memory };

    fn from(_error: AllocFailed<T>) -> ThreadsFault {
        ThreadsFault::Memory
    }
}

/// The sizes of a heap that its actors need.
#[derive(Clone, Copy)]
struct Sizes {
    threads: u32,
    workers: u32,
    registers: u32,
}

/// Does the work of one actor, in its own thread; for a worker with its seat of hints.
fn play<R: Threads + Wait + Sync, G: Gate>(
    run: &Run<R, G>,
    alloc: Global,
    seat: Seat,
    hints: Option<HintSeat>,
    commands: &[Command],
    sizes: Sizes,
) -> Seat {
    match seat.actor() {
        Actor::Thread(thread) => {
            let mutator = Mutator {
                run,
                thread,
                registers: sizes.registers,
            };
            mutator.work(alloc, seat, commands)
        }
        Actor::Worker(0) => {
            let scanner = Scanner::new(0, sizes.workers, hints);
            let collector = Collector { scanner };
            collector.work(alloc, run, seat, commands)
        }
        Actor::Worker(worker) => help(run, seat, Scanner::new(worker, sizes.workers, hints)),
    }
}

/// Returns the next seat of hints, if the seat is a worker's.
fn hints_for(seat: &Seat, hints: &mut IntoIter<HintSeat>) -> Option<HintSeat> {
    match seat.actor() {
        Actor::Thread(_) => None,
        Actor::Worker(_) => hints.next(),
    }
}

/// Starts a thread for each actor, and returns the seats when they have ended. Fails if out of memory, or if a thread
/// couldn't be started.
fn all_played<R: Threads + Wait + Sync, G: Gate + Sync>(
    run: &Run<R, G>,
    alloc: Global,
    seats: Vec<Seat>,
    hints: Vec<HintSeat>,
    commands: &[Command],
    sizes: Sizes,
) -> Result<Vec<Seat>, AllocError> {
    thread::scope(thread::scope_env(), run.rt, move |scope| {
        let mut handles = Vec::with_capacity(alloc, seats.len())?;
        let mut left = Vec::with_capacity(alloc, seats.len())?;
        let mut hints = hints.into_iter();
        for seat in seats {
            let own = hints_for(&seat, &mut hints);
            match scope.spawn(move || play(run, alloc, seat, own, commands, sizes)) {
                Ok(handle) => handles.push(handle)?,
                Err(_) => run.lack(),
            }
        }
        for handle in handles {
            left.push(handle.join(run.rt))?;
        }
        if run.has_lacked() {
            Err(AllocError)
        } else {
            Ok(left)
        }
    })
}

/// Does the commands on a shared recorded heap by threads, one for each seat, and returns the seats when they have
/// ended. Fails if out of memory, or if a thread couldn't be started.
fn played<R: Threads + Wait + Sync, G: Gate + Sync>(
    rt: &R,
    alloc: Global,
    shared: &Shared,
    seats: Vec<Seat>,
    sizes: Sizes,
    commands: &[Command],
    gate: &G,
) -> Result<Vec<Seat>, AllocError> {
    let hints = Hints::new(alloc, sizes.workers)?;
    let busy = AtomicU64::new(u64::from(sizes.threads) + 1);
    let lacked = AtomicU64::new(0);
    let run = Run {
        rt,
        shared,
        gate,
        busy: &busy,
        workers: sizes.workers,
        lacked: &lacked,
    };
    all_played(&run, alloc, seats, hints, commands, sizes)
}

/// Does the commands on a recorded heap by threads, one for each actor.
fn raced<R: Threads + Wait + Sync, G: Gate + Sync>(
    rt: &R,
    alloc: Global,
    book: Book,
    commands: &[Command],
    gate: &G,
) -> Result<Settled, ThreadsFault>
    ensures settled { IfOk result (λ s. AreSettled s.book.history s.seats.items) }
    ensures run { IfErr result (λ fault. is_line fault ≡ false) }
{
    let config = book.heap().config();
    let sizes = Sizes {
        threads: config.threads,
        workers: config.workers,
        registers: config.registers,
    };
    let Some((shared, seats)) = Shared::open(alloc, book).ok() else {
        return Err(ThreadsFault::Memory);
    };
    let seats = played(rt, alloc, &shared, seats, sizes, commands, gate);
    settled_or_stray(shared, seats)
}

/// Returns the recorded heap and the seats, if they agree.
fn settled_or_stray(
    shared: Shared,
    seats: Result<Vec<Seat>, AllocError>,
) -> Result<Settled, ThreadsFault>
    ensures settled { IfOk result (λ s. AreSettled s.book.history s.seats.items) }
    ensures run { IfErr result (λ fault. is_line fault ≡ false) }
{
    match seats {
        Ok(seats) => match settle(shared.into_book(), seats) {
            Ok(settled) => Ok(settled),
            Err(stray) => Err(ThreadsFault::Stray(stray.actor)),
        },
        Err(_) => Err(ThreadsFault::Memory),
    }
}

/// Runs a script on a new heap by system threads, one for each actor: each does its own commands in the script's
/// order, each step through the gate and under one hold of the lock (several steps that scan under one hold, if the
/// gate doesn't watch). Then the seats and the history are settled.
///
/// Fails with `Memory` if out of memory or if a thread couldn't be started, and with `Stray`; and with `Line`, before
/// any step, if the script has a command that such a run doesn't do: the first one's fault.
pub fn by_threads<R: Threads + Wait + Sync, G: Gate + Sync>(
    rt: &R,
    alloc: Global,
    script: &Script,
    gate: &G,
) -> Result<Settled, ThreadsFault>
    ensures settled { IfOk result (λ s. AreSettled s.book.history s.seats.items) }
    ensures line { IfErr result (λ fault. is_line fault ≡ true → needs_schedule script.now.commands ≡ true) }
    ensures told { needs_schedule script.now.commands ≡ true → TellsLine script.now.spots.other result }
{
    if let Some(fault) = script.spots().other {
        return Err(ThreadsFault::Line(fault));
    }
    let config = script.config().copy(alloc)?;
    let Ok(book) = Book::new(alloc, config) else {
        return Err(ThreadsFault::Memory);
    };
    raced(rt, alloc, book, script.commands(), gate)
}
