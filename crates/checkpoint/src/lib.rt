//! Checkpoints, and parking threads.
#![tactic(auto)]

ghost use Rattle.std.specs.Prelude.{◌≡◌, Ok};
ghost use Rattle.model.specs.Refusing.{Does};
ghost use Rattle.model.specs.Saying.{said, done, scrubbed};
ghost use Rattle.model.specs.Outcome.{Passes, WorkerPasses};
ghost use Rattle.model.specs.declared.steps.Step.TheVariants as steps;
ghost use Rattle.model.specs.declared.steps.Answer.TheVariants as answers;
ghost use Rattle.model.specs.Checkpoints.{with_marked_register, with_marked_registers, marked_at_crossing};
ghost use Rattle.model.specs.Checkpoints.{cross_thread, may_cross, cross_for_outcome};
ghost use Rattle.model.specs.Checkpoints.{cross_outcome, park_outcome, unpark_outcome};
ghost use Rattle.model.specs.Traps.{scrub_word, scrub_outcome};

use heap::{Heap, RawCollectorEdits, RawEdits};
use marker::mark;
use model::{Answer, Phase, Refusal, Reply};
use refword::Addr;
use single_copies::follow;

/// Marks the reference in a register, whose object is copied first if needed. Threads and registers count from 0.
#[tactic(auto, unfolding(model::specs::Checkpoints::with_marked_register, model::specs::Checkpoints::with_marked_word))]
fn mark_register(heap: &mut Heap, thread: u32, register: u32)
    ensures { heap.new ≡ with_marked_register heap.old thread register }
{
    let word = heap.register(thread, register);
    let marked = mark(heap, word);
    heap.set_register(thread, register, marked);
}

/// Marks the references in the first `count` registers of a thread.
#[tactic(auto, using(crate::proofs::Registers::marked_more))]
fn mark_registers(heap: &mut Heap, thread: u32, count: u32)
    ensures { heap.new ≡ with_marked_registers heap.old thread count }
{
    for register in 0..count {
        mark_register(heap, thread, register);
    }
}

/// Returns how many registers of a thread a crossing marks: all at a mark's checkpoint, else none.
fn marked_at_crossing(heap: &Heap) -> u32
    ensures { result ≡ marked_at_crossing heap.now }
{
    if heap.phase().is_mark_crossing() {
        heap.config().registers
    } else {
        0
    }
}

/// Crosses the open checkpoint for a thread.
#[tactic(auto, unfolding(model::specs::Checkpoints::cross_thread))]
fn cross_thread(heap: &mut Heap, thread: u32)
    ensures { heap.new ≡ cross_thread heap.old thread }
{
    let count = marked_at_crossing(heap);
    mark_registers(heap, thread, count);
    heap.set_crossed(thread);
}

/// Tests whether a thread has yet to cross the open checkpoint. Fails with `Phase` if none is open, and with
/// `AlreadyCrossed` if the thread has crossed.
#[tactic(auto, unfolding(model::specs::Checkpoints::may_cross))]
fn may_cross(heap: &Heap, thread: u32) -> Result<(), Refusal>
    ensures { result ≡ may_cross heap.now thread }
{
    if !heap.phase().is_crossing() {
        return Err(Refusal::Phase);
    }
    if heap.has_crossed(thread) {
        return Err(Refusal::AlreadyCrossed);
    }
    Ok(())
}

/// Does what `cross` does, for a thread's step and for a worker's.
#[tactic(auto, unfolding(model::specs::Checkpoints::cross_outcome))]
fn cross_open(heap: &mut Heap, thread: u32) -> Result<(), Refusal>
    ensures { Does heap.old (said done result) heap.new (cross_outcome heap.old thread) }
{
    may_cross(heap, thread)?;
    cross_thread(heap, thread);
    Ok(())
}

/// Crosses the open checkpoint for a thread. At a mark's checkpoint the references in its registers are marked; at
/// that of protected pages registers stay as they are. If the thread is the last, the next phase begins. Threads
/// count from 0.
///
/// Fails with `Phase` if no checkpoint is open, and with `AlreadyCrossed` if the thread has crossed.
pub fn cross(heap: &mut Heap, thread: u32) -> Result<(), Refusal>
    requires { Passes heap.old thread steps.Cross }
    ensures { Does heap.old (said done result) heap.new (cross_outcome heap.old thread) }
{
    cross_open(heap, thread)
}

/// Crosses the open checkpoint for a parked thread, as a worker's step. Workers and threads count from 0.
///
/// Fails with `NotParked` if the thread isn't parked, and then as `cross` does.
#[tactic(auto, unfolding(model::specs::Checkpoints::cross_for_outcome))]
pub fn cross_for(heap: &mut Heap, worker: u32, thread: u32) -> Reply
    requires { WorkerPasses heap.old worker (steps.CrossFor thread) }
    ensures { Does heap.old result heap.new (cross_for_outcome heap.old thread) }
{
    if heap.is_parked(thread) {
        cross_open(heap, thread)?;
        Ok(Answer::Done)
    } else {
        Err(Refusal::NotParked)
    }
}

/// Corrects the reference in a register unless the thread may use it as it is. Returns whether it did. Fails with
/// `Stall` while pages are being protected.
fn scrub_word(
    heap: &mut Heap,
    thread: u32,
    register: u32,
    address: Addr,
    nmt: bool,
) -> Result<bool, Refusal>
    ensures { Does heap.old (said scrubbed result) heap.new (scrub_word heap.old thread register (address, nmt)) }
{
    if heap.let_through(thread, address).is_ok() {
        return Ok(false);
    }
    if matches!(heap.phase(), Phase::ProtectCrossing) {
        return Err(Refusal::Stall);
    }
    let moved = follow(heap, address, nmt);
    heap.set_register(thread, register, moved);
    Ok(true)
}

/// Corrects a register that refers to a protected page: it then refers to the copy, which is made first if it isn't
/// there. A register that may be used as it is stays. Returns whether it was corrected. Threads and registers count
/// from 0.
///
/// Fails with `Null` if the register is null, and with `Stall` if it refers to a protected page, this thread has
/// crossed the checkpoint of protected pages, and some thread hasn't.
#[tactic(auto, unfolding(model::specs::Traps::scrub_outcome))]
pub fn scrub(heap: &mut Heap, thread: u32, register: u32) -> Result<bool, Refusal>
    requires { Passes heap.old thread (steps.Scrub register) }
    ensures { Does heap.old (said scrubbed result) heap.new (scrub_outcome heap.old thread register) }
{
    let word = heap.register(thread, register);
    match word.addr() {
        None => Err(Refusal::Null),
        Some(address) => scrub_word(heap, thread, register, address, word.nmt()),
    }
}

/// Parks a thread: it may do nothing but `Unpark`. Threads count from 0. It can't fail.
#[tactic(auto, unfolding(model::specs::Checkpoints::park_outcome))]
pub fn park(heap: &mut Heap, thread: u32)
    requires { Passes heap.old thread steps.Park }
    ensures { park_outcome heap.old thread ≡ Ok (heap.new, answers.Done) }
{
    heap.set_parked(thread, true);
}

/// Lets a parked thread run again. Threads count from 0. Fails with `NotParked` if it isn't parked.
#[tactic(auto, unfolding(model::specs::Checkpoints::unpark_outcome))]
pub fn unpark(heap: &mut Heap, thread: u32) -> Result<(), Refusal>
    requires { Passes heap.old thread steps.Unpark }
    ensures { Does heap.old (said done result) heap.new (unpark_outcome heap.old thread) }
{
    if !heap.is_parked(thread) {
        return Err(Refusal::NotParked);
    }
    heap.set_parked(thread, false);
    Ok(())
}
