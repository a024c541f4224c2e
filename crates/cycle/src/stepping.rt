//! Steps on a heap.

ghost use Rattle.std.specs.Prelude.{◌≡◌, false};
ghost use Rattle.model.specs.Refusing.{Does, DoesStep};
ghost use Rattle.model.specs.declared.steps.Actor.TheVariants.{Thread, Worker};
ghost use Rattle.model.specs.declared.steps.Step.TheVariants as steps;
ghost use Rattle.model.specs.Outcome.{WorkerPasses, worker_row, outcome};
ghost use Rattle.refinement.specs.Standing.{KeepsStanding};

use crate::arms;
use crate::gate::{thread_gate, worker_gate};
use crate::saying::copied_page;
use heap::Heap;
use model::{Actor, Refusal, Reply, Step};
use relocate::PieceGate;
use std::thread::Threads;

/// The steps of actors on a heap, one at a time.
pub trait Stepping {
    /// Does one step of an actor, which is accepted or rejected. A rejected step changes nothing.
    fn step(&mut self, actor: Actor, step: &Step) -> Reply;
}

impl Stepping for Heap {
    /// Has exactly the step's outcome: the first test that applies rejects it; else it returns its answer and has its
    /// effect. It fails with `Memory` for `Take` and `Protect` alone, if out of memory for a fresh page or for what
    /// `Protect` prepares, and then changes nothing.
    ///
    /// If the heap represents a reference model, in which no object moves or is freed, it also does after an accepted
    /// step, and the answer is the reference model's.
    #[inline(always)]
    fn step(&mut self, actor: Actor, step: &Step) -> Reply
        ensures does { DoesStep self.old step.now result self.new (outcome self.old actor step.now) }
        ensures stands { KeepsStanding self.old actor step.now result self.new }
    {
        self.law();
        refinement::law();
        actor_row(self, actor, step)
    }
}

/// Does the step of an actor.
#[inline(always)]
#[tactic(auto, unfolding(model::specs::Outcome::outcome, model::specs::Outcome::worker_gate))]
fn actor_row(heap: &mut Heap, actor: Actor, step: &Step) -> Reply
    ensures { DoesStep heap.old step.now result heap.new (outcome heap.old actor step.now) }
{
    match actor {
        Actor::Thread(thread) => thread_step(heap, thread, step),
        Actor::Worker(worker) => {
            worker_gate(heap, worker, step)?;
            worker_row(heap, worker, step)
        }
    }
}

/// Does the step of a thread: its call, which makes the leading tests, and the answer that the value represents. Tests
/// before this match, as a worker's step has them, take more instructions: the call knows the kind of its step, and
/// looks its thread up once for its tests and its effect.
#[inline(always)]
#[tactic(auto, unfolding(model::specs::Outcome::outcome, model::specs::Outcome::thread_gate))]
fn thread_step(heap: &mut Heap, thread: u32, step: &Step) -> Reply
    ensures { DoesStep heap.old step.now result heap.new (outcome heap.old (Thread thread) step.now) }
{
    match step {
        Step::Take(words) => arms::take(heap, thread, *words),
        Step::GiveBack => arms::give_back(heap, thread),
        Step::New { target, layout } => { arms::new_object(heap, thread, *target, *layout) }
        Step::Load {
            target,
            object,
            field,
        } => arms::load(heap, thread, *target, *object, *field),
        Step::LoadGlobal { target, global } => arms::load_global(heap, thread, *target, *global),
        Step::Trap => arms::trap(heap, thread),
        Step::Heal => arms::heal(heap, thread),
        Step::Finish => arms::finish(heap, thread),
        Step::Store {
            object,
            field,
            source,
        } => arms::store(heap, thread, *object, *field, *source),
        Step::StoreGlobal { global, source } => arms::store_global(heap, thread, *global, *source),
        Step::Datum { object, index } => { arms::datum(heap, thread, *object, *index) }
        Step::SetDatum {
            object,
            index,
            value,
        } => arms::set_datum(heap, thread, *object, *index, *value),
        Step::Same { left, right } => { arms::same(heap, thread, *left, *right) }
        Step::IsNull(register) => arms::is_null(heap, thread, *register),
        Step::CopyReg { target, source } => arms::copy_register(heap, thread, *target, *source),
        Step::ClearReg(target) => arms::clear_register(heap, thread, *target),
        Step::Cross => arms::cross(heap, thread),
        Step::Scrub(register) => arms::scrub(heap, thread, *register),
        Step::Park => arms::park(heap, thread),
        Step::Unpark => arms::unpark(heap, thread),
        _ => {
            thread_gate(heap, thread, step)?;
            Err(Refusal::NoActor)
        }
    }
}

/// Does the step of a worker, after its leading tests.
fn worker_row(heap: &mut Heap, worker: u32, step: &Step) -> Reply
    requires { WorkerPasses heap.old worker step.now }
    ensures { DoesStep heap.old step.now result heap.new (worker_row heap.old worker step.now) }
{
    match step {
        Step::StartMark => marker::start_mark(heap, worker),
        Step::Pick { page, offset } => marker::pick(heap, worker, *page, *offset),
        Step::ScanField => marker::scan_field(heap, worker),
        Step::ScanGlobal(global) => marker::scan_global(heap, worker, *global),
        Step::EndMark => marker::end_mark(heap, worker),
        Step::Protect(pages) => relocate::protect(heap, worker, pages.as_slice()),
        Step::Copy { page, entry } => relocate::copy(heap, worker, *page, *entry),
        Step::CopyPage(page) => copied_page(relocate::copy_page(heap, *page)),
        Step::Release(page) => relocate::release(heap, worker, *page),
        Step::CrossFor(thread) => checkpoint::cross_for(heap, worker, *thread),
        _ => Err(Refusal::NoActor),
    }
}

/// Does a worker's step that copies the objects of a page, by halves on threads. It does what `step` does for it.
pub(crate) fn copy_page_by<R: Threads + Sync, G: PieceGate + Sync>(
    rt: &R,
    heap: &mut Heap,
    worker: u32,
    page: u32,
    depth: u32,
    gate: &G,
) -> Reply
    ensures does { Does heap.old result heap.new (outcome heap.old (Worker worker) (steps.CopyPage page)) }
    ensures stands { KeepsStanding heap.old (Worker worker) (steps.CopyPage page) result heap.new }
{
    heap.law();
    refinement::law();
    copy_row_by(rt, heap, worker, page, depth, gate)
}

/// Tests the step and does it.
#[tactic(auto, unfolding(model::specs::Outcome::outcome, model::specs::Outcome::worker_gate))]
fn copy_row_by<R: Threads + Sync, G: PieceGate + Sync>(
    rt: &R,
    heap: &mut Heap,
    worker: u32,
    page: u32,
    depth: u32,
    gate: &G,
) -> Reply
    ensures { Does heap.old result heap.new (outcome heap.old (Worker worker) (steps.CopyPage page)) }
{
    worker_gate(heap, worker, &Step::CopyPage(page))?;
    copied_page(relocate::copy_page_by(rt, heap, page, depth, gate))
}
