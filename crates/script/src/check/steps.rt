//! Commands whose steps are done one by one: the heap is verified after each accepted one.

ghost use Rattle.std.specs.Prelude.{◌≡◌, ◌++◌, ◌∷◌, [], None, false, IfErr, IfOk, OnOk};
ghost use Rattle.verify.specs.Faults.{VerdictIs};
ghost use Rattle.verify.specs.Pictures.{image_of};
ghost use Rattle.verify.specs.declared.verdict.Verdict.TheVariants.{Sound};
ghost use Rattle.script.specs.Stops.{IsWant};
ghost use Rattle.script.specs.declared.check.steps.Stop.TheVariants.{Memory};
ghost use Rattle.cycle.specs.Books.{act_outcome};
ghost use Rattle.cycle.specs.Drains.{drain, drain_within};
ghost use Rattle.cycle.specs.Loads.{Leaves, Says, one_step, finish_load, heal_load, trap_load, whole_load};
ghost use Rattle.parser.specs.Orders.{step_of};
ghost use Rattle.script.specs.Output.{done};

use cycle::{Actor, Book, MOST_TRAPS, Reply, Step, is_clear, next_drain};
use heap_images::verify;
use parser::{Command, Then};
use std::alloc::{AllocError, Global};
use verify::{Fault, Verdict, one_verdict};

/// Why the steps of a command stop early.
#[derive(Clone, Copy, Debug, PartialEq, Eq)]
pub enum Stop {
    /// Out of memory.
    Memory,
    /// A verification found this fault.
    Faulty(Fault),
}

impl From<AllocError> for Stop {
    ghost from_gives = { λ _ stop. stop ≡ Memory };

    fn from(_error: AllocError) -> Stop {
        Stop::Memory
    }
}

/// Returns the verdict on the image of a recorded heap, which is that it is sound. Its time is linear in the words of
/// all frames and pages. Fails only if out of memory.
#[tactic(auto, using(crate::proofs::Books::book_sound))]
pub fn verify_book(alloc: Global, book: &Book) -> Result<Verdict, AllocError>
    ensures verdict { IfOk result (VerdictIs (image_of book.now.heap)) }
    ensures sound { IfOk result (λ verdict. verdict ≡ Sound) }
{
    book.law();
    heap_images::law();
    one_verdict();
    verify(alloc, book.heap())
}

/// Returns the fault that a verification of the current heap finds: none. Fails only if out of memory.
pub(crate) fn look(alloc: Global, book: &Book) -> Result<Option<Fault>, AllocError>
    ensures { IfOk result (λ fault. fault ≡ None) }
{
    match verify_book(alloc, book)? {
        Verdict::Sound => Ok(None),
        Verdict::Faulty(fault) => Ok(Some(fault)),
    }
}

/// Does one step, and appends its reply; if it is accepted, verifies the heap after it.
fn check_step(
    alloc: Global,
    book: &mut Book,
    actor: Actor,
    step: Step,
    replies: &mut Vec<Reply>,
) -> Result<Reply, Stop>
    ensures says { IfOk result (λ reply. Says book.old reply book.new (act_outcome book.old actor step)) }
    ensures replies { IfOk result (λ reply. replies.new.items ≡ replies.old.items ++ reply ∷ []) }
    ensures sound { IfErr result IsWant }
{
    let reply = book.act_into(actor, step, replies)?;
    if reply.is_ok() {
        if let Some(fault) = look(alloc, book)? {
            return Err(Stop::Faulty(fault));
        }
    }
    Ok(reply)
}

/// Does a command that is one step.
fn check_one(
    alloc: Global,
    book: &mut Book,
    command: &Command,
    replies: &mut Vec<Reply>,
) -> Result<(), Stop>
    ensures steps { OnOk result
        (Leaves (one_step book.old command.now.actor (step_of command.now.order)) replies.old.items
        book.new replies.new.items) }
    ensures sound { IfErr result IsWant }
{
    let step = command.order.step(alloc)?;
    let _reply = check_step(alloc, book, command.actor, step, replies)?;
    Ok(())
}

/// Ends a load.
fn check_finish(
    alloc: Global,
    book: &mut Book,
    actor: Actor,
    replies: &mut Vec<Reply>,
) -> Result<(), Stop>
    ensures steps { OnOk result (Leaves (finish_load book.old actor) replies.old.items book.new replies.new.items) }
    ensures sound { IfErr result IsWant }
{
    let _reply = check_step(alloc, book, actor, Step::Finish, replies)?;
    Ok(())
}

/// Heals the place of a load, if a trap was due, and ends the load.
fn check_heal(
    alloc: Global,
    book: &mut Book,
    actor: Actor,
    due: bool,
    replies: &mut Vec<Reply>,
) -> Result<(), Stop>
    ensures steps { OnOk result
        (Leaves (heal_load due book.old actor) replies.old.items book.new replies.new.items) }
    ensures sound { IfErr result IsWant }
{
    if due {
        match check_step(alloc, book, actor, Step::Heal, replies)? {
            Ok(_) => check_finish(alloc, book, actor, replies),
            Err(_) => Ok(()),
        }
    } else {
        check_finish(alloc, book, actor, replies)
    }
}

/// Does what follows the step that begins a load: traps until one is clear, and the load's end.
fn check_traps(
    alloc: Global,
    book: &mut Book,
    actor: Actor,
    replies: &mut Vec<Reply>,
) -> Result<(), Stop>
    ensures steps { OnOk result
        (Leaves (trap_load 3 false book.old actor) replies.old.items book.new replies.new.items) }
    ensures sound { IfErr result IsWant }
{
    let mut due = false;
    for _ in 0..MOST_TRAPS {
        match check_step(alloc, book, actor, Step::Trap, replies)? {
            Err(_) => return Ok(()),
            Ok(answer) => {
                if is_clear(answer) {
                    return check_heal(alloc, book, actor, due, replies);
                }
                due = true;
            }
        }
    }
    check_heal(alloc, book, actor, due, replies)
}

/// Does a command that is a complete load.
fn check_load(
    alloc: Global,
    book: &mut Book,
    command: &Command,
    replies: &mut Vec<Reply>,
) -> Result<(), Stop>
    ensures steps { OnOk result
        (Leaves (whole_load book.old command.now.actor (step_of command.now.order)) replies.old.items
        book.new replies.new.items) }
    ensures sound { IfErr result IsWant }
{
    let load = command.order.step(alloc)?;
    match check_step(alloc, book, command.actor, load, replies)? {
        Ok(_) => check_traps(alloc, book, command.actor, replies),
        Err(_) => Ok(()),
    }
}

/// Does at most `most` steps of a worker's drain.
fn check_scans(
    alloc: Global,
    book: &mut Book,
    most: u64,
    worker: u32,
    replies: &mut Vec<Reply>,
) -> Result<(), Stop>
    ensures steps { OnOk result
        (Leaves (drain_within most book.old worker) replies.old.items book.new replies.new.items) }
    ensures sound { IfErr result IsWant }
{
    for _ in 0..most {
        let Some(step) = next_drain(book.heap(), worker) else {
            return Ok(());
        };
        if let Err(_) = check_step(alloc, book, Actor::Worker(worker), step, replies)? {
            return Ok(());
        }
    }
    Ok(())
}

/// Does a worker's drain.
fn check_drain(
    alloc: Global,
    book: &mut Book,
    worker: u32,
    replies: &mut Vec<Reply>,
) -> Result<(), Stop>
    ensures steps { OnOk result (Leaves (drain book.old worker) replies.old.items book.new replies.new.items) }
    ensures sound { IfErr result IsWant }
{
    let heap = book.heap();
    heap.law();
    let most = heap.config().history + 1;
    check_scans(alloc, book, most, worker, replies)
}

/// Does what `check_command` does.
#[tactic(auto, unfolding(crate::specs::Output::done), using(crate::proofs::Commands::same_book, crate::proofs::Commands::same_replies))]
fn check_steps(
    alloc: Global,
    book: &mut Book,
    command: &Command,
    replies: &mut Vec<Reply>,
) -> Result<(), Stop>
    ensures replies { OnOk result (replies.new.items ≡ (done book.old command.now).replies) }
    ensures book { OnOk result (book.new ≡ (done book.old command.now).book) }
    ensures sound { IfErr result IsWant }
{
    replies.clear();
    match command.order.then() {
        Then::Nothing | Then::Cycles | Then::Rolls => check_one(alloc, book, command, replies),
        Then::LoadsEnd => check_load(alloc, book, command, replies),
        Then::Drains => match command.actor {
            Actor::Worker(worker) => check_drain(alloc, book, worker, replies),
            Actor::Thread(_) => check_one(alloc, book, command, replies),
        },
    }
}

/// Does a command, as a run does, up to its end, its first error, or the first fault that a verification finds.
/// Returns that fault. `replies` is a list that is reused: its contents are replaced by the replies to the steps,
/// which are those in a run. Fails only if out of memory.
pub(crate) fn check_command(
    alloc: Global,
    book: &mut Book,
    command: &Command,
    replies: &mut Vec<Reply>,
) -> Result<Option<Fault>, AllocError>
    ensures fault { IfOk result (λ fault. fault ≡ None) }
    ensures replies { OnOk result (replies.new.items ≡ (done book.old command.now).replies) }
    ensures book { OnOk result (book.new ≡ (done book.old command.now).book) }
{
    match check_steps(alloc, book, command, replies) {
        Ok(()) => Ok(None),
        Err(Stop::Faulty(fault)) => Ok(Some(fault)),
        Err(Stop::Memory) => Err(AllocError),
    }
}
