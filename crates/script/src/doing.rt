//! The steps of one command.

ghost use Rattle.std.specs.Prelude.{◌≡◌, OnOk};
ghost use Rattle.cycle.specs.Drains.{drain};
ghost use Rattle.cycle.specs.Loads.{Leaves, whole_load, one_step};
ghost use Rattle.parser.specs.Orders.{step_of};
ghost use Rattle.script.specs.Output.{done};

use crate::fault::RunFault;
use cycle::Book;
use model::{Actor, Answer, Refusal};
use parser::{Command, Then};
use std::alloc::Global;

/// Does a command that is one step. Fails with `Memory` if out of memory, also in the step.
fn do_step(
    alloc: Global,
    book: &mut Book,
    command: &Command,
    replies: &mut Vec<Result<Answer, Refusal>>,
) -> Result<(), RunFault>
    ensures { OnOk result
        (Leaves (one_step book.old command.now.actor (step_of command.now.order)) replies.old.items
        book.new replies.new.items) }
{
    let step = command.order.step(alloc)?;
    let _reply = book.act_into(command.actor, step, replies)?;
    Ok(())
}

/// Does a command that is a complete load. Fails with `Memory` if out of memory, also in a step.
fn do_load(
    alloc: Global,
    book: &mut Book,
    command: &Command,
    replies: &mut Vec<Result<Answer, Refusal>>,
) -> Result<(), RunFault>
    ensures { OnOk result
        (Leaves (whole_load book.old command.now.actor (step_of command.now.order)) replies.old.items
        book.new replies.new.items) }
{
    let step = command.order.step(alloc)?;
    match book.whole_load(command.actor, step, replies) {
        Err(Refusal::Memory) => Err(RunFault::Memory),
        _ => Ok(()),
    }
}

/// Does a command that is a drain of a worker. Fails with `Memory` if out of memory, also in a step.
fn do_drain(
    book: &mut Book,
    worker: u32,
    replies: &mut Vec<Result<Answer, Refusal>>,
) -> Result<(), RunFault>
    ensures { OnOk result (Leaves (drain book.old worker) replies.old.items book.new replies.new.items) }
{
    if let Err(Refusal::Memory) = book.drain(worker, replies) {
        return Err(RunFault::Memory);
    }
    Ok(())
}

/// Does a command: one step, or the steps of a load or a drain up to its end or its first error. `replies` is a list
/// that is reused: its contents are replaced by the replies to the steps, in order. Fails with `Memory` if out of
/// memory, also in a step.
#[tactic(auto, unfolding(crate::specs::Output::done), using(crate::proofs::Commands::same_book, crate::proofs::Commands::same_replies))]
pub fn do_command(
    alloc: Global,
    book: &mut Book,
    command: &Command,
    replies: &mut Vec<Result<Answer, Refusal>>,
) -> Result<(), RunFault>
    ensures replies { OnOk result (replies.new.items ≡ (done book.old command.now).replies) }
    ensures book { OnOk result (book.new ≡ (done book.old command.now).book) }
{
    replies.clear();
    match command.order.then() {
        Then::Nothing | Then::Cycles | Then::Rolls => do_step(alloc, book, command, replies),
        Then::LoadsEnd => do_load(alloc, book, command, replies),
        Then::Drains => match command.actor {
            Actor::Worker(worker) => do_drain(book, worker, replies),
            Actor::Thread(_) => do_step(alloc, book, command, replies),
        },
    }
}
