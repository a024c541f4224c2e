//! Commands, whose steps are done one by one, as in a run.

use crate::filmed::Filmed;
use crate::lines::tell_state;
use crate::steps::put_step;
use anyhow::{Result, bail};
use cycle::{Actor, MOST_TRAPS, Reply, Step, is_clear, next_drain};
use model::Refusal;
use reporting::ReplyText;
use script::{Command, Then, tell};
use std::alloc::{AllocError, Global};
use std::fmt::Write as _;
use std::io;

/// What is written of a command's steps, and their replies.
#[derive(Drop)]
pub struct Take {
    alloc: Global,
    /// Whether each step is written, with the state after it.
    is_whole: bool,
    /// The replies to the command's steps, in order.
    pub replies: Vec<Reply>,
}

impl Take {
    /// Returns the state before the first command.
    pub fn new(alloc: Global, is_whole: bool) -> Take {
        Take {
            alloc,
            is_whole,
            replies: Vec::new(alloc),
        }
    }
}

/// Returns the line of a step before it is done.
fn step_line(alloc: Global, actor: Actor, step: &Step) -> Result<String, AllocError> {
    let mut text = String::new(alloc);
    text.push_str("step ")?;
    put_step(&mut text, actor, step)?;
    text.push('\n')?;
    Ok(text)
}

/// Returns the line of a reply.
fn reply_line(alloc: Global, reply: Reply) -> Result<String, AllocError> {
    let mut text = String::new(alloc);
    let reply = ReplyText(reply);
    writeln!(text, "reply {reply}")?;
    Ok(text)
}

/// Does one step, and writes it with its reply and the state after it.
fn shot<W: io::Write>(
    alloc: Global,
    book: &mut impl Filmed,
    actor: Actor,
    step: Step,
    w: &mut W,
) -> Result<Reply> {
    tell(w, &step_line(alloc, actor, &step)?)?;
    let reply = book.act(actor, step);
    tell(w, &reply_line(alloc, reply)?)?;
    tell_state(alloc, book, w)?;
    Ok(reply)
}

/// Does one step. Fails if out of memory; so the reply is never `Memory`.
fn do_step<W: io::Write>(
    take: &mut Take,
    book: &mut impl Filmed,
    actor: Actor,
    step: Step,
    w: &mut W,
) -> Result<Reply> {
    let reply = if take.is_whole {
        shot(take.alloc, book, actor, step, w)?
    } else {
        book.act(actor, step)
    };
    if matches!(reply, Err(Refusal::Memory)) {
        bail!("out of memory");
    }
    take.replies.push(reply)?;
    Ok(reply)
}

/// Does what follows the traps of a load: heals its place if a trap was due, and ends it.
fn end_load<W: io::Write>(
    take: &mut Take,
    book: &mut impl Filmed,
    actor: Actor,
    due: bool,
    w: &mut W,
) -> Result<()> {
    if due && do_step(take, book, actor, Step::Heal, w)?.is_err() {
        return Ok(());
    }
    let _reply = do_step(take, book, actor, Step::Finish, w)?;
    Ok(())
}

/// Does what follows the first step of a load: traps until one is clear, and the load's end.
fn trap<W: io::Write>(
    take: &mut Take,
    book: &mut impl Filmed,
    actor: Actor,
    w: &mut W,
) -> Result<()> {
    let mut due = false;
    for _ in 0..MOST_TRAPS {
        match do_step(take, book, actor, Step::Trap, w)? {
            Err(_) => return Ok(()),
            Ok(answer) if is_clear(answer) => return end_load(take, book, actor, due, w),
            Ok(_) => due = true,
        }
    }
    end_load(take, book, actor, due, w)
}

/// Does all steps of a worker's drain.
fn drain<W: io::Write>(
    take: &mut Take,
    book: &mut impl Filmed,
    actor: Actor,
    worker: u32,
    w: &mut W,
) -> Result<()> {
    for _ in 0..u64::MAX {
        let Some(step) = next_drain(book.heap(), worker) else {
            return Ok(());
        };
        if do_step(take, book, actor, step, w)?.is_err() {
            return Ok(());
        }
    }
    Ok(())
}

/// Does the steps of a command, up to its end or its first error. Their replies replace those of the command before.
pub fn do_command<W: io::Write>(
    take: &mut Take,
    book: &mut impl Filmed,
    command: &Command,
    w: &mut W,
) -> Result<()> {
    take.replies.clear();
    let actor = command.actor;
    if let (Then::Drains, Actor::Worker(worker)) = (command.order.then(), actor) {
        return drain(take, book, actor, worker, w);
    }
    let step = command.order.step(take.alloc)?;
    let reply = do_step(take, book, actor, step, w)?;
    if reply.is_ok() && matches!(command.order.then(), Then::LoadsEnd) {
        return trap(take, book, actor, w);
    }
    Ok(())
}
