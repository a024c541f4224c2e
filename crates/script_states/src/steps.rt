//! Steps and commands in the words of scripts.

use model::{Actor, Step};
use parser::{Command, Order, Verb};
use reporting::ActorText;
use std::alloc::{AllocError, Global};
use std::fmt::Write as _;

/// Appends the step of a thread on its buffer, its registers or its data.
fn put_own(text: &mut String, step: &Step) -> Result<(), AllocError> {
    match step {
        Step::Take(words) => write!(text, "take {words}"),
        Step::GiveBack => text.push_str("give"),
        Step::New { target, layout } => write!(text, "new r{target} {layout}"),
        Step::Datum { object, index } => write!(text, "datum r{object} {index}"),
        Step::SetDatum {
            object,
            index,
            value,
        } => write!(text, "set r{object} {index} {value}"),
        Step::Same { left, right } => write!(text, "same r{left} r{right}"),
        Step::IsNull(register) => write!(text, "null r{register}"),
        Step::CopyReg { target, source } => write!(text, "mov r{target} r{source}"),
        Step::ClearReg(register) => write!(text, "clear r{register}"),
        _ => put_shared(text, step),
    }
}

/// Appends the step of a thread on references, globals or checkpoints.
fn put_shared(text: &mut String, step: &Step) -> Result<(), AllocError> {
    match step {
        Step::Load {
            target,
            object,
            field,
        } => write!(text, "load r{target} r{object} {field}"),
        Step::LoadGlobal { target, global } => write!(text, "loadg r{target} {global}"),
        Step::Trap => text.push_str("trap"),
        Step::Heal => text.push_str("heal"),
        Step::Finish => text.push_str("finish"),
        Step::Store {
            object,
            field,
            source,
        } => write!(text, "store r{object} {field} r{source}"),
        Step::StoreGlobal { global, source } => write!(text, "storeg {global} r{source}"),
        Step::Cross => text.push_str("cross"),
        Step::Scrub(register) => write!(text, "scrub r{register}"),
        Step::Park => text.push_str("park"),
        Step::Unpark => text.push_str("unpark"),
        _ => put_work(text, step),
    }
}

/// Appends the step of a worker.
fn put_work(text: &mut String, step: &Step) -> Result<(), AllocError> {
    match step {
        Step::StartMark => text.push_str("mark"),
        Step::Pick { page, offset } => write!(text, "pick {page}.{offset}"),
        Step::ScanField => text.push_str("scan"),
        Step::ScanGlobal(global) => write!(text, "scang {global}"),
        Step::EndMark => text.push_str("endmark"),
        Step::Protect(pages) => put_protect(text, pages.as_slice()),
        Step::Copy { page, entry } => write!(text, "copy {page} {entry}"),
        Step::CopyPage(page) => write!(text, "copyall {page}"),
        Step::Release(page) => write!(text, "release {page}"),
        Step::CrossFor(thread) => write!(text, "crossfor t{thread}"),
        _ => Ok(()),
    }
}

/// Appends the protection of pages.
fn put_protect(text: &mut String, pages: &[u32]) -> Result<(), AllocError> {
    text.push_str("protect")?;
    for page in pages {
        write!(text, " {page}")?;
    }
    Ok(())
}

/// Appends a step as a script has it: its actor, its word and its operands.
pub fn put_step(text: &mut String, actor: Actor, step: &Step) -> Result<(), AllocError> {
    let actor = ActorText(actor);
    write!(text, "{actor} ")?;
    put_own(text, step)
}

/// Appends an order as a script has it.
fn put_order(alloc: Global, text: &mut String, order: &Order) -> Result<(), AllocError> {
    let (first, second, third) = (order.first, order.second, order.third);
    match order.verb {
        Verb::Get => write!(text, "get r{first} r{second} {third}"),
        Verb::GetGlobal => write!(text, "getg r{first} {second}"),
        Verb::Drain => text.push_str("drain"),
        _ => put_own(text, &order.step(alloc)?),
    }
}

/// Appends a command as a script has it.
pub fn put_command(alloc: Global, text: &mut String, command: &Command) -> Result<(), AllocError> {
    let actor = ActorText(command.actor);
    write!(text, "{actor} ")?;
    put_order(alloc, text, &command.order)
}
