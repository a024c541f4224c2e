//! Runs of a script on one thread.

ghost use Rattle.std.specs.Prelude.{◌≡◌, ◌++◌, true, length, string_bytes, IfOk, IfErr, OnOk};
ghost use Rattle.std.specs.Io.KnownBytes.{Appends};
ghost use Rattle.cycle.specs.Books.{first_book};
ghost use Rattle.cycle.specs.Drains.{verdict};
ghost use Rattle.parser.specs.Orders.{needs_threads};
ghost use Rattle.parser.specs.Scripts.{script_alone};
ghost use Rattle.script.specs.Faults.{is_line, TellsLine};
ghost use Rattle.script.specs.Output.{output_text, lines_text, command_line, drain_line, book_after, told_text};

use crate::doing::do_command;
use crate::fault::RunFault;
use crate::writing::{report, tell};
use cycle::{Book, verdict};
use heap::NewFault;
use model::{Actor, Answer, Refusal};
use parser::{Command, Script, Then};
use reporting::{put_drained, put_line};
use std::alloc::{AllocError, Global};
use std::io;

/// Appends the line of a drain to a text: how many steps were done, or the error that ended it.
fn put_drain(
    text: &mut String,
    number: u64,
    actor: Actor,
    replies: &[Result<Answer, Refusal>],
) -> Result<(), AllocError>
    ensures { OnOk result (string_bytes text.new
        ≡ string_bytes text.old ++ drain_line number actor (length replies.now) (verdict replies.now)) }
{
    match verdict(replies) {
        Ok(()) => put_drained(text, number, actor, replies.len()),
        Err(refusal) => put_line(text, number, actor, &[Err(refusal)]),
    }
}

/// Appends the line of a command to a text.
fn put_command(
    text: &mut String,
    number: u64,
    command: &Command,
    replies: &[Result<Answer, Refusal>],
) -> Result<(), AllocError>
    ensures { OnOk result (string_bytes text.new
        ≡ string_bytes text.old ++ command_line number command.now replies.now) }
{
    match command.order.then() {
        Then::Nothing | Then::LoadsEnd | Then::Cycles | Then::Rolls => {
            put_line(text, number, command.actor, replies)
        }
        Then::Drains => put_drain(text, number, command.actor, replies),
    }
}

/// Writes the line of a command, by way of a text, whose contents are lost: its number, its actor, and the replies to
/// its steps. Fails with `Memory` if out of memory, and with `Write` if the writer fails.
pub fn tell_command<W: io::Write>(
    number: u64,
    command: &Command,
    replies: &[Result<Answer, Refusal>],
    text: &mut String,
    w: &mut W,
) -> Result<(), RunFault>
    ensures { OnOk result
        (Appends (W.contents w.old) (W.contents w.new) (command_line number command.now replies.now)) }
{
    text.clear();
    put_command(text, number, command, replies)?;
    tell(w, text)
}

/// Does the commands in order, and writes a line for each. The memory for lines and replies is reused.
fn tell_commands<W: io::Write>(
    alloc: Global,
    book: &mut Book,
    commands: &[Command],
    w: &mut W,
) -> Result<(), RunFault>
    ensures lines { OnOk result (Appends (W.contents w.old) (W.contents w.new) (lines_text 1 book.old commands.now)) }
    ensures book { OnOk result (book.new ≡ book_after book.old commands.now) }
{
    let mut text = String::new(alloc);
    let mut replies = Vec::new(alloc);
    let mut number = 1u64;
    for command in commands {
        do_command(alloc, book, command, &mut replies)?;
        tell_command(number, command, &replies, &mut text, w)?;
        number += 1;
    }
    Ok(())
}

/// Does commands on a recorded heap, writes the line of each, and then the report.
fn tell_all<W: io::Write>(
    alloc: Global,
    book: &mut Book,
    commands: &[Command],
    w: &mut W,
) -> Result<(), RunFault>
    ensures { OnOk result (Appends (W.contents w.old) (W.contents w.new) (told_text book.old commands.now)) }
{
    tell_commands(alloc, book, commands, w)?;
    report(alloc, book.heap(), book.history(), w)
}

/// Makes a recorded heap of a script's configuration. Fails with `Memory` if out of memory.
pub fn new_book(alloc: Global, script: &Script) -> Result<Book, RunFault>
    ensures { IfOk result (λ book. book ≡ first_book script.now.config) }
{
    let config = script.config().copy(alloc)?;
    match Book::new(alloc, config) {
        Ok(book) => Ok(book),
        Err(NewFault::Memory) => Err(RunFault::Memory),
        Err(NewFault::Config(_)) => unreachable!(),
    }
}

/// Does what `by_schedule` does, for a script that needs no threads.
#[tactic(auto, unfolding(crate::specs::Output::output_text))]
fn scheduled<W: io::Write>(alloc: Global, script: &Script, w: &mut W) -> Result<(), RunFault>
    ensures { OnOk result (Appends (W.contents w.old) (W.contents w.new) (output_text (script_alone script.now))) }
{
    let mut book = new_book(alloc, script)?;
    let told = tell_all(alloc, &mut book, script.commands(), w);
    // (by a call: at the end of a scope values are freed in the steps of this function, which are proved)
    drop(book);
    told
}

/// Runs a script on a new heap: writes the line of each command, and then the report.
///
/// The line of a rejected step has its error, and the run continues. Fails with `Memory` if out of memory, also in a
/// step, and with `Write` if the writer fails; and, before any step, with the fault of the first command that only a
/// run by threads does.
pub fn by_schedule<W: io::Write>(alloc: Global, script: &Script, w: &mut W) -> Result<(), RunFault>
    ensures ok { OnOk result (Appends (W.contents w.old) (W.contents w.new) (output_text (script_alone script.now))) }
    ensures line { IfErr result (λ fault. is_line fault ≡ true → needs_threads script.now.commands ≡ true) }
    ensures kept { IfErr result (λ fault. is_line fault ≡ true → w.new ≡ w.old) }
    ensures told { needs_threads script.now.commands ≡ true → TellsLine script.now.spots.cycle result }
{
    if let Some(fault) = script.spots().cycle {
        return Err(RunFault::Line(fault));
    }
    match scheduled(alloc, script, w) {
        Ok(()) => Ok(()),
        Err(fault) => Err(fault.of_run()),
    }
}
