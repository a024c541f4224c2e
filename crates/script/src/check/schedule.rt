//! Runs of scripts.

ghost use Rattle.std.specs.Prelude.{◌≡◌, true, None, IfOk, IfErr};
ghost use Rattle.script.specs.Ends.{IsClean};
ghost use Rattle.parser.specs.Orders.{needs_threads};
ghost use Rattle.script.specs.Faults.{is_line, TellsLine};

use crate::check::faults::FaultText;
use crate::check::steps::{check_command, look};
use crate::fault::RunFault;
use crate::schedule::{new_book, tell_command};
use crate::writing::{report, tell};
use cycle::Book;
use parser::{Command, Script};
use std::alloc::{AllocError, Global};
use std::fmt::Write as _;
use std::io;
use verify::Fault;

/// The result of a run in which the heap was verified.
#[derive(Clone, Copy, Debug, PartialEq, Eq)]
pub enum Checked {
    /// This many verifications were made, and all found the heap sound.
    Sound(u64),
    /// The last one found this fault.
    Faulty(Fault),
}

/// Does commands in order, and writes a line for each, up to the first in which a verification finds a fault. Returns
/// that fault.
fn check_commands<W: io::Write>(
    alloc: Global,
    book: &mut Book,
    commands: &[Command],
    text: &mut String,
    w: &mut W,
) -> Result<Option<Fault>, RunFault>
    ensures { IfOk result (λ fault. fault ≡ None) }
{
    let mut replies = Vec::new(alloc);
    let mut number = 1u64;
    for command in commands {
        let fault = check_command(alloc, book, command, &mut replies)?;
        if fault.is_some() {
            return Ok(fault);
        }
        tell_command(number, command, &replies, text, w)?;
        number += 1;
    }
    Ok(None)
}

/// Returns the first fault of the heap before these commands or after a step of them.
fn first_fault<W: io::Write>(
    alloc: Global,
    book: &mut Book,
    commands: &[Command],
    text: &mut String,
    w: &mut W,
) -> Result<Option<Fault>, RunFault>
    ensures { IfOk result (λ fault. fault ≡ None) }
{
    if let Some(fault) = look(alloc, book)? {
        return Ok(Some(fault));
    }
    check_commands(alloc, book, commands, text, w)
}

/// Replaces a text by the line of a fault.
fn put_fault(text: &mut String, fault: Fault, words: u32) -> Result<(), AllocError> {
    let fault = FaultText { fault, words };
    text.clear();
    writeln!(text, "{fault}")
}

/// Replaces a text by the last line of a run without a fault, with the number of verifications.
fn put_verified(text: &mut String, count: u64) -> Result<(), AllocError> {
    text.clear();
    writeln!(text, "verified {count}")
}

/// Writes the line of a fault that a verification found.
fn tell_fault<W: io::Write>(
    book: &Book,
    text: &mut String,
    fault: Fault,
    w: &mut W,
) -> Result<Checked, RunFault> {
    put_fault(text, fault, book.heap().memory().page_words())?;
    tell(w, text)?;
    Ok(Checked::Faulty(fault))
}

/// Writes the end of a run whose heap was always sound: the report, and the number of verifications.
fn tell_sound<W: io::Write>(
    alloc: Global,
    book: &Book,
    text: &mut String,
    w: &mut W,
) -> Result<Checked, RunFault>
    ensures { IfOk result IsClean }
{
    report(alloc, book.heap(), book.history(), w)?;
    let count = book.history().len() as u64 + 1;
    put_verified(text, count)?;
    tell(w, text)?;
    Ok(Checked::Sound(count))
}

/// Does commands in order on a recorded heap, verifies it after each step, and writes how it ended.
fn check_book<W: io::Write>(
    alloc: Global,
    book: &mut Book,
    commands: &[Command],
    w: &mut W,
) -> Result<Checked, RunFault>
    ensures { IfOk result IsClean }
{
    let mut text = String::new(alloc);
    match first_fault(alloc, book, commands, &mut text, w)? {
        Some(fault) => tell_fault(book, &mut text, fault, w),
        None => tell_sound(alloc, book, &mut text, w),
    }
}

/// Does what `by_check` does, for a script that needs no threads.
fn run_checked<W: io::Write>(alloc: Global, script: &Script, w: &mut W) -> Result<Checked, RunFault>
    ensures { IfOk result IsClean }
{
    let mut book = new_book(alloc, script)?;
    let checked = check_book(alloc, &mut book, script.commands(), w);
    // (by a call: at the end of a scope values are freed in the steps of this function, which are proved)
    drop(book);
    checked
}

/// Runs a script on a new heap as `by_schedule` does, and verifies the heap before the first command and after each
/// accepted step, also those inside a complete load or a drain. The line `verified n` follows the report, with the
/// number of verifications.
///
/// If one finds a fault, the command of its step has no line: the fault's line ends the output. No run of this
/// library has that result. Fails as `by_schedule` does.
pub fn by_check<W: io::Write>(
    alloc: Global,
    script: &Script,
    w: &mut W,
) -> Result<Checked, RunFault>
    ensures clean { IfOk result IsClean }
    ensures line { IfErr result (λ fault. is_line fault ≡ true → needs_threads script.now.commands ≡ true) }
    ensures kept { IfErr result (λ fault. is_line fault ≡ true → w.new ≡ w.old) }
    ensures told { needs_threads script.now.commands ≡ true → TellsLine script.now.spots.cycle result }
{
    if let Some(fault) = script.spots().cycle {
        return Err(RunFault::Line(fault));
    }
    match run_checked(alloc, script, w) {
        Ok(checked) => Ok(checked),
        Err(fault) => Err(fault.of_run()),
    }
}
