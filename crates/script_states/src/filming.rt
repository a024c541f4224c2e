//! Commands one after another, and what is written of them.

use crate::commands::{Take, do_command};
use crate::counts::put_counts;
use crate::filmed::Filmed;
use crate::lines::{tell_sizes, tell_state};
use crate::steps::put_command;
use anyhow::Result;
use script::{Command, tell, tell_command};
use std::alloc::{AllocError, Global};
use std::fmt::Write as _;
use std::io;

/// Returns the line of a command before it is done, by its number from 1.
fn command_line(alloc: Global, number: u64, command: &Command) -> Result<String, AllocError> {
    let mut text = String::new(alloc);
    write!(text, "command {number} ")?;
    put_command(alloc, &mut text, command)?;
    text.push('\n')?;
    Ok(text)
}

/// Does a command: writes its line, each of its steps with the state after it, and the line that `run` prints.
fn film_command<W: io::Write>(
    alloc: Global,
    take: &mut Take,
    book: &mut impl Filmed,
    number: u64,
    command: &Command,
    w: &mut W,
) -> Result<()> {
    tell(w, &command_line(alloc, number, command)?)?;
    do_command(take, book, command, w)?;
    tell(w, &String::from_str(alloc, "answer ")?)?;
    let mut text = String::new(alloc);
    Ok(tell_command(number, command, &take.replies, &mut text, w)?)
}

/// Writes the state of a recorded heap, and does commands, each of whose steps is written.
pub fn film<W: io::Write>(
    alloc: Global,
    mut book: impl Filmed + Drop,
    commands: &[Command],
    w: &mut W,
) -> Result<()> {
    let mut take = Take::new(alloc, true);
    tell_sizes(alloc, book.heap(), w)?;
    tell_state(alloc, &book, w)?;
    let mut number = 1u64;
    for command in commands {
        film_command(alloc, &mut take, &mut book, number, command, w)?;
        number = number.saturating_add(1);
    }
    Ok(())
}

/// Writes the line of counts of a recorded heap after `number` commands.
fn tell_counts<W: io::Write>(
    alloc: Global,
    book: &impl Filmed,
    number: u64,
    w: &mut W,
) -> Result<()> {
    let mut text = String::new(alloc);
    put_counts(book.heap(), number, &mut text)?;
    Ok(tell(w, &text)?)
}

/// Returns whether counts are written after the command of a number: after each `every` commands, and after the last.
fn is_counted(number: u64, every: u64, commands: &[Command]) -> bool {
    number.checked_rem(every).unwrap_or(0) == 0 || number == commands.len() as u64
}

/// Writes the counts of a recorded heap, and does commands: its counts are written after each `every` of them, and
/// after the last.
pub fn count<W: io::Write>(
    alloc: Global,
    mut book: impl Filmed + Drop,
    commands: &[Command],
    every: u64,
    w: &mut W,
) -> Result<()> {
    let mut take = Take::new(alloc, false);
    tell_sizes(alloc, book.heap(), w)?;
    tell_counts(alloc, &book, 0, w)?;
    let mut number = 1u64;
    for command in commands {
        do_command(&mut take, &mut book, command, w)?;
        if is_counted(number, every, commands) {
            tell_counts(alloc, &book, number, w)?;
        }
        number = number.saturating_add(1);
    }
    Ok(())
}
