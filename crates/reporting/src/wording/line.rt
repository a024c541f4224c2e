//! The line of a command.

ghost use Rattle.std.specs.Prelude.{◌++◌, OnOk, codes, string_bytes, ◌≡◌};
ghost use Rattle.std.specs.Fmt.{decimal};
ghost use Rattle.std.specs.List.{flat_map};
ghost use Rattle.std.specs.Io.KnownBytes.{Appends};
ghost use Rattle.reporting.specs.Texts.{actor_text, line_text, drained_line, next_text, replies_text};

use crate::wording::putting::{put_actor, put_number, put_reply};
use model::{Actor, Reply};
use std::alloc::AllocError;
use std::io;

/// Appends a reply after another one.
fn put_next(text: &mut String, reply: &Reply) -> Result<(), AllocError>
    ensures { OnOk result (string_bytes text.new ≡ string_bytes text.old ++ next_text reply.now) }
{
    text.push_str(", ")?;
    put_reply(text, reply)
}

fn put_others(text: &mut String, replies: &[Reply]) -> Result<(), AllocError>
    ensures { OnOk result (string_bytes text.new ≡ string_bytes text.old ++ flat_map next_text replies.now) }
{
    for reply in replies {
        put_next(text, reply)?;
    }
    Ok(())
}

fn put_replies(text: &mut String, replies: &[Reply]) -> Result<(), AllocError>
    ensures { OnOk result (string_bytes text.new ≡ string_bytes text.old ++ replies_text replies.now) }
{
    let Some((first, others)) = replies.split_first() else {
        return Ok(());
    };
    put_reply(text, first)?;
    put_others(text, others)
}

/// Appends the head of a line: a command's number and its actor, with a space after each.
#[inline(always)]
fn put_head(text: &mut String, number: u64, actor: Actor) -> Result<(), AllocError>
    ensures { OnOk result (string_bytes text.new
        ≡ string_bytes text.old ++ decimal number ++ codes " " ++ actor_text actor ++ codes " ") }
{
    put_number(text, number)?;
    text.push(' ')?;
    put_actor(text, actor)?;
    text.push(' ')
}

/// Appends the line of a command to a text: its number, its actor, and the replies to its steps, with a comma and a
/// space between each two. Fails only if out of memory; the text may then end in a prefix of the line.
pub fn put_line(
    text: &mut String,
    number: u64,
    actor: Actor,
    replies: &[Reply],
) -> Result<(), AllocError>
    ensures { OnOk result (string_bytes text.new ≡ string_bytes text.old ++ line_text number actor replies.now) }
{
    put_head(text, number, actor)?;
    put_replies(text, replies)?;
    text.push('\n')
}

/// Appends the line of a drain to a text: its number, its actor, and how many steps were done. Fails only if out of
/// memory; the text may then end in a prefix of the line.
pub fn put_drained(
    text: &mut String,
    number: u64,
    actor: Actor,
    steps: usize,
) -> Result<(), AllocError>
    ensures { OnOk result (string_bytes text.new ≡ string_bytes text.old ++ drained_line number actor steps) }
{
    put_head(text, number, actor)?;
    text.push_str("drained ")?;
    put_number(text, steps as u64)?;
    text.push('\n')
}

/// Writes the line of a command. `text` is a buffer that is reused: its contents are lost. Fails if the writer fails,
/// or if out of memory. No clause can say when a writer fails, so a test shows that a line is written.
pub fn write_line<W: io::Write>(
    w: &mut W,
    text: &mut String,
    number: u64,
    actor: Actor,
    replies: &[Reply],
) -> io::Result<()>
    ensures { OnOk result (Appends (W.contents w.old) (W.contents w.new) (line_text number actor replies.now)) }
{
    text.clear();
    put_line(text, number, actor, replies)?;
    w.write_all(text.as_bytes())
}
