//! The answers that plain values represent.

ghost use Rattle.std.specs.Prelude.{◌≡◌};
ghost use Rattle.model.specs.declared.steps.Answer.TheVariants as answers;
ghost use Rattle.model.specs.Saying.{said, done, loaded, lent, trapped, healed, scrubbed};

use model::{Answer, Buffer, Refusal, Reply, Trap};

/// Returns the reply to a step whose answer is `Done`.
#[inline(always)]
pub fn done(told: Result<(), Refusal>) -> Reply
    ensures { result ≡ said done told }
{
    told?;
    Ok(Answer::Done)
}

/// Returns the reply to a step that begins a load.
#[inline(always)]
pub fn loaded(told: Result<(), Refusal>) -> Reply
    ensures { result ≡ said loaded told }
{
    told?;
    Ok(Answer::Loaded)
}

/// Returns the answer for a buffer.
#[inline(always)]
pub fn lent(buffer: Buffer) -> Answer
    ensures { result ≡ lent buffer }
{
    Answer::Lent {
        page: buffer.page,
        offset: buffer.next,
    }
}

/// Returns the answer for a trap.
#[inline(always)]
pub fn trapped(trap: Trap) -> Answer
    ensures { result ≡ trapped trap }
{
    match trap {
        Trap::Moved => Answer::Moved,
        Trap::Marked => Answer::Marked,
        Trap::Clear => Answer::Clear,
    }
}

/// Returns the answer to `Heal`.
#[inline(always)]
pub fn healed(written: bool) -> Answer
    ensures { result ≡ healed written }
{
    if written {
        Answer::Healed
    } else {
        Answer::Changed
    }
}

/// Returns the answer to `Scrub`.
#[inline(always)]
pub fn scrubbed(corrected: bool) -> Answer
    ensures { result ≡ scrubbed corrected }
{
    if corrected {
        Answer::Moved
    } else {
        Answer::Clean
    }
}

/// Returns the reply to a step that copies the objects of a page.
pub fn copied_page(told: Result<u32, Refusal>) -> Reply
    ensures { result ≡ said answers.CopiedPage told }
{
    let copied = told?;
    Ok(Answer::CopiedPage {
        copied: u64::from(copied),
    })
}
