//! Appending to a text, without a formatter.

ghost use Rattle.std.specs.Prelude.{◌≡◌, ◌++◌, ◌<◌, Err, OnOk, string_bytes};
ghost use Rattle.std.specs.Fmt.{decimal};
ghost use Rattle.reporting.specs.Texts.{actor_text, answer_text, reply_text};

use crate::wording::steps::AnswerParts;
use itoa::Buffer;
use model::{Actor, Answer, Refusal, Reply};
use std::alloc::AllocError;
use std::fmt::Write as _;

/// Appends a number below 10.
#[inline]
#[tactic(auto, using(std::proofs::lemmas::Fmt::decimal_digit))]
fn put_digit(text: &mut String, digit: u8) -> Result<(), AllocError>
    requires { digit < 10 }
    ensures { OnOk result (string_bytes text.new ≡ string_bytes text.old ++ decimal digit) }
{
    text.push((b'0' + digit) as char)
}

/// Appends a number.
#[inline]
pub(crate) fn put_number(text: &mut String, number: u64) -> Result<(), AllocError>
    ensures { OnOk result (string_bytes text.new ≡ string_bytes text.old ++ decimal number) }
{
    if number < 10 {
        put_digit(text, number as u8)
    } else {
        put_digits(text, number)
    }
}

/// Appends a number of any length.
#[inline(never)]
fn put_digits(text: &mut String, number: u64) -> Result<(), AllocError>
    ensures { OnOk result (string_bytes text.new ≡ string_bytes text.old ++ decimal number) }
{
    text.push_str(Buffer::new().format(number))
}

/// Appends an actor.
#[inline]
pub(crate) fn put_actor(text: &mut String, actor: Actor) -> Result<(), AllocError>
    ensures { OnOk result (string_bytes text.new ≡ string_bytes text.old ++ actor_text actor) }
{
    let (letter, number) = match actor {
        Actor::Thread(thread) => ('t', thread),
        Actor::Worker(worker) => ('w', worker),
    };
    text.push(letter)?;
    put_number(text, u64::from(number))
}

/// Appends an answer.
pub(crate) fn put_answer(text: &mut String, answer: Answer) -> Result<(), AllocError>
    ensures { OnOk result (string_bytes text.new ≡ string_bytes text.old ++ answer_text answer) }
{
    match AnswerParts::of(answer) {
        AnswerParts::Word(word) => text.push_str(word),
        AnswerParts::One(word, number) => {
            text.push_str(word)?;
            put_number(text, number)
        }
        AnswerParts::Two(word, first, between, second) => {
            text.push_str(word)?;
            put_number(text, first)?;
            text.push_str(between)?;
            put_number(text, second)
        }
    }
}

/// Appends a reply.
pub(crate) fn put_reply(text: &mut String, reply: &Reply) -> Result<(), AllocError>
    ensures { OnOk result (string_bytes text.new ≡ string_bytes text.old ++ reply_text reply.now) }
{
    match *reply {
        Ok(answer) => put_answer(text, answer),
        Err(refusal) => put_refusal(text, refusal),
    }
}

/// Appends the reply of a rejected step.
#[inline(never)]
fn put_refusal(text: &mut String, refusal: Refusal) -> Result<(), AllocError>
    ensures { OnOk result (string_bytes text.new ≡ string_bytes text.old ++ reply_text (Err refusal)) }
{
    write!(text, "refused {refusal}")
}
